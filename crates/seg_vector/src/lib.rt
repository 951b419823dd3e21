//! Vectors and strings at a place in a heap: their contents, their growth, and their bytes. Each type stores only the
//! place; each call takes the heap as an argument, so that no borrow lasts between two calls.
#![tactic(auto, using(crate::proofs::storage::Storage::sizes))]

mod container_capacity;
mod elements;
mod owning;
mod places;
mod strings;
mod text_arrays;
mod texts;
mod vectors;

pub use best_fit::Place;
pub use container_capacity::{free_storage, reserve, shrink_storage};
pub use elements::{spell, truncate};
pub use strings::SegString;
pub use texts::SegTexts;
pub use vectors::SegVec;
