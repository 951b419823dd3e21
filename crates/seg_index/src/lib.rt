//! The two indexes of a segment: links to objects, sorted by name or by the code of the kind.
//!
//! An index is three words in the header of a heap (a link, a count and a capacity) and a block of links. A full index
//! moves into a block with twice its capacity. A command allocates that block before it changes anything, while the old
//! block is in use; if the command fails later, it frees the new block.
#![tactic(auto, using(crate::proofs::entries::Entries::sizes))]

mod adding;
mod comparing;
mod index;
mod index_capacity;
mod keys;
mod searching;
pub mod theorems;

pub use index::Index;
pub use index_capacity::Growth;
pub use keys::{Entry, Lookup};
