//! Ordered maps at a place in a heap, with a block for each pair.
#![tactic(auto, using(crate::proofs::pairs::NodeBlocks::rooms))]

mod finding;
mod linking;
mod listing;
mod maps;
mod nodes;
mod putting;
mod reading;

pub use best_fit::Place;
pub use maps::SegMap;
