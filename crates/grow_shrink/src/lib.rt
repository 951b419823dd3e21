//! The same directory in a larger segment, or in the smallest segment that holds its blocks.
#![tactic(auto)]

mod larger_region;
mod refusals;
mod resizing;
pub mod theorems;

pub use larger_region::{GrowOrMoveError, copy_into, grow_or_move, region_for, size_of};
pub use refusals::GrowError;
pub use resizing::{grow, shrink_to_fit};
