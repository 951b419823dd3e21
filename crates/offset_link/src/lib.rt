//! Links that store the distance from their own offset to their target, so that they hold wherever the window lies. The
//! distance 1 is null.
#![tactic(auto)]

mod link;
mod moves;

pub use link::{BadLink, NULL, checked, copy, load, store, store_null};
pub use moves::{Distance, all_lead, are_links, shift, shift_non_null};
