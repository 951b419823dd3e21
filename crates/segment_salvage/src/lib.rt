//! Salvages the objects of an image that no check accepts: makes each object that is right by itself in a segment of
//! its own.
#![tactic(auto)]

mod allowance;
mod bytes;
mod candidates;
mod heads;
mod losses;
mod map_rebuilding;
mod nodes;
mod rebuilding;
mod salvaging;
mod scalars;
mod storage;
mod texts;
mod tiles;

pub use losses::{Loss, LossCause};
pub use salvaging::salvage;
