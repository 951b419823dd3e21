//! What people want to see of a segment: how its bytes are used, in figures and as a picture, and what its names are.
#![tactic(auto)]

mod figures;
mod names;
mod objects;
mod page;
mod parts;
mod picture;
mod scale;
mod shapes;
mod tallies;

pub use figures::stat;
pub use names::put_names;
pub use page::draw_page;
pub use picture::draw;
