//! Tiles: the parts of a segment from its header to its end tag. Boundary tags (Knuth, The Art of Computer Programming,
//! volume 1, section 2.5) hold the offset, the length and the use of each tile.
//!
//! The calls are functions of a `Window`, which the caller owns. The tags in the window are the only state.
#![tactic(auto)]

mod checking;
mod ends;
mod reading;
mod sizes;
mod tag_reader;
pub mod theorems;
mod tile;
mod tile_changes;
mod words;

pub use checking::{CheckedTags, check, check_counted};
pub use ends::{append_free, drop_last, lay};
pub use reading::{first, last, next, previous, red, tile_at};
pub use sizes::{HEADER_LEN, MAX_SEGMENT_LEN, TAG_LEN, is_legal_size};
pub use tile::{BadTag, Role, Tile};
pub use tile_changes::{merge_next, set_red, set_use, split};
