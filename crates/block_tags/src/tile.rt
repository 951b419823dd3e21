//! A tile, its use, and the error of this crate.

use thiserror::Error;

/// The use of a tile.
#[derive(Clone, Copy, Debug, PartialEq, Eq)]
pub enum Role {
    /// The value of an object: a named, a unique or an anonymous one.
    Object,
    /// The entries of one of the two indexes.
    Index,
    /// The elements of a vector or the bytes of a string.
    Storage,
    /// A pair of an ordered map.
    Node,
}

/// A part of a segment: its tag of 16 bytes, and the payload after the tag.
#[derive(Clone, Copy, Debug, PartialEq, Eq)]
pub struct Tile {
    /// The offset of the tag, in bytes from the segment's start: a multiple of 16.
    pub offset: u64,
    /// The number of bytes, including the tag: a multiple of 16, at least 32.
    pub len: u64,
    /// The use of the payload; `None` if the tile is free.
    pub use_of: Option<Role>,
    /// The tile's colour in a tree of tiles: red if true, otherwise black.
    pub red: bool,
}

/// The error of a check: the tags do not describe tiles that fill the window after its header.
#[derive(Clone, Copy, Debug, PartialEq, Eq, Error)]
#[error("the tags do not fill the segment with tiles")]
pub struct BadTag;
