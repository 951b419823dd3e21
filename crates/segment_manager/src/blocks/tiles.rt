//! The blocks and gaps of a segment, and an iterator over them.
ghost use Rattle.std.specs.Iterator.{at_most};
ghost use Rattle.std.specs.Prelude.{◌+◌, ◌-◌, ◌≡◌, OnErr, OnOk, Some, length, option_map, slice_get, ℕ};
ghost use Rattle.raw_region.specs.{Format.current, Memory.bytes_of};
ghost use Rattle.block_tags.specs.Tiles.{tiles_of};
ghost use Rattle.best_fit.specs.{Extents.spans, FreeTree.span, Heap.IsTileOf, Heap.ZeroesFree};
ghost use Rattle.seg_types.specs.Commands.{AllDeallocated, Sanity, ZeroFree};
ghost use Rattle.segment_manager.specs.State.{AnswersQuery, AnswersWith, TakesStep, done_answer};
ghost use Rattle.segment_manager.specs.{Answers.Boolean, indexes.Iterating.GoesOnTiles, indexes.Iterating.is_own_span};
ghost use Rattle.segment_manager.specs.{Calls.HasZeroGaps, Calls.IsTileOfIndex, Calls.as_span, Directory.live};

use crate::segment::Segment;
use block_tags::{Role, Tile};
use seg_types::Refusal;
use std::marker::Model;

/// A block in use or a gap.
#[derive(Clone, Copy, Debug, PartialEq, Eq)]
pub struct TileInfo {
    /// The offset of its tag, in bytes from the segment's start: a multiple of 16.
    pub offset: u64,
    /// The number of bytes, including the tag: a multiple of 16, at least 32.
    pub len: u64,
    /// The role of the block; `None` for a gap.
    pub use_of: Option<Role>,
}

impl TileInfo {
    /// Returns the block or gap of a tile.
    pub fn of(tile: Tile) -> TileInfo
        ensures { as_span result ≡ span tile }
    {
        TileInfo {
            offset: tile.offset,
            len: tile.len,
            use_of: tile.use_of,
        }
    }

    /// Returns true if it is the block of an object.
    pub fn is_object(&self) -> bool
        ensures { result ≡ is_own_span (as_span self.now) }
    {
        match self.use_of {
            None => false,
            Some(role) => role == Role::Object,
        }
    }
}

/// An iterator over the blocks and gaps of a segment, by offset. A walk over all of them takes one step for each.
///
/// In contracts it is the segment, and the number of blocks and gaps returned so far.
#[derive(Drop)]
pub struct Tiles<'a> {
    segment: &'a Segment,
    tile: Option<Tile>,
    at: u64,
}

impl<'a> Model for Tiles<'a> {
    ghost use Rattle.segment_manager.specs.Calls.{IsTileOfIndex};
    ghost use Rattle.segment_manager.specs.indexes.Iterating.{TileWalk};

    ghost Value = { TileWalk };

    ghost view = { λ w. record { segment = w.segment.now; at = w.at } };

    ghost invariant = { λ w. IsTileOfIndex w.segment.now w.at w.tile };
}

impl<'a> Iterator for Tiles<'a> {
    type Item = TileInfo;

    ghost next_gives = { GoesOnTiles };

    ghost remaining = { λ w. at_most
        (length (tiles_of (bytes_of w.segment.cut.bytes) (length w.segment.cut.bytes)) - w.at) };

    fn next(&mut self) -> Option<TileInfo> {
        let tile = self.tile?;
        let segment = self.segment;
        // The segment's bytes bound the number of its tiles, so 64 bits count them.
        let _ = segment.as_bytes();
        self.at += 1;
        self.tile = next_tile(segment, tile);
        Some(TileInfo::of(tile))
    }
}

impl Segment {
    /// Returns the first block or gap, or `None` if there is none, as in a segment of 144 bytes.
    ///
    /// Example: `let first = segment.first_tile()`.
    pub fn first_tile(&self) -> Option<Tile>
        ensures { IsTileOfIndex self.now 0 result }
    {
        self.heap.first_tile()
    }

    /// Returns the block or gap with `index` others before it, or `None` if there are fewer. It walks from the first
    /// one on.
    ///
    /// Example: `let span = segment.tile(0)`.
    pub fn tile(&self, index: u64) -> Option<TileInfo>
        ensures { AnswersWith self.now (λ d. slice_get (spans (live d)) index) (option_map as_span result) }
    {
        let tile = self.heap.tile(index)?;
        Some(TileInfo::of(tile))
    }

    /// Returns an iterator over the blocks and gaps, by offset.
    ///
    /// Example: `for span in segment.tiles()`.
    pub fn tiles(&self) -> Tiles<'_>
        ensures { result ≡ record { segment = self.now; at = 0 } }
    {
        Tiles {
            segment: self,
            tile: self.first_tile(),
            at: 0,
        }
    }

    /// Checks the tags and returns true if they are whole, as in each segment.
    ///
    /// Example: `if segment.sanity()`.
    pub fn sanity(&self) -> bool
        ensures { AnswersQuery self.now Sanity (Boolean result) }
    {
        self.heap.sanity()
    }

    /// Returns true if no block is in use, not even a block of an index.
    ///
    /// Example: `if segment.all_deallocated()`.
    pub fn all_deallocated(&self) -> bool
        ensures { AnswersQuery self.now AllDeallocated (Boolean result) }
    {
        self.heap.live_count() == 0
    }

    /// Sets the free bytes of each gap, which follow its tag and its links, to 0. No other byte changes.
    ///
    /// Example: `segment.zero_free()?`.
    ///
    /// # Errors
    ///
    /// `ReadOnly` if the segment is open for reading. Nothing changes.
    pub fn zero_free(&mut self) -> Result<(), Refusal>
        ensures step { TakesStep self.old self.new ZeroFree (done_answer result) }
        ensures zeros { OnOk result (HasZeroGaps self.new) }
        ensures changes { OnOk result (ZeroesFree current self.old.cut self.new.cut) }
        ensures refused { OnErr result (self.new ≡ self.old) }
    {
        if self.is_read_only() {
            return Err(Refusal::ReadOnly);
        }
        self.heap.zero_free();
        Ok(())
    }
}

/// Returns the block or gap after `tile`, or `None` if that is the last. A walk over all of them takes one step for
/// each.
///
/// Example: `let next = next_tile(&segment, tile)`.
///
/// # Conditions
///
/// `first_tile` or this call returned `tile`, and the segment has not changed since. `tiles` iterates over all of them
/// without a condition.
pub fn next_tile(segment: &Segment, tile: Tile) -> Option<Tile>
    requires { IsTileOf segment.now.cut.bytes tile }
    ensures { (i : ℕ)
        → slice_get (tiles_of (bytes_of segment.now.cut.bytes) (length segment.now.cut.bytes)) i ≡ Some tile
        → IsTileOfIndex segment.now (i + 1) result }
{
    segment.heap.next_tile(tile)
}
