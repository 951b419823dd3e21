//! Walks over all tiles of a heap's window, from the header to the end tag.
ghost use Rattle.std.specs.Prelude.{◌≡◌, length, slice_get};
ghost use Rattle.raw_region.specs.Memory.{bytes_of};
ghost use Rattle.raw_region.specs.Format.{current};
ghost use Rattle.block_tags.specs.Tiles.{tiles_of};
ghost use Rattle.best_fit.specs.Heap.{IsHeap, is_live_in, live_of};
ghost use Rattle.best_fit.specs.BlockHints.{IsHintedHeap, LeadToBlocks};

use crate::block_hints::BlockHints;
use block_tags::{TAG_LEN, Tile, first, next, tile_at};
use raw_region::Window;

/// Returns true if a block in use has this handle, which can be any number. It finds a remembered handle at once, and
/// searches for any other from the nearest block hint on. It is inlined, and the search is not.
#[inline(always)]
pub fn is_live(window: &Window, hints: &BlockHints, handle: u64) -> bool
    requires { IsHintedHeap window.now.bytes hints.now }
    ensures { result ≡ is_live_in (live_of window.now.bytes) handle }
{
    if hints.is_known(handle) {
        return true;
    }
    is_reached(window, hints, handle)
}

/// Searches for a handle from the nearest block hint on, and returns true if a block in use has it.
#[inline(never)]
fn is_reached(window: &Window, hints: &BlockHints, handle: u64) -> bool
    requires { IsHintedHeap window.now.bytes hints.now }
    ensures { result ≡ is_live_in (live_of window.now.bytes) handle }
{
    let mut ahead = match hints.nearest(handle) {
        Some(known) => Some(tile_at(window, known - TAG_LEN)),
        None => first(window),
    };
    'tiles: while let Some(tile) = ahead {
        if tile.offset + TAG_LEN >= handle {
            return tile.offset + TAG_LEN == handle && tile.use_of.is_some();
        }
        ahead = next(window, tile.offset);
    }
    false
}

/// Returns true if a block in use has this handle, which can be any number, and remembers it then: `is_live` needs no
/// search for it.
#[inline(always)]
pub fn remember(window: &Window, hints: &mut BlockHints, handle: u64) -> bool
    requires { IsHintedHeap window.now.bytes hints.old }
    ensures hints { LeadToBlocks hints.new window.now.bytes }
    ensures live { result ≡ is_live_in (live_of window.now.bytes) handle }
{
    if hints.is_known(handle) {
        return true;
    }
    remember_reached(window, hints, handle)
}

/// Searches for a handle. Returns true if a block in use has it, and remembers it then.
#[inline(never)]
fn remember_reached(window: &Window, hints: &mut BlockHints, handle: u64) -> bool
    requires { IsHintedHeap window.now.bytes hints.old }
    ensures hints { LeadToBlocks hints.new window.now.bytes }
    ensures live { result ≡ is_live_in (live_of window.now.bytes) handle }
{
    let is_live = is_reached(window, hints, handle);
    if is_live {
        hints.insert_known(handle);
    }
    is_live
}

/// Notes the first block in use of each piece of a heap's window. It reads all tiles.
pub fn hint_blocks(window: &Window, hints: &mut BlockHints)
    requires { IsHintedHeap window.now.bytes hints.old }
    ensures { LeadToBlocks hints.new window.now.bytes }
{
    let mut ahead = first(window);
    'tiles: while let Some(tile) = ahead {
        if tile.use_of.is_some() {
            hints.insert(tile.offset + TAG_LEN);
        }
        ahead = next(window, tile.offset);
    }
}

/// Returns the number of blocks in use.
pub fn live_count(window: &Window) -> u64
    requires { IsHeap current window.now.bytes }
    ensures { result ≡ length (live_of window.now.bytes).extents }
{
    let mut count = 0;
    let mut ahead = first(window);
    'tiles: while let Some(tile) = ahead {
        if tile.use_of.is_some() {
            count += 1;
        }
        ahead = next(window, tile.offset);
    }
    count
}

/// Returns the tile with `index` tiles before it, or `None` if there are fewer.
pub fn tile(window: &Window, index: u64) -> Option<Tile>
    requires { IsHeap current window.now.bytes }
    ensures { result ≡ slice_get (tiles_of (bytes_of window.now.bytes) (length window.now.bytes)) index }
{
    let mut ahead = first(window);
    'tiles: for _ in 0..index {
        ahead = next(window, ahead?.offset);
    }
    ahead
}
