//! Frees blocks and joins gaps.
ghost use Rattle.std.specs.Prelude.{◌≡◌, ◌+◌, ◌*◌, ◌^◌, ◌<◌, ◌≤◌, List, Some, ◌++◌, IsTrue, length, true};
ghost use Rattle.block_tags.specs.declared.tile.Tile.{Tile as ATile};
ghost use Rattle.raw_region.specs.Format.{current};
ghost use Rattle.block_tags.specs.Lists.{next_in, previous_in, tile_in};
ghost use Rattle.block_tags.specs.Tiles.{is_free};
ghost use Rattle.block_tags.specs.Windows.{HasTileAt, EncodesTiles};
ghost use Rattle.link_tree.specs.Tree.{bits};
ghost use Rattle.best_fit.specs.Extents.{Gap};
ghost use Rattle.best_fit.specs.GapNodes.{gaps_in};
ghost use Rattle.best_fit.specs.GapTrees.{HasGapTree, ChangesGapTree, gap_offset, offset_of};
ghost use Rattle.best_fit.specs.Heap.{IsHeap, Deallocates, is_live_in, live_of};
ghost use Rattle.best_fit.specs.Touches.{ReadsOnce, TouchesMore, TouchesSome, TouchesUpTo};
ghost use Rattle.best_fit.specs.Tiling.{ChangesTags, free_behind, joined_before, joined_free_at};

use crate::heap::touch_counter::TouchCounter;
use block_tags::{TAG_LEN, Tile};

/// Frees the block whose tag begins at `at`. It becomes one gap with the gaps before and after it, which leave the
/// tree.
pub fn release(touches: &mut TouchCounter, at: u64)
    requires heap { IsHeap current touches.old.gaps.now.window.bytes }
    requires live { IsTrue (is_live_in (live_of touches.old.gaps.now.window.bytes) (at + TAG_LEN)) }
    requires no_overflow { touches.old.count < 2 ^ 60 }
    ensures released { Deallocates current touches.old.gaps.now.window touches.new.gaps.now.window (at + TAG_LEN) }
    ensures steps { touches.new.count
        ≤ touches.old.count + 96 * bits (length (gaps_in touches.old.gaps.now.window) + 1) + 108 }
    ensures steps_lower { TouchesSome touches.old touches.new }
{
    let behind = touches.next(at);
    let before = touches.previous(at);
    let gap_behind = gap_at(behind);
    let gap_before = gap_at(before);
    unlink_if_gap(touches, gap_behind);
    unlink_if_gap(touches, gap_before);
    touches.blacken(at);
    touches.set_use(at, None);
    coalesce_next(touches, at, gap_behind);
    coalesce_previous(touches, at, gap_before);
    touches.link_gap(gap_before.unwrap_or(at) + TAG_LEN);
}

/// Removes the gap at an offset from the tree, if there is an offset.
pub fn unlink_if_gap(touches: &mut TouchCounter, gap: Option<u64>)
    requires tree { (xs gs ys : List Gap) × (gap ≡ offset_of gs) × (length gs ≤ 1)
        × HasGapTree touches.old.gaps.now.window (xs ++ (gs ++ ys)) }
    requires no_overflow { touches.old.count < 2 ^ 63 }
    ensures tree { (xs gs ys : List Gap) → gap ≡ offset_of gs → length gs ≤ 1
        → HasGapTree touches.old.gaps.now.window (xs ++ (gs ++ ys))
        → HasGapTree touches.new.gaps.now.window (xs ++ ys) }
    ensures frame { ChangesGapTree touches.old.gaps.now.window touches.new.gaps.now.window }
    ensures steps { (hs : List Gap) → HasGapTree touches.old.gaps.now.window hs
        → touches.new.count ≤ touches.old.count + 32 * bits (length hs + 1) + 33 }
    ensures steps_upper { touches.new.count ≤ touches.old.count + 2 ^ 12 }
    ensures steps_lower { TouchesMore touches.old touches.new }
{
    if let Some(at) = gap {
        touches.unlink_gap(at + TAG_LEN);
    }
}

/// Returns the offset of a tile, if there is one and it is free.
pub fn gap_at(tile: Option<Tile>) -> Option<u64>
    ensures { result ≡ gap_offset tile }
{
    match tile {
        Some(tile) if tile.use_of.is_none() => Some(tile.offset),
        _ => None,
    }
}

/// Joins the tile at `at` with the gap after it, if there is one. `gap` is the gap's offset.
pub fn coalesce_next(touches: &mut TouchCounter, at: u64, gap: Option<u64>)
    requires tile { HasTileAt touches.old.gaps.now.window at }
    requires gap { (ts : List ATile) → EncodesTiles touches.old.gaps.now.window ts
        → gap_offset (next_in ts at) ≡ gap }
    requires no_overflow { touches.old.count + 1 < 2 ^ 64 }
    ensures tags { ChangesTags touches.old.gaps.now.window touches.new.gaps.now.window (joined_free_at at) }
    ensures steps_upper { TouchesUpTo touches.old touches.new 1 }
{
    if gap.is_some() {
        touches.merge_next(at);
    }
}

/// Returns the length of the gap after the tile at `at`, or 0 if no gap follows.
pub fn next_gap_len(touches: &mut TouchCounter, at: u64) -> u64
    requires tile { HasTileAt touches.old.gaps.now.window at }
    requires no_overflow { touches.old.count + 1 < 2 ^ 64 }
    ensures len { (ts : List ATile) → EncodesTiles touches.old.gaps.now.window ts → result ≡ free_behind at ts }
    ensures steps_exact { ReadsOnce touches.old touches.new }
{
    match touches.next(at) {
        Some(tile) if tile.use_of.is_none() => tile.len,
        _ => 0,
    }
}

/// Joins the free tile at `at` with the gap before it, if there is one. `gap` is the gap's offset.
fn coalesce_previous(touches: &mut TouchCounter, at: u64, gap: Option<u64>)
    requires tile { HasTileAt touches.old.gaps.now.window at }
    requires free { (ts : List ATile) (t : ATile) → EncodesTiles touches.old.gaps.now.window ts
        → tile_in ts at ≡ Some t → is_free t ≡ true }
    requires gap { (ts : List ATile) → EncodesTiles touches.old.gaps.now.window ts
        → gap_offset (previous_in ts at) ≡ gap }
    requires no_overflow { touches.old.count + 1 < 2 ^ 64 }
    ensures tags { ChangesTags touches.old.gaps.now.window touches.new.gaps.now.window (joined_before at) }
    ensures steps_upper { TouchesUpTo touches.old touches.new 1 }
{
    if let Some(before) = gap {
        coalesce_next(touches, before, Some(at));
    }
}
