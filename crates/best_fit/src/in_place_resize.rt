//! Lengthens and shortens a block in place.
ghost use Rattle.std.specs.Prelude.{◌≡◌, ◌≢◌, true, ◌+◌, ◌*◌, ◌%◌, ◌^◌, ◌<◌, ◌≤◌, ◌||◌, IsTrue, length, nat_le, nat_lt};
ghost use Rattle.raw_region.specs.Format.{current};
ghost use Rattle.link_tree.specs.Tree.{bits};
ghost use Rattle.best_fit.specs.GapNodes.{gaps_in};
ghost use Rattle.best_fit.specs.Heap.{TryExtends, IsHeap, ShrinksInPlace, heap_touches, is_live_in, live_of};
ghost use Rattle.best_fit.specs.Resizes.{SplitsBlock};
ghost use Rattle.best_fit.specs.Touches.{TouchesMore};

use crate::allocation::split_tail;
use crate::deallocation::{coalesce_next, gap_at, next_gap_len, unlink_if_gap};
use crate::heap::touch_counter::TouchCounter;
use crate::sizes::{MIN_BLOCK_LEN, room};
use block_tags::{MAX_SEGMENT_LEN, TAG_LEN};

/// Lengthens the block whose tag begins at `at` to hold `n` bytes, and returns true if it did. It does so if the block
/// is too short, and long enough with the gap after it.
pub fn extend(touches: &mut TouchCounter, at: u64, n: u64) -> bool
    requires heap { IsHeap current touches.old.gaps.now.window.bytes }
    requires live { IsTrue (is_live_in (live_of touches.old.gaps.now.window.bytes) (at + TAG_LEN)) }
    requires count { touches.old.count ≡ 0 }
    ensures changes { TryExtends current touches.old.gaps.now.window touches.new.gaps.now.window (at + TAG_LEN) n
        result }
    ensures touches { touches.new.count ≤ heap_touches (live_of touches.old.gaps.now.window.bytes) }
    ensures steps_lower { result ≡ true → touches.old.count < touches.new.count }
    ensures same_borrow { touches.new.gaps.ghost_name ≡ touches.old.gaps.ghost_name }
{
    if n > MAX_SEGMENT_LEN {
        return false;
    }
    let wanted = room(n);
    let len = touches.tile_at(at).len;
    if wanted <= len {
        return false;
    }
    let gap = next_gap_len(touches, at);
    if len + gap < wanted {
        return false;
    }
    absorb_and_split(touches, at, wanted);
    true
}

/// Shortens the block whose tag begins at `at` to hold `n` bytes, if the part cut off can become a gap.
pub fn shorten(touches: &mut TouchCounter, at: u64, n: u64)
    requires heap { IsHeap current touches.old.gaps.now.window.bytes }
    requires live { IsTrue (is_live_in (live_of touches.old.gaps.now.window.bytes) (at + TAG_LEN)) }
    requires count { touches.old.count ≡ 0 }
    ensures changes { ShrinksInPlace current touches.old.gaps.now.window touches.new.gaps.now.window (at + TAG_LEN) n }
    ensures touches { touches.new.count ≤ heap_touches (live_of touches.old.gaps.now.window.bytes) }
    ensures steps_lower { touches.new.gaps.now.window ≢ touches.old.gaps.now.window
        → touches.old.count < touches.new.count }
    ensures same_borrow { touches.new.gaps.ghost_name ≡ touches.old.gaps.ghost_name }
{
    if n > MAX_SEGMENT_LEN {
        return;
    }
    let wanted = room(n);
    let len = touches.tile_at(at).len;
    if len <= wanted {
        return;
    }
    let gap = next_gap_len(touches, at);
    if leaves_gap(len - wanted, gap) {
        absorb_and_split(touches, at, wanted);
    }
}

/// Returns true if the part cut off a block can become a gap: it joins the gap after the block, or has at least 32
/// bytes.
fn leaves_gap(cut: u64, behind: u64) -> bool
    ensures { result ≡ (nat_lt 0 behind || nat_le 32 cut) }
{
    behind > 0 || cut >= MIN_BLOCK_LEN
}

/// Joins the block whose tag begins at `at` with the gap after it, and cuts the block to `wanted` bytes if the
/// remainder can be a gap. The remainder then enters the tree.
pub fn absorb_and_split(touches: &mut TouchCounter, at: u64, wanted: u64)
    requires heap { IsHeap current touches.old.gaps.now.window.bytes }
    requires live { IsTrue (is_live_in (live_of touches.old.gaps.now.window.bytes) (at + TAG_LEN)) }
    requires min_len { MIN_BLOCK_LEN ≤ wanted }
    requires aligned { wanted % 16 ≡ 0 }
    requires max_size { wanted ≤ 1073741856 }
    requires no_overflow { touches.old.count < 2 ^ 60 }
    ensures cut { SplitsBlock current touches.old.gaps.now.window touches.new.gaps.now.window (at + TAG_LEN) wanted }
    ensures steps { touches.new.count
        ≤ touches.old.count + 64 * bits (length (gaps_in touches.old.gaps.now.window) + 1) + 74 }
    ensures steps_lower { TouchesMore touches.old touches.new }
{
    let behind = touches.next(at);
    let gap = gap_at(behind);
    unlink_if_gap(touches, gap);
    coalesce_next(touches, at, gap);
    let is_cut = split_tail(touches, at, wanted);
    if is_cut {
        touches.link_gap(at + wanted + TAG_LEN);
    }
}
