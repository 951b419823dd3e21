//! Updates the block hints when a block is freed: its hint moves to the next block.
ghost use Rattle.std.specs.Prelude.{◌≡◌, ◌≢◌, ℕ, ◌+◌, ◌^◌, ◌<◌, IfSome, IsTrue};
ghost use Rattle.raw_region.specs.Format.{current};
ghost use Rattle.best_fit.specs.Heap.{IsHeap, is_live_in, live_of};
ghost use Rattle.best_fit.specs.BlockHints.{IsHinted, LeadToBlocks};
ghost use Rattle.best_fit.specs.Touches.{TouchesUpTo};

use crate::block_hints::BlockHints;
use crate::heap::touch_counter::TouchCounter;
use block_tags::TAG_LEN;

/// Removes a handle from the block hints. If it was the hint of a piece, the next block in use becomes a hint, if there
/// is one.
pub fn retarget_hint(touches: &mut TouchCounter, hints: &mut BlockHints, handle: u64)
    requires heap { IsHeap current touches.old.gaps.now.window.bytes }
    requires hints { LeadToBlocks hints.old touches.old.gaps.now.window.bytes }
    requires live { IsTrue (is_live_in (live_of touches.old.gaps.now.window.bytes) handle) }
    requires no_overflow { touches.old.count + 2 < 2 ^ 64 }
    ensures hints { (h : ℕ) → IsHinted hints.new h
        → (h ≢ handle) × IsTrue (is_live_in (live_of touches.old.gaps.now.window.bytes) h) }
    ensures gaps { touches.new.gaps.now ≡ touches.old.gaps.now }
    ensures steps_upper { TouchesUpTo touches.old touches.new 2 }
{
    if hints.remove(handle)
        && let Some(behind) = block_behind(touches, handle)
    {
        hints.insert(behind);
    }
}

/// Returns the handle of the next block in use after a block, if there is one.
fn block_behind(touches: &mut TouchCounter, handle: u64) -> Option<u64>
    requires heap { IsHeap current touches.old.gaps.now.window.bytes }
    requires live { IsTrue (is_live_in (live_of touches.old.gaps.now.window.bytes) handle) }
    requires no_overflow { touches.old.count + 2 < 2 ^ 64 }
    ensures block { IfSome result (λ h. (h ≢ handle)
        × IsTrue (is_live_in (live_of touches.old.gaps.now.window.bytes) h)) }
    ensures gaps { touches.new.gaps.now ≡ touches.old.gaps.now }
    ensures steps_upper { TouchesUpTo touches.old touches.new 2 }
{
    let behind = touches.next(handle - TAG_LEN)?;
    if behind.use_of.is_some() {
        return Some(behind.offset + TAG_LEN);
    }
    let behind = touches.next(behind.offset)?;
    if behind.use_of.is_some() {
        return Some(behind.offset + TAG_LEN);
    }
    None
}
