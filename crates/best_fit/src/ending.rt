//! Moves the end of a heap's window in its region.
ghost use Rattle.std.specs.Prelude.{◌≡◌, ◌+◌, ◌*◌, ◌%◌, ◌^◌, ◌<◌, ◌≤◌, ◌++◌, ◌∷◌, [], length, None, List};
ghost use Rattle.raw_region.specs.Memory.{whole};
ghost use Rattle.raw_region.specs.Format.{current};
ghost use Rattle.block_tags.specs.declared.tile.Tile.{Tile as ATile};
ghost use Rattle.link_tree.specs.Tree.{bits};
ghost use Rattle.best_fit.specs.Ends.{AppendsBlock, MovesEnd, least_size};
ghost use Rattle.best_fit.specs.GapNodes.{gaps_in, gaps_of, tiles_in};
ghost use Rattle.best_fit.specs.GapTrees.{HasGapTree};
ghost use Rattle.best_fit.specs.Heap.{IsHeap, heap_touches, live_of};
ghost use Rattle.best_fit.specs.Touches.{TouchesTimes, TouchesSome};

use crate::deallocation;
use crate::heap::Heap;
use crate::heap::touch_counter::TouchCounter;
use crate::sizes::MIN_BLOCK_LEN;
use block_tags::{Role, TAG_LEN};
use raw_region::Steps;

impl Heap {
    /// Lengthens the window by `extra` bytes of the region after it: a multiple of 16, at least 32. They become a gap,
    /// or part of the gap at the old end. All blocks stay.
    pub fn extend_end(&mut self, extra: u64, steps: &mut Steps)
        requires min_len { 32 ≤ extra }
        requires multiple { extra % 16 ≡ 0 }
        requires max_size { length self.old.bytes + extra ≤ 1073741824 }
        requires in_bounds { length self.old.before + (length self.old.bytes + extra) ≤ length (whole self.old) }
        ensures changes { MovesEnd current self.old self.new (length self.old.bytes + extra) }
        ensures steps_lower { steps.old < steps.new }
        ensures steps { steps.new ≤ steps.old + heap_touches (live_of self.old.bytes) }
    {
        let mut touches = TouchCounter::new(&mut self.gaps);
        let at = append_block(&mut touches, extra);
        deallocation::release(&mut touches, at);
        steps.add(touches.count());
    }

    /// Shortens the window by the gap at its end, if there is one, so that it ends after the last block. A window
    /// without blocks shrinks to 144 bytes. All blocks stay. Without such a gap no byte changes.
    pub fn cut_end(&mut self, steps: &mut Steps)
        ensures changes { MovesEnd current self.old self.new (least_size (live_of self.old.bytes)) }
        ensures unchanged { least_size (live_of self.old.bytes) ≡ length self.old.bytes → self.new ≡ self.old }
        ensures steps_lower { steps.old < steps.new }
        ensures steps { steps.new ≤ steps.old + heap_touches (live_of self.old.bytes) }
    {
        let mut touches = TouchCounter::new(&mut self.gaps);
        cut_gap(&mut touches);
        steps.add(touches.count());
    }
}

/// Lengthens a heap's window by `extra` bytes, which become a block in use after all others, and returns the offset of
/// its tag.
fn append_block(touches: &mut TouchCounter, extra: u64) -> u64
    requires heap { IsHeap current touches.old.gaps.now.window.bytes }
    requires min_len { MIN_BLOCK_LEN ≤ extra }
    requires multiple { extra % 16 ≡ 0 }
    requires max_size { length touches.old.gaps.now.window.bytes + extra ≤ 1073741824 }
    requires in_bounds { length touches.old.gaps.now.window.before
        + (length touches.old.gaps.now.window.bytes + extra) ≤ length (whole touches.old.gaps.now.window) }
    requires no_overflow { touches.old.count + 2 < 2 ^ 64 }
    ensures position { result + TAG_LEN ≡ length touches.old.gaps.now.window.bytes }
    ensures block { AppendsBlock current touches.old.gaps.now.window touches.new.gaps.now.window extra }
    ensures gaps { gaps_in touches.new.gaps.now.window ≡ gaps_in touches.old.gaps.now.window }
    ensures steps_exact { TouchesTimes touches.old touches.new 2 }
{
    let size = touches.size();
    touches.resize(size + extra);
    touches.append_free(size);
    touches.set_use(size - TAG_LEN, Some(Role::Object));
    size - TAG_LEN
}

/// Shortens a heap's window by the gap at its end, if there is one.
fn cut_gap(touches: &mut TouchCounter)
    requires heap { IsHeap current touches.old.gaps.now.window.bytes }
    requires no_overflow { touches.old.count < 2 ^ 60 }
    ensures changes { MovesEnd current touches.old.gaps.now.window touches.new.gaps.now.window
        (least_size (live_of touches.old.gaps.now.window.bytes)) }
    ensures unchanged { least_size (live_of touches.old.gaps.now.window.bytes)
        ≡ length touches.old.gaps.now.window.bytes
        → touches.new.gaps.now.window ≡ touches.old.gaps.now.window }
    ensures steps { touches.new.count
        ≤ touches.old.count + 32 * bits (length (gaps_in touches.old.gaps.now.window) + 1) + 35 }
    ensures steps_lower { TouchesSome touches.old touches.new }
{
    let last = touches.last();
    if let Some(at) = deallocation::gap_at(last) {
        touches.unlink_gap(at + TAG_LEN);
        drop_gap(touches);
    }
}

/// Shortens a window by the gap at its end, which is not in the tree of the other gaps.
fn drop_gap(touches: &mut TouchCounter)
    requires tree { (prefix : List ATile) × (t : ATile) × (tiles_in touches.old.gaps.now.window ≡ prefix ++ t ∷ [])
        × (t.use_of ≡ None)
        × HasGapTree touches.old.gaps.now.window (gaps_of prefix) }
    requires no_overflow { touches.old.count + 1 < 2 ^ 64 }
    ensures changes { MovesEnd current touches.old.gaps.now.window touches.new.gaps.now.window
        (least_size (live_of touches.old.gaps.now.window.bytes)) }
    ensures steps_exact { TouchesTimes touches.old touches.new 1 }
{
    let size = touches.drop_last();
    touches.resize(size);
}
