//! The calls of a heap that allocate, free and resize blocks. They work through `TouchCounter`, which counts touches.
ghost use Rattle.std.specs.Prelude.{◌≡◌, ◌≢◌, true, is_ok, ◌<◌, ◌+◌, ◌≤◌, IsTrue};
ghost use Rattle.raw_region.specs.Format.{current};
ghost use Rattle.best_fit.specs.Heap.{Allocates, TryExtends, Deallocates, ShrinksInPlace, heap_touches, is_live_in};
ghost use Rattle.best_fit.specs.Heap.{live_of};

use crate::heap::Heap;
use crate::heap::touch_counter::TouchCounter;
use crate::refusal::NoSpace;
use crate::{allocation, deallocation, in_place_resize, passing};
use block_tags::{Role, TAG_LEN};
use raw_region::Steps;

impl Heap {
    /// Allocates a block for `n` bytes and returns its handle. The block is the front of the shortest gap that is long
    /// enough, or all of it if less than 32 bytes would remain. Of gaps with the same length it uses the first.
    ///
    /// # Errors
    ///
    /// `NoSpace` if no gap is long enough, as for each `n` above 1073741824. Nothing changes.
    pub fn allocate(&mut self, n: u64, role: Role, steps: &mut Steps) -> Result<u64, NoSpace>
        ensures answer { Allocates current self.old self.new n role result }
        ensures steps_lower { steps.old ≤ steps.new }
        ensures progress { is_ok result ≡ true → steps.old < steps.new }
        ensures steps { steps.new ≤ steps.old + heap_touches (live_of self.old.bytes) }
    {
        let mut touches = TouchCounter::new(&mut self.gaps);
        let result = allocation::allocate(&mut touches, n, role);
        steps.add(touches.count());
        if let Ok(handle) = &result {
            self.hints.insert(*handle);
        }
        result
    }

    /// Frees a block. It becomes one gap with the gaps before and after it.
    pub fn deallocate(&mut self, handle: u64, steps: &mut Steps)
        requires { IsTrue (is_live_in (live_of self.old.bytes) handle) }
        ensures released { Deallocates current self.old self.new handle }
        ensures steps_lower { steps.old < steps.new }
        ensures steps { steps.new ≤ steps.old + heap_touches (live_of self.old.bytes) }
    {
        let mut touches = TouchCounter::new(&mut self.gaps);
        passing::retarget_hint(&mut touches, &mut self.hints, handle);
        deallocation::release(&mut touches, handle - TAG_LEN);
        steps.add(touches.count());
    }

    /// Lengthens a block in place to hold `n` bytes, and returns true if it did. It does so if the block is too short,
    /// and long enough together with the gap after it. It uses all of the gap if less than 32 bytes would remain.
    /// Otherwise nothing changes.
    pub fn try_extend(&mut self, handle: u64, n: u64, steps: &mut Steps) -> bool
        requires { IsTrue (is_live_in (live_of self.old.bytes) handle) }
        ensures changes { TryExtends current self.old self.new handle n result }
        ensures steps_lower { steps.old ≤ steps.new }
        ensures progress { result ≡ true → steps.old < steps.new }
        ensures steps { steps.new ≤ steps.old + heap_touches (live_of self.old.bytes) }
    {
        let mut touches = TouchCounter::new(&mut self.gaps);
        let longer = in_place_resize::extend(&mut touches, handle - TAG_LEN, n);
        steps.add(touches.count());
        longer
    }

    /// Shortens a block in place to hold `n` bytes, if it is longer. A gap must follow the block, or the part cut off
    /// must have at least 32 bytes. Otherwise nothing changes.
    pub fn shrink_in_place(&mut self, handle: u64, n: u64, steps: &mut Steps)
        requires { IsTrue (is_live_in (live_of self.old.bytes) handle) }
        ensures changes { ShrinksInPlace current self.old self.new handle n }
        ensures steps_lower { steps.old ≤ steps.new }
        ensures progress { self.new ≢ self.old → steps.old < steps.new }
        ensures steps { steps.new ≤ steps.old + heap_touches (live_of self.old.bytes) }
    {
        let mut touches = TouchCounter::new(&mut self.gaps);
        in_place_resize::shorten(&mut touches, handle - TAG_LEN, n);
        steps.add(touches.count());
    }
}
