//! Handles that need no search.
ghost use Rattle.std.specs.Prelude.{◌≡◌, true};
ghost use Rattle.best_fit.specs.Heap.{is_live_in, live_of};

use crate::heap::Heap;

/// Returns true if this handle, which can be any number, is remembered: a block in use has it. A block in use that is
/// not remembered has another handle: `Heap::remember` finds it.
#[inline(always)]
pub fn is_remembered(heap: &Heap, handle: u64) -> bool
    ensures { result ≡ true → is_live_in (live_of heap.now.bytes) handle ≡ true }
{
    heap.hints.is_known(handle)
}
