//! Segments in memory that C lends, as in a file that it mapped: they stand there, and no byte of them is copied.
ghost use Rattle.std.specs.Prelude.{◌≡◌, ◌≤◌, false, true};
ghost use Rattle.std.specs.declared.option.Option.TheVariants.{None as NoSegment, Some as Held};
ghost use Rattle.raw_region.specs.{Memory.part, Memory.whole};
ghost use Rattle.segment_c.specs.{Calls.RefusesClosed, Lending.OpensHere, Marked.PlacesSegment, Opening.IsPlaced};
ghost use Rattle.segment_manager.specs.State.{SegmentState};

use crate::calls::passed;
use crate::codes::{BAD_MODE, BAD_SIZE, DONE, boxed_or_region};
use crate::images::{mode_for, refused_code};
use crate::resizing::is_capacity;
use crate::slot::{Slot, put_new, take};
use image_check::open_here;
use raw_region::{LentMemory, RawRegion, Steps};

/// Opens the image of `len` bytes at the front of the memory in place. It copies no byte, and writes none before the
/// first call that changes the segment. The memory belongs to the handle until `zx_detach`. What the handle had is
/// freed. The handle and the memory are as they were unless the code is 0.
#[unsafe(no_mangle)]
pub extern "C" fn zx_attach(h: &mut Slot, memory: &mut LentMemory, len: u64, mode: u32) -> u32
    ensures opening { OpensHere memory.old.bytes.items memory.new.bytes.items len mode result h.old h.new }
{
    zx_attach_explained(h, memory, len, mode, &mut 0)
}

/// Opens as `zx_attach` does. For a code of a class, `place` is set to the byte that shows it. The memory is checked
/// once, so the code and the place are of the same bytes, even if another process changes a mapped file.
#[unsafe(no_mangle)]
pub extern "C" fn zx_attach_explained(
    h: &mut Slot,
    memory: &mut LentMemory,
    len: u64,
    mode: u32,
    place: &mut u64,
) -> u32
    ensures opening { OpensHere memory.old.bytes.items memory.new.bytes.items len mode result h.old h.new }
    ensures place { IsPlaced (part memory.old.bytes.items 0 len) result place.old place.new }
{
    if !is_capacity(memory.len) || memory.len < len {
        return BAD_SIZE;
    }
    let Some(mode) = mode_for(mode) else {
        return BAD_MODE;
    };
    let alloc = h.alloc;
    let region = RawRegion::over(alloc, std::mem::replace(memory, LentMemory::none()));
    match open_here(alloc, region, 0, len, mode, &mut Steps::new()) {
        Ok(segment) => match boxed_or_region(alloc, segment) {
            Ok(segment) => put_new(h, segment, true),
            Err((code, region)) => {
                *memory = region.leak();
                code
            }
        },
        Err(refused) => {
            *memory = refused.region.leak();
            refused_code(refused.cause, place)
        }
    }
}

/// Closes the segment, and gives the memory of its region back with its present bytes. C lent that memory, or is to
/// free it if the library took it.
#[unsafe(no_mangle)]
pub extern "C" fn zx_detach(h: &mut Slot, memory: &mut LentMemory) -> u32
    ensures closed { RefusesClosed 0 result h.old.segment.value h.new.segment.value }
    ensures input { (s : SegmentState) → h.old.segment.value ≡ Held s
        → (result ≡ 0) × (h.new.segment.value ≡ NoSegment) × (memory.new.bytes.items ≡ whole s.cut) }
    ensures remainder { 1 ≤ result → memory.new ≡ memory.old }
    ensures marks { PlacesSegment result h.old.marks h.new.marks false }
{
    let segment = passed!(take(h));
    h.marks.place(false);
    *memory = Box::into_inner(segment).into_region().leak();
    DONE
}
