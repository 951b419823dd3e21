//! Several calls as one: the segment is copied before them, and may be put back as it was.
ghost use Rattle.std.specs.declared.option.Option.TheVariants.{None as NoSegment, Some as Held};
ghost use Rattle.std.specs.Prelude.{◌≡◌, ◌≤◌, false, length};
ghost use Rattle.grow_shrink.specs.Resized.{room_of};
ghost use Rattle.raw_region.specs.Memory.{SameSurroundings, cut_at, whole};
ghost use Rattle.segment_c.specs.Transactions.{IsBeginCode, CopiesSegment, RollsBack, rollback_code};
ghost use Rattle.segment_c.specs.{Calls.HoldsSegment, Calls.RefusesClosed, Marked.PlacesSegment, Marked.RaisesMoves};
ghost use Rattle.segment_manager.specs.{State.IsSegment, State.SegmentState};

use crate::calls::passed;
use crate::codes::{DONE, READ_ONLY, SHORT_REGION, boxed_or_not, no_memory};
use crate::slot::{Slot, put, put_changed, put_new, take};
use grow_shrink::{copy_into, region_for, size_of};
use image_check::MemoryFault;
use raw_region::Window;
use segment_manager::unchecked::adopt;
use segment_manager::{Mode, Segment};

/// Copies the segment to another handle, from which `zx_rollback` puts it back. What that had is freed. It is as it was
/// unless the code is 0.
#[unsafe(no_mangle)]
pub extern "C" fn zx_begin(h: &mut Slot, before: &mut Slot) -> u32
    ensures closed { RefusesClosed 0 result h.old.segment.value h.new.segment.value }
    ensures code { (s : SegmentState) → h.old.segment.value ≡ Held s → IsBeginCode s.mode result }
    ensures copy { (s : SegmentState) → h.old.segment.value ≡ Held s → result ≡ 0
        → HoldsSegment before.new.segment.value (λ t. CopiesSegment s t) }
    ensures unchanged { h.new.segment.value ≡ h.old.segment.value }
    ensures unchanged_on_error { 1 ≤ result → before.new.segment.value ≡ before.old.segment.value }
    ensures marks { h.new.marks ≡ h.old.marks }
    ensures placement { PlacesSegment result before.old.marks before.new.marks false }
{
    let segment = passed!(take(h));
    if segment.mode() == Mode::ReadOnly {
        return put(READ_ONLY, h, segment);
    }
    let code = match region_for(h.alloc, size_of(&segment)) {
        Ok(region) => match boxed_or_not(h.alloc, copy_into(&segment, region)) {
            Ok(copy) => put_new(before, copy, false),
            Err(code) => code,
        },
        Err(refusal) => no_memory(MemoryFault::Bytes(refusal)),
    };
    put(code, h, segment)
}

/// Makes the segment again what `zx_begin` copied, where it lies now, and closes the copy. Both are as they were unless
/// the code is 0.
#[unsafe(no_mangle)]
pub extern "C" fn zx_rollback(h: &mut Slot, before: &mut Slot) -> u32
    ensures closed { RefusesClosed 0 result h.old.segment.value h.new.segment.value }
    ensures absent { before.old.segment.value ≡ NoSegment → result ≡ 16 }
    ensures code { (s t : SegmentState) → h.old.segment.value ≡ Held s → before.old.segment.value ≡ Held t
        → result ≡ rollback_code s t }
    ensures return_path { (s t : SegmentState) → h.old.segment.value ≡ Held s → before.old.segment.value ≡ Held t
        → result ≡ 0
        → HoldsSegment h.new.segment.value (λ u. RollsBack s t u) × (before.new.segment.value ≡ NoSegment) }
    ensures unchanged_on_error { 1 ≤ result → (h.new.segment.value ≡ h.old.segment.value)
        × (before.new.segment.value ≡ before.old.segment.value) }
    ensures marks { RaisesMoves result h.old.marks h.new.marks }
    ensures placement { PlacesSegment result before.old.marks before.new.marks false }
{
    let segment = passed!(take(h));
    let mut copy = match take(before) {
        Ok(copy) => copy,
        Err(code) => return put(code, h, segment),
    };
    let code = code_to_put_back(&segment, &copy);
    if code != DONE {
        put(code, before, copy);
        return put(code, h, segment);
    }
    let restored = put_back(Box::into_inner(segment), copy.as_bytes());
    *copy = restored;
    before.marks.place(false);
    put_changed(DONE, h, copy)
}

/// Returns the code by which a copy is not put in the place of a segment.
fn code_to_put_back(segment: &Segment, copy: &Segment) -> u32
    ensures code { result ≡ rollback_code segment.now copy.now }
    ensures room { result ≡ 0 → length copy.now.cut.bytes ≤ room_of segment.now.cut }
{
    if segment.mode() == Mode::ReadOnly {
        return READ_ONLY;
    }
    let (size, len) = (size_of(segment), size_of(copy));
    let (beyond, left) = (len.saturating_sub(size), segment.region_left());
    if beyond <= left {
        return DONE;
    }
    SHORT_REGION
}

/// Returns the segment whose image the bytes are, at the front of the region of another, and open as that is.
fn put_back(segment: Segment, image: &[u8]) -> Segment
    requires denotation { IsSegment image.now }
    requires room { length image.now ≤ room_of segment.cut }
    ensures bytes { result.cut.bytes ≡ image.now }
    ensures place { SameSurroundings (cut_at (whole segment.cut) 0 (length image.now)) result.cut }
    ensures mode { result.mode ≡ segment.mode }
{
    let mode = segment.mode();
    let mut window = Window::new(segment.into_region(), 0, image.len() as u64);
    window.write(0, image);
    adopt(window, mode)
}
