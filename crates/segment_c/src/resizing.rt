//! Segments that become longer or shorter, and that move into other regions.
ghost use Rattle.std.specs.Prelude.{◌≡◌, ◌<◌, ◌≤◌, ◌⊎◌, false, if◌then◌else◌, length, true};
ghost use Rattle.std.specs.declared.option.Option.TheVariants.{Some as Held};
ghost use Rattle.grow_shrink.specs.Resized.{growth_refusal, room_of, shrink_refusal};
ghost use Rattle.grow_shrink.specs.LargerRegion.{GrowsOrMovesOk};
ghost use Rattle.raw_region.specs.Regions.{IsCapacity};
ghost use Rattle.segment_c.specs.{Calls.HoldsSegment, Calls.RefusesArgument, Calls.RefusesClosed, Marked.RaisesMoves};
ghost use Rattle.segment_c.specs.{Growing.IsGrowthCode, Opening.capacity_wrong};
ghost use Rattle.segment_c.specs.Resizing.{MovesSegment, size_code};
ghost use Rattle.segment_manager.specs.blocks.Resized.{Resizes, grown, shrunk};
ghost use Rattle.segment_manager.specs.{Directory.Directory, State.DenotesCurrent, State.SegmentState};

use crate::calls::passed;
use crate::codes::{BAD_GROWTH, BAD_SIZE, DONE, READ_ONLY, SHORT_REGION, TOO_LARGE, no_memory};
use crate::slot::{Slot, put_changed, take};
use grow_shrink::{GrowError, GrowOrMoveError, copy_into, grow_or_move};
use image_check::MemoryFault;
use raw_region::RawRegion;
use segment_manager::Segment;
use std::alloc::Global;

/// The most bytes of a region.
const LARGEST_REGION: u64 = 1 << 40;

/// Tells whether a region may have this capacity in bytes: a multiple of 16, from 16 to 1099511627776.
pub fn is_capacity(bytes: u64) -> bool
    ensures error { capacity_wrong bytes ≡ (if result then 0 else 22) }
    ensures capacity { result ≡ true → IsCapacity bytes }
{
    16 <= bytes && bytes <= LARGEST_REGION && bytes % 16 == 0
}

/// Makes the segment as short as its last block lets it be.
#[unsafe(no_mangle)]
pub extern "C" fn zx_shrink(h: &mut Slot) -> u32
    ensures closed { RefusesClosed 0 result h.old.segment.value h.new.segment.value }
    ensures code { (s : SegmentState) → h.old.segment.value ≡ Held s → (d : Directory)
        → DenotesCurrent s.cut.bytes d → result ≡ size_code (shrink_refusal s.mode) }
    ensures shrinking { (s : SegmentState) → h.old.segment.value ≡ Held s → result ≡ 0
        → HoldsSegment h.new.segment.value (λ t. Resizes s t (λ d. shrunk d)) }
    ensures unchanged_on_error { 1 ≤ result → h.new.segment.value ≡ h.old.segment.value }
    ensures marks { RaisesMoves result h.old.marks h.new.marks }
{
    let mut segment = passed!(take(h));
    let code = match grow_shrink::shrink_to_fit(&mut segment) {
        Ok(()) => DONE,
        Err(why) => code_of_growth(why),
    };
    put_changed(code, h, segment)
}

/// Returns the code by which a segment does not become longer or shorter.
fn code_of_growth(why: GrowError) -> u32
    ensures code { result ≡ size_code (Held why) }
    ensures refused { 1 ≤ result }
{
    match why {
        GrowError::ReadOnly => READ_ONLY,
        GrowError::BadGrow => BAD_GROWTH,
        GrowError::TooLarge => TOO_LARGE,
        GrowError::RegionTooSmall => SHORT_REGION,
    }
}

/// Moves the segment to the front of a region of `capacity` bytes. Keys and handles stay good. One in memory that C
/// lent stays there, with the code 27.
#[unsafe(no_mangle)]
pub extern "C" fn zx_relocate(h: &mut Slot, capacity: u64) -> u32
    ensures stop { RefusesArgument (capacity_wrong capacity) result h.old.segment.value h.new.segment.value }
    ensures closed { RefusesClosed (capacity_wrong capacity) result h.old.segment.value h.new.segment.value }
    ensures changes { (s : SegmentState) → h.old.segment.value ≡ Held s → result ≡ 0
        → HoldsSegment h.new.segment.value (λ t. MovesSegment s t capacity) }
    ensures cause { (s : SegmentState) → capacity_wrong capacity ≡ 0 → h.old.segment.value ≡ Held s
        → h.old.marks.is_lent ≡ false → 1 ≤ result → ((result ≡ 27) × (capacity < length s.cut.bytes))
        ⊎ ((result ≡ 26) × (length s.cut.bytes ≤ capacity)) }
    ensures loan { (s : SegmentState) → capacity_wrong capacity ≡ 0 → h.old.segment.value ≡ Held s
        → h.old.marks.is_lent ≡ true → result ≡ 27 }
    ensures unchanged_on_error { 1 ≤ result → h.new.segment.value ≡ h.old.segment.value }
    ensures marks { RaisesMoves result h.old.marks h.new.marks }
{
    if !is_capacity(capacity) {
        return BAD_SIZE;
    }
    let mut segment = passed!(take(h));
    let code = if h.marks.is_lent {
        SHORT_REGION
    } else {
        relocate(h.alloc, &mut segment, capacity)
    };
    put_changed(code, h, segment)
}

/// Moves a segment to the front of a region of `capacity` bytes.
fn relocate(alloc: Global, segment: &mut Segment, capacity: u64) -> u32
    requires { IsCapacity capacity }
    ensures changes { result ≡ 0 → MovesSegment segment.old segment.new capacity }
    ensures cause { 1 ≤ result → ((result ≡ 27) × (capacity < length segment.old.cut.bytes))
        ⊎ ((result ≡ 26) × (length segment.old.cut.bytes ≤ capacity)) }
    ensures unchanged_on_error { 1 ≤ result → segment.new ≡ segment.old }
{
    if capacity < segment.as_bytes().len() as u64 {
        return SHORT_REGION;
    }
    let region = match RawRegion::new(alloc, capacity) {
        Ok(region) => region,
        Err(refusal) => return no_memory(MemoryFault::Bytes(refusal)),
    };
    let copy = copy_into(segment, region);
    *segment = copy;
    DONE
}

/// Makes the segment longer by `extra` bytes, which are free, in a larger region if its own has no room. One in
/// memory that C lent stays there, with the code 27 if that has no room.
#[unsafe(no_mangle)]
pub extern "C" fn zx_grow(h: &mut Slot, extra: u64) -> u32
    ensures closed { RefusesClosed 0 result h.old.segment.value h.new.segment.value }
    ensures code { (s : SegmentState) → h.old.segment.value ≡ Held s → h.old.marks.is_lent ≡ false → (d : Directory)
        → DenotesCurrent s.cut.bytes d → IsGrowthCode s extra result d }
    ensures growth { (s : SegmentState) → h.old.segment.value ≡ Held s → h.old.marks.is_lent ≡ false → result ≡ 0
        → HoldsSegment h.new.segment.value (λ t. GrowsOrMovesOk s t extra) }
    ensures loan_code { (s : SegmentState) → h.old.segment.value ≡ Held s → h.old.marks.is_lent ≡ true
        → (d : Directory) → DenotesCurrent s.cut.bytes d
        → result ≡ size_code (growth_refusal s.mode d.size extra (room_of s.cut)) }
    ensures loan_growth { (s : SegmentState) → h.old.segment.value ≡ Held s → h.old.marks.is_lent ≡ true
        → result ≡ 0 → HoldsSegment h.new.segment.value (λ t. Resizes s t (λ d. grown d extra)) }
    ensures unchanged_on_error { 1 ≤ result → h.new.segment.value ≡ h.old.segment.value }
    ensures marks { RaisesMoves result h.old.marks h.new.marks }
{
    let mut segment = passed!(take(h));
    let code = if h.marks.is_lent {
        match grow_shrink::grow(&mut segment, extra) {
            Ok(()) => DONE,
            Err(why) => code_of_growth(why),
        }
    } else {
        match grow_or_move(h.alloc, &mut segment, extra) {
            Ok(()) => DONE,
            Err(GrowOrMoveError::Growth(reason)) => code_of_growth(reason),
            Err(GrowOrMoveError::OutOfMemory(refusal)) => no_memory(MemoryFault::Bytes(refusal)),
        }
    };
    put_changed(code, h, segment)
}
