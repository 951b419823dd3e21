//! Segments made, opened, looked at, saved and closed.
ghost use Rattle.std.specs.Prelude.{◌≡◌, ◌≢◌, ◌≤◌, ◌↔◌, ◌+◌, MatchOption, false};
ghost use Rattle.std.specs.declared.option.Option.TheVariants.{None, Some};
ghost use Rattle.block_tags.specs.Format.{is_legal_size};
ghost use Rattle.image_check.specs.{Classes.number_of, declared.errors.OpenError.TheVariants.ReadFault};
ghost use Rattle.raw_region.specs.{Memory.zeros};
ghost use Rattle.seg_types.specs.Commands.{Free, Size};
ghost use Rattle.segment_c.specs.Opening.{IsNoImage, IsPlaced, OpensInHandle};
ghost use Rattle.segment_c.specs.Opening.{code_of_cause, place_of_cause, size_said};
ghost use Rattle.segment_c.specs.{Calls.HoldsSegment, Handles.AsksHandle, Handles.AsksSegment, Marked.PlacesSegment};
ghost use Rattle.segment_c.specs.{Images.CopiesOut, Images.mode_code, Images.mode_of, Images.mode_wrong, Marked.placed};
ghost use Rattle.segment_manager.specs.{blocks.Resized.room_behind, declared.modes.Mode.TheVariants.Write};
ghost use Rattle.segment_manager.specs.{Answers.Number, Calls.CreatesOk, State.IsSegment, State.SegmentState};

use crate::calls::{ask, passed};
use crate::codes::{
    BAD_IMAGE, BAD_MODE, BAD_SIZE, DONE, SHORT_BUFFER, SHORT_REGION, boxed_or_not, no_memory,
};
use crate::resizing::is_capacity;
use crate::slot::{HeldSegment, Slot, put, put_new, take};
use block_tags::is_legal_size;
use grow_shrink::region_for;
use image_check::{
    AcceptedVersions, FRONT, ImageClass, MemoryFault, OpenError, open_bytes, size_in,
};
use raw_region::{RawRegion, Steps};
use segment_manager::{Mode, Segment};
use std::alloc::Global;

/// Returns an empty segment of `size` bytes, open for writing. What the handle had is freed. The handle is as it was
/// unless the code is 0.
#[unsafe(no_mangle)]
pub extern "C" fn zx_create(h: &mut Slot, size: u64) -> u32
    ensures size { (result ≡ 22) ↔ (is_legal_size size ≡ false) }
    ensures creation { result ≡ 0 → HoldsSegment h.new.segment.value (λ t. CreatesOk (zeros size) 0 size Write t) }
    ensures error { 1 ≤ result → result ≢ 22 → result ≡ 26 }
    ensures unchanged_on_error { 1 ≤ result → h.new.segment.value ≡ h.old.segment.value }
    ensures marks { PlacesSegment result h.old.marks h.new.marks false }
{
    if !is_legal_size(size) {
        return BAD_SIZE;
    }
    let region = match RawRegion::new(h.alloc, size) {
        Ok(region) => region,
        Err(refusal) => return no_memory(MemoryFault::Bytes(refusal)),
    };
    let Ok(segment) = Segment::create(region, 0, size, Mode::Write) else {
        unreachable!()
    };
    let segment = passed!(boxed_or_not(h.alloc, segment));
    put_new(h, segment, false)
}

/// Frees the segment. A closed handle stays closed.
#[unsafe(no_mangle)]
pub extern "C" fn zx_close(h: &mut Slot)
    ensures closed { h.new.segment.value ≡ None }
    ensures marks { h.new.marks ≡ placed h.old.marks false }
{
    h.segment = HeldSegment::closed(h.alloc);
    h.marks.place(false);
}

/// Returns the number of bytes in the segment.
#[unsafe(no_mangle)]
pub extern "C" fn zx_size(h: &mut Slot, size: &mut u64) -> u32
    ensures call { AsksSegment Number 0 Size result h.old h.new size.old size.new }
{
    ask!(h, size, segment => segment.size())
}

/// Returns the bytes of all gaps, their tags included.
#[unsafe(no_mangle)]
pub extern "C" fn zx_free_bytes(h: &mut Slot, free_bytes: &mut u64) -> u32
    ensures call { AsksSegment Number 0 Free result h.old h.new free_bytes.old free_bytes.new }
{
    ask!(h, free_bytes, segment => segment.free())
}

/// Returns how the segment is open.
#[unsafe(no_mangle)]
pub extern "C" fn zx_mode(h: &mut Slot, mode: &mut u32) -> u32
    ensures call { AsksHandle 0 result h.old h.new (λ s t. (result ≡ 0)
        × (mode.new ≡ mode_code s.mode)) }
    ensures unchanged_on_error { 1 ≤ result → mode.new ≡ mode.old }
{
    ask!(h, mode, segment => match segment.mode() {
        Mode::Write => 0,
        Mode::ReadOnly => 1,
        Mode::CopyOnWrite => 2,
    })
}

/// Returns the number of bytes of the region after the segment.
#[unsafe(no_mangle)]
pub extern "C" fn zx_region_left(h: &mut Slot, left: &mut u64) -> u32
    ensures call { AsksHandle 0 result h.old h.new (λ s t. (result ≡ 0)
        × (left.new ≡ room_behind s.cut)) }
    ensures unchanged_on_error { 1 ≤ result → left.new ≡ left.old }
{
    ask!(h, left, segment => segment.region_left())
}

/// Copies the image to the front of the buffer.
#[unsafe(no_mangle)]
pub extern "C" fn zx_save(h: &mut Slot, image: &mut [u8]) -> u32
    ensures closed { h.old.segment.value ≡ None → result ≡ 16 }
    ensures saved { (s : SegmentState) → h.old.segment.value ≡ Some s
        → CopiesOut s.cut.bytes image.old image.new result }
    ensures unchanged { h.new.segment.value ≡ h.old.segment.value }
    ensures unchanged_on_error { 1 ≤ result → image.new ≡ image.old }
    ensures marks { h.new.marks ≡ h.old.marks }
{
    let segment = passed!(take(h));
    put(copy_out(segment.as_bytes(), image), h, segment)
}

/// Copies bytes to the front of a buffer, if it has room for them.
pub fn copy_out(bytes: &[u8], buffer: &mut [u8]) -> u32
    ensures saved { CopiesOut bytes.now buffer.old buffer.new result }
    ensures unchanged_on_error { 1 ≤ result → buffer.new ≡ buffer.old }
    ensures max_len { 1 ≤ result → result ≡ 24 }
{
    if buffer.len() < bytes.len() {
        return SHORT_BUFFER;
    }
    buffer[..bytes.len()].copy_from_slice(bytes);
    DONE
}

/// Returns the segment whose image the bytes are, in a region of `capacity` bytes. What the handle had is freed. The
/// handle is as it was unless the code is 0.
#[unsafe(no_mangle)]
pub extern "C" fn zx_open(h: &mut Slot, image: &[u8], capacity: u64, mode: u32) -> u32
    ensures opening { OpensInHandle image.now capacity mode result h.old h.new }
{
    zx_open_explained(h, image, capacity, mode, &mut 0)
}

/// Opens as `zx_open` does. For a code of a class, `place` is set to the byte that shows it.
#[unsafe(no_mangle)]
pub extern "C" fn zx_open_explained(
    h: &mut Slot,
    image: &[u8],
    capacity: u64,
    mode: u32,
    place: &mut u64,
) -> u32
    ensures opening { OpensInHandle image.now capacity mode result h.old h.new }
    ensures place { IsPlaced image.now result place.old place.new }
{
    if !is_capacity(capacity) {
        return BAD_SIZE;
    }
    let Some(mode) = mode_for(mode) else {
        return BAD_MODE;
    };
    let region = match RawRegion::new(h.alloc, capacity) {
        Ok(region) => region,
        Err(refusal) => return no_memory(MemoryFault::Bytes(refusal)),
    };
    let versions = AcceptedVersions::Current;
    match open_bytes(h.alloc, versions, image, region, 0, mode, &mut Steps::new()) {
        Ok(segment) => put_new(h, passed!(boxed_or_not(h.alloc, segment)), false),
        Err(refused) => refused_code(refused.cause, place),
    }
}

/// Checks that the bytes are the image of a segment, and returns a code.
#[unsafe(no_mangle)]
pub extern "C" fn zx_check(alloc: Global, image: &[u8]) -> u32
    ensures owner { result ≡ 0 → IsSegment image.now }
    ensures cause { 1 ≤ result → IsNoImage image.now result }
{
    zx_explain(alloc, image, &mut 0)
}

/// Checks that the bytes are the image of a segment, and returns a code. For a code of a class, `place` is set to the
/// byte that shows it. Takes memory for as many bytes as the front says, and none if there are fewer.
#[unsafe(no_mangle)]
pub extern "C" fn zx_explain(alloc: Global, image: &[u8], place: &mut u64) -> u32
    ensures owner { result ≡ 0 → IsSegment image.now }
    ensures cause { 1 ≤ result → IsNoImage image.now result }
    ensures place { IsPlaced image.now result place.old place.new }
{
    let size = size_said(image);
    let len = image.len() as u64;
    if len < size {
        *place = len;
        return class_code(ImageClass::Truncated);
    }
    let region = match region_for(alloc, size) {
        Ok(region) => region,
        Err(refusal) => return no_memory(MemoryFault::Bytes(refusal)),
    };
    let steps = &mut Steps::new();
    let versions = AcceptedVersions::Current;
    match open_bytes(alloc, versions, image, region, 0, Mode::ReadOnly, steps) {
        Ok(_) => DONE,
        Err(refused) => refused_code(refused.cause, place),
    }
}

/// Returns the code of the reason why an image in memory is not opened. For a class, `place` is set to the byte that
/// shows it.
pub fn refused_code(cause: OpenError, place: &mut u64) -> u32
    requires { cause ≢ ReadFault }
    ensures code { result ≡ code_of_cause cause }
    ensures place { place.new ≡ place_of_cause cause place.old }
{
    match cause {
        OpenError::Image(verdict) => {
            *place = verdict.place;
            class_code(verdict.class)
        }
        OpenError::RegionTooSmall => SHORT_REGION,
        OpenError::OutOfMemory(refusal) => no_memory(refusal),
        OpenError::ReadFault => unreachable!(),
    }
}

/// Returns the size that the first bytes say, or 0 if they say none.
fn size_said(image: &[u8]) -> u64
    ensures { result ≡ size_said image.now }
{
    if image.len() < FRONT {
        return 0;
    }
    size_in(image).unwrap_or(0)
}

/// Returns the mode of a code.
pub fn mode_for(code: u32) -> Option<Mode>
    ensures { MatchOption result (mode_wrong code ≡ 23) (λ mode. (mode_wrong code ≡ 0) × (mode ≡ mode_of code)) }
{
    match code {
        0 => Some(Mode::Write),
        1 => Some(Mode::ReadOnly),
        2 => Some(Mode::CopyOnWrite),
        _ => None,
    }
}

/// Returns the code of a class of images.
pub fn class_code(class: ImageClass) -> u32
    ensures { result ≡ 100 + number_of class }
{
    BAD_IMAGE + u32::from(class.number())
}
