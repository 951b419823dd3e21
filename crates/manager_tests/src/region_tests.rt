//! Segments made and opened in regions, as a region is seen from outside before and after.
ghost use Rattle.std.specs.Prelude.{◌≡◌, ◌%◌};
ghost use Rattle.raw_region.specs.Regions.{IsCapacity};

use crate::checks::{done, holds, refusal, same};
use crate::regions::{are_sevens, reads, region_of_sevens};
use crate::segments::fresh;
use image_check::{
    AcceptedVersions, ImageClass, OpenError, OpenRefused, Verdict, open, open_bytes, verify,
};
use memory_devices::{EndBehaviour, MemorySource};
use raw_region::{RawRegion, Steps};
use seg_types::Refusal;
use segment_manager::{CreateError, Mode, Segment};
use std::process::Abort;

/// Returns a segment of `size` bytes at `base` of a region of 1024 sevens.
fn made<R: Abort + AllocGlobal>(rt: &R, base: u64, size: u64, mode: Mode) -> Segment
    requires { base % 16 ≡ 0 }
{
    let region = region_of_sevens(rt, 1024);
    done(rt, Segment::create(region, base, size, mode))
}

#[test]
fn a_segment_is_made(rt: HostRuntime) {
    let segment = made(&rt, 16, 176, Mode::Write);
    same(&rt, segment.as_bytes().len(), 176);
    let front = b"MSEGFILE\x02\0\0\0\0\0\0\0\xB0";
    holds(&rt, segment.as_bytes().starts_with(front));
    same(&rt, segment.region_left(), 832);
    holds(&rt, segment.all_deallocated());
    drop(segment);
}

#[test]
fn a_segment_fills_its_region(rt: HostRuntime) {
    let mut segment = made(&rt, 16, 1008, Mode::CopyOnWrite);
    same(&rt, segment.region_left(), 0);
    same(&rt, segment.free(), 864);
    same(&rt, segment.zero_free(), Ok(()));
    drop(segment);
}

#[test]
fn the_smallest_segment(rt: HostRuntime) {
    let region = done(&rt, RawRegion::new(rt.alloc(), 144));
    let mut segment = done(&rt, Segment::create(region, 0, 144, Mode::ReadOnly));
    same(&rt, segment.tile(0), None);
    same(&rt, segment.mode(), Mode::ReadOnly);
    same(&rt, segment.zero_free(), Err(Refusal::ReadOnly));
    drop(segment);
}

/// Checks that a region of 1024 bytes still has only sevens.
fn is_as_it_was(rt: &impl Abort, region: &RawRegion) {
    same(rt, region.capacity(), 1024);
    are_sevens(rt, region, 0, 1024);
}

/// Checks that no segment of `size` bytes is made at `base` of 1024 bytes, and that the region comes back as it was.
fn makes_none<R: Abort + AllocGlobal>(rt: &R, size: u64, cause: CreateError) {
    let region = region_of_sevens(rt, 1024);
    let refused = refusal(rt, Segment::create(region, 16, size, Mode::Write));
    same(rt, refused.cause, cause);
    is_as_it_was(rt, &refused.region);
    drop(refused);
}

#[test]
fn a_refused_region_comes_back(rt: HostRuntime) {
    makes_none(&rt, 160, CreateError::BadSize);
    makes_none(&rt, 1024, CreateError::RegionTooSmall);
}

/// Checks that an image of 176 bytes has no place in a region from `base` on. That is told after its front, if the
/// reader fails, and the region comes back as it was.
fn opens_none<R: Abort + AllocGlobal>(rt: &R, base: u64)
    requires { base % 16 ≡ 0 }
{
    let front = b"MSEGFILE\x02\0\0\0\0\0\0\0\xB0\0\0\0\0\0\0\0";
    let mut reader = MemorySource::new(front, 7, EndBehaviour::Fails);
    let region = region_of_sevens(rt, 1024);
    let mut steps = Steps::new();
    let refused = refusal(
        rt,
        open(
            rt.alloc(),
            &mut reader,
            region,
            base,
            Mode::Write,
            &mut steps,
        ),
    );
    same(rt, refused.cause, OpenError::RegionTooSmall);
    is_as_it_was(rt, &refused.region);
    drop(refused);
}

#[test]
fn a_region_that_is_too_small_comes_back(rt: HostRuntime) {
    opens_none(&rt, 864);
    opens_none(&rt, 18446744073709551600);
}

/// Opens an image that lies in memory, from `base` on in a region of `capacity` sevens.
fn opened_in<R: Abort + AllocGlobal>(
    rt: &R,
    image: &[u8],
    capacity: u64,
    base: u64,
    versions: AcceptedVersions,
    mode: Mode,
) -> Result<Segment, OpenRefused>
    requires capacity { IsCapacity capacity }
    requires base { base % 16 ≡ 0 }
{
    let region = region_of_sevens(rt, capacity);
    let steps = &mut Steps::new();
    open_bytes(rt.alloc(), versions, image, region, base, mode, steps)
}

/// Checks that an image is opened where it lies in memory, for reading, at 16 of 2048 bytes.
fn opens_bytes<R: Abort + AllocGlobal>(rt: &R, image: &[u8]) {
    let (versions, mode) = (AcceptedVersions::Current, Mode::ReadOnly);
    let segment = done(rt, opened_in(rt, image, 2048, 16, versions, mode));
    same(rt, segment.as_bytes(), image);
    same(rt, segment.mode(), Mode::ReadOnly);
    same(rt, segment.region_left(), 1008);
    drop(segment);
}

#[test]
fn an_image_in_memory_is_opened(rt: HostRuntime) {
    let made = fresh(&rt);
    opens_bytes(&rt, made.segment.as_bytes());
    made.ends(&rt);
}

/// Checks that the bytes have no place in a region of 1024 bytes from 864 on, and the region comes back as it was.
fn opens_no_bytes<R: Abort + AllocGlobal>(rt: &R, image: &[u8], cause: OpenError) {
    let (versions, mode) = (AcceptedVersions::Current, Mode::Write);
    let refused = refusal(rt, opened_in(rt, image, 1024, 864, versions, mode));
    same(rt, refused.cause, cause);
    is_as_it_was(rt, &refused.region);
    drop(refused);
}

/// Returns the refusal of an image that ends too early, after `place` bytes.
fn truncated_at(place: u64) -> OpenError {
    let class = ImageClass::Truncated;
    OpenError::Image(Verdict { class, place })
}

#[test]
fn bytes_that_are_too_few_leave_the_region(rt: HostRuntime) {
    opens_no_bytes(&rt, b"MSEG", truncated_at(4));
    let of_144 = b"MSEGFILE\x02\0\0\0\0\0\0\0\x90\0\0\0\0\0\0\0";
    opens_no_bytes(&rt, of_144, truncated_at(24));
    let of_176 = b"MSEGFILE\x02\0\0\0\0\0\0\0\xB0\0\0\0\0\0\0\0";
    opens_no_bytes(&rt, of_176, OpenError::RegionTooSmall);
}

/// Returns what the check of an image at 16 in a region of 2048 sevens answers.
fn verified<R: Abort + AllocGlobal>(rt: &R, image: &[u8]) -> Result<RawRegion, OpenRefused> {
    let mut reader = MemorySource::new(image, 7, EndBehaviour::Ends);
    let region = region_of_sevens(rt, 2048);
    verify(rt.alloc(), &mut reader, region, 16, &mut Steps::new())
}

/// Checks that a region has sevens before and after the place of an image of 1024 bytes at 16.
fn has_sevens_beside(rt: &impl Abort, region: &RawRegion) {
    are_sevens(rt, region, 0, 16);
    are_sevens(rt, region, 1040, 1008);
}

#[test]
fn a_right_image_comes_back_in_its_place(rt: HostRuntime) {
    let made = fresh(&rt);
    let image = made.segment.as_bytes();
    let region = done(&rt, verified(&rt, image));
    reads(&rt, &region, 16, image);
    has_sevens_beside(&rt, &region);
    made.ends(&rt);
}

#[test]
fn a_wrong_image_is_told_and_writes_nothing_beside(rt: HostRuntime) {
    let mut image = [0; 1024];
    image[..18].copy_from_slice(b"MSEGFILE\x02\0\0\0\0\0\0\0\0\x04");
    has_wrong_tag(&rt, refusal(&rt, verified(&rt, &image)));
    let (versions, mode) = (AcceptedVersions::All, Mode::ReadOnly);
    let opened = opened_in(&rt, &image, 2048, 16, versions, mode);
    has_wrong_tag(&rt, refusal(&rt, opened));
}

/// Checks that an image is refused for a wrong tag at 128, and that nothing is written beside its place.
fn has_wrong_tag(rt: &impl Abort, refused: OpenRefused) {
    let class = ImageClass::BadTag;
    let cause = OpenError::Image(Verdict { class, place: 128 });
    same(rt, refused.cause, cause);
    has_sevens_beside(rt, &refused.region);
    drop(refused);
}

#[test]
fn each_reason_has_its_text(rt: HostRuntime) {
    let (size, region) = (CreateError::BadSize, CreateError::RegionTooSmall);
    let text = done(&rt, format!(in rt.alloc(); "{size}, {region}"));
    same(&rt, text.as_str(), "size refused, region too small");
}
