//! Tests of opening an image while memory is refused: the call reports it, returns the region, and succeeds when it is
//! repeated with memory.
//!
//! If no memory is refused, each test succeeds at its first try. `.ci/refused-memory` and
//! `rt try --test --fail-alloc N` refuse one request for memory, and then the second try succeeds.
use crate::checks::{done, refusal, same};
use crate::segments::{named, new_named};
use image_check::{ImageClass, OpenError, OpenRefused, Verdict, open, open_any};
use memory_devices::{EndBehaviour, MemorySource};
use raw_region::{RawRegion, Steps};
use segment_manager::{Mode, Segment};
use std::alloc::Global;
use std::process::Abort;

/// The outcome of a try, unless the test itself was refused memory before the call.
#[derive(Clone, Copy, PartialEq)]
enum Tried {
    /// The call succeeded.
    Done,
    /// The call was refused memory, and said so.
    Refused,
}

/// Makes a segment of 1024 bytes with nothing in it, at the front of its region.
fn empty(rt: &impl Abort, alloc: Global) -> Option<Segment> {
    let region = RawRegion::new(alloc, 1024).ok()?;
    let segment = done(rt, Segment::create(region, 0, 1024, Mode::Write));
    Some(segment)
}

/// Makes a segment with a map of one pair, at the front of its region.
fn map(rt: &impl Abort, alloc: Global) -> Option<Segment> {
    let mut segment = empty(rt, alloc)?;
    let made = segment.construct_map::<i64, i64, _>(&new_named(rt, b"m"));
    same(rt, made, Ok(192));
    let put = segment.map_put(&named(rt, b"m"), 1i64, 10i64);
    same(rt, put, Ok(true));
    Some(segment)
}

/// Writes other bytes into an image from `from` on.
fn write(rt: &impl Abort, image: &mut [u8], from: usize, bytes: &[u8]) {
    let part = image.get_mut(from..from.saturating_add(bytes.len()));
    part.expect(rt, "no such bytes").copy_from_slice(bytes);
}

/// Returns the image of a segment with the map.
fn image(rt: &impl Abort, alloc: Global) -> Option<Vec<u8>> {
    let segment = map(rt, alloc)?;
    let image = segment.as_bytes().to_vec(alloc).ok();
    drop(segment);
    image
}

/// Opens an image from offset 1024 of a region on. If `of_any`, it may have any format, else only the newest.
fn opens(
    alloc: Global,
    image: &[u8],
    region: RawRegion,
    of_any: bool,
) -> Result<Segment, OpenRefused> {
    let mut reader = MemorySource::new(image, 4096, EndBehaviour::Ends);
    let mut steps = Steps::new();
    if of_any {
        return open_any(alloc, &mut reader, region, 1024, Mode::Write, &mut steps);
    }
    open(alloc, &mut reader, region, 1024, Mode::Write, &mut steps)
}

/// Returns the region that comes back if memory was refused.
fn handed_back(rt: &impl Abort, refused: OpenRefused) -> RawRegion {
    let is_memory = matches!(&refused.cause, OpenError::OutOfMemory(_));
    same(rt, is_memory, true);
    same(rt, refused.region.capacity(), 2048);
    refused.region
}

/// Checks that the opened segment has the bytes of the image, after the first 16, which hold the format.
fn is_opened(rt: &impl Abort, image: &[u8], opened: Segment) -> Tried {
    same(rt, opened.as_bytes().get(16..), image.get(16..));
    same(rt, opened.map_get(&named(rt, b"m"), 1i64), Ok(Some(10i64)));
    drop(opened);
    Tried::Done
}

/// Checks that memory was refused, and that the image opens in the region that came back. Returns `Refused`.
fn serves(
    rt: &impl Abort,
    alloc: Global,
    image: &[u8],
    refused: OpenRefused,
    of_any: bool,
) -> Tried {
    let region = handed_back(rt, refused);
    drop(done(rt, opens(alloc, image, region, of_any)));
    Tried::Refused
}

/// Opens an image in a new region. If memory is refused, opens it again in the region that came back.
fn open_anew(rt: &impl Abort, alloc: Global, image: &[u8], of_any: bool) -> Option<Tried> {
    let region = RawRegion::new(alloc, 2048).ok()?;
    match opens(alloc, image, region, of_any) {
        Ok(opened) => Some(is_opened(rt, image, opened)),
        Err(refused) => Some(serves(rt, alloc, image, refused, of_any)),
    }
}

/// Checks that an image is refused as `BadFreeTree` if the link to its free tree leads to the link itself. The refusal
/// needs no memory.
fn refuse(rt: &impl Abort, alloc: Global, image: &[u8]) -> Option<Tried> {
    let region = RawRegion::new(alloc, 2048).ok()?;
    let refused = refusal(rt, opens(alloc, image, region, false));
    let class = ImageClass::BadFreeTree;
    let cause = OpenError::Image(Verdict { class, place: 24 });
    same(rt, refused.cause, cause);
    drop(refused);
    Some(Tried::Done)
}

/// What a try opens.
#[derive(Clone, Copy)]
enum Asked {
    /// An image is opened.
    Image,
    /// An image is refused by its class.
    Damaged,
    /// An image in format 1 is opened.
    Older,
}

/// Makes an image and tries to open it.
fn ask(rt: &impl Abort, alloc: Global, asked: Asked) -> Option<Tried> {
    let mut image = image(rt, alloc)?;
    match asked {
        Asked::Image => open_anew(rt, alloc, &image, false),
        Asked::Damaged => {
            write(rt, &mut image, 24, &[0; 8]);
            refuse(rt, alloc, &image)
        }
        Asked::Older => {
            write(rt, &mut image, 8, &[1]);
            open_anew(rt, alloc, &image, true)
        }
    }
}

/// Tries once, and again if memory was refused. The last try must succeed.
fn is_served(rt: &impl Abort, alloc: Global, asked: Asked) {
    if ask(rt, alloc, asked) != Some(Tried::Done) {
        same(rt, ask(rt, alloc, asked), Some(Tried::Done));
    }
}

#[test]
fn an_image_is_opened_once_there_is_memory(rt: HostRuntime) {
    is_served(&rt, rt.alloc(), Asked::Image);
}

#[test]
fn a_damaged_image_is_refused_by_its_class_without_memory(rt: HostRuntime) {
    is_served(&rt, rt.alloc(), Asked::Damaged);
}

#[test]
fn an_older_image_is_opened_once_there_is_memory(rt: HostRuntime) {
    is_served(&rt, rt.alloc(), Asked::Older);
}
