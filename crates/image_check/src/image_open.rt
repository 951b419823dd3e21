//! Opens an image from a reader, from bytes in memory, or in its place in a region.
ghost use Rattle.std.specs.Prelude.{◌≡◌, ◌+◌, ◌-◌, ◌%◌, ◌^◌, ◌<◌, ◌≤◌, IfErr, MatchResult, Result};
ghost use Rattle.std.specs.Prelude.{length};
ghost use Rattle.raw_region.specs.Device.{ReadsSource, read_delta};
ghost use Rattle.raw_region.specs.Format.{current};
ghost use Rattle.raw_region.specs.Memory.{part, whole};
ghost use Rattle.segment_manager.specs.State.{SegmentState};
ghost use Rattle.segment_manager.specs.declared.modes.Mode.TheVariants.{ReadOnly};
ghost use Rattle.image_check.specs.declared.errors.OpenRefused.{OpenRefused as Refused};
ghost use Rattle.image_check.specs.Causes.{IsShown};
ghost use Rattle.image_check.specs.EarlyTests.{size_word};
ghost use Rattle.image_check.specs.Formats.{format_in, format_of};
ghost use Rattle.image_check.specs.Opening.{AsksToTheEnd, CountsOpening, IsRaisedFor, Opens, ReadsFrontAlone, as_given};
ghost use Rattle.image_check.specs.Opening.{cause_of, failed_reads, let_go, size_or_least};

use crate::checking::open_window;
use crate::errors::OpenRefused;
use crate::image_copy::{copy_image, find_image};
use crate::image_read::read_image;
use crate::versions::AcceptedVersions;
use raw_region::{RawRegion, Source, Steps};
use segment_manager::{Mode, Segment};
use std::alloc::Global;

/// Reads an image of an accepted version into the region, from `base` on, a multiple of 16, and opens it as a segment
/// of the current format. It checks the image by the rules of the image's own format. An image of the current format
/// stays byte for byte. In an image of format 1 only the version changes; from format 0 the gaps also get a free tree.
/// To only check an image, drop the segment.
///
/// # Errors
///
/// - `RegionTooSmall` as soon as the magic, the version and a legal size are read and the region ends before base plus
///   size; it then reads no more.
/// - A class of the image if the image denotes no directory: the first class that it shows, once it is read to its end
///   or the bytes so far decide the class. The class comes with the offset that shows it: the end of an image that is
///   too short, otherwise the first byte or link that is wrong by the rules of the class.
/// - `ReadFault` if the reader fails before that. It makes no read after an error, nor after the end.
/// - `OutOfMemory` if the allocator refuses memory for the check of the blocks: only if the image shows no class before
///   `BadIndex` and a tile is in use.
///
/// The error returns the region.
///
/// Each visit of the check raises `steps`: by at most 64 for each 16 bytes of the size, and 64. If the result is a
/// segment, or a class from `BadIndex` on, `steps` rises by at least one for each tile. It counts each tile that it
/// reads, but not the writing of a free tree.
pub fn open_image<S: Source>(
    alloc: Global,
    versions: AcceptedVersions,
    reader: &mut S,
    region: RawRegion,
    base: u64,
    mode: Mode,
    steps: &mut Steps,
) -> Result<Segment, OpenRefused>
    requires aligned { base % 16 ≡ 0 }
    requires reader { (S.history reader.old).failures < 2 ^ 64 - 1 }
    ensures opening { let given = read_delta (S.history reader.old) (S.history reader.new) in
        Opens (format_in versions given.bytes) given region base mode result }
    ensures place { let given = read_delta (S.history reader.old) (S.history reader.new) in IfErr result
        (λ refused. IsShown (format_in versions given.bytes) given.bytes refused.cause) }
    ensures history { ReadsSource (S.history reader.old) (S.history reader.new) (failed_reads (cause_of result)) }
    ensures ends { AsksToTheEnd (S.history reader.old) (S.history reader.new) }
    ensures exclusive { ReadsFrontAlone (S.history reader.old) (S.history reader.new) (cause_of result) }
    ensures steps { IsRaisedFor (size_or_least (read_delta (S.history reader.old) (S.history reader.new)).bytes)
        steps.old steps.new }
    ensures visits { CountsOpening (read_delta (S.history reader.old) (S.history reader.new)).bytes result
        steps.old steps.new }
{
    let window = read_image(versions, reader, region, base)?;
    open_window(alloc, window, mode, steps)
}

/// Opens an image of the current format, as [`open_image`] does.
pub fn open<S: Source>(
    alloc: Global,
    reader: &mut S,
    region: RawRegion,
    base: u64,
    mode: Mode,
    steps: &mut Steps,
) -> Result<Segment, OpenRefused>
    requires aligned { base % 16 ≡ 0 }
    requires reader { (S.history reader.old).failures < 2 ^ 64 - 1 }
    ensures opening { Opens current (read_delta (S.history reader.old) (S.history reader.new)) region base mode result }
    ensures place { IfErr result (λ refused.
        IsShown current (read_delta (S.history reader.old) (S.history reader.new)).bytes refused.cause) }
    ensures history { ReadsSource (S.history reader.old) (S.history reader.new) (failed_reads (cause_of result)) }
    ensures ends { AsksToTheEnd (S.history reader.old) (S.history reader.new) }
    ensures exclusive { ReadsFrontAlone (S.history reader.old) (S.history reader.new) (cause_of result) }
    ensures steps { IsRaisedFor (size_or_least (read_delta (S.history reader.old) (S.history reader.new)).bytes)
        steps.old steps.new }
    ensures visits { CountsOpening (read_delta (S.history reader.old) (S.history reader.new)).bytes result
        steps.old steps.new }
{
    let versions = AcceptedVersions::Current;
    open_image(alloc, versions, reader, region, base, mode, steps)
}

/// Opens an image of any of the three formats, as [`open_image`] does.
pub fn open_any<S: Source>(
    alloc: Global,
    reader: &mut S,
    region: RawRegion,
    base: u64,
    mode: Mode,
    steps: &mut Steps,
) -> Result<Segment, OpenRefused>
    requires aligned { base % 16 ≡ 0 }
    requires reader { (S.history reader.old).failures < 2 ^ 64 - 1 }
    ensures opening { let given = read_delta (S.history reader.old) (S.history reader.new) in
        Opens (format_of given.bytes) given region base mode result }
    ensures place { let given = read_delta (S.history reader.old) (S.history reader.new) in IfErr result
        (λ refused. IsShown (format_of given.bytes) given.bytes refused.cause) }
    ensures history { ReadsSource (S.history reader.old) (S.history reader.new) (failed_reads (cause_of result)) }
    ensures ends { AsksToTheEnd (S.history reader.old) (S.history reader.new) }
    ensures exclusive { ReadsFrontAlone (S.history reader.old) (S.history reader.new) (cause_of result) }
    ensures steps { IsRaisedFor (size_or_least (read_delta (S.history reader.old) (S.history reader.new)).bytes)
        steps.old steps.new }
    ensures visits { CountsOpening (read_delta (S.history reader.old) (S.history reader.new)).bytes result
        steps.old steps.new }
{
    let versions = AcceptedVersions::All;
    open_image(alloc, versions, reader, region, base, mode, steps)
}

/// Checks an image of the current format: opens it for reading, as [`open`] does, and returns the region with the image
/// in its place.
///
/// # Errors
///
/// As [`open`], with the same region. `steps` rises as there.
pub fn verify<S: Source>(
    alloc: Global,
    reader: &mut S,
    region: RawRegion,
    base: u64,
    steps: &mut Steps,
) -> Result<RawRegion, OpenRefused>
    requires aligned { base % 16 ≡ 0 }
    requires reader { (S.history reader.old).failures < 2 ^ 64 - 1 }
    ensures verdict { (opened : Result SegmentState Refused)
        × Opens current (read_delta (S.history reader.old) (S.history reader.new)) region base ReadOnly opened
        × (result ≡ let_go opened) }
    ensures place { IfErr result (λ refused.
        IsShown current (read_delta (S.history reader.old) (S.history reader.new)).bytes refused.cause) }
    ensures history { ReadsSource (S.history reader.old) (S.history reader.new) (failed_reads (cause_of result)) }
    ensures ends { AsksToTheEnd (S.history reader.old) (S.history reader.new) }
    ensures exclusive { ReadsFrontAlone (S.history reader.old) (S.history reader.new) (cause_of result) }
    ensures steps { IsRaisedFor (size_or_least (read_delta (S.history reader.old) (S.history reader.new)).bytes)
        steps.old steps.new }
    ensures visits { CountsOpening (read_delta (S.history reader.old) (S.history reader.new)).bytes result
        steps.old steps.new }
{
    match open(alloc, reader, region, base, Mode::ReadOnly, steps) {
        Ok(segment) => Ok(segment.into_region()),
        Err(refused) => Err(refused),
    }
}

/// Copies an image of an accepted version into the region, from `base` on, a multiple of 16, and opens it as
/// [`open_image`] does. `image` is all of the image.
///
/// # Errors
///
/// As [`open_image`], but never `ReadFault`. The error returns the region, unchanged if the number of bytes is not the
/// size in the image.
///
/// `steps` rises as there.
pub fn open_bytes(
    alloc: Global,
    versions: AcceptedVersions,
    image: &[u8],
    region: RawRegion,
    base: u64,
    mode: Mode,
    steps: &mut Steps,
) -> Result<Segment, OpenRefused>
    requires aligned { base % 16 ≡ 0 }
    ensures opening { Opens (format_in versions image.now) (as_given image.now) region base mode result }
    ensures place { IfErr result (λ refused. IsShown (format_in versions image.now) image.now refused.cause) }
    ensures not_written { IfErr result (λ refused. (length image.now ≡ size_word image.now → ⊥)
        → refused.region ≡ region) }
    ensures steps { IsRaisedFor (size_or_least image.now) steps.old steps.new }
    ensures visits { CountsOpening image.now result steps.old steps.new }
{
    let window = copy_image(versions, image, region, base)?;
    open_window(alloc, window, mode, steps)
}

/// Opens the image of the current format in the region, from `base` on, a multiple of 16. The image has `len` bytes. It
/// writes and copies no byte of the region.
///
/// # Errors
///
/// As [`open_bytes`]. The error returns the region unchanged.
///
/// `steps` rises as there.
pub fn open_here(
    alloc: Global,
    region: RawRegion,
    base: u64,
    len: u64,
    mode: Mode,
    steps: &mut Steps,
) -> Result<Segment, OpenRefused>
    requires aligned { base % 16 ≡ 0 }
    requires in_bounds { base + len ≤ length region }
    ensures opening { Opens current (as_given (part region base len)) region base mode result }
    ensures place { IfErr result (λ refused. IsShown current (part region base len) refused.cause) }
    ensures not_written { MatchResult result (λ segment. whole segment.cut ≡ region) (λ refused.
        refused.region ≡ region) }
    ensures steps { IsRaisedFor (size_or_least (part region base len)) steps.old steps.new }
    ensures visits { CountsOpening (part region base len) result steps.old steps.new }
{
    let window = find_image(region, base, len)?;
    open_window(alloc, window, mode, steps)
}
