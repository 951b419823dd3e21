//! The opening of the image in a file, whatever it says of its size.
ghost use Rattle.std.specs.Prelude.{◌≡◌, ◌+◌, ◌≤◌, IfErr, IfOk, MatchResult, length};
ghost use Rattle.raw_region.specs.{Device.AppendsBytes, Device.read_delta, Refusals.out_of_memory_of};
ghost use Rattle.image_check.specs.declared.errors.MemoryFault.TheVariants.{Bytes};
ghost use Rattle.image_check.specs.declared.errors.OpenError.TheVariants.{OutOfMemory};
ghost use Rattle.image_check.specs.Opening.{as_given};
ghost use Rattle.grow_shrink.specs.LargerRegion.{region_len};
ghost use Rattle.segment_disk.specs.Events.{nothing_given};
ghost use Rattle.segment_file.specs.Opening.{IsPrepared, IsUnopenedBy, OpensFile, OpensIn, OpensReader};
ghost use Rattle.segment_file.specs.ReadingOn.{said_by};

use crate::file_errors::FileError;
use crate::reading_on::{read_rest, read_up_to};
use crate::replay::Replay;
use grow_shrink::region_for;
use image_check::{
    AcceptedVersions, FRONT, MemoryFault, OpenError, open_bytes, size_in, size_in_any,
};
use raw_region::{RawRegion, Source, Steps};
use segment_disk::{Disk, OpenedFile};
use segment_manager::{Mode, Segment};
use std::alloc::Global;

/// Returns a region with room for a segment of `bytes` bytes, and for `more` bytes.
#[tactic(auto, using(crate::proofs::opening::Rooms::region_capped))]
fn file_region(alloc: Global, bytes: u64, more: u64) -> Result<RawRegion, OpenError>
    ensures len { IfOk result (λ region. length region ≡ region_len (bytes + more)) }
    ensures refused { IfErr result (λ why. why ≡ OutOfMemory (Bytes (out_of_memory_of (region_len (bytes + more))))) }
{
    match region_for(alloc, bytes.saturating_add(more)) {
        Ok(region) => Ok(region),
        Err(refusal) => Err(OpenError::OutOfMemory(MemoryFault::Bytes(refusal))),
    }
}

/// Returns how many bytes an image of these versions has, as its front says, and 0 for bytes that begin none.
fn size_said(versions: AcceptedVersions, text: &[u8]) -> u64
    ensures { result ≡ said_by versions text.now }
{
    if text.len() < FRONT {
        return 0;
    }
    let size = match versions {
        AcceptedVersions::Current => size_in(text),
        AcceptedVersions::All => size_in_any(text),
    };
    match size {
        Ok(size) => size,
        Err(_) => 0,
    }
}

/// What was read of an image before it is opened, and the region for its segment.
struct Prepared {
    text: Vec<u8>,
    /// Whether the text is all of the image.
    is_whole: bool,
    region: RawRegion,
}

/// Reads the front of an image, and makes a region for its segment, with room for `more` bytes more. One that ends in
/// its front, or says more than `len` bytes, is read whole first, so that it takes no more memory than it has bytes.
fn prepare<S: Source>(
    alloc: Global,
    versions: AcceptedVersions,
    reader: &mut S,
    len: u64,
    more: u64,
) -> Result<Prepared, OpenError>
    requires { S.history reader.old ≡ nothing_given }
    ensures { MatchResult result (IsPrepared versions len more (S.history reader.new))
        (IsUnopenedBy versions len more (read_delta nothing_given (S.history reader.new))) }
{
    let mut text = Vec::new(alloc);
    read_up_to(reader, &mut text, FRONT as u64)?;
    let said = size_said(versions, text.as_slice());
    if said <= len {
        let region = file_region(alloc, len, more)?;
        let is_whole = text.len() < FRONT;
        return Ok(Prepared {
            text,
            is_whole,
            region,
        });
    }
    read_rest(reader, &mut text, said)?;
    let larger = file_region(alloc, said, more)?;
    Ok(Prepared {
        text,
        is_whole: true,
        region: larger,
    })
}

/// Opens an image that was read whole, at the front of a region with room for it.
fn open_text(
    alloc: Global,
    versions: AcceptedVersions,
    mode: Mode,
    text: &[u8],
    region: RawRegion,
) -> Result<Segment, OpenError>
    requires { said_by versions text.now ≤ length region }
    ensures { OpensIn versions (as_given text.now) region mode result }
{
    let steps = &mut Steps::new();
    match open_bytes(alloc, versions, text, region, 0, mode, steps) {
        Ok(segment) => Ok(segment),
        Err(refused) => Err(refused.cause),
    }
}

/// Opens an image of which the front was read, at the front of a region with room for it.
fn open_replay<S: Source>(
    alloc: Global,
    versions: AcceptedVersions,
    mode: Mode,
    reader: &mut Replay<S>,
    region: RawRegion,
) -> Result<Segment, OpenError>
    requires fresh { reader.old.given ≡ 0 }
    requires max_size { said_by versions reader.old.front ≤ length region }
    ensures opening { OpensIn versions (read_delta nothing_given (S.history reader.new.inner)) region mode result }
    ensures contents { AppendsBytes reader.old.front (S.history reader.new.inner).bytes }
{
    let steps = &mut Steps::new();
    match image_check::open_image(alloc, versions, reader, region, 0, mode, steps) {
        Ok(segment) => Ok(segment),
        Err(refused) => Err(refused.cause),
    }
}

/// Opens the image of a reader that was told to give `len` bytes, with room for `more` bytes more. Returns the reader
/// too.
fn open_image<S: Source>(
    alloc: Global,
    versions: AcceptedVersions,
    mode: Mode,
    mut reader: S,
    len: u64,
    more: u64,
) -> (S, Result<Segment, OpenError>)
    requires { S.history reader ≡ nothing_given }
    ensures { OpensReader versions more mode len (read_delta nothing_given (S.history result.0)) result.1 }
{
    let Prepared {
        text,
        is_whole,
        region,
    } = match prepare(alloc, versions, &mut reader, len, more) {
        Ok(prepared) => prepared,
        Err(why) => return (reader, Err(why)),
    };
    let text = text.as_slice();
    if is_whole {
        return (reader, open_text(alloc, versions, mode, text, region));
    }
    let mut reader = Replay::new(reader, text);
    let opened = open_replay(alloc, versions, mode, &mut reader, region);
    (reader.into_inner(), opened)
}

/// Returns the segment in a file, of any of these versions, in a region with room for `more` bytes more. The file is
/// closed.
///
/// # Errors
///
/// `Open` with the reason if there is no segment: `Image` if the bytes of the file denote no directory, `ReadFault` if
/// the file can't be opened or read, or `OutOfMemory`. `ForeignLog` if the log beside the file is of another file.
pub fn open_file<D: Disk>(
    alloc: Global,
    disk: &mut D,
    path: &str,
    versions: AcceptedVersions,
    mode: Mode,
    more: u64,
) -> Result<Segment, FileError>
    ensures { OpensFile D.step disk.old disk.new path.now versions mode more result }
{
    let OpenedFile { reader, len } = match disk.open(path) {
        Ok(opened) => opened,
        Err(why) => return Err(FileError::from(why)),
    };
    let (reader, opened) = open_image(alloc, versions, mode, reader, len, more);
    disk.close(reader);
    Ok(opened?)
}
