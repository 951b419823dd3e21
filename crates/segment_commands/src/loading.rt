//! The commands that make a segment of a dump: in a new file, or in the place of one that is there.
ghost use Rattle.std.specs.Prelude.{◌≡◌, ◌^◌, ◌-◌, ◌<◌, ℕ, true, false, Some};
ghost use Rattle.block_tags.specs.Format.{is_legal_size};
ghost use Rattle.segment_disk.specs.Events.{Replacement};
ghost use Rattle.segment_scripts.specs.RunOutcome.{MeetsEndOnce};
ghost use Rattle.segment_commands.specs.Loading.{IsFitting, IsMadeIfGiven, IsRequestedOrWritten, IsSizeFit};
ghost use Rattle.segment_commands.specs.Loading.{IsWantedSize, LoadsDump, LoadsInto, LoadsSegment, LoadsWhatFits};
ghost use Rattle.segment_commands.specs.Loading.{MeetsDumpEnd, NeedsRoom, RunsLoad, RunsLoadOver, load_fault};

use crate::command_faults::{CommandFault, written};
use crate::creating::write_made;
use crate::read_all::read_text;
use block_tags::is_legal_size;
use grow_shrink::region_for;
use raw_region::Source;
use segment_cli::SessionFault;
use segment_disk::{Disk, Presence, SaveMode};
use segment_dump::{LoadError, count_dump, declared_size, without_notes};
use segment_file::write_image;
use segment_manager::Segment;
use std::alloc::Global;

/// Returns the size of a dump's segment in bytes: the requested one, or else the one in the dump, or 0 if the text has
/// none.
fn wanted_size(text: &[u8], size: Option<u64>) -> u64
    ensures request { IsRequestedOrWritten text.now size result }
    ensures size_request { IsWantedSize text.now size result }
{
    match size {
        Some(size) => size,
        None => declared_size(text).unwrap_or(0),
    }
}

/// Returns why a load is refused, as the program answers it, of a dump whose objects need `needed` bytes.
fn fault_of(error: LoadError, needed: u64) -> CommandFault
    ensures { result ≡ load_fault needed error }
{
    match error {
        LoadError::BadDump(bad) => CommandFault::BadDump(bad),
        LoadError::BadSize => CommandFault::Session(SessionFault::BadSize),
        LoadError::RegionTooSmall => CommandFault::Session(SessionFault::RegionTooSmall),
        LoadError::NoSpace | LoadError::LongText => CommandFault::NoSpace(needed),
    }
}

/// Returns how many bytes a segment has at the least that has the objects of a dump.
#[tactic(auto, using(crate::proofs::loading::Loads::needs_counted, crate::proofs::loading::Loads::needs_uncounted))]
fn needed_by(text: &[u8]) -> u64
    ensures { NeedsRoom text.now result }
{
    match count_dump(without_notes(text)) {
        Ok(count) => count.needs.room,
        Err(_) => 0,
    }
}

/// Returns a segment of a dump, of the size that is asked for, or else with nothing free.
fn segment_of(alloc: Global, text: &[u8], size: Option<u64>) -> Result<Segment, CommandFault>
    ensures load { LoadsSegment text.now size result }
    ensures creation { IsFitting text.now size → IsMadeIfGiven result }
{
    let region = region_for(alloc, wanted_size(text, size))?;
    let mut room = region_for(alloc, text.len() as u64)?;
    let capacity = room.capacity();
    match segment_dump::load(text, room.bytes_mut(0, capacity), region, 0, size) {
        Ok(segment) => Ok(segment),
        Err(refused) => Err(fault_of(refused.cause, needed_by(text))),
    }
}

/// Tells whether a size is asked for that no segment has.
fn is_unfit(size: Option<u64>) -> bool
    ensures no_fit { result ≡ true → (asked : ℕ) × (size ≡ Some asked) × (is_legal_size asked ≡ false) }
    ensures fit { result ≡ false → IsSizeFit size }
{
    match size {
        Some(size) => !is_legal_size(size),
        None => false,
    }
}

/// Returns a segment of the dump that a reader gives. A size that no segment has is refused before the dump is read.
fn load_dump<S: Source>(
    alloc: Global,
    size: Option<u64>,
    script: &mut S,
) -> Result<Segment, CommandFault>
    requires { (S.history script.old).failures < 2 ^ 64 - 1 }
    ensures effect { LoadsDump size (S.history script.old) (S.history script.new) result }
    ensures script_end { IsSizeFit size → MeetsEndOnce (S.history script.old) (S.history script.new) }
{
    if is_unfit(size) {
        return Err(CommandFault::Session(SessionFault::BadSize));
    }
    let text = read_text(alloc, script)?;
    segment_of(alloc, text.as_slice(), size)
}

/// Makes a segment of the dump that a reader gives, in a file that is not there: of `size` bytes, or without a size
/// with nothing free. Notes after the dump are left out, as those of its capacities. Whatever segment the dump is of,
/// it is loaded if a segment of the size can have its objects and memory is given.
///
/// # Errors
///
/// `Exists` if something is there under the path. `BadSize` if no segment has the size. `ReadFault` if the dump can't
/// be read, and `ScriptTooLong` if it has more than 17179869184 bytes. `BadDump` if it is no dump, with the place, and
/// `NoSpace` if its objects do not fit the size, with what they need. `OutOfMemory`. No file is made then. `WriteFault`
/// if the file can't be made, takes not the whole image, or need not last.
pub fn load<D: Disk, S: Source>(
    alloc: Global,
    disk: &mut D,
    path: &str,
    size: Option<u64>,
    script: &mut S,
) -> Result<(), CommandFault>
    requires { (S.history script.old).failures < 2 ^ 64 - 1 }
    ensures effect { RunsLoad D.step disk.old disk.new path.now size (S.history script.old) (S.history script.new)
        result }
    ensures success { LoadsWhatFits D.step disk.old disk.new path.now size (S.history script.old)
        (S.history script.new) result }
    ensures script_end { MeetsDumpEnd size result (S.history script.old) (S.history script.new) }
{
    if disk.path_status(path) == Presence::There {
        return Err(CommandFault::Exists);
    }
    let segment = load_dump(alloc, size, script)?;
    written(write_made(disk, path, &segment))
}

/// Returns what [`load_over`] does with the right to write the file.
fn load_held<D: Disk, S: Source>(
    alloc: Global,
    disk: &mut D,
    path: &str,
    size: Option<u64>,
    hold: &mut D::Hold,
    script: &mut S,
) -> Result<(), CommandFault>
    requires { (S.history script.old).failures < 2 ^ 64 - 1 }
    ensures effect { LoadsInto D.step disk.old disk.new path.now size (S.history script.old) (S.history script.new)
        result Replacement }
    ensures script_end { IsSizeFit size → MeetsEndOnce (S.history script.old) (S.history script.new) }
{
    let segment = load_dump(alloc, size, script)?;
    written(write_image(disk, path, SaveMode::Replacing, hold, &segment))
}

/// Makes a segment of the dump that a reader gives, as [`load`] does, in a new file or in place of an old one. The old
/// file is whole until the new one is, and takes its place.
///
/// # Errors
///
/// Those of [`load`], but for `Exists`, and `InUse` if another has the right to write the file; the dump is not read
/// then.
pub fn load_over<D: Disk, S: Source>(
    alloc: Global,
    disk: &mut D,
    path: &str,
    size: Option<u64>,
    script: &mut S,
) -> Result<(), CommandFault>
    requires { (S.history script.old).failures < 2 ^ 64 - 1 }
    ensures effect { RunsLoadOver D.step disk.old disk.new path.now size (S.history script.old) (S.history script.new)
        result }
    ensures script_end { MeetsDumpEnd size result (S.history script.old) (S.history script.new) }
{
    if disk.path_status(path) != Presence::There {
        return load(alloc, disk, path, size, script);
    }
    let mut hold = disk.lock(path)?;
    let answer = load_held(alloc, disk, path, size, &mut hold, script);
    disk.unlock(hold);
    answer
}
