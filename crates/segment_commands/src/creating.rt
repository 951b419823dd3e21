//! The command that makes an empty segment in a file.
ghost use Rattle.segment_commands.specs.Commands.{RunsCreate, MakesSegment};
ghost use Rattle.segment_disk.specs.Events.{New};
ghost use Rattle.segment_file.specs.Files.{WritesImage};

use crate::command_faults::{CommandFault, written};
use block_tags::is_legal_size;
use grow_shrink::region_for;
use raw_region::DeviceFault;
use raw_region::std_io::StdSource;
use segment_cli::{SessionFault, Start, begin};
use segment_disk::{Disk, Presence};
use segment_file::write_new;
use segment_manager::{Mode, Segment};
use std::alloc::Global;
use std::io;

/// Returns an empty segment of this size. One that no segment has is refused before memory is asked for.
pub(crate) fn new_segment(alloc: Global, size: u64) -> Result<Segment, SessionFault>
    ensures { MakesSegment size result }
{
    if !is_legal_size(size) {
        return Err(SessionFault::BadSize);
    }
    let region = region_for(alloc, size)?;
    let mut nothing = StdSource::new(io::empty());
    let start = Start::Fresh(size);
    begin(alloc, start, Mode::Write, &mut nothing, region, 0)
}

/// Writes the image of a segment to a file that is made for it, which is held no longer.
pub(crate) fn write_made<D: Disk>(
    disk: &mut D,
    path: &str,
    segment: &Segment,
) -> Result<(), DeviceFault>
    ensures { WritesImage D.step disk.old disk.new New path.now segment.now.cut.bytes result }
{
    write_new(disk, path, segment)?;
    Ok(())
}

/// Makes an empty segment of `size` bytes in a file that is not there.
///
/// # Errors
///
/// `Exists` if something is there under the path, whatever the size. `BadSize` if no segment has it, and `OutOfMemory`;
/// no file is made then. `WriteFault` if the file can't be made, takes not the whole image, or need not last.
pub fn create<D: Disk>(
    alloc: Global,
    disk: &mut D,
    path: &str,
    size: u64,
) -> Result<(), CommandFault>
    ensures { RunsCreate D.step disk.old disk.new path.now size result }
{
    if disk.path_status(path) == Presence::There {
        return Err(CommandFault::Exists);
    }
    let segment = new_segment(alloc, size)?;
    written(write_made(disk, path, &segment))
}
