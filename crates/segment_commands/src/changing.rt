//! The commands that write the segment in a file anew: larger, smaller, or by the current format.
ghost use Rattle.std.specs.Prelude.{◌≡◌, ◌^◌, ◌-◌, ◌<◌, OnOk};
ghost use Rattle.grow_shrink.specs.Resized.{IsRefusedBy};
ghost use Rattle.segment_manager.specs.blocks.Resized.{Resizes};
ghost use Rattle.segment_commands.specs.{Changing.Changes, Holding.HoldsLock, Migrating.RunsMigrate};
ghost use Rattle.segment_disk.specs.Events.{create_mode_of};
ghost use Rattle.segment_commands.specs.Resizing.{RunsResize, TellsAndWrites, TellsSize, more_by, next_by, refusal_by};
ghost use Rattle.segment_commands.specs.{Resizing.size_line, Telling.WritesAndFlushes};

use crate::command_faults::{CommandFault, written};
use crate::opening::open_segment;
use crate::telling::write_and_flush;
use grow_shrink::{GrowError, shrink_to_fit};
use image_check::AcceptedVersions;
use raw_region::DeviceFault;
use segment_disk::{Disk, Output, SaveMode};
use segment_file::write_image;
use segment_invocation::FileChange;
use segment_lang::put_number_line;
use segment_manager::{Mode, Segment};
use std::alloc::Global;

/// How the size of a segment changes.
#[derive(Clone, Copy)]
enum Resize {
    /// By this number of bytes.
    Grow(u64),
    /// To what its last block needs.
    Shrink,
}

/// A change of the segment in a file.
#[derive(Clone, Copy)]
struct ChangeRequest<'a> {
    /// The path of the file.
    path: &'a str,
    change: FileChange,
    /// If the old file is emptied or replaced.
    saving: SaveMode,
}

/// Writes a size as a line, and gives it out.
fn tell_number<O: Output>(out: &mut O, size: u64) -> Result<(), DeviceFault>
    requires { (O.history out.old).failures < 2 ^ 64 - 1 }
    ensures { WritesAndFlushes O.history O.flushes out.old out.new (size_line size) result }
{
    put_number_line(out, b"size ", size)?;
    out.flush()
}

/// Writes the size of a segment as a line, and gives it out.
fn tell_size<O: Output>(segment: &Segment, out: &mut O) -> Result<(), DeviceFault>
    requires { (O.history out.old).failures < 2 ^ 64 - 1 }
    ensures { TellsSize O.history O.flushes out.old out.new segment.now result }
{
    tell_number(out, segment.size())
}

/// Says the size of a segment, and then writes its image to the file that is emptied or made for it.
fn tell_and_write<D: Disk, O: Output>(
    disk: &mut D,
    path: &str,
    saving: SaveMode,
    hold: &mut D::Hold,
    segment: &Segment,
    out: &mut O,
) -> Result<(), DeviceFault>
    requires { (O.history out.old).failures < 2 ^ 64 - 1 }
    ensures { TellsAndWrites D.step disk.old disk.new path.now (create_mode_of saving)
        O.history O.flushes out.old out.new segment.now result }
{
    tell_size(segment, out)?;
    write_image(disk, path, saving, hold, segment)
}

/// Makes a segment larger or smaller.
fn resize_segment(segment: &mut Segment, how: Resize) -> Result<(), GrowError>
    ensures refused { IsRefusedBy segment.old result (refusal_by how segment.old) }
    ensures changes { OnOk result (Resizes segment.old segment.new (next_by how)) }
{
    match how {
        Resize::Grow(extra) => grow_shrink::grow(segment, extra),
        Resize::Shrink => shrink_to_fit(segment),
    }
}

/// Returns for how many bytes more the region of a segment is made that becomes larger.
fn more_for(how: Resize) -> u64
    ensures { result ≡ more_by how }
{
    match how {
        Resize::Grow(extra) => extra,
        Resize::Shrink => 0,
    }
}

/// Makes the segment in a file larger or smaller, with the right to write the file.
fn resize_held<D: Disk, O: Output>(
    alloc: Global,
    disk: &mut D,
    request: &ChangeRequest<'_>,
    how: Resize,
    hold: &mut D::Hold,
    out: &mut O,
) -> Result<(), CommandFault>
    requires { (O.history out.old).failures < 2 ^ 64 - 1 }
    ensures { RunsResize D.step disk.old disk.new request.now.path.now (create_mode_of request.now.saving)
        O.history O.flushes out.old out.new (more_by how) (refusal_by how) (next_by how) result }
{
    let path = request.path;
    let current = AcceptedVersions::Current;
    let more = more_for(how);
    let mut segment = open_segment(alloc, disk, path, current, Mode::Write, more)?;
    match resize_segment(&mut segment, how) {
        Ok(()) => written(tell_and_write(disk, path, request.saving, hold, &segment, out)),
        Err(error) => Err(CommandFault::Growth(error)),
    }
}

/// Writes the segment in a file by the current format, with the right to write the file, and then says `ok`.
fn migrate_held<D: Disk, O: Output>(
    alloc: Global,
    disk: &mut D,
    request: &ChangeRequest<'_>,
    hold: &mut D::Hold,
    out: &mut O,
) -> Result<(), CommandFault>
    requires { (O.history out.old).failures < 2 ^ 64 - 1 }
    ensures { RunsMigrate D.step disk.old disk.new request.now.path.now (create_mode_of request.now.saving)
        O.history O.flushes out.old out.new result }
{
    let path = request.path;
    let segment = open_segment(alloc, disk, path, AcceptedVersions::All, Mode::Write, 0)?;
    match write_image(disk, path, request.saving, hold, &segment) {
        Ok(()) => written(write_and_flush(out, b"ok\n")),
        Err(refused) => Err(CommandFault::from(refused)),
    }
}

/// Changes the segment in a file, with the right to write the file.
fn change_held<D: Disk, O: Output>(
    alloc: Global,
    disk: &mut D,
    request: &ChangeRequest<'_>,
    hold: &mut D::Hold,
    out: &mut O,
) -> Result<(), CommandFault>
    requires { (O.history out.old).failures < 2 ^ 64 - 1 }
    ensures { Changes D.step disk.old disk.new request.now.path.now (create_mode_of request.now.saving)
        O.history O.flushes out.old out.new result request.now.change }
{
    match request.change {
        FileChange::Grow(extra) => {
            resize_held(alloc, disk, request, Resize::Grow(extra), hold, out)
        }
        FileChange::Shrink => resize_held(alloc, disk, request, Resize::Shrink, hold, out),
        FileChange::Migrate => migrate_held(alloc, disk, request, hold, out),
    }
}

/// Makes the segment in a file larger by some bytes, or as small as its last block lets it be, and says its size. Or it
/// writes the segment, of any of the three formats, by the current one, and says `ok`. The file is emptied or replaced
/// for its image, as `saving` says: after the size when that went out, and before the `ok`.
///
/// # Errors
///
/// `InUse` if another has the right to write the file. Those of opening it, `Growth` if the segment does not grow:
/// the file is as it was. `WriteFault` if the size or the `ok` does not go out, and if the file can't be emptied or
/// replaced, takes not the whole image, or need not last.
pub fn change<D: Disk, O: Output>(
    alloc: Global,
    disk: &mut D,
    path: &str,
    change: FileChange,
    saving: SaveMode,
    out: &mut O,
) -> Result<(), CommandFault>
    requires { (O.history out.old).failures < 2 ^ 64 - 1 }
    ensures { HoldsLock D.step disk.old disk.new path.now (out.new ≡ out.old)
        (λ held done. Changes D.step held done path.now (create_mode_of saving) O.history O.flushes out.old out.new
        result change) result }
{
    let request = ChangeRequest {
        path,
        change,
        saving,
    };
    let mut hold = disk.lock(path)?;
    let answer = change_held(alloc, disk, &request, &mut hold, out);
    disk.unlock(hold);
    answer
}
