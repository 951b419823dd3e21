//! The commands that tell what people want to see of the segment in a file: figures, a picture, names, or all as text.
ghost use Rattle.std.specs.Prelude.{◌^◌, ◌-◌, ◌<◌};
ghost use Rattle.segment_manager.specs.{Directory.Directory, State.DenotesCurrent};
ghost use Rattle.raw_region.specs.Device.{Writes};
ghost use Rattle.segment_report.specs.Names.{names_text};
ghost use Rattle.segment_commands.specs.Reporting.{RunsReport, WritesTextOf, text_of};

use crate::command_faults::{CommandFault, written};
use crate::opening::open_segment;
use image_check::AcceptedVersions;
use raw_region::DeviceFault;
use segment_disk::{Disk, Output};
use segment_invocation::Report;
use segment_manager::{Mode, Segment};
use segment_report::put_names;
use std::alloc::Global;

/// Writes what is told of a segment.
fn write_report<O: Output>(out: &mut O, segment: &Segment, what: Report) -> Result<(), DeviceFault>
    requires { (O.history out.old).failures < 2 ^ 64 - 1 }
    ensures { (d : Directory) → DenotesCurrent segment.now.cut.bytes d
        → Writes (O.history out.old) (O.history out.new) result (text_of what d) }
{
    match what {
        Report::Figures => segment_report::stat(segment, out),
        Report::Picture => segment_report::draw(segment, out),
        Report::Page => segment_report::draw_page(segment, out),
        Report::Dump => segment_dump::dump(segment, out),
        Report::Capacities => segment_dump::dump_with_capacities(segment, out),
        Report::Json => segment_dump::dump_json(segment, out),
    }
}

/// Writes what is told of a segment, and gives out all that was written.
pub(crate) fn tell_report<O: Output>(
    out: &mut O,
    segment: &Segment,
    what: Report,
) -> Result<(), DeviceFault>
    requires { (O.history out.old).failures < 2 ^ 64 - 1 }
    ensures { WritesTextOf O.history O.flushes out.old out.new segment.now (text_of what) result }
{
    write_report(out, segment, what)?;
    Output::flush(out)
}

/// Says what is told of the segment in a file, which is opened for reading.
///
/// # Errors
///
/// Those of [`check`](crate::check).
pub fn tell_segment<D: Disk, O: Output>(
    alloc: Global,
    disk: &mut D,
    path: &str,
    out: &mut O,
    what: Report,
) -> Result<(), CommandFault>
    requires { (O.history out.old).failures < 2 ^ 64 - 1 }
    ensures { RunsReport D.step disk.old disk.new path.now O.history O.flushes out.old out.new (text_of what) result }
{
    let current = AcceptedVersions::Current;
    let segment = open_segment(alloc, disk, path, current, Mode::ReadOnly, 0)?;
    written(tell_report(out, &segment, what))
}

/// Writes the names of a segment that begin with a text, at most `most`, and gives out all that was written.
fn tell_names<O: Output>(
    out: &mut O,
    segment: &Segment,
    prefix: &[u8],
    most: u64,
) -> Result<(), DeviceFault>
    requires { (O.history out.old).failures < 2 ^ 64 - 1 }
    ensures { WritesTextOf O.history O.flushes out.old out.new segment.now (names_text prefix.now most) result }
{
    put_names(segment, prefix, most, out)?;
    Output::flush(out)
}

/// Says the names of the segment in a file that begin with a text, in the order of their bytes and a line each, at most
/// `most`. The file is opened for reading.
///
/// # Errors
///
/// Those of [`check`](crate::check).
pub fn names<D: Disk, O: Output>(
    alloc: Global,
    disk: &mut D,
    path: &str,
    prefix: &str,
    most: u64,
    out: &mut O,
) -> Result<(), CommandFault>
    requires { (O.history out.old).failures < 2 ^ 64 - 1 }
    ensures { RunsReport D.step disk.old disk.new path.now O.history O.flushes out.old out.new
        (names_text prefix.now most) result }
{
    let current = AcceptedVersions::Current;
    let segment = open_segment(alloc, disk, path, current, Mode::ReadOnly, 0)?;
    written(tell_names(out, &segment, prefix.as_bytes(), most))
}
