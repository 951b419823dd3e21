//! The command that draws the segment in a file, if it has few objects.
ghost use Rattle.std.specs.Prelude.{◌≡◌, ◌^◌, ◌-◌, ◌<◌, length, nat_lt};
ghost use Rattle.segment_manager.specs.{Directory.Directory, State.DenotesCurrent};
ghost use Rattle.segment_commands.specs.Drawing.{DrawsFew};
ghost use Rattle.segment_commands.specs.Reporting.{text_of};

use crate::command_faults::{CommandFault, written};
use crate::opening::open_segment;
use crate::reporting::tell_report;
use image_check::AcceptedVersions;
use segment_disk::{Disk, Output};
use segment_invocation::Report;
use segment_manager::{Mode, Segment};
use std::alloc::Global;

/// The most objects that are drawn without a request for all.
const MAX_DRAWN: u64 = 10000;

/// Returns true if a segment has more objects than this.
fn has_more_objects(segment: &Segment, most: u64) -> bool
    ensures { (d : Directory) → DenotesCurrent segment.now.cut.bytes d → result ≡ nat_lt most (length d.objects) }
{
    let mut count = 0;
    'objects: for said in segment.objects() {
        let _ = said;
        if count == most {
            return true;
        }
        count += 1;
    }
    false
}

/// Reports on the segment in a file, as [`tell_segment`](crate::tell_segment) does, if it has at most 10000 objects.
/// People cannot use a larger picture or page.
///
/// # Errors
///
/// `TooManyObjects`, with nothing written, if the segment has more objects. Otherwise the errors of
/// [`check`](crate::check).
pub fn tell_few<D: Disk, O: Output>(
    alloc: Global,
    disk: &mut D,
    path: &str,
    out: &mut O,
    what: Report,
) -> Result<(), CommandFault>
    requires { (O.history out.old).failures < 2 ^ 64 - 1 }
    ensures { DrawsFew D.step disk.old disk.new path.now O.history O.flushes out.old out.new (text_of what) result }
{
    let current = AcceptedVersions::Current;
    let segment = open_segment(alloc, disk, path, current, Mode::ReadOnly, 0)?;
    if has_more_objects(&segment, MAX_DRAWN) {
        return Err(CommandFault::TooManyObjects);
    }
    written(tell_report(out, &segment, what))
}
