//! The command that tells why an image is refused, and where.
ghost use Rattle.std.specs.Prelude.{◌^◌, ◌-◌, ◌<◌};
ghost use Rattle.segment_commands.specs.Explaining.{RunsExplain, verdict_text};
ghost use Rattle.segment_commands.specs.Telling.{WritesAndFlushes};

use crate::command_faults::CommandFault;
use crate::opening::session_fault;
use crate::telling::write_and_flush;
use image_check::{OpenError, Verdict};
use raw_region::DeviceFault;
use segment_cli::SessionFault;
use segment_disk::{Disk, Output};
use segment_file::FileError;
use segment_lang::{Piece, put_pieces};
use std::alloc::Global;

/// Writes a verdict as a line, and gives out all that was written.
fn tell_verdict<O: Output>(out: &mut O, verdict: Verdict) -> Result<(), DeviceFault>
    requires { (O.history out.old).failures < 2 ^ 64 - 1 }
    ensures { WritesAndFlushes O.history O.flushes out.old out.new (verdict_text verdict) result }
{
    let explanation = verdict.class.explanation();
    put_pieces(
        out,
        &[
            Piece::Bytes(b"at "),
            Piece::Number(verdict.place),
            Piece::Bytes(b": "),
            Piece::Bytes(explanation.as_bytes()),
            Piece::Bytes(b"\n"),
        ],
    )?;
    Output::flush(out)
}

/// Checks that the file's image is a segment, and prints `ok`, or the class of a refused image and the byte that shows
/// it.
///
/// # Errors
///
/// Those of [`check`](crate::check); `WriteFault` also if the line of the place does not go out.
pub fn explain<D: Disk, O: Output>(
    alloc: Global,
    disk: &mut D,
    path: &str,
    out: &mut O,
) -> Result<(), CommandFault>
    requires { (O.history out.old).failures < 2 ^ 64 - 1 }
    ensures { RunsExplain D.step disk.old disk.new path.now O.history O.flushes out.old out.new result }
{
    match segment_file::check(alloc, disk, path) {
        Ok(()) => Ok(write_and_flush(out, b"ok\n")?),
        Err(FileError::Open(OpenError::Image(verdict))) => {
            tell_verdict(out, verdict)?;
            Err(CommandFault::Session(SessionFault::Image(verdict.class)))
        }
        Err(error) => Err(CommandFault::Session(session_fault(error))),
    }
}
