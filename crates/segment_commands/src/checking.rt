//! The commands that tell whether files hold segments.
ghost use Rattle.std.specs.Prelude.{◌≡◌, ◌^◌, ◌-◌, ◌<◌, IsErr, IsOk, MatchResult, map};
ghost use Rattle.std.specs.Fn.{FnReturnsAt};
ghost use Rattle.raw_region.specs.Device.{Writes};
ghost use Rattle.segment_commands.specs.Checking.{ChecksAll, TellsFit, reason_lines, status_in, unfit_lines};
ghost use Rattle.segment_commands.specs.Commands.{RunsCheck};

use crate::command_faults::CommandFault;
use crate::opening::verify_segment;
use crate::paths::path_piece;
use crate::reports::put_trouble;
use crate::telling::write_and_flush;
use raw_region::{DeviceFault, Sink};
use segment_cli::{SessionFault, put_session_line, session_status};
use segment_disk::{Disk, FileProblem, Output};
use segment_lang::{Piece, put_pieces};
use std::alloc::Global;

/// The check of several files.
#[derive(Clone, Copy)]
pub struct CheckRequest<'a> {
    /// The paths of the files.
    pub files: &'a [&'a str],
    /// If nothing is printed for a file that holds a segment.
    pub is_quiet: bool,
}

/// Checks that the file's image is a segment, and prints `ok`.
///
/// # Errors
///
/// Why the image is refused, `ReadFault` if the file can't be read, `OutOfMemory`, and `WriteFault` if the output
/// fails.
pub fn check<D: Disk, O: Output>(
    alloc: Global,
    disk: &mut D,
    path: &str,
    out: &mut O,
) -> Result<(), CommandFault>
    requires { (O.history out.old).failures < 2 ^ 64 - 1 }
    ensures { RunsCheck D.step disk.old disk.new path.now O.history O.flushes out.old out.new result }
{
    verify_segment(alloc, disk, path)?;
    Ok(write_and_flush(out, b"ok\n")?)
}

/// Prints the path and `ok` on standard output, if the file holds a segment and the check is not quiet.
fn tell_fit<O: Output>(
    path: &str,
    found: Result<(), SessionFault>,
    is_quiet: bool,
    out: &mut O,
) -> Result<(), DeviceFault>
    requires { (O.history out.old).failures < 2 ^ 64 - 1 }
    ensures { TellsFit O.history O.flushes out.old out.new is_quiet path.now found result }
{
    if is_quiet || found.is_err() {
        return Ok(());
    }
    put_pieces(out, &[path_piece(path), Piece::Bytes(b": ok\n")])?;
    Output::flush(out)
}

/// Prints the path on standard error, and why the file holds no segment. If there is a `trouble`, prints it in a second
/// line.
fn put_reason<S: Sink>(
    path: &str,
    fault: SessionFault,
    trouble: Option<FileProblem>,
    err: &mut S,
) -> Result<(), DeviceFault>
    requires { (S.history err.old).failures < 2 ^ 64 - 1 }
    ensures { Writes (S.history err.old) (S.history err.new) result (reason_lines path.now fault trouble) }
{
    put_pieces(err, &[path_piece(path), Piece::Bytes(b": ")])?;
    put_session_line(fault, err)?;
    put_trouble(path, trouble, err)
}

/// Says why a file that was read holds no segment, unless a write failed before.
fn put_unfit<S: Sink>(
    path: &str,
    found: Result<(), SessionFault>,
    trouble: Option<FileProblem>,
    said: Result<(), DeviceFault>,
    err: &mut S,
) -> Result<(), DeviceFault>
    requires { IsOk said → (S.history err.old).failures < 2 ^ 64 - 1 }
    ensures { MatchResult said (λ _.
        Writes (S.history err.old) (S.history err.new) result (unfit_lines path.now found trouble))
        (λ _. (err.new ≡ err.old) × IsErr result) }
{
    said?;
    let Err(fault) = found else {
        return Ok(());
    };
    put_reason(path, fault, trouble, err)
}

/// Returns the status of a file that is checked.
fn status_in(found: Result<(), SessionFault>) -> u8
    ensures { result ≡ status_in found }
{
    match found {
        Ok(()) => 0,
        Err(fault) => session_status(fault),
    }
}

/// Checks files one after another, and returns the worst status. Each line begins with the file's path, as a text of
/// the language. Files that hold a segment get a line on standard output, unless the check is quiet, and others one on
/// standard error, followed by what `trouble_of` returns for the disk right after the file's check.
///
/// # Errors
///
/// `WriteFault` if the output fails: the files after are not checked then. If standard error fails, nothing more is
/// said there, and the status is the same.
pub fn check_all<D: Disk, O: Output, E: Sink, F: Fn(&D) -> Option<FileProblem>>(
    alloc: Global,
    disk: &mut D,
    request: &CheckRequest<'_>,
    trouble_of: F,
    out: &mut O,
    err: &mut E,
) -> Result<u8, CommandFault>
    requires report { F.IsAlwaysCallable trouble_of }
    requires out { (O.history out.old).failures < 2 ^ 64 - 1 }
    requires on_error { (E.history err.old).failures < 2 ^ 64 - 1 }
    ensures { ChecksAll D.step (FnReturnsAt F.Fn trouble_of) disk.old disk.new O.history O.flushes out.old out.new
        (E.history err.old) (E.history err.new) request.now.is_quiet
        (map (λ file. file.now) request.now.files.now) result }
{
    let mut worst = 0;
    let mut said = Ok(());
    'files: for file in request.files {
        let found = verify_segment(alloc, disk, file);
        said = put_unfit(file, found, trouble_of(&*disk), said, err);
        tell_fit(file, found, request.is_quiet, out)?;
        worst = worst.max(status_in(found));
    }
    Output::flush(out)?;
    Ok(worst)
}
