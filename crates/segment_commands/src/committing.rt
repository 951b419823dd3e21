//! The command that runs a script on the segment in a file, and commits what the script changed.
ghost use Rattle.std.specs.Prelude.{◌-◌, ◌<◌, ◌^◌};
ghost use Rattle.segment_disk.specs.Events.{IsFlushed};
ghost use Rattle.segment_cli.specs.Session.{MeetsScriptEnd};
ghost use Rattle.segment_commands.specs.Committing.{CommitsInMode, CommitsOnFile, CommitsOpened};
ghost use Rattle.segment_commands.specs.Running.{MeetsRunEnd};

use crate::answering::run_script;
use crate::command_faults::CommandFault;
use crate::opening::open_segment;
use crate::running::{RunRequest, answered, can_be_read, is_whole, run_made, saved};
use image_check::AcceptedVersions;
use raw_region::Source;
use segment_answers::LineOutput;
use segment_cli::SessionFault;
use segment_disk::{Disk, Presence};
use segment_file::commit_segment;
use segment_invocation::ModeName;
use segment_manager::Mode;
use segment_scripts::End;
use std::alloc::Global;

/// Runs a script on the segment in a file, gives out its answers, and commits it, unless the run ended at a refusal.
fn commit_opened<D: Disk, S: Source, O: LineOutput>(
    alloc: Global,
    disk: &mut D,
    request: &RunRequest<'_>,
    hold: &mut D::Hold,
    script: &mut S,
    out: &mut O,
) -> Result<End, SessionFault>
    requires script { (S.history script.old).failures < 2 ^ 64 - 1 }
    requires out { (O.history out.old).failures < 2 ^ 64 - 1 }
    ensures effect { CommitsOpened D.step D.log_step disk.old disk.new request.now (S.history script.old)
        (S.history script.new) O.history (IsFlushed O.history O.flushes out.new) out.old out.new result }
    ensures script_end { MeetsScriptEnd result (S.history script.old) (S.history script.new) }
{
    let path = request.path;
    let mut segment = open_segment(alloc, disk, path, AcceptedVersions::Current, Mode::Write, 0)?;
    let ended = run_script(&mut segment, request.until, script, out);
    if is_whole(ended) {
        saved(commit_segment(alloc, disk, path, hold, &segment))
    } else {
        ended
    }
}

/// Runs a script on the segment in a file that is there, and commits it, under the lock of the file.
fn commit_on_file<D: Disk, S: Source, O: LineOutput>(
    alloc: Global,
    disk: &mut D,
    request: &RunRequest<'_>,
    script: &mut S,
    out: &mut O,
) -> Result<(), CommandFault>
    requires script { (S.history script.old).failures < 2 ^ 64 - 1 }
    requires out { (O.history out.old).failures < 2 ^ 64 - 1 }
    ensures effect { CommitsOnFile D.step D.log_step disk.old disk.new request.now (S.history script.old)
        (S.history script.new) O.history (IsFlushed O.history O.flushes out.new) out.old out.new result }
    ensures script_end { MeetsRunEnd result (S.history script.old) (S.history script.new) }
{
    if !can_be_read(script) {
        return Err(CommandFault::Session(SessionFault::ReadFault));
    }
    let mut hold = disk.lock(request.path)?;
    let answer = commit_opened(alloc, disk, request, &mut hold, script, out);
    disk.unlock(hold);
    answered(answer)
}

/// Runs a script on the segment in a file, and gives out its answers. When all answers went out, what the script
/// changed is committed to the log beside the file: at Ok it lasts, and a crash at any moment leaves the old image or
/// the new one. A log that has become long is put into the file. With `open_or_create` and no file, the segment is made
/// and saved as by [`run`](crate::run). The script is run to its end, or until a line is refused.
///
/// # Errors
///
/// `Usage` for a mode other than `open_only` and `open_or_create`, and for `open_or_create` without a size. Otherwise
/// as [`run`](crate::run). After `WriteFault` an opening finds the old image, or the new one if the log was
/// written and its sync failed.
pub fn run_and_commit<D: Disk, S: Source, O: LineOutput>(
    alloc: Global,
    disk: &mut D,
    request: &RunRequest<'_>,
    script: &mut S,
    out: &mut O,
) -> Result<(), CommandFault>
    requires script { (S.history script.old).failures < 2 ^ 64 - 1 }
    requires out { (O.history out.old).failures < 2 ^ 64 - 1 }
    ensures effect { CommitsInMode D.step D.log_step disk.old disk.new request.now (S.history script.old)
        (S.history script.new) O.history (IsFlushed O.history O.flushes out.new) out.old out.new result
        request.now.mode request.now.size }
    ensures script_end { MeetsRunEnd result (S.history script.old) (S.history script.new) }
{
    match (request.mode, request.size) {
        (ModeName::OpenOnly, _) => commit_on_file(alloc, disk, request, script, out),
        (ModeName::OpenOrCreate, Some(size)) => {
            if disk.path_status(request.path) == Presence::Absent {
                return answered(run_made(alloc, disk, request, size, script, out));
            }
            commit_on_file(alloc, disk, request, script, out)
        }
        _ => Err(CommandFault::Usage),
    }
}
