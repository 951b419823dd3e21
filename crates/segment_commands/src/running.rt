//! The command that runs a script on the segment in a file.
ghost use Rattle.std.specs.Prelude.{◌≡◌, ◌≢◌, ◌+◌, ◌^◌, ◌-◌, ◌<◌, true, false, Ok};
ghost use Rattle.segment_scripts.specs.declared.ends.End.TheVariants.{Complete};
ghost use Rattle.segment_manager.specs.declared.modes.Mode.TheVariants.{Write};
ghost use Rattle.segment_disk.specs.Events.{IsFlushed};
ghost use Rattle.segment_commands.specs.{Modes.RunsInMode, Running.as_program, Running.as_saved};
ghost use Rattle.segment_cli.specs.Session.{MeetsScriptEnd};
ghost use Rattle.segment_commands.specs.Running.{MakesRun, MeetsRunEnd, RunsFile, RunsHeld, RunsOpened};

use crate::answering::run_script;
use crate::command_faults::CommandFault;
use crate::creating::{new_segment, write_made};
use crate::opening::open_segment;
use image_check::AcceptedVersions;
use raw_region::Source;
use segment_answers::LineOutput;
use segment_cli::SessionFault;
use segment_disk::{Disk, Presence, SaveMode};
use segment_file::write_image;
use segment_invocation::ModeName;
use segment_manager::Mode;
use segment_scripts::{End, Until};
use std::alloc::Global;

/// The run of a script on the segment in a file.
#[derive(Clone, Copy)]
pub struct RunRequest<'a> {
    /// The path of the file.
    pub path: &'a str,
    /// If the segment is opened or created, and if it is saved.
    pub mode: ModeName,
    /// The size of a segment that is created.
    pub size: Option<u64>,
    /// If the old file is emptied or replaced when the segment is saved.
    pub saving: SaveMode,
    /// The line after which the run ends.
    pub until: Until,
}

/// Runs a script on the segment in a file, which is opened or made as the mode says, and gives out its answers.
/// `create_only` and `open_or_create` need a size for a segment that is made; the other modes ignore it. When all
/// answers went out, a mode that writes saves the segment: a file that is there is emptied or replaced as `saving`
/// says. The script is run to its end, or until a line is refused.
///
/// # Errors
///
/// Those of a session. `Usage` if a size is needed and missing. `Exists` if `create_only` finds something there,
/// whatever the size. `ReadFault` if the script or the file can't be read; `OutOfMemory`. `WriteFault` if answers don't
/// go out, or if the file can't be made, emptied or replaced, takes not the whole image, or need not last. `Stopped` if
/// the run ends at a line that is refused: its answer and all before went out, no line after it was executed, and
/// nothing is saved. `InUse` if another has the right to write a file that is to be saved; the script is not read then.
pub fn run<D: Disk, S: Source, O: LineOutput>(
    alloc: Global,
    disk: &mut D,
    request: &RunRequest<'_>,
    script: &mut S,
    out: &mut O,
) -> Result<(), CommandFault>
    requires script { (S.history script.old).failures < 2 ^ 64 - 1 }
    requires out { (O.history out.old).failures < 2 ^ 64 - 1 }
    ensures effect { RunsInMode D.step disk.old disk.new request.now (S.history script.old) (S.history script.new)
        O.history (IsFlushed O.history O.flushes out.new) out.old out.new result request.now.mode request.now.size }
    ensures script_end { MeetsRunEnd result (S.history script.old) (S.history script.new) }
{
    let mode = match (request.mode, request.size) {
        (ModeName::CreateOnly, Some(size)) => {
            if disk.path_status(request.path) == Presence::There {
                return Err(CommandFault::Exists);
            }
            return answered(run_made(alloc, disk, request, size, script, out));
        }
        (ModeName::OpenOrCreate, Some(size)) => {
            if disk.path_status(request.path) == Presence::Absent {
                return answered(run_made(alloc, disk, request, size, script, out));
            }
            Mode::Write
        }
        (ModeName::CreateOnly | ModeName::OpenOrCreate, None) => {
            return Err(CommandFault::Usage);
        }
        (ModeName::OpenOnly, _) => Mode::Write,
        (ModeName::OpenReadOnly, _) => Mode::ReadOnly,
        (ModeName::OpenCopyOnWrite, _) => Mode::CopyOnWrite,
    };
    run_on_file(alloc, disk, request, mode, script, out)
}

/// Tells whether a script can be read at all. A closed standard input can't, and a file that is opened then would take
/// its place.
pub(crate) fn can_be_read<S: Source>(script: &mut S) -> bool
    requires { (S.history script.old).failures < 2 ^ 64 - 1 }
    ensures on_true { result ≡ true → S.history script.new ≡ S.history script.old }
    ensures on_false { result ≡ false → (S.history script.new).failures ≡ (S.history script.old).failures + 1 }
    ensures ends { (S.history script.new).ends ≡ (S.history script.old).ends }
{
    script.read(&mut []).is_ok()
}

/// Tells whether a run came to the end of its script, and all answers went out.
pub(crate) fn is_whole(ended: Result<End, SessionFault>) -> bool
    ensures complete { result ≡ true → ended ≡ Ok Complete }
    ensures early_stop { result ≡ false → ended ≢ Ok Complete }
{
    match ended {
        Ok(End::Complete) => true,
        Ok(End::Refused) | Err(_) => false,
    }
}

/// Returns the result of a run whose script ended, by the result of its save or its commit.
pub(crate) fn saved<E: Drop>(answer: Result<(), E>) -> Result<End, SessionFault>
    ensures { result ≡ as_saved answer }
{
    match answer {
        Ok(()) => Ok(End::Complete),
        Err(_) => Err(SessionFault::WriteFault),
    }
}

/// Runs a script on the segment in a file, gives out its answers, and saves it, unless the run ended at a refusal.
fn run_opened<D: Disk, S: Source, O: LineOutput>(
    alloc: Global,
    disk: &mut D,
    request: &RunRequest<'_>,
    hold: &mut D::Hold,
    script: &mut S,
    out: &mut O,
) -> Result<End, SessionFault>
    requires script { (S.history script.old).failures < 2 ^ 64 - 1 }
    requires out { (O.history out.old).failures < 2 ^ 64 - 1 }
    ensures effect { RunsOpened D.step disk.old disk.new request.now Write (S.history script.old) (S.history script.new)
        O.history (IsFlushed O.history O.flushes out.new) out.old out.new result }
    ensures script_end { MeetsScriptEnd result (S.history script.old) (S.history script.new) }
{
    let path = request.path;
    let mut segment = open_segment(alloc, disk, path, AcceptedVersions::Current, Mode::Write, 0)?;
    let ended = run_script(&mut segment, request.until, script, out);
    if is_whole(ended) {
        saved(write_image(disk, path, request.saving, hold, &segment))
    } else {
        ended
    }
}

/// Runs a script on the segment in a file, which is opened in a mode that saves nothing, and gives out its answers.
fn run_free<D: Disk, S: Source, O: LineOutput>(
    alloc: Global,
    disk: &mut D,
    request: &RunRequest<'_>,
    mode: Mode,
    script: &mut S,
    out: &mut O,
) -> Result<End, SessionFault>
    requires mode { mode ≢ Write }
    requires script { (S.history script.old).failures < 2 ^ 64 - 1 }
    requires out { (O.history out.old).failures < 2 ^ 64 - 1 }
    ensures effect { RunsOpened D.step disk.old disk.new request.now mode (S.history script.old) (S.history script.new)
        O.history (IsFlushed O.history O.flushes out.new) out.old out.new result }
    ensures script_end { MeetsScriptEnd result (S.history script.old) (S.history script.new) }
{
    let current = AcceptedVersions::Current;
    let mut segment = open_segment(alloc, disk, request.path, current, mode, 0)?;
    run_script(&mut segment, request.until, script, out)
}

/// Runs a script on the segment in a file in mode `Write`, under the lock of the file.
fn run_held<D: Disk, S: Source, O: LineOutput>(
    alloc: Global,
    disk: &mut D,
    request: &RunRequest<'_>,
    script: &mut S,
    out: &mut O,
) -> Result<(), CommandFault>
    requires script { (S.history script.old).failures < 2 ^ 64 - 1 }
    requires out { (O.history out.old).failures < 2 ^ 64 - 1 }
    ensures effect { RunsHeld D.step disk.old disk.new request.now (S.history script.old) (S.history script.new)
        O.history (IsFlushed O.history O.flushes out.new) out.old out.new result }
    ensures script_end { MeetsRunEnd result (S.history script.old) (S.history script.new) }
{
    let mut hold = disk.lock(request.path)?;
    let answer = run_opened(alloc, disk, request, &mut hold, script, out);
    disk.unlock(hold);
    answered(answer)
}

/// Runs a script on the segment in a file, which is opened in a mode, and gives out its answers. In mode `Write` the
/// file then takes the image; in the other modes nothing is opened for writing.
fn run_on_file<D: Disk, S: Source, O: LineOutput>(
    alloc: Global,
    disk: &mut D,
    request: &RunRequest<'_>,
    mode: Mode,
    script: &mut S,
    out: &mut O,
) -> Result<(), CommandFault>
    requires script { (S.history script.old).failures < 2 ^ 64 - 1 }
    requires out { (O.history out.old).failures < 2 ^ 64 - 1 }
    ensures effect { RunsFile D.step disk.old disk.new request.now (S.history script.old) (S.history script.new)
        O.history (IsFlushed O.history O.flushes out.new) out.old out.new result mode }
    ensures script_end { MeetsRunEnd result (S.history script.old) (S.history script.new) }
{
    if !can_be_read(script) {
        return Err(CommandFault::Session(SessionFault::ReadFault));
    }
    if mode == Mode::Write {
        run_held(alloc, disk, request, script, out)
    } else {
        answered(run_free(alloc, disk, request, mode, script, out))
    }
}

/// Runs a script on an empty segment of `size` bytes, gives out its answers, and then writes the image to a new file.
pub(crate) fn run_made<D: Disk, S: Source, O: LineOutput>(
    alloc: Global,
    disk: &mut D,
    request: &RunRequest<'_>,
    size: u64,
    script: &mut S,
    out: &mut O,
) -> Result<End, SessionFault>
    requires script { (S.history script.old).failures < 2 ^ 64 - 1 }
    requires out { (O.history out.old).failures < 2 ^ 64 - 1 }
    ensures effect { MakesRun D.step disk.old disk.new request.now size (S.history script.old) (S.history script.new)
        O.history (IsFlushed O.history O.flushes out.new) out.old out.new result }
    ensures script_end { MeetsScriptEnd result (S.history script.old) (S.history script.new) }
{
    let mut segment = new_segment(alloc, size)?;
    let ended = run_script(&mut segment, request.until, script, out);
    if is_whole(ended) {
        saved(write_made(disk, request.path, &segment))
    } else {
        ended
    }
}

/// Returns what a run answered, as the program answers it.
pub(crate) fn answered(answer: Result<End, SessionFault>) -> Result<(), CommandFault>
    ensures { result ≡ as_program answer }
{
    match answer {
        Ok(End::Complete) => Ok(()),
        Ok(End::Refused) => Err(CommandFault::Stopped),
        Err(fault) => Err(CommandFault::Session(fault)),
    }
}
