//! The command that tells which lines of a script are no commands.
ghost use Rattle.std.specs.Prelude.{◌≡◌, ◌^◌, ◌-◌, ◌<◌};
ghost use Rattle.segment_scripts.specs.RunOutcome.{MeetsEndOnce};
ghost use Rattle.segment_commands.specs.Linting.{Lints, answer_of};

use crate::answering::Flushing;
use crate::command_faults::{CommandFault, WRITE_FAULT};
use raw_region::Source;
use segment_answers::LineOutput;
use segment_cli::SessionFault;
use segment_scripts::{CommandRow, Lint, RunFault, run_followed};

/// Reports each line of a script that is no command: its number, the column of the error, and what is expected there.
/// `rows` has the expected form after each command word. Nothing is executed.
///
/// # Errors
///
/// `Misspelled` if a line is no command, `ReadFault` if the script cannot be read, `ScriptTooLong` if it is too long,
/// and `WriteFault` if the output fails.
pub fn lint<S: Source, O: LineOutput>(
    rows: &[CommandRow],
    script: &mut S,
    out: &mut O,
) -> Result<(), CommandFault>
    requires script { (S.history script.old).failures < 2 ^ 64 - 1 }
    requires out { (O.history out.old).failures < 2 ^ 64 - 1 }
    ensures effect { Lints rows.now (S.history script.old) (S.history script.new) O.history O.flushes out.old out.new
        result }
    ensures script_end { MeetsEndOnce (S.history script.old) (S.history script.new) }
{
    let mut machine = Lint::new(rows);
    let answered = run_followed(&mut machine, script, out, &mut Flushing);
    let flushed = out.flush();
    let went_out = flushed.is_ok();
    lint_answer(answered, went_out, machine.has_found())
}

/// Returns the result of the lint: the fault of its run, else a failed output, else `Misspelled` if a line is wrong.
fn lint_answer(
    answered: Result<(), RunFault>,
    went_out: bool,
    has_found: bool,
) -> Result<(), CommandFault>
    ensures { result ≡ answer_of answered went_out has_found }
{
    match answered {
        Err(fault) => Err(CommandFault::Session(SessionFault::from(fault))),
        Ok(()) if !went_out => Err(WRITE_FAULT),
        Ok(()) if has_found => Err(CommandFault::Misspelled),
        Ok(()) => Ok(()),
    }
}
