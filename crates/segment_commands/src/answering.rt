//! The running of a script on a segment, whose answers are given out.
ghost use Rattle.std.specs.Prelude.{◌^◌, ◌-◌, ◌<◌, Bool};
ghost use Rattle.raw_region.specs.Device.{read_delta, write_delta};
ghost use Rattle.segment_disk.specs.Events.{IsFlushed};
ghost use Rattle.segment_cli.specs.Session.{MeetsScriptEnd};
ghost use Rattle.segment_commands.specs.Running.{RunsScript};

use raw_region::Source;
use segment_answers::LineOutput;
use segment_cli::{SessionFault, serve};
use segment_manager::Segment;
use segment_scripts::{End, RunObserver, Until};

/// Lets answers go out before more of a script is read, and tells the output where an answer begins. An output that
/// fails then fails again at the end.
#[derive(Drop)]
pub(crate) struct Flushing;

impl<O: LineOutput> RunObserver<O> for Flushing {
    ghost opens = { λ old out new out'. (ok : Bool) × O.flushes out ok out' };

    ghost turns = { λ old out new out'. O.turns out out' };

    fn before_read(&mut self, out: &mut O) {
        let _ = out.flush();
    }

    fn before_line(&mut self, out: &mut O) {
        out.next_line();
    }
}

/// Runs a script on a segment, and gives out all answers, also those before a fault. What was answered goes out before
/// each read of the script.
pub(crate) fn run_script<S: Source, O: LineOutput>(
    segment: &mut Segment,
    until: Until,
    script: &mut S,
    out: &mut O,
) -> Result<End, SessionFault>
    requires script { (S.history script.old).failures < 2 ^ 64 - 1 }
    requires out { (O.history out.old).failures < 2 ^ 64 - 1 }
    ensures service { RunsScript until segment.old segment.new
        (read_delta (S.history script.old) (S.history script.new))
        (write_delta (O.history out.old) (O.history out.new)) (IsFlushed O.history O.flushes out.new) result }
    ensures script_end { MeetsScriptEnd result (S.history script.old) (S.history script.new) }
{
    let served = serve(segment, script, out, &mut Flushing, until);
    let flushed = out.flush();
    let end = served?;
    flushed?;
    Ok(end)
}
