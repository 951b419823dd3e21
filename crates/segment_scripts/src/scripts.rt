//! The running of a script: read in pieces, parted into lines, each line answered at its end.
ghost use Rattle.std.specs.Prelude.{◌≡◌, ◌+◌, ◌-◌, ◌^◌, ◌<◌, ◌≤◌, ℕ, List, [], ◌++◌, length, take, OnErr, IfOk};
ghost use Rattle.std.specs.Prelude.{IfErr};
ghost use Rattle.memchr.specs.Find.{IsFirstByte, is_byte};
ghost use Rattle.raw_region.specs.Answers.{answers_end, ends_in, failures_in};
ghost use Rattle.raw_region.specs.Device.{read_delta, write_delta, AppendsBytes};
ghost use Rattle.segment_scripts.specs.RunOutcome.{ExecutesScript, UsesDevices};
ghost use Rattle.segment_scripts.specs.Following.{AsksObserver};
ghost use Rattle.segment_scripts.specs.Refusing.{Tells};
ghost use Rattle.segment_scripts.specs.Stopping.{FailsOnTheWay, LeavesUntil, stops_at};
ghost use Rattle.segment_scripts.specs.Writing.{WritesFor};
ghost use Rattle.segment_scripts.specs.RunProgress.{FailsIn, IsOn, IsStoppedAtLast, LeavesEnded, LeavesLast};
ghost use Rattle.segment_scripts.specs.RunProgress.{LeavesPiece};

use crate::answered::Answered;
use crate::ends::{End, Until};
use crate::faults::RunFault;
use crate::machine::{Machine, ParseBuffers, Scratch};
use crate::observers::{NoObserver, RunObserver};
use memchr::memchr_iter;
use raw_region::{DeviceFault, Sink, Source};
use segment_lang::{Buffer, LineBuffer};

/// The most bytes of a script that one read takes.
const PIECE: usize = 65536;

/// The most bytes that a script may have.
const SCRIPT_LIMIT: usize = 16777216;

/// The first 4098 bytes of a line that has not ended yet, or all of them if it has fewer: a longer line is answered by
/// these alone.
type PartialLine = Buffer<u8, 4098>;

/// Returns where the first line end is. It looks at 32 bytes first, since most lines are short.
fn line_end(bytes: &[u8]) -> Option<usize>
    ensures { IsFirstByte (is_byte 0x0A) bytes.now result }
{
    memchr_iter(b'\n', bytes).next()
}

/// Calls the observer, and answers a line.
fn answer_next<M: Machine, W: Sink, F: RunObserver<W>>(
    machine: &mut M,
    scratch: &mut Scratch,
    line: &[u8],
    out: &mut W,
    follower: &mut F,
) -> Result<Answered, DeviceFault>
    requires { (W.history out.old).failures < 2 ^ 64 - 1 }
    ensures step { (state : M.RunState) → M.stands machine.old state
        → M.stands machine.new (M.respond state line.now).1 }
    ensures output { WritesFor (W.history out.old) (W.history out.new) result (M.stands machine.old)
        (λ state. (M.respond state line.now).0) }
    ensures report { (state : M.RunState) → M.stands machine.old state → Tells result (M.refuses state line.now) }
    ensures turn { AsksObserver F.turns follower.old follower.new out.old }
{
    follower.before_line(out);
    machine.answer(scratch, line, out)
}

/// Answers the open line, which these bytes end. A line that lies wholly in them is not copied.
fn answer_ended<M: Machine, W: Sink, F: RunObserver<W>>(
    machine: &mut M,
    scratch: &mut Scratch,
    line: &mut PartialLine,
    end: &[u8],
    out: &mut W,
    follower: &mut F,
) -> Result<Answered, DeviceFault>
    requires { (W.history out.old).failures < 2 ^ 64 - 1 }
    ensures step { (state : M.RunState) → M.stands machine.old state
        → M.stands machine.new (M.respond state (take 4098 (line.old ++ end.now))).1 }
    ensures output { WritesFor (W.history out.old) (W.history out.new) result (M.stands machine.old)
        (λ state. (M.respond state (take 4098 (line.old ++ end.now))).0) }
    ensures report { (state : M.RunState) → M.stands machine.old state
        → Tells result (M.refuses state (take 4098 (line.old ++ end.now))) }
    ensures turn { AsksObserver F.turns follower.old follower.new out.old }
    ensures empty { line.new ≡ [] }
{
    if line.is_empty() {
        return answer_next(machine, scratch, end, out, follower);
    }
    line.extend(end);
    let answered = answer_next(machine, scratch, line.as_slice(), out, follower);
    line.clear();
    answered
}

/// Executes the lines that end in the piece, the first of which may have begun before it, and keeps the line that is
/// still open after it. It goes no further than the line that ends the run.
fn feed<M: Machine, W: Sink, F: RunObserver<W>>(
    machine: &mut M,
    scratch: &mut Scratch,
    line: &mut PartialLine,
    piece: &[u8],
    out: &mut W,
    follower: &mut F,
    until: Until,
) -> Result<End, DeviceFault>
    requires { (W.history out.old).failures < 2 ^ 64 - 1 }
    ensures on_ok { IfOk result (λ end. (start : M.RunState) (before read : List ℕ)
        → IsOn M.respond (stops_at until M.refuses) start before read (M.stands machine.old) line.old
        (W.history out.old).bytes
        → LeavesPiece M.respond (stops_at until M.refuses) start before read piece.now (M.stands machine.new) line.new
        (W.history out.new).bytes end) }
    ensures on_error { OnErr result ((start : M.RunState) (before read : List ℕ)
        → IsOn M.respond (stops_at until M.refuses) start before read (M.stands machine.old) line.old
        (W.history out.old).bytes
        → FailsIn M.respond (stops_at until M.refuses) start before read piece.now (M.stands machine.new)
        (W.history out.new).bytes) }
    ensures failures { (W.history out.new).failures ≡ (W.history out.old).failures + failures_in result }
{
    let mut rest = piece;
    'lines: while let Some(len) = line_end(rest) {
        let answered = answer_ended(machine, scratch, line, &rest[..len], out, follower)?;
        if until.is_stop(answered) {
            return Ok(End::Refused);
        }
        rest = &rest[len + 1..];
    }
    line.extend(rest);
    Ok(End::Complete)
}

/// Calls the observer, and reads a piece of the script.
#[inline(always)]
fn read<S: Source, W: Sink, F: RunObserver<W>>(
    script: &mut S,
    into: &mut [u8],
    out: &mut W,
    follower: &mut F,
) -> Result<usize, DeviceFault>
    requires { (S.history script.old).failures < 2 ^ 64 - 1 }
    ensures count { IfOk result (λ n. n ≤ length into.new) }
    ensures bytes { IfOk result (λ n. (S.history script.new).bytes ≡ (S.history script.old).bytes ++ take n into.new) }
    ensures no_bytes { OnErr result ((S.history script.new).bytes ≡ (S.history script.old).bytes) }
    ensures end { 0 < length into.old → (S.history script.new).ended ≡ answers_end result }
    ensures same_end { length into.old ≡ 0 → (S.history script.new).ended ≡ (S.history script.old).ended }
    ensures ends { (S.history script.new).ends ≡ (S.history script.old).ends + ends_in result (length into.old) }
    ensures failures { (S.history script.new).failures ≡ (S.history script.old).failures + failures_in result }
    ensures history { W.history out.new ≡ W.history out.old }
    ensures opening { F.opens follower.old out.old follower.new out.new }
{
    follower.before_read(out);
    script.read(into)
}

/// Reads the script in pieces and executes the lines that end in it, up to the line that ends the run.
fn read_lines<M: Machine, S: Source, W: Sink, F: RunObserver<W>>(
    machine: &mut M,
    scratch: &mut Scratch,
    script: &mut S,
    line: &mut PartialLine,
    out: &mut W,
    follower: &mut F,
    until: Until,
) -> Result<End, RunFault>
    requires reader { (S.history script.old).failures < 2 ^ 64 - 1 }
    requires writer { (W.history out.old).failures < 2 ^ 64 - 1 }
    requires fresh { line.old ≡ [] }
    ensures end { IfOk result (λ end. (start : M.RunState) → M.stands machine.old start
        → LeavesEnded M.respond (stops_at until M.refuses) start (W.history out.old).bytes
        (read_delta (S.history script.old) (S.history script.new))
        (M.stands machine.new) line.new (W.history out.new).bytes
        (write_delta (W.history out.old) (W.history out.new)) end) }
    ensures fault { IfErr result (λ fault. (start : M.RunState) → M.stands machine.old start
        → FailsOnTheWay M.respond (stops_at until M.refuses) start
        (read_delta (S.history script.old) (S.history script.new))
        (write_delta (W.history out.old) (W.history out.new))
        (M.stands machine.new) fault) }
    ensures output_history { (start : M.RunState) → M.stands machine.old start
        → AppendsBytes (W.history out.old).bytes (W.history out.new).bytes }
    ensures devices { UsesDevices (S.history script.old) (S.history script.new)
        (W.history out.old) (W.history out.new) result }
{
    let mut piece = [0u8; PIECE];
    let mut left = SCRIPT_LIMIT;
    'pieces: loop {
        // one byte behind the limit says that the script is too long
        let lent = &mut piece[..PIECE.min(left + 1)];
        let count = match read(script, lent, out, follower) {
            Ok(count) => count,
            Err(_) => return Err(RunFault::ReadFault),
        };
        if count == 0 {
            return Ok(End::Complete);
        }
        let within = count.min(left);
        match feed(
            machine,
            scratch,
            line,
            &lent[..within],
            out,
            follower,
            until,
        ) {
            Ok(End::Complete) => {}
            Ok(End::Refused) => return Ok(End::Refused),
            Err(_) => return Err(RunFault::WriteFault),
        }
        if left < count {
            return Err(RunFault::ScriptTooLong);
        }
        left -= count;
    }
}

/// Answers the line that is open if the script ends, if it has a byte.
fn answer_last<M: Machine, W: Sink, F: RunObserver<W>>(
    machine: &mut M,
    scratch: &mut Scratch,
    line: &PartialLine,
    out: &mut W,
    follower: &mut F,
    until: Until,
) -> Result<End, DeviceFault>
    requires { (W.history out.old).failures < 2 ^ 64 - 1 }
    ensures on_ok { IfOk result (λ end. (start : M.RunState) (before read : List ℕ)
        → IsOn M.respond (stops_at until M.refuses) start before read (M.stands machine.old) line.now
        (W.history out.old).bytes
        → LeavesLast M.respond (stops_at until M.refuses) start before read (M.stands machine.new)
        (W.history out.new).bytes end) }
    ensures on_error { OnErr result ((start : M.RunState) (before read : List ℕ)
        → IsOn M.respond (stops_at until M.refuses) start before read (M.stands machine.old) line.now
        (W.history out.old).bytes
        → IsStoppedAtLast M.respond start before read (M.stands machine.new) (W.history out.new).bytes) }
    ensures failures { (W.history out.new).failures ≡ (W.history out.old).failures + failures_in result }
{
    let last = line.as_slice();
    if !last.is_empty() {
        let answered = answer_next(machine, scratch, last, out, follower)?;
        if until.is_stop(answered) {
            return Ok(End::Refused);
        }
    }
    Ok(End::Complete)
}

/// Executes a script line by line and writes the answers. A line ends at a byte 10; the last line needs no end. The run
/// allocates nothing. It calls the observer before each read of the script and before each line. With `Until::Refusal`
/// the first line that the machine refuses is the last: it is answered, no later line is executed, and the script is
/// not read further.
///
/// After a fault the machine has the state after the lines that were executed.
pub fn run_until<M: Machine, S: Source, W: Sink, F: RunObserver<W>>(
    machine: &mut M,
    script: &mut S,
    out: &mut W,
    follower: &mut F,
    until: Until,
) -> Result<End, RunFault>
    requires reader { (S.history script.old).failures < 2 ^ 64 - 1 }
    requires writer { (W.history out.old).failures < 2 ^ 64 - 1 }
    ensures remainder { (state : M.RunState) → M.stands machine.old state
        → LeavesUntil M.respond (stops_at until M.refuses) state
        (read_delta (S.history script.old) (S.history script.new))
        (write_delta (W.history out.old) (W.history out.new))
        (M.stands machine.new) result }
    ensures output_history { (state : M.RunState) → M.stands machine.old state
        → AppendsBytes (W.history out.old).bytes (W.history out.new).bytes }
    ensures devices { UsesDevices (S.history script.old) (S.history script.new)
        (W.history out.old) (W.history out.new) result }
{
    let mut scratch = Scratch {
        name: LineBuffer::new(),
        lent: ParseBuffers::new(),
    };
    let mut line = PartialLine::new();
    match read_lines(
        machine,
        &mut scratch,
        script,
        &mut line,
        out,
        follower,
        until,
    )? {
        End::Refused => Ok(End::Refused),
        End::Complete => match answer_last(machine, &mut scratch, &line, out, follower, until) {
            Ok(end) => Ok(end),
            Err(_) => Err(RunFault::WriteFault),
        },
    }
}

/// Executes the script to its end, whatever its lines are answered, as [`run_until`] does.
pub fn run_followed<M: Machine, S: Source, W: Sink, F: RunObserver<W>>(
    machine: &mut M,
    script: &mut S,
    out: &mut W,
    follower: &mut F,
) -> Result<(), RunFault>
    requires reader { (S.history script.old).failures < 2 ^ 64 - 1 }
    requires writer { (W.history out.old).failures < 2 ^ 64 - 1 }
    ensures remainder { (state : M.RunState) → M.stands machine.old state
        → ExecutesScript M.respond state
        (read_delta (S.history script.old) (S.history script.new))
        (write_delta (W.history out.old) (W.history out.new))
        result (M.stands machine.new) }
    ensures output_history { (state : M.RunState) → M.stands machine.old state
        → AppendsBytes (W.history out.old).bytes (W.history out.new).bytes }
    ensures devices { UsesDevices (S.history script.old) (S.history script.new)
        (W.history out.old) (W.history out.new) result }
{
    match run_until(machine, script, out, follower, Until::End) {
        Ok(_) => Ok(()),
        Err(fault) => Err(fault),
    }
}

/// Executes the script line by line from where the machine stands, and writes the answers. A line
/// ends at a byte 10; the last one needs no end. It takes no memory.
///
/// A fault leaves the machine where the lines that were executed lead.
pub fn run<M: Machine, S: Source, W: Sink>(
    machine: &mut M,
    script: &mut S,
    out: &mut W,
) -> Result<(), RunFault>
    requires reader { (S.history script.old).failures < 2 ^ 64 - 1 }
    requires writer { (W.history out.old).failures < 2 ^ 64 - 1 }
    ensures remainder { (state : M.RunState) → M.stands machine.old state
        → ExecutesScript M.respond state
        (read_delta (S.history script.old) (S.history script.new))
        (write_delta (W.history out.old) (W.history out.new))
        result (M.stands machine.new) }
    ensures output_history { (state : M.RunState) → M.stands machine.old state
        → AppendsBytes (W.history out.old).bytes (W.history out.new).bytes }
    ensures devices { UsesDevices (S.history script.old) (S.history script.new)
        (W.history out.old) (W.history out.new) result }
{
    run_followed(machine, script, out, &mut NoObserver)
}
