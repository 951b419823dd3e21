//! A segment as a machine that answers lines: each line is read, executed, and answered.
ghost use Rattle.std.specs.Prelude.{◌≡◌, ◌-◌, ◌^◌, ◌<◌, true};
ghost use Rattle.raw_region.specs.Device.{Writes};
ghost use Rattle.seg_types.specs.Commands.{Asked, Command as AskedCommand};
ghost use Rattle.segment_lang.specs.Seen.{reading_by};
ghost use Rattle.segment_lang.specs.declared.forms.CommandForm.TheVariants as form;
ghost use Rattle.segment_scripts.specs.Refusing.{Tells};
ghost use Rattle.segment_scripts.specs.Replies.{IsMeant};
ghost use Rattle.segment_scripts.specs.Run.{error_line};
ghost use Rattle.segment_scripts.specs.Segments.{IsMachineAt, MachineState, Responds, answer_line, is_idle_line};
ghost use Rattle.segment_scripts.specs.Segments.{refuses_line};
ghost use Rattle.segment_scripts.specs.LongLines.{answer_line-long, refuses_line-long};

use crate::answered::Answered;
use crate::machine::{Machine, Scratch};
use crate::popping::pop;
use crate::printing::put_answer;
use crate::replies::{done, reply, truth};
use crate::showing::put_get_answer;
use raw_region::{DeviceFault, Sink};
use segment_lang::{
    CommandForm, LineError, LineStart, OperationForm, Piece, at_end, key_and_literal,
    key_and_number, key_and_pair, line_start, only_key, put_number_line, put_pieces,
    read_operation,
};
use segment_manager::Segment;
use segment_values::{InsertSpot, add, put_pair};

impl Machine for Segment {
    ghost RunState = { MachineState };

    ghost respond = { λ at line. answer_line at line };

    ghost refuses = { λ at line. refuses_line at line };

    ghost is_idle = { λ at line. is_idle_line at line };

    ghost stands = { λ segment at. IsMachineAt segment at };

    fn answer<W: Sink>(
        &mut self,
        scratch: &mut Scratch,
        line: &[u8],
        out: &mut W,
    ) -> Result<Answered, DeviceFault> {
        match line_start(line) {
            LineStart::Nothing => Ok(Answered::Done),
            LineStart::Form(form, rest) => match form {
                CommandForm::Size => answer_size(self, rest, out),
                CommandForm::Get => answer_get(self, rest, scratch, out),
                CommandForm::Push => answer_push(self, rest, scratch, out),
                CommandForm::Put => answer_put(self, rest, scratch, out),
                CommandForm::Pop => answer_pop(self, rest, scratch, out),
                CommandForm::Operation(form) => answer_operation(self, form, rest, scratch, out),
            },
            LineStart::Wrong(error) => put_wrong(error, out),
        }
    }

    ghost long_lines = { answer_line-long };

    ghost long_refusals = { refuses_line-long };
}

/// Writes why a line is no command.
#[inline(never)]
fn put_wrong<W: Sink>(error: LineError, out: &mut W) -> Result<Answered, DeviceFault>
    requires { (W.history out.old).failures < 2 ^ 64 - 1 }
    ensures output { Writes (W.history out.old) (W.history out.new) result (error_line error) }
    ensures report { Tells result true }
{
    Answered::Refused.once(put_pieces(out, &[Piece::LineError(error), Piece::Bytes(b"\n")]))
}

/// Answers `size`, given its arguments.
#[inline(always)]
fn answer_size<W: Sink>(
    segment: &Segment,
    rest: &[u8],
    out: &mut W,
) -> Result<Answered, DeviceFault>
    requires { (W.history out.old).failures < 2 ^ 64 - 1 }
    ensures { Responds segment.now segment.now (W.history out.old) (W.history out.new) result
        (reading_by form.Size rest.now) }
{
    if !at_end(rest) {
        return put_wrong(LineError::BadSyntax, out);
    }
    Answered::Done.once(put_number_line(out, b"", segment.size()))
}

/// Answers `get`, given its arguments.
#[inline(never)]
fn answer_get<W: Sink>(
    segment: &Segment,
    rest: &[u8],
    scratch: &mut Scratch,
    out: &mut W,
) -> Result<Answered, DeviceFault>
    requires { (W.history out.old).failures < 2 ^ 64 - 1 }
    ensures { Responds segment.now segment.now (W.history out.old) (W.history out.new) result
        (reading_by form.Get rest.now) }
{
    match key_and_number(rest, &mut scratch.name) {
        Some((key, index)) => put_get_answer(segment, &key, index, out),
        None => put_wrong(LineError::BadSyntax, out),
    }
}

/// Answers `push`, given its arguments.
#[inline(never)]
fn answer_push<W: Sink>(
    segment: &mut Segment,
    rest: &[u8],
    scratch: &mut Scratch,
    out: &mut W,
) -> Result<Answered, DeviceFault>
    requires no_overflow { (W.history out.old).failures < 2 ^ 64 - 1 }
    requires meaning { (c : AskedCommand) → Asked c ≡ reading_by form.Push rest.now → IsMeant c }
    ensures { Responds segment.old segment.new (W.history out.old) (W.history out.new) result
        (reading_by form.Push rest.now) }
{
    match key_and_literal(rest, &mut scratch.name) {
        Some((key, value)) => {
            let buffer = &mut scratch.lent.text;
            let answer = done(add(segment, &key, InsertSpot::End, &value, buffer));
            put_answer(segment, answer, out)
        }
        None => put_wrong(LineError::BadSyntax, out),
    }
}

/// Answers `put`, given its arguments.
#[inline(never)]
fn answer_put<W: Sink>(
    segment: &mut Segment,
    rest: &[u8],
    scratch: &mut Scratch,
    out: &mut W,
) -> Result<Answered, DeviceFault>
    requires { (W.history out.old).failures < 2 ^ 64 - 1 }
    ensures { Responds segment.old segment.new (W.history out.old) (W.history out.new) result
        (reading_by form.Put rest.now) }
{
    match key_and_pair(rest, &mut scratch.name) {
        Some((key, at, value)) => {
            let answer = truth(put_pair(segment, &key, &at, &value));
            put_answer(segment, answer, out)
        }
        None => put_wrong(LineError::BadSyntax, out),
    }
}

/// Answers `pop`, given its arguments.
#[inline(never)]
fn answer_pop<W: Sink>(
    segment: &mut Segment,
    rest: &[u8],
    scratch: &mut Scratch,
    out: &mut W,
) -> Result<Answered, DeviceFault>
    requires { (W.history out.old).failures < 2 ^ 64 - 1 }
    ensures { Responds segment.old segment.new (W.history out.old) (W.history out.new) result
        (reading_by form.Pop rest.now) }
{
    match only_key(rest, &mut scratch.name) {
        Some(key) => pop(segment, &key, out),
        None => put_wrong(LineError::BadSyntax, out),
    }
}

/// Answers any other command, given its arguments.
#[inline(never)]
fn answer_operation<W: Sink>(
    segment: &mut Segment,
    kind: OperationForm,
    rest: &[u8],
    scratch: &mut Scratch,
    out: &mut W,
) -> Result<Answered, DeviceFault>
    requires no_overflow { (W.history out.old).failures < 2 ^ 64 - 1 }
    requires meaning { (c : AskedCommand) → Asked c ≡ reading_by (form.Operation kind) rest.now → IsMeant c }
    ensures { Responds segment.old segment.new (W.history out.old) (W.history out.new) result
        (reading_by (form.Operation kind) rest.now) }
{
    match read_operation(kind, rest, &mut scratch.name) {
        Some(operation) => {
            let answer = reply(segment, operation, &mut scratch.lent);
            put_answer(segment, answer, out)
        }
        None => put_wrong(LineError::BadSyntax, out),
    }
}
