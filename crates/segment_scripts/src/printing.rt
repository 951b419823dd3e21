//! Printing of answers: a short answer is one write, a long one is written as the segment is read.
ghost use Rattle.std.specs.Prelude.{◌≡◌, ◌-◌, ◌^◌, ◌<◌, true};
ghost use Rattle.raw_region.specs.Device.{Writes};
ghost use Rattle.segment_manager.specs.Answers.{Found, Refused};
ghost use Rattle.segment_manager.specs.State.{DenotesCurrent};
ghost use Rattle.segment_scripts.specs.Answer.{answer_text};
ghost use Rattle.segment_scripts.specs.Refusing.{AnswersFor, Tells};
ghost use Rattle.segment_scripts.specs.Replies.{answer_seen};

use crate::answered::Answered;
use crate::listing::put_blocks;
use crate::replies::CommandAnswer;
use crate::showing::put_show_answer;
use crate::telling::{put_info_answer, put_kinds, put_names};
use raw_region::{DeviceFault, Sink, write_all};
use seg_types::{Handle, Refusal};
use segment_lang::{Piece, put_number_line, put_pieces, put_value_line};
use segment_manager::Segment;

/// Writes an answer about a segment, and tells whether it is a refusal. A fault leaves a proper prefix of it written.
pub fn put_answer<W: Sink>(
    segment: &Segment,
    answer: CommandAnswer<'_>,
    out: &mut W,
) -> Result<Answered, DeviceFault>
    requires { (W.history out.old).failures < 2 ^ 64 - 1 }
    ensures { AnswersFor (W.history out.old) (W.history out.new) result (DenotesCurrent segment.now.cut.bytes)
        (λ d. answer_seen d answer.entry) }
{
    match answer {
        CommandAnswer::Done => Answered::Done.once(write_all(out, b"ok\n")),
        CommandAnswer::Absent => Answered::Done.once(write_all(out, b"none\n")),
        CommandAnswer::Boolean(true) => Answered::Done.once(write_all(out, b"true\n")),
        CommandAnswer::Boolean(false) => Answered::Done.once(write_all(out, b"false\n")),
        CommandAnswer::Number(number) => Answered::Done.once(put_number_line(out, b"", number)),
        CommandAnswer::Made(handle) => Answered::Done.once(put_number_line(out, b"#", handle)),
        CommandAnswer::Found(handle, count) => Answered::Done.once(put_found(handle, count, out)),
        CommandAnswer::Element(value) => Answered::Done.once(put_value_line(out, value)),
        CommandAnswer::Shown(key) => put_show_answer(segment, &key, out),
        CommandAnswer::Told(key) => put_info_answer(segment, &key, out),
        CommandAnswer::Names => Answered::Done.once(put_names(segment, out)),
        CommandAnswer::Kinds => Answered::Done.once(put_kinds(segment, out)),
        CommandAnswer::Blocks => Answered::Done.once(put_blocks(segment, out)),
        CommandAnswer::Refused(why) => put_refusal_line(out, why),
    }
}

/// Writes why a command is refused.
#[inline(never)]
pub fn put_refusal_line<W: Sink>(out: &mut W, why: Refusal) -> Result<Answered, DeviceFault>
    requires { (W.history out.old).failures < 2 ^ 64 - 1 }
    ensures output { Writes (W.history out.old) (W.history out.new) result (answer_text (Refused why)) }
    ensures report { Tells result true }
{
    Answered::Refused.once(put_pieces(out, &[Piece::Refusal(why), Piece::Bytes(b"\n")]))
}

/// Writes a handle and a count.
#[inline(never)]
fn put_found<W: Sink>(handle: Handle, count: u32, out: &mut W) -> Result<(), DeviceFault>
    requires { (W.history out.old).failures < 2 ^ 64 - 1 }
    ensures { Writes (W.history out.old) (W.history out.new) result (answer_text (Found handle count)) }
{
    put_pieces(
        out,
        &[
            Piece::Bytes(b"#"),
            Piece::Number(handle),
            Piece::Bytes(b" "),
            Piece::Number(u64::from(count)),
            Piece::Bytes(b"\n"),
        ],
    )
}
