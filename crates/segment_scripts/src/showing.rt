//! An object that is shown: its kind and its value.
ghost use Rattle.std.specs.Prelude.{◌-◌, ◌^◌, ◌<◌};
ghost use Rattle.raw_region.specs.Device.{Writes};
ghost use Rattle.seg_types.specs.Commands.{Get};
ghost use Rattle.seg_types.specs.declared.kinds.Kind.TheVariants.{Strings as StringsKind};
ghost use Rattle.seg_types.specs.Keys.{key_seen};
ghost use Rattle.seg_types.specs.Names.{ByHandle};
ghost use Rattle.segment_manager.specs.objects.{BoundObjects.IsBound, Located.IsLocated};
ghost use Rattle.segment_manager.specs.State.{DenotesCurrent};
ghost use Rattle.segment_manager.specs.Step.{step};
ghost use Rattle.segment_scripts.specs.Answer.{answer_text};
ghost use Rattle.segment_scripts.specs.Refusing.{AnswersFor};
ghost use Rattle.segment_scripts.specs.Replies.{shown_at, text_at};
ghost use Rattle.segment_scripts.specs.Shown.{counted_text, prefix_text};
ghost use Rattle.segment_scripts.specs.Writing.{WritesFor};

use crate::answered::Answered;
use crate::printing::{put_answer, put_refusal_line};
use crate::replies::element;
use raw_region::{DeviceFault, Sink};
use seg_types::{Key, Kind, ScalarValue};
use segment_lang::{Piece, put_pieces};
use segment_manager::{Object, Segment, Strings, locate};
use segment_values::{Layout, count_of, get_element, put_content};

/// Writes the kind and the value of the object of a key, or that there is none.
#[inline(never)]
pub fn put_show_answer<W: Sink>(
    segment: &Segment,
    key: &Key,
    out: &mut W,
) -> Result<Answered, DeviceFault>
    requires { (W.history out.old).failures < 2 ^ 64 - 1 }
    ensures { AnswersFor (W.history out.old) (W.history out.new) result (DenotesCurrent segment.now.cut.bytes)
        (λ d. shown_at d (key_seen key.now)) }
{
    match locate(segment, key) {
        Ok(object) => Answered::Done.once(put_value(segment, object, out)),
        Err(why) => put_refusal_line(out, why),
    }
}

/// Writes the kind and the value of an object.
fn put_value<W: Sink>(segment: &Segment, object: Object, out: &mut W) -> Result<(), DeviceFault>
    requires writer { (W.history out.old).failures < 2 ^ 64 - 1 }
    requires object { IsLocated segment.now (ByHandle object.handle) object }
    ensures { WritesFor (W.history out.old) (W.history out.new) result (DenotesCurrent segment.now.cut.bytes)
        (λ d. answer_text (shown_at d (ByHandle object.handle))) }
{
    let count = count_of(segment, object);
    put_prefix(object.kind, count, out)?;
    put_content(&InLine, segment, object, count, out)?;
    put_pieces(out, &[Piece::Bytes(b"\n")])
}

/// Elements as an answer has them, each after a blank.
struct InLine;

impl Layout for InLine {
    ghost use Rattle.segment_scripts.specs.Shown.{in_line};

    ghost spelling = { λ _. in_line };

    fn put_scalar<W: Sink>(
        &self,
        _index: u64,
        value: ScalarValue,
        out: &mut W,
    ) -> Result<(), DeviceFault> {
        put_pieces(out, &[Piece::Bytes(b" "), Piece::Value(value)])
    }

    fn put_text<W: Sink>(&self, _index: u64, text: &[u8], out: &mut W) -> Result<(), DeviceFault> {
        put_pieces(out, &[Piece::Bytes(b" "), Piece::Text(text)])
    }

    fn put_pair<W: Sink>(
        &self,
        _index: u64,
        key: ScalarValue,
        value: ScalarValue,
        out: &mut W,
    ) -> Result<(), DeviceFault> {
        put_pieces(
            out,
            &[
                Piece::Bytes(b" "),
                Piece::Value(key),
                Piece::Bytes(b"="),
                Piece::Value(value),
            ],
        )
    }
}

/// Writes a kind, and the number of elements if the object is an array of more than one scalar.
fn put_prefix<W: Sink>(kind: Kind, count: u64, out: &mut W) -> Result<(), DeviceFault>
    requires { (W.history out.old).failures < 2 ^ 64 - 1 }
    ensures { Writes (W.history out.old) (W.history out.new) result (prefix_text kind count) }
{
    match kind {
        Kind::Scalar(_) => put_counted(kind, count, out),
        _ => put_pieces(out, &[Piece::Kind(kind)]),
    }
}

/// Writes a kind, and the count unless it is 1.
fn put_counted<W: Sink>(kind: Kind, count: u64, out: &mut W) -> Result<(), DeviceFault>
    requires { (W.history out.old).failures < 2 ^ 64 - 1 }
    ensures { Writes (W.history out.old) (W.history out.new) result (counted_text kind count) }
{
    if count == 1 {
        return put_pieces(out, &[Piece::Kind(kind)]);
    }
    put_pieces(
        out,
        &[
            Piece::Kind(kind),
            Piece::Bytes(b"["),
            Piece::Number(count),
            Piece::Bytes(b"]"),
        ],
    )
}

/// Writes the element at an index in the object of a key, or why there is none.
#[inline(never)]
pub fn put_get_answer<W: Sink>(
    segment: &Segment,
    key: &Key,
    index: u64,
    out: &mut W,
) -> Result<Answered, DeviceFault>
    requires { (W.history out.old).failures < 2 ^ 64 - 1 }
    ensures { AnswersFor (W.history out.old) (W.history out.new) result (DenotesCurrent segment.now.cut.bytes)
        (λ d. (step segment.now.mode d (Get (key_seen key.now) index)).0) }
{
    match locate(segment, key) {
        Ok(object) => match object.kind {
            Kind::Strings => put_text_at(segment, object, index, out),
            _ => put_answer(segment, element(get_element(segment, object, index)), out),
        },
        Err(why) => put_refusal_line(out, why),
    }
}

/// Writes the text at an index in a vector of strings, or why there is none.
pub fn put_text_at<W: Sink>(
    segment: &Segment,
    object: Object,
    index: u64,
    out: &mut W,
) -> Result<Answered, DeviceFault>
    requires writer { (W.history out.old).failures < 2 ^ 64 - 1 }
    requires object { IsBound StringsKind object segment.now }
    ensures { AnswersFor (W.history out.old) (W.history out.new) result (DenotesCurrent segment.now.cut.bytes)
        (λ d. text_at d (ByHandle object.handle) index) }
{
    match Strings::at(segment, object).get(index) {
        Ok(text) => {
            Answered::Done.once(put_pieces(out, &[Piece::Text(text), Piece::Bytes(b"\n")]))
        }
        Err(why) => put_refusal_line(out, why),
    }
}
