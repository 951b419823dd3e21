//! What objects say of themselves: of one all of it, and of those under names or of unique kinds a line for each.
ghost use Rattle.std.specs.Prelude.{◌≡◌, ◌-◌, ◌^◌, ◌<◌, ◌∷◌, ◌++◌};
ghost use Rattle.raw_region.specs.Device.{Writes};
ghost use Rattle.seg_types.specs.Keys.{key_seen};
ghost use Rattle.seg_types.specs.Names.{ByHandle};
ghost use Rattle.segment_lang.specs.Pieces.{piece_text};
ghost use Rattle.segment_lang.specs.Texts.{name_text};
ghost use Rattle.segment_manager.specs.Answers.{Kinds, Names};
ghost use Rattle.segment_manager.specs.Directory.{Object, named_objects, unique_objects};
ghost use Rattle.segment_manager.specs.objects.Located.{IsObject};
ghost use Rattle.segment_manager.specs.State.{DenotesCurrent};
ghost use Rattle.segment_scripts.specs.Answer.{answer_text, class_tokens, entry_tokens, line};
ghost use Rattle.segment_scripts.specs.Parts.{said_tokens};
ghost use Rattle.segment_scripts.specs.Refusing.{AnswersFor};
ghost use Rattle.segment_scripts.specs.Replies.{told_at};
ghost use Rattle.segment_scripts.specs.Shown.{behind_text, class_text, number_tokens};
ghost use Rattle.segment_scripts.specs.Writing.{WritesFor};

use crate::answered::Answered;
use crate::printing::put_refusal_line;
use raw_region::{DeviceFault, Sink};
use seg_types::{Class, Key, Kind};
use segment_lang::{Piece, put_pieces};
use segment_manager::unchecked::{instance_here, measure_object, named_instance, unique_instance};
use segment_manager::{Instance, Object, Segment, locate};

/// Writes class, name, kind, count and handle of the object of a key, or that there is none.
#[inline(never)]
pub fn put_info_answer<W: Sink>(
    segment: &Segment,
    key: &Key,
    out: &mut W,
) -> Result<Answered, DeviceFault>
    requires { (W.history out.old).failures < 2 ^ 64 - 1 }
    ensures { AnswersFor (W.history out.old) (W.history out.new) result (DenotesCurrent segment.now.cut.bytes)
        (λ d. told_at d (key_seen key.now)) }
{
    match locate(segment, key) {
        Ok(object) => Answered::Done.once(put_object(segment, object, out)),
        Err(why) => put_refusal_line(out, why),
    }
}

/// Writes class, name, kind, count and handle of an object.
fn put_object<W: Sink>(segment: &Segment, object: Object, out: &mut W) -> Result<(), DeviceFault>
    requires writer { (W.history out.old).failures < 2 ^ 64 - 1 }
    requires object { IsObject object segment.now }
    ensures { WritesFor (W.history out.old) (W.history out.new) result (DenotesCurrent segment.now.cut.bytes)
        (λ d. answer_text (told_at d (ByHandle object.handle))) }
{
    let said = instance_here(segment, object.handle);
    match measure_object(segment, object) {
        Ok((len, capacity)) => match said.kind {
            Kind::Map(_, _) => put_instance(said, Some(len), None, out),
            _ => put_instance(said, Some(len), Some(capacity), out),
        },
        Err(_) => put_instance(said, None, None, out),
    }
}

/// Writes a class, a name or `-`, a kind, a count and a handle, and the length and the capacity that were measured.
fn put_instance<W: Sink>(
    said: Instance<'_>,
    len: Option<u64>,
    capacity: Option<u64>,
    out: &mut W,
) -> Result<(), DeviceFault>
    requires { (W.history out.old).failures < 2 ^ 64 - 1 }
    ensures { Writes (W.history out.old) (W.history out.new) result
        (line (class_tokens said.entry.class said.entry.name.now ++ said_tokens said.entry
        ++ (number_tokens len ++ number_tokens capacity))) }
{
    let (class, name) = class_pieces(said.class, said.name);
    let (before_len, len) = pieces_behind(len);
    let (before_capacity, capacity) = pieces_behind(capacity);
    put_pieces(
        out,
        &[
            class,
            name,
            Piece::Bytes(b" "),
            Piece::Kind(said.kind),
            Piece::Bytes(b" "),
            Piece::Number(u64::from(said.count)),
            Piece::Bytes(b" #"),
            Piece::Number(said.handle),
            before_len,
            len,
            before_capacity,
            capacity,
            Piece::Bytes(b"\n"),
        ],
    )
}

/// Returns the pieces of a class, and of a name or `-`.
fn class_pieces<'a>(class: Class, name: &'a [u8]) -> (Piece<'a>, Piece<'a>)
    ensures { piece_text result.0 ++ piece_text result.1 ≡ class_text class name.now }
{
    match class {
        Class::Named => (Piece::Bytes(b"named "), Piece::Name(name)),
        Class::Unique => (Piece::Bytes(b"unique "), Piece::Bytes(b"-")),
        Class::Anonymous => (Piece::Bytes(b"anonymous "), Piece::Bytes(b"-")),
    }
}

/// Returns the pieces of a number after a blank, and empty ones if there is no number.
fn pieces_behind<'a>(number: Option<u64>) -> (Piece<'a>, Piece<'a>)
    ensures { piece_text result.0 ++ piece_text result.1 ≡ behind_text number }
{
    match number {
        Some(number) => (Piece::Bytes(b" "), Piece::Number(number)),
        None => (Piece::Bytes(b""), Piece::Bytes(b"")),
    }
}

/// Writes a line for each object with a name, by name, and then `end`.
#[inline(never)]
pub fn put_names<W: Sink>(segment: &Segment, out: &mut W) -> Result<(), DeviceFault>
    requires { (W.history out.old).failures < 2 ^ 64 - 1 }
    ensures { WritesFor (W.history out.old) (W.history out.new) result (DenotesCurrent segment.now.cut.bytes)
        (λ d. answer_text (Names (named_objects d))) }
{
    'names: for index in 0..segment.num_named() {
        put_named(named_instance(segment, index), out)?;
    }
    put_pieces(out, &[Piece::Bytes(b"end\n")])
}

/// Writes the line of an object with a name.
fn put_named<W: Sink>(said: Instance<'_>, out: &mut W) -> Result<(), DeviceFault>
    requires { (W.history out.old).failures < 2 ^ 64 - 1 }
    ensures { Writes (W.history out.old) (W.history out.new) result
        (line (name_text said.entry.name.now ∷ said_tokens said.entry)) }
{
    put_pieces(
        out,
        &[
            Piece::Name(said.name),
            Piece::Bytes(b" "),
            Piece::Kind(said.kind),
            Piece::Bytes(b" "),
            Piece::Number(u64::from(said.count)),
            Piece::Bytes(b" #"),
            Piece::Number(said.handle),
            Piece::Bytes(b"\n"),
        ],
    )
}

/// Writes a line for each unique object, by kind, and then `end`.
#[inline(never)]
pub fn put_kinds<W: Sink>(segment: &Segment, out: &mut W) -> Result<(), DeviceFault>
    requires { (W.history out.old).failures < 2 ^ 64 - 1 }
    ensures { WritesFor (W.history out.old) (W.history out.new) result (DenotesCurrent segment.now.cut.bytes)
        (λ d. answer_text (Kinds (unique_objects d))) }
{
    'kinds: for index in 0..segment.num_unique() {
        put_unique(unique_instance(segment, index), out)?;
    }
    put_pieces(out, &[Piece::Bytes(b"end\n")])
}

/// Writes the line of a unique object.
fn put_unique<W: Sink>(said: Instance<'_>, out: &mut W) -> Result<(), DeviceFault>
    requires { (W.history out.old).failures < 2 ^ 64 - 1 }
    ensures { Writes (W.history out.old) (W.history out.new) result (line (said_tokens said.entry)) }
{
    put_pieces(
        out,
        &[
            Piece::Kind(said.kind),
            Piece::Bytes(b" "),
            Piece::Number(u64::from(said.count)),
            Piece::Bytes(b" #"),
            Piece::Number(said.handle),
            Piece::Bytes(b"\n"),
        ],
    )
}
