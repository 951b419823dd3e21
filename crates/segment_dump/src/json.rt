//! A segment as lines of JSON: an object a line.
ghost use Rattle.std.specs.Prelude.{◌≡◌, ◌-◌, ◌^◌, ◌<◌, ◌++◌};
ghost use Rattle.raw_region.specs.Device.{Writes};
ghost use Rattle.seg_types.specs.declared.kinds.Class.TheVariants.{Named};
ghost use Rattle.seg_types.specs.Names.{ByHandle};
ghost use Rattle.segment_manager.specs.objects.Located.{IsLocated};
ghost use Rattle.segment_manager.specs.State.{AnswersWith};
ghost use Rattle.segment_dump.specs.Items.{portable};
ghost use Rattle.segment_dump.specs.Json.{closing, comma_before, in_json, json_dump, json_key, json_kind};
ghost use Rattle.segment_dump.specs.Json.{opening};
ghost use Rattle.segment_dump.specs.DumpWrites.{WritesOf};
ghost use Rattle.segment_values.specs.Layouts.{count_at, laid_at};

use crate::json_texts::{put_bytes, put_string};
use crate::objects::{ObjectWriter, put_anonymous, put_named, put_unique};
use raw_region::{DeviceFault, Sink, write_all};
use seg_types::{Class, Kind, ScalarValue};
use segment_lang::{Piece, put_pieces};
use segment_manager::unchecked::object_here;
use segment_manager::{Instance, Object, Segment};
use segment_values::{Layout, count_of, put_content};

/// Writes all objects of a segment as lines of JSON, in the order of a [`dump`](crate::dump), an object a line:
/// `{"class":"named","name":"a","kind":"i64","value":[1,2]}`. The name of an object that has none is `null`. Scalars
/// are numbers, `true` or `false`; a text is a string if it is UTF-8, and otherwise an object `{"base64":".."}` with
/// its bytes. The value of a `string` is its text. The value of each other object is a list: of scalars, of texts, or,
/// for a map, of lists of a key and its value. It needs no memory, and a line is as long as its object.
///
/// # Errors
///
/// If the sink fails. It has taken a part of the text then, from the first byte on, and not all.
pub fn dump_json<W: Sink>(segment: &Segment, out: &mut W) -> Result<(), DeviceFault>
    requires { (W.history out.old).failures < 2 ^ 64 - 1 }
    ensures { WritesOf segment.now (W.history out.old) (W.history out.new) result (λ d. json_dump (portable d)) }
{
    put_named(&InJson, segment, out)?;
    put_unique(&InJson, segment, out)?;
    put_anonymous(&InJson, segment, out)
}

/// Objects as lines of JSON, and their elements with commas between them.
struct InJson;

impl ObjectWriter for InJson {
    ghost use Rattle.segment_dump.specs.Json.{json_object};

    ghost text = { λ _. json_object };

    fn tell<W: Sink>(
        &self,
        segment: &Segment,
        said: Instance<'_>,
        out: &mut W,
    ) -> Result<(), DeviceFault> {
        let object = object_here(segment, said.handle);
        let count = count_of(segment, object);
        put_key(said, out)?;
        put_kind(said.kind, out)?;
        put_value(segment, object, count, out)
    }
}

impl Layout for InJson {
    ghost use Rattle.segment_dump.specs.Json.{in_json};

    ghost spelling = { λ _. in_json };

    fn put_scalar<W: Sink>(
        &self,
        index: u64,
        value: ScalarValue,
        out: &mut W,
    ) -> Result<(), DeviceFault> {
        put_pieces(
            out,
            &[Piece::Bytes(comma_before(index)), Piece::Value(value)],
        )
    }

    fn put_text<W: Sink>(&self, index: u64, text: &[u8], out: &mut W) -> Result<(), DeviceFault> {
        write_all(out, comma_before(index))?;
        put_bytes(text, out)
    }

    fn put_pair<W: Sink>(
        &self,
        index: u64,
        key: ScalarValue,
        value: ScalarValue,
        out: &mut W,
    ) -> Result<(), DeviceFault> {
        put_pieces(
            out,
            &[
                Piece::Bytes(comma_before(index)),
                Piece::Bytes(b"["),
                Piece::Value(key),
                Piece::Bytes(b","),
                Piece::Value(value),
                Piece::Bytes(b"]"),
            ],
        )
    }
}

/// Returns the separator before the element at an index.
fn comma_before(index: u64) -> &'static [u8]
    ensures { result.now ≡ comma_before index }
{
    if index == 0 { b"" } else { b"," }
}

/// Writes the class and the name of an object, from the start of its line on.
fn put_key<W: Sink>(said: Instance<'_>, out: &mut W) -> Result<(), DeviceFault>
    requires { (W.history out.old).failures < 2 ^ 64 - 1 }
    ensures { Writes (W.history out.old) (W.history out.new) result (json_key said.entry.class said.entry.name.now) }
{
    match said.class {
        Class::Named => put_named_key(said.name, out),
        Class::Unique => put_pieces(out, &[Piece::Bytes(b"{\"class\":\"unique\",\"name\":null")]),
        Class::Anonymous => put_pieces(
            out,
            &[Piece::Bytes(b"{\"class\":\"anonymous\",\"name\":null")],
        ),
    }
}

/// Writes the class of an object with a name, and its name.
fn put_named_key<W: Sink>(name: &[u8], out: &mut W) -> Result<(), DeviceFault>
    requires { (W.history out.old).failures < 2 ^ 64 - 1 }
    ensures { Writes (W.history out.old) (W.history out.new) result (json_key Named name.now) }
{
    write_all(out, b"{\"class\":\"named\",\"name\":")?;
    put_string(name, out)
}

/// Writes the kind of an object, up to its value.
fn put_kind<W: Sink>(kind: Kind, out: &mut W) -> Result<(), DeviceFault>
    requires { (W.history out.old).failures < 2 ^ 64 - 1 }
    ensures { Writes (W.history out.old) (W.history out.new) result (json_kind kind) }
{
    put_pieces(
        out,
        &[
            Piece::Bytes(b",\"kind\":\""),
            Piece::Kind(kind),
            Piece::Bytes(b"\",\"value\":"),
        ],
    )
}

/// Writes the value of an object, and the end of its line.
fn put_value<W: Sink>(
    segment: &Segment,
    object: Object,
    count: u64,
    out: &mut W,
) -> Result<(), DeviceFault>
    requires writer { (W.history out.old).failures < 2 ^ 64 - 1 }
    requires object { IsLocated segment.now (ByHandle object.handle) object }
    requires count { AnswersWith segment.now (λ d. count_at d (ByHandle object.handle)) count }
    ensures { WritesOf segment.now (W.history out.old) (W.history out.new) result (λ d.
        opening object.kind ++ (laid_at in_json d (ByHandle object.handle) ++ closing object.kind)) }
{
    write_all(out, opening(object.kind))?;
    put_content(&InJson, segment, object, count, out)?;
    write_all(out, closing(object.kind))
}

/// Returns the text before the elements of a kind.
fn opening(kind: Kind) -> &'static [u8]
    ensures { result.now ≡ opening kind }
{
    match kind {
        Kind::String => b"",
        _ => b"[",
    }
}

/// Returns the text after the elements of a kind, up to the end of the line.
fn closing(kind: Kind) -> &'static [u8]
    ensures { result.now ≡ closing kind }
{
    match kind {
        Kind::String => b"}\n",
        _ => b"]}\n",
    }
}
