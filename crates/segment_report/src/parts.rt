//! The parts of a text of XML.
ghost use Rattle.std.specs.Prelude.{◌≡◌, ◌-◌, ◌^◌, ◌<◌, flat_map};
ghost use Rattle.raw_region.specs.Device.{Writes};
ghost use Rattle.seg_types.specs.Texts.{kind_text};
ghost use Rattle.segment_report.specs.Parts.{part_text, plain_byte, slice_text, xml_byte, xml_text};

use raw_region::{DeviceFault, Sink, write_all};
use seg_types::Kind;
use segment_lang::put_number;

/// A part of a text of XML.
#[derive(Clone, Copy)]
pub enum Part<'a> {
    /// Bytes as they are.
    Bytes(&'a [u8]),
    /// A number in plain decimal.
    Number(u64),
    /// Bytes of a text, in which what means something in XML is spelled by its name.
    Escaped(&'a [u8]),
    /// A kind.
    Kind(Kind),
}

/// Writes parts, one after another.
pub fn put_parts<W: Sink>(out: &mut W, parts: &[Part<'_>]) -> Result<(), DeviceFault>
    requires { (W.history out.old).failures < 2 ^ 64 - 1 }
    ensures { Writes (W.history out.old) (W.history out.new) result (flat_map part_text parts.now) }
{
    'parts: for part in parts {
        put_part(out, part)?;
    }
    Ok(())
}

/// Writes a part.
fn put_part<W: Sink>(out: &mut W, part: &Part<'_>) -> Result<(), DeviceFault>
    requires { (W.history out.old).failures < 2 ^ 64 - 1 }
    ensures { Writes (W.history out.old) (W.history out.new) result (part_text part.now) }
{
    match *part {
        Part::Bytes(bytes) => write_all(out, bytes),
        Part::Number(number) => put_number(out, number),
        Part::Escaped(text) => put_escaped(out, text),
        Part::Kind(kind) => put_kind(out, kind),
    }
}

/// Writes bytes of a text as XML spells them.
fn put_escaped<W: Sink>(out: &mut W, text: &[u8]) -> Result<(), DeviceFault>
    requires { (W.history out.old).failures < 2 ^ 64 - 1 }
    ensures { Writes (W.history out.old) (W.history out.new) result (xml_text text.now) }
{
    let mut before = 0;
    let mut last = 0;
    'bytes: for byte in text {
        put_byte(out, before, last, *byte)?;
        before = last;
        last = *byte;
    }
    Ok(())
}

/// Writes a byte of a text that stands after two others.
fn put_byte<W: Sink>(out: &mut W, before: u8, last: u8, byte: u8) -> Result<(), DeviceFault>
    requires { (W.history out.old).failures < 2 ^ 64 - 1 }
    ensures { Writes (W.history out.old) (W.history out.new) result (xml_byte before last byte) }
{
    match byte {
        b'&' => write_all(out, b"&amp;"),
        b'<' => write_all(out, b"&lt;"),
        b'>' => write_all(out, b"&gt;"),
        b'"' => write_all(out, b"&quot;"),
        b'\'' => write_all(out, b"&apos;"),
        _ => put_plain(out, before, last, byte),
    }
}

/// Writes a byte that means nothing in XML.
fn put_plain<W: Sink>(out: &mut W, before: u8, last: u8, byte: u8) -> Result<(), DeviceFault>
    requires { (W.history out.old).failures < 2 ^ 64 - 1 }
    ensures { Writes (W.history out.old) (W.history out.new) result (plain_byte before last byte) }
{
    if byte < b' ' {
        return write_all(out, b"?");
    }
    // U+FFFE and U+FFFF are no characters of XML: U+FFFD stands in their place
    if before == 0xEF && last == 0xBF && byte >= 0xBE {
        return write_all(out, &[0xBD]);
    }
    write_all(out, &[byte])
}

/// Writes a kind.
fn put_kind<W: Sink>(out: &mut W, kind: Kind) -> Result<(), DeviceFault>
    requires { (W.history out.old).failures < 2 ^ 64 - 1 }
    ensures { Writes (W.history out.old) (W.history out.new) result (xml_text (kind_text kind)) }
{
    match kind {
        Kind::Scalar(kind) => write_all(out, kind.as_str().as_bytes()),
        Kind::String => write_all(out, b"string"),
        Kind::Vector(kind) => put_slices(out, &[b"vec&lt;", kind.as_str().as_bytes(), b"&gt;"]),
        Kind::Map(key, value) => {
            let (key, value) = (key.as_str().as_bytes(), value.as_str().as_bytes());
            put_slices(out, &[b"map&lt;", key, b",", value, b"&gt;"])
        }
        Kind::Strings => write_all(out, b"vec&lt;string&gt;"),
    }
}

/// Writes slices, one after another.
fn put_slices<W: Sink>(out: &mut W, slices: &[&[u8]]) -> Result<(), DeviceFault>
    requires { (W.history out.old).failures < 2 ^ 64 - 1 }
    ensures { Writes (W.history out.old) (W.history out.new) result (flat_map slice_text slices.now) }
{
    'slices: for slice in slices {
        write_all(out, slice)?;
    }
    Ok(())
}
