//! An object in a dump: its line, and below it a line for each element.
ghost use Rattle.std.specs.Prelude.{◌-◌, ◌^◌, ◌<◌};
ghost use Rattle.raw_region.specs.Device.{Writes};
ghost use Rattle.segment_dump.specs.Texts.{head_line, info_line};

use crate::layouts::InLines;
use crate::objects::ObjectWriter;
use raw_region::{DeviceFault, Sink};
use seg_types::Class;
use segment_lang::{Piece, put_pieces};
use segment_manager::unchecked::object_here;
use segment_manager::{Instance, Segment};
use segment_values::{count_of, put_content};

/// Tells an object by its lines in a dump.
pub(crate) struct Entries;

impl ObjectWriter for Entries {
    ghost use Rattle.segment_dump.specs.DumpWrites.{object_text};

    ghost text = { λ _. object_text };

    fn tell<W: Sink>(
        &self,
        segment: &Segment,
        said: Instance<'_>,
        out: &mut W,
    ) -> Result<(), DeviceFault> {
        let object = object_here(segment, said.handle);
        let count = count_of(segment, object);
        put_head(said, count, out)?;
        put_content(&InLines, segment, object, count, out)
    }
}

/// Writes the line of an object: its class, its name if it has one, its kind, and its number of elements.
fn put_head<W: Sink>(said: Instance<'_>, count: u64, out: &mut W) -> Result<(), DeviceFault>
    requires { (W.history out.old).failures < 2 ^ 64 - 1 }
    ensures { Writes (W.history out.old) (W.history out.new) result
        (head_line said.entry.class said.entry.name.now said.entry.kind count) }
{
    match said.class {
        Class::Named => put_line(b"named ", said, b" ", count, out),
        Class::Unique => put_line(b"unique ", said, b" ", count, out),
        Class::Anonymous => put_line(b"anonymous ", said, b" ", count, out),
    }
}

/// Writes a line that tells an object: some bytes, its name if it has one, its kind, more bytes, and a number.
pub(crate) fn put_line<'a, W: Sink>(
    lead: &'a [u8],
    said: Instance<'a>,
    between: &'a [u8],
    number: u64,
    out: &mut W,
) -> Result<(), DeviceFault>
    requires { (W.history out.old).failures < 2 ^ 64 - 1 }
    ensures { Writes (W.history out.old) (W.history out.new) result
        (info_line lead.now said.entry.class said.entry.name.now said.entry.kind between.now number) }
{
    match said.class {
        Class::Named => put_pieces(
            out,
            &[
                Piece::Bytes(lead),
                Piece::Name(said.name),
                Piece::Bytes(b" "),
                Piece::Kind(said.kind),
                Piece::Bytes(between),
                Piece::Number(number),
                Piece::Bytes(b"\n"),
            ],
        ),
        Class::Unique | Class::Anonymous => put_pieces(
            out,
            &[
                Piece::Bytes(lead),
                Piece::Kind(said.kind),
                Piece::Bytes(between),
                Piece::Number(number),
                Piece::Bytes(b"\n"),
            ],
        ),
    }
}
