//! The dump of a segment: its size, and all objects line by line.
ghost use Rattle.std.specs.Prelude.{◌≡◌, ◌-◌, ◌^◌, ◌<◌, length};
ghost use Rattle.raw_region.specs.Device.{Writes};
ghost use Rattle.segment_manager.specs.Directory.{named_objects, unique_objects};
ghost use Rattle.segment_dump.specs.Items.{portable};
ghost use Rattle.segment_dump.specs.DumpWrites.{WritesOf, all_text};
ghost use Rattle.segment_dump.specs.Texts.{dump_text, prefix_text};

use crate::entries::Entries;
use crate::objects::{put_anonymous, put_named, put_unique};
use raw_region::{DeviceFault, Sink};
use segment_lang::{Piece, put_pieces};
use segment_manager::Segment;

/// Writes all that a segment holds as text: its size in bytes, and class, name, kind and value of each object. It needs
/// no memory, and no line has more than 4096 bytes. Two segments with equal names, classes, kinds and values, and with
/// their anonymous objects in one order, have equal lines but for the size.
///
/// # Errors
///
/// If the sink fails. It has taken a part of the text then, from the first byte on, and not all.
pub fn dump<W: Sink>(segment: &Segment, out: &mut W) -> Result<(), DeviceFault>
    requires { (W.history out.old).failures < 2 ^ 64 - 1 }
    ensures { WritesOf segment.now (W.history out.old) (W.history out.new) result (λ d. dump_text d.size (portable d)) }
{
    dump_as(segment, segment.size(), out)
}

/// Writes all that a segment holds as text, as `dump` does, with another size in it.
pub fn dump_as<W: Sink>(segment: &Segment, size: u64, out: &mut W) -> Result<(), DeviceFault>
    requires { (W.history out.old).failures < 2 ^ 64 - 1 }
    ensures { WritesOf segment.now (W.history out.old) (W.history out.new) result (λ d. dump_text size (portable d)) }
{
    put_prefix(segment, size, out)?;
    put_objects(segment, out)
}

/// Writes the version, the size, and the number of entries of both indexes.
fn put_prefix<W: Sink>(segment: &Segment, size: u64, out: &mut W) -> Result<(), DeviceFault>
    requires { (W.history out.old).failures < 2 ^ 64 - 1 }
    ensures { WritesOf segment.now (W.history out.old) (W.history out.new) result (λ d.
        prefix_text size (length (named_objects d)) (length (unique_objects d))) }
{
    put_numbers(size, segment.num_named(), segment.num_unique(), out)
}

/// Writes the version, and these numbers for the size and the entries of the indexes.
fn put_numbers<W: Sink>(size: u64, named: u64, unique: u64, out: &mut W) -> Result<(), DeviceFault>
    requires { (W.history out.old).failures < 2 ^ 64 - 1 }
    ensures { Writes (W.history out.old) (W.history out.new) result (prefix_text size named unique) }
{
    put_pieces(
        out,
        &[
            Piece::Bytes(b"segment dump 1\nsize "),
            Piece::Number(size),
            Piece::Bytes(b"\nindexes "),
            Piece::Number(named),
            Piece::Bytes(b" "),
            Piece::Number(unique),
            Piece::Bytes(b"\n"),
        ],
    )
}

/// Writes all objects, and `end`.
fn put_objects<W: Sink>(segment: &Segment, out: &mut W) -> Result<(), DeviceFault>
    requires { (W.history out.old).failures < 2 ^ 64 - 1 }
    ensures { WritesOf segment.now (W.history out.old) (W.history out.new) result (λ d. all_text d) }
{
    put_named(&Entries, segment, out)?;
    put_unique(&Entries, segment, out)?;
    put_anonymous(&Entries, segment, out)?;
    put_pieces(out, &[Piece::Bytes(b"end\n")])
}
