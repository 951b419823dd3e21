//! The figures of a segment.
ghost use Rattle.std.specs.Prelude.{◌≡◌, ◌-◌, ◌^◌, ◌<◌, flat_map};
ghost use Rattle.raw_region.specs.Device.{Writes};
ghost use Rattle.seg_types.specs.Kinds.{kinds};
ghost use Rattle.segment_manager.specs.State.{AnswersWith};
ghost use Rattle.segment_report.specs.{Entries.entry_line, Entries.entry_text, Objects.object_tally_of};
ghost use Rattle.segment_report.specs.Stat.{counted_line, figures_text, kind_line, stat_text};
ghost use Rattle.segment_report.specs.{Telling.WritesReport, Usages.tally_of};

use crate::objects::{ObjectTally, tally_objects};
use crate::tallies::{size_of, tally_blocks};
use raw_region::{DeviceFault, Sink, word_in};
use seg_types::{Kind, ScalarKind};
use segment_lang::{Piece, put_pieces};
use segment_manager::Segment;
use segment_manager::layout::{NAMED_AT, UNIQUE_AT};

/// Where the words of an index have its capacity.
const CAPACITY: usize = 16;

/// All kinds, in their order.
static KINDS: [Kind; 37] = [
    Kind::Scalar(ScalarKind::Bool),
    Kind::Scalar(ScalarKind::U8),
    Kind::Scalar(ScalarKind::I32),
    Kind::Scalar(ScalarKind::I64),
    Kind::Scalar(ScalarKind::U64),
    Kind::String,
    Kind::Strings,
    Kind::Vector(ScalarKind::Bool),
    Kind::Vector(ScalarKind::U8),
    Kind::Vector(ScalarKind::I32),
    Kind::Vector(ScalarKind::I64),
    Kind::Vector(ScalarKind::U64),
    Kind::Map(ScalarKind::Bool, ScalarKind::Bool),
    Kind::Map(ScalarKind::Bool, ScalarKind::U8),
    Kind::Map(ScalarKind::Bool, ScalarKind::I32),
    Kind::Map(ScalarKind::Bool, ScalarKind::I64),
    Kind::Map(ScalarKind::Bool, ScalarKind::U64),
    Kind::Map(ScalarKind::U8, ScalarKind::Bool),
    Kind::Map(ScalarKind::U8, ScalarKind::U8),
    Kind::Map(ScalarKind::U8, ScalarKind::I32),
    Kind::Map(ScalarKind::U8, ScalarKind::I64),
    Kind::Map(ScalarKind::U8, ScalarKind::U64),
    Kind::Map(ScalarKind::I32, ScalarKind::Bool),
    Kind::Map(ScalarKind::I32, ScalarKind::U8),
    Kind::Map(ScalarKind::I32, ScalarKind::I32),
    Kind::Map(ScalarKind::I32, ScalarKind::I64),
    Kind::Map(ScalarKind::I32, ScalarKind::U64),
    Kind::Map(ScalarKind::I64, ScalarKind::Bool),
    Kind::Map(ScalarKind::I64, ScalarKind::U8),
    Kind::Map(ScalarKind::I64, ScalarKind::I32),
    Kind::Map(ScalarKind::I64, ScalarKind::I64),
    Kind::Map(ScalarKind::I64, ScalarKind::U64),
    Kind::Map(ScalarKind::U64, ScalarKind::Bool),
    Kind::Map(ScalarKind::U64, ScalarKind::U8),
    Kind::Map(ScalarKind::U64, ScalarKind::I32),
    Kind::Map(ScalarKind::U64, ScalarKind::I64),
    Kind::Map(ScalarKind::U64, ScalarKind::U64),
];

/// Writes the figures of a segment, each as a line with a word and a number: its size, its free bytes, the number of
/// gaps, and the longest gap; for each role the number of blocks and their bytes, tags included; the number of objects
/// of each class, and the capacities of the indexes; and the number of bytes after the last block. A line for each kind
/// that some objects have follows, with their number.
///
/// Returns `DeviceFault` if the writer failed: it has then written a proper prefix of the text.
pub fn stat<W: Sink>(segment: &Segment, out: &mut W) -> Result<(), DeviceFault>
    requires { (W.history out.old).failures < 2 ^ 64 - 1 }
    ensures { WritesReport segment.now (W.history out.old) (W.history out.new) result stat_text }
{
    let objects = tally_objects(segment);
    put_figures(segment, &objects, out)?;
    put_kind_lines(&objects, all_kinds(), out)
}

/// Writes the figures that each segment has.
fn put_figures<W: Sink>(
    segment: &Segment,
    objects: &ObjectTally,
    out: &mut W,
) -> Result<(), DeviceFault>
    requires writer { (W.history out.old).failures < 2 ^ 64 - 1 }
    requires steps_lower { AnswersWith segment.now object_tally_of objects.now }
    ensures { WritesReport segment.now (W.history out.old) (W.history out.new) result (λ d.
        figures_text d.size (tally_of d) (object_tally_of d) d.named.capacity d.unique.capacity) }
{
    let blocks = tally_blocks(segment);
    put_entries(
        out,
        &[
            (b"size", size_of(segment)),
            (b"free", blocks.gaps.bytes),
            (b"gaps", blocks.gaps.count),
            (b"largest_gap", blocks.longest_gap),
            (b"object_blocks", blocks.objects.count),
            (b"object_bytes", blocks.objects.bytes),
            (b"index_blocks", blocks.indexes.count),
            (b"index_bytes", blocks.indexes.bytes),
            (b"storage_blocks", blocks.storages.count),
            (b"storage_bytes", blocks.storages.bytes),
            (b"node_blocks", blocks.nodes.count),
            (b"node_bytes", blocks.nodes.bytes),
            (b"named", objects.named),
            (b"unique", objects.unique),
            (b"anonymous", objects.anonymous),
            (b"named_capacity", named_capacity(segment)),
            (b"unique_capacity", unique_capacity(segment)),
            (b"shrink_frees", blocks.end_gap),
        ],
    )
}

/// Writes a line for each of these words and numbers, one after another.
fn put_entries<W: Sink>(out: &mut W, entries: &[(&[u8], u64)]) -> Result<(), DeviceFault>
    requires { (W.history out.old).failures < 2 ^ 64 - 1 }
    ensures { Writes (W.history out.old) (W.history out.new) result (flat_map entry_text entries.now) }
{
    'entries: for entry in entries {
        put_entry(out, entry.0, entry.1)?;
    }
    Ok(())
}

/// Writes a word, a number after it, and the end of the line.
fn put_entry<W: Sink>(out: &mut W, key: &[u8], number: u64) -> Result<(), DeviceFault>
    requires { (W.history out.old).failures < 2 ^ 64 - 1 }
    ensures { Writes (W.history out.old) (W.history out.new) result (entry_line key.now number) }
{
    put_pieces(
        out,
        &[
            Piece::Bytes(key),
            Piece::Bytes(b" "),
            Piece::Number(number),
            Piece::Bytes(b"\n"),
        ],
    )
}

/// Returns the number of entries that the index of names has places for.
fn named_capacity(segment: &Segment) -> u64
    ensures { AnswersWith segment.now (λ d. d.named.capacity) result }
{
    word_in(segment.as_bytes(), NAMED_AT as usize + CAPACITY)
}

/// Returns the number of entries that the index of kinds has places for.
fn unique_capacity(segment: &Segment) -> u64
    ensures { AnswersWith segment.now (λ d. d.unique.capacity) result }
{
    word_in(segment.as_bytes(), UNIQUE_AT as usize + CAPACITY)
}

/// Writes a line for each of these kinds that some objects have, with their number.
fn put_kind_lines<W: Sink>(
    objects: &ObjectTally,
    kinds: &[Kind],
    out: &mut W,
) -> Result<(), DeviceFault>
    requires { (W.history out.old).failures < 2 ^ 64 - 1 }
    ensures { Writes (W.history out.old) (W.history out.new) result
        (flat_map (counted_line objects.now.kinds) kinds.now) }
{
    'kinds: for kind in kinds {
        put_kind(out, *kind, objects.of_kind(*kind))?;
    }
    Ok(())
}

/// Writes the line of a kind that `count` objects have, if there are some.
fn put_kind<W: Sink>(out: &mut W, kind: Kind, count: u64) -> Result<(), DeviceFault>
    requires { (W.history out.old).failures < 2 ^ 64 - 1 }
    ensures { Writes (W.history out.old) (W.history out.new) result (kind_line kind count) }
{
    if count == 0 {
        return Ok(());
    }
    put_pieces(
        out,
        &[
            Piece::Kind(kind),
            Piece::Bytes(b" "),
            Piece::Number(count),
            Piece::Bytes(b"\n"),
        ],
    )
}

/// Returns all kinds, in their order.
fn all_kinds() -> &'static [Kind]
    ensures { result.now ≡ kinds }
{
    &KINDS
}
