//! The picture of a segment.
ghost use Rattle.std.specs.Prelude.{◌≡◌, ◌+◌, ◌-◌, ◌^◌, ◌<◌, ◌≤◌, ◌++◌, true};
ghost use Rattle.raw_region.specs.Device.{Writes};
ghost use Rattle.seg_types.specs.Names.{ByHandle};
ghost use Rattle.segment_manager.specs.{Directory.object_at, objects.Found.is_object_at, State.AnswersWith};
ghost use Rattle.segment_report.specs.Picture.{HasOwner, HasScale, end_text, prefix_text, head_text, object_in};
ghost use Rattle.segment_report.specs.Picture.{object_label, picture_of, shape_text, sort_of, spans_text};
ghost use Rattle.segment_report.specs.Telling.{WritesReport};

use crate::parts::{Part, put_parts};
use crate::scale::Scale;
use crate::shapes::{put_label, put_shape};
use crate::tallies::size_of;
use block_tags::{Role, TAG_LEN, Tile};
use raw_region::{DeviceFault, Sink};
use segment_manager::Segment;
use segment_manager::unchecked::{instance_here, next_tile};

/// The bytes of a segment's header.
const HEADER: u64 = 128;

/// Writes a picture of a segment as a text of SVG. Returns `DeviceFault` if the writer failed: what went out is then a
/// proper prefix of the text.
pub fn draw<W: Sink>(segment: &Segment, out: &mut W) -> Result<(), DeviceFault>
    requires { (W.history out.old).failures < 2 ^ 64 - 1 }
    ensures { WritesReport segment.now (W.history out.old) (W.history out.new) result picture_of }
{
    let scale = scale_of(segment);
    put_prefix(segment, scale, out)?;
    put_spans(segment, scale, out)?;
    put_end(segment, scale, out)
}

/// Returns the scale of a segment's picture.
fn scale_of(segment: &Segment) -> Scale
    ensures { HasScale segment.now result.row }
{
    Scale::of(size_of(segment))
}

/// Writes how a picture begins, and the header.
fn put_prefix<W: Sink>(segment: &Segment, scale: Scale, out: &mut W) -> Result<(), DeviceFault>
    requires writer { (W.history out.old).failures < 2 ^ 64 - 1 }
    requires scale { HasScale segment.now scale.row }
    ensures { WritesReport segment.now (W.history out.old) (W.history out.new) result prefix_text }
{
    put_head(out, size_of(segment), segment.free())?;
    put_shape(out, scale, 0, HEADER, b"header")
}

/// Writes the end tag, and how a picture ends.
fn put_end<W: Sink>(segment: &Segment, scale: Scale, out: &mut W) -> Result<(), DeviceFault>
    requires writer { (W.history out.old).failures < 2 ^ 64 - 1 }
    requires scale { HasScale segment.now scale.row }
    ensures { WritesReport segment.now (W.history out.old) (W.history out.new) result end_text }
{
    put_shape(out, scale, size_of(segment) - TAG_LEN, TAG_LEN, b"end")?;
    put_parts(out, &[Part::Bytes(b"</svg>\n")])
}

/// Writes how a picture begins: its colours, and the size and the free bytes of the segment.
fn put_head<W: Sink>(out: &mut W, size: u64, free: u64) -> Result<(), DeviceFault>
    requires { (W.history out.old).failures < 2 ^ 64 - 1 }
    ensures { Writes (W.history out.old) (W.history out.new) result (head_text size free) }
{
    put_parts(
        out,
        &[
            Part::Bytes(
                b"<svg xmlns='http://www.w3.org/2000/svg' viewBox='0 0 1080 600' font-family='sans-serif' font-size='13'>\n\
                <style>path{stroke:#456}.header,.end{fill:#bcc3ca}.free{fill:#fff}.object{fill:#9cc9ea}.index{fill:#f5c883}\
                .storage{fill:#a9d8a2}.node{fill:#cdb9e6}</style>\n<rect width='1080' height='600' fill='#f2f4f6'/>\n<text x='28' y='26' font-size='16'>",
            ),
            Part::Number(size),
            Part::Bytes(b" bytes, "),
            Part::Number(free),
            Part::Bytes(
                b" free</text>\n<path class='object' d='M28 40H44V56H28Z'/><text x='50' y='53'>object</text>\
                <path class='index' d='M128 40H144V56H128Z'/><text x='150' y='53'>index</text>\
                <path class='storage' d='M228 40H244V56H228Z'/><text x='250' y='53'>storage</text>\
                <path class='node' d='M328 40H344V56H328Z'/><text x='350' y='53'>node</text>\
                <path class='free' d='M428 40H444V56H428Z'/><text x='450' y='53'>free</text>\
                <path class='end' d='M528 40H544V56H528Z'/><text x='550' y='53'>header and end tag</text>\n",
            ),
        ],
    )
}

/// Writes each block and gap, with its text.
fn put_spans<W: Sink>(segment: &Segment, scale: Scale, out: &mut W) -> Result<(), DeviceFault>
    requires writer { (W.history out.old).failures < 2 ^ 64 - 1 }
    requires scale { HasScale segment.now scale.row }
    ensures { WritesReport segment.now (W.history out.old) (W.history out.new) result spans_text }
{
    let mut ahead = segment.first_tile();
    // a segment has fewer blocks and gaps than bytes
    'tiles: for _ in 0..size_of(segment) {
        let Some(tile) = ahead else {
            break;
        };
        put_tile(segment, scale, tile, out)?;
        ahead = next_tile(segment, tile);
    }
    Ok(())
}

/// Writes a block or gap, with its text.
fn put_tile<W: Sink>(
    segment: &Segment,
    scale: Scale,
    tile: Tile,
    out: &mut W,
) -> Result<(), DeviceFault>
    requires writer { (W.history out.old).failures < 2 ^ 64 - 1 }
    requires non_empty { 0 < tile.len }
    requires in_bounds { tile.offset + tile.len ≤ 2 ^ 30 }
    requires object { HasOwner segment.now tile.use_of tile.offset }
    ensures { WritesReport segment.now (W.history out.old) (W.history out.new) result (λ d.
        shape_text scale.row tile.offset tile.len (sort_of tile.use_of)
        ++ object_label scale.row tile.offset tile.len (object_in d tile.use_of tile.offset)) }
{
    put_shape(out, scale, tile.offset, tile.len, sort_of(tile.use_of))?;
    put_inside(segment, scale, tile, out)
}

/// Writes the text in a block, if the block holds an object.
fn put_inside<W: Sink>(
    segment: &Segment,
    scale: Scale,
    tile: Tile,
    out: &mut W,
) -> Result<(), DeviceFault>
    requires writer { (W.history out.old).failures < 2 ^ 64 - 1 }
    requires non_empty { 0 < tile.len }
    requires in_bounds { tile.offset + tile.len ≤ 2 ^ 30 }
    requires object { HasOwner segment.now tile.use_of tile.offset }
    ensures { WritesReport segment.now (W.history out.old) (W.history out.new) result (λ d.
        object_label scale.row tile.offset tile.len (object_in d tile.use_of tile.offset)) }
{
    match tile.use_of {
        Some(Role::Object) => put_object(segment, scale, tile.offset, tile.len, out),
        Some(Role::Index | Role::Storage | Role::Node) | None => Ok(()),
    }
}

/// Writes the label of the object in a block.
fn put_object<W: Sink>(
    segment: &Segment,
    scale: Scale,
    from: u64,
    len: u64,
    out: &mut W,
) -> Result<(), DeviceFault>
    requires writer { (W.history out.old).failures < 2 ^ 64 - 1 }
    requires non_empty { 0 < len }
    requires in_bounds { from + len ≤ 2 ^ 30 }
    requires object { AnswersWith segment.now (λ d. is_object_at d (from + 16)) true }
    ensures { WritesReport segment.now (W.history out.old) (W.history out.new) result (λ d.
        object_label scale.row from len (object_at d (ByHandle (from + 16)))) }
{
    let said = instance_here(segment, from + TAG_LEN);
    put_label(out, scale, from, len, said)
}

/// Returns the word for what bytes are used for.
fn sort_of(use_of: Option<Role>) -> &'static [u8]
    ensures { result.now ≡ sort_of use_of }
{
    match use_of {
        None => b"free",
        Some(Role::Object) => b"object",
        Some(Role::Index) => b"index",
        Some(Role::Storage) => b"storage",
        Some(Role::Node) => b"node",
    }
}
