//! The shapes of a picture, and their texts.
ghost use Rattle.std.specs.Prelude.{◌≡◌, ◌+◌, ◌-◌, ◌^◌, ◌<◌, ◌≤◌};
ghost use Rattle.raw_region.specs.Device.{Writes};
ghost use Rattle.segment_report.specs.Picture.{called, frame_text, label_text, shape_text, width_in};

use crate::parts::{Part, put_parts};
use crate::scale::{Corners, Scale};
use raw_region::{DeviceFault, Sink};
use seg_types::Class;
use segment_manager::Instance;

/// The right edge of a row, in pixels.
const ROW_END: u64 = 1052;

/// The height of a row, in pixels.
const ROW_HEIGHT: u64 = 32;

/// Writes the shape of `len` bytes from an offset on.
pub fn put_shape<W: Sink>(
    out: &mut W,
    scale: Scale,
    from: u64,
    len: u64,
    sort: &[u8],
) -> Result<(), DeviceFault>
    requires writer { (W.history out.old).failures < 2 ^ 64 - 1 }
    requires non_empty { 0 < len }
    requires in_bounds { from + len ≤ 2 ^ 30 }
    ensures { Writes (W.history out.old) (W.history out.new) result (shape_text scale.row from len sort.now) }
{
    let corners = scale.corners(from, len);
    if corners.top == corners.last {
        return put_parts(
            out,
            &[
                Part::Bytes(b"<path class='"),
                Part::Bytes(sort),
                Part::Bytes(b"' d='M"),
                Part::Number(corners.left),
                Part::Bytes(b" "),
                Part::Number(corners.top),
                Part::Bytes(b"H"),
                Part::Number(corners.right),
                Part::Bytes(b"V"),
                Part::Number(corners.top + ROW_HEIGHT),
                Part::Bytes(b"H"),
                Part::Number(corners.left),
                Part::Bytes(b"Z'><title>"),
                Part::Number(from),
                Part::Bytes(b" "),
                Part::Number(len),
                Part::Bytes(b" "),
                Part::Bytes(sort),
                Part::Bytes(b"</title></path>\n"),
            ],
        );
    }
    put_parts(
        out,
        &[
            Part::Bytes(b"<path class='"),
            Part::Bytes(sort),
            Part::Bytes(b"' d='M"),
            Part::Number(corners.left),
            Part::Bytes(b" "),
            Part::Number(corners.top),
            Part::Bytes(b"H1052V"),
            Part::Number(corners.last),
            Part::Bytes(b"H"),
            Part::Number(corners.right),
            Part::Bytes(b"V"),
            Part::Number(corners.last + ROW_HEIGHT),
            Part::Bytes(b"H28V"),
            Part::Number(corners.top + ROW_HEIGHT),
            Part::Bytes(b"H"),
            Part::Number(corners.left),
            Part::Bytes(b"Z'><title>"),
            Part::Number(from),
            Part::Bytes(b" "),
            Part::Number(len),
            Part::Bytes(b" "),
            Part::Bytes(sort),
            Part::Bytes(b"</title></path>\n"),
        ],
    )
}

/// Writes an object's name and its kind, as far as the first row of its block has room for them. The block has `len`
/// bytes from an offset on.
pub fn put_label<W: Sink>(
    out: &mut W,
    scale: Scale,
    from: u64,
    len: u64,
    said: Instance<'_>,
) -> Result<(), DeviceFault>
    requires writer { (W.history out.old).failures < 2 ^ 64 - 1 }
    requires non_empty { 0 < len }
    requires in_bounds { from + len ≤ 2 ^ 30 }
    ensures { Writes (W.history out.old) (W.history out.new) result
        (label_text scale.row from len (called said.entry.class said.entry.name.now said.entry.handle)
        said.entry.kind) }
{
    put_frame(out, scale, from, len)?;
    put_called(out, said)?;
    put_parts(
        out,
        &[Part::Kind(said.kind), Part::Bytes(b"</text></svg>\n")],
    )
}

/// Begins the label of a block of `len` bytes from an offset on.
fn put_frame<W: Sink>(out: &mut W, scale: Scale, from: u64, len: u64) -> Result<(), DeviceFault>
    requires writer { (W.history out.old).failures < 2 ^ 64 - 1 }
    requires non_empty { 0 < len }
    requires in_bounds { from + len ≤ 2 ^ 30 }
    ensures { Writes (W.history out.old) (W.history out.new) result (frame_text scale.row from len) }
{
    let corners = scale.corners(from, len);
    put_parts(
        out,
        &[
            Part::Bytes(b"<svg x='"),
            Part::Number(corners.left),
            Part::Bytes(b"' y='"),
            Part::Number(corners.top),
            Part::Bytes(b"' width='"),
            Part::Number(width_in(&corners)),
            Part::Bytes(b"' height='32'><text x='4' y='21'>"),
        ],
    )
}

/// Returns the width for the text in a shape, which is the width of the shape's first row.
fn width_in(corners: &Corners) -> u64
    ensures { result ≡ width_in corners.now.left corners.now.right corners.now.top corners.now.last }
{
    if corners.top == corners.last {
        corners.right.saturating_sub(corners.left)
    } else {
        ROW_END.saturating_sub(corners.left)
    }
}

/// Writes the label of an object, which stands before its kind.
fn put_called<W: Sink>(out: &mut W, said: Instance<'_>) -> Result<(), DeviceFault>
    requires { (W.history out.old).failures < 2 ^ 64 - 1 }
    ensures { Writes (W.history out.old) (W.history out.new) result
        (called said.entry.class said.entry.name.now said.entry.handle) }
{
    match said.class {
        Class::Named => put_parts(out, &[Part::Escaped(said.name), Part::Bytes(b": ")]),
        Class::Unique => put_parts(out, &[Part::Bytes(b"@")]),
        Class::Anonymous => put_parts(
            out,
            &[
                Part::Bytes(b"#"),
                Part::Number(said.handle),
                Part::Bytes(b": "),
            ],
        ),
    }
}
