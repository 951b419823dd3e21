//! The elements of an object as a dump has them.

use crate::texts::put_text;
use raw_region::{DeviceFault, Sink};
use seg_types::ScalarValue;
use segment_lang::{Piece, put_pieces};
use segment_values::Layout;

/// Elements as a dump has them, a line for each, and for each piece of a text.
pub(crate) struct InLines;

impl Layout for InLines {
    ghost use Rattle.segment_dump.specs.Layouts.{in_lines};

    ghost spelling = { λ _. in_lines };

    fn put_scalar<W: Sink>(
        &self,
        _index: u64,
        value: ScalarValue,
        out: &mut W,
    ) -> Result<(), DeviceFault> {
        put_pieces(
            out,
            &[
                Piece::Bytes(b"  "),
                Piece::Value(value),
                Piece::Bytes(b"\n"),
            ],
        )
    }

    fn put_text<W: Sink>(&self, _index: u64, text: &[u8], out: &mut W) -> Result<(), DeviceFault> {
        put_text(text, out)
    }

    fn put_pair<W: Sink>(
        &self,
        _index: u64,
        key: ScalarValue,
        value: ScalarValue,
        out: &mut W,
    ) -> Result<(), DeviceFault> {
        put_pieces(
            out,
            &[
                Piece::Bytes(b"  "),
                Piece::Value(key),
                Piece::Bytes(b" "),
                Piece::Value(value),
                Piece::Bytes(b"\n"),
            ],
        )
    }
}
