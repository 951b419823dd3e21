//! Answers, as the pieces that they are printed of.

ghost use Rattle.std.specs.Prelude.{◌≡◌, ◌-◌, ◌^◌, ◌<◌, flat_map};
ghost use Rattle.raw_region.specs.Device.{Writes};
ghost use Rattle.segment_lang.specs.Pieces.{piece_text};

use crate::errors::{put_line_error, put_refusal};
use crate::texts::{put_kind, put_name, put_number, put_text, put_value};
use raw_region::{DeviceFault, Sink, write_all};
use seg_types::{Kind, LineError, Refusal, ScalarValue};

/// A piece of an answer.
#[derive(Clone, Copy)]
pub enum Piece<'a> {
    /// Bytes as they are.
    Bytes(&'a [u8]),
    /// A number in plain decimal.
    Number(u64),
    /// A value.
    Value(ScalarValue),
    /// A text in quotes.
    Text(&'a [u8]),
    /// A name, bare if it can be.
    Name(&'a [u8]),
    /// A kind.
    Kind(Kind),
    /// Why a line is no command: `error`, a number from 1 to 3 and its words.
    LineError(LineError),
    /// Why a command is refused: `error`, a number from 4 to 9 and its words.
    Refusal(Refusal),
}

/// Writes a piece.
fn put_piece<S: Sink>(out: &mut S, piece: &Piece<'_>) -> Result<(), DeviceFault>
    requires { (S.history out.old).failures < 2 ^ 64 - 1 }
    ensures { Writes (S.history out.old) (S.history out.new) result (piece_text piece.now) }
{
    match *piece {
        Piece::Bytes(bytes) => write_all(out, bytes),
        Piece::Number(number) => put_number(out, number),
        Piece::Value(value) => put_value(out, value),
        Piece::Text(text) => put_text(out, text),
        Piece::Name(name) => put_name(out, name),
        Piece::Kind(kind) => put_kind(out, kind),
        Piece::LineError(error) => put_line_error(out, error),
        Piece::Refusal(refusal) => put_refusal(out, refusal),
    }
}

/// Writes pieces, one after another.
pub fn put_pieces<S: Sink>(out: &mut S, pieces: &[Piece<'_>]) -> Result<(), DeviceFault>
    requires { (S.history out.old).failures < 2 ^ 64 - 1 }
    ensures { Writes (S.history out.old) (S.history out.new) result (flat_map piece_text pieces.now) }
{
    'pieces: for piece in pieces {
        put_piece(out, piece)?;
    }
    Ok(())
}
