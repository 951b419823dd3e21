//! A text in a dump: its length, and its bytes in pieces, so that no line is long.
ghost use Rattle.std.specs.Prelude.{◌≡◌, ◌-◌, ◌^◌, ◌<◌, length};
ghost use Rattle.raw_region.specs.Device.{Writes};
ghost use Rattle.segment_dump.specs.Texts.{length_text, piece_lead, piece_line, piece_of, pieces_in, pieces_text};
ghost use Rattle.segment_dump.specs.Texts.{text_lines};

use raw_region::{DeviceFault, Sink};
use segment_lang::{Piece, put_pieces};

/// The most bytes of a text in one line: as many stand in 4002 at most when they are quoted.
pub const PIECE: usize = 1000;

/// Writes the length of a text and its pieces.
pub fn put_text<W: Sink>(text: &[u8], out: &mut W) -> Result<(), DeviceFault>
    requires { (W.history out.old).failures < 2 ^ 64 - 1 }
    ensures { Writes (W.history out.old) (W.history out.new) result (text_lines text.now) }
{
    put_length(text.len(), out)?;
    put_all_pieces(text, out)
}

/// Writes a length after two blanks.
fn put_length<W: Sink>(len: usize, out: &mut W) -> Result<(), DeviceFault>
    requires { (W.history out.old).failures < 2 ^ 64 - 1 }
    ensures { Writes (W.history out.old) (W.history out.new) result (length_text len) }
{
    put_pieces(out, &[Piece::Bytes(b"  "), Piece::Number(len as u64)])
}

/// Writes all pieces of a text.
fn put_all_pieces<W: Sink>(text: &[u8], out: &mut W) -> Result<(), DeviceFault>
    requires { (W.history out.old).failures < 2 ^ 64 - 1 }
    ensures { Writes (W.history out.old) (W.history out.new) result (pieces_text text.now) }
{
    'pieces: for index in 0..pieces_in(text.len()) {
        put_piece(text, index, out)?;
    }
    Ok(())
}

/// Returns the number of pieces of a text of `len` bytes. An empty text is one piece.
pub fn pieces_in(len: usize) -> usize
    requires { len < 2 ^ 63 }
    ensures { result ≡ pieces_in len }
{
    1 + len.saturating_sub(1) / PIECE
}

/// Writes a piece of a text, and ends its line.
fn put_piece<W: Sink>(text: &[u8], index: usize, out: &mut W) -> Result<(), DeviceFault>
    requires writer { (W.history out.old).failures < 2 ^ 64 - 1 }
    requires in_bounds { index < pieces_in (length text.now) }
    ensures { Writes (W.history out.old) (W.history out.new) result (piece_line text.now index) }
{
    put_pieces(
        out,
        &[
            Piece::Bytes(lead(index)),
            Piece::Text(piece_of(text, index)),
            Piece::Bytes(b"\n"),
        ],
    )
}

/// Returns the text before a piece: the first piece follows the length, and each other piece has a line of its own.
fn lead(index: usize) -> &'static [u8]
    ensures { result.now ≡ piece_lead index }
{
    if index == 0 { b" " } else { b"    " }
}

/// Returns a piece of a text.
fn piece_of(text: &[u8], index: usize) -> &[u8]
    requires { index < pieces_in (length text.now) }
    ensures { result.now ≡ piece_of text.now index }
{
    let (_, behind) = text.split_at(index * PIECE);
    if behind.len() <= PIECE {
        behind
    } else {
        let (piece, _) = behind.split_at(PIECE);
        piece
    }
}
