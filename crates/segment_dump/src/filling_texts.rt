//! Texts made of the lines of a dump.
ghost use Rattle.std.specs.Prelude.{◌≡◌, ◌+◌, ◌-◌, ◌/◌, ◌≤◌, ◌++◌, ℕ, length, take, IfOk};
ghost use Rattle.raw_region.specs.Memory.{SameSurroundings};
ghost use Rattle.seg_types.specs.declared.kinds.Kind.TheVariants.{String as StringKind, Strings as StringsKind};
ghost use Rattle.segment_dump.specs.Builders.{AddsElement, AppendsPiece, Collects, CopiesPiece, FillsNew};
ghost use Rattle.segment_dump.specs.Builders.{HasLocatedObject, ReadsLength, ReadsPiece};

use crate::building::{BuildError, build_error_of};
use crate::faults::SyntaxError;
use crate::filling::ended;
use crate::texts::PIECE;
use crate::tokens::{LineTokens, Lines};
use segment_lang::{LineBuffer, Quoted, numbers_are_decimals, texts_are_spelled};
use segment_manager::unchecked::reserve_object;
use segment_manager::{Object, Segment, StringMut, StringsMut};

/// Sets a string to the text of the next lines, with exactly the capacity for it.
pub fn fill_string(
    segment: &mut Segment,
    object: Object,
    lines: &mut Lines<'_>,
    scratch: &mut LineBuffer,
) -> Result<(), BuildError>
    requires object { HasLocatedObject segment.old object }
    requires kind { object.kind ≡ StringKind }
    ensures filling { (room : ℕ)
        → FillsNew segment.old segment.new object.handle StringKind 1 lines.old lines.new room result }
    ensures place { SameSurroundings segment.old.cut segment.new.cut }
{
    let at = lines.at();
    let (mut tokens, len) = first_line(lines)?;
    if let Err(why) = reserve_object(segment, object, len) {
        return Err(build_error_of(why, at));
    }
    append_piece(segment, object, &mut tokens, scratch)?;
    'pieces: for _ in 0..pieces_behind(len) {
        let mut tokens = lines.next_line()?;
        append_piece(segment, object, &mut tokens, scratch)?;
    }
    Ok(())
}

/// Returns the number of pieces of a text that have lines of their own.
fn pieces_behind(len: u64) -> u64
    ensures { result ≡ (len - 1) / 1000 }
{
    len.saturating_sub(1) / PIECE as u64
}

/// Returns the line that a text begins with, from its first piece on, and the length of the text.
fn first_line<'a>(lines: &mut Lines<'a>) -> Result<(LineTokens<'a>, u64), SyntaxError>
    ensures { ReadsLength lines.old lines.new result }
{
    numbers_are_decimals();
    let mut tokens = lines.next_line()?;
    let len = tokens.next_number()?;
    Ok((tokens, len))
}

/// Returns the piece of a text that is alone in a line.
fn last_text<'a>(tokens: &mut LineTokens<'a>) -> Result<Quoted<'a>, SyntaxError>
    ensures max_len { IfOk result (λ text. length text ≤ 4096) }
    ensures piece { ReadsPiece tokens.old result }
{
    texts_are_spelled();
    let piece = tokens.next_text()?;
    tokens.finish()?;
    Ok(piece)
}

/// Adds the piece of a text that is alone in a line to a string.
fn append_piece(
    segment: &mut Segment,
    object: Object,
    tokens: &mut LineTokens<'_>,
    scratch: &mut LineBuffer,
) -> Result<(), BuildError>
    requires object { HasLocatedObject segment.old object }
    requires kind { object.kind ≡ StringKind }
    ensures append { AppendsPiece segment.old segment.new object.handle tokens.old result }
    ensures place { SameSurroundings segment.old.cut segment.new.cut }
    ensures in_place { HasLocatedObject segment.new object }
{
    let at = tokens.at();
    let piece = last_text(tokens)?;
    ended(
        StringMut::at(segment, object).append(piece.bytes(scratch)),
        at,
    )
}

/// Appends the text of the next lines to a vector of strings.
pub fn push_text(
    segment: &mut Segment,
    object: Object,
    lines: &mut Lines<'_>,
    room: &mut [u8],
    scratch: &mut LineBuffer,
) -> Result<(), BuildError>
    requires object { HasLocatedObject segment.old object }
    requires kind { object.kind ≡ StringsKind }
    ensures visits { (index : ℕ) → AddsElement segment.old segment.new object.handle StringsKind index lines.old
        lines.new (length room.old) result }
    ensures place { SameSurroundings segment.old.cut segment.new.cut }
    ensures in_place { HasLocatedObject segment.new object }
{
    let at = lines.at();
    let len = collect(lines, room, scratch)?;
    ended(StringsMut::at(segment, object).push(&room[..len]), at)
}

/// Copies the text of the next lines to the front of the buffer, and returns its length.
fn collect(
    lines: &mut Lines<'_>,
    room: &mut [u8],
    scratch: &mut LineBuffer,
) -> Result<usize, BuildError>
    ensures in_bounds { IfOk result (λ n. n ≤ length room.new) }
    ensures text { Collects lines.old lines.new room.old room.new result }
{
    let (mut tokens, len) = first_line(lines)?;
    let mut filled = copy_piece(&mut tokens, room, 0, scratch)?;
    'pieces: for _ in 0..pieces_behind(len) {
        let mut tokens = lines.next_line()?;
        filled = copy_piece(&mut tokens, room, filled, scratch)?;
    }
    Ok(filled)
}

/// Copies the piece of a text that is alone in a line into the room, and returns if it ends there.
fn copy_piece(
    tokens: &mut LineTokens<'_>,
    room: &mut [u8],
    from: usize,
    scratch: &mut LineBuffer,
) -> Result<usize, BuildError>
    requires { from ≤ length room.old }
    ensures in_bounds { IfOk result (λ n. n ≤ length room.new) }
    ensures piece { CopiesPiece tokens.old room.old room.new from result }
{
    let at = tokens.at();
    let piece = last_text(tokens)?;
    let bytes = piece.bytes(scratch);
    if room.len() - from < bytes.len() {
        return Err(BuildError::LongText(at));
    }
    put_at(room, from, bytes);
    Ok(from + bytes.len())
}

/// Puts bytes into the room, from `from` on.
fn put_at(room: &mut [u8], from: usize, bytes: &[u8])
    requires { from + length bytes.now ≤ length room.old }
    ensures { take (from + length bytes.now) room.new ≡ take from room.old ++ bytes.now }
{
    room[from..from + bytes.len()].copy_from_slice(bytes);
}
