//! The needs of the objects of a dump, counted from its text before a segment is created.
ghost use Rattle.std.specs.Prelude.{◌≡◌, ◌++◌, ℕ, List, true, length, flat_map, IfOk, IfSome};
ghost use Rattle.std.specs.Bool.{OnTrue};
ghost use Rattle.segment_dump.specs.Asked.{AskTogether, AsksContent, AsksNothing, AsksObject, AsksString, AsksText};
ghost use Rattle.segment_dump.specs.Asked.{Begins, HasObjects, IsDumpText};
ghost use Rattle.segment_dump.specs.Counting.{AreTexts, CountsDump, CountsObjects, HasContentShape, IsCountable};
ghost use Rattle.segment_dump.specs.Counting.{IsCounted, IsDumpPrefix, fronted};
ghost use Rattle.segment_dump.specs.Leads.{IsSmall};
ghost use Rattle.segment_dump.specs.Need.{all_needs, block_room, item_needs, nothing, only_room, text_needs};
ghost use Rattle.segment_dump.specs.Need.{texts_needs};
ghost use Rattle.segment_dump.specs.Reads.{Any, AreLines, ParsesPrefix, Skips, itself, lines_text, seen, seen_rest};
ghost use Rattle.segment_dump.specs.Succeeding.{IsNumber, LeavesThird, size_said};
ghost use Rattle.segment_dump.specs.Texts.{content_text, end_text, item_text, text_lines};

use crate::needs::{Needs, block_room, object_room, only_room, prefix_room};
use crate::prefix_reading::{
    behind, behind_lead, behind_lines, next_count, next_entries, next_measure, next_number,
};
use crate::texts::pieces_in;
use seg_types::Kind;

/// The counts of a dump.
#[derive(Clone, Copy, Debug, PartialEq, Eq)]
pub struct Count {
    /// The bytes of the segment that was dumped, as it says.
    pub size: u64,
    /// What all its objects need.
    pub needs: Needs,
}

/// The contents of the first lines.
#[derive(Clone, Copy)]
pub struct DumpPrefix {
    /// The bytes of the segment that was dumped.
    pub size: u64,
    /// The number of entries of the index of names.
    pub named: u64,
    /// The number of entries of the index of kinds.
    pub unique: u64,
}

/// Returns the length of a text, and the rest after its lines.
fn text_len(text: &[u8]) -> Option<(u64, &[u8])>
    ensures value { ParsesPrefix text_lines (λ bytes. IsSmall (length bytes)) Any length text.now (seen result) }
    ensures text { IfSome result (λ r. Begins IsDumpText text.now r.0 r.1.now) }
    ensures max_size { IfSome result (λ r. IsSmall r.0) }
{
    let (len, rest) = next_count(behind(text, b"  ")?)?;
    Some((len, behind_lines(rest, pieces_in(len as usize) as u64)?))
}

/// Returns the needs of `count` texts, and the rest after their lines.
fn count_texts(text: &[u8], count: u64) -> Option<(Needs, &[u8])>
    ensures value { ParsesPrefix (flat_map text_lines) (AreTexts count) Any (all_needs text_needs) text.now
        (seen result) }
    ensures questions { IfSome result (λ r. Begins (AskTogether AsksText count) text.now r.0 r.1.now) }
{
    let mut rest = text;
    let mut needs = only_room(0);
    'texts: for _ in 0..count {
        let (len, behind) = text_len(rest)?;
        rest = behind;
        needs = needs.and(text_needs(len));
    }
    Some((needs, rest))
}

/// Returns the needs of a text of `len` bytes in a vector of strings.
fn text_needs(len: u64) -> Needs
    requires { IsSmall len }
    ensures { result ≡ record { room = block_room len; longest = len } }
{
    Needs {
        room: block_room(len),
        longest: len,
    }
}

/// Returns the needs of the texts of an object, and the rest after its lines.
fn count_content(text: &[u8], kind: Kind, count: u64) -> Option<(Needs, &[u8])>
    ensures value { ParsesPrefix content_text (HasContentShape kind count) Any texts_needs text.now (seen result) }
    ensures questions { IfSome result (λ r. Begins (AsksContent kind count) text.now r.0 r.1.now) }
{
    match kind {
        Kind::Scalar(_) => skip(text, count),
        Kind::Vector(_) => skip(text, count),
        Kind::Map(_, _) => skip(text, count),
        Kind::String => count_string(text),
        Kind::Strings => count_texts(text, count),
    }
}

/// Skips `count` lines, which need nothing, and returns the rest.
fn skip(text: &[u8], count: u64) -> Option<(Needs, &[u8])>
    ensures value { ParsesPrefix lines_text (AreLines count) Any (λ lines. nothing) text.now (seen result) }
    ensures questions { IfSome result (λ r. Begins (AsksNothing count) text.now r.0 r.1.now) }
{
    Some((only_room(0), behind_lines(text, count)?))
}

/// Returns the needs of a string, and the rest after its lines.
fn count_string(text: &[u8]) -> Option<(Needs, &[u8])>
    ensures value { ParsesPrefix text_lines (λ bytes. IsSmall (length bytes)) Any (λ bytes.
        only_room (block_room (length bytes))) text.now (seen result) }
    ensures questions { IfSome result (λ r. Begins AsksString text.now r.0 r.1.now) }
{
    let (len, rest) = text_len(text)?;
    Some((only_room(block_room(len)), rest))
}

/// Returns the needs of an object, and the rest after its lines.
fn count_object(text: &[u8]) -> Option<(Needs, &[u8])>
    ensures value { ParsesPrefix item_text IsCountable Any item_needs text.now (seen result) }
    ensures questions { IfSome result (λ r. Begins AsksObject text.now r.0 r.1.now) }
{
    let (name_len, rest) = behind_lead(text)?;
    let ((kind, count), rest) = next_measure(rest)?;
    let (texts, rest) = count_content(rest, kind, count)?;
    let own = only_room(object_room(name_len, kind, count));
    Some((own.and(texts), rest))
}

/// Tells whether the last line stands in front.
fn is_end(text: &[u8]) -> bool
    ensures on_true { OnTrue result ((rest : List ℕ) × (text.now ≡ end_text ++ rest)) }
    ensures totality { (rest : List ℕ) → text.now ≡ end_text ++ rest → result ≡ true }
{
    behind(text, b"end\n").is_some()
}

/// Returns the needs of all objects up to the line `end`; otherwise the number of bytes from the first unreadable line
/// on.
fn count_objects(text: &[u8]) -> Result<Needs, usize>
    ensures count { CountsObjects text.now result }
    ensures questions { IfOk result (HasObjects text.now) }
{
    let mut rest = text;
    let mut needs = only_room(0);
    'objects: for _ in 0..text.len() {
        if is_end(rest) {
            return Ok(needs);
        }
        let Some((more, behind)) = count_object(rest) else {
            return Err(rest.len());
        };
        rest = behind;
        needs = needs.and(more);
    }
    Err(rest.len())
}

/// Returns the contents of the first lines, and the rest.
fn read_prefix(text: &[u8]) -> Option<(DumpPrefix, &[u8])>
    ensures value { ParsesPrefix fronted IsDumpPrefix Any itself text.now (seen result) }
    ensures spelled { IfSome result (λ r. text.now ≡ fronted r.0 ++ r.1.now) }
    ensures named { IfSome result (λ r. IsSmall r.0.named) }
    ensures unique { IfSome result (λ r. IsSmall r.0.unique) }
{
    let (size, rest) = next_number(behind(text, b"segment dump 1\nsize ")?)?;
    let ((named, unique), rest) = next_entries(behind(rest, b"\nindexes ")?)?;
    Some((
        DumpPrefix {
            size,
            named,
            unique,
        },
        rest,
    ))
}

/// Returns the number of bytes from the first unreadable line of the three on.
fn prefix_left(text: &[u8]) -> usize
    ensures { LeavesThird text.now result }
{
    let Some(sized) = behind(text, b"segment dump 1\n") else {
        return text.len();
    };
    match behind_size(sized) {
        Some(indexed) => indexed.len(),
        None => sized.len(),
    }
}

/// Returns the rest after the line with the size.
fn behind_size(text: &[u8]) -> Option<&[u8]>
    ensures { Skips size_said IsNumber text.now (seen_rest result) }
{
    let (_, rest) = next_number(behind(text, b"size ")?)?;
    behind(rest, b"\n")
}

/// Returns the needs of a dump's objects, and its size. In a segment of fewer bytes than `needs.room`, or with a
/// shorter buffer than `needs.longest`, [`load`](crate::load) builds no segment.
///
/// # Errors
///
/// The number of bytes from the first unreadable line on; the text is then the dump of no segment.
pub fn count_dump(text: &[u8]) -> Result<Count, usize>
    ensures count { CountsDump text.now result }
    ensures steps_lower { IfOk result (IsCounted text.now) }
{
    let Some((prefix, rest)) = read_prefix(text) else {
        return Err(prefix_left(text));
    };
    let indexes = only_room(prefix_room(prefix.named, prefix.unique));
    let objects = count_objects(rest)?;
    Ok(Count {
        size: prefix.size,
        needs: indexes.and(objects),
    })
}
