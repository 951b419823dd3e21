//! Reading from the front of a text: lines, words, numbers, kinds and names as a dump spells them. Other spellings need
//! not be found.
ghost use Rattle.std.specs.Prelude.{◌≡◌, ◌≢◌, ◌<◌, ◌≤◌, ◌^◌, ◌++◌, ℕ, List, length, IfSome, MatchOption};
ghost use Rattle.seg_types.specs.Texts.{item_text, kind_text, name_text};
ghost use Rattle.segment_lang.specs.Texts.{number_text};
ghost use Rattle.segment_dump.specs.Asked.{Begins, CanName, IsLined, IsMeasured, NamesKind};
ghost use Rattle.segment_dump.specs.Leads.{AreEntryCounts, IsLead, IsMeasure, IsSmall, closed_text, entries_text};
ghost use Rattle.segment_dump.specs.Leads.{lead_text, measured};
ghost use Rattle.segment_dump.specs.Reads.{Any, AreLines, Breaks, HasNoEnd, IsToken, ParsesPrefix, Skips, ended};
ghost use Rattle.segment_dump.specs.Reads.{itself};
ghost use Rattle.segment_dump.specs.Reads.{lines_text, seen, seen_rest};

use block_tags::MAX_SEGMENT_LEN;
use seg_types::Kind;
use segment_lang::{Token, kind_of_token, number_of, numbers_are_decimals};

/// Returns the rest of a text that begins with these bytes.
pub fn behind<'a>(text: &'a [u8], lead: &[u8]) -> Option<&'a [u8]>
    ensures { MatchOption result ((rest : List ℕ)
        → text.now ≢ lead.now ++ rest) (λ rest. text.now ≡ lead.now ++ rest.now) }
{
    text.strip_prefix(lead)
}

/// Returns the rest after a line and its end.
fn behind_line(text: &[u8]) -> Option<&[u8]>
    ensures skip_count { Skips ended HasNoEnd text.now (seen_rest result) }
    ensures line { IfSome result (λ r. Begins IsLined text.now 1 r.now) }
{
    let mut rest = text;
    'bytes: while let [first, tail @ ..] = rest {
        rest = tail;
        if *first == b'\n' {
            return Some(rest);
        }
    }
    None
}

/// Returns the rest after `count` lines.
pub fn behind_lines(text: &[u8], count: u64) -> Option<&[u8]>
    ensures skip_count { Skips lines_text (AreLines count) text.now (seen_rest result) }
    ensures line { IfSome result (λ r. Begins IsLined text.now count r.now) }
{
    let mut rest = text;
    'lines: for _ in 0..count {
        rest = behind_line(rest)?;
    }
    Some(rest)
}

/// Returns the leading word, which can be empty, and the rest.
pub fn next_token(text: &[u8]) -> (&[u8], &[u8])
    ensures contents { text.now ≡ result.0.now ++ result.1.now }
    ensures token { IsToken result.0.now }
    ensures line_breaks { Breaks result.1.now }
{
    let mut rest = text;
    'token: while let [first, tail @ ..] = rest {
        if *first <= b' ' {
            break;
        }
        rest = tail;
    }
    text.split_at(text.len() - rest.len())
}

/// Returns the leading number, and the rest.
pub fn next_number(text: &[u8]) -> Option<(u64, &[u8])>
    ensures value { ParsesPrefix number_text (λ n. n < 2 ^ 64) Breaks itself text.now (seen result) }
    ensures spelled { IfSome result (λ r. text.now ≡ number_text r.0 ++ r.1.now) }
{
    numbers_are_decimals();
    let (token, rest) = next_token(text);
    let number = number_of(token)?;
    Some((number, rest))
}

/// Returns the leading number, which is at most the largest size of a segment, and the rest.
pub fn next_count(text: &[u8]) -> Option<(u64, &[u8])>
    ensures value { ParsesPrefix number_text IsSmall Breaks itself text.now (seen result) }
    ensures spelled { IfSome result (λ r. text.now ≡ number_text r.0 ++ r.1.now) }
    ensures max_size { IfSome result (λ r. IsSmall r.0) }
{
    let (number, rest) = next_number(text)?;
    if number > MAX_SEGMENT_LEN {
        return None;
    }
    Some((number, rest))
}

/// Returns the leading kind, and the rest.
fn next_kind(text: &[u8]) -> Option<(Kind, &[u8])>
    ensures value { ParsesPrefix kind_text Any Breaks itself text.now (seen result) }
    ensures named { IfSome result (λ r. Begins NamesKind text.now r.0 r.1.now) }
{
    let (token, rest) = next_token(text);
    let kind = kind_of_token(Token::Bare(token))?;
    Some((kind, rest))
}

/// Returns the rest after one byte of a text in quotes, which an escape can spell.
fn behind_byte(text: &[u8]) -> Option<&[u8]>
    ensures skip_count { Skips item_text Any text.now (seen_rest result) }
    ensures non_empty { IfSome result (λ r. Begins CanName text.now 1 r.now) }
{
    match text {
        [b'\\', b'x', _, _, rest @ ..] => Some(rest),
        [b'\\', _, rest @ ..] => Some(rest),
        [_, rest @ ..] => Some(rest),
        [] => None,
    }
}

/// Returns the length of a text in quotes, and the rest after its closing quote. The opening quote is read already.
fn quoted_len(text: &[u8]) -> Option<(u64, &[u8])>
    ensures value { ParsesPrefix closed_text (λ bytes. IsSmall (length bytes)) Any length text.now (seen result) }
    ensures min_len { IfSome result (λ r. Begins CanName text.now r.0 r.1.now) }
    ensures max_size { IfSome result (λ r. IsSmall r.0) }
{
    let mut rest = text;
    'bytes: for len in 0..MAX_SEGMENT_LEN + 1 {
        if let Some(end) = behind(rest, b"\"") {
            return Some((len, end));
        }
        rest = behind_byte(rest)?;
    }
    None
}

/// Returns the length of the leading name, and the rest.
fn name_len(text: &[u8]) -> Option<(u64, &[u8])>
    ensures value { ParsesPrefix name_text (λ name. IsSmall (length name)) Breaks length text.now (seen result) }
    ensures min_len { IfSome result (λ r. Begins CanName text.now r.0 r.1.now) }
    ensures max_size { IfSome result (λ r. IsSmall r.0) }
{
    if let Some(rest) = behind(text, b"\"") {
        return quoted_len(rest);
    }
    let (token, rest) = next_token(text);
    let len = token.len() as u64;
    if len > MAX_SEGMENT_LEN {
        return None;
    }
    Some((len, rest))
}

/// Reads the class and the name of an object. Returns the length of the name, and the rest.
pub fn behind_lead(text: &[u8]) -> Option<(u64, &[u8])>
    ensures value { ParsesPrefix lead_text IsLead Any (λ lead. length lead.1) text.now (seen result) }
    ensures min_len { IfSome result (λ r. Begins CanName text.now r.0 r.1.now) }
    ensures max_size { IfSome result (λ r. IsSmall r.0) }
{
    if let Some(rest) = behind(text, b"named ") {
        let (len, rest) = name_len(rest)?;
        return Some((len, behind(rest, b" ")?));
    }
    if let Some(rest) = behind(text, b"unique ") {
        return Some((0, rest));
    }
    Some((0, behind(text, b"anonymous ")?))
}

/// Returns the kind of an object, its number of elements, and the rest after the line.
pub fn next_measure(text: &[u8]) -> Option<((Kind, u64), &[u8])>
    ensures value { ParsesPrefix measured IsMeasure Any itself text.now (seen result) }
    ensures measure { IfSome result (λ r. Begins IsMeasured text.now r.0 r.1.now) }
    ensures max_size { IfSome result (λ r. IsSmall r.0.1) }
{
    let (kind, rest) = next_kind(text)?;
    let (count, rest) = next_count(behind(rest, b" ")?)?;
    Some(((kind, count), behind(rest, b"\n")?))
}

/// Returns the numbers of entries of both indexes, and the rest after the line.
pub fn next_entries(text: &[u8]) -> Option<((u64, u64), &[u8])>
    ensures value { ParsesPrefix entries_text AreEntryCounts Any itself text.now (seen result) }
    ensures spelled { IfSome result (λ r. text.now ≡ entries_text r.0 ++ r.1.now) }
    ensures named { IfSome result (λ r. IsSmall r.0.0) }
    ensures unique { IfSome result (λ r. IsSmall r.0.1) }
{
    let (named, rest) = next_count(text)?;
    let (unique, rest) = next_count(behind(rest, b" ")?)?;
    Some(((named, unique), behind(rest, b"\n")?))
}
