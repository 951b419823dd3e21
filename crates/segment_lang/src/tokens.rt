//! The words of a line, one after another.

ghost use Rattle.std.specs.Prelude.{◌≡◌, ◌≤◌, ◌<◌, ◌+◌, ◌++◌, drop, length, option_map, take, take_while, IfSome, Some};
ghost use Rattle.std.specs.Prelude.{None, option_and_then, if◌then◌else◌};
ghost use Rattle.std.specs.List.{prefix_len};
ghost use Rattle.raw_region.specs.Format.{current};
ghost use Rattle.seg_types.specs.Names.{is_name};
ghost use Rattle.segment_lang.specs.Lexing.{is_bare, is_plain, digit_of};
ghost use Rattle.segment_lang.specs.Tokens.{bare_at, digits_at, ends_token, escape_at, item_at, next_two};
ghost use Rattle.segment_lang.specs.Tokens.{next_token, only_token, three_tokens, two_tokens, text_at, behind_quote};
ghost use Rattle.segment_lang.specs.Tokens.{behind_opening, behind_text, up_to_blank};
ghost use Rattle.segment_lang.specs.Seen.{bytes_said, token_of};

use crate::blanks::{at_end, is_blank, skip_blanks};
use crate::buffer::LineBuffer;
use seg_types::Name;
use std::marker::Model;

/// The bytes of a text in quotes. If the line has escapes, iteration decodes them.
#[derive(Drop)]
pub struct Quoted<'a> {
    // The bytes; or, if one is escaped, the line from the quote that opens the text on. Bytes that are not escaped have
    // no quote.
    spelled: &'a [u8],
}

impl<'a> Model for Quoted<'a> {
    ghost use Rattle.std.specs.Prelude.{List, ℕ, IfSome, IsSome};
    ghost use Rattle.segment_lang.specs.Tokens.{behind_opening, spelled_bytes, text_at};

    ghost Value = { List ℕ };

    ghost view = { λ q. spelled_bytes q.spelled.now };

    ghost invariant = { λ q. IfSome (behind_opening q.spelled.now) (λ text. IsSome (text_at text)) };
}

impl<'a> Quoted<'a> {
    ghost use Rattle.seg_types.specs.Keys.{name_seen};

    /// Returns the bytes. They are lent from the line, or decoded into `scratch` if the line escapes one, whatever
    /// it held.
    pub fn bytes(&self, scratch: &'a mut LineBuffer) -> &'a [u8]
        requires { length self.now ≤ 4096 }
        ensures { result.now ≡ self.now }
    {
        match open_text(self.spelled) {
            Some(_) => self.decoded(scratch),
            None => self.spelled,
        }
    }

    /// Returns the name that the bytes are, or `None` if they are none. It is lent from the line, or decoded into
    /// `scratch` if the line escapes a byte of it.
    pub fn to_name(&self, scratch: &'a mut LineBuffer) -> Option<Name<'a>>
        ensures { option_map name_seen result ≡ (if is_name current self.now then Some self.now else None) }
    {
        match open_text(self.spelled) {
            Some(_) => Name::new(self.decoded(scratch)),
            None => Name::new(self.spelled),
        }
    }

    /// Returns the first 4096 of the bytes, which it puts into `scratch`, whatever it held.
    fn decoded(&self, scratch: &'a mut LineBuffer) -> &'a [u8]
        ensures { result.now ≡ take 4096 self.now }
    {
        scratch.clear();
        self.append_to(scratch);
        scratch.as_slice()
    }

    /// Adds the bytes at the end of a text, and drops those for which there is no room.
    pub fn append_to(&self, text: &mut LineBuffer)
        requires { length text.old ≤ 4096 }
        ensures { text.new ≡ take 4096 (text.old ++ self.now) }
    {
        let Some(spelled) = open_text(self.spelled) else {
            text.extend(self.spelled);
            return;
        };
        let mut rest = spelled;
        'items: while let Some((byte, tail)) = read_item(rest) {
            text.extend(&[byte]);
            rest = tail;
        }
    }
}

/// A word of a line.
#[derive(Drop)]
pub enum Token<'a> {
    /// Bytes from 0x21 to 0x7E without a quote.
    Bare(&'a [u8]),
    /// A text in quotes.
    Text(Quoted<'a>),
}

/// Tells whether a byte may stand in a bare word: 0x21 to 0x7E but a quote.
fn is_bare(byte: u8) -> bool
    ensures { result ≡ is_bare byte }
{
    byte.is_ascii_graphic() && byte != b'"'
}

/// Splits the bytes at the first one that no bare word can hold.
fn split_bare(bytes: &[u8]) -> (&[u8], &[u8])
    ensures prefix { result.0.now ≡ take (prefix_len is_bare bytes.now) bytes.now }
    ensures rest { result.1.now ≡ drop (prefix_len is_bare bytes.now) bytes.now }
    ensures shrinking { length result.0.now + length result.1.now ≡ length bytes.now }
{
    let mut rest = bytes;
    'bare: while let [first, tail @ ..] = rest {
        if !is_bare(*first) {
            break;
        }
        rest = tail;
    }
    bytes.split_at(bytes.len() - rest.len())
}

/// Returns the leading bare word, up to a blank, and the rest.
fn read_bare(bytes: &[u8]) -> Option<(&[u8], &[u8])>
    ensures value { option_map (λ x. (x.0.now, x.1.now)) result ≡ bare_at bytes.now }
    ensures shrinking { IfSome result (λ x. length (up_to_blank bytes.now) + length x.1.now ≡ length bytes.now) }
    ensures fits { IfSome result (λ x. length x.0.now ≤ length bytes.now) }
{
    let (token, rest) = split_bare(bytes);
    if !ends_token(rest) {
        return None;
    }
    Some((token, rest))
}

/// Tells whether a byte stands for itself in a text.
fn is_plain(byte: u8) -> bool
    ensures { result ≡ is_plain byte }
{
    byte >= b' ' && byte != 0x7F && byte != b'"' && byte != b'\\'
}

/// Returns the value of a digit of `0` to `9`, `a` to `f`, from 0 to 15.
fn digit_of(byte: u8) -> Option<u8>
    ensures value { result ≡ digit_of byte }
    ensures max_size { IfSome result (λ digit. digit < 16) }
{
    if byte.is_ascii_digit() {
        Some(byte - b'0')
    } else if b'a' <= byte && byte <= b'f' {
        Some(byte - b'a' + 10)
    } else {
        None
    }
}

/// Reads two leading hexadecimal digits as a byte, and returns the rest.
#[tactic(auto, unfolding(crate::specs::Tokens::digits_at))]
fn read_digits(bytes: &[u8]) -> Option<(u8, &[u8])>
    ensures value { option_map (λ x. (x.0, x.1.now)) result ≡ digits_at bytes.now }
    ensures shrinking { IfSome result (λ x. length x.1.now < length bytes.now) }
{
    let [high, low, rest @ ..] = bytes else {
        return None;
    };
    let high = digit_of(*high)?;
    let low = digit_of(*low)?;
    Some((16 * high + low, rest))
}

/// Reads the escape after a backslash as a byte, and returns the rest.
#[tactic(auto, unfolding(crate::specs::Tokens::escape_at))]
fn read_escape(bytes: &[u8]) -> Option<(u8, &[u8])>
    ensures value { option_map (λ x. (x.0, x.1.now)) result ≡ escape_at bytes.now }
    ensures shrinking { IfSome result (λ x. length x.1.now < length bytes.now) }
{
    let [byte, rest @ ..] = bytes else {
        return None;
    };
    match *byte {
        b'"' | b'\\' => Some((*byte, rest)),
        b'x' => read_digits(rest),
        _ => None,
    }
}

/// Reads the next byte of a text, which an escape can spell, and returns the rest. A quote is no byte of a text.
#[tactic(auto, unfolding(crate::specs::Tokens::item_at))]
fn read_item(bytes: &[u8]) -> Option<(u8, &[u8])>
    ensures value { option_map (λ x. (x.0, x.1.now)) result ≡ item_at bytes.now }
    ensures shrinking { IfSome result (λ x. length x.1.now < length bytes.now) }
{
    let [byte, rest @ ..] = bytes else {
        return None;
    };
    if *byte == b'\\' {
        return read_escape(rest);
    }
    if !is_plain(*byte) {
        return None;
    }
    Some((*byte, rest))
}

/// Splits the bytes at the first one that does not stand for itself in a text.
fn split_plain(bytes: &[u8]) -> (&[u8], &[u8])
    ensures prefix { result.0.now ≡ take_while is_plain bytes.now }
    ensures rest { result.1.now ≡ drop (length (take_while is_plain bytes.now)) bytes.now }
    ensures shrinking { length result.1.now ≤ length bytes.now }
{
    let mut rest = bytes;
    'prefix: while let [first, tail @ ..] = rest {
        if !is_plain(*first) {
            break;
        }
        rest = tail;
    }
    bytes.split_at(bytes.len() - rest.len())
}

/// Tells whether a word may end here: a blank or the end of the line follows.
pub fn ends_token(bytes: &[u8]) -> bool
    ensures { result ≡ ends_token bytes.now }
{
    match bytes {
        [] => true,
        [byte, ..] => is_blank(*byte),
    }
}

/// Returns the bytes after the items of a text.
fn skip_items(bytes: &[u8]) -> &[u8]
    ensures end { item_at result.now ≡ None }
    ensures unchanged { behind_text result.now ≡ behind_text bytes.now }
    ensures shrinking { length result.now ≤ length bytes.now }
{
    let mut rest = bytes;
    'items: while let Some((_, tail)) = read_item(rest) {
        rest = tail;
    }
    rest
}

/// Returns the bytes after the opening quote, or `None` if the first byte is no quote.
fn open_text(bytes: &[u8]) -> Option<&[u8]>
    ensures value { option_map (λ x. x.now) result ≡ behind_opening bytes.now }
    ensures shrinking { IfSome result (λ x. length x.now < length bytes.now) }
{
    let [byte, rest @ ..] = bytes else {
        return None;
    };
    if *byte != b'"' {
        return None;
    }
    Some(rest)
}

/// Returns the bytes after the closing quote, or `None` if the first byte is no quote or the word does not end after
/// it.
fn close_text(bytes: &[u8]) -> Option<&[u8]>
    ensures value { option_map (λ x. x.now) result ≡ behind_quote bytes.now }
    ensures shrinking { IfSome result (λ x. length x.now < length bytes.now) }
{
    let [byte, rest @ ..] = bytes else {
        return None;
    };
    if *byte != b'"' || !ends_token(rest) {
        return None;
    }
    Some(rest)
}

/// Reads a text after its opening quote, and returns the bytes after its closing one. It is not inlined, so that
/// reading a bare word needs few registers.
#[inline(never)]
fn read_text(bytes: &[u8]) -> Option<(Quoted<'_>, &[u8])>
    ensures value { option_map (λ x. (x.0, x.1.now)) result ≡ option_and_then text_at (behind_opening bytes.now) }
    ensures shrinking { IfSome result (λ x. length x.1.now < length bytes.now) }
    ensures fits { IfSome result (λ x. length x.0 ≤ length bytes.now) }
{
    let text = open_text(bytes)?;
    let (prefix, behind) = split_plain(text);
    if let Some(rest) = close_text(behind) {
        return Some((Quoted { spelled: prefix }, rest));
    }
    let rest = close_text(skip_items(text))?;
    Some((Quoted { spelled: bytes }, rest))
}

/// Skips blanks, and returns the next word and the rest. Returns `None` at the end, or if a byte fits no word.
#[tactic(auto, unfolding(crate::specs::Tokens::next_token, crate::specs::Tokens::token_at))]
pub fn next_token(bytes: &[u8]) -> Option<(Token<'_>, &[u8])>
    ensures value { option_map (λ x. (token_of x.0, x.1.now)) result ≡ next_token bytes.now }
    ensures shrinking { IfSome result (λ x. length x.1.now < length bytes.now) }

    // A word stands for no more bytes than the line has.
    ensures fits { IfSome result (λ x. length (bytes_said x.0) ≤ length bytes.now) }
{
    let bytes = skip_blanks(bytes);
    let [first, ..] = bytes else {
        return None;
    };
    if *first == b'"' {
        let (text, rest) = read_text(bytes)?;
        return Some((Token::Text(text), rest));
    }
    let (token, rest) = read_bare(bytes)?;
    Some((Token::Bare(token), rest))
}

/// Returns the only word of the bytes: a word with nothing but blanks after it.
#[tactic(auto, unfolding(crate::specs::Tokens::only_token))]
pub fn only_token(bytes: &[u8]) -> Option<Token<'_>>
    ensures value { option_map token_of result ≡ only_token bytes.now }
    ensures fits { IfSome result (λ token. length (bytes_said token) ≤ length bytes.now) }
{
    let (token, rest) = next_token(bytes)?;
    if !at_end(rest) {
        return None;
    }
    Some(token)
}

/// Returns the only two words of the bytes.
pub fn two_tokens(bytes: &[u8]) -> Option<(Token<'_>, Token<'_>)>
    ensures { option_map (λ x. (token_of x.0, token_of x.1)) result ≡ two_tokens bytes.now }
{
    let (first, rest) = next_token(bytes)?;
    let second = only_token(rest)?;
    Some((first, second))
}

/// Returns the only three words of the bytes.
pub fn three_tokens(bytes: &[u8]) -> Option<(Token<'_>, Token<'_>, Token<'_>)>
    ensures { option_map (λ x. (token_of x.0, token_of x.1, token_of x.2)) result ≡ three_tokens bytes.now }
{
    let (first, rest) = next_token(bytes)?;
    let (second, third) = two_tokens(rest)?;
    Some((first, second, third))
}

/// Returns the next two words, and the rest.
pub fn next_two(bytes: &[u8]) -> Option<(Token<'_>, Token<'_>, &[u8])>
    ensures { option_map (λ x. (token_of x.0, token_of x.1, x.2.now)) result ≡ next_two bytes.now }
{
    let (first, rest) = next_token(bytes)?;
    let (second, rest) = next_token(rest)?;
    Some((first, second, rest))
}
