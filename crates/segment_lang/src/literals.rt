//! Values as a line writes them.

ghost use Rattle.std.specs.Prelude.{◌≡◌, option_map};
ghost use Rattle.seg_types.specs.Values.{scalar_of as scalar_in};
ghost use Rattle.segment_lang.specs.Lexing.{Bare, is_token, literal_of_token};
ghost use Rattle.segment_lang.specs.Reading.{quoted_of, value_for};
ghost use Rattle.segment_lang.specs.Seen.{HasLineBuffer, literal_of, token_of};

use crate::buffer::LineBuffer;
use crate::numbers::{WholeNumber, whole_of};
use crate::tokens::{Quoted, Token};
use seg_types::{Refusal, ScalarKind, ScalarValue, WrittenValue, truth_as, whole_as};

/// A value as a line writes it.
#[derive(Drop)]
pub enum Literal<'a> {
    /// A whole number from -9223372036854775808 to 18446744073709551615.
    Integer(WholeNumber),
    /// `true` or `false`.
    Boolean(bool),
    /// A text.
    Quoted(Quoted<'a>),
}

/// Tells whether a word is this text, byte for byte.
pub fn is_token(token: &[u8], text: &[u8]) -> bool
    ensures { result ≡ is_token token.now text.now }
{
    token == text
}

/// Returns the value that a bare word spells: `true`, `false` or a whole number.
fn bare_literal(token: &[u8]) -> Option<Literal<'_>>
    ensures { option_map literal_of result ≡ literal_of_token (Bare token.now) }
{
    if is_token(token, b"true") {
        return Some(Literal::Boolean(true));
    }
    if is_token(token, b"false") {
        return Some(Literal::Boolean(false));
    }
    Some(Literal::Integer(whole_of(token)?))
}

/// Returns the value that a word spells.
pub fn literal_of(token: Token<'_>) -> Option<Literal<'_>>
    ensures { option_map literal_of result ≡ literal_of_token (token_of token.entry) }
{
    match token {
        Token::Bare(token) => bare_literal(token),
        Token::Text(text) => Some(Literal::Quoted(text)),
    }
}

/// Returns the bytes that a word stands for that is a text.
pub fn quoted_of(token: Token<'_>) -> Option<Quoted<'_>>
    ensures { result ≡ quoted_of (token_of token.entry) }
{
    match token {
        Token::Bare(_) => None,
        Token::Text(text) => Some(text),
    }
}

impl WrittenValue for Literal<'_> {
    type Scratch = LineBuffer;

    ghost literal = { literal_of };

    ghost fits = { λ l. HasLineBuffer (literal_of l) };

    fn value_of(&self, kind: ScalarKind) -> Result<ScalarValue, Refusal> {
        match self {
            Literal::Integer(number) => whole_as(kind, number.get()),
            Literal::Boolean(truth) => truth_as(kind, *truth),
            Literal::Quoted(_) => Err(Refusal::WrongKind),
        }
    }

    fn text<'r>(&'r self, scratch: &'r mut LineBuffer) -> Option<&'r [u8]> {
        match self {
            Literal::Quoted(text) => Some(text.bytes(scratch)),
            _ => None,
        }
    }
}

/// Returns the value of the kind that a word spells.
#[tactic(auto, using(crate::proofs::values::Literals::ok_value))]
pub fn scalar_of(kind: ScalarKind, token: Token<'_>) -> Option<ScalarValue>
    ensures { result ≡ option_map (scalar_in kind) (value_for kind (token_of token.entry)) }
{
    literal_of(token)?.value_of(kind).ok()
}
