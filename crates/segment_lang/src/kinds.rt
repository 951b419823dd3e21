//! Kinds as a line writes them.

ghost use Rattle.std.specs.Prelude.{◌≡◌, ◌==◌, ◌+◌, not, length, map, drop, take, take_while, option_map, Some, None};
ghost use Rattle.std.specs.Prelude.{slice_index};
ghost use Rattle.raw_region.specs.Format.{current};
ghost use Rattle.segment_lang.specs.Lexing.{Bare};
ghost use Rattle.segment_lang.specs.Language.{whole_language};
ghost use Rattle.segment_lang.specs.Reading.{bracketed, counted, counted_kind, kind_named, kind_of_token};
ghost use Rattle.segment_lang.specs.Seen.{found_in, token_of};

use crate::literals::is_token;
use crate::numbers::number_of;
use crate::tokens::Token;
use seg_types::{Kind, MAX_ARRAY_LEN, ScalarKind};

/// A kind of maps.
macro_rules! map {
    ($keys:ident, $values:ident) => {
        Kind::Map(ScalarKind::$keys, ScalarKind::$values)
    };
}

/// The kinds, each after how it is printed.
static KINDS: [(&[u8], Kind); 37] = [
    (b"bool", Kind::Scalar(ScalarKind::Bool)),
    (b"u8", Kind::Scalar(ScalarKind::U8)),
    (b"i32", Kind::Scalar(ScalarKind::I32)),
    (b"i64", Kind::Scalar(ScalarKind::I64)),
    (b"u64", Kind::Scalar(ScalarKind::U64)),
    (b"string", Kind::String),
    (b"vec<string>", Kind::Strings),
    (b"vec<bool>", Kind::Vector(ScalarKind::Bool)),
    (b"vec<u8>", Kind::Vector(ScalarKind::U8)),
    (b"vec<i32>", Kind::Vector(ScalarKind::I32)),
    (b"vec<i64>", Kind::Vector(ScalarKind::I64)),
    (b"vec<u64>", Kind::Vector(ScalarKind::U64)),
    (b"map<bool,bool>", map!(Bool, Bool)),
    (b"map<bool,u8>", map!(Bool, U8)),
    (b"map<bool,i32>", map!(Bool, I32)),
    (b"map<bool,i64>", map!(Bool, I64)),
    (b"map<bool,u64>", map!(Bool, U64)),
    (b"map<u8,bool>", map!(U8, Bool)),
    (b"map<u8,u8>", map!(U8, U8)),
    (b"map<u8,i32>", map!(U8, I32)),
    (b"map<u8,i64>", map!(U8, I64)),
    (b"map<u8,u64>", map!(U8, U64)),
    (b"map<i32,bool>", map!(I32, Bool)),
    (b"map<i32,u8>", map!(I32, U8)),
    (b"map<i32,i32>", map!(I32, I32)),
    (b"map<i32,i64>", map!(I32, I64)),
    (b"map<i32,u64>", map!(I32, U64)),
    (b"map<i64,bool>", map!(I64, Bool)),
    (b"map<i64,u8>", map!(I64, U8)),
    (b"map<i64,i32>", map!(I64, I32)),
    (b"map<i64,i64>", map!(I64, I64)),
    (b"map<i64,u64>", map!(I64, U64)),
    (b"map<u64,bool>", map!(U64, Bool)),
    (b"map<u64,u8>", map!(U64, U8)),
    (b"map<u64,i32>", map!(U64, I32)),
    (b"map<u64,i64>", map!(U64, I64)),
    (b"map<u64,u64>", map!(U64, U64)),
];

/// Returns the kind of the first row of a word.
fn find_kind(rows: &[(&[u8], Kind)], token: &[u8]) -> Option<Kind>
    ensures { result ≡ found_in (map (λ row. (row.0.now, row.1)) rows.now) token.now }
{
    rows.iter()
        .find(|row| is_token(token, row.0))
        .map(|row| row.1)
}

/// Returns the kind that is printed so.
pub fn kind_named(token: &[u8]) -> Option<Kind>
    ensures { result ≡ kind_named (whole_language current) token.now }
{
    find_kind(&KINDS, token)
}

/// Returns the kind that a word is.
pub fn kind_of_token(token: Token<'_>) -> Option<Kind>
    ensures { result ≡ kind_of_token (whole_language current) (token_of token.entry) }
{
    match token {
        Token::Bare(token) => kind_named(token),
        Token::Text(_) => None,
    }
}

/// Splits the word before its first `[`.
fn split_prefix(token: &[u8]) -> (&[u8], &[u8])
    ensures prefix { result.0.now ≡ take_while (λ c. not (c == 0x5B)) token.now }
    ensures rest { result.1.now ≡ drop (length result.0.now) token.now }
{
    let mut rest = token;
    'prefix: while let [first, tail @ ..] = rest {
        if *first == b'[' {
            break;
        }
        rest = tail;
    }
    token.split_at(token.len() - rest.len())
}

/// Splits the word at its first `[`, which neither part holds.
fn split_bracket(token: &[u8]) -> (&[u8], &[u8])
    ensures prefix { result.0.now ≡ take_while (λ c. not (c == 0x5B)) token.now }
    ensures after { result.1.now ≡ drop (length result.0.now + 1) token.now }
{
    let (prefix, rest) = split_prefix(token);
    match rest {
        [_, behind @ ..] => (prefix, behind),
        [] => (prefix, rest),
    }
}

/// Returns the number in front of `]`.
fn bracketed(token: &[u8]) -> Option<u64>
    ensures { result ≡ bracketed token.now }
{
    match token {
        [digits @ .., b']'] => number_of(digits),
        _ => None,
    }
}

/// Returns a scalar kind and a number of elements from 1 to 1048576.
fn counted(kind: Kind, count: Option<u64>) -> Option<(Kind, u32)>
    ensures { result ≡ counted kind count }
{
    let Kind::Scalar(_) = kind else {
        return None;
    };
    let count = count?;
    if count == 0 || count > MAX_ARRAY_LEN {
        return None;
    }
    Some((kind, count as u32))
}

/// Reads a bare word as a kind, and the number in brackets after it; without brackets the number is 1.
fn counted_name(token: &[u8]) -> Option<(Kind, u32)>
    ensures { result ≡ counted_kind (whole_language current) (Bare token.now) }
{
    if let Some(kind) = kind_named(token) {
        return Some((kind, 1));
    }
    let (prefix, behind) = split_bracket(token);
    let kind = kind_named(prefix)?;
    counted(kind, bracketed(behind))
}

/// Reads a word as the kind of a new object, and its number of values.
pub fn counted_kind(token: Token<'_>) -> Option<(Kind, u32)>
    ensures { result ≡ counted_kind (whole_language current) (token_of token.entry) }
{
    match token {
        Token::Bare(token) => counted_name(token),
        Token::Text(_) => None,
    }
}
