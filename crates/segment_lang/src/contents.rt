//! The initial contents of an object, read from a line.

ghost use Rattle.std.specs.Prelude.{◌≡◌, Some, None, option_and_then, option_map, if◌then◌else◌};
ghost use Rattle.seg_types.specs.Commands.{Bytes, Elements, NoPairs, Strings};
ghost use Rattle.segment_lang.specs.Lexing.{tokens};
ghost use Rattle.segment_lang.specs.Tokens.{at_end, only_token};
ghost use Rattle.segment_lang.specs.Reading.{content, quoted_of};
ghost use Rattle.segment_lang.specs.Arguments.{numbers_at, scalar_at, texts_at};
ghost use Rattle.segment_lang.specs.Seen.{content_of};

use crate::blanks::at_end;
use crate::commands::Content;
use crate::lists::read_texts;
use crate::literals::{quoted_of, scalar_of};
use crate::tokens::only_token;
use crate::values::read_elements;
use seg_types::{Kind, ScalarKind};

/// Returns one value of the kind, which all elements get.
#[tactic(auto, unfolding(crate::specs::Arguments::scalar_at))]
fn read_scalar(kind: ScalarKind, count: u32, bytes: &[u8]) -> Option<Content<'_>>
    ensures { option_map content_of result ≡ scalar_at kind count bytes.now }
{
    let token = only_token(bytes)?;
    let value = scalar_of(kind, token)?;
    Some(Content::Scalars { value, count })
}

/// Reads any number of values of the kind.
fn read_vector(kind: ScalarKind, bytes: &[u8]) -> Option<Content<'_>>
    ensures { option_map content_of result ≡ option_map (Elements kind) (numbers_at kind bytes.now) }
{
    let values = read_elements(kind, bytes)?;
    Some(Content::Elements(values))
}

/// Returns one text.
fn read_string(bytes: &[u8]) -> Option<Content<'_>>
    ensures { option_map content_of result ≡ option_map Bytes (option_and_then quoted_of (only_token bytes.now)) }
{
    let token = only_token(bytes)?;
    let text = quoted_of(token)?;
    Some(Content::String(text))
}

/// Reads any number of texts.
fn read_strings(bytes: &[u8]) -> Option<Content<'_>>
    ensures { option_map content_of result ≡ option_map Strings (texts_at bytes.now) }
{
    let texts = read_texts(bytes)?;
    Some(Content::Strings(texts))
}

/// Reads nothing: a map begins without pairs.
fn read_no_pairs(key: ScalarKind, value: ScalarKind, bytes: &[u8]) -> Option<Content<'_>>
    ensures { option_map content_of result ≡ (if at_end bytes.now then Some (NoPairs key value) else None) }
{
    if !at_end(bytes) {
        return None;
    }
    Some(Content::NoPairs { key, value })
}

/// Reads the initial contents of an object of the kind.
pub fn read_content(kind: Kind, count: u32, bytes: &[u8]) -> Option<Content<'_>>
    ensures { option_map content_of result ≡ option_and_then (content kind count) (tokens bytes.now) }
{
    match kind {
        Kind::Scalar(kind) => read_scalar(kind, count, bytes),
        Kind::Vector(kind) => read_vector(kind, bytes),
        Kind::String => read_string(bytes),
        Kind::Strings => read_strings(bytes),
        Kind::Map(key, value) => read_no_pairs(key, value, bytes),
    }
}
