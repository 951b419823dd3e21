//! Keys and handles as a line writes them.

ghost use Rattle.std.specs.Prelude.{◌≡◌, ◌&&◌, option_map, Some, None, if◌then◌else◌};
ghost use Rattle.raw_region.specs.Format.{current};
ghost use Rattle.seg_types.specs.Names.{is_name};
ghost use Rattle.seg_types.specs.Keys.{index_key_seen, key_seen, name_seen, new_key_seen};
ghost use Rattle.segment_lang.specs.Lexing.{is_bare_name};
ghost use Rattle.segment_lang.specs.Language.{whole_language};
ghost use Rattle.segment_lang.specs.Reading.{agrees, for_kind, key_of, name_key, new_key};
ghost use Rattle.segment_lang.specs.Arguments.{handle_of};
ghost use Rattle.segment_lang.specs.Seen.{token_of};

use crate::buffer::LineBuffer;
use crate::kinds::kind_named;
use crate::literals::is_token;
use crate::numbers::number_of;
use crate::tokens::Token;
use seg_types::{Handle, IndexKey, Key, Kind, Name, NewKey};

/// Returns the name that a bare word is.
fn bare_name(token: &[u8]) -> Option<Name<'_>>
    ensures { option_map name_seen result
        ≡ (if is_bare_name token.now && is_name current token.now then Some token.now else None) }
{
    Name::bare(token)
}

/// Returns the entry of an index: a name, or `@` and a kind.
#[inline(always)]
pub fn index_key<'a>(token: Token<'a>, scratch: &'a mut LineBuffer) -> Option<IndexKey<'a>>
    ensures { option_map index_key_seen result ≡ name_key (whole_language current) (token_of token.entry) }
{
    match token {
        Token::Bare([b'@', kind @ ..]) => Some(IndexKey::Unique(kind_named(kind)?)),
        Token::Bare(name) => Some(IndexKey::Name(bare_name(name)?)),
        Token::Text(text) => Some(IndexKey::Name(text.to_name(scratch)?)),
    }
}

/// Tells whether an entry may hold an object of the kind: one of a unique kind holds that kind alone.
fn agrees(kind: Kind, key: &IndexKey<'_>) -> bool
    ensures { result ≡ agrees kind (index_key_seen key.now) }
{
    match key {
        IndexKey::Unique(unique) => kind.code() == unique.code(),
        IndexKey::Name(_) => true,
    }
}

/// Returns the entry that a word is, if it may hold an object of the kind.
pub fn index_key_for<'a>(
    kind: Kind,
    token: Token<'a>,
    scratch: &'a mut LineBuffer,
) -> Option<IndexKey<'a>>
    ensures { option_map index_key_seen result
        ≡ for_kind kind (name_key (whole_language current) (token_of token.entry)) }
{
    let key = index_key(token, scratch)?;
    if !agrees(kind, &key) {
        return None;
    }
    Some(key)
}

/// Returns the key that a new object of the kind gets: an entry, or `-`.
pub fn new_key_for<'a>(
    kind: Kind,
    token: Token<'a>,
    scratch: &'a mut LineBuffer,
) -> Option<NewKey<'a>>
    ensures { option_map new_key_seen result ≡ for_kind kind (new_key (whole_language current) (token_of token.entry)) }
{
    match token {
        Token::Bare(token) if is_token(token, b"-") => Some(NewKey::Anonymous),
        _ => Some(index_key_for(kind, token, scratch)?.into_new_key()),
    }
}

/// Returns the handle after `#`.
pub fn handle_of(token: Token<'_>) -> Option<Handle>
    ensures { result ≡ handle_of (token_of token.entry) }
{
    match token {
        Token::Bare([b'#', digits @ ..]) => number_of(digits),
        _ => None,
    }
}

/// Returns the key of an object: its entry, or `#` and its handle.
pub fn key_of<'a>(token: Token<'a>, scratch: &'a mut LineBuffer) -> Option<Key<'a>>
    ensures { option_map key_seen result ≡ key_of (whole_language current) (token_of token.entry) }
{
    match token {
        Token::Bare([b'#', digits @ ..]) => Some(Key::Handle(number_of(digits)?)),
        _ => Some(index_key(token, scratch)?.into_key()),
    }
}
