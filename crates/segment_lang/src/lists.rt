//! Values and texts as a line lists them, any number.

ghost use Rattle.std.specs.Prelude.{◌≡◌, is_some};
ghost use Rattle.std.specs.Iterator.{YieldsFirst, item_count};
ghost use Rattle.segment_lang.specs.Arguments.{literals_at, texts_at, texts_held};
ghost use Rattle.segment_lang.specs.Seen.{literals_held};

use crate::blanks::at_end;
use crate::literals::{Literal, literal_of, quoted_of};
use crate::tokens::{Quoted, next_token};
use std::marker::Model;

/// Values of any form. The iterator reads them from the line, in order.
#[derive(Drop)]
pub struct Literals<'a> {
    // What of the line is left: each word of it is a value.
    behind: &'a [u8],
}

impl<'a> Model for Literals<'a> {
    ghost use Rattle.std.specs.Prelude.{List, IsSome};
    ghost use Rattle.seg_types.specs.Commands.{Literal};
    ghost use Rattle.segment_lang.specs.Arguments.{literals_at, literals_in};

    ghost Value = { List Literal };

    ghost view = { λ v. literals_in v.behind.now };

    ghost invariant = { λ v. IsSome (literals_at v.behind.now) };
}

impl<'a> Iterator for Literals<'a> {
    type Item = Literal<'a>;

    ghost next_gives = { YieldsFirst literals_held };

    ghost remaining = { item_count literals_held };

    fn next(&mut self) -> Option<Literal<'a>> {
        let (token, rest) = next_token(self.behind)?;
        self.behind = rest;
        literal_of(token)
    }
}

/// Texts. The iterator reads them from the line, in order.
#[derive(Drop)]
pub struct TextLiterals<'a> {
    // What of the line is left: each word of it is a text.
    behind: &'a [u8],
}

impl<'a> Model for TextLiterals<'a> {
    ghost use Rattle.std.specs.Prelude.{List, ℕ, IsSome};
    ghost use Rattle.segment_lang.specs.Arguments.{texts_at, texts_in};

    ghost Value = { List (List ℕ) };

    ghost view = { λ v. texts_in v.behind.now };

    ghost invariant = { λ v. IsSome (texts_at v.behind.now) };
}

impl<'a> Iterator for TextLiterals<'a> {
    type Item = Quoted<'a>;

    ghost next_gives = { YieldsFirst texts_held };

    ghost remaining = { item_count texts_held };

    fn next(&mut self) -> Option<Quoted<'a>> {
        let (token, rest) = next_token(self.behind)?;
        self.behind = rest;
        quoted_of(token)
    }
}

/// Tells whether each word is a value.
fn are_literals(bytes: &[u8]) -> bool
    ensures { result ≡ is_some (literals_at bytes.now) }
{
    let mut rest = bytes;
    'literals: while let Some((token, tail)) = next_token(rest) {
        if literal_of(token).is_none() {
            return false;
        }
        rest = tail;
    }
    at_end(rest)
}

/// Returns the values that all words are.
pub fn read_literals(bytes: &[u8]) -> Option<Literals<'_>>
    ensures { result ≡ literals_at bytes.now }
{
    if !are_literals(bytes) {
        return None;
    }
    Some(Literals { behind: bytes })
}

/// Tells whether each word is a text.
fn are_texts(bytes: &[u8]) -> bool
    ensures { result ≡ is_some (texts_at bytes.now) }
{
    let mut rest = bytes;
    'texts: while let Some((token, tail)) = next_token(rest) {
        if quoted_of(token).is_none() {
            return false;
        }
        rest = tail;
    }
    at_end(rest)
}

/// Returns the texts that all words are.
pub fn read_texts(bytes: &[u8]) -> Option<TextLiterals<'_>>
    ensures { result ≡ texts_at bytes.now }
{
    if !are_texts(bytes) {
        return None;
    }
    Some(TextLiterals { behind: bytes })
}
