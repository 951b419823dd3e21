//! The values of an array as a line writes them.

ghost use Rattle.std.specs.Prelude.{◌≡◌, length, option_map, IsTrue};
ghost use Rattle.std.specs.List.{AllByRecursion};
ghost use Rattle.std.specs.Iterator.{YieldsFirst, item_count};
ghost use Rattle.seg_types.specs.Kinds.{is_value};
ghost use Rattle.segment_lang.specs.Arguments.{counted_values, numbers_at, scalars_in, typed_numbers};

use crate::blanks::at_end;
use crate::literals::scalar_of;
use crate::tokens::next_token;
use seg_types::{ScalarKind, ScalarValue};
use std::marker::Model;

/// Values of one kind. The iterator reads them from the line, in order.
#[derive(Drop)]
pub struct LiteralValues<'a> {
    kind: ScalarKind,
    // What of the line is left: each word of it is a value of the kind.
    behind: &'a [u8],
}

impl<'a> Model for LiteralValues<'a> {
    ghost use Rattle.std.specs.Prelude.{IsSome};
    ghost use Rattle.segment_lang.specs.Arguments.{TypedNumbers, numbers_at, values_in};

    ghost Value = { TypedNumbers };

    ghost view = { λ v. values_in v.kind v.behind.now };

    ghost invariant = { λ v. IsSome (numbers_at v.kind v.behind.now) };
}

impl LiteralValues<'_> {
    /// Returns the kind of the values.
    pub fn kind(&self) -> ScalarKind
        ensures kind { result ≡ self.now.kind }
        ensures values { AllByRecursion (λ z. IsTrue (is_value result z)) self.now.numbers }
    {
        self.kind
    }
}

impl Iterator for LiteralValues<'_> {
    type Item = ScalarValue;

    ghost next_gives = { YieldsFirst scalars_in };

    ghost remaining = { item_count scalars_in };

    fn next(&mut self) -> Option<ScalarValue> {
        let (token, rest) = next_token(self.behind)?;
        self.behind = rest;
        scalar_of(self.kind, token)
    }
}

/// Returns the number of values, or `None` if a word is no value of the kind.
fn count_values(kind: ScalarKind, bytes: &[u8]) -> Option<usize>
    ensures { result ≡ option_map length (numbers_at kind bytes.now) }
{
    let mut rest = bytes;
    let mut count = 0;
    'values: while let Some((token, tail)) = next_token(rest) {
        scalar_of(kind, token)?;
        rest = tail;
        count += 1;
    }
    if !at_end(rest) {
        return None;
    }
    Some(count)
}

/// Returns the values of the kind that all words are.
pub fn read_elements(kind: ScalarKind, bytes: &[u8]) -> Option<LiteralValues<'_>>
    ensures { result ≡ option_map (typed_numbers kind) (numbers_at kind bytes.now) }
{
    count_values(kind, bytes)?;
    Some(LiteralValues {
        kind,
        behind: bytes,
    })
}

/// Returns the values of the kind that the words are, if they are as many.
pub fn read_values(kind: ScalarKind, count: u32, bytes: &[u8]) -> Option<LiteralValues<'_>>
    ensures { result ≡ counted_values kind count bytes.now }
{
    if count_values(kind, bytes)? as u64 != u64::from(count) {
        return None;
    }
    Some(LiteralValues {
        kind,
        behind: bytes,
    })
}
