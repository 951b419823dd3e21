//! Numbers in plain decimal.

ghost use Rattle.std.specs.Prelude.{◌≡◌, ◌≤◌, ◌&&◌, Some, None, if◌then◌else◌, nat_le};
ghost use Rattle.std.specs.List.{list_all};
ghost use Rattle.segment_lang.specs.Lexing.{is_digit, is_numeral, number_after, number_of, negative_of, whole_of};
ghost use Rattle.segment_lang.specs.Reading.{number};
ghost use Rattle.segment_lang.specs.Seen.{token_of};

use crate::tokens::Token;
use std::marker::Model;

/// Tells whether a byte is one of `0` to `9`.
pub fn is_digit(byte: u8) -> bool
    ensures { result ≡ is_digit byte }
{
    byte.is_ascii_digit()
}

/// Returns the number that digits spell, from 0 to 18446744073709551615. `None` is a greater number, or a byte that is
/// no digit.
fn value_of_digits(digits: &[u8]) -> Option<u64>
    ensures { result ≡ (if list_all is_digit digits.now && nat_le (number_after 0 digits.now) 18446744073709551615
        then Some (number_after 0 digits.now) else None) }
{
    let mut number: u64 = 0;
    let mut rest = digits;
    'digits: while let [digit, tail @ ..] = rest {
        if !is_digit(*digit) {
            return None;
        }
        let next = 10 * u128::from(number) + u128::from(*digit - b'0');
        if next > u128::from(u64::MAX) {
            return None;
        }
        number = next as u64;
        rest = tail;
    }
    Some(number)
}

/// Returns the number that a word spells: `0`, or digits without a leading zero, at most 18446744073709551615. `None`
/// is any other word.
#[tactic(auto, using(crate::proofs::values::Decimals::long_numeral))]
pub fn number_of(token: &[u8]) -> Option<u64>
    ensures { result ≡ number_of token.now }
{
    match token {
        [] => None,
        [b'0', _, ..] => None,
        _ => value_of_digits(token),
    }
}

/// A whole number from -9223372036854775808 to 18446744073709551615, in as much room as a slice.
#[derive(Drop)]
pub struct WholeNumber {
    magnitude: u64,
    is_negative: bool,
}

impl Model for WholeNumber {
    ghost use Rattle.std.specs.Prelude.{◌≡◌, ◌<◌, ◌-◌, ℤ, pos, negsuc, true, if◌then◌else◌};

    ghost Value = { ℤ };

    ghost view = { λ n. if n.is_negative then negsuc (n.magnitude - 1) else pos n.magnitude };

    ghost invariant = { λ n. n.is_negative ≡ true → 0 < n.magnitude };
}

impl WholeNumber {
    /// Returns the number, as the widest type of whole numbers has it.
    pub fn get(&self) -> i128
        ensures { result ≡ self.now }
    {
        if self.is_negative {
            return -i128::from(self.magnitude);
        }
        i128::from(self.magnitude)
    }
}

/// Returns the whole number that digits after a minus sign spell, from -9223372036854775808 to -1.
fn negative_of(digits: &[u8]) -> Option<WholeNumber>
    ensures { result ≡ negative_of digits.now }
{
    let magnitude = number_of(digits)?;
    if magnitude == 0 || magnitude > 9223372036854775808 {
        return None;
    }
    Some(WholeNumber {
        magnitude,
        is_negative: true,
    })
}

/// Returns the whole number that a word spells, from -9223372036854775808 to 18446744073709551615: a number, or `-` and
/// a number that is not 0.
pub fn whole_of(token: &[u8]) -> Option<WholeNumber>
    ensures { result ≡ whole_of token.now }
{
    match token {
        [b'-', digits @ ..] => negative_of(digits),
        _ => {
            let magnitude = number_of(token)?;
            Some(WholeNumber {
                magnitude,
                is_negative: false,
            })
        }
    }
}

/// Returns the number that a word is.
pub fn number(token: Token<'_>) -> Option<u64>
    ensures { result ≡ number (token_of token.entry) }
{
    match token {
        Token::Bare(token) => number_of(token),
        Token::Text(_) => None,
    }
}
