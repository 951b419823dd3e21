//! Values as callers write them. They are converted to a kind that is known only at run time.
ghost use Rattle.std.specs.Prelude.{◌≡◌, MatchOption, ⊤};
ghost use Rattle.seg_types.specs.Commands.{Literal, Quoted, Boolean, Integer, value_of_literal};
ghost use Rattle.seg_types.specs.Literals.{ConvertsPair, IsValueOf, pair_values};
ghost use Rattle.seg_types.specs.Values.{kind_of_scalar};
ghost use Rattle.seg_types.specs.Written.{NoText, literal_seen};

use crate::kinds::ScalarKind;
use crate::refusals::Refusal;
use crate::values::ScalarValue;

/// A value as a caller writes it, before its kind is known: a truth value, a whole number or a text.
pub trait WrittenValue {
    /// A buffer for the text.
    type Scratch;

    // The literal of the value.
    ghost literal: { Self → Literal };

    // Whether the buffer is long enough for the text.
    ghost fits: { Self → Type 0 };

    /// Converts the value to a kind.
    ///
    /// # Errors
    ///
    /// `WrongKind` if it has another form, `OutOfRange` if it is a number outside the range of the kind.
    fn value_of(&self, kind: ScalarKind) -> Result<ScalarValue, Refusal>
        ensures { IsValueOf kind (value_of_literal kind (literal self.now)) result };

    /// Returns the text, or `None` if the value is no text. It can use `scratch` as a buffer.
    fn text<'r>(&'r self, scratch: &'r mut Self::Scratch) -> Option<&'r [u8]>
        requires { fits self.now }
        ensures { MatchOption result (NoText (literal self.now)) (λ text. literal self.now ≡ Quoted text.now) };
}

/// A value of one kind, written for another kind.
impl WrittenValue for ScalarValue {
    type Scratch = ();

    ghost literal = { literal_seen };

    ghost fits = { λ v. ⊤ };

    fn value_of(&self, kind: ScalarKind) -> Result<ScalarValue, Refusal> {
        if self.kind() == kind {
            return own_value(*self);
        }
        match *self {
            ScalarValue::Bool(truth) => truth_as(kind, truth),
            ScalarValue::U8(number) => whole_as(kind, i128::from(number)),
            ScalarValue::I32(number) => whole_as(kind, i128::from(number)),
            ScalarValue::I64(number) => whole_as(kind, i128::from(number)),
            ScalarValue::U64(number) => whole_as(kind, i128::from(number)),
        }
    }

    fn text<'r>(&'r self, _scratch: &'r mut ()) -> Option<&'r [u8]> {
        None
    }
}

/// Returns the value unchanged.
fn own_value(value: ScalarValue) -> Result<ScalarValue, Refusal>
    ensures { IsValueOf (kind_of_scalar value) (value_of_literal (kind_of_scalar value) (literal_seen value)) result }
{
    match value {
        ScalarValue::Bool(truth) => Ok(ScalarValue::Bool(truth)),
        ScalarValue::U8(number) => Ok(ScalarValue::U8(number)),
        ScalarValue::I32(number) => Ok(ScalarValue::I32(number)),
        ScalarValue::I64(number) => Ok(ScalarValue::I64(number)),
        ScalarValue::U64(number) => Ok(ScalarValue::U64(number)),
    }
}

/// Converts a truth value to a kind.
///
/// # Errors
///
/// `WrongKind` unless the kind is `Bool`.
pub fn truth_as(kind: ScalarKind, truth: bool) -> Result<ScalarValue, Refusal>
    ensures { IsValueOf kind (value_of_literal kind (Boolean truth)) result }
{
    match kind {
        ScalarKind::Bool => Ok(ScalarValue::Bool(truth)),
        _ => Err(Refusal::WrongKind),
    }
}

/// Converts a whole number to a kind.
///
/// # Errors
///
/// `WrongKind` if the kind is `Bool`, `OutOfRange` if the number is outside the range of the kind.
pub fn whole_as(kind: ScalarKind, number: i128) -> Result<ScalarValue, Refusal>
    ensures { IsValueOf kind (value_of_literal kind (Integer number)) result }
{
    match kind {
        ScalarKind::Bool => Err(Refusal::WrongKind),
        _ => ScalarValue::of_number(kind, number).ok_or(Refusal::OutOfRange),
    }
}

/// Converts a key and a value to a pair of two kinds.
///
/// # Errors
///
/// `WrongKind` if one has another form; otherwise `OutOfRange` if one is a number outside the range of its kind.
pub fn pair_of<A: WrittenValue, B: WrittenValue>(
    keys: ScalarKind,
    values: ScalarKind,
    at: &A,
    value: &B,
) -> Result<(ScalarValue, ScalarValue), Refusal>
    ensures { ConvertsPair keys values (pair_values keys values (A.literal at.now) (B.literal value.now)) result }
{
    match (at.value_of(keys), value.value_of(values)) {
        (Ok(new_key), Ok(new_value)) => Ok((new_key, new_value)),
        (Err(Refusal::WrongKind), _) | (_, Err(Refusal::WrongKind)) => Err(Refusal::WrongKind),
        (Err(why), _) | (_, Err(why)) => Err(why),
    }
}
