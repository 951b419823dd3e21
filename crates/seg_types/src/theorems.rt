//! Laws of all values. The contract of each function is a law, and its body does only what the law is about.
ghost use Rattle.std.specs.Prelude.{◌≡◌, ◌↔◌, false, true, length, IsTrue, MatchOption};
ghost use Rattle.byteorder.specs.Endian.{little_number};
ghost use Rattle.seg_types.specs.Kinds.{AllSpellOne, is_spelling, size_of, value_of};

use crate::plain::Plain;
use crate::scalars::Scalar;

/// States that each value has one encoding, with the number of bytes of its kind, and that no other bytes encode it.
pub fn values_spell_one()
    ensures { AllSpellOne }
{}

/// Writes `value` to the first `SIZE` bytes and reads it back: the result is the value.
pub fn written_is_read<T: Plain>(value: T, bytes: &mut [u8]) -> Option<T>
    requires { length bytes.old ≡ T.SIZE }
    ensures output { bytes.new ≡ T.spelling value }
    ensures read { result ≡ Some value }
{
    value.write(bytes);
    T::read(bytes)
}

/// Reads a `T` from `SIZE` bytes. The result is the whole number of its kind that they encode, or `None` if they encode
/// none: a law of `T::read`.
pub fn scalar_is_number<T: Scalar>(from: &[u8]) -> Option<T>
    requires { length from.now ≡ T.SIZE }
    ensures { MatchOption result (is_spelling T.kind from.now ≡ false) (λ x. (is_spelling T.kind from.now ≡ true)
        × (T.whole x ≡ value_of T.kind (little_number (size_of T.kind) from.now))) }
{
    T::read(from)
}

/// States that the value satisfies `is_value`. A call that fails does not state this.
pub fn holds_value<T: Plain>(value: T)
    ensures { T.is_value value ≡ true }
{
    let _ = value.precedes(value);
}

/// Returns true if neither value precedes the other. This holds only for equal values.
pub fn unordered_are_same<T: Plain>(one: T, other: T) -> bool
    ensures { IsTrue result ↔ (one ≡ other) }
{
    !one.precedes(other) && !other.precedes(one)
}
