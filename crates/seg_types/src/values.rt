//! Single values.
ghost use Rattle.std.specs.Prelude.{◌≡◌, length, true, Some, None, if◌then◌else◌};
ghost use Rattle.seg_types.specs.declared.values.ScalarValue.TheVariants as value;
ghost use Rattle.seg_types.specs.Kinds.{is_value, size_of, spelling};
ghost use Rattle.seg_types.specs.Values.{SpelledBy, kind_of_scalar, scalar_of, value_of_scalar};

use crate::kinds::ScalarKind;
use crate::plain::Plain;
use crate::theorems::scalar_is_number;

/// A value with its kind.
#[derive(Clone, Copy, Debug, PartialEq, Eq, Hash)]
pub enum ScalarValue {
    /// `false` or `true`.
    Bool(bool),
    /// A whole number from 0 to 255.
    U8(u8),
    /// A whole number from -2147483648 to 2147483647.
    I32(i32),
    /// A whole number from -9223372036854775808 to 9223372036854775807.
    I64(i64),
    /// A whole number from 0 to 18446744073709551615.
    U64(u64),
}

impl ScalarValue {
    /// Returns the kind.
    pub fn kind(self) -> ScalarKind
        ensures { result ≡ kind_of_scalar self }
    {
        match self {
            ScalarValue::Bool(_) => ScalarKind::Bool,
            ScalarValue::U8(_) => ScalarKind::U8,
            ScalarValue::I32(_) => ScalarKind::I32,
            ScalarValue::I64(_) => ScalarKind::I64,
            ScalarValue::U64(_) => ScalarKind::U64,
        }
    }

    /// Returns the value as a whole number: 0 for `false` and 1 for `true`.
    pub fn number(self) -> i128
        ensures number { result ≡ value_of_scalar self }
        ensures in_range { is_value (kind_of_scalar self) result ≡ true }
    {
        crate::by_value!(self, it => i128::from(it))
    }

    /// Returns the number as a value of the kind, or `None` if it is outside the range of the kind.
    pub fn of_number(kind: ScalarKind, number: i128) -> Option<ScalarValue>
        ensures { result ≡ (if is_value kind number then Some (scalar_of kind number) else None) }
    {
        match kind {
            ScalarKind::Bool => match number {
                0 => Some(ScalarValue::Bool(false)),
                1 => Some(ScalarValue::Bool(true)),
                _ => None,
            },
            ScalarKind::U8 => u8::try_from(number).ok().map(ScalarValue::U8),
            ScalarKind::I32 => i32::try_from(number).ok().map(ScalarValue::I32),
            ScalarKind::I64 => i64::try_from(number).ok().map(ScalarValue::I64),
            ScalarKind::U64 => u64::try_from(number).ok().map(ScalarValue::U64),
        }
    }

    /// Returns the value of the kind that `bytes`, as long as a value, encode, or `None` if they encode none.
    pub fn read(kind: ScalarKind, bytes: &[u8]) -> Option<ScalarValue>
        requires { length bytes.now ≡ size_of kind }
        ensures { SpelledBy kind bytes.now result }
    {
        match kind {
            ScalarKind::Bool => scalar_is_number::<bool>(bytes).map(ScalarValue::Bool),
            ScalarKind::U8 => scalar_is_number::<u8>(bytes).map(ScalarValue::U8),
            ScalarKind::I32 => scalar_is_number::<i32>(bytes).map(ScalarValue::I32),
            ScalarKind::I64 => scalar_is_number::<i64>(bytes).map(ScalarValue::I64),
            ScalarKind::U64 => scalar_is_number::<u64>(bytes).map(ScalarValue::U64),
        }
    }

    /// Encodes the value into `to`, which has as many bytes as a value of the kind. It writes all of them.
    pub fn write(self, to: &mut [u8])
        requires { length to.old ≡ size_of (kind_of_scalar self) }
        ensures { to.new ≡ spelling (kind_of_scalar self) (value_of_scalar self) }
    {
        crate::by_value!(self, it => it.write(to))
    }
}

impl From<bool> for ScalarValue {
    ghost from_gives = { λ truth made. made ≡ value.Bool truth };

    fn from(truth: bool) -> ScalarValue {
        ScalarValue::Bool(truth)
    }
}

impl From<u8> for ScalarValue {
    ghost from_gives = { λ number made. made ≡ value.U8 number };

    fn from(number: u8) -> ScalarValue {
        ScalarValue::U8(number)
    }
}

impl From<i32> for ScalarValue {
    ghost from_gives = { λ number made. made ≡ value.I32 number };

    fn from(number: i32) -> ScalarValue {
        ScalarValue::I32(number)
    }
}

impl From<i64> for ScalarValue {
    ghost from_gives = { λ number made. made ≡ value.I64 number };

    fn from(number: i64) -> ScalarValue {
        ScalarValue::I64(number)
    }
}

impl From<u64> for ScalarValue {
    ghost from_gives = { λ number made. made ≡ value.U64 number };

    fn from(number: u64) -> ScalarValue {
        ScalarValue::U64(number)
    }
}
