//! The values that C passes and is given.
ghost use Rattle.std.specs.Prelude.{◌≡◌, IfSome, Some, None, MatchResult};
ghost use Rattle.seg_types.specs.declared.kinds.ScalarKind.TheVariants.{I64};
ghost use Rattle.seg_types.specs.Values.{kind_of_scalar, value_of_scalar};
ghost use Rattle.segment_c.specs.Passed.{scalar_in};

use crate::codes::BAD_VALUE;
use seg_types::ScalarValue;

/// A scalar with its kind: 1 to 5 for `bool`, `u8`, `i32`, `i64` and `u64`. The signed kinds have it in `number`, the
/// others in `natural`, where 0 is false.
#[repr(C)]
#[derive(Clone, Copy)]
pub struct CScalar {
    /// The code of the kind.
    pub kind: u32,
    /// The value of a signed kind.
    pub number: i64,
    /// The value of an unsigned kind or of a truth.
    pub natural: u64,
}

impl CScalar {
    /// Returns the scalar that is passed.
    ///
    /// # Errors
    ///
    /// The code by which it is refused.
    #[tactic(auto, unfolding(crate::specs::Passed::scalar_in, seg_types::specs::Kinds::scalar_of_code))]
    pub fn scalar(&self) -> Result<ScalarValue, u32>
        ensures { MatchResult result (λ value.
            scalar_in self.now ≡ Some (kind_of_scalar value, value_of_scalar value)) (λ code. (code ≡ 20)
            × (scalar_in self.now ≡ None)) }
    {
        let value = match self.kind {
            1 => match self.natural {
                0 => Some(ScalarValue::Bool(false)),
                1 => Some(ScalarValue::Bool(true)),
                _ => None,
            },
            2 => u8::try_from(self.natural).ok().map(ScalarValue::U8),
            3 => i32::try_from(self.number).ok().map(ScalarValue::I32),
            4 => Some(ScalarValue::I64(self.number)),
            5 => Some(ScalarValue::U64(self.natural)),
            _ => None,
        };
        value.ok_or(BAD_VALUE)
    }

    /// Returns the number if the scalar is an `i64`.
    #[inline(always)]
    #[tactic(auto, unfolding(crate::specs::Passed::scalar_in, seg_types::specs::Kinds::scalar_of_code))]
    pub fn as_i64(&self) -> Option<i64>
        ensures { IfSome result (λ number. scalar_in self.now ≡ Some (I64, number)) }
    {
        match self.kind {
            4 => Some(self.number),
            _ => None,
        }
    }

    /// Returns the scalar as it is given.
    #[tactic(auto, unfolding(crate::specs::Passed::scalar_in, seg_types::specs::Kinds::scalar_of_code))]
    pub fn of(value: ScalarValue) -> CScalar
        ensures { scalar_in result ≡ Some (kind_of_scalar value, value_of_scalar value) }
    {
        if let ScalarValue::I64(number) = value {
            return CScalar::new(4, number, 0);
        }
        match value {
            ScalarValue::Bool(truth) => CScalar::new(1, 0, u64::from(truth)),
            ScalarValue::U8(number) => CScalar::new(2, 0, u64::from(number)),
            ScalarValue::I32(number) => CScalar::new(3, i64::from(number), 0),
            ScalarValue::I64(number) => CScalar::new(4, number, 0),
            ScalarValue::U64(number) => CScalar::new(5, 0, number),
        }
    }

    /// Returns one of a kind, of which one field or the other has the value.
    fn new(kind: u32, number: i64, natural: u64) -> CScalar
        ensures kind { result.kind ≡ kind }
        ensures number { result.number ≡ number }
        ensures natural { result.natural ≡ natural }
    {
        CScalar {
            kind,
            number,
            natural,
        }
    }
}
