//! The rows of values that C passes.
ghost use Rattle.std.specs.Prelude.{◌≡◌, ◌≤◌, MatchResult};
ghost use Rattle.segment_c.specs.Passed.{many_of, slice_wrong, scalar_kind_in};

use crate::codes::{BAD_KIND, NULL_SLICE};
use seg_types::ScalarKind;

/// Scalars for an array, a vector or a range of one: those of the slice of the kind, 1 to 5. The other slices are
/// empty. Kind 0 stands for a null slice.
#[repr(C)]
pub struct CScalars<'a> {
    pub kind: u32,
    pub truths: &'a [bool],
    pub bytes: &'a [u8],
    pub i32s: &'a [i32],
    pub i64s: &'a [i64],
    pub u64s: &'a [u64],
}

/// What is made of the slice of a row that a kind means.
macro_rules! on_slice {
    ($values:expr, $kind:expr, $slice:ident => $call:expr) => {
        match $kind {
            ScalarKind::Bool => {
                let $slice = $values.truths;
                $call
            }
            ScalarKind::U8 => {
                let $slice = $values.bytes;
                $call
            }
            ScalarKind::I32 => {
                let $slice = $values.i32s;
                $call
            }
            ScalarKind::I64 => {
                let $slice = $values.i64s;
                $call
            }
            ScalarKind::U64 => {
                let $slice = $values.u64s;
                $call
            }
        }
    };
}

pub(crate) use on_slice;

impl CScalars<'_> {
    /// Returns the kind of the one slice that is not null.
    ///
    /// # Errors
    ///
    /// The code by which the row is refused.
    pub fn scalar_kind(&self) -> Result<ScalarKind, u32>
        ensures { MatchResult result (λ kind. (slice_wrong self.now ≡ 0)
            × (kind ≡ scalar_kind_in self.now.kind)) (λ code. (code ≡ slice_wrong self.now) × (1 ≤ code)) }
    {
        if self.kind == 0 {
            return Err(NULL_SLICE);
        }
        ScalarKind::from_code(self.kind).ok_or(BAD_KIND)
    }

    /// Returns how many values the slice of a kind has.
    pub fn count(&self, kind: ScalarKind) -> usize
        ensures { result ≡ many_of self.now kind }
    {
        on_slice!(self, kind, slice => slice.len())
    }
}
