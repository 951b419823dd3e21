//! Scalars that stand one after another in an image.
ghost use Rattle.std.specs.Prelude.{◌≡◌, ◌++◌, IfOk, IfSome, map, length};
ghost use Rattle.seg_types.specs.Kinds.{spelling};
ghost use Rattle.seg_vector.specs.Vector.{spelled};

use seg_types::Scalar;
use std::alloc::{AllocError, Global};

/// Returns the `count` values that the bytes encode one after another, or `None` if they do not.
#[tactic(auto, using(crate::proofs::Lists::scalars_more))]
pub(crate) fn scalars_in<T: Scalar>(
    alloc: Global,
    bytes: &[u8],
    count: u64,
) -> Result<Option<Vec<T>>, AllocError>
    ensures bytes { IfOk result (λ found. IfSome found (λ scalars.
        bytes.now ≡ spelled T.kind (map T.whole scalars.items))) }
    ensures count { IfOk result (λ found. IfSome found (λ scalars. length scalars.items ≡ count)) }
{
    let mut scalars = Vec::new(alloc);
    let mut left = bytes;
    'values: for _ in 0..count {
        let Some((value, rest)) = next_scalar::<T>(left) else {
            return Ok(None);
        };
        scalars.push(value)?;
        left = rest;
    }
    if left.is_empty() {
        Ok(Some(scalars))
    } else {
        Ok(None)
    }
}

/// Returns the value that bytes begin with, and the bytes behind it, if they begin with one.
fn next_scalar<T: Scalar>(bytes: &[u8]) -> Option<(T, &[u8])>
    ensures { IfSome result (λ next. bytes.now ≡ spelling T.kind (T.whole next.0) ++ next.1.now) }
{
    let each = T::SIZE as usize;
    if bytes.len() < each {
        return None;
    }
    let (first, rest) = bytes.split_at(each);
    let value = T::read(first)?;
    Some((value, rest))
}
