//! The storage of vectors and strings in an image.
ghost use Rattle.std.specs.Prelude.{◌≡◌, ◌*◌, [], IfSome, length};
ghost use Rattle.segment_salvage.specs.Standing.{HasPart, HasContainer};
ghost use Rattle.segment_salvage.specs.Work.{ReadsValues, ReadsBytes};

use crate::allowance::Allowance;
use crate::bytes::{link, part, word};

/// The low bits of the tag of a block of storage: in use, black, and of the role of storage.
const STORAGE: u64 = 9;

/// The length of a tag.
const TAG_LEN: u64 = 16;

/// The elements of a vector or a string.
#[derive(Clone, Copy)]
pub(crate) struct Stored<'a> {
    /// The number of elements.
    pub len: u64,
    /// Where they begin.
    pub to: u64,
    /// Their bytes.
    pub bytes: &'a [u8],
}

/// Returns the elements of the container at `at`, each of which has `each` bytes, if its storage is right and as many
/// bytes may still be read.
pub(crate) fn stored_at<'a>(
    image: &'a [u8],
    at: u64,
    each: u64,
    allowance: &mut Allowance,
) -> Option<Stored<'a>>
    ensures content { IfSome result (λ stored. HasContainer image.now at stored.len stored.bytes.now) }
    ensures size { IfSome result (λ stored. length stored.bytes.now ≡ each * stored.len) }
    ensures steps { IfSome result (λ stored. ReadsBytes allowance.old allowance.new (length stored.bytes.now)) }
    ensures steps_upper { ReadsValues allowance.old allowance.new }
{
    let target = link(image, at)?;
    let len = word(image, at.checked_add(8)?)?;
    let capacity = word(image, at.checked_add(16)?)?;
    if len > capacity {
        return None;
    }
    match target {
        None => empty_at(len, capacity),
        Some(to) => {
            allowance.take(each.checked_mul(len)?)?;
            filled_at(image, to, len, each, capacity)
        }
    }
}

/// Returns no elements, if there are none and no room for any.
fn empty_at<'a>(len: u64, capacity: u64) -> Option<Stored<'a>>
    ensures len { IfSome result (λ stored. (stored.len ≡ len) × (stored.len ≡ 0)) }
    ensures bytes { IfSome result (λ stored. stored.bytes.now ≡ []) }
{
    if len > 0 || capacity > 0 {
        return None;
    }
    let bytes = &[];
    Some(Stored { len, to: 0, bytes })
}

/// Returns the elements at `to`, if a block of storage is there with room for its capacity.
fn filled_at(image: &[u8], to: u64, len: u64, each: u64, capacity: u64) -> Option<Stored<'_>>
    ensures len { IfSome result (λ stored. stored.len ≡ len) }
    ensures bytes { IfSome result (λ stored. HasPart image.now to stored.bytes.now) }
    ensures size { IfSome result (λ stored. length stored.bytes.now ≡ each * len) }
{
    if !is_storage(image, to, each.checked_mul(capacity)?) {
        return None;
    }
    let bytes = part(image, to, each.checked_mul(len)?)?;
    Some(Stored { len, to, bytes })
}

/// Tells whether the tag before `to` is that of a block of storage with room for `len` bytes.
pub(crate) fn is_storage(image: &[u8], to: u64, len: u64) -> bool {
    let Some(tag_at) = to.checked_sub(8) else {
        return false;
    };
    match word(image, tag_at) {
        Some(tag) => {
            tag % 16 == STORAGE && tag / 16 * 16 >= TAG_LEN && tag / 16 * 16 - TAG_LEN >= len
        }
        None => false,
    }
}
