//! The texts of a vector of strings in an image.
ghost use Rattle.std.specs.Prelude.{◌≡◌, IfOk, IfSome, length, map};
ghost use Rattle.std.specs.List.{AllByRecursion};
ghost use Rattle.segment_salvage.specs.Standing.{Stands};
ghost use Rattle.segment_salvage.specs.Work.{ReadsValues, ReadsBytes};

use crate::allowance::Allowance;
use crate::bytes::{link, part, word};
use crate::storage::is_storage;
use std::alloc::{AllocError, Global};

/// The length of an element: a link and a length.
const ELEMENT: u64 = 16;

/// Returns the `count` texts that the elements from `to` on lead to, or `None` if one is not right or has more bytes
/// than may still be read.
pub(crate) fn texts_at<'a>(
    alloc: Global,
    image: &'a [u8],
    to: u64,
    count: u64,
    allowance: &mut Allowance,
) -> Result<Option<Vec<&'a [u8]>>, AllocError>
    ensures contents { IfOk result (λ found. IfSome found (λ texts.
        AllByRecursion (Stands image.now) (map (λ text. text.now) texts.items))) }
    ensures steps_upper { ReadsValues allowance.old allowance.new }
{
    let mut texts = Vec::new(alloc);
    'texts: for index in 0..count {
        let at = to.saturating_add(index.saturating_mul(ELEMENT));
        let Some(text) = text_at(image, at, allowance) else {
            return Ok(None);
        };
        texts.push(text)?;
    }
    Ok(Some(texts))
}

/// Returns the text of the element at `at`, if it is right and as many bytes may still be read.
fn text_at<'a>(image: &'a [u8], at: u64, allowance: &mut Allowance) -> Option<&'a [u8]>
    ensures text { IfSome result (λ text. Stands image.now text.now) }
    ensures steps { IfSome result (λ text. ReadsBytes allowance.old allowance.new (length text.now)) }
    ensures steps_upper { ReadsValues allowance.old allowance.new }
{
    let target = link(image, at)?;
    let len = word(image, at.checked_add(8)?)?;
    match target {
        None => part(image, 0, if len == 0 { 0 } else { u64::MAX }),
        Some(to) => {
            if len == 0 || !is_storage(image, to, len) {
                return None;
            }
            allowance.take(len)?;
            part(image, to, len)
        }
    }
}
