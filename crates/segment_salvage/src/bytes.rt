//! Bytes, words and links of an image, as far as the image has them.
ghost use Rattle.std.specs.Prelude.{◌≡◌, ◌+◌, ◌≤◌, IfSome, length};
ghost use Rattle.raw_region.specs.Memory.{bytes_of, part, word_at};
ghost use Rattle.offset_link.specs.Link.{link_at};

use raw_region::word_in;

/// The word of a link that leads nowhere.
const NULL: u64 = 1;

/// Returns the `len` bytes at `at`, if the image has them.
pub(crate) fn part(image: &[u8], at: u64, len: u64) -> Option<&[u8]>
    ensures bytes { IfSome result (λ bytes. bytes.now ≡ part image.now at len) }
    ensures len { IfSome result (λ bytes. length bytes.now ≡ len) }
{
    let end = at.checked_add(len)?;
    if end > image.len() as u64 {
        return None;
    }
    Some(&image[at as usize..end as usize])
}

/// Returns the word at `at`, if the image has it.
pub(crate) fn word(image: &[u8], at: u64) -> Option<u64>
    ensures { IfSome result (λ word. word ≡ word_at (bytes_of image.now) at) }
{
    let end = at.checked_add(8)?;
    if end > image.len() as u64 {
        return None;
    }
    Some(word_in(image, at as usize))
}

/// Returns the target of the link at `at`, which can be null, if the image has the link.
pub(crate) fn link(image: &[u8], at: u64) -> Option<Option<u64>>
    ensures { IfSome result (λ target. target ≡ link_at (bytes_of image.now) at) }
{
    let word = word(image, at)?;
    if word == NULL {
        return Some(None);
    }
    Some(Some(at.wrapping_add(word)))
}
