//! The first words of an image: magic, version and size.
ghost use Rattle.std.specs.Prelude.{◌≡◌, ◌≤◌, IfErr, codes, false, length};
ghost use Rattle.raw_region.specs.Format.{current};
ghost use Rattle.image_check.specs.Causes.{class_in};
ghost use Rattle.image_check.specs.EarlyTests.{has_magic};
ghost use Rattle.image_check.specs.Formats.{format_in, format_of};
ghost use Rattle.image_check.specs.HeaderOffsets.{IsFirstOther, IsFrontOffset};
ghost use Rattle.image_check.specs.Reading.{front_of};

use crate::classes::ImageClass;
use crate::verdict::{Offset, Verdict};
use crate::versions::{AcceptedVersions, version_in};
use block_tags::{HEADER_LEN, TAG_LEN, is_legal_size};
use raw_region::word_in;
use segment_manager::layout::{FORMAT_AT, MAGIC, MAGIC_AT, SIZE_AT};

/// The first bytes of an image.
const SPELLED: &[u8; 8] = b"MSEGFILE";

/// The number of bytes at the front of an image that hold its magic, its version and its size.
pub const FRONT: usize = SIZE_AT as usize + 8;

/// The least size of an image in bytes.
pub const LEAST: usize = (HEADER_LEN + TAG_LEN) as usize;

/// Returns the size in bytes of an image that begins with these bytes. It reads the first [`FRONT`] of them. The size
/// is 144, or a multiple of 16 from 176 to 2^30. The front alone does not show that the rest is an image.
///
/// # Errors
///
/// `BadMagic` if the bytes do not begin with the magic, then `UnsupportedVersion` for any version but the current one,
/// then `BadSize` for a size that is not legal.
pub fn size_in(front: &[u8]) -> Result<u64, ImageClass>
    requires { 24 ≤ length front.now }
    ensures { result ≡ front_of current front.now }
{
    match judge_front(AcceptedVersions::Current, front) {
        Ok(size) => Ok(size),
        Err(verdict) => Err(verdict.class),
    }
}

/// Returns the size in bytes of an image, of any of the three formats, that begins with these bytes.
///
/// # Errors
///
/// As [`size_in`], but `UnsupportedVersion` only for a version above the current one.
pub fn size_in_any(front: &[u8]) -> Result<u64, ImageClass>
    requires { 24 ≤ length front.now }
    ensures { result ≡ front_of (format_of front.now) front.now }
{
    match judge_front(AcceptedVersions::All, front) {
        Ok(size) => Ok(size),
        Err(verdict) => Err(verdict.class),
    }
}

/// Returns the size in the front of an image of an accepted version.
///
/// # Errors
///
/// As [`size_in`], with the offset that shows the class: the first byte that differs from the magic, the version, or
/// the size.
pub(crate) fn judge_front(versions: AcceptedVersions, front: &[u8]) -> Result<u64, Verdict>
    requires { 24 ≤ length front.now }
    ensures text { class_in result ≡ front_of (format_in versions front.now) front.now }
    ensures output { IfErr result (λ verdict. IsFrontOffset front.now verdict.class verdict.place) }
{
    if word_in(front, MAGIC_AT as usize) != MAGIC {
        let class = ImageClass::BadMagic;
        let place = other_offset(front);
        return Err(Verdict { class, place });
    }
    if !versions.has(version_in(front)) {
        let class = ImageClass::UnsupportedVersion;
        let place = FORMAT_AT;
        return Err(Verdict { class, place });
    }
    let size = word_in(front, SIZE_AT as usize);
    if !is_legal_size(size) {
        let class = ImageClass::BadSize;
        let place = SIZE_AT;
        return Err(Verdict { class, place });
    }
    Ok(size)
}

/// Returns the offset of the first byte that differs from the magic, for bytes that do not begin with it.
fn other_offset(front: &[u8]) -> Offset
    requires min_len { 24 ≤ length front.now }
    requires magic { has_magic front.now ≡ false }
    ensures { IsFirstOther front.now (codes "MSEGFILE") result }
{
    'bytes: for at in 0..SPELLED.len() {
        if front[at] != SPELLED[at] {
            return at as u64;
        }
    }
    0
}
