//! Copies an image from memory into its place in a region, or finds an image in its place.
ghost use Rattle.std.specs.Prelude.{◌≡◌, ◌+◌, ◌%◌, ◌<◌, ◌≤◌, length, IfErr, IfOk, MatchResult};
ghost use Rattle.raw_region.specs.Format.{current};
ghost use Rattle.image_check.specs.Causes.{IsShown};
ghost use Rattle.image_check.specs.Formats.{format_in};
ghost use Rattle.image_check.specs.Opening.{as_given};
ghost use Rattle.image_check.specs.Reading.{FitsIn, IsImageRead, IsNotCopied, Stops};
ghost use Rattle.raw_region.specs.Memory.{part, whole};

use crate::classes::ImageClass;
use crate::errors::{OpenError, OpenRefused};
use crate::header::{FRONT, LEAST, judge_front};
use crate::image_window::ImageWindow;
use crate::verdict::Verdict;
use crate::versions::AcceptedVersions;
use raw_region::{RawRegion, Window};

/// Copies a whole image of an accepted version into the region, from `base` on. The size is the one in its first words.
///
/// # Errors
///
/// As [`size_for`]. The error returns the region unchanged.
pub fn copy_image(
    versions: AcceptedVersions,
    image: &[u8],
    region: RawRegion,
    base: u64,
) -> Result<ImageWindow, OpenRefused>
    requires aligned { base % 16 ≡ 0 }
    ensures placement { MatchResult result
        (IsImageRead (format_in versions image.now) (as_given image.now) region base)
        (λ refused. IsNotCopied (format_in versions image.now) image.now region base refused) }
    ensures output { IfErr result (λ refused. IsShown (format_in versions image.now) image.now refused.cause) }
{
    match size_for(versions, image, &region, base) {
        Ok(size) => {
            let mut window = Window::new(region, base, size);
            window.write(0, image);
            Ok(ImageWindow::new(window))
        }
        Err(cause) => Err(OpenRefused { region, cause }),
    }
}

/// Returns the window of an image in the region, from `base` on, which has `len` bytes. The size is the one in its
/// first words. It writes nothing.
///
/// # Errors
///
/// As [`size_for`]. The error returns the region unchanged.
pub fn find_image(region: RawRegion, base: u64, len: u64) -> Result<ImageWindow, OpenRefused>
    requires aligned { base % 16 ≡ 0 }
    requires in_bounds { base + len ≤ length region }
    ensures search { MatchResult result (IsImageRead current (as_given (part region base len)) region base)
        (λ refused. IsNotCopied current (part region base len) region base refused) }
    ensures output { IfErr result (λ refused. IsShown current (part region base len) refused.cause) }
    ensures not_written { IfOk result (λ window. whole window ≡ region) }
{
    let versions = AcceptedVersions::Current;
    match size_for(versions, region.bytes(base, len), &region, base) {
        Ok(size) => Ok(ImageWindow::new(Window::new(region, base, size))),
        Err(cause) => Err(OpenRefused { region, cause }),
    }
}

/// Returns the size in the first words of an image. It is the number of the image's bytes, and the region has room for
/// it from `base` on.
///
/// # Errors
///
/// `RegionTooSmall` if the region has no room for the size in the first words. `Truncated`, the class of wrong first
/// words, or `BadSize` if there are more bytes than this size.
fn size_for(
    versions: AcceptedVersions,
    image: &[u8],
    region: &RawRegion,
    base: u64,
) -> Result<u64, OpenError>
    ensures fits { MatchResult result
        (FitsIn (format_in versions image.now) image.now base (length region.now))
        (λ cause. Stops (format_in versions image.now) (as_given image.now) base (length region.now) cause) }
    ensures output { IfErr result (IsShown (format_in versions image.now) image.now) }
{
    let count = image.len() as u64;
    let cut = OpenError::Image(Verdict {
        class: ImageClass::Truncated,
        place: count,
    });
    if image.len() < FRONT {
        return Err(cut);
    }
    match judge_front(versions, image) {
        Err(_) if image.len() < LEAST => Err(cut),
        Err(verdict) => Err(OpenError::Image(verdict)),
        Ok(size) if !region.in_range(base, size) => Err(OpenError::RegionTooSmall),
        Ok(size) if count < size => Err(cut),
        Ok(size) if size < count => {
            let class = ImageClass::BadSize;
            Err(OpenError::Image(Verdict { class, place: size }))
        }
        Ok(size) => Ok(size),
    }
}
