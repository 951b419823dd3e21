//! Reads an image into its place in a region.
ghost use Rattle.std.specs.Prelude.{◌≡◌, ◌≢◌, ◌+◌, ◌-◌, ◌%◌, ◌^◌, ◌<◌, ◌≤◌, List, ℕ, ◌++◌, true, false, length, take};
ghost use Rattle.std.specs.Prelude.{drop, IfOk, OnOk, IfErr, MatchResult};
ghost use Rattle.raw_region.specs.Answers.{AppendsProperPrefix};
ghost use Rattle.raw_region.specs.Device.{ReadsSource, read_delta};
ghost use Rattle.raw_region.specs.Memory.{SameSurroundings, whole};
ghost use Rattle.raw_region.specs.Regions.{with_bytes};
ghost use Rattle.image_check.specs.Causes.{IsAt, IsShown};
ghost use Rattle.image_check.specs.declared.classes.ImageClass.TheVariants.{BadSize, Truncated};
ghost use Rattle.image_check.specs.Formats.{format_in};
ghost use Rattle.image_check.specs.declared.errors.OpenError.TheVariants.{RegionTooSmall};
ghost use Rattle.image_check.specs.Opening.{AsksToTheEnd, ReadsFrontAlone, cause_of, failed_reads};
ghost use Rattle.image_check.specs.Reading.{HasFront, IsImageRead, IsNotRead, IsShort, ReadsFrontOk, ReadsPastEnd};
ghost use Rattle.image_check.specs.Reading.{Stops};

use crate::classes::ImageClass;
use crate::errors::{OpenError, OpenRefused};
use crate::header::{FRONT, LEAST, judge_front};
use crate::image_window::ImageWindow;
use crate::verdict::Verdict;
use crate::versions::AcceptedVersions;
use raw_region::{RawRegion, Source, Window, read_full};

/// Reads a whole image of an accepted version into the region, from `base` on. The size is the one in its first words.
///
/// # Errors
///
/// `RegionTooSmall` as soon as the first words have a size for which the region has no room. `Truncated`, the class of
/// wrong first words, or `BadSize` if more bytes follow. `ReadFault` if the reader fails before that.
pub(crate) fn read_image<S: Source>(
    versions: AcceptedVersions,
    reader: &mut S,
    region: RawRegion,
    base: u64,
) -> Result<ImageWindow, OpenRefused>
    requires aligned { base % 16 ≡ 0 }
    requires reader { (S.history reader.old).failures < 2 ^ 64 - 1 }
    ensures reading { let given = read_delta (S.history reader.old) (S.history reader.new) in MatchResult result
        (IsImageRead (format_in versions given.bytes) given region base)
        (λ refused. IsNotRead (format_in versions given.bytes) given region base refused) }
    ensures output { let given = read_delta (S.history reader.old) (S.history reader.new) in IfErr result
        (λ refused. IsShown (format_in versions given.bytes) given.bytes refused.cause) }
    ensures history { ReadsSource (S.history reader.old) (S.history reader.new)
        (failed_reads (cause_of result)) }
    ensures ends { AsksToTheEnd (S.history reader.old) (S.history reader.new) }
    ensures exclusive { ReadsFrontAlone (S.history reader.old) (S.history reader.new) (cause_of result) }
{
    let mut front = [0; FRONT];
    let size = match read_front(versions, reader, &mut front, &region, base) {
        Ok(size) => size,
        Err(cause) => return Err(OpenRefused { region, cause }),
    };
    let mut window = Window::new(region, base, size);
    window.write(0, &front);
    match read_rest(reader, &mut window) {
        Ok(()) => Ok(ImageWindow::new(window)),
        Err(cause) => Err(OpenRefused {
            region: window.into_region(),
            cause,
        }),
    }
}

/// Reads the first 24 bytes of an image, and returns the size in them.
///
/// # Errors
///
/// As `read_image`. If the bytes begin no image, it reads on, since fewer than 144 bytes are `Truncated`, whatever they
/// are.
fn read_front<S: Source>(
    versions: AcceptedVersions,
    reader: &mut S,
    front: &mut [u8; FRONT],
    region: &RawRegion,
    base: u64,
) -> Result<u64, OpenError>
    requires { (S.history reader.old).failures < 2 ^ 64 - 1 }
    ensures on_ok { IfOk result (ReadsFrontOk (format_in versions front.new) (S.history reader.old).bytes
        (S.history reader.new).bytes front.new base (length region.now)) }
    ensures on_error { let given = read_delta (S.history reader.old) (S.history reader.new) in IfErr result
        (λ cause. Stops (format_in versions given.bytes) given base (length region.now) cause) }
    ensures output { let given = read_delta (S.history reader.old) (S.history reader.new) in IfErr result
        (λ cause. IsShown (format_in versions given.bytes) given.bytes cause) }
    ensures history { ReadsSource (S.history reader.old) (S.history reader.new) (failed_reads result) }
    ensures ends { AsksToTheEnd (S.history reader.old) (S.history reader.new) }
    ensures exclusive { ReadsFrontAlone (S.history reader.old) (S.history reader.new) result }
    ensures growth { OnOk result ((S.history reader.new).ended ≡ false) }
{
    read_all(reader, front, 0)?;
    match judge_front(versions, front) {
        Ok(size) if region.in_range(base, size) => Ok(size),
        Ok(_) => Err(OpenError::RegionTooSmall),
        Err(verdict) => {
            read_all(reader, &mut [0; LEAST - FRONT], FRONT as u64)?;
            Err(OpenError::Image(verdict))
        }
    }
}

/// Reads the bytes after the first 24, which are in the window and hold its size, and checks that the image ends there.
///
/// # Errors
///
/// As `read_image`.
fn read_rest<S: Source>(reader: &mut S, window: &mut Window) -> Result<(), OpenError>
    requires reader { (S.history reader.old).failures < 2 ^ 64 - 1 }
    requires min_len { 144 ≤ length window.old.bytes }
    ensures on_ok { OnOk result (window.new
        ≡ with_bytes window.old (take 24 window.old.bytes
        ++ drop (length (S.history reader.old).bytes) (S.history reader.new).bytes)) }
    ensures end { OnOk result ((S.history reader.new).ended ≡ true) }
    ensures on_error { IfErr result (λ cause. (format : ℕ) → HasFront format window.old → (start : List ℕ)
        → (S.history reader.old).bytes ≡ start ++ take 24 window.old.bytes
        → Stops format (read_delta (record (S.history reader.old) { bytes = start }) (S.history reader.new))
        (length window.old.before) (length (whole window.old)) cause) }
    ensures output { IfErr result (λ cause. (format : ℕ) → HasFront format window.old → (start : List ℕ)
        → (S.history reader.old).bytes ≡ start ++ take 24 window.old.bytes
        → IsShown format (drop (length start) (S.history reader.new).bytes) cause) }
    ensures place { SameSurroundings window.old window.new }
    ensures len { length window.new.bytes ≡ length window.old.bytes }
    ensures history { ReadsSource (S.history reader.old) (S.history reader.new) (failed_reads result) }
    ensures ends { AsksToTheEnd (S.history reader.old) (S.history reader.new) }
    ensures room { IfErr result (λ cause. cause ≢ RegionTooSmall) }
{
    let front = FRONT as u64;
    let size = window.size();
    read_all(reader, window.bytes_mut(front, size - front), front)?;
    find_end(reader, size)
}

/// Fills the slice with the bytes of an image that follow `before` others.
///
/// # Errors
///
/// `ReadFault` if the reader fails, and `Truncated` if it ends, before the slice is full.
fn read_all<S: Source>(reader: &mut S, into: &mut [u8], before: u64) -> Result<(), OpenError>
    requires reader { (S.history reader.old).failures < 2 ^ 64 - 1 }
    requires max_count { before ≤ 24 }
    ensures on_ok { OnOk result ((S.history reader.new).bytes ≡ (S.history reader.old).bytes ++ into.new) }
    ensures on_error { IfErr result (λ cause.
        AppendsProperPrefix (S.history reader.old).bytes (S.history reader.new).bytes into.new
        × IsShort (S.history reader.new).ended cause) }
    ensures output { IfErr result (IsAt Truncated
        (before + (length (S.history reader.new).bytes - length (S.history reader.old).bytes))) }
    ensures failures { (S.history reader.new).failures
        ≡ (S.history reader.old).failures + failed_reads result }
    ensures ends { 0 < length into.old → AsksToTheEnd (S.history reader.old) (S.history reader.new) }
    ensures growth { OnOk result (0 < length into.old → (S.history reader.new).ended ≡ false) }
{
    let Ok(count) = read_full(reader, into) else {
        return Err(OpenError::ReadFault);
    };
    if count < into.len() {
        let class = ImageClass::Truncated;
        let place = before + count as u64;
        return Err(OpenError::Image(Verdict { class, place }));
    }
    Ok(())
}

/// Tries to read one byte after a whole image of `size` bytes, where the reader must end.
///
/// # Errors
///
/// `ReadFault` if the reader fails, and `BadSize` if it returns a byte.
fn find_end<S: Source>(reader: &mut S, size: u64) -> Result<(), OpenError>
    requires { (S.history reader.old).failures < 2 ^ 64 - 1 }
    ensures unchanged { OnOk result ((S.history reader.new).bytes ≡ (S.history reader.old).bytes) }
    ensures end { OnOk result ((S.history reader.new).ended ≡ true) }
    ensures on_error { IfErr result (λ cause.
        ReadsPastEnd (S.history reader.old).bytes (S.history reader.new).bytes cause) }
    ensures output { IfErr result (IsAt BadSize size) }
    ensures failures { (S.history reader.new).failures
        ≡ (S.history reader.old).failures + failed_reads result }
    ensures ends { AsksToTheEnd (S.history reader.old) (S.history reader.new) }
{
    match reader.read(&mut [0]) {
        Err(_) => Err(OpenError::ReadFault),
        Ok(0) => Ok(()),
        Ok(_) => {
            let class = ImageClass::BadSize;
            Err(OpenError::Image(Verdict { class, place: size }))
        }
    }
}
