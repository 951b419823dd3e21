//! What is done with a file that nobody keeps: it is read, checked, or written by the current format.
ghost use Rattle.std.specs.Prelude.{◌≡◌};
ghost use Rattle.image_check.specs.declared.versions.AcceptedVersions.TheVariants.{Current};
ghost use Rattle.segment_file.specs.Opening.{OpensFile};
ghost use Rattle.segment_file.specs.SegmentFiles.{ChecksFile, HoldsFile, Migrates};

use crate::file_errors::FileError;
use crate::opening::open_file;
use crate::writing::write_image;
use image_check::AcceptedVersions;
use segment_disk::{Disk, SaveMode};
use segment_manager::{Mode, Segment};
use std::alloc::Global;

/// Returns the segment in a file, open in a mode. What changes it changes no file: a
/// [`SegmentFile`](crate::SegmentFile) is saved.
///
/// `crates/examples/src/prices.rt` has an example.
///
/// # Errors
///
/// `Open` with the reason if there is no segment: `Image` if the bytes of the file denote no directory, `ReadFault` if
/// the file can't be opened or read, or `OutOfMemory`. `ForeignLog` if the log beside the file is of another file.
pub fn read<D: Disk>(
    alloc: Global,
    disk: &mut D,
    path: &str,
    mode: Mode,
) -> Result<Segment, FileError>
    ensures { OpensFile D.step disk.old disk.new path.now Current mode 0 result }
{
    open_file(alloc, disk, path, AcceptedVersions::Current, mode, 0)
}

/// Checks that a file holds a segment. Opens nothing for writing, and keeps no segment.
///
/// `crates/examples/src/migrating.rt` has an example.
///
/// # Errors
///
/// Those of [`read`].
pub fn check<D: Disk>(alloc: Global, disk: &mut D, path: &str) -> Result<(), FileError>
    ensures { ChecksFile D.step disk.old disk.new path.now result }
{
    read(alloc, disk, path, Mode::ReadOnly)?;
    Ok(())
}

/// Writes the segment in a file of any of the three formats by the current one.
fn migrate_held<D: Disk>(
    alloc: Global,
    disk: &mut D,
    path: &str,
    hold: &mut D::Hold,
) -> Result<(), FileError>
    ensures { Migrates D.step disk.old disk.new path.now result }
{
    let segment = open_file(alloc, disk, path, AcceptedVersions::All, Mode::Write, 0)?;
    Ok(write_image(disk, path, SaveMode::InPlace, hold, &segment)?)
}

/// Writes the segment in a file by the current format, whichever of the three it has.
///
/// `crates/examples/src/migrating.rt` has an example.
///
/// # Errors
///
/// Those of [`read`], and `InUse` if another has the right to write the file: it is as it was. `WriteFault` if it can't
/// be emptied, takes not the whole image, or need not last.
pub fn migrate<D: Disk>(alloc: Global, disk: &mut D, path: &str) -> Result<(), FileError>
    ensures { HoldsFile D.step disk.old disk.new path.now (λ held done.
        Migrates D.step held done path.now result) result }
{
    let Ok(mut hold) = disk.lock(path) else {
        return Err(FileError::InUse);
    };
    let answer = migrate_held(alloc, disk, path, &mut hold);
    disk.unlock(hold);
    answer
}
