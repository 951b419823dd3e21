//! The writing of an image to a file.
ghost use Rattle.std.specs.Prelude.{◌≡◌, is_ok};
ghost use Rattle.segment_manager.specs.{Directory.Directory, State.DenotesCurrent};
ghost use Rattle.image_check.specs.Saving.{IsSaved};
ghost use Rattle.segment_disk.specs.Events.{After, Compared, New, Replacement, Truncate, create_mode_of, nothing_taken};
ghost use Rattle.segment_file.specs.Files.{FillsFile, MakesImage, WritesImage, place_events, without_hold};

use image_check::laws::one_directory;
use image_check::save;
use raw_region::DeviceFault;
use segment_disk::{Comparison, Disk, SaveMode};
use segment_manager::Segment;

/// Writes the image of a segment to a file that took nothing yet, and closes it.
fn fill<D: Disk>(disk: &mut D, mut writer: D::Writer, segment: &Segment) -> Result<(), DeviceFault>
    requires { D.Writer.history writer ≡ nothing_taken }
    ensures { FillsFile D.step disk.old disk.new segment.now.cut.bytes result }
{
    let saved = save(segment, &mut writer);
    let lasting = disk.sync_and_close(writer);
    saved?;
    lasting
}

/// Empties a file, writes the image of a segment to it and closes it.
fn write_here<D: Disk>(
    disk: &mut D,
    path: &str,
    hold: &mut D::Hold,
    segment: &Segment,
) -> Result<(), DeviceFault>
    ensures { MakesImage D.step disk.old disk.new Truncate path.now segment.now.cut.bytes result }
{
    let writer = disk.create(path, SaveMode::InPlace, hold)?;
    fill(disk, writer, segment)
}

/// Puts the file that was made beside another in its place, or removes it.
fn put_in_place<D: Disk>(disk: &mut D, path: &str, hold: &mut D::Hold) -> Result<(), DeviceFault>
    ensures { After D.step disk.old (place_events path.now (is_ok result)) disk.new }
{
    match disk.commit_replacement(path, hold) {
        Ok(()) => Ok(()),
        Err(fault) => {
            disk.discard_replacement(path, hold);
            Err(fault)
        }
    }
}

/// Writes the image of a segment to a file that is made beside the old one, closes it, and puts it in the place of the
/// old one. If that fails, the new file is removed, if it can be.
fn replace_image<D: Disk>(
    disk: &mut D,
    path: &str,
    hold: &mut D::Hold,
    segment: &Segment,
) -> Result<(), DeviceFault>
    ensures { MakesImage D.step disk.old disk.new Replacement path.now segment.now.cut.bytes result }
{
    let writer = disk.create(path, SaveMode::Replacing, hold)?;
    match fill(disk, writer, segment) {
        Ok(()) => put_in_place(disk, path, hold),
        Err(fault) => {
            disk.discard_replacement(path, hold);
            Err(fault)
        }
    }
}

/// Writes the image of a segment to the file that is held, which is emptied or replaced for it.
fn write_over<D: Disk>(
    disk: &mut D,
    path: &str,
    how: SaveMode,
    hold: &mut D::Hold,
    segment: &Segment,
) -> Result<(), DeviceFault>
    ensures { MakesImage D.step disk.old disk.new (create_mode_of how) path.now segment.now.cut.bytes result }
{
    match how {
        SaveMode::InPlace => write_here(disk, path, hold, segment),
        SaveMode::Replacing => replace_image(disk, path, hold, segment),
    }
}

/// Compares the file of a path with the one that is held, and its bytes with the image of a segment. A check of the
/// image accepts it.
fn compare_image<D: Disk>(disk: &mut D, path: &str, hold: &D::Hold, segment: &Segment) -> Comparison
    ensures step { D.step disk.old (Compared path.now segment.now.cut.bytes result) disk.new }
    ensures acceptance { (d : Directory) → DenotesCurrent segment.now.cut.bytes d → IsSaved segment.now.cut.bytes d }
{
    let image = segment.as_bytes();
    one_directory(image);
    disk.compare(path, hold, image)
}

/// Writes the image of a segment to the file that is held, which is emptied or replaced for it. A check of the image
/// accepts it. A file that has the image, and can be opened for writing, stays as it is. So does one if another has
/// taken its name.
pub fn write_image<D: Disk>(
    disk: &mut D,
    path: &str,
    how: SaveMode,
    hold: &mut D::Hold,
    segment: &Segment,
) -> Result<(), DeviceFault>
    ensures { WritesImage D.step disk.old disk.new (create_mode_of how) path.now segment.now.cut.bytes result }
{
    match compare_image(disk, path, hold, segment) {
        Comparison::Other => Err(DeviceFault),
        Comparison::Different => write_over(disk, path, how, hold, segment),
        Comparison::Equal => Ok(()),
    }
}

/// Writes the image of a segment to a file that is made for it, and returns the right to write the file. A check of the
/// image accepts it.
pub fn write_new<D: Disk>(
    disk: &mut D,
    path: &str,
    segment: &Segment,
) -> Result<D::Hold, DeviceFault>
    ensures { WritesImage D.step disk.old disk.new New path.now segment.now.cut.bytes (without_hold result) }
{
    let (writer, hold) = disk.create_new(path)?;
    fill(disk, writer, segment)?;
    Ok(hold)
}
