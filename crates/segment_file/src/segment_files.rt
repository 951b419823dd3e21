//! A segment whose file is locked, so that nobody else writes it.
ghost use Rattle.std.specs.Prelude.{◌≡◌, MatchResult, string_bytes};
ghost use Rattle.segment_disk.specs.Events.{Released, Replacement, Truncate};
ghost use Rattle.segment_file.specs.SegmentFiles.{ComesHeld, CreatesSegment, GrowsFile, IsEmptySegment, IsWhyNoSegment};
ghost use Rattle.segment_file.specs.SegmentFiles.{KeepsFile, MakesSegmentFile, OpensHeld, OpensOrCreates, SavesAs};
ghost use Rattle.segment_file.specs.SegmentFiles.{SavesFile, ShrinksFile};

use crate::committing::CommitLog;
use crate::file_errors::FileError;
use crate::opening::open_file;
use crate::writing::{write_image, write_new};
use block_tags::is_legal_size;
use grow_shrink::{grow_or_move, region_for, shrink_to_fit};
use image_check::AcceptedVersions;
use raw_region::copy_text;
use segment_disk::{Disk, Presence, SaveMode};
use segment_manager::{Mode, Segment};
use std::alloc::Global;

/// Returns an empty segment of a size. One that no segment has is refused before memory is asked for.
fn empty_segment(alloc: Global, size: u64) -> Result<Segment, FileError>
    ensures { MatchResult result (IsEmptySegment size) (IsWhyNoSegment size) }
{
    if !is_legal_size(size) {
        return Err(FileError::BadSize);
    }
    let region = region_for(alloc, size)?;
    match Segment::create(region, 0, size, Mode::Write) {
        Ok(segment) => Ok(segment),
        Err(_) => unreachable!(),
    }
}

/// Returns an empty segment of a size, whose image is written to a new file, and the right to write it.
fn make_segment_file<D: Disk>(
    alloc: Global,
    disk: &mut D,
    path: &str,
    size: u64,
) -> Result<(Segment, D::Hold), FileError>
    ensures { ComesHeld (MakesSegmentFile D.step disk.old disk.new path.now size) result }
{
    let segment = empty_segment(alloc, size)?;
    let hold = write_new(disk, path, &segment)?;
    Ok((segment, hold))
}

/// Returns the segment in a file, open for writing, and the right to write it, which was taken before the file was
/// read.
fn open_held<D: Disk>(
    alloc: Global,
    disk: &mut D,
    path: &str,
) -> Result<(Segment, D::Hold), FileError>
    ensures { ComesHeld (OpensHeld D.step disk.old disk.new path.now) result }
{
    let Ok(hold) = disk.lock(path) else {
        return Err(FileError::InUse);
    };
    match open_file(alloc, disk, path, AcceptedVersions::Current, Mode::Write, 0) {
        Ok(segment) => Ok((segment, hold)),
        Err(error) => {
            disk.unlock(hold);
            Err(error)
        }
    }
}

/// A segment in memory, the path of the file that it was read from or made in, and the right to write that file. No
/// other has that right until this one is closed or dropped. The file changes by `save`, `replace`, `checkpoint` and a
/// `commit` whose log has become long, and with its log it stands for the image of the last `commit`.
#[derive(Drop)]
pub struct SegmentFile<H> {
    /// The segment.
    pub segment: Segment,
    /// The path of its file.
    pub path: String,
    pub(crate) hold: H,
    pub(crate) log: CommitLog,
}

impl<H: Drop> SegmentFile<H> {
    /// Returns an empty segment of `size` bytes, open for writing, in a file that is made for it and takes its image.
    ///
    /// `crates/examples/src/texts.rt` has an example.
    ///
    /// # Errors
    ///
    /// `Exists` if something is there under the path, whatever the size. `BadSize` if no segment has it; `OutOfMemory`;
    /// no file is made then. `WriteFault` if the file can't be made, takes not the whole image, or need not last.
    pub fn create<D: Disk<Hold = H>>(
        alloc: Global,
        disk: &mut D,
        path: &str,
        size: u64,
    ) -> Result<SegmentFile<H>, FileError>
        ensures { KeepsFile disk.old disk.new path.now (CreatesSegment D.step disk.old disk.new path.now size) result }
    {
        let kept = copy_text(alloc, path)?;
        if disk.path_status(path) == Presence::There {
            return Err(FileError::Exists);
        }
        let (segment, hold) = make_segment_file(alloc, disk, path, size)?;
        Ok(SegmentFile {
            segment,
            path: kept,
            hold,
            log: CommitLog::Absent,
        })
    }

    /// Returns the segment in a file, open for writing. The right to write the file is taken before it is read, and
    /// kept.
    ///
    /// `crates/examples/src/handles.rt` has an example.
    ///
    /// # Errors
    ///
    /// `InUse` if another has the right to write the file. Those of [`read`](crate::read); the right is given back.
    pub fn open<D: Disk<Hold = H>>(
        alloc: Global,
        disk: &mut D,
        path: &str,
    ) -> Result<SegmentFile<H>, FileError>
        ensures { KeepsFile disk.old disk.new path.now (OpensHeld D.step disk.old disk.new path.now) result }
    {
        let kept = copy_text(alloc, path)?;
        let (segment, hold) = open_held(alloc, disk, path)?;
        Ok(SegmentFile {
            segment,
            path: kept,
            hold,
            log: CommitLog::Absent,
        })
    }

    /// Returns the segment in a file, open for writing; if nothing is there, an empty one of `size` bytes in a file
    /// that is made for it. The size is not looked at if something is there.
    ///
    /// `crates/examples/src/shop.rt` has an example.
    ///
    /// # Errors
    ///
    /// Those of [`open`](SegmentFile::open) if something is there, and otherwise those of
    /// [`create`](SegmentFile::create).
    pub fn open_or_create<D: Disk<Hold = H>>(
        alloc: Global,
        disk: &mut D,
        path: &str,
        size: u64,
    ) -> Result<SegmentFile<H>, FileError>
        ensures { KeepsFile disk.old disk.new path.now (OpensOrCreates D.step disk.old disk.new path.now size) result }
    {
        let kept = copy_text(alloc, path)?;
        let (segment, hold) = if disk.path_status(path) == Presence::Absent {
            make_segment_file(alloc, disk, path, size)?
        } else {
            open_held(alloc, disk, path)?
        };
        Ok(SegmentFile {
            segment,
            path: kept,
            hold,
            log: CommitLog::Absent,
        })
    }

    /// Writes the image of the segment to its file, which is emptied for it, unless the file has that image. If that
    /// fails, the old image is lost; see [`replace`](SegmentFile::replace).
    ///
    /// `crates/examples/src/shop.rt` has an example.
    ///
    /// # Errors
    ///
    /// `WriteFault` if the file can't be emptied or is gone, takes not the whole image, or need not last, and if
    /// another file has taken its name, which is left alone.
    pub fn save<D: Disk<Hold = H>>(&mut self, disk: &mut D) -> Result<(), FileError>
        ensures save { SavesFile D.step disk.old disk.new (string_bytes self.old.path) self.old.segment result
            Truncate }
        ensures segment { self.new.segment ≡ self.old.segment }
        ensures path { self.new.path ≡ self.old.path }
    {
        let path = self.path.as_str();
        let how = SaveMode::InPlace;
        Ok(write_image(disk, path, how, &mut self.hold, &self.segment)?)
    }

    /// Writes the image of the segment to a new file beside its file, which takes the place of the old one once it has
    /// the whole image. One of the two files is whole at each moment.
    ///
    /// `crates/examples/src/handles.rt` has an example.
    ///
    /// # Errors
    ///
    /// As of [`save`](SegmentFile::save). The old file is as it was then, but if it is not known whether the new one
    /// has its place for good.
    pub fn replace<D: Disk<Hold = H>>(&mut self, disk: &mut D) -> Result<(), FileError>
        ensures save { SavesFile D.step disk.old disk.new (string_bytes self.old.path) self.old.segment result
            Replacement }
        ensures segment { self.new.segment ≡ self.old.segment }
        ensures path { self.new.path ≡ self.old.path }
    {
        let path = self.path.as_str();
        let how = SaveMode::Replacing;
        Ok(write_image(disk, path, how, &mut self.hold, &self.segment)?)
    }

    /// Writes the image of the segment to another file, which is made for it. The segment keeps its path.
    ///
    /// `crates/examples/src/growing.rt` has an example.
    ///
    /// # Errors
    ///
    /// `Exists` if something is there under the path. `WriteFault` if the file can't be made, takes not the whole
    /// image, or need not last.
    pub fn save_as<D: Disk<Hold = H>>(&self, disk: &mut D, path: &str) -> Result<(), FileError>
        ensures { SavesAs D.step disk.old disk.new path.now self.now.segment result }
    {
        if disk.path_status(path) == Presence::There {
            return Err(FileError::Exists);
        }
        write_new(disk, path, &self.segment)?;
        Ok(())
    }

    /// Gives the right to write the file back. The segment is gone, and what was not saved of it is not in the file. A
    /// log stays, with what was committed.
    pub fn close<D: Disk<Hold = H>>(self, disk: &mut D)
        ensures { D.step disk.old Released disk.new }
    {
        disk.unlock(self.hold);
    }

    /// Makes the segment longer by `extra` bytes, which are free: a multiple of 16, at least 32. If its region has
    /// no room, and only there, it moves into a larger one. Every object keeps its handle and its value. The file is as
    /// it was until `save` or `replace`.
    ///
    /// `crates/examples/src/growing.rt` has an example.
    ///
    /// # Errors
    ///
    /// `Growth` with `ReadOnly` if the segment is open for reading, with `BadGrow` if `extra` is below 32 or no
    /// multiple of 16, and with `TooLarge` if the size would be above 1073741824. Otherwise `OutOfMemory` if its region
    /// has no room, and there is none for a larger one. The segment is as it was.
    pub fn grow(&mut self, alloc: Global, extra: u64) -> Result<(), FileError>
        ensures history { GrowsFile self.old.segment self.new.segment extra result }
        ensures path { self.new.path ≡ self.old.path }
    {
        Ok(grow_or_move(alloc, &mut self.segment, extra)?)
    }

    /// Makes the segment as short as its last block lets it be. Every object keeps its handle and its value. The file
    /// is as it was until `save` or `replace`.
    ///
    /// `crates/examples/src/growing.rt` has an example.
    ///
    /// # Errors
    ///
    /// `Growth` with `ReadOnly` if the segment is open for reading. It is as it was.
    pub fn shrink(&mut self) -> Result<(), FileError>
        ensures shrinking { ShrinksFile self.old.segment self.new.segment result }
        ensures path { self.new.path ≡ self.old.path }
    {
        Ok(shrink_to_fit(&mut self.segment)?)
    }
}
