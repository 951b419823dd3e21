//! Commits a segment to the log beside its file.
ghost use Rattle.std.specs.Prelude.{◌≡◌, string_bytes};
ghost use Rattle.image_check.specs.Saving.{IsSaved};
ghost use Rattle.segment_manager.specs.{Directory.Directory, State.DenotesCurrent};
ghost use Rattle.segment_file.specs.Committing.{CheckpointsFile, CommitsAndShortens, CommitsBegun, CommitsFile};
ghost use Rattle.segment_file.specs.Committing.{CommitsFirst, CommitsIfDifferent, CommitsSegment, EndsBegun};
ghost use Rattle.segment_file.specs.Committing.{EndsCommits, EndsIfCommitted, EndsLog, answer_of, begun_anew};
ghost use Rattle.segment_file.specs.Committing.{ShortensIf, SyncsFile, has_long_log, is_due, log_after, log_of};

use crate::segment_files::SegmentFile;
use image_check::laws::one_directory;
use segment_disk::{Comparison, Disk};
use segment_log::{CommitError, CommittedImage};
use segment_manager::Segment;
use std::alloc::Global;
use std::mem;
use thiserror::Error;

/// Why a commit or a checkpoint is refused.
#[derive(Clone, Copy, Debug, PartialEq, Eq, Error)]
pub enum CommitFault {
    /// Memory was refused. Nothing was written, and the call may be made again.
    #[error("no memory for the log")]
    OutOfMemory,
    /// The log has 2^40 bytes or more. Nothing was written.
    #[error("the log is too long")]
    TooLong,
    /// No log can be put beside the file, or another file has taken its name; or the file has the image, and can't be
    /// written through. The file stands for what it did.
    #[error("the log can't be made")]
    NotBegun,
    /// The log or the file can't be written, or need not last. The file stands for the image of the last commit, or
    /// for the one of this call. No commit may follow until a checkpoint.
    #[error("the log can't be written")]
    Unsure,
}

/// A log of more bytes than a quarter of the image, and than this, is emptied by a checkpoint.
const LONG_LOG: usize = 1 << 20;

/// What is known of the log of a file that is held.
#[derive(Drop)]
pub(crate) enum CommitLog {
    /// None was begun.
    Absent,
    /// The file stands, with its log, for the image that is kept.
    Begun(CommittedImage),
    /// A commit failed.
    Unsure,
}

/// Returns the log after a call for the image that is kept, and the answer.
fn answered(
    kept: CommittedImage,
    told: Result<(), CommitError>,
) -> (CommitLog, Result<(), CommitFault>)
    ensures value { result.0 ≡ log_after kept told }
    ensures answer { result.1 ≡ answer_of told }
{
    match told {
        Ok(()) => (CommitLog::Begun(kept), Ok(())),
        Err(CommitError::OutOfMemory) => (CommitLog::Begun(kept), Err(CommitFault::OutOfMemory)),
        Err(CommitError::TooLong) => (CommitLog::Begun(kept), Err(CommitFault::TooLong)),
        Err(CommitError::WriteFault) => (CommitLog::Unsure, Err(CommitFault::Unsure)),
    }
}

/// Commits an image to the log that was begun.
fn commit_begun<D: Disk>(
    alloc: Global,
    disk: &mut D,
    hold: &mut D::Hold,
    last: CommittedImage,
    image: &[u8],
) -> (CommitLog, Result<(), CommitFault>)
    ensures { CommitsBegun D.log_step disk.old disk.new last image.now result.0 result.1 }
{
    let mut kept = last;
    let told = kept.commit(alloc, disk, hold, image);
    answered(kept, told)
}

/// Writes a file that has the image through.
fn sync_found<D: Disk>(
    disk: &mut D,
    path: &str,
    hold: &mut D::Hold,
) -> (CommitLog, Result<(), CommitFault>)
    ensures { SyncsFile D.step disk.old disk.new path.now result.0 result.1 }
{
    match disk.sync(path, hold) {
        Ok(()) => (CommitLog::Absent, Ok(())),
        Err(_fault) => (CommitLog::Absent, Err(CommitFault::NotBegun)),
    }
}

/// Commits an image to a log that is put beside the file, after it was found what the file has. A file that has the
/// image is written through.
fn commit_if_different<D: Disk>(
    alloc: Global,
    disk: &mut D,
    path: &str,
    hold: &mut D::Hold,
    found: Comparison,
    image: &[u8],
) -> (CommitLog, Result<(), CommitFault>)
    ensures { CommitsIfDifferent D.step D.log_step disk.old disk.new path.now found image.now result.0 result.1 }
{
    match found {
        Comparison::Other => (CommitLog::Absent, Err(CommitFault::NotBegun)),
        Comparison::Equal => sync_found(disk, path, hold),
        Comparison::Different => match disk.begin_log(path, hold) {
            Ok(first) => commit_begun(alloc, disk, hold, first, image),
            Err(_) => (CommitLog::Absent, Err(CommitFault::NotBegun)),
        },
    }
}

/// Commits an image to a log that is put beside the file, unless the file has that image.
fn commit_first<D: Disk>(
    alloc: Global,
    disk: &mut D,
    path: &str,
    hold: &mut D::Hold,
    image: &[u8],
) -> (CommitLog, Result<(), CommitFault>)
    ensures { CommitsFirst D.step D.log_step disk.old disk.new path.now image.now result.0 result.1 }
{
    let found = disk.compare(path, hold, image);
    commit_if_different(alloc, disk, path, hold, found, image)
}

/// Commits an image of a file that is held.
fn commit_image<D: Disk>(
    alloc: Global,
    disk: &mut D,
    path: &str,
    hold: &mut D::Hold,
    log: CommitLog,
    image: &[u8],
) -> (CommitLog, Result<(), CommitFault>)
    ensures { CommitsFile D.step D.log_step disk.old disk.new path.now log image.now result.0
        result.1 }
{
    match log {
        CommitLog::Absent => commit_first(alloc, disk, path, hold, image),
        CommitLog::Begun(last) => commit_begun(alloc, disk, hold, last, image),
        CommitLog::Unsure => (CommitLog::Unsure, Err(CommitFault::Unsure)),
    }
}

/// Removes a log whose records are in the file, and returns the log then, and the answer.
fn end_placed<D: Disk>(
    disk: &mut D,
    path: &str,
    hold: &mut D::Hold,
    kept: CommittedImage,
    told: Result<(), CommitError>,
) -> (CommitLog, Result<(), CommitFault>)
    ensures effect { EndsLog D.step D.log_step disk.old disk.new path.now kept result.0 told }
    ensures answer { result.1 ≡ answer_of told }
{
    match told {
        Ok(()) => {
            disk.end_log(path, hold);
            (CommitLog::Absent, Ok(()))
        }
        Err(error) => answered(kept, Err(error)),
    }
}

/// Puts the image of the last commit into the file, and removes the log.
fn end_begun<D: Disk>(
    alloc: Global,
    disk: &mut D,
    path: &str,
    hold: &mut D::Hold,
    last: CommittedImage,
) -> (CommitLog, Result<(), CommitFault>)
    ensures { EndsBegun D.step D.log_step disk.old disk.new path.now last result.0 result.1 }
{
    let mut kept = last;
    let told = kept.checkpoint(alloc, disk, hold);
    end_placed(disk, path, hold, kept, told)
}

/// Puts the image of the last commit into the file, and removes the log, if one was begun.
fn end_log<D: Disk>(
    alloc: Global,
    disk: &mut D,
    path: &str,
    hold: &mut D::Hold,
    log: CommitLog,
) -> (CommitLog, Result<(), CommitFault>)
    ensures { EndsCommits D.step D.log_step disk.old disk.new path.now log result.0 result.1 }
{
    match log {
        CommitLog::Absent => (CommitLog::Absent, Ok(())),
        CommitLog::Begun(last) => end_begun(alloc, disk, path, hold, last),
        CommitLog::Unsure => (CommitLog::Unsure, Err(CommitFault::Unsure)),
    }
}

/// Returns the log with which a checkpoint begins. It starts a new log if a commit failed.
fn begun_anew(log: CommitLog) -> CommitLog
    ensures { result ≡ begun_anew log }
{
    match log {
        CommitLog::Absent => CommitLog::Absent,
        CommitLog::Begun(kept) => CommitLog::Begun(kept),
        CommitLog::Unsure => CommitLog::Absent,
    }
}

/// Puts the image of a commit into the file, and removes the log, if the commit was done.
fn end_if_committed<D: Disk>(
    alloc: Global,
    disk: &mut D,
    path: &str,
    hold: &mut D::Hold,
    told: Result<(), CommitFault>,
    log: CommitLog,
) -> (CommitLog, Result<(), CommitFault>)
    ensures { EndsIfCommitted D.step D.log_step disk.old disk.new path.now told log result.0 result.1 }
{
    match told {
        Ok(()) => end_log(alloc, disk, path, hold, log),
        Err(why) => (log, Err(why)),
    }
}

/// Commits an image of a file that is held, puts it into the file, and removes the log.
fn checkpoint_image<D: Disk>(
    alloc: Global,
    disk: &mut D,
    path: &str,
    hold: &mut D::Hold,
    log: CommitLog,
    image: &[u8],
) -> (CommitLog, Result<(), CommitFault>)
    ensures { CheckpointsFile D.step D.log_step disk.old disk.new path.now log image.now result.0 result.1 }
{
    let (committed, told) = commit_image(alloc, disk, path, hold, begun_anew(log), image);
    end_if_committed(alloc, disk, path, hold, told, committed)
}

/// Tells whether a log was begun that is long.
fn has_long_log(log: &CommitLog) -> bool
    ensures { result ≡ has_long_log log.now }
{
    match log {
        CommitLog::Absent => false,
        CommitLog::Begun(kept) => kept.end > (kept.image.len() / 4).max(LONG_LOG),
        CommitLog::Unsure => false,
    }
}

/// Tells whether a checkpoint is due behind a commit: it is done, and the log has become long.
fn is_due(told: Result<(), CommitFault>, log: &CommitLog) -> bool
    ensures { result ≡ is_due told log.now }
{
    match told {
        Ok(()) => has_long_log(log),
        Err(_) => false,
    }
}

/// Puts the image of the last commit into the file, and removes the log, if a checkpoint is due. Returns the log then.
fn shorten<D: Disk>(
    alloc: Global,
    disk: &mut D,
    path: &str,
    hold: &mut D::Hold,
    is_due: bool,
    log: CommitLog,
) -> CommitLog
    ensures { ShortensIf D.step D.log_step disk.old disk.new path.now is_due log result }
{
    if is_due {
        let (ended, _) = end_log(alloc, disk, path, hold, log);
        ended
    } else {
        log
    }
}

/// Commits an image of a file that is held, and puts it into the file if the log has become long. The answer is that of
/// the commit.
fn commit_and_shorten<D: Disk>(
    alloc: Global,
    disk: &mut D,
    path: &str,
    hold: &mut D::Hold,
    log: CommitLog,
    image: &[u8],
) -> (CommitLog, Result<(), CommitFault>)
    ensures { CommitsAndShortens D.step D.log_step disk.old disk.new path.now log image.now result.0 result.1 }
{
    let (committed, told) = commit_image(alloc, disk, path, hold, log, image);
    let is_due = is_due(told, &committed);
    (shorten(alloc, disk, path, hold, is_due, committed), told)
}

/// Writes what changed of a file that is held to the log beside it, or to a new log: the image of a segment that was
/// read from the file. At Ok that lasts. If the log is longer then than a quarter of the image, and than 1 MiB, the
/// image is put into the file, and the log is removed, if that can be done. A check of the image accepts it.
///
/// # Errors
///
/// Those of [`SegmentFile::commit`].
pub fn commit_segment<D: Disk>(
    alloc: Global,
    disk: &mut D,
    path: &str,
    hold: &mut D::Hold,
    segment: &Segment,
) -> Result<(), CommitFault>
    ensures effect { CommitsSegment D.step D.log_step disk.old disk.new path.now segment.now.cut.bytes result }
    ensures acceptance { (d : Directory) → DenotesCurrent segment.now.cut.bytes d → IsSaved segment.now.cut.bytes d }
{
    let image = segment.as_bytes();
    one_directory(image);
    let (_, done) = commit_and_shorten(alloc, disk, path, hold, CommitLog::Absent, image);
    done
}

impl<H: Drop> SegmentFile<H> {
    /// Writes what changed since the last commit to the log beside the file, FILE-log, which the first commit makes.
    /// At Ok that lasts: after each crash, opening the file finds the image of the segment. The file itself stays as
    /// it was until a [`checkpoint`](SegmentFile::checkpoint). A commit makes one itself if the log is longer then than
    /// a quarter of the image, and than 1 MiB; if that fails, the commit is done all the same. If nothing changed,
    /// nothing is written: the first commit then writes the file through. Meanwhile [`save`](SegmentFile::save) and
    /// [`replace`](SegmentFile::replace) answer `WriteFault`. A commit compares the whole image with a copy of the last
    /// one.
    ///
    /// `crates/examples/src/commits.rt` has an example.
    ///
    /// # Errors
    ///
    /// `OutOfMemory`, `TooLong` and `NotBegun`: opening finds the image of the last commit. `Unsure`: it finds that
    /// one or the new one, and each further commit is refused so, until a checkpoint puts the image into a new file.
    pub fn commit<D: Disk<Hold = H>>(
        &mut self,
        alloc: Global,
        disk: &mut D,
    ) -> Result<(), CommitFault>
        ensures effect { CommitsAndShortens D.step D.log_step disk.old disk.new (string_bytes self.old.path)
            (log_of self.old) self.old.segment.cut.bytes (log_of self.new) result }
        ensures segment { self.new.segment ≡ self.old.segment }
        ensures path { self.new.path ≡ self.old.path }
    {
        let log = mem::replace(&mut self.log, CommitLog::Unsure);
        let path = self.path.as_str();
        let image = self.segment.as_bytes();
        let (log, done) = commit_and_shorten(alloc, disk, path, &mut self.hold, log, image);
        self.log = log;
        done
    }

    /// Commits the image of the segment, puts it into the file, and removes the log. The file is replaced by a new one,
    /// and at each moment a crash leaves the last image or the new one. A commit after it begins a new log.
    ///
    /// `crates/examples/src/commits.rt` has an example.
    ///
    /// # Errors
    ///
    /// Those of [`commit`](SegmentFile::commit). After `Unsure` another checkpoint may follow.
    pub fn checkpoint<D: Disk<Hold = H>>(
        &mut self,
        alloc: Global,
        disk: &mut D,
    ) -> Result<(), CommitFault>
        ensures effect { CheckpointsFile D.step D.log_step disk.old disk.new (string_bytes self.old.path)
            (log_of self.old) self.old.segment.cut.bytes (log_of self.new) result }
        ensures segment { self.new.segment ≡ self.old.segment }
        ensures path { self.new.path ≡ self.old.path }
    {
        let log = mem::replace(&mut self.log, CommitLog::Unsure);
        let path = self.path.as_str();
        let image = self.segment.as_bytes();
        let (log, done) = checkpoint_image(alloc, disk, path, &mut self.hold, log, image);
        self.log = log;
        done
    }
}
