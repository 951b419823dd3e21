//! Disks and outputs as the crates above are given them: contracts see what a disk was asked, in order, and what it
//! answered.
ghost use Rattle.std.specs.Prelude.{◌≡◌, Bool, IfOk, MatchResult, None, Some, is_ok};
ghost use Rattle.raw_region.specs.Device.{read_delta, write_delta};
ghost use Rattle.segment_disk.specs.Events.{Event, Looked, Held, Released, Opened as WasOpened, Read, Compared, Made};
ghost use Rattle.segment_disk.specs.Events.{LogEnded, New, Wrote, Placed, Discarded, Synced, create_mode_of};
ghost use Rattle.segment_disk.specs.Events.{not_opened, nothing_given, nothing_taken};
ghost use Rattle.segment_disk.specs.Logs.{BeginsLog};

use crate::presence::{AlreadyLocked, Comparison, NotOpened, Presence, SaveMode};
use raw_region::{DeviceFault, Sink, Source};
use segment_log::{CommittedImage, LogDisk};

/// A file that was opened for reading.
pub struct OpenedFile<R> {
    /// Gives its bytes, from the first on.
    pub reader: R,
    /// How many bytes it has, as far as that is known; 0 also if it is not.
    pub len: u64,
}

/// Where files are kept. A file with a log beside it is the image of the last commit. A reader or a writer that it
/// hands out comes back to it. As a `LogDisk` it writes the log that was begun for the file that is held, and puts new
/// files in the place of that file. The right to write a file is `Hold`: of one that is there, from `lock`, or of one
/// that was made, from `create_new`. What was not given back is given back if it is dropped, if the disk can do so.
pub trait Disk: LogDisk {
    // One question with its answer leads from one state of the disk to another.
    ghost step: { Self → Event → Self → Type 0 };

    type Reader: Source;

    type Writer: Sink;

    /// Tells what is there under a path.
    fn path_status(&mut self, path: &str) -> Presence
        ensures { step self.old (Looked path.now result) self.new };

    /// Takes the right to write a file, which no other has until it is given back. The commits of its log are put into
    /// the file; if that can't be done, the file is neither emptied nor replaced later. If another has it, the answer
    /// is `AlreadyLocked`, at once or after a wait that ends. A file that can't be held, or is not there, is nobody's,
    /// and the answer is Ok.
    fn lock(&mut self, path: &str) -> Result<Self::Hold, AlreadyLocked>
        ensures { step self.old (Held path.now (is_ok result)) self.new };

    /// Gives the right to write a file back.
    fn unlock(&mut self, hold: Self::Hold)
        ensures { step self.old Released self.new };

    /// Opens a file for reading: what it stands for with the log beside it, if it has one.
    fn open(&mut self, path: &str) -> Result<OpenedFile<Self::Reader>, NotOpened>
        ensures request { MatchResult result
            (λ opened. step self.old (WasOpened path.now (Some opened.len)) self.new)
            (λ why. step self.old (not_opened path.now why) self.new) }
        ensures fresh { IfOk result (λ opened. Self.Reader.history opened.reader ≡ nothing_given) };

    /// Closes a file that was open for reading.
    fn close(&mut self, reader: Self::Reader)
        ensures { step self.old (Read (read_delta nothing_given (Self.Reader.history reader))) self.new };

    /// Compares the file of a path with the one that the right to write was given for, and its bytes with an image.
    /// The answer is `Other` if another file has taken its name, and if one has come since the right was given and
    /// nothing was there. A file that can't be held is no other, nor is one that is not there. `Equal` says that the
    /// file can be opened for writing and has the image, and nothing else. The file stays as it is.
    fn compare(&mut self, path: &str, hold: &Self::Hold, image: &[u8]) -> Comparison
        ensures { step self.old (Compared path.now image.now result) self.new };

    /// Makes a file that is not there, opens it for writing, and takes the right to write it.
    fn create_new(&mut self, path: &str) -> Result<(Self::Writer, Self::Hold), DeviceFault>
        ensures request { step self.old (Made New path.now (is_ok result)) self.new }
        ensures fresh { IfOk result (λ made. Self.Writer.history made.0 ≡ nothing_taken) };

    /// Empties a file, or makes one beside it, and opens it for writing. One that is made beside another is put in its
    /// place or discarded when it is closed. If another file has taken the name of the one that is held, or has come
    /// since the right was given and nothing was there, it is neither emptied nor replaced, and the answer is an error.
    /// It is an error too if nothing is there any more.
    fn create(
        &mut self,
        path: &str,
        how: SaveMode,
        hold: &mut Self::Hold,
    ) -> Result<Self::Writer, DeviceFault>
        ensures request { step self.old (Made (create_mode_of how) path.now (is_ok result)) self.new }
        ensures fresh { IfOk result (λ writer. Self.Writer.history writer ≡ nothing_taken) };

    /// Closes a file that was open for writing. Ok says that all that it took lasts.
    fn sync_and_close(&mut self, writer: Self::Writer) -> Result<(), DeviceFault>
        ensures { step self.old
            (Wrote (write_delta nothing_taken (Self.Writer.history writer)) (is_ok result)) self.new };

    /// Puts the file that was made beside this one, and is closed, in its place. At each moment the name leads to one
    /// of the two. Ok says that it leads to the new one, which is held from then on, and that this lasts. An error
    /// if another file has taken the name of the one that is held.
    fn commit_replacement(&mut self, path: &str, hold: &mut Self::Hold) -> Result<(), DeviceFault>
        ensures { step self.old (Placed path.now (is_ok result)) self.new };

    /// Removes the file that was made beside this one, and is closed, if it is still there and can be removed.
    fn discard_replacement(&mut self, path: &str, hold: &mut Self::Hold)
        ensures { step self.old (Discarded path.now) self.new };

    /// Puts a log beside a file, with the records of the log that is there, and returns the image that both stand for
    /// and where the records end. At Ok the file and the log last, and the file is neither emptied nor replaced until
    /// the log is ended, but by calls of a `LogDisk`. At each moment, and after an error, both stand for the same image
    /// as before. An error if another file has taken the name of the one that is held.
    fn begin_log(
        &mut self,
        path: &str,
        hold: &mut Self::Hold,
    ) -> Result<CommittedImage, DeviceFault>
        ensures { BeginsLog step self.old self.new path.now result };

    /// Removes the log that was put beside a file, and has no record, if it is still there and can be removed.
    fn end_log(&mut self, path: &str, hold: &mut Self::Hold)
        ensures { step self.old (LogEnded path.now) self.new };

    /// Syncs a locked file, its log and the folder. Once this returns Ok, a crash loses neither file. Returns an error
    /// if a sync fails, or if the name of the locked file leads to another file.
    fn sync(&mut self, path: &str, hold: &mut Self::Hold) -> Result<(), DeviceFault>
        ensures { step self.old (Synced path.now (is_ok result)) self.new };
}

/// A writer that may keep back what it took, until it is flushed.
pub trait Output: Sink {
    // What a flush may answer, and what the writer is then.
    ghost flushes: { Self → Bool → Self → Type 0 };

    /// Gives out all that it took.
    fn flush(&mut self) -> Result<(), DeviceFault>
        ensures unchanged { Self.history self.new ≡ Self.history self.old }
        ensures flush { flushes self.old (is_ok result) self.new };
}
