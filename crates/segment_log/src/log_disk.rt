//! A file with its log as a commit sees them: contracts see what was asked, in order, and what was answered.
ghost use Rattle.std.specs.Prelude.{◌≡◌, is_ok};
ghost use Rattle.segment_log.specs.Committing.{WritesThrough};
ghost use Rattle.segment_log.specs.Events.{LogEvent, Placed, Synced, Wrote};

use thiserror::Error;

/// A file or its log can't be written, or need not last.
#[derive(Clone, Copy, Debug, Drop, PartialEq, Eq, Error)]
#[error("the log can't be written")]
pub struct LogFault;

/// A file and the log beside it. No body over real files can prove what a crash leaves: such a disk takes any steps,
/// and is tested.
pub trait LogDisk {
    // One question with its answer leads from one state of the disk to another.
    ghost log_step: { Self → LogEvent → Self → Type 0 };

    /// The right to write the file and its log.
    type Hold: Drop;

    /// Writes bytes at an offset of the log, over what it has there and past its end. Until it is written through, a
    /// crash may leave any bytes there.
    fn write_log(&mut self, hold: &mut Self::Hold, at: usize, bytes: &[u8]) -> Result<(), LogFault>
        ensures { log_step self.old (Wrote at bytes.now (is_ok result)) self.new };

    /// Writes the log through. Ok says that all that it took lasts.
    fn sync_log(&mut self, hold: &mut Self::Hold) -> Result<(), LogFault>
        ensures { log_step self.old (Synced (is_ok result)) self.new };

    /// Puts a new file of these bytes in the place of the file. Ok says that the file is the new one for good.
    fn place(&mut self, hold: &mut Self::Hold, image: &[u8]) -> Result<(), LogFault>
        ensures { log_step self.old (Placed image.now (is_ok result)) self.new };
}

/// Writes bytes at an offset of the log, and writes it through.
pub(crate) fn write_through<D: LogDisk>(
    disk: &mut D,
    hold: &mut D::Hold,
    at: usize,
    bytes: &[u8],
) -> Result<(), LogFault>
    ensures { WritesThrough D.log_step disk.old disk.new at bytes.now result }
{
    disk.write_log(hold, at, bytes)?;
    disk.sync_log(hold)
}
