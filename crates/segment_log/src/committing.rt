//! Commits, openings and checkpoints over any disk. Each contract says what a crash leaves at each moment, and names no
//! steps.
ghost use Rattle.std.specs.Prelude.{◌≡◌};
ghost use Rattle.segment_log.specs.Committing.{CommitsRecord, MakesCheckpoint, ShutsGate};
ghost use Rattle.segment_log.specs.declared.committing.CommitError.TheVariants.{OutOfMemory as NoMemory};
ghost use Rattle.segment_log.specs.declared.committing.CommitError.TheVariants.{WriteFault as NotWritten};

use crate::log_disk::{LogDisk, LogFault, write_through};
use crate::records::{GATE_LEN, MAX_LOG_LEN, open_gate, record_body, shut_gate};
use std::alloc::{AllocError, Global};
use thiserror::Error;

/// Why a commit or a checkpoint is refused.
#[derive(Clone, Copy, Debug, PartialEq, Eq, Error)]
pub enum CommitError {
    /// Memory was refused, and nothing was written.
    #[error("no memory for the log")]
    OutOfMemory,
    /// The log or the payload has 2^40 bytes or more, and nothing was written.
    #[error("the log is too long")]
    TooLong,
    /// The log or the file can't be written, or need not last. No commit may follow, until the file is opened anew or
    /// a new file has taken its place.
    #[error("the log can't be written")]
    WriteFault,
}

impl From<AllocError> for CommitError {
    ghost from_gives = { λ _ error. error ≡ NoMemory };

    fn from(_: AllocError) -> CommitError {
        CommitError::OutOfMemory
    }
}

impl From<LogFault> for CommitError {
    ghost from_gives = { λ _ error. error ≡ NotWritten };

    fn from(_: LogFault) -> CommitError {
        CommitError::WriteFault
    }
}

/// Adds a record at the end of a log, and returns where the log ends then. At Ok the commit is durable.
///
/// # Errors
///
/// `OutOfMemory`; `TooLong`; `WriteFault`.
pub fn commit<D: LogDisk>(
    alloc: Global,
    disk: &mut D,
    hold: &mut D::Hold,
    end: usize,
    payload: &[u8],
) -> Result<usize, CommitError>
    ensures { CommitsRecord D.log_step disk.old disk.new end payload.now result }
{
    if end >= MAX_LOG_LEN || payload.len() >= MAX_LOG_LEN {
        return Err(CommitError::TooLong);
    }
    let body = record_body(alloc, payload)?;
    let gate = open_gate(alloc)?;
    write_through(disk, hold, end + GATE_LEN, &body)?;
    write_through(disk, hold, end, &gate)?;
    Ok(end + GATE_LEN + 8 + payload.len())
}

/// Shuts the gate at the end of a log, if an opening found it ajar.
///
/// # Errors
///
/// `OutOfMemory`; `WriteFault`.
pub fn shut<D: LogDisk>(
    alloc: Global,
    disk: &mut D,
    hold: &mut D::Hold,
    end: usize,
) -> Result<(), CommitError>
    ensures { ShutsGate D.log_step disk.old disk.new end result }
{
    let closed = shut_gate(alloc)?;
    write_through(disk, hold, end, &closed)?;
    Ok(())
}

/// Puts the image that a file stands for in the place of the file, and empties its log, which has a record.
///
/// # Errors
///
/// `OutOfMemory`; `WriteFault`.
pub fn checkpoint<D: LogDisk>(
    alloc: Global,
    disk: &mut D,
    hold: &mut D::Hold,
    image: &[u8],
) -> Result<(), CommitError>
    ensures { MakesCheckpoint D.log_step disk.old disk.new image.now result }
{
    let gate = shut_gate(alloc)?;
    disk.place(hold, image)?;
    write_through(disk, hold, 0, &gate)?;
    Ok(())
}
