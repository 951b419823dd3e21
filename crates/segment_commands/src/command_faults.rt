//! Why a command fails.
ghost use Rattle.std.specs.Prelude.{◌≡◌};
ghost use Rattle.image_check.specs.declared.errors.MemoryFault.TheVariants.{Bytes};
ghost use Rattle.segment_cli.specs.declared.faults.SessionFault.TheVariants.{OutOfMemory as NoMemory};
ghost use Rattle.segment_cli.specs.declared.faults.SessionFault.TheVariants.{WriteFault as NotWritten};
ghost use Rattle.segment_commands.specs.declared.command_faults.CommandFault.TheVariants.{InUse as HeldByAnother};
ghost use Rattle.segment_commands.specs.declared.command_faults.CommandFault.TheVariants.{Session as SessionFails};
ghost use Rattle.segment_commands.specs.declared.command_faults.CommandFault.TheVariants.{OutOfMemory as MemoryRefused};
ghost use Rattle.segment_commands.specs.Commands.{written_as};

use grow_shrink::GrowError;
use raw_region::{DeviceFault, OutOfMemory};
use segment_cli::SessionFault;
use segment_disk::AlreadyLocked;
use segment_dump::BadDump;
use std::alloc::AllocError;
use thiserror::Error;

/// Why a command fails.
#[derive(Clone, Copy, Debug, PartialEq, Eq, Error)]
pub enum CommandFault {
    /// The command line is wrong, or a size is missing.
    #[error("usage")]
    Usage,
    /// The file to create exists already.
    #[error("file exists")]
    Exists,
    /// The segment does not grow.
    #[error("growth refused: {0}")]
    Growth(GrowError),
    /// A session fails.
    #[error("{0}")]
    Session(SessionFault),
    /// The right to write the file was refused, or another writer may have changed the file while it was read.
    #[error("file in use")]
    InUse,
    /// A strict run stopped at a line that was refused. Nothing is saved.
    #[error("stopped at an error, and nothing is saved")]
    Stopped,
    /// A linted script has lines that are no commands.
    #[error("some lines are no commands")]
    Misspelled,
    /// A text is no dump.
    #[error("dump refused: {0}")]
    BadDump(BadDump),
    /// The objects of a dump do not fit the size: they need this number of bytes.
    #[error("no space: the objects need {0} bytes")]
    NoSpace(u64),
    /// The key leads to no object, or the object has no value at the index.
    #[error("no such value")]
    NoValue,
    /// More objects are to be drawn than people can use.
    #[error("more than 10000 objects")]
    TooManyObjects,
    /// Memory for the work of a salvage was refused.
    #[error("out of memory")]
    OutOfMemory,
}

/// A file or standard output can't be written.
pub(crate) const WRITE_FAULT: CommandFault = CommandFault::Session(SessionFault::WriteFault);

/// Converts the result of a write to the result of a command.
pub(crate) fn written(answer: Result<(), DeviceFault>) -> Result<(), CommandFault>
    ensures { result ≡ written_as answer }
{
    match answer {
        Ok(()) => Ok(()),
        Err(_) => Err(WRITE_FAULT),
    }
}

impl From<SessionFault> for CommandFault {
    ghost from_gives = { λ failed fault. fault ≡ SessionFails failed };

    fn from(failed: SessionFault) -> CommandFault {
        CommandFault::Session(failed)
    }
}

impl From<DeviceFault> for CommandFault {
    ghost from_gives = { λ _ fault. fault ≡ SessionFails NotWritten };

    /// Converts a failed write to a file or to standard output. No failed read is converted here.
    fn from(_refused: DeviceFault) -> CommandFault {
        WRITE_FAULT
    }
}

impl From<AlreadyLocked> for CommandFault {
    ghost from_gives = { λ _ fault. fault ≡ HeldByAnother };

    fn from(_refused: AlreadyLocked) -> CommandFault {
        CommandFault::InUse
    }
}

impl From<AllocError> for CommandFault {
    ghost from_gives = { λ _ fault. fault ≡ MemoryRefused };

    fn from(_refusal: AllocError) -> CommandFault {
        CommandFault::OutOfMemory
    }
}

impl From<OutOfMemory> for CommandFault {
    ghost from_gives = { λ refusal fault. fault ≡ SessionFails (NoMemory (Bytes refusal)) };

    fn from(refusal: OutOfMemory) -> CommandFault {
        CommandFault::Session(SessionFault::from(refusal))
    }
}
