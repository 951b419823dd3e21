//! What is wrong with a command line.
ghost use Rattle.std.specs.Prelude.{◌≡◌};
ghost use Rattle.clap.specs.{Values.kind_of, declared.error.kind.ErrorKind.TheVariants.OutOfMemory as NoMemory};
ghost use Rattle.segment_invocation.specs.declared.usage.InvocationFault.TheVariants.{OutOfMemory, Usage};
ghost use Rattle.segment_invocation.specs.declared.usage.UsageError.TheVariants.{Arguments};

use crate::nearest::Tip;
use clap::Error as Misread;
use clap::error::ErrorKind;
use std::alloc::AllocError;
use thiserror::Error;

/// What is wrong with a command line. As text it is what the user is told, with the line end.
#[derive(Debug, Drop, Error)]
pub enum UsageError {
    /// The words do not fit, or ask for help.
    #[error("{0}")]
    Arguments(Misread),
    /// No command stands after the program's name.
    #[error("error: a command is missing\n")]
    Command,
    /// A command has no file.
    #[error("error: a file is missing\n")]
    File,
    /// A value is to be printed, and no key says which.
    #[error("error: a key is missing\n")]
    Key,
    /// A size or another number is none from 0 to 18446744073709551615 in plain decimal.
    #[error("error: a number has digits alone, with no zero in front, and is at most 18446744073709551615\n")]
    Number,
    /// The mode is none of the five; the name of the nearest, if one is near.
    #[error("error: a mode is create_only, open_only, open_or_create, open_read_only or open_copy_on_write\n{0}")]
    Mode(Tip),
    /// The flag of a mode and `--mode` are both given.
    #[error("error: -r is the mode open_read_only; leave --mode out\n")]
    Modes,
    /// The mode may make a segment, and no size is given.
    #[error("error: the modes create_only and open_or_create want --size with a number of bytes\n")]
    Size,
    /// A script is to come from a file and from the command line.
    #[error("error: the script is SCRIPT or the lines of -c, and not both\n")]
    Script,
    /// More than one file is to be explained.
    #[error("error: --explain takes one FILE\n")]
    Files,
    /// A dump is to be JSON, and to tell capacities, which JSON has no place for.
    #[error("error: --json tells no capacities; leave --capacities out\n")]
    Capacities,
    /// A run is to commit that saves otherwise, or not at all.
    #[error("error: --commit takes --mode open_only or open_or_create, and neither --replace nor -r\n")]
    Commit,
}

/// Why a command line asks for nothing that the program does.
#[derive(Debug, Drop, Error)]
pub enum InvocationFault {
    /// The command line is wrong, or asks for help.
    #[error("{0}")]
    Usage(UsageError),
    /// Memory for reading it was refused.
    #[error("error: out of memory\n")]
    OutOfMemory,
}

impl From<UsageError> for InvocationFault {
    ghost from_gives = { λ error fault. fault ≡ Usage error };

    fn from(error: UsageError) -> InvocationFault {
        InvocationFault::Usage(error)
    }
}

impl From<Misread> for InvocationFault {
    ghost from_gives = { λ error fault.
        (kind_of error ≡ NoMemory → fault ≡ OutOfMemory)
        × ((kind_of error ≡ NoMemory → ⊥) → fault ≡ Usage (Arguments error)) };

    fn from(error: Misread) -> InvocationFault {
        if error.kind() == ErrorKind::OutOfMemory {
            return InvocationFault::OutOfMemory;
        }
        InvocationFault::Usage(UsageError::Arguments(error))
    }
}

impl From<AllocError> for InvocationFault {
    ghost from_gives = { λ _ fault. fault ≡ OutOfMemory };

    fn from(_error: AllocError) -> InvocationFault {
        InvocationFault::OutOfMemory
    }
}
