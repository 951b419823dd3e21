//! How a session begins, and why it or the program may fail.
ghost use Rattle.std.specs.Prelude.{◌≡◌};
ghost use Rattle.image_check.specs.declared.errors.MemoryFault.TheVariants.{Bytes};
ghost use Rattle.segment_cli.specs.Beginning.{created_fault, opened_fault, run_fault};
ghost use Rattle.segment_cli.specs.declared.faults.SessionFault.TheVariants.{OutOfMemory as NoMemory};
ghost use Rattle.segment_cli.specs.declared.faults.SessionFault.TheVariants.{WriteFault as NotWritten};

use grow_shrink::GrowError;
use image_check::{ImageClass, MemoryFault, OpenError, OpenRefused};
use raw_region::{DeviceFault, OutOfMemory};
use segment_manager::{CreateError, CreateRefused};
use segment_scripts::RunFault;
use thiserror::Error;

/// What a session begins with.
#[derive(Clone, Copy, Debug, PartialEq, Eq)]
pub enum Start {
    /// An empty segment of this many bytes.
    Fresh(u64),
    /// The segment of the image that the session is given.
    Image,
}

/// Why a session fails. Nothing is saved then, but for a front of the image if writing it failed.
#[derive(Clone, Copy, Debug, PartialEq, Eq, Error)]
pub enum SessionFault {
    /// The image denotes no directory.
    #[error("image refused: {0}")]
    Image(ImageClass),
    /// The fresh size is neither 144 nor a multiple of 16 from 176 to 1073741824.
    #[error("size refused")]
    BadSize,
    /// The region ends before base plus size.
    #[error("region too small")]
    RegionTooSmall,
    /// Memory for the check of an image was refused.
    #[error("{0}")]
    OutOfMemory(MemoryFault),
    /// A reader failed.
    #[error("read fault")]
    ReadFault,
    /// A writer failed.
    #[error("write fault")]
    WriteFault,
    /// The script has more than 16777216 bytes.
    #[error("script too long")]
    ScriptTooLong,
}

impl From<CreateRefused> for SessionFault {
    ghost from_gives = { λ refused fault. fault ≡ created_fault refused.cause };

    fn from(refused: CreateRefused) -> SessionFault {
        match refused.cause {
            CreateError::BadSize => SessionFault::BadSize,
            CreateError::RegionTooSmall => SessionFault::RegionTooSmall,
        }
    }
}

impl From<OpenRefused> for SessionFault {
    ghost from_gives = { λ refused fault. fault ≡ opened_fault refused.cause };

    fn from(refused: OpenRefused) -> SessionFault {
        match refused.cause {
            OpenError::Image(verdict) => SessionFault::Image(verdict.class),
            OpenError::RegionTooSmall => SessionFault::RegionTooSmall,
            OpenError::OutOfMemory(refusal) => SessionFault::OutOfMemory(refusal),
            OpenError::ReadFault => SessionFault::ReadFault,
        }
    }
}

impl From<OutOfMemory> for SessionFault {
    ghost from_gives = { λ refusal fault. fault ≡ NoMemory (Bytes refusal) };

    fn from(refusal: OutOfMemory) -> SessionFault {
        SessionFault::OutOfMemory(MemoryFault::Bytes(refusal))
    }
}

impl From<DeviceFault> for SessionFault {
    ghost from_gives = { λ _ fault. fault ≡ NotWritten };

    /// Says that a writer failed: no call tells a failed read this way.
    fn from(_fault: DeviceFault) -> SessionFault {
        SessionFault::WriteFault
    }
}

impl From<RunFault> for SessionFault {
    ghost from_gives = { λ stopped fault. fault ≡ run_fault stopped };

    fn from(stopped: RunFault) -> SessionFault {
        match stopped {
            RunFault::ReadFault => SessionFault::ReadFault,
            RunFault::WriteFault => SessionFault::WriteFault,
            RunFault::ScriptTooLong => SessionFault::ScriptTooLong,
        }
    }
}

/// Why the program fails.
#[derive(Clone, Copy, Debug, PartialEq, Eq, Error)]
pub enum ProgramFault {
    /// The command line is wrong or asks for help. Whoever read it says so.
    #[error("usage")]
    Usage,
    /// The file to create exists already.
    #[error("file exists")]
    Exists,
    /// The segment does not grow.
    #[error("growth refused: {0}")]
    Growth(GrowError),
    /// A session fails.
    #[error("{0}")]
    Session(SessionFault),
}
