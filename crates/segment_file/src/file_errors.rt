//! Why a segment's file is not made, read or written.
ghost use Rattle.std.specs.Prelude.{◌≡◌};
ghost use Rattle.segment_file.specs.declared.file_errors.FileError.TheVariants.{Growth, Open, OutOfMemory as NoMemory};
ghost use Rattle.segment_file.specs.declared.file_errors.FileError.TheVariants.{WriteFault as NotWritten};
ghost use Rattle.segment_file.specs.Opening.{unopened_error};
ghost use Rattle.segment_file.specs.SegmentFiles.{growth_file_error};

use grow_shrink::{GrowError, GrowOrMoveError};
use image_check::OpenError;
use raw_region::{DeviceFault, OutOfMemory};
use segment_disk::NotOpened;
use thiserror::Error;

/// Why a call of a [`SegmentFile`](crate::SegmentFile) is refused.
#[derive(Clone, Copy, Debug, PartialEq, Eq, Error)]
pub enum FileError {
    /// Something is there already under the path.
    #[error("something is there already")]
    Exists,
    /// No segment has the size: it is neither 144 nor a multiple of 16 from 176 to 1073741824.
    #[error("size refused")]
    BadSize,
    /// There is no segment in the file: its bytes denote no directory, it can't be opened or read, or memory was
    /// refused for that.
    #[error("{0}")]
    Open(OpenError),
    /// Memory was refused: for the path, or for the region of a new segment or a longer one.
    #[error("{0}")]
    OutOfMemory(OutOfMemory),
    /// The file can't be made or emptied, takes not the whole image, or need not last.
    #[error("the file can't be written")]
    WriteFault,
    /// The log beside the file is of another file. Neither was changed.
    #[error("the log beside the file is of another file")]
    ForeignLog,
    /// Another has the right to write the file.
    #[error("the file is in use")]
    InUse,
    /// The segment does not become longer or shorter.
    #[error("{0}")]
    Growth(GrowError),
}

impl From<OpenError> for FileError {
    ghost from_gives = { λ why error. error ≡ Open why };

    fn from(why: OpenError) -> FileError {
        FileError::Open(why)
    }
}

impl From<NotOpened> for FileError {
    ghost from_gives = { λ why error. error ≡ unopened_error why };

    fn from(why: NotOpened) -> FileError {
        match why {
            NotOpened::Fault => FileError::Open(OpenError::ReadFault),
            NotOpened::ForeignLog => FileError::ForeignLog,
        }
    }
}

impl From<GrowError> for FileError {
    ghost from_gives = { λ why error. error ≡ Growth why };

    fn from(why: GrowError) -> FileError {
        FileError::Growth(why)
    }
}

impl From<OutOfMemory> for FileError {
    ghost from_gives = { λ refusal error. error ≡ NoMemory refusal };

    fn from(refusal: OutOfMemory) -> FileError {
        FileError::OutOfMemory(refusal)
    }
}

impl From<GrowOrMoveError> for FileError {
    ghost from_gives = { λ why error. error ≡ growth_file_error why };

    fn from(why: GrowOrMoveError) -> FileError {
        match why {
            GrowOrMoveError::Growth(reason) => FileError::Growth(reason),
            GrowOrMoveError::OutOfMemory(refusal) => FileError::OutOfMemory(refusal),
        }
    }
}

impl From<DeviceFault> for FileError {
    ghost from_gives = { λ _ error. error ≡ NotWritten };

    /// Says that a file can't be written: no call tells a failed read this way.
    fn from(_fault: DeviceFault) -> FileError {
        FileError::WriteFault
    }
}
