//! The opening of the segment in a file, or the check of its image alone, as a session answers it.
ghost use Rattle.std.specs.Prelude.{◌≡◌};
ghost use Rattle.segment_commands.specs.Opening.{OpensWith, VerifiesFile, session_fault};

use image_check::{AcceptedVersions, OpenError};
use segment_cli::SessionFault;
use segment_disk::Disk;
use segment_file::{FileError, check, open_file};
use segment_manager::{Mode, Segment};
use std::alloc::Global;

/// Returns why a file has no segment. What stops a reading is one of three things.
pub(crate) fn session_fault(error: FileError) -> SessionFault
    ensures { result ≡ session_fault error }
{
    match error {
        FileError::Open(OpenError::Image(verdict)) => SessionFault::Image(verdict.class),
        FileError::Open(OpenError::OutOfMemory(refusal)) => SessionFault::OutOfMemory(refusal),
        _ => SessionFault::ReadFault,
    }
}

/// Returns the segment in a file, of any of these versions, with room for `more` bytes more. The file is closed.
pub(crate) fn open_segment<D: Disk>(
    alloc: Global,
    disk: &mut D,
    path: &str,
    versions: AcceptedVersions,
    mode: Mode,
    more: u64,
) -> Result<Segment, SessionFault>
    ensures { OpensWith D.step disk.old disk.new path.now versions mode more result }
{
    match open_file(alloc, disk, path, versions, mode, more) {
        Ok(segment) => Ok(segment),
        Err(error) => Err(session_fault(error)),
    }
}

/// Checks the image in a file, with the errors of a session. Keeps no segment, and closes the file.
pub(crate) fn verify_segment<D: Disk>(
    alloc: Global,
    disk: &mut D,
    path: &str,
) -> Result<(), SessionFault>
    ensures { VerifiesFile D.step disk.old disk.new path.now result }
{
    match check(alloc, disk, path) {
        Ok(()) => Ok(()),
        Err(error) => Err(session_fault(error)),
    }
}
