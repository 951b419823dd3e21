//! Logs beside the files of the system: commits that the files do not have yet.
ghost use Rattle.std.specs.Prelude.{◌≡◌, ◌≤◌, ◌++◌, take, length, IfErr, IfOk, OnOk, Some};
ghost use Rattle.segment_log.specs.{CommittedImages.IsCommitted, Crashes.with_log, Records.shut_gate};
ghost use Rattle.segment_disk.specs.Logs.{Recovers, RefusesLog};

use crate::file_problems::problem_of;
use crate::found_log::{FoundLog, find_log};
use crate::locks::{goes_on_with, leads_to};
use crate::presence::FileProblem;
use segment_log::{
    CommittedImage, RecoverError, RecoveredImage, recover, repaired_is_ready, shut_gate,
};
use std::alloc::{AllocError, Global};
use std::fs::{self, File};
use std::io::{self, Read, Seek, SeekFrom};
use std::rt::Files;

/// How often a file and its log are read that a writer changes meanwhile.
const TRIES: usize = 64;

/// How often a file is read with a log that seems to be that of another file, since a writer may be about to remove it.
const READINGS: usize = 8;

/// Why a file can't be read or written with its log, as far as that is known.
pub(crate) type LogTrouble = Option<FileProblem>;

/// Returns what an error of the system says.
pub(crate) fn trouble_of(error: io::Error) -> LogTrouble {
    problem_of(error.kind())
}

/// Returns true if a file has no log with a record beside it, as far as the system tells.
pub(crate) fn has_no_record<R: Files<File = File> + AllocGlobal>(rt: &R, path: &str) -> bool {
    matches!(
        find_log(rt, path),
        Ok(FoundLog::Nothing | FoundLog::Foreign | FoundLog::Empty(_))
    )
}

/// Returns the log beside a file and its bytes, or no log and no bytes if it has no record.
fn read_shared_log<R: Files<File = File> + AllocGlobal>(
    rt: &R,
    path: &str,
) -> Result<(Option<File>, Vec<u8>), LogTrouble> {
    let FoundLog::Records(mut file) = find_log(rt, path).map_err(trouble_of)? else {
        return Ok((None, Vec::new(rt.alloc())));
    };
    let bytes = read_file(rt.alloc(), &mut file)?;
    Ok((Some(file), bytes))
}

/// Returns true if a log that was read still has its records. A process of an older version may empty a log and begin
/// it anew: then the bytes of one reading may be of two logs.
fn has_still(log: Option<File>, records: &[u8]) -> bool {
    let Some(mut log) = log else {
        return true;
    };
    log.seek(SeekFrom::Start(0)).is_ok() && goes_on_with(&mut log, records).unwrap_or(false)
}

/// Returns what the bytes of a file stand for with those of its log. The log of another file is refused.
pub(crate) fn recovered(base: Vec<u8>, log: &[u8]) -> Result<RecoveredImage, LogTrouble>
    ensures image { IfOk result (λ made. Recovers base.items log.now made) }
    ensures refused { IfErr result (λ why. RefusesLog base.items log.now why) }
{
    match recover(base, log) {
        Ok(made) => Ok(made),
        Err(RecoverError::ForeignLog) => Err(Some(FileProblem::ForeignLog)),
        Err(RecoverError::OutOfMemory) => Err(None),
    }
}

/// Returns the bytes of a log up to the end of its records, and a shut gate.
fn shut_at(alloc: Global, log: &[u8], end: usize) -> Result<Vec<u8>, AllocError>
    requires in_bounds { end ≤ length log.now }
    ensures { IfOk result (λ bytes. bytes.items ≡ take end log.now ++ shut_gate) }
{
    let mut bytes = Vec::new(alloc);
    bytes.extend_from_slice(&log[..end])?;
    bytes.extend_from_slice(&shut_gate(alloc)?)?;
    Ok(bytes)
}

/// Recovers the image of a file and its log, ready for the next commit. Also returns the bytes of the log up to the end
/// of its records, with a shut gate. Refuses the log of another file.
pub(crate) fn committed(
    alloc: Global,
    base: Vec<u8>,
    log: &[u8],
) -> Result<(CommittedImage, Vec<u8>), LogTrouble>
    ensures { IfOk result (λ made. IsCommitted (with_log base.items made.1.items) made.0) }
{
    let made = recovered(base, log)?;
    let Ok(gated) = shut_at(alloc, log, made.end) else {
        return Err(None);
    };
    repaired_is_ready();
    let kept = CommittedImage {
        image: made.image,
        end: made.end,
        base: made.base,
    };
    Ok((kept, gated))
}

/// Reads a file that is open.
pub(crate) fn read_file(alloc: Global, file: &mut File) -> Result<Vec<u8>, LogTrouble> {
    let mut bytes = Vec::new(alloc);
    file.read_to_end(&mut bytes).map_err(trouble_of)?;
    Ok(bytes)
}

/// Returns what a file that was opened by a path stands for with its log, which is read first. Returns `None` if
/// another process emptied the log or replaced the file.
fn read_once<R: Files<File = File> + AllocGlobal>(
    rt: &R,
    path: &str,
    file: &mut File,
) -> Result<Option<RecoveredImage>, LogTrouble> {
    let (log, mut bytes) = read_shared_log(rt, path)?;
    let made = recovered(read_file(rt.alloc(), file)?, &bytes);
    if let Ok(made) = &made {
        bytes.truncate(made.end);
    }
    if has_still(log, &bytes) && leads_to(rt, path, file) {
        Ok(Some(made?))
    } else {
        Ok(None)
    }
}

/// Reads a file and its log as [`read_recovered`] does. The log may seem to be that of another file.
fn read_unchanged<R: Files<File = File> + AllocGlobal>(
    rt: &R,
    path: &str,
    file: &mut File,
) -> Result<RecoveredImage, LogTrouble> {
    for _ in 0..TRIES {
        if let Some(made) = read_once(rt, path, file)? {
            return Ok(made);
        }
        *file = fs::open(rt, path).map_err(trouble_of)?;
    }
    Err(Some(FileProblem::Writer))
}

/// Returns what the file of a path, which was opened, stands for with its log: an image that both had together during
/// the call. Both are read again if another process changed them meanwhile.
pub(crate) fn read_recovered<R: Files<File = File> + AllocGlobal>(
    rt: &R,
    path: &str,
    opened: File,
) -> Result<RecoveredImage, LogTrouble> {
    let mut file = opened;
    for _ in 1..READINGS {
        match read_unchanged(rt, path, &mut file) {
            Err(Some(FileProblem::ForeignLog)) => {}
            read => return read,
        }
        file = fs::open(rt, path).map_err(trouble_of)?;
    }
    read_unchanged(rt, path, &mut file)
}
