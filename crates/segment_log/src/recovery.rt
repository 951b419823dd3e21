//! The opening of a file with its log, as a crash may have left both.
ghost use Rattle.std.specs.Prelude.{◌≡◌, ◌≤◌, length, IfErr, IfOk, OnOk};
ghost use Rattle.segment_log.specs.Crashes.{with_log};
ghost use Rattle.segment_log.specs.Edits.{stands_for, Holds, most_len};
ghost use Rattle.segment_log.specs.Fingerprints.{fingerprint};
ghost use Rattle.segment_log.specs.Records.{IsEndOfLog, recovered};
ghost use Rattle.segment_log.specs.Recoveries.{RefusesForeign, RecoversTo};
ghost use Rattle.segment_log.specs.Tags.{AreTogether};
ghost use Rattle.segment_log.specs.declared.recovery.RecoverError.TheVariants.{ForeignLog, OutOfMemory as NoMemory};

use crate::edits::clear;
use crate::fingerprints::fingerprint;
use crate::replaying::{replay, replay_within};
use crate::tags::{belongs, fits};
use std::alloc::AllocError;
use thiserror::Error;

/// Why a file and its log stand for no image.
#[derive(Clone, Copy, Debug, PartialEq, Eq, Error)]
pub enum RecoverError {
    /// Memory was refused.
    #[error("no memory for the log")]
    OutOfMemory,
    /// The log is that of another file, or of the file as it was before another program wrote it.
    #[error("the log beside the file is of another file")]
    ForeignLog,
}

impl From<AllocError> for RecoverError {
    ghost from_gives = { λ _ error. error ≡ NoMemory };

    fn from(_: AllocError) -> RecoverError {
        RecoverError::OutOfMemory
    }
}

/// What a file stands for with its log.
#[derive(Drop)]
pub struct RecoveredImage {
    /// The image, with all records of the log.
    pub image: Vec<u8>,
    /// Where the records end. The gate there may be ajar.
    pub end: usize,
    /// The fingerprint of the file, which the first record of a log names.
    pub base: u64,
}

/// Returns the image of a file with its log. Asks for memory at most once, and only if a record makes the image longer
/// than the file.
///
/// # Errors
///
/// `ForeignLog` exactly if the log does not belong to the file: none of it is applied. `OutOfMemory`.
pub fn recover(base: Vec<u8>, log: &[u8]) -> Result<RecoveredImage, RecoverError>
    ensures image { IfOk result (λ r. r.image.items ≡ stands_for (with_log base.items log.now)) }
    ensures end { IfOk result (λ r. IsEndOfLog 4096 log.now r.end) }
    ensures base { IfOk result (λ r. r.base ≡ fingerprint base.items) }
    ensures tags { OnOk result (AreTogether (with_log base.items log.now)) }
    ensures refused { IfErr result (λ error. error ≡ ForeignLog → AreTogether (with_log base.items log.now) → ⊥) }
{
    let id = fingerprint(&base);
    if !belongs(log, id) {
        return Err(RecoverError::ForeignLog);
    }
    let mut image = base;
    let end = replay(&mut image, log)?;
    if !fits(log, fingerprint(&image)) {
        return Err(RecoverError::ForeignLog);
    }
    Ok(RecoveredImage {
        image,
        end,
        base: id,
    })
}

/// What a file stands for with its log, where the image was made in place.
#[derive(Clone, Copy)]
pub struct RecoveredWithin {
    /// How many bytes the image has.
    pub len: usize,
    /// Where the records of the log end.
    pub end: usize,
    /// The fingerprint of the file.
    pub base: u64,
    /// The fingerprint of the image.
    pub after: u64,
}

/// Puts the bytes of a file at the front of a buffer, and zeros behind them.
fn put_back(file: &[u8], buffer: &mut [u8])
    requires room { length file.now ≤ length buffer.now }
    ensures image { Holds buffer.new file.now }
    ensures len { length buffer.new ≡ length buffer.old }
{
    buffer[..file.len()].copy_from_slice(file);
    clear(&mut buffer[file.len()..]);
}

/// Makes the image of a file with its log in a buffer that has a copy of the file, and zeros behind it. Nothing but the
/// bytes of the records is copied.
///
/// # Errors
///
/// `ForeignLog` exactly if the log does not belong to the file: the buffer has the file again.
pub fn recover_within(
    file: &[u8],
    log: &[u8],
    buffer: &mut [u8],
) -> Result<RecoveredWithin, RecoverError>
    requires room { most_len (recovered log.now) (length file.now) ≤ length buffer.now }
    ensures opening { Holds buffer.old file.now → IfOk result
        (λ r. RecoversTo file.now log.now buffer.new r.len r.end r.base r.after) }
    ensures refused { Holds buffer.old file.now → IfErr result
        (λ error. (error ≡ ForeignLog) × RefusesForeign file.now log.now buffer.old buffer.new) }
{
    let base = fingerprint(&buffer[..file.len()]);
    if !belongs(log, base) {
        return Err(RecoverError::ForeignLog);
    }
    let made = replay_within(buffer, file.len(), log);
    let after = fingerprint(&buffer[..made.len]);
    if !fits(log, after) {
        put_back(file, buffer);
        return Err(RecoverError::ForeignLog);
    }
    Ok(RecoveredWithin {
        len: made.len,
        end: made.end,
        base,
        after,
    })
}
