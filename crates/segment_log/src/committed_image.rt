//! The image of the last commit, kept in memory: a commit writes what changed since.
ghost use Rattle.std.specs.Prelude.{◌≡◌, IfOk};
ghost use Rattle.segment_log.specs.CommittedImages.{CommitsImage, PlacesCommitted};

use crate::committing::{CommitError, checkpoint, commit};
use crate::fingerprints::fingerprint;
use crate::log_disk::LogDisk;
use crate::payloads::changes;
use std::alloc::{AllocError, Global};

/// Returns a copy of bytes.
fn copy(alloc: Global, bytes: &[u8]) -> Result<Vec<u8>, AllocError>
    ensures { IfOk result (λ copy. copy.items ≡ bytes.now) }
{
    let mut copy = Vec::with_capacity(alloc, bytes.len())?;
    copy.extend_from_slice(bytes)?;
    Ok(copy)
}

/// The image that a file stands for with its log, as the last commit left it.
#[derive(Drop)]
pub struct CommittedImage {
    /// The image.
    pub image: Vec<u8>,
    /// Where the records of the log end, and a shut gate stands.
    pub end: usize,
    /// The fingerprint of the file, by which its log is known.
    pub base: u64,
}

impl CommittedImage {
    /// Commits another image: writes what changed since the last commit to the log. At Ok the commit is durable. If
    /// nothing changed, nothing is written.
    ///
    /// # Errors
    ///
    /// `OutOfMemory`, or `TooLong` with a log of 2^40 bytes or an image of 2^35: nothing was written. `WriteFault`: the
    /// file and its log stand for the last image or the new one, and no commit may follow.
    pub fn commit<D: LogDisk>(
        &mut self,
        alloc: Global,
        disk: &mut D,
        hold: &mut D::Hold,
        image: &[u8],
    ) -> Result<(), CommitError>
        ensures { CommitsImage D.log_step disk.old disk.new self.old self.new image.now result }
    {
        if self.image.as_slice() == image {
            return Ok(());
        }
        let payload = changes(alloc, self.base, &self.image, image)?;
        let kept = copy(alloc, image)?;
        self.end = commit(alloc, disk, hold, self.end, &payload)?;
        self.image = kept;
        Ok(())
    }

    /// Puts the image into the file, and empties the log.
    ///
    /// # Errors
    ///
    /// `OutOfMemory`: nothing was written. `WriteFault`: the file and its log stand for the image, and no commit may
    /// follow.
    pub fn checkpoint<D: LogDisk>(
        &mut self,
        alloc: Global,
        disk: &mut D,
        hold: &mut D::Hold,
    ) -> Result<(), CommitError>
        ensures { PlacesCommitted D.log_step disk.old disk.new self.old self.new result }
    {
        if self.end > 0 {
            checkpoint(alloc, disk, hold, &self.image)?;
            self.base = fingerprint(&self.image);
            self.end = 0;
        }
        Ok(())
    }
}
