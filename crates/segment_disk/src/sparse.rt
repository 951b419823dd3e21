//! Sparse files: long runs of zeros take no space on the disk.
ghost use Rattle.std.specs.Prelude.{◌≡◌, ◌<◌, ◌≤◌, length, take, true, false};
ghost use Rattle.raw_region.specs.Memory.{AreZero, bytes_of};

use std::fs::{self, File, OpenFile};
use std::io::{self, ErrorKind, Seek, SeekFrom, Write};
use std::rt::Files;

/// The length of the longest piece, in bytes. A piece is skipped or written.
const PIECE: usize = 65_536;

/// The file in which the system lists the limits of this process.
const LIMITS: &str = "/proc/self/limits";

/// A file that is written from its first byte on. If it was an empty file on a disk, pieces of zeros are skipped: such
/// a hole reads as zeros and takes no space.
#[derive(Drop)]
pub struct SparseFile {
    file: File,
    /// Whether pieces of zeros are skipped.
    has_holes: bool,
    /// How many bytes it may still take.
    left: u64,
}

impl SparseFile {
    /// Wraps a file that was just created or emptied. A file on a disk can get at most `longest` bytes.
    pub(crate) fn new(file: File, longest: u64) -> SparseFile {
        let has_holes = match file.metadata() {
            Ok(found) => found.is_file() && found.len() == 0,
            Err(_) => false,
        };
        let left = if has_holes { longest } else { u64::MAX };
        SparseFile {
            file,
            has_holes,
            left,
        }
    }

    /// Sets the length of the file, so that zeros skipped at its end belong to it.
    pub(crate) fn end(&self) -> io::Result<()> {
        if !self.has_holes {
            return Ok(());
        }
        let mut file = &self.file;
        let len = file.stream_position()?;
        self.file.set_len(len)
    }

    /// Returns the file itself.
    pub(crate) fn file(&self) -> &File {
        &self.file
    }
}

/// Returns the first `PIECE` bytes, or all bytes if there are fewer.
fn first_piece(bytes: &[u8]) -> &[u8]
    ensures in_bounds { length result.now ≤ length bytes.now }
    ensures prefix { result.now ≡ take (length result.now) bytes.now }
    ensures non_empty { 0 < length bytes.now → 0 < length result.now }
{
    &bytes[..bytes.len().min(PIECE)]
}

/// Tells whether all bytes are 0.
pub(crate) fn are_zeros(bytes: &[u8]) -> bool
    ensures zeros { result ≡ true → AreZero (bytes_of bytes.now) 0 (length bytes.now) }
    ensures complete { result ≡ false → AreZero (bytes_of bytes.now) 0 (length bytes.now) → ⊥ }
{
    let mut largest = 0;
    'bytes: for at in 0..bytes.len() {
        largest = largest.max(bytes[at]);
    }
    largest == 0
}

impl Write for SparseFile {
    fn write(&mut self, bytes: &[u8]) -> io::Result<usize> {
        let prefix = first_piece(bytes);
        let Some(left) = self.left.checked_sub(prefix.len() as u64) else {
            return Err(io::Error::from(ErrorKind::FileTooLarge));
        };
        let taken = if self.has_holes && are_zeros(prefix) {
            self.file.seek(SeekFrom::Current(prefix.len() as i64))?;
            prefix.len()
        } else {
            self.file.write(prefix)?
        };
        self.left = left;
        Ok(taken)
    }

    fn flush(&mut self) -> io::Result<()> {
        self.file.flush()
    }
}

/// Returns the system's limit on the length of a file that this process writes, in bytes; the largest number if the
/// process has no limit, or it is unknown. A write past the limit ends the process by a signal.
pub(crate) fn longest_file<R: Files + AllocGlobal>(rt: &R) -> u64 {
    match fs::read_to_string(rt, LIMITS) {
        Ok(text) => soft_limit(text.as_str()).unwrap_or(u64::MAX),
        Err(_) => u64::MAX,
    }
}

/// Returns the soft limit on the length of a file from the text of `LIMITS`, if it is a number.
fn soft_limit(text: &str) -> Option<u64> {
    let (_, behind) = text.split_once("Max file size")?;
    let word = behind.split_whitespace().next()?;
    word.parse::<u64>().ok()
}
