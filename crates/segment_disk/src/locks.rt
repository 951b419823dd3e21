//! The right to write a file of the system: a lock on it, which the system takes away when its holder ends.
ghost use Rattle.std.specs.Prelude.{◌≡◌, ◌≢◌, Some, false};
ghost use Rattle.std.specs.Bool.{OnTrue};
ghost use Rattle.segment_disk.specs.declared.locks.Identity.{Identity};

use crate::file_problems::locks_nothing;
use std::fs::{self, File, Metadata, OpenOptions, TryLockError};
use std::io::{self, ErrorKind, Read};
use std::os::fd::AsRawFd;
use std::os::unix::fs::MetadataExt;
use std::rt::Files;
use std::thread::sleep;
use std::time::{Clock, Duration};

/// How often a file is opened anew that was replaced before it was locked, and one is locked that was just made.
const TRIES: u32 = 8;

/// How often a lock is asked for again that readers alone have: each has it until it has read the file.
const READERS: u32 = 100;

/// How many bytes of a file are compared at once, at most.
const PIECE: usize = 65_536;

/// After how many milliseconds a lock is asked for again that another has.
pub(crate) const PAUSE: u64 = 50;

/// Which file one is, whatever names lead to it while it is open.
#[derive(Clone, Copy, Debug, PartialEq, Eq)]
pub(crate) enum Identity {
    /// No file: nothing is there.
    Nothing,
    /// The one with this number on this device.
    Inode { device: u64, number: u64 },
}

impl Identity {
    /// Returns the identity of a file by its metadata.
    pub(crate) fn new(found: &Metadata) -> Identity {
        Identity::Inode {
            device: found.dev(),
            number: found.ino(),
        }
    }

    /// Returns the identity of an open file, if the system tells.
    pub(crate) fn of(file: &File) -> Option<Identity> {
        match file.metadata() {
            Ok(found) => Some(Identity::new(&found)),
            Err(_) => None,
        }
    }

    /// Returns the identity of the file that a path leads to.
    pub(crate) fn at<R: Files<File = File>>(files: &R, path: &str) -> io::Result<Identity> {
        Ok(Identity::new(&fs::metadata(files, path)?))
    }
}

/// Returns true if both files are known, and are not the same.
pub(crate) fn are_different(held: Option<Identity>, named: Option<Identity>) -> bool
    ensures on_true { OnTrue result ((h n : Identity) × (held ≡ Some h) × (named ≡ Some n) × (h ≢ n)) }
    ensures on_false { result ≡ false → (h n : Identity) → held ≡ Some h → named ≡ Some n → h ≡ n }
{
    match (held, named) {
        (Some(held), Some(named)) => held != named,
        _ => false,
    }
}

/// What there is to hold of a file.
#[derive(Drop)]
pub(crate) enum FileLock {
    /// Its lock.
    Held(File),
    /// Nothing: it can't be locked, or is no file on a disk, as a pipe.
    Unlocked,
    /// Nothing: it was not there when its lock was asked for.
    Absent,
}

impl FileLock {
    /// Returns the one file that may be written: the locked one, or no file if it was not there. `None` is any.
    pub(crate) fn identity(&self) -> Option<Identity> {
        match self {
            FileLock::Held(file) => Identity::of(file),
            FileLock::Unlocked => None,
            FileLock::Absent => Some(Identity::Nothing),
        }
    }
}

/// Tells whether a path still leads to a file that was opened by it.
pub(crate) fn leads_to<R: Files<File = File>>(files: &R, path: &str, file: &File) -> bool {
    Identity::at(files, path).is_ok_and(|named| Identity::of(file) == Some(named))
}

/// Returns true if a name leads to an open file, and is no link to it.
pub(crate) fn is_named<R: Files<File = File>>(files: &R, path: &str, file: &File) -> bool {
    match fs::symlink_metadata(files, path) {
        Ok(found) => Identity::of(file) == Some(Identity::new(&found)),
        Err(_) => false,
    }
}

/// Removes the name of an open file, if it still leads to that file.
pub(crate) fn remove_named<R: Files<File = File>>(
    files: &R,
    path: &str,
    file: &File,
) -> io::Result<()> {
    if !is_named(files, path, file) {
        return Err(io::Error::from(ErrorKind::NotFound));
    }
    fs::remove_file(files, path)
}

/// Opens a file for writing, and changes nothing of it.
pub(crate) fn open_to_write<R: Files<File = File>>(files: &R, path: &str) -> io::Result<File> {
    let mut options = OpenOptions::new();
    options.write(true);
    options.open(files, path)
}

/// Returns true if the next bytes of a file are these.
pub(crate) fn goes_on_with(file: &mut File, bytes: &[u8]) -> io::Result<bool> {
    let mut buffer = [0; PIECE];
    'pieces: for piece in bytes.chunks(PIECE) {
        let len = piece.len().min(buffer.len());
        let read = &mut buffer[..len];
        file.read_exact(read)?;
        if &*read != piece {
            return Ok(false);
        }
    }
    Ok(true)
}

/// Opens the file of a path if it is on a disk, can be written and has these bytes, and no more: the one that is held,
/// if one is. The file stays as it is.
pub(crate) fn open_equal<R: Files<File = File>>(
    files: &R,
    path: &str,
    held: Option<Identity>,
    bytes: &[u8],
) -> io::Result<Option<File>> {
    let found = fs::metadata(files, path)?;
    if !found.is_file() || found.len() != bytes.len() as u64 {
        return Ok(None);
    }
    let mut options = OpenOptions::new();
    options.read(true).write(true);
    let mut file = options.open(files, path)?;
    if held.is_some() && Identity::of(&file) != held {
        return Ok(None);
    }
    let is_equal = goes_on_with(&mut file, bytes)?;
    Ok(is_equal.then_some(file))
}

/// Asks the system to write a file through. What is no file on a disk, as a pipe, can't be asked that.
pub(crate) fn sync_file(file: &File) -> bool {
    match file.sync_all() {
        Ok(()) => true,
        Err(error) => error.kind() == ErrorKind::InvalidInput,
    }
}

/// What came of a request for a lock.
#[derive(Clone, Copy, PartialEq, Eq)]
enum LockAnswer {
    /// The file is locked.
    Granted,
    /// Another has a lock of the file.
    Refused,
    /// The file can't be locked where it is.
    NoLocks,
}

/// Asks for the lock of a file that is open. A signal may come between.
///
/// # Errors
///
/// The system did not lock the file, and did not say that it locks none there.
fn ask(file: &File) -> io::Result<LockAnswer> {
    for _ in 0..TRIES {
        match file.try_lock() {
            Ok(()) => return Ok(LockAnswer::Granted),
            Err(TryLockError::WouldBlock) => return Ok(LockAnswer::Refused),
            Err(TryLockError::Error(error)) if locks_nothing(error.kind()) => {
                return Ok(LockAnswer::NoLocks);
            }
            Err(TryLockError::Error(error)) if error.kind() == ErrorKind::Interrupted => {}
            Err(TryLockError::Error(error)) => return Err(error),
        }
    }
    Err(io::Error::from(ErrorKind::Interrupted))
}

/// Returns true if a file has the number of a standard stream that is closed: what is printed would be written to it.
fn is_standard(file: &File) -> bool {
    file.as_raw_fd() <= 2
}

/// Opens a file on a disk to lock it: for writing if that may be, since a file that is open for reading alone can't be
/// locked everywhere.
pub(crate) fn open_to_hold<R: Files<File = File>>(files: &R, path: &str) -> io::Result<File> {
    let mut options = OpenOptions::new();
    options.read(true).write(true);
    let found = match options.open(files, path) {
        Ok(file) => Ok(file),
        Err(_) => open_to_write(files, path),
    };
    match found {
        Ok(file) if !is_standard(&file) => Ok(file),
        _ => fs::open(files, path),
    }
}

/// Opens what a path leads to, if that is a file on a disk: to open a pipe would wait for its other end.
fn open_to_lock<R: Files<File = File>>(files: &R, path: &str) -> io::Result<Option<File>> {
    if !fs::metadata(files, path)?.is_file() {
        return Ok(None);
    }
    Ok(Some(open_to_hold(files, path)?))
}

/// Tells whether another has the right to write a file that is open. If none has, the file is locked for reading from
/// then on, so that none gets it.
pub(crate) fn is_written(file: &File) -> bool {
    matches!(file.try_lock_shared(), Err(TryLockError::WouldBlock))
}

/// Why a file is not locked.
#[derive(Drop)]
pub(crate) enum NotLocked {
    /// Another has the right to write it.
    InUse,
    /// The system did not lock it.
    Fault(io::Error),
}

/// Locks the file that a path leads to, if one is there that can be locked. Who reads it is waited for.
pub(crate) fn lock<R: Files<File = File> + Clock>(
    files: &R,
    path: &str,
) -> Result<FileLock, NotLocked> {
    for _ in 0..READERS {
        let file = match open_to_lock(files, path) {
            Ok(Some(file)) => file,
            Ok(None) => return Ok(FileLock::Unlocked),
            Err(error) if error.kind() == ErrorKind::NotFound => return Ok(FileLock::Absent),
            Err(error) => return Err(NotLocked::Fault(error)),
        };
        match ask(&file) {
            Ok(LockAnswer::Granted) if leads_to(files, path, &file) => {
                return Ok(FileLock::Held(file));
            }
            // it was replaced in between, and the lock is that of the file that was there before
            Ok(LockAnswer::Granted) => {}
            Ok(LockAnswer::NoLocks) => return Ok(FileLock::Unlocked),
            Ok(LockAnswer::Refused) if is_written(&file) => return Err(NotLocked::InUse),
            Ok(LockAnswer::Refused) => sleep(files, Duration::from_millis(PAUSE)),
            Err(error) => return Err(NotLocked::Fault(error)),
        }
    }
    Err(NotLocked::InUse)
}

/// Returns true if a file that is open gets its lock, or can't be locked where it is.
pub(crate) fn is_free(file: &File) -> bool {
    matches!(ask(file), Ok(LockAnswer::Granted | LockAnswer::NoLocks))
}

/// Locks a file that was just made, if it can be. Another may have opened it since, and has the lock until it finds no
/// segment there.
pub(crate) fn lock_made<C: Clock>(clock: &C, file: &File) -> io::Result<FileLock> {
    for _ in 0..TRIES {
        match ask(file)? {
            LockAnswer::Granted => return Ok(FileLock::Held(file.try_clone()?)),
            LockAnswer::NoLocks => return Ok(FileLock::Unlocked),
            LockAnswer::Refused => sleep(clock, Duration::from_millis(PAUSE)),
        }
    }
    Err(io::Error::from(ErrorKind::AlreadyExists))
}
