//! The end of a log: its commits become the file, before the file is written otherwise.
ghost use Rattle.std.specs.Prelude.{⊤};

use crate::found_log::{FoundLog, end_empty, find_log, log_beside};
use crate::locks::{FileLock, Identity, is_named, remove_named, sync_file};
use crate::logs::{LogTrouble, committed, read_file, trouble_of};
use crate::paths::{log_path, log_paths};
use crate::presence::FileProblem;
use crate::replacement_file::ReplacementFile;
use crate::rights::take_log_rights;
use crate::spare_file::{SpareFile, open_folder};
use crate::sparse::{SparseFile, longest_file};
use segment_log::{LogDisk, LogFault, checkpoint};
use std::fs::{self, File};
use std::io::{self, ErrorKind, Write};
use std::os::unix::fs::FileExt;
use std::rt::Files;
use std::time::Clock;

/// Writes all bytes to a new file, and writes it through.
fn write_through(file: SparseFile, bytes: &[u8]) -> io::Result<()> {
    let mut writer = file;
    writer.write_all(bytes)?;
    writer.end()?;
    if sync_file(writer.file()) {
        Ok(())
    } else {
        Err(io::Error::from(ErrorKind::Other))
    }
}

/// Puts a new file of these bytes in the place of a file, whose path leads through no link, with its rights. Returns
/// what there is to hold of the new one, and whether it has its name for good.
pub(crate) fn put_in_place<R: Files<File = File> + AllocGlobal + Clock>(
    rt: &R,
    path: &str,
    held: Option<Identity>,
    bytes: &[u8],
) -> Result<(FileLock, bool), LogTrouble> {
    let (file, beside) = ReplacementFile::make(rt, path, held)?;
    let written = write_through(SparseFile::new(file, longest_file(rt)), bytes);
    let placed = match written {
        Ok(()) => beside.place(rt),
        Err(error) => Err(error),
    };
    match placed {
        Ok(()) => {
            let lasts = beside.sync_folder();
            Ok((beside.into_lock(), lasts))
        }
        Err(error) => {
            beside.discard(rt);
            Err(trouble_of(error))
        }
    }
}

/// A file of the system with its log.
#[derive(Drop)]
struct LoggedFile<'a, R: Files> {
    rt: &'a R,
    /// The path of the file, which leads through no link.
    path: &'a str,
    log: File,
    /// What the system said last of the file.
    trouble: LogTrouble,
}

impl<'a, R: Files<File = File> + AllocGlobal + Clock> LogDisk for LoggedFile<'a, R> {
    ghost log_step = { λ old event new. ⊤ };

    type Hold = FileLock;

    fn write_log(&mut self, _hold: &mut FileLock, at: usize, bytes: &[u8]) -> Result<(), LogFault> {
        self.log
            .write_all_at(bytes, at as u64)
            .map_err(|_| LogFault)
    }

    fn sync_log(&mut self, _hold: &mut FileLock) -> Result<(), LogFault> {
        if sync_file(&self.log) {
            Ok(())
        } else {
            Err(LogFault)
        }
    }

    fn place(&mut self, hold: &mut FileLock, image: &[u8]) -> Result<(), LogFault> {
        match put_in_place(self.rt, self.path, hold.identity(), image) {
            Ok((lock, lasts)) => {
                *hold = lock;
                if lasts { Ok(()) } else { Err(LogFault) }
            }
            Err(trouble) => {
                self.trouble = trouble;
                Err(LogFault)
            }
        }
    }
}

/// Writes a log through, which has the rights of its file.
fn write_log(log: &File, file: &File, bytes: &[u8]) -> io::Result<()> {
    take_log_rights(log, &file.metadata()?)?;
    log.write_all_at(bytes, 0)?;
    log.sync_all()
}

/// Gives a new log its name: that of the log that is there, or one that nothing has.
fn name_log<R: Files<File = File> + Clock>(
    rt: &R,
    spare: &SpareFile,
    path: &str,
    old: Option<&File>,
) -> io::Result<()> {
    match old {
        None => spare.give_name(rt, path),
        Some(old) if is_named(rt, path, old) => spare.replace(rt, path),
        Some(_) => Err(io::Error::from(ErrorKind::AlreadyExists)),
    }
}

/// Puts a new log of these bytes beside a file, in the place of the old one, if there is one: a sync of that may have
/// failed, so that its bytes are read and are not on the disk. The new log gets its name when it is on the disk.
pub(crate) fn put_log<R: Files<File = File> + AllocGlobal + Clock>(
    rt: &R,
    path: &str,
    file: &File,
    old: Option<&File>,
    bytes: &[u8],
) -> Result<File, LogTrouble> {
    if bytes.len() as u64 > longest_file(rt) {
        return Err(Some(FileProblem::Unwritten));
    }
    let folder = open_folder(rt, path)?;
    let (log, spare, _) = SpareFile::make(rt, path, 0o600).map_err(trouble_of)?;
    let named = match write_log(&log, file, bytes) {
        Ok(()) => name_log(rt, &spare, path, old),
        Err(error) => Err(error),
    };
    if let Err(error) = named {
        spare.discard(rt);
        return Err(trouble_of(error));
    }
    if sync_file(&folder) {
        Ok(log)
    } else {
        Err(Some(FileProblem::Unwritten))
    }
}

/// Makes a file the image that it stands for with the records of its log, which is open, and removes the log.
fn settle_records<R: Files<File = File> + AllocGlobal + Clock>(
    rt: &R,
    path: &str,
    log: &str,
    lock: &mut FileLock,
    found: File,
) -> Result<(), LogTrouble> {
    let mut open = found;
    let records = read_file(rt.alloc(), &mut open)?;
    let mut file = fs::open(rt, path).map_err(trouble_of)?;
    if lock.identity().is_some() && Identity::of(&file) != lock.identity() {
        return Err(Some(FileProblem::Exists));
    }
    let (kept, gated) = committed(rt.alloc(), read_file(rt.alloc(), &mut file)?, &records)?;
    if kept.end == 0 {
        return end_empty(rt, log, &open).map_err(trouble_of);
    }
    let mut files = LoggedFile {
        rt,
        path,
        log: put_log(rt, log, &file, Some(&open), &gated)?,
        trouble: None,
    };
    if checkpoint(rt.alloc(), &mut files, lock, &kept.image).is_err() {
        return Err(files.trouble);
    }
    remove_named(rt, log, &files.log).map_err(trouble_of)
}

/// Removes the log beside a file that is locked, if there is one. Its commits are put into the file before, which is
/// replaced by a new one. A crash at any moment leaves the image. What is no log of this library stays.
///
/// # Errors
///
/// Why that can't be done, as far as that is known. The log stays, and both stand for the same image.
pub(crate) fn settle<R: Files<File = File> + AllocGlobal + Clock>(
    rt: &R,
    path: &str,
    lock: &mut FileLock,
) -> Result<(), LogTrouble> {
    let found = find_log(rt, path).map_err(trouble_of)?;
    if matches!(found, FoundLog::Nothing | FoundLog::Foreign) {
        return Ok(());
    }
    let (real, log) = log_paths(rt, path).map_err(trouble_of)?;
    match found {
        FoundLog::Nothing | FoundLog::Foreign => Ok(()),
        FoundLog::Empty(file) => end_empty(rt, log.as_str(), &file).map_err(trouble_of),
        FoundLog::Records(file) => settle_records(rt, real.as_str(), log.as_str(), lock, file),
    }
}

/// Removes the log beside a file that is locked if it has no record, and returns true if it has one.
///
/// # Errors
///
/// Why that can't be done, as far as that is known.
pub(crate) fn keeps_records<R: Files<File = File> + AllocGlobal>(
    rt: &R,
    path: &str,
) -> Result<bool, LogTrouble> {
    match find_log(rt, path).map_err(trouble_of)? {
        FoundLog::Nothing | FoundLog::Foreign => Ok(false),
        FoundLog::Records(_) => Ok(true),
        FoundLog::Empty(file) => {
            let (_, log) = log_paths(rt, path).map_err(trouble_of)?;
            end_empty(rt, log.as_str(), &file).map_err(trouble_of)?;
            Ok(false)
        }
    }
}

/// Returns an error if a log with records was left under the name of the log of a file that is made: that is the log of
/// another file, which is gone. A log without a record is removed.
///
/// # Errors
///
/// Such a log is there, or one that can't be removed.
pub(crate) fn end_left<R: Files<File = File> + AllocGlobal>(
    rt: &R,
    path: &str,
) -> Result<(), LogTrouble> {
    match log_beside(rt, path).map_err(trouble_of)? {
        FoundLog::Nothing | FoundLog::Foreign => Ok(()),
        FoundLog::Records(_) => Err(Some(FileProblem::LogLeft)),
        FoundLog::Empty(file) => {
            let log = log_path(rt.alloc(), path).map_err(trouble_of)?;
            end_empty(rt, log.as_str(), &file).map_err(trouble_of)
        }
    }
}

/// Returns an error if another file has taken the name of a file that was made and is locked, or if a log with records
/// is beside it.
fn look_alone<R: Files<File = File> + AllocGlobal>(
    rt: &R,
    path: &str,
    file: &File,
) -> Result<(), LogTrouble> {
    if !is_named(rt, path, file) {
        return Err(Some(FileProblem::Exists));
    }
    end_left(rt, path)
}

/// Removes a file that was made and is locked if a log with records is beside it.
pub(crate) fn named_alone<R: Files<File = File> + AllocGlobal>(
    rt: &R,
    path: &str,
    file: &File,
) -> Result<(), LogTrouble> {
    let named = look_alone(rt, path, file);
    if named.is_err() {
        let _ = remove_named(rt, path, file);
    }
    named
}
