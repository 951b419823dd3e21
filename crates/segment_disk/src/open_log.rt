//! The log that is begun beside a file of the system, for the commits of a writer.
ghost use Rattle.std.specs.Prelude.{IfOk};
ghost use Rattle.segment_disk.specs.Logs.{StandsCommitted};

use crate::found_log::{FoundLog, end_empty, log_beside};
use crate::locks::{
    FileLock, Identity, are_different, is_named, open_to_write, remove_named, sync_file,
};
use crate::logs::{LogTrouble, committed, read_file, trouble_of};
use crate::paths::log_paths;
use crate::presence::FileProblem;
use crate::settling::put_log;
use crate::sparse::longest_file;
use segment_log::{CommittedImage, LogFault};
use std::alloc::Global;
use std::fs::{self, File};
use std::os::unix::fs::{FileExt, MetadataExt};
use std::rt::Files;
use std::time::Clock;

/// A log that is open for commits.
#[derive(Drop)]
pub(crate) struct OpenLog {
    log: File,
    /// The path of the log.
    path: String,
    /// The path of the file, whose last part is no link.
    file: String,
    /// How many bytes the log may have.
    longest: u64,
}

/// Returns the bytes of the file that is held and may be written, and writes it through, since it may have been written
/// by another.
fn synced_bytes<R: Files<File = File> + AllocGlobal>(
    rt: &R,
    path: &str,
    lock: &FileLock,
) -> Result<(File, Vec<u8>), LogTrouble> {
    // to open a pipe would wait for its other end
    if !fs::metadata(rt, path).map_err(trouble_of)?.is_file() {
        return Err(None);
    }
    open_to_write(rt, path).map_err(trouble_of)?;
    let mut file = fs::open(rt, path).map_err(trouble_of)?;
    if are_different(lock.identity(), Identity::of(&file)) {
        return Err(Some(FileProblem::Exists));
    }
    let bytes = read_file(rt.alloc(), &mut file)?;
    if sync_file(&file) {
        Ok((file, bytes))
    } else {
        Err(None)
    }
}

/// Returns the problem with what has the name of a log and is none.
fn in_the_way<R: Files<File = File>>(files: &R, log: &str) -> FileProblem {
    match fs::symlink_metadata(files, log) {
        Ok(found) if found.is_file() && found.len() == 0 => FileProblem::EmptyLog,
        _ => FileProblem::LogTaken,
    }
}

/// Returns the log beside a file if it has a record. A log without a record is removed.
fn log_with_records<R: Files<File = File> + AllocGlobal>(
    rt: &R,
    file: &str,
    log: &str,
) -> Result<Option<File>, LogTrouble> {
    match log_beside(rt, file).map_err(trouble_of)? {
        FoundLog::Nothing => Ok(None),
        FoundLog::Foreign => Err(Some(in_the_way(rt, log))),
        FoundLog::Records(found) => Ok(Some(found)),
        FoundLog::Empty(found) => {
            end_empty(rt, log, &found).map_err(trouble_of)?;
            Ok(None)
        }
    }
}

/// Returns the bytes of a log, or no bytes if there is none.
fn read_records(alloc: Global, log: Option<&mut File>) -> Result<Vec<u8>, LogTrouble> {
    match log {
        Some(log) => read_file(alloc, log),
        None => Ok(Vec::new(alloc)),
    }
}

/// Refuses the first log of a file that has several names: who opens it by another name finds no log.
fn refuse_names(file: &File) -> Result<(), LogTrouble> {
    if file.metadata().map_err(trouble_of)?.nlink() > 1 {
        Err(Some(FileProblem::SeveralNames))
    } else {
        Ok(())
    }
}

impl OpenLog {
    /// Puts a log beside the file that is held, with the records of the log that is there, and returns it with the
    /// image that both stand for.
    pub(crate) fn begin<R: Files<File = File> + AllocGlobal + Clock>(
        rt: &R,
        path: &str,
        lock: &FileLock,
    ) -> Result<(OpenLog, CommittedImage), LogTrouble>
        ensures { IfOk result (λ begun. StandsCommitted begun.1) }
    {
        let (real, log) = log_paths(rt, path).map_err(trouble_of)?;
        let (file, bytes) = synced_bytes(rt, real.as_str(), lock)?;
        let mut old = log_with_records(rt, real.as_str(), log.as_str())?;
        if old.is_none() {
            refuse_names(&file)?;
        }
        let records = read_records(rt.alloc(), old.as_mut())?;
        let (kept, gated) = committed(rt.alloc(), bytes, &records)?;
        let made = put_log(rt, log.as_str(), &file, old.as_ref(), &gated)?;
        let longest = longest_file(rt);
        Ok((
            OpenLog {
                log: made,
                path: log,
                file: real,
                longest,
            },
            kept,
        ))
    }

    /// Returns the path of the file.
    pub(crate) fn file_path(&self) -> &str {
        self.file.as_str()
    }

    /// Tells whether the log and the held file still have their names.
    pub(crate) fn is_beside<R: Files<File = File>>(&self, files: &R, lock: &FileLock) -> bool {
        is_named(files, self.path.as_str(), &self.log)
            && !are_different(
                lock.identity(),
                Identity::at(files, self.file.as_str()).ok(),
            )
    }

    /// Writes bytes at an offset of the log, if it may be as long.
    pub(crate) fn write(&self, at: usize, bytes: &[u8]) -> Result<(), LogFault> {
        let end = (at as u64).saturating_add(bytes.len() as u64);
        if end > self.longest {
            return Err(LogFault);
        }
        self.log
            .write_all_at(bytes, at as u64)
            .map_err(|_| LogFault)
    }

    /// Writes the log through.
    pub(crate) fn sync(&self) -> Result<(), LogFault> {
        if sync_file(&self.log) {
            Ok(())
        } else {
            Err(LogFault)
        }
    }

    /// Removes the log, if it still has its name and can be removed.
    pub(crate) fn remove<R: Files<File = File>>(&self, files: &R) {
        let _ = remove_named(files, self.path.as_str(), &self.log);
    }
}
