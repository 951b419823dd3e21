//! What stands beside the file of a segment under the name of its log.

use crate::file_problems::names_nothing;
use crate::locks::{Identity, open_to_write, remove_named, sync_file};
use crate::paths::{folder_of, real_path};
use file_rights::{Ownership, log_counts};
use segment_log::{HEAD_LEN, LogKind, log_kind};
use std::fs::{self, File, Metadata};
use std::io::{self, ErrorKind};
use std::os::unix::fs::{FileExt, MetadataExt};
use std::rt::Files;

/// No path of the system is longer.
const MAX_PATH_LEN: usize = 4096;

/// How the name of a log ends, behind that of its file.
const SUFFIX: [u8; 4] = *b"-log";

/// How often a name is looked at anew that led to two files one after the other.
const TRIES: u32 = 8;

/// What has the name of a log.
#[derive(Drop)]
pub(crate) enum FoundLog {
    /// Nothing.
    Nothing,
    /// No log of this library, or a log of somebody who may not write the file. It is somebody else's.
    Foreign,
    /// A log without a record.
    Empty(File),
    /// A log with a record at least.
    Records(File),
}

/// Returns whose a file is, and its mode.
fn ownership_of(found: &Metadata) -> Ownership {
    Ownership {
        owner: found.uid(),
        group: found.gid(),
        mode: found.mode(),
    }
}

/// Returns the user as whom the process works, or a number that no user has if the system does not tell.
fn caller<R: Files<File = File>>(files: &R) -> u32 {
    match fs::metadata(files, "/proc/self") {
        Ok(found) => found.uid(),
        Err(_) => u32::MAX,
    }
}

/// Returns true if a log beside a file counts. Otherwise it may be the work of somebody who may not write the file.
fn counts<R: Files<File = File>>(files: &R, file: &str, log: &Metadata) -> io::Result<bool> {
    let of_file = match fs::symlink_metadata(files, file) {
        Ok(found) => found,
        Err(error) if names_nothing(error.kind()) => return Ok(true),
        Err(error) => return Err(error),
    };
    let of_folder = fs::metadata(files, folder_of(file))?;
    Ok(log_counts(
        ownership_of(&of_file),
        ownership_of(log),
        ownership_of(&of_folder),
        caller(files),
    ))
}

/// Returns what a file of a length is that has the name of a log.
fn found_in(file: File, len: u64) -> io::Result<FoundLog> {
    let mut buffer = [0; HEAD_LEN];
    let head = &mut buffer[..len.min(HEAD_LEN as u64) as usize];
    file.read_exact_at(head, 0)?;
    Ok(match log_kind(head, len) {
        LogKind::Foreign => FoundLog::Foreign,
        LogKind::Empty => FoundLog::Empty(file),
        LogKind::Records => FoundLog::Records(file),
    })
}

/// Returns what has the name of the log of a file, and follows no link. Returns `None` if the name led to two files
/// meanwhile, or the file became shorter.
fn look_once<R: Files<File = File>>(
    files: &R,
    file: &str,
    log: &str,
) -> io::Result<Option<FoundLog>> {
    let named = match fs::symlink_metadata(files, log) {
        Ok(found) => found,
        Err(error) if names_nothing(error.kind()) => return Ok(Some(FoundLog::Nothing)),
        Err(error) => return Err(error),
    };
    if !named.is_file() || !counts(files, file, &named)? {
        return Ok(Some(FoundLog::Foreign));
    }
    let found = match fs::open(files, log) {
        Ok(found) => found,
        Err(error) if names_nothing(error.kind()) => return Ok(None),
        Err(error) => return Err(error),
    };
    let opened = found.metadata()?;
    if !opened.is_file() || Identity::new(&opened) != Identity::new(&named) {
        return Ok(None);
    }
    match found_in(found, opened.len()) {
        Ok(found) => Ok(Some(found)),
        Err(error) if error.kind() == ErrorKind::UnexpectedEof => Ok(None),
        Err(error) => Err(error),
    }
}

/// Returns what has the name of the log of a file. Asks for no memory.
fn look<R: Files<File = File>>(files: &R, file: &str, log: &str) -> io::Result<FoundLog> {
    for _ in 0..TRIES {
        if let Some(found) = look_once(files, file, log)? {
            return Ok(found);
        }
    }
    Err(io::Error::from(ErrorKind::ResourceBusy))
}

/// Returns what has the name of the log of a file, whose path is no link. Asks for no memory.
pub(crate) fn log_beside<R: Files<File = File>>(files: &R, file: &str) -> io::Result<FoundLog> {
    let mut buffer = [0; MAX_PATH_LEN];
    let len = file.len();
    if len > MAX_PATH_LEN - SUFFIX.len() {
        return Ok(FoundLog::Nothing);
    }
    buffer[..len].copy_from_slice(file.as_bytes());
    buffer[len..len + SUFFIX.len()].copy_from_slice(&SUFFIX);
    let Ok(log) = str::from_utf8(&buffer[..len + SUFFIX.len()]) else {
        return Err(io::Error::from(ErrorKind::InvalidInput));
    };
    look(files, file, log)
}

/// Returns what has the name of the log of a file: beside the file itself, if its path is a link. Only for a link it
/// asks for memory.
///
/// # Errors
///
/// Memory was refused, or the system does not tell.
pub(crate) fn find_log<R: Files<File = File> + AllocGlobal>(
    rt: &R,
    path: &str,
) -> io::Result<FoundLog> {
    match fs::symlink_metadata(rt, path) {
        Ok(found) if found.is_symlink() => {}
        Ok(_) => return log_beside(rt, path),
        Err(error) if names_nothing(error.kind()) => return Ok(FoundLog::Nothing),
        Err(error) => return Err(error),
    }
    match real_path(rt, path) {
        Ok(real) => log_beside(rt, real.as_str()),
        Err(error) if error.kind() == ErrorKind::NotFound => Ok(FoundLog::Nothing),
        Err(error) => Err(error),
    }
}

/// Shuts a log without a record anew, syncs it, and removes it. The process that shut it may have been killed before it
/// synced the gate, and a power cut would open the gate again. A log that is shut and can't be removed does no harm.
///
/// # Errors
///
/// The log can't be written or synced, or another file has taken its name.
pub(crate) fn end_empty<R: Files<File = File>>(
    files: &R,
    log: &str,
    found: &File,
) -> io::Result<()> {
    let file = open_to_write(files, log)?;
    if Identity::of(&file) != Identity::of(found) {
        return Err(io::Error::from(ErrorKind::AlreadyExists));
    }
    // the first byte of a gate says whether it is open
    file.write_all_at(&[0], 0)?;
    if !sync_file(&file) {
        return Err(io::Error::from(ErrorKind::Other));
    }
    let _ = remove_named(files, log, &file);
    Ok(())
}
