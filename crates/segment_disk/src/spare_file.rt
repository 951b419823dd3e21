//! Files of the system that have a hidden name, until they are whole and get the name of a segment's file.

use crate::file_problems::creation_problem;
use crate::locks::{FileLock, is_free, is_named, lock_made, open_to_hold, remove_named, sync_file};
use crate::paths::folder_of;
use crate::presence::FileProblem;
use std::fs::{self, File, OpenFile, OpenOptions};
use std::io::{self, ErrorKind};
use std::os::unix::fs::OpenOptionsExt;
use std::path::Path;
use std::rt::Files;
use std::time::Clock;

/// How many hidden names are tried for one file.
const NAMES: u64 = 8;

/// A file under a hidden name, in the folder of another.
#[derive(Drop)]
pub(crate) struct SpareFile {
    path: String,
    /// The file itself.
    file: File,
}

/// Returns a number for a file's name (FNV-1a), by which its hidden names are made.
fn name_hash(name: &str, attempt: u64) -> u64 {
    let mut hash: u64 = 0xcbf2_9ce4_8422_2325;
    'bytes: for byte in name.bytes() {
        hash = (hash ^ u64::from(byte)).wrapping_mul(0x0100_0000_01b3);
    }
    hash.wrapping_add(attempt)
}

/// Removes a file that a killed run left under a hidden name, unless another has its lock.
fn remove_abandoned<R: Files<File = File>>(files: &R, path: &str) -> io::Result<()> {
    if !fs::symlink_metadata(files, path)?.is_file() {
        return Ok(());
    }
    let file = open_to_hold(files, path)?;
    if is_free(&file) {
        remove_named(files, path, &file)?;
    }
    Ok(())
}

/// Locks a file that was just made, if it can be, and returns another handle of it.
fn held_twice<C: Clock>(clock: &C, file: &File) -> io::Result<(File, FileLock)> {
    let lock = lock_made(clock, file)?;
    Ok((file.try_clone()?, lock))
}

/// Makes an empty file of a path where nothing is, and locks it, if it can be. `None` if something is there. If the
/// system fails in between, the file is removed.
fn make_locked<R: Files<File = File> + Clock>(
    rt: &R,
    path: &str,
    rights: u32,
) -> io::Result<Option<(File, File, FileLock)>> {
    let _ = remove_abandoned(rt, path);
    let mut options = OpenOptions::new();
    options.write(true).create_new(true).mode(rights);
    let file = match options.open(rt, path) {
        Ok(file) => file,
        Err(error) if error.kind() == ErrorKind::AlreadyExists => return Ok(None),
        Err(error) => return Err(error),
    };
    match held_twice(rt, &file) {
        Ok((kept, lock)) if is_named(rt, path, &file) => Ok(Some((file, kept, lock))),
        Ok(_) => {
            let _ = remove_named(rt, path, &file);
            Ok(None)
        }
        Err(error) => {
            let _ = remove_named(rt, path, &file);
            Err(error)
        }
    }
}

impl SpareFile {
    /// Makes an empty file in the folder of the file of a path, whose name gives it its own, and locks it. What a
    /// killed run left under that name is removed before.
    pub(crate) fn make<R: Files<File = File> + AllocGlobal + Clock>(
        rt: &R,
        beside: &str,
        rights: u32,
    ) -> io::Result<(File, SpareFile, FileLock)> {
        let beside = Path::new(beside);
        let Some(name) = beside.file_name() else {
            return Err(io::Error::from(ErrorKind::NotFound));
        };
        'names: for attempt in 0..NAMES {
            let hidden = format!(in rt.alloc(); ".zaluxhoni-{:016x}", name_hash(name, attempt))?;
            let path = beside
                .with_file_name(rt.alloc(), hidden.as_str())?
                .into_string();
            if let Some((file, kept, lock)) = make_locked(rt, path.as_str(), rights)? {
                return Ok((file, SpareFile { path, file: kept }, lock));
            }
        }
        Err(io::Error::from(ErrorKind::AlreadyExists))
    }

    /// Returns the file.
    pub(crate) fn file(&self) -> &File {
        &self.file
    }

    /// Gives the file the name of a path, whatever has that name. A system may say that this failed, and have done it.
    pub(crate) fn replace<R: Files<File = File>>(&self, files: &R, path: &str) -> io::Result<()> {
        if !is_named(files, self.path.as_str(), &self.file) {
            return Err(io::Error::from(ErrorKind::NotFound));
        }
        let renamed = fs::rename(files, self.path.as_str(), path);
        if is_named(files, path, &self.file) {
            return Ok(());
        }
        renamed?;
        Err(io::Error::from(ErrorKind::AlreadyExists))
    }

    /// Gives the file the name of a path, if nothing has that name.
    pub(crate) fn give_name<R: Files<File = File> + Clock>(
        &self,
        rt: &R,
        path: &str,
    ) -> io::Result<()> {
        let linked = fs::hard_link(rt, self.path.as_str(), path);
        if is_named(rt, path, &self.file) {
            self.discard(rt);
            return Ok(());
        }
        match linked {
            Ok(()) => Err(io::Error::from(ErrorKind::AlreadyExists)),
            Err(error) if error.kind() == ErrorKind::AlreadyExists => Err(error),
            Err(_) => self.take_name(rt, path),
        }
    }

    /// Gives the file a name where a file may not have two. An empty file keeps the name for it, and is locked, so that
    /// nobody else writes it.
    fn take_name<R: Files<File = File> + Clock>(&self, rt: &R, path: &str) -> io::Result<()> {
        let empty = File::create_new(rt, path)?;
        let _lock = lock_made(rt, &empty)?;
        if !is_named(rt, path, &empty) {
            return Err(io::Error::from(ErrorKind::AlreadyExists));
        }
        let placed = self.replace(rt, path);
        if placed.is_err() {
            let _ = remove_named(rt, path, &empty);
        }
        placed
    }

    /// Removes the file, if that can be done.
    pub(crate) fn discard<R: Files<File = File>>(&self, files: &R) {
        let _ = remove_named(files, self.path.as_str(), &self.file);
    }
}

/// Opens the folder in which a file is to get the name of a path, to sync the name. What can't be synced is not made.
///
/// # Errors
///
/// Why that can't be done, as far as that is known.
pub(crate) fn open_folder<R: Files<File = File>>(
    files: &R,
    path: &str,
) -> Result<File, Option<FileProblem>> {
    match fs::open(files, folder_of(path)) {
        Ok(folder) => Ok(folder),
        Err(error) if error.kind() == ErrorKind::PermissionDenied => {
            Err(Some(FileProblem::UnsyncedName))
        }
        Err(error) => Err(creation_problem(error.kind(), path)),
    }
}

/// Syncs the folder of a path, and returns true unless that fails. A folder that can't be opened is not synced: then
/// the file of the path has to be synced behind its name.
pub(crate) fn sync_folder<R: Files<File = File>>(files: &R, path: &str) -> bool {
    match fs::open(files, folder_of(path)) {
        Ok(folder) => sync_file(&folder),
        Err(error) => error.kind() == ErrorKind::PermissionDenied,
    }
}
