//! Paths of files, of their folders and of their logs.

use std::alloc::Global;
use std::fs::{self, File};
use std::io::{self, ErrorKind};
use std::path::Path;
use std::rt::Files;

/// How many links lead from one to the next, at most.
const LINKS: u32 = 40;

/// Returns a copy of a path.
pub(crate) fn copy_path(alloc: Global, path: &str) -> io::Result<String> {
    Ok(format!(in alloc; "{path}")?)
}

/// Returns the path of the log of a file.
pub(crate) fn log_path(alloc: Global, file: &str) -> io::Result<String> {
    Ok(format!(in alloc; "{file}-log")?)
}

/// Returns the folder of a path.
pub(crate) fn folder_of(path: &str) -> &str {
    match Path::new(path).parent() {
        Some(folder) if !folder.as_str().is_empty() => folder.as_str(),
        Some(_) => ".",
        None => "/",
    }
}

/// Returns the path to which a link leads.
fn behind_link<R: Files + AllocGlobal>(rt: &R, link: &str) -> io::Result<String> {
    let target = fs::read_link(rt, link)?;
    if target.is_absolute() {
        return copy_path(rt.alloc(), target.as_str());
    }
    let folder = folder_of(link);
    Ok(format!(in rt.alloc(); "{folder}/{}", target.as_str())?)
}

/// Returns a path that leads to the same file, and whose last part is no link. It is made of the links alone: the
/// folders above may have names that are no UTF-8, or may not be searched.
///
/// # Errors
///
/// Nothing is there, the system does not tell, or memory was refused.
pub(crate) fn real_path<R: Files<File = File> + AllocGlobal>(
    rt: &R,
    path: &str,
) -> io::Result<String> {
    let mut real = copy_path(rt.alloc(), path)?;
    for _ in 0..LINKS {
        if !fs::symlink_metadata(rt, real.as_str())?.is_symlink() {
            return Ok(real);
        }
        real = behind_link(rt, real.as_str())?;
    }
    Err(io::Error::from(ErrorKind::FilesystemLoop))
}

/// Returns the path of a file, whose last part is no link, and that of the log beside it.
pub(crate) fn log_paths<R: Files<File = File> + AllocGlobal>(
    rt: &R,
    path: &str,
) -> io::Result<(String, String)> {
    let real = real_path(rt, path)?;
    let log = log_path(rt.alloc(), real.as_str())?;
    Ok((real, log))
}
