//! Files of the system that are made beside others, to take their place.

use crate::locks::{FileLock, Identity, open_to_write, sync_file};
use crate::logs::{LogTrouble, trouble_of};
use crate::paths::copy_path;
use crate::presence::FileProblem;
use crate::rights::take_rights;
use crate::spare_file::{SpareFile, open_folder};
use std::fs::{self, File, Metadata};
use std::io::{self, ErrorKind};
use std::rt::Files;
use std::time::Clock;

/// A file that is made beside another, whose place it takes later.
#[derive(Drop)]
pub(crate) struct ReplacementFile {
    /// The path of the other, which leads through no link.
    old: String,
    /// Which file the other is.
    replaced: Identity,
    /// The file itself.
    spare: SpareFile,
    /// The folder of both.
    folder: File,
    /// What there is to hold of it: it is held before it has the other's name.
    lock: FileLock,
    /// Whether it has the other's owner.
    has_owner: bool,
}

/// Returns what the system tells of the file of a path, which is on a disk and no link, and may be written.
fn writable<R: Files<File = File>>(files: &R, path: &str) -> io::Result<Metadata> {
    let found = fs::symlink_metadata(files, path)?;
    if !found.is_file() {
        return Err(io::Error::from(ErrorKind::InvalidInput));
    }
    open_to_write(files, path)?;
    Ok(found)
}

impl ReplacementFile {
    /// Makes an empty file beside the one of a path, which leads through no link, with its owner and rights as far as
    /// that can be. If one file may be written, the path leads to it.
    pub(crate) fn make<R: Files<File = File> + AllocGlobal + Clock>(
        rt: &R,
        path: &str,
        held: Option<Identity>,
    ) -> Result<(File, ReplacementFile), LogTrouble> {
        let described = writable(rt, path).map_err(trouble_of)?;
        let replaced = Identity::new(&described);
        if held.is_some() && held != Some(replaced) {
            return Err(Some(FileProblem::Exists));
        }
        let folder = open_folder(rt, path)?;
        let old = copy_path(rt.alloc(), path).map_err(trouble_of)?;
        let (file, spare, lock) = SpareFile::make(rt, path, 0o600).map_err(trouble_of)?;
        match take_rights(&file, &described) {
            Ok(has_owner) => Ok((
                file,
                ReplacementFile {
                    old,
                    replaced,
                    spare,
                    folder,
                    lock,
                    has_owner,
                },
            )),
            Err(error) => {
                spare.discard(rt);
                Err(trouble_of(error))
            }
        }
    }

    /// Tells whether the file has the other's owner.
    pub(crate) fn has_owner(&self) -> bool {
        self.has_owner
    }

    /// Returns what there is to hold of the file.
    pub(crate) fn into_lock(self) -> FileLock {
        self.lock
    }

    /// Puts the file in the place of the other, if that still has its name. The rights of the other may have changed.
    pub(crate) fn place<R: Files<File = File>>(&self, files: &R) -> io::Result<()> {
        let found = fs::symlink_metadata(files, self.old.as_str())?;
        if Identity::new(&found) != self.replaced {
            return Err(io::Error::from(ErrorKind::AlreadyExists));
        }
        take_rights(self.spare.file(), &found)?;
        self.spare.replace(files, self.old.as_str())
    }

    /// Syncs the folder, which has the name.
    pub(crate) fn sync_folder(&self) -> bool {
        sync_file(&self.folder)
    }

    /// Removes the file, if that can be done.
    pub(crate) fn discard<R: Files<File = File>>(&self, files: &R) {
        self.spare.discard(files);
    }
}
