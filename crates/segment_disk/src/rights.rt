//! The rights of files that are made beside others.

use file_rights::{AccessList, log_mode, narrowed};
use std::fs::{File, Metadata, Permissions};
use std::io;
use std::os::unix::fs::{MetadataExt, PermissionsExt, fchown};

/// Gives a file the owner and the group of another, or the group alone, as far as the process may. Returns whether it
/// has the owner, and whether it has the group.
fn take_owner(file: &File, own: &Metadata, old: &Metadata) -> (bool, bool) {
    let has_owner = own.uid() == old.uid();
    let has_group = own.gid() == old.gid();
    if has_owner && has_group {
        return (true, true);
    }
    if fchown(file, Some(old.uid()), Some(old.gid())).is_ok() {
        return (true, true);
    }
    (
        has_owner,
        has_group || fchown(file, None, Some(old.gid())).is_ok(),
    )
}

/// Gives a file the owner and the group of another, as far as the process may, and the rights of a mode, without those
/// that somebody would have who had them not. Returns true if the owner is the same.
fn take_mode(file: &File, old: &Metadata, mode: u32) -> io::Result<bool> {
    let own = file.metadata()?;
    file.set_permissions(Permissions::from_mode(0o600))?;
    let (has_owner, has_group) = take_owner(file, &own, old);
    let rights = narrowed(mode, AccessList::Absent, has_owner, has_group);
    file.set_permissions(Permissions::from_mode(rights.mode))?;
    Ok(has_owner)
}

/// Gives a file the owner, the group and the rights of the one whose place it takes, as far as the process may, and
/// tells whether the owner is the same. Nobody else gets a right that the old one did not give him.
pub(crate) fn take_rights(file: &File, old: &Metadata) -> io::Result<bool> {
    take_mode(file, old, old.mode() % 0o10000)
}

/// Gives a log the owner, the group and the rights of its file, as [`take_rights`] does. Nobody executes a log.
pub(crate) fn take_log_rights(log: &File, file: &Metadata) -> io::Result<()> {
    take_mode(log, file, log_mode(file.mode()))?;
    Ok(())
}
