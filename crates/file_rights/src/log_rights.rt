//! Logs beside files: whether a log counts, and the mode of a log.
ghost use Rattle.std.specs.Prelude.{◌≡◌, ◌↔◌, IsTrue};
ghost use Rattle.file_rights.specs.LogRights.{GrantsAsMode, LogCounts, log_counts, log_mode, unexecuted};
ghost use Rattle.file_rights.specs.LogRights.{is_closed_to, is_of_trusted, is_of_writers, keeps_writers};

use crate::classes::Classes;
use crate::rights::Rights;

/// The owner, the group and the mode of a file.
#[derive(Clone, Copy)]
pub struct Ownership {
    /// The user ID of the owner.
    pub owner: u32,
    /// The group ID.
    pub group: u32,
    /// The mode. Bits of the file's type do not matter.
    pub mode: u32,
}

/// Returns true if the owner of a log owns the file too, or is the caller, or root.
fn is_of_trusted(file: Ownership, log: Ownership, caller: u32) -> bool
    ensures { result ≡ is_of_trusted file log caller }
{
    log.owner == file.owner || (log.owner == caller || log.owner == 0)
}

/// Returns true if only its owner and the members of a group may write a folder.
fn is_closed_to(group: u32, folder: Ownership) -> bool
    ensures { result ≡ is_closed_to group folder }
{
    let classes = Classes::of(folder.mode);
    !classes.other.write && (folder.group == group || !classes.group.write)
}

/// Returns true if a log has the group that may write the file, and nobody else may write the folder.
fn is_of_writers(file: Ownership, log: Ownership, folder: Ownership) -> bool
    ensures { result ≡ is_of_writers file log folder }
{
    let classes = Classes::of(file.mode);
    classes.group.write && (log.group == file.group && is_closed_to(file.group, folder))
}

/// Returns true if nobody but their owners may write a log who may not write the file.
fn keeps_writers(file: Ownership, log: Ownership) -> bool
    ensures { result ≡ keeps_writers file log }
{
    let of_file = Classes::of(file.mode);
    let of_log = Classes::of(log.mode);
    let same = log.group == file.group;
    let in_group = of_file.group.write && (same || of_file.other.write);
    let outside = of_file.other.write && (same || of_file.group.write);
    (!of_log.group.write || in_group) && (!of_log.other.write || outside)
}

/// Computes `log_counts` by the bits of the modes.
fn counts(file: Ownership, log: Ownership, folder: Ownership, caller: u32) -> bool
    ensures { result ≡ log_counts file log folder caller }
{
    (is_of_trusted(file, log, caller) || is_of_writers(file, log, folder))
        && keeps_writers(file, log)
}

/// Returns true if a log beside a file in a folder counts.
///
/// A log counts if both hold:
///
/// - Its owner is the file's owner, the caller or root. Or the file's group may write the file, the log has that group,
///   and only that group and the folder's owner may write the folder.
/// - Only who may write the file may write the log.
///
/// Any other log may be the work of a user who may only read the file. The contract is about files without access
/// lists.
pub fn log_counts(file: Ownership, log: Ownership, folder: Ownership, caller: u32) -> bool
    ensures { IsTrue result ↔ LogCounts file log folder caller }
{
    counts(file, log, folder, caller)
}

/// Returns the rights without the right to execute.
fn unexecuted(rights: Rights) -> Rights
    ensures { result ≡ unexecuted rights }
{
    Rights {
        execute: false,
        ..rights
    }
}

/// Returns the mode of a log or of a hidden file beside a file. Who may read the file may read the log, and who may
/// write the file may write the log. Nobody may execute the log.
pub fn log_mode(mode: u32) -> u32
    ensures value { result ≡ log_mode mode }
    ensures rights { GrantsAsMode mode result }
{
    let classes = Classes::of(mode);
    let of_log = Classes {
        owner: unexecuted(classes.owner),
        group: unexecuted(classes.group),
        other: unexecuted(classes.other),
    };
    of_log.mode()
}
