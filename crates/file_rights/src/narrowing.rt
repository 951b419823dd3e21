//! The rights of a new file that replaces an old file.
ghost use Rattle.std.specs.Prelude.{◌≡◌, ◌<◌, true};
ghost use Rattle.file_rights.specs.AccessLists.{entries_of, list_classes, or_else, first_rights};
ghost use Rattle.file_rights.specs.Narrowing.{keeps_list, new_rights, old_classes, sets_list, special_bits};
ghost use Rattle.file_rights.specs.Narrowing.{without_group, without_owner};
ghost use Rattle.file_rights.specs.Narrowing.{KeepsIds, KeepsRights, ListNarrows, ModeNarrows};

use crate::access_lists::{common_within, entry_bytes, first_rights};
use crate::classes::Classes;
use crate::rights::Rights;

/// The access list of a file, as far as the caller can read it.
#[derive(Clone, Copy)]
pub enum AccessList<'a> {
    /// The file has no access list. A program that cannot read access lists has this as a premise.
    Absent,
    /// The file may have an access list, which cannot be read.
    Unreadable,
    /// The bytes of the attribute system.posix_acl_access.
    Bytes(&'a [u8]),
}

/// The rights to set on a new file.
#[derive(Clone, Copy)]
pub struct NewRights {
    /// The mode to set first. Without a list it already grants nobody too much.
    pub mode: u32,
    /// True if the old list may be set after the mode.
    pub sets_list: bool,
}

/// Returns the rights of the first entry with a tag, or `other` if no entry has the tag.
fn first_or(entries: &[u8], tag: u32, other: Rights) -> Rights
    ensures { result ≡ or_else other (first_rights tag (entries_of entries.now)) }
{
    match first_rights(entries, tag) {
        Some(rights) => rights,
        None => other,
    }
}

/// Returns the rights that a list grants every user of each class.
fn list_classes(entries: &[u8]) -> Classes
    ensures { result ≡ list_classes (entries_of entries.now) }
{
    let mask = first_or(entries, 16, Rights::of(7));
    let users = common_within(entries, 2, mask);
    let groups = common_within(entries, 8, mask);
    Classes {
        owner: first_or(entries, 1, Rights::of(0)),
        group: first_or(entries, 4, Rights::of(0))
            .common(mask)
            .common(users),
        other: first_or(entries, 32, Rights::of(0)).common(users.common(groups)),
    }
}

/// Returns the rights that an old file grants every user of each class, or none if its list is unreadable.
fn old_classes(mode: u32, list: AccessList<'_>) -> Classes
    ensures { result ≡ old_classes mode list.entry }
{
    match list {
        AccessList::Absent => Classes::of(mode),
        AccessList::Unreadable => Classes::of(0),
        AccessList::Bytes(bytes) => match entry_bytes(bytes) {
            Some(entries) => list_classes(entries),
            None => Classes::of(0),
        },
    }
}

/// Returns the classes of a file with the same owner or another. With another owner, the old owner is in the group or
/// among the others, so these get no right that he did not have.
fn without_owner(classes: Classes, has_owner: bool) -> Classes
    ensures { result ≡ without_owner has_owner classes }
{
    if has_owner {
        return classes;
    }
    Classes {
        owner: classes.owner,
        group: classes.group.common(classes.owner),
        other: classes.other.common(classes.owner),
    }
}

/// Returns the classes of a file with the same group or another. With another group, members of the old group may be
/// among the others, and others in the new group, so both classes get the rights that both had.
fn without_group(classes: Classes, has_group: bool) -> Classes
    ensures { result ≡ without_group has_group classes }
{
    if has_group {
        return classes;
    }
    let both = classes.group.common(classes.other);
    Classes {
        owner: classes.owner,
        group: both,
        other: both,
    }
}

/// Returns the bits above the classes. Only a file with the same owner keeps them, and set-group-ID only with the same
/// group.
fn special_bits(mode: u32, has_owner: bool, has_group: bool) -> u32
    ensures value { result ≡ special_bits has_owner has_group mode }
    ensures upper { result < 8 }
{
    if !has_owner {
        0
    } else if has_group {
        mode / 512 % 8
    } else {
        mode / 2048 % 2 * 4 + mode / 512 % 2
    }
}

/// Returns true if the owner is the same, or had all rights that the list may grant.
fn keeps_list(entries: &[u8], has_owner: bool) -> bool
    ensures { result ≡ keeps_list has_owner (entries_of entries.now) }
{
    let owner = first_or(entries, 1, Rights::of(0));
    let mask = first_or(entries, 16, Rights::of(7));
    let other = first_or(entries, 32, Rights::of(0));
    has_owner || (owner.covers(mask) && owner.covers(other))
}

/// Returns true if the old list may be set on the new file.
fn sets_list(list: AccessList<'_>, has_owner: bool, has_group: bool) -> bool
    ensures { result ≡ sets_list list.entry has_owner has_group }
{
    match list {
        AccessList::Bytes(bytes) => match entry_bytes(bytes) {
            Some(entries) => has_group && keeps_list(entries, has_owner),
            None => false,
        },
        _ => false,
    }
}

/// Returns the rights of a new file that replaces an old file, or is created beside it. The arguments are the mode and
/// the access list of the old file, and whether the new file has the same owner and group.
///
/// Only the owner of the new file may do with it what he might not do with the old file: with the mode alone, and with
/// the old list if `sets_list` is true. If owner and group are the same, and the list is not unreadable, nothing is
/// lost. Before the mode is set, the new file has the mode 0600 and no list. The list is set after the mode. If the
/// system refuses the list, the mode stays as it is.
pub fn narrowed(mode: u32, list: AccessList<'_>, has_owner: bool, has_group: bool) -> NewRights
    ensures value { result ≡ new_rights mode list.entry has_owner has_group }
    ensures mode { ModeNarrows mode list.entry has_owner has_group result.mode }
    ensures list { result.sets_list ≡ true → ListNarrows list.entry has_owner has_group }
    ensures ids { KeepsIds mode has_owner has_group result.mode }
    ensures unchanged { has_owner ≡ true → has_group ≡ true → KeepsRights mode list.entry result }
{
    let old = old_classes(mode, list);
    let narrow = without_group(without_owner(old, has_owner), has_group);
    let classes = Classes {
        owner: Rights::of(mode / 64),
        group: narrow.group,
        other: narrow.other,
    };
    NewRights {
        mode: special_bits(mode, has_owner, has_group) * 512 + classes.mode(),
        sets_list: sets_list(list, has_owner, has_group),
    }
}
