//! Access lists, in the bytes of the system: a version in four bytes, then eight bytes for each entry.
ghost use Rattle.std.specs.Prelude.{◌≡◌, ◌<◌, [], ◌∷◌, length, IfSome, MatchOption, Some, None};
ghost use Rattle.file_rights.specs.AccessLists.{common_within, entries_of, first_rights, list_of};

use crate::rights::Rights;

/// An entry of an access list.
#[derive(Clone, Copy)]
pub struct ListEntry {
    /// The user or group of the entry: 1 is the owner, 2 a named user, 4 the owning group, 8 a named group, 16 the
    /// mask, 32 the others.
    pub tag: u32,
    /// The rights of the entry.
    pub rights: Rights,
    /// The number of the named user or group.
    pub number: u32,
}

/// Returns the bytes behind the version, or `None` if the bytes are not a list of version 2.
pub(crate) fn entry_bytes(bytes: &[u8]) -> Option<&[u8]>
    ensures { MatchOption result
        (list_of bytes.now ≡ None)
        (λ entries. list_of bytes.now ≡ Some (entries_of entries.now)) }
{
    match bytes {
        [2, 0, 0, 0, entries @ ..] if entries.len() % 8 == 0 => Some(entries),
        _ => None,
    }
}

/// Returns the first entry and the bytes behind it, or `None` if there are fewer than eight bytes.
fn next_entry(bytes: &[u8]) -> Option<(ListEntry, &[u8])>
    ensures value { MatchOption result
        (entries_of bytes.now ≡ [])
        (λ next. entries_of bytes.now ≡ next.0 ∷ entries_of next.1.now) }
    ensures len { IfSome result (λ next. length next.1.now < length bytes.now) }
{
    match bytes {
        [t, u, p, _, a, b, c, d, behind @ ..] => Some((
            ListEntry {
                tag: u32::from(*t) + u32::from(*u) * 256,
                rights: Rights::of(u32::from(*p)),
                number: u32::from(*a)
                    + u32::from(*b) * 256
                    + u32::from(*c) * 65_536
                    + u32::from(*d) * 16_777_216,
            },
            behind,
        )),
        _ => None,
    }
}

/// Returns the rights of the first entry with a tag, or `None` if no entry has the tag.
pub(crate) fn first_rights(bytes: &[u8], tag: u32) -> Option<Rights>
    ensures { result ≡ first_rights tag (entries_of bytes.now) }
{
    let mut rest = bytes;
    while let Some((entry, behind)) = next_entry(rest) {
        if entry.tag == tag {
            return Some(entry.rights);
        }
        rest = behind;
    }
    None
}

/// Returns the rights that every entry with a tag has within a mask.
pub(crate) fn common_within(bytes: &[u8], tag: u32, mask: Rights) -> Rights
    ensures { result ≡ common_within tag mask (entries_of bytes.now) }
{
    let mut rights = Rights::of(7);
    let mut rest = bytes;
    while let Some((entry, behind)) = next_entry(rest) {
        if entry.tag == tag {
            rights = rights.common(entry.rights.common(mask));
        }
        rest = behind;
    }
    rights
}
