//! The three classes of a mode: the owner, the group and the others.
ghost use Rattle.std.specs.Prelude.{◌≡◌, ◌<◌};
ghost use Rattle.file_rights.specs.Modes.{classes_of, mode_of};

use crate::rights::Rights;

/// The rights of the three classes of a mode.
#[derive(Clone, Copy)]
pub struct Classes {
    /// The rights of the owner.
    pub owner: Rights,
    /// The rights of the members of the group.
    pub group: Rights,
    /// The rights of all others.
    pub other: Rights,
}

impl Classes {
    /// Returns the classes of a mode.
    pub(crate) fn of(mode: u32) -> Classes
        ensures { result ≡ classes_of mode }
    {
        Classes {
            owner: Rights::of(mode / 64),
            group: Rights::of(mode / 8),
            other: Rights::of(mode),
        }
    }

    /// Returns the mode with these classes.
    pub(crate) fn mode(self) -> u32
        ensures value { result ≡ mode_of self }
        ensures upper { result < 512 }
    {
        self.owner.bits() * 64 + self.group.bits() * 8 + self.other.bits()
    }
}
