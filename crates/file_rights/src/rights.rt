//! The rights to read, to write and to execute.
ghost use Rattle.std.specs.Prelude.{◌≡◌};
ghost use Rattle.file_rights.specs.Rights.{bits_of, common, covers, rights_of};

/// Rights to read, to write and to execute: three bits of a mode, or an entry of an access list.
#[derive(Clone, Copy)]
pub struct Rights {
    /// May read the file.
    pub read: bool,
    /// May write the file.
    pub write: bool,
    /// May execute the file.
    pub execute: bool,
}

impl Rights {
    /// Returns the rights in the lowest three bits.
    pub(crate) fn of(bits: u32) -> Rights
        ensures { result ≡ rights_of bits }
    {
        Rights {
            read: bits / 4 % 2 == 1,
            write: bits / 2 % 2 == 1,
            execute: bits % 2 == 1,
        }
    }

    /// Returns the rights as three bits.
    pub(crate) fn bits(self) -> u32
        ensures { result ≡ bits_of self }
    {
        u32::from(self.read) * 4 + u32::from(self.write) * 2 + u32::from(self.execute)
    }

    /// Returns the rights that both have.
    pub(crate) fn common(self, other: Rights) -> Rights
        ensures { result ≡ common self other }
    {
        Rights {
            read: self.read && other.read,
            write: self.write && other.write,
            execute: self.execute && other.execute,
        }
    }

    /// Returns true if these rights include all of the others.
    pub(crate) fn covers(self, other: Rights) -> bool
        ensures { result ≡ covers self other }
    {
        (!other.read || self.read)
            && ((!other.write || self.write) && (!other.execute || self.execute))
    }
}
