//! The keys by which a command names an object.

ghost use Rattle.std.specs.Prelude.{◌≡◌};
ghost use Rattle.seg_types.specs.Keys.{index_key_seen, key_seen, new_key_seen};

use crate::kinds::Kind;
use crate::names::Name;

/// An object's handle: the offset in bytes of its payload from the start of the segment. A handle from outside need not
/// belong to a live object.
pub type Handle = u64;

/// The key of an object.
#[derive(Clone, Copy, Debug, PartialEq, Eq, Hash)]
pub enum Key<'a> {
    /// The object with this name.
    Name(Name<'a>),
    /// The object of this kind in the unique index.
    Unique(Kind),
    /// The object with this handle, of any class.
    Handle(Handle),
    /// A new object without a name. It finds no object.
    Anonymous,
}

/// The key of a new object.
#[derive(Clone, Copy, Debug, PartialEq, Eq, Hash)]
pub enum NewKey<'a> {
    /// A name.
    Name(Name<'a>),
    /// The kind, for the unique index.
    Unique(Kind),
    /// No key: only the handle finds the object.
    Anonymous,
}

/// The key of an index entry.
#[derive(Clone, Copy, Debug, PartialEq, Eq, Hash)]
pub enum IndexKey<'a> {
    /// The object's name.
    Name(Name<'a>),
    /// The object's kind.
    Unique(Kind),
}

impl<'a> IndexKey<'a> {
    /// Returns the key of the entry's object.
    pub fn into_key(self) -> Key<'a>
        ensures { key_seen result ≡ index_key_seen self.entry }
    {
        match self {
            IndexKey::Name(name) => Key::Name(name),
            IndexKey::Unique(kind) => Key::Unique(kind),
        }
    }

    /// Returns the key for a new object with this entry.
    pub fn into_new_key(self) -> NewKey<'a>
        ensures { new_key_seen result ≡ index_key_seen self.entry }
    {
        match self {
            IndexKey::Name(name) => NewKey::Name(name),
            IndexKey::Unique(kind) => NewKey::Unique(kind),
        }
    }
}
