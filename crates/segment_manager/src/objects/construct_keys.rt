//! The keys of new objects. A name, `UniqueInstance` and `AnonymousInstance` suit objects of each kind; a key with a
//! kind suits only objects of this kind.
ghost use Rattle.std.specs.Prelude.{◌≡◌, ⊤};
ghost use Rattle.seg_types.specs.{declared.kinds.Kind.Kind as AnyKind, Keys.index_key_seen, Keys.name_seen};
ghost use Rattle.seg_types.specs.{Keys.new_key_seen, Names.ByKind, Names.ByName, Names.Key as AnyKey, Names.NoKey};
ghost use Rattle.segment_manager.specs.objects.NewObjects.{IsOfKind};

use seg_types::{IndexKey, Kind, Name, NewKey};

/// The key of a new unique object: its kind, in the unique index.
#[derive(Clone, Copy, Debug, PartialEq, Eq, Hash)]
pub struct UniqueInstance;

/// The key of a new object without a name: only its handle finds it.
#[derive(Clone, Copy, Debug, PartialEq, Eq, Hash)]
pub struct AnonymousInstance;

/// The key of a new object.
///
/// # Conditions
///
/// A name, `UniqueInstance` and `AnonymousInstance` have none. A key with a kind must have the kind of the object.
pub trait ConstructKey {
    // The key of a new object of a kind.
    ghost key: { Self → AnyKind → AnyKey };

    // Whether an object of a kind can have the key.
    ghost suits: { Self → AnyKind → Type 0 };

    /// Returns the key of a new object of a kind.
    fn key_for(&self, kind: Kind) -> NewKey<'_>
        requires { suits self.now kind }
        ensures key { new_key_seen result ≡ key self.now kind }
        ensures kind { IsOfKind (new_key_seen result) kind };
}

/// The key of an index entry, by which an object is looked up, and constructed if there is none.
pub trait FindOrConstructKey: ConstructKey {
    /// Returns the entry's key for an object of a kind.
    fn entry_for(&self, kind: Kind) -> IndexKey<'_>
        requires { Self.suits self.now kind }
        ensures key { index_key_seen result ≡ Self.key self.now kind }
        ensures kind { IsOfKind (index_key_seen result) kind };
}

impl ConstructKey for NewKey<'_> {
    ghost key = { λ key kind. new_key_seen key };

    ghost suits = { λ key kind. IsOfKind (new_key_seen key) kind };

    fn key_for(&self, _kind: Kind) -> NewKey<'_> {
        *self
    }
}

impl ConstructKey for IndexKey<'_> {
    ghost key = { λ key kind. index_key_seen key };

    ghost suits = { λ key kind. IsOfKind (index_key_seen key) kind };

    fn key_for(&self, _kind: Kind) -> NewKey<'_> {
        self.into_new_key()
    }
}

impl FindOrConstructKey for IndexKey<'_> {
    fn entry_for(&self, _kind: Kind) -> IndexKey<'_> {
        *self
    }
}

impl ConstructKey for Name<'_> {
    ghost key = { λ name kind. ByName (name_seen name) };

    ghost suits = { λ name kind. ⊤ };

    fn key_for(&self, _kind: Kind) -> NewKey<'_> {
        NewKey::Name(*self)
    }
}

impl FindOrConstructKey for Name<'_> {
    fn entry_for(&self, _kind: Kind) -> IndexKey<'_> {
        IndexKey::Name(*self)
    }
}

impl ConstructKey for UniqueInstance {
    ghost key = { λ unique kind. ByKind kind };

    ghost suits = { λ unique kind. ⊤ };

    fn key_for(&self, kind: Kind) -> NewKey<'_> {
        NewKey::Unique(kind)
    }
}

impl FindOrConstructKey for UniqueInstance {
    fn entry_for(&self, kind: Kind) -> IndexKey<'_> {
        IndexKey::Unique(kind)
    }
}

impl ConstructKey for AnonymousInstance {
    ghost key = { λ anonymous kind. NoKey };

    ghost suits = { λ anonymous kind. ⊤ };

    fn key_for(&self, _kind: Kind) -> NewKey<'_> {
        NewKey::Anonymous
    }
}
