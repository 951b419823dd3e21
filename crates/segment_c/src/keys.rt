//! The keys that C passes.
ghost use Rattle.std.specs.Prelude.{◌≡◌, ◌≢◌, ◌≤◌, IfSome, MatchResult};
ghost use Rattle.seg_types.specs.{Keys.index_key_seen, Keys.key_seen, Names.ByHandle, Names.NoKey};
ghost use Rattle.segment_c.specs.Passed.{entry_of, entry_wrong, key_of, key_wrong};
ghost use Rattle.segment_manager.specs.objects.NewObjects.{IsOfKind};

use crate::codes::{BAD_KEY, BAD_KIND, BAD_NAME, NULL_SLICE};
use seg_types::{Handle, IndexKey, Key, Kind, Name};

/// Which object, by `how`. It is the one of the name (0), the unique one of the kind (1), the one of the handle (2), or
/// a new one with no key (3). 4 stands for a null name.
#[repr(C)]
#[derive(Drop)]
pub struct CKey<'a> {
    /// Which of the fields says the object.
    pub how: u32,
    /// The code of a kind.
    pub kind: u32,
    /// A handle.
    pub handle: u64,
    /// The bytes of a name.
    pub name: &'a [u8],
}

impl<'a> CKey<'a> {
    /// Returns the key of an object that is there.
    ///
    /// # Errors
    ///
    /// The code by which it is refused.
    #[tactic(auto, unfolding(crate::specs::Passed::key_wrong, crate::specs::Passed::key_of, crate::specs::Passed::kind_wrong))]
    pub fn key(&self) -> Result<Key<'a>, u32>
        ensures { MatchResult result (λ key. (key_wrong self.now ≡ 0) × (key_seen key ≡ key_of self.now)
            × (key_seen key ≢ NoKey)) (λ code. (code ≡ key_wrong self.now) × (1 ≤ code)) }
    {
        match self.how {
            0 => Ok(Key::Name(Name::new(self.name).ok_or(BAD_NAME)?)),
            1 => Ok(Key::Unique(Kind::from_code(self.kind).ok_or(BAD_KIND)?)),
            2 => Ok(Key::Handle(self.handle)),
            4 => Err(NULL_SLICE),
            _ => Err(BAD_KEY),
        }
    }

    /// Returns the handle if the key is one.
    #[inline(always)]
    #[tactic(auto, unfolding(crate::specs::Passed::key_wrong, crate::specs::Passed::key_of))]
    pub fn as_handle(&self) -> Option<Handle>
        ensures { IfSome result (λ handle. (key_wrong self.now ≡ 0) × (key_of self.now ≡ ByHandle handle)) }
    {
        match self.how {
            2 => Some(self.handle),
            _ => None,
        }
    }

    /// Returns the key of a handle.
    #[inline(always)]
    #[tactic(auto, unfolding(crate::specs::Passed::key_wrong, crate::specs::Passed::key_of))]
    pub fn of_handle(handle: Handle) -> CKey<'static>
        ensures { (key_wrong result ≡ 0) × (key_of result ≡ ByHandle handle) }
    {
        CKey {
            how: 2,
            kind: 0,
            handle,
            name: b"",
        }
    }

    /// Returns the entry under which an object of a kind is found or made.
    ///
    /// # Errors
    ///
    /// The code by which it is refused.
    #[tactic(auto, unfolding(crate::specs::Passed::entry_wrong, crate::specs::Passed::entry_of))]
    pub fn entry(&self, kind: Kind) -> Result<IndexKey<'a>, u32>
        ensures { MatchResult result (λ key. (entry_wrong self.now kind ≡ 0)
            × (index_key_seen key ≡ entry_of self.now kind) × IsOfKind (index_key_seen key) kind)
            (λ code. (code ≡ entry_wrong self.now kind) × (1 ≤ code)) }
    {
        match self.how {
            0 => Ok(IndexKey::Name(Name::new(self.name).ok_or(BAD_NAME)?)),
            1 => {
                if self.kind == kind.code() {
                    Ok(IndexKey::Unique(kind))
                } else {
                    Err(BAD_KIND)
                }
            }
            4 => Err(NULL_SLICE),
            _ => Err(BAD_KEY),
        }
    }
}
