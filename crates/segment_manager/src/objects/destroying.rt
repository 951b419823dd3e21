//! Destroys objects, and frees the blocks of their values.
ghost use Rattle.std.specs.Prelude.{◌≡◌, OnErr, false, true, ℕ};
ghost use Rattle.seg_types.specs.{Commands.Destroy, Commands.DestroyPtr, Keys.index_key_seen, Names.ByHandle};
ghost use Rattle.seg_index.specs.Sorted.{index_of};
ghost use Rattle.segment_manager.specs.State.{AnswersWith, TakesStep, gone_answer, truth_answer};
ghost use Rattle.segment_manager.specs.containers.Maps.{HasPairs, ReleasesPairs};
ghost use Rattle.segment_manager.specs.objects.Destroyed.{Empties, HoldsEntry, HoldsObject, RemovesAnonymous};
ghost use Rattle.segment_manager.specs.{Keeping.LacksKey, Keeping.UnchangedWhere, objects.Destroyed.RemovesEntry};
ghost use Rattle.segment_manager.specs.{indexes.Listed.HasEntries, indexes.Listed.IsListed, objects.Found.is_object_at};

use crate::containers::storage::element_len;
use crate::layout::value_at;
use crate::objects::finding::entry_of;
use crate::objects::head::{read_head, read_name};
use crate::segment::Segment;
use best_fit::Heap;
use raw_region::Steps;
use seg_index::{Entry, Index, Lookup};
use seg_map::SegMap;
use seg_types::{Class, Handle, IndexKey, Kind, Refusal, Scalar, ScalarKind, by_kind};
use seg_vector::{Place, SegTexts, free_storage};

/// The place of an object's entry in an index.
#[derive(Clone, Copy, Debug, PartialEq, Eq)]
pub(crate) struct Listed {
    /// The index with the entry.
    pub(crate) index: Index,
    /// The entry's place in the index, from 0 on.
    pub(crate) place: u64,
}

impl Segment {
    /// Destroys the object of a key and frees all its blocks. Returns false, and changes nothing, if no object has the
    /// key.
    ///
    /// Example: `let there = segment.destroy(&IndexKey::Name(name))?`.
    ///
    /// # Errors
    ///
    /// `ReadOnly` if the segment is open for reading. Nothing changes.
    pub fn destroy(&mut self, key: &IndexKey) -> Result<bool, Refusal>
        ensures step { TakesStep self.old self.new (Destroy (index_key_seen key.now)) (truth_answer result) }
        ensures refused { OnErr result (self.new ≡ self.old) }
        ensures absent { UnchangedWhere self.old self.new (LacksKey (index_key_seen key.now)) }
    {
        if self.is_read_only() {
            return Err(Refusal::ReadOnly);
        }
        let (index, entry, _) = entry_of(key);
        match index.lookup(&self.heap, entry, &mut Steps::new()) {
            Lookup::Found(place) => {
                remove_entered(&mut self.heap, index, place);
                Ok(true)
            }
            Lookup::Absent(_) => Ok(false),
        }
    }

    /// Destroys the object with a handle, of any class: removes its entry and frees all its blocks.
    ///
    /// Example: `segment.destroy_ptr(handle)?`.
    ///
    /// # Errors
    ///
    /// `ReadOnly` if the segment is open for reading. Otherwise `NotFound` if no object has the handle. Nothing
    /// changes.
    pub fn destroy_ptr(&mut self, handle: Handle) -> Result<(), Refusal>
        ensures step { TakesStep self.old self.new (DestroyPtr handle) (gone_answer result) }
        ensures refused { OnErr result (self.new ≡ self.old) }
        ensures absent { UnchangedWhere self.old self.new (LacksKey (ByHandle handle)) }
    {
        if self.is_read_only() {
            return Err(Refusal::ReadOnly);
        }
        if !self.is_object_handle(handle) {
            return Err(Refusal::NotFound);
        }
        match self.listed(handle) {
            Some(listed) => remove_entered(&mut self.heap, listed.index, listed.place),
            None => remove_anonymous(&mut self.heap, handle),
        }
        Ok(())
    }

    /// Returns the place of an object's entry, or `None` if the object is anonymous.
    fn listed(&self, handle: Handle) -> Option<Listed>
        requires { AnswersWith self.now (λ d. is_object_at d handle) true }
        ensures { IsListed self.now handle result }
    {
        let head = read_head(&self.heap, handle);
        match head.class {
            Class::Anonymous => None,
            Class::Named => {
                self.listed_under(Index::Named, Entry::Name(read_name(&self.heap, handle)))
            }
            Class::Unique => self.listed_under(Index::Unique, Entry::Code(head.kind.code())),
        }
    }

    /// Returns the place of an object's entry in this index.
    fn listed_under(&self, index: Index, entry: Entry<'_>) -> Option<Listed>
        requires { index_of entry ≡ index }
        ensures { (handle : ℕ) → HasEntries self.now index entry.entry handle → IsListed self.now handle result }
    {
        match index.lookup(&self.heap, entry, &mut Steps::new()) {
            Lookup::Found(place) => Some(Listed { index, place }),
            Lookup::Absent(_) => None,
        }
    }
}

/// Removes the entry at a place of an index, and frees all blocks of its object.
fn remove_entered(heap: &mut Heap, index: Index, place: u64)
    requires { HoldsEntry heap.old.bytes index place }
    ensures { RemovesEntry heap.old heap.new index place }
{
    let handle = index.at(heap, place);
    release_contents(heap, handle);
    index.remove(heap, place);
    heap.deallocate(handle, &mut Steps::new());
}

/// Frees all blocks of an anonymous object.
fn remove_anonymous(heap: &mut Heap, object: Handle)
    requires { HoldsObject heap.old.bytes object }
    ensures { RemovesAnonymous heap.old heap.new object }
{
    release_contents(heap, object);
    heap.deallocate(object, &mut Steps::new());
}

/// Frees the blocks of an object's value. A container is then empty, with capacity 0; numbers stay.
fn release_contents(heap: &mut Heap, handle: u64)
    requires { HoldsObject heap.old.bytes handle }
    ensures { Empties heap.old heap.new handle }
{
    let head = read_head(heap, handle);
    let place = Place {
        handle,
        at: value_at(u64::from(head.name_len)),
    };
    match head.kind {
        Kind::Scalar(_) => {}
        Kind::Map(keys, values) => release_pairs(heap, place, keys, values),
        Kind::Strings => SegTexts { place }.release(heap),
        kind => free_storage(heap, place, element_len(kind)),
    }
}

/// Frees the blocks of the pairs of a map of two kinds.
fn release_pairs(heap: &mut Heap, place: Place, keys: ScalarKind, values: ScalarKind)
    requires { HasPairs keys values heap.old.bytes place }
    ensures { ReleasesPairs keys values heap.old heap.new place }
{
    macro_rules! released {
        ($type:ty, $kind:ident) => {
            release_pairs_of::<$type>(heap, place, values)
        };
    }
    by_kind!(keys, released)
}

/// Frees the blocks of the pairs of a map with map keys of a type.
fn release_pairs_of<K: Scalar>(heap: &mut Heap, place: Place, values: ScalarKind)
    requires { HasPairs K.kind values heap.old.bytes place }
    ensures { ReleasesPairs K.kind values heap.old heap.new place }
{
    macro_rules! released {
        ($type:ty, $kind:ident) => {
            release_map::<K, $type>(heap, place)
        };
    }
    by_kind!(values, released)
}

/// Frees the blocks of the pairs of a map of two types.
fn release_map<K: Scalar, V: Scalar>(heap: &mut Heap, place: Place)
    requires { HasPairs K.kind V.kind heap.old.bytes place }
    ensures { ReleasesPairs K.kind V.kind heap.old heap.new place }
{
    SegMap::<K, V>::at(place).release(heap);
}
