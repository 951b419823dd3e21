//! Finds objects by their keys, and by their entries in the two indexes.
ghost use Rattle.std.specs.Prelude.{◌≡◌, Some, length, slice_get};
ghost use Rattle.seg_types.specs.declared.kinds.Kind.TheVariants.{Scalar as ScalarOf};
ghost use Rattle.seg_types.specs.{Commands.Find, Commands.NumNamed, Commands.NumUnique, Names.Key as AnyKey};
ghost use Rattle.seg_types.specs.{Keys.index_key_seen, Keys.key_seen, declared.kinds.Kind.Kind as AnyKind};
ghost use Rattle.seg_index.specs.Sorted.{index_of};
ghost use Rattle.segment_manager.specs.objects.Found.{IsBelow, found_answer, handle_at};
ghost use Rattle.segment_manager.specs.{Answers.Number, State.AnswersQuery, State.AnswersWith};
ghost use Rattle.segment_manager.specs.{Denotes.handles, objects.NewObjects.IsNewKeyOf, objects.NewObjects.IsOfKind};
ghost use Rattle.segment_manager.specs.Directory.{Object, named_objects, unique_objects};
ghost use Rattle.segment_manager.specs.objects.Standing.{HasObject, IsObjectInBlock, pair_of_kind};
ghost use Rattle.segment_manager.specs.{indexes.Indexed.Seeks};

use crate::objects::object_ref::read_of_kind;
use crate::segment::{Result, Segment};
use best_fit::Heap;
use raw_region::Steps;
use seg_index::{Entry, Index, Lookup};
use seg_types::{Handle, IndexKey, Key, Kind, Refusal, Scalar};

impl Segment {
    /// Returns the handle and the count of the object of a key, or `None` if no object has the key. The count is the
    /// number of elements of an array, and 1 for a container.
    ///
    /// Example: `let found = segment.find_kind(&Key::Name(name), Kind::String)?`.
    ///
    /// # Errors
    ///
    /// `WrongKind` if the object has another kind.
    pub fn find_kind(&self, key: &Key, kind: Kind) -> Result<Option<(Handle, u32)>>
        ensures { AnswersQuery self.now (Find (key_seen key.now) kind) (found_answer result) }
    {
        let Some(handle) = self.handle_of(key) else {
            return Ok(None);
        };
        let found = found_of(&self.heap, handle, kind)?;
        Ok(Some(found))
    }

    /// Returns the handle and the number of elements of the array of scalars of a key, or `None` if no object has the
    /// key. A single scalar is an array of 1.
    ///
    /// Example: `if let Some((handle, count)) = segment.find::<i64>(&Key::Name(name))?`.
    ///
    /// # Errors
    ///
    /// `WrongKind` if the object has another kind.
    pub fn find<T: Scalar>(&self, key: &Key) -> Result<Option<(Handle, u32)>>
        ensures { AnswersQuery self.now (Find (key_seen key.now) (ScalarOf T.kind)) (found_answer result) }
    {
        self.find_kind(key, Kind::Scalar(T::kind()))
    }

    /// Returns the number of objects with names.
    ///
    /// Example: `let count = segment.num_named()`.
    pub fn num_named(&self) -> u64
        ensures { AnswersQuery self.now NumNamed (Number result) }
    {
        Index::Named.len(&self.heap)
    }

    /// Returns the number of kinds with a unique object.
    ///
    /// Example: `let count = segment.num_unique()`.
    pub fn num_unique(&self) -> u64
        ensures { AnswersQuery self.now NumUnique (Number result) }
    {
        Index::Unique.len(&self.heap)
    }

    /// Returns the handle of the object of a key, or `None` if no object has the key.
    pub(crate) fn handle_of(&self, key: &Key) -> Option<Handle>
        ensures { AnswersWith self.now (λ d. handle_at d (key_seen key.now)) result }
    {
        match key {
            Key::Name(name) => self.look_up(Index::Named, Entry::Name(name.as_bytes())),
            Key::Unique(kind) => self.look_up(Index::Unique, Entry::Code(kind.code())),
            Key::Handle(handle) => self.is_object_handle(*handle).then_some(*handle),
            Key::Anonymous => None,
        }
    }

    /// Returns the handle of the object of an index entry, or `None` if there is none.
    fn look_up(&self, index: Index, entry: Entry<'_>) -> Option<Handle>
        requires { index_of entry ≡ index }
        ensures { (key : AnyKey) → Seeks index entry.entry key → AnswersWith self.now (λ d. handle_at d key) result }
    {
        match index.lookup(&self.heap, entry, &mut Steps::new()) {
            Lookup::Found(place) => Some(index.at(&self.heap, place)),
            Lookup::Absent(_) => None,
        }
    }
}

/// Returns the index for a key, the key in this index, and the name of its object.
#[inline(always)]
pub(crate) fn entry_of<'a>(key: &IndexKey<'a>) -> (Index, Entry<'a>, &'a [u8])
    ensures search { Seeks result.0 result.1 (index_key_seen key.now) }
    ensures new { (kind : AnyKind) → IsOfKind (index_key_seen key.now) kind
        → IsNewKeyOf result.0 result.1 (index_key_seen key.now) result.2.now kind }
{
    match key {
        IndexKey::Name(name) => {
            let bytes = name.as_bytes();
            (Index::Named, Entry::Name(bytes), bytes)
        }
        IndexKey::Unique(kind) => (Index::Unique, Entry::Code(kind.code()), &[]),
    }
}

/// Returns the handle of the `i`th named object, from 0 on, in the order of the bytes of the names.
///
/// Example: `let handle = named_at(&segment, 0)`.
///
/// # Conditions
///
/// `i` is below `num_named`. `named_instances` iterates over all of them without a condition.
pub fn named_at(segment: &Segment, i: u64) -> Handle
    requires { IsBelow segment.now (λ d. length (named_objects d)) i }
    ensures { AnswersWith segment.now (λ d. slice_get (handles (named_objects d)) i) (Some result) }
{
    Index::Named.at(&segment.heap, i)
}

/// Returns the handle of the `i`th unique object, from 0 on, in the order of the codes of the kinds.
///
/// Example: `let handle = unique_at(&segment, 0)`.
///
/// # Conditions
///
/// `i` is below `num_unique`. `unique_instances` iterates over all of them without a condition.
pub fn unique_at(segment: &Segment, i: u64) -> Handle
    requires { IsBelow segment.now (λ d. length (unique_objects d)) i }
    ensures { AnswersWith segment.now (λ d. slice_get (handles (unique_objects d)) i) (Some result) }
{
    Index::Unique.at(&segment.heap, i)
}

/// Returns an object's handle and count. The count is the number of elements of an array, and 1 for a container.
///
/// # Errors
///
/// `WrongKind` if the object has another kind.
pub(crate) fn found_of(heap: &Heap, handle: u64, kind: Kind) -> Result<(Handle, u32)>
    requires { HasObject heap.now.bytes handle }
    ensures { (o : Object) → IsObjectInBlock heap.now.bytes handle o → result ≡ pair_of_kind o kind }
{
    let object = read_of_kind(heap, handle, kind)?;
    Ok((handle, object.count))
}
