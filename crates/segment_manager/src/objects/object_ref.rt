//! The objects of keys.
ghost use Rattle.std.specs.Prelude.{◌*◌, ◌+◌, ◌≡◌, ◌≤◌, IfOk, MatchResult, true};
ghost use Rattle.seg_types.specs.{Keys.key_seen, Keys.name_seen, Names.ByHandle, Names.ByName, Names.Key as AnyKey};
ghost use Rattle.seg_types.specs.{Kinds.size_of, declared.refusals.Refusal.TheVariants.WrongKind as OtherKind};
ghost use Rattle.segment_manager.specs.objects.Found.{handle_at, is_object_at};
ghost use Rattle.segment_manager.specs.objects.Located.{IsLocated, element_in, located, value_offset};
ghost use Rattle.segment_manager.specs.objects.Standing.{HasObject, IsObjectInBlock};
ghost use Rattle.segment_manager.specs.{Directory.Object as DirectoryObject, Directory.kind_of, State.AnswersWith};
ghost use Rattle.segment_manager.specs.{objects.BoundObjects.container_of, objects.Instances.IsMissing};

use crate::layout::{HALF, NAME_CLASS_AT, value_at};
use crate::objects::head::read_head;
use crate::segment::Segment;
use best_fit::{Heap, Place};
use seg_types::{Handle, Key, Kind, Name, Refusal, ScalarKind};

/// A located object of a segment. It refers to the object with its handle until that is destroyed: no call on elements
/// removes it, but `destroy` and `destroy_ptr` do.
#[derive(Clone, Copy, Debug, PartialEq, Eq, Hash)]
pub struct Object {
    /// Its handle.
    pub handle: Handle,
    /// Its kind.
    pub kind: Kind,
    /// The length of its name in bytes; its value begins after the name.
    pub(crate) name_len: u8,
    /// The number of elements of an array; 1 for a container.
    pub count: u32,
}

impl Object {
    /// Returns the offset of its value from its handle.
    pub(crate) fn value_at(self) -> u64
        ensures { result ≡ value_offset self }
    {
        value_at(u64::from(self.name_len))
    }

    /// Returns the place of its container, if it has one.
    pub(crate) fn own_container(self) -> Place
        ensures { result ≡ container_of self }
    {
        Place {
            handle: self.handle,
            at: self.value_at(),
        }
    }

    /// Returns the offset of the element at `index` from its handle, for an array of scalars of the kind.
    #[inline(always)]
    pub(crate) fn element_at(self, kind: ScalarKind, index: u64) -> u64
        requires { index ≤ self.count }
        ensures { result ≡ value_offset self + size_of kind * index }
    {
        self.value_at() + kind.size() * index
    }

    /// Returns the place of an element of an array of scalars of the kind.
    ///
    /// # Errors
    ///
    /// `OutOfRange` if the index is not below the length.
    #[inline(always)]
    pub(crate) fn element(self, kind: ScalarKind, index: u64) -> Result<Place, Refusal>
        ensures { result ≡ element_in self kind index }
    {
        if index >= u64::from(self.count) {
            return Err(Refusal::OutOfRange);
        }
        Ok(Place {
            handle: self.handle,
            at: self.element_at(kind, index),
        })
    }
}

/// A key of the object of a call, which is looked up at each call. `Bound` and `BoundMut` look it up once.
pub trait ObjectRef {
    // The key by which commands name the object.
    ghost key: { Self → AnyKey };

    /// Returns the handle of the object in a segment, or `None` if there is none.
    fn find(&self, segment: &Segment) -> Option<Handle>
        ensures { AnswersWith segment.now (λ d. handle_at d (key self.now)) result };
}

impl ObjectRef for Key<'_> {
    ghost key = { key_seen };

    fn find(&self, segment: &Segment) -> Option<Handle> {
        segment.handle_of(self)
    }
}

impl ObjectRef for Name<'_> {
    ghost key = { λ name. ByName (name_seen name) };

    fn find(&self, segment: &Segment) -> Option<Handle> {
        segment.handle_of(&Key::Name(*self))
    }
}

/// Returns the object at a handle, from its head.
#[inline(always)]
fn read_object(heap: &Heap, handle: Handle) -> Object
    requires { HasObject heap.now.bytes handle }
    ensures handle { result.handle ≡ handle }
    ensures text { (o : DirectoryObject) → IsObjectInBlock heap.now.bytes handle o → result ≡ located o }
{
    let head = read_head(heap, handle);
    Object {
        handle,
        kind: head.kind,
        name_len: head.name_len,
        count: head.count,
    }
}

/// Returns the object at a handle, from its head, if it has the kind. It compares the code of the kind with the code in
/// the head, and decodes no kind.
///
/// # Errors
///
/// `WrongKind` if it has another kind.
#[inline(always)]
pub(crate) fn read_of_kind(heap: &Heap, handle: Handle, kind: Kind) -> Result<Object, Refusal>
    requires { HasObject heap.now.bytes handle }
    ensures object { (o : DirectoryObject) → IsObjectInBlock heap.now.bytes handle o
        → MatchResult result (λ q. (q ≡ located o) × (q.kind ≡ kind))
        (λ why. (why ≡ OtherKind) × (kind_of o.value ≡ kind → ⊥)) }
    ensures kind { IfOk result (λ o. o.kind ≡ kind) }
{
    let first = heap.word(handle, 0);
    if first % HALF != u64::from(kind.code()) {
        return Err(Refusal::WrongKind);
    }
    let second = heap.word(handle, NAME_CLASS_AT);
    Ok(Object {
        handle,
        kind,
        name_len: (second % HALF) as u8,
        count: (first / HALF) as u32,
    })
}

/// Looks the object of a key up. `Bound::at` and `BoundMut::at` make no look-up.
///
/// Example: `let object = locate(&segment, &name)?`.
///
/// # Errors
///
/// `NotFound` if no object has the key.
pub fn locate<O: ObjectRef>(segment: &Segment, key: &O) -> Result<Object, Refusal>
    ensures { MatchResult result (IsLocated segment.now (O.key key.now)) (IsMissing segment.now (O.key key.now)) }
{
    match key.find(segment) {
        None => Err(Refusal::NotFound),
        Some(handle) => Ok(read_object(&segment.heap, handle)),
    }
}

/// Returns the object with a handle, without a look-up.
///
/// Example: `let object = object_here(&segment, handle)`.
///
/// # Conditions
///
/// An object of the segment has the handle. `locate` looks it up and has no condition.
#[inline(always)]
pub fn object_here(segment: &Segment, handle: Handle) -> Object
    requires { AnswersWith segment.now (λ d. is_object_at d handle) true }
    ensures handle { result.handle ≡ handle }
    ensures location { IsLocated segment.now (ByHandle result.handle) result }
{
    read_object(&segment.heap, handle)
}
