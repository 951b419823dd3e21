//! The properties of an object, one or all of them, by its key or by its position in an index.
ghost use Rattle.std.specs.Prelude.{◌≡◌, Err, MatchResult, Ok, length, option_map, true};
ghost use Rattle.raw_region.specs.Format.{current};
ghost use Rattle.best_fit.specs.Heap.{IsHeap};
ghost use Rattle.seg_types.specs.{Keys.key_seen, Names.ByHandle};
ghost use Rattle.segment_manager.specs.Directory.{Object, count_of, named_objects, unique_objects};
ghost use Rattle.segment_manager.specs.objects.Instances.{IsInstance, IsMissing, SaysAt, SaysOf, own_name};
ghost use Rattle.segment_manager.specs.objects.Standing.{HasObject, IsObjectInBlock};
ghost use Rattle.segment_manager.specs.{Calls.kind_at, Calls.told_at, State.AnswersWith};
ghost use Rattle.segment_manager.specs.{indexes.Indexed.objects_of, objects.Found.IsBelow, objects.Found.is_object_at};

use crate::objects::head::{read_head, read_name};
use crate::objects::object_ref::ObjectRef;
use crate::segment::Segment;
use best_fit::Heap;
use block_tags::Role;
use seg_index::Index;
use seg_types::{Class, Handle, Key, Kind, Refusal};

/// The properties of an object.
#[derive(Clone, Copy)]
pub struct Instance<'a> {
    /// How the object is found.
    pub class: Class,
    /// Its name; empty for objects without a name.
    pub name: &'a [u8],
    /// Its kind.
    pub kind: Kind,
    /// The number of elements of an array; 1 for a container.
    pub count: u32,
    /// Its handle.
    pub handle: Handle,
}

impl Segment {
    /// Returns the properties of the object of a key.
    ///
    /// Example: `let said = segment.instance(&name)?`.
    ///
    /// # Errors
    ///
    /// `NotFound` if no object has the key.
    pub fn instance<O: ObjectRef>(&self, key: &O) -> Result<Instance<'_>, Refusal>
        ensures { MatchResult result (λ said. SaysOf self.now (O.key key.now) said)
            (IsMissing self.now (O.key key.now)) }
    {
        match key.find(self) {
            None => Err(Refusal::NotFound),
            Some(handle) => Ok(read_instance(&self.heap, handle)),
        }
    }

    /// Returns the properties of the object of an index entry.
    pub(crate) fn entered(&self, index: Index, i: u64) -> Instance<'_>
        requires { IsBelow self.now (λ d. length (objects_of index d)) i }
        ensures { SaysAt self.now (objects_of index) i result }
    {
        let handle = index.at(&self.heap, i);
        read_instance(&self.heap, handle)
    }

    /// Returns true if an object of the segment has the handle, which can be any number. It finds a remembered handle
    /// at once, and searches for any other from the nearest block hint on.
    #[inline(always)]
    pub(crate) fn is_object_handle(&self, handle: Handle) -> bool
        ensures { AnswersWith self.now (λ d. is_object_at d handle) result }
    {
        self.heap.is_live(handle) && self.heap.role(handle) == Role::Object
    }

    /// Returns the kind of the object of a key. The error of `instance` applies.
    ///
    /// Example: `let kind = segment.kind_of(&key)?`.
    pub fn kind_of(&self, key: &Key) -> Result<Kind, Refusal>
        ensures { AnswersWith self.now (λ d. kind_at d (key_seen key.now)) result }
    {
        match self.handle_of(key) {
            None => Err(Refusal::NotFound),
            Some(handle) => Ok(read_head(&self.heap, handle).kind),
        }
    }

    /// Returns the name of the object of a key, or `None` if the object has no name. The error of `instance` applies.
    ///
    /// Example: `if let Some(bytes) = segment.instance_name(&key)?`.
    pub fn instance_name(&self, key: &Key) -> Result<Option<&[u8]>, Refusal>
        ensures { MatchResult result (λ name. AnswersWith self.now (λ d. told_at d (key_seen key.now) own_name)
            (Ok (option_map (λ bytes. bytes.now) name)))
            (λ why. AnswersWith self.now (λ d. told_at d (key_seen key.now) own_name) (Err why)) }
    {
        match self.handle_of(key) {
            None => Err(Refusal::NotFound),
            Some(handle) => match read_head(&self.heap, handle).class {
                Class::Named => Ok(Some(read_name(&self.heap, handle))),
                Class::Anonymous | Class::Unique => Ok(None),
            },
        }
    }

    /// Returns the count of the object of a key: the number of elements of an array, and 1 for a container. The error
    /// of `instance` applies.
    ///
    /// Example: `let count = segment.instance_length(&key)?`.
    pub fn instance_length(&self, key: &Key) -> Result<u64, Refusal>
        ensures { AnswersWith self.now (λ d. told_at d (key_seen key.now) (λ (o : Object). count_of o.value)) result }
    {
        match self.handle_of(key) {
            None => Err(Refusal::NotFound),
            Some(handle) => Ok(u64::from(read_head(&self.heap, handle).count)),
        }
    }

    /// Returns the class of the object of a key: how it is found. The error of `instance` applies.
    ///
    /// Example: `let class = segment.instance_class(&key)?`.
    pub fn instance_class(&self, key: &Key) -> Result<Class, Refusal>
        ensures { AnswersWith self.now (λ d. told_at d (key_seen key.now) (λ (o : Object). o.class)) result }
    {
        match self.handle_of(key) {
            None => Err(Refusal::NotFound),
            Some(handle) => Ok(read_head(&self.heap, handle).class),
        }
    }
}

/// Returns the properties of the object at a handle.
fn read_instance(heap: &Heap, handle: Handle) -> Instance<'_>
    requires heap { IsHeap current heap.now.bytes }
    requires object { HasObject heap.now.bytes handle }
    ensures { (o : Object) → IsObjectInBlock heap.now.bytes handle o → IsInstance o result }
{
    let head = read_head(heap, handle);
    Instance {
        class: head.class,
        name: read_name(heap, handle),
        kind: head.kind,
        count: head.count,
        handle,
    }
}

/// Returns the properties of the object with a handle, without a look-up.
///
/// Example: `let said = instance_here(&segment, handle)`.
///
/// # Conditions
///
/// An object of the segment has the handle. `instance` with a `Key::Handle` looks it up and has no condition.
pub fn instance_here(segment: &Segment, handle: Handle) -> Instance<'_>
    requires { AnswersWith segment.now (λ d. is_object_at d handle) true }
    ensures { SaysOf segment.now (ByHandle handle) result }
{
    read_instance(&segment.heap, handle)
}

/// Returns the properties of the `i`th named object, from 0 on, in the order of the bytes of the names.
///
/// Example: `let said = named_instance(&segment, 0)`.
///
/// # Conditions
///
/// `i` is below `num_named`. `named_instances` iterates over all of them without a condition.
pub fn named_instance(segment: &Segment, i: u64) -> Instance<'_>
    requires { IsBelow segment.now (λ d. length (named_objects d)) i }
    ensures { SaysAt segment.now named_objects i result }
{
    segment.entered(Index::Named, i)
}

/// Returns the properties of the `i`th unique object, from 0 on, in the order of the codes of the kinds.
///
/// Example: `let said = unique_instance(&segment, 0)`.
///
/// # Conditions
///
/// `i` is below `num_unique`. `unique_instances` iterates over all of them without a condition.
pub fn unique_instance(segment: &Segment, i: u64) -> Instance<'_>
    requires { IsBelow segment.now (λ d. length (unique_objects d)) i }
    ensures { SaysAt segment.now unique_objects i result }
{
    segment.entered(Index::Unique, i)
}
