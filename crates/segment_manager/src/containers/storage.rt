//! The capacity of vectors, strings, vectors of strings and the two indexes, and the number of elements of containers.
//! Containers with elements in their storage differ only in the length of an element.
ghost use Rattle.std.specs.Prelude.{Ok, OnErr, false, true, ◌≡◌, ◌≤◌};
ghost use Rattle.seg_types.specs.Commands.{Clear, Reserve, ReserveNamed, ReserveUnique, Shrink, ShrinkIndexes};
ghost use Rattle.seg_vector.specs.TextsCalls.{IsTextsContainer};
ghost use Rattle.segment_manager.specs.{Keeping.HasCapacity, Keeping.UnchangedWhere, objects.BoundObjects.key_of};
ghost use Rattle.segment_manager.specs.{Step.is_read_only, containers.Contents.has_sizes, containers.Contents.sizes_at};
ghost use Rattle.segment_manager.specs.{indexes.Indexed.reserve_of, indexes.Indexed.table_of, objects.Located.IsObject};
ghost use Rattle.segment_manager.specs.State.{AnswersWith, TakesStep, done_answer};
ghost use Rattle.segment_manager.specs.containers.Stored.{ChangesElements, ChangesTexts, HasEnough, IsElements};
ghost use Rattle.segment_manager.specs.containers.Stored.{command_of, each_of};

use crate::objects::object_ref::{Object, ObjectRef, locate};
use crate::segment::Segment;
use best_fit::{Heap, NoSpace};
use raw_region::Steps;
use seg_index::Index;
use seg_types::{Kind, Refusal};
use seg_vector::{Place, SegTexts, reserve, shrink_storage, truncate};

/// The offset of a container's number of elements or pairs; its capacity follows.
const LEN: u64 = 8;

const CAPACITY: u64 = 16;

/// A change of a container's storage.
#[derive(Clone, Copy)]
pub(crate) enum Change {
    /// Grows the capacity to at least this number of elements.
    Reserve(u64),
    /// Shrinks the capacity to the length.
    Shrink,
    /// Removes all elements. The capacity stays.
    Clear,
}

impl Segment {
    /// Returns the length and the capacity of the vector or string, or the number of a map's pairs and 0.
    ///
    /// Example: `let (count, places) = segment.measure(&name)?`.
    ///
    /// # Errors
    ///
    /// `NotFound` if no object has the key, `WrongKind` if the object is no container.
    pub fn measure<O: ObjectRef>(&self, key: &O) -> Result<(u64, u64), Refusal>
        ensures { AnswersWith self.now (λ d. sizes_at d (O.key key.now)) result }
    {
        let object = locate(self, key)?;
        measure_object(self, object)
    }

    /// Grows the capacity of the vector or string to at least `n` elements.
    ///
    /// Example: `segment.reserve(&name, 1000)?`.
    ///
    /// # Errors
    ///
    /// `ReadOnly` if the segment is open for reading. Otherwise `NotFound` if no object has the key, `WrongKind` if the
    /// object has no storage, `NoSpace` if its storage cannot be regrown. Nothing changes.
    #[inline(never)]
    pub fn reserve<O: ObjectRef>(&mut self, key: &O, n: u64) -> Result<(), Refusal>
        ensures step { TakesStep self.old self.new (Reserve (O.key key.now) n) (done_answer result) }
        ensures refused { OnErr result (self.new ≡ self.old) }
        ensures noop { UnchangedWhere self.old self.new (HasCapacity (O.key key.now) n) }
    {
        self.change_storage(key, Change::Reserve(n))
    }

    /// Shrinks the capacity of the vector or string to its length, as far as its block can be shortened. The errors of
    /// `reserve` apply, except for `NoSpace`.
    ///
    /// Example: `segment.shrink(&name)?`.
    #[inline(never)]
    pub fn shrink<O: ObjectRef>(&mut self, key: &O) -> Result<(), Refusal>
        ensures step { TakesStep self.old self.new (Shrink (O.key key.now)) (done_answer result) }
        ensures refused { OnErr result (self.new ≡ self.old) }
    {
        self.change_storage(key, Change::Shrink)
    }

    /// Removes all elements of the vector or string. The capacity stays. The errors of `shrink` apply.
    ///
    /// Example: `segment.clear(&name)?`.
    #[inline(never)]
    pub fn clear<O: ObjectRef>(&mut self, key: &O) -> Result<(), Refusal>
        ensures step { TakesStep self.old self.new (Clear (O.key key.now)) (done_answer result) }
        ensures refused { OnErr result (self.new ≡ self.old) }
    {
        self.change_storage(key, Change::Clear)
    }

    /// Changes the storage of the vector or string.
    #[inline(always)]
    fn change_storage<O: ObjectRef>(&mut self, key: &O, change: Change) -> Result<(), Refusal>
        ensures step { TakesStep self.old self.new (command_of change (O.key key.now)) (done_answer result) }
        ensures refused { OnErr result (self.new ≡ self.old) }
        ensures noop { UnchangedWhere self.old self.new (HasEnough change (O.key key.now)) }
    {
        if self.is_read_only() {
            return Err(Refusal::ReadOnly);
        }
        let object = locate(self, key)?;
        change_object(self, object, change)
    }

    /// Grows the capacity of the index of names to `n` objects, if it is less. It allocates a block for exactly `n`,
    /// and then frees the old one.
    ///
    /// Example: `segment.reserve_named(1000)?`.
    ///
    /// # Errors
    ///
    /// `ReadOnly` if the segment is open for reading. Otherwise `NoSpace` if no gap is long enough. Nothing changes.
    pub fn reserve_named(&mut self, n: u64) -> Result<(), Refusal>
        ensures step { TakesStep self.old self.new (ReserveNamed n) (done_answer result) }
        ensures refused { OnErr result (self.new ≡ self.old) }
        ensures noop { UnchangedWhere self.old self.new (λ d. n ≤ d.named.capacity) }
    {
        self.reserve_index(Index::Named, n)
    }

    /// Grows the capacity of the index of kinds to `n` objects, if it is less. The errors of `reserve_named` apply.
    ///
    /// Example: `segment.reserve_unique(8)?`.
    pub fn reserve_unique(&mut self, n: u64) -> Result<(), Refusal>
        ensures step { TakesStep self.old self.new (ReserveUnique n) (done_answer result) }
        ensures refused { OnErr result (self.new ≡ self.old) }
        ensures noop { UnchangedWhere self.old self.new (λ d. n ≤ d.unique.capacity) }
    {
        self.reserve_index(Index::Unique, n)
    }

    /// Grows the capacity of an index to at least `n` objects.
    fn reserve_index(&mut self, index: Index, n: u64) -> Result<(), Refusal>
        ensures step { TakesStep self.old self.new (reserve_of index n) (done_answer result) }
        ensures refused { OnErr result (self.new ≡ self.old) }
        ensures noop { UnchangedWhere self.old self.new (λ d. n ≤ (table_of index d).capacity) }
    {
        if self.is_read_only() {
            return Err(Refusal::ReadOnly);
        }
        match index.reserve(&mut self.heap, n, &mut Steps::new()) {
            Ok(()) => Ok(()),
            Err(NoSpace) => Err(Refusal::NoSpace),
        }
    }

    /// Shrinks the capacity of both indexes to the number of their entries, the index of names first. It frees the
    /// block of an empty index, and shortens any other block in place, as far as it can be shortened.
    ///
    /// Example: `segment.shrink_indexes()?`.
    ///
    /// # Errors
    ///
    /// `ReadOnly` if the segment is open for reading. Nothing changes.
    pub fn shrink_indexes(&mut self) -> Result<(), Refusal>
        ensures step { TakesStep self.old self.new ShrinkIndexes (done_answer result) }
        ensures refused { OnErr result (self.new ≡ self.old) }
    {
        if self.is_read_only() {
            return Err(Refusal::ReadOnly);
        }
        Index::Named.shrink(&mut self.heap, &mut Steps::new());
        Index::Unique.shrink(&mut self.heap, &mut Steps::new());
        Ok(())
    }
}

/// Changes the storage of a located vector or string. It is inlined, so the choice of the change costs no test.
#[inline(always)]
fn change_object(segment: &mut Segment, object: Object, change: Change) -> Result<(), Refusal>
    requires object { IsObject object segment.old }
    requires writing { is_read_only segment.old.mode ≡ false }
    ensures step { TakesStep segment.old segment.new (command_of change (key_of object)) (done_answer result) }
    ensures refused { OnErr result (segment.new ≡ segment.old) }
    ensures noop { UnchangedWhere segment.old segment.new (HasEnough change (key_of object)) }
{
    let place = object.own_container();
    match object.kind {
        Kind::Scalar(_) | Kind::Map(_, _) => Err(Refusal::WrongKind),
        Kind::Strings => change_texts(&mut segment.heap, SegTexts { place }, change),
        kind => change_elements(&mut segment.heap, place, element_len(kind), change),
    }
}

/// Returns the length in bytes of an element of a vector of scalars, or of a string.
pub(crate) fn element_len(kind: Kind) -> u64
    ensures { result ≡ each_of kind }
{
    match kind {
        Kind::Vector(element) => element.size(),
        _ => 1,
    }
}

/// Changes the storage of a vector of strings.
#[inline(always)]
pub(crate) fn change_texts(heap: &mut Heap, texts: SegTexts, change: Change) -> Result<(), Refusal>
    requires { IsTextsContainer heap.old.bytes texts.place }
    ensures { ChangesTexts change heap.old heap.new texts.place result }
{
    match change {
        Change::Reserve(n) => return texts.reserve(heap, n),
        Change::Shrink => texts.shrink(heap),
        Change::Clear => texts.clear(heap),
    }
    Ok(())
}

/// Changes the storage of a container with elements of `each` bytes.
#[inline(always)]
pub(crate) fn change_elements(
    heap: &mut Heap,
    place: Place,
    each: u64,
    change: Change,
) -> Result<(), Refusal>
    requires { IsElements heap.old.bytes place each }
    ensures { ChangesElements change heap.old heap.new place each result }
{
    match change {
        Change::Reserve(n) => return reserve(heap, place, each, n),
        Change::Shrink => shrink_storage(heap, place, each),
        Change::Clear => truncate(heap, place, each, 0),
    }
    Ok(())
}

/// As [`Segment::reserve`] on a located object.
///
/// Example: `reserve_object(&mut segment, object, 1000)?`.
///
/// # Conditions
///
/// The object is there. `Segment::reserve` looks it up and has no condition.
#[inline(never)]
pub fn reserve_object(segment: &mut Segment, object: Object, n: u64) -> Result<(), Refusal>
    requires { IsObject object segment.old }
    ensures step { TakesStep segment.old segment.new (Reserve (key_of object) n) (done_answer result) }
    ensures refused { OnErr result (segment.new ≡ segment.old) }
    ensures noop { UnchangedWhere segment.old segment.new (HasCapacity (key_of object) n) }
{
    if segment.is_read_only() {
        return Err(Refusal::ReadOnly);
    }
    change_object(segment, object, Change::Reserve(n))
}

/// As [`Segment::measure`] on a located object.
///
/// Example: `let (count, places) = measure_object(&segment, object)?`.
///
/// # Conditions
///
/// The object is there. `Segment::measure` looks it up and has no condition.
pub fn measure_object(segment: &Segment, object: Object) -> Result<(u64, u64), Refusal>
    requires { IsObject object segment.now }
    ensures { AnswersWith segment.now (λ d. sizes_at d (key_of object)) result }
{
    match object.kind {
        Kind::Scalar(_) => Err(Refusal::WrongKind),
        _ => Ok(measure_container(segment, object)),
    }
}

/// Returns the length and the capacity of a located container.
fn measure_container(segment: &Segment, object: Object) -> (u64, u64)
    requires object { IsObject object segment.now }
    requires container { has_sizes object.kind ≡ true }
    ensures { AnswersWith segment.now (λ d. sizes_at d (key_of object)) (Ok result) }
{
    let place = object.own_container();
    let len = segment.heap.word(place.handle, place.at + LEN);
    match object.kind {
        Kind::Map(_, _) => (len, 0),
        _ => (len, segment.heap.word(place.handle, place.at + CAPACITY)),
    }
}
