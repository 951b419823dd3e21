//! Arrays and vectors of scalars: calls on a looked-up object, and calls by a key. A call by a key looks the object
//! up, and then calls the function of `Array`, `ArrayMut`, `Vector` or `VectorMut`. An error of the look-up comes
//! first, and changes nothing.
ghost use Rattle.std.specs.List.{list_all};
ghost use Rattle.std.specs.Prelude.{IfErr, IsTrue, Ok, OnErr, OnOk, false, length, map, nat_le, true, ◌+◌, ◌≡◌, ◌⊎◌};
ghost use Rattle.best_fit.specs.Heap.{KeepsGaps};
ghost use Rattle.seg_types.specs.{Names.ByHandle, declared.refusals.Refusal.TheVariants.OutOfRange as PastTheEnd};
ghost use Rattle.seg_types.specs.Commands.{Assign, Erase, Get, Insert, Pop, Push, Set, literal_of};
ghost use Rattle.seg_types.specs.declared.kinds.{Kind.Kind as AnyKind, ScalarKind.ScalarKind as AnyScalarKind};
ghost use Rattle.seg_types.specs.declared.kinds.Kind.TheVariants.{Scalar as ScalarOf, Vector as VectorOf};
ghost use Rattle.seg_types.specs.declared.refusals.Refusal.TheVariants.{NoSpace as NoSpaceLeft};
ghost use Rattle.segment_manager.specs.{Answers.Done, Answers.Element, containers.Contents.sizes_at};
ghost use Rattle.segment_manager.specs.{Keeping.ChangesElement, Keeping.KeepsUnused, objects.BoundSteps.StepsBound};
ghost use Rattle.segment_manager.specs.State.{AnswersQueryOfKind, AnswersWith, TakesStepOfKind, answer_of, done_answer};
ghost use Rattle.segment_manager.specs.containers.Ranges.{ChangesRange, ExtendsVector, WritesRange};
ghost use Rattle.segment_manager.specs.objects.{BoundObjects.IsBound, BoundObjects.key_of, Found.is_object_at};
ghost use Rattle.segment_manager.specs.objects.ElementLists.{element_of, numbers_at, whole_of};

use crate::bound::{Bound, BoundContent, BoundMut, object_of_kind, of_kind};
use crate::containers::fillings::{LONGEST, element};
use crate::objects::object_ref::{Object, ObjectRef, locate};
use crate::segment::{Result, Segment};
use seg_types::theorems::{holds_value, scalar_is_number};
use seg_types::{Handle, Kind, Refusal, Scalar, ScalarKind};
use seg_vector::{SegVec, spell};
use std::marker::PhantomData;

/// Where an object has its scalars. `Bound` and `BoundMut` call these functions; no other caller needs them.
pub trait SliceStorage {
    // The kind of the object, by the kind of its scalars.
    ghost kind: { AnyScalarKind → AnyKind };

    /// Returns the kind of the object, by the kind of its scalars.
    fn kind(of: ScalarKind) -> Kind
        ensures { result ≡ kind of };

    /// Returns the number of elements.
    fn len<T: Scalar>(segment: &Segment, object: Object) -> u64
        requires { IsBound (kind T.kind) object segment.now }
        ensures { AnswersWith segment.now (λ d. length (numbers_at d (key_of object) (kind T.kind))) result };

    /// Returns the element at `index`. The errors of `Bound::get` apply.
    fn get<T: Scalar>(segment: &Segment, object: Object, index: u64) -> Result<T>
        requires { IsBound (kind T.kind) object segment.now }
        ensures { AnswersWith segment.now (λ d. element_of (numbers_at d (key_of object) (kind T.kind)) index)
            (whole_of T.whole result) };
}

/// The scalars of an array: they are in the object itself.
#[derive(Drop)]
pub struct Fixed;

/// The scalars of a vector: they are in a block of their own.
#[derive(Drop)]
pub struct Growable;

/// Scalars of one type, one after another.
#[derive(Drop)]
pub struct Slice<T, S> {
    of: PhantomData<(T, S)>,
}

/// An array of scalars that was looked up, for reading. A single scalar is an array of 1.
pub type Array<'a, T> = Bound<'a, Slice<T, Fixed>>;

/// An array of scalars that was looked up, to change it.
pub type ArrayMut<'a, T> = BoundMut<'a, Slice<T, Fixed>>;

/// A vector of scalars that was looked up, for reading.
pub type Vector<'a, T> = Bound<'a, Slice<T, Growable>>;

/// A vector of scalars that was looked up, to change it.
pub type VectorMut<'a, T> = BoundMut<'a, Slice<T, Growable>>;

impl<T: Scalar, S: SliceStorage> BoundContent for Slice<T, S> {
    ghost kind = { S.kind T.kind };

    fn kind() -> Kind {
        S::kind(T::kind())
    }
}

impl SliceStorage for Fixed {
    ghost kind = { ScalarOf };

    fn kind(of: ScalarKind) -> Kind {
        Kind::Scalar(of)
    }

    fn len<T: Scalar>(_segment: &Segment, object: Object) -> u64 {
        u64::from(object.count)
    }

    #[inline(always)]
    fn get<T: Scalar>(segment: &Segment, object: Object, index: u64) -> Result<T> {
        let place = object.element(T::kind(), index)?;
        scalar_is_number::<T>(element(&segment.heap, place.handle, place.at, T::SIZE)).ok_or(
            Refusal::WrongKind,
        )
    }
}

impl SliceStorage for Growable {
    ghost kind = { VectorOf };

    fn kind(of: ScalarKind) -> Kind {
        Kind::Vector(of)
    }

    fn len<T: Scalar>(segment: &Segment, object: Object) -> u64 {
        SegVec::<T>::at(object.own_container()).len(&segment.heap)
    }

    #[inline(always)]
    fn get<T: Scalar>(segment: &Segment, object: Object, index: u64) -> Result<T> {
        SegVec::<T>::at(object.own_container()).get(&segment.heap, index)
    }
}

impl<'a, T: Scalar, S: SliceStorage> Bound<'a, Slice<T, S>> {
    /// Returns the number of elements.
    ///
    /// Example: `let count = queue.len()`.
    pub fn len(&self) -> u64
        ensures { AnswersWith self.now.segment.now (λ d.
            length (numbers_at d (key_of self.now.object) (S.kind T.kind))) result }
    {
        S::len::<T>(self.segment, self.object)
    }

    /// Returns the element at `index`.
    ///
    /// Example: `let number = queue.get(0)?`.
    ///
    /// # Errors
    ///
    /// `OutOfRange` if `index` is not below the length.
    #[inline(always)]
    pub fn get(&self, index: u64) -> Result<T>
        ensures { AnswersWith self.now.segment.now (λ d.
            element_of (numbers_at d (key_of self.now.object) (S.kind T.kind)) index) (whole_of T.whole result) }
    {
        S::get::<T>(self.segment, self.object, index)
    }
}

impl<'a, T: Scalar> BoundMut<'a, Slice<T, Fixed>> {
    ghost use Rattle.segment_manager.specs.Bounds.{SameBound};

    /// Sets the element at `index`. No other byte changes.
    ///
    /// Example: `flags.set(1, 9)?`.
    ///
    /// # Errors
    ///
    /// `OutOfRange` if `index` is not below the length. Nothing changes.
    #[inline(always)]
    pub fn set(&mut self, index: u64, value: T) -> Result<()>
        ensures unchanged { SameBound self.old self.new }
        ensures step { StepsBound self.old.object (ScalarOf T.kind) self.old.segment.now self.new.segment.now
            (λ key. Set key index (literal_of T.kind (T.whole value))) done_answer (λ why. why ≡ PastTheEnd) result }
        ensures element { OnOk result (ChangesElement self.old.segment.now self.new.segment.now
            (key_of self.old.object) T.kind index) }
    {
        let mut bytes = [0; LONGEST];
        let spelling = &mut bytes[..T::SIZE as usize];
        value.write(spelling);
        let place = self.object.element(T::kind(), index)?;
        let segment = &mut *self.segment;
        segment.heap.write(place.handle, place.at, spelling);
        Ok(())
    }

    /// Replaces the elements from `first` on, all of them or none. No other byte changes. Without values nothing
    /// changes.
    ///
    /// Example: `flags.overwrite(1, &[1, 2])?`.
    ///
    /// # Errors
    ///
    /// `OutOfRange` if there are too few elements from `first` on. Nothing changes.
    pub fn overwrite(&mut self, first: u64, values: &[T]) -> Result<()>
        ensures unchanged { SameBound self.old self.new }
        ensures step { WritesRange self.old.segment.now self.new.segment.now (key_of self.old.object) T.kind first
            (map T.whole values.now) (done_answer result) }
        ensures refused { OnErr result (self.new.segment.now ≡ self.old.segment.now) }
        ensures noop { length values.now ≡ 0 → self.new.segment.now ≡ self.old.segment.now }
        ensures frame { OnOk result (ChangesRange self.old.segment.now self.new.segment.now (key_of self.old.object)
            T.kind first (length values.now)) }
        ensures gaps { KeepsGaps self.old.segment.now.cut self.new.segment.now.cut }
    {
        if !has_range(u64::from(self.object.count), first, values.len() as u64) {
            return Err(Refusal::OutOfRange);
        }
        if values.is_empty() {
            return Ok(());
        }
        let at = self.object.element_at(T::kind(), first);
        let segment = &mut *self.segment;
        spell(&mut segment.heap, self.object.handle, at, values);
        Ok(())
    }
}

impl<'a, T: Scalar> Bound<'a, Slice<T, Growable>> {
    /// Returns the length and the capacity.
    ///
    /// Example: `let (count, places) = queue.measure()`.
    #[inline(always)]
    pub fn measure(&self) -> (u64, u64)
        ensures { AnswersWith self.now.segment.now (λ d. sizes_at d (key_of self.now.object)) (Ok result) }
    {
        let segment = self.segment;
        let vector = SegVec::<T>::at(self.object.own_container());
        (vector.len(&segment.heap), vector.capacity(&segment.heap))
    }
}

impl<'a, T: Scalar> BoundMut<'a, Slice<T, Growable>> {
    ghost use Rattle.segment_manager.specs.Bounds.{SameBound};

    /// Sets the element at `index`.
    ///
    /// Example: `queue.set(1, 5)?`.
    ///
    /// # Errors
    ///
    /// `OutOfRange` if `index` is not below the length. Nothing changes.
    #[inline(always)]
    pub fn set(&mut self, index: u64, value: T) -> Result<()>
        ensures unchanged { SameBound self.old self.new }
        ensures step { StepsBound self.old.object (VectorOf T.kind) self.old.segment.now self.new.segment.now
            (λ key. Set key index (literal_of T.kind (T.whole value))) done_answer (λ why. why ≡ PastTheEnd) result }
        ensures gaps { KeepsGaps self.old.segment.now.cut self.new.segment.now.cut }
    {
        holds_value(value);
        let segment = &mut *self.segment;
        SegVec::<T>::at(self.object.own_container()).set(&mut segment.heap, index, value)
    }

    /// Appends a value. A full vector first doubles its capacity, to at least 4.
    ///
    /// Example: `queue.push(4)?`.
    ///
    /// # Errors
    ///
    /// `NoSpace` if the vector is full and its storage cannot be regrown. Nothing changes.
    #[inline(always)]
    pub fn push(&mut self, value: T) -> Result<()>
        ensures unchanged { SameBound self.old self.new }
        ensures step { StepsBound self.old.object (VectorOf T.kind) self.old.segment.now self.new.segment.now
            (λ key. Push key (literal_of T.kind (T.whole value))) done_answer (λ why. why ≡ NoSpaceLeft) result }
        ensures gaps { KeepsUnused self.old.segment.now self.new.segment.now }
    {
        holds_value(value);
        let segment = &mut *self.segment;
        SegVec::<T>::at(self.object.own_container()).push(&mut segment.heap, value)
    }

    /// Removes the last element and returns it. The capacity stays.
    ///
    /// Example: `let last = queue.pop()?`.
    ///
    /// # Errors
    ///
    /// `OutOfRange` if the vector is empty. Nothing changes.
    #[inline(always)]
    pub fn pop(&mut self) -> Result<T>
        ensures unchanged { SameBound self.old self.new }
        ensures step { StepsBound self.old.object (VectorOf T.kind) self.old.segment.now self.new.segment.now
            (λ key. Pop key) (answer_of (λ x. Element T.kind (T.whole x))) (λ why. why ≡ PastTheEnd) result }
        ensures gaps { KeepsGaps self.old.segment.now.cut self.new.segment.now.cut }
    {
        let segment = &mut *self.segment;
        SegVec::<T>::at(self.object.own_container()).pop(&mut segment.heap)
    }

    /// Inserts a value before the element at `index`. The elements from there on move up. A full vector first doubles
    /// its capacity, to at least 4.
    ///
    /// Example: `queue.insert(0, 3)?`.
    ///
    /// # Errors
    ///
    /// `OutOfRange` if `index` is above the length. Otherwise `NoSpace` if the vector is full and its storage cannot be
    /// regrown. Nothing changes.
    #[inline(always)]
    pub fn insert(&mut self, index: u64, value: T) -> Result<()>
        ensures unchanged { SameBound self.old self.new }
        ensures step { StepsBound self.old.object (VectorOf T.kind) self.old.segment.now self.new.segment.now
            (λ key. Insert key index (literal_of T.kind (T.whole value))) done_answer
            (λ why. (why ≡ PastTheEnd) ⊎ (why ≡ NoSpaceLeft)) result }
        ensures gaps { KeepsUnused self.old.segment.now self.new.segment.now }
    {
        holds_value(value);
        let segment = &mut *self.segment;
        SegVec::<T>::at(self.object.own_container()).insert(&mut segment.heap, index, value)
    }

    /// Removes the element at `index`. The elements after it move down; the capacity stays. The error of `set` applies.
    ///
    /// Example: `queue.erase(0)?`.
    #[inline(always)]
    pub fn erase(&mut self, index: u64) -> Result<()>
        ensures unchanged { SameBound self.old self.new }
        ensures step { StepsBound self.old.object (VectorOf T.kind) self.old.segment.now self.new.segment.now
            (λ key. Erase key index) done_answer (λ why. why ≡ PastTheEnd) result }
        ensures gaps { KeepsGaps self.old.segment.now.cut self.new.segment.now.cut }
    {
        let segment = &mut *self.segment;
        SegVec::<T>::at(self.object.own_container()).erase(&mut segment.heap, index)
    }

    /// Replaces the elements. If the values do not fit, the capacity becomes their number.
    ///
    /// Example: `queue.assign(&[6, 7])?`.
    ///
    /// # Errors
    ///
    /// `NoSpace` if its storage cannot be regrown. Nothing changes.
    #[inline(always)]
    pub fn assign(&mut self, values: &[T]) -> Result<()>
        ensures unchanged { SameBound self.old self.new }
        ensures step { StepsBound self.old.object (VectorOf T.kind) self.old.segment.now self.new.segment.now
            (λ key. Assign key (map (literal_of T.kind) (map T.whole values.now))) done_answer
            (λ why. why ≡ NoSpaceLeft) result }
        ensures gaps { KeepsUnused self.old.segment.now self.new.segment.now }
    {
        judge_all(values);
        let segment = &mut *self.segment;
        SegVec::<T>::at(self.object.own_container()).assign(&mut segment.heap, values)
    }

    /// Replaces the elements from `first` on, as [`ArrayMut::overwrite`] does, with its error.
    ///
    /// Example: `queue.overwrite(1, &[6, 7])?`.
    pub fn overwrite(&mut self, first: u64, values: &[T]) -> Result<()>
        ensures unchanged { SameBound self.old self.new }
        ensures step { WritesRange self.old.segment.now self.new.segment.now (key_of self.old.object) T.kind first
            (map T.whole values.now) (done_answer result) }
        ensures refused { OnErr result (self.new.segment.now ≡ self.old.segment.now) }
        ensures noop { length values.now ≡ 0 → self.new.segment.now ≡ self.old.segment.now }
        ensures gaps { KeepsGaps self.old.segment.now.cut self.new.segment.now.cut }
    {
        let segment = &mut *self.segment;
        SegVec::<T>::at(self.object.own_container()).overwrite(&mut segment.heap, first, values)
    }

    /// Appends values. If the capacity is too small, it doubles, to at least 4 and at least the new length. The error
    /// of `assign` applies.
    ///
    /// Example: `queue.extend(&[8, 9])?`.
    #[inline(always)]
    pub fn extend(&mut self, values: &[T]) -> Result<()>
        ensures unchanged { SameBound self.old self.new }
        ensures step { ExtendsVector self.old.segment.now self.new.segment.now (key_of self.old.object) T.kind
            (map T.whole values.now) (done_answer result) }
        ensures refused { OnErr result (self.new.segment.now ≡ self.old.segment.now) }
        ensures error { IfErr result (λ why. why ≡ NoSpaceLeft) }
        ensures gaps { KeepsUnused self.old.segment.now self.new.segment.now }
    {
        let segment = &mut *self.segment;
        SegVec::<T>::at(self.object.own_container()).extend(&mut segment.heap, values)
    }
}

/// Returns true if `len` elements include `count` elements from `first` on.
fn has_range(len: u64, first: u64, count: u64) -> bool
    ensures { result ≡ nat_le (first + count) len }
{
    first <= len && count <= len - first
}

/// States that each of the values satisfies `is_value`.
fn judge_all<T: Scalar>(values: &[T])
    ensures { IsTrue (list_all T.is_value values.now) }
{
    for value in values {
        holds_value(*value);
    }
}

impl Segment {
    /// As [`Array::get`] on the array of a key. Also `NotFound`, `WrongKind`.
    ///
    /// Example: `let width: i64 = segment.get(&name, 0)?`.
    pub fn get<T: Scalar, O: ObjectRef>(&self, key: &O, index: u64) -> Result<T>
        ensures { AnswersQueryOfKind self.now (O.key key.now) (ScalarOf T.kind) (Get (O.key key.now) index)
            (answer_of (λ x. Element T.kind (T.whole x)) result) }
    {
        Array::<T>::of(self, key)?.get(index)
    }

    /// As [`ArrayMut::set`] on the array of a key. Also `ReadOnly`, `NotFound`, `WrongKind`.
    ///
    /// Example: `segment.set(&name, 0, 640i64)?`.
    pub fn set<T: Scalar, O: ObjectRef>(&mut self, key: &O, index: u64, value: T) -> Result<()>
        ensures step { TakesStepOfKind self.old self.new (O.key key.now) (ScalarOf T.kind)
            (Set (O.key key.now) index (literal_of T.kind (T.whole value))) (done_answer result) }
        ensures refused { OnErr result (self.new ≡ self.old) }
        ensures element { OnOk result (ChangesElement self.old self.new (O.key key.now) T.kind index) }
    {
        ArrayMut::<T>::of(self, key)?.set(index, value)
    }

    /// As [`Vector::get`] on the vector of a key. Also `NotFound`, `WrongKind`.
    ///
    /// Example: `let number: i64 = segment.vec_get(&name, 0)?`.
    pub fn vec_get<T: Scalar, O: ObjectRef>(&self, key: &O, index: u64) -> Result<T>
        ensures { AnswersQueryOfKind self.now (O.key key.now) (VectorOf T.kind)
            (Get (O.key key.now) index) (answer_of (λ x. Element T.kind (T.whole x)) result) }
    {
        Vector::<T>::of(self, key)?.get(index)
    }

    /// As [`VectorMut::set`] on the vector of a key. Also `ReadOnly`, `NotFound`, `WrongKind`.
    ///
    /// Example: `segment.vec_set(&name, 1, 5i64)?`.
    pub fn vec_set<T: Scalar, O: ObjectRef>(&mut self, key: &O, index: u64, value: T) -> Result<()>
        ensures step { TakesStepOfKind self.old self.new (O.key key.now) (VectorOf T.kind)
            (Set (O.key key.now) index (literal_of T.kind (T.whole value))) (done_answer result) }
        ensures refused { OnErr result (self.new ≡ self.old) }
        ensures gaps { KeepsGaps self.old.cut self.new.cut }
    {
        VectorMut::<T>::of(self, key)?.set(index, value)
    }

    /// As [`VectorMut::push`] on the vector of a key. Also `ReadOnly`, `NotFound`, `WrongKind`.
    ///
    /// Example: `segment.vec_push(&name, 4i64)?`.
    pub fn vec_push<T: Scalar, O: ObjectRef>(&mut self, key: &O, value: T) -> Result<()>
        ensures step { TakesStepOfKind self.old self.new (O.key key.now) (VectorOf T.kind)
            (Push (O.key key.now) (literal_of T.kind (T.whole value))) (done_answer result) }
        ensures refused { OnErr result (self.new ≡ self.old) }
        ensures gaps { KeepsUnused self.old self.new }
    {
        VectorMut::<T>::of(self, key)?.push(value)
    }

    /// As [`VectorMut::assign`] on the vector of a key. Also `ReadOnly`, `NotFound`, `WrongKind`.
    ///
    /// Example: `segment.vec_assign(&name, &[6i64, 7])?`.
    pub fn vec_assign<T: Scalar, O: ObjectRef>(&mut self, key: &O, values: &[T]) -> Result<()>
        ensures step { TakesStepOfKind self.old self.new (O.key key.now) (VectorOf T.kind)
            (Assign (O.key key.now) (map (literal_of T.kind) (map T.whole values.now))) (done_answer result) }
        ensures refused { OnErr result (self.new ≡ self.old) }
        ensures gaps { KeepsUnused self.old self.new }
    {
        VectorMut::<T>::of(self, key)?.assign(values)
    }

    /// As [`VectorMut::extend`] on the vector of a key. Also `ReadOnly`, `NotFound`, `WrongKind`.
    ///
    /// Example: `segment.vec_extend(&name, &[6i64, 7])?`.
    pub fn vec_extend<T: Scalar, O: ObjectRef>(&mut self, key: &O, values: &[T]) -> Result<()>
        ensures step { ExtendsVector self.old self.new (O.key key.now) T.kind (map T.whole values.now)
            (done_answer result) }
        ensures refused { OnErr result (self.new ≡ self.old) }
        ensures gaps { KeepsUnused self.old self.new }
    {
        VectorMut::<T>::of(self, key)?.extend(values)
    }

    /// As [`VectorMut::pop`] on the vector of a key. Also `ReadOnly`, `NotFound`, `WrongKind`.
    ///
    /// Example: `let last: i64 = segment.vec_pop(&name)?`.
    pub fn vec_pop<T: Scalar, O: ObjectRef>(&mut self, key: &O) -> Result<T>
        ensures step { TakesStepOfKind self.old self.new (O.key key.now) (VectorOf T.kind)
            (Pop (O.key key.now)) (answer_of (λ x. Element T.kind (T.whole x)) result) }
        ensures refused { OnErr result (self.new ≡ self.old) }
        ensures gaps { KeepsGaps self.old.cut self.new.cut }
    {
        VectorMut::<T>::of(self, key)?.pop()
    }

    /// As [`VectorMut::insert`] on the vector of a key. Also `ReadOnly`, `NotFound`, `WrongKind`.
    ///
    /// Example: `segment.vec_insert(&name, 0, 3i64)?`.
    pub fn vec_insert<T: Scalar, O: ObjectRef>(
        &mut self,
        key: &O,
        index: u64,
        value: T,
    ) -> Result<()>
        ensures step { TakesStepOfKind self.old self.new (O.key key.now) (VectorOf T.kind)
            (Insert (O.key key.now) index (literal_of T.kind (T.whole value))) (done_answer result) }
        ensures refused { OnErr result (self.new ≡ self.old) }
        ensures gaps { KeepsUnused self.old self.new }
    {
        VectorMut::<T>::of(self, key)?.insert(index, value)
    }

    /// As [`VectorMut::erase`] on the vector of a key. Also `ReadOnly`, `NotFound`, `WrongKind`.
    ///
    /// Example: `segment.vec_erase::<i64, _>(&name, 0)?`.
    pub fn vec_erase<T: Scalar, O: ObjectRef>(&mut self, key: &O, index: u64) -> Result<()>
        ensures step { TakesStepOfKind self.old self.new (O.key key.now) (VectorOf T.kind)
            (Erase (O.key key.now) index) (done_answer result) }
        ensures refused { OnErr result (self.new ≡ self.old) }
        ensures gaps { KeepsGaps self.old.cut self.new.cut }
    {
        VectorMut::<T>::of(self, key)?.erase(index)
    }

    /// Replaces the elements from `first` on by these values. The object is an array or a vector of scalars of the
    /// type. It is looked up once, and all values are copied at once. In an array no other byte changes; without values
    /// nothing changes.
    ///
    /// Example: `segment.write_range(&name, 2, &[6i64, 7])?`.
    ///
    /// # Errors
    ///
    /// `ReadOnly` if the segment is open for reading. Otherwise `NotFound` if no object has the key, `WrongKind` if the
    /// object has another kind, `OutOfRange` if it has too few elements from `first` on. Nothing changes.
    pub fn write_range<T: Scalar, O: ObjectRef>(
        &mut self,
        key: &O,
        first: u64,
        values: &[T],
    ) -> Result<()>
        ensures step { WritesRange self.old self.new (O.key key.now) T.kind first (map T.whole values.now)
            (done_answer result) }
        ensures refused { OnErr result (self.new ≡ self.old) }
        ensures noop { length values.now ≡ 0 → self.new ≡ self.old }
        ensures frame { OnOk result (ChangesRange self.old self.new (O.key key.now) T.kind first (length values.now)) }
        ensures gaps { KeepsGaps self.old.cut self.new.cut }
    {
        if self.is_read_only() {
            return Err(Refusal::ReadOnly);
        }
        let object = locate(self, key)?;
        if let Ok(vector) = of_kind(object, Kind::Vector(T::kind())) {
            return VectorMut::<T>::at(self, vector).overwrite(first, values);
        }
        let array = of_kind(object, Kind::Scalar(T::kind()))?;
        ArrayMut::<T>::at(self, array).overwrite(first, values)
    }
}

/// Appends a value to the vector with a handle, and returns true, if the segment may be written, the vector's type
/// matches and its capacity has room. Otherwise nothing changes, and it returns false; `vec_push` then says why, or
/// lengthens the storage.
///
/// Example: `let was_pushed = push_within(&mut segment, handle, 4i64)`.
///
/// # Conditions
///
/// An object of the segment has the handle. `vec_push` has no condition.
#[inline(always)]
pub fn push_within<T: Scalar>(segment: &mut Segment, handle: Handle, value: T) -> bool
    requires { AnswersWith segment.old (λ d. is_object_at d handle) true }
    ensures step { result ≡ true → TakesStepOfKind segment.old segment.new (ByHandle handle) (VectorOf T.kind)
        (Push (ByHandle handle) (literal_of T.kind (T.whole value))) Done }
    ensures refused { result ≡ false → segment.new ≡ segment.old }
{
    if segment.is_read_only() {
        return false;
    }
    let Ok(object) = object_of_kind(segment, handle, Kind::Vector(T::kind())) else {
        return false;
    };
    let mut vector = VectorMut::<T>::at(segment, object);
    let (len, capacity) = vector.read().measure();
    if len >= capacity {
        return false;
    }
    // the push makes the same test, so nothing is compiled of what it does where there is no room
    match vector.push(value) {
        Ok(()) => true,
        Err(_) => false,
    }
}
