//! Vectors whose values all have the same number of bytes.
ghost use Rattle.std.specs.Prelude.{◌≡◌, ◌+◌, ◌%◌, IsTrue, length};
ghost use Rattle.raw_region.specs.Format.{current};
ghost use Rattle.best_fit.specs.{Heap.ChangesBytes, Heap.IsHeap, Heap.has_room, Heap.live_of};
ghost use Rattle.seg_vector.specs.Containers.{place_at};
ghost use Rattle.seg_vector.specs.VectorCalls.{Assigns, Clears, ReadsVectorLen, CountsCapacity, ErasesFrom, ExtendsBy};
ghost use Rattle.seg_vector.specs.VectorCalls.{Gets};
ghost use Rattle.seg_vector.specs.VectorCalls.{InsertsInto, IsSomeVector, IsVector, Pops, Pushes};
ghost use Rattle.seg_vector.specs.VectorCalls.{ReleasesVector};
ghost use Rattle.seg_vector.specs.VectorCalls.{ReservesVector, ReservesNothing, Sets, SetsAll, ShrinksVector};
ghost use Rattle.seg_vector.specs.VectorCalls.{InitsVector};

use crate::container_capacity::{
    self, capacity_for_more, free_storage, grow_for_one, init_container, shrink_storage,
};
use crate::elements::{
    WritePos, element, erase_element, put_behind, put_over, put_value, truncate,
};
use crate::places::{capacity_of, len_of};
use best_fit::{Heap, Place};
use block_tags::MAX_SEGMENT_LEN;
use seg_types::{Plain, Refusal};
use std::marker::PhantomData;

/// A vector at a place in a heap. Three words stand there: the link to its storage, its length and its capacity. The
/// storage is a block for as many values as the capacity. A vector with capacity 0 has no block.
#[derive(Clone, Copy)]
pub struct SegVec<T: Plain> {
    /// The place of the three words.
    pub place: Place,
    of: PhantomData<T>,
}

impl<T: Plain> SegVec<T> {
    /// Returns the vector at a place.
    pub fn at(place: Place) -> SegVec<T>
        ensures { result.place ≡ place }
    {
        SegVec {
            place,
            of: PhantomData,
        }
    }

    /// Makes an empty vector with capacity 0 in the 24 bytes at a place, a multiple of 8 in a block in use.
    pub fn new(heap: &mut Heap, place: Place) -> SegVec<T>
        requires heap { IsHeap current heap.old.bytes }
        requires aligned { place.at % 8 ≡ 0 }
        requires room { IsTrue (has_room (live_of heap.old.bytes) place.handle (place.at + 24)) }
        ensures place { result.place ≡ place }
        ensures changes { ChangesBytes current heap.old heap.new (place_at place) 24 }
        ensures vector { InitsVector T.SIZE T.is_value T.spelling heap.old heap.new place }
    {
        init_container(heap, place);
        SegVec::at(place)
    }

    /// Returns the number of values.
    pub fn len(self, heap: &Heap) -> u64
        requires { IsSomeVector T.SIZE T.is_value T.spelling heap.now.bytes self.place }
        ensures { ReadsVectorLen T.SIZE T.is_value T.spelling heap.now.bytes self.place result }
    {
        len_of(heap, self.place)
    }

    /// Returns the capacity: the number of values that the storage can hold.
    pub fn capacity(self, heap: &Heap) -> u64
        requires { IsSomeVector T.SIZE T.is_value T.spelling heap.now.bytes self.place }
        ensures { CountsCapacity T.SIZE T.is_value T.spelling heap.now.bytes self.place result }
    {
        capacity_of(heap, self.place)
    }

    /// Returns the value at `index`.
    ///
    /// # Errors
    ///
    /// `OutOfRange` if `index` is not below the length.
    pub fn get(self, heap: &Heap, index: u64) -> Result<T, Refusal>
        requires { IsSomeVector T.SIZE T.is_value T.spelling heap.now.bytes self.place }
        ensures { Gets T.SIZE T.is_value T.spelling heap.now self.place index result }
    {
        if index >= self.len(heap) {
            return Err(Refusal::OutOfRange);
        }
        match T::read(element(heap, self.place, T::SIZE, index)) {
            Some(value) => Ok(value),
            None => unreachable!(),
        }
    }

    /// Sets the value at `index`.
    ///
    /// # Errors
    ///
    /// `OutOfRange` if `index` is not below the length. Nothing changes.
    pub fn set(self, heap: &mut Heap, index: u64, value: T) -> Result<(), Refusal>
        requires { IsSomeVector T.SIZE T.is_value T.spelling heap.old.bytes self.place }
        ensures { Sets T.SIZE T.is_value T.spelling heap.old heap.new self.place index value result }
    {
        if index >= self.len(heap) {
            return Err(Refusal::OutOfRange);
        }
        put_value(heap, self.place, WritePos::Over(index), value);
        Ok(())
    }

    /// Replaces the values from the index `first` on by `values`.
    ///
    /// # Errors
    ///
    /// `OutOfRange` if the last of them would be past the end. Nothing changes.
    pub fn overwrite(self, heap: &mut Heap, first: u64, values: &[T]) -> Result<(), Refusal>
        requires { IsSomeVector T.SIZE T.is_value T.spelling heap.old.bytes self.place }
        ensures sets { SetsAll T.SIZE T.is_value T.spelling heap.old heap.new self.place first values.now result }
        ensures noop { length values.now ≡ 0 → heap.new ≡ heap.old }
    {
        let len = self.len(heap);
        let more = values.len() as u64;
        if first > len || more > len - first {
            return Err(Refusal::OutOfRange);
        }
        if more > 0 {
            put_over(heap, self.place, first, values);
        }
        Ok(())
    }

    /// Removes the last value and returns it. The capacity stays.
    ///
    /// # Errors
    ///
    /// `OutOfRange` if the vector is empty. Nothing changes.
    pub fn pop(self, heap: &mut Heap) -> Result<T, Refusal>
        requires { IsSomeVector T.SIZE T.is_value T.spelling heap.old.bytes self.place }
        ensures { Pops T.SIZE T.is_value T.spelling heap.old heap.new self.place result }
    {
        let last = self.len(heap).checked_sub(1).ok_or(Refusal::OutOfRange)?;
        let value = self.get(heap, last)?;
        truncate(heap, self.place, T::SIZE, last);
        Ok(value)
    }

    /// Removes the value at `index`. The values after it move down; the capacity stays.
    ///
    /// # Errors
    ///
    /// `OutOfRange` if `index` is not below the length. Nothing changes.
    pub fn erase(self, heap: &mut Heap, index: u64) -> Result<(), Refusal>
        requires { IsSomeVector T.SIZE T.is_value T.spelling heap.old.bytes self.place }
        ensures { ErasesFrom T.SIZE T.is_value T.spelling heap.old heap.new self.place index result }
    {
        if index >= self.len(heap) {
            return Err(Refusal::OutOfRange);
        }
        erase_element(heap, self.place, T::SIZE, index);
        Ok(())
    }

    /// Appends a value. A full vector first doubles its capacity, to at least 4.
    ///
    /// # Errors
    ///
    /// `NoSpace` if the vector is full and its storage cannot be regrown. Nothing changes.
    #[inline(always)]
    pub fn push(self, heap: &mut Heap, value: T) -> Result<(), Refusal>
        requires { IsSomeVector T.SIZE T.is_value T.spelling heap.old.bytes self.place }
        ensures { Pushes T.SIZE T.is_value T.spelling heap.old heap.new self.place value result }
    {
        let len = self.len(heap);
        grow_for_one(heap, self.place, T::SIZE, len)?;
        put_value(heap, self.place, WritePos::End, value);
        Ok(())
    }

    /// Inserts a value before the one at `index`. The values from there on move up. A full vector first doubles its
    /// capacity, to at least 4.
    ///
    /// # Errors
    ///
    /// `OutOfRange` if `index` is above the length; otherwise `NoSpace` if the vector is full and its storage cannot be
    /// regrown. Nothing changes.
    pub fn insert(self, heap: &mut Heap, index: u64, value: T) -> Result<(), Refusal>
        requires { IsSomeVector T.SIZE T.is_value T.spelling heap.old.bytes self.place }
        ensures { InsertsInto T.SIZE T.is_value T.spelling heap.old heap.new self.place index value result }
    {
        let len = self.len(heap);
        if index > len {
            return Err(Refusal::OutOfRange);
        }
        grow_for_one(heap, self.place, T::SIZE, len)?;
        put_value(heap, self.place, WritePos::Before(index), value);
        Ok(())
    }

    /// Appends values. If the capacity is too small, it doubles, to at least 4 and at least the new length.
    ///
    /// # Errors
    ///
    /// `NoSpace` if the capacity is too small and the storage cannot be regrown. Nothing changes.
    pub fn extend(self, heap: &mut Heap, values: &[T]) -> Result<(), Refusal>
        requires { IsSomeVector T.SIZE T.is_value T.spelling heap.old.bytes self.place }
        ensures { ExtendsBy T.SIZE T.is_value T.spelling heap.old heap.new self.place values.now result }
    {
        let more = values.len() as u64;
        if more > MAX_SEGMENT_LEN {
            return Err(Refusal::NoSpace);
        }
        let wanted = capacity_for_more(self.len(heap), more, self.capacity(heap));
        container_capacity::reserve(heap, self.place, T::SIZE, wanted)?;
        put_behind(heap, self.place, values);
        Ok(())
    }

    /// Grows the capacity to at least `n` values. The values stay. If the capacity suffices, nothing changes.
    ///
    /// # Errors
    ///
    /// `NoSpace` if the storage cannot be regrown. Nothing changes.
    pub fn reserve(self, heap: &mut Heap, n: u64) -> Result<(), Refusal>
        requires { IsSomeVector T.SIZE T.is_value T.spelling heap.old.bytes self.place }
        ensures capacity { ReservesVector T.SIZE T.is_value T.spelling heap.old heap.new self.place n result }
        ensures noop { ReservesNothing T.SIZE T.is_value T.spelling heap.old heap.new self.place n result }
    {
        container_capacity::reserve(heap, self.place, T::SIZE, n)
    }

    /// Replaces the values. If the capacity is too small, it becomes the number of values.
    ///
    /// # Errors
    ///
    /// `NoSpace` if the capacity is too small and the storage cannot grow. Nothing changes.
    pub fn assign(self, heap: &mut Heap, values: &[T]) -> Result<(), Refusal>
        requires { IsSomeVector T.SIZE T.is_value T.spelling heap.old.bytes self.place }
        ensures { Assigns T.SIZE T.is_value T.spelling heap.old heap.new self.place values.now result }
    {
        container_capacity::reserve(heap, self.place, T::SIZE, values.len() as u64)?;
        self.clear(heap);
        put_behind(heap, self.place, values);
        Ok(())
    }

    /// Shrinks the capacity to the length, as far as the block can be shortened. An empty vector's storage is freed.
    pub fn shrink(self, heap: &mut Heap)
        requires { IsSomeVector T.SIZE T.is_value T.spelling heap.old.bytes self.place }
        ensures { ShrinksVector T.SIZE T.is_value T.spelling heap.old heap.new self.place }
    {
        shrink_storage(heap, self.place, T::SIZE);
    }

    /// Removes all values. The capacity stays.
    pub fn clear(self, heap: &mut Heap)
        requires { IsSomeVector T.SIZE T.is_value T.spelling heap.old.bytes self.place }
        ensures { Clears T.SIZE T.is_value T.spelling heap.old heap.new self.place }
    {
        truncate(heap, self.place, T::SIZE, 0);
    }

    /// Frees the storage. The vector is then empty, with capacity 0.
    pub fn release(self, heap: &mut Heap)
        requires { IsSomeVector T.SIZE T.is_value T.spelling heap.old.bytes self.place }
        ensures { ReleasesVector T.SIZE T.is_value T.spelling heap.old heap.new self.place }
    {
        free_storage(heap, self.place, T::SIZE);
    }
}
