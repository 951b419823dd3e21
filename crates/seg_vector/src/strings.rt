//! Texts: strings of any bytes.
ghost use Rattle.std.specs.Prelude.{◌≡◌, ◌+◌, ◌*◌, ◌%◌, ◌<◌, ◌≤◌, IsTrue};
ghost use Rattle.raw_region.specs.Format.{current};
ghost use Rattle.best_fit.specs.Heap.{ChangesBytes, IsHeap, has_room, live_of};
ghost use Rattle.seg_vector.specs.{Containers.place_at, Vector.capacity_for_text as text_capacity};
ghost use Rattle.seg_vector.specs.TextCalls.{AppendsText, AssignsText, ClearsText, CountsByteCapacity, CountsBytes};
ghost use Rattle.seg_vector.specs.TextCalls.{GetsByte, IsSomeText, ReadsText, ReleasesText, ReservesBytes};
ghost use Rattle.seg_vector.specs.TextCalls.{MakesText, ReservesNoBytes, SetsByte, ShrinksText, StartsText};

use crate::container_capacity::{self, free_storage, init_container, set_words, shrink_storage};
use crate::elements::{WritePos, elements, extend, put_at, truncate};
use crate::owning::place_text;
use crate::places::{capacity_of, len_of};
use best_fit::{Heap, Place};
use block_tags::MAX_SEGMENT_LEN;
use seg_types::Refusal;

/// A text at a place in a heap. Three words stand there: the link to its storage, its length and its capacity. The
/// storage is a block for as many bytes as the capacity. A text with capacity 0 has no block.
#[derive(Clone, Copy, Debug)]
pub struct SegString {
    /// The place of the three words.
    pub place: Place,
}

/// Returns the capacity of a text that must hold `len` bytes.
fn capacity_for_text(len: u64, capacity: u64) -> u64
    requires { 2 * capacity < 18446744073709551616 }
    ensures { result ≡ text_capacity len capacity }
{
    if len <= capacity {
        capacity
    } else {
        (2 * capacity).max(16).max(len)
    }
}

impl SegString {
    /// Makes an empty text with capacity 0 in the 24 bytes at a place, a multiple of 8 in a block in use.
    pub fn new(heap: &mut Heap, place: Place) -> SegString
        requires heap { IsHeap current heap.old.bytes }
        requires aligned { place.at % 8 ≡ 0 }
        requires room { IsTrue (has_room (live_of heap.old.bytes) place.handle (place.at + 24)) }
        ensures place { result.place ≡ place }
        ensures changes { ChangesBytes current heap.old heap.new (place_at place) 24 }
        ensures text { StartsText heap.old heap.new place }
    {
        init_container(heap, place);
        SegString { place }
    }

    /// Makes a text of these bytes in the 24 bytes at a place, a multiple of 8 in a block in use. Its capacity is its
    /// length.
    ///
    /// # Errors
    ///
    /// `NoSpace` if no gap is long enough for the bytes. Nothing changes.
    pub fn with_bytes(heap: &mut Heap, place: Place, bytes: &[u8]) -> Result<(), Refusal>
        requires heap { IsHeap current heap.old.bytes }
        requires aligned { place.at % 8 ≡ 0 }
        requires room { IsTrue (has_room (live_of heap.old.bytes) place.handle (place.at + 24)) }
        ensures { MakesText heap.old heap.new place bytes.now result }
    {
        let storage = place_text(heap, bytes)?;
        set_words(heap, place, storage, bytes.len() as u64);
        Ok(())
    }

    /// Returns the number of bytes.
    pub fn len(self, heap: &Heap) -> u64
        requires { IsSomeText heap.now.bytes self.place }
        ensures { CountsBytes heap.now.bytes self.place result }
    {
        len_of(heap, self.place)
    }

    /// Returns the capacity in bytes.
    pub fn capacity(self, heap: &Heap) -> u64
        requires { IsSomeText heap.now.bytes self.place }
        ensures { CountsByteCapacity heap.now.bytes self.place result }
    {
        capacity_of(heap, self.place)
    }

    /// Returns all bytes.
    pub fn as_bytes(self, heap: &Heap) -> &[u8]
        requires { IsSomeText heap.now.bytes self.place }
        ensures { ReadsText heap.now.bytes self.place result.now }
    {
        elements(heap, self.place, 1)
    }

    /// Returns the byte at `index`.
    ///
    /// # Errors
    ///
    /// `OutOfRange` if `index` is not below the length.
    pub fn get(self, heap: &Heap, index: u64) -> Result<u8, Refusal>
        requires { IsSomeText heap.now.bytes self.place }
        ensures { GetsByte heap.now self.place index result }
    {
        let byte = self.as_bytes(heap).get(index as usize);
        byte.copied().ok_or(Refusal::OutOfRange)
    }

    /// Sets the byte at `index`.
    ///
    /// # Errors
    ///
    /// `OutOfRange` if `index` is not below the length. Nothing changes.
    pub fn set(self, heap: &mut Heap, index: u64, byte: u8) -> Result<(), Refusal>
        requires { IsSomeText heap.old.bytes self.place }
        ensures { SetsByte heap.old heap.new self.place index byte result }
    {
        if index >= self.len(heap) {
            return Err(Refusal::OutOfRange);
        }
        put_at(heap, self.place, 1, WritePos::Over(index), &[byte]);
        Ok(())
    }

    /// Grows the capacity to at least `n` bytes. The bytes stay. If the capacity suffices, nothing changes.
    ///
    /// # Errors
    ///
    /// `NoSpace` if the storage cannot be regrown. Nothing changes.
    pub fn reserve(self, heap: &mut Heap, n: u64) -> Result<(), Refusal>
        requires { IsSomeText heap.old.bytes self.place }
        ensures capacity { ReservesBytes heap.old heap.new self.place n result }
        ensures noop { ReservesNoBytes heap.old heap.new self.place n result }
    {
        container_capacity::reserve(heap, self.place, 1, n)
    }

    /// Replaces the bytes. If the capacity is too small, it becomes the number of bytes.
    ///
    /// # Errors
    ///
    /// `NoSpace` if the capacity is too small and the storage cannot grow. Nothing changes.
    pub fn assign(self, heap: &mut Heap, bytes: &[u8]) -> Result<(), Refusal>
        requires { IsSomeText heap.old.bytes self.place }
        ensures { AssignsText heap.old heap.new self.place bytes.now result }
    {
        let len = bytes.len() as u64;
        container_capacity::reserve(heap, self.place, 1, len)?;
        self.clear(heap);
        extend(heap, self.place, 1, len, bytes);
        Ok(())
    }

    /// Appends bytes. If the capacity is too small, it doubles, to at least 16 and at least the new length.
    ///
    /// # Errors
    ///
    /// `NoSpace` if the capacity is too small and the storage cannot be regrown. Nothing changes.
    pub fn append(self, heap: &mut Heap, bytes: &[u8]) -> Result<(), Refusal>
        requires { IsSomeText heap.old.bytes self.place }
        ensures { AppendsText heap.old heap.new self.place bytes.now result }
    {
        let more = bytes.len() as u64;
        if more > MAX_SEGMENT_LEN {
            return Err(Refusal::NoSpace);
        }
        let needed = self.len(heap) + more;
        let wanted = capacity_for_text(needed, self.capacity(heap));
        container_capacity::reserve(heap, self.place, 1, wanted)?;
        extend(heap, self.place, 1, more, bytes);
        Ok(())
    }

    /// Shrinks the capacity to the length, as far as the block can be shortened. An empty text's storage is freed.
    pub fn shrink(self, heap: &mut Heap)
        requires { IsSomeText heap.old.bytes self.place }
        ensures { ShrinksText heap.old heap.new self.place }
    {
        shrink_storage(heap, self.place, 1);
    }

    /// Removes all bytes. The capacity stays.
    pub fn clear(self, heap: &mut Heap)
        requires { IsSomeText heap.old.bytes self.place }
        ensures { ClearsText heap.old heap.new self.place }
    {
        truncate(heap, self.place, 1, 0);
    }

    /// Frees the storage. The text is then empty, with capacity 0.
    pub fn release(self, heap: &mut Heap)
        requires { IsSomeText heap.old.bytes self.place }
        ensures { ReleasesText heap.old heap.new self.place }
    {
        free_storage(heap, self.place, 1);
    }
}
