//! Vectors of texts: an array of links and lengths, and a block for each text that is not empty.
ghost use Rattle.std.specs.Prelude.{◌≡◌, ◌+◌, ◌%◌, None, IsTrue, length, map};
ghost use Rattle.raw_region.specs.Format.{current};
ghost use Rattle.best_fit.specs.Heap.{ChangesBytes, IsHeap, has_room, live_of};
ghost use Rattle.seg_vector.specs.TextsCalls.{GetsText, InsertsText, IsTextsContainer, PopsText, PushesText};
ghost use Rattle.seg_vector.specs.TextsCalls.{AssignsTexts, ClearsTexts, ReadsTextsCapacity, ReadsTextsLen, ErasesText};
ghost use Rattle.seg_vector.specs.TextsCalls.{ReservesNoTexts, ReservesTexts, SetsText, ShrinksTexts, InitsTexts};
ghost use Rattle.seg_vector.specs.TextsCalls.{MakesTexts, ReleasesTexts, UnchangedIfFirstRefused, new_array};
ghost use Rattle.seg_vector.specs.{Containers.place_at};

use crate::container_capacity::{
    capacity_for_one, free_storage, init_container, set_words, shrink_storage,
};
use crate::owning::{place_text, release_text, release_texts, store_array};
use crate::places::{ELEMENT_LEN, LEN_OFFSET, capacity_of, len_of, link_of};
use crate::text_arrays::{
    insert_growing, insert_within, install_array, move_elements_down, put_element, reserve_array,
};
use best_fit::{Heap, Place};
use block_tags::MAX_SEGMENT_LEN;
use seg_types::Refusal;

/// A vector of texts at a place in a heap. Three words stand there: the link to its array, its length and its capacity.
/// Each text that is not empty has a block of its own.
#[derive(Clone, Copy, Debug)]
pub struct SegTexts {
    /// The place of the three words.
    pub place: Place,
}

impl SegTexts {
    /// Makes an empty vector with capacity 0 in the 24 bytes at a place, a multiple of 8 in a block in use.
    pub fn new(heap: &mut Heap, place: Place) -> SegTexts
        requires heap { IsHeap current heap.old.bytes }
        requires aligned { place.at % 8 ≡ 0 }
        requires room { IsTrue (has_room (live_of heap.old.bytes) place.handle (place.at + 24)) }
        ensures place { result.place ≡ place }
        ensures changes { ChangesBytes current heap.old heap.new (place_at place) 24 }
        ensures texts { InitsTexts heap.old heap.new place }
    {
        init_container(heap, place);
        SegTexts { place }
    }

    /// Makes a vector of these texts in the 24 bytes at a place, a multiple of 8 in a block in use. Its capacity is its
    /// length.
    ///
    /// # Errors
    ///
    /// `NoSpace` if no gap is long enough for the array or a text. The same blocks are in use, with the same bytes.
    pub fn with_texts(heap: &mut Heap, place: Place, texts: &[&[u8]]) -> Result<(), Refusal>
        requires heap { IsHeap current heap.old.bytes }
        requires aligned { place.at % 8 ≡ 0 }
        requires room { IsTrue (has_room (live_of heap.old.bytes) place.handle (place.at + 24)) }
        ensures { MakesTexts heap.old heap.new place (map (λ text. text.now) texts.now) result }
    {
        let n = texts.len() as u64;
        if n == 0 {
            SegTexts::new(heap, place);
            return Ok(());
        }
        let storage = store_array(heap, texts)?;
        set_words(heap, place, Some(storage), n);
        Ok(())
    }

    /// Returns the number of texts.
    pub fn len(self, heap: &Heap) -> u64
        requires { IsTextsContainer heap.now.bytes self.place }
        ensures { ReadsTextsLen heap.now.bytes self.place result }
    {
        len_of(heap, self.place)
    }

    /// Returns the capacity: the number of texts that the array can hold.
    pub fn capacity(self, heap: &Heap) -> u64
        requires { IsTextsContainer heap.now.bytes self.place }
        ensures { ReadsTextsCapacity heap.now.bytes self.place result }
    {
        capacity_of(heap, self.place)
    }

    /// Returns the text at `index`.
    ///
    /// # Errors
    ///
    /// `OutOfRange` if `index` is not below the length.
    #[tactic(auto, using(crate::proofs::storage::Storage::sizes, crate::proofs::texts::Puts::few_places))]
    pub fn get(self, heap: &Heap, index: u64) -> Result<&[u8], Refusal>
        requires { IsTextsContainer heap.now.bytes self.place }
        ensures { GetsText heap.now self.place index result }
    {
        if index >= self.len(heap) {
            return Err(Refusal::OutOfRange);
        }
        let Some(array) = link_of(heap, self.place) else {
            unreachable!()
        };
        let at = ELEMENT_LEN * index;
        match heap.link(array, at) {
            None => Ok(&[]),
            Some(text) => {
                let len = heap.word(array, at + LEN_OFFSET);
                Ok(&heap.block(text)[..len as usize])
            }
        }
    }

    /// Replaces the text at `index`. It frees the old block after it has allocated the new one.
    ///
    /// # Errors
    ///
    /// `OutOfRange` if `index` is not below the length; otherwise `NoSpace` if no gap is long enough for the text.
    /// Nothing changes.
    #[tactic(auto, using(crate::proofs::storage::Storage::sizes, crate::proofs::texts::Puts::few_places))]
    pub fn set(self, heap: &mut Heap, index: u64, text: &[u8]) -> Result<(), Refusal>
        requires { IsTextsContainer heap.old.bytes self.place }
        ensures { SetsText heap.old heap.new self.place index text.now result }
    {
        if index >= self.len(heap) {
            return Err(Refusal::OutOfRange);
        }
        let block = place_text(heap, text)?;
        if let Some(array) = link_of(heap, self.place) {
            release_text(heap, array, ELEMENT_LEN * index);
            put_element(heap, array, ELEMENT_LEN * index, block, text.len() as u64);
        }
        Ok(())
    }

    /// Inserts a text before the one at `index`. A full vector first doubles its capacity, to at least 4.
    ///
    /// # Errors
    ///
    /// `OutOfRange` if `index` is above the length: nothing changes. Otherwise `NoSpace` if no gap is long enough for
    /// the array or the text: the same blocks are in use, with the same bytes. Nothing changes at all if the first
    /// allocation fails: that of the text, or of the array if the vector is full.
    pub fn insert(self, heap: &mut Heap, index: u64, text: &[u8]) -> Result<(), Refusal>
        requires { IsTextsContainer heap.old.bytes self.place }
        ensures changes { InsertsText heap.old heap.new self.place index text.now result }
        ensures first { UnchangedIfFirstRefused heap.old heap.new self.place text.now }
    {
        let len = self.len(heap);
        if index > len {
            return Err(Refusal::OutOfRange);
        }
        let capacity = self.capacity(heap);
        if len < capacity {
            insert_within(heap, self.place, index, text)
        } else {
            let wanted = capacity_for_one(len, capacity);
            insert_growing(heap, self.place, index, text, wanted)
        }
    }

    /// Appends a text. A full vector first doubles its capacity, to at least 4.
    ///
    /// # Errors
    ///
    /// `NoSpace` if no gap is long enough for the array or the text: the same blocks are in use, with the same bytes.
    /// Nothing changes at all if the first allocation fails: that of the text, or of the array if the vector is full.
    pub fn push(self, heap: &mut Heap, text: &[u8]) -> Result<(), Refusal>
        requires { IsTextsContainer heap.old.bytes self.place }
        ensures changes { PushesText heap.old heap.new self.place text.now result }
        ensures first { UnchangedIfFirstRefused heap.old heap.new self.place text.now }
    {
        let len = self.len(heap);
        self.insert(heap, len, text)
    }

    /// Removes the text at `index`, and frees its block. The texts after it move down; the capacity stays.
    ///
    /// # Errors
    ///
    /// `OutOfRange` if `index` is not below the length. Nothing changes.
    #[tactic(auto, using(crate::proofs::storage::Storage::sizes, crate::proofs::texts::Puts::few_places))]
    pub fn erase(self, heap: &mut Heap, index: u64) -> Result<(), Refusal>
        requires { IsTextsContainer heap.old.bytes self.place }
        ensures { ErasesText heap.old heap.new self.place index result }
    {
        let len = self.len(heap);
        if index >= len {
            return Err(Refusal::OutOfRange);
        }
        if let Some(array) = link_of(heap, self.place) {
            let at = ELEMENT_LEN * index;
            release_text(heap, array, at);
            move_elements_down(heap, array, at + ELEMENT_LEN, array, at, len - index - 1);
            heap.set_word(self.place.handle, self.place.at + LEN_OFFSET, len - 1);
        }
        Ok(())
    }

    /// Removes the last text, and frees its block. The capacity stays.
    ///
    /// # Errors
    ///
    /// `OutOfRange` if the vector is empty. Nothing changes.
    pub fn pop(self, heap: &mut Heap) -> Result<(), Refusal>
        requires { IsTextsContainer heap.old.bytes self.place }
        ensures { PopsText heap.old heap.new self.place result }
    {
        let last = self.len(heap).checked_sub(1).ok_or(Refusal::OutOfRange)?;
        self.erase(heap, last)
    }

    /// Grows the capacity to at least `n` texts. The texts stay. If the capacity suffices, nothing changes.
    ///
    /// # Errors
    ///
    /// `NoSpace` if the array cannot be lengthened in place and no gap is long enough for a new one. Nothing changes.
    pub fn reserve(self, heap: &mut Heap, n: u64) -> Result<(), Refusal>
        requires { IsTextsContainer heap.old.bytes self.place }
        ensures capacity { ReservesTexts heap.old heap.new self.place n result }
        ensures noop { ReservesNoTexts heap.old heap.new self.place n result }
    {
        if n <= self.capacity(heap) {
            return Ok(());
        }
        if n > MAX_SEGMENT_LEN {
            return Err(Refusal::NoSpace);
        }
        let array = reserve_array(heap, self.place, n)?;
        install_array(heap, self.place, array, n);
        Ok(())
    }

    /// Replaces all texts. For one or more texts it allocates a new array with capacity for exactly these, and then
    /// their blocks; after that it frees the old blocks. If there are no new texts, the array stays.
    ///
    /// # Errors
    ///
    /// `NoSpace` if no gap is long enough for the array or a text: the same blocks are in use, with the same bytes.
    /// Nothing changes at all if the array has no gap.
    pub fn assign(self, heap: &mut Heap, texts: &[&[u8]]) -> Result<(), Refusal>
        requires { IsTextsContainer heap.old.bytes self.place }
        ensures changes { AssignsTexts heap.old heap.new self.place (map (λ text. text.now) texts.now) result }
        ensures first { new_array (live_of heap.old.bytes) (length texts.now) ≡ None → heap.new ≡ heap.old }
    {
        if texts.is_empty() {
            self.clear(heap);
            return Ok(());
        }
        let array = store_array(heap, texts)?;
        self.release(heap);
        set_words(heap, self.place, Some(array), texts.len() as u64);
        Ok(())
    }

    /// Shrinks the capacity to the length, as far as the block can be shortened. An empty vector's array is freed.
    pub fn shrink(self, heap: &mut Heap)
        requires { IsTextsContainer heap.old.bytes self.place }
        ensures { ShrinksTexts heap.old heap.new self.place }
    {
        shrink_storage(heap, self.place, ELEMENT_LEN);
    }

    /// Removes all texts, and frees their blocks. The capacity stays.
    pub fn clear(self, heap: &mut Heap)
        requires { IsTextsContainer heap.old.bytes self.place }
        ensures { ClearsTexts heap.old heap.new self.place }
    {
        let len = self.len(heap);
        if let Some(array) = link_of(heap, self.place) {
            release_texts(heap, array, len);
        }
        heap.set_word(self.place.handle, self.place.at + LEN_OFFSET, 0);
    }

    /// Frees the array and the blocks of all texts. The vector is then empty, with capacity 0.
    pub fn release(self, heap: &mut Heap)
        requires { IsTextsContainer heap.old.bytes self.place }
        ensures { ReleasesTexts heap.old heap.new self.place }
    {
        self.clear(heap);
        free_storage(heap, self.place, ELEMENT_LEN);
    }
}
