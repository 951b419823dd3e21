//! The two indexes of a heap, and their calls.
ghost use Rattle.std.specs.Prelude.{◌≡◌, ℕ, ◌+◌, ◌<◌, ◌≤◌, List, [], Some, length, slice_get};
ghost use Rattle.raw_region.specs.{Memory.bytes_of, Format.current};
ghost use Rattle.link_tree.specs.Tree.{bits};
ghost use Rattle.best_fit.specs.{Heap.ChangesBytes, Table.BackingArray as ATable, Table.no_backing};
ghost use Rattle.seg_index.specs.{Comparing.comparisons, Lookups.FindsPosition};
ghost use Rattle.seg_index.specs.Held.{HasIndex, IsIndexOf, capacity_at, entry_count, index_at};
ghost use Rattle.seg_index.specs.Sorted.{HasSortedIndex, IsSortedIndex, index_of};

use crate::comparing::ComparisonCounter;
use crate::keys::{Entry, Lookup};
use crate::searching::search;
use best_fit::Heap;
use raw_region::Steps;

/// An index of a heap: three words in the header, and a block of links. Each call takes the heap as an argument, so
/// that no borrow lasts between two calls.
#[derive(Clone, Copy, Debug, PartialEq, Eq)]
pub enum Index {
    /// The named objects, by the bytes of their names.
    Named,
    /// The unique objects, by the codes of their kinds.
    Unique,
}

impl Index {
    /// Returns the offset of the index's three words: the link to its block, the number of its entries, and its
    /// capacity.
    pub(crate) fn header_offset(self) -> u64
        ensures { result ≡ index_at self }
    {
        match self {
            Index::Named => 32,
            Index::Unique => 56,
        }
    }

    /// Initialises the header's words as an empty index with capacity 0. Their old value can be anything; it frees no
    /// block.
    pub fn init(self, heap: &mut Heap)
        ensures index { IsSortedIndex heap.new self no_backing [] }
        ensures changes { ChangesBytes current heap.old heap.new (index_at self) 24 }
    {
        let place = self.header_offset();
        heap.set_header_link(place, None);
        heap.set_header_word(place + 8, 0);
        heap.set_header_word(place + 16, 0);
    }

    /// Returns the number of its entries.
    pub fn len(self, heap: &Heap) -> u64
        ensures word { result ≡ entry_count heap.now (index_at self) }
        ensures len { (t : ATable) (handles : List ℕ) → IsIndexOf heap.now (index_at self) t handles
            → result ≡ length handles }
    {
        heap.header_word(self.header_offset() + 8)
    }

    /// Returns the capacity, in entries. It is 0 without a block.
    pub fn capacity(self, heap: &Heap) -> u64
        ensures word { result ≡ capacity_at heap.now (index_at self) }
        ensures capacity { (t : ATable) (handles : List ℕ) → IsIndexOf heap.now (index_at self) t handles
            → result ≡ t.capacity }
    {
        heap.header_word(self.header_offset() + 16)
    }

    /// Returns the handle of the entry at `i`.
    pub fn at(self, heap: &Heap, i: u64) -> u64
        requires index { HasIndex heap.now (index_at self) }
        requires in_range { i < entry_count heap.now (index_at self) }
        ensures { (t : ATable) (handles : List ℕ) → IsIndexOf heap.now (index_at self) t handles
            → slice_get handles i ≡ Some result }
    {
        let block = heap.header_link(self.header_offset()).unwrap_or(0);
        heap.link(block, 8 * i).unwrap_or(0)
    }

    /// Returns the position of a key among the keys of the entries, by binary search. Each step is a comparison of two
    /// keys.
    pub fn lookup(self, heap: &Heap, key: Entry<'_>, steps: &mut Steps) -> Lookup
        requires index { HasSortedIndex heap.now self }
        requires key { index_of key ≡ self }
        ensures place { (t : ATable) (handles : List ℕ) → IsIndexOf heap.now (index_at self) t handles
            → FindsPosition (bytes_of heap.now.bytes) key.entry handles result }
        ensures steps_lower { steps.old ≤ steps.new }
        ensures steps { steps.new ≤ steps.old + bits (entry_count heap.now (index_at self)) }
        ensures steps_exact { (t : ATable) (handles : List ℕ) → IsIndexOf heap.now (index_at self) t handles
            → steps.new ≡ steps.old + comparisons (bytes_of heap.now.bytes) key.entry handles }
    {
        let Some(block) = heap.header_link(self.header_offset()) else {
            return Lookup::Absent(0);
        };
        let mut comparisons = ComparisonCounter::new(heap, key, block);
        let result = search(&mut comparisons, self.len(heap));
        steps.add(comparisons.count());
        result
    }
}
