//! Adds and removes entries of an index.
ghost use Rattle.std.specs.Prelude.{◌≡◌, ℕ, ◌+◌, ◌-◌, ◌*◌, ◌%◌, ◌<◌, ◌≤◌, ◌⊎◌, IfSome, IsTrue, List, None, Some};
ghost use Rattle.std.specs.Prelude.{insert, remove};
ghost use Rattle.raw_region.specs.{Format.current, Memory.bytes_of};
ghost use Rattle.offset_link.specs.{Link.link_at, Relinked.AllLinksLead, Relinked.KeepTargets};
ghost use Rattle.best_fit.specs.Heap.{ChangesBytes, IsHeap, KeepsGaps, EncodesLiveSet, has_room, heap_touches, live_of};
ghost use Rattle.best_fit.specs.Table.{BackingArray as ATable};
ghost use Rattle.seg_index.specs.Growth.{AddKeeps, AddsEntry, CanGrow, KeepsOutsideIndex, beside_table, grown_live};
ghost use Rattle.seg_index.specs.Held.{HasIndex, IsIndexOf, entry_count, index_at};
ghost use Rattle.seg_index.specs.Sorted.{AreSortedHandles, CanAdd, IsSortedIndex, KeepsSorted};

use crate::index::Index;
use crate::index_capacity::{Growth, LINK_LEN, grown_capacity};
use best_fit::Heap;
use raw_region::Steps;

impl Index {
    /// Inserts an entry at a place, in the new block of a growth if there is one; it then frees the old block. The
    /// entries from that place on move up by one.
    pub fn add(self, heap: &mut Heap, place: u64, handle: u64, growth: Growth, steps: &mut Steps)
        requires entry { CanAdd heap.old self place handle }
        requires growth { CanGrow heap.old (index_at self) growth.block }
        ensures index { (t : ATable) (handles : List ℕ) → IsIndexOf heap.old (index_at self) t handles
            → AddsEntry heap.old heap.new (index_at self) t (insert handles place handle) growth.block }
        ensures sorted { (t : ATable) (handles : List ℕ) → IsIndexOf heap.old (index_at self) t handles
            → AreSortedHandles heap.new self (insert handles place handle) }
        ensures order { KeepsSorted heap.old heap.new }
        ensures live { EncodesLiveSet current heap.new.bytes (grown_live heap.old (index_at self) growth.block) }
        ensures frame { (t : ATable) (handles : List ℕ) → IsIndexOf heap.old (index_at self) t handles
            → AddKeeps heap.old heap.new (index_at self) t growth.block }
        ensures gaps { growth.block ≡ None → KeepsGaps heap.old heap.new }
        ensures steps_lower { steps.old ≤ steps.new }
        ensures noop { (growth.block ≡ None) ⊎ (link_at (bytes_of heap.old.bytes) (index_at self) ≡ None)
            → steps.new ≡ steps.old }
        ensures progress { IfSome growth.block (λ block. IfSome (link_at (bytes_of heap.old.bytes) (index_at self))
            (λ old. steps.old < steps.new)) }
        ensures steps { steps.new ≤ steps.old + heap_touches (live_of heap.old.bytes) }
    {
        let count = self.len(heap);
        match growth.block {
            None => {
                let block = heap.header_link(self.header_offset()).unwrap_or(0);
                spread(heap, block, block, place, count, handle);
                heap.set_header_word(self.header_offset() + 8, count + 1);
            }
            Some(block) => {
                let capacity = grown_capacity(self.capacity(heap));
                // without a block there are no links to move
                let from = heap.header_link(self.header_offset()).unwrap_or(block);
                heap.shift_non_null_links(from, 0, block, 0, place);
                spread(heap, from, block, place, count, handle);
                self.install_block(heap, block, capacity, count + 1, steps);
            }
        }
    }

    /// Removes the entry at a place. The entries after it move down by one; the block stays.
    pub fn remove(self, heap: &mut Heap, place: u64)
        requires index { HasIndex heap.old (index_at self) }
        requires in_range { place < entry_count heap.old (index_at self) }
        ensures index { (t : ATable) (handles : List ℕ) → IsIndexOf heap.old (index_at self) t handles
            → IsIndexOf heap.new (index_at self) t (remove handles place) }
        ensures sorted { (t : ATable) (handles : List ℕ) → IsSortedIndex heap.old self t handles
            → AreSortedHandles heap.new self (remove handles place) }
        ensures order { KeepsSorted heap.old heap.new }
        ensures live { EncodesLiveSet current heap.new.bytes (live_of heap.old.bytes) }
        ensures frame { (t : ATable) (handles : List ℕ) → IsIndexOf heap.old (index_at self) t handles
            → KeepsOutsideIndex heap.old heap.new (index_at self) (beside_table t (live_of heap.old.bytes).extents) }
        ensures gaps { KeepsGaps heap.old heap.new }
    {
        let count = self.len(heap);
        let block = heap.header_link(self.header_offset()).unwrap_or(0);
        let at = LINK_LEN * place;
        heap.shift_non_null_links(block, at + LINK_LEN, block, at, count - place - 1);
        heap.set_header_word(self.header_offset() + 8, count - 1);
    }
}

/// Writes a link at a place of the block `to`, followed by the links of the block `from` from that place on. Both can
/// be the same block.
fn spread(heap: &mut Heap, from: u64, to: u64, place: u64, count: u64, handle: u64)
    requires heap { IsHeap current heap.old.bytes }
    requires in_bounds { place ≤ count }
    requires source { IsTrue (has_room (live_of heap.old.bytes) from (8 * count)) }
    requires target { IsTrue (has_room (live_of heap.old.bytes) to (8 * count + 8)) }
    requires links { AllLinksLead (bytes_of heap.old.bytes) (from + 8 * place) (count - place) }
    requires handle { handle % 16 ≡ 0 }
    ensures changes { ChangesBytes current heap.old heap.new (to + 8 * place) (8 * (count - place) + 8) }
    ensures in_place { link_at (bytes_of heap.new.bytes) (to + 8 * place) ≡ Some handle }
    ensures tail { KeepTargets (bytes_of heap.old.bytes) (bytes_of heap.new.bytes) (from + 8 * place)
        (to + 8 * place + 8) (count - place) }
{
    heap.shift_non_null_links(
        from,
        LINK_LEN * place,
        to,
        LINK_LEN * place + LINK_LEN,
        count - place,
    );
    heap.set_link(to, LINK_LEN * place, Some(handle));
}
