//! Grows and shrinks the capacity of an index.
ghost use Rattle.std.specs.Prelude.{◌≡◌, ◌≢◌, ℕ, ◌+◌, ◌*◌, ◌%◌, ◌^◌, ◌<◌, ◌≤◌, IfSome, IsTrue, List, None, length};
ghost use Rattle.std.specs.List.{AllByRecursion};
ghost use Rattle.raw_region.specs.{Format.current, Memory.bytes_of};
ghost use Rattle.offset_link.specs.Link.{link_at};
ghost use Rattle.best_fit.specs.Heap.{IsHeap, EncodesLiveSet, heap_touches, is_live_in, live_of};
ghost use Rattle.best_fit.specs.Table.{BackingArray as ATable};
ghost use Rattle.seg_index.specs.Capacities.{ShrinksIndex, ReservesIndex, reserve_steps};
ghost use Rattle.seg_index.specs.Growth.{FreesGrowth, IsBlockFor, IsLiveGrowth, KeepsOutsideIndex, Prepares, Restores};
ghost use Rattle.seg_index.specs.Growth.{without_index_block};
ghost use Rattle.seg_index.specs.Held.{HasIndex, InstallsBlock, IsIndexOf, capacity_at, entry_count, index_at};
ghost use Rattle.seg_index.specs.{Index.AreLinksTo, Index.grown_capacity, Sorted.KeepsSorted};

use crate::index::Index;
use best_fit::{Heap, NoSpace};
use block_tags::Role;
use raw_region::Steps;
use std::cmp::max;

/// A new block for the links of an index, or none if the index has capacity left. A command allocates it before it
/// changes anything. It then becomes the block of the index, or is freed.
#[derive(Drop)]
pub struct Growth {
    pub(crate) block: Option<u64>,
}

impl Index {
    /// Allocates a new block if the index is full, with twice its capacity, and at least 4. The old block stays.
    ///
    /// # Errors
    ///
    /// `NoSpace` if the index is full and no gap is long enough. Nothing changes.
    pub fn prepare(self, heap: &mut Heap, steps: &mut Steps) -> Result<Growth, NoSpace>
        requires index { HasIndex heap.old (index_at self) }
        ensures growth { Prepares heap.old heap.new (index_at self) result }
        ensures order { KeepsSorted heap.old heap.new }
        ensures steps_lower { steps.old ≤ steps.new }
        ensures noop { entry_count heap.old (index_at self) < capacity_at heap.old (index_at self)
            → steps.new ≡ steps.old }
        ensures progress { heap.new ≢ heap.old → steps.old < steps.new }
        ensures steps { steps.new ≤ steps.old + heap_touches (live_of heap.old.bytes) }
    {
        let capacity = self.capacity(heap);
        if self.len(heap) < capacity {
            return Ok(Growth { block: None });
        }
        let block = heap.allocate(LINK_LEN * grown_capacity(capacity), Role::Index, steps)?;
        Ok(Growth { block: Some(block) })
    }

    /// Frees the block of a growth, which restores the live set from before its allocation.
    pub fn give_back(growth: Growth, heap: &mut Heap, steps: &mut Steps)
        requires growth { IsLiveGrowth heap.old growth }
        ensures changes { FreesGrowth heap.old heap.new growth.block }
        ensures unchanged { Restores heap.old heap.new growth }
        ensures steps_lower { steps.old ≤ steps.new }
        ensures noop { growth.block ≡ None → steps.new ≡ steps.old }
        ensures progress { heap.new ≢ heap.old → steps.old < steps.new }
        ensures steps { steps.new ≤ steps.old + heap_touches (live_of heap.old.bytes) }
    {
        if let Some(taken) = growth.block {
            heap.deallocate(taken, steps);
        }
    }

    /// Grows the capacity to `n`, in a new block for exactly `n` entries, and frees the old block afterwards. If the
    /// capacity is `n` or more, nothing changes.
    ///
    /// # Errors
    ///
    /// `NoSpace` if no gap is long enough, as for each `n` above 134217728. Nothing changes.
    pub fn reserve(self, heap: &mut Heap, n: u64, steps: &mut Steps) -> Result<(), NoSpace>
        requires index { HasIndex heap.old (index_at self) }
        ensures capacity { ReservesIndex heap.old heap.new (index_at self) n result }
        ensures steps_lower { steps.old ≤ steps.new }
        ensures noop { n ≤ capacity_at heap.old (index_at self) → steps.new ≡ steps.old }
        ensures progress { heap.new ≢ heap.old → steps.old < steps.new }
        ensures steps { steps.new ≤ steps.old + reserve_steps (live_of heap.old.bytes) n }
    {
        if n <= self.capacity(heap) {
            return Ok(());
        }
        let block = heap.allocate(n.saturating_mul(LINK_LEN), Role::Index, steps)?;
        let count = self.len(heap);
        // without a block there are no links to move
        let from = heap.header_link(self.header_offset()).unwrap_or(block);
        heap.shift_non_null_links(from, 0, block, 0, count);
        self.install_block(heap, block, n, count, steps);
        Ok(())
    }

    /// Shrinks the capacity to the number of entries, as far as the block can be shortened, even if the capacity stays.
    /// The block of an empty index is freed.
    pub fn shrink(self, heap: &mut Heap, steps: &mut Steps)
        requires index { HasIndex heap.old (index_at self) }
        ensures shrinking { (t : ATable) (handles : List ℕ) → IsIndexOf heap.old (index_at self) t handles
            → ShrinksIndex heap.old heap.new (index_at self) t handles }
        ensures steps_lower { steps.old ≤ steps.new }
        ensures noop { link_at (bytes_of heap.old.bytes) (index_at self) ≡ None → steps.new ≡ steps.old }
        ensures progress { live_of heap.new.bytes ≢ live_of heap.old.bytes → steps.old < steps.new }
        ensures steps { steps.new ≤ steps.old + heap_touches (live_of heap.old.bytes) }
    {
        let place = self.header_offset();
        let Some(block) = heap.header_link(place) else {
            return;
        };
        let count = self.len(heap);
        heap.set_header_word(place + 16, count);
        if count == 0 {
            heap.set_header_link(place, None);
            heap.deallocate(block, steps);
        } else {
            heap.shrink_in_place(block, LINK_LEN * count, steps);
        }
    }

    /// Installs a block with capacity `n`, whose first `count` links are set, as the block of the index, and frees the
    /// old block.
    pub(crate) fn install_block(
        self,
        heap: &mut Heap,
        block: u64,
        n: u64,
        count: u64,
        steps: &mut Steps,
    )
        requires heap { IsHeap current heap.old.bytes }
        requires block { IsBlockFor heap.old block n }
        requires released { IfSome (link_at (bytes_of heap.old.bytes) (index_at self))
            (λ h. IsTrue (is_live_in (live_of heap.old.bytes) h) × (h ≢ block)) }
        requires non_empty { 0 < n }
        requires in_bounds { count ≤ n }
        ensures index { (handles : List ℕ) → AreLinksTo (bytes_of heap.old.bytes) block handles → count ≡ length handles
            → AllByRecursion (λ h. h % 16 ≡ 0) handles
            → InstallsBlock heap.old heap.new (index_at self) block n handles }
        ensures live { EncodesLiveSet current heap.new.bytes (without_index_block heap.old (index_at self)) }
        ensures frame { KeepsOutsideIndex heap.old heap.new (index_at self)
            (without_index_block heap.old (index_at self)).extents }
        ensures steps_lower { steps.old ≤ steps.new }
        ensures noop { link_at (bytes_of heap.old.bytes) (index_at self) ≡ None → steps.new ≡ steps.old }
        ensures progress { IfSome (link_at (bytes_of heap.old.bytes) (index_at self)) (λ h. steps.old < steps.new) }
        ensures steps { steps.new ≤ steps.old + heap_touches (live_of heap.old.bytes) }
    {
        let place = self.header_offset();
        let old = heap.header_link(place);
        heap.set_header_link(place, Some(block));
        heap.set_header_word(place + 8, count);
        heap.set_header_word(place + 16, n);
        if let Some(old) = old {
            heap.deallocate(old, steps);
        }
    }
}

/// The length of a link in bytes.
pub const LINK_LEN: u64 = 8;

/// Returns the capacity of a full index after it grows.
pub fn grown_capacity(capacity: u64) -> u64
    requires { capacity < 2 ^ 40 }
    ensures { result ≡ grown_capacity capacity }
{
    max(4, 2 * capacity)
}
