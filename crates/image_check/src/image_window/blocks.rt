//! A table of the blocks in use. Each look-up counts as one visit.
ghost use Rattle.std.specs.Prelude.{◌≡◌, ◌+◌, ◌^◌, ◌++◌, ◌∷◌, ◌<◌, ◌≤◌, [], nat_eq, length, IfSome, IfNone, None, Some};
ghost use Rattle.std.specs.Prelude.{IsTrue, slice_get};
ghost use Rattle.std.specs.Map.{set_value};
ghost use Rattle.indexmap.specs.IndexMap.{IsEmpty, spare};
ghost use Rattle.image_check.specs.Owners.{block_at};
ghost use Rattle.image_check.specs.Rows.{AreBelow, IsRow};

use crate::checking::VisitCounter;
use crate::owners::Block;
use crate::rows::Row;
use indexmap::IndexMap;
use std::marker::Model;

/// The blocks in use by payload, in the order of their offsets.
#[derive(Drop)]
pub(crate) struct BlockTable {
    map: IndexMap<u32, Row>,
}

impl Model for BlockTable {
    ghost use Rattle.indexmap.specs.IndexMap.{spare};
    ghost use Rattle.image_check.specs.Owners.{BlockMap};
    ghost use Rattle.image_check.specs.Rows.{AreSortedBlocks};

    ghost Value = { BlockMap };

    ghost view = { λ b. record { entries = b.map.entries; room = spare b.map } };

    ghost invariant = { λ b. AreSortedBlocks b.map.entries };
}

impl BlockTable {
    /// Makes an empty table over an empty map. The table has the room of the map.
    pub(crate) fn new(map: IndexMap<u32, Row>) -> BlockTable
        requires { IsEmpty map }
        ensures entries { result.entries ≡ [] }
        ensures room { result.room ≡ spare map }
    {
        BlockTable { map }
    }

    /// Guesses the number of the block at `target`. The guess is right if all blocks from number `near` to this block
    /// are of one length.
    fn number_by_length(&self, near: usize, target: u64) -> usize {
        let Some((payload, row)) = self.map.get_index(near) else {
            return near;
        };
        let from = *payload as u64;
        let steps = from.abs_diff(target).checked_div(row.block().len as u64);
        let count = steps.unwrap_or(0) as usize;
        if from <= target {
            near.wrapping_add(count)
        } else {
            near.wrapping_sub(count)
        }
    }

    /// Returns true if there is a block with the number `nth`, and its payload begins at `target`.
    fn begins_at(&self, nth: usize, target: u64) -> bool
        ensures { IsTrue result → IsRow self.now.entries target nth }
    {
        match self.map.get_index(nth) {
            Some((payload, _)) => *payload as u64 == target,
            None => false,
        }
    }

    /// Returns the number of the block whose payload begins at `target`. The search is fast if the blocks from number
    /// `near` to this block are of one length, and correct for any `near`.
    fn number_of(&self, near: usize, target: u64) -> Option<usize>
        ensures search { IfSome result (IsRow self.now.entries target) }
        ensures absent { IfNone result (block_at self.now.entries target ≡ None) }
    {
        if self.begins_at(near, target) {
            return Some(near);
        }
        let guess = self.number_by_length(near, target);
        if self.begins_at(guess, target) {
            return Some(guess);
        }
        match u32::try_from(target) {
            Ok(payload) => self.map.get_index_of(&payload),
            Err(_) => None,
        }
    }

    /// Returns the number of blocks.
    pub(crate) fn len(&self) -> usize
        ensures { result ≡ length self.now.entries }
    {
        self.map.len()
    }

    /// Returns the payload and the block with the number `nth`. The caller counts the visit.
    fn entry(&self, nth: usize) -> (u32, Block)
        requires { nth < length self.now.entries }
        ensures row { slice_get self.now.entries nth ≡ Some result }
        ensures block { block_at self.now.entries result.0 ≡ Some result.1 }
    {
        let (payload, row) = self.map.get_index(nth).unwrap();
        (*payload, row.block())
    }

    /// Returns the payload and the block with the number `nth`, in the order of the offsets. It takes one visit.
    pub(crate) fn row(&self, nth: usize, visits: &mut VisitCounter) -> (u32, Block)
        requires { nth < length self.now.entries }
        ensures row { slice_get self.now.entries nth ≡ Some result }
        ensures block { block_at self.now.entries result.0 ≡ Some result.1 }
        ensures visits { visits.new ≡ visits.old + 1 }
    {
        visits.visit();
        self.entry(nth)
    }

    /// Returns the block whose payload begins at `target`. The caller counts the visit.
    pub(super) fn get(&self, near: usize, target: u64) -> Option<Block>
        ensures { result ≡ block_at self.now.entries target }
    {
        match self.number_of(near, target) {
            Some(number) => Some(self.entry(number).1),
            None => None,
        }
    }

    /// Finds the block whose payload begins at `target`. Returns its number, `target` as a `u32`, and the block. The
    /// search is fast if the blocks from number `near` to this block are of one length. It takes one visit.
    pub(crate) fn find(
        &self,
        near: usize,
        target: u64,
        visits: &mut VisitCounter,
    ) -> Option<(usize, u32, Block)>
        ensures number { IfSome result (λ found. IsRow self.now.entries target found.0) }
        ensures payload { IfSome result (λ found. found.1 ≡ target) }
        ensures block { IfSome result (λ found. block_at self.now.entries target ≡ Some found.2) }
        ensures absent { IfNone result (block_at self.now.entries target ≡ None) }
        ensures visits { visits.new ≡ visits.old + 1 }
    {
        visits.visit();
        match self.number_of(near, target) {
            Some(number) => {
                let (payload, block) = self.entry(number);
                Some((number, payload, block))
            }
            None => None,
        }
    }

    /// Returns the block whose payload begins at `target`. The search is fast if the blocks from number `near` to this
    /// block are of one length. It takes one visit.
    pub(crate) fn block_of(
        &self,
        near: usize,
        target: u64,
        visits: &mut VisitCounter,
    ) -> Option<Block>
        ensures value { result ≡ block_at self.now.entries target }
        ensures visits { visits.new ≡ visits.old + 1 }
    {
        visits.visit();
        self.get(near, target)
    }

    /// Puts `block` in place of the block number `number`, whose payload begins at `target`. It takes one visit.
    pub(crate) fn put(
        &mut self,
        number: usize,
        target: u64,
        block: Block,
        visits: &mut VisitCounter,
    )
        requires { IsRow self.old.entries target number }
        ensures value { self.new.entries ≡ set_value (nat_eq target) self.old.entries block }
        ensures visits { visits.new ≡ visits.old + 1 }
    {
        visits.visit();
        self.map[number] = Row::new(block);
    }

    /// Adds a block at `target`, after all others, to a table with room for it. It takes one visit.
    pub(crate) fn add(&mut self, target: u64, block: Block, visits: &mut VisitCounter)
        requires max_size { target < 2 ^ 32 }
        requires order { AreBelow self.old.entries target }
        requires room { 0 < self.old.room }
        ensures entries { self.new.entries ≡ self.old.entries ++ (target, block) ∷ [] }
        ensures room { self.old.room ≤ self.new.room + 1 }
        ensures visits { visits.new ≡ visits.old + 1 }
    {
        visits.visit();
        // There is room, so `insert` allocates no memory.
        let _ = self.map.insert(target as u32, Row::new(block));
    }
}
