//! Room for the blocks in use: the only allocation of the check of an image.
ghost use Rattle.std.specs.Prelude.{◌≡◌, ◌≤◌, IfErr, IfOk, IsOk, OnErr, [], ⊤, ℕ};
ghost use Rattle.indexmap.specs.IndexMap.{IsEmpty, spare};

use crate::image_window::BlockTable;
use crate::rows::Row;
use indexmap::IndexMap;
use std::alloc::{AllocError, Global};

/// The error of the allocation for the blocks of an image. Its field is private, so only `table_for` makes it, after a
/// refusal.
#[derive(Clone, Copy, Debug, PartialEq, Eq)]
pub struct NoBlockMemory {
    /// The number of blocks of the request.
    pub blocks: usize,
    _made: (),
}

/// An allocator for the map of the blocks of an image.
pub(crate) trait MapAllocator {
    // The allocator refused a map for this many blocks. Only a request makes this fact.
    ghost refuses: { Self → ℕ → Type 0 };

    /// Makes an empty map with room for `count` blocks.
    ///
    /// # Errors
    ///
    /// If the allocator refuses the memory. With a count of 0 it needs none.
    fn block_map(&self, count: usize) -> Result<IndexMap<u32, Row>, AllocError>
        ensures empty { IfOk result IsEmpty }
        ensures room { IfOk result (λ map. count ≤ spare map) }
        ensures memory { count ≡ 0 → IsOk result }
        ensures refused { OnErr result (refuses self.now count) };
}

impl MapAllocator for Global {
    ghost refuses = { λ alloc count. ⊤ };

    fn block_map(&self, count: usize) -> Result<IndexMap<u32, Row>, AllocError> {
        IndexMap::with_capacity(*self, count)
    }
}

/// Makes an empty table with room for `count` blocks. This is the only allocation of an opening.
///
/// # Errors
///
/// If the allocator refuses the memory.
pub(crate) fn table_for<A: MapAllocator>(
    alloc: &A,
    count: usize,
) -> Result<BlockTable, NoBlockMemory>
    ensures empty { IfOk result (λ blocks. blocks.entries ≡ []) }
    ensures room { IfOk result (λ blocks. count ≤ blocks.room) }
    ensures memory { count ≡ 0 → IsOk result }
    ensures request { OnErr result (A.refuses alloc.now count) }
    ensures refused { IfErr result (λ refusal. refusal.blocks ≡ count) }
{
    match alloc.block_map(count) {
        Ok(map) => Ok(BlockTable::new(map)),
        Err(_) => Err(NoBlockMemory {
            blocks: count,
            _made: (),
        }),
    }
}
