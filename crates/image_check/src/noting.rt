//! Makes the block hints of a heap from the map of an image's blocks.
ghost use Rattle.std.specs.Prelude.{◌≡◌, ◌+◌, IsTrue, length};
ghost use Rattle.best_fit.specs.Heap.{is_live_in, live_of};
ghost use Rattle.image_check.specs.Owners.{AreBlocksIn};

use crate::checking::VisitCounter;
use crate::image_window::BlockTable;
use best_fit::Heap;

/// The length of the shortest pieces of a heap in bytes.
const PIECE: u32 = 2048;

/// Adds the blocks in use to the heap's block hints. It takes one visit for each block, reads no tag and changes no
/// byte.
pub(crate) fn hint_blocks(blocks: &BlockTable, heap: &mut Heap, visits: &mut VisitCounter)
    requires { AreBlocksIn (live_of heap.old.bytes) blocks.now.entries }
    ensures unchanged { heap.new ≡ heap.old }
    ensures visits { visits.new ≡ visits.old + length blocks.now.entries }
{
    let mut number = 0;
    let mut last = u32::MAX;
    'rows: while number < blocks.len() {
        let (payload, _) = blocks.row(number, visits);
        hint_block(heap, last, payload);
        last = payload;
        number += 1;
    }
}

/// Adds the block at `payload` to the heap's block hints, unless the block at `last` is in the same piece: a heap keeps
/// only the lowest hint of a piece.
fn hint_block(heap: &mut Heap, last: u32, payload: u32)
    requires { IsTrue (is_live_in (live_of heap.old.bytes) payload) }
    ensures { heap.new ≡ heap.old }
{
    if payload / PIECE != last / PIECE {
        heap.insert_hint(payload as u64);
    }
}
