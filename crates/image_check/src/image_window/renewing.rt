//! Makes the segment of a checked image: the only way from its window to a heap.
ghost use Rattle.std.specs.Prelude.{◌≡◌, ◌≢◌, ◌+◌, ◌<◌, ◌≤◌, length};
ghost use Rattle.raw_region.specs.Format.{current};
ghost use Rattle.raw_region.specs.Memory.{SameSurroundings, bytes_of, word_at};
ghost use Rattle.best_fit.specs.Heap.{ChangesBytes, IsHeap};
ghost use Rattle.best_fit.specs.Rebuilding.{RebuildsFreeTree};
ghost use Rattle.image_check.specs.Opening.{IsImage};
ghost use Rattle.image_check.specs.Upgrading.{UpgradesFormat};
ghost use Rattle.image_check.specs.Owners.{AreBlocks};
ghost use Rattle.image_check.specs.Passes.{tiles_in};

use super::{BlockTable, ImageWindow};
use crate::checking::VisitCounter;
use crate::noting::hint_blocks;
use best_fit::Heap;
use raw_region::Window;
use segment_manager::layout::{FORMAT, FORMAT_AT};
use segment_manager::unchecked::segment_of;
use segment_manager::{Mode, Segment};

impl ImageWindow {
    /// Returns the segment of a checked image of a format from 0 to 2 with these blocks. Its bytes become an image of
    /// the same directory in the current format: they get the current version and, from format 0, a free tree. An image
    /// of the current format stays byte for byte. It takes one visit for each block, and reads tiles only from format
    /// 0.
    pub fn into_segment(
        self,
        format: u64,
        blocks: &BlockTable,
        mode: Mode,
        visits: &mut VisitCounter,
    ) -> Segment
        requires format { format ≤ 2 }
        requires image { IsImage format self.bytes }
        requires blocks { AreBlocks (tiles_in self.bytes) blocks.now.entries }
        ensures place { SameSurroundings self result.cut }
        ensures upgrade { UpgradesFormat format self.bytes result.cut.bytes }
        ensures mode { result.mode ≡ mode }
        ensures visits { visits.new ≡ visits.old + length blocks.now.entries }
    {
        let mut heap = as_heap(format, self.window);
        set_version(format, &mut heap);
        hint_blocks(blocks, &mut heap, visits);
        segment_of(heap, mode)
    }
}

/// Writes the current version into the header of a heap of an older format.
fn set_version(format: u64, heap: &mut Heap)
    ensures unchanged { format ≡ 2 → heap.new ≡ heap.old }
    ensures changes { format ≢ 2 → ChangesBytes current heap.old heap.new 8 8 }
    ensures word { format ≢ 2 → word_at (bytes_of heap.new.bytes) 8 ≡ 2 }
{
    if format != FORMAT {
        heap.set_header_word(FORMAT_AT, FORMAT);
    }
}

/// Returns the heap of a window that contains one in a format, without block hints. From format 0 the gaps get a tree;
/// otherwise no byte changes.
fn as_heap(format: u64, window: Window) -> Heap
    requires { IsHeap format window.bytes }
    ensures changes { RebuildsFreeTree current window result }
    ensures unchanged { 0 < format → result ≡ window }
{
    if format == 0 {
        Heap::rebuild(window)
    } else {
        Heap::adopt_without_hints(window)
    }
}
