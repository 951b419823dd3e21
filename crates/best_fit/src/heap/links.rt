//! Links in the header and in blocks, and the colours of node blocks.
ghost use Rattle.std.specs.Prelude.{◌≡◌, ◌≢◌, ◌+◌, ◌*◌, ◌%◌, ◌<◌, IfSome, IsTrue};
ghost use Rattle.raw_region.specs.Memory.{bytes_of};
ghost use Rattle.offset_link.specs.Link.{link_at};
ghost use Rattle.offset_link.specs.Moves.{StaysInside, moved_to};
ghost use Rattle.offset_link.specs.Relinked.{AllLinksLead, AreValidLinks, KeepTargets};
ghost use Rattle.raw_region.specs.Format.{current};
ghost use Rattle.best_fit.specs.FreeTree.{is_red};
ghost use Rattle.best_fit.specs.Heap.{ChangesBytes, Recolours, has_room, is_live_in, is_node_in, live_of};

use crate::heap::Heap;
use crate::heap::nodes::{FREE_TREE_ROOT, set_link};
use block_tags::{HEADER_LEN, TAG_LEN, set_red, tile_at};
use offset_link::{Distance, load, shift, shift_non_null};

impl Heap {
    /// Returns the target of the header's link at `at`: a multiple of 8 below 128, and not 24. `None` if the link is
    /// null.
    pub fn header_link(&self, at: u64) -> Option<u64>
        requires aligned { at % 8 ≡ 0 }
        requires in_range { at < HEADER_LEN }
        requires unreserved { at ≢ FREE_TREE_ROOT }
        ensures { result ≡ link_at (bytes_of self.now.bytes) at }
    {
        load(&self.gaps.window, at)
    }

    /// Sets the header's link at `at`, a multiple of 8 below 128 and not 24. The target is a multiple of 16, or none.
    pub fn set_header_link(&mut self, at: u64, to: Option<u64>)
        requires aligned { at % 8 ≡ 0 }
        requires in_range { at < HEADER_LEN }
        requires unreserved { at ≢ FREE_TREE_ROOT }
        requires target { IfSome to (λ target. target % 16 ≡ 0) }
        ensures changes { ChangesBytes current self.old self.new at 8 }
        ensures link_target { link_at (bytes_of self.new.bytes) at ≡ to }
    {
        set_link(&mut self.gaps.window, at, to);
    }

    /// Returns the target of the link at `at` in a block, or `None` if the link is null.
    pub fn link(&self, handle: u64, at: u64) -> Option<u64>
        requires aligned { at % 8 ≡ 0 }
        requires room { IsTrue (has_room (live_of self.now.bytes) handle (at + 8)) }
        ensures { result ≡ link_at (bytes_of self.now.bytes) (handle + at) }
    {
        load(&self.gaps.window, handle + at)
    }

    /// Sets the link at `at` in a block. The target is a multiple of 16, or none.
    pub fn set_link(&mut self, handle: u64, at: u64, to: Option<u64>)
        requires aligned { at % 8 ≡ 0 }
        requires room { IsTrue (has_room (live_of self.old.bytes) handle (at + 8)) }
        requires target { IfSome to (λ target. target % 16 ≡ 0) }
        ensures changes { ChangesBytes current self.old self.new (handle + at) 8 }
        ensures link_target { link_at (bytes_of self.new.bytes) (handle + at) ≡ to }
    {
        set_link(&mut self.gaps.window, handle + at, to);
    }

    /// Copies the `n` links from `from_at` on in the block `from` to `to_at` in the block `to`; each keeps its target.
    /// Both can be the same block, and the ranges can overlap.
    pub fn shift_links(&mut self, from: u64, from_at: u64, to: u64, to_at: u64, n: u64)
        requires from_aligned { from_at % 8 ≡ 0 }
        requires to_aligned { to_at % 8 ≡ 0 }
        requires source { IsTrue (has_room (live_of self.old.bytes) from (from_at + 8 * n)) }
        requires target { IsTrue (has_room (live_of self.old.bytes) to (to_at + 8 * n)) }
        requires links { AreValidLinks (bytes_of self.old.bytes) (from + from_at) n }
        ensures changes { ChangesBytes current self.old self.new (to + to_at) (8 * n) }
        ensures lead { KeepTargets (bytes_of self.old.bytes) (bytes_of self.new.bytes) (from + from_at) (to + to_at) n }
    {
        shift(
            &mut self.gaps.window,
            from + from_at,
            n,
            way(from + from_at, to + to_at),
        );
    }

    /// Copies links as `shift_links` does, if none of them is null, in about half the time.
    pub fn shift_non_null_links(&mut self, from: u64, from_at: u64, to: u64, to_at: u64, n: u64)
        requires from_aligned { from_at % 8 ≡ 0 }
        requires to_aligned { to_at % 8 ≡ 0 }
        requires source { IsTrue (has_room (live_of self.old.bytes) from (from_at + 8 * n)) }
        requires target { IsTrue (has_room (live_of self.old.bytes) to (to_at + 8 * n)) }
        requires links { AllLinksLead (bytes_of self.old.bytes) (from + from_at) n }
        ensures changes { ChangesBytes current self.old self.new (to + to_at) (8 * n) }
        ensures lead { KeepTargets (bytes_of self.old.bytes) (bytes_of self.new.bytes) (from + from_at) (to + to_at) n }
    {
        shift_non_null(
            &mut self.gaps.window,
            from + from_at,
            n,
            way(from + from_at, to + to_at),
        );
    }

    /// Returns true if a block is red. Only a node block can be red.
    pub fn node_red(&self, handle: u64) -> bool
        requires { IsTrue (is_live_in (live_of self.now.bytes) handle) }
        ensures { result ≡ is_red (bytes_of self.now.bytes) handle }
    {
        tile_at(&self.gaps.window, handle - TAG_LEN).red
    }

    /// Sets the colour of a node block.
    pub fn set_node_red(&mut self, handle: u64, red: bool)
        requires { IsTrue (is_node_in (live_of self.old.bytes) handle) }
        ensures { Recolours current self.old self.new handle red }
    {
        set_red(&mut self.gaps.window, handle - TAG_LEN, red);
    }
}

/// Returns the distance and the direction from one link to another.
fn way(source: u64, target: u64) -> Distance
    requires source_aligned { source % 8 ≡ 0 }
    requires target_aligned { target % 8 ≡ 0 }
    ensures result { moved_to source result ≡ target }
    ensures in_range { StaysInside source result }
{
    if target >= source {
        Distance::Up((target - source) / 8)
    } else {
        Distance::Down((source - target) / 8)
    }
}
