//! A heap: a window full of blocks and gaps.
ghost use Rattle.std.specs.Prelude.{◌≡◌, ◌≢◌, ◌-◌, ◌%◌, ◌<◌, ◌+◌, IsTrue, List, Some, ℕ, length, option_map, slice_get};
ghost use Rattle.std.specs.Borrow.{sem};
ghost use Rattle.raw_region.specs.Memory.{HasBytesAt, bytes_of, read, whole, word_at};
ghost use Rattle.raw_region.specs.Format.{current};
ghost use Rattle.block_tags.specs.Format.{is_legal_size};
ghost use Rattle.best_fit.specs.Extents.{Extent, free_bytes as free_bytes_of, spans};
ghost use Rattle.block_tags.specs.Tiles.{has_tags, tiles_of};
ghost use Rattle.best_fit.specs.FreeTree.{span};
ghost use Rattle.best_fit.specs.Heap.{ChangesBytes, FormatsHeap, IsHeap, IsTileOf, ZeroesFree, extent_at, has_room};
ghost use Rattle.best_fit.specs.Heap.{is_live_in, live_of, payload_at, with_payload};
ghost use Rattle.best_fit.specs.Pairs.{CallsOnTwo, TakesTwo};

mod free_tree_build;
mod links;
pub mod nodes;
mod summing;
pub mod touch_counter;

use crate::block_hints::BlockHints;
use crate::lending::on_two;
use crate::{tile_walk, zeroing};
use block_tags::{HEADER_LEN, Role, TAG_LEN, Tile};
use nodes::{FREE_TREE_ROOT, GapTree, plant_first};
use raw_region::{ByteRange, Window};
use std::marker::Model;

/// A window full of blocks and gaps, from byte 128 to its end tag of 16 bytes. The header before them belongs to the
/// caller, except its word at 24, the link to the tree of the gaps.
///
/// A block in use has a role, and is named by its handle: the offset in bytes of its payload from the window's start.
/// An offset in a block counts from its handle. The live set in contracts is the list of blocks in use, by offset.
#[derive(Drop)]
pub struct Heap {
    pub(crate) gaps: GapTree,
    /// Handles at which a search for a handle can begin. No byte and no result depends on them. Their room came with
    /// the window's region.
    pub(crate) hints: BlockHints,
}

impl Model for Heap {
    ghost use Rattle.raw_region.specs.Memory.{WindowState};
    ghost use Rattle.best_fit.specs.BlockHints.{IsHintedHeap};

    ghost Value = { WindowState };

    ghost view = { λ h. h.gaps.window };

    ghost invariant = { λ h. IsHintedHeap h.gaps.window.bytes h.hints };
}

impl Heap {
    ghost use Rattle.best_fit.specs.Lent.{LendsBlock};

    /// Formats a window as a heap without blocks. The window has 144 bytes, or a multiple of 16 from 176 to 1073741824.
    /// It writes only the tags, the links of the one gap and the word at 24.
    pub fn fresh(window: Window) -> Heap
        requires { IsTrue (is_legal_size (length window.bytes)) }
        ensures { FormatsHeap current window result }
    {
        let mut window = window;
        block_tags::lay(&mut window);
        plant_first(&mut window);
        Heap::adopt_without_hints(window)
    }

    /// Makes a heap of a window that already contains one: good tags, and a good tree of the gaps at the word at 24. No
    /// byte changes. It reads all tiles to find hints.
    pub fn adopt(window: Window) -> Heap
        requires { IsHeap current window.bytes }
        ensures { result ≡ window }
    {
        let mut heap = Heap::adopt_without_hints(window);
        tile_walk::hint_blocks(&heap.gaps.window, &mut heap.hints);
        heap
    }

    /// Makes a heap as `adopt` does, but without hints. It reads no tile. `insert_hint` adds hints.
    pub fn adopt_without_hints(window: Window) -> Heap
        requires { IsHeap current window.bytes }
        ensures { result ≡ window }
    {
        let mut window = window;
        let hints = BlockHints::none_in(window.take_hints());
        let gaps = GapTree { window };
        Heap { gaps, hints }
    }

    /// Adds the handle of a block in use to the hints: a search for a later block can begin there. No byte changes, and
    /// it reads no tile.
    pub fn insert_hint(&mut self, handle: u64)
        requires { IsTrue (is_live_in (live_of self.old.bytes) handle) }
        ensures { self.new ≡ self.old }
    {
        self.hints.insert(handle);
    }

    /// Returns true if a block in use has this handle, which can be any number, and remembers it then: `is_live` needs
    /// no search for it. No byte changes.
    #[inline(always)]
    pub fn remember(&mut self, handle: u64) -> bool
        ensures unchanged { self.new ≡ self.old }
        ensures live { result ≡ is_live_in (live_of self.new.bytes) handle }
    {
        tile_walk::remember(&self.gaps.window, &mut self.hints, handle)
    }

    /// Returns the heap's window with its current bytes. The room for hints goes with it.
    pub fn into_window(self) -> Window
        ensures window { result ≡ self }
        ensures heap { IsHeap current result.bytes }
    {
        let Heap { gaps, hints } = self;
        let GapTree { mut window } = gaps;
        window.keep_hints(hints.into_table());
        window
    }

    /// Returns all bytes of the window.
    pub fn as_bytes(&self) -> &[u8]
        ensures { result.now ≡ self.now.bytes }
    {
        self.gaps.window.bytes(0, self.gaps.window.size())
    }

    /// Returns the number of bytes in the window.
    pub fn size(&self) -> u64
        ensures { result ≡ length self.now.bytes }
    {
        self.gaps.window.size()
    }

    /// Returns the number of bytes of the region after the window.
    pub fn region_left(&self) -> u64
        ensures { result ≡ length (whole self.now) - (length self.now.before + length self.now.bytes) }
    {
        self.gaps.window.capacity() - (self.gaps.window.base() + self.gaps.window.size())
    }

    /// Returns the header's word at `at`: a multiple of 8 below 128, and not 24.
    pub fn header_word(&self, at: u64) -> u64
        requires aligned { at % 8 ≡ 0 }
        requires in_range { at < HEADER_LEN }
        requires unreserved { at ≢ FREE_TREE_ROOT }
        ensures { result ≡ word_at (bytes_of self.now.bytes) at }
    {
        self.gaps.window.read_u64(at)
    }

    /// Writes the header's word at `at`: a multiple of 8 below 128, and not 24.
    pub fn set_header_word(&mut self, at: u64, value: u64)
        requires aligned { at % 8 ≡ 0 }
        requires in_range { at < HEADER_LEN }
        requires unreserved { at ≢ FREE_TREE_ROOT }
        ensures changes { ChangesBytes current self.old self.new at 8 }
        ensures word { word_at (bytes_of self.new.bytes) at ≡ value }
    {
        self.gaps.window.write_u64(at, value);
    }

    /// Returns true if a block in use has this handle, which can be any number.
    #[inline(always)]
    pub fn is_live(&self, handle: u64) -> bool
        ensures { result ≡ is_live_in (live_of self.now.bytes) handle }
    {
        tile_walk::is_live(&self.gaps.window, &self.hints, handle)
    }

    /// Returns the role of a block.
    pub fn role(&self, handle: u64) -> Role
        requires { IsTrue (is_live_in (live_of self.now.bytes) handle) }
        ensures { option_map (λ (x : Extent). x.role) (extent_at (live_of self.now.bytes) handle) ≡ Some result }
    {
        block_tags::tile_at(&self.gaps.window, handle - TAG_LEN)
            .use_of
            .unwrap()
    }

    /// Returns the length of a block's payload in bytes.
    pub fn room(&self, handle: u64) -> u64
        requires { IsTrue (is_live_in (live_of self.now.bytes) handle) }
        ensures { option_map (λ (x : Extent). x.len - 16) (extent_at (live_of self.now.bytes) handle) ≡ Some result }
    {
        block_tags::tile_at(&self.gaps.window, handle - TAG_LEN).len - TAG_LEN
    }

    /// Returns the word at `at` in a block.
    pub fn word(&self, handle: u64, at: u64) -> u64
        requires { IsTrue (has_room (live_of self.now.bytes) handle (at + 8)) }
        ensures { result ≡ word_at (bytes_of self.now.bytes) (handle + at) }
    {
        self.gaps.window.read_u64(handle + at)
    }

    /// Returns the `len` bytes from `at` on in a block.
    pub fn bytes(&self, handle: u64, at: u64, len: u64) -> &[u8]
        requires { IsTrue (has_room (live_of self.now.bytes) handle (at + len)) }
        ensures { result.now ≡ read (bytes_of self.now.bytes) (handle + at) len }
    {
        self.gaps.window.bytes(handle + at, len)
    }

    /// Writes the word at `at` in a block.
    pub fn set_word(&mut self, handle: u64, at: u64, value: u64)
        requires { IsTrue (has_room (live_of self.old.bytes) handle (at + 8)) }
        ensures changes { ChangesBytes current self.old self.new (handle + at) 8 }
        ensures word { word_at (bytes_of self.new.bytes) (handle + at) ≡ value }
    {
        self.gaps.window.write_u64(handle + at, value);
    }

    /// Writes bytes at `at` in a block.
    pub fn write(&mut self, handle: u64, at: u64, bytes: &[u8])
        requires { IsTrue (has_room (live_of self.old.bytes) handle (at + length bytes.now)) }
        ensures changes { ChangesBytes current self.old self.new (handle + at) (length bytes.now) }
        ensures content { HasBytesAt (bytes_of self.new.bytes) (handle + at) bytes.now }
    {
        self.gaps.window.write(handle + at, bytes);
    }

    /// Copies the `n` bytes from `from_at` on in the block `from` to `to_at` in the block `to`. Both can be the same
    /// block, and the ranges can overlap.
    pub fn copy(&mut self, from: u64, from_at: u64, to: u64, to_at: u64, n: u64)
        requires source { IsTrue (has_room (live_of self.old.bytes) from (from_at + n)) }
        requires target { IsTrue (has_room (live_of self.old.bytes) to (to_at + n)) }
        ensures changes { ChangesBytes current self.old self.new (to + to_at) n }
        ensures content { read (bytes_of self.new.bytes) (to + to_at) n
            ≡ read (bytes_of self.old.bytes) (from + from_at) n }
    {
        self.gaps.window.move_within(from + from_at, to + to_at, n);
    }

    /// Returns the payload of a block: the bytes after its tag, at least as many as were requested.
    pub fn block(&self, handle: u64) -> &[u8]
        requires { IsTrue (is_live_in (live_of self.now.bytes) handle) }
        ensures { result.now ≡ payload_at self.now.bytes (live_of self.now.bytes) handle }
    {
        self.gaps.window.bytes(handle, self.room(handle))
    }

    /// Returns the payload of a block, mutably.
    pub fn block_mut(&mut self, handle: u64) -> &mut [u8]
        requires { IsTrue (is_live_in (live_of self.old.bytes) handle) }
        ensures* writes_back { sem 𝓛 (LendsBlock self.entry handle result) }
        ensures bytes { result.now ≡ payload_at self.old.bytes (live_of self.old.bytes) handle }
    {
        let len = self.room(handle);
        self.gaps.window.bytes_mut(handle, len)
    }

    /// Calls `change` with the payloads of two blocks, the first for reading and the second for writing.
    pub fn two<F: FnOnce(&[u8], &mut [u8])>(&mut self, first: u64, second: u64, change: F)
        requires first { IsTrue (is_live_in (live_of self.old.bytes) first) }
        requires second { IsTrue (is_live_in (live_of self.old.bytes) second) }
        requires disjoint { first ≢ second }
        requires callable { TakesTwo F.FnOnce change (payload_at self.old.bytes (live_of self.old.bytes) first)
            (payload_at self.old.bytes (live_of self.old.bytes) second) }
        ensures { (ws : List ℕ) × CallsOnTwo F.FnOnce change (payload_at self.old.bytes (live_of self.old.bytes) first)
            (payload_at self.old.bytes (live_of self.old.bytes) second) ws
            × (self.new ≡ with_payload self.old second ws) }
    {
        let a = ByteRange {
            from: first,
            len: self.room(first),
        };
        let b = ByteRange {
            from: second,
            len: self.room(second),
        };
        let size = self.gaps.window.size();
        let bytes = self.gaps.window.bytes_mut(0, size);
        on_two(bytes, a, b, change);
    }

    /// Returns the first block or gap, or `None` if there is none.
    pub fn first_tile(&self) -> Option<Tile>
        ensures tile { result ≡ slice_get (tiles_of (bytes_of self.now.bytes) (length self.now.bytes)) 0 }
        ensures span { option_map span result ≡ slice_get (spans (live_of self.now.bytes)) 0 }
    {
        block_tags::first(&self.gaps.window)
    }

    /// Returns the block or gap after `tile`, or `None` if that is the last.
    pub fn next_tile(&self, tile: Tile) -> Option<Tile>
        requires { IsTileOf self.now.bytes tile }
        ensures tile { (i : ℕ) → slice_get (tiles_of (bytes_of self.now.bytes) (length self.now.bytes)) i ≡ Some tile
            → result ≡ slice_get (tiles_of (bytes_of self.now.bytes) (length self.now.bytes)) (i + 1) }
        ensures span { (i : ℕ) → slice_get (tiles_of (bytes_of self.now.bytes) (length self.now.bytes)) i ≡ Some tile
            → option_map span result ≡ slice_get (spans (live_of self.now.bytes)) (i + 1) }
    {
        block_tags::next(&self.gaps.window, tile.offset)
    }

    /// Returns the block or gap with `index` others before it, or `None` if there are fewer.
    pub fn tile(&self, index: u64) -> Option<Tile>
        ensures tile { result ≡ slice_get (tiles_of (bytes_of self.now.bytes) (length self.now.bytes)) index }
        ensures span { option_map span result ≡ slice_get (spans (live_of self.now.bytes)) index }
    {
        tile_walk::tile(&self.gaps.window, index)
    }

    /// Returns the number of blocks in use.
    pub fn live_count(&self) -> u64
        ensures { result ≡ length (live_of self.now.bytes).extents }
    {
        tile_walk::live_count(&self.gaps.window)
    }

    /// Returns the number of bytes in all gaps, their tags included.
    pub fn free_bytes(&self) -> u64
        ensures { result ≡ free_bytes_of (live_of self.now.bytes) }
    {
        summing::free_bytes(&self.gaps)
    }

    /// Sets the free bytes of each gap, which follow its tag and its two links, to 0. No other byte changes.
    pub fn zero_free(&mut self)
        ensures { ZeroesFree current self.old self.new }
    {
        zeroing::zero_gaps(&mut self.gaps.window);
    }

    /// Checks the tags and returns true if they are whole, as they are in each heap.
    pub fn sanity(&self) -> bool
        ensures result { IsTrue result }
        ensures tags { result ≡ has_tags current (bytes_of self.now.bytes) (length self.now.bytes) }
    {
        block_tags::check(&self.gaps.window).is_ok()
    }
}
