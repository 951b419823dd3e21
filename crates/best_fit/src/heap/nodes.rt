//! The gaps of a window as the nodes of a tree.
ghost use Rattle.std.specs.Prelude.{◌≡◌, ◌+◌, ◌%◌, ◌≤◌, IfSome, length};
ghost use Rattle.std.specs.List.{AllByRecursion};
ghost use Rattle.raw_region.specs.Memory.{SameBytes, SameBytesExcept, SameSurroundings, bytes_of};
ghost use Rattle.raw_region.specs.Format.{current};
ghost use Rattle.block_tags.specs.Lists.{laid};
ghost use Rattle.block_tags.specs.Windows.{EncodesTiles};
ghost use Rattle.best_fit.specs.Extents.{gaps};
ghost use Rattle.best_fit.specs.Heap.{HasNullLinks, EncodesLiveSet, no_blocks};
ghost use Rattle.offset_link.specs.Link.{link_at};
ghost use Rattle.best_fit.specs.GapNodes.{GapTreeFrame as WhatStays, comes_before, gap_cells, gaps_in, is_gap_node};
ghost use Rattle.best_fit.specs.GapNodes.{kept_of, stands_before};
ghost use Rattle.best_fit.specs.GapLaws.{comes_agrees, comes_irreflexive, comes_transitive, gaps_finite, gaps_left};
ghost use Rattle.best_fit.specs.GapLaws.{gaps_right};

use block_tags::{HEADER_LEN, TAG_LEN, tile_at};
use link_tree::{Nodes, NodesMut};
use offset_link::{load, store, store_null};
use raw_region::Window;

/// The distance from a node's left link to its right link, in bytes.
pub const RIGHT_LINK: u64 = 8;

/// The offset of the header's word that links to the root of the free tree.
pub const FREE_TREE_ROOT: u64 = 24;

/// The handle of the first tile.
const FIRST_GAP: u64 = HEADER_LEN + TAG_LEN;

/// The target of a search among the gaps: the first gap that is longer than `len`, or has this length and its payload
/// at or after `from`.
#[derive(Clone, Copy, Debug)]
pub struct GapProbe {
    /// The length in bytes.
    pub len: u64,
    /// The least payload of a gap with this length.
    pub from: u64,
}

/// A window whose gaps are nodes, each named by the offset of its payload. The first two words there are its links, and
/// its colour is its tile's colour. A gap precedes longer gaps, and gaps of its length at greater offsets.
#[derive(Drop)]
pub struct GapTree {
    pub(super) window: Window,
}

impl Nodes for GapTree {
    type Probe = GapProbe;

    ghost cells = { λ s. gap_cells s.window };

    ghost is_node = { λ s. is_gap_node s.window };

    ghost order = { λ s. comes_before (gaps_in s.window) };

    ghost before = { λ s sought. stands_before (gaps_in s.window) sought };

    ghost Kept = { WhatStays };

    ghost kept = { λ s. kept_of s.window };

    fn left(&self, node: u64) -> Option<u64> {
        load(&self.window, node)
    }

    fn right(&self, node: u64) -> Option<u64> {
        load(&self.window, node + RIGHT_LINK)
    }

    fn red(&self, node: u64) -> bool {
        tile_at(&self.window, node - TAG_LEN).red
    }

    fn precedes(&self, a: u64, b: u64) -> bool {
        let first = tile_at(&self.window, a - TAG_LEN).len;
        let second = tile_at(&self.window, b - TAG_LEN).len;
        first < second || (first == second && a < b)
    }

    fn before_probe(&self, node: u64, sought: &GapProbe) -> bool {
        let len = tile_at(&self.window, node - TAG_LEN).len;
        len < sought.len || (len == sought.len && node < sought.from)
    }

    ghost finite = { λ s. gaps_finite s.window };

    ghost left_closed = { λ s. gaps_left s.window };

    ghost right_closed = { λ s. gaps_right s.window };

    ghost irreflexive = { λ s. comes_irreflexive (gaps_in s.window) };

    ghost transitive = { λ s. comes_transitive (gaps_in s.window) };

    ghost agrees = { λ s. comes_agrees (gaps_in s.window) };
}

impl NodesMut for GapTree {
    fn set_left(&mut self, node: u64, to: Option<u64>) {
        set_link(&mut self.window, node, to);
    }

    fn set_right(&mut self, node: u64, to: Option<u64>) {
        set_link(&mut self.window, node + RIGHT_LINK, to);
    }

    fn set_red(&mut self, node: u64, red: bool) {
        block_tags::set_red(&mut self.window, node - TAG_LEN, red);
    }
}

/// Sets the link at `at`. The target is a multiple of 16, or none.
pub fn set_link(window: &mut Window, at: u64, to: Option<u64>)
    requires aligned { at % 8 ≡ 0 }
    requires in_bounds { at + 8 ≤ length window.old.bytes }
    requires target { IfSome to (λ target. target % 16 ≡ 0) }
    ensures link_target { link_at (bytes_of window.new.bytes) at ≡ to }
    ensures len { length window.new.bytes ≡ length window.old.bytes }
    ensures place { SameSurroundings window.old window.new }
    ensures frame { SameBytesExcept (bytes_of window.old.bytes) (bytes_of window.new.bytes) at 8 }
{
    match to {
        Some(target) => store(window, at, target),
        None => store_null(window, at),
    }
}

/// Makes a tree of the one gap of a window, or an empty tree if there is no gap.
pub fn plant_first(window: &mut Window)
    requires layout { EncodesTiles window.old (laid (length window.old.bytes)) }
    ensures live { EncodesLiveSet current window.new.bytes (no_blocks (length window.old.bytes)) }
    ensures links { AllByRecursion (HasNullLinks current (bytes_of window.new.bytes))
        (gaps (no_blocks (length window.old.bytes))) }
    ensures place { SameSurroundings window.old window.new }
    ensures size { length window.new.bytes ≡ length window.old.bytes }
    ensures front { SameBytes (bytes_of window.old.bytes) (bytes_of window.new.bytes) 0 24 }
    ensures after { SameBytes (bytes_of window.old.bytes) (bytes_of window.new.bytes) 32 144 }
    ensures frame { SameBytes (bytes_of window.old.bytes) (bytes_of window.new.bytes) 160 (length window.old.bytes) }
{
    if window.size() > FIRST_GAP {
        set_link(window, FIRST_GAP, None);
        set_link(window, FIRST_GAP + RIGHT_LINK, None);
        set_link(window, FREE_TREE_ROOT, Some(FIRST_GAP));
    } else {
        set_link(window, FREE_TREE_ROOT, None);
    }
}
