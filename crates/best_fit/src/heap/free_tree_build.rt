//! Builds the tree of gaps over a window with good tags.
ghost use Rattle.std.specs.Prelude.{◌≡◌, ◌+◌, ◌%◌, ◌≤◌, IsTrue, List, [], ◌∷◌, ◌++◌, length, None};
ghost use Rattle.raw_region.specs.Format.{current};
ghost use Rattle.raw_region.specs.Memory.{SameBytesExcept, SameSurroundings, bytes_of};
ghost use Rattle.block_tags.specs.Format.{is_legal_size};
ghost use Rattle.block_tags.specs.Tiles.{has_tags};
ghost use Rattle.offset_link.specs.Link.{link_at};
ghost use Rattle.best_fit.specs.Extents.{Gap};
ghost use Rattle.best_fit.specs.GapNodes.{gaps_in};
ghost use Rattle.best_fit.specs.GapTrees.{HasGapTree, ChangesGapTree, node_of};
ghost use Rattle.best_fit.specs.Rebuilding.{IsNextGap, RebuildsFreeTree};

use crate::heap::Heap;
use crate::heap::nodes::{FREE_TREE_ROOT, GapTree, RIGHT_LINK, set_link};
use block_tags::{TAG_LEN, first, next};
use link_tree::insert;
use offset_link::load;
use raw_region::{Window, bytes_are_octets};

impl Heap {
    /// Makes a heap of a window that has blocks and gaps but no tree of the gaps. It writes the tree into the gaps, and
    /// the link to it into the word at 24. The window has a legal size and good tags, and no gap is red. It overwrites
    /// the word at 24 and the links of the gaps; all else stays. There are no hints until `insert_hint` adds them.
    pub fn rebuild(window: Window) -> Heap
        requires size { IsTrue (is_legal_size (length window.bytes)) }
        requires tags { IsTrue (has_tags 0 (bytes_of window.bytes) (length window.bytes)) }
        ensures { RebuildsFreeTree current window result }
    {
        let mut gaps = GapTree { window };
        bytes_are_octets(gaps.window.bytes(0, gaps.window.size()));
        clear_gaps(&mut gaps.window);
        plant_gaps(&mut gaps);
        bytes_are_octets(gaps.window.bytes(0, gaps.window.size()));
        let GapTree { window } = gaps;
        Heap::adopt_without_hints(window)
    }
}

/// Sets both links of each gap to null, and empties the tree.
fn clear_gaps(window: &mut Window)
    requires size { IsTrue (is_legal_size (length window.old.bytes)) }
    requires tags { IsTrue (has_tags current (bytes_of window.old.bytes) (length window.old.bytes)) }
    ensures tree { HasGapTree window.new [] }
    ensures frame { ChangesGapTree window.old window.new }
{
    let mut ahead = first(window);
    'tiles: while let Some(tile) = ahead {
        if tile.use_of.is_none() {
            clear(window, tile.offset + TAG_LEN);
        }
        ahead = next(window, tile.offset);
    }
    set_link(window, FREE_TREE_ROOT, None);
}

/// Sets the link at `node` and the next one to null.
fn clear(window: &mut Window, node: u64)
    requires aligned { node % 8 ≡ 0 }
    requires max_size { node ≤ 1073741824 }
    requires in_bounds { node + 16 ≤ length window.old.bytes }
    ensures remainder { link_at (bytes_of window.new.bytes) node ≡ None }
    ensures right { link_at (bytes_of window.new.bytes) (node + 8) ≡ None }
    ensures size { length window.new.bytes ≡ length window.old.bytes }
    ensures place { SameSurroundings window.old window.new }
    ensures frame { SameBytesExcept (bytes_of window.old.bytes) (bytes_of window.new.bytes) node 16 }
{
    set_link(window, node, None);
    set_link(window, node + RIGHT_LINK, None);
}

/// Inserts all gaps into the empty tree, one after the other.
fn plant_gaps(gaps: &mut GapTree)
    requires { HasGapTree gaps.old.window [] }
    ensures tree { HasGapTree gaps.new.window (gaps_in gaps.new.window) }
    ensures frame { ChangesGapTree gaps.old.window gaps.new.window }
{
    let mut ahead = first(&gaps.window);
    'tiles: while let Some(tile) = ahead {
        if tile.use_of.is_none() {
            plant(gaps, tile.offset + TAG_LEN);
        }
        ahead = next(&gaps.window, tile.offset);
    }
}

/// Inserts the first gap that follows all gaps of the tree.
fn plant(gaps: &mut GapTree, node: u64)
    requires { (xs : List Gap) × (g : Gap) × (node ≡ node_of g) × IsNextGap gaps.old.window xs g }
    ensures tree { (xs : List Gap) (g : Gap) → node ≡ node_of g → IsNextGap gaps.old.window xs g
        → HasGapTree gaps.new.window (xs ++ g ∷ []) }
    ensures frame { ChangesGapTree gaps.old.window gaps.new.window }
{
    let root = load(&gaps.window, FREE_TREE_ROOT);
    let changed = insert(gaps, root, node);
    set_link(&mut gaps.window, FREE_TREE_ROOT, changed.root);
}
