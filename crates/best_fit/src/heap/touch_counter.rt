//! Access of a heap's calls to its tiles and to the tree of its gaps. It counts each touch.
ghost use Rattle.std.specs.Prelude.{◌≡◌, ◌+◌, ◌*◌, ◌^◌, ◌<◌, ◌≤◌, true, Some, None, IfSome, List};
ghost use Rattle.std.specs.Prelude.{◌∷◌, ◌++◌, length, filter, is_some, option_map, false};
ghost use Rattle.raw_region.specs.Memory.{cut_at, whole};
ghost use Rattle.block_tags.specs.declared.tile.Tile.{Tile as ATile};
ghost use Rattle.block_tags.specs.Lists.{joined_at, last_in, next_in, previous_in, split_at, tile_in};
ghost use Rattle.block_tags.specs.Lists.{with_red_at, with_use_at};
ghost use Rattle.block_tags.specs.Windows.{CanAppend, CanSplit, HasFreeLast, HasFreeNext, HasTileAt};
ghost use Rattle.block_tags.specs.Windows.{IsTiledWindow, CanTakeUse, MayHaveColour, EncodesTiles};
ghost use Rattle.link_tree.specs.Tree.{bits};
ghost use Rattle.link_tree.specs.Nodes.{first_not_before, is_in};
ghost use Rattle.link_tree.specs.Searching.{path_length};
ghost use Rattle.best_fit.specs.Extents.{Gap};
ghost use Rattle.best_fit.specs.Fit.{least};
ghost use Rattle.best_fit.specs.FreeTree.{payloads, sorted_gaps};
ghost use Rattle.best_fit.specs.GapNodes.{gaps_in, is_gap_node, kept_of, own_probe, stands_before};
ghost use Rattle.best_fit.specs.GapTrees.{HasGapTree, LacksGap, CanBeginRemoval, ChangesGapTree, is_long, node_of};
ghost use Rattle.best_fit.specs.GapTrees.{root_of_gaps};
ghost use Rattle.best_fit.specs.Touches.{ReadsOnce, TouchesMore, TouchesTimes, TouchesSome};
ghost use Rattle.best_fit.specs.Tiling.{AppendsFree, ChangesTags, DropsLast};

use crate::heap::nodes::{FREE_TREE_ROOT, GapProbe, GapTree, RIGHT_LINK, set_link};
use block_tags::{Role, TAG_LEN, Tile};
use link_tree::{RemovePoint, find_remove_point, insert, remove_at};
use offset_link::load;

/// The gaps of a heap's window, and the number of touches: steps of their tree, and calls on one tile.
#[derive(Drop)]
pub struct TouchCounter<'a> {
    gaps: &'a mut GapTree,
    count: u64,
}

impl<'a> TouchCounter<'a> {
    /// Makes a counter of touches with the value 0.
    pub fn new(gaps: &'a mut GapTree) -> TouchCounter<'a>
        ensures same_borrow { result.gaps.ghost_name ≡ gaps.entry.ghost_name }
        ensures gaps { result.gaps.now ≡ gaps.old }
        ensures count { result.count ≡ 0 }
    {
        TouchCounter { gaps, count: 0 }
    }

    /// Returns the number of touches.
    pub fn count(&self) -> u64
        ensures { result ≡ self.now.count }
    {
        self.count
    }

    /// Removes the best fit for `wanted` bytes from the tree, and returns its payload: the shortest gap that is long
    /// enough, and of several with that length the one with the lowest offset. Without such a gap, nothing changes.
    pub fn take_best_fit(&mut self, wanted: u64) -> Option<u64>
        requires tree { (hs : List Gap) × HasGapTree self.old.gaps.now.window hs }
        requires no_overflow { self.old.count < 2 ^ 63 }
        ensures first { (hs : List Gap) → HasGapTree self.old.gaps.now.window hs
            → result ≡ option_map node_of (least (filter (is_long wanted) hs)) }
        ensures tree { (xs : List Gap) (g : Gap) (ys : List Gap) → result ≡ Some (node_of g)
            → HasGapTree self.old.gaps.now.window (xs ++ g ∷ ys) → HasGapTree self.new.gaps.now.window (xs ++ ys) }
        ensures frame { ChangesGapTree self.old.gaps.now.window self.new.gaps.now.window }
        ensures unchanged { result ≡ None → self.new.gaps.now ≡ self.old.gaps.now }
        ensures steps_lower { TouchesMore self.old self.new }
        ensures progress { is_some result ≡ true → self.old.count < self.new.count }
        ensures steps { (hs : List Gap) → HasGapTree self.old.gaps.now.window hs
            → self.new.count ≤ self.old.count + 32 * bits (length hs + 1) + 32 }
    {
        let root = load(&self.gaps.window, FREE_TREE_ROOT);
        let sought = GapProbe {
            len: wanted,
            from: 0,
        };
        let best = way_to(&*self.gaps, root, &sought);
        self.count += best.steps;
        let node = best.node?;
        self.take_out_at(root, best.exit, node);
        Some(node)
    }

    /// Removes a gap from the tree.
    #[inline(always)]
    pub fn unlink_gap(&mut self, node: u64)
        requires tree { (hs : List Gap) × HasGapTree self.old.gaps.now.window hs × (is_in node (payloads hs) ≡ true) }
        requires no_overflow { self.old.count < 2 ^ 63 }
        ensures tree { (xs : List Gap) (g : Gap) (ys : List Gap) → node ≡ node_of g
            → HasGapTree self.old.gaps.now.window (xs ++ g ∷ ys) → HasGapTree self.new.gaps.now.window (xs ++ ys) }
        ensures frame { ChangesGapTree self.old.gaps.now.window self.new.gaps.now.window }
        ensures steps_lower { TouchesSome self.old self.new }
        ensures steps { (hs : List Gap) → HasGapTree self.old.gaps.now.window hs
            → self.new.count ≤ self.old.count + 32 * bits (length hs + 1) + 33 }
    {
        let root = load(&self.gaps.window, FREE_TREE_ROOT);
        // The gap is the root, as the only gap is, so no search is needed.
        if root == Some(node) {
            self.take_out_at(root, None, node);
        } else {
            self.take_out_below(root, node);
        }
    }

    /// Removes a gap from the tree after a search for it.
    #[inline(never)]
    fn take_out_below(&mut self, root: Option<u64>, node: u64)
        requires root { root ≡ root_of_gaps self.old.gaps.now.window }
        requires tree { (hs : List Gap) × HasGapTree self.old.gaps.now.window hs × (is_in node (payloads hs) ≡ true) }
        requires no_overflow { self.old.count < 2 ^ 63 }
        ensures tree { (xs : List Gap) (g : Gap) (ys : List Gap) → node ≡ node_of g
            → HasGapTree self.old.gaps.now.window (xs ++ g ∷ ys) → HasGapTree self.new.gaps.now.window (xs ++ ys) }
        ensures frame { ChangesGapTree self.old.gaps.now.window self.new.gaps.now.window }
        ensures steps_lower { TouchesSome self.old self.new }
        ensures steps { (hs : List Gap) → HasGapTree self.old.gaps.now.window hs
            → self.new.count ≤ self.old.count + 32 * bits (length hs + 1) + 33 }
    {
        let sought = probe_of(&*self.gaps, node);
        let way = way_to(&*self.gaps, root, &sought);
        // One more than the search, for reading the gap's own tag.
        self.count += way.steps + 1;
        self.take_out_at(root, way.exit, node);
    }

    /// Removes a gap from the tree, beginning at the root or at the exit that a search found.
    #[inline(always)]
    fn take_out_at(&mut self, root: Option<u64>, exit: Option<u64>, node: u64)
        requires root { root ≡ root_of_gaps self.old.gaps.now.window }
        requires tree { (hs : List Gap) × HasGapTree self.old.gaps.now.window hs × (is_in node (payloads hs) ≡ true) }
        requires exit { CanBeginRemoval self.old.gaps.now.window node exit }
        requires no_overflow { self.old.count + 2 ^ 12 < 2 ^ 64 }
        ensures tree { (xs : List Gap) (g : Gap) (ys : List Gap) → node ≡ node_of g
            → HasGapTree self.old.gaps.now.window (xs ++ g ∷ ys) → HasGapTree self.new.gaps.now.window (xs ++ ys) }
        ensures frame { ChangesGapTree self.old.gaps.now.window self.new.gaps.now.window }
        ensures steps_lower { TouchesSome self.old self.new }
        ensures steps { (hs : List Gap) → HasGapTree self.old.gaps.now.window hs
            → self.new.count ≤ self.old.count + 30 * bits (length hs + 1) + 32 }
    {
        let changed = remove_at(self.gaps, root, exit, node);
        self.count += changed.steps;
        set_link(&mut self.gaps.window, FREE_TREE_ROOT, changed.root);
    }

    /// Inserts a gap into the tree, which contains all other gaps. The gap's links can have any value.
    pub fn link_gap(&mut self, node: u64)
        requires tree { (xs : List Gap) × (g : Gap) × (ys : List Gap) × (node ≡ node_of g)
            × LacksGap self.old.gaps.now.window xs g ys }
        requires no_overflow { self.old.count < 2 ^ 63 }
        ensures tree { (xs : List Gap) (g : Gap) (ys : List Gap) → node ≡ node_of g
            → LacksGap self.old.gaps.now.window xs g ys → HasGapTree self.new.gaps.now.window (xs ++ g ∷ ys) }
        ensures frame { ChangesGapTree self.old.gaps.now.window self.new.gaps.now.window }
        ensures steps_lower { TouchesSome self.old self.new }
        ensures steps { (xs : List Gap) (g : Gap) (ys : List Gap) → node ≡ node_of g
            → LacksGap self.old.gaps.now.window xs g ys
            → self.new.count ≤ self.old.count + 32 * bits (length (xs ++ ys) + 1) + 33 }
    {
        self.count += 1;
        clear_links(self.gaps, node);
        let root = load(&self.gaps.window, FREE_TREE_ROOT);
        let changed = insert(self.gaps, root, node);
        self.count += changed.steps;
        set_link(&mut self.gaps.window, FREE_TREE_ROOT, changed.root);
    }

    /// Returns the tile that begins at the offset `at`.
    pub fn tile_at(&mut self, at: u64) -> Tile
        requires tile { HasTileAt self.old.gaps.now.window at }
        requires no_overflow { self.old.count + 1 < 2 ^ 64 }
        ensures tile { (ts : List ATile) → EncodesTiles self.old.gaps.now.window ts → tile_in ts at ≡ Some result }
        ensures steps_exact { ReadsOnce self.old self.new }
    {
        self.count += 1;
        block_tags::tile_at(&self.gaps.window, at)
    }

    /// Splits the tile at `at` after `len` bytes. The second part is free.
    pub fn split(&mut self, at: u64, len: u64)
        requires tile { CanSplit self.old.gaps.now.window at len }
        requires no_overflow { self.old.count + 1 < 2 ^ 64 }
        ensures tags { ChangesTags self.old.gaps.now.window self.new.gaps.now.window (split_at at len) }
        ensures steps_exact { TouchesTimes self.old self.new 1 }
    {
        self.count += 1;
        block_tags::split(&mut self.gaps.window, at, len);
    }

    /// Returns the tile after the one at `at`.
    pub fn next(&mut self, at: u64) -> Option<Tile>
        requires tile { HasTileAt self.old.gaps.now.window at }
        requires no_overflow { self.old.count + 1 < 2 ^ 64 }
        ensures tile { (ts : List ATile) → EncodesTiles self.old.gaps.now.window ts → result ≡ next_in ts at }
        ensures steps_exact { ReadsOnce self.old self.new }
    {
        self.count += 1;
        block_tags::next(&self.gaps.window, at)
    }

    /// Returns the tile before the one at `at`.
    pub fn previous(&mut self, at: u64) -> Option<Tile>
        requires tile { HasTileAt self.old.gaps.now.window at }
        requires no_overflow { self.old.count + 1 < 2 ^ 64 }
        ensures tile { (ts : List ATile) → EncodesTiles self.old.gaps.now.window ts → result ≡ previous_in ts at }
        ensures steps_exact { ReadsOnce self.old self.new }
    {
        self.count += 1;
        block_tags::previous(&self.gaps.window, at)
    }

    /// Joins the tile at `at` with the free tile after it.
    pub fn merge_next(&mut self, at: u64)
        requires tile { HasFreeNext self.old.gaps.now.window at }
        requires no_overflow { self.old.count + 1 < 2 ^ 64 }
        ensures tags { ChangesTags self.old.gaps.now.window self.new.gaps.now.window (joined_at at) }
        ensures steps_exact { TouchesTimes self.old self.new 1 }
    {
        self.count += 1;
        block_tags::merge_next(&mut self.gaps.window, at);
    }

    /// Sets the use of the tile at `at`, or frees it.
    pub fn set_use(&mut self, at: u64, use_of: Option<Role>)
        requires tile { CanTakeUse self.old.gaps.now.window at use_of }
        requires no_overflow { self.old.count + 1 < 2 ^ 64 }
        ensures tags { ChangesTags self.old.gaps.now.window self.new.gaps.now.window (with_use_at at use_of) }
        ensures steps_exact { TouchesTimes self.old self.new 1 }
    {
        self.count += 1;
        block_tags::set_use(&mut self.gaps.window, at, use_of);
    }

    /// Sets the colour of the tile at `at` to black.
    pub fn blacken(&mut self, at: u64)
        requires tile { MayHaveColour self.old.gaps.now.window at false }
        requires no_overflow { self.old.count + 1 < 2 ^ 64 }
        ensures tags { ChangesTags self.old.gaps.now.window self.new.gaps.now.window (with_red_at at false) }
        ensures steps_exact { TouchesTimes self.old self.new 1 }
    {
        self.count += 1;
        block_tags::set_red(&mut self.gaps.window, at, false);
    }

    /// Returns the number of bytes in the window.
    pub fn size(&self) -> u64
        ensures { result ≡ length self.now.gaps.now.window.bytes }
    {
        self.gaps.window.size()
    }

    /// Moves the window's end to `size` bytes after its base. It touches no tile.
    pub fn resize(&mut self, size: u64)
        requires in_bounds { length self.old.gaps.now.window.before + size ≤ length (whole self.old.gaps.now.window) }
        ensures cut { self.new.gaps.now.window
            ≡ cut_at (whole self.old.gaps.now.window) (length self.old.gaps.now.window.before) size }
        ensures unchanged { TouchesTimes self.old self.new 0 }
    {
        self.gaps.window.resize(size);
    }

    /// Adds a free tile to a window whose tags fill its first `old_size` bytes. The tile reaches to the window's end.
    pub fn append_free(&mut self, old_size: u64)
        requires fits { CanAppend self.old.gaps.now.window old_size }
        requires no_overflow { self.old.count + 1 < 2 ^ 64 }
        ensures tags { AppendsFree self.old.gaps.now.window self.new.gaps.now.window old_size }
        ensures steps_exact { TouchesTimes self.old self.new 1 }
    {
        self.count += 1;
        block_tags::append_free(&mut self.gaps.window, old_size);
    }

    /// Returns the last tile.
    pub fn last(&mut self) -> Option<Tile>
        requires tiles { IsTiledWindow self.old.gaps.now.window }
        requires no_overflow { self.old.count + 1 < 2 ^ 64 }
        ensures tile { (ts : List ATile) → EncodesTiles self.old.gaps.now.window ts → result ≡ last_in ts }
        ensures steps_exact { ReadsOnce self.old self.new }
    {
        self.count += 1;
        block_tags::last(&self.gaps.window)
    }

    /// Removes the last tile, which is free, and returns the number of bytes that the window needs for the others.
    pub fn drop_last(&mut self) -> u64
        requires tile { HasFreeLast self.old.gaps.now.window }
        requires no_overflow { self.old.count + 1 < 2 ^ 64 }
        ensures tags { DropsLast self.old.gaps.now.window self.new.gaps.now.window result }
        ensures steps_exact { TouchesTimes self.old self.new 1 }
    {
        self.count += 1;
        block_tags::drop_last(&mut self.gaps.window)
    }
}

/// Sets both links of a gap to null.
fn clear_links(gaps: &mut GapTree, node: u64)
    requires gap { (xs : List Gap) × (g : Gap) × (ys : List Gap) × (node ≡ node_of g)
        × LacksGap gaps.old.window xs g ys }
    ensures tree { (xs : List Gap) (g : Gap) (ys : List Gap) → node ≡ node_of g → LacksGap gaps.old.window xs g ys
        → HasGapTree gaps.new.window (xs ++ ys) }
    ensures node { is_gap_node gaps.new.window node ≡ true }
    ensures unchanged { kept_of gaps.new.window ≡ kept_of gaps.old.window }
{
    set_link(&mut gaps.window, node, None);
    set_link(&mut gaps.window, node + RIGHT_LINK, None);
}

/// Returns the probe that finds this gap.
fn probe_of(gaps: &GapTree, node: u64) -> GapProbe
    requires { is_gap_node gaps.now.window node ≡ true }
    ensures { result ≡ own_probe (gaps_in gaps.now.window) node }
{
    let len = block_tags::tile_at(&gaps.window, node - TAG_LEN).len;
    GapProbe { len, from: node }
}

/// Returns the first gap of the tree that does not precede the probe, and the node at which its removal begins.
fn way_to(gaps: &GapTree, root: Option<u64>, sought: &GapProbe) -> RemovePoint
    requires root { root ≡ root_of_gaps gaps.now.window }
    requires tree { (hs : List Gap) × HasGapTree gaps.now.window hs }
    ensures first { (hs : List Gap) → HasGapTree gaps.now.window hs → result.node
        ≡ first_not_before (stands_before (gaps_in gaps.now.window) sought.now) (payloads (sorted_gaps hs)) }
    ensures exit { IfSome result.node (λ n. CanBeginRemoval gaps.now.window n result.exit) }
    ensures steps { (hs : List Gap) → HasGapTree gaps.now.window hs → result.steps ≤ 2 * bits (length hs + 1) }
    ensures steps_exact { (hs : List Gap) (h : HasGapTree gaps.now.window hs)
        → result.steps ≡ path_length (stands_before (gaps_in gaps.now.window) sought.now) h.tree.tree }
{
    find_remove_point(gaps, root, sought)
}
