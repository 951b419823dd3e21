//! The offsets of an image at which a payload can begin, as the nodes of the free tree, and calls that visit them and
//! count their steps.
ghost use Rattle.std.specs.Prelude.{◌≡◌, ◌↔◌, ◌+◌, ◌-◌, ◌*◌, ◌%◌, ◌≤◌, true, ℕ, List, Some, length};
ghost use Rattle.raw_region.specs.Memory.{bytes_of};
ghost use Rattle.offset_link.specs.Link.{link_at};
ghost use Rattle.link_tree.specs.Checking.{IsLinkClosed};
ghost use Rattle.link_tree.specs.Nodes.{first_not_before, is_in, leads};
ghost use Rattle.link_tree.specs.Tree.{Tree, IsSearchTree, bits, nodes_of};
ghost use Rattle.image_check.specs.FreeNodes.{has_good_links, is_before, is_target, len_at as len_there, target_cells};
ghost use Rattle.image_check.specs.FreeNodes.{good_target, stands_before};
ghost use Rattle.image_check.specs.FreeLaws.{before_agrees, before_irreflexive, before_transitive, targets_finite};
ghost use Rattle.image_check.specs.FreeLaws.{targets_left, targets_right};

use super::ImageWindow;
use crate::checking::VisitCounter;
use best_fit::RIGHT_LINK;
use link_tree::{CheckedTree, Nodes, SearchResult, check, find_first_not_before};

/// The offsets of a window at which a payload can begin, as the nodes of a tree. A link that leads to no such offset is
/// read as null. A node precedes longer ones, and nodes of its length at greater offsets, by the lengths in the tags
/// before them.
#[derive(Clone, Copy)]
struct PayloadTree<'a> {
    window: &'a ImageWindow,
}

/// The target of a search in the tree: its length and its offset.
#[derive(Clone, Copy)]
pub(crate) struct TileProbe {
    pub(crate) len: u64,
    pub(crate) node: u64,
}

impl PayloadTree<'_> {
    /// Returns the length in the tag of a node.
    fn len_at(&self, node: u64) -> u64
        requires { is_target self.now.window.now node ≡ true }
        ensures { result ≡ len_there (bytes_of self.now.window.now.bytes) node }
    {
        self.window.read_u64(node - 8) / 16 * 16
    }
}

/// Returns the target of the link at `at`, or `None` if no payload can begin there.
fn target_at(window: &ImageWindow, at: u64) -> Option<u64>
    requires aligned { at % 8 ≡ 0 }
    requires in_bounds { at + 8 ≤ length window.now.bytes }
    ensures { result ≡ good_target (length window.now.bytes) (link_at (bytes_of window.now.bytes) at) }
{
    match window.load_checked(at) {
        Ok(target) => target,
        Err(_) => None,
    }
}

impl Nodes for PayloadTree<'_> {
    type Probe = TileProbe;

    ghost cells = { λ s. target_cells s.window.now };

    ghost is_node = { λ s. is_target s.window.now };

    ghost order = { λ s. stands_before (bytes_of s.window.now.bytes) };

    ghost before = { λ s sought. is_before (bytes_of s.window.now.bytes) sought.len sought.node };

    ghost kept = { λ s. tt };

    fn left(&self, node: u64) -> Option<u64> {
        target_at(self.window, node)
    }

    fn right(&self, node: u64) -> Option<u64> {
        target_at(self.window, node + RIGHT_LINK)
    }

    fn red(&self, node: u64) -> bool {
        self.window.read_u64(node - 8) / 2 % 2 == 1
    }

    fn precedes(&self, a: u64, b: u64) -> bool {
        let first = self.len_at(a);
        let second = self.len_at(b);
        first < second || (first == second && a < b)
    }

    fn before_probe(&self, node: u64, probe: &TileProbe) -> bool {
        let len = self.len_at(node);
        len < probe.len || (len == probe.len && node < probe.node)
    }

    ghost finite = { λ s. targets_finite s.window.now };

    ghost left_closed = { λ s. targets_left s.window.now };

    ghost right_closed = { λ s. targets_right s.window.now };

    ghost irreflexive = { λ s. before_irreflexive (bytes_of s.window.now.bytes) };

    ghost transitive = { λ s. before_transitive (bytes_of s.window.now.bytes) };

    ghost agrees = { λ s sought. before_agrees (bytes_of s.window.now.bytes) sought.len sought.node };
}

/// Returns the result of the check of the links below `root` as a tree. It takes one visit for each step.
pub(crate) fn check_targets(
    window: &ImageWindow,
    root: Option<u64>,
    visits: &mut VisitCounter,
) -> CheckedTree
    requires { leads (is_target window.now) root ≡ true }
    ensures count { (n : ℕ) → (result.nodes ≡ Some n)
        ↔ ((t : Tree) × IsSearchTree (stands_before (bytes_of window.now.bytes)) (target_cells window.now) root t
        × (length (nodes_of t) ≡ n)) }
    ensures steps { (ns : List ℕ) → IsLinkClosed (target_cells window.now) ns → leads (λ n. is_in n ns) root ≡ true
        → result.steps ≤ 5 * length ns + 5 }
    ensures visits { visits.new ≡ visits.old + result.steps }
{
    let checked = check(&PayloadTree { window }, root);
    visits.add(checked.steps);
    checked
}

/// Returns the first node of the tree that does not precede `sought`. It takes one visit for each step.
pub(crate) fn find_tile(
    window: &ImageWindow,
    root: Option<u64>,
    sought: TileProbe,
    visits: &mut VisitCounter,
) -> SearchResult
    requires root { leads (is_target window.now) root ≡ true }
    requires tree { (t : Tree) × IsSearchTree (stands_before (bytes_of window.now.bytes)) (target_cells window.now)
        root t }
    ensures first { (t : Tree) → IsSearchTree (stands_before (bytes_of window.now.bytes)) (target_cells window.now)
        root t
        → result.node ≡ first_not_before (is_before (bytes_of window.now.bytes) sought.len sought.node) (nodes_of t) }
    ensures steps { (t : Tree) → IsSearchTree (stands_before (bytes_of window.now.bytes)) (target_cells window.now)
        root t
        → result.steps ≤ 2 * bits (length (nodes_of t) + 1) }
    ensures visits { visits.new ≡ visits.old + result.steps }
{
    let found = find_first_not_before(&PayloadTree { window }, root, &sought);
    visits.add(found.steps);
    found
}

/// Returns true if each of a node's two links is null or leads to an offset at which a payload can begin. It takes one
/// visit.
pub(crate) fn has_good_links(window: &ImageWindow, node: u64, visits: &mut VisitCounter) -> bool
    requires { is_target window.now node ≡ true }
    ensures value { result ≡ has_good_links window.now node }
    ensures visits { visits.new ≡ visits.old + 1 }
{
    visits.visit();
    window.load_checked(node).is_ok() && window.load_checked(node + RIGHT_LINK).is_ok()
}
