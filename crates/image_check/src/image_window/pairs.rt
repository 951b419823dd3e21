//! Checks the pairs of a map as the nodes of an ordered tree, and counts the visits of the check.
ghost use Rattle.std.specs.Prelude.{◌≡◌, ◌↔◌, ◌+◌, ◌*◌, ◌≤◌, ◌<◌, ◌%◌, ◌^◌, true, false, ℕ, Some, IsTrue, length};
ghost use Rattle.raw_region.specs.Memory.{bytes_of, read};
ghost use Rattle.offset_link.specs.Link.{link_at};
ghost use Rattle.link_tree.specs.Nodes.{leads};
ghost use Rattle.link_tree.specs.Tree.{Tree, IsSearchTree, nodes_of};
ghost use Rattle.block_tags.specs.Format.{is_legal_size};
ghost use Rattle.seg_types.specs.Kinds.{size_of, is_spelling as is_spelling_of};
ghost use Rattle.image_check.specs.FreeNodes.{is_target};
ghost use Rattle.image_check.specs.MapNodes.{is_node_block, is_pair, kept_link, key_before, pair_cells, pair_len};
ghost use Rattle.image_check.specs.MapLaws.{keys_irreflexive, keys_transitive, pairs_finite};
ghost use Rattle.image_check.specs.MapLaws.{pairs_left, pairs_right};
ghost use Rattle.image_check.specs.Owners.{block_at};
ghost use Rattle.image_check.specs.Containers.{rooted_weight};

use super::{BlockTable, ImageWindow, Value};
use crate::checking::VisitCounter;
use crate::owners::is_same;
use best_fit::RIGHT_LINK;
use block_tags::{Role, TAG_LEN};
use link_tree::{CheckedTree, Nodes, check};
use seg_types::ScalarKind;

/// The length of the two links of a pair. The key of the pair follows them.
const LINKS: u64 = 16;

/// The pairs of the map whose root link is at `root`, as the nodes of a tree, ordered by key.
///
/// A pair is a node of the map with room for a key and a value, both of them valid. `child` reads a link to anything
/// but a pair as a link to the node that has the link. No ordered tree has such a link, so the check fails.
#[derive(Clone, Copy)]
struct CheckedPairTree<'a> {
    window: &'a ImageWindow,
    blocks: &'a BlockTable,
    near: usize,
    root: u64,
    key: ScalarKind,
    value: ScalarKind,
}

/// Returns true if the bytes at `at` are a value of the kind.
fn is_spelled(window: &ImageWindow, kind: ScalarKind, at: u64) -> bool
    requires { at + size_of kind ≤ length window.now.bytes }
    ensures { result ≡ is_spelling_of kind (read (bytes_of window.now.bytes) at (size_of kind)) }
{
    kind.is_spelling(window.bytes(at, kind.size()))
}

/// Returns true if a payload can begin at the offset `node`.
#[tactic(auto, unfolding(crate::specs::FreeNodes::is_target))]
fn is_target_in(window: &ImageWindow, node: u64) -> bool
    requires { IsTrue (is_legal_size (length window.now.bytes)) }
    ensures { result ≡ is_target window.now node }
{
    if node % 16 != 0 || node < 144 {
        return false;
    }
    window.in_range(node, 32)
}

impl CheckedPairTree<'_> {
    /// Returns true if the payload is a node of this map, with room for a key and a value.
    fn has_node(&self, node: u64) -> bool
        ensures { result ≡ is_node_block self.now.root (pair_len self.now.key self.now.value)
            (block_at self.now.blocks.now.entries node) }
    {
        let Some(block) = self.blocks.get(self.near, node) else {
            return false;
        };
        if !is_same(Role::Node, block.role) {
            return false;
        }
        if (block.len as u64) < LINKS + self.key.size() + self.value.size() + TAG_LEN {
            return false;
        }
        match block.owner {
            Some(owner) => owner.root as u64 == self.root,
            None => false,
        }
    }

    /// Returns true if the node is a pair of the map.
    #[tactic(auto, unfolding(crate::specs::MapNodes::is_pair))]
    fn is_pair(&self, node: u64) -> bool
        requires { IsTrue (is_legal_size (length self.now.window.now.bytes)) }
        ensures { result ≡ is_pair self.now.window.now self.now.blocks.now.entries self.now.root self.now.key
            self.now.value node }
    {
        if !is_target_in(self.window, node) || !self.has_node(node) {
            return false;
        }
        is_spelled(self.window, self.key, node + LINKS)
            && is_spelled(self.window, self.value, node + LINKS + self.key.size())
    }

    /// Returns the target of the link at `at` of a node, or the node itself if the target is no pair.
    fn child(&self, node: u64, at: u64) -> Option<u64>
        requires size { IsTrue (is_legal_size (length self.now.window.now.bytes)) }
        requires aligned { at % 8 ≡ 0 }
        requires in_bounds { at + 8 ≤ length self.now.window.now.bytes }
        ensures { result ≡ kept_link (is_pair self.now.window.now self.now.blocks.now.entries self.now.root
            self.now.key self.now.value) node (link_at (bytes_of self.now.window.now.bytes) at) }
    {
        match self.window.load(at) {
            Some(target) if self.is_pair(target) => Some(target),
            Some(_) => Some(node),
            None => None,
        }
    }

    /// Returns true if the link is null or leads to a pair.
    fn has_at(&self, link: Option<u64>) -> bool
        requires { IsTrue (is_legal_size (length self.now.window.now.bytes)) }
        ensures { result ≡ leads (is_pair self.now.window.now self.now.blocks.now.entries self.now.root self.now.key
            self.now.value) link }
    {
        match link {
            Some(target) => self.is_pair(target),
            None => true,
        }
    }
}

impl Nodes for CheckedPairTree<'_> {
    type Probe = ();

    ghost cells = { λ s. pair_cells s.window.now s.blocks.now.entries s.root s.key s.value };

    ghost is_node = { λ s. is_pair s.window.now s.blocks.now.entries s.root s.key s.value };

    ghost order = { λ s. key_before (bytes_of s.window.now.bytes) s.key };

    ghost before = { λ s sought n. false };

    ghost kept = { λ s. tt };

    fn left(&self, node: u64) -> Option<u64> {
        self.child(node, node)
    }

    fn right(&self, node: u64) -> Option<u64> {
        self.child(node, node + RIGHT_LINK)
    }

    fn red(&self, node: u64) -> bool {
        self.window.read_u64(node - 8) / 2 % 2 == 1
    }

    fn precedes(&self, a: u64, b: u64) -> bool {
        let len = self.key.size();
        self.key.precedes(
            self.window.bytes(a + LINKS, len),
            self.window.bytes(b + LINKS, len),
        )
    }

    fn before_probe(&self, _node: u64, _probe: &()) -> bool {
        false
    }

    ghost finite = { λ s. pairs_finite s.window.now s.blocks.now.entries s.root s.key s.value };

    ghost left_closed = { λ s. pairs_left s.window.now s.blocks.now.entries s.root s.key s.value };

    ghost right_closed = { λ s. pairs_right s.window.now s.blocks.now.entries s.root s.key s.value };

    ghost irreflexive = { λ s. keys_irreflexive (bytes_of s.window.now.bytes) s.key };

    ghost transitive = { λ s. keys_transitive (bytes_of s.window.now.bytes) s.key };

    ghost agrees = { λ s sought a b x y. y };
}

/// Checks that the pairs of the map at `map` are an ordered tree, and returns how many pairs and steps there were.
///
/// Counts two visits for the root, a look-up and a read. Counts five visits for each step: one to read the node, and a
/// look-up and a read for each of the two nodes to which it links.
pub(crate) fn check_pairs(
    window: &ImageWindow,
    blocks: &BlockTable,
    near: usize,
    visits: &mut VisitCounter,
    key: ScalarKind,
    value: ScalarKind,
    map: Value,
) -> CheckedTree
    requires size { IsTrue (is_legal_size (length window.now.bytes)) }
    requires aligned { map.at % 8 ≡ 0 }
    requires in_bounds { map.at + 8 ≤ length window.now.bytes }
    requires max_count { rooted_weight map.at blocks.now.entries ≤ 2 ^ 40 }
    ensures count { (n : ℕ) → (result.nodes ≡ Some n)
        ↔ ((leads (is_pair window.now blocks.now.entries map.at key value)
        (link_at (bytes_of window.now.bytes) map.at) ≡ true)
        × (t : Tree) × IsSearchTree (key_before (bytes_of window.now.bytes) key)
        (pair_cells window.now blocks.now.entries map.at key value) (link_at (bytes_of window.now.bytes) map.at) t
        × (length (nodes_of t) ≡ n)) }
    ensures steps { 5 * result.steps ≤ 25 + rooted_weight map.at blocks.now.entries }
    ensures visits { visits.new ≡ visits.old + 2 + 5 * result.steps }
{
    let pairs = CheckedPairTree {
        window,
        blocks,
        near,
        root: map.at,
        key,
        value,
    };
    visits.add(2);
    let root = window.load(map.at);
    if !pairs.has_at(root) {
        let nodes = None;
        return CheckedTree { nodes, steps: 0 };
    }
    let checked = check(&pairs, root);
    visits.add(5 * checked.steps);
    checked
}
