//! Searches for the neighbours of a probe, and for the last node.

ghost use Rattle.std.specs.Prelude.{◌≡◌, ℕ, ◌+◌, ◌*◌, ◌≤◌, Bool, true, false, Option, Some, None, List, length};
ghost use Rattle.std.specs.Prelude.{if◌then◌else◌};
ghost use Rattle.std.specs.List.{last_or};
ghost use Rattle.link_tree.specs.Tree.{Tree, IsSearchTree, nodes_of, bits};
ghost use Rattle.link_tree.specs.Nodes.{leads, first_not_before, last_before};
ghost use Rattle.link_tree.specs.Searching.{path_length};

use crate::cursor::{CountedNodes, NodeCursor};
use crate::descending::{PathFold, descend};
use crate::nodes::Nodes;
use crate::search_adaptors::SearchToEnd;

/// The result of a search: the node, if it was found, and the number of steps.
#[derive(Clone, Copy, Debug, PartialEq, Eq)]
pub struct SearchResult {
    /// The node; none if the tree has no such node.
    pub node: Option<u64>,
    /// The number of nodes visited.
    pub steps: u64,
}

/// The last node on the path that does not precede the probe. At the end of the path it is the tree's first such node.
#[derive(Clone, Copy)]
struct First {
    node: Option<u64>,
}

impl PathFold for First {
    ghost passed = { λ folded n red before. record { node = if before then folded.node else Some n } };

    fn fold_node<N: Nodes>(
        self,
        _nodes: &CountedNodes<N>,
        _visits: &mut NodeCursor,
        node: u64,
        before: bool,
    ) -> First {
        if before {
            return self;
        }
        First { node: Some(node) }
    }
}

/// The last node on the path that precedes the probe. At the end of the path it is the tree's last such node.
#[derive(Clone, Copy)]
struct Last {
    node: Option<u64>,
}

impl PathFold for Last {
    ghost passed = { λ folded n red before. record { node = if before then Some n else folded.node } };

    fn fold_node<N: Nodes>(
        self,
        _nodes: &CountedNodes<N>,
        _visits: &mut NodeCursor,
        node: u64,
        before: bool,
    ) -> Last {
        if before {
            return Last { node: Some(node) };
        }
        self
    }
}

/// Returns the first node of the tree that does not precede the probe.
///
/// A step is a visit of a node, with all reads of its fields. The search takes one step for each node of its path from
/// the root, so it takes at most as many steps as the tree is high.
pub fn find_first_not_before<N: Nodes>(
    nodes: &N,
    root: Option<u64>,
    probe: &N::Probe,
) -> SearchResult
    requires root { leads (N.is_node nodes.now) root ≡ true }
    requires tree { (t : Tree) × IsSearchTree (N.order nodes.now) (N.cells nodes.now) root t }
    // None if every node precedes the probe.
    ensures first { (t : Tree) → IsSearchTree (N.order nodes.now) (N.cells nodes.now) root t
        → result.node ≡ first_not_before (N.before nodes.now probe.now) (nodes_of t) }
    // `bits` counts binary digits: at most 2 log2 (n + 1) + 2 steps in a tree of n nodes.
    ensures steps { (t : Tree) → IsSearchTree (N.order nodes.now) (N.cells nodes.now) root t
        → result.steps ≤ 2 * bits (length (nodes_of t) + 1) }
    ensures steps_exact { (t : Tree) → IsSearchTree (N.order nodes.now) (N.cells nodes.now) root t
        → result.steps ≡ path_length (N.before nodes.now probe.now) t }
{
    let way = descend(nodes, root, probe, First { node: None });
    SearchResult {
        node: way.folded.node,
        steps: way.steps,
    }
}

/// Returns the last node of the tree that precedes the probe.
///
/// It takes the path and the number of steps of `find_first_not_before`.
pub fn find_last_before<N: Nodes>(nodes: &N, root: Option<u64>, probe: &N::Probe) -> SearchResult
    requires root { leads (N.is_node nodes.now) root ≡ true }
    requires tree { (t : Tree) × IsSearchTree (N.order nodes.now) (N.cells nodes.now) root t }
    // None if no node precedes the probe.
    ensures last { (t : Tree) → IsSearchTree (N.order nodes.now) (N.cells nodes.now) root t
        → result.node ≡ last_before (N.before nodes.now probe.now) (nodes_of t) }
    ensures steps { (t : Tree) → IsSearchTree (N.order nodes.now) (N.cells nodes.now) root t
        → result.steps ≤ 2 * bits (length (nodes_of t) + 1) }
    ensures steps_exact { (t : Tree) → IsSearchTree (N.order nodes.now) (N.cells nodes.now) root t
        → result.steps ≡ path_length (N.before nodes.now probe.now) t }
{
    let way = descend(nodes, root, probe, Last { node: None });
    SearchResult {
        node: way.folded.node,
        steps: way.steps,
    }
}

/// Returns the last node of the tree.
///
/// It takes one step for each node of the path from the root to the right.
pub fn find_last<N: Nodes>(nodes: &N, root: Option<u64>) -> SearchResult
    requires root { leads (N.is_node nodes.now) root ≡ true }
    requires tree { (t : Tree) × IsSearchTree (N.order nodes.now) (N.cells nodes.now) root t }
    // None if the tree is empty.
    ensures last { (t : Tree) → IsSearchTree (N.order nodes.now) (N.cells nodes.now) root t
        → result.node ≡ last_or None (nodes_of t) }
    ensures steps { (t : Tree) → IsSearchTree (N.order nodes.now) (N.cells nodes.now) root t
        → result.steps ≤ 2 * bits (length (nodes_of t) + 1) }
    ensures steps_exact { (t : Tree) → IsSearchTree (N.order nodes.now) (N.cells nodes.now) root t
        → result.steps ≡ path_length (λ n. true) t }
{
    find_last_before(&SearchToEnd { nodes }, root, &())
}
