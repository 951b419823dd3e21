//! Searches that also return the node at which a later insertion or removal begins.

ghost use Rattle.std.specs.Prelude.{◌≡◌, ℕ, ◌+◌, ◌*◌, ◌≤◌, Bool, true, false, Option, Some, None, List, length, IfSome};
ghost use Rattle.link_tree.specs.Tree.{Tree, IsSearchTree, nodes_of, bits};
ghost use Rattle.link_tree.specs.Nodes.{leads, first_not_before};
ghost use Rattle.link_tree.specs.Searching.{path_length};
ghost use Rattle.link_tree.specs.Ways.{EndsPath, insert_point_of, last_on, remove_point_of, passed, reached, followed};

use crate::cursor::{CountedNodes, NodeCursor, count_steps};
use crate::descending::{PathFold, descend};
use crate::nodes::Nodes;

/// The result of `find_entry`: where an insertion begins.
#[derive(Clone, Copy, Debug, PartialEq, Eq)]
pub struct EntryPoint {
    /// The node at which `insert_at` begins for a new node at the end of the path; none if it begins at the root.
    pub entry: Option<u64>,
    /// The number of nodes visited.
    pub steps: u64,
}

/// Where an insertion begins, as far as the search has come.
#[derive(Clone, Copy)]
struct Passed {
    /// The last node on the path, if it is black.
    above: Option<u64>,
    /// The lowest black node above `above` that has no red node after it on the path.
    entry: Option<u64>,
}

impl PathFold for Passed {
    ghost passed = { passed };

    fn fold_node<N: Nodes>(
        self,
        nodes: &CountedNodes<N>,
        visits: &mut NodeCursor,
        node: u64,
        _before: bool,
    ) -> Passed {
        if visits.red(nodes, node) {
            return Passed {
                above: None,
                entry: self.entry,
            };
        }
        Passed {
            above: Some(node),
            entry: self.above.or(self.entry),
        }
    }
}

/// The result of `find_path_end`: the node found, and the end of the path.
#[derive(Clone, Copy, Debug, PartialEq, Eq)]
pub struct PathEnd {
    /// The first node that does not precede the probe; none if every node precedes it.
    pub node: Option<u64>,
    /// The last node on the path; none if the tree is empty.
    pub last: Option<u64>,
    /// The number of nodes visited.
    pub steps: u64,
}

/// The node found and the last node on the path, as far as the search has come.
#[derive(Clone, Copy)]
struct Reached {
    /// The last node on the path that does not precede the probe.
    node: Option<u64>,
    /// The last node on the path.
    last: Option<u64>,
}

impl PathFold for Reached {
    ghost passed = { reached };

    fn fold_node<N: Nodes>(
        self,
        _nodes: &CountedNodes<N>,
        _visits: &mut NodeCursor,
        node: u64,
        before: bool,
    ) -> Reached {
        Reached {
            node: if before { self.node } else { Some(node) },
            last: Some(node),
        }
    }
}

/// The result of `find_remove_point`: the node found, and where its removal begins.
#[derive(Clone, Copy, Debug, PartialEq, Eq)]
pub struct RemovePoint {
    /// The first node that does not precede the probe; none if every node precedes it.
    pub node: Option<u64>,
    /// The node at which `remove_at` begins for `node`; none if it begins at the root, or if `node` is none.
    pub exit: Option<u64>,
    /// The number of nodes visited.
    pub steps: u64,
}

/// Where the removal of the last node on the path begins, as far as the search has come.
#[derive(Clone, Copy)]
struct Followed {
    /// The last node on the path that does not precede the probe.
    node: Option<u64>,
    /// The last node on the path.
    above: Option<u64>,
    /// The lowest node on the path that has a red node after it.
    exit: Option<u64>,
    /// The node at which the removal of `node` begins.
    of_node: Option<u64>,
}

impl PathFold for Followed {
    ghost passed = { followed };

    fn fold_node<N: Nodes>(
        self,
        nodes: &CountedNodes<N>,
        visits: &mut NodeCursor,
        node: u64,
        before: bool,
    ) -> Followed {
        let red = visits.red(nodes, node);
        let exit = if red { self.above } else { self.exit };
        Followed {
            node: if before { self.node } else { Some(node) },
            above: Some(node),
            exit,
            of_node: if before { self.of_node } else { exit },
        }
    }
}

/// Finds where the insertion of a node at the probe's place begins.
///
/// It takes the path and the number of steps of `find_first_not_before`, and also reads the colours on the path.
pub fn find_insert_point<N: Nodes>(nodes: &N, root: Option<u64>, probe: &N::Probe) -> EntryPoint
    requires root { leads (N.is_node nodes.now) root ≡ true }
    requires tree { (t : Tree) × IsSearchTree (N.order nodes.now) (N.cells nodes.now) root t }
    // The lowest black node on the path that has no red node after it there.
    ensures entry { (t : Tree) → IsSearchTree (N.order nodes.now) (N.cells nodes.now) root t
        → result.entry ≡ insert_point_of (N.before nodes.now probe.now) t }
    ensures steps { (t : Tree) → IsSearchTree (N.order nodes.now) (N.cells nodes.now) root t
        → result.steps ≤ 2 * bits (length (nodes_of t) + 1) }
    ensures steps_exact { (t : Tree) → IsSearchTree (N.order nodes.now) (N.cells nodes.now) root t
        → result.steps ≡ path_length (N.before nodes.now probe.now) t }
{
    let start = Passed {
        above: None,
        entry: None,
    };
    let way = descend(nodes, root, probe, start);
    EntryPoint {
        entry: way.folded.above.or(way.folded.entry),
        steps: way.steps,
    }
}

/// Finds the first node that does not precede the probe, and the last node on the path.
///
/// It takes the path and the number of steps of `find_first_not_before`, and reads no colour. `find_entry` finds where
/// an insertion begins, if the caller needs one.
pub fn find_path_end<N: Nodes>(nodes: &N, root: Option<u64>, probe: &N::Probe) -> PathEnd
    requires root { leads (N.is_node nodes.now) root ≡ true }
    requires tree { (t : Tree) × IsSearchTree (N.order nodes.now) (N.cells nodes.now) root t }
    // None if every node precedes the probe.
    ensures first { (t : Tree) → IsSearchTree (N.order nodes.now) (N.cells nodes.now) root t
        → result.node ≡ first_not_before (N.before nodes.now probe.now) (nodes_of t) }
    ensures path_end { (t : Tree) → IsSearchTree (N.order nodes.now) (N.cells nodes.now) root t
        → result.last ≡ last_on (N.before nodes.now probe.now) None t }
    // An insertion begins at the last node on the path if that node is black.
    ensures last { (t : Tree) → IsSearchTree (N.order nodes.now) (N.cells nodes.now) root t
        → EndsPath (N.is_node nodes.now) (N.cells nodes.now) (N.before nodes.now probe.now) t result.last }
    ensures steps { (t : Tree) → IsSearchTree (N.order nodes.now) (N.cells nodes.now) root t
        → result.steps ≤ 2 * bits (length (nodes_of t) + 1) }
    ensures steps_exact { (t : Tree) → IsSearchTree (N.order nodes.now) (N.cells nodes.now) root t
        → result.steps ≡ path_length (N.before nodes.now probe.now) t }
{
    let start = Reached {
        node: None,
        last: None,
    };
    let way = descend(nodes, root, probe, start);
    PathEnd {
        node: way.folded.node,
        last: way.folded.last,
        steps: way.steps,
    }
}

/// Finds where the insertion of a node at the probe's place begins, from the `last` node that `find_path_end` returned.
///
/// It begins at this node if the node is black, which is the case for about half of the places in a tree. For the other
/// places it searches once more, and reads the colours on the path.
pub fn find_entry<N: Nodes>(
    nodes: &N,
    root: Option<u64>,
    probe: &N::Probe,
    last: Option<u64>,
) -> EntryPoint
    requires root { leads (N.is_node nodes.now) root ≡ true }
    requires tree { (t : Tree) × IsSearchTree (N.order nodes.now) (N.cells nodes.now) root t
        × EndsPath (N.is_node nodes.now) (N.cells nodes.now) (N.before nodes.now probe.now) t last }
    // The lowest black node on the path that has no red node after it there.
    ensures entry { (t : Tree) → IsSearchTree (N.order nodes.now) (N.cells nodes.now) root t
        → result.entry ≡ insert_point_of (N.before nodes.now probe.now) t }
    ensures steps { (t : Tree) → IsSearchTree (N.order nodes.now) (N.cells nodes.now) root t
        → result.steps ≤ 2 * bits (length (nodes_of t) + 1) }
{
    let Some(node) = last else {
        return EntryPoint {
            entry: None,
            steps: 0,
        };
    };
    let (counted, mut visits) = count_steps(nodes);
    if !visits.red(&counted, node) {
        return EntryPoint {
            entry: last,
            steps: visits.steps(),
        };
    }
    let way = find_insert_point(nodes, root, probe);
    EntryPoint {
        entry: way.entry,
        steps: visits.steps() + way.steps,
    }
}

/// Finds the first node that does not precede the probe, and where its removal begins.
///
/// It takes the path and the number of steps of `find_first_not_before`, and also reads the colours on the path.
pub fn find_remove_point<N: Nodes>(nodes: &N, root: Option<u64>, probe: &N::Probe) -> RemovePoint
    requires root { leads (N.is_node nodes.now) root ≡ true }
    requires tree { (t : Tree) × IsSearchTree (N.order nodes.now) (N.cells nodes.now) root t }
    // None if every node precedes the probe.
    ensures first { (t : Tree) → IsSearchTree (N.order nodes.now) (N.cells nodes.now) root t
        → result.node ≡ first_not_before (N.before nodes.now probe.now) (nodes_of t) }
    // The lowest node above the result that has a red node after it on the path to the result.
    ensures exit { (t : Tree) → IsSearchTree (N.order nodes.now) (N.cells nodes.now) root t
        → IfSome result.node (λ n. result.exit ≡ remove_point_of (N.order nodes.now) n t) }
    ensures absent { result.node ≡ None → result.exit ≡ None }
    ensures steps { (t : Tree) → IsSearchTree (N.order nodes.now) (N.cells nodes.now) root t
        → result.steps ≤ 2 * bits (length (nodes_of t) + 1) }
    ensures steps_exact { (t : Tree) → IsSearchTree (N.order nodes.now) (N.cells nodes.now) root t
        → result.steps ≡ path_length (N.before nodes.now probe.now) t }
{
    let start = Followed {
        node: None,
        above: None,
        exit: None,
        of_node: None,
    };
    let way = descend(nodes, root, probe, start);
    RemovePoint {
        node: way.folded.node,
        exit: way.folded.of_node,
        steps: way.steps,
    }
}
