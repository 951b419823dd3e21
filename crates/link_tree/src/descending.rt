//! The search that all calls share. It goes down a tree and folds a value over the nodes of its path.

ghost use Rattle.std.specs.Prelude.{◌≡◌, ℕ, ◌+◌, ◌*◌, ◌≤◌, ◌<◌, ◌^◌, Bool, true, Option, Some, length};
ghost use Rattle.link_tree.specs.Tree.{Tree, IsSearchTree, nodes_of, bits};
ghost use Rattle.link_tree.specs.Nodes.{leads};
ghost use Rattle.link_tree.specs.Searching.{path_length, noted};

use crate::cursor::{CountedNodes, NodeCursor, Side, count_steps};
use crate::nodes::Nodes;

/// A value that a search folds over the nodes of its path.
pub trait PathFold: Copy {
    // The value after one more node. The arguments are the node's number, whether it is red, and whether it precedes
    // the probe.
    ghost passed: { Self → ℕ → Bool → Bool → Self };

    /// Returns the value after the node at which the search stands. It reads no other node, so it takes no step.
    fn fold_node<N: Nodes>(
        self,
        nodes: &CountedNodes<N>,
        visits: &mut NodeCursor,
        node: u64,
        before: bool,
    ) -> Self
        requires node { N.is_node nodes.now node ≡ true }
        requires position { visits.old.at ≡ Some node }
        requires no_overflow { visits.old.steps + 1 < 2 ^ 64 }
        ensures value { result ≡ passed self node (N.cells nodes.now node).red before }
        ensures position { visits.new.at ≡ Some node }
        ensures unchanged { visits.new.steps ≡ visits.old.steps };
}

/// The result of a search: the folded value, and the steps.
#[derive(Clone, Copy)]
pub struct Descent<K> {
    /// The folded value.
    pub folded: K,
    /// The number of steps.
    pub steps: u64,
}

/// Follows the search path of the probe to its end. It goes right at a node that precedes the probe, and left at any
/// other node.
pub fn descend<N: Nodes, K: PathFold>(
    nodes: &N,
    root: Option<u64>,
    probe: &N::Probe,
    start: K,
) -> Descent<K>
    requires root { leads (N.is_node nodes.now) root ≡ true }
    requires tree { (t : Tree) × IsSearchTree (N.order nodes.now) (N.cells nodes.now) root t }
    ensures mark { (t : Tree) → IsSearchTree (N.order nodes.now) (N.cells nodes.now) root t
        → result.folded ≡ noted K.passed (N.before nodes.now probe.now) start t }
    ensures steps { (t : Tree) → IsSearchTree (N.order nodes.now) (N.cells nodes.now) root t
        → result.steps ≤ 2 * bits (length (nodes_of t) + 1) }
    ensures steps_exact { (t : Tree) → IsSearchTree (N.order nodes.now) (N.cells nodes.now) root t
        → result.steps ≡ path_length (N.before nodes.now probe.now) t }
{
    let (nodes, mut visits) = count_steps(nodes);
    let mut link = root;
    let mut folded = start;
    while let Some(node) = link {
        let before = visits.before_probe(&nodes, node, probe);
        folded = folded.fold_node(&nodes, &mut visits, node, before);
        if before {
            link = visits.child(&nodes, node, Side::Right);
        } else {
            link = visits.child(&nodes, node, Side::Left);
        }
    }
    Descent {
        folded,
        steps: visits.steps(),
    }
}
