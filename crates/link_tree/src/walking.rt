//! Visits each node of a tree in order.

ghost use Rattle.std.specs.Prelude.{◌≡◌, ◌≢◌, ℕ, ◌+◌, ◌<◌, ◌^◌, Bool, true, false, Option, Some, List, length};
ghost use Rattle.std.specs.List.{FoldsTo};
ghost use Rattle.link_tree.specs.Tree.{Tree, IsSearchTree, nodes_of};
ghost use Rattle.link_tree.specs.Nodes.{leads, is_in};
ghost use Rattle.link_tree.specs.Walking.{IsAhead};

use crate::checking::MAX_HEIGHT;
use crate::cursor::{CountedNodes, NodeCursor, Side, count_steps};
use crate::nodes::Nodes;

/// Visits the nodes behind the link in order, down to `levels` levels.
fn walk_below<N: Nodes + Copy, F: FnMut(u64)>(
    nodes: CountedNodes<N>,
    visits: &mut NodeCursor,
    link: Option<u64>,
    visit: &mut F,
    levels: u64,
)
    requires callable { F.IsAlwaysCallable visit.old }
    requires link { leads (N.is_node nodes) link ≡ true }
    requires tree { (t : Tree) × IsAhead (N.order nodes) (N.cells nodes) link levels visits.old.at t
        × (visits.old.steps + length (nodes_of t) + 1 < 2 ^ 64) }
    ensures walk { (t : Tree) → IsAhead (N.order nodes) (N.cells nodes) link levels visits.old.at t
        → FoldsTo (λ p x q. F.step p x tt q) visit.old (nodes_of t) visit.new }
    ensures callable { F.IsAlwaysCallable visit.new }
    ensures steps { (t : Tree) → IsAhead (N.order nodes) (N.cells nodes) link levels visits.old.at t
        → visits.new.steps ≡ visits.old.steps + length (nodes_of t) }
    // The cursor stands where it stood before, or at a node of the tree.
    ensures position { (t : Tree) → IsAhead (N.order nodes) (N.cells nodes) link levels visits.old.at t
        → (m : ℕ) → is_in m (nodes_of t) ≡ false → visits.old.at ≢ Some m → visits.new.at ≢ Some m }
{
    let Some(node) = link else {
        return;
    };
    let left = visits.child(&nodes, node, Side::Left);
    let right = visits.child(&nodes, node, Side::Right);
    walk_below(nodes, visits, left, visit, levels - 1);
    visit(node);
    walk_below(nodes, visits, right, visit, levels - 1);
}

/// Calls `visit` on each node of the tree, in order, and returns the number of steps, which is the number of nodes.
///
/// A step is a visit of a node, with all reads of its fields until the walk goes to another node.
pub fn walk<N: Nodes, F: FnMut(u64)>(nodes: &N, root: Option<u64>, visit: &mut F) -> u64
    requires callable { F.IsAlwaysCallable visit.old }
    requires root { leads (N.is_node nodes.now) root ≡ true }
    requires tree { (t : Tree) × IsSearchTree (N.order nodes.now) (N.cells nodes.now) root t }
    // The walk calls `visit` once for each node, in order, and not otherwise.
    ensures walk { (t : Tree) → IsSearchTree (N.order nodes.now) (N.cells nodes.now) root t
        → FoldsTo (λ p x q. F.step p x tt q) visit.old (nodes_of t) visit.new }
    ensures callable { F.IsAlwaysCallable visit.new }
    // One step for each node: the walk reads all fields of a node before it leaves it.
    ensures steps { (t : Tree) → IsSearchTree (N.order nodes.now) (N.cells nodes.now) root t
        → result ≡ length (nodes_of t) }
{
    let (nodes, mut visits) = count_steps(nodes);
    walk_below(nodes, &mut visits, root, visit, MAX_HEIGHT);
    visits.steps()
}
