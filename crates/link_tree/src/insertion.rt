//! Insertion of a node into a tree.

ghost use Rattle.std.specs.Prelude.{◌≡◌, ◌≢◌, ℕ, ◌+◌, ◌*◌, ◌<◌, ◌≤◌, ◌^◌, Bool, true, false, Option, Some, None, List};
ghost use Rattle.std.specs.Prelude.{[], ◌∷◌, length, IfSome, IsTrue, not};
ghost use Rattle.link_tree.specs.Tree.{Cell, Tree, leaf, fork, IsTree, IsSearchTree, nodes_of, is_sorted, height, bits};
ghost use Rattle.link_tree.specs.Nodes.{leads, is_in, is_ordered_with, insert_in_order};
ghost use Rattle.link_tree.specs.Turning.{BecomesTree};
ghost use Rattle.link_tree.specs.Growing.{CanInsert, after_insert};
ghost use Rattle.link_tree.specs.Ways.{insert_point_of};
ghost use Rattle.link_tree.specs.Frame.{SameExceptCells};

use crate::change_points::find_insert_point;
use crate::cursor::{CountedNodes, NodeCursor, Side, count_steps};
use crate::nodes::NodesMut;
use crate::rotation::{fix_double_red, paint};
use crate::search_adaptors::SearchForNode;

/// The root of a tree after a change, and the number of steps of the change.
#[derive(Clone, Copy, Debug, PartialEq, Eq)]
pub struct TreeChange {
    /// The new root, which the caller must store; none if the tree is empty.
    pub root: Option<u64>,
    /// The number of visits of nodes.
    pub steps: u64,
}

/// Gives the node this colour and sets both of its links to none.
fn make_leaf<N: NodesMut>(
    nodes: &mut CountedNodes<N>,
    visits: &mut NodeCursor,
    node: u64,
    red: bool,
)
    requires node { N.is_node nodes.old node ≡ true }
    requires no_overflow { visits.old.steps + 3 < 2 ^ 64 }
    ensures layout { BecomesTree (N.cells nodes.old) (N.cells nodes.new) (node ∷ [])
        (Some node) (fork red leaf node leaf) }
    ensures steps_upper { visits.new.steps ≤ visits.old.steps + 3 }
    ensures steps_lower { visits.old.steps ≤ visits.new.steps }
    ensures progress { visits.old.at ≡ None → visits.old.steps < visits.new.steps }
    ensures keeper { SameExceptCells N.Nodes nodes.old nodes.new }
{
    visits.set_child(nodes, node, Side::Left, None);
    visits.set_child(nodes, node, Side::Right, None);
    visits.set_red(nodes, node, red);
}

/// Inserts the node into the tree whose root is `at` and returns the root of the new tree.
fn insert_below<N: NodesMut>(
    nodes: &mut CountedNodes<N>,
    visits: &mut NodeCursor,
    at: u64,
    node: u64,
) -> u64
    requires top { N.is_node nodes.old at ≡ true }
    requires node { N.is_node nodes.old node ≡ true }
    requires tree { (t : Tree) × CanInsert (N.order nodes.old) (N.cells nodes.old) (Some at) node t
        × (visits.old.steps + 13 * height t + 16 < 2 ^ 64) }
    ensures growth { (t : Tree) → CanInsert (N.order nodes.old) (N.cells nodes.old) (Some at) node t
        → BecomesTree (N.cells nodes.old) (N.cells nodes.new) (node ∷ nodes_of t)
        (Some result) (after_insert (N.order nodes.old) node t) }
    ensures steps { (t : Tree) → CanInsert (N.order nodes.old) (N.cells nodes.old) (Some at) node t
        → visits.new.steps ≤ visits.old.steps + 13 * height t + 3 }
    ensures root { N.is_node nodes.old result ≡ true }
    ensures steps_lower { visits.old.steps ≤ visits.new.steps }
    ensures progress { visits.old.at ≡ None → visits.old.steps < visits.new.steps }
    ensures keeper { SameExceptCells N.Nodes nodes.old nodes.new }
{
    let way = visits.toward(nodes, node, at);
    let Some(next) = way.link else {
        // a red leaf has no red child, so nothing is repaired
        make_leaf(nodes, visits, node, true);
        visits.set_child(nodes, at, way.side, Some(node));
        return at;
    };
    let child = insert_below(nodes, visits, next, node);
    visits.set_child(nodes, at, way.side, Some(child));
    fix_double_red(nodes, visits, at, way.side)
}

/// Inserts the node into the tree behind the link and returns the root of the new tree.
fn insert_behind<N: NodesMut>(
    nodes: &mut CountedNodes<N>,
    visits: &mut NodeCursor,
    link: Option<u64>,
    node: u64,
) -> u64
    requires link { leads (N.is_node nodes.old) link ≡ true }
    requires node { N.is_node nodes.old node ≡ true }
    requires tree { (t : Tree) × CanInsert (N.order nodes.old) (N.cells nodes.old) link node t
        × (visits.old.steps + 13 * height t + 16 < 2 ^ 64) }
    ensures growth { (t : Tree) → CanInsert (N.order nodes.old) (N.cells nodes.old) link node t
        → BecomesTree (N.cells nodes.old) (N.cells nodes.new) (node ∷ nodes_of t)
        (Some result) (after_insert (N.order nodes.old) node t) }
    ensures steps { (t : Tree) → CanInsert (N.order nodes.old) (N.cells nodes.old) link node t
        → visits.new.steps ≤ visits.old.steps + 13 * height t + 3 }
    ensures root { N.is_node nodes.old result ≡ true }
    ensures steps_lower { visits.old.steps ≤ visits.new.steps }
    ensures progress { visits.old.at ≡ None → visits.old.steps < visits.new.steps }
    ensures keeper { SameExceptCells N.Nodes nodes.old nodes.new }
{
    let Some(at) = link else {
        make_leaf(nodes, visits, node, true);
        return node;
    };
    insert_below(nodes, visits, at, node)
}

/// Inserts the node, beginning at the `entry` that `find_entry` returned, and returns the root.
fn insert_from<N: NodesMut>(
    nodes: &mut CountedNodes<N>,
    visits: &mut NodeCursor,
    root: Option<u64>,
    entry: Option<u64>,
    node: u64,
) -> Option<u64>
    requires position { visits.old.at ≡ None }
    requires steps { visits.old.steps ≡ 0 }
    requires root { leads (N.is_node nodes.old) root ≡ true }
    requires node { N.is_node nodes.old node ≡ true }
    requires tree { (t : Tree) × IsSearchTree (N.order nodes.old) (N.cells nodes.old) root t
        × IsTrue (is_ordered_with (N.order nodes.old) node (nodes_of t))
        × IfSome entry (λ n. insert_point_of (λ m. not (N.order nodes.old node m)) t ≡ Some n) }
    ensures tree { (t : Tree) → IsSearchTree (N.order nodes.old) (N.cells nodes.old) root t
        → (after_insert : Tree) × IsSearchTree (N.order nodes.new) (N.cells nodes.new) result after_insert
        × (nodes_of after_insert ≡ insert_in_order (N.order nodes.old) node (nodes_of t)) }
    ensures frame { (t : Tree) → IsSearchTree (N.order nodes.old) (N.cells nodes.old) root t
        → (m : ℕ) → m ≢ node → is_in m (nodes_of t) ≡ false
        → N.cells nodes.new m ≡ N.cells nodes.old m }
    ensures steps { (t : Tree) → IsSearchTree (N.order nodes.old) (N.cells nodes.old) root t
        → visits.new.steps ≤ 28 * bits (length (nodes_of t) + 1) + 32 }
    ensures steps_lower { 0 < visits.new.steps }
    ensures root { leads (N.is_node nodes.new) result ≡ true }
    ensures keeper { SameExceptCells N.Nodes nodes.old nodes.new }
{
    if let Some(start) = entry {
        // the insertion leaves no red node under a red one below `start`, so `start` needs no repair
        let way = visits.toward(nodes, node, start);
        let child = insert_behind(nodes, visits, way.link, node);
        visits.set_child(nodes, start, way.side, Some(child));
        return root;
    }
    let Some(top) = root else {
        make_leaf(nodes, visits, node, false);
        return Some(node);
    };
    let risen = insert_below(nodes, visits, top, node);
    paint(nodes, visits, Some(risen), false);
    Some(risen)
}

/// Inserts the node, beginning at the `entry` that `find_entry` returned.
///
/// It changes only links and colours of the tree's nodes and of the node itself.
/// A step is a visit of a node, with all reads and writes of its fields until the call goes to another node.
/// Chris Okasaki, Red-Black Trees in a Functional Setting, 1999.
pub fn insert_at<N: NodesMut>(
    nodes: &mut N,
    root: Option<u64>,
    entry: Option<u64>,
    node: u64,
) -> TreeChange
    requires root { leads (N.is_node nodes.old) root ≡ true }
    requires node { N.is_node nodes.old node ≡ true }
    // The node must precede or follow each node of the tree. `entry` must be none or the entry that `find_entry`
    // returns for the node.
    requires tree { (t : Tree) × IsSearchTree (N.order nodes.old) (N.cells nodes.old) root t
        × IsTrue (is_ordered_with (N.order nodes.old) node (nodes_of t))
        × IfSome entry (λ n. insert_point_of (λ m. not (N.order nodes.old node m)) t ≡ Some n) }
    // `insert_in_order` inserts the node before the first node that it precedes.
    ensures tree { (t : Tree) → IsSearchTree (N.order nodes.old) (N.cells nodes.old) root t
        → (after_insert : Tree) × IsSearchTree (N.order nodes.new) (N.cells nodes.new) result.root after_insert
        × (nodes_of after_insert ≡ insert_in_order (N.order nodes.old) node (nodes_of t)) }
    // No other node's links or colour change.
    ensures frame { (t : Tree) → IsSearchTree (N.order nodes.old) (N.cells nodes.old) root t
        → (m : ℕ) → m ≢ node → is_in m (nodes_of t) ≡ false
        → N.cells nodes.new m ≡ N.cells nodes.old m }
    // `bits` counts binary digits, here of the number of nodes before the call plus one.
    ensures steps { (t : Tree) → IsSearchTree (N.order nodes.old) (N.cells nodes.old) root t
        → result.steps ≤ 28 * bits (length (nodes_of t) + 1) + 32 }
    ensures steps_lower { 0 < result.steps }
    ensures root { leads (N.is_node nodes.new) result.root ≡ true }
    // Nothing but links and colours changes: the set of nodes, their order, the reference to the storage and all other
    // state stay.
    ensures keeper { SameExceptCells N.Nodes nodes.old nodes.new }
{
    let (mut counted, mut visits) = count_steps(nodes);
    let root = insert_from(&mut counted, &mut visits, root, entry, node);
    let _nodes = counted.into_nodes();
    TreeChange {
        root,
        steps: visits.steps(),
    }
}

/// Inserts the node. It searches for the node's place and then calls `insert_at`. The search compares the node with
/// each node of its path and visits both, so it takes two steps for each.
///
/// It changes only links and colours of the tree's nodes and of the node itself.
/// A step is a visit of a node, with all reads and writes of its fields until the call goes to another node.
/// Chris Okasaki, Red-Black Trees in a Functional Setting, 1999.
pub fn insert<N: NodesMut>(nodes: &mut N, root: Option<u64>, node: u64) -> TreeChange
    requires root { leads (N.is_node nodes.old) root ≡ true }
    requires node { N.is_node nodes.old node ≡ true }
    // The node must precede or follow each node of the tree.
    requires tree { (t : Tree) × IsSearchTree (N.order nodes.old) (N.cells nodes.old) root t
        × IsTrue (is_ordered_with (N.order nodes.old) node (nodes_of t)) }
    // `insert_in_order` inserts the node before the first node that it precedes.
    ensures tree { (t : Tree) → IsSearchTree (N.order nodes.old) (N.cells nodes.old) root t
        → (after_insert : Tree) × IsSearchTree (N.order nodes.new) (N.cells nodes.new) result.root after_insert
        × (nodes_of after_insert ≡ insert_in_order (N.order nodes.old) node (nodes_of t)) }
    // No other node's links or colour change.
    ensures frame { (t : Tree) → IsSearchTree (N.order nodes.old) (N.cells nodes.old) root t
        → (m : ℕ) → m ≢ node → is_in m (nodes_of t) ≡ false
        → N.cells nodes.new m ≡ N.cells nodes.old m }
    // `bits` counts binary digits, here of the number of nodes before the call plus one.
    ensures steps { (t : Tree) → IsSearchTree (N.order nodes.old) (N.cells nodes.old) root t
        → result.steps ≤ 32 * bits (length (nodes_of t) + 1) + 32 }
    ensures steps_lower { 0 < result.steps }
    ensures root { leads (N.is_node nodes.new) result.root ≡ true }
    // Nothing but links and colours changes: the set of nodes, their order, the reference to the storage and all other
    // state stay.
    ensures keeper { SameExceptCells N.Nodes nodes.old nodes.new }
{
    // An empty tree needs no search. The tree of gaps is empty each time its only gap was just removed.
    if root.is_none() {
        return insert_at(nodes, root, None, node);
    }
    let way = find_insert_point(
        &SearchForNode {
            nodes: &*nodes,
            node,
        },
        root,
        &(),
    );
    let changed = insert_at(nodes, root, way.entry, node);
    TreeChange {
        root: changed.root,
        steps: 2 * way.steps + changed.steps,
    }
}
