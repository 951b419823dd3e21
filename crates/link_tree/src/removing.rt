//! Removal of a node from a tree.

ghost use Rattle.std.specs.Prelude.{◌≡◌, ◌≢◌, ℕ, ◌+◌, ◌*◌, ◌<◌, ◌≤◌, ◌^◌, Bool, true, false, Option, Some, None, List};
ghost use Rattle.std.specs.Prelude.{length, IfSome, IsTrue};
ghost use Rattle.link_tree.specs.Tree.{Cell, Tree, IsTree, IsSearchTree, nodes_of, is_sorted, height, bits};
ghost use Rattle.link_tree.specs.Nodes.{leads, is_in, without};
ghost use Rattle.link_tree.specs.Sides.{opposite, child_of, joined_at};
ghost use Rattle.link_tree.specs.Shrinking.{RemovedSubtree, IsOrderedTree, RemovesTo, mended, settled, sunk, least_of};
ghost use Rattle.link_tree.specs.Shrinking.{without_least, uprooted, after_remove, spare};
ghost use Rattle.link_tree.specs.Ways.{remove_point_of};
ghost use Rattle.link_tree.specs.Frame.{SameExceptCells};

use crate::cursor::{CountedNodes, NodeCursor, Side, count_steps};
use crate::insertion::TreeChange;
use crate::nodes::NodesMut;
use crate::rotation::{fix_double_red, is_red, paint, rotate};

/// The tree after a removal, and whether the removal lowered the number of black nodes on each of its paths by one.
#[derive(Clone, Copy)]
struct Leftover {
    root: Option<u64>,
    fell: bool,
}

/// The first node of a tree, and the tree without it.
#[derive(Clone, Copy)]
struct Least {
    node: u64,
    rest: Leftover,
}

/// Moves a black node from this side, the heavy one, to the other side of `top` if that side lost one.
///
/// Jean-Christophe Filliâtre and Pierre Letouzey, Functors for Proofs and Programs, 2004.
#[inline(never)]
fn mend<N: NodesMut>(
    nodes: &mut CountedNodes<N>,
    visits: &mut NodeCursor,
    top: u64,
    side: Side,
) -> Leftover
    requires node { N.is_node nodes.old top ≡ true }
    requires position { visits.old.at ≡ Some top }
    requires no_overflow { visits.old.steps + 22 < 2 ^ 64 }
    ensures repair { (t : Tree) → IsTree (N.cells nodes.old) (Some top) t
        → is_sorted (N.order nodes.old) (nodes_of t) ≡ true
        → RemovesTo (N.cells nodes.old) (N.cells nodes.new) (nodes_of t) result.root result.fell (mended side t) }
    ensures root { leads (N.is_node nodes.old) result.root ≡ true }
    ensures steps { visits.new.steps + spare result.fell ≤ visits.old.steps + 19 }
    ensures steps_lower { visits.old.steps ≤ visits.new.steps }
    ensures keeper { SameExceptCells N.Nodes nodes.old nodes.new }
{
    let Some(heavy) = visits.child(nodes, top, side) else {
        return Leftover {
            root: Some(top),
            fell: false,
        };
    };
    let red = visits.red(nodes, top);
    if visits.red(nodes, heavy) {
        // the heavy child's inner child gives up a black node
        rotate(nodes, visits, top, side);
        visits.set_red(nodes, heavy, false);
        let inner = visits.child(nodes, top, side);
        paint(nodes, visits, inner, true);
        let low = fix_double_red(nodes, visits, top, side);
        visits.set_child(nodes, heavy, side.other(), Some(low));
        return Leftover {
            root: Some(heavy),
            fell: false,
        };
    }
    visits.set_red(nodes, heavy, true);
    visits.set_red(nodes, top, false);
    let root = fix_double_red(nodes, visits, top, side);
    Leftover {
        root: Some(root),
        fell: !red,
    }
}

/// Links the changed subtree to its parent on this side, and rebalances the parent.
#[inline(always)]
fn settle<N: NodesMut>(
    nodes: &mut CountedNodes<N>,
    visits: &mut NodeCursor,
    parent: u64,
    side: Side,
    below: Leftover,
) -> Leftover
    requires node { N.is_node nodes.old parent ≡ true }
    requires subtree { leads (N.is_node nodes.old) below.root ≡ true }
    requires no_overflow { visits.old.steps + 23 < 2 ^ 64 }
    ensures settled { (near far : Tree) → IsTree (N.cells nodes.old) below.root near
        → IsTree (N.cells nodes.old) (child_of (opposite side) (N.cells nodes.old parent)) far
        → is_sorted (N.order nodes.old)
        (nodes_of (joined_at side (N.cells nodes.old parent).red near parent far)) ≡ true
        → RemovesTo (N.cells nodes.old) (N.cells nodes.new)
        (nodes_of (joined_at side (N.cells nodes.old parent).red near parent far)) result.root result.fell
        (settled side (N.cells nodes.old parent).red (record { tree = near; fell = below.fell }) parent far) }
    ensures root { leads (N.is_node nodes.old) result.root ≡ true }
    ensures steps { visits.new.steps + spare result.fell ≤ visits.old.steps + 13 + spare below.fell }
    ensures steps_lower { visits.old.steps ≤ visits.new.steps }
    ensures keeper { SameExceptCells N.Nodes nodes.old nodes.new }
{
    visits.set_child(nodes, parent, side, below.root);
    if below.fell {
        return mend(nodes, visits, parent, side.other());
    }
    Leftover {
        root: Some(parent),
        fell: false,
    }
}

/// Replaces a node of this colour, which has only one subtree, by that subtree.
fn sink<N: NodesMut>(
    nodes: &mut CountedNodes<N>,
    visits: &mut NodeCursor,
    red: bool,
    link: Option<u64>,
) -> Leftover
    requires link { leads (N.is_node nodes.old) link ≡ true }
    requires no_overflow { visits.old.steps + 2 < 2 ^ 64 }
    ensures descent { (t : Tree) → IsTree (N.cells nodes.old) link t
        → is_sorted (N.order nodes.old) (nodes_of t) ≡ true
        → RemovesTo (N.cells nodes.old) (N.cells nodes.new) (nodes_of t) result.root result.fell (sunk red t) }
    ensures root { leads (N.is_node nodes.old) result.root ≡ true }
    // If the tree lost a black node, `spare` steps remain for the repair one level up.
    ensures steps { visits.new.steps + spare result.fell ≤ visits.old.steps + 9 }
    ensures steps_lower { visits.old.steps ≤ visits.new.steps }
    ensures keeper { SameExceptCells N.Nodes nodes.old nodes.new }
{
    if red {
        return Leftover {
            root: link,
            fell: false,
        };
    }
    if is_red(nodes, visits, link) {
        paint(nodes, visits, link, false);
        return Leftover {
            root: link,
            fell: false,
        };
    }
    Leftover {
        root: link,
        fell: true,
    }
}

/// Removes the first node from the tree below `at`.
fn take_least<N: NodesMut>(nodes: &mut CountedNodes<N>, visits: &mut NodeCursor, at: u64) -> Least
    requires node { N.is_node nodes.old at ≡ true }
    // The way down to the node is then one step, which pays for the work at the node on the way back.
    requires exclusive { visits.old.at ≢ Some at }
    requires tree { (t : Tree) × IsOrderedTree (N.order nodes.old) (N.cells nodes.old) (Some at) t
        × (visits.old.steps + 14 * height t + 40 < 2 ^ 64) }
    ensures node { (t : Tree) → IsOrderedTree (N.order nodes.old) (N.cells nodes.old) (Some at) t
        → result.node ≡ least_of at t }
    ensures rest { (t : Tree) → IsOrderedTree (N.order nodes.old) (N.cells nodes.old) (Some at) t
        → RemovesTo (N.cells nodes.old) (N.cells nodes.new)
        (nodes_of t) result.rest.root result.rest.fell (without_least t) }
    ensures steps { (t : Tree) → IsOrderedTree (N.order nodes.old) (N.cells nodes.old) (Some at) t
        → visits.new.steps + spare result.rest.fell ≤ visits.old.steps + 14 * height t + 9 }
    ensures is_node { N.is_node nodes.old result.node ≡ true }
    ensures root { leads (N.is_node nodes.old) result.rest.root ≡ true }
    ensures steps_lower { visits.old.steps ≤ visits.new.steps }
    ensures keeper { SameExceptCells N.Nodes nodes.old nodes.new }
{
    let Some(left) = visits.child(nodes, at, Side::Left) else {
        let red = visits.red(nodes, at);
        let right = visits.child(nodes, at, Side::Right);
        return Least {
            node: at,
            rest: sink(nodes, visits, red, right),
        };
    };
    let below = take_least(nodes, visits, left);
    Least {
        node: below.node,
        rest: settle(nodes, visits, at, Side::Left, below.rest),
    }
}

/// Removes the root of a tree. The next node takes its place by links; no node is copied.
fn uproot<N: NodesMut>(nodes: &mut CountedNodes<N>, visits: &mut NodeCursor, at: u64) -> Leftover
    requires node { N.is_node nodes.old at ≡ true }
    requires tree { (t : Tree) × IsOrderedTree (N.order nodes.old) (N.cells nodes.old) (Some at) t
        × (visits.old.steps + 15 * height t + 60 < 2 ^ 64) }
    ensures rest { (t : Tree) → IsOrderedTree (N.order nodes.old) (N.cells nodes.old) (Some at) t
        → RemovesTo (N.cells nodes.old) (N.cells nodes.new) (nodes_of t) result.root result.fell (uprooted t) }
    ensures steps { (t : Tree) → IsOrderedTree (N.order nodes.old) (N.cells nodes.old) (Some at) t
        → visits.new.steps + spare result.fell ≤ visits.old.steps + 15 * height t + 10 }
    ensures root { leads (N.is_node nodes.old) result.root ≡ true }
    ensures steps_lower { visits.old.steps ≤ visits.new.steps }
    ensures progress { visits.old.at ≡ None → visits.old.steps < visits.new.steps }
    ensures keeper { SameExceptCells N.Nodes nodes.old nodes.new }
{
    let red = visits.red(nodes, at);
    let left = visits.child(nodes, at, Side::Left);
    let Some(right) = visits.child(nodes, at, Side::Right) else {
        return sink(nodes, visits, red, left);
    };
    let next = take_least(nodes, visits, right);
    visits.set_child(nodes, next.node, Side::Left, left);
    visits.set_red(nodes, next.node, red);
    settle(nodes, visits, next.node, Side::Right, next.rest)
}

/// Removes the node from the tree behind the link.
fn cut<N: NodesMut>(
    nodes: &mut CountedNodes<N>,
    visits: &mut NodeCursor,
    link: Option<u64>,
    node: u64,
) -> Leftover
    requires link { leads (N.is_node nodes.old) link ≡ true }
    requires node { N.is_node nodes.old node ≡ true }
    requires tree { (t : Tree) × IsOrderedTree (N.order nodes.old) (N.cells nodes.old) link t
        × (visits.old.steps + 15 * height t + 60 < 2 ^ 64) }
    ensures rest { (t : Tree) → IsOrderedTree (N.order nodes.old) (N.cells nodes.old) link t
        → RemovesTo (N.cells nodes.old) (N.cells nodes.new)
        (nodes_of t) result.root result.fell (after_remove (N.order nodes.old) node t) }
    ensures steps { (t : Tree) → IsOrderedTree (N.order nodes.old) (N.cells nodes.old) link t
        → visits.new.steps + spare result.fell ≤ visits.old.steps + 15 * height t + 10 }
    ensures root { leads (N.is_node nodes.old) result.root ≡ true }
    ensures steps_lower { visits.old.steps ≤ visits.new.steps }
    ensures progress { visits.old.at ≡ None → link ≢ None → visits.old.steps < visits.new.steps }
    ensures keeper { SameExceptCells N.Nodes nodes.old nodes.new }
{
    let Some(at) = link else {
        return Leftover {
            root: None,
            fell: false,
        };
    };
    if at == node {
        return uproot(nodes, visits, at);
    }
    let way = visits.toward(nodes, node, at);
    let below = cut(nodes, visits, way.link, node);
    settle(nodes, visits, at, way.side, below)
}

/// Removes the node, beginning at the `exit` that `find_remove_point` returned, and returns the root.
fn remove_from<N: NodesMut>(
    nodes: &mut CountedNodes<N>,
    visits: &mut NodeCursor,
    root: Option<u64>,
    exit: Option<u64>,
    node: u64,
) -> Option<u64>
    requires position { visits.old.at ≡ None }
    requires steps { visits.old.steps ≡ 0 }
    requires root { leads (N.is_node nodes.old) root ≡ true }
    requires tree { (t : Tree) × IsSearchTree (N.order nodes.old) (N.cells nodes.old) root t
        × IsTrue (is_in node (nodes_of t))
        × IfSome exit (λ n. remove_point_of (N.order nodes.old) node t ≡ Some n) }
    ensures tree { (t : Tree) → IsSearchTree (N.order nodes.old) (N.cells nodes.old) root t
        → (after_remove : Tree) × IsSearchTree (N.order nodes.new) (N.cells nodes.new) result after_remove
        × (nodes_of after_remove ≡ without node (nodes_of t)) }
    ensures frame { (t : Tree) → IsSearchTree (N.order nodes.old) (N.cells nodes.old) root t
        → (m : ℕ) → is_in m (nodes_of t) ≡ false → N.cells nodes.new m ≡ N.cells nodes.old m }
    ensures steps { (t : Tree) → IsSearchTree (N.order nodes.old) (N.cells nodes.old) root t
        → visits.new.steps ≤ 30 * bits (length (nodes_of t) + 1) + 32 }
    ensures steps_lower { 0 < visits.new.steps }
    ensures root { leads (N.is_node nodes.new) result ≡ true }
    ensures keeper { SameExceptCells N.Nodes nodes.old nodes.new }
{
    if let Some(start) = exit {
        cut(nodes, visits, Some(start), node);
        return root;
    }
    let rest = cut(nodes, visits, root, node);
    paint(nodes, visits, rest.root, false);
    rest.root
}

/// Removes the node, beginning at the `exit` that `find_remove_point` returned.
///
/// It changes only links and colours of the tree's nodes: no node is moved or copied.
/// A step is a visit of a node, with all reads and writes of its fields until the call goes to another node.
/// Jean-Christophe Filliâtre and Pierre Letouzey, Functors for Proofs and Programs, 2004.
pub fn remove_at<N: NodesMut>(
    nodes: &mut N,
    root: Option<u64>,
    exit: Option<u64>,
    node: u64,
) -> TreeChange
    requires root { leads (N.is_node nodes.old) root ≡ true }
    // The node must be in the tree. `exit` must be none or the exit that `find_remove_point` returns for the node.
    requires tree { (t : Tree) × IsSearchTree (N.order nodes.old) (N.cells nodes.old) root t
        × IsTrue (is_in node (nodes_of t))
        × IfSome exit (λ n. remove_point_of (N.order nodes.old) node t ≡ Some n) }
    // The tree keeps all other nodes, in the same order.
    ensures tree { (t : Tree) → IsSearchTree (N.order nodes.old) (N.cells nodes.old) root t
        → (after_remove : Tree) × IsSearchTree (N.order nodes.new) (N.cells nodes.new) result.root after_remove
        × (nodes_of after_remove ≡ without node (nodes_of t)) }
    // No links or colour of a node outside the tree change.
    ensures frame { (t : Tree) → IsSearchTree (N.order nodes.old) (N.cells nodes.old) root t
        → (m : ℕ) → is_in m (nodes_of t) ≡ false → N.cells nodes.new m ≡ N.cells nodes.old m }
    // `bits` counts binary digits, here of the number of nodes before the call plus one.
    ensures steps { (t : Tree) → IsSearchTree (N.order nodes.old) (N.cells nodes.old) root t
        → result.steps ≤ 30 * bits (length (nodes_of t) + 1) + 32 }
    ensures steps_lower { 0 < result.steps }
    ensures root { leads (N.is_node nodes.new) result.root ≡ true }
    // Nothing but links and colours changes: the set of nodes, their order, the reference to the storage and all other
    // state stay.
    ensures keeper { SameExceptCells N.Nodes nodes.old nodes.new }
{
    let (mut counted, mut visits) = count_steps(nodes);
    let root = remove_from(&mut counted, &mut visits, root, exit, node);
    let _nodes = counted.into_nodes();
    TreeChange {
        root,
        steps: visits.steps(),
    }
}

/// Removes the node from the tree. It calls `remove_at` at the root.
///
/// It changes only links and colours of the tree's nodes: no node is moved or copied.
/// A step is a visit of a node, with all reads and writes of its fields until the call goes to another node.
/// Jean-Christophe Filliâtre and Pierre Letouzey, Functors for Proofs and Programs, 2004.
pub fn remove<N: NodesMut>(nodes: &mut N, root: Option<u64>, node: u64) -> TreeChange
    requires root { leads (N.is_node nodes.old) root ≡ true }
    // The node must be in the tree.
    requires tree { (t : Tree) × IsSearchTree (N.order nodes.old) (N.cells nodes.old) root t
        × IsTrue (is_in node (nodes_of t)) }
    // The tree keeps all other nodes, in the same order.
    ensures tree { (t : Tree) → IsSearchTree (N.order nodes.old) (N.cells nodes.old) root t
        → (after_remove : Tree) × IsSearchTree (N.order nodes.new) (N.cells nodes.new) result.root after_remove
        × (nodes_of after_remove ≡ without node (nodes_of t)) }
    // No links or colour of a node outside the tree change.
    ensures frame { (t : Tree) → IsSearchTree (N.order nodes.old) (N.cells nodes.old) root t
        → (m : ℕ) → is_in m (nodes_of t) ≡ false → N.cells nodes.new m ≡ N.cells nodes.old m }
    // `bits` counts binary digits, here of the number of nodes before the call plus one.
    ensures steps { (t : Tree) → IsSearchTree (N.order nodes.old) (N.cells nodes.old) root t
        → result.steps ≤ 32 * bits (length (nodes_of t) + 1) + 32 }
    ensures steps_lower { 0 < result.steps }
    ensures root { leads (N.is_node nodes.new) result.root ≡ true }
    // Nothing but links and colours changes: the set of nodes, their order, the reference to the storage and all other
    // state stay.
    ensures keeper { SameExceptCells N.Nodes nodes.old nodes.new }
{
    remove_at(nodes, root, None, node)
}
