//! Rotations and recolourings at the root of a tree.

ghost use Rattle.std.specs.Prelude.{◌≡◌, ℕ, ◌+◌, ◌<◌, ◌≤◌, ◌^◌, Bool, true, false, Option, Some, None};
ghost use Rattle.link_tree.specs.Tree.{Cell, Tree, IsTree, nodes_of, is_sorted};
ghost use Rattle.link_tree.specs.Nodes.{leads};
ghost use Rattle.link_tree.specs.Turning.{BecomesTree, rotated, painted, flipped, rebalanced, is_red_tree};
ghost use Rattle.link_tree.specs.Sides.{opposite, child_of};
ghost use Rattle.link_tree.specs.Frame.{SameExceptCells};

use crate::cursor::{CountedNodes, NodeCursor, Side};
use crate::nodes::{Nodes, NodesMut};

/// Returns true if the link leads to a red node.
pub fn is_red<N: Nodes>(nodes: &CountedNodes<N>, visits: &mut NodeCursor, link: Option<u64>) -> bool
    requires link { leads (N.is_node nodes.now) link ≡ true }
    requires no_overflow { visits.old.steps + 1 < 2 ^ 64 }
    ensures value { (t : Tree) → IsTree (N.cells nodes.now) link t
        → result ≡ is_red_tree t }
    ensures steps_lower { visits.old.steps ≤ visits.new.steps }
    ensures steps_upper { visits.new.steps ≤ visits.old.steps + 1 }
{
    match link {
        Some(node) => visits.red(nodes, node),
        None => false,
    }
}

/// Sets the root's colour, if there is a root.
pub fn paint<N: NodesMut>(
    nodes: &mut CountedNodes<N>,
    visits: &mut NodeCursor,
    link: Option<u64>,
    red: bool,
)
    requires link { leads (N.is_node nodes.old) link ≡ true }
    requires no_overflow { visits.old.steps + 1 < 2 ^ 64 }
    ensures colour { (t : Tree) → IsTree (N.cells nodes.old) link t
        → is_sorted (N.order nodes.old) (nodes_of t) ≡ true
        → BecomesTree (N.cells nodes.old) (N.cells nodes.new) (nodes_of t) link (painted red t) }
    ensures steps_upper { visits.new.steps ≤ visits.old.steps + 1 }
    ensures steps_lower { visits.old.steps ≤ visits.new.steps }
    ensures keeper { SameExceptCells N.Nodes nodes.old nodes.new }
{
    if let Some(node) = link {
        visits.set_red(nodes, node, red);
    }
}

/// Rotates the tree so that the child on this side becomes the root, and returns the child.
pub fn rotate<N: NodesMut>(
    nodes: &mut CountedNodes<N>,
    visits: &mut NodeCursor,
    top: u64,
    side: Side,
) -> u64
    requires node { N.is_node nodes.old top ≡ true }
    requires no_overflow { visits.old.steps + 3 < 2 ^ 64 }
    ensures rotation { (t : Tree) → IsTree (N.cells nodes.old) (Some top) t
        → is_sorted (N.order nodes.old) (nodes_of t) ≡ true
        → BecomesTree (N.cells nodes.old) (N.cells nodes.new) (nodes_of t) (Some result) (rotated side t) }
    ensures node { N.is_node nodes.old result ≡ true }
    ensures position { visits.new.at ≡ Some top }
    ensures steps_upper { visits.new.steps ≤ visits.old.steps + 3 }
    ensures unchanged { visits.old.at ≡ Some top → visits.new.steps ≤ visits.old.steps + 2 }
    ensures steps_lower { visits.old.steps ≤ visits.new.steps }
    ensures keeper { SameExceptCells N.Nodes nodes.old nodes.new }
{
    let Some(child) = visits.child(nodes, top, side) else {
        return top;
    };
    let middle = visits.child(nodes, child, side.other());
    visits.set_child(nodes, child, side.other(), Some(top));
    visits.set_child(nodes, top, side, middle);
    child
}

/// Makes a node red and its children black.
fn flip_colours<N: NodesMut>(
    nodes: &mut CountedNodes<N>,
    visits: &mut NodeCursor,
    top: u64,
    near: u64,
    far: Option<u64>,
)
    requires node { N.is_node nodes.old top ≡ true }
    requires child { N.is_node nodes.old near ≡ true }
    requires link { leads (N.is_node nodes.old) far ≡ true }
    requires no_overflow { visits.old.steps + 3 < 2 ^ 64 }
    ensures colour { (side : Side) (t : Tree) → IsTree (N.cells nodes.old) (Some top) t
        → is_sorted (N.order nodes.old) (nodes_of t) ≡ true
        → child_of side (N.cells nodes.old top) ≡ Some near
        → child_of (opposite side) (N.cells nodes.old top) ≡ far
        → BecomesTree (N.cells nodes.old) (N.cells nodes.new) (nodes_of t) (Some top) (flipped t) }
    ensures steps_upper { visits.new.steps ≤ visits.old.steps + 3 }
    ensures steps_lower { visits.old.steps ≤ visits.new.steps }
    ensures keeper { SameExceptCells N.Nodes nodes.old nodes.new }
{
    paint(nodes, visits, far, false);
    paint(nodes, visits, Some(near), false);
    visits.set_red(nodes, top, true);
}

/// Repairs a black node whose red child on this side has a red child: a red node then stands over two black ones.
/// Returns the new top node. If the other child is red too, only colours change. So older nodes stay high in the tree,
/// and nodes that were inserted one after the other stay near each other.
///
/// Rotations: Chris Okasaki, Red-Black Trees in a Functional Setting, 1999. Colours: Cormen, Leiserson, Rivest and
/// Stein, Introduction to Algorithms, chapter 13.
#[inline(always)]
pub fn fix_double_red<N: NodesMut>(
    nodes: &mut CountedNodes<N>,
    visits: &mut NodeCursor,
    top: u64,
    side: Side,
) -> u64
    requires node { N.is_node nodes.old top ≡ true }
    requires no_overflow { visits.old.steps + 12 < 2 ^ 64 }
    ensures balanced { (t : Tree) → IsTree (N.cells nodes.old) (Some top) t
        → is_sorted (N.order nodes.old) (nodes_of t) ≡ true
        → BecomesTree (N.cells nodes.old) (N.cells nodes.new) (nodes_of t) (Some result) (rebalanced side t) }
    ensures node { N.is_node nodes.old result ≡ true }
    ensures steps_upper { visits.new.steps ≤ visits.old.steps + 11 }
    ensures unchanged { visits.old.at ≡ Some top → visits.new.steps ≤ visits.old.steps + 10 }
    ensures steps_lower { visits.old.steps ≤ visits.new.steps }
    ensures keeper { SameExceptCells N.Nodes nodes.old nodes.new }
{
    let Some(near) = visits.child(nodes, top, side) else {
        return top;
    };
    if visits.red(nodes, top) {
        return top;
    }
    let far = visits.child(nodes, top, side.other());
    if !visits.red(nodes, near) {
        return top;
    }
    let outer = visits.child(nodes, near, side);
    let inner = visits.child(nodes, near, side.other());
    if is_red(nodes, visits, outer) {
        if is_red(nodes, visits, far) {
            flip_colours(nodes, visits, top, near, far);
            return top;
        }
        let risen = rotate(nodes, visits, top, side);
        paint(nodes, visits, outer, false);
        return risen;
    }
    if is_red(nodes, visits, inner) {
        if is_red(nodes, visits, far) {
            flip_colours(nodes, visits, top, near, far);
            return top;
        }
        let lower = rotate(nodes, visits, near, side.other());
        visits.set_red(nodes, near, false);
        visits.set_child(nodes, top, side, Some(lower));
        return rotate(nodes, visits, top, side);
    }
    top
}
