//! The access to nodes, which counts each step from one node to another.

ghost use Rattle.std.specs.Prelude.{◌≡◌, ◌≢◌, ℕ, ◌+◌, ◌<◌, ◌≤◌, ◌^◌, Bool, true, false, Option, Some, None};
ghost use Rattle.link_tree.specs.Tree.{Cell};
ghost use Rattle.link_tree.specs.Nodes.{with_red, leads};
ghost use Rattle.link_tree.specs.Frame.{SameExceptCells};

use crate::nodes::{Nodes, NodesMut};
use std::marker::Model;

/// One of a node's two links.
#[derive(Clone, Copy)]
pub enum Side {
    /// The link to the nodes that precede it.
    Left,
    /// The link to the nodes that it precedes.
    Right,
}

impl Side {
    ghost use Rattle.link_tree.specs.Sides.{opposite, side_of};

    /// Returns `Left`, the side for a node that precedes the other node, if `precedes` is true; otherwise `Right`.
    pub fn of(precedes: bool) -> Side
        ensures { result ≡ side_of precedes }
    {
        if precedes { Side::Left } else { Side::Right }
    }

    /// Returns the opposite side.
    pub fn other(self) -> Side
        ensures { result ≡ opposite self }
    {
        match self {
            Side::Left => Side::Right,
            Side::Right => Side::Left,
        }
    }
}

/// One step down the tree: a side of a node, and the link on that side.
#[derive(Clone, Copy)]
pub struct DescentStep {
    /// The side on which the search continues.
    pub side: Side,
    /// The link on that side.
    pub link: Option<u64>,
}

/// Nodes that only a cursor reads and writes. Contracts read it as the nodes.
#[derive(Clone, Copy, Drop)]
pub struct CountedNodes<N> {
    nodes: N,
}

impl<N> Model for CountedNodes<N> {
    ghost Value = { N };

    ghost view = { λ s. s.nodes };

    ghost inverse = { λ n. record { nodes = n } };
}

impl<N: NodesMut> CountedNodes<N> {
    /// Returns the nodes when a change of a tree ends. No cursor counts what is done with them. Who only reads has no
    /// such call.
    pub fn into_nodes(self) -> N
        ensures { result ≡ self }
    {
        let CountedNodes { nodes } = self;
        nodes
    }
}

/// A position at a node, and the number of steps to it. There is one cursor for counted nodes, and no copy of it.
#[derive(Drop)]
pub struct NodeCursor {
    at: Option<u64>,
    steps: u64,
}

/// Returns nodes for a call, and the cursor that counts its steps: it has no position, and 0 steps.
pub fn count_steps<N: Nodes>(nodes: N) -> (CountedNodes<N>, NodeCursor)
    ensures nodes { result.0 ≡ nodes }
    ensures position { result.1.at ≡ None }
    ensures steps { result.1.steps ≡ 0 }
{
    (CountedNodes { nodes }, NodeCursor { at: None, steps: 0 })
}

impl NodeCursor {
    ghost use Rattle.link_tree.specs.Sides.{child_of, side_of, with_child};

    /// Returns the number of steps so far.
    pub fn steps(&self) -> u64
        ensures { result ≡ self.now.steps }
    {
        self.steps
    }

    fn go(&mut self, node: u64)
        requires { self.old.steps + 1 < 2 ^ 64 }
        ensures position { self.new.at ≡ Some node }
        ensures steps_lower { self.old.steps ≤ self.new.steps }
        ensures steps_upper { self.new.steps ≤ self.old.steps + 1 }
        ensures unchanged { self.old.at ≡ Some node → self.new.steps ≡ self.old.steps }
        ensures progress_on_step { self.old.at ≢ Some node → self.new.steps ≡ self.old.steps + 1 }
    {
        if self.at != Some(node) {
            self.steps += 1;
            self.at = Some(node);
        }
    }

    /// Goes to a node and returns its link on a side.
    pub fn child<N: Nodes>(&mut self, nodes: &CountedNodes<N>, node: u64, side: Side) -> Option<u64>
        requires node { N.is_node nodes.now node ≡ true }
        requires no_overflow { self.old.steps + 1 < 2 ^ 64 }
        ensures value { result ≡ child_of side (N.cells nodes.now node) }
        ensures link_target { leads (N.is_node nodes.now) result ≡ true }
        ensures position { self.new.at ≡ Some node }
        ensures steps_lower { self.old.steps ≤ self.new.steps }
        ensures steps_upper { self.new.steps ≤ self.old.steps + 1 }
        ensures unchanged { self.old.at ≡ Some node → self.new.steps ≡ self.old.steps }
        ensures progress_on_step { self.old.at ≢ Some node → self.new.steps ≡ self.old.steps + 1 }
    {
        self.go(node);
        match side {
            Side::Left => nodes.nodes.left(node),
            Side::Right => nodes.nodes.right(node),
        }
    }

    /// Goes to a node and returns true if it is red.
    pub fn red<N: Nodes>(&mut self, nodes: &CountedNodes<N>, node: u64) -> bool
        requires node { N.is_node nodes.now node ≡ true }
        requires no_overflow { self.old.steps + 1 < 2 ^ 64 }
        ensures value { result ≡ (N.cells nodes.now node).red }
        ensures position { self.new.at ≡ Some node }
        ensures steps_lower { self.old.steps ≤ self.new.steps }
        ensures steps_upper { self.new.steps ≤ self.old.steps + 1 }
        ensures unchanged { self.old.at ≡ Some node → self.new.steps ≡ self.old.steps }
        ensures progress { self.old.at ≡ None → self.old.steps < self.new.steps }
    {
        self.go(node);
        nodes.nodes.red(node)
    }

    /// Goes to both nodes and returns true if the first precedes the second.
    pub fn precedes<N: Nodes>(&mut self, nodes: &CountedNodes<N>, first: u64, second: u64) -> bool
        requires first { N.is_node nodes.now first ≡ true }
        requires second { N.is_node nodes.now second ≡ true }
        requires no_overflow { self.old.steps + 2 < 2 ^ 64 }
        ensures value { result ≡ N.order nodes.now first second }
        ensures position { self.new.at ≡ Some second }
        ensures steps_lower { self.old.steps ≤ self.new.steps }
        ensures steps_upper { self.new.steps ≤ self.old.steps + 2 }
        ensures progress_on_step { first ≢ second → self.old.steps < self.new.steps }
        ensures progress { self.old.at ≡ None → self.old.steps < self.new.steps }
    {
        self.go(first);
        self.go(second);
        nodes.nodes.precedes(first, second)
    }

    /// Goes to a node and returns true if it precedes the probe.
    pub fn before_probe<N: Nodes>(
        &mut self,
        nodes: &CountedNodes<N>,
        node: u64,
        probe: &N::Probe,
    ) -> bool
        requires node { N.is_node nodes.now node ≡ true }
        requires no_overflow { self.old.steps + 1 < 2 ^ 64 }
        ensures value { result ≡ N.before nodes.now probe.now node }
        ensures position { self.new.at ≡ Some node }
        ensures steps_upper { self.new.steps ≤ self.old.steps + 1 }
        ensures progress_on_step { self.old.at ≢ Some node → self.new.steps ≡ self.old.steps + 1 }
    {
        self.go(node);
        nodes.nodes.before_probe(node, probe)
    }

    /// Returns the side of `at` on which `node` belongs, and the link on that side.
    pub fn toward<N: Nodes>(&mut self, nodes: &CountedNodes<N>, node: u64, at: u64) -> DescentStep
        requires node { N.is_node nodes.now node ≡ true }
        requires position { N.is_node nodes.now at ≡ true }
        requires no_overflow { self.old.steps + 3 < 2 ^ 64 }
        ensures side { result.side ≡ side_of (N.order nodes.now node at) }
        ensures link { result.link ≡ child_of (side_of (N.order nodes.now node at)) (N.cells nodes.now at) }
        ensures link_target { leads (N.is_node nodes.now) result.link ≡ true }
        ensures steps_lower { self.old.steps ≤ self.new.steps }
        ensures steps_upper { self.new.steps ≤ self.old.steps + 2 }
        ensures progress_on_step { node ≢ at → self.old.steps < self.new.steps }
        ensures progress { self.old.at ≡ None → self.old.steps < self.new.steps }
    {
        let side = Side::of(self.precedes(nodes, node, at));
        let link = self.child(nodes, at, side);
        DescentStep { side, link }
    }

    /// Goes to a node and sets its link on a side.
    pub fn set_child<N: NodesMut>(
        &mut self,
        nodes: &mut CountedNodes<N>,
        node: u64,
        side: Side,
        to: Option<u64>,
    )
        requires node { N.is_node nodes.old node ≡ true }
        requires target { leads (N.is_node nodes.old) to ≡ true }
        requires no_overflow { self.old.steps + 1 < 2 ^ 64 }
        ensures cells { N.cells nodes.new ≡ with_child side (N.cells nodes.old) node to }
        ensures keeper { SameExceptCells N.Nodes nodes.old nodes.new }
        ensures position { self.new.at ≡ Some node }
        ensures steps_lower { self.old.steps ≤ self.new.steps }
        ensures steps_upper { self.new.steps ≤ self.old.steps + 1 }
        ensures unchanged { self.old.at ≡ Some node → self.new.steps ≡ self.old.steps }
        ensures progress { self.old.at ≡ None → self.old.steps < self.new.steps }
    {
        self.go(node);
        match side {
            Side::Left => nodes.nodes.set_left(node, to),
            Side::Right => nodes.nodes.set_right(node, to),
        }
    }

    /// Goes to a node and sets its colour.
    pub fn set_red<N: NodesMut>(&mut self, nodes: &mut CountedNodes<N>, node: u64, red: bool)
        requires node { N.is_node nodes.old node ≡ true }
        requires no_overflow { self.old.steps + 1 < 2 ^ 64 }
        ensures cells { N.cells nodes.new ≡ with_red (N.cells nodes.old) node red }
        ensures keeper { SameExceptCells N.Nodes nodes.old nodes.new }
        ensures position { self.new.at ≡ Some node }
        ensures steps_lower { self.old.steps ≤ self.new.steps }
        ensures steps_upper { self.new.steps ≤ self.old.steps + 1 }
        ensures unchanged { self.old.at ≡ Some node → self.new.steps ≡ self.old.steps }
        ensures progress_on_step { self.old.at ≢ Some node → self.new.steps ≡ self.old.steps + 1 }
    {
        nodes.nodes.set_red(node, red);
        self.go(node);
    }
}
