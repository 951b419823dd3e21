//! The traits for the storage of nodes.

ghost use Rattle.std.specs.Prelude.{◌≡◌, ℕ, ◌≤◌, ◌^◌, Bool, true, false, Option, Some, List, length};
ghost use Rattle.link_tree.specs.Tree.{Cell};
ghost use Rattle.link_tree.specs.Nodes.{with_left, with_right, with_red, is_in, leads};

/// Numbered nodes, each with two links and a colour, in a strict order.
///
/// There are at most 2 to the 40th nodes, and each link of a node leads to a node. The links need not form a tree. A
/// call visits one node at a time. A step is a visit of a node, with all reads and writes of its fields until the call
/// goes to another node. A comparison of two nodes visits both.
pub trait Nodes {
    /// The target of a search. It can be compared with each node, and need not be a node.
    type Probe;

    // The fields of each node: two links, and whether it is red. The fields of a number that is no node are arbitrary.
    ghost cells: { Self → ℕ → Cell };

    // Whether a number is a node. No call reads the fields of any other number.
    ghost is_node: { Self → ℕ → Bool };

    // Whether one node precedes another: a strict order, by the laws below. Two nodes can be equal in the order; a tree
    // then holds at most one of them.
    ghost order: { Self → ℕ → ℕ → Bool };

    // Whether a node precedes a probe. By the law `agrees` these nodes are the first ones of a tree.
    ghost before: { Self → Self.Probe → ℕ → Bool };

    // The name of the reference through which the nodes are reached, if there is one. No call changes it.
    ghost lender: { Self → ℕ } = { λ _. 0 };

    // The state of the storage apart from links and colours. No setter and no tree call changes it. The implementation
    // chooses the type; the unit type means no further state.
    ghost Kept: { Type 0 } = { Unit {0} };

    ghost kept: { Self → Kept };

    /// Returns the left link: the root of the subtree whose nodes precede this node.
    fn left(&self, node: u64) -> Option<u64>
        requires { is_node self.now node ≡ true }
        ensures { result ≡ (cells self.now node).left };

    /// Returns the right link: the root of the subtree whose nodes this node precedes.
    fn right(&self, node: u64) -> Option<u64>
        requires { is_node self.now node ≡ true }
        ensures { result ≡ (cells self.now node).right };

    /// Returns true if the node is red.
    fn red(&self, node: u64) -> bool
        requires { is_node self.now node ≡ true }
        ensures { result ≡ (cells self.now node).red };

    /// Returns true if the first node precedes the second.
    fn precedes(&self, a: u64, b: u64) -> bool
        requires first { is_node self.now a ≡ true }
        requires second { is_node self.now b ≡ true }
        ensures { result ≡ order self.now a b };

    /// Returns true if the node precedes the probe. A search for the probe then continues to the right of the node.
    fn before_probe(&self, node: u64, probe: &Self::Probe) -> bool
        requires { is_node self.now node ≡ true }
        ensures { result ≡ before self.now probe.now node };

    // All nodes are in one list of at most 2 to the 40th, so no tree is higher than 82, and no step count overflows.
    ghost finite: { (s : Self) → (ns : List ℕ) × (length ns ≤ 2 ^ 40)
        × ((n : ℕ) → is_node s n ≡ true → is_in n ns ≡ true) };

    // A node's left link leads to a node or is none.
    ghost left_closed: { (s : Self) (n : ℕ) → is_node s n ≡ true
        → leads (is_node s) (cells s n).left ≡ true };

    // A node's right link leads to a node or is none.
    ghost right_closed: { (s : Self) (n : ℕ) → is_node s n ≡ true
        → leads (is_node s) (cells s n).right ≡ true };

    // No node precedes itself.
    ghost irreflexive: { (s : Self) (n : ℕ) → order s n n ≡ false };

    // The order is transitive.
    ghost transitive: { (s : Self) (a b c : ℕ) → order s a b ≡ true → order s b c ≡ true
        → order s a c ≡ true };

    // A node that precedes a node before the probe precedes the probe too.
    ghost agrees: { (s : Self) (probe : Self.Probe) (a b : ℕ) → order s a b ≡ true
        → before s probe b ≡ true → before s probe a ≡ true };
}

/// Nodes with links and colours that can be set.
///
/// Each call changes one field of one node. It keeps the set of nodes, their order, their comparison with probes, the
/// reference to the storage, and all other state.
pub trait NodesMut: Nodes {
    ghost use Rattle.link_tree.specs.Frame.{SameExceptCells};

    /// Sets the node's left link.
    fn set_left(&mut self, node: u64, to: Option<u64>)
        requires node { Self.is_node self.old node ≡ true }
        requires target { leads (Self.is_node self.old) to ≡ true }
        ensures cells { Self.cells self.new ≡ with_left (Self.cells self.old) node to }
        ensures keeper { SameExceptCells Self.Nodes self.old self.new };

    /// Sets the node's right link.
    fn set_right(&mut self, node: u64, to: Option<u64>)
        requires node { Self.is_node self.old node ≡ true }
        requires target { leads (Self.is_node self.old) to ≡ true }
        ensures cells { Self.cells self.new ≡ with_right (Self.cells self.old) node to }
        ensures keeper { SameExceptCells Self.Nodes self.old self.new };

    /// Sets the node's colour.
    fn set_red(&mut self, node: u64, red: bool)
        requires { Self.is_node self.old node ≡ true }
        ensures cells { Self.cells self.new ≡ with_red (Self.cells self.old) node red }
        ensures keeper { SameExceptCells Self.Nodes self.old self.new };
}
