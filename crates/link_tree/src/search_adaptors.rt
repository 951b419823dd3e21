//! Adaptors that let one search serve all calls, over the same nodes.
ghost use Rattle.std.specs.Prelude.{refl, true, not, ◌&&◌};
ghost use Rattle.link_tree.specs.Besides.{stays_behind, both_finite, both_lead};

use crate::nodes::Nodes;

/// A search in which every node precedes the probe: it ends at the last node.
#[derive(Drop)]
pub struct SearchToEnd<'a, N> {
    pub nodes: &'a N,
}

/// A search for the place of `node`: another node precedes the probe if it precedes `node`.
#[derive(Drop)]
pub struct SearchForNode<'a, N> {
    pub nodes: &'a N,
    pub node: u64,
}

impl<'a, N: Nodes> Nodes for SearchToEnd<'a, N> {
    type Probe = ();

    ghost cells = { λ s. N.cells s.nodes.now };

    ghost is_node = { λ s. N.is_node s.nodes.now };

    ghost order = { λ s. N.order s.nodes.now };

    ghost before = { λ s probe n. true };

    ghost kept = { λ s. tt };

    fn left(&self, node: u64) -> Option<u64> {
        self.nodes.left(node)
    }

    fn right(&self, node: u64) -> Option<u64> {
        self.nodes.right(node)
    }

    fn red(&self, node: u64) -> bool {
        self.nodes.red(node)
    }

    fn precedes(&self, a: u64, b: u64) -> bool {
        self.nodes.precedes(a, b)
    }

    fn before_probe(&self, _node: u64, _probe: &()) -> bool {
        true
    }

    ghost finite = { λ s. N.finite s.nodes.now };

    ghost left_closed = { λ s. N.left_closed s.nodes.now };

    ghost right_closed = { λ s. N.right_closed s.nodes.now };

    ghost irreflexive = { λ s. N.irreflexive s.nodes.now };

    ghost transitive = { λ s. N.transitive s.nodes.now };

    ghost agrees = { λ s probe a b h k. refl };
}

impl<'a, N: Nodes> Nodes for SearchForNode<'a, N> {
    type Probe = ();

    ghost cells = { λ s. N.cells s.nodes.now };

    ghost is_node = { λ s n. N.is_node s.nodes.now s.node && N.is_node s.nodes.now n };

    ghost order = { λ s. N.order s.nodes.now };

    ghost before = { λ s probe n. not (N.order s.nodes.now s.node n) };

    ghost kept = { λ s. tt };

    fn left(&self, node: u64) -> Option<u64> {
        self.nodes.left(node)
    }

    fn right(&self, node: u64) -> Option<u64> {
        self.nodes.right(node)
    }

    fn red(&self, node: u64) -> bool {
        self.nodes.red(node)
    }

    fn precedes(&self, a: u64, b: u64) -> bool {
        self.nodes.precedes(a, b)
    }

    fn before_probe(&self, node: u64, _probe: &()) -> bool {
        !self.nodes.precedes(self.node, node)
    }

    ghost finite = { λ s. both_finite (N.is_node s.nodes.now s.node) (N.is_node s.nodes.now) (N.finite s.nodes.now) };

    ghost left_closed = { λ s n h. both_lead (N.is_node s.nodes.now s.node) (N.is_node s.nodes.now) n
        (N.cells s.nodes.now n).left (N.left_closed s.nodes.now n) h };

    ghost right_closed = { λ s n h. both_lead (N.is_node s.nodes.now s.node) (N.is_node s.nodes.now) n
        (N.cells s.nodes.now n).right (N.right_closed s.nodes.now n) h };

    ghost irreflexive = { λ s. N.irreflexive s.nodes.now };

    ghost transitive = { λ s. N.transitive s.nodes.now };

    ghost agrees = { λ s probe a b h. stays_behind (N.order s.nodes.now s.node a)
        (N.order s.nodes.now s.node b) (λ k. N.transitive s.nodes.now s.node a b k h) };
}
