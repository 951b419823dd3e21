//! Nodes behind a reference are nodes too.
ghost use Rattle.std.specs.Prelude.{ℕ};

use crate::nodes::{Nodes, NodesMut};

impl<N: Nodes> Nodes for &N {
    type Probe = N::Probe;

    ghost cells = { λ s. N.cells s.now };

    ghost is_node = { λ s. N.is_node s.now };

    ghost order = { λ s. N.order s.now };

    ghost before = { λ s. N.before s.now };

    ghost kept = { λ s. tt };

    fn left(&self, node: u64) -> Option<u64> {
        (**self).left(node)
    }

    fn right(&self, node: u64) -> Option<u64> {
        (**self).right(node)
    }

    fn red(&self, node: u64) -> bool {
        (**self).red(node)
    }

    fn precedes(&self, a: u64, b: u64) -> bool {
        (**self).precedes(a, b)
    }

    fn before_probe(&self, node: u64, probe: &N::Probe) -> bool {
        (**self).before_probe(node, probe)
    }

    ghost finite = { λ s. N.finite s.now };

    ghost left_closed = { λ s. N.left_closed s.now };

    ghost right_closed = { λ s. N.right_closed s.now };

    ghost irreflexive = { λ s. N.irreflexive s.now };

    ghost transitive = { λ s. N.transitive s.now };

    ghost agrees = { λ s. N.agrees s.now };
}

impl<N: Nodes> Nodes for &mut N {
    type Probe = N::Probe;

    ghost cells = { λ s. N.cells s.now };

    ghost is_node = { λ s. N.is_node s.now };

    ghost order = { λ s. N.order s.now };

    ghost before = { λ s. N.before s.now };

    ghost lender = { λ s. s.ghost_name };

    ghost Kept = { ℕ × N.Kept };

    ghost kept = { λ s. (N.lender s.now, N.kept s.now) };

    fn left(&self, node: u64) -> Option<u64> {
        (**self).left(node)
    }

    fn right(&self, node: u64) -> Option<u64> {
        (**self).right(node)
    }

    fn red(&self, node: u64) -> bool {
        (**self).red(node)
    }

    fn precedes(&self, a: u64, b: u64) -> bool {
        (**self).precedes(a, b)
    }

    fn before_probe(&self, node: u64, probe: &N::Probe) -> bool {
        (**self).before_probe(node, probe)
    }

    ghost finite = { λ s. N.finite s.now };

    ghost left_closed = { λ s. N.left_closed s.now };

    ghost right_closed = { λ s. N.right_closed s.now };

    ghost irreflexive = { λ s. N.irreflexive s.now };

    ghost transitive = { λ s. N.transitive s.now };

    ghost agrees = { λ s. N.agrees s.now };
}

impl<N: NodesMut> NodesMut for &mut N {
    fn set_left(&mut self, node: u64, to: Option<u64>) {
        (**self).set_left(node, to);
    }

    fn set_right(&mut self, node: u64, to: Option<u64>) {
        (**self).set_right(node, to);
    }

    fn set_red(&mut self, node: u64, red: bool) {
        (**self).set_red(node, red);
    }
}
