//! A keeper of nodes for the tests of trees, which owns a table of them.

ghost use Rattle.std.specs.Prelude.{◌≡◌, ◌≢◌, ℕ, ◌+◌, ◌<◌, ◌≤◌, Bool, true, false, Option, Some, None, length, nat_lt};
ghost use Rattle.std.specs.Prelude.{nat_eq, refl};
ghost use Rattle.link_tree.specs.Nodes.{leads};
ghost use Rattle.layer_tests.specs.Table.{link_of, table_cells};
ghost use Rattle.layer_tests.specs.TableLaws.{table_finite, table_left, table_right, table_irreflexive};
ghost use Rattle.layer_tests.specs.TableLaws.{table_transitive, table_agrees};

use link_tree::{Nodes, NodesMut};

/// The number that stands for no link.
const NOWHERE: u64 = 64;

/// Nodes 0 to 63 in the order of their numbers.
#[derive(Drop)]
pub struct NodeTable {
    left: [u64; 64],
    right: [u64; 64],
    red: [u64; 64],
}

fn link(value: u64) -> Option<u64>
    ensures { result ≡ link_of value }
{
    if value < 64 { Some(value) } else { None }
}

fn value(link: Option<u64>) -> u64
    requires { leads (λ n. nat_lt n 64) link ≡ true }
    ensures { link_of result ≡ link }
{
    match link {
        Some(node) => node,
        None => NOWHERE,
    }
}

fn colour(red: bool) -> u64
    ensures { nat_eq result 1 ≡ red }
{
    if red { 1 } else { 0 }
}

impl Nodes for NodeTable {
    type Probe = u64;

    ghost cells = { λ s. table_cells s.left s.right s.red };

    ghost is_node = { λ s n. nat_lt n 64 };

    ghost order = { λ s. nat_lt };

    ghost before = { λ s probe n. nat_lt n probe };

    ghost kept = { λ s. tt };

    fn left(&self, node: u64) -> Option<u64> {
        link(self.left[node as usize])
    }

    fn right(&self, node: u64) -> Option<u64> {
        link(self.right[node as usize])
    }

    fn red(&self, node: u64) -> bool {
        self.red[node as usize] == 1
    }

    fn precedes(&self, a: u64, b: u64) -> bool {
        a < b
    }

    fn before_probe(&self, node: u64, probe: &u64) -> bool {
        node < *probe
    }

    ghost finite = { λ s. table_finite };

    ghost left_closed = { λ s. table_left s.left s.right s.red };

    ghost right_closed = { λ s. table_right s.left s.right s.red };

    ghost irreflexive = { λ s. table_irreflexive };

    ghost transitive = { λ s. table_transitive };

    ghost agrees = { λ s. table_agrees };
}

impl NodesMut for NodeTable {
    fn set_left(&mut self, node: u64, to: Option<u64>) {
        self.left[node as usize] = value(to);
    }

    fn set_right(&mut self, node: u64, to: Option<u64>) {
        self.right[node as usize] = value(to);
    }

    fn set_red(&mut self, node: u64, red: bool) {
        self.red[node as usize] = colour(red);
    }
}

/// Nodes that are the numbers below 64, in their order, and probes that are numbers.
pub trait Numbered: NodesMut<Probe = u64> {
    ghost numbers: { (s : Self) → Self.is_node s ≡ (λ n. nat_lt n 64) };

    ghost in_order: { (s : Self) → Self.order s ≡ nat_lt };

    ghost probed: { (s : Self) (probe : ℕ) → Self.before s probe ≡ (λ n. nat_lt n probe) };
}

impl Numbered for NodeTable {
    ghost numbers = { λ s. refl };

    ghost in_order = { λ s. refl };

    ghost probed = { λ s probe. refl };
}

/// Returns a table in which no node leads anywhere, and all are black.
pub fn empty_table() -> NodeTable {
    NodeTable {
        left: [NOWHERE; 64],
        right: [NOWHERE; 64],
        red: [0; 64],
    }
}
