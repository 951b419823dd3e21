//! Lists the nodes of a tree in order, from a probe on.

ghost use Rattle.std.specs.Prelude.{◌≡◌, ◌+◌, ◌*◌, ◌<◌, ◌≤◌, ◌^◌, true, false, Option, Some, length, min};
ghost use Rattle.link_tree.specs.Tree.{Tree, IsSearchTree, nodes_of, bits};
ghost use Rattle.link_tree.specs.Nodes.{leads};
ghost use Rattle.link_tree.specs.Listing.{IsLowSearchTree, Lists, filled, nodes_from};

use crate::checking::MAX_HEIGHT;
use crate::cursor::{CountedNodes, NodeCursor, Side, count_steps};
use crate::nodes::Nodes;

/// The result of a listing: how many nodes the list has, and the number of steps.
#[derive(Clone, Copy)]
pub struct Listing {
    /// The number of nodes in the list.
    pub count: usize,
    /// The number of steps.
    pub steps: u64,
}

/// Appends the nodes behind the link, down to `levels` levels, to a list that has `count` nodes so far. Returns its new
/// count.
fn list_below<N: Nodes + Copy>(
    nodes: CountedNodes<N>,
    visits: &mut NodeCursor,
    link: Option<u64>,
    list: &mut [u64],
    count: usize,
    levels: u64,
) -> usize
    requires link { leads (N.is_node nodes) link ≡ true }
    requires count { count ≤ length list.old }
    requires tree { (t : Tree) × IsLowSearchTree (N.order nodes) (N.cells nodes) link levels t
        × (visits.old.steps + length (nodes_of t) + 1 < 2 ^ 64) }
    // It lists as if no node preceded a probe.
    ensures listing { (t : Tree) → IsLowSearchTree (N.order nodes) (N.cells nodes) link levels t
        → Lists (λ _. false) t list.old count list.new result visits.old.steps visits.new.steps }
    ensures in_bounds { result ≤ length list.new }
{
    let Some(node) = link else {
        return count;
    };
    if count == list.len() {
        return count;
    }
    let left = visits.child(&nodes, node, Side::Left);
    let right = visits.child(&nodes, node, Side::Right);
    let listed = list_below(nodes, visits, left, list, count, levels - 1);
    if listed == list.len() {
        return listed;
    }
    list[listed] = node;
    list_below(nodes, visits, right, list, listed + 1, levels - 1)
}

/// Writes the nodes behind the link that do not precede the probe to the first places of the list, down to `levels`
/// levels. Returns how many it wrote. It compares only nodes of the path to the first of them.
fn list_from<N: Nodes + Copy>(
    nodes: CountedNodes<N>,
    visits: &mut NodeCursor,
    link: Option<u64>,
    probe: &N::Probe,
    list: &mut [u64],
    levels: u64,
) -> usize
    requires link { leads (N.is_node nodes) link ≡ true }
    requires tree { (t : Tree) × IsLowSearchTree (N.order nodes) (N.cells nodes) link levels t
        × (visits.old.steps + length (nodes_of t) + 1 < 2 ^ 64) }
    ensures listing { (t : Tree) → IsLowSearchTree (N.order nodes) (N.cells nodes) link levels t
        → Lists (N.before nodes probe.now) t list.old 0 list.new result visits.old.steps visits.new.steps }
    ensures in_bounds { result ≤ length list.new }
{
    let Some(node) = link else {
        return 0;
    };
    let before = visits.before_probe(&nodes, node, probe);
    let right = visits.child(&nodes, node, Side::Right);
    if before {
        return list_from(nodes, visits, right, probe, list, levels - 1);
    }
    let left = visits.child(&nodes, node, Side::Left);
    let listed = list_from(nodes, visits, left, probe, list, levels - 1);
    if listed == list.len() {
        return listed;
    }
    list[listed] = node;
    list_below(nodes, visits, right, list, listed + 1, levels - 1)
}

/// Writes the nodes that do not precede the probe to the list, in order from the first one on, as many as the list has
/// places for. The places behind them keep what they have.
///
/// A step is a visit of a node, with all reads of its fields until the listing goes to another node. The listing
/// visits the nodes that it lists, and at most two paths from the root.
pub fn list_nodes_from<N: Nodes>(
    nodes: &N,
    root: Option<u64>,
    probe: &N::Probe,
    list: &mut [u64],
) -> Listing
    requires root { leads (N.is_node nodes.now) root ≡ true }
    requires tree { (t : Tree) × IsSearchTree (N.order nodes.now) (N.cells nodes.now) root t }
    ensures list { (t : Tree) → IsSearchTree (N.order nodes.now) (N.cells nodes.now) root t
        → list.new ≡ filled list.old (nodes_from (N.before nodes.now probe.now) (nodes_of t)) }
    ensures count { (t : Tree) → IsSearchTree (N.order nodes.now) (N.cells nodes.now) root t
        → result.count ≡ min (length list.old) (length (nodes_from (N.before nodes.now probe.now) (nodes_of t))) }
    ensures steps { (t : Tree) → IsSearchTree (N.order nodes.now) (N.cells nodes.now) root t
        → result.steps ≤ result.count + 4 * bits (length (nodes_of t) + 1) }
{
    let (nodes, mut visits) = count_steps(nodes);
    let count = list_from(nodes, &mut visits, root, probe, list, MAX_HEIGHT);
    Listing {
        count,
        steps: visits.steps(),
    }
}
