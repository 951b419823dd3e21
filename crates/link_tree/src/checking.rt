//! Checks that links form an ordered red-black tree.

ghost use Rattle.std.specs.Prelude.{◌≡◌, ◌↔◌, ℕ, ◌+◌, ◌*◌, ◌<◌, ◌≤◌, ◌^◌, Bool, true, false, Option, Some, None, List};
ghost use Rattle.std.specs.Prelude.{length, IfSome, is_some, ◌⊎◌, if◌then◌else◌};
ghost use Rattle.link_tree.specs.Tree.{Cell, Tree, IsSearchTree, nodes_of, height, bits};
ghost use Rattle.link_tree.specs.Nodes.{leads, is_in};
ghost use Rattle.link_tree.specs.Between.{count_between, is_between};
ghost use Rattle.link_tree.specs.Checking.{IsLinkClosed, IsSound};

use crate::cursor::{CountedNodes, NodeCursor, Side, count_steps};
use crate::nodes::Nodes;

/// An upper bound on the height of a red-black tree with at most 2 to the 40th nodes.
pub const MAX_HEIGHT: u64 = 82;

/// The result of a check.
#[derive(Clone, Copy, Debug, PartialEq, Eq)]
pub struct CheckedTree {
    /// The number of nodes; none if the links form no ordered red-black tree.
    pub nodes: Option<u64>,
    /// The number of visits of nodes.
    pub steps: u64,
}

/// The size of a subtree, and the number of black nodes on each path from its root to a leaf.
#[derive(Clone, Copy)]
struct Part {
    nodes: u64,
    blacks: u64,
}

/// Returns true if the node follows `low` and precedes `high`, as far as they are there.
fn stands_between<N: Nodes + Copy>(
    nodes: CountedNodes<N>,
    visits: &mut NodeCursor,
    low: Option<u64>,
    node: u64,
    high: Option<u64>,
) -> bool
    requires min_value { leads (N.is_node nodes) low ≡ true }
    requires max_value { leads (N.is_node nodes) high ≡ true }
    requires node { N.is_node nodes node ≡ true }
    requires no_overflow { visits.old.steps + 4 < 2 ^ 64 }
    ensures value { result ≡ is_between (N.order nodes) low node high }
    ensures position { low ≡ None → high ≡ None → visits.new.at ≡ visits.old.at }
    ensures steps_lower { visits.old.steps ≤ visits.new.steps }
    ensures steps_upper { visits.new.steps ≤ visits.old.steps + 4 }
    // No node precedes itself, so each comparison visits two different nodes.
    ensures progress_on_step { result ≡ true → is_some low ≡ true ⊎ is_some high ≡ true
        → visits.old.steps < visits.new.steps }
{
    if let Some(low) = low {
        if !visits.precedes(&nodes, low, node) {
            return false;
        }
    }
    match high {
        Some(high) => visits.precedes(&nodes, node, high),
        None => true,
    }
}

/// Checks the subtree behind the link; its nodes must lie between `low` and `high`.
///
/// It visits no node twice between the same bounds, so it ends on cycles and shared nodes too. Each nested call has one
/// level less, so the depth is at most 82 calls for any links.
fn check_below<N: Nodes + Copy>(
    nodes: CountedNodes<N>,
    visits: &mut NodeCursor,
    link: Option<u64>,
    low: Option<u64>,
    high: Option<u64>,
    red_above: bool,
    levels: u64,
) -> Option<Part>
    requires height { levels ≤ 82 }
    requires link { leads (N.is_node nodes) link ≡ true }
    requires min_value { leads (N.is_node nodes) low ≡ true }
    requires max_value { leads (N.is_node nodes) high ≡ true }
    requires no_overflow { (ns : List ℕ) × IsLinkClosed (N.cells nodes) ns
        × (leads (λ n. is_in n ns) link ≡ true)
        × (visits.old.steps + 5 * count_between (N.order nodes) low high ns + 5 < 2 ^ 64) }
    ensures sound { IfSome result (λ part. (t : Tree)
        × IsSound (N.order nodes) (N.cells nodes) link low high red_above t part.blacks
        × (length (nodes_of t) ≡ part.nodes)) }
    // It finds each such tree of height at most `levels`.
    ensures complete { (t : Tree) (blacks : ℕ)
        → IsSound (N.order nodes) (N.cells nodes) link low high red_above t blacks
        → height t ≤ levels → is_some result ≡ true }
    ensures steps { (ns : List ℕ) → IsLinkClosed (N.cells nodes) ns
        → leads (λ n. is_in n ns) link ≡ true
        → visits.new.steps ≤ visits.old.steps + 5 * count_between (N.order nodes) low high ns
        + (if is_some result then 0 else 5) }
    // The check visits a node again after it has left it, and when it compares the node with a bound.
    ensures steps_lower { visits.old.at ≡ None ⊎ (is_some low ≡ true ⊎ is_some high ≡ true)
        → IfSome result (λ part. visits.old.steps + part.nodes ≤ visits.new.steps) }
    ensures blacks { IfSome result (λ part. part.blacks ≤ levels) }
{
    let Some(node) = link else {
        return Some(Part {
            nodes: 0,
            blacks: 0,
        });
    };
    if levels == 0 {
        return None;
    }
    if !stands_between(nodes, visits, low, node, high) {
        return None;
    }
    let red = visits.red(&nodes, node);
    let left = visits.child(&nodes, node, Side::Left);
    let right = visits.child(&nodes, node, Side::Right);
    if red && red_above {
        return None;
    }
    let Some(before) = check_below(nodes, visits, left, low, Some(node), red, levels - 1) else {
        return None;
    };
    let Some(behind) = check_below(nodes, visits, right, Some(node), high, red, levels - 1) else {
        return None;
    };
    if before.blacks != behind.blacks {
        return None;
    }
    let count = before.nodes + behind.nodes + 1;
    if red {
        return Some(Part {
            nodes: count,
            blacks: before.blacks,
        });
    }
    Some(Part {
        nodes: count,
        blacks: before.blacks + 1,
    })
}

/// Returns the number of nodes of the tree at the root, or none if the links form no ordered red-black tree.
///
/// The links can be any links between nodes: cycles and shared nodes are allowed. A step is a visit of a node, with all
/// reads of its fields until the check goes to another node.
pub fn check<N: Nodes>(nodes: &N, root: Option<u64>) -> CheckedTree
    requires { leads (N.is_node nodes.now) root ≡ true }
    // The count is n exactly if the links form an ordered red-black tree of n nodes.
    ensures count { (n : ℕ) → (result.nodes ≡ Some n)
        ↔ ((t : Tree) × IsSearchTree (N.order nodes.now) (N.cells nodes.now) root t
        × (length (nodes_of t) ≡ n)) }
    // `ns` can be any list of nodes that holds the root and is closed under links.
    ensures steps { (ns : List ℕ) → IsLinkClosed (N.cells nodes.now) ns
        → leads (λ n. is_in n ns) root ≡ true
        → result.steps ≤ 5 * length ns + 5 }
    // A check that succeeds visits each node at least once.
    ensures steps_lower { IfSome result.nodes (λ n. n ≤ result.steps) }
{
    let (nodes, mut visits) = count_steps(nodes);
    let Some(part) = check_below(nodes, &mut visits, root, None, None, true, MAX_HEIGHT) else {
        return CheckedTree {
            nodes: None,
            steps: visits.steps(),
        };
    };
    CheckedTree {
        nodes: Some(part.nodes),
        steps: visits.steps(),
    }
}
