//! Tests of the calls on trees, with a table of nodes.

ghost use Rattle.std.specs.Prelude.{◌≡◌, ◌≢◌, ℕ, ◌+◌, ◌<◌, ◌≤◌, Bool, true, false, Option, Some, None, length, nat_lt};
ghost use Rattle.std.specs.Prelude.{nat_eq, refl};
ghost use Rattle.link_tree.specs.Tree.{Tree, IsSearchTree, nodes_of};
ghost use Rattle.link_tree.specs.Nodes.{leads, is_in, is_ordered_with};

use crate::checks::{holds, same};
use crate::node_tables::{Numbered, empty_table};
use link_tree::{NodesMut, check, find_first_not_before, insert, remove, walk};
use std::process::Abort;

/// Returns true if the node is in the tree. Fails if the links are no tree.
fn has<R: Abort, N: Numbered>(rt: &R, nodes: &N, root: Option<u64>, node: u64) -> bool
    requires { leads (N.is_node nodes.now) root ≡ true }
    ensures { (t : Tree) × IsSearchTree (N.order nodes.now) (N.cells nodes.now) root t
        × (result ≡ true → is_in node (nodes_of t) ≡ true)
        × (result ≡ false → is_ordered_with (N.order nodes.now) node (nodes_of t) ≡ true) }
{
    let Some(_count) = check(nodes, root).nodes else {
        panic!(rt; "the links are no tree");
    };
    let found = find_first_not_before(nodes, root, &node);
    found.node == Some(node)
}

/// Inserts a node and returns the new root. Fails if the links are no tree or the node is in it already.
fn insert_node<R: Abort, N: Numbered>(
    rt: &R,
    nodes: &mut N,
    root: Option<u64>,
    node: u64,
) -> Option<u64>
    requires root { leads (N.is_node nodes.old) root ≡ true }
    requires node { node < 64 }
    ensures { leads (N.is_node nodes.new) result ≡ true }
{
    if has(rt, nodes, root, node) {
        panic!(rt; "the node is in the tree already");
    }
    insert(nodes, root, node).root
}

/// Removes a node and returns the new root. Fails if the links are no tree or the node is not in it.
fn take<R: Abort, N: Numbered>(rt: &R, nodes: &mut N, root: Option<u64>, node: u64) -> Option<u64>
    requires root { leads (N.is_node nodes.old) root ≡ true }
    ensures { leads (N.is_node nodes.new) result ≡ true }
{
    if !has(rt, nodes, root, node) {
        panic!(rt; "the node is not in the tree");
    }
    remove(nodes, root, node).root
}

/// Returns true if a walk meets the numbers below `count` in order and nothing else. Fails if the links are no tree.
fn meets_all<R: Abort, N: Numbered>(rt: &R, nodes: &N, root: Option<u64>, count: u64) -> bool
    requires root { leads (N.is_node nodes.now) root ≡ true }
{
    let Some(_count) = check(nodes, root).nodes else {
        panic!(rt; "the links are no tree");
    };
    let mut next = 0u64;
    let mut collect = |node| {
        if node == next {
            next = next.wrapping_add(1);
        }
    };
    let steps = walk(nodes, root, &mut collect);
    steps == count && next == count
}

/// Inserts the nodes `i * step % 64` for `i` from 0 to 63, walks over them, and removes the nodes `i * back % 64`.
fn fill_and_empty<R: Abort, N: Numbered>(rt: &R, nodes: &mut N, step: u64, back: u64)
    requires step { step < 64 }
    requires return_path { back < 64 }
{
    let mut root = None;
    for i in 0..64u64 {
        root = insert_node(rt, nodes, root, i * step % 64);
        same(rt, check(nodes, root).nodes, Some(i + 1));
    }
    holds(rt, meets_all(rt, nodes, root, 64));
    for i in 0..64u64 {
        root = take(rt, nodes, root, i * back % 64);
        same(rt, check(nodes, root).nodes, Some(63 - i));
    }
}

#[test]
fn orders(rt: HostRuntime) {
    for (step, back) in [(1, 1), (1, 63), (63, 1), (37, 11), (11, 37), (5, 5)] {
        fill_and_empty(&rt, &mut empty_table(), step, back);
    }
}

/// Checks cycles and a shared node, which are no tree: `check` ends and rejects them.
#[test]
fn no_trees(rt: HostRuntime) {
    let mut cycle = empty_table();
    cycle.set_left(0, Some(0));
    same(&rt, check(&cycle, Some(0)).nodes, None);
    let mut wide_cycle = empty_table();
    wide_cycle.set_left(4, Some(2));
    wide_cycle.set_right(2, Some(4));
    same(&rt, check(&wide_cycle, Some(4)).nodes, None);
    let mut shared = empty_table();
    shared.set_left(4, Some(2));
    shared.set_right(4, Some(6));
    shared.set_right(2, Some(3));
    shared.set_red(3, true);
    same(&rt, check(&shared, Some(4)).nodes, Some(4));
    shared.set_left(6, Some(3));
    same(&rt, check(&shared, Some(4)).nodes, None);
}
