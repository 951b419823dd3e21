//! The pairs of a map as the nodes of a tree.
ghost use Rattle.std.specs.Prelude.{◌≡◌, ℕ, ◌+◌};
ghost use Rattle.raw_region.specs.Memory.{WindowState};
ghost use Rattle.seg_types.specs.Plain.{value_in};
ghost use Rattle.seg_map.specs.PairNodes.{PairTreeFrame as WhatStays, comes_before, is_pair_node, kept_of, key_of};
ghost use Rattle.seg_map.specs.PairNodes.{pair_cells};
ghost use Rattle.seg_map.specs.PairLaws.{comes_agrees, comes_irreflexive, comes_transitive, pairs_finite, pairs_left};
ghost use Rattle.seg_map.specs.{Linking.keys_in, PairNodes.stands_before, PairLaws.pairs_right};

use crate::reading::{KEY_OFFSET, KeyProbe, value_at};
use best_fit::{Heap, RIGHT_LINK};
use link_tree::{Nodes, NodesMut};
use raw_region::Snapshot;
use seg_types::Plain;
use std::marker::{Model, PhantomData};

/// A heap that is lent to a call of the tree, for reading or for writing.
pub trait HeapRef {
    // The state of the heap.
    ghost cut: { Self → WindowState };

    // The name of the reference, if the heap is lent for writing.
    ghost lender: { Self → ℕ } = { λ _. 0 };

    /// Returns the heap for reading.
    fn heap(&self) -> &Heap
        ensures { result.now ≡ cut self.now };
}

impl HeapRef for &Heap {
    ghost cut = { λ s. s.now };

    #[inline(always)]
    fn heap(&self) -> &Heap {
        self
    }
}

impl HeapRef for &mut Heap {
    ghost cut = { λ s. s.now };

    ghost lender = { λ s. s.ghost_name };

    #[inline(always)]
    fn heap(&self) -> &Heap {
        self
    }
}

/// The nodes of one map: the nodes of its tree at the time when the set was made, and one spare node. Later writes do
/// not change the set.
#[derive(Drop)]
pub struct NodeSet {
    then: Snapshot,
    root: Option<u64>,
    spare: Option<u64>,
}

impl Model for NodeSet {
    ghost use Rattle.std.specs.Prelude.{ℕ, List};
    ghost use Rattle.seg_map.specs.PairNodes.{own_nodes};

    ghost Value = { List ℕ };

    ghost view = { λ o. own_nodes o.then o.root o.spare };
}

impl NodeSet {
    ghost use Rattle.std.specs.Prelude.{◌≡◌};
    ghost use Rattle.seg_map.specs.PairNodes.{own_nodes};

    /// Makes the set of the nodes behind `root`, and of the spare node, which the caller will insert.
    pub fn new(heap: &Heap, root: Option<u64>, spare: Option<u64>) -> NodeSet
        ensures { result ≡ own_nodes heap.now.bytes root spare }
    {
        NodeSet {
            then: Snapshot::take(heap.as_bytes()),
            root,
            spare,
        }
    }
}

/// A heap with the pairs of one map, and the link to the root of their tree.
#[derive(Drop)]
pub struct PairTree<H, K> {
    /// The heap with the nodes.
    pub heap: H,
    /// The blocks that are nodes.
    pub own: NodeSet,
    /// The root of the tree.
    pub root: Option<u64>,
    /// The type of the keys.
    pub keys: PhantomData<K>,
}

#[tactic(auto, using(crate::proofs::pairs::NodeBlocks::nodes))]
impl<H: HeapRef, K: Plain> Nodes for PairTree<H, K> {
    type Probe = KeyProbe<K>;

    ghost cells = { λ s. pair_cells (16 + K.SIZE) s.own (H.cut s.heap) };

    ghost is_node = { λ s. is_pair_node (16 + K.SIZE) s.own (H.cut s.heap) };

    ghost order = { λ s. comes_before K.order (keys_in K.Plain s.own (H.cut s.heap)) };

    ghost before = { λ s wanted. stands_before K.order (keys_in K.Plain s.own (H.cut s.heap)) wanted.past wanted.key };

    ghost lender = { λ s. H.lender s.heap };

    ghost Kept = { WhatStays };

    ghost kept = { λ s. kept_of s.own (H.cut s.heap) };

    fn left(&self, node: u64) -> Option<u64> {
        self.heap.heap().link(node, 0)
    }

    fn right(&self, node: u64) -> Option<u64> {
        self.heap.heap().link(node, RIGHT_LINK)
    }

    fn red(&self, node: u64) -> bool {
        self.heap.heap().node_red(node)
    }

    fn precedes(&self, a: u64, b: u64) -> bool {
        let heap = self.heap.heap();
        match (
            value_at::<K>(heap, a, KEY_OFFSET),
            value_at::<K>(heap, b, KEY_OFFSET),
        ) {
            (Some(first), Some(second)) => first.precedes(second),
            _ => false,
        }
    }

    fn before_probe(&self, node: u64, probe: &KeyProbe<K>) -> bool {
        match value_at::<K>(self.heap.heap(), node, KEY_OFFSET) {
            None => false,
            Some(key) if probe.past => !probe.key.precedes(key),
            Some(key) => key.precedes(probe.key),
        }
    }

    ghost finite = { λ s. pairs_finite (16 + K.SIZE) s.own (H.cut s.heap) };

    ghost left_closed = { λ s. pairs_left (16 + K.SIZE) s.own (H.cut s.heap) };

    ghost right_closed = { λ s. pairs_right (16 + K.SIZE) s.own (H.cut s.heap) };

    ghost irreflexive = { λ s. comes_irreflexive K.order K.irreflexive
        (key_of (value_in K.reading K.is_value K.spelling) K.SIZE s.own (H.cut s.heap)) };

    ghost transitive = { λ s. comes_transitive K.order K.transitive
        (key_of (value_in K.reading K.is_value K.spelling) K.SIZE s.own (H.cut s.heap)) };

    ghost agrees = { λ s wanted. comes_agrees K.order K.transitive
        (key_of (value_in K.reading K.is_value K.spelling) K.SIZE s.own (H.cut s.heap)) wanted.past wanted.key };
}

#[tactic(auto, using(crate::proofs::pairs::NodeBlocks::nodes))]
impl<'a, K: Plain> NodesMut for PairTree<&'a mut Heap, K> {
    fn set_left(&mut self, node: u64, to: Option<u64>) {
        self.heap.set_link(node, 0, to);
    }

    fn set_right(&mut self, node: u64, to: Option<u64>) {
        self.heap.set_link(node, RIGHT_LINK, to);
    }

    fn set_red(&mut self, node: u64, red: bool) {
        self.heap.set_node_red(node, red);
    }
}
