//! Links nodes into the tree of a map and unlinks them, and writes the map's three words.
ghost use Rattle.std.specs.Prelude.{◌≡◌, ◌+◌, ◌%◌, ◌<◌, IfSome, IsTrue};
ghost use Rattle.best_fit.specs.{Extents.is_proper, Heap.has_room, Heap.heap_touches, Heap.live_of};
ghost use Rattle.seg_map.specs.PairNodes.{own_nodes};
ghost use Rattle.seg_map.specs.Changing.{CanUnlinkPair, CanLinkPair, Drops, InsertSteps, LinksPair};
ghost use Rattle.seg_map.specs.Changing.{TreeSteps, WritesMapHeader};

use crate::finding::KeyCursor;
use crate::maps::SegMap;
use crate::nodes::{NodeSet, PairTree};
use best_fit::{Heap, Place};
use link_tree::{insert_at, remove_at};
use raw_region::Steps;
use seg_types::Plain;
use std::marker::PhantomData;

/// The distance in bytes from a map's link to its number of pairs. The third word is 0.
pub const COUNT: u64 = 8;

const THIRD: u64 = 16;

/// Writes the three words of a map: the link to the root, the number of pairs, and 0.
pub fn write_map_header(heap: &mut Heap, place: Place, root: Option<u64>, count: u64)
    requires aligned { place.at % 8 ≡ 0 }
    requires proper { IsTrue (is_proper (live_of heap.old.bytes)) }
    requires room { IsTrue (has_room (live_of heap.old.bytes) place.handle (place.at + 24)) }
    requires root { IfSome root (λ node. node % 16 ≡ 0) }
    ensures { WritesMapHeader heap.old heap.new (place.handle + place.at) root count }
{
    heap.set_link(place.handle, place.at, root);
    heap.set_word(place.handle, place.at + COUNT, count);
    heap.set_word(place.handle, place.at + THIRD, 0);
}

impl<K: Plain, V: Plain> SegMap<K, V> {
    /// Removes a pair from the map and frees its block. The removal begins at the root or at the start that a search
    /// found.
    #[tactic(auto, using(crate::proofs::pairs::NodeBlocks::rooms, crate::proofs::pairs::Lists::removed_length))]
    pub(crate) fn unlink_pair(
        self,
        heap: &mut Heap,
        trace: &KeyCursor,
        node: u64,
        steps: &mut Steps,
    )
        requires { CanUnlinkPair K.Plain V.Plain heap.old self.place.handle self.place.at trace.now.root
            trace.now.start node }
        ensures changes { Drops K.Plain V.Plain heap.old heap.new self.place.handle self.place.at node }
        ensures steps_lower { steps.old + 1 < steps.new }
        ensures steps { TreeSteps K.Plain V.Plain heap.old self.place.handle self.place.at
            (heap_touches (live_of heap.old.bytes)) steps.old steps.new }
    {
        let count = self.len(&*heap);
        let mut pairs = lend::<K>(heap, trace.root, None);
        let changed = remove_at(&mut pairs, trace.root, trace.start, node);
        steps.add(changed.steps);
        write_map_header(heap, self.place, changed.root, count - 1);
        heap.deallocate(node, steps);
    }

    /// Links a pair whose node is allocated into the map. The insertion begins where the search for its key found.
    pub(crate) fn link_pair(self, heap: &mut Heap, trace: &KeyCursor, node: u64, steps: &mut Steps)
        requires { CanLinkPair K.Plain V.Plain heap.old self.place.handle self.place.at trace.now.root
            trace.now.start node }
        ensures tree { LinksPair K.Plain V.Plain heap.old heap.new self.place.handle self.place.at node }
        ensures steps_lower { steps.old < steps.new }
        ensures steps { InsertSteps K.Plain V.Plain heap.old self.place.handle self.place.at steps.old steps.new }
    {
        let count = self.len(&*heap);
        let mut pairs = lend::<K>(heap, trace.root, Some(node));
        let changed = insert_at(&mut pairs, trace.root, trace.start, node);
        steps.add(changed.steps);
        write_map_header(heap, self.place, changed.root, count + 1);
    }
}

/// Returns the pairs that a link leads to, and one spare node, as a tree for one call.
fn lend<'a, K: Plain>(
    heap: &'a mut Heap,
    root: Option<u64>,
    spare: Option<u64>,
) -> PairTree<&'a mut Heap, K>
    ensures same_borrow { result.heap.ghost_name ≡ heap.entry.ghost_name }
    ensures heap { result.heap.now ≡ heap.old }
    ensures ownership { result.own ≡ own_nodes heap.old.bytes root spare }
{
    let own = NodeSet::new(&*heap, root, spare);
    PairTree {
        heap,
        own,
        root,
        keys: PhantomData,
    }
}
