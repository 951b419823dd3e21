//! Lists the nodes of a map's pairs, and reads the pairs at nodes.
ghost use Rattle.std.specs.Prelude.{◌≤◌, length};
ghost use Rattle.seg_map.specs.Listing.{HasNode, ListingSteps, ListsNodes, ReadsNode};
ghost use Rattle.seg_map.specs.{Places.IsSomeMap};

use crate::maps::SegMap;
use crate::reading::{KeyProbe, pair_at};
use best_fit::Heap;
use link_tree::list_nodes_from;
use raw_region::Steps;
use seg_types::Plain;

impl<K: Plain, V: Plain> SegMap<K, V> {
    /// Lists the nodes of the pairs whose keys are not below `from`, or above it if `past` is set, by rising keys, in
    /// the first places of the list, as many as it has places for. Returns how many they are; the other places keep
    /// what they have.
    pub fn nodes_from(
        self,
        heap: &Heap,
        from: K,
        past: bool,
        list: &mut [u64],
        steps: &mut Steps,
    ) -> usize
        requires { IsSomeMap K.Plain V.Plain heap.now.bytes self.place.handle self.place.at }
        ensures list { ListsNodes K.Plain V.Plain heap.now.bytes self.place past from list.old list.new result }
        ensures in_bounds { result ≤ length list.new }
        ensures steps_lower { steps.old ≤ steps.new }
        ensures steps { ListingSteps K.Plain V.Plain heap.now.bytes self.place result steps.old steps.new }
    {
        let pairs = self.open(heap);
        let found = list_nodes_from(&pairs, pairs.root, &KeyProbe { key: from, past }, list);
        steps.add(found.steps);
        found.count
    }

    /// Returns the pair of a node of the map, as `nodes_from` lists them.
    pub fn pair_of(self, heap: &Heap, node: u64) -> Option<(K, V)>
        requires { HasNode K.Plain V.Plain heap.now.bytes self.place node }
        ensures { ReadsNode K.Plain V.Plain heap.now.bytes self.place node result }
    {
        pair_at(heap, node)
    }
}
