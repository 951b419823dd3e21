//! Searches for pairs.
ghost use Rattle.std.specs.Prelude.{◌≡◌, ◌+◌, ◌≤◌, true, false, Option, Some, IfSome, IsTrue, option_and_then};
ghost use Rattle.raw_region.specs.Memory.{bytes_of};
ghost use Rattle.offset_link.specs.Link.{link_at};
ghost use Rattle.link_tree.specs.Nodes.{leads};
ghost use Rattle.best_fit.specs.Heap.{has_room, live_of};
ghost use Rattle.seg_map.specs.Searches.{FindsEntry, FindsExit, OpensPairTree, LastTakes, LookBackTakes, LookupSteps};
ghost use Rattle.seg_map.specs.Searches.{EndsSearch, LooksFor, LooksUp, item_at, node_with, path_in, reading_steps};
ghost use Rattle.seg_map.specs.Places.{FindsItem, FindsItemBefore, FindsLastItem, FindsValue, IsSomeMap, SearchSteps};
ghost use Rattle.seg_map.specs.{Linking.HasKeyTree, PairNodes.is_pair_node, Places.first_pair, Places.last_pair};

use crate::maps::SegMap;
use crate::nodes::{NodeSet, PairTree};
use crate::reading::{KEY_OFFSET, KeyProbe, pair_at, value_at};
use best_fit::Heap;
use link_tree::{
    SearchResult, find_entry, find_first_not_before, find_last, find_last_before, find_path_end,
    find_remove_point,
};
use raw_region::Steps;
use seg_types::Plain;
use std::marker::PhantomData;

/// The result of a search for a key: the root of the map's tree, the key's node, and the node at which a change of the
/// tree begins.
#[derive(Clone, Copy)]
pub struct KeyCursor {
    /// The root; none if the map is empty.
    pub root: Option<u64>,
    /// The node; none if the map lacks the key.
    pub node: Option<u64>,
    /// The node at which the change begins; none if it begins at the root.
    pub start: Option<u64>,
}

/// The result of a put's search for its key.
#[derive(Clone, Copy)]
pub struct KeyPath {
    /// The node; none if the map lacks the key.
    pub node: Option<u64>,
    /// The last node on the path of the search; none if the map is empty.
    pub last: Option<u64>,
}

impl<K: Plain, V: Plain> SegMap<K, V> {
    /// Returns the value of a key, or `None` if the map lacks the key.
    pub fn get(self, heap: &Heap, key: K, steps: &mut Steps) -> Option<V>
        requires { IsSomeMap K.Plain V.Plain heap.now.bytes self.place.handle self.place.at }
        ensures value { FindsValue K.Plain V.Plain heap.now.bytes self.place.handle self.place.at key result }
        ensures steps_lower { steps.old ≤ steps.new }
        ensures steps { SearchSteps K.Plain V.Plain heap.now.bytes self.place 1 steps.old steps.new }
        ensures steps_exact { LookupSteps K.Plain V.Plain heap.now self.place false key steps.old steps.new }
    {
        let (found, value) = self.first_from(heap, key, steps)?;
        (!key.precedes(found)).then_some(value)
    }

    /// Returns the pair with the least key that is not below `key`, or `None` if there is none.
    pub fn first_from(self, heap: &Heap, key: K, steps: &mut Steps) -> Option<(K, V)>
        requires { IsSomeMap K.Plain V.Plain heap.now.bytes self.place.handle self.place.at }
        ensures item { FindsItem K.Plain V.Plain heap.now.bytes self.place.handle self.place.at false key result }
        ensures steps_lower { steps.old ≤ steps.new }
        ensures steps { SearchSteps K.Plain V.Plain heap.now.bytes self.place 1 steps.old steps.new }
        ensures steps_exact { LookupSteps K.Plain V.Plain heap.now self.place false key steps.old steps.new }
    {
        self.find_from(heap, &KeyProbe { key, past: false }, steps)
    }

    /// Returns the pair with the least key above `key`, or `None` if there is none.
    pub fn next_after(self, heap: &Heap, key: K, steps: &mut Steps) -> Option<(K, V)>
        requires { IsSomeMap K.Plain V.Plain heap.now.bytes self.place.handle self.place.at }
        ensures item { FindsItem K.Plain V.Plain heap.now.bytes self.place.handle self.place.at true key result }
        ensures steps_lower { steps.old ≤ steps.new }
        ensures steps { SearchSteps K.Plain V.Plain heap.now.bytes self.place 1 steps.old steps.new }
        ensures steps_exact { LookupSteps K.Plain V.Plain heap.now self.place true key steps.old steps.new }
    {
        self.find_from(heap, &KeyProbe { key, past: true }, steps)
    }

    /// Returns the pair with the greatest key, or `None` if the map is empty.
    pub fn last(self, heap: &Heap, steps: &mut Steps) -> Option<(K, V)>
        requires { IsSomeMap K.Plain V.Plain heap.now.bytes self.place.handle self.place.at }
        ensures item { FindsLastItem K.Plain V.Plain heap.now.bytes self.place.handle self.place.at result }
        ensures steps_lower { steps.old ≤ steps.new }
        ensures steps { SearchSteps K.Plain V.Plain heap.now.bytes self.place 1 steps.old steps.new }
        ensures steps_exact { LastTakes K.Plain V.Plain heap.now self.place steps.old steps.new }
    {
        let pairs = self.open(heap);
        let found = find_last(&pairs, pairs.root);
        read_found(heap, found, steps)
    }

    /// Returns the pair with the greatest key that is not above `key`, or `None` if there is none.
    pub fn last_up_to(self, heap: &Heap, key: K, steps: &mut Steps) -> Option<(K, V)>
        requires { IsSomeMap K.Plain V.Plain heap.now.bytes self.place.handle self.place.at }
        ensures item { FindsItemBefore K.Plain V.Plain heap.now.bytes self.place.handle self.place.at true key result }
        ensures steps_lower { steps.old ≤ steps.new }
        ensures steps { SearchSteps K.Plain V.Plain heap.now.bytes self.place 1 steps.old steps.new }
        ensures steps_exact { LookBackTakes K.Plain V.Plain heap.now self.place true key steps.old steps.new }
    {
        self.find_before(heap, &KeyProbe { key, past: true }, steps)
    }

    /// Returns the pair with the greatest key below `key`, or `None` if there is none.
    pub fn previous_before(self, heap: &Heap, key: K, steps: &mut Steps) -> Option<(K, V)>
        requires { IsSomeMap K.Plain V.Plain heap.now.bytes self.place.handle self.place.at }
        ensures item { FindsItemBefore K.Plain V.Plain heap.now.bytes self.place.handle self.place.at false key result }
        ensures steps_lower { steps.old ≤ steps.new }
        ensures steps { SearchSteps K.Plain V.Plain heap.now.bytes self.place 1 steps.old steps.new }
        ensures steps_exact { LookBackTakes K.Plain V.Plain heap.now self.place false key steps.old steps.new }
    {
        self.find_before(heap, &KeyProbe { key, past: false }, steps)
    }

    /// Returns the map's pairs as a tree, for a search.
    pub(crate) fn open(self, heap: &Heap) -> PairTree<&Heap, K>
        requires { IsSomeMap K.Plain V.Plain heap.now.bytes self.place.handle self.place.at }
        ensures root { result.root ≡ link_at (bytes_of heap.now.bytes) (self.place.handle + self.place.at) }
        ensures link_target { leads (is_pair_node (16 + K.SIZE) result.own result.heap.now) result.root ≡ true }
        ensures tree { HasKeyTree K.Plain result.own result.heap.now result.root }
        ensures opening { OpensPairTree K.Plain V.Plain result.heap.now heap.now self.place result.own result.root }
    {
        let root = heap.link(self.place.handle, self.place.at);
        PairTree {
            heap,
            own: NodeSet::new(heap, root, None),
            root,
            keys: PhantomData,
        }
    }

    /// Returns the first pair that does not precede the probe.
    fn find_from(self, heap: &Heap, sought: &KeyProbe<K>, steps: &mut Steps) -> Option<(K, V)>
        requires { IsSomeMap K.Plain V.Plain heap.now.bytes self.place.handle self.place.at }
        ensures { LooksUp K.Plain V.Plain heap.now self.place (first_pair K.order sought.now.past sought.now.key)
            (path_in K.Plain heap.now sought.now.past sought.now.key) result steps.old steps.new }
    {
        let pairs = self.open(heap);
        let found = find_first_not_before(&pairs, pairs.root, sought);
        read_found(heap, found, steps)
    }

    /// Returns the last pair that precedes the probe.
    fn find_before(self, heap: &Heap, sought: &KeyProbe<K>, steps: &mut Steps) -> Option<(K, V)>
        requires { IsSomeMap K.Plain V.Plain heap.now.bytes self.place.handle self.place.at }
        ensures { LooksUp K.Plain V.Plain heap.now self.place (last_pair K.order sought.now.past sought.now.key)
            (path_in K.Plain heap.now sought.now.past sought.now.key) result steps.old steps.new }
    {
        let pairs = self.open(heap);
        let found = find_last_before(&pairs, pairs.root, sought);
        read_found(heap, found, steps)
    }

    /// Returns the node of a key, and the last node on the path of the search. It reads no colour.
    pub(crate) fn find_for_put(self, heap: &Heap, key: K, steps: &mut Steps) -> KeyPath
        requires map { IsSomeMap K.Plain V.Plain heap.now.bytes self.place.handle self.place.at }
        ensures search { LooksFor K.Plain V.Plain heap.now self.place key result.node steps.old steps.new }
        ensures value { IfSome result.node (λ node. K.is_value key ≡ true) }
        ensures last { EndsSearch K.Plain V.Plain heap.now self.place key result.last }
    {
        let pairs = self.open(heap);
        let end = find_path_end(&pairs, pairs.root, &KeyProbe { key, past: false });
        steps.add(end.steps);
        KeyPath {
            node: with_key(heap, end.node, key, steps),
            last: end.last,
        }
    }

    /// Returns where the insertion of a node with a key begins, from the end of the path of the search for the key.
    pub(crate) fn find_put_entry(
        self,
        heap: &Heap,
        key: K,
        last: Option<u64>,
        steps: &mut Steps,
    ) -> KeyCursor
        requires map { IsSomeMap K.Plain V.Plain heap.now.bytes self.place.handle self.place.at }
        requires last { EndsSearch K.Plain V.Plain heap.now self.place key last }
        ensures root { result.root ≡ link_at (bytes_of heap.now.bytes) (self.place.handle + self.place.at) }
        ensures entry { FindsEntry K.Plain V.Plain heap.now self.place key result.start }
        ensures steps_lower { steps.old ≤ steps.new }
        ensures steps { SearchSteps K.Plain V.Plain heap.now.bytes self.place 0 steps.old steps.new }
    {
        let pairs = self.open(heap);
        let way = find_entry(&pairs, pairs.root, &KeyProbe { key, past: false }, last);
        steps.add(way.steps);
        KeyCursor {
            root: pairs.root,
            node: None,
            start: way.entry,
        }
    }

    /// Returns the node of a key, and where its removal begins.
    pub(crate) fn find_for_erase(self, heap: &Heap, key: K, steps: &mut Steps) -> KeyCursor
        requires map { IsSomeMap K.Plain V.Plain heap.now.bytes self.place.handle self.place.at }
        ensures search { LooksFor K.Plain V.Plain heap.now self.place key result.node steps.old steps.new }
        ensures value { IfSome result.node (λ node. K.is_value key ≡ true) }
        ensures root { result.root ≡ link_at (bytes_of heap.now.bytes) (self.place.handle + self.place.at) }
        ensures exit { FindsExit K.Plain V.Plain heap.now self.place result.node result.start }
    {
        let pairs = self.open(heap);
        let way = find_remove_point(&pairs, pairs.root, &KeyProbe { key, past: false });
        steps.add(way.steps);
        KeyCursor {
            root: pairs.root,
            node: with_key(heap, way.node, key, steps),
            start: way.exit,
        }
    }
}

/// Reads the pair that a search found, and counts the steps of the search.
fn read_found<K: Plain, V: Plain>(
    heap: &Heap,
    found: SearchResult,
    steps: &mut Steps,
) -> Option<(K, V)>
    requires { IfSome found.node (λ n. IsTrue (has_room (live_of heap.now.bytes) n (16 + K.SIZE + V.SIZE))) }
    ensures item { result ≡ option_and_then (item_at K.Plain V.Plain (bytes_of heap.now.bytes)) found.node }
    ensures steps { steps.new ≡ steps.old + found.steps + reading_steps found.node }
{
    steps.add(found.steps);
    let node = found.node?;
    steps.add(1);
    pair_at(heap, node)
}

/// Returns the node that a search for a key found, if the node has this key.
fn with_key<K: Plain>(heap: &Heap, node: Option<u64>, key: K, steps: &mut Steps) -> Option<u64>
    requires { IfSome node (λ n. IsTrue (has_room (live_of heap.now.bytes) n (16 + K.SIZE))) }
    ensures node { result ≡ option_and_then (node_with K.Plain (bytes_of heap.now.bytes) key) node }
    ensures result { IfSome result (λ n. node ≡ Some n) }
    ensures value { IfSome result (λ n. K.is_value key ≡ true) }
    ensures steps { steps.new ≡ steps.old + reading_steps node }
{
    let node = node?;
    steps.add(1);
    let found = value_at::<K>(heap, node, KEY_OFFSET)?;
    (!key.precedes(found)).then_some(node)
}
