//! Maps whose keys and values have a fixed number of bytes.
ghost use Rattle.std.specs.Prelude.{◌≡◌, ◌+◌, ◌%◌, ◌<◌, ◌≤◌, IfOk, IsTrue, false, true};
ghost use Rattle.best_fit.specs.{Extents.is_proper, Heap.has_room, Heap.heap_touches, Heap.live_of};
ghost use Rattle.seg_map.specs.Changing.{ChangeSteps, CountsPairs, ErasesKey, InitsMap, PutsPair, ReleasesMap};
ghost use Rattle.seg_map.specs.{Changing.TreeSteps, Places.IsSomeMap, Places.IsNewKey, Searches.EndsSearch};
ghost use Rattle.seg_map.specs.{Searches.LookupSteps, Searches.LooksUpFirst};

use crate::finding::KeyCursor;
use crate::linking::{COUNT, write_map_header};
use crate::putting::{allocate_node, write_value};
use crate::reading::KEY_OFFSET;
use best_fit::{Heap, NoSpace, Place};
use raw_region::Steps;
use seg_types::Plain;
use std::marker::PhantomData;

/// A map at a place in a heap: three words, which are the link to the root of a red-black tree, the number of pairs,
/// and 0. Each pair has a block, and keeps it until its key is erased.
///
/// The type stores only the place. Each call takes the heap as an argument, so that no borrow lasts between two calls.
#[derive(Clone, Copy)]
pub struct SegMap<K: Plain, V: Plain> {
    /// The place of the three words.
    pub place: Place,
    of: PhantomData<(K, V)>,
}

impl<K: Plain, V: Plain> SegMap<K, V> {
    /// Returns the map at a place.
    pub fn at(place: Place) -> SegMap<K, V>
        ensures { result.place ≡ place }
    {
        SegMap {
            place,
            of: PhantomData,
        }
    }

    /// Makes an empty map in the 24 bytes at a place, a multiple of 8 in a block in use.
    pub fn new(heap: &mut Heap, place: Place) -> SegMap<K, V>
        requires aligned { place.at % 8 ≡ 0 }
        requires proper { IsTrue (is_proper (live_of heap.old.bytes)) }
        requires room { IsTrue (has_room (live_of heap.old.bytes) place.handle (place.at + 24)) }
        ensures place { result.place ≡ place }
        ensures map { InitsMap K.Plain V.Plain heap.old heap.new place.handle place.at }
    {
        write_map_header(heap, place, None, 0);
        SegMap::at(place)
    }

    /// Returns the number of pairs.
    pub fn len(self, heap: &Heap) -> u64
        requires { IsSomeMap K.Plain V.Plain heap.now.bytes self.place.handle self.place.at }
        ensures { CountsPairs K.Plain V.Plain heap.now.bytes self.place.handle self.place.at result }
    {
        heap.word(self.place.handle, self.place.at + COUNT)
    }

    /// Sets the value of a key, and returns true if the key is new. All other pairs keep their blocks, and so does a
    /// pair whose key is not new.
    ///
    /// # Errors
    ///
    /// `NoSpace` if the key is new and no gap is long enough for its block. Nothing changes.
    pub fn put(self, heap: &mut Heap, key: K, value: V, steps: &mut Steps) -> Result<bool, NoSpace>
        requires { IsSomeMap K.Plain V.Plain heap.old.bytes self.place.handle self.place.at }
        ensures effect { PutsPair K.Plain V.Plain heap.old heap.new self.place.handle self.place.at key value result }
        ensures steps_lower { steps.old ≤ steps.new }
        ensures steps { ChangeSteps K.Plain V.Plain heap.old self.place.handle self.place.at steps.old steps.new }
        ensures search { LooksUpFirst K.Plain V.Plain heap.old self.place key 0 steps.old steps.new }
        ensures progress { IfOk result (λ new. new ≡ true
            → LooksUpFirst K.Plain V.Plain heap.old self.place key 2 steps.old steps.new) }
        ensures steps_exact { IfOk result (λ new. new ≡ false
            → LookupSteps K.Plain V.Plain heap.old self.place false key steps.old steps.new) }
    {
        let found = self.find_for_put(&*heap, key, steps);
        if let Some(node) = found.node {
            write_value::<V>(heap, node, KEY_OFFSET + K::SIZE, value);
            return Ok(false);
        }
        self.put_new(heap, key, value, found.last, steps)
    }

    /// Puts a pair whose key is new. The search for the key ended at the node `last`.
    ///
    /// # Errors
    ///
    /// `NoSpace` if no gap is long enough for the pair's block. Nothing changes.
    #[inline(never)]
    fn put_new(
        self,
        heap: &mut Heap,
        key: K,
        value: V,
        last: Option<u64>,
        steps: &mut Steps,
    ) -> Result<bool, NoSpace>
        requires map { IsSomeMap K.Plain V.Plain heap.old.bytes self.place.handle self.place.at }
        requires fresh { IsNewKey K.Plain V.Plain heap.old.bytes self.place.handle self.place.at key }
        requires last { EndsSearch K.Plain V.Plain heap.old self.place key last }
        ensures effect { PutsPair K.Plain V.Plain heap.old heap.new self.place.handle self.place.at key value result }
        ensures steps_lower { steps.old ≤ steps.new }
        ensures progress { IfOk result (λ new. (new ≡ true) × (steps.old + 2 ≤ steps.new)) }
        ensures steps { TreeSteps K.Plain V.Plain heap.old self.place.handle self.place.at
            (heap_touches (live_of heap.old.bytes)) steps.old steps.new }
    {
        let trace = self.find_put_entry(&*heap, key, last, steps);
        let node = allocate_node::<K, V>(heap, key, value, steps)?;
        self.link_pair(heap, &trace, node, steps);
        Ok(true)
    }

    /// Erases a key, frees its block and returns true. All other pairs keep their blocks. If the map lacks the key,
    /// nothing changes and it returns false.
    pub fn erase(self, heap: &mut Heap, key: K, steps: &mut Steps) -> bool
        requires { IsSomeMap K.Plain V.Plain heap.old.bytes self.place.handle self.place.at }
        ensures changes { ErasesKey K.Plain V.Plain heap.old heap.new self.place.handle self.place.at key result }
        ensures steps_lower { steps.old ≤ steps.new }
        ensures steps { ChangeSteps K.Plain V.Plain heap.old self.place.handle self.place.at steps.old steps.new }
        ensures progress { result ≡ true → LooksUpFirst K.Plain V.Plain heap.old self.place key 2 steps.old steps.new }
        ensures steps_exact { result ≡ false
            → LookupSteps K.Plain V.Plain heap.old self.place false key steps.old steps.new }
    {
        let trace = self.find_for_erase(&*heap, key, steps);
        let Some(node) = trace.node else {
            return false;
        };
        self.unlink_pair(heap, &trace, node, steps);
        true
    }

    /// Frees the blocks of all pairs. The map is then empty.
    pub fn release(self, heap: &mut Heap)
        requires { IsSomeMap K.Plain V.Plain heap.old.bytes self.place.handle self.place.at }
        ensures { ReleasesMap K.Plain V.Plain heap.old heap.new self.place.handle self.place.at }
    {
        // it removes the pair at the root each time: this needs no walk, and the map is valid at each moment
        'pairs: while let Some(node) = heap.link(self.place.handle, self.place.at) {
            let trace = KeyCursor {
                root: Some(node),
                node: Some(node),
                start: None,
            };
            self.unlink_pair(heap, &trace, node, &mut Steps::new());
        }
    }
}
