//! Maps: calls on a looked-up map, and calls by a key. A call by a key looks the map up, and then calls the function
//! of `Map` or `MapMut`. An error of the look-up comes first, and changes nothing.
ghost use Rattle.std.specs.Prelude.{IfErr, Ok, OnErr, length, ◌≡◌, ◌≤◌};
ghost use Rattle.seg_types.specs.Commands.{Lookup, Put, Remove, literal_of};
ghost use Rattle.seg_types.specs.declared.kinds.Kind.TheVariants.{Map as MapOf};
ghost use Rattle.seg_types.specs.declared.refusals.Refusal.TheVariants.{NoSpace as NoSpaceLeft};
ghost use Rattle.seg_map.specs.Places.{IsSomeMap};
ghost use Rattle.segment_manager.specs.Keeping.{ChangesValue, LacksPair, UnchangedWhere};
ghost use Rattle.segment_manager.specs.State.{AnswersQueryOfKind, AnswersWith, IsSegment, TakesStepOfKind};
ghost use Rattle.segment_manager.specs.State.{truth_answer};
ghost use Rattle.segment_manager.specs.containers.{Maps.value_answer, Walks.HasPairNode, Walks.ReadsPairNode};
ghost use Rattle.segment_manager.specs.containers.Maps.{answer_of_map, count_read, nodes_read, numbers_in, pair_above};
ghost use Rattle.segment_manager.specs.containers.Maps.{pair_at_end, pair_below, pair_from, pair_result, pair_up_to};
ghost use Rattle.segment_manager.specs.objects.BoundObjects.{container_of, key_of};

use crate::bound::{Bound, BoundContent, BoundMut};
use crate::objects::object_ref::ObjectRef;
use crate::segment::{Result, Segment};
use best_fit::Heap;
use raw_region::Steps;
use seg_map::SegMap;
use seg_types::theorems::holds_value;
use seg_types::{Kind, Refusal, Scalar};
use std::marker::PhantomData;

/// Pairs of map keys of one type and values of another.
#[derive(Drop)]
pub struct Pairs<K, V> {
    of: PhantomData<(K, V)>,
}

/// A map that was looked up, for reading.
pub type Map<'a, K, V> = Bound<'a, Pairs<K, V>>;

/// A map that was looked up, to change it.
pub type MapMut<'a, K, V> = BoundMut<'a, Pairs<K, V>>;

impl<K: Scalar, V: Scalar> BoundContent for Pairs<K, V> {
    ghost kind = { MapOf K.kind V.kind };

    fn kind() -> Kind {
        Kind::Map(K::kind(), V::kind())
    }
}

impl<'a, K: Scalar, V: Scalar> Bound<'a, Pairs<K, V>> {
    /// Returns the heap of the segment, and the map of the object in that heap.
    #[inline(always)]
    fn map(&self) -> (&'a Heap, SegMap<K, V>)
        ensures heap { result.0.now ≡ self.now.segment.now.cut }
        ensures place { result.1.place ≡ container_of self.now.object }
        ensures map { IsSomeMap K.Plain V.Plain result.0.now.bytes result.1.place.handle result.1.place.at }
        ensures denotation { IsSegment result.0.now.bytes }
    {
        let segment = self.segment;
        (&segment.heap, SegMap::at(self.object.own_container()))
    }

    /// Returns the value of a map key, or `None` if the map lacks it.
    ///
    /// Example: `let year: Option<i64> = years.get(5)`.
    #[inline(always)]
    pub fn get(&self, at: K) -> Option<V>
        ensures { AnswersQueryOfKind self.now.segment.now (key_of self.now.object) (MapOf K.kind V.kind)
            (Lookup (key_of self.now.object) (literal_of K.kind (K.whole at)))
            (value_answer V.kind V.whole (Ok result)) }
    {
        holds_value(at);
        let (heap, map) = self.map();
        map.get(heap, at, &mut Steps::new())
    }

    /// Returns the number of pairs.
    ///
    /// Example: `let count = years.len()`.
    pub fn len(&self) -> u64
        ensures { AnswersWith self.now.segment.now (λ d.
            answer_of_map d (key_of self.now.object) K.kind V.kind length) (Ok result) }
    {
        let (heap, map) = self.map();
        map.len(heap)
    }

    /// Returns the first pair whose map key is not below `from`.
    ///
    /// Example: `let next = years.first_from(2)`.
    pub fn first_from(&self, from: K) -> Option<(K, V)>
        ensures { AnswersWith self.now.segment.now (λ d.
            answer_of_map d (key_of self.now.object) K.kind V.kind (pair_from (K.whole from)))
            (Ok (numbers_in K.whole V.whole result)) }
    {
        let (heap, map) = self.map();
        map.first_from(heap, from, &mut Steps::new())
    }

    /// Returns the next pair after the map key `after`.
    ///
    /// Example: `let next = years.next_after(2)`.
    pub fn next_after(&self, after: K) -> Option<(K, V)>
        ensures { AnswersWith self.now.segment.now (λ d.
            answer_of_map d (key_of self.now.object) K.kind V.kind (pair_above (K.whole after)))
            (Ok (numbers_in K.whole V.whole result)) }
    {
        let (heap, map) = self.map();
        map.next_after(heap, after, &mut Steps::new())
    }

    /// Lists the nodes of the pairs whose map keys are not below `from`, or above it if `past` is set, by rising map
    /// keys, in the first places of the list, as many as it has places for. Returns how many they are; the other places
    /// keep what they have.
    ///
    /// Example: `let count = years.nodes_from(2, false, &mut nodes)`.
    pub fn nodes_from(&self, from: K, past: bool, list: &mut [u64]) -> usize
        ensures count { AnswersWith self.now.segment.now (λ d.
            answer_of_map d (key_of self.now.object) K.kind V.kind
            (count_read past (K.whole from) (length list.old))) (Ok result) }
        ensures list { AnswersWith self.now.segment.now (λ d.
            answer_of_map d (key_of self.now.object) K.kind V.kind
            (nodes_read past (K.whole from) (length list.old) list.old)) (Ok list.new) }
        ensures in_bounds { result ≤ length list.new }
    {
        let (heap, map) = self.map();
        map.nodes_from(heap, from, past, list, &mut Steps::new())
    }

    /// Returns the pair that has a node, as `nodes_from` lists them.
    ///
    /// Example: `let pair = years.pair_of(nodes[0])`.
    ///
    /// # Conditions
    ///
    /// A pair of the map has the node.
    pub fn pair_of(&self, node: u64) -> Option<(K, V)>
        requires { HasPairNode self.now.segment.now (key_of self.now.object) K.kind V.kind node }
        ensures { ReadsPairNode self.now.segment.now (key_of self.now.object) K.kind V.kind node
            (numbers_in K.whole V.whole result) }
    {
        let (heap, map) = self.map();
        map.pair_of(heap, node)
    }

    /// Returns the last pair, or `None` if the map is empty.
    ///
    /// Example: `let latest = years.last()`.
    pub fn last(&self) -> Option<(K, V)>
        ensures { AnswersWith self.now.segment.now (λ d.
            answer_of_map d (key_of self.now.object) K.kind V.kind pair_at_end)
            (Ok (numbers_in K.whole V.whole result)) }
    {
        let (heap, map) = self.map();
        map.last(heap, &mut Steps::new())
    }

    /// Returns the last pair whose map key is not above `to`.
    ///
    /// Example: `let before = years.last_up_to(2)`.
    pub fn last_up_to(&self, to: K) -> Option<(K, V)>
        ensures { AnswersWith self.now.segment.now (λ d.
            answer_of_map d (key_of self.now.object) K.kind V.kind (pair_up_to (K.whole to)))
            (Ok (numbers_in K.whole V.whole result)) }
    {
        let (heap, map) = self.map();
        map.last_up_to(heap, to, &mut Steps::new())
    }

    /// Returns the previous pair before the map key `before`.
    ///
    /// Example: `let before = years.previous_before(2)`.
    pub fn previous_before(&self, before: K) -> Option<(K, V)>
        ensures { AnswersWith self.now.segment.now (λ d.
            answer_of_map d (key_of self.now.object) K.kind V.kind (pair_below (K.whole before)))
            (Ok (numbers_in K.whole V.whole result)) }
    {
        let (heap, map) = self.map();
        map.previous_before(heap, before, &mut Steps::new())
    }
}

impl<'a, K: Scalar, V: Scalar> BoundMut<'a, Pairs<K, V>> {
    ghost use Rattle.segment_manager.specs.Bounds.{SameBound};

    /// Sets the value of the map key `at`, and returns true if `at` is new. All other pairs keep their blocks, and so
    /// does a pair whose map key is not new.
    ///
    /// Example: `let is_new = years.insert(5, 1999)?`.
    ///
    /// # Errors
    ///
    /// `NoSpace` if `at` is new and no gap is long enough for its block. Nothing changes.
    #[inline(always)]
    pub fn insert(&mut self, at: K, value: V) -> Result<bool>
        ensures unchanged { SameBound self.old self.new }
        ensures step { TakesStepOfKind self.old.segment.now self.new.segment.now (key_of self.old.object)
            (MapOf K.kind V.kind) (Put (key_of self.old.object) (literal_of K.kind (K.whole at))
            (literal_of V.kind (V.whole value))) (truth_answer result) }
        ensures refused { OnErr result (self.new.segment.now ≡ self.old.segment.now) }
        ensures error { IfErr result (λ why. why ≡ NoSpaceLeft) }
        ensures overwrite { ChangesValue self.old.segment.now self.new.segment.now (key_of self.old.object) K.kind
            (K.whole at) V.kind }
    {
        holds_value(at);
        holds_value(value);
        let map = SegMap::<K, V>::at(self.object.own_container());
        let segment = &mut *self.segment;
        map.put(&mut segment.heap, at, value, &mut Steps::new())
            .or(Err(Refusal::NoSpace))
    }

    /// Erases the map key `at`, frees its block, and returns true if the map had it. All other pairs keep their blocks.
    ///
    /// Example: `let was_there = years.erase(5)`.
    #[inline(always)]
    pub fn erase(&mut self, at: K) -> bool
        ensures unchanged { SameBound self.old self.new }
        ensures step { TakesStepOfKind self.old.segment.now self.new.segment.now (key_of self.old.object)
            (MapOf K.kind V.kind) (Remove (key_of self.old.object) (literal_of K.kind (K.whole at)))
            (truth_answer (Ok result)) }
        ensures absent { UnchangedWhere self.old.segment.now self.new.segment.now
            (LacksPair (key_of self.old.object) (K.whole at)) }
    {
        holds_value(at);
        let map = SegMap::<K, V>::at(self.object.own_container());
        let segment = &mut *self.segment;
        map.erase(&mut segment.heap, at, &mut Steps::new())
    }
}

impl Segment {
    /// As [`Map::get`] on the map of a key. Also `NotFound`, `WrongKind`.
    ///
    /// Example: `let price: Option<i64> = segment.map_get(&name, 2i32)?`.
    pub fn map_get<K: Scalar, V: Scalar, O: ObjectRef>(&self, key: &O, at: K) -> Result<Option<V>>
        ensures { AnswersQueryOfKind self.now (O.key key.now) (MapOf K.kind V.kind)
            (Lookup (O.key key.now) (literal_of K.kind (K.whole at))) (value_answer V.kind V.whole result) }
    {
        Ok(Map::<K, V>::of(self, key)?.get(at))
    }

    /// As [`Map::first_from`] on the map of a key. Also `NotFound`, `WrongKind`.
    ///
    /// Example: `let first: Option<(i32, i64)> = segment.map_first_from(&name, 2)?`.
    pub fn map_first_from<K: Scalar, V: Scalar, O: ObjectRef>(
        &self,
        key: &O,
        from: K,
    ) -> Result<Option<(K, V)>>
        ensures { AnswersWith self.now (λ d. answer_of_map d (O.key key.now) K.kind V.kind (pair_from (K.whole from)))
            (pair_result K.whole V.whole result) }
    {
        Ok(Map::<K, V>::of(self, key)?.first_from(from))
    }

    /// As [`Map::next_after`] on the map of a key. Also `NotFound`, `WrongKind`.
    ///
    /// Example: `let next: Option<(i32, i64)> = segment.map_next_after(&name, 2)?`.
    pub fn map_next_after<K: Scalar, V: Scalar, O: ObjectRef>(
        &self,
        key: &O,
        after: K,
    ) -> Result<Option<(K, V)>>
        ensures { AnswersWith self.now (λ d. answer_of_map d (O.key key.now) K.kind V.kind (pair_above (K.whole after)))
            (pair_result K.whole V.whole result) }
    {
        Ok(Map::<K, V>::of(self, key)?.next_after(after))
    }

    /// As [`MapMut::insert`] on the map of a key. Also `ReadOnly`, `NotFound`, `WrongKind`.
    ///
    /// Example: `let is_new = segment.map_put(&name, 2i32, 1999i64)?`.
    pub fn map_put<K: Scalar, V: Scalar, O: ObjectRef>(
        &mut self,
        key: &O,
        at: K,
        value: V,
    ) -> Result<bool>
        ensures step { TakesStepOfKind self.old self.new (O.key key.now) (MapOf K.kind V.kind)
            (Put (O.key key.now) (literal_of K.kind (K.whole at)) (literal_of V.kind (V.whole value)))
            (truth_answer result) }
        ensures refused { OnErr result (self.new ≡ self.old) }
        ensures overwrite { ChangesValue self.old self.new (O.key key.now) K.kind (K.whole at) V.kind }
    {
        MapMut::<K, V>::of(self, key)?.insert(at, value)
    }

    /// As [`MapMut::erase`] on the map of a key. Also `ReadOnly`, `NotFound`, `WrongKind`.
    ///
    /// Example: `let was_there = segment.map_erase::<i32, i64, _>(&name, 2)?`.
    pub fn map_erase<K: Scalar, V: Scalar, O: ObjectRef>(&mut self, key: &O, at: K) -> Result<bool>
        ensures step { TakesStepOfKind self.old self.new (O.key key.now) (MapOf K.kind V.kind)
            (Remove (O.key key.now) (literal_of K.kind (K.whole at))) (truth_answer result) }
        ensures refused { OnErr result (self.new ≡ self.old) }
        ensures absent { UnchangedWhere self.old self.new (LacksPair (O.key key.now) (K.whole at)) }
    {
        Ok(MapMut::<K, V>::of(self, key)?.erase(at))
    }
}
