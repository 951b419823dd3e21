//! The pairs of maps, those with keys in a range, one after another from either end.
ghost use Rattle.std.specs.Prelude.{◌≡◌, [], drop, slice_get};
ghost use Rattle.std.specs.{Iterator.at_most, Range.Bound.bound_map, declared.ops.Bound.TheVariants.Unbounded};
ghost use Rattle.seg_types.specs.Kinds.{lowest as lowest_of};
ghost use Rattle.segment_manager.specs.{objects.BoundObjects.key_of, State.AnswersWith};
ghost use Rattle.segment_manager.specs.containers.{Maps.numbers_in, Walks.pairs_at_kinds};
ghost use Rattle.segment_views.specs.Ranged.{AreAhead, GoesBackPairs, GoesOnPairs, HasNoneFrom};
ghost use Rattle.segment_views.specs.Ranged.{is_from as is_from_start, is_up_to as is_up_to_end, last_between, walk_of};

use seg_types::Scalar;
use seg_types::theorems::scalar_is_number;
use segment_manager::{BoundContent, Map, Pairs};
use segment_values::least;
use std::marker::{Model, PhantomData};
use std::ops::{Bound, RangeBounds};

/// The most nodes that are listed at once.
const MOST: usize = 32;

/// The nodes that are listed at first, because many iterators are left after a few pairs.
const FIRST: usize = 4;

/// A map whose pairs can be read one after another.
pub trait MapRanges<K: Scalar, V: Scalar> {
    /// Returns its pairs with keys in a range, one after another by rising keys, or by falling ones from the other end.
    /// There are none where the range runs backwards.
    ///
    /// Examples: `for (number, year) in years.range(2..=5)`, `for (number, year) in years.range(2..=5).rev()`.
    fn range<R: RangeBounds<K>>(&self, range: R) -> MapItems<'_, K, V>;

    /// Returns all its pairs, one after another by rising keys, or by falling ones from the other end.
    ///
    /// Examples: `for (number, year) in years.iter()`, `let latest = years.iter().next_back()`.
    fn iter(&self) -> MapItems<'_, K, V>;
}

impl<'a, K: Scalar, V: Scalar> MapRanges<K, V> for Map<'a, K, V> {
    fn range<R: RangeBounds<K>>(&self, range: R) -> MapItems<'_, K, V>
        ensures segment { result.segment ≡ self.now.segment.now }
        ensures key { result.key ≡ key_of self.now.object }
        ensures start { R.has_bounds range → result.start ≡ bound_map K.whole (R.start_bound range) }
        ensures end { R.has_bounds range → result.end ≡ bound_map K.whole (R.end_bound range) }
    {
        MapItems {
            map: *self,
            start: range.start_bound().map(|key| *key),
            end: range.end_bound().map(|key| *key),
            left: self.len(),
            ahead: NodesAhead {
                nodes: [0; MOST],
                at: 0,
                count: 0,
            },
            of: PhantomData,
        }
    }

    fn iter(&self) -> MapItems<'_, K, V>
        ensures segment { result.segment ≡ self.now.segment.now }
        ensures key { result.key ≡ key_of self.now.object }
        ensures start { result.start ≡ Unbounded }
        ensures end { result.end ≡ Unbounded }
    {
        self.range(..)
    }
}

/// The pairs of a map that was looked up with keys in a range, one after another by rising keys, and by falling keys
/// from the other end. What one end gave, the other does not give again. The nodes of the pairs by rising keys are
/// listed ahead, a few and then 32 at once; each pair from the other end is looked for from the root of the tree.
///
/// Contracts see the segment, the map's key, the bounds of the pairs that are left, and how many these are at most. The
/// content is a parameter, because a struct can hold an object that was looked up only with a bound on a parameter.
#[derive(Drop)]
pub struct BoundItems<'a, C: BoundContent, K: Scalar, V: Scalar> {
    map: segment_manager::Bound<'a, C>,
    start: Bound<K>,
    end: Bound<K>,
    left: u64,
    ahead: NodesAhead,
    of: PhantomData<V>,
}

/// The pairs of a map with keys in a range, one after another from either end.
pub type MapItems<'a, K, V> = BoundItems<'a, Pairs<K, V>, K, V>;

impl<'a, C: BoundContent, K: Scalar, V: Scalar> Model for BoundItems<'a, C, K, V> {
    ghost use Rattle.std.specs.Range.Bound.{bound_map};
    ghost use Rattle.segment_views.specs.Ranged.{IsPairWalk, PairWalk, walk_of};

    ghost Value = { PairWalk };

    ghost view = { λ w.
        walk_of w.map.segment.now w.map.object (bound_map K.whole w.start) (bound_map K.whole w.end) w.left };

    ghost invariant = { λ w. IsPairWalk K.kind V.kind
        (walk_of w.map.segment.now w.map.object (bound_map K.whole w.start) (bound_map K.whole w.end) w.left) w.ahead };
}

impl<'a, K: Scalar, V: Scalar> Iterator for BoundItems<'a, Pairs<K, V>, K, V> {
    type Item = (K, V);

    ghost next_gives = { GoesOnPairs K.kind V.kind (λ pair. (K.whole pair.0, V.whole pair.1)) };

    ghost remaining = { λ w. at_most w.left };

    fn next(&mut self) -> Option<(K, V)> {
        if self.left == 0 {
            return None;
        }
        self.ahead.list(&self.map, self.start);
        let pair = self.map.pair_of(self.ahead.first()?)?;
        if !is_up_to(self.end, pair.0) {
            return None;
        }
        self.ahead.skip();
        self.start = Bound::Excluded(pair.0);
        self.left -= 1;
        Some(pair)
    }
}

impl<'a, K: Scalar, V: Scalar> DoubleEndedIterator for BoundItems<'a, Pairs<K, V>, K, V> {
    ghost next_back_gives = { GoesBackPairs K.kind V.kind (λ pair. (K.whole pair.0, V.whole pair.1)) };

    fn next_back(&mut self) -> Option<(K, V)> {
        if self.left == 0 {
            return None;
        }
        let pair = last_up_to(&self.map, self.end)?;
        if !is_from(self.start, pair.0) {
            return None;
        }
        self.end = Bound::Excluded(pair.0);
        self.left -= 1;
        Some(pair)
    }
}

/// The nodes of the next pairs, by rising keys. Contracts see the list of those that are left.
#[derive(Drop)]
struct NodesAhead {
    nodes: [u64; MOST],
    at: usize,
    count: usize,
}

impl Model for NodesAhead {
    ghost use Rattle.std.specs.Prelude.{ℕ, ◌≤◌, List, drop, take};

    ghost Value = { List ℕ };

    ghost view = { λ n. drop n.at (take n.count n.nodes) };

    ghost invariant = { λ n. (n.at ≤ n.count) × (n.count ≤ 32) };
}

impl NodesAhead {
    /// Returns the first node, or `None` if no node is left.
    fn first(&self) -> Option<u64>
        ensures { result ≡ slice_get self.now 0 }
    {
        if self.at < self.count {
            return Some(self.nodes[self.at]);
        }
        None
    }

    /// Leaves the first node out, if a node is left.
    fn skip(&mut self)
        ensures { self.new ≡ drop 1 self.old }
    {
        if self.at < self.count {
            self.at += 1;
        }
    }

    /// Lists the nodes of the first pairs from a bound on, if no node is left.
    fn list<K: Scalar, V: Scalar>(&mut self, map: &Map<'_, K, V>, start: Bound<K>)
        requires { AreAhead map.now.segment.now (key_of map.now.object) K.kind V.kind (bound_map K.whole start)
            self.old }
        ensures nodes { AreAhead map.now.segment.now (key_of map.now.object) K.kind V.kind (bound_map K.whole start)
            self.new }
        ensures empty { self.new ≡ [] → HasNoneFrom map.now.segment.now (key_of map.now.object) K.kind V.kind
            (bound_map K.whole start) }
    {
        if self.at < self.count {
            return;
        }
        let (from, past) = match start {
            Bound::Included(from) => (from, false),
            Bound::Excluded(after) => (after, true),
            Bound::Unbounded => (lowest(), false),
        };
        let most = if self.count == 0 { FIRST } else { MOST };
        self.count = map.nodes_from(from, past, &mut self.nodes[..most]);
        self.at = 0;
    }
}

/// Returns the last pair of a map with a key that is not above a bound.
fn last_up_to<K: Scalar, V: Scalar>(map: &Map<'_, K, V>, end: Bound<K>) -> Option<(K, V)>
    ensures { AnswersWith map.now.segment.now (λ d.
        last_between Unbounded (bound_map K.whole end) (pairs_at_kinds d (key_of map.now.object) K.kind V.kind))
        (numbers_in K.whole V.whole result) }
{
    match end {
        Bound::Included(to) => map.last_up_to(to),
        Bound::Excluded(before) => map.previous_before(before),
        Bound::Unbounded => map.last(),
    }
}

/// Returns the least value of a scalar type, whose spelling has 8 bytes at most.
fn lowest<T: Scalar>() -> T
    ensures { T.whole result ≡ lowest_of T.kind }
{
    let mut bytes = [0; 8];
    let spelling = &mut bytes[..T::SIZE as usize];
    least(T::kind()).write(spelling);
    match scalar_is_number::<T>(spelling) {
        Some(value) => value,
        None => unreachable!(),
    }
}

/// Tells whether a key is not below a bound.
fn is_from<K: Scalar>(start: Bound<K>, key: K) -> bool
    ensures { result ≡ is_from_start (bound_map K.whole start) (K.whole key) }
{
    match start {
        Bound::Included(first) => !key.precedes(first),
        Bound::Excluded(before) => before.precedes(key),
        Bound::Unbounded => true,
    }
}

/// Tells whether a key is not above a bound.
fn is_up_to<K: Scalar>(end: Bound<K>, key: K) -> bool
    ensures { result ≡ is_up_to_end (bound_map K.whole end) (K.whole key) }
{
    match end {
        Bound::Included(last) => !last.precedes(key),
        Bound::Excluded(behind) => key.precedes(behind),
        Bound::Unbounded => true,
    }
}
