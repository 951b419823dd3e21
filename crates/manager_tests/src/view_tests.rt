//! Views of objects: what no example calls.
use crate::bench::Bench;
use crate::checks::{done, same};
use crate::segments::fresh;
use seg_types::{Key, NewKey, Refusal};
use segment_manager::{Array, Map, Strings, Vector};
use segment_views::{MapRanges, SliceReads, TextSequence};
use std::ops::RangeBounds;
use std::process::Abort;

/// The object that the tests make.
const MADE: Key<'static> = Key::Handle(144);

const BEHIND: Refusal = Refusal::OutOfRange;

/// Returns an array of three elements.
fn array<'a>(rt: &impl Abort, bench: &'a mut Bench) -> Array<'a, i64> {
    let made = bench.segment.construct(&NewKey::Anonymous, 3, 7i64);
    same(rt, made, Ok(144));
    done(rt, Array::of(&bench.segment, &MADE))
}

#[test]
fn elements_of_an_array(rt: HostRuntime) {
    let mut bench = fresh(&rt);
    let numbers = array(&rt, &mut bench);
    same(&rt, numbers.len(), 3);
    same(&rt, numbers.get(2), Ok(7));
    same(&rt, numbers.get(3), Err(BEHIND));
    let mut left = numbers.iter();
    same(&rt, left.nth(2), Some(7));
    same(&rt, left.next(), None);
    bench.ends(&rt);
}

/// Returns a vector of the numbers 3, 5 and 8.
fn vector<'a>(rt: &impl Abort, bench: &'a mut Bench) -> Vector<'a, i32> {
    let numbers = [3i32, 5, 8];
    let made = bench.segment.construct_vec(&NewKey::Anonymous, &numbers);
    same(rt, made, Ok(144));
    done(rt, Vector::of(&bench.segment, &MADE))
}

#[test]
fn elements_of_a_vector(rt: HostRuntime) {
    let mut bench = fresh(&rt);
    let numbers = vector(&rt, &mut bench);
    same(&rt, numbers.measure(), (3, 3));
    same(&rt, numbers.get(1), Ok(5));
    let mut values = [0, 0];
    same(&rt, numbers.copy_to(&mut values), Ok(()));
    same(&rt, values, [3, 5]);
    let mut values = [9, 9, 9, 9];
    same(&rt, numbers.copy_to(&mut values), Err(BEHIND));
    same(&rt, values, [9, 9, 9, 9]);
    bench.ends(&rt);
}

/// Returns a vector of a text and an empty one.
fn texts<'a>(rt: &impl Abort, bench: &'a mut Bench) -> Strings<'a> {
    let segment = &mut bench.segment;
    let texts: [&[u8]; 2] = [b"one", b""];
    let made = segment.construct_texts(&NewKey::Anonymous, &texts);
    same(rt, made, Ok(144));
    done(rt, Strings::of(segment, &MADE))
}

#[test]
fn texts_of_a_list(rt: HostRuntime) {
    let mut bench = fresh(&rt);
    let list = texts(&rt, &mut bench);
    same(&rt, list.len(), 2);
    same(&rt, list.get(0), Ok(b"one".as_slice()));
    same(&rt, list.get(2), Err(BEHIND));
    let mut left = list.iter();
    same(&rt, left.nth(1), Some(b"".as_slice()));
    same(&rt, left.next(), None);
    bench.ends(&rt);
}

/// Returns a map with the keys -2, 4 and 6.
fn pairs<'a>(rt: &impl Abort, bench: &'a mut Bench) -> Map<'a, i64, u8> {
    let segment = &mut bench.segment;
    let made = segment.construct_map::<i64, u8, _>(&NewKey::Anonymous);
    same(rt, made, Ok(144));
    for (key, value) in [(6i64, 60u8), (-2, 20), (4, 40)] {
        same(rt, segment.map_put(&MADE, key, value), Ok(true));
    }
    done(rt, Map::of(segment, &MADE))
}

const FIRST: Option<(i64, u8)> = Some((-2, 20));

const SECOND: Option<(i64, u8)> = Some((4, 40));

const LAST: Option<(i64, u8)> = Some((6, 60));

#[test]
fn pairs_are_counted_and_found(rt: HostRuntime) {
    let mut bench = fresh(&rt);
    let map = pairs(&rt, &mut bench);
    same(&rt, map.len(), 3);
    same(&rt, map.first_from(5), LAST);
    same(&rt, map.last(), LAST);
    bench.ends(&rt);
}

#[test]
fn pairs_come_from_both_ends(rt: HostRuntime) {
    let mut bench = fresh(&rt);
    let map = pairs(&rt, &mut bench);
    let mut left = map.iter();
    let ends = [left.next_back(), left.next(), left.next_back()];
    same(&rt, ends, [LAST, FIRST, SECOND]);
    same(&rt, left.next(), None);
    same(&rt, left.next_back(), None);
    bench.ends(&rt);
}

/// Returns the last pair of a range.
fn last_in<R: RangeBounds<i64>>(map: &Map<'_, i64, u8>, range: R) -> Option<(i64, u8)> {
    map.range(range).next_back()
}

#[test]
fn a_range_is_read_backwards(rt: HostRuntime) {
    let mut bench = fresh(&rt);
    let map = pairs(&rt, &mut bench);
    same(&rt, last_in(&map, 4..6), SECOND);
    same(&rt, last_in(&map, 4..=6), LAST);
    same(&rt, last_in(&map, ..5), SECOND);
    same(&rt, last_in(&map, 5..6), None);
    bench.ends(&rt);
}
