//! Maps by the types of their keys and values.
use crate::bench::Bench;
use crate::segments::fresh;
use seg_types::{IndexKey, Key, Kind, NewKey, Refusal, Scalar, ScalarKind};
use segment_manager::Map;

/// The kind of maps from i64 to u8.
const BYTES: Kind = Kind::Map(ScalarKind::I64, ScalarKind::U8);

/// Returns the key of the map `m`.
fn map<'a>(bench: &mut Bench) -> Key<'a> {
    match bench.name(b"m") {
        Some(name) => Key::Name(name),
        None => Key::Handle(0),
    }
}

/// Puts a pair into the map `m`, whose key is new or not.
fn puts(bench: &mut Bench, key: i64, value: u8, is_new: bool) {
    let map = map(bench);
    let put = bench.segment.map_put(&map, key, value);
    bench.same(put, Ok(is_new));
}

/// Takes a key out of the map `m`, which has it or not.
fn erases(bench: &mut Bench, key: i64, is_there: bool) {
    let map = map(bench);
    let erased = bench.segment.map_erase::<i64, u8, _>(&map, key);
    bench.same(erased, Ok(is_there));
}

/// Looks a key up in the map `m`.
fn leads(bench: &mut Bench, key: i64, value: Option<u8>) {
    let map = map(bench);
    let found = bench.segment.map_get(&map, key);
    bench.same(found, Ok(value));
}

/// A pair of a map, or nothing.
type Pair = Option<(i64, u8)>;

/// Checks the pair of the map `m` from a key on, and the one above the key.
fn stands(bench: &mut Bench, key: i64, from: Pair, above: Pair) {
    let map = map(bench);
    let got = bench.segment.map_first_from(&map, key);
    bench.same(got, Ok(from));
    let got = bench.segment.map_next_after(&map, key);
    bench.same(got, Ok(above));
}

/// Checks the pair of the map `m` up to a key, and the one below the key.
fn stands_back(bench: &mut Bench, key: i64, up_to: Pair, below: Pair) {
    let map = map(bench);
    let (to, before) = match Map::<i64, u8>::of(&bench.segment, &map) {
        Ok(map) => (map.last_up_to(key), map.previous_before(key)),
        Err(_) => (None, None),
    };
    bench.same(to, up_to);
    bench.same(before, below);
}

/// Checks the last pair of the map `m`.
fn ends(bench: &mut Bench, last: Pair) {
    let map = map(bench);
    let got = match Map::<i64, u8>::of(&bench.segment, &map) {
        Ok(map) => map.last(),
        Err(_) => None,
    };
    bench.same(got, last);
}

/// Makes a segment with the map `m`.
fn with_map(bench: &mut Bench) {
    if let Some(name) = bench.name(b"m") {
        let made = bench
            .segment
            .construct_map::<i64, u8, _>(&NewKey::Name(name));
        bench.same(made, Ok(192));
    }
}

/// Puts three pairs into the map `m`, the last one first.
fn put_three(bench: &mut Bench) {
    puts(bench, 6, 60, true);
    puts(bench, -2, 20, true);
    puts(bench, 4, 40, true);
}

#[test]
fn a_key_leads_to_its_value(rt: HostRuntime) {
    let mut bench = fresh(&rt);
    with_map(&mut bench);
    puts(&mut bench, -4, 40, true);
    puts(&mut bench, 2, 20, true);
    puts(&mut bench, 2, 21, false);
    leads(&mut bench, -4, Some(40));
    leads(&mut bench, 2, Some(21));
    erases(&mut bench, -4, true);
    erases(&mut bench, -4, false);
    leads(&mut bench, -4, None);
    bench.has_free(720);
    bench.ends(&rt);
}

/// Keys, the pair from each on, and the one above it.
const RISING: [(i64, Pair, Pair); 5] = [
    (i64::MIN, Some((-2, 20)), Some((-2, 20))),
    (-2, Some((-2, 20)), Some((4, 40))),
    (5, Some((6, 60)), Some((6, 60))),
    (6, Some((6, 60)), None),
    (7, None, None),
];

#[test]
fn pairs_rise(rt: HostRuntime) {
    let mut bench = fresh(&rt);
    with_map(&mut bench);
    stands(&mut bench, i64::MIN, None, None);
    put_three(&mut bench);
    for (key, from, above) in RISING {
        stands(&mut bench, key, from, above);
    }
    bench.ends(&rt);
}

/// Keys, the pair up to each, and the one below it.
const FALLING: [(i64, Pair, Pair); 5] = [
    (i64::MAX, Some((6, 60)), Some((6, 60))),
    (6, Some((6, 60)), Some((4, 40))),
    (5, Some((4, 40)), Some((4, 40))),
    (-2, Some((-2, 20)), None),
    (-3, None, None),
];

#[test]
fn pairs_fall(rt: HostRuntime) {
    let mut bench = fresh(&rt);
    with_map(&mut bench);
    ends(&mut bench, None);
    stands_back(&mut bench, i64::MAX, None, None);
    put_three(&mut bench);
    ends(&mut bench, Some((6, 60)));
    for (key, up_to, below) in FALLING {
        stands_back(&mut bench, key, up_to, below);
    }
    bench.ends(&rt);
}

/// Finds the only map of its kind, or makes it.
fn finds_or_makes(bench: &mut Bench) {
    let key = IndexKey::Unique(BYTES);
    let made = bench.segment.find_or_construct_map::<i64, u8, _>(&key);
    bench.same(made, Ok((192, 1)));
}

#[test]
fn a_map_is_found_or_made(rt: HostRuntime) {
    let mut bench = fresh(&rt);
    finds_or_makes(&mut bench);
    finds_or_makes(&mut bench);
    let found = bench.segment.find_kind(&Key::Unique(BYTES), BYTES);
    bench.same(found, Ok(Some((192, 1))));
    bench.ends(&rt);
}

/// Looks a key up in the map at 144, and takes it out, with values of a type.
fn asks<V: Scalar + PartialEq>(
    bench: &mut Bench,
    found: Result<Option<V>, Refusal>,
    erased: Result<bool, Refusal>,
) {
    let map = Key::Handle(144);
    let got = bench.segment.map_get::<u8, V, _>(&map, 255);
    bench.same(got, found);
    let got = bench.segment.map_erase::<u8, V, _>(&map, 255);
    bench.same(got, erased);
}

// No script names the kind of a map's values, so this refusal is none of a script's.
#[test]
fn a_map_has_values_of_its_kind(rt: HostRuntime) {
    let mut bench = fresh(&rt);
    let (from, to) = (ScalarKind::U8, ScalarKind::Bool);
    let made = bench.segment.construct_map_of(&NewKey::Anonymous, from, to);
    bench.same(made, Ok(144));
    let wrong = Refusal::WrongKind;
    asks::<u8>(&mut bench, Err(wrong), Err(wrong));
    asks::<bool>(&mut bench, Ok(None), Ok(false));
    bench.ends(&rt);
}
