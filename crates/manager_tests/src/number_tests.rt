//! Numbers and arrays of them, by their types.
use crate::bench::{Bench, Told};
use crate::segments::fresh;
use seg_types::{Class, IndexKey, Key, Kind, NewKey, Refusal, ScalarKind};

/// The kind of objects of u64.
const U64: Kind = Kind::Scalar(ScalarKind::U64);

#[test]
fn elements_are_read_and_written(rt: HostRuntime) {
    let mut bench = fresh(&rt);
    bench.makes(b'v', 3, 7i64, 192);
    bench.sets(b'v', 1, -1i64, Ok(()));
    bench.sets(b'v', 2, 9i64, Ok(()));
    bench.has(b'v', 0, 7i64);
    bench.has(b'v', 1, -1i64);
    bench.has(b'v', 2, 9i64);
    bench.has_free(768);
    bench.ends(&rt);
}

#[test]
fn elements_are_refused(rt: HostRuntime) {
    let mut bench = fresh(&rt);
    bench.makes(b'v', 3, 7i64, 192);
    bench.lacks::<i64>(b'v', 3, Refusal::OutOfRange);
    bench.lacks::<i64>(b'v', u64::MAX, Refusal::OutOfRange);
    bench.lacks::<bool>(b'v', 0, Refusal::WrongKind);
    bench.sets(b'w', 0, 1i64, Err(Refusal::NotFound));
    bench.sets(b'v', 0, true, Err(Refusal::WrongKind));
    bench.has(b'v', 0, 7i64);
    bench.ends(&rt);
}

#[test]
fn an_object_is_found_by_its_type(rt: HostRuntime) {
    let mut bench = fresh(&rt);
    bench.makes(b'a', 2, 5i64, 192);
    bench.finds::<i64>(b'a', Ok(Some((192, 2))));
    bench.finds::<i64>(b'b', Ok(None));
    bench.finds::<u8>(b'a', Err(Refusal::WrongKind));
    bench.ends(&rt);
}

#[test]
fn what_is_not_found_is_made(rt: HostRuntime) {
    let mut bench = fresh(&rt);
    bench.finds_or_makes(b'a', 3, 9i64, (192, 3));
    bench.finds_or_makes(b'a', 1048576, 8i64, (192, 3));
    bench.has(b'a', 2, 9i64);
    bench.has_free(768);
    bench.ends(&rt);
}

#[test]
fn an_object_is_the_only_one_of_its_kind(rt: HostRuntime) {
    let mut bench = fresh(&rt);
    let made = bench.segment.construct(&NewKey::Unique(U64), 1, 9u64);
    bench.same(made, Ok(192));
    let key = IndexKey::Unique(U64);
    let found = bench.segment.find_or_construct(&key, 2, 8u64);
    bench.same(found, Ok((192, 1)));
    let value = bench.segment.get(&Key::Unique(U64), 0);
    bench.same(value, Ok(9u64));
    bench.ends(&rt);
}

/// What the objects below tell of themselves: one under a name, one that is the only one of its kind, and one that has
/// neither.
const NAMED: Told = Told {
    kind: Kind::Scalar(ScalarKind::Bool),
    name: Some(b"a"),
    class: Class::Named,
    count: 1,
};

const ONLY: Told = Told {
    kind: U64,
    name: None,
    class: Class::Unique,
    count: 2,
};

const ANONYMOUS: Told = Told {
    kind: U64,
    name: None,
    class: Class::Anonymous,
    count: 3,
};

const TOLD: [(Key<'static>, Told); 4] = [
    (Key::Handle(192), NAMED),
    (Key::Unique(U64), ONLY),
    (Key::Handle(288), ONLY),
    (Key::Handle(336), ANONYMOUS),
];

/// Makes an object of each class.
fn make_three(bench: &mut Bench) {
    bench.makes(b'a', 1, true, 192);
    let made = bench.segment.construct(&NewKey::Unique(U64), 2, 9u64);
    bench.same(made, Ok(288));
    let made = bench.segment.construct(&NewKey::Anonymous, 3, 9u64);
    bench.same(made, Ok(336));
}

#[test]
fn an_object_tells_of_itself(rt: HostRuntime) {
    let mut bench = fresh(&rt);
    make_three(&mut bench);
    if let Some(name) = bench.name(b"a") {
        bench.tells(&Key::Name(name), &NAMED);
    }
    for (key, told) in TOLD {
        bench.tells(&key, &told);
    }
    bench.ends(&rt);
}
