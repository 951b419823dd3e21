//! Objects by their places in the two indexes, and tiles by their places in the segment.
use crate::bench::Bench;
use crate::checks::same;
use crate::segments::{fresh, named_is, unique_is};
use block_tags::Role;
use seg_types::{Handle, Kind, NewKey, Scalar};
use segment_manager::TileInfo;

/// Makes five names, the last one first: the index is moved to 368 and leaves a gap.
fn five_names(bench: &mut Bench) {
    bench.makes(b'e', 1, 1i64, 192);
    bench.makes(b'd', 1, 1i64, 240);
    bench.makes(b'c', 1, 1i64, 288);
    bench.makes(b'b', 1, 1i64, 336);
    bench.makes(b'a', 1, 1i64, 464);
}

#[test]
fn names_rise(rt: HostRuntime) {
    let mut bench = fresh(&rt);
    five_names(&mut bench);
    same(&rt, bench.segment.num_named(), 5);
    for (i, handle) in [(0, 464), (1, 336), (2, 288), (3, 240), (4, 192)] {
        named_is(&rt, &bench, i, handle);
    }
    bench.ends(&rt);
}

/// Tiles by how many stand before each: where it is, how long, and what for.
const TILES: [(u64, u64, u64, Option<Role>); 6] = [
    (0, 128, 48, None),
    (1, 176, 48, Some(Role::Object)),
    (4, 320, 48, Some(Role::Object)),
    (5, 368, 80, Some(Role::Index)),
    (6, 448, 48, Some(Role::Object)),
    (7, 496, 512, None),
];

#[test]
fn tiles_follow_one_another(rt: HostRuntime) {
    let mut bench = fresh(&rt);
    five_names(&mut bench);
    for (i, offset, len, use_of) in TILES {
        let tile = TileInfo {
            offset,
            len,
            use_of,
        };
        same(&rt, bench.segment.tile(i), Some(tile));
    }
    same(&rt, bench.segment.tile(8), None);
    bench.ends(&rt);
}

/// Makes the only object of a kind, at this handle.
fn makes_only<T: Scalar>(bench: &mut Bench, value: T, handle: Handle) {
    let only = NewKey::Unique(Kind::Scalar(T::kind()));
    let made = bench.segment.construct(&only, 1, value);
    bench.same(made, Ok(handle));
}

#[test]
fn kinds_rise(rt: HostRuntime) {
    let mut bench = fresh(&rt);
    makes_only(&mut bench, 9u64, 192);
    makes_only(&mut bench, 7i32, 240);
    makes_only(&mut bench, true, 288);
    same(&rt, bench.segment.num_unique(), 3);
    unique_is(&rt, &bench, 0, 288);
    unique_is(&rt, &bench, 1, 240);
    unique_is(&rt, &bench, 2, 192);
    bench.ends(&rt);
}
