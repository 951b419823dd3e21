//! Segments that grow and shrink in their regions.
use crate::bench::Bench;
use crate::checks::done;
use crate::segments::{fresh, opened};
use grow_shrink::{GrowError, grow, shrink_to_fit};
use segment_manager::Mode;
use std::process::Abort;

/// Checks that a segment has this size, and `free` bytes are free.
fn has_size(bench: &mut Bench, size: u64, free: u64) {
    let is_said = bench.segment.size() == size;
    bench.holds(is_said);
    let is_long = bench.segment.as_bytes().len() as u64 == size;
    bench.holds(is_long);
    bench.has_free(free);
}

/// Checks that a segment grows by `extra` bytes.
fn grows(bench: &mut Bench, extra: u64) {
    let grown = grow(&mut bench.segment, extra);
    bench.same(grown, Ok(()));
}

/// Checks that a segment shrinks.
fn shrinks(bench: &mut Bench) {
    let shrunk = shrink_to_fit(&mut bench.segment);
    bench.same(shrunk, Ok(()));
}

#[test]
fn a_segment_shrinks_and_grows(rt: HostRuntime) {
    let mut bench = fresh(&rt);
    bench.makes(b'a', 1, 5i64, 192);
    shrinks(&mut bench);
    has_size(&mut bench, 240, 0);
    bench.has(b'a', 0, 5i64);
    grows(&mut bench, 32);
    has_size(&mut bench, 272, 32);
    bench.finds::<i64>(b'a', Ok(Some((192, 1))));
    bench.ends(&rt);
}

#[test]
fn an_empty_segment_shrinks_and_grows(rt: HostRuntime) {
    let mut bench = fresh(&rt);
    shrinks(&mut bench);
    has_size(&mut bench, 144, 0);
    let tile = bench.segment.tile(0);
    bench.same(tile, None);
    grows(&mut bench, 880);
    has_size(&mut bench, 1024, 880);
    let is_sound = bench.segment.sanity();
    bench.holds(is_sound);
    bench.ends(&rt);
}

/// Checks that a segment does not grow by `extra` bytes, and is as before.
fn stays<R: Abort + AllocGlobal>(rt: &R, bench: &mut Bench, extra: u64, why: GrowError) {
    let bytes = done(rt, bench.segment.as_bytes().to_vec(rt.alloc()));
    let left = bench.segment.region_left();
    let grown = grow(&mut bench.segment, extra);
    bench.same(grown, Err(why));
    let is_same = bench.segment.as_bytes() == bytes.as_slice();
    bench.holds(is_same);
    let is_left = bench.segment.region_left() == left;
    bench.holds(is_left);
}

/// By how many bytes a segment does not grow, and why.
const REFUSED: [(u64, GrowError); 11] = [
    (0, GrowError::BadGrow),
    (16, GrowError::BadGrow),
    (31, GrowError::BadGrow),
    (33, GrowError::BadGrow),
    (40, GrowError::BadGrow),
    (1073741825, GrowError::BadGrow),
    (1073740816, GrowError::TooLarge),
    (1073741824, GrowError::TooLarge),
    (18446744073709551600, GrowError::TooLarge),
    (32, GrowError::RegionTooSmall),
    (1073740800, GrowError::RegionTooSmall),
];

#[test]
fn growth_is_refused(rt: HostRuntime) {
    let mut bench = fresh(&rt);
    for (extra, why) in REFUSED {
        stays(&rt, &mut bench, extra, why);
    }
    bench.ends(&rt);
}

#[test]
fn nothing_is_resized_that_is_only_read(rt: HostRuntime) {
    let bench = fresh(&rt);
    let mut read = opened(&rt, bench, Mode::ReadOnly);
    for extra in [16, 32, 1073741824] {
        stays(&rt, &mut read, extra, GrowError::ReadOnly);
    }
    let shrunk = shrink_to_fit(&mut read.segment);
    read.same(shrunk, Err(GrowError::ReadOnly));
    has_size(&mut read, 1024, 880);
    read.ends(&rt);
}

#[test]
fn a_copy_is_resized(rt: HostRuntime) {
    let mut bench = fresh(&rt);
    bench.makes(b'a', 1, 5i64, 192);
    let mut copied = opened(&rt, bench, Mode::CopyOnWrite);
    grows(&mut copied, 1008);
    has_size(&mut copied, 2032, 1792);
    let left = copied.segment.region_left();
    copied.same(left, 0);
    copied.has(b'a', 0, 5i64);
    copied.ends(&rt);
}
