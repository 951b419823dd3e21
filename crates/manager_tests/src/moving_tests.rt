//! Segments that move into another region, and regions as they are seen from outside.
ghost use Rattle.std.specs.Prelude.{◌≡◌, ◌%◌};
ghost use Rattle.raw_region.specs.Regions.{IsCapacity};

use crate::bench::Bench;
use crate::checks::{done, holds, refusal, same};
use crate::regions::{are_sevens, reads, region_of_sevens};
use crate::segments::fresh;
use raw_region::RawRegion;
use std::process::Abort;

/// Moves a segment, which stands at `from` in its region, to `base` in another. Its bytes are the same there, and where
/// it was.
fn moves(
    rt: &impl Abort,
    bench: Bench,
    from: u64,
    region: RawRegion,
    base: u64,
) -> (Bench, RawRegion)
    requires { base % 16 ≡ 0 }
{
    holds(rt, bench.is_right());
    let (segment, left) = done(rt, bench.segment.relocate(region, base));
    reads(rt, &left, from, segment.as_bytes());
    (Bench::new(segment), left)
}

#[test]
fn a_segment_moves_into_another_region_and_back(rt: HostRuntime) {
    let mut bench = fresh(&rt);
    bench.makes(b'b', 1, 5i64, 192);
    let region = region_of_sevens(&rt, 2048);
    let (mut moved, home) = moves(&rt, bench, 0, region, 160);
    same(&rt, home.capacity(), 1024);
    same(&rt, moved.segment.region_left(), 864);
    moved.has(b'b', 0, 5i64);
    moved.makes(b'a', 1, 6i64, 240);
    let (mut back, left) = moves(&rt, moved, 160, home, 0);
    back.has(b'a', 0, 6i64);
    back.has_free(736);
    back.ends(&rt);
    are_sevens(&rt, &left, 0, 160);
    are_sevens(&rt, &left, 1184, 864);
    drop(left);
}

/// Fails to move a segment into a region of `capacity` bytes, from `base` on. Both come back as they were.
fn stays<R: Abort + AllocGlobal>(rt: &R, bench: Bench, capacity: u64, base: u64) -> Bench
    requires capacity { IsCapacity capacity }
    requires base { base % 16 ≡ 0 }
{
    holds(rt, bench.is_right());
    let bytes = done(rt, bench.segment.as_bytes().to_vec(rt.alloc()));
    let region = region_of_sevens(rt, capacity);
    let refused = refusal(rt, bench.segment.relocate(region, base));
    holds(rt, refused.segment.as_bytes() == bytes.as_slice());
    same(rt, refused.region.capacity(), capacity);
    are_sevens(rt, &refused.region, 0, capacity as usize);
    Bench::new(refused.segment)
}

#[test]
fn a_segment_stays_where_the_region_is_too_small(rt: HostRuntime) {
    let mut bench = fresh(&rt);
    bench.makes(b'a', 1, 5i64, 192);
    bench = stays(&rt, bench, 512, 0);
    bench = stays(&rt, bench, 2048, 1040);
    let region = region_of_sevens(&rt, 2048);
    let (mut moved, _) = moves(&rt, bench, 0, region, 1024);
    moved.has(b'a', 0, 5i64);
    same(&rt, moved.segment.region_left(), 0);
    moved.ends(&rt);
}
