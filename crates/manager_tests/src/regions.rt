//! Regions as they are seen from outside a segment.
ghost use Rattle.raw_region.specs.Regions.{IsCapacity};

use crate::checks::holds;
use raw_region::RawRegion;
use std::process::Abort;

/// Returns a region of `capacity` bytes, each of them 7.
pub fn region_of_sevens<R: Abort + AllocGlobal>(rt: &R, capacity: u64) -> RawRegion
    requires { IsCapacity capacity }
{
    let Ok(mut region) = RawRegion::new(rt.alloc(), capacity) else {
        panic!(rt; "out of memory");
    };
    region.fill(0, capacity, 7);
    region
}

/// Checks that a region has `len` bytes from `from` on, at most 2048, and each of them is 7.
pub fn are_sevens(rt: &impl Abort, region: &RawRegion, from: u64, len: usize) {
    reads(rt, region, from, SEVENS.get(..len).unwrap_or(b"none"));
}

const SEVENS: [u8; 2048] = [7; 2048];

/// Checks that a region has these bytes from an offset on.
pub fn reads(rt: &impl Abort, region: &RawRegion, from: u64, bytes: &[u8]) {
    let len = bytes.len() as u64;
    holds(rt, region.in_range(from, len));
    holds(rt, region.bytes(from, len) == bytes);
}
