//! Regions, windows on them, and parts of them.
ghost use Rattle.std.specs.Prelude.{◌≡◌, length};

use crate::checks::{done, holds, same};
use raw_region::{ByteRange, RawRegion, Window, apart, set_word_in, two_mut, word_in};
use std::process::Abort;

#[test]
fn a_new_region_is_zero(rt: HostRuntime) {
    let region = done(&rt, RawRegion::new(rt.alloc(), 64));
    same(&rt, region.capacity(), 64);
    reads(&rt, &region, 0, &[0; 64]);
    holds(&rt, region.in_range(64, 0));
    holds(&rt, !region.in_range(u64::MAX, 2));
    drop(region);
}

#[test]
fn words_have_their_lowest_byte_first(rt: HostRuntime) {
    let mut region = done(&rt, RawRegion::new(rt.alloc(), 64));
    region.write_u64(8, 0x0102_0304_0506_0708);
    reads(&rt, &region, 8, b"\x08\x07\x06\x05\x04\x03\x02\x01");
    same(&rt, region.read_u64(8), 0x0102_0304_0506_0708);
    same(&rt, region.read_u64(9), 0x0001_0203_0405_0607);
    drop(region);
}

#[test]
fn bytes_are_filled_and_written(rt: HostRuntime) {
    let mut region = done(&rt, RawRegion::new(rt.alloc(), 64));
    region.fill(15, 2, 9);
    reads(&rt, &region, 14, b"\0\x09\x09\0");
    region.write(60, b"last");
    reads(&rt, &region, 59, b"\0last");
    region.bytes_mut(61, 2).copy_from_slice(b"os");
    reads(&rt, &region, 60, b"lost");
    drop(region);
}

#[test]
fn bytes_move_over_an_overlap(rt: HostRuntime) {
    let mut region = done(&rt, RawRegion::new(rt.alloc(), 16));
    region.write(0, b"abcdefgh");
    region.move_within(0, 2, 8);
    reads(&rt, &region, 0, b"ababcdefgh\0");
    region.move_within(2, 1, 8);
    reads(&rt, &region, 0, b"aabcdefghh\0");
    drop(region);
}

#[test]
fn the_smallest_region_and_a_gibibyte(rt: HostRuntime) {
    let small = done(&rt, RawRegion::new(rt.alloc(), 16));
    same(&rt, small.capacity(), 16);
    let large = done(&rt, RawRegion::new(rt.alloc(), 1_073_741_824));
    same(&rt, large.capacity(), 1_073_741_824);
    same(&rt, large.read_u64(1_073_741_816), 0);
    drop(small);
    drop(large);
}

/// Returns a window of 48 bytes in a region of 96, each of them 7.
fn window<R: Abort + AllocGlobal>(rt: &R) -> Window
    ensures { length result.bytes ≡ 48 }
{
    let mut region = done(rt, RawRegion::new(rt.alloc(), 96));
    region.fill(0, 96, 7);
    Window::new(region, 32, 48)
}

#[test]
fn a_window_is_read_from_its_base(rt: HostRuntime) {
    let mut window = window(&rt);
    same(&rt, window.base(), 32);
    same(&rt, window.size(), 48);
    same(&rt, window.capacity(), 96);
    holds(&rt, window.in_range(0, 48));
    holds(&rt, !window.in_range(0, 49));
    window.fill(0, 48, 0);
    window.write_u64(40, 258);
    same(&rt, window.read_u64(40), 258);
    let region = window.into_region();
    reads(&rt, &region, 71, b"\0\x02\x01\0\0\0\0\0\0\x07");
    drop(region);
}

#[test]
fn bytes_of_a_window_move(rt: HostRuntime) {
    let mut window = window(&rt);
    window.write(0, b"front");
    window.move_within(0, 8, 5);
    same(&rt, window.bytes(8, 5), b"front".as_slice());
    window.bytes_mut(5, 1).copy_from_slice(b"!");
    let region = window.into_region();
    reads(&rt, &region, 31, b"\x07front!\x07");
    drop(region);
}

/// Checks that a region has these bytes from an offset on.
fn reads(rt: &impl Abort, region: &RawRegion, at: u64, bytes: &[u8]) {
    let len = bytes.len() as u64;
    holds(rt, region.in_range(at, len));
    same(rt, region.bytes(at, len), bytes);
}

#[test]
fn two_ranges_are_lent_together(rt: HostRuntime) {
    let mut bytes = *b"0123456789";
    let (front, back) = (ByteRange { from: 1, len: 3 }, ByteRange { from: 4, len: 3 });
    let (a, b) = two_mut(&mut bytes, back, front);
    a.copy_from_slice(b);
    same(&rt, bytes.as_slice(), b"0123123789".as_slice());
}

#[test]
fn ranges_are_apart_or_not(rt: HostRuntime) {
    let (front, back) = (ByteRange { from: 1, len: 3 }, ByteRange { from: 4, len: 3 });
    let whole = ByteRange {
        from: 0,
        len: u64::MAX,
    };
    holds(&rt, apart(front, back));
    holds(&rt, apart(back, front));
    holds(&rt, !apart(front, ByteRange { from: 3, len: 1 }));
    holds(&rt, !apart(whole, front));
}

#[test]
fn words_of_a_slice(rt: HostRuntime) {
    let mut bytes = [0u8; 12];
    set_word_in(&mut bytes, 3, 513);
    same(&rt, word_in(&bytes, 3), 513);
    let wanted = b"\0\0\0\x01\x02\0\0\0\0\0\0\0";
    same(&rt, bytes.as_slice(), wanted.as_slice());
}
