//! Elements of vectors and bytes of strings, by their types.
use crate::bench::Bench;
use crate::segments::fresh;
use seg_types::{Key, NewKey, Refusal};

/// The object that the tests make.
const MADE: Key<'static> = Key::Handle(144);

/// Sets an element of the vector, or does not.
fn sets(bench: &mut Bench, i: u64, value: i32, done: Result<(), Refusal>) {
    let set = bench.segment.vec_set(&MADE, i, value);
    bench.same(set, done);
}

/// Checks that the vector has an element.
fn has(bench: &mut Bench, i: u64, value: i32) {
    let got = bench.segment.vec_get(&MADE, i);
    bench.same(got, Ok(value));
}

#[test]
fn elements_of_a_vector(rt: HostRuntime) {
    let mut bench = fresh(&rt);
    let made = bench
        .segment
        .construct_vec(&NewKey::Anonymous, &[1i32, 2, 3]);
    bench.same(made, Ok(144));
    sets(&mut bench, 1, -7, Ok(()));
    has(&mut bench, 1, -7);
    sets(&mut bench, 3, 0, Err(Refusal::OutOfRange));
    has(&mut bench, 2, 3);
    bench.ends(&rt);
}

/// Sets a byte of the string, or does not.
fn sets_byte(bench: &mut Bench, i: u64, byte: u8, done: Result<(), Refusal>) {
    let set = bench.segment.string_set(&MADE, i, byte);
    bench.same(set, done);
}

#[test]
fn bytes_of_a_string(rt: HostRuntime) {
    let mut bench = fresh(&rt);
    let made = bench.segment.construct_string(&NewKey::Anonymous, b"abc");
    bench.same(made, Ok(144));
    sets_byte(&mut bench, 1, 255, Ok(()));
    sets_byte(&mut bench, 3, 0, Err(Refusal::OutOfRange));
    let is_changed = bench.segment.string_bytes(&MADE) == Ok(b"a\xFFc".as_slice());
    bench.holds(is_changed);
    bench.ends(&rt);
}
