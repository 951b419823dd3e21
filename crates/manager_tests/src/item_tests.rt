//! Objects made from the items of an iterator: which are taken of it, and which stay.
ghost use Rattle.std.specs.Prelude.{◌≤◌};
ghost use Rattle.seg_types.specs.declared.kinds.ScalarKind.TheVariants.{I64 as OfI64};
ghost use Rattle.seg_types.specs.Keys.{new_key_seen};
ghost use Rattle.segment_manager.specs.objects.NewObjects.{IsOfItsKind};

use crate::bench::Bench;
use crate::segments::{fresh, opened};
use seg_types::{Handle, Key, Kind, NewKey, Refusal, ScalarKind};
use segment_manager::Mode;

/// The kind of objects of i64.
const I64: Kind = Kind::Scalar(ScalarKind::I64);

const FEW: Result<Handle, Refusal> = Err(Refusal::OutOfRange);

const NO_SPACE: Result<Handle, Refusal> = Err(Refusal::NoSpace);

const EXISTS: Result<Handle, Refusal> = Err(Refusal::Exists);

const ONLY_READ: Result<Handle, Refusal> = Err(Refusal::ReadOnly);

/// Asks for `count` items of those from 1 on below `end`: what is made, and the first item that is not taken, or `end`.
fn takes_for(
    bench: &mut Bench,
    key: &NewKey,
    count: u32,
    end: i64,
    made: Result<Handle, Refusal>,
    next: i64,
)
    requires kind { IsOfItsKind (new_key_seen key.now) OfI64 }
    requires non_empty { 1 ≤ count }
    requires max_count { count ≤ 1048576 }
{
    let mut items = 1..end;
    let got = bench.segment.construct_it(key, count, &mut items);
    bench.same(got, made);
    bench.same(items.next().unwrap_or(end), next);
}

/// Checks what a construct call from an iterator answers under a name.
fn takes(
    bench: &mut Bench,
    name: u8,
    count: u32,
    end: i64,
    made: Result<Handle, Refusal>,
    next: i64,
)
    requires non_empty { 1 ≤ count }
    requires max_count { count ≤ 1048576 }
{
    if let Some(name) = bench.name(&[name]) {
        takes_for(bench, &NewKey::Name(name), count, end, made, next);
    }
}

#[test]
fn items_become_elements(rt: HostRuntime) {
    let mut bench = fresh(&rt);
    takes(&mut bench, b'v', 3, 9, Ok(192), 4);
    bench.has(b'v', 0, 1i64);
    bench.has(b'v', 2, 3i64);
    bench.lacks::<i64>(b'v', 3, Refusal::OutOfRange);
    bench.has_free(768);
    bench.ends(&rt);
}

#[test]
fn too_few_items_make_nothing(rt: HostRuntime) {
    let mut bench = fresh(&rt);
    takes(&mut bench, b'v', 3, 1, FEW, 1);
    takes(&mut bench, b'v', 3, 3, FEW, 3);
    takes_for(&mut bench, &NewKey::Anonymous, 3, 3, FEW, 3);
    takes_for(&mut bench, &NewKey::Unique(I64), 3, 2, FEW, 2);
    bench.has_free(880);
    takes(&mut bench, b'v', 3, 4, Ok(192), 4);
    bench.ends(&rt);
}

#[test]
fn no_item_is_taken_where_there_is_no_space(rt: HostRuntime) {
    let mut bench = fresh(&rt);
    bench.makes(b'v', 1, 7i64, 192);
    takes(&mut bench, b'v', 3, 9, EXISTS, 1);
    takes(&mut bench, b'v', 1048576, 9, EXISTS, 1);
    takes(&mut bench, b'w', 1048576, 9, NO_SPACE, 1);
    // more items than there are, and no gap for them either
    takes(&mut bench, b'w', 94, 9, NO_SPACE, 1);
    bench.has_free(784);
    bench.ends(&rt);
}

#[test]
fn no_item_is_taken_of_what_is_only_read(rt: HostRuntime) {
    let mut bench = fresh(&rt);
    bench.makes(b'v', 1, 7i64, 192);
    let mut read = opened(&rt, bench, Mode::ReadOnly);
    takes(&mut read, b'v', 3, 9, ONLY_READ, 1);
    takes(&mut read, b'w', 3, 9, ONLY_READ, 1);
    read.ends(&rt);
}

#[test]
fn items_of_other_kinds(rt: HostRuntime) {
    let mut bench = fresh(&rt);
    let mut truths = [true, false].into_iter();
    let made = bench
        .segment
        .construct_it(&NewKey::Anonymous, 2, &mut truths);
    bench.same(made, Ok(144));
    let truth = bench.segment.get(&Key::Handle(144), 1);
    bench.same(truth, Ok(false));
    let only = NewKey::Unique(Kind::Scalar(ScalarKind::U8));
    let made = bench.segment.construct_it(&only, 5, &mut (250u8..255));
    bench.same(made, Ok(240));
    let byte = bench.segment.get(&Key::Handle(240), 4);
    bench.same(byte, Ok(254u8));
    bench.ends(&rt);
}
