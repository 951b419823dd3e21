//! Segments in regions of 1024 bytes and keys of objects, for the tests.
ghost use Rattle.std.specs.Prelude.{◌≡◌};
ghost use Rattle.std.specs.Result.{IfOk};
ghost use Rattle.seg_types.specs.declared.kinds.Kind.{Kind};
ghost use Rattle.seg_types.specs.Keys.{new_key_seen};
ghost use Rattle.segment_manager.specs.objects.NewObjects.{IsOfKind};

use crate::bench::Bench;
use crate::checks::{done, holds, same};
use image_check::open;
use memory_devices::{EndBehaviour, MemorySource};
use raw_region::{RawRegion, Steps};
use seg_types::{Handle, Key, Name, NewKey};
use segment_manager::unchecked::{named_at, unique_at};
use segment_manager::{Mode, Segment};
use std::process::Abort;

/// Returns a segment of 1024 bytes with nothing in it.
pub fn fresh<R: Abort + AllocGlobal>(rt: &R) -> Bench {
    let region = done(rt, RawRegion::new(rt.alloc(), 1024));
    Bench::new(done(rt, Segment::create(region, 0, 1024, Mode::Write)))
}

/// Returns the bytes of a segment, opened as one in another region, if all was as is wanted so far.
pub fn opened<R: Abort + AllocGlobal>(rt: &R, bench: Bench, mode: Mode) -> Bench {
    let mut reader = MemorySource::new(bench.segment.as_bytes(), 4096, EndBehaviour::Ends);
    let region = done(rt, RawRegion::new(rt.alloc(), 2048));
    let mut steps = Steps::new();
    let opened = open(rt.alloc(), &mut reader, region, 16, mode, &mut steps);
    bench.ends(rt);
    Bench::new(done(rt, opened))
}

fn name<'a>(rt: &impl Abort, bytes: &'a [u8]) -> Name<'a> {
    Name::new(bytes).expect(rt, "no name")
}

/// Returns the key of the object of this name.
pub fn named<'a>(rt: &impl Abort, bytes: &'a [u8]) -> Key<'a> {
    Key::Name(name(rt, bytes))
}

/// Returns the key of an object that is to be made under this name.
pub fn new_named<'a>(rt: &impl Abort, bytes: &'a [u8]) -> NewKey<'a>
    ensures { (kind : Kind) → IsOfKind (new_key_seen result) kind }
{
    NewKey::Name(name(rt, bytes))
}

/// Checks that the object whose name has `i` others before it has this handle.
pub fn named_is(rt: &impl Abort, bench: &Bench, i: u64, handle: Handle) {
    let segment = &bench.segment;
    holds(rt, i < segment.num_named());
    same(rt, named_at(segment, i), handle);
}

/// Checks that the unique object whose kind has `i` others before it has this handle.
pub fn unique_is(rt: &impl Abort, bench: &Bench, i: u64, handle: Handle) {
    let segment = &bench.segment;
    holds(rt, i < segment.num_unique());
    same(rt, unique_at(segment, i), handle);
}
