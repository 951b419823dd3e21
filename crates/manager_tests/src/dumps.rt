//! Segments that are dumped and loaded.
ghost use Rattle.std.specs.Prelude.{◌≡◌};

use crate::checks::{done, holds, refusal, same};
use memory_devices::{EndBehaviour, MemorySink};
use raw_region::RawRegion;
use segment_dump::{LoadError, LoadRefused, dump, load};
use segment_manager::{Mode, Segment};
use std::process::Abort;

/// Makes a segment of 4096 bytes with nothing in it.
pub fn empty<R: Abort + AllocGlobal>(rt: &R) -> Segment {
    let region = done(rt, RawRegion::new(rt.alloc(), 4096));
    done(rt, Segment::create(region, 0, 4096, Mode::Write))
}

/// Returns a writer with room for `capacity` bytes, which takes 7 at a time.
pub fn writer<R: Abort + AllocGlobal>(rt: &R, capacity: usize) -> MemorySink
    ensures { result.failures ≡ 0 }
{
    let Ok(out) = MemorySink::new(rt.alloc(), capacity, 7, EndBehaviour::Fails) else {
        panic!(rt; "out of memory");
    };
    out
}

/// Returns the text of a segment.
pub fn text_of<R: Abort + AllocGlobal>(rt: &R, segment: &Segment) -> MemorySink {
    let mut out = writer(rt, 16384);
    holds(rt, dump(segment, &mut out).is_ok());
    out
}

/// Checks that a segment is dumped as this text.
pub fn is_dumped<R: Abort + AllocGlobal>(rt: &R, segment: &Segment, text: &[u8]) {
    let out = text_of(rt, segment);
    same(rt, out.taken(), text);
    drop(out);
}

/// Returns the segment that a text is loaded as, in a region of 8192 bytes.
pub fn loaded<R: Abort + AllocGlobal>(rt: &R, text: &[u8], size: Option<u64>) -> Segment {
    let region = done(rt, RawRegion::new(rt.alloc(), 8192));
    done(rt, load(text, &mut [0; 4096], region, 16, size))
}

/// Loads a text that must be refused, with this room for its longest text, and returns the refusal.
pub fn refused_in<R: Abort + AllocGlobal>(
    rt: &R,
    text: &[u8],
    capacity: &mut [u8],
    size: Option<u64>,
) -> LoadRefused {
    let region = done(rt, RawRegion::new(rt.alloc(), 8192));
    refusal(rt, load(text, capacity, region, 16, size))
}

/// Checks that a text is not loaded as a segment of a size, and for which reason.
pub fn is_refused<R: Abort + AllocGlobal>(rt: &R, text: &[u8], size: u64, cause: LoadError) {
    let refused = refused_in(rt, text, &mut [0; 100], Some(size));
    same(rt, refused.cause, cause);
    drop(refused);
}
