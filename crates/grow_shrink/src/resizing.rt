//! Growth of a segment at its end, and removal of the free bytes there.
ghost use Rattle.std.specs.Prelude.{◌≡◌, ◌+◌, ◌%◌, not, ◌||◌, ◌==◌, nat_lt, OnErr, OnOk};
ghost use Rattle.segment_manager.specs.blocks.Resized.{Resizes, grown, shrunk};
ghost use Rattle.segment_manager.specs.Step.{is_read_only as may_only_be_read};
ghost use Rattle.grow_shrink.specs.Resized.{IsRefusedBy, growth_refusal, room_of, shrink_refusal};

use crate::refusals::GrowError;
use block_tags::MAX_SEGMENT_LEN;
use segment_manager::unchecked::{cut_end, extend_end};
use segment_manager::{Mode, Segment};

/// The least number of bytes that a segment grows by.
const LEAST: u64 = 32;

/// Lengthens a segment by `extra` bytes of its region, which are free: a multiple of 16, at least 32. Every object
/// keeps its handle and its value.
///
/// # Errors
///
/// The first of these that applies: `ReadOnly` if the segment is open for reading. `BadGrow` if `extra` is below 32 or
/// no multiple of 16. `TooLarge` if the size would be above 1073741824. `RegionTooSmall` if the region ends before the
/// new size. Nothing changes.
pub fn grow(segment: &mut Segment, extra: u64) -> Result<(), GrowError>
    ensures refused { IsRefusedBy segment.old result (λ d.
        growth_refusal segment.old.mode d.size extra (room_of segment.old.cut)) }
    ensures growth { OnOk result (Resizes segment.old segment.new (λ d. grown d extra)) }
    ensures unchanged { OnErr result (segment.new ≡ segment.old) }
{
    if is_read_only(segment) {
        return Err(GrowError::ReadOnly);
    }
    if is_bad(extra) {
        return Err(GrowError::BadGrow);
    }
    if is_above(segment.size(), extra) {
        return Err(GrowError::TooLarge);
    }
    if extra > segment.region_left() {
        return Err(GrowError::RegionTooSmall);
    }
    extend_end(segment, extra);
    Ok(())
}

/// Shortens a segment by what is free at its end: it ends after its last block, and one without blocks has 144 bytes.
/// Every object keeps its handle and its value.
///
/// # Errors
///
/// `ReadOnly` if the segment is open for reading. Nothing changes.
pub fn shrink_to_fit(segment: &mut Segment) -> Result<(), GrowError>
    ensures refused { IsRefusedBy segment.old result (λ d. shrink_refusal segment.old.mode) }
    ensures shrinking { OnOk result (Resizes segment.old segment.new (λ d. shrunk d)) }
    ensures unchanged { OnErr result (segment.new ≡ segment.old) }
{
    if is_read_only(segment) {
        return Err(GrowError::ReadOnly);
    }
    cut_end(segment);
    Ok(())
}

/// Tells whether a segment is open for reading.
fn is_read_only(segment: &Segment) -> bool
    ensures { result ≡ may_only_be_read segment.now.mode }
{
    segment.mode() == Mode::ReadOnly
}

/// Tells whether no segment grows by `extra` bytes.
fn is_bad(extra: u64) -> bool
    ensures { result ≡ (nat_lt extra 32 || not (extra % 16 == 0)) }
{
    extra < LEAST || extra % 16 != 0
}

/// Tells whether a segment of `size` bytes would be too long with `extra` bytes more.
fn is_above(size: u64, extra: u64) -> bool
    ensures { result ≡ nat_lt 1073741824 (size + extra) }
{
    extra > MAX_SEGMENT_LEN || size > MAX_SEGMENT_LEN - extra
}
