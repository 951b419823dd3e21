//! A segment that grows, in a larger region if its own has no room; copies of segments, and the regions that images are
//! read into.
ghost use Rattle.std.specs.Prelude.{◌≡◌, ◌≤◌, ◌+◌, length, min, IfErr, IfOk, MatchResult};
ghost use Rattle.raw_region.specs.Memory.{SameSurroundings, cut_at, zeros};
ghost use Rattle.raw_region.specs.{Refusals.out_of_memory_of, Regions.IsCapacity};
ghost use Rattle.segment_manager.specs.State.{IsSegment};
ghost use Rattle.grow_shrink.specs.LargerRegion.{GrowsOrMoves, GrowsOrMovesOk, IsShortOfRoom, region_len};

use crate::refusals::GrowError;
use crate::resizing::grow;
use block_tags::MAX_SEGMENT_LEN;
use raw_region::{OutOfMemory, RawRegion, Window};
use segment_manager::Segment;
use segment_manager::unchecked::{adopt, extend_end};
use std::alloc::Global;
use thiserror::Error;

/// Why a segment does not grow, though it may move into a larger region. It is unchanged.
#[derive(Clone, Copy, Debug, PartialEq, Eq, Error)]
pub enum GrowOrMoveError {
    /// A reason that is none of the region.
    #[error("{0}")]
    Growth(GrowError),
    /// The region has no room, and memory for a larger one was refused.
    #[error("out of memory")]
    OutOfMemory(OutOfMemory),
}

/// The shortest region that a segment is read into, in bytes: the least size of a segment with a block.
const MIN_REGION_LEN: u64 = 176;

/// Returns the capacity of a region for a segment of `bytes` bytes: a multiple of 16 from 176 to 1073741824.
fn capacity_for(bytes: u64) -> u64
    ensures capacity { IsCapacity result }
    ensures len { result ≡ region_len bytes }
    ensures room { min bytes 1073741824 ≤ result }
{
    bytes.clamp(MIN_REGION_LEN, MAX_SEGMENT_LEN).div_ceil(16) * 16
}

/// Makes a region of zeros with room for a segment of `bytes` bytes, or for the largest segment if these are more.
///
/// # Errors
///
/// If the allocator refuses a region of `bytes` bytes, rounded up to a multiple of 16 and at least 176.
pub fn region_for(alloc: Global, bytes: u64) -> Result<RawRegion, OutOfMemory>
    ensures bytes { IfOk result (λ region. region ≡ zeros (region_len bytes)) }
    ensures len { IfOk result (λ region. length region ≡ region_len bytes) }
    ensures room { IfOk result (λ region. min bytes 1073741824 ≤ length region) }
    ensures refused { IfErr result (λ refusal. refusal ≡ out_of_memory_of (region_len bytes)) }
{
    RawRegion::new(alloc, capacity_for(bytes))
}

/// Lengthens a segment by `extra` bytes, which are free: a multiple of 16, at least 32. It moves into a larger region
/// if its own has no room. Every object keeps its handle and its value.
///
/// # Errors
///
/// `Growth` with the first reason of `grow` that is none of the region, and `OutOfMemory` if the region has no room and
/// memory for a larger one was refused. Nothing changes.
pub fn grow_or_move(alloc: Global, segment: &mut Segment, extra: u64) -> Result<(), GrowOrMoveError>
    ensures { GrowsOrMoves segment.old segment.new extra result }
{
    match grow(segment, extra) {
        Ok(()) => Ok(()),
        Err(GrowError::RegionTooSmall) => {
            let size = size_of(segment);
            grow_elsewhere(alloc, segment, size, extra)
        }
        Err(why) => Err(GrowOrMoveError::Growth(why)),
    }
}

/// Returns the number of bytes of a segment, which denote a directory.
pub fn size_of(segment: &Segment) -> u64
    ensures size { result ≡ length segment.now.cut.bytes }
    ensures most { result ≤ 1073741824 }
    ensures denotation { IsSegment segment.now.cut.bytes }
{
    segment.as_bytes().len() as u64
}

/// Lengthens a segment of `size` bytes whose region has no room for that.
fn grow_elsewhere(
    alloc: Global,
    segment: &mut Segment,
    size: u64,
    extra: u64,
) -> Result<(), GrowOrMoveError>
    requires size { size ≡ length segment.old.cut.bytes }
    requires denotation { IsSegment segment.old.cut.bytes }
    requires max_len { IsShortOfRoom segment.old extra }
    ensures { GrowsOrMoves segment.old segment.new extra result }
{
    match grown_copy(alloc, segment, size, extra) {
        Ok(copy) => {
            *segment = copy;
            Ok(())
        }
        Err(refused) => Err(GrowOrMoveError::OutOfMemory(refused)),
    }
}

/// Makes a copy of a segment of `size` bytes, with `extra` bytes more, in a region of its own.
fn grown_copy(
    alloc: Global,
    segment: &Segment,
    size: u64,
    extra: u64,
) -> Result<Segment, OutOfMemory>
    requires size { size ≡ length segment.now.cut.bytes }
    requires denotation { IsSegment segment.now.cut.bytes }
    requires max_len { IsShortOfRoom segment.now extra }
    ensures changes { IfOk result (λ copy. GrowsOrMovesOk segment.now copy extra) }
    ensures refused { IfErr result (λ refusal. refusal ≡ out_of_memory_of (region_len (size + extra))) }
{
    let region = region_for(alloc, size + extra)?;
    let mut copy = copy_into(segment, region);
    extend_end(&mut copy, extra);
    Ok(copy)
}

/// Copies a segment to the front of a region, open as it is. No other byte of the region changes.
///
/// # Conditions
///
/// The region has room for the segment.
pub fn copy_into(segment: &Segment, region: RawRegion) -> Segment
    requires { length segment.now.cut.bytes ≤ length region }
    ensures bytes { result.cut.bytes ≡ segment.now.cut.bytes }
    ensures mode { result.mode ≡ segment.now.mode }
    ensures place { SameSurroundings (cut_at region 0 (length segment.now.cut.bytes)) result.cut }
{
    let image = segment.as_bytes();
    let mut window = Window::new(region, 0, image.len() as u64);
    window.write(0, image);
    adopt(window, segment.mode())
}
