//! Creates an empty segment, moves a segment to another region, and moves the end of a segment in its region.
ghost use Rattle.std.specs.Prelude.{[], false, ◌%◌, ◌+◌, ◌≡◌, ◌≤◌};
ghost use Rattle.raw_region.specs.Format.{current};
ghost use Rattle.raw_region.specs.Memory.{AreZero, SameBytesExcept, SameSurroundings, bytes_of};
ghost use Rattle.best_fit.specs.{Heap.EncodesLiveSet, Heap.live_of, Table.no_backing};
ghost use Rattle.seg_index.specs.Index.{IsIndexAt};
ghost use Rattle.segment_manager.specs.{Calls.Creates, Directory.Directory, Relocating.Relocates, State.DenotesCurrent};
ghost use Rattle.segment_manager.specs.{Denotes.IsHeader, Step.is_read_only};
ghost use Rattle.segment_manager.specs.Layout.{header_len, named_at, reserved_at, unique_at};
ghost use Rattle.segment_manager.specs.blocks.Resized.{Resizes, grown, room_behind, shrunk};

use crate::errors::{CreateError, CreateRefused, RelocateRefused};
use crate::layout::{FORMAT, FORMAT_AT, MAGIC, MAGIC_AT, NAMED_AT, SIZE_AT, UNIQUE_AT};
use crate::modes::Mode;
use crate::segment::Segment;
use best_fit::Heap;
use block_tags::is_legal_size;
use offset_link::NULL;
use raw_region::{RawRegion, Steps, Window};

impl Segment {
    /// Makes an empty segment of the `size` bytes of the region from `base` on. It sets these bytes to 0, except the
    /// header, the tags and the two null links of its gap; no other byte of the region changes.
    ///
    /// Example: `let segment = Segment::create(RawRegion::new(alloc, 1024)?, 0, 1024, Mode::Write)?`.
    ///
    /// # Conditions
    ///
    /// `base` is a multiple of 16.
    ///
    /// # Errors
    ///
    /// `BadSize` if the size is neither 144 nor a multiple of 16 from 176 to 1073741824. Otherwise `RegionTooSmall` if
    /// the region ends before base plus size. The error returns the region unchanged.
    pub fn create(
        region: RawRegion,
        base: u64,
        size: u64,
        mode: Mode,
    ) -> Result<Segment, CreateRefused>
        requires aligned { base % 16 ≡ 0 }
        ensures { Creates region base size mode result }
    {
        if !is_legal_size(size) {
            let cause = CreateError::BadSize;
            return Err(CreateRefused { region, cause });
        }
        if !region.in_range(base, size) {
            let cause = CreateError::RegionTooSmall;
            return Err(CreateRefused { region, cause });
        }
        let mut heap = Heap::fresh(Window::zeroed(region, base, size));
        write_header(&mut heap, size);
        Ok(Segment { heap, mode })
    }

    /// Moves the segment to another region, from `base` on, and returns the moved segment and its old region,
    /// unchanged. Bytes, directory, mode and all handles stay. No byte of the new region outside the segment changes.
    ///
    /// Example: `let (moved, left) = segment.relocate(RawRegion::new(alloc, 4096)?, 512)?`.
    ///
    /// # Conditions
    ///
    /// `base` is a multiple of 16.
    ///
    /// # Errors
    ///
    /// `RelocateRefused` if the region ends before base plus the segment's size. The error returns the segment and the
    /// region unchanged.
    pub fn relocate(
        self,
        region: RawRegion,
        base: u64,
    ) -> Result<(Segment, RawRegion), RelocateRefused>
        requires aligned { base % 16 ≡ 0 }
        ensures { Relocates self region base result }
    {
        if !region.in_range(base, self.heap.size()) {
            let segment = self;
            return Err(RelocateRefused { segment, region });
        }
        let Segment { heap, mode } = self;
        let left = heap.into_window();
        let mut window = Window::new(region, base, left.size());
        window.write(0, left.bytes(0, left.size()));
        let heap = Heap::adopt(window);
        Ok((Segment { heap, mode }, left.into_region()))
    }
}

/// Writes the header of an empty segment, except the heap's word before the index of names. The bytes from that index
/// on are already 0.
fn write_header(heap: &mut Heap, size: u64)
    requires { AreZero (bytes_of heap.old.bytes) named_at header_len }
    ensures live { EncodesLiveSet current heap.new.bytes (live_of heap.old.bytes) }
    ensures header { IsHeader current (bytes_of heap.new.bytes) size }
    ensures named { IsIndexAt (bytes_of heap.new.bytes) named_at no_backing [] }
    ensures unique { IsIndexAt (bytes_of heap.new.bytes) unique_at no_backing [] }
    ensures place { SameSurroundings heap.old heap.new }
    ensures rest { SameBytesExcept (bytes_of heap.old.bytes) (bytes_of heap.new.bytes) 0 reserved_at }
{
    heap.set_header_word(MAGIC_AT, MAGIC);
    heap.set_header_word(FORMAT_AT, FORMAT);
    heap.set_header_word(SIZE_AT, size);
    heap.set_header_word(NAMED_AT, NULL);
    heap.set_header_word(UNIQUE_AT, NULL);
}

/// Lengthens the segment by `extra` bytes of its region. They become a gap, or part of the gap at the old end. Every
/// object keeps its handle and its value.
///
/// Example: `extend_end(&mut segment, 1024)`.
///
/// # Conditions
///
/// `grow_shrink::grow` tests these and has no condition:
/// - the segment is open for writing;
/// - `extra` is a multiple of 16, at least 32;
/// - the new size is at most 1073741824;
/// - the region has room for it.
pub fn extend_end(segment: &mut Segment, extra: u64)
    requires writing { is_read_only segment.old.mode ≡ false }
    requires min_len { 32 ≤ extra }
    requires multiple { extra % 16 ≡ 0 }
    requires max_size { (d : Directory) → DenotesCurrent segment.old.cut.bytes d → d.size + extra ≤ 1073741824 }
    requires in_bounds { extra ≤ room_behind segment.old.cut }
    ensures { Resizes segment.old segment.new (λ d. grown d extra) }
{
    segment.heap.extend_end(extra, &mut Steps::new());
    let size = segment.heap.size();
    segment.heap.set_header_word(SIZE_AT, size);
}

/// Shortens the segment by the gap at its end, if there is one, so that it ends after the last block. A segment without
/// blocks shrinks to 144 bytes. Every object keeps its handle and its value.
///
/// Example: `cut_end(&mut segment)`.
///
/// # Conditions
///
/// The segment is open for writing. `grow_shrink::shrink_to_fit` tests this and has no condition.
pub fn cut_end(segment: &mut Segment)
    requires writing { is_read_only segment.old.mode ≡ false }
    ensures { Resizes segment.old segment.new (λ d. shrunk d) }
{
    segment.heap.cut_end(&mut Steps::new());
    let size = segment.heap.size();
    segment.heap.set_header_word(SIZE_AT, size);
}
