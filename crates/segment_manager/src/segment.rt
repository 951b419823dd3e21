//! A segment: a heap whose bytes denote a directory.
ghost use Rattle.std.specs.Prelude.{◌≡◌, ◌+◌, ◌-◌, ◌%◌, IsTrue, length, true};
ghost use Rattle.raw_region.specs.Memory.{whole};
ghost use Rattle.seg_types.specs.Commands.{Free, Size};
ghost use Rattle.segment_manager.specs.{Answers.Number, objects.Found.is_object_at, Step.is_read_only};
ghost use Rattle.segment_manager.specs.State.{AnswersQuery, AnswersWith, IsSegment};

use crate::layout::SIZE_AT;
use crate::modes::Mode;
use best_fit::Heap;
use block_tags::Role;
use raw_region::{RawRegion, Window};
use seg_types::{Handle, Refusal};
use std::marker::Model;

/// The result of a call on a segment. Its error is a `Refusal` unless a call says another.
pub type Result<T, E = Refusal> = std::result::Result<T, E>;

/// Typed objects under names in one run of bytes, and the mode in which it is open.
///
/// Contracts use its bytes, which denote one directory. Each call is a step of that directory. The handle of an object
/// is the offset in bytes of its payload from the start of the segment.
#[derive(Drop)]
pub struct Segment {
    pub(crate) heap: Heap,
    pub(crate) mode: Mode,
}

impl Model for Segment {
    ghost use Rattle.segment_manager.specs.State.{SegmentState, IsSegment};

    ghost Value = { SegmentState };

    ghost view = { λ s. record { cut = s.heap; mode = s.mode } };

    ghost invariant = { λ s. IsSegment s.heap.bytes };
}

impl Segment {
    /// Returns the mode in which the segment is open.
    ///
    /// Example: `if segment.mode() == Mode::Write`.
    pub fn mode(&self) -> Mode
        ensures { result ≡ self.now.mode }
    {
        self.mode
    }

    /// Returns all bytes of the segment: its image.
    ///
    /// Example: `let image = segment.as_bytes()`.
    pub fn as_bytes(&self) -> &[u8]
        ensures bytes { result.now ≡ self.now.cut.bytes }
        ensures denotation { IsSegment result.now }
    {
        self.heap.as_bytes()
    }

    /// Returns the number of bytes in the segment.
    ///
    /// Example: `let bytes = segment.size()`.
    pub fn size(&self) -> u64
        ensures { AnswersQuery self.now Size (Number result) }
    {
        self.heap.header_word(SIZE_AT)
    }

    /// Returns the number of bytes in all gaps, their tags included.
    ///
    /// Example: `let bytes = segment.free()`.
    pub fn free(&self) -> u64
        ensures { AnswersQuery self.now Free (Number result) }
    {
        self.heap.free_bytes()
    }

    /// Returns the number of bytes of the region after the segment.
    ///
    /// Example: `let bytes = segment.region_left()`.
    pub fn region_left(&self) -> u64
        ensures { result ≡ length (whole self.now.cut) - (length self.now.cut.before + length self.now.cut.bytes) }
    {
        self.heap.region_left()
    }

    /// Returns the region of the segment, with its current bytes.
    ///
    /// Example: `let region = segment.into_region()`.
    pub fn into_region(self) -> RawRegion
        ensures { result ≡ whole self.cut }
    {
        let Segment { heap, .. } = self;
        heap.into_window().into_region()
    }

    /// Remembers a handle, which can be any number, if a block of the segment has it: calls with this handle then need
    /// no search for it. Returns true if an object has it. No byte changes.
    ///
    /// Example: `let is_object = segment.remember(handle)`.
    #[inline(always)]
    pub fn remember(&mut self, handle: Handle) -> bool
        ensures unchanged { self.new ≡ self.old }
        ensures object { AnswersWith self.new (λ d. is_object_at d handle) result }
    {
        if self.heap.remember(handle) {
            return self.heap.role(handle) == Role::Object;
        }
        false
    }

    /// Returns true if the segment is open for reading.
    pub(crate) fn is_read_only(&self) -> bool
        ensures { result ≡ is_read_only self.now.mode }
    {
        self.mode == Mode::ReadOnly
    }
}

/// Returns true if the handle, which can be any number, is remembered and an object has it. An object that is not
/// remembered has another handle: `Segment::remember` finds it.
///
/// Example: `if is_remembered(&segment, handle)`.
#[inline(always)]
pub fn is_remembered(segment: &Segment, handle: Handle) -> bool
    ensures { result ≡ true → AnswersWith segment.now (λ d. is_object_at d handle) true }
{
    if best_fit::is_remembered(&segment.heap, handle) {
        return segment.heap.role(handle) == Role::Object;
    }
    false
}

/// Makes a segment of a window that already contains one. No byte changes.
///
/// Example: `let segment = adopt(window, Mode::Write)`.
///
/// # Conditions
///
/// The bytes are a segment's, as in a window from a former segment. `image_check` opens any bytes, without a condition.
pub fn adopt(window: Window, mode: Mode) -> Segment
    requires { IsSegment window.bytes }
    ensures cut { result.cut ≡ window }
    ensures mode { result.mode ≡ mode }
{
    segment_of(Heap::adopt(window), mode)
}

/// Makes a segment of a heap that already contains one. No byte changes, and it reads no tile.
///
/// Example: `let segment = segment_of(heap, Mode::Write)`.
///
/// # Conditions
///
/// As [`adopt`].
pub fn segment_of(heap: Heap, mode: Mode) -> Segment
    requires { IsSegment heap.bytes }
    ensures cut { result.cut ≡ heap }
    ensures mode { result.mode ≡ mode }
{
    Segment { heap, mode }
}
