//! The handle that C holds: a pointer to a segment, or null, and what is noted beside it.
ghost use Rattle.std.specs.declared.option.Option.TheVariants.{None, Some};
ghost use Rattle.std.specs.{declared.option.Option.Option, Prelude.MatchOption, Prelude.MatchResult, Prelude.◌≡◌};
ghost use Rattle.segment_c.specs.{Calls.RefusesCall, Held.held, Marked.PutsSegment, Marked.placed, Marked.raised};
ghost use Rattle.segment_manager.specs.contracts.Segment.{the_row};

use crate::codes::{CLOSED, DONE};
use boxed::RawBox;
use segment_manager::Segment;
use std::alloc::Global;
use std::marker::Model;
use std::ptr::null_mut;

/// What is noted of the segment of a handle.
#[repr(C)]
#[derive(Clone, Copy)]
pub struct Marks {
    /// Raised by each call that may have moved elements.
    pub changes: u64,
    /// Whether the segment lies in memory that C lent.
    pub is_lent: bool,
    /// Whether C was told since the last change where elements stand that it may write.
    pub is_shared: bool,
}

/// A segment of which C holds the pointer, or nothing if that is null, and its marks.
#[repr(C)]
pub struct Slot {
    pub segment: HeldSegment,
    pub marks: Marks,
    /// What allocates for its calls, which has no bytes.
    pub alloc: Global,
}

/// A segment of which C holds the pointer, or nothing if that is null. Contracts see which segment.
#[repr(C)]
pub struct HeldSegment {
    at: *mut u8,
    alloc: Global,
    ghost value: { Option the_row.Denot },
}

impl Model for HeldSegment {
    ghost also_owns = { λ h. held h.at h.alloc h.value };
}

impl HeldSegment {
    /// Returns one without a segment.
    pub fn closed(alloc: Global) -> HeldSegment
        ensures { result.value ≡ None }
    {
        HeldSegment {
            at: null_mut(),
            alloc,
        }
    }

    /// Returns the one of a segment.
    fn of(segment: RawBox<Segment, Global>) -> HeldSegment
        ensures { result.value ≡ Some segment.value }
    {
        let RawBox { at, alloc } = segment;
        HeldSegment {
            at: at as *mut u8,
            alloc,
        }
    }

    /// Returns its segment, if it has one.
    fn into_loose(self) -> Option<RawBox<Segment, Global>>
        ensures { MatchOption result (self.value ≡ None) (λ l. self.value ≡ Some l.value) }
    {
        let HeldSegment { at, alloc } = self;
        if at.is_null() {
            return None;
        }
        Some(RawBox {
            at: at as *mut Segment,
            alloc,
        })
    }
}

/// Frees its segment.
impl Drop for HeldSegment {
    #[inline(always)]
    fn drop(self) {
        if let Some(segment) = self.into_loose() {
            free(segment);
        }
    }
}

/// Frees a segment. It is not inlined, since a handle that a call took its segment out of has none to free.
#[inline(never)]
fn free(segment: RawBox<Segment, Global>) {
    drop(segment.into_box());
}

impl Marks {
    /// Counts that another segment is in the handle, or none, and notes whether C lent its memory.
    pub fn place(&mut self, is_lent: bool)
        ensures { self.new ≡ placed self.old is_lent }
    {
        self.is_lent = is_lent;
        self.raise();
    }

    /// Counts a change.
    #[inline(always)]
    pub fn raise(&mut self)
        ensures { self.new ≡ raised self.old }
    {
        self.changes = self.changes.wrapping_add(1);
        self.is_shared = false;
    }
}

/// Takes the segment out of a handle, which has none then, for the time of a call; or answers that it is closed.
#[inline(always)]
pub fn take(handle: &mut Slot) -> Result<Box<Segment>, u32>
    ensures transfer { MatchResult result (λ segment. (handle.old.segment.value ≡ Some segment.value)
        × (handle.new.segment.value ≡ None)) (λ code.
        RefusesCall 0 code handle.old.segment.value handle.new.segment.value) }
    ensures marks { handle.new.marks ≡ handle.old.marks }
{
    match std::mem::replace(&mut handle.segment, HeldSegment::closed(handle.alloc)).into_loose() {
        Some(segment) => Ok(segment.into_box()),
        None => Err(CLOSED),
    }
}

/// Puts a segment into a handle at the end of a call, and returns the call's code. What the handle had is freed.
#[inline(always)]
pub fn put(code: u32, handle: &mut Slot, segment: Box<Segment>) -> u32
    ensures { PutsSegment result code handle.new.segment.value segment.value handle.new.marks handle.old.marks }
{
    handle.segment = HeldSegment::of(RawBox::from_box(segment));
    code
}

/// Puts a segment back into the handle out of which a call took it, and returns the call's code. The handle has none to
/// free, so nothing looks for one.
#[inline(always)]
pub fn put_taken_back(code: u32, handle: &mut Slot, segment: Box<Segment>) -> u32
    requires { handle.old.segment.value ≡ None }
    ensures { PutsSegment result code handle.new.segment.value segment.value handle.new.marks handle.old.marks }
{
    let segment = HeldSegment::of(RawBox::from_box(segment));
    match std::mem::replace(&mut handle.segment, segment).into_loose() {
        None => code,
        Some(_) => unreachable!(),
    }
}

/// Puts a segment into a handle at the end of a call that may have changed it, and returns the call's code.
#[inline(always)]
pub fn put_changed(code: u32, handle: &mut Slot, segment: Box<Segment>) -> u32
    ensures { PutsSegment result code handle.new.segment.value segment.value handle.new.marks
        (raised handle.old.marks) }
{
    handle.marks.raise();
    put(code, handle, segment)
}

/// Puts a segment that was made or opened into a handle, and notes whether C lent its memory. What the handle had is
/// freed.
pub fn put_new(handle: &mut Slot, segment: Box<Segment>, is_lent: bool) -> u32
    ensures { PutsSegment result 0 handle.new.segment.value segment.value handle.new.marks
        (placed handle.old.marks is_lent) }
{
    handle.marks.place(is_lent);
    put(DONE, handle, segment)
}
