//! Converts a box into its raw pointer and back. A struct that crosses to C can hold the pointer but no box. After
//! `Box::into_raw` and `Box::from_raw` of Rust's standard library.
#![tactic(auto)]

ghost use Rattle.std.specs.Prelude.{◌≡◌};
ghost use Rattle.std.specs.Box.Ownership.{box_owns};

use std::alloc::Allocator;
use std::marker::Model;

/// A box as raw parts. It owns the value behind its pointer, as the box did.
pub struct RawBox<T, A: Allocator> {
    /// The address of the value.
    pub at: *mut T,
    /// The allocator that frees the memory.
    pub alloc: A,
    /// The value.
    pub ghost value: { T },
}

impl<T, A: Allocator> Model for RawBox<T, A> {
    ghost also_owns = { λ l. box_owns (A.dealloc_token l.alloc) T.row l.at l.value };
}

impl<T: Drop, A: Allocator> RawBox<T, A> {
    /// Converts a box into its raw parts. It neither allocates nor copies the value.
    pub fn from_box(whole: Box<T, A>) -> RawBox<T, A>
        ensures { result.value ≡ whole.value }
    {
        let (at, alloc) = Box::into_raw_with_allocator(whole);
        RawBox { at, alloc }
    }

    /// Converts the raw parts back into the box. It neither allocates nor copies the value.
    pub fn into_box(self) -> Box<T, A>
        ensures { result.value ≡ self.value }
    {
        let RawBox { at, alloc } = self;
        unsafe { Box::from_raw(alloc, at) }
    }
}
