//! The elements of arrays and vectors that were looked up, one after another; of scalars also several at once.
ghost use Rattle.std.specs.Prelude.{◌≡◌, ◌-◌, OnErr, length};
ghost use Rattle.std.specs.Iterator.{at_most};
ghost use Rattle.segment_manager.specs.objects.{BoundObjects.key_of, ElementLists.numbers_at, ElementLists.texts_at};
ghost use Rattle.segment_manager.specs.State.{AnswersWith};
ghost use Rattle.segment_values.specs.Ranges.{range_at, read_into};
ghost use Rattle.segment_views.specs.Walked.{GoesOnElements};

use seg_types::{Refusal, Scalar};
use segment_manager::{Bound, BoundContent, Fixed, Growable, Slice, SliceStorage, Strings, Texts};
use segment_values::read_elements;
use std::marker::Model;

/// An array or a vector of scalars whose elements can be read one after another, or several at once.
pub trait SliceReads<T: Scalar, S: SliceStorage> {
    /// Returns its elements, one after another.
    ///
    /// Example: `for number in queue.iter()`.
    fn iter(&self) -> SliceItems<'_, T, S>;

    /// Copies its first elements into `values`, as many as there is room for.
    ///
    /// Example: `queue.copy_to(&mut room)?`.
    ///
    /// # Errors
    ///
    /// `OutOfRange` if `values` has more places than there are elements. `values` does not change.
    fn copy_to(&self, values: &mut [T]) -> Result<(), Refusal>;
}

impl<'a, T: Scalar, S: SliceStorage> SliceReads<T, S> for Bound<'a, Slice<T, S>> {
    fn iter(&self) -> SliceItems<'_, T, S>
        ensures { result ≡ record { segment = self.now.segment.now; key = key_of self.now.object; at = 0 } }
    {
        SliceItems {
            slice: *self,
            at: 0,
            len: self.len(),
        }
    }

    fn copy_to(&self, values: &mut [T]) -> Result<(), Refusal>
        ensures read { AnswersWith self.now.segment.now (λ d.
            range_at d (key_of self.now.object) T.kind 0 (length values.old)) (read_into T.whole values.new result) }
        ensures unchanged { OnErr result (values.new ≡ values.old) }
    {
        read_elements(self.segment(), self.object(), 0, values)
    }
}

/// The elements of an object that was looked up, one after another.
///
/// Contracts see the segment, the object's key, and how many elements came. The content is a parameter, because a
/// struct can hold an object that was looked up only with a bound on a parameter.
#[derive(Drop)]
pub struct BoundElements<'a, C: BoundContent> {
    slice: Bound<'a, C>,
    at: u64,
    len: u64,
}

/// The scalars of an array or a vector, one after another.
pub type SliceItems<'a, T, S> = BoundElements<'a, Slice<T, S>>;

/// The elements of an array of scalars, one after another.
pub type ArrayItems<'a, T> = SliceItems<'a, T, Fixed>;

/// The elements of a vector of scalars, one after another.
pub type VectorItems<'a, T> = SliceItems<'a, T, Growable>;

impl<'a, C: BoundContent> Model for BoundElements<'a, C> {
    ghost use Rattle.std.specs.Prelude.{length};
    ghost use Rattle.segment_manager.specs.State.{AnswersWith};
    ghost use Rattle.segment_manager.specs.objects.{BoundObjects.key_of, ElementLists.numbers_at};
    ghost use Rattle.segment_views.specs.Walked.{ElementWalk};

    ghost Value = { ElementWalk };

    ghost view = { λ w. record { segment = w.slice.segment.now; key = key_of w.slice.object; at = w.at } };

    ghost invariant = { λ w. AnswersWith w.slice.segment.now (λ d.
        length (numbers_at d (key_of w.slice.object) C.kind)) w.len };
}

impl<'a, T: Scalar, S: SliceStorage> Iterator for BoundElements<'a, Slice<T, S>> {
    type Item = T;

    ghost next_gives = { GoesOnElements (λ d key. numbers_at d key (S.kind T.kind)) T.whole };

    ghost remaining = { λ w. at_most (18446744073709551615 - w.at) };

    fn next(&mut self) -> Option<T> {
        if self.at >= self.len {
            return None;
        }
        let value = self.slice.get(self.at).ok()?;
        self.at += 1;
        Some(value)
    }
}

/// A vector of strings whose texts can be read one after another.
pub trait TextSequence {
    /// Returns the bytes of its texts, one after another, borrowed from the segment.
    ///
    /// Example: `for line in lines.iter()`.
    fn iter(&self) -> TextItems<'_>;
}

impl<'a> TextSequence for Strings<'a> {
    fn iter(&self) -> TextItems<'_>
        ensures { result ≡ record { segment = self.now.segment.now; key = key_of self.now.object; at = 0 } }
    {
        TextItems {
            texts: *self,
            at: 0,
            len: self.len(),
        }
    }
}

/// The texts of an object that was looked up, one after another. Contracts see the segment, the object's key, and how
/// many texts came. The content is a parameter: only so a struct can hold an object that was looked up.
#[derive(Drop)]
pub struct BoundTexts<'a, C: BoundContent> {
    texts: Bound<'a, C>,
    at: u64,
    len: u64,
}

/// The texts of a vector of strings, one after another.
pub type TextItems<'a> = BoundTexts<'a, Texts>;

impl<'a, C: BoundContent> Model for BoundTexts<'a, C> {
    ghost use Rattle.std.specs.Prelude.{length};
    ghost use Rattle.segment_manager.specs.State.{AnswersWith};
    ghost use Rattle.segment_manager.specs.objects.{BoundObjects.key_of, ElementLists.texts_at};
    ghost use Rattle.segment_views.specs.Walked.{ElementWalk};

    ghost Value = { ElementWalk };

    ghost view = { λ w. record { segment = w.texts.segment.now; key = key_of w.texts.object; at = w.at } };

    ghost invariant = { λ w. AnswersWith w.texts.segment.now (λ d. length (texts_at d (key_of w.texts.object))) w.len };
}

impl<'a> Iterator for BoundTexts<'a, Texts> {
    type Item = &'a [u8];

    ghost next_gives = { GoesOnElements texts_at (λ text. text.now) };

    ghost remaining = { λ w. at_most (18446744073709551615 - w.at) };

    fn next(&mut self) -> Option<&'a [u8]> {
        if self.at >= self.len {
            return None;
        }
        let text = self.texts.get(self.at).ok()?;
        self.at += 1;
        Some(text)
    }
}
