//! Visited objects, each with its head, its name, the padding after it and the three words of its value.
ghost use Rattle.std.specs.Prelude.{◌≡◌, ◌+◌, ◌%◌, ◌^◌, ◌<◌, ◌≤◌, length};
ghost use Rattle.raw_region.specs.Memory.{bytes_of, word_at};
ghost use Rattle.offset_link.specs.Link.{link_at};
ghost use Rattle.seg_index.specs.Keys.{class_at, code_at, count_at, name_at, name_len_at};
ghost use Rattle.image_check.specs.ObjectTests.{padding_at, value_offset};

use super::ImageWindow;
use crate::checking::VisitCounter;
use segment_manager::layout::{HALF, HEAD_LEN, NAME_CLASS_AT};

/// The place of a visited object.
#[derive(Clone, Copy)]
pub(crate) struct Object {
    at: u64,
}

/// The place of the value of a visited object. The three words of a container can be read.
#[derive(Clone, Copy)]
pub(crate) struct Value {
    pub(super) at: u64,
}

impl Object {
    /// Returns the object at `at`. It takes one visit.
    pub(crate) fn visit(at: u64, visits: &mut VisitCounter) -> Object
        ensures position { result.at ≡ at }
        ensures visits { visits.new ≡ visits.old + 1 }
    {
        visits.visit();
        Object { at }
    }

    /// Returns its offset.
    pub(crate) fn at(self) -> u64
        ensures { result ≡ self.at }
    {
        self.at
    }

    /// Returns the code of its kind.
    pub(crate) fn code(self, window: &ImageWindow) -> u64
        requires { self.at + 8 ≤ length window.now.bytes }
        ensures code { result ≡ code_at (bytes_of window.now.bytes) self.at }
        ensures max_size { result < 2 ^ 32 }
    {
        window.read_u64(self.at) % HALF
    }

    /// Returns the number of its elements.
    pub(crate) fn count(self, window: &ImageWindow) -> u64
        requires { self.at + 8 ≤ length window.now.bytes }
        ensures count { result ≡ count_at (bytes_of window.now.bytes) self.at }
        ensures max_size { result < 2 ^ 32 }
    {
        window.read_u64(self.at) / HALF
    }

    /// Returns its class.
    pub(crate) fn class(self, window: &ImageWindow) -> u64
        requires max_size { self.at < 2 ^ 63 }
        requires in_bounds { self.at + 16 ≤ length window.now.bytes }
        ensures { result ≡ class_at (bytes_of window.now.bytes) self.at }
    {
        window.read_u64(self.at + NAME_CLASS_AT) / HALF
    }

    /// Returns the length of its name in bytes.
    pub(crate) fn name_len(self, window: &ImageWindow) -> u64
        requires max_size { self.at < 2 ^ 63 }
        requires in_bounds { self.at + 16 ≤ length window.now.bytes }
        ensures len { result ≡ name_len_at (bytes_of window.now.bytes) self.at }
        ensures max_size { result < 2 ^ 32 }
    {
        window.read_u64(self.at + NAME_CLASS_AT) % HALF
    }

    /// Returns its name.
    pub(crate) fn name(self, window: &ImageWindow) -> &[u8]
        requires max_size { length window.now.bytes < 2 ^ 63 }
        requires in_bounds { self.at + 16 + name_len_at (bytes_of window.now.bytes) self.at ≤ length window.now.bytes }
        ensures name { result.now ≡ name_at (bytes_of window.now.bytes) self.at }
        ensures len { length result.now ≡ name_len_at (bytes_of window.now.bytes) self.at }
    {
        window.bytes(self.at + HEAD_LEN, self.name_len(window))
    }

    /// Returns the bytes between its name and its value.
    pub(crate) fn padding(self, window: &ImageWindow) -> &[u8]
        requires max_size { length window.now.bytes < 2 ^ 63 }
        requires in_bounds { value_offset (bytes_of window.now.bytes) self.at ≤ length window.now.bytes }
        ensures { result.now ≡ padding_at (bytes_of window.now.bytes) self.at }
    {
        let len = self.name_len(window);
        window.bytes(self.at + HEAD_LEN + len, (len + 7) / 8 * 8 - len)
    }

    /// Returns its value.
    pub(crate) fn value(self, window: &ImageWindow) -> Value
        requires max_size { self.at < 2 ^ 63 }
        requires in_bounds { self.at + 16 ≤ length window.now.bytes }
        ensures { result.at ≡ value_offset (bytes_of window.now.bytes) self.at }
    {
        let at = self.at + HEAD_LEN + (self.name_len(window) + 7) / 8 * 8;
        Value { at }
    }
}

impl Value {
    /// Returns its offset.
    pub(crate) fn at(self) -> u64
        ensures { result ≡ self.at }
    {
        self.at
    }

    /// Returns the target of its link.
    pub(crate) fn link(self, window: &ImageWindow) -> Option<u64>
        requires aligned { self.at % 8 ≡ 0 }
        requires in_bounds { self.at + 8 ≤ length window.now.bytes }
        ensures { result ≡ link_at (bytes_of window.now.bytes) self.at }
    {
        window.load(self.at)
    }

    /// Returns the second word: the number of elements or pairs.
    pub(crate) fn len(self, window: &ImageWindow) -> u64
        requires max_size { self.at < 2 ^ 63 }
        requires in_bounds { self.at + 16 ≤ length window.now.bytes }
        ensures { result ≡ word_at (bytes_of window.now.bytes) (self.at + 8) }
    {
        window.read_u64(self.at + 8)
    }

    /// Returns the third word: the capacity.
    pub(crate) fn capacity(self, window: &ImageWindow) -> u64
        requires max_size { self.at < 2 ^ 63 }
        requires in_bounds { self.at + 24 ≤ length window.now.bytes }
        ensures { result ≡ word_at (bytes_of window.now.bytes) (self.at + 16) }
    {
        window.read_u64(self.at + 16)
    }
}
