//! The access to the tags of a window, which counts each tag that is read.
ghost use Rattle.std.specs.Prelude.{◌≡◌, ◌+◌, ◌≤◌, ◌<◌, ◌^◌, length};
ghost use Rattle.raw_region.specs.Memory.{bytes_of, word_at};

use crate::sizes::TAG_LEN;
use raw_region::Window;

/// The two words of a tag.
#[derive(Clone, Copy)]
pub struct Tag {
    /// The length of the tile before.
    pub before: u64,
    /// The length, the use and the colour of the tile, or the end mark.
    pub word: u64,
}

/// A reader of the tags of a window, and the number of tags that it has read.
#[derive(Drop)]
pub struct TagReader<'a> {
    window: &'a Window,
    tags: u64,
}

impl<'a> TagReader<'a> {
    /// Makes a reader that has read no tag.
    pub fn new(window: &'a Window) -> TagReader<'a>
        ensures window { result.window.now ≡ window.now }
        ensures tags { result.tags ≡ 0 }
    {
        TagReader { window, tags: 0 }
    }

    /// Returns the number of bytes in the window.
    pub fn size(&self) -> u64
        ensures { result ≡ length self.now.window.now.bytes }
    {
        self.window.size()
    }

    /// Returns the number of tags read so far.
    pub fn count(&self) -> u64
        ensures { result ≡ self.now.tags }
    {
        self.tags
    }

    /// Reads the tag at `at`.
    pub fn read(&mut self, at: u64) -> Tag
        requires max_size { at < 2 ^ 63 }
        requires in_bounds { at + TAG_LEN ≤ length self.old.window.now.bytes }
        requires no_overflow { self.old.tags + 1 < 2 ^ 64 }
        ensures previous { result.before ≡ word_at (bytes_of self.old.window.now.bytes) at }
        ensures word { result.word ≡ word_at (bytes_of self.old.window.now.bytes) (at + 8) }
        ensures window { self.new.window.now ≡ self.old.window.now }
        ensures tags { self.new.tags ≡ self.old.tags + 1 }
    {
        self.tags += 1;
        Tag {
            before: self.window.read_u64(at),
            word: self.window.read_u64(at + 8),
        }
    }
}
