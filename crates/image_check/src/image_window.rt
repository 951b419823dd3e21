//! The only access to the bytes of an image in a check, and to its blocks in use: calls that count their visits. Only
//! this module and its submodules see uncounted bytes.
ghost use Rattle.std.specs.Prelude.{◌≡◌, ◌+◌, ◌*◌, ◌%◌, ◌≤◌, ◌↔◌, IfOk, IsTrue, List, MatchOption, false, is_err};
ghost use Rattle.std.specs.Prelude.{length};
ghost use Rattle.raw_region.specs.Memory.{AreZero, bytes_of, part, whole, word_at, are_bytes};
ghost use Rattle.offset_link.specs.Link.{link_at};
ghost use Rattle.offset_link.specs.Relinked.{is_bad};
ghost use Rattle.block_tags.specs.Checks.{StopsAt};
ghost use Rattle.block_tags.specs.Format.{is_legal_size};
ghost use Rattle.block_tags.specs.Lists.{first_in, next_in};
ghost use Rattle.block_tags.specs.Tiles.{has_tags};
ghost use Rattle.block_tags.specs.Windows.{HasTileAt, IsTiledWindow, EncodesTiles};
ghost use Rattle.block_tags.specs.declared.tile.Tile.{Tile as ATile};
ghost use Rattle.image_check.specs.Formats.{version_word};
ghost use Rattle.image_check.specs.HeaderOffsets.{IsFirstNonzero};

mod blocks;
mod objects;
mod pairs;
mod renewing;
mod targets;

use crate::checking::VisitCounter;
use crate::header::FRONT;
use crate::versions::version_in;
use block_tags::{CheckedTags, Tile, check_counted, first, next};
pub(crate) use blocks::BlockTable;
pub(crate) use objects::{Object, Value};
use offset_link::{BadLink, checked, load};
pub(crate) use pairs::check_pairs;
use raw_region::{RawRegion, Window, bytes_are_octets};
use std::marker::Model;
pub(crate) use targets::{TileProbe, check_targets, find_tile, has_good_links};

/// The window of an image in a check.
#[derive(Drop)]
pub struct ImageWindow {
    window: Window,
}

impl Model for ImageWindow {
    ghost use Rattle.raw_region.specs.Memory.{WindowState};

    ghost Value = { WindowState };

    ghost view = { λ i. i.window };
}

impl ImageWindow {
    /// Makes the image in a window.
    pub fn new(window: Window) -> ImageWindow
        ensures { result ≡ window }
    {
        ImageWindow { window }
    }

    /// Returns the whole region, with its current bytes.
    pub fn into_region(self) -> RawRegion
        ensures { result ≡ whole self }
    {
        self.window.into_region()
    }

    /// Returns the number of bytes.
    pub fn size(&self) -> u64
        ensures { result ≡ length self.now.bytes }
    {
        self.window.size()
    }

    /// Returns true if the `len` bytes from `from` on lie in the window.
    pub fn in_range(&self, from: u64, len: u64) -> bool
        ensures { IsTrue result ↔ (from + len ≤ length self.now.bytes) }
    {
        self.window.in_range(from, len)
    }

    /// Returns the `len` bytes from `from` on.
    fn bytes(&self, from: u64, len: u64) -> &[u8]
        requires { from + len ≤ length self.now.bytes }
        ensures bytes { result.now ≡ part self.now.bytes from len }
        ensures len { length result.now ≡ len }
    {
        self.window.bytes(from, len)
    }

    /// Returns the number in the 8 bytes at `at`.
    fn read_u64(&self, at: u64) -> u64
        requires { at + 8 ≤ length self.now.bytes }
        ensures { result ≡ word_at (bytes_of self.now.bytes) at }
    {
        self.window.read_u64(at)
    }

    /// Returns the target of the link at `at`, or `None` if it is null.
    fn load(&self, at: u64) -> Option<u64>
        requires aligned { at % 8 ≡ 0 }
        requires in_bounds { at + 8 ≤ length self.now.bytes }
        ensures { result ≡ link_at (bytes_of self.now.bytes) at }
    {
        load(&self.window, at)
    }

    /// Returns the target of the link at `at`, or `None` if it is null.
    ///
    /// # Errors
    ///
    /// `BadLink` if no payload can begin at the target.
    fn load_checked(&self, at: u64) -> Result<Option<u64>, BadLink>
        requires aligned { at % 8 ≡ 0 }
        requires in_bounds { at + 8 ≤ length self.now.bytes }
        ensures on_ok { IfOk result (λ target. target ≡ link_at (bytes_of self.now.bytes) at) }
        ensures on_error { is_err result ≡ is_bad (length self.now.bytes) (link_at (bytes_of self.now.bytes) at) }
    {
        checked(&self.window, at)
    }

    /// Returns the version in the first bytes.
    pub fn version(&self) -> u64
        requires { 24 ≤ length self.now.bytes }
        ensures { result ≡ version_word self.now.bytes }
    {
        version_in(self.bytes(0, FRONT as u64))
    }

    /// Returns the number in the 8 bytes of the header at `at`.
    pub fn header_word(&self, at: u64) -> u64
        requires header { at + 8 ≤ 128 }
        requires in_bounds { at + 8 ≤ length self.now.bytes }
        ensures { result ≡ word_at (bytes_of self.now.bytes) at }
    {
        self.window.read_u64(at)
    }

    /// Returns the target of the header's link at `at`, or `None` if it is null.
    pub fn header_link(&self, at: u64) -> Option<u64>
        requires header { at + 8 ≤ 128 }
        requires aligned { at % 8 ≡ 0 }
        requires in_bounds { at + 8 ≤ length self.now.bytes }
        ensures { result ≡ link_at (bytes_of self.now.bytes) at }
    {
        load(&self.window, at)
    }

    /// Returns the target of the header's link at `at`, or `None` if it is null.
    ///
    /// # Errors
    ///
    /// `BadLink` if no payload can begin at the target.
    pub fn checked_header_link(&self, at: u64) -> Result<Option<u64>, BadLink>
        requires header { at + 8 ≤ 128 }
        requires aligned { at % 8 ≡ 0 }
        requires in_bounds { at + 8 ≤ length self.now.bytes }
        ensures on_ok { IfOk result (λ target. target ≡ link_at (bytes_of self.now.bytes) at) }
        ensures on_error { is_err result ≡ is_bad (length self.now.bytes) (link_at (bytes_of self.now.bytes) at) }
    {
        checked(&self.window, at)
    }

    /// Returns the offset of the first byte of the header from `from` on, below `to`, that is not 0.
    pub fn first_nonzero(&self, from: u64, to: u64) -> Option<u64>
        requires header { to ≤ 128 }
        requires in_bounds { to ≤ length self.now.bytes }
        ensures { MatchOption result (AreZero (bytes_of self.now.bytes) from to)
            (IsFirstNonzero (bytes_of self.now.bytes) from to) }
    {
        first_nonzero(self.bytes(0, self.size()), from, to)
    }

    /// States that bytes are below 256. It reads none.
    pub fn bytes_are_octets(&self)
        ensures { IsTrue (are_bytes self.now.bytes) }
    {
        bytes_are_octets(self.window.bytes(0, self.window.size()));
    }

    /// Returns the `len` bytes of an element at `from`, at most 8. It takes one visit.
    pub fn element(&self, from: u64, len: u64, visits: &mut VisitCounter) -> &[u8]
        requires max_len { len ≤ 8 }
        requires in_bounds { from + len ≤ length self.now.bytes }
        ensures bytes { result.now ≡ part self.now.bytes from len }
        ensures len { length result.now ≡ len }
        ensures visits { visits.new ≡ visits.old + 1 }
    {
        visits.visit();
        self.window.bytes(from, len)
    }

    /// Returns the target of the link at `at`: the entry of an index, or the first word of an element. It takes one
    /// visit.
    pub fn link(&self, at: u64, visits: &mut VisitCounter) -> Option<u64>
        requires aligned { at % 8 ≡ 0 }
        requires in_bounds { at + 8 ≤ length self.now.bytes }
        ensures link { result ≡ link_at (bytes_of self.now.bytes) at }
        ensures visits { visits.new ≡ visits.old + 1 }
    {
        visits.visit();
        load(&self.window, at)
    }

    /// Returns the target of the element at `at` of an array of texts, and the length of its text. It takes one visit.
    pub fn text(&self, at: u64, visits: &mut VisitCounter) -> (Option<u64>, u64)
        requires size { IsTrue (is_legal_size (length self.now.bytes)) }
        requires aligned { at % 8 ≡ 0 }
        requires in_bounds { at + 16 ≤ length self.now.bytes }
        ensures link { result.0 ≡ link_at (bytes_of self.now.bytes) at }
        ensures len { result.1 ≡ word_at (bytes_of self.now.bytes) (at + 8) }
        ensures visits { visits.new ≡ visits.old + 1 }
    {
        (self.link(at, visits), self.window.read_u64(at + 8))
    }

    /// Returns the targets of the two links of the node at `at`. It takes one visit.
    pub fn links(&self, at: u64, visits: &mut VisitCounter) -> (Option<u64>, Option<u64>)
        requires size { IsTrue (is_legal_size (length self.now.bytes)) }
        requires aligned { at % 8 ≡ 0 }
        requires in_bounds { at + 16 ≤ length self.now.bytes }
        ensures left { result.0 ≡ link_at (bytes_of self.now.bytes) at }
        ensures right { result.1 ≡ link_at (bytes_of self.now.bytes) (at + 8) }
        ensures visits { visits.new ≡ visits.old + 1 }
    {
        (self.link(at, visits), load(&self.window, at + 8))
    }

    /// Reads all tags up to the first that is wrong in the format. It takes one visit for each.
    pub fn check_counted(&self, format: u64, visits: &mut VisitCounter) -> CheckedTags
        requires { IsTrue (is_legal_size (length self.now.bytes)) }
        ensures good { result.are_good ≡ has_tags format (bytes_of self.now.bytes) (length self.now.bytes) }
        ensures stop { result.are_good ≡ false
            → StopsAt format (bytes_of self.now.bytes) (length self.now.bytes) result.at }
        ensures max_count { 32 * result.tags + 112 ≤ length self.now.bytes }
        ensures visits { visits.new ≡ visits.old + result.tags }
    {
        let tags = check_counted(format, &self.window);
        visits.add(tags.tags);
        tags
    }

    /// Returns the first tile, or `None` if there is no tile.
    pub fn first(&self) -> Option<UnreadTile>
        requires { IsTiledWindow self.now }
        ensures { (ts : List ATile) → EncodesTiles self.now ts → result ≡ first_in ts }
    {
        match first(&self.window) {
            Some(tile) => Some(UnreadTile { tile }),
            None => None,
        }
    }

    /// Returns the tile after the one at `at`, or `None` if that is the last.
    pub fn next(&self, at: u64) -> Option<UnreadTile>
        requires { HasTileAt self.now at }
        ensures { (ts : List ATile) → EncodesTiles self.now ts → result ≡ next_in ts at }
    {
        match next(&self.window, at) {
            Some(tile) => Some(UnreadTile { tile }),
            None => None,
        }
    }
}

/// Returns the offset of the first byte from `from` on, below `to`, that is not 0.
fn first_nonzero(bytes: &[u8], from: u64, to: u64) -> Option<u64>
    requires { to ≤ length bytes.now }
    ensures { MatchOption result (AreZero (bytes_of bytes.now) from to) (IsFirstNonzero (bytes_of bytes.now) from to) }
{
    'bytes: for at in from..to {
        if bytes[at as usize] != 0 {
            return Some(at);
        }
    }
    None
}

/// A tile whose tags are not read yet. Only `read` returns their contents, and counts a visit.
#[derive(Drop)]
pub struct UnreadTile {
    tile: Tile,
}

impl Model for UnreadTile {
    ghost use Rattle.block_tags.specs.declared.tile.Tile.{Tile};

    ghost Value = { Tile };

    ghost view = { λ u. u.tile };
}

impl UnreadTile {
    /// Returns the contents of the tags. It takes one visit.
    pub fn read(self, visits: &mut VisitCounter) -> Tile
        ensures tile { result ≡ self }
        ensures visits { visits.new ≡ visits.old + 1 }
    {
        visits.visit();
        self.tile
    }
}
