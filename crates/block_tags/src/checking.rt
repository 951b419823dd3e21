//! Checks the tags of any window.
ghost use Rattle.std.specs.Prelude.{◌≡◌, ◌+◌, ◌*◌, ◌≤◌, ◌<◌, ◌^◌, ◌==◌, ◌&&◌, IsTrue, false, is_ok, length};
ghost use Rattle.raw_region.specs.Memory.{Memory, bytes_of, word_at};
ghost use Rattle.raw_region.specs.Format.{current};
ghost use Rattle.block_tags.specs.Checks.{StopsAt, good_tiles_of, is_good_tile, is_tagged};
ghost use Rattle.block_tags.specs.Format.{is_legal_size};
ghost use Rattle.block_tags.specs.Tiles.{has_tags, tiles_of};

use crate::sizes::{HEADER_LEN, TAG_LEN};
use crate::tag_reader::{Tag, TagReader};
use crate::tile::{BadTag, Tile};
use crate::words::{END_MARK, may_be_red, tag_word, tile_of_word};
use raw_region::Window;

/// The number of the current format.
const FORMAT: u64 = 2;

/// The result of a check of all tags.
#[derive(Clone, Copy, Debug, PartialEq, Eq)]
pub struct CheckedTags {
    /// True if the tags describe tiles that fill the window.
    pub are_good: bool,
    /// The number of tags read: one for each good tile, and one for the end tag or the first bad tag.
    pub tags: u64,
    /// The offset of the last tag read.
    pub at: u64,
}

/// Checks all tags of a window with any bytes, of 144 bytes or a multiple of 16 from 176 to 2 to the 30th.
///
/// # Errors
///
/// `BadTag` unless the tags describe tiles that fill the window from its header to its end tag, with no two free tiles
/// side by side.
#[tactic(auto, unfolding(raw_region::specs::Format::current))]
pub fn check(window: &Window) -> Result<(), BadTag>
    requires { IsTrue (is_legal_size (length window.now.bytes)) }
    ensures { is_ok result ≡ has_tags current (bytes_of window.now.bytes) (length window.now.bytes) }
{
    if check_counted(FORMAT, window).are_good {
        Ok(())
    } else {
        Err(BadTag)
    }
}

/// Reads the tags of such a window in the format up to the first bad one, and counts them. There is at most one tag for
/// each 32 bytes after the header. If all are good, there is one for each tile, and the end tag.
pub fn check_counted(format: u64, window: &Window) -> CheckedTags
    requires { IsTrue (is_legal_size (length window.now.bytes)) }
    ensures good { result.are_good ≡ has_tags format (bytes_of window.now.bytes) (length window.now.bytes) }
    ensures stop { result.are_good ≡ false
        → StopsAt format (bytes_of window.now.bytes) (length window.now.bytes) result.at }
    ensures read { result.tags ≡ good_tiles_of format (bytes_of window.now.bytes) (length window.now.bytes) + 1 }
    ensures tiles { IsTrue result.are_good
        → result.tags ≡ length (tiles_of (bytes_of window.now.bytes) (length window.now.bytes)) + 1 }
    ensures max_count { 32 * result.tags + 112 ≤ length window.now.bytes }
{
    check_tags(format, &mut TagReader::new(window))
}

/// Reads the tags up to the first bad one.
fn check_tags(format: u64, reader: &mut TagReader) -> CheckedTags
    requires size { IsTrue (is_legal_size (length reader.old.window.now.bytes)) }
    requires start { reader.old.tags ≡ 0 }
    ensures good { result.are_good
        ≡ has_tags format (bytes_of reader.old.window.now.bytes) (length reader.old.window.now.bytes) }
    ensures stop { result.are_good ≡ false
        → StopsAt format (bytes_of reader.old.window.now.bytes) (length reader.old.window.now.bytes) result.at }
    ensures read { result.tags
        ≡ good_tiles_of format (bytes_of reader.old.window.now.bytes) (length reader.old.window.now.bytes) + 1 }
    ensures tiles { IsTrue result.are_good
        → result.tags
        ≡ length (tiles_of (bytes_of reader.old.window.now.bytes) (length reader.old.window.now.bytes)) + 1 }
    ensures max_count { 32 * result.tags + 112 ≤ length reader.old.window.now.bytes }
{
    let end = reader.size() - TAG_LEN;
    let mut at = HEADER_LEN;
    let mut before = 0;
    let mut behind_free = false;
    'tags: while at < end {
        let tag = reader.read(at);
        if !is_good(format, tag, at, before, behind_free, end) {
            return CheckedTags {
                are_good: false,
                tags: reader.count(),
                at,
            };
        }
        let tile = tile_of_word(at, tag.word);
        at += tile.len;
        before = tile.len;
        behind_free = tile.use_of.is_none();
    }
    let last = reader.read(end);
    let are_good = is_end(last, before);
    CheckedTags {
        are_good,
        tags: reader.count(),
        at,
    }
}

/// Returns true if this is the end tag after a tile of `before` bytes.
fn is_end(tag: Tag, before: u64) -> bool
    ensures { result ≡ ((tag.before == before) && (tag.word == 1)) }
{
    tag.before == before && tag.word == END_MARK
}

/// Returns true if this tag at `at` is a good one of the format, for a tile that ends by `end` and follows a tile of
/// `before` bytes.
#[tactic(auto, unfolding(crate::specs::Checks::is_good_tile))]
fn is_good(format: u64, tag: Tag, at: u64, before: u64, behind_free: bool, end: u64) -> bool
    requires in_bounds { at < end }
    requires max_size { end < 2 ^ 63 }
    ensures { (m : Memory) → tag.before ≡ word_at m at → tag.word ≡ word_at m (at + 8)
        → result ≡ is_good_tile format m at before behind_free end }
{
    let tile = tile_of_word(at, tag.word);
    if tag.before != before {
        return false;
    }
    if tile.len > end - at {
        return false;
    }
    if behind_free && tile.use_of.is_none() {
        return false;
    }
    is_whole(format, tile, tag.word)
}

/// Returns true if the tile can occur in a window of the format and `word` is the second word of its tag.
fn is_whole(format: u64, tile: Tile, word: u64) -> bool
    requires { tile.len < 2 ^ 63 }
    ensures { result ≡ is_tagged format tile word }
{
    tile.len >= 32
        && tile.len % 16 == 0
        && (!tile.red || may_be_red(format, tile.use_of))
        && word == tag_word(tile)
}
