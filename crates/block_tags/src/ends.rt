//! The end of the tiles: lays out a window, and adds and removes tiles at its end.
ghost use Rattle.std.specs.Prelude.{◌-◌, List, [], IsTrue, length};
ghost use Rattle.block_tags.specs.declared.tile.Tile.{Tile};
ghost use Rattle.block_tags.specs.Format.{is_legal_size};
ghost use Rattle.block_tags.specs.Lists.{laid, with_free, without_last};
ghost use Rattle.block_tags.specs.Windows.{CanAppend, PrefixSaysTiles, HasFreeLast, SameExceptTags, EncodesTiles};

use crate::sizes::{HEADER_LEN, TAG_LEN};
use crate::words::{END_MARK, put_word};
use raw_region::Window;

/// Writes the tags of one free tile that fills the window after the header. It writes only an end tag if there is no
/// room for a tile.
pub fn lay(window: &mut Window)
    requires { IsTrue (is_legal_size (length window.old.bytes)) }
    ensures tags { EncodesTiles window.new (laid (length window.old.bytes)) }
    ensures frame { SameExceptTags window.old window.new [] (laid (length window.old.bytes)) }
{
    let end = window.size() - TAG_LEN;
    let room = end - HEADER_LEN;
    // Without room for a tile, the end tag is at the place of the first tile's tag.
    put_word(window, HEADER_LEN, 0);
    put_word(window, HEADER_LEN + 8, room);
    put_word(window, end, room);
    put_word(window, end + 8, END_MARK);
}

/// Adds a free black tile to a window whose tags fill its first `old_size` bytes. The tile reaches from the old end tag
/// to the window's end.
pub fn append_free(window: &mut Window, old_size: u64)
    requires { CanAppend window.old old_size }
    ensures tags { (ts : List Tile) → PrefixSaysTiles window.old old_size ts
        → EncodesTiles window.new (with_free ts (old_size - TAG_LEN) (length window.old.bytes - TAG_LEN)) }
    ensures frame { (ts : List Tile) → PrefixSaysTiles window.old old_size ts
        → SameExceptTags window.old window.new ts
        (with_free ts (old_size - TAG_LEN) (length window.old.bytes - TAG_LEN)) }
{
    let size = window.size();
    let end = size - TAG_LEN;
    let len = size - old_size;
    put_word(window, old_size - 8, len);
    put_word(window, end, len);
    put_word(window, end + 8, END_MARK);
}

/// Removes the last tile, which is free. It returns the number of bytes of the header, the other tiles and an end tag.
pub fn drop_last(window: &mut Window) -> u64
    requires { HasFreeLast window.old }
    ensures tags { (ts : List Tile) → EncodesTiles window.old ts
        → PrefixSaysTiles window.new result (without_last ts) }
    ensures frame { (ts : List Tile) → EncodesTiles window.old ts
        → SameExceptTags window.old window.new ts (without_last ts) }
{
    let end = window.size() - TAG_LEN;
    let last = end - window.read_u64(end);
    put_word(window, last + 8, END_MARK);
    last + TAG_LEN
}
