//! Calls that split and join tiles, and change their use and colour. They write only the tag of the named tile and the
//! length in the next tag. This length lets a reader find the tile before a tag without a search.
ghost use Rattle.std.specs.Prelude.{◌+◌, List};
ghost use Rattle.raw_region.specs.Memory.{SameBytesExcept, bytes_of};
ghost use Rattle.block_tags.specs.declared.tile.Tile.{Tile};
ghost use Rattle.block_tags.specs.Lists.{joined_at, split_at, with_red_at, with_use_at};
ghost use Rattle.block_tags.specs.Windows.{CanSplit, HasFreeNext, CanTakeUse, MayHaveColour, SameExceptTags};
ghost use Rattle.block_tags.specs.Windows.{EncodesTiles};

use crate::tile::{Role, Tile};
use crate::words::{put_word, tag_word, tile_there};
use raw_region::Window;

/// Splits the tile at `at`. The first part has `len` bytes and keeps its use and colour; the rest becomes a free black
/// tile. `len` is a multiple of 16, at least 32, and the rest has at least 32 bytes.
pub fn split(window: &mut Window, at: u64, len: u64)
    requires { CanSplit window.old at len }
    ensures tags { (ts : List Tile) → EncodesTiles window.old ts
        → EncodesTiles window.new (split_at at len ts) }
    ensures frame { (ts : List Tile) → EncodesTiles window.old ts
        → SameExceptTags window.old window.new ts (split_at at len ts) }
{
    let tile = tile_there(window, at);
    let rest = Tile {
        offset: at + len,
        len: tile.len - len,
        use_of: None,
        red: false,
    };
    put_word(window, at + 8, tag_word(Tile { len, ..tile }));
    put_word(window, rest.offset, len);
    put_word(window, rest.offset + 8, tag_word(rest));
    put_word(window, at + tile.len, rest.len);
}

/// Joins the tile at `at` with the free tile after it. The tile at `at` keeps its use and colour.
pub fn merge_next(window: &mut Window, at: u64)
    requires { HasFreeNext window.old at }
    ensures tags { (ts : List Tile) → EncodesTiles window.old ts
        → EncodesTiles window.new (joined_at at ts) }
    ensures frame { (ts : List Tile) → EncodesTiles window.old ts
        → SameExceptTags window.old window.new ts (joined_at at ts) }
{
    let tile = tile_there(window, at);
    let joined = Tile {
        len: tile.len + tile_there(window, at + tile.len).len,
        ..tile
    };
    put_word(window, at + 8, tag_word(joined));
    put_word(window, at + joined.len, joined.len);
}

/// Sets the use of the tile at `at`, or frees it. Its colour stays and must suit the new use. Only the second word of
/// its tag changes.
pub fn set_use(window: &mut Window, at: u64, use_of: Option<Role>)
    requires { CanTakeUse window.old at use_of }
    ensures tags { (ts : List Tile) → EncodesTiles window.old ts
        → EncodesTiles window.new (with_use_at at use_of ts) }
    ensures frame { (ts : List Tile) → EncodesTiles window.old ts
        → SameExceptTags window.old window.new ts (with_use_at at use_of ts) }
    ensures word { SameBytesExcept (bytes_of window.old.bytes) (bytes_of window.new.bytes) (at + 8) 8 }
{
    let tile = tile_there(window, at);
    put_word(window, at + 8, tag_word(Tile { use_of, ..tile }));
}

/// Sets the colour of the tile at `at`: red if `red` is true, which needs a tile that can be red. Only the second word
/// of its tag changes.
pub fn set_red(window: &mut Window, at: u64, red: bool)
    requires { MayHaveColour window.old at red }
    ensures tags { (ts : List Tile) → EncodesTiles window.old ts
        → EncodesTiles window.new (with_red_at at red ts) }
    ensures frame { (ts : List Tile) → EncodesTiles window.old ts
        → SameExceptTags window.old window.new ts (with_red_at at red ts) }
    ensures word { SameBytesExcept (bytes_of window.old.bytes) (bytes_of window.new.bytes) (at + 8) 8 }
{
    let tile = tile_there(window, at);
    put_word(window, at + 8, tag_word(Tile { red, ..tile }));
}
