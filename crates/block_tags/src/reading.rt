//! Reads tiles from the tags. An offset is a number of bytes from the window's start.
ghost use Rattle.std.specs.Prelude.{◌≡◌, Some, List};
ghost use Rattle.block_tags.specs.declared.tile.Tile.{Tile};
ghost use Rattle.block_tags.specs.Lists.{first_in, last_in, next_in, previous_in, tile_in};
ghost use Rattle.block_tags.specs.Windows.{HasTileAt, IsTiledWindow, EncodesTiles};

use crate::sizes::{HEADER_LEN, TAG_LEN};
use crate::tile::Tile;
use crate::words::tile_there;
use raw_region::Window;

/// Returns the tile that begins at the offset `at`.
pub fn tile_at(window: &Window, at: u64) -> Tile
    requires { HasTileAt window.now at }
    ensures { (ts : List Tile) → EncodesTiles window.now ts → tile_in ts at ≡ Some result }
{
    tile_there(window, at)
}

/// Returns the first tile, or `None` if there is no tile.
pub fn first(window: &Window) -> Option<Tile>
    requires { IsTiledWindow window.now }
    ensures { (ts : List Tile) → EncodesTiles window.now ts → result ≡ first_in ts }
{
    if HEADER_LEN < window.size() - TAG_LEN {
        Some(tile_there(window, HEADER_LEN))
    } else {
        None
    }
}

/// Returns the last tile, or `None` if there is no tile.
pub fn last(window: &Window) -> Option<Tile>
    requires { IsTiledWindow window.now }
    ensures { (ts : List Tile) → EncodesTiles window.now ts → result ≡ last_in ts }
{
    let end = window.size() - TAG_LEN;
    let before = window.read_u64(end);
    if before == 0 {
        None
    } else {
        Some(tile_there(window, end - before))
    }
}

/// Returns the tile after the one at `at`, or `None` if that is the last tile.
pub fn next(window: &Window, at: u64) -> Option<Tile>
    requires { HasTileAt window.now at }
    ensures { (ts : List Tile) → EncodesTiles window.now ts → result ≡ next_in ts at }
{
    let behind = at + tile_at(window, at).len;
    if behind < window.size() - TAG_LEN {
        Some(tile_there(window, behind))
    } else {
        None
    }
}

/// Returns the tile before the one at `at`, or `None` if that is the first tile.
pub fn previous(window: &Window, at: u64) -> Option<Tile>
    requires { HasTileAt window.now at }
    ensures { (ts : List Tile) → EncodesTiles window.now ts → result ≡ previous_in ts at }
{
    let before = window.read_u64(at);
    if before == 0 {
        None
    } else {
        Some(tile_there(window, at - before))
    }
}

/// Returns true if the tile at `at` is red.
pub fn red(window: &Window, at: u64) -> bool
    requires { HasTileAt window.now at }
    ensures { (ts : List Tile) (tile : Tile) → EncodesTiles window.now ts → tile_in ts at ≡ Some tile
        → result ≡ tile.red }
{
    tile_at(window, at).red
}
