//! The two words of a tag: the length of the tile before, and the tile's own length with its use and colour.
ghost use Rattle.std.specs.Prelude.{◌≡◌, ◌+◌, ◌≤◌, ◌<◌, ◌^◌, length};
ghost use Rattle.raw_region.specs.Memory.{bytes_of};
ghost use Rattle.block_tags.specs.Tiles.{may_be_red as may_be_red_in, role_bits as bits_of_role};
ghost use Rattle.block_tags.specs.Tiles.{role_of_bits as role_of, tag_word as word_of, tile_at as tile_said};
ghost use Rattle.block_tags.specs.Tiles.{tile_of_word as tile_of};
ghost use Rattle.block_tags.specs.Windows.{WritesWord};

use crate::sizes::TAG_LEN;
use crate::tile::{Role, Tile};
use raw_region::Window;

/// The second word of the end tag: a tile in use with length 0.
pub const END_MARK: u64 = 1;

fn role_bits(role: Role) -> u64
    ensures { result ≡ bits_of_role role }
{
    match role {
        Role::Object => 0,
        Role::Index => 4,
        Role::Storage => 8,
        Role::Node => 12,
    }
}

fn role_of_bits(bits: u64) -> Role
    ensures { result ≡ role_of bits }
{
    match bits {
        0 => Role::Object,
        4 => Role::Index,
        8 => Role::Storage,
        _ => Role::Node,
    }
}

/// Returns the second word of a tile's tag.
pub fn tag_word(tile: Tile) -> u64
    requires { tile.len < 2 ^ 63 }
    ensures { result ≡ word_of tile }
{
    let used = match tile.use_of {
        None => 0,
        Some(role) => 1 + role_bits(role),
    };
    let red = if tile.red { 2 } else { 0 };
    tile.len + used + red
}

/// Returns the tile at `at` whose tag has the second word `word`.
pub fn tile_of_word(at: u64, word: u64) -> Tile
    ensures { result ≡ tile_of at word }
{
    let use_of = if word % 2 == 0 {
        None
    } else {
        Some(role_of_bits(word % 16 / 4 * 4))
    };
    Tile {
        offset: at,
        len: word / 16 * 16,
        use_of,
        red: word / 2 % 2 == 1,
    }
}

/// Returns true if a tile with this use can be red in the format.
pub fn may_be_red(format: u64, use_of: Option<Role>) -> bool
    ensures { result ≡ may_be_red_in format use_of }
{
    match use_of {
        None => format != 0,
        Some(Role::Node) => true,
        Some(Role::Object | Role::Index | Role::Storage) => false,
    }
}

/// Returns the tile whose tag is the 16 bytes at `at`.
pub fn tile_there(window: &Window, at: u64) -> Tile
    requires max_size { at < 2 ^ 63 }
    requires in_bounds { at + TAG_LEN ≤ length window.now.bytes }
    ensures { result ≡ tile_said (bytes_of window.now.bytes) at }
{
    tile_of_word(at, window.read_u64(at + 8))
}

/// Writes the word at `at`, one of the two words of a tag.
pub fn put_word(window: &mut Window, at: u64, word: u64)
    requires { at + 8 ≤ length window.old.bytes }
    ensures { WritesWord window.old window.new at word }
{
    window.write_u64(at, word);
}
