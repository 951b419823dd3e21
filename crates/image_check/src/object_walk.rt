//! Checks each object, and the order of the entries of each index.
ghost use Rattle.std.specs.Prelude.{◌≡◌, ℕ, ◌+◌, ◌-◌, ◌*◌, ◌/◌, ◌^◌, ◌<◌, ◌≤◌, true, length};
ghost use Rattle.std.specs.List.{list_all};
ghost use Rattle.raw_region.specs.Memory.{bytes_of};
ghost use Rattle.image_check.specs.ObjectTests.{has_indexes, has_objects};
ghost use Rattle.image_check.specs.ObjectPasses.{is_right_tile, object_walk_rates};
ghost use Rattle.image_check.specs.ObjectPasses.{is_object_at};
ghost use Rattle.image_check.specs.ObjectOffsets.{IsFirstWrongTile, IsWrongObject};
ghost use Rattle.image_check.specs.Entered.{AreEntered};
ghost use Rattle.image_check.specs.Owners.{entries_of, frames};
ghost use Rattle.image_check.specs.Passes.{HasTiles, ChecksClass, Spends, tiles_in};
ghost use Rattle.image_check.specs.Visits.{AddsVisits, object_rates, rate_of};

use crate::checking::VisitCounter;
use crate::heads::{
    NAMED, UNIQUE, has_name, has_padding, has_room, has_spellings, is_indexed, kind_of,
};
use crate::image_window::{BlockTable, ImageWindow, Object};
use crate::owners::{Owners, tile_of};
use crate::ranks::has_order;
use crate::verdict::Offset;
use block_tags::{Role, TAG_LEN, Tile};
use segment_manager::layout::{NAMED_AT, UNIQUE_AT};

/// Checks each object by itself, and then the order of the entries of each index. The indexes have passed the check for
/// `BadIndex`, and their entries are entered.
///
/// # Errors
///
/// - The offset of the payload of the first wrong object. Its kind, class, count, name, padding or value is wrong, or
///   it lacks an entry in the index of its class.
/// - If there is none, the offset of the first entry of an index that leads to an object of another class, or to one
///   whose key does not rise.
pub(crate) fn check_objects(
    format: u64,
    window: &ImageWindow,
    owners: &Owners,
    visits: &mut VisitCounter,
) -> Result<(), Offset>
    requires tiles { HasTiles window.now.bytes }
    requires rows { frames owners.now.blocks.entries ≡ frames (entries_of (tiles_in window.now.bytes)) }
    requires indexes { has_indexes (bytes_of window.now.bytes) (tiles_in window.now.bytes) ≡ true }
    requires entry { AreEntered (bytes_of window.now.bytes) owners.now.blocks.entries }
    ensures verdict { ChecksClass (has_objects format (bytes_of window.now.bytes) (tiles_in window.now.bytes))
        (IsWrongObject format (bytes_of window.now.bytes) (tiles_in window.now.bytes)) result }
    ensures visits { Spends object_rates 10 window.now.bytes visits.old visits.new }
{
    if let Err(place) = are_right(format, window, &owners.blocks, visits) {
        return Err(place);
    }
    if let Err(place) = has_order(window, visits, NAMED_AT, NAMED) {
        return Err(place);
    }
    if let Err(place) = has_order(window, visits, UNIQUE_AT, UNIQUE) {
        return Err(place);
    }
    Ok(())
}

/// Checks the objects in all tiles. It reads no tag.
///
/// # Errors
///
/// The offset of the payload of the first wrong object.
fn are_right(
    format: u64,
    window: &ImageWindow,
    blocks: &BlockTable,
    visits: &mut VisitCounter,
) -> Result<(), Offset>
    requires tiles { HasTiles window.now.bytes }
    requires rows { frames blocks.now.entries ≡ frames (entries_of (tiles_in window.now.bytes)) }
    requires entry { AreEntered (bytes_of window.now.bytes) blocks.now.entries }
    ensures verdict { ChecksClass (list_all (is_right_tile format (bytes_of window.now.bytes))
        (tiles_in window.now.bytes)) (IsFirstWrongTile (is_right_tile format (bytes_of window.now.bytes))
        (tiles_in window.now.bytes)) result }
    ensures visits { Spends object_walk_rates 0 window.now.bytes visits.old visits.new }
{
    let mut number = 0;
    'rows: while number < blocks.len() {
        let (payload, block) = blocks.row(number, visits);
        let tile = tile_of(payload, block);
        if !is_right(format, window, blocks, number, visits, tile) {
            return Err(payload as u64);
        }
        number += 1;
    }
    Ok(())
}

/// Returns true unless the tile holds a wrong object. Its block can have the number `guess`.
fn is_right(
    format: u64,
    window: &ImageWindow,
    blocks: &BlockTable,
    guess: usize,
    visits: &mut VisitCounter,
    tile: Tile,
) -> bool
    requires max_size { length window.now.bytes < 2 ^ 63 }
    requires min_len { 32 ≤ tile.len }
    requires in_bounds { tile.offset + tile.len ≤ length window.now.bytes }
    requires entry { AreEntered (bytes_of window.now.bytes) blocks.now.entries }
    ensures test { result ≡ is_right_tile format (bytes_of window.now.bytes) tile }
    ensures visits { (before : ℕ) → visits.old ≡ before + 1
        → AddsVisits (rate_of object_walk_rates tile.use_of * (tile.len / 16)) before visits.new }
{
    match tile.use_of {
        Some(Role::Object) => {
            let end = tile.offset + tile.len;
            let object = Object::visit(tile.offset + TAG_LEN, visits);
            is_object(format, window, blocks, guess, visits, object, end)
        }
        _ => true,
    }
}

/// Returns true if the object, whose payload ends at `end`, is valid. Its block can have the number `guess`. It takes
/// one visit, and one for each scalar of its value.
fn is_object(
    format: u64,
    window: &ImageWindow,
    blocks: &BlockTable,
    guess: usize,
    visits: &mut VisitCounter,
    object: Object,
    end: u64,
) -> bool
    requires max_size { length window.now.bytes < 2 ^ 63 }
    requires head { object.at + 16 ≤ end }
    requires in_bounds { end ≤ length window.now.bytes }
    requires entry { AreEntered (bytes_of window.now.bytes) blocks.now.entries }
    ensures test { result ≡ is_object_at format (bytes_of window.now.bytes) object.at end }
    ensures visits { AddsVisits (1 + (end - object.at)) visits.old visits.new }
{
    let Some(kind) = kind_of(format, window, object) else {
        return false;
    };
    let start = object.value(window).at();
    let count = object.count(window);
    if !has_room(kind, count, start, end) {
        return false;
    }
    if !has_name(format, window, object) || !has_padding(window, object) {
        return false;
    }
    if !has_spellings(window, visits, kind, count, start) {
        return false;
    }
    is_indexed(window, blocks, guess, visits, object)
}
