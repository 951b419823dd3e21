//! Checks that each container of an image agrees with the words of its object.
ghost use Rattle.std.specs.Prelude.{◌≡◌, ◌+◌, ◌<◌, ◌≤◌, ◌%◌, ◌^◌, true, false, length, ℕ};
ghost use Rattle.raw_region.specs.Memory.{bytes_of};
ghost use Rattle.image_check.specs.ObjectTests.{has_objects};
ghost use Rattle.image_check.specs.Fields.{has_containers, is_container};
ghost use Rattle.image_check.specs.Owners.{IsWholeMarkingOf};
ghost use Rattle.image_check.specs.Containers.{AreFollowed, IsLinkNoted, IsCheckedTile, LiesInWindow, PaysFor};
ghost use Rattle.image_check.specs.Containers.{has_container, rooted_weight};
ghost use Rattle.image_check.specs.Containers.{weigh_blocks};
ghost use Rattle.image_check.specs.ObjectOffsets.{IsFirstWrongTile};
ghost use Rattle.image_check.specs.Passes.{ChecksClass, HasTiles, Spends, tiles_in};
ghost use Rattle.image_check.specs.Visits.{AddsVisits, container_rates};
ghost use Rattle.block_tags.specs.declared.tile.Tile.{Tile};
ghost use Rattle.image_check.specs.Sharing.{has_link, state_of};

use crate::arrays::{is_array, is_storage};
use crate::checking::VisitCounter;
use crate::heads::kind_of;
use crate::image_window::{BlockTable, ImageWindow, Object, Value};
use crate::maps::is_map;
use crate::owners::{Owners, is_object, tile_of};
use crate::verdict::Offset;
use block_tags::{TAG_LEN, Tile};
use seg_types::{Kind, ScalarKind};

/// Returns true unless a value of this kind is a container with wrong words, a wrong link or wrong elements.
fn is_right(
    window: &ImageWindow,
    blocks: &BlockTable,
    near: usize,
    visits: &mut VisitCounter,
    kind: Kind,
    value: Value,
) -> bool
    requires tiles { HasTiles window.now.bytes }
    requires observed { AreFollowed (bytes_of window.now.bytes) (tiles_in window.now.bytes) blocks.now.entries }
    requires mark { IsLinkNoted (bytes_of window.now.bytes) (tiles_in window.now.bytes) blocks.now.entries kind
        value.at }
    requires aligned { value.at % 8 ≡ 0 }
    requires in_bounds { has_link kind ≡ true → value.at + 24 ≤ length window.now.bytes }
    requires max_count { rooted_weight value.at blocks.now.entries ≤ 2 ^ 40 }
    ensures value { result ≡ is_container (bytes_of window.now.bytes) (tiles_in window.now.bytes) (kind, value.at) }
    ensures scalar { has_link kind ≡ false → visits.new ≡ visits.old }
    ensures visits { AddsVisits (27 + rooted_weight value.at blocks.now.entries) visits.old visits.new }
{
    match kind {
        Kind::Scalar(_) => true,
        Kind::String => is_storage(window, blocks, near, visits, ScalarKind::U8, value),
        Kind::Vector(element) => is_storage(window, blocks, near, visits, element, value),
        Kind::Map(key, of) => is_map(window, blocks, near, visits, key, of, value),
        Kind::Strings => is_array(window, blocks, near, visits, value),
    }
}

/// Returns true unless the tile holds an object whose container is wrong.
fn is_right_tile(
    format: u64,
    window: &ImageWindow,
    blocks: &BlockTable,
    near: usize,
    visits: &mut VisitCounter,
    tile: Tile,
) -> bool
    requires tiles { HasTiles window.now.bytes }
    requires observed { AreFollowed (bytes_of window.now.bytes) (tiles_in window.now.bytes) blocks.now.entries }
    requires position { LiesInWindow (length window.now.bytes) tile }
    requires well_formed { IsCheckedTile format (bytes_of window.now.bytes) (tiles_in window.now.bytes)
        blocks.now.entries tile }
    requires max_count { weigh_blocks blocks.now.entries ≤ 2 ^ 40 }
    ensures value { result ≡ has_container format (bytes_of window.now.bytes) (tiles_in window.now.bytes) tile }
    ensures visits { (before : ℕ) → visits.old ≡ before + 1 → PaysFor blocks.now.entries tile before visits.new }
{
    if !is_object(tile) {
        return true;
    }
    let object = Object::visit(tile.offset + TAG_LEN, visits);
    match kind_of(format, window, object) {
        Some(kind) => is_right(window, blocks, near, visits, kind, object.value(window)),
        None => true,
    }
}

/// Checks that each container of the image agrees with its words. Its storage has room for its capacity, and its
/// elements are values of their kind. A map is an ordered red-black tree with as many pairs as its count. It reads no
/// tag.
///
/// # Errors
///
/// The offset of the payload of the first object with a wrong container.
pub(crate) fn check_containers(
    format: u64,
    window: &ImageWindow,
    owners: &Owners,
    visits: &mut VisitCounter,
) -> Result<(), Offset>
    requires tiles { HasTiles window.now.bytes }
    requires objects { has_objects format (bytes_of window.now.bytes) (tiles_in window.now.bytes) ≡ true }
    requires aligned { IsWholeMarkingOf format window.now.bytes (state_of owners.now) }
    ensures verdict { ChecksClass (has_containers format (bytes_of window.now.bytes) (tiles_in window.now.bytes))
        (IsFirstWrongTile (has_container format (bytes_of window.now.bytes) (tiles_in window.now.bytes))
        (tiles_in window.now.bytes)) result }
    ensures visits { Spends container_rates 20 window.now.bytes visits.old visits.new }
{
    let mut number = 0;
    'rows: while number < owners.blocks.len() {
        let (payload, block) = owners.blocks.row(number, visits);
        let tile = tile_of(payload, block);
        if !is_right_tile(format, window, &owners.blocks, number + 1, visits, tile) {
            return Err(payload as u64);
        }
        number += 1;
    }
    Ok(())
}
