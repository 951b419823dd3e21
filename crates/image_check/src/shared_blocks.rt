//! Checks that no two links lead to one block.
ghost use Rattle.std.specs.Prelude.{◌≡◌, ◌+◌, ◌*◌, ◌%◌, ◌<◌, ◌≤◌, ℕ, None, OnOk, Some, not};
ghost use Rattle.std.specs.Prelude.{true, length};
ghost use Rattle.raw_region.specs.Memory.{bytes_of};
ghost use Rattle.seg_types.specs.declared.kinds.Kind.TheVariants.{Strings as StringsKind};
ghost use Rattle.image_check.specs.ObjectTests.{has_objects};
ghost use Rattle.image_check.specs.Fields.{is_shared};
ghost use Rattle.image_check.specs.Owners.{IsMarkingOf, IsSharedIn, IsUnmarked, IsWholeMarkingOf};
ghost use Rattle.image_check.specs.Passes.{ChecksClass, HasTiles, Spends, tiles_in};
ghost use Rattle.image_check.specs.Sharing.{AllElements, AreIndexesNoted, AreTextsNoted};
ghost use Rattle.image_check.specs.Sharing.{EntersValues, IsStorageStart, IsTileGrown};
ghost use Rattle.image_check.specs.Sharing.{IsValueGrown, IsValueReady, OfObject, Pays, array_cost, object_cost};
ghost use Rattle.image_check.specs.Sharing.{value_rates};
ghost use Rattle.image_check.specs.Visits.{AddsVisits, sharing_rates, weigh};
ghost use Rattle.image_check.specs.Owners.{owner_at};
ghost use Rattle.image_check.specs.declared.owners.Owner.{Owner as OwnerValue};
ghost use Rattle.image_check.specs.Owners.{MarksUnlessShared};
ghost use Rattle.image_check.specs.Sharing.{state_of};

use crate::checking::VisitCounter;
use crate::heads::kind_of;
use crate::image_window::{ImageWindow, Object, Value};
use crate::links::{mark_elements, mark_index, mark_storage};
use crate::marks::{follow, mark};
use crate::owners::{Owner, Owners, good_len, is_object, tile_of};
use crate::verdict::Offset;
use block_tags::{Role, TAG_LEN, Tile};
use seg_types::Kind;
use segment_manager::layout::{NAMED_AT, UNIQUE_AT};

/// Returns the number of the first `length` elements of 16 bytes that fit in a tile of `len` bytes.
fn elements_in(length: u64, len: u64) -> u64
    requires { 16 ≤ len }
    ensures in_bounds { result ≤ length }
    ensures room { 16 * result + 16 ≤ len }
    ensures every { (i : ℕ) → i < length → 16 * i + 32 ≤ len → i < result }
{
    let room = (len - 16) / 16;
    if length < room { length } else { room }
}

/// Enters the links of the elements of a vector of texts, if its capacity is not 0.
///
/// # Errors
///
/// The offset of a link that leads to a block to which another link leads.
fn mark_texts(
    window: &ImageWindow,
    owners: &mut Owners,
    value: Value,
    visits: &mut VisitCounter,
) -> Result<(), Offset>
    ghost format: { ℕ }
    requires tiles { HasTiles window.now.bytes }
    requires marking { IsMarkingOf format window.now.bytes (state_of owners.old) }
    requires in_bounds { value.at + 24 ≤ length window.now.bytes }
    requires aligned { value.at % 8 ≡ 0 }
    requires start { AllElements (bytes_of window.now.bytes) (tiles_in window.now.bytes) value.at
        (IsStorageStart format window.now.bytes) }
    ensures mark { MarksUnlessShared format window.now.bytes
        (AreTextsNoted format window.now.bytes value.at (state_of owners.old) (state_of owners.new)) result }
    ensures visits { AddsVisits (1 + array_cost (bytes_of window.now.bytes) (tiles_in window.now.bytes) value.at)
        visits.old visits.new }
{
    if value.capacity(window) == 0 {
        return Ok(());
    }
    let Some(array) = value.link(window) else {
        return Ok(());
    };
    let near = owners.near;
    let Some(len) = good_len(&owners.blocks, near, Role::Storage, Some(array), visits) else {
        return Ok(());
    };
    let count = elements_in(value.len(window), len);
    mark_elements(window, owners, array, count, visits)
}

/// Enters the storage link of a vector of texts, and the links of its elements.
///
/// # Errors
///
/// The offset of a link that leads to a block to which another link leads.
fn mark_array(
    window: &ImageWindow,
    owners: &mut Owners,
    value: Value,
    visits: &mut VisitCounter,
) -> Result<(), Offset>
    ghost format: { ℕ }
    requires tiles { HasTiles window.now.bytes }
    requires marking { IsMarkingOf format window.now.bytes (state_of owners.old) }
    requires well_formed { IsValueReady format window.now.bytes StringsKind value.at owners.old.blocks.entries }
    ensures mark { MarksUnlessShared format window.now.bytes
        (IsValueGrown format window.now.bytes StringsKind value.at (state_of owners.old) (state_of owners.new)) result }
    ensures visits { Pays 3 result visits.old (state_of owners.old) visits.new (state_of owners.new) }
{
    match mark_storage(window, owners, value, visits) {
        Err(place) => Err(place),
        Ok(()) => mark_texts(window, owners, value, visits),
    }
}

/// Enters the links of a value, and the links of its elements.
///
/// # Errors
///
/// The offset of a link that leads to a block to which another link leads.
fn mark_value(
    window: &ImageWindow,
    owners: &mut Owners,
    kind: Kind,
    value: Value,
    visits: &mut VisitCounter,
) -> Result<(), Offset>
    ghost format: { ℕ }
    requires tiles { HasTiles window.now.bytes }
    requires marking { IsMarkingOf format window.now.bytes (state_of owners.old) }
    requires well_formed { IsValueReady format window.now.bytes kind value.at owners.old.blocks.entries }
    ensures mark { MarksUnlessShared format window.now.bytes
        (IsValueGrown format window.now.bytes kind value.at (state_of owners.old) (state_of owners.new)) result }
    ensures visits { Pays 3 result visits.old (state_of owners.old) visits.new (state_of owners.new) }
{
    match kind {
        Kind::Scalar(_) => Ok(()),
        Kind::Map(_, _) => {
            let at = value.at() as u32;
            let owner = Owner { at, root: at };
            mark(owners, Role::Node, owner, value.link(window), visits)
        }
        Kind::String => mark_storage(window, owners, value, visits),
        Kind::Vector(_) => mark_storage(window, owners, value, visits),
        Kind::Strings => mark_array(window, owners, value, visits),
    }
}

/// Enters the links of the value of the object in a tile, if the tile holds one.
///
/// # Errors
///
/// The offset of a link that leads to a block to which another link leads.
fn mark_object(
    format: u64,
    window: &ImageWindow,
    owners: &mut Owners,
    tile: Tile,
    visits: &mut VisitCounter,
) -> Result<(), Offset>
    ghost said: { ℕ }
    requires tiles { HasTiles window.now.bytes }
    requires format { said ≡ format }
    requires in_bounds { tile.offset + 32 ≤ length window.now.bytes }
    requires marking { IsMarkingOf said window.now.bytes (state_of owners.old) }
    requires well_formed { OfObject said (bytes_of window.now.bytes) tile (λ kind at.
        IsValueReady said window.now.bytes kind at owners.old.blocks.entries) }
    ensures mark { MarksUnlessShared said window.now.bytes
        (IsTileGrown said window.now.bytes tile (state_of owners.old) (state_of owners.new)) result }
    ensures visits { Pays (object_cost tile) result visits.old (state_of owners.old) visits.new
        (state_of owners.new) }
{
    if !is_object(tile) {
        return Ok(());
    }
    let object = Object::visit(tile.offset + TAG_LEN, visits);
    match kind_of(format, window, object) {
        Some(kind) => mark_value(window, owners, kind, object.value(window), visits),
        None => Ok(()),
    }
}

/// Enters the links of the values of all objects. It reads no tag.
///
/// # Errors
///
/// The offset of a link that leads to a block to which another link leads.
fn mark_values(
    format: u64,
    window: &ImageWindow,
    owners: &mut Owners,
    visits: &mut VisitCounter,
) -> Result<(), Offset>
    ghost said: { ℕ }
    requires tiles { HasTiles window.now.bytes }
    requires format { said ≡ format }
    requires objects { has_objects said (bytes_of window.now.bytes) (tiles_in window.now.bytes) ≡ true }
    requires marking { IsMarkingOf said window.now.bytes (state_of owners.old) }
    requires front { (n : ℕ) (o : OwnerValue) → owner_at owners.old.blocks.entries n ≡ Some o → o.at < 128 }
    ensures mark { MarksUnlessShared said window.now.bytes
        (EntersValues said window.now.bytes (state_of owners.old) (state_of owners.new)) result }
    ensures visits { Pays (weigh value_rates (tiles_in window.now.bytes)) result visits.old (state_of owners.old)
        visits.new (state_of owners.new) }
{
    let mut number = 0;
    'rows: while number < owners.blocks.len() {
        let (payload, block) = owners.blocks.row(number, visits);
        let tile = tile_of(payload, block);
        owners.near = number + 1;
        if let Err(place) = mark_object(format, window, owners, tile, visits) {
            return Err(place);
        }
        number += 1;
    }
    Ok(())
}

/// Enters the links of the two indexes.
///
/// # Errors
///
/// The link's offset, if both lead to one block.
fn mark_indexes(
    window: &ImageWindow,
    owners: &mut Owners,
    visits: &mut VisitCounter,
) -> Result<(), Offset>
    ghost said: { ℕ }
    requires tiles { HasTiles window.now.bytes }
    requires unmarked { IsUnmarked (tiles_in window.now.bytes) owners.old.blocks.entries }
    requires pending { owners.old.pending ≡ None }
    requires waiting { owners.old.waiting ≡ 0 }
    ensures mark { MarksUnlessShared said window.now.bytes
        (AreIndexesNoted said window.now.bytes (state_of owners.new)) result }
    ensures visits { AddsVisits 4 visits.old visits.new }
{
    match mark_index(window, owners, NAMED_AT, visits) {
        Err(place) => Err(place),
        Ok(()) => mark_index(window, owners, UNIQUE_AT, visits),
    }
}

/// Checks that no two links lead to one block, and enters all links.
///
/// # Errors
///
/// The offset of a link that leads to a block to which another link leads.
pub(crate) fn check_sharing(
    format: u64,
    window: &ImageWindow,
    owners: &mut Owners,
    visits: &mut VisitCounter,
) -> Result<(), Offset>
    ghost said: { ℕ }
    requires tiles { HasTiles window.now.bytes }
    requires format { said ≡ format }
    requires objects { has_objects said (bytes_of window.now.bytes) (tiles_in window.now.bytes) ≡ true }
    requires unmarked { IsUnmarked (tiles_in window.now.bytes) owners.old.blocks.entries }
    requires pending { owners.old.pending ≡ None }
    requires waiting { owners.old.waiting ≡ 0 }
    ensures verdict { ChecksClass (not (is_shared said (bytes_of window.now.bytes) (tiles_in window.now.bytes)))
        (IsSharedIn said window.now.bytes) result }
    ensures contents { OnOk result (IsWholeMarkingOf said window.now.bytes (state_of owners.new)) }
    ensures visits { Spends sharing_rates 20 window.now.bytes visits.old visits.new }
{
    if let Err(place) = mark_indexes(window, owners, visits) {
        return Err(place);
    }
    if let Err(place) = mark_values(format, window, owners, visits) {
        return Err(place);
    }
    follow(window, owners, visits)
}
