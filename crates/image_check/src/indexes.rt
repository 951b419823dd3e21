//! Checks that the blocks of the two indexes are long enough, and that their entries lead to objects, each to another.
ghost use Rattle.std.specs.Prelude.{◌≡◌, ℕ, ◌+◌, ◌*◌, ◌%◌, ◌^◌, ◌<◌, ◌≤◌, true, false, None, List, length, MatchResult};
ghost use Rattle.std.specs.Prelude.{OnOk};
ghost use Rattle.raw_region.specs.Memory.{bytes_of};
ghost use Rattle.block_tags.specs.declared.tile.Tile.{Tile};
ghost use Rattle.image_check.specs.ObjectTests.{has_indexes, targets};
ghost use Rattle.image_check.specs.IndexOffsets.{IsFirstWrong, IsWrongAt, IsWrongHead, IsWrongIndex, earlier_targets};
ghost use Rattle.image_check.specs.IndexOffsets.{first_targets, is_head};
ghost use Rattle.image_check.specs.Owners.{AreBlocks, IsIndexOffset, IsUnmarked, entries_of};
ghost use Rattle.image_check.specs.Passes.{HasTiles, ChecksClass, Spends, tiles_in};
ghost use Rattle.image_check.specs.Visits.{AddsVisits, index_rates, weigh};
ghost use Rattle.image_check.specs.Entered.{EntersEntries, AreEntered, HaveEntries, are_enterable, is_enterable};
ghost use Rattle.image_check.specs.Entered.{links_in};
ghost use Rattle.image_check.specs.Owners.{IsMarkingOf};
ghost use Rattle.image_check.specs.Sharing.{state_of};

use crate::arrays::is_table;
use crate::checking::VisitCounter;
use crate::entering::enter;
use crate::image_window::{BlockTable, ImageWindow};
use crate::owners::Owners;
use crate::verdict::Offset;
use block_tags::Role;
use segment_manager::layout::{NAMED_AT, UNIQUE_AT};

/// Checks both indexes, and enters their entries at their objects.
///
/// # Errors
///
/// The offset of the first wrong word or entry, of the named index before the unique one. A count above the capacity is
/// wrong; so is a link to no block or to a block that is too short, and a link of an index with capacity 0. An entry is
/// wrong if it leads to no object, or to one that already has an entry.
pub(crate) fn check_indexes(
    window: &ImageWindow,
    owners: &mut Owners,
    visits: &mut VisitCounter,
) -> Result<(), Offset>
    requires tiles { HasTiles window.now.bytes }
    requires collection { owners.old.blocks.entries ≡ entries_of (tiles_in window.now.bytes) }
    requires pending { owners.old.pending ≡ None }
    requires waiting { owners.old.waiting ≡ 0 }
    ensures verdict { ChecksClass (has_indexes (bytes_of window.now.bytes) (tiles_in window.now.bytes))
        (IsWrongIndex (bytes_of window.now.bytes) (tiles_in window.now.bytes)) result }
    ensures entry { OnOk result (AreEntered (bytes_of window.now.bytes) owners.new.blocks.entries) }
    ensures unmarked { OnOk result (IsUnmarked (tiles_in window.now.bytes) owners.new.blocks.entries) }
    ensures marking { OnOk result ((format : ℕ) → IsMarkingOf format window.now.bytes (state_of owners.new)) }
    ensures pending { owners.new.pending ≡ None }
    ensures waiting { owners.new.waiting ≡ 0 }
    ensures visits { Spends index_rates 10 window.now.bytes visits.old visits.new }
{
    if let Err(place) = enter_index(window, owners, visits, NAMED_AT) {
        return Err(place);
    }
    if let Err(place) = enter_index(window, owners, visits, UNIQUE_AT) {
        return Err(place);
    }
    Ok(())
}

/// Enters the entries of the index whose words are at `at`.
///
/// # Errors
///
/// The offset of the first wrong word or entry, as in [`check_indexes`].
fn enter_index(
    window: &ImageWindow,
    owners: &mut Owners,
    visits: &mut VisitCounter,
    at: u64,
) -> Result<(), Offset>
    requires tiles { HasTiles window.now.bytes }
    requires place { IsIndexOffset at }
    requires blocks { AreBlocks (tiles_in window.now.bytes) owners.old.blocks.entries }
    requires previous { HaveEntries owners.old.blocks.entries (earlier_targets (bytes_of window.now.bytes) at) }
    ensures entry { MatchResult result
        (λ done. (is_enterable (bytes_of window.now.bytes) (tiles_in window.now.bytes) owners.old.blocks.entries at
        ≡ true)
        × EntersEntries (tiles_in window.now.bytes) owners.old.blocks.entries owners.new.blocks.entries at
        (targets (bytes_of window.now.bytes) at))
        (λ place. (is_enterable (bytes_of window.now.bytes) (tiles_in window.now.bytes) owners.old.blocks.entries at
        ≡ false)
        × IsWrongAt (bytes_of window.now.bytes) (tiles_in window.now.bytes) at place) }
    ensures pending { owners.new.pending ≡ owners.old.pending }
    ensures waiting { owners.new.waiting ≡ owners.old.waiting }
    ensures visits { (visits.old ≤ visits.new)
        × (2 * visits.new ≤ 2 * visits.old + 10 + weigh index_rates (tiles_in window.now.bytes)) }
{
    if let Err(place) = check_head(window, &owners.blocks, visits, at) {
        return Err(place);
    }
    match window.header_link(at) {
        None => Ok(()),
        Some(block) => {
            let count = window.header_word(at + 8);
            enter_all(window, owners, visits, block, count, at as u32)
        }
    }
}

/// Checks that the index has at most as many entries as its capacity, and a block with room for its capacity if that is
/// not 0.
///
/// # Errors
///
/// The offset of its count if that is wrong, otherwise of its link.
fn check_head(
    window: &ImageWindow,
    blocks: &BlockTable,
    visits: &mut VisitCounter,
    at: u64,
) -> Result<(), Offset>
    requires tiles { HasTiles window.now.bytes }
    requires place { IsIndexOffset at }
    requires blocks { AreBlocks (tiles_in window.now.bytes) blocks.now.entries }
    ensures verdict { ChecksClass (is_head (bytes_of window.now.bytes) (tiles_in window.now.bytes) at)
        (IsWrongHead (bytes_of window.now.bytes) (tiles_in window.now.bytes) at) result }
    ensures visits { AddsVisits 2 visits.old visits.new }
{
    visits.visit();
    let capacity = window.header_word(at + 16);
    if window.header_word(at + 8) > capacity {
        return Err(at + 8);
    }
    let link = window.header_link(at);
    if is_table(blocks, 0, visits, Role::Index, link, 8, capacity) {
        Ok(())
    } else {
        Err(at)
    }
}

/// Enters the first `count` entries of a block.
///
/// # Errors
///
/// The offset of the first entry that leads to no object, or to one that already has an entry.
fn enter_all(
    window: &ImageWindow,
    owners: &mut Owners,
    visits: &mut VisitCounter,
    block: u64,
    count: u64,
    root: u32,
) -> Result<(), Offset>
    requires max_size { length window.now.bytes < 2 ^ 32 }
    requires aligned { block % 8 ≡ 0 }
    requires in_bounds { block + 8 * count ≤ length window.now.bytes }
    ensures entry { (ts : List Tile) → AreBlocks ts owners.old.blocks.entries → MatchResult result
        (λ done. (are_enterable ts owners.old.blocks.entries (links_in (bytes_of window.now.bytes) block count) ≡ true)
        × EntersEntries ts owners.old.blocks.entries owners.new.blocks.entries root
        (first_targets (bytes_of window.now.bytes) block count))
        (λ place. (are_enterable ts owners.old.blocks.entries (links_in (bytes_of window.now.bytes) block count)
        ≡ false)
        × ((earlier : List ℕ) → HaveEntries owners.old.blocks.entries earlier
        → IsFirstWrong (bytes_of window.now.bytes) ts earlier block count place)) }
    ensures pending { owners.new.pending ≡ owners.old.pending }
    ensures waiting { owners.new.waiting ≡ owners.old.waiting }
    ensures visits { AddsVisits (3 * count) visits.old visits.new }
{
    let mut i = 0;
    'entries: while i < count {
        let place = block + 8 * i;
        let link = window.link(place, visits);
        if !enter(owners, visits, link, place as u32, root) {
            return Err(place);
        }
        i += 1;
    }
    Ok(())
}
