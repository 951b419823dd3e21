//! Collects the blocks in use.
ghost use Rattle.std.specs.Prelude.{◌≡◌, ◌+◌, ◌++◌, ◌<◌, ◌≤◌, ◌^◌, IfErr, IfOk, IsOk, None, OnOk, [], length};
ghost use Rattle.std.specs.Prelude.{option_to_list};
ghost use Rattle.image_check.specs.Owners.{AreCounted};
ghost use Rattle.image_check.specs.Owners.{entries_of, entry_of};
ghost use Rattle.image_check.specs.Passes.{CountsTiles, HasTiles, IsRefusalFor, Spends, tiles_in};
ghost use Rattle.image_check.specs.Rows.{AreBelow};
ghost use Rattle.image_check.specs.Visits.{AddsVisits, tag_rates};

use crate::checking::VisitCounter;
use crate::counting::Counts;
use crate::image_window::{BlockTable, ImageWindow};
use crate::owners::{Block, Owners};
use crate::room::{NoBlockMemory, table_for};
use block_tags::Tile;
use std::alloc::Global;

/// Returns the blocks in use by payload, each without an owner. `counts` are the numbers of tiles. It allocates memory
/// once, and only if a block is in use.
///
/// # Errors
///
/// If the allocator refuses the memory.
pub(crate) fn collect_blocks(
    alloc: Global,
    window: &ImageWindow,
    counts: Counts,
    visits: &mut VisitCounter,
) -> Result<Owners, NoBlockMemory>
    requires tiles { HasTiles window.now.bytes }
    requires steps_lower { AreCounted (tiles_in window.now.bytes) counts }
    ensures entries { IfOk result (λ o. o.blocks.entries ≡ entries_of (tiles_in window.now.bytes)) }
    ensures pending { IfOk result (λ o. o.pending ≡ None) }
    ensures waiting { IfOk result (λ o. o.waiting ≡ 0) }
    ensures memory { entries_of (tiles_in window.now.bytes) ≡ [] → IsOk result }
    ensures refused { IfErr result (IsRefusalFor window.now.bytes) }
    ensures visits { Spends tag_rates 2 window.now.bytes visits.old visits.new }
    ensures tiles { OnOk result (CountsTiles window.now.bytes visits.old visits.new) }
{
    match table_for(&alloc, counts.used) {
        Ok(mut blocks) => {
            add_all(window, &mut blocks, visits);
            Ok(Owners {
                blocks,
                pending: None,
                waiting: 0,
                near: 0,
            })
        }
        Err(refusal) => Err(refusal),
    }
}

/// Adds the blocks in use to a map with room for them. It takes one or two visits for each tile.
fn add_all(window: &ImageWindow, blocks: &mut BlockTable, visits: &mut VisitCounter)
    requires tiles { HasTiles window.now.bytes }
    requires empty { blocks.old.entries ≡ [] }
    requires room { length (entries_of (tiles_in window.now.bytes)) ≤ blocks.old.room }
    ensures entries { blocks.new.entries ≡ entries_of (tiles_in window.now.bytes) }
    ensures visits { AddsVisits (length (tiles_in window.now.bytes) + length (tiles_in window.now.bytes)) visits.old
        visits.new }
    ensures tiles { CountsTiles window.now.bytes visits.old visits.new }
{
    let mut tile = window.first();
    'tiles: while let Some(unread) = tile {
        let here = unread.read(visits);
        add(blocks, here, visits);
        tile = window.next(here.offset);
    }
}

/// Adds the block of a tile, if the tile is in use, after all others to a map with room for it. It takes at most one
/// visit.
fn add(blocks: &mut BlockTable, tile: Tile, visits: &mut VisitCounter)
    requires max_size { tile.offset + 16 < 2 ^ 32 }
    requires max_len { tile.len < 2 ^ 32 }
    requires order { AreBelow blocks.old.entries (tile.offset + 16) }
    requires room { length (option_to_list (entry_of tile)) ≤ blocks.old.room }
    ensures entries { blocks.new.entries ≡ blocks.old.entries ++ option_to_list (entry_of tile) }
    ensures room { blocks.old.room ≤ blocks.new.room + length (option_to_list (entry_of tile)) }
    ensures visits { AddsVisits 1 visits.old visits.new }
{
    if let Some(role) = tile.use_of {
        let block = Block {
            role,
            len: tile.len as u32,
            owner: None,
            next: None,
        };
        blocks.add(tile.offset + 16, block, visits);
    }
}
