//! Checks that a link leads to each block that is not an object.
ghost use Rattle.std.specs.Prelude.{◌≡◌, ℕ, List, not};
ghost use Rattle.raw_region.specs.Memory.{WindowState, bytes_of};
ghost use Rattle.image_check.specs.Fields.{counted_fields, is_left, is_orphaned};
ghost use Rattle.image_check.specs.ObjectOffsets.{IsFirstTile};
ghost use Rattle.image_check.specs.Owners.{is_owned as is_owned_block};
ghost use Rattle.image_check.specs.Owners.{IsWholeMarkingOf, entries_of, frames};
ghost use Rattle.image_check.specs.Passes.{ChecksClass, HasTiles, Spends, tiles_in};
ghost use Rattle.image_check.specs.Visits.{used_rates};
ghost use Rattle.image_check.specs.Sharing.{state_of};

use crate::checking::VisitCounter;
use crate::owners::{Block, Owners, is_same};
use crate::verdict::Offset;
use block_tags::Role;

/// Checks that a link leads to each index, storage and node of an image. It reads no tile, and takes one visit for each
/// block.
///
/// # Errors
///
/// The offset of the payload of the first block without an owner.
pub(crate) fn check_orphans(owners: &Owners, visits: &mut VisitCounter) -> Result<(), Offset>
    ensures verdict { (format : ℕ) (window : WindowState) → HasTiles window.bytes
        → IsWholeMarkingOf format window.bytes (state_of owners.now)
        → ChecksClass (not (is_orphaned format (bytes_of window.bytes) (tiles_in window.bytes)))
        (IsFirstTile (is_left (counted_fields format (bytes_of window.bytes) (tiles_in window.bytes)))
        (tiles_in window.bytes)) result }
    ensures visits { (image : List ℕ) → HasTiles image
        → frames owners.now.blocks.entries ≡ frames (entries_of (tiles_in image))
        → Spends used_rates 2 image visits.old visits.new }
{
    let mut number = 0;
    'rows: while number < owners.blocks.len() {
        let (payload, block) = owners.blocks.row(number, visits);
        if !is_owned(block) {
            return Err(payload as u64);
        }
        number += 1;
    }
    Ok(())
}

/// Returns true if the block has an owner or needs none.
fn is_owned(block: Block) -> bool
    ensures { result ≡ is_owned_block block }
{
    is_same(block.role, Role::Object) || block.owner.is_some()
}
