//! Enters the entries of indexes in the map of owners, at their objects.
ghost use Rattle.std.specs.Prelude.{◌≡◌, false, MatchBool};
ghost use Rattle.image_check.specs.Visits.{AddsVisits};
ghost use Rattle.image_check.specs.Entered.{EntersLink, can_enter, is_new_block};

use crate::checking::VisitCounter;
use crate::owners::{Block, Owner, Owners, is_same};
use block_tags::Role;

/// Enters the entry at `place` at its object, and returns true, if its link leads to an object without an entry.
/// Otherwise returns false. The index's own link is at `root`.
pub(crate) fn enter(
    owners: &mut Owners,
    visits: &mut VisitCounter,
    link: Option<u64>,
    place: u32,
    root: u32,
) -> bool
    ensures entry { MatchBool result
        (EntersLink owners.old.blocks.entries owners.new.blocks.entries link place root)
        (can_enter owners.old.blocks.entries link ≡ false) }
    ensures pending { owners.new.pending ≡ owners.old.pending }
    ensures waiting { owners.new.waiting ≡ owners.old.waiting }
    ensures visits { AddsVisits 2 visits.old visits.new }
{
    let Some(target) = link else { return false };
    // Entries are in the order of keys, so no number is near.
    let Some((number, _, block)) = owners.blocks.find(usize::MAX, target, visits) else {
        return false;
    };
    if !is_new(block) {
        return false;
    }
    let entered = Block {
        owner: Some(Owner { at: place, root }),
        ..block
    };
    owners.blocks.put(number, target, entered, visits);
    true
}

/// Returns true if the block is an object without an entry.
fn is_new(block: Block) -> bool
    ensures { result ≡ is_new_block block }
{
    is_same(block.role, Role::Object) && block.owner.is_none()
}
