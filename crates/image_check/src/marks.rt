//! Enters links: stores each link as the owner of the block to which the link leads. Then follows the links of each
//! node that a link reached.
ghost use Rattle.std.specs.Prelude.{◌≡◌, ◌+◌, ◌<◌, ◌^◌, false, List, MatchResult, Option, Some, None};
ghost use Rattle.std.specs.Prelude.{ℕ};
ghost use Rattle.raw_region.specs.Memory.{Memory};
ghost use Rattle.offset_link.specs.Link.{link_at};
ghost use Rattle.block_tags.specs.declared.tile.Role.TheVariants.{Object as ObjectRole};
ghost use Rattle.block_tags.specs.declared.tile.Tile.{Tile};
ghost use Rattle.best_fit.specs.Table.{same_role};
ghost use Rattle.image_check.specs.Owners.{FollowsAll, MarksLink, IsMarking, IsMarkingOf, IsRooted};
ghost use Rattle.image_check.specs.Owners.{IsTurn, MayCount, next_in as next_there};
ghost use Rattle.image_check.specs.Owners.{root_in as root_there};
ghost use Rattle.image_check.specs.Owners.{IsSharedAt};
ghost use Rattle.image_check.specs.Passes.{HasTiles};
ghost use Rattle.image_check.specs.Visits.{AddsVisits};
ghost use Rattle.image_check.specs.Owners.{MarksUnlessShared, visits_due};
ghost use Rattle.image_check.specs.Sharing.{state_of};

use crate::checking::VisitCounter;
use crate::image_window::ImageWindow;
use crate::owners::{Block, Owner, Owners, is_same};
use crate::verdict::Offset;
use block_tags::Role;

/// Enters the link as the owner of the block to which the link leads, if the block has the role. Makes at most two
/// visits.
///
/// # Errors
///
/// The offset of the link, if a link at another offset already owns the block.
pub(crate) fn mark(
    owners: &mut Owners,
    role: Role,
    link: Owner,
    target: Option<u64>,
    visits: &mut VisitCounter,
) -> Result<(), Offset>
    requires no_overflow { owners.old.waiting + 1 < 2 ^ 64 }
    requires role { same_role role ObjectRole ≡ false }
    ensures marks { (format : ℕ) (m : Memory) (ts : List Tile) (now : Option ℕ)
        → IsMarking format m ts now (state_of owners.old)
        → target ≡ link_at m link.at → MayCount format m ts role link.at → IsRooted ts owners.old.blocks.entries link
        → MatchResult result (λ done. MarksLink format m ts now role link (state_of owners.old) (state_of owners.new))
        (IsSharedAt format m ts) }
    ensures visits { AddsVisits 2 visits.old visits.new }
{
    let Some(target) = target else { return Ok(()) };
    let Some((number, payload, block)) = owners.blocks.find(owners.near, target, visits) else {
        return Ok(());
    };
    if !is_same(block.role, role) {
        return Ok(());
    }
    if let Some(owner) = block.owner {
        if owner.at == link.at {
            return Ok(());
        }
        return Err(link.at as u64);
    }
    let owned = Block {
        owner: Some(link),
        next: owners.pending,
        ..block
    };
    owners.blocks.put(number, target, owned, visits);
    owners.near = number;
    if is_same(role, Role::Node) {
        owners.pending = Some(payload);
        owners.waiting += 1;
    }
    Ok(())
}

/// Returns the node that follows a block in the list of waiting nodes.
fn next_in(block: Option<Block>) -> Option<u32>
    ensures { result ≡ next_there block }
{
    match block {
        Some(block) => block.next,
        None => None,
    }
}

/// Returns the offset of the root link from which the block at `target` was reached. Returns `target` for an object, or
/// if the block has no owner.
fn root_in(block: Option<Block>, target: u32) -> u32
    ensures { result ≡ root_there block target }
{
    match block {
        Some(block) if !is_same(block.role, Role::Object) => match block.owner {
            Some(owner) => owner.root,
            None => target,
        },
        _ => target,
    }
}

/// Takes the first waiting node from the list, and enters its links. Makes at most six visits.
///
/// # Errors
///
/// The offset of a link, if another link leads to the same node.
fn follow_next(
    window: &ImageWindow,
    owners: &mut Owners,
    node: u32,
    visits: &mut VisitCounter,
) -> Result<(), Offset>
    ghost format: { ℕ }
    requires tiles { HasTiles window.now.bytes }
    requires marking { IsMarkingOf format window.now.bytes (state_of owners.old) }
    requires node { owners.old.pending ≡ Some node }
    ensures turn { MarksUnlessShared format window.now.bytes
        (IsTurn format window.now.bytes (state_of owners.old) (state_of owners.new)) result }
    ensures visits { AddsVisits 6 visits.old visits.new }
{
    let block = owners.blocks.block_of(owners.near, node as u64, visits);
    let root = root_in(block, node);
    owners.pending = next_in(block);
    owners.waiting -= 1;
    let children = window.links(node as u64, visits);
    let left = Owner { at: node, root };
    match mark(owners, Role::Node, left, children.0, visits) {
        Err(place) => Err(place),
        Ok(()) => {
            let right = Owner { at: node + 8, root };
            mark(owners, Role::Node, right, children.1, visits)
        }
    }
}

/// Enters the links of all waiting nodes, and of all nodes that these links reach. Makes at most six visits for each
/// node.
///
/// # Errors
///
/// The offset of a link, if another link leads to the same node.
pub(crate) fn follow(
    window: &ImageWindow,
    owners: &mut Owners,
    visits: &mut VisitCounter,
) -> Result<(), Offset>
    ghost format: { ℕ }
    requires tiles { HasTiles window.now.bytes }
    requires marking { IsMarkingOf format window.now.bytes (state_of owners.old) }
    ensures observed { MarksUnlessShared format window.now.bytes
        (FollowsAll format window.now.bytes (state_of owners.old) (state_of owners.new)) result }
    ensures visits { AddsVisits (visits_due (state_of owners.old)) visits.old visits.new }
{
    'nodes: while let Some(node) = owners.pending {
        if let Err(place) = follow_next(window, owners, node, visits) {
            return Err(place);
        }
    }
    Ok(())
}
