//! The owners of the blocks in use: for the payload of each block its role, its length, and the link that leads to it.
ghost use Rattle.std.specs.Prelude.{◌≡◌, ◌+◌, ◌≤◌, List, Some, option_map};
ghost use Rattle.block_tags.specs.declared.tile.Tile.{Tile};
ghost use Rattle.best_fit.specs.Table.{same_role};
ghost use Rattle.block_tags.specs.declared.tile.Role.TheVariants.{Object};
ghost use Rattle.image_check.specs.ObjectTests.{good_for, is_use};
ghost use Rattle.image_check.specs.Owners.{AreBlocks};
ghost use Rattle.image_check.specs.Visits.{AddsVisits};

use crate::checking::VisitCounter;
use crate::image_window::BlockTable;
use block_tags::{Role, TAG_LEN, Tile};

/// A link that leads to a block. Offsets are numbers of four bytes, since no image is longer than 2^30 bytes. This
/// keeps a row short: there is one for each block, and the check reads the rows many times.
#[derive(Clone, Copy)]
pub(crate) struct Owner {
    /// The link's offset.
    pub(crate) at: u32,
    /// The offset of the first link on the way to the block. For a link of a node this is the root link of its map, for
    /// an entry of an index the index's own link, and otherwise the link itself.
    pub(crate) root: u32,
}

/// A block in use, with the results of the check so far.
#[derive(Clone, Copy)]
pub(crate) struct Block {
    /// The block's role.
    pub(crate) role: Role,
    /// The length of its tile in bytes.
    pub(crate) len: u32,
    /// The link that leads to it, if the check has met one. For an object it is the entry of an index.
    pub(crate) owner: Option<Owner>,
    /// The node that waits after this one for its links to be followed.
    pub(crate) next: Option<u32>,
}

/// The blocks in use by payload, and the nodes whose links are not followed yet.
#[derive(Drop)]
pub(crate) struct Owners {
    /// The blocks, by offset of the payload.
    pub(crate) blocks: BlockTable,
    /// The first waiting node.
    pub(crate) pending: Option<u32>,
    /// The number of waiting nodes.
    pub(crate) waiting: u64,
    /// A number near the one of the block that the next link leads to. Any number is correct.
    pub(crate) near: usize,
}

/// Returns true if the roles are equal.
pub(crate) fn is_same(a: Role, b: Role) -> bool
    ensures { result ≡ same_role a b }
{
    a == b
}

/// Returns true if the tile holds an object.
pub(crate) fn is_object(tile: Tile) -> bool
    ensures { result ≡ is_use Object tile }
{
    match tile.use_of {
        Some(role) => is_same(Role::Object, role),
        None => false,
    }
}

/// Returns the tile of the block whose payload begins at `payload`, from the map. Its colour is black, whatever its tag
/// says.
pub(crate) fn tile_of(payload: u32, block: Block) -> Tile
    requires { 16 ≤ payload }
    ensures place { result.offset + 16 ≡ payload }
    ensures len { result.len ≡ block.len }
    ensures usage { result.use_of ≡ Some block.role }
{
    Tile {
        offset: payload as u64 - TAG_LEN,
        len: block.len as u64,
        use_of: Some(block.role),
        red: false,
    }
}

/// Returns the length of the tile behind the link, with its tag, if the link leads to a block of the role. The
/// block can have the number `near`. It takes at most one visit.
pub(crate) fn good_len(
    blocks: &BlockTable,
    near: usize,
    role: Role,
    link: Option<u64>,
    visits: &mut VisitCounter,
) -> Option<u64>
    ensures value { (ts : List Tile) → AreBlocks ts blocks.now.entries
        → result ≡ option_map (λ (t : Tile). t.len) (good_for ts role link) }
    ensures visits { AddsVisits 1 visits.old visits.new }
{
    let target = link?;
    match blocks.block_of(near, target, visits) {
        Some(block) if is_same(block.role, role) => Some(block.len as u64),
        _ => None,
    }
}
