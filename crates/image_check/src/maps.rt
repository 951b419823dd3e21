//! Checks that the pairs of a map form an ordered red-black tree, for links of any value.
ghost use Rattle.std.specs.Prelude.{◌≡◌, ◌+◌, ◌≤◌, ◌%◌, ◌^◌, length};
ghost use Rattle.raw_region.specs.Memory.{bytes_of};
ghost use Rattle.image_check.specs.Owners.{IsMarkedLink};
ghost use Rattle.block_tags.specs.declared.tile.Role.TheVariants.{Node as RoleNode};
ghost use Rattle.image_check.specs.Containers.{AreFollowed, rooted_weight};
ghost use Rattle.image_check.specs.Fields.{is_map_at};
ghost use Rattle.image_check.specs.Passes.{HasTiles, tiles_in};
ghost use Rattle.image_check.specs.Visits.{AddsVisits};

use crate::checking::VisitCounter;
use crate::image_window::{BlockTable, ImageWindow, Value, check_pairs};
use seg_types::ScalarKind;

/// Returns true if the three words of the value are a valid map: a tree of as many pairs as its count, and a zero.
pub(crate) fn is_map(
    window: &ImageWindow,
    blocks: &BlockTable,
    near: usize,
    visits: &mut VisitCounter,
    key: ScalarKind,
    value: ScalarKind,
    map: Value,
) -> bool
    requires tiles { HasTiles window.now.bytes }
    requires observed { AreFollowed (bytes_of window.now.bytes) (tiles_in window.now.bytes) blocks.now.entries }
    requires mark { IsMarkedLink (bytes_of window.now.bytes) (tiles_in window.now.bytes) blocks.now.entries RoleNode
        map.at map.at }
    requires aligned { map.at % 8 ≡ 0 }
    requires in_bounds { map.at + 24 ≤ length window.now.bytes }
    requires max_count { rooted_weight map.at blocks.now.entries ≤ 2 ^ 40 }
    ensures value { result ≡ is_map_at (bytes_of window.now.bytes) (tiles_in window.now.bytes) key value map.at }
    ensures visits { AddsVisits (27 + rooted_weight map.at blocks.now.entries) visits.old visits.new }
{
    let Some(count) = check_pairs(window, blocks, near, visits, key, value, map).nodes else {
        return false;
    };
    count == map.len(window) && map.capacity(window) == 0
}
