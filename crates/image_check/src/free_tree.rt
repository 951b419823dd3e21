//! Checks that the free tiles of a window form the tree behind the header's link, for links of any value. In format 0
//! there is no tree.
ghost use Rattle.std.specs.Prelude.{◌≡◌, ◌+◌, ◌-◌, ◌≤◌, ◌<◌, ◌^◌, true, IfSome, IsTrue, is_some, length};
ghost use Rattle.std.specs.List.{list_all};
ghost use Rattle.raw_region.specs.Memory.{bytes_of};
ghost use Rattle.link_tree.specs.Nodes.{is_in, leads};
ghost use Rattle.link_tree.specs.Tree.{Tree, IsSearchTree, nodes_of};
ghost use Rattle.raw_region.specs.Format.{current};
ghost use Rattle.block_tags.specs.Format.{is_legal_size};
ghost use Rattle.block_tags.specs.Tiles.{has_tags, tiles_of};
ghost use Rattle.best_fit.specs.GapNodes.{tiles_in};
ghost use Rattle.image_check.specs.Owners.{AreCounted};
ghost use Rattle.image_check.specs.EarlyTests.{has_free_tree as has_tree};
ghost use Rattle.image_check.specs.FreeNodes.{has_good_links, is_planted as is_planted_in, is_target};
ghost use Rattle.image_check.specs.FreeNodes.{len_at as len_there, target_cells, stands_before};
ghost use Rattle.image_check.specs.Passes.{HasTiles, Spends};
ghost use Rattle.image_check.specs.Visits.{planting_rates, planting_visits, tag_rates, tree_rates};

use crate::checking::VisitCounter;
use crate::counting::Counts;
use crate::image_window::{ImageWindow, TileProbe, check_targets, find_tile, has_good_links};
use best_fit::FREE_TREE_ROOT;
use block_tags::{TAG_LEN, Tile};
use offset_link::NULL;

/// Returns the numbers of tiles if the free tiles form the tree of the format; in format 0 the link must be null.
pub(crate) fn check_gaps(
    format: u64,
    window: &ImageWindow,
    visits: &mut VisitCounter,
) -> Option<Counts>
    requires tiles { HasTiles window.now.bytes }
    ensures value { is_some result ≡ has_tree format (bytes_of window.now.bytes) (tiles_in window.now) }
    ensures steps_lower { IfSome result (AreCounted (tiles_in window.now)) }
    ensures visits { Spends tree_rates 50 window.now.bytes visits.old visits.new }
{
    if format != 0 {
        return check_free_tree(window, visits);
    }
    if window.header_word(FREE_TREE_ROOT) != NULL {
        return None;
    }
    Some(count_tiles(window, visits))
}

/// Returns the numbers of tiles. It takes one visit for each.
fn count_tiles(window: &ImageWindow, visits: &mut VisitCounter) -> Counts
    requires tiles { HasTiles window.now.bytes }
    ensures steps_lower { AreCounted (tiles_in window.now) result }
    ensures visits { Spends tag_rates 0 window.now.bytes visits.old visits.new }
{
    let mut counts = Counts::new();
    let mut tile = window.first();
    'tiles: while let Some(unread) = tile {
        let one = unread.read(visits);
        counts.add(one);
        tile = window.next(one.offset);
    }
    counts
}

/// Returns the numbers of tiles if the tree at word 24 is red-black and contains each free tile once, ordered by length
/// and then by offset. The links can be any words.
///
/// A tree with as many nodes as there are free tiles, in which each free tile is found, has no other node. Each search
/// goes down to the depth of a red-black tree of that size.
fn check_free_tree(window: &ImageWindow, visits: &mut VisitCounter) -> Option<Counts>
    requires size { IsTrue (is_legal_size (length window.now.bytes)) }
    requires tags { IsTrue (has_tags current (bytes_of window.now.bytes) (length window.now.bytes)) }
    ensures value { is_some result
        ≡ has_tree current (bytes_of window.now.bytes)
        (tiles_of (bytes_of window.now.bytes) (length window.now.bytes)) }
    ensures steps_lower { IfSome result (AreCounted (tiles_in window.now)) }
    ensures visits { Spends tree_rates 50 window.now.bytes visits.old visits.new }
{
    let Ok(root) = window.checked_header_link(FREE_TREE_ROOT) else {
        return None;
    };
    let tree = check_targets(window, root, visits);
    let Some(nodes) = tree.nodes else { return None };
    let Some(counts) = count_planted(window, root, visits) else {
        return None;
    };
    if counts.free != nodes {
        return None;
    }
    Some(counts)
}

/// Returns the numbers of tiles if each free tile is a node of the tree with good links.
fn count_planted(
    window: &ImageWindow,
    root: Option<u64>,
    visits: &mut VisitCounter,
) -> Option<Counts>
    requires size { IsTrue (is_legal_size (length window.now.bytes)) }
    requires tags { IsTrue (has_tags current (bytes_of window.now.bytes) (length window.now.bytes)) }
    requires root { leads (is_target window.now) root ≡ true }
    requires tree { (t : Tree) × IsSearchTree (stands_before (bytes_of window.now.bytes)) (target_cells window.now)
        root t × (length (nodes_of t) < 2 ^ 26 - 1) }
    ensures value { (t : Tree) → IsSearchTree (stands_before (bytes_of window.now.bytes)) (target_cells window.now)
        root t
        → is_some result ≡ list_all (is_planted_in window.now (nodes_of t)) (tiles_in window.now) }
    ensures steps_lower { IfSome result (AreCounted (tiles_in window.now)) }
    ensures visits { Spends planting_rates 0 window.now.bytes visits.old visits.new }
{
    let mut counts = Counts::new();
    let mut tile = window.first();
    'tiles: while let Some(unread) = tile {
        let here = unread.read(visits);
        if !is_planted(window, root, here, visits) {
            return None;
        }
        counts.add(here);
        tile = window.next(here.offset);
    }
    Some(counts)
}

/// Returns true if the tile is in use, or is a node of the tree with good links.
fn is_planted(
    window: &ImageWindow,
    root: Option<u64>,
    tile: Tile,
    visits: &mut VisitCounter,
) -> bool
    requires place { is_target window.now (tile.offset + 16) ≡ true }
    requires len { len_there (bytes_of window.now.bytes) (tile.offset + 16) ≡ tile.len }
    requires root { leads (is_target window.now) root ≡ true }
    requires tree { (t : Tree) × IsSearchTree (stands_before (bytes_of window.now.bytes)) (target_cells window.now)
        root t × (length (nodes_of t) < 2 ^ 26 - 1) }
    ensures value { (t : Tree) → IsSearchTree (stands_before (bytes_of window.now.bytes)) (target_cells window.now)
        root t
        → result ≡ is_planted_in window.now (nodes_of t) tile }
    ensures visits { visits.old ≤ visits.new }
    ensures visits_on_error { visits.new ≤ visits.old + planting_visits tile.use_of }
{
    if tile.use_of.is_some() {
        return true;
    }
    let node = tile.offset + TAG_LEN;
    let len = tile.len;
    let sought = TileProbe { len, node };
    is_reached(window, root, sought, visits) && has_good_links(window, node, visits)
}

/// Returns true if the tree contains the node.
fn is_reached(
    window: &ImageWindow,
    root: Option<u64>,
    sought: TileProbe,
    visits: &mut VisitCounter,
) -> bool
    requires len { len_there (bytes_of window.now.bytes) sought.node ≡ sought.len }
    requires root { leads (is_target window.now) root ≡ true }
    requires tree { (t : Tree) × IsSearchTree (stands_before (bytes_of window.now.bytes)) (target_cells window.now)
        root t × (length (nodes_of t) < 2 ^ 26 - 1) }
    ensures value { (t : Tree) → IsSearchTree (stands_before (bytes_of window.now.bytes)) (target_cells window.now)
        root t
        → result ≡ is_in sought.node (nodes_of t) }
    ensures visits { visits.old ≤ visits.new }
    ensures visits_on_error { visits.new ≤ visits.old + 52 }
{
    match find_tile(window, root, sought, visits).node {
        Some(found) => found == sought.node,
        None => false,
    }
}
