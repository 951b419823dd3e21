//! Checks the storage of vectors and strings against their three words: link, length and capacity.
ghost use Rattle.std.specs.Prelude.{◌≡◌, ◌↔◌, ◌+◌, ◌≤◌, ◌<◌, ◌%◌, ◌*◌, IsTrue, List, length};
ghost use Rattle.std.specs.List.{list_all};
ghost use Rattle.raw_region.specs.Memory.{bytes_of, word_at};
ghost use Rattle.block_tags.specs.declared.tile.Tile.{Tile};
ghost use Rattle.block_tags.specs.declared.tile.Role.TheVariants.{Storage};
ghost use Rattle.block_tags.specs.Format.{is_legal_size};
ghost use Rattle.image_check.specs.ObjectTests.{is_table_link};
ghost use Rattle.image_check.specs.Fields.{element_offsets, is_array_at, is_element_at, is_storage_at};
ghost use Rattle.image_check.specs.Owners.{AreBlocks, IsMarkedLink};
ghost use Rattle.image_check.specs.Containers.{rooted_weight};
ghost use Rattle.image_check.specs.Passes.{HasTiles, tiles_in};
ghost use Rattle.image_check.specs.Visits.{AddsVisits};

use crate::checking::VisitCounter;
use crate::image_window::{BlockTable, ImageWindow, Value};
use crate::owners::good_len;
use crate::spellings::are_spellings;
use block_tags::{Role, TAG_LEN};
use seg_types::ScalarKind;

/// The length in bytes of an element of an array of texts: a link and a length.
const ELEMENT: u64 = 16;

/// Returns true if the link leads to a block of this role with room for `capacity` elements of `each` bytes. With
/// capacity 0 the link must be null.
pub(crate) fn is_table(
    blocks: &BlockTable,
    near: usize,
    visits: &mut VisitCounter,
    role: Role,
    link: Option<u64>,
    each: u64,
    capacity: u64,
) -> bool
    ensures value { (ts : List Tile) → AreBlocks ts blocks.now.entries
        → result ≡ is_table_link ts role link each capacity }
    ensures visits { AddsVisits 1 visits.old visits.new }
{
    if capacity == 0 {
        return link.is_none();
    }
    match good_len(blocks, near, role, link, visits) {
        Some(len) => has_room(len, each, capacity),
        None => false,
    }
}

/// Returns true if a tile of `len` bytes has room for `capacity` elements of `each` bytes.
fn has_room(len: u64, each: u64, capacity: u64) -> bool
    ensures { IsTrue result ↔ (each * capacity + 16 ≤ len) }
{
    match each.checked_mul(capacity) {
        Some(bytes) => bytes <= len && len - bytes >= TAG_LEN,
        None => false,
    }
}

/// Returns true if the three words of the value are a valid string, or a valid vector of this kind.
pub(crate) fn is_storage(
    window: &ImageWindow,
    blocks: &BlockTable,
    near: usize,
    visits: &mut VisitCounter,
    kind: ScalarKind,
    value: Value,
) -> bool
    requires tiles { HasTiles window.now.bytes }
    requires blocks { AreBlocks (tiles_in window.now.bytes) blocks.now.entries }
    requires mark { 0 < word_at (bytes_of window.now.bytes) (value.at + 16)
        → IsMarkedLink (bytes_of window.now.bytes) (tiles_in window.now.bytes) blocks.now.entries Storage value.at
        value.at }
    requires aligned { value.at % 8 ≡ 0 }
    requires in_bounds { value.at + 24 ≤ length window.now.bytes }
    ensures value { result ≡ is_storage_at (bytes_of window.now.bytes) (tiles_in window.now.bytes) kind value.at }
    ensures visits { AddsVisits (1 + rooted_weight value.at blocks.now.entries) visits.old visits.new }
{
    let len = value.len(window);
    let capacity = value.capacity(window);
    if len > capacity {
        return false;
    }
    let link = value.link(window);
    let each = kind.size();
    if !is_table(blocks, near, visits, Role::Storage, link, each, capacity) {
        return false;
    }
    match link {
        Some(block) => are_spellings(window, visits, kind, block, len),
        None => true,
    }
}

/// Returns true if the element at `at` leads to a storage block with room for its text.
fn is_element(
    window: &ImageWindow,
    blocks: &BlockTable,
    near: usize,
    visits: &mut VisitCounter,
    at: u64,
) -> bool
    requires size { IsTrue (is_legal_size (length window.now.bytes)) }
    requires aligned { at % 8 ≡ 0 }
    requires in_bounds { at + 16 ≤ length window.now.bytes }
    ensures value { (ts : List Tile) → AreBlocks ts blocks.now.entries
        → result ≡ is_element_at (bytes_of window.now.bytes) ts at }
    ensures visits { AddsVisits 2 visits.old visits.new }
{
    let (link, len) = window.text(at, visits);
    is_table(blocks, near, visits, Role::Storage, link, 1, len)
}

/// Returns true if the first `n` elements of the array at `at` lead to storage blocks with room for their texts.
fn are_elements(
    window: &ImageWindow,
    blocks: &BlockTable,
    near: usize,
    visits: &mut VisitCounter,
    at: u64,
    n: u64,
) -> bool
    requires size { IsTrue (is_legal_size (length window.now.bytes)) }
    requires blocks { (ts : List Tile) × AreBlocks ts blocks.now.entries }
    requires aligned { at % 8 ≡ 0 }
    requires in_bounds { at + 16 * n ≤ length window.now.bytes }
    ensures value { (ts : List Tile) → AreBlocks ts blocks.now.entries
        → result ≡ list_all (is_element_at (bytes_of window.now.bytes) ts) (element_offsets at n) }
    ensures visits { AddsVisits (2 * n) visits.old visits.new }
{
    'elements: for i in 0..n {
        let guess = near.wrapping_add(i as usize + 1);
        if !is_element(window, blocks, guess, visits, at + ELEMENT * i) {
            return false;
        }
    }
    true
}

/// Returns true if the three words of the value are a valid array of texts.
pub(crate) fn is_array(
    window: &ImageWindow,
    blocks: &BlockTable,
    near: usize,
    visits: &mut VisitCounter,
    value: Value,
) -> bool
    requires tiles { HasTiles window.now.bytes }
    requires blocks { AreBlocks (tiles_in window.now.bytes) blocks.now.entries }
    requires mark { 0 < word_at (bytes_of window.now.bytes) (value.at + 16)
        → IsMarkedLink (bytes_of window.now.bytes) (tiles_in window.now.bytes) blocks.now.entries Storage value.at
        value.at }
    requires aligned { value.at % 8 ≡ 0 }
    requires in_bounds { value.at + 24 ≤ length window.now.bytes }
    ensures value { result ≡ is_array_at (bytes_of window.now.bytes) (tiles_in window.now.bytes) value.at }
    ensures visits { AddsVisits (1 + rooted_weight value.at blocks.now.entries) visits.old visits.new }
{
    let len = value.len(window);
    let capacity = value.capacity(window);
    if len > capacity {
        return false;
    }
    let link = value.link(window);
    if !is_table(blocks, near, visits, Role::Storage, link, ELEMENT, capacity) {
        return false;
    }
    match link {
        Some(block) => are_elements(window, blocks, near, visits, block, len),
        None => true,
    }
}
