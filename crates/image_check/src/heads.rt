//! Checks the parts of an object's head, and the value after the head.
ghost use Rattle.std.specs.Prelude.{◌≡◌, ◌+◌, ◌^◌, ◌<◌, ◌≤◌, true, length};
ghost use Rattle.raw_region.specs.Memory.{bytes_of};
ghost use Rattle.seg_index.specs.Keys.{name_len_at};
ghost use Rattle.image_check.specs.ObjectTests.{has_name as is_named, has_padding as is_padded};
ghost use Rattle.image_check.specs.ObjectTests.{is_indexed as is_listed, kind_at, value_offset};
ghost use Rattle.image_check.specs.ObjectPasses.{is_spelled, is_value_room};
ghost use Rattle.image_check.specs.Entered.{AreEntered, index_of as listing_index};
ghost use Rattle.image_check.specs.Visits.{AddsVisits};

use crate::checking::VisitCounter;
use crate::image_window::{BlockTable, ImageWindow, Object};
use crate::owners::is_same;
use crate::spellings::are_spellings;
use block_tags::Role;
use seg_types::{Kind, MAX_ARRAY_LEN, MAX_NAME_LEN, is_name};
use segment_manager::layout::{CONTAINER_LEN, NAMED_AT, UNIQUE_AT};

/// The code of the class of named objects.
pub(crate) const NAMED: u64 = 1;

/// The code of the class of unique objects.
pub(crate) const UNIQUE: u64 = 2;

/// Returns the kind of the object, if its code is a kind of the format.
pub(crate) fn kind_of(format: u64, window: &ImageWindow, object: Object) -> Option<Kind>
    requires { object.at + 8 ≤ length window.now.bytes }
    ensures { result ≡ kind_at format (bytes_of window.now.bytes) object.at }
{
    match Kind::from_code(object.code(window) as u32) {
        Some(kind) if kind.is_of(format) => Some(kind),
        _ => None,
    }
}

/// Returns true if the count of a value is legal for its kind, and the value ends by `end`.
pub(crate) fn has_room(kind: Kind, count: u64, start: u64, end: u64) -> bool
    requires { start < 2 ^ 63 + 2 ^ 33 }
    ensures { result ≡ is_value_room kind count start end }
{
    match kind {
        Kind::Scalar(scalar) => {
            count >= 1 && count <= MAX_ARRAY_LEN && start + scalar.size() * count <= end
        }
        _ => count == 1 && start + CONTAINER_LEN <= end,
    }
}

/// Returns true if the name and the class of the object are valid.
pub(crate) fn has_name(format: u64, window: &ImageWindow, object: Object) -> bool
    requires max_size { length window.now.bytes < 2 ^ 63 }
    requires in_bounds { object.at + 16 + name_len_at (bytes_of window.now.bytes) object.at ≤ length window.now.bytes }
    ensures { result ≡ is_named format (bytes_of window.now.bytes) object.at }
{
    let class = object.class(window);
    if class == NAMED {
        let name = object.name(window);
        return name.len() <= MAX_NAME_LEN && is_name(format, name);
    }
    class <= UNIQUE && object.name_len(window) == 0
}

/// Returns true if the bytes between the name and the value of the object are 0.
pub(crate) fn has_padding(window: &ImageWindow, object: Object) -> bool
    requires max_size { length window.now.bytes < 2 ^ 63 }
    requires in_bounds { value_offset (bytes_of window.now.bytes) object.at ≤ length window.now.bytes }
    ensures { result ≡ is_padded (bytes_of window.now.bytes) object.at }
{
    object.padding(window).iter().all(|byte| *byte == 0)
}

/// Returns true if every scalar of the value is valid (true for containers). It visits each scalar at most once.
pub(crate) fn has_spellings(
    window: &ImageWindow,
    visits: &mut VisitCounter,
    kind: Kind,
    count: u64,
    start: u64,
) -> bool
    requires max_size { length window.now.bytes < 2 ^ 63 }
    requires room { is_value_room kind count start (length window.now.bytes) ≡ true }
    ensures test { result ≡ is_spelled (bytes_of window.now.bytes) kind count start }
    ensures visits { AddsVisits count visits.old visits.new }
{
    match kind {
        Kind::Scalar(scalar) => are_spellings(window, visits, scalar, start, count),
        _ => true,
    }
}

/// Returns the header offset of the index that has an entry for the object at `at`, or `None`. The search for the
/// object's block tries the block with the number `guess` first.
fn index_of(blocks: &BlockTable, guess: usize, at: u64, visits: &mut VisitCounter) -> Option<u64>
    ensures test { result ≡ listing_index blocks.now.entries at }
    ensures visits { AddsVisits 1 visits.old visits.new }
{
    let block = blocks.block_of(guess, at, visits)?;
    if !is_same(block.role, Role::Object) {
        return None;
    }
    match block.owner {
        Some(owner) => Some(owner.root as u64),
        None => None,
    }
}

/// Returns true if the object has an entry in the index of its class, or its class has no index. The search for the
/// object's block tries the block with the number `guess` first.
pub(crate) fn is_indexed(
    window: &ImageWindow,
    blocks: &BlockTable,
    guess: usize,
    visits: &mut VisitCounter,
    object: Object,
) -> bool
    requires max_size { object.at < 2 ^ 63 }
    requires in_bounds { object.at + 16 ≤ length window.now.bytes }
    requires entry { AreEntered (bytes_of window.now.bytes) blocks.now.entries }
    ensures test { result ≡ is_listed (bytes_of window.now.bytes) object.at }
    ensures visits { AddsVisits 1 visits.old visits.new }
{
    let class = object.class(window);
    if class != NAMED && class != UNIQUE {
        return true;
    }
    match index_of(blocks, guess, object.at(), visits) {
        Some(index) => index == if class == NAMED { NAMED_AT } else { UNIQUE_AT },
        None => false,
    }
}
