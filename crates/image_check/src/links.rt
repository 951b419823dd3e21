//! Enters the links of indexes, storage and elements in the map of owners.
ghost use Rattle.std.specs.Prelude.{◌≡◌, ◌+◌, ◌*◌, ◌%◌, ◌<◌, ◌≤◌, ℕ, length};
ghost use Rattle.raw_region.specs.Memory.{bytes_of, word_at};
ghost use Rattle.image_check.specs.Owners.{IsIndexOffset, IsMarkingOf};
ghost use Rattle.image_check.specs.Passes.{HasTiles};
ghost use Rattle.image_check.specs.Sharing.{AreElementsNoted, IsIndexNoted, IsStorageNoted, IsStorageStart};
ghost use Rattle.image_check.specs.Visits.{AddsVisits};
ghost use Rattle.image_check.specs.Owners.{MarksUnlessShared};
ghost use Rattle.image_check.specs.Sharing.{state_of};

use crate::checking::VisitCounter;
use crate::image_window::{ImageWindow, Value};
use crate::marks::mark;
use crate::owners::{Owner, Owners};
use crate::verdict::Offset;
use block_tags::Role;

/// Enters the link of the index whose words are at `at`, if its capacity is not 0. It takes at most two visits.
///
/// # Errors
///
/// The link's offset, if another link leads to the same block.
pub(crate) fn mark_index(
    window: &ImageWindow,
    owners: &mut Owners,
    at: u64,
    visits: &mut VisitCounter,
) -> Result<(), Offset>
    ghost format: { ℕ }
    requires tiles { HasTiles window.now.bytes }
    requires place { IsIndexOffset at }
    requires marking { IsMarkingOf format window.now.bytes (state_of owners.old) }
    ensures mark { MarksUnlessShared format window.now.bytes
        (IsIndexNoted format window.now.bytes at (state_of owners.old) (state_of owners.new)) result }
    ensures visits { AddsVisits 2 visits.old visits.new }
{
    if window.header_word(at + 16) == 0 {
        return Ok(());
    }
    let root = at as u32;
    let link = Owner { at: root, root };
    mark(owners, Role::Index, link, window.header_link(at), visits)
}

/// Enters the storage link of the value, if its capacity is not 0. It takes at most two visits.
///
/// # Errors
///
/// The link's offset, if another link leads to the same block.
pub(crate) fn mark_storage(
    window: &ImageWindow,
    owners: &mut Owners,
    value: Value,
    visits: &mut VisitCounter,
) -> Result<(), Offset>
    ghost format: { ℕ }
    requires tiles { HasTiles window.now.bytes }
    requires marking { IsMarkingOf format window.now.bytes (state_of owners.old) }
    requires in_bounds { value.at + 24 ≤ length window.now.bytes }
    requires aligned { value.at % 8 ≡ 0 }
    requires start { 0 < word_at (bytes_of window.now.bytes) (value.at + 16)
        → IsStorageStart format window.now.bytes value.at }
    ensures mark { MarksUnlessShared format window.now.bytes
        (IsStorageNoted format window.now.bytes value.at (state_of owners.old) (state_of owners.new)) result }
    ensures visits { AddsVisits 2 visits.old visits.new }
{
    if value.capacity(window) == 0 {
        return Ok(());
    }
    let at = value.at() as u32;
    let owner = Owner { at, root: at };
    mark(owners, Role::Storage, owner, value.link(window), visits)
}

/// Enters the links of the first `count` elements of the array at `array`. It takes at most three visits for each.
///
/// # Errors
///
/// The offset of the first link that leads to a block to which another link leads.
pub(crate) fn mark_elements(
    window: &ImageWindow,
    owners: &mut Owners,
    array: u64,
    count: u64,
    visits: &mut VisitCounter,
) -> Result<(), Offset>
    ghost format: { ℕ }
    requires tiles { HasTiles window.now.bytes }
    requires marking { IsMarkingOf format window.now.bytes (state_of owners.old) }
    requires in_bounds { array + 16 * count ≤ length window.now.bytes }
    requires aligned { array % 16 ≡ 0 }
    requires start { (i : ℕ) → i < count → IsStorageStart format window.now.bytes (array + 16 * i) }
    ensures mark { MarksUnlessShared format window.now.bytes
        (AreElementsNoted format window.now.bytes array count (state_of owners.old) (state_of owners.new)) result }
    ensures visits { AddsVisits (3 * count) visits.old visits.new }
{
    let mut i = 0;
    'elements: while i < count {
        let at = array + 16 * i;
        let target = window.link(at, visits);
        let root = at as u32;
        let link = Owner { at: root, root };
        if let Err(place) = mark(owners, Role::Storage, link, target, visits) {
            return Err(place);
        }
        i += 1;
    }
    Ok(())
}
