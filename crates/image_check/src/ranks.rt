//! Checks that the entries of an index lead to objects of its class whose keys rise.
ghost use Rattle.std.specs.Prelude.{◌≡◌, ℕ, ◌+◌, ◌*◌, ◌%◌, ◌^◌, ◌<◌, ◌≤◌, true, Some, IsSome, length};
ghost use Rattle.raw_region.specs.Memory.{bytes_of};
ghost use Rattle.offset_link.specs.Link.{link_at};
ghost use Rattle.seg_index.specs.Keys.{name_len_at};
ghost use Rattle.image_check.specs.ObjectTests.{has_index, targets};
ghost use Rattle.image_check.specs.ObjectPasses.{HaveHeads, LeadToHeads, are_ranked, entry_rates};
ghost use Rattle.image_check.specs.ObjectPasses.{follows as comes_behind, key_before};
ghost use Rattle.image_check.specs.Owners.{IsIndexOffset};
ghost use Rattle.image_check.specs.IndexOffsets.{first_targets};
ghost use Rattle.image_check.specs.ObjectOffsets.{IsMisplaced, IsOutOfOrder};
ghost use Rattle.image_check.specs.Passes.{ChecksClass, HasTiles, tiles_in};
ghost use Rattle.image_check.specs.Visits.{AddsVisits, weigh};

use crate::checking::VisitCounter;
use crate::heads::NAMED;
use crate::image_window::{ImageWindow, Object};
use crate::verdict::Offset;

/// Checks that the entries of the index whose words are at `at` lead to objects of a class whose keys rise.
///
/// # Errors
///
/// The offset of the first entry that leads to an object of another class, or to one whose key does not rise.
pub(crate) fn has_order(
    window: &ImageWindow,
    visits: &mut VisitCounter,
    at: u64,
    class: u64,
) -> Result<(), Offset>
    requires tiles { HasTiles window.now.bytes }
    requires place { IsIndexOffset at }
    requires index { has_index (bytes_of window.now.bytes) (tiles_in window.now.bytes) at ≡ true }
    requires heads { HaveHeads (bytes_of window.now.bytes) at (length window.now.bytes) }
    ensures verdict { ChecksClass (are_ranked class (bytes_of window.now.bytes)
        (targets (bytes_of window.now.bytes) at)) (IsMisplaced class (bytes_of window.now.bytes) at) result }
    ensures visits { (visits.old ≤ visits.new)
        × (2 * visits.new ≤ 2 * visits.old + weigh entry_rates (tiles_in window.now.bytes)) }
{
    match window.header_link(at) {
        None => Ok(()),
        Some(block) => rise(window, visits, block, window.header_word(at + 8), class),
    }
}

/// Checks that the first `count` links of a block lead to objects of a class whose keys rise.
///
/// # Errors
///
/// The offset of the first link that leads to an object of another class, or to one whose key does not rise.
fn rise(
    window: &ImageWindow,
    visits: &mut VisitCounter,
    block: u64,
    count: u64,
    class: u64,
) -> Result<(), Offset>
    requires max_size { length window.now.bytes < 2 ^ 63 }
    requires aligned { block % 8 ≡ 0 }
    requires in_bounds { block + 8 * count ≤ length window.now.bytes }
    requires links { (i : ℕ) → i < count → IsSome (link_at (bytes_of window.now.bytes) (block + 8 * i)) }
    requires heads { LeadToHeads (bytes_of window.now.bytes) block count (length window.now.bytes) }
    ensures verdict { ChecksClass (are_ranked class (bytes_of window.now.bytes)
        (first_targets (bytes_of window.now.bytes) block count))
        (IsOutOfOrder class (bytes_of window.now.bytes) block count) result }
    ensures visits { AddsVisits (3 * count) visits.old visits.new }
{
    let mut last = None;
    let mut i = 0;
    'entries: while i < count {
        let place = block + 8 * i;
        let Some(here) = window.link(place, visits) else {
            return Err(place);
        };
        if !follows(window, visits, class, last, here) {
            return Err(place);
        }
        last = Some(here);
        i += 1;
    }
    Ok(())
}

/// Returns true if an object has the class, and its key follows the key of the last object, if there is one. It takes
/// at most two visits.
fn follows(
    window: &ImageWindow,
    visits: &mut VisitCounter,
    class: u64,
    last: Option<u64>,
    here: u64,
) -> bool
    requires max_size { length window.now.bytes < 2 ^ 63 }
    requires in_place { here + 16 + name_len_at (bytes_of window.now.bytes) here ≤ length window.now.bytes }
    requires last { (g : ℕ) → last ≡ Some g
        → g + 16 + name_len_at (bytes_of window.now.bytes) g ≤ length window.now.bytes }
    ensures test { result ≡ comes_behind class (bytes_of window.now.bytes) last here }
    ensures visits { AddsVisits 2 visits.old visits.new }
{
    let object = Object::visit(here, visits);
    if object.class(window) != class {
        return false;
    }
    match last {
        None => true,
        Some(last) => precedes(window, class, Object::visit(last, visits), object),
    }
}

/// Returns true if the key of an object precedes the key of another. Both have the class.
fn precedes(window: &ImageWindow, class: u64, one: Object, other: Object) -> bool
    requires max_size { length window.now.bytes < 2 ^ 63 }
    requires first_in_bounds { one.at + 16 + name_len_at (bytes_of window.now.bytes) one.at ≤ length window.now.bytes }
    requires second_in_bounds { other.at + 16 + name_len_at (bytes_of window.now.bytes) other.at
        ≤ length window.now.bytes }
    ensures { result ≡ key_before class (bytes_of window.now.bytes) one.at other.at }
{
    if class == NAMED {
        one.name(window).cmp(other.name(window)).is_lt()
    } else {
        one.code(window) < other.code(window)
    }
}
