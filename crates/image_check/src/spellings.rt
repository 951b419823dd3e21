//! Checks that the bytes of several scalars are values of their kind.
ghost use Rattle.std.specs.Prelude.{◌≡◌, ◌+◌, ◌*◌, ◌^◌, ◌<◌, ◌≤◌, length};
ghost use Rattle.raw_region.specs.Memory.{bytes_of};
ghost use Rattle.seg_types.specs.Kinds.{size_of};
ghost use Rattle.image_check.specs.ObjectTests.{are_spellings as spell_values};
ghost use Rattle.image_check.specs.Visits.{AddsVisits};

use crate::checking::VisitCounter;
use crate::image_window::ImageWindow;
use seg_types::ScalarKind;

/// Returns true if the `count` elements from `start` on are values of the kind. It takes one visit for each.
pub(crate) fn are_spellings(
    window: &ImageWindow,
    visits: &mut VisitCounter,
    kind: ScalarKind,
    start: u64,
    count: u64,
) -> bool
    requires max_size { length window.now.bytes < 2 ^ 63 }
    requires in_bounds { start + size_of kind * count ≤ length window.now.bytes }
    ensures test { result ≡ spell_values (bytes_of window.now.bytes) kind start count }
    ensures visits { AddsVisits count visits.old visits.new }
{
    let size = kind.size();
    let mut i = 0;
    'elements: while i < count {
        if !kind.is_spelling(window.element(start + size * i, size, visits)) {
            return false;
        }
        i += 1;
    }
    true
}
