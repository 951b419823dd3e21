//! The places of vectors and strings, the two indexes, and all of the segment.
ghost use Rattle.std.specs.Prelude.{◌≡◌, ◌≤◌};
ghost use Rattle.seg_types.specs.Commands.{AllDeallocated, Clear, Reserve, ReserveNamed, ReserveUnique, Sanity};
ghost use Rattle.seg_types.specs.Commands.{Shrink, ShrinkIndexes, ZeroFree};
ghost use Rattle.segment_c.specs.Handles.{AsksSegment, DoesCommand, MakesInHandle};
ghost use Rattle.segment_c.specs.{Calls.ReachesSegment, Codes.answer_for, Passed.key_of, Passed.key_wrong};
ghost use Rattle.segment_manager.specs.{Answers.Boolean, Answers.Done, Keeping.HasCapacity, Keeping.UnchangedWhere};
ghost use Rattle.segment_manager.specs.{Calls.HasZeroGaps, State.TakesStep};

use crate::calls::{ask, enter, passed};
use crate::changes::{ObjectChange, make_change};
use crate::codes::done;
use crate::keys::CKey;
use crate::slot::{Slot, take};

/// Gives the vector or string of a key `slots` places, if it has fewer.
#[unsafe(no_mangle)]
pub extern "C" fn zx_reserve(h: &mut Slot, key: &CKey, slots: u64) -> u32
    ensures call { DoesCommand (key_wrong key.now) (Reserve (key_of key.now) slots) result h.old h.new }
    ensures noop { ReachesSegment (key_wrong key.now) result h.old.segment.value h.new.segment.value (λ s t.
        UnchangedWhere s t (HasCapacity (key_of key.now) slots)) }
{
    let (which, mut segment) = passed!(enter(h, key));
    done(segment.reserve(&which, slots), h, segment)
}

/// Gives back the places of the vector or string of a key that have no element.
#[unsafe(no_mangle)]
pub extern "C" fn zx_trim(h: &mut Slot, key: &CKey) -> u32
    ensures call { DoesCommand (key_wrong key.now) (Shrink (key_of key.now)) result h.old h.new }
{
    make_change(h, key, ObjectChange::Trim)
}

/// Takes all elements out of the vector or string of a key.
#[unsafe(no_mangle)]
pub extern "C" fn zx_clear(h: &mut Slot, key: &CKey) -> u32
    ensures call { DoesCommand (key_wrong key.now) (Clear (key_of key.now)) result h.old h.new }
{
    make_change(h, key, ObjectChange::Clear)
}

/// Makes room in the index of names.
#[unsafe(no_mangle)]
pub extern "C" fn zx_reserve_named(h: &mut Slot, slots: u64) -> u32
    ensures call { MakesInHandle 0 result h.old h.new
        (λ s t. TakesStep s t (ReserveNamed slots) (answer_for result Done)) }
    ensures noop { ReachesSegment 0 result h.old.segment.value h.new.segment.value (λ s t.
        UnchangedWhere s t (λ d. slots ≤ d.named.capacity)) }
{
    let mut segment = passed!(take(h));
    done(segment.reserve_named(slots), h, segment)
}

/// Makes room in the index of unique kinds.
#[unsafe(no_mangle)]
pub extern "C" fn zx_reserve_unique(h: &mut Slot, slots: u64) -> u32
    ensures call { MakesInHandle 0 result h.old h.new
        (λ s t. TakesStep s t (ReserveUnique slots) (answer_for result Done)) }
    ensures noop { ReachesSegment 0 result h.old.segment.value h.new.segment.value (λ s t.
        UnchangedWhere s t (λ d. slots ≤ d.unique.capacity)) }
{
    let mut segment = passed!(take(h));
    done(segment.reserve_unique(slots), h, segment)
}

/// Gives back the room of the indexes that no entry uses.
#[unsafe(no_mangle)]
pub extern "C" fn zx_shrink_indexes(h: &mut Slot) -> u32
    ensures call { DoesCommand 0 ShrinkIndexes result h.old h.new }
{
    let mut segment = passed!(take(h));
    done(segment.shrink_indexes(), h, segment)
}

/// Makes the free bytes 0 that are no part of a tag.
#[unsafe(no_mangle)]
pub extern "C" fn zx_zero_free(h: &mut Slot) -> u32
    ensures call { DoesCommand 0 ZeroFree result h.old h.new }
    ensures zeros { ReachesSegment 0 result h.old.segment.value h.new.segment.value (λ s t. result ≡ 0
        → HasZeroGaps t) }
{
    let mut segment = passed!(take(h));
    done(segment.zero_free(), h, segment)
}

/// Sets `is_whole` to the result of the sanity check, which holds of each segment, and returns a code.
#[unsafe(no_mangle)]
pub extern "C" fn zx_sanity(h: &mut Slot, is_whole: &mut bool) -> u32
    ensures call { AsksSegment Boolean 0 Sanity result h.old h.new is_whole.old is_whole.new }
{
    ask!(h, is_whole, segment => segment.sanity())
}

/// Sets `is_empty` to true if no block is in use, index blocks included, and returns a code.
#[unsafe(no_mangle)]
pub extern "C" fn zx_all_deallocated(h: &mut Slot, is_empty: &mut bool) -> u32
    ensures call { AsksSegment Boolean 0 AllDeallocated result h.old h.new is_empty.old is_empty.new }
{
    ask!(h, is_empty, segment => segment.all_deallocated())
}
