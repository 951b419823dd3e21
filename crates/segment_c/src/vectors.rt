//! Arrays and vectors of scalars, made of rows of values.
ghost use Rattle.std.specs.Prelude.{◌≡◌, ◌≤◌, map};
ghost use Rattle.seg_types.specs.Commands.{Assign, ConstructIt, Elements, literal_of};
ghost use Rattle.seg_types.specs.declared.kinds.Kind.TheVariants.{Scalar as ScalarOf, Vector as VectorOf};
ghost use Rattle.segment_c.specs.Passed.{count_wrong, entry_wrong, key_of, key_wrong, new_of, new_wrong};
ghost use Rattle.segment_c.specs.Passed.{or_else, scalar_kind_in, slice_count, slice_of, slice_wrong};
ghost use Rattle.segment_c.specs.{Handles.ChangesHandle, Handles.MakesInHandle, Making.TellsMade};
ghost use Rattle.segment_c.specs.{Codes.answer_for, Making.TellsFoundOrMade};
ghost use Rattle.segment_manager.specs.State.{TakesStep, TakesStepOfKind};
ghost use Rattle.segment_manager.specs.{Answers.Done, Answers.Made, containers.Ranges.ExtendsVector};

use crate::calls::{enter_entry, enter_new, enter_slice, passed};
use crate::codes::{BAD_COUNT, done, found, made};
use crate::keys::CKey;
use crate::objects::MOST;
use crate::slices::{CScalars, on_slice};
use crate::slot::Slot;
use seg_types::{Kind, ScalarKind};
use segment_values::construct_array;

/// Makes a vector of the values.
#[unsafe(no_mangle)]
pub extern "C" fn zx_construct_vector(
    h: &mut Slot,
    key: &CKey,
    values: &CScalars,
    handle: &mut u64,
) -> u32
    ensures { TellsMade
        (or_else (slice_wrong values.now) (new_wrong key.now (VectorOf (scalar_kind_in values.now.kind)))) key.now
        (VectorOf (scalar_kind_in values.now.kind)) (Elements (scalar_kind_in values.now.kind) (slice_of values.now))
        result h.old h.new handle.old handle.new }
{
    let kind = passed!(values.scalar_kind());
    let (which, mut segment) = passed!(enter_new(h, key, Kind::Vector(kind)));
    let answer = on_slice!(values, kind, slice => segment.construct_vec(&which, slice));
    made(answer, handle, h, segment)
}

/// Returns the vector of a key, which stays as it is, or a new one of the values if no object has it.
#[unsafe(no_mangle)]
pub extern "C" fn zx_find_or_construct_vector(
    h: &mut Slot,
    key: &CKey,
    values: &CScalars,
    handle: &mut u64,
    count_found: &mut u32,
) -> u32
    ensures { TellsFoundOrMade
        (or_else (slice_wrong values.now) (entry_wrong key.now (VectorOf (scalar_kind_in values.now.kind)))) key.now
        (VectorOf (scalar_kind_in values.now.kind)) (Elements (scalar_kind_in values.now.kind) (slice_of values.now))
        result h.old h.new handle.old handle.new count_found.old count_found.new }
{
    let kind = passed!(values.scalar_kind());
    let (which, mut segment) = passed!(enter_entry(h, key, Kind::Vector(kind)));
    let answer = on_slice!(values, kind, slice => segment.find_or_construct_vec(&which, slice));
    found(answer, handle, count_found, h, segment)
}

/// Makes the values those of the vector of a key, a vector of their kind.
#[unsafe(no_mangle)]
pub extern "C" fn zx_assign(h: &mut Slot, key: &CKey, values: &CScalars) -> u32
    ensures call { ChangesHandle (or_else (key_wrong key.now) (slice_wrong values.now)) result h.old h.new
        (λ s t. TakesStepOfKind s t (key_of key.now) (VectorOf (scalar_kind_in values.now.kind))
        (Assign (key_of key.now) (map (literal_of (scalar_kind_in values.now.kind)) (slice_of values.now)))
        (answer_for result Done)) }
{
    let (which, kind, mut segment) = passed!(enter_slice(h, key, values));
    let answer = on_slice!(values, kind, slice => segment.vec_assign(&which, slice));
    done(answer, h, segment)
}

/// Puts the values after the last element of the vector of a key, a vector of their kind: all of them or none.
#[unsafe(no_mangle)]
pub extern "C" fn zx_extend(h: &mut Slot, key: &CKey, values: &CScalars) -> u32
    ensures call { ChangesHandle (or_else (key_wrong key.now) (slice_wrong values.now)) result h.old h.new
        (λ s t. ExtendsVector s t (key_of key.now) (scalar_kind_in values.now.kind) (slice_of values.now)
        (answer_for result Done)) }
{
    let (which, kind, mut segment) = passed!(enter_slice(h, key, values));
    let answer = on_slice!(values, kind, slice => segment.vec_extend(&which, slice));
    done(answer, h, segment)
}

/// Makes an array of the values.
#[unsafe(no_mangle)]
pub extern "C" fn zx_construct_array(
    h: &mut Slot,
    key: &CKey,
    values: &CScalars,
    handle: &mut u64,
) -> u32
    ensures call { MakesInHandle (or_else (slice_wrong values.now)
        (or_else (count_wrong (slice_count values.now))
        (new_wrong key.now (ScalarOf (scalar_kind_in values.now.kind))))) result h.old h.new
        (λ s t. TakesStep s t (ConstructIt (new_of key.now (ScalarOf (scalar_kind_in values.now.kind)))
        (scalar_kind_in values.now.kind) (slice_count values.now) (slice_of values.now))
        (answer_for result (Made handle.new))) }
    ensures outputs_on_error { 1 ≤ result → handle.new ≡ handle.old }
{
    let kind = passed!(values.scalar_kind());
    let count = values.count(kind);
    if count < 1 || count > MOST as usize {
        return BAD_COUNT;
    }
    let (which, mut segment) = passed!(enter_new(h, key, Kind::Scalar(kind)));
    let answer = on_slice!(values, kind, slice => construct_array(&mut segment, &which, slice));
    made(answer, handle, h, segment)
}
