//! Elements of objects of scalars, of vectors and of strings.
ghost use Rattle.std.specs.Prelude.{◌≡◌, ◌≤◌, OnErr, false, true};
ghost use Rattle.seg_types.specs.Commands.{Erase, Insert, Integer, Pop, Push, Set};
ghost use Rattle.seg_types.specs.declared.kinds.Kind.TheVariants.{Strings as StringsKind, Vector as VectorOf};
ghost use Rattle.seg_types.specs.{Keys.key_seen, Names.ByHandle, Values.kind_of_scalar, Written.literal_seen};
ghost use Rattle.segment_c.specs.{Codes.answer_for, Handles.ChangesHandle, Handles.DoesCommand};
ghost use Rattle.segment_c.specs.Passed.{element_in, key_of, key_wrong, literal_in, or_else, value_wrong};
ghost use Rattle.segment_c.specs.Reads.{TellsElement, vector_kind_at};
ghost use Rattle.segment_manager.specs.{Answers.Done, Answers.refusal_of, Step.step_of_kind};
ghost use Rattle.segment_manager.specs.State.{AnswersWith, TakesStep, TakesStepOfKind, Transitions, done_answer};
ghost use Rattle.segment_manager.specs.{State.scalar_answer, containers.TextLists.LeadsOnOfKind};

use crate::calls::{enter, enter_with, passed};
use crate::changes::{ObjectChange, make_change};
use crate::codes::{DONE, done, element_out};
use crate::keys::CKey;
use crate::slot::{Slot, put, put_taken_back, take};
use crate::values::CScalar;
use seg_types::{Handle, Key, Kind, Refusal, ScalarKind, ScalarValue, by_kind, by_value};
use segment_manager::unchecked::object_here;
use segment_manager::{Segment, is_remembered, locate, push_within};
use segment_values::{InsertSpot, add, get, get_element};

/// Returns the element at `index` in the object of a key: of scalars, of a vector of scalars, or of a string, which has
/// bytes.
#[unsafe(no_mangle)]
pub extern "C" fn zx_get(h: &mut Slot, key: &CKey, index: u64, value: &mut CScalar) -> u32
    ensures { TellsElement key.now index result h.old h.new value.old value.new }
{
    let Some(handle) = key.as_handle() else {
        return get_any(h, key, index, value);
    };
    let segment = passed!(take(h));
    if is_remembered(&segment, handle) {
        let object = object_here(&segment, handle);
        let answer = get_element(&segment, object, index);
        return put_taken_back(element_out(answer, value), h, segment);
    }
    put_taken_back(DONE, h, segment);
    get_any(h, key, index, value)
}

/// Returns the element at `index` in the object of a key, for any form of key.
#[inline(never)]
fn get_any(h: &mut Slot, key: &CKey, index: u64, value: &mut CScalar) -> u32
    ensures { TellsElement key.now index result h.old h.new value.old value.new }
{
    let (which, segment) = passed!(enter(h, key));
    let answer = get(&segment, &which, index);
    put_taken_back(element_out(answer, value), h, segment)
}

/// Makes a value the element at `index` in the object of a key: of scalars, of a vector of scalars, or of a string.
#[unsafe(no_mangle)]
pub extern "C" fn zx_set(h: &mut Slot, key: &CKey, index: u64, value: &CScalar) -> u32
    ensures call { DoesCommand (or_else (key_wrong key.now) (value_wrong value.now))
        (Set (key_of key.now) index (literal_in value.now)) result h.old h.new }
{
    let (which, new, mut segment) = passed!(enter_with(h, key, value));
    let answer = segment_values::set(&mut segment, &which, index, &new, &mut ());
    done(answer, h, segment)
}

/// Puts a value after the last element of the vector of a key.
#[unsafe(no_mangle)]
pub extern "C" fn zx_push(h: &mut Slot, key: &CKey, value: &CScalar) -> u32
    ensures call { DoesCommand (or_else (key_wrong key.now) (value_wrong value.now))
        (Push (key_of key.now) (literal_in value.now)) result h.old h.new }
{
    let (Some(handle), Some(number)) = (key.as_handle(), value.as_i64()) else {
        return push_any(h, key, value);
    };
    zx_push_i64(h, handle, number)
}

/// Puts a number after the last element of the vector of a handle, which can be any number, as `zx_push` does. It packs
/// no key and no value. The push within the capacity is inlined here, and this function nowhere, so the code of that
/// push stands once.
#[inline(never)]
#[unsafe(no_mangle)]
pub extern "C" fn zx_push_i64(h: &mut Slot, handle: u64, number: i64) -> u32
    ensures call { DoesCommand 0 (Push (ByHandle handle) (Integer number)) result h.old h.new }
{
    let mut segment = passed!(take(h));
    if push_here(&mut segment, handle, number) {
        h.marks.raise();
        return put_taken_back(DONE, h, segment);
    }
    put_taken_back(DONE, h, segment);
    let value = CScalar::of(ScalarValue::I64(number));
    push_any(h, &CKey::of_handle(handle), &value)
}

/// Puts a number after the last element of the vector of a handle, and returns true, if the handle is remembered and
/// the vector is of `i64` with room. Otherwise nothing changes.
#[inline(always)]
fn push_here(segment: &mut Segment, handle: Handle, number: i64) -> bool
    ensures step { result ≡ true → TakesStep segment.old segment.new (Push (ByHandle handle) (Integer number)) Done }
    ensures refused { result ≡ false → segment.new ≡ segment.old }
{
    is_remembered(segment, handle) && push_within(segment, handle, number)
}

/// Puts a value after the last element of the vector of a key, for any form of key and any value.
#[inline(never)]
fn push_any(h: &mut Slot, key: &CKey, value: &CScalar) -> u32
    ensures call { DoesCommand (or_else (key_wrong key.now) (value_wrong value.now))
        (Push (key_of key.now) (literal_in value.now)) result h.old h.new }
{
    let (which, new, mut segment) = passed!(enter_with(h, key, value));
    let answer = push(&mut segment, &which, new);
    done(answer, h, segment)
}

/// Puts a value after the last element of the vector of a key in a segment. It looks the vector up once if that is of
/// the value's own kind.
fn push(segment: &mut Segment, key: &Key, value: ScalarValue) -> Result<(), Refusal>
    ensures step { TakesStep segment.old segment.new (Push (key_seen key.now) (literal_seen value))
        (done_answer result) }
    ensures refused { OnErr result (segment.new ≡ segment.old) }
{
    match push_own(segment, key, value) {
        Ok(()) => Ok(()),
        Err(why) => match why {
            Refusal::WrongKind => add(segment, key, InsertSpot::End, &value, &mut ()),
            _ => Err(why),
        },
    }
}

/// Puts a value after the last element of the vector of a key, a vector of the value's own kind.
#[inline(always)]
fn push_own(segment: &mut Segment, key: &Key, value: ScalarValue) -> Result<(), Refusal>
    ensures step { TakesStepOfKind segment.old segment.new (key_seen key.now) (VectorOf (kind_of_scalar value))
        (Push (key_seen key.now) (literal_seen value)) (done_answer result) }
    ensures refused { OnErr result (segment.new ≡ segment.old) }
{
    by_value!(value, it => segment.vec_push(key, it))
}

/// Puts a value where `index` others stand before it in the vector of a key.
#[unsafe(no_mangle)]
pub extern "C" fn zx_insert(h: &mut Slot, key: &CKey, index: u64, value: &CScalar) -> u32
    ensures call { DoesCommand (or_else (key_wrong key.now) (value_wrong value.now))
        (Insert (key_of key.now) index (literal_in value.now)) result h.old h.new }
{
    let (which, new, mut segment) = passed!(enter_with(h, key, value));
    let spot = InsertSpot::Before(index);
    let answer = add(&mut segment, &which, spot, &new, &mut ());
    done(answer, h, segment)
}

/// Leaves out the element at `index` in the vector of a key, of scalars or of strings.
#[unsafe(no_mangle)]
pub extern "C" fn zx_erase(h: &mut Slot, key: &CKey, index: u64) -> u32
    ensures call { DoesCommand (key_wrong key.now) (Erase (key_of key.now) index) result h.old h.new }
{
    make_change(h, key, ObjectChange::Erase(index))
}

/// Takes the last element out of the vector of a key, a vector of scalars.
#[unsafe(no_mangle)]
pub extern "C" fn zx_pop(h: &mut Slot, key: &CKey, value: &mut CScalar) -> u32
    ensures call { ChangesHandle (key_wrong key.now) result h.old h.new
        (λ s t. Transitions s t (answer_for result (element_in value.new)) (λ d.
        step_of_kind s.mode d (key_of key.now) (VectorOf (vector_kind_at d (key_of key.now))) (Pop (key_of key.now)))) }
    ensures outputs_on_error { 1 ≤ result → value.new ≡ value.old }
{
    let (which, mut segment) = passed!(enter(h, key));
    h.marks.raise();
    let answer = pop(&mut segment, &which);
    put(element_out(answer, value), h, segment)
}

/// Takes the last element out of the vector of a key in a segment.
fn pop(segment: &mut Segment, key: &Key) -> Result<ScalarValue, Refusal>
    ensures step { Transitions segment.old segment.new (scalar_answer result) (λ d.
        step_of_kind segment.old.mode d (key_seen key.now) (VectorOf (vector_kind_at d (key_seen key.now)))
        (Pop (key_seen key.now))) }
    ensures refused { OnErr result (segment.new ≡ segment.old) }
{
    let kind = kind_of_vector(segment, key);
    pop_of_kind(segment, key, kind)
}

/// Takes the last element out of a vector of scalars of a kind.
fn pop_of_kind(segment: &mut Segment, key: &Key, kind: ScalarKind) -> Result<ScalarValue, Refusal>
    ensures step { TakesStepOfKind segment.old segment.new (key_seen key.now) (VectorOf kind)
        (Pop (key_seen key.now)) (scalar_answer result) }
    ensures refused { OnErr result (segment.new ≡ segment.old) }
{
    macro_rules! pop {
        ($type:ty, $kind:ident) => {
            segment.vec_pop::<$type, Key>(key).map(ScalarValue::$kind)
        };
    }
    by_kind!(kind, pop)
}

/// Returns the kind of the elements of the vector of a key; if it has no vector of scalars, one kind or another, by
/// which the call is refused.
fn kind_of_vector(segment: &Segment, key: &Key) -> ScalarKind
    ensures { AnswersWith segment.now (λ d. vector_kind_at d (key_seen key.now)) result }
{
    match locate(segment, key) {
        Ok(object) => match object.kind {
            Kind::Vector(element) => element,
            _ => ScalarKind::U8,
        },
        Err(_) => ScalarKind::U8,
    }
}

/// Takes the last text out of the vector of strings of a key. It is read before by `zx_read_text`.
#[unsafe(no_mangle)]
pub extern "C" fn zx_pop_text(h: &mut Slot, key: &CKey) -> u32
    ensures call { ChangesHandle (key_wrong key.now) result h.old h.new
        (λ s t. LeadsOnOfKind s t (key_of key.now) StringsKind (Pop (key_of key.now))
        (refusal_of (answer_for result Done))) }
{
    make_change(h, key, ObjectChange::PopText)
}
