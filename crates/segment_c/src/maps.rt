//! Maps: values at keys, and neighbours.
ghost use Rattle.std.specs.Prelude.{◌≡◌, ◌≤◌, Err, IfOk, IfSome, MatchResult, Ok, OnErr, false, option_map};
ghost use Rattle.seg_types.specs.Commands.{Integer, Lookup, Put, Remove};
ghost use Rattle.seg_types.specs.{Keys.key_seen, Names.ByHandle, Written.literal_seen};
ghost use Rattle.seg_types.specs.declared.kinds.{Kind.TheVariants.Map as MapOf, ScalarKind.TheVariants.I64};
ghost use Rattle.segment_c.specs.{Calls.ReachesSegment, Codes.answer_for};
ghost use Rattle.segment_c.specs.Handles.{AsksSegment, ChangesHandle, StepsSegment};
ghost use Rattle.segment_c.specs.Passed.{element_in, key_of, key_wrong, literal_in, or_else, value_wrong};
ghost use Rattle.segment_c.specs.Reads.{AsksPair, TellsPair, TellsPairOf, first_at, map_kinds_at, next_at};
ghost use Rattle.segment_manager.specs.{containers.Maps.any_value_answer, containers.Walks.item_of_kinds};
ghost use Rattle.segment_manager.specs.{Keeping.UnchangedWhere, State.DenotesCurrent, objects.Located.IsLocated};
ghost use Rattle.segment_manager.specs.{Directory.Directory, State.AnswersQuery, State.AnswersWith, State.truth_answer};
ghost use Rattle.segment_manager.specs.{Answers.Boolean, State.TakesStep, Step.is_read_only};
ghost use Rattle.segment_values.specs.Absent.{LacksLiteral};

use crate::calls::{enter, enter_with, passed, take_for};
use crate::codes::{ABSENT, DONE, code_of, truth, value_found};
use crate::keys::CKey;
use crate::slot::{Slot, put, put_taken_back, take};
use crate::values::CScalar;
use seg_types::theorems::holds_value;
use seg_types::{Handle, Key, Kind, Refusal, ScalarKind, ScalarValue, WrittenValue};
use segment_manager::unchecked::object_of_kind;
use segment_manager::{Map, MapMut, Mode, Object, Segment, is_remembered, locate};
use segment_values::{first_pair, next_pair};

/// The kind of maps from `i64` to `i64`.
const NUMBERS: Kind = Kind::Map(ScalarKind::I64, ScalarKind::I64);

/// Takes the segment out of a handle, and finds its map from `i64` to `i64` by a remembered handle. Without such a map
/// it puts the segment back, and calls the general function.
macro_rules! numbers_or {
    ($h:ident, $handle:ident, $general:expr) => {{
        let segment = passed!(take($h));
        match numbers_of(&segment, $handle) {
            Some(object) => (segment, object),
            None => {
                put_taken_back(DONE, $h, segment);
                return $general;
            }
        }
    }};
}

/// Returns the map of a handle, if the handle is remembered and the map is from `i64` to `i64`.
#[inline(always)]
fn numbers_of(segment: &Segment, handle: Handle) -> Option<Object>
    ensures { IfSome result (λ o. IsLocated segment.now (ByHandle handle) o × (o.kind ≡ MapOf I64 I64)) }
{
    if is_remembered(segment, handle) {
        return object_of_kind(segment, handle, NUMBERS).ok();
    }
    None
}

/// Returns the map of a key, and the kinds of its keys and of its values.
///
/// # Errors
///
/// `NotFound` if no object has the key, `WrongKind` if the object is no map.
#[inline(always)]
pub fn map_of(segment: &Segment, key: &Key) -> Result<(Object, ScalarKind, ScalarKind), Refusal>
    ensures kinds { MatchResult result
        (λ it. AnswersWith segment.now (λ d. map_kinds_at d (key_seen key.now)) (Ok (it.1, it.2)))
        (λ why. AnswersWith segment.now (λ d. map_kinds_at d (key_seen key.now)) (Err why)) }
    ensures map { IfOk result (λ it. IsLocated segment.now (key_seen key.now) it.0 × (it.0.kind ≡ MapOf it.1 it.2)) }
{
    match locate(segment, key) {
        Ok(object) => match object.kind {
            Kind::Map(keys, values) => Ok((object, keys, values)),
            _ => Err(Refusal::WrongKind),
        },
        Err(why) => Err(why),
    }
}

/// Returns the value at a key of the map of a key.
#[unsafe(no_mangle)]
pub extern "C" fn zx_map_get(h: &mut Slot, key: &CKey, at: &CScalar, value: &mut CScalar) -> u32
    ensures { AsksSegment element_in (or_else (key_wrong key.now) (value_wrong at.now))
        (Lookup (key_of key.now) (literal_in at.now)) result h.old h.new value.old value.new }
{
    let (Some(handle), Some(number)) = (key.as_handle(), at.as_i64()) else {
        return get_any(h, key, at, value);
    };
    let (segment, object) = numbers_or!(h, handle, get_any(h, key, at, value));
    let found = number_at(&segment, handle, object, number);
    value_found(Ok(found), value, h, segment)
}

/// Returns the value at a key of the map of a key, for any form of key and any value.
#[inline(never)]
fn get_any(h: &mut Slot, key: &CKey, at: &CScalar, value: &mut CScalar) -> u32
    ensures { AsksSegment element_in (or_else (key_wrong key.now) (value_wrong at.now))
        (Lookup (key_of key.now) (literal_in at.now)) result h.old h.new value.old value.new }
{
    let (which, wanted, segment) = passed!(enter_with(h, key, at));
    let answer = segment_values::look_up(&segment, &which, &wanted);
    value_found(answer, value, h, segment)
}

/// Returns the value of a number in the map from `i64` to `i64` of a handle.
#[inline(always)]
fn number_at(segment: &Segment, _handle: Handle, object: Object, at: i64) -> Option<ScalarValue>
    requires location { IsLocated segment.now (ByHandle _handle) object }
    requires kind { object.kind ≡ MapOf I64 I64 }
    ensures { AnswersQuery segment.now (Lookup (ByHandle _handle) (Integer at)) (any_value_answer (Ok result)) }
{
    holds_value(at);
    Map::<i64, i64>::at(segment, object)
        .get(at)
        .map(ScalarValue::I64)
}

/// Puts a value at a key of the map of a key, and says whether that is new.
#[unsafe(no_mangle)]
pub extern "C" fn zx_map_put(
    h: &mut Slot,
    key: &CKey,
    at: &CScalar,
    value: &CScalar,
    is_new: &mut bool,
) -> u32
    ensures { StepsSegment Boolean (or_else (key_wrong key.now) (or_else (value_wrong at.now) (value_wrong value.now)))
        (Put (key_of key.now) (literal_in at.now) (literal_in value.now)) result h.old h.new is_new.old is_new.new }
{
    let (Some(handle), Some(number), Some(new)) = (key.as_handle(), at.as_i64(), value.as_i64())
    else {
        return put_any(h, key, at, value, is_new);
    };
    number_put(h, handle, number, is_new, new)
}

/// Puts a number at a number in the map of a handle, and says whether that is new. It is not inlined, so that a call
/// with a name needs no room for it.
#[inline(never)]
fn number_put(h: &mut Slot, handle: Handle, at: i64, is_new: &mut bool, value: i64) -> u32
    ensures call { ChangesHandle 0 result h.old h.new
        (λ s t. TakesStep s t (Put (ByHandle handle) (Integer at) (Integer value))
        (answer_for result (Boolean is_new.new))) }
    ensures outputs_on_error { 1 ≤ result → is_new.new ≡ is_new.old }
{
    let mut segment = passed!(take(h));
    if segment.mode() != Mode::ReadOnly {
        if let Some(object) = numbers_of(&segment, handle) {
            let answer = put_at(&mut segment, handle, object, at, value);
            return truth(answer, is_new, h, segment);
        }
    }
    put_taken_back(DONE, h, segment);
    let (at, value) = (ScalarValue::I64(at), ScalarValue::I64(value));
    let (key, at, value) = (CKey::of_handle(handle), CScalar::of(at), CScalar::of(value));
    put_any(h, &key, &at, &value, is_new)
}

/// Puts a number at a number in the map from `i64` to `i64` of a handle, and returns true if that is new.
#[inline(always)]
fn put_at(
    segment: &mut Segment,
    _handle: Handle,
    object: Object,
    at: i64,
    value: i64,
) -> Result<bool, Refusal>
    requires location { IsLocated segment.old (ByHandle _handle) object }
    requires kind { object.kind ≡ MapOf I64 I64 }
    requires writing { is_read_only segment.old.mode ≡ false }
    ensures step { TakesStep segment.old segment.new (Put (ByHandle _handle) (Integer at) (Integer value))
        (truth_answer result) }
    ensures refused { OnErr result (segment.new ≡ segment.old) }
{
    MapMut::<i64, i64>::at(segment, object).insert(at, value)
}

/// Puts a value at a key of the map of a key, for any form of key and any two values.
#[inline(never)]
fn put_any(h: &mut Slot, key: &CKey, at: &CScalar, value: &CScalar, is_new: &mut bool) -> u32
    ensures { StepsSegment Boolean (or_else (key_wrong key.now) (or_else (value_wrong at.now) (value_wrong value.now)))
        (Put (key_of key.now) (literal_in at.now) (literal_in value.now)) result h.old h.new is_new.old is_new.new }
{
    let which = passed!(key.key());
    let (new_key, new_value) = (passed!(at.scalar()), passed!(value.scalar()));
    let mut segment = passed!(take_for(h, &which));
    let answer = put_pair(&mut segment, &which, new_key, new_value);
    truth(answer, is_new, h, segment)
}

/// Puts a value at a key of the map of a key in a segment, and returns true if that is new. It looks the map up once if
/// that is from `i64` to `i64`.
fn put_pair(
    segment: &mut Segment,
    key: &Key,
    at: ScalarValue,
    value: ScalarValue,
) -> Result<bool, Refusal>
    ensures step { TakesStep segment.old segment.new
        (Put (key_seen key.now) (literal_seen at) (literal_seen value)) (truth_answer result) }
    ensures refused { OnErr result (segment.new ≡ segment.old) }
{
    match (at, value) {
        (ScalarValue::I64(number), ScalarValue::I64(new)) => {
            match segment.map_put::<i64, i64, Key>(key, number, new) {
                Ok(is_new) => Ok(is_new),
                Err(refusal) => match refusal {
                    Refusal::WrongKind => segment_values::put_pair(segment, key, &at, &value),
                    _ => Err(refusal),
                },
            }
        }
        _ => segment_values::put_pair(segment, key, &at, &value),
    }
}

/// Takes a key out of the map of a key, and says whether it was there. If it was not, nothing changes.
#[unsafe(no_mangle)]
pub extern "C" fn zx_map_erase(h: &mut Slot, key: &CKey, at: &CScalar, was_there: &mut bool) -> u32
    ensures call { StepsSegment Boolean (or_else (key_wrong key.now) (value_wrong at.now))
        (Remove (key_of key.now) (literal_in at.now)) result h.old h.new was_there.old was_there.new }
    ensures absent { ReachesSegment (or_else (key_wrong key.now) (value_wrong at.now)) result h.old.segment.value
        h.new.segment.value
        (λ s t. UnchangedWhere s t (LacksLiteral (key_of key.now) (literal_in at.now))) }
{
    let (which, gone, mut segment) = passed!(enter_with(h, key, at));
    let answer = segment_values::erase_pair(&mut segment, &which, &gone);
    truth(answer, was_there, h, segment)
}

/// Returns the pair with the least key of the map of a key.
#[unsafe(no_mangle)]
pub extern "C" fn zx_map_first(
    h: &mut Slot,
    key: &CKey,
    at: &mut CScalar,
    value: &mut CScalar,
) -> u32
    ensures { AsksPair (key_wrong key.now) (λ d. first_at d (key_of key.now)) result h.old h.new at.old at.new
        value.old value.new }
{
    let (which, segment) = passed!(enter(h, key));
    put(first(&segment, &which, at, value), h, segment)
}

/// Returns the pair with the least key of the map of a key in a segment.
fn first(segment: &Segment, key: &Key, at: &mut CScalar, value: &mut CScalar) -> u32
    ensures read { (d : Directory) → DenotesCurrent segment.now.cut.bytes d
        → TellsPair at.new value.new result (first_at d (key_seen key.now)) }
    ensures unchanged_on_error { 1 ≤ result → (at.new ≡ at.old) × (value.new ≡ value.old) }
{
    match map_of(segment, key) {
        Ok((object, keys, values)) => pair_out(
            first_pair(segment, object, keys, values),
            at,
            value,
        ),
        Err(why) => code_of(why),
    }
}

/// Returns the pair with the least key above `after` of the map of a key.
#[unsafe(no_mangle)]
pub extern "C" fn zx_map_next(
    h: &mut Slot,
    key: &CKey,
    after: &CScalar,
    at: &mut CScalar,
    value: &mut CScalar,
) -> u32
    ensures { AsksPair (or_else (key_wrong key.now) (value_wrong after.now))
        (λ d. next_at d (key_of key.now) (literal_in after.now)) result h.old h.new at.old at.new value.old value.new }
{
    let (Some(handle), Some(number)) = (key.as_handle(), after.as_i64()) else {
        return next_any(h, key, after, at, value);
    };
    let (segment, object) = numbers_or!(h, handle, next_any(h, key, after, at, value));
    put(
        next_number(&segment, handle, object, number, at, value),
        h,
        segment,
    )
}

/// Returns the pair with the least key above `after` of the map of a key, for any form of key and any value.
#[inline(never)]
fn next_any(h: &mut Slot, key: &CKey, after: &CScalar, at: &mut CScalar, value: &mut CScalar) -> u32
    ensures { AsksPair (or_else (key_wrong key.now) (value_wrong after.now))
        (λ d. next_at d (key_of key.now) (literal_in after.now)) result h.old h.new at.old at.new value.old value.new }
{
    let (which, below, segment) = passed!(enter_with(h, key, after));
    put(next(&segment, &which, below, at, value), h, segment)
}

/// Returns the pair with the least key above a number of the map from `i64` to `i64` of a handle.
#[inline(always)]
fn next_number(
    segment: &Segment,
    _handle: Handle,
    object: Object,
    after: i64,
    at: &mut CScalar,
    value: &mut CScalar,
) -> u32
    requires location { IsLocated segment.now (ByHandle _handle) object }
    requires kind { object.kind ≡ MapOf I64 I64 }
    ensures read { (d : Directory) → DenotesCurrent segment.now.cut.bytes d
        → TellsPair at.new value.new result (next_at d (ByHandle _handle) (Integer after)) }
    ensures unchanged_on_error { 1 ≤ result → (at.new ≡ at.old) × (value.new ≡ value.old) }
{
    holds_value(after);
    let pair = Map::<i64, i64>::at(segment, object).next_after(after);
    numbers_out(pair, at, value)
}

/// Writes the numbers to the outputs and returns done; returns the code of no pair if there are none.
#[inline(always)]
fn numbers_out(pair: Option<(i64, i64)>, at: &mut CScalar, value: &mut CScalar) -> u32
    ensures read { TellsPair at.new value.new result (Ok (option_map (item_of_kinds I64 I64) pair)) }
    ensures unchanged_on_error { 1 ≤ result → (at.new ≡ at.old) × (value.new ≡ value.old) }
{
    match pair {
        Some((its_key, its_value)) => {
            *at = CScalar::of(ScalarValue::I64(its_key));
            *value = CScalar::of(ScalarValue::I64(its_value));
            DONE
        }
        None => ABSENT,
    }
}

/// Returns the pair with the least key above `after` of the map of a key in a segment.
fn next(
    segment: &Segment,
    key: &Key,
    after: ScalarValue,
    at: &mut CScalar,
    value: &mut CScalar,
) -> u32
    ensures read { (d : Directory) → DenotesCurrent segment.now.cut.bytes d
        → TellsPair at.new value.new result (next_at d (key_seen key.now) (literal_seen after)) }
    ensures unchanged_on_error { 1 ≤ result → (at.new ≡ at.old) × (value.new ≡ value.old) }
{
    match map_of(segment, key) {
        Ok((object, keys, values)) => match after.value_of(keys) {
            Ok(below) => pair_out(next_pair(segment, object, below, values), at, value),
            Err(why) => code_of(why),
        },
        Err(why) => code_of(why),
    }
}

/// Writes the pair to the outputs and returns done; returns the code of no pair if there is none.
fn pair_out(pair: Option<(ScalarValue, ScalarValue)>, at: &mut CScalar, value: &mut CScalar) -> u32
    ensures read { TellsPairOf at.new value.new result pair }
    ensures unchanged_on_error { 1 ≤ result → (at.new ≡ at.old) × (value.new ≡ value.old) }
{
    match pair {
        Some((its_key, its_value)) => {
            *at = CScalar::of(its_key);
            *value = CScalar::of(its_value);
            DONE
        }
        None => ABSENT,
    }
}
