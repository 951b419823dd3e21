//! Puts, looks up and erases pairs of maps, with keys and values as callers write them, and reads pairs by rising map
//! keys.
ghost use Rattle.std.specs.Prelude.{◌≡◌, IfSome, Ok, OnErr, false, option_map};
ghost use Rattle.seg_types.specs.Commands.{Lookup, Put, Remove, literal_of};
ghost use Rattle.seg_types.specs.{declared.kinds.Kind.TheVariants.Map as MapOf, Keys.key_seen, Kinds.lowest};
ghost use Rattle.seg_types.specs.{Names.ByHandle, Values.kind_of_scalar, Values.value_of_scalar, Written.literal_seen};
ghost use Rattle.seg_map.specs.Places.{item_of};
ghost use Rattle.segment_manager.specs.containers.Maps.{any_value_answer, numbers_in, pair_above};
ghost use Rattle.segment_manager.specs.containers.Walks.{first_of, item_of_kinds, item_seen, pair_past, pairs_at};
ghost use Rattle.segment_manager.specs.{Keeping.ChangesValue, Keeping.LacksPair, Keeping.UnchangedWhere};
ghost use Rattle.segment_manager.specs.{Step.is_read_only, objects.BoundObjects.IsBound, State.TakesStepOfKind};
ghost use Rattle.segment_manager.specs.State.{AnswersQuery, AnswersQueryOfKind, AnswersWith, TakesStep, truth_answer};
ghost use Rattle.segment_values.specs.Absent.{LacksLiteral};

use crate::elements::object_to_change;
use seg_types::{
    Key, Kind, Refusal, Scalar, ScalarKind, ScalarValue, WrittenValue, by_kind, by_value, pair_of,
};
use segment_manager::{Map, MapMut, Object, Segment, locate};

/// Sets the value of a map key in a map, and returns true if the map key is new.
///
/// # Errors
///
/// The first that applies, after those of [`object_to_change`]; nothing changes:
/// - `WrongKind` if the object is no map, or one of the two does not have the form of its kind;
/// - `OutOfRange` if one is outside the range of its kind;
/// - `NoSpace` if the map key is new and no gap is long enough for its block.
#[inline(never)]
pub fn put_pair<A: WrittenValue, B: WrittenValue>(
    segment: &mut Segment,
    key: &Key,
    at: &A,
    value: &B,
) -> Result<bool, Refusal>
    ensures step { TakesStep segment.old segment.new
        (Put (key_seen key.now) (A.literal at.now) (B.literal value.now)) (truth_answer result) }
    ensures refused { OnErr result (segment.new ≡ segment.old) }
{
    let object = object_to_change(segment, key)?;
    match object.kind {
        Kind::Map(keys, values) => {
            let (new_key, new_value) = pair_of(keys, values, at, value)?;
            insert_pair(segment, object, new_key, new_value)
        }
        _ => Err(Refusal::WrongKind),
    }
}

/// Sets the value of the map key `at` in a located map of the kinds of both, and returns true if `at` is new.
///
/// # Errors
///
/// `NoSpace` if `at` is new and no gap is long enough for its block. Nothing changes.
#[inline(always)]
pub fn insert_pair(
    segment: &mut Segment,
    object: Object,
    at: ScalarValue,
    value: ScalarValue,
) -> Result<bool, Refusal>
    requires object { IsBound (MapOf (kind_of_scalar at) (kind_of_scalar value)) object segment.old }
    requires writing { is_read_only segment.old.mode ≡ false }
    ensures step { TakesStepOfKind segment.old segment.new (ByHandle object.handle)
        (MapOf (kind_of_scalar at) (kind_of_scalar value))
        (Put (ByHandle object.handle) (literal_seen at) (literal_seen value)) (truth_answer result) }
    ensures refused { OnErr result (segment.new ≡ segment.old) }
    ensures overwrite { ChangesValue segment.old segment.new (ByHandle object.handle) (kind_of_scalar at)
        (value_of_scalar at) (kind_of_scalar value) }
{
    by_value!(at, at => insert_typed(segment, object, at, value))
}

/// Sets the value of the map key `at` in a located map of its type, as [`insert_pair`] does.
#[inline(always)]
fn insert_typed<K: Scalar>(
    segment: &mut Segment,
    object: Object,
    at: K,
    value: ScalarValue,
) -> Result<bool, Refusal>
    requires object { IsBound (MapOf K.kind (kind_of_scalar value)) object segment.old }
    requires writing { is_read_only segment.old.mode ≡ false }
    ensures step { TakesStepOfKind segment.old segment.new (ByHandle object.handle)
        (MapOf K.kind (kind_of_scalar value))
        (Put (ByHandle object.handle) (literal_of K.kind (K.whole at)) (literal_seen value)) (truth_answer result) }
    ensures refused { OnErr result (segment.new ≡ segment.old) }
    ensures overwrite { ChangesValue segment.old segment.new (ByHandle object.handle) K.kind (K.whole at)
        (kind_of_scalar value) }
{
    by_value!(value, value => MapMut::at(segment, object).insert(at, value))
}

/// Returns the value of a map key in a map, or `None` if the map lacks the map key.
///
/// # Errors
///
/// The first that applies:
/// - `NotFound` if no object has the key;
/// - `WrongKind` if the object is no map, or `at` does not have the form of its map keys;
/// - `OutOfRange` if `at` is outside their range.
#[inline(never)]
pub fn look_up<L: WrittenValue>(
    segment: &Segment,
    key: &Key,
    at: &L,
) -> Result<Option<ScalarValue>, Refusal>
    ensures { AnswersQuery segment.now (Lookup (key_seen key.now) (L.literal at.now)) (any_value_answer result) }
{
    let object = locate(segment, key)?;
    match object.kind {
        Kind::Map(keys, values) => {
            let wanted = at.value_of(keys)?;
            Ok(look_up_scalar(segment, object, wanted, values))
        }
        _ => Err(Refusal::WrongKind),
    }
}

/// Returns the value of the map key `at` in a map of its kind and the kind `values`, or `None` if the map lacks it.
#[inline(always)]
fn look_up_scalar(
    segment: &Segment,
    object: Object,
    at: ScalarValue,
    values: ScalarKind,
) -> Option<ScalarValue>
    requires { IsBound (MapOf (kind_of_scalar at) values) object segment.now }
    ensures { AnswersQueryOfKind segment.now (ByHandle object.handle) (MapOf (kind_of_scalar at) values)
        (Lookup (ByHandle object.handle) (literal_seen at)) (any_value_answer (Ok result)) }
{
    by_value!(at, at => get_typed(segment, object, at, values))
}

/// Returns the value of the map key `at` in a map of its type and the kind `values`, or `None` if the map lacks it.
#[inline(always)]
fn get_typed<K: Scalar>(
    segment: &Segment,
    object: Object,
    at: K,
    values: ScalarKind,
) -> Option<ScalarValue>
    requires { IsBound (MapOf K.kind values) object segment.now }
    ensures { AnswersQueryOfKind segment.now (ByHandle object.handle) (MapOf K.kind values)
        (Lookup (ByHandle object.handle) (literal_of K.kind (K.whole at))) (any_value_answer (Ok result)) }
{
    macro_rules! found {
        ($type:ty, $kind:ident) => {
            Map::<K, $type>::at(segment, object)
                .get(at)
                .map(ScalarValue::$kind)
        };
    }
    by_kind!(values, found)
}

/// Erases a map key from a map, and returns true if the map had it. If not, nothing changes.
///
/// # Errors
///
/// The first that applies, after those of [`object_to_change`]; nothing changes:
/// - `WrongKind` if the object is no map, or `at` does not have the form of its map keys;
/// - `OutOfRange` if `at` is outside their range.
#[inline(never)]
pub fn erase_pair<L: WrittenValue>(
    segment: &mut Segment,
    key: &Key,
    at: &L,
) -> Result<bool, Refusal>
    ensures step { TakesStep segment.old segment.new (Remove (key_seen key.now) (L.literal at.now))
        (truth_answer result) }
    ensures refused { OnErr result (segment.new ≡ segment.old) }
    ensures absent { UnchangedWhere segment.old segment.new (LacksLiteral (key_seen key.now) (L.literal at.now)) }
{
    let object = object_to_change(segment, key)?;
    match object.kind {
        Kind::Map(keys, values) => {
            let gone = at.value_of(keys)?;
            Ok(erase_scalar(segment, object, gone, values))
        }
        _ => Err(Refusal::WrongKind),
    }
}

/// Erases the map key `at` from a map of its kind and the kind `values`, and returns true if the map had it.
fn erase_scalar(segment: &mut Segment, object: Object, at: ScalarValue, values: ScalarKind) -> bool
    requires object { IsBound (MapOf (kind_of_scalar at) values) object segment.old }
    requires writing { is_read_only segment.old.mode ≡ false }
    ensures step { TakesStepOfKind segment.old segment.new (ByHandle object.handle) (MapOf (kind_of_scalar at) values)
        (Remove (ByHandle object.handle) (literal_seen at)) (truth_answer (Ok result)) }
    ensures absent { UnchangedWhere segment.old segment.new
        (LacksPair (ByHandle object.handle) (value_of_scalar at)) }
{
    by_value!(at, at => erase_typed(segment, object, at, values))
}

/// Erases the map key `at` from a map of its type and the kind `values`, and returns true if the map had it.
#[inline(always)]
fn erase_typed<K: Scalar>(segment: &mut Segment, object: Object, at: K, values: ScalarKind) -> bool
    requires object { IsBound (MapOf K.kind values) object segment.old }
    requires writing { is_read_only segment.old.mode ≡ false }
    ensures step { TakesStepOfKind segment.old segment.new (ByHandle object.handle) (MapOf K.kind values)
        (Remove (ByHandle object.handle) (literal_of K.kind (K.whole at))) (truth_answer (Ok result)) }
    ensures absent { UnchangedWhere segment.old segment.new (LacksPair (ByHandle object.handle) (K.whole at)) }
{
    macro_rules! erased {
        ($type:ty, $kind:ident) => {
            MapMut::<K, $type>::at(segment, object).erase(at)
        };
    }
    by_kind!(values, erased)
}

/// Returns the first pair of a located map, or `None` if the map is empty.
#[inline(always)]
pub fn first_pair(
    segment: &Segment,
    object: Object,
    keys: ScalarKind,
    values: ScalarKind,
) -> Option<(ScalarValue, ScalarValue)>
    requires { IsBound (MapOf keys values) object segment.now }
    ensures { AnswersWith segment.now (λ d. option_map (item_of_kinds keys values)
        (option_map item_of (first_of (pairs_at d (ByHandle object.handle))))) (option_map item_seen result) }
{
    pair_past(segment, object, least(keys), false, values)
}

/// Returns the next pair of a located map after the map key `after`, or `None` if there is none. A loop from
/// `first_pair` on reads all pairs by rising map keys; each call searches from the root of the tree.
#[inline(always)]
pub fn next_pair(
    segment: &Segment,
    object: Object,
    after: ScalarValue,
    values: ScalarKind,
) -> Option<(ScalarValue, ScalarValue)>
    requires { IsBound (MapOf (kind_of_scalar after) values) object segment.now }
    ensures { AnswersWith segment.now (λ d. option_map (item_of_kinds (kind_of_scalar after) values)
        (pair_above (value_of_scalar after) (pairs_at d (ByHandle object.handle)))) (option_map item_seen result) }
{
    pair_past(segment, object, after, true, values)
}

/// Returns the least value of a kind.
pub fn least(kind: ScalarKind) -> ScalarValue
    ensures kind { kind_of_scalar result ≡ kind }
    ensures value { value_of_scalar result ≡ lowest kind }
{
    macro_rules! least {
        (bool, Bool) => {
            ScalarValue::Bool(false)
        };
        ($type:ty, $kind:ident) => {
            ScalarValue::$kind(<$type>::MIN)
        };
    }
    by_kind!(kind, least)
}

/// Returns the map's first pair whose map key is above a bound, or not below it. It is inlined, as is the call for
/// types below, so the choice between the two costs no test where `above` is known.
#[inline(always)]
pub fn pair_past(
    segment: &Segment,
    object: Object,
    bound: ScalarValue,
    above: bool,
    values: ScalarKind,
) -> Option<(ScalarValue, ScalarValue)>
    requires { IsBound (MapOf (kind_of_scalar bound) values) object segment.now }
    ensures pair { AnswersWith segment.now (λ d. option_map (item_of_kinds (kind_of_scalar bound) values)
        (pair_past above (value_of_scalar bound) (pairs_at d (ByHandle object.handle)))) (option_map item_seen result) }
    ensures kind { IfSome result (λ (at, value). kind_of_scalar at ≡ kind_of_scalar bound) }
{
    macro_rules! read {
        ($type:ty, $kind:ident) => {
            match pair_of_values::<$type>(segment, object, bound, above) {
                None => None,
                Some((at, value)) => Some((at, ScalarValue::$kind(value))),
            }
        };
    }
    by_kind!(values, read)
}

/// Returns the map's first pair whose map key is above a bound, or not below it, for a map with values of a type.
#[inline(always)]
fn pair_of_values<V: Scalar>(
    segment: &Segment,
    object: Object,
    bound: ScalarValue,
    above: bool,
) -> Option<(ScalarValue, V)>
    requires { IsBound (MapOf (kind_of_scalar bound) V.kind) object segment.now }
    ensures pair { AnswersWith segment.now (λ d. option_map (item_of_kinds (kind_of_scalar bound) V.kind)
        (pair_past above (value_of_scalar bound) (pairs_at d (ByHandle object.handle))))
        (option_map (item_of_kinds (kind_of_scalar bound) V.kind) (numbers_in value_of_scalar V.whole result)) }
    ensures kind { IfSome result (λ (at, value). kind_of_scalar at ≡ kind_of_scalar bound) }
{
    by_value!(bound, bound => match typed_pair::<_, V>(segment, object, bound, above) {
        None => None,
        Some((at, value)) => Some((ScalarValue::from(at), value)),
    })
}

/// Returns the map's first pair whose map key is above a bound, or not below it, for a map of two types.
#[inline(always)]
fn typed_pair<K: Scalar, V: Scalar>(
    segment: &Segment,
    object: Object,
    bound: K,
    above: bool,
) -> Option<(K, V)>
    requires { IsBound (MapOf K.kind V.kind) object segment.now }
    ensures { AnswersWith segment.now (λ d. option_map (item_of_kinds K.kind V.kind)
        (pair_past above (K.whole bound) (pairs_at d (ByHandle object.handle))))
        (option_map (item_of_kinds K.kind V.kind) (numbers_in K.whole V.whole result)) }
{
    let map = Map::<K, V>::at(segment, object);
    if above {
        map.next_after(bound)
    } else {
        map.first_from(bound)
    }
}
