//! Makes a map of an image in a segment of its own.
ghost use Rattle.std.specs.Prelude.{◌≡◌, OnErr};
ghost use Rattle.std.specs.List.{AllByRecursion};
ghost use Rattle.seg_types.specs.Commands.{Put, literal_of};
ghost use Rattle.seg_types.specs.declared.kinds.Kind.TheVariants.{Map as MapOf};
ghost use Rattle.seg_types.specs.Keys.{key_seen, new_key_seen};
ghost use Rattle.seg_types.specs.{Values.kind_of_scalar, Written.literal_seen};
ghost use Rattle.segment_manager.specs.{State.TakesStepOfKind, State.truth_answer, objects.NewObjects.IsOfKind};
ghost use Rattle.segment_salvage.specs.Pairs.{IsPairOfImage};
ghost use Rattle.segment_salvage.specs.Standing.{Salvages};
ghost use Rattle.segment_salvage.specs.Steps.{IsHead};
ghost use Rattle.segment_salvage.specs.Work.{ReadsValues};

use crate::allowance::Allowance;
use crate::heads::Head;
use crate::losses::{LossCause, Unbuilt};
use crate::nodes::{Pair, pairs_at};
use seg_types::{Handle, Key, Refusal, Scalar, ScalarKind, ScalarValue, by_value};
use segment_manager::Segment;
use std::alloc::Global;

/// Makes a map with its pairs.
#[tactic(auto, using(crate::proofs::Steps::same_salvages, crate::proofs::Steps::then_salvages))]
pub(crate) fn rebuild_map(
    alloc: Global,
    image: &[u8],
    _at: u64,
    head: Head<'_>,
    keys: ScalarKind,
    values: ScalarKind,
    segment: &mut Segment,
    allowance: &mut Allowance,
) -> Result<(), Unbuilt>
    requires head { IsHead image.now _at (MapOf keys values) (new_key_seen head.key) head.value }
    requires key { IsOfKind (new_key_seen head.key) (MapOf keys values) }
    ensures effect { Salvages image.now segment.old segment.new }
    ensures steps_upper { ReadsValues allowance.old allowance.new }
{
    if head.count != 1 {
        return Err(Unbuilt::Lost(LossCause::BadHead));
    }
    let Some(pairs) = pairs_at(alloc, image, head.value, keys, values, allowance)? else {
        return Err(Unbuilt::Lost(LossCause::BadValue));
    };
    let handle = segment.construct_map_of(&head.key, keys, values)?;
    put_or_destroy(image, segment, handle, keys, values, &pairs)
}

/// Puts pairs into a map, or destroys it.
#[tactic(auto, using(crate::proofs::Steps::same_salvages, crate::proofs::Steps::then_salvages))]
fn put_or_destroy(
    image: &[u8],
    segment: &mut Segment,
    handle: Handle,
    keys: ScalarKind,
    values: ScalarKind,
    pairs: &[Pair],
) -> Result<(), Unbuilt>
    requires contents { AllByRecursion (IsPairOfImage image.now keys values) pairs.now }
    ensures { Salvages image.now segment.old segment.new }
{
    match put_pairs(image, segment, handle, keys, values, pairs) {
        Ok(()) => Ok(()),
        Err(cause) => {
            let _ = segment.destroy_ptr(handle);
            Err(Unbuilt::Lost(cause))
        }
    }
}

/// Puts pairs into a map, which has none of their keys.
#[tactic(auto, using(crate::proofs::Steps::same_salvages, crate::proofs::Steps::then_salvages))]
fn put_pairs(
    image: &[u8],
    segment: &mut Segment,
    handle: Handle,
    keys: ScalarKind,
    values: ScalarKind,
    pairs: &[Pair],
) -> Result<(), LossCause>
    requires contents { AllByRecursion (IsPairOfImage image.now keys values) pairs.now }
    ensures { Salvages image.now segment.old segment.new }
{
    'pairs: for index in 0..pairs.len() {
        put_pair(image, segment, handle, keys, values, pairs[index])?;
    }
    Ok(())
}

/// Puts a pair into a map, which has not its key.
#[tactic(auto, using(crate::proofs::Steps::same_salvages, crate::proofs::Steps::then_salvages))]
fn put_pair(
    _image: &[u8],
    segment: &mut Segment,
    handle: Handle,
    _keys: ScalarKind,
    _values: ScalarKind,
    pair: Pair,
) -> Result<(), LossCause>
    requires { IsPairOfImage _image.now _keys _values pair }
    ensures { Salvages _image.now segment.old segment.new }
{
    segment.remember(handle);
    match put_scalars(segment, &Key::Handle(handle), pair.key, pair.value) {
        Ok(true) => Ok(()),
        Ok(false) => Err(LossCause::BadValue),
        Err(_) => Err(LossCause::NoSpace),
    }
}

/// Sets the value of a map key in the map of a key, a map of the kinds of both, and returns true if the map key is new.
fn put_scalars(
    segment: &mut Segment,
    key: &Key,
    at: ScalarValue,
    value: ScalarValue,
) -> Result<bool, Refusal>
    ensures step { TakesStepOfKind segment.old segment.new (key_seen key.now)
        (MapOf (kind_of_scalar at) (kind_of_scalar value))
        (Put (key_seen key.now) (literal_seen at) (literal_seen value)) (truth_answer result) }
    ensures refused { OnErr result (segment.new ≡ segment.old) }
{
    by_value!(at, at => put_by_key(segment, key, at, value))
}

/// Sets the value of a map key, for map keys of a type, and returns true if the map key is new.
fn put_by_key<K: Scalar>(
    segment: &mut Segment,
    key: &Key,
    at: K,
    value: ScalarValue,
) -> Result<bool, Refusal>
    ensures step { TakesStepOfKind segment.old segment.new (key_seen key.now) (MapOf K.kind (kind_of_scalar value))
        (Put (key_seen key.now) (literal_of K.kind (K.whole at)) (literal_seen value)) (truth_answer result) }
    ensures refused { OnErr result (segment.new ≡ segment.old) }
{
    by_value!(value, value => segment.map_put(key, at, value))
}
