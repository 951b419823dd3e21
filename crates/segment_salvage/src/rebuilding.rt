//! Makes an object of an image in a segment of its own.
ghost use Rattle.std.specs.Prelude.{◌≡◌, IfSome, length};
ghost use Rattle.raw_region.specs.Memory.{part};
ghost use Rattle.seg_types.specs.declared.kinds.Kind.TheVariants.{Scalar as ScalarOf, Vector as VectorOf};
ghost use Rattle.seg_types.specs.declared.kinds.Kind.TheVariants.{String as StringOf, Strings as StringsOf};
ghost use Rattle.seg_types.specs.Keys.{new_key_seen};
ghost use Rattle.segment_manager.specs.objects.NewObjects.{IsOfKind};
ghost use Rattle.segment_salvage.specs.Standing.{Salvages};
ghost use Rattle.segment_salvage.specs.Steps.{IsHead};
ghost use Rattle.segment_salvage.specs.Work.{ReadsValues, ReadsBytes};

use crate::allowance::Allowance;
use crate::bytes::part;
use crate::heads::Head;
use crate::losses::{LossCause, Unbuilt};
use crate::map_rebuilding::rebuild_map;
use crate::scalars::scalars_in;
use crate::storage::stored_at;
use crate::texts::texts_at;
use crate::tiles::is_in_tile;
use seg_types::{Kind, MAX_ARRAY_LEN, Scalar, by_kind};
use segment_manager::Segment;
use segment_values::construct_array;
use std::alloc::Global;

/// The error of a value that is not right.
const BAD_VALUE: Unbuilt = Unbuilt::Lost(LossCause::BadValue);

/// Makes the object with this head, which stands at `_at` in the image.
///
/// # Errors
///
/// Its value is not right, an object has its key, or there is no space or no memory for it. Nothing is made then.
#[tactic(auto, using(crate::proofs::Steps::same_salvages, crate::proofs::Steps::then_salvages))]
pub(crate) fn rebuild(
    alloc: Global,
    image: &[u8],
    _at: u64,
    head: Head<'_>,
    segment: &mut Segment,
    allowance: &mut Allowance,
) -> Result<(), Unbuilt>
    requires head { IsHead image.now _at head.kind (new_key_seen head.key) head.value }
    requires key { IsOfKind (new_key_seen head.key) head.kind }
    ensures effect { Salvages image.now segment.old segment.new }
    ensures steps_upper { ReadsValues allowance.old allowance.new }
{
    macro_rules! array {
        ($type:ty, $kind:ident) => {
            rebuild_array::<$type>(alloc, image, _at, head, segment, allowance)
        };
    }
    macro_rules! vector {
        ($type:ty, $kind:ident) => {
            rebuild_vector::<$type>(alloc, image, _at, head, segment, allowance)
        };
    }
    match head.kind {
        Kind::Scalar(kind) => by_kind!(kind, array),
        Kind::Vector(kind) => by_kind!(kind, vector),
        Kind::String => rebuild_string(image, _at, head, segment, allowance),
        Kind::Strings => rebuild_texts(alloc, image, _at, head, segment, allowance),
        Kind::Map(keys, values) => {
            rebuild_map(alloc, image, _at, head, keys, values, segment, allowance)
        }
    }
}

/// Makes an array of scalars.
#[tactic(auto, using(crate::proofs::Steps::same_salvages, crate::proofs::Steps::then_salvages))]
fn rebuild_array<T: Scalar>(
    alloc: Global,
    image: &[u8],
    _at: u64,
    head: Head<'_>,
    segment: &mut Segment,
    allowance: &mut Allowance,
) -> Result<(), Unbuilt>
    requires head { IsHead image.now _at (ScalarOf T.kind) (new_key_seen head.key) head.value }
    requires key { IsOfKind (new_key_seen head.key) (ScalarOf T.kind) }
    ensures effect { Salvages image.now segment.old segment.new }
    ensures steps_upper { ReadsValues allowance.old allowance.new }
{
    let count = head.count;
    if count == 0 || count > MAX_ARRAY_LEN {
        return Err(Unbuilt::Lost(LossCause::BadHead));
    }
    let Some(bytes) = array_at(image, _at, head.value, T::SIZE * count, allowance) else {
        return Err(BAD_VALUE);
    };
    let Some(scalars) = scalars_in::<T>(alloc, bytes, count)? else {
        return Err(BAD_VALUE);
    };
    construct_array(segment, &head.key, &scalars)?;
    Ok(())
}

/// Returns the `len` bytes of an array at `value`, if the image has them, they are in the tile of the object at `at`,
/// and as many may still be read.
fn array_at<'a>(
    image: &'a [u8],
    at: u64,
    value: u64,
    len: u64,
    allowance: &mut Allowance,
) -> Option<&'a [u8]>
    ensures bytes { IfSome result (λ bytes. bytes.now ≡ part image.now value len) }
    ensures len { IfSome result (λ bytes. length bytes.now ≡ len) }
    ensures steps { IfSome result (λ bytes. ReadsBytes allowance.old allowance.new (length bytes.now)) }
    ensures steps_upper { ReadsValues allowance.old allowance.new }
{
    if !is_in_tile(image, at, value.checked_add(len)?) {
        return None;
    }
    allowance.take(len)?;
    part(image, value, len)
}

/// Makes a vector of scalars.
#[tactic(auto, using(crate::proofs::Steps::same_salvages, crate::proofs::Steps::then_salvages))]
fn rebuild_vector<T: Scalar>(
    alloc: Global,
    image: &[u8],
    _at: u64,
    head: Head<'_>,
    segment: &mut Segment,
    allowance: &mut Allowance,
) -> Result<(), Unbuilt>
    requires head { IsHead image.now _at (VectorOf T.kind) (new_key_seen head.key) head.value }
    requires key { IsOfKind (new_key_seen head.key) (VectorOf T.kind) }
    ensures effect { Salvages image.now segment.old segment.new }
    ensures steps_upper { ReadsValues allowance.old allowance.new }
{
    if head.count != 1 {
        return Err(Unbuilt::Lost(LossCause::BadHead));
    }
    let Some(stored) = stored_at(image, head.value, T::SIZE, allowance) else {
        return Err(BAD_VALUE);
    };
    let Some(scalars) = scalars_in::<T>(alloc, stored.bytes, stored.len)? else {
        return Err(BAD_VALUE);
    };
    segment.construct_vec(&head.key, &scalars)?;
    Ok(())
}

/// Makes a string.
#[tactic(auto, using(crate::proofs::Steps::same_salvages, crate::proofs::Steps::then_salvages))]
fn rebuild_string(
    image: &[u8],
    _at: u64,
    head: Head<'_>,
    segment: &mut Segment,
    allowance: &mut Allowance,
) -> Result<(), Unbuilt>
    requires head { IsHead image.now _at StringOf (new_key_seen head.key) head.value }
    requires key { IsOfKind (new_key_seen head.key) StringOf }
    ensures effect { Salvages image.now segment.old segment.new }
    ensures steps_upper { ReadsValues allowance.old allowance.new }
{
    if head.count != 1 {
        return Err(Unbuilt::Lost(LossCause::BadHead));
    }
    let Some(stored) = stored_at(image, head.value, 1, allowance) else {
        return Err(BAD_VALUE);
    };
    segment.construct_string(&head.key, stored.bytes)?;
    Ok(())
}

/// Makes a vector of strings.
#[tactic(auto, using(crate::proofs::Steps::same_salvages, crate::proofs::Steps::then_salvages))]
fn rebuild_texts(
    alloc: Global,
    image: &[u8],
    _at: u64,
    head: Head<'_>,
    segment: &mut Segment,
    allowance: &mut Allowance,
) -> Result<(), Unbuilt>
    requires head { IsHead image.now _at StringsOf (new_key_seen head.key) head.value }
    requires key { IsOfKind (new_key_seen head.key) StringsOf }
    ensures effect { Salvages image.now segment.old segment.new }
    ensures steps_upper { ReadsValues allowance.old allowance.new }
{
    if head.count != 1 {
        return Err(Unbuilt::Lost(LossCause::BadHead));
    }
    let Some(stored) = stored_at(image, head.value, 16, allowance) else {
        return Err(BAD_VALUE);
    };
    let Some(texts) = texts_at(alloc, image, stored.to, stored.len, allowance)? else {
        return Err(BAD_VALUE);
    };
    segment.construct_texts(&head.key, &texts)?;
    Ok(())
}
