//! Vectors, strings and maps that a line changes: the kind of the object says which call it is.
ghost use Rattle.std.specs.Prelude.{◌≡◌, ◌≤◌, OnErr, false, length, map};
ghost use Rattle.seg_types.specs.declared.kinds.Kind.TheVariants.{String as StringKind, Strings as StringsKind};
ghost use Rattle.seg_types.specs.declared.kinds.Kind.TheVariants.{Vector as VectorOf};
ghost use Rattle.seg_types.specs.Commands.{Append, Assign, Quoted as AskedQuoted};
ghost use Rattle.seg_types.specs.Keys.{key_seen};
ghost use Rattle.seg_types.specs.Names.{ByHandle};
ghost use Rattle.segment_manager.specs.{Step.is_read_only, objects.BoundObjects.IsBound};
ghost use Rattle.segment_manager.specs.State.{TakesStep, TakesStepOfKind, UnchangedIfRefused, done_answer};
ghost use Rattle.segment_scripts.specs.Replies.{bytes_taken};

use crate::machine::ParseBuffers;
use crate::scalars::{ScalarBuffers, ValueBuffer, copy_literals, on_buffer, only_text};
use crate::text_buffers::{FEW, TextBuffer, literal_texts};
use seg_types::{Key, Kind, Refusal, Scalar, ScalarKind};
use segment_lang::{LineBuffer, Literals, Quoted};
use segment_manager::{Object, Segment, StringMut, StringsMut, VectorMut};
use segment_values::object_to_change;

/// Replaces the elements of a vector, or the bytes of a string by one text.
///
/// # Errors
///
/// `ReadOnly` if the segment is open for reading. Otherwise `NotFound` if no object has the key, `WrongKind` if the
/// object is neither or a value has another form than its elements, `OutOfRange` if a value is outside their range:
/// nothing changes. Otherwise `NoSpace` if its storage cannot grow or a text has no fit: the objects are as before.
#[inline(never)]
pub fn assign(
    segment: &mut Segment,
    key: &Key,
    values: Literals<'_>,
    lent: &mut ParseBuffers,
) -> Result<(), Refusal>
    requires { bytes_taken values ≤ 4097 }
    ensures step { TakesStep segment.old segment.new (Assign (key_seen key.now) values.entry) (done_answer result) }
    ensures refused { UnchangedIfRefused segment.old segment.new result }
{
    let object = object_to_change(segment, key)?;
    match object.kind {
        Kind::Vector(element) => assign_vector(segment, object, element, values, &mut lent.scalars),
        Kind::String => assign_string(segment, object, values, &mut lent.text),
        Kind::Strings => assign_texts(segment, object, values, &mut lent.texts),
        _ => Err(Refusal::WrongKind),
    }
}

/// Replaces the elements of a vector whose kind is known at run time.
fn assign_vector(
    segment: &mut Segment,
    object: Object,
    kind: ScalarKind,
    values: Literals<'_>,
    scalars: &mut ScalarBuffers,
) -> Result<(), Refusal>
    requires object { IsBound (VectorOf kind) object segment.old }
    requires writing { is_read_only segment.old.mode ≡ false }
    requires max_count { bytes_taken values ≤ 4097 }
    ensures step { TakesStep segment.old segment.new (Assign (ByHandle object.handle) values.entry)
        (done_answer result) }
    ensures refused { OnErr result (segment.new ≡ segment.old) }
{
    on_buffer!(kind, scalars, assign_buffer(segment, object, values))
}

/// Replaces the elements of a vector of this type.
fn assign_buffer<T: Scalar>(
    segment: &mut Segment,
    object: Object,
    values: Literals<'_>,
    buffer: &mut ValueBuffer<T>,
) -> Result<(), Refusal>
    requires object { IsBound (VectorOf T.kind) object segment.old }
    requires writing { is_read_only segment.old.mode ≡ false }
    requires max_count { bytes_taken values ≤ 4097 }
    ensures step { TakesStep segment.old segment.new (Assign (ByHandle object.handle) values.entry)
        (done_answer result) }
    ensures refused { OnErr result (segment.new ≡ segment.old) }
{
    copy_literals(values, buffer)?;
    VectorMut::<T>::at(segment, object).assign(buffer.as_slice())
}

/// Makes one text the bytes of a string.
fn assign_string(
    segment: &mut Segment,
    object: Object,
    values: Literals<'_>,
    scratch: &mut LineBuffer,
) -> Result<(), Refusal>
    requires object { IsBound StringKind object segment.old }
    requires writing { is_read_only segment.old.mode ≡ false }
    requires max_count { bytes_taken values ≤ 4097 }
    ensures step { TakesStep segment.old segment.new (Assign (ByHandle object.handle) values.entry)
        (done_answer result) }
    ensures refused { OnErr result (segment.new ≡ segment.old) }
{
    let text = only_text(values, scratch)?;
    StringMut::at(segment, object).assign(text)
}

/// Replaces the texts of a vector of strings.
#[inline(never)]
fn assign_texts(
    segment: &mut Segment,
    object: Object,
    values: Literals<'_>,
    buffer: &mut TextBuffer,
) -> Result<(), Refusal>
    requires object { IsBound StringsKind object segment.old }
    requires writing { is_read_only segment.old.mode ≡ false }
    requires max_count { bytes_taken values ≤ 4097 }
    ensures step { TakesStep segment.old segment.new (Assign (ByHandle object.handle) values.entry)
        (done_answer result) }
    ensures refused { UnchangedIfRefused segment.old segment.new result }
{
    literal_texts(values, buffer)?;
    if FEW < buffer.len() {
        return assign_many(segment, object, buffer);
    }
    StringsMut::at(segment, object).assign(buffer.few().as_slice())
}

/// Replaces the texts of a vector of strings by those of a row of any length.
#[inline(never)]
fn assign_many(segment: &mut Segment, object: Object, buffer: &TextBuffer) -> Result<(), Refusal>
    requires object { IsBound StringsKind object segment.old }
    requires writing { is_read_only segment.old.mode ≡ false }
    ensures step { TakesStepOfKind segment.old segment.new (ByHandle object.handle) StringsKind
        (Assign (ByHandle object.handle) (map AskedQuoted buffer.now)) (done_answer result) }
    ensures refused { UnchangedIfRefused segment.old segment.new result }
{
    StringsMut::at(segment, object).assign(buffer.all().as_slice())
}

/// Appends the bytes of a text to a string.
///
/// # Errors
///
/// The errors of the segment's call. Nothing changes.
#[inline(never)]
pub fn append(
    segment: &mut Segment,
    key: &Key,
    text: Quoted<'_>,
    scratch: &mut LineBuffer,
) -> Result<(), Refusal>
    requires { length text ≤ 4096 }
    ensures step { TakesStep segment.old segment.new (Append (key_seen key.now) text.entry) (done_answer result) }
    ensures refused { OnErr result (segment.new ≡ segment.old) }
{
    segment.string_append(key, text.bytes(scratch))
}
