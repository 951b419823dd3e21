//! The command `pop`: it writes the last element of a vector, and removes it.
ghost use Rattle.std.specs.Prelude.{◌≡◌, ◌-◌, ◌^◌, ◌<◌, OnErr, false};
ghost use Rattle.seg_types.specs.declared.kinds.Kind.TheVariants.{Strings as StringsKind, Vector as VectorOf};
ghost use Rattle.seg_types.specs.Commands.{Pop};
ghost use Rattle.seg_types.specs.Keys.{key_seen};
ghost use Rattle.seg_types.specs.Names.{ByHandle};
ghost use Rattle.segment_manager.specs.objects.BoundObjects.{IsBound};
ghost use Rattle.segment_manager.specs.State.{TakesStepOfKind, DenotesCurrent, scalar_answer};
ghost use Rattle.segment_manager.specs.Step.{is_read_only, step};
ghost use Rattle.segment_scripts.specs.Changes.{Executes};
ghost use Rattle.segment_scripts.specs.Refusing.{AnswersFor};

use crate::answered::Answered;
use crate::printing::{put_answer, put_refusal_line};
use crate::replies::element;
use crate::showing::put_text_at;
use raw_region::{DeviceFault, Sink};
use seg_types::{Key, Kind, Refusal, ScalarKind, ScalarValue, by_kind};
use segment_manager::{Object, Segment, StringsMut, VectorMut};
use segment_values::{count_of, object_to_change};

/// Removes the last element of a vector and writes it, or writes the refusal: `ReadOnly` if the segment is open for
/// reading. Otherwise `NotFound` if no object has the key, `WrongKind` if it is no vector, `OutOfRange` if it is empty.
/// After a fault the element is removed, and a proper prefix of it is written.
#[inline(never)]
pub fn pop<W: Sink>(segment: &mut Segment, key: &Key, out: &mut W) -> Result<Answered, DeviceFault>
    requires { (W.history out.old).failures < 2 ^ 64 - 1 }
    ensures execution { Executes segment.old segment.new (Pop (key_seen key.now)) }
    ensures outcome { AnswersFor (W.history out.old) (W.history out.new) result (DenotesCurrent segment.old.cut.bytes)
        (λ d. (step segment.old.mode d (Pop (key_seen key.now))).0) }
{
    match object_to_change(segment, key) {
        Err(why) => put_refusal_line(out, why),
        Ok(object) => match object.kind {
            Kind::Vector(kind) => {
                let answer = element(pop_element(segment, object, kind));
                put_answer(segment, answer, out)
            }
            Kind::Strings => pop_text(segment, object, out),
            _ => put_refusal_line(out, Refusal::WrongKind),
        },
    }
}

/// Writes the last text of a vector of strings directly from the segment, and then removes it, even if the write
/// failed.
fn pop_text<W: Sink>(
    segment: &mut Segment,
    object: Object,
    out: &mut W,
) -> Result<Answered, DeviceFault>
    requires object { IsBound StringsKind object segment.old }
    requires writing { is_read_only segment.old.mode ≡ false }
    requires writer { (W.history out.old).failures < 2 ^ 64 - 1 }
    ensures execution { Executes segment.old segment.new (Pop (ByHandle object.handle)) }
    ensures outcome { AnswersFor (W.history out.old) (W.history out.new) result (DenotesCurrent segment.old.cut.bytes)
        (λ d. (step segment.old.mode d (Pop (ByHandle object.handle))).0) }
{
    let last = count_of(segment, object).saturating_sub(1);
    let written = put_text_at(segment, object, last, out);
    // why there is none was written
    let _ = StringsMut::at(segment, object).pop();
    written
}

/// Takes the last element out of the vector of a key, a vector of scalars of a kind.
fn pop_element(
    segment: &mut Segment,
    object: Object,
    kind: ScalarKind,
) -> Result<ScalarValue, Refusal>
    requires object { IsBound (VectorOf kind) object segment.old }
    requires writing { is_read_only segment.old.mode ≡ false }
    ensures step { TakesStepOfKind segment.old segment.new (ByHandle object.handle) (VectorOf kind)
        (Pop (ByHandle object.handle)) (scalar_answer result) }
    ensures refused { OnErr result (segment.new ≡ segment.old) }
{
    macro_rules! pop {
        ($type:ty, $kind:ident) => {
            VectorMut::<$type>::at(segment, object)
                .pop()
                .map(ScalarValue::$kind)
        };
    }
    by_kind!(kind, pop)
}
