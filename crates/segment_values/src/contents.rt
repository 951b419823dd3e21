//! Writes the contents of an object: its elements, one after another, in any layout.
ghost use Rattle.std.specs.Prelude.{◌≡◌, ◌-◌, ◌^◌, ◌<◌};
ghost use Rattle.raw_region.specs.Device.{Writes};
ghost use Rattle.seg_types.specs.{Names.ByHandle, Values.kind_of_scalar, Values.value_of_scalar};
ghost use Rattle.seg_types.specs.declared.kinds.{Kind.TheVariants.Map as MapOf, ScalarKind.ScalarKind as AnyScalarKind};
ghost use Rattle.segment_manager.specs.{Parts.parts_until, State.AnswersWith, State.DenotesCurrent};
ghost use Rattle.segment_manager.specs.objects.{BoundObjects.IsBound, Located.IsLocated};
ghost use Rattle.segment_values.specs.{Asked.pair_part, Writing.WritesFor};
ghost use Rattle.segment_values.specs.Layouts.{count_at, laid_at, part_at};

use crate::elements::get_element;
use crate::pairs::{least, pair_past};
use raw_region::{DeviceFault, Sink};
use seg_types::{Kind, ScalarKind, ScalarValue};
use segment_manager::unchecked::measure_object;
use segment_manager::{Object, Segment, StringRef, Strings};

/// The text of an element, by its index in the object, from 0 on, and its value.
pub trait Layout {
    ghost use Rattle.segment_values.specs.Layouts.{Spelling};

    // The texts of elements.
    ghost spelling: { Self → Spelling };

    /// Writes a scalar.
    fn put_scalar<W: Sink>(
        &self,
        index: u64,
        value: ScalarValue,
        out: &mut W,
    ) -> Result<(), DeviceFault>
        requires { (W.history out.old).failures < 2 ^ 64 - 1 }
        ensures { Writes (W.history out.old) (W.history out.new) result
            ((spelling self.now).scalar index (kind_of_scalar value) (value_of_scalar value)) };

    /// Writes a text.
    fn put_text<W: Sink>(&self, index: u64, text: &[u8], out: &mut W) -> Result<(), DeviceFault>
        requires { (W.history out.old).failures < 2 ^ 64 - 1 }
        ensures { Writes (W.history out.old) (W.history out.new) result ((spelling self.now).text index text.now) };

    /// Writes a key and its value.
    fn put_pair<W: Sink>(
        &self,
        index: u64,
        key: ScalarValue,
        value: ScalarValue,
        out: &mut W,
    ) -> Result<(), DeviceFault>
        requires { (W.history out.old).failures < 2 ^ 64 - 1 }
        ensures { Writes (W.history out.old) (W.history out.new) result
            ((spelling self.now).pair index (kind_of_scalar key) (kind_of_scalar value) (
              value_of_scalar key,
              value_of_scalar value,
            )) };
}

/// Returns the number of scalars, texts or pairs of an object. A string is one text.
pub fn count_of(segment: &Segment, object: Object) -> u64
    requires { IsLocated segment.now (ByHandle object.handle) object }
    ensures { AnswersWith segment.now (λ d. count_at d (ByHandle object.handle)) result }
{
    match object.kind {
        Kind::Scalar(_) => u64::from(object.count),
        Kind::String => 1,
        _ => match measure_object(segment, object) {
            Ok((len, _)) => len,
            Err(_) => 0,
        },
    }
}

/// Writes the contents of an object with `count` elements.
pub fn put_content<L: Layout, W: Sink>(
    layout: &L,
    segment: &Segment,
    object: Object,
    count: u64,
    out: &mut W,
) -> Result<(), DeviceFault>
    requires writer { (W.history out.old).failures < 2 ^ 64 - 1 }
    requires object { IsLocated segment.now (ByHandle object.handle) object }
    requires count { AnswersWith segment.now (λ d. count_at d (ByHandle object.handle)) count }
    ensures { WritesFor (W.history out.old) (W.history out.new) result (DenotesCurrent segment.now.cut.bytes) (λ d.
        laid_at (L.spelling layout.now) d (ByHandle object.handle)) }
{
    if let Kind::Map(keys, values) = object.kind {
        return put_pairs(layout, segment, object, keys, values, count, out);
    }
    'elements: for index in 0..count {
        put_element(layout, segment, object, index, out)?;
    }
    Ok(())
}

/// Writes the scalar or text at an index; writes nothing if there is none. A string is one text.
fn put_element<L: Layout, W: Sink>(
    layout: &L,
    segment: &Segment,
    object: Object,
    index: u64,
    out: &mut W,
) -> Result<(), DeviceFault>
    requires writer { (W.history out.old).failures < 2 ^ 64 - 1 }
    requires object { IsLocated segment.now (ByHandle object.handle) object }
    requires kind { (keys values : AnyScalarKind) → object.kind ≡ MapOf keys values → ⊥ }
    ensures { WritesFor (W.history out.old) (W.history out.new) result (DenotesCurrent segment.now.cut.bytes) (λ d.
        part_at (L.spelling layout.now) d (ByHandle object.handle) index) }
{
    match object.kind {
        Kind::String => layout.put_text(index, StringRef::at(segment, object).as_bytes(), out),
        Kind::Strings => match Strings::at(segment, object).get(index) {
            Ok(text) => layout.put_text(index, text, out),
            Err(_) => Ok(()),
        },
        _ => match get_element(segment, object, index) {
            Ok(value) => layout.put_scalar(index, value, out),
            Err(_) => Ok(()),
        },
    }
}

/// Writes `count` pairs of a map by rising keys.
fn put_pairs<L: Layout, W: Sink>(
    layout: &L,
    segment: &Segment,
    object: Object,
    keys: ScalarKind,
    values: ScalarKind,
    count: u64,
    out: &mut W,
) -> Result<(), DeviceFault>
    requires writer { (W.history out.old).failures < 2 ^ 64 - 1 }
    requires object { IsBound (MapOf keys values) object segment.now }
    ensures { WritesFor (W.history out.old) (W.history out.new) result (DenotesCurrent segment.now.cut.bytes) (λ d.
        parts_until (pair_part (L.spelling layout.now) keys values d (ByHandle object.handle)) count) }
{
    let mut bound = least(keys);
    let mut above = false;
    'pairs: for index in 0..count {
        if let Some((key, value)) = pair_past(segment, object, bound, above, values) {
            layout.put_pair(index, key, value, out)?;
            bound = key;
            above = true;
        }
    }
    Ok(())
}
