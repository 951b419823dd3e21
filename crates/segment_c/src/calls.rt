//! How a call begins: what C passes is read, and the segment is taken out of its handle.
ghost use Rattle.std.specs.declared.option.Option.TheVariants.{None, Some};
ghost use Rattle.std.specs.Prelude.{◌≡◌, ◌≢◌, MatchResult};
ghost use Rattle.seg_types.specs.{Keys.index_key_seen, Keys.key_seen, Keys.new_key_seen, Written.literal_seen};
ghost use Rattle.seg_types.specs.Names.{NoKey};
ghost use Rattle.segment_c.specs.Passed.{entry_of, entry_wrong, key_of, key_wrong, literal_in, new_of, new_wrong};
ghost use Rattle.segment_c.specs.Passed.{or_else, slice_wrong, scalar_kind_in, value_wrong};
ghost use Rattle.segment_c.specs.{Calls.RefusesCall, Handles.Enters};
ghost use Rattle.segment_manager.specs.objects.NewObjects.{IsOfKind};

use crate::keys::CKey;
use crate::slices::CScalars;
use crate::slot::{Slot, take};
use crate::values::CScalar;
use seg_types::{IndexKey, Key, Kind, NewKey, ScalarKind, ScalarValue};
use segment_manager::Segment;

/// What is passed, read; if it is refused, its code is the call's.
macro_rules! passed {
    ($read:expr) => {
        match $read {
            Ok(it) => it,
            Err(code) => return code,
        }
    };
}

/// Asks the segment of a handle, which stays as it is, and writes the answer to an output.
macro_rules! ask {
    ($h:ident, $out:ident, $segment:ident => $answer:expr) => {{
        let $segment = passed!(crate::slot::take($h));
        *$out = $answer;
        crate::slot::put(crate::codes::DONE, $h, $segment)
    }};
}

pub(crate) use ask;
pub(crate) use passed;

/// Takes the segment out of its handle for a call on the object of a key. The handle of an object is noted, so that the
/// next call finds it at once.
#[inline(always)]
pub fn take_for(h: &mut Slot, key: &Key<'_>) -> Result<Box<Segment>, u32>
    ensures transfer { MatchResult result (λ segment. (h.old.segment.value ≡ Some segment.value)
        × (h.new.segment.value ≡ None)) (λ code.
        RefusesCall 0 code h.old.segment.value h.new.segment.value) }
    ensures marks { h.new.marks ≡ h.old.marks }
{
    let mut segment = take(h)?;
    if let Key::Handle(handle) = key {
        segment.remember(*handle);
    }
    Ok(segment)
}

/// Returns the key of an object that is there, and the segment.
#[inline(always)]
pub fn enter<'a>(h: &mut Slot, key: &CKey<'a>) -> Result<(Key<'a>, Box<Segment>), u32>
    ensures { Enters (key_wrong key.now) (λ it. (key_seen it.0 ≡ key_of key.now) × (key_seen it.0 ≢ NoKey))
        (λ it. it.1.value) result h.old h.new }
{
    let which = key.key()?;
    let segment = take_for(h, &which)?;
    Ok((which, segment))
}

/// Returns the key of an object that is there, the segment, and a value that is passed.
#[inline(always)]
pub fn enter_with<'a>(
    h: &mut Slot,
    key: &CKey<'a>,
    value: &CScalar,
) -> Result<(Key<'a>, ScalarValue, Box<Segment>), u32>
    ensures { Enters (or_else (key_wrong key.now) (value_wrong value.now)) (λ it. (key_seen it.0 ≡ key_of key.now)
        × (literal_in value.now ≡ literal_seen it.1)) (λ it. it.2.value) result h.old h.new }
{
    let which = key.key()?;
    let scalar = value.scalar()?;
    let segment = take_for(h, &which)?;
    Ok((which, scalar, segment))
}

/// Returns the key, the kind of a row of values, and the segment.
pub fn enter_slice<'a>(
    h: &mut Slot,
    key: &CKey<'a>,
    values: &CScalars,
) -> Result<(Key<'a>, ScalarKind, Box<Segment>), u32>
    ensures { Enters (or_else (key_wrong key.now) (slice_wrong values.now)) (λ it. (key_seen it.0 ≡ key_of key.now)
        × (it.1 ≡ scalar_kind_in values.now.kind)) (λ it. it.2.value) result h.old h.new }
{
    let which = key.key()?;
    let kind = values.scalar_kind()?;
    let segment = take_for(h, &which)?;
    Ok((which, kind, segment))
}

/// Returns the key under which a new object of a kind is made, and the segment.
pub fn enter_new<'a>(
    h: &mut Slot,
    key: &CKey<'a>,
    kind: Kind,
) -> Result<(NewKey<'a>, Box<Segment>), u32>
    ensures { Enters (new_wrong key.now kind) (λ it. (new_key_seen it.0 ≡ new_of key.now kind)
        × IsOfKind (new_key_seen it.0) kind) (λ it. it.1.value) result h.old h.new }
{
    let which = if key.how == 3 {
        NewKey::Anonymous
    } else {
        key.entry(kind)?.into_new_key()
    };
    Ok((which, take(h)?))
}

/// Returns the entry under which an object of a kind is found or made, and the segment.
pub fn enter_entry<'a>(
    h: &mut Slot,
    key: &CKey<'a>,
    kind: Kind,
) -> Result<(IndexKey<'a>, Box<Segment>), u32>
    ensures { Enters (entry_wrong key.now kind) (λ it. (index_key_seen it.0 ≡ entry_of key.now kind)
        × IsOfKind (index_key_seen it.0) kind) (λ it. it.1.value) result h.old h.new }
{
    let which = key.entry(kind)?;
    Ok((which, take(h)?))
}
