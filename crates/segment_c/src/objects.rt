//! Objects made, found and destroyed.
ghost use Rattle.std.specs.Prelude.{◌≡◌, ◌≤◌, MatchResult, Some, map, replicate, ℕ};
ghost use Rattle.seg_types.specs.declared.kinds.Kind.TheVariants.{Map as MapOf, Scalar as ScalarOf};
ghost use Rattle.seg_types.specs.declared.kinds.Kind.TheVariants.{String as StringKind, Strings as StringsKind};
ghost use Rattle.seg_types.specs.Commands.{Bytes, Find, NoPairs, Numbers, Strings};
ghost use Rattle.seg_types.specs.{Kinds.scalar_of_code, Values.kind_of_scalar, Values.value_of_scalar};
ghost use Rattle.segment_c.specs.Passed.{count_wrong, entry_wrong, key_of, key_wrong, kind_in, kind_wrong, new_wrong};
ghost use Rattle.segment_c.specs.Passed.{object_kind_in, or_else, scalar_in, scalar_kind_in, scalar_kind_wrong};
ghost use Rattle.segment_c.specs.{Calls.ReachesSegment, Codes.answer_for, Passed.value_wrong, Passed.whole_in};
ghost use Rattle.segment_c.specs.{Destroying.destroy_command, Handles.AsksHandle, Handles.StepsSegment};
ghost use Rattle.segment_c.specs.Making.{TellsMade, TellsFoundOrMade};
ghost use Rattle.segment_manager.specs.State.{AnswersQuery};
ghost use Rattle.segment_manager.specs.{Answers.Found, Answers.Boolean, Keeping.UnchangedWhere, Keeping.LacksKey};

use crate::calls::{enter, enter_entry, enter_new, passed};
use crate::codes::{BAD_COUNT, BAD_KIND, found, found_or_absent, made, truth};
use crate::keys::CKey;
use crate::slot::{Slot, take};
use crate::values::CScalar;
use seg_types::{IndexKey, Key, Kind, MAX_ARRAY_LEN, ScalarKind, ScalarValue};

/// The most scalars of an array.
pub(crate) const MOST: u32 = MAX_ARRAY_LEN as u32;

/// Returns the value, or the code of its error or of a wrong `count`.
fn scalars(value: &CScalar, count: u32) -> Result<ScalarValue, u32>
    ensures { MatchResult result (λ new. (scalar_in value.now ≡ Some (kind_of_scalar new, value_of_scalar new))
        × (1 ≤ count) × (count ≤ 1048576))
        (λ code. (1 ≤ code) × ((next : ℕ)
        → code ≡ or_else (value_wrong value.now) (or_else (count_wrong count) next))) }
{
    let new = value.scalar()?;
    if count < 1 || count > MOST {
        return Err(BAD_COUNT);
    }
    Ok(new)
}

/// Returns the kinds of a map's keys and values.
fn map_kinds(keys: u32, values: u32) -> Result<(ScalarKind, ScalarKind), u32>
    ensures { MatchResult result (λ kinds. (scalar_of_code keys ≡ Some kinds.0)
        × (scalar_of_code values ≡ Some kinds.1))
        (λ code. (1 ≤ code) × ((next : ℕ)
        → code ≡ or_else (scalar_kind_wrong keys) (or_else (scalar_kind_wrong values) next))) }
{
    match (ScalarKind::from_code(keys), ScalarKind::from_code(values)) {
        (Some(of_keys), Some(of_values)) => Ok((of_keys, of_values)),
        _ => Err(BAD_KIND),
    }
}

/// Makes an object of `count` scalars, each with the value.
#[unsafe(no_mangle)]
pub extern "C" fn zx_construct(
    h: &mut Slot,
    key: &CKey,
    count: u32,
    value: &CScalar,
    handle: &mut u64,
) -> u32
    ensures { TellsMade (or_else (value_wrong value.now)
        (or_else (count_wrong count) (new_wrong key.now (ScalarOf (kind_in value.now)))))
        key.now (ScalarOf (kind_in value.now)) (Numbers (kind_in value.now) (replicate count (whole_in value.now)))
        result h.old h.new handle.old handle.new }
{
    let new = passed!(scalars(value, count));
    let (which, mut segment) = passed!(enter_new(h, key, Kind::Scalar(new.kind())));
    let answer = segment.construct_value(&which, count, new);
    made(answer, handle, h, segment)
}

/// Finds the scalars of the key. If no object has the key, makes an object of `count` scalars, each with the value.
#[unsafe(no_mangle)]
pub extern "C" fn zx_find_or_construct(
    h: &mut Slot,
    key: &CKey,
    count: u32,
    value: &CScalar,
    handle: &mut u64,
    count_found: &mut u32,
) -> u32
    ensures { TellsFoundOrMade (or_else (value_wrong value.now)
        (or_else (count_wrong count) (entry_wrong key.now (ScalarOf (kind_in value.now)))))
        key.now (ScalarOf (kind_in value.now)) (Numbers (kind_in value.now) (replicate count (whole_in value.now)))
        result h.old h.new handle.old handle.new count_found.old count_found.new }
{
    let new = passed!(scalars(value, count));
    let (which, mut segment) = passed!(enter_entry(h, key, Kind::Scalar(new.kind())));
    let answer = segment.find_or_construct_value(&which, count, new);
    found(answer, handle, count_found, h, segment)
}

/// Makes a string.
#[unsafe(no_mangle)]
pub extern "C" fn zx_construct_string(
    h: &mut Slot,
    key: &CKey,
    text: &[u8],
    handle: &mut u64,
) -> u32
    ensures { TellsMade (new_wrong key.now StringKind) key.now StringKind (Bytes text.now) result h.old h.new
        handle.old handle.new }
{
    let (which, mut segment) = passed!(enter_new(h, key, Kind::String));
    made(segment.construct_string(&which, text), handle, h, segment)
}

/// Finds the string of the key. If no object has the key, makes a string of these bytes.
#[unsafe(no_mangle)]
pub extern "C" fn zx_find_or_construct_string(
    h: &mut Slot,
    key: &CKey,
    text: &[u8],
    handle: &mut u64,
    count_found: &mut u32,
) -> u32
    ensures { TellsFoundOrMade (entry_wrong key.now StringKind) key.now StringKind (Bytes text.now) result h.old h.new
        handle.old handle.new count_found.old count_found.new }
{
    let (which, mut segment) = passed!(enter_entry(h, key, Kind::String));
    let answer = segment.find_or_construct_string(&which, text);
    found(answer, handle, count_found, h, segment)
}

/// Makes a vector of strings.
#[unsafe(no_mangle)]
pub extern "C" fn zx_construct_strings(
    h: &mut Slot,
    key: &CKey,
    texts: &[&[u8]],
    handle: &mut u64,
) -> u32
    ensures { TellsMade (new_wrong key.now StringsKind) key.now StringsKind
        (Strings (map (λ text. text.now) texts.now)) result h.old h.new handle.old handle.new }
{
    let (which, mut segment) = passed!(enter_new(h, key, Kind::Strings));
    made(segment.construct_texts(&which, texts), handle, h, segment)
}

/// Finds the vector of strings of the key. If no object has the key, makes a vector of these strings.
#[unsafe(no_mangle)]
pub extern "C" fn zx_find_or_construct_strings(
    h: &mut Slot,
    key: &CKey,
    texts: &[&[u8]],
    handle: &mut u64,
    count_found: &mut u32,
) -> u32
    ensures { TellsFoundOrMade (entry_wrong key.now StringsKind) key.now StringsKind
        (Strings (map (λ text. text.now) texts.now)) result h.old h.new handle.old handle.new count_found.old
        count_found.new }
{
    let (which, mut segment) = passed!(enter_entry(h, key, Kind::Strings));
    let answer = segment.find_or_construct_texts(&which, texts);
    found(answer, handle, count_found, h, segment)
}

/// Makes an empty map from keys of one kind to values of another.
#[unsafe(no_mangle)]
pub extern "C" fn zx_construct_map(
    h: &mut Slot,
    key: &CKey,
    keys: u32,
    values: u32,
    handle: &mut u64,
) -> u32
    ensures { TellsMade (or_else (scalar_kind_wrong keys) (or_else (scalar_kind_wrong values)
        (new_wrong key.now (MapOf (scalar_kind_in keys) (scalar_kind_in values))))) key.now
        (MapOf (scalar_kind_in keys) (scalar_kind_in values)) (NoPairs (scalar_kind_in keys) (scalar_kind_in values))
        result h.old h.new handle.old handle.new }
{
    let (of_keys, of_values) = passed!(map_kinds(keys, values));
    let (which, mut segment) = passed!(enter_new(h, key, Kind::Map(of_keys, of_values)));
    let answer = segment.construct_map_of(&which, of_keys, of_values);
    made(answer, handle, h, segment)
}

/// Finds the map of the key. If no object has the key, makes an empty map.
#[unsafe(no_mangle)]
pub extern "C" fn zx_find_or_construct_map(
    h: &mut Slot,
    key: &CKey,
    keys: u32,
    values: u32,
    handle: &mut u64,
    count_found: &mut u32,
) -> u32
    ensures { TellsFoundOrMade (or_else (scalar_kind_wrong keys) (or_else (scalar_kind_wrong values)
        (entry_wrong key.now (MapOf (scalar_kind_in keys) (scalar_kind_in values))))) key.now
        (MapOf (scalar_kind_in keys) (scalar_kind_in values)) (NoPairs (scalar_kind_in keys) (scalar_kind_in values))
        result h.old h.new handle.old handle.new count_found.old count_found.new }
{
    let (of_keys, of_values) = passed!(map_kinds(keys, values));
    let (which, mut segment) = passed!(enter_entry(h, key, Kind::Map(of_keys, of_values)));
    let answer = segment.find_or_construct_map_of(&which, of_keys, of_values);
    found(answer, handle, count_found, h, segment)
}

/// Finds the object of the key, which must have this kind.
#[unsafe(no_mangle)]
#[tactic(auto, unfolding(crate::specs::Passed::kind_wrong, crate::specs::Passed::object_kind_in))]
pub extern "C" fn zx_find(
    h: &mut Slot,
    key: &CKey,
    kind: u32,
    handle: &mut u64,
    count: &mut u32,
) -> u32
    ensures call { AsksHandle (or_else (key_wrong key.now) (kind_wrong kind)) result h.old h.new
        (λ s t. AnswersQuery s (Find (key_of key.now) (object_kind_in kind))
        (answer_for result (Found handle.new count.new))) }
    ensures outputs_on_error { 1 ≤ result → (handle.new ≡ handle.old) × (count.new ≡ count.old) }
{
    let which = passed!(key.key());
    let of_kind = passed!(Kind::from_code(kind).ok_or(BAD_KIND));
    let segment = passed!(take(h));
    let answer = segment.find_kind(&which, of_kind);
    found_or_absent(answer, handle, count, h, segment)
}

/// Destroys the object of the key, and reports whether it existed. If no object has the key, nothing changes; for a
/// handle this is the error `NotFound`.
#[unsafe(no_mangle)]
pub extern "C" fn zx_destroy(h: &mut Slot, key: &CKey, was_there: &mut bool) -> u32
    ensures call { StepsSegment Boolean (key_wrong key.now) (destroy_command (key_of key.now)) result h.old h.new
        was_there.old was_there.new }
    ensures absent { ReachesSegment (key_wrong key.now) result h.old.segment.value h.new.segment.value (λ s t.
        UnchangedWhere s t (LacksKey (key_of key.now))) }
{
    let (which, mut segment) = passed!(enter(h, key));
    let answer = match which {
        Key::Name(name) => segment.destroy(&IndexKey::Name(name)),
        Key::Unique(kind) => segment.destroy(&IndexKey::Unique(kind)),
        Key::Handle(handle) => segment.destroy_ptr(handle).and(Ok(true)),
        Key::Anonymous => unreachable!(),
    };
    truth(answer, was_there, h, segment)
}
