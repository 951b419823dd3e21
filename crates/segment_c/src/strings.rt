//! Strings, and vectors of strings.
ghost use Rattle.std.specs.Prelude.{◌∷◌, [], map};
ghost use Rattle.seg_types.specs.declared.kinds.Kind.TheVariants.{String as StringKind, Strings as StringsKind};
ghost use Rattle.seg_types.specs.Commands.{Append, Assign, Insert, Push, Quoted, Set};
ghost use Rattle.segment_c.specs.{Handles.DoesOfKind, Handles.MakesOfKind, Passed.key_of};

use crate::changes::{ObjectChange, make_change};
use crate::keys::CKey;
use crate::slot::Slot;

/// Replaces the bytes of the string.
#[unsafe(no_mangle)]
pub extern "C" fn zx_assign_string(h: &mut Slot, key: &CKey, text: &[u8]) -> u32
    ensures call { DoesOfKind key.now StringKind (Assign (key_of key.now) (Quoted text.now ∷ [])) result h.old h.new }
{
    make_change(h, key, ObjectChange::AssignText(text))
}

/// Puts bytes after those of the string of a key.
#[unsafe(no_mangle)]
pub extern "C" fn zx_append(h: &mut Slot, key: &CKey, text: &[u8]) -> u32
    ensures call { DoesOfKind key.now StringKind (Append (key_of key.now) text.now) result h.old h.new }
{
    make_change(h, key, ObjectChange::Append(text))
}

/// Makes a text the one at `index` in the vector of strings of a key.
#[unsafe(no_mangle)]
pub extern "C" fn zx_set_text(h: &mut Slot, key: &CKey, index: u64, text: &[u8]) -> u32
    ensures call { DoesOfKind key.now StringsKind (Set (key_of key.now) index (Quoted text.now)) result h.old h.new }
{
    make_change(h, key, ObjectChange::SetText(index, text))
}

/// Puts a text after the last one of the vector of strings of a key.
#[unsafe(no_mangle)]
pub extern "C" fn zx_push_text(h: &mut Slot, key: &CKey, text: &[u8]) -> u32
    ensures call { MakesOfKind key.now StringsKind (Push (key_of key.now) (Quoted text.now)) result h.old h.new }
{
    make_change(h, key, ObjectChange::PushText(text))
}

/// Puts a text where `index` others stand before it in the vector of strings of a key.
#[unsafe(no_mangle)]
pub extern "C" fn zx_insert_text(h: &mut Slot, key: &CKey, index: u64, text: &[u8]) -> u32
    ensures call { MakesOfKind key.now StringsKind (Insert (key_of key.now) index (Quoted text.now)) result h.old
        h.new }
{
    make_change(h, key, ObjectChange::InsertText(index, text))
}

/// Makes texts those of the vector of strings of a key.
#[unsafe(no_mangle)]
pub extern "C" fn zx_assign_texts(h: &mut Slot, key: &CKey, texts: &[&[u8]]) -> u32
    ensures call { MakesOfKind key.now StringsKind
        (Assign (key_of key.now) (map Quoted (map (λ text. text.now) texts.now))) result h.old h.new }
{
    make_change(h, key, ObjectChange::AssignTexts(texts))
}
