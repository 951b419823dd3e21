//! Calls that change the object of a key, and answer a code alone.
ghost use Rattle.segment_c.specs.{Changing.ChangesObject, Changing.LeavesHandle, Codes.answer_for};
ghost use Rattle.segment_c.specs.{Calls.PerformsCall, Marked.RaisesMoves, Passed.key_of, Passed.key_wrong};
ghost use Rattle.segment_manager.specs.{Answers.Done};

use crate::calls::{enter, passed};
use crate::codes::done;
use crate::keys::CKey;
use crate::slot::Slot;

/// What is changed of an object.
#[derive(Clone, Copy)]
pub enum ObjectChange<'a> {
    Erase(u64),
    PopText,
    Trim,
    Clear,
    AssignText(&'a [u8]),
    Append(&'a [u8]),
    SetText(u64, &'a [u8]),
    PushText(&'a [u8]),
    InsertText(u64, &'a [u8]),
    AssignTexts(&'a [&'a [u8]]),
}

/// Changes the object of a key.
pub fn make_change(h: &mut Slot, key: &CKey, what: ObjectChange<'_>) -> u32
    ensures call { PerformsCall (key_wrong key.now) result h.old.segment.value h.new.segment.value (λ s t.
        ChangesObject what.entry (key_of key.now) s t (answer_for result Done)) }
    ensures unchanged_on_error { LeavesHandle what.entry result h.old.segment.value h.new.segment.value }
    ensures marks { RaisesMoves result h.old.marks h.new.marks }
{
    let (which, mut segment) = passed!(enter(h, key));
    let answer = match what {
        ObjectChange::Erase(index) => segment_values::erase(&mut segment, &which, index),
        ObjectChange::PopText => segment.texts_pop(&which),
        ObjectChange::Trim => segment.shrink(&which),
        ObjectChange::Clear => segment.clear(&which),
        ObjectChange::AssignText(text) => segment.string_assign(&which, text),
        ObjectChange::Append(text) => segment.string_append(&which, text),
        ObjectChange::SetText(index, text) => segment.texts_set(&which, index, text),
        ObjectChange::PushText(text) => segment.texts_push(&which, text),
        ObjectChange::InsertText(index, text) => segment.texts_insert(&which, index, text),
        ObjectChange::AssignTexts(texts) => segment.texts_assign(&which, texts),
    };
    done(answer, h, segment)
}
