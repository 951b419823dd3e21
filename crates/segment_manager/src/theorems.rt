//! Laws of all commands on all segments. Each function here does nothing: its contract is the law.
ghost use Rattle.std.specs.Prelude.{◌≡◌};
ghost use Rattle.raw_region.specs.Format.{current};
ghost use Rattle.segment_manager.specs.Laws.{CountedAreBelow, HandlesMeanObjects, KeysMeanObjects};
ghost use Rattle.segment_manager.specs.Laws.{KeysOfKindMeanObjects, PoppedTextsLeadOn, ReadsChangeNothing};
ghost use Rattle.segment_manager.specs.Laws.{ReadsOfKindChangeNothing, RefusalsChangeNothing};
ghost use Rattle.segment_manager.specs.Laws.{RefusalsOfKindChangeNothing, RefusedCallsStay, StepsLeadOn};
ghost use Rattle.segment_manager.specs.Layout.{format_at, head_len, magic_at, name_class_at, named_at, reserved_at};
ghost use Rattle.segment_manager.specs.{Denotes.magic_number, Denotes.two_halves, indexes.Entries.IndexesFollowObjects};
ghost use Rattle.segment_manager.specs.{Layout.size_at, Layout.unique_at, containers.OwnedTexts.TextsArePlaced};
ghost use Rattle.segment_manager.specs.{Staying.ObjectsStay, objects.Heads.EntriesSayObjects};

use crate::layout::{
    FORMAT, FORMAT_AT, HALF, HEAD_LEN, MAGIC, MAGIC_AT, NAME_CLASS_AT, NAMED_AT, RESERVED_AT,
    SIZE_AT, UNIQUE_AT,
};

/// States that a command that fails changes nothing, and that a segment that is open for reading refuses each command
/// that can change it.
pub fn refusals_change_nothing()
    ensures any_kind { RefusalsChangeNothing }
    ensures kind_fit { RefusalsOfKindChangeNothing }
{}

/// States that a command that only reads changes nothing.
pub fn reads_change_nothing()
    ensures any_kind { ReadsChangeNothing }
    ensures kind_fit { ReadsOfKindChangeNothing }
{}

/// States the step of a call that returns less than its command prints. Its error is the command's error, and a step
/// with an error keeps the directory.
pub fn steps_lead_on()
    ensures step { StepsLeadOn }
    ensures changes { PoppedTextsLeadOn }
    ensures refused { RefusedCallsStay }
{}

/// States that a command on an object means the same with each key of the object, and that the handle of a located
/// object is such a key.
pub fn keys_mean_objects()
    ensures any_kind { KeysMeanObjects }
    ensures kind_fit { KeysOfKindMeanObjects }
    ensures handle { HandlesMeanObjects }
{}

/// States that commands on elements and commands that only read keep each object. So a located object stays the object
/// of its handle.
pub fn objects_stay()
    ensures { ObjectsStay }
{}

/// States that each index follows its objects: constructing or destroying an object adds or removes one entry, and a
/// change of a value changes no entry.
pub fn indexes_follow_objects()
    ensures { IndexesFollowObjects }
{}

/// States that several texts get their blocks one after another, one for each text that is not empty. If one has no
/// fit, there is no space for all.
pub fn texts_are_placed()
    ensures { TextsArePlaced }
{}

/// States that for each object of a segment's bytes the words of its index entry are its kind's code, its count, its
/// class and its name.
pub fn entries_say_objects()
    ensures { EntriesSayObjects }
{}

/// States that an index below the number of objects is the place of an object: it meets the condition of the calls by
/// place.
pub fn counted_are_below()
    ensures { CountedAreBelow }
{}

/// States that each constant of `layout` has the value in the definition of a segment's bytes. The constants are the
/// offsets of the header's words and of an object's head, and the value of a 1 in the upper half of a word.
pub fn layout_is_denoted()
    ensures magic { MAGIC ≡ magic_number }
    ensures format { FORMAT ≡ current }
    ensures magic_at { MAGIC_AT ≡ magic_at }
    ensures format_at { FORMAT_AT ≡ format_at }
    ensures size_at { SIZE_AT ≡ size_at }
    ensures named_at { NAMED_AT ≡ named_at }
    ensures unique_at { UNIQUE_AT ≡ unique_at }
    ensures capacity_at { RESERVED_AT ≡ reserved_at }
    ensures name_class_at { NAME_CLASS_AT ≡ name_class_at }
    ensures head_len { HEAD_LEN ≡ head_len }
    ensures half { HALF ≡ two_halves 0 1 }
{}
