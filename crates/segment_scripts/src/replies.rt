//! Answers of commands: one call of the segment executes each command; for some commands the kind of the object selects
//! it.
ghost use Rattle.std.specs.Prelude.{◌≡◌};
ghost use Rattle.segment_lang.specs.Seen.{operation_of};
ghost use Rattle.segment_manager.specs.Directory.{Directory};
ghost use Rattle.segment_manager.specs.objects.Found.{found_answer, found_object_answer};
ghost use Rattle.segment_manager.specs.containers.Maps.{any_value_answer};
ghost use Rattle.segment_manager.specs.State.{done_answer, gone_answer, handle_answer, scalar_answer, truth_answer};
ghost use Rattle.segment_scripts.specs.Replies.{IsMeant, Replies, answer_seen};

use crate::changing::{append, assign};
use crate::constructing::{construct_it, make};
use crate::machine::ParseBuffers;
use seg_types::{Handle, Key, Refusal, ScalarValue};
use segment_lang::Operation;
use segment_manager::Segment;
use segment_values::{InsertSpot, add, erase, erase_pair, look_up, set};

/// The answer of a command: a short answer itself; for a long one, the object to read from the segment.
#[derive(Drop)]
pub enum CommandAnswer<'a> {
    /// The command is done.
    Done,
    /// There is nothing.
    Absent,
    /// Whether something holds.
    Boolean(bool),
    /// A number.
    Number(u64),
    /// The handle of an object that was made.
    Made(Handle),
    /// The handle of an object, and its number of elements.
    Found(Handle, u32),
    /// An element of an object, or a value of a map.
    Element(ScalarValue),
    /// The kind and the value of the object of a key, or that there is none.
    Shown(Key<'a>),
    /// Class, name, kind, count and handle of the object of a key, or that there is none.
    Told(Key<'a>),
    /// Each object with a name, by name.
    Names,
    /// Each unique object, by kind.
    Kinds,
    /// Each block and gap by offset.
    Blocks,
    /// Why the command is refused. The objects are as before.
    Refused(Refusal),
}

/// Executes a command, and returns its answer. Names with escapes and lists are decoded into `lent`.
#[inline(never)]
pub fn reply<'a>(
    segment: &mut Segment,
    operation: Operation<'a>,
    lent: &mut ParseBuffers,
) -> CommandAnswer<'a>
    requires { IsMeant (operation_of operation) }
    ensures { Replies segment.old segment.new (operation_of operation.entry) result }
{
    match operation {
        Operation::Construct { key, content } => make(segment, &key, content, lent),
        Operation::ConstructIt { key, count, values } => {
            made(construct_it(segment, &key, count, values))
        }
        Operation::Find { kind, key } => looked_up(segment.find_kind(&key.into_key(), kind)),
        Operation::FindOrConstruct { key, content } => make(segment, &key, content, lent),
        Operation::Destroy(key) => truth(segment.destroy(&key)),
        Operation::DestroyPtr(handle) => gone(segment.destroy_ptr(handle)),
        Operation::Show(key) => CommandAnswer::Shown(key),
        Operation::Info(key) => CommandAnswer::Told(key),
        Operation::Set(key, index, value) => {
            done(set(segment, &key, index, &value, &mut lent.text))
        }
        Operation::Insert(key, index, value) => {
            done(add(
                segment,
                &key,
                InsertSpot::Before(index),
                &value,
                &mut lent.text,
            ))
        }
        Operation::Erase(key, index) => done(erase(segment, &key, index)),
        Operation::Reserve(key, count) => done(segment.reserve(&key, count)),
        Operation::Shrink(key) => done(segment.shrink(&key)),
        Operation::Clear(key) => done(segment.clear(&key)),
        Operation::Assign { key, values } => done(assign(segment, &key, values, lent)),
        Operation::Append { key, text } => done(append(segment, &key, text, &mut lent.text)),
        Operation::Lookup(key, at) => value_found(look_up(segment, &key, &at)),
        Operation::Remove(key, at) => truth(erase_pair(segment, &key, &at)),
        Operation::ListNames => CommandAnswer::Names,
        Operation::ListKinds => CommandAnswer::Kinds,
        Operation::Blocks => CommandAnswer::Blocks,
        Operation::Free => CommandAnswer::Number(segment.free()),
        Operation::NumNamed => CommandAnswer::Number(segment.num_named()),
        Operation::NumUnique => CommandAnswer::Number(segment.num_unique()),
        Operation::ReserveNamed(count) => done(segment.reserve_named(count)),
        Operation::ReserveUnique(count) => done(segment.reserve_unique(count)),
        Operation::ShrinkIndexes => done(segment.shrink_indexes()),
        Operation::ZeroFree => done(segment.zero_free()),
        Operation::Sanity => CommandAnswer::Boolean(segment.sanity()),
        Operation::AllDeallocated => CommandAnswer::Boolean(segment.all_deallocated()),
    }
}

/// Returns the answer where an object was made, or not.
pub fn made<'a>(made: Result<Handle, Refusal>) -> CommandAnswer<'a>
    ensures { (d : Directory) → answer_seen d result ≡ handle_answer made }
{
    match made {
        Ok(handle) => CommandAnswer::Made(handle),
        Err(refusal) => CommandAnswer::Refused(refusal),
    }
}

/// Returns the answer where an object was found or made, or not.
pub fn found<'a>(found: Result<(Handle, u32), Refusal>) -> CommandAnswer<'a>
    ensures { (d : Directory) → answer_seen d result ≡ found_object_answer found }
{
    match found {
        Ok((handle, count)) => CommandAnswer::Found(handle, count),
        Err(refusal) => CommandAnswer::Refused(refusal),
    }
}

/// Returns the answer where an object was looked for.
fn looked_up<'a>(found: Result<Option<(Handle, u32)>, Refusal>) -> CommandAnswer<'a>
    ensures { (d : Directory) → answer_seen d result ≡ found_answer found }
{
    match found {
        Ok(Some((handle, count))) => CommandAnswer::Found(handle, count),
        Ok(None) => CommandAnswer::Absent,
        Err(refusal) => CommandAnswer::Refused(refusal),
    }
}

/// Returns the answer for an element.
pub fn element<'a>(element: Result<ScalarValue, Refusal>) -> CommandAnswer<'a>
    ensures { (d : Directory) → answer_seen d result ≡ scalar_answer element }
{
    match element {
        Ok(value) => CommandAnswer::Element(value),
        Err(refusal) => CommandAnswer::Refused(refusal),
    }
}

/// Returns the answer where a value was looked for.
fn value_found<'a>(found: Result<Option<ScalarValue>, Refusal>) -> CommandAnswer<'a>
    ensures { (d : Directory) → answer_seen d result ≡ any_value_answer found }
{
    match found {
        Ok(value) => match value {
            Some(value) => CommandAnswer::Element(value),
            None => CommandAnswer::Absent,
        },
        Err(refusal) => CommandAnswer::Refused(refusal),
    }
}

/// Returns the answer where something holds, or not.
pub fn truth<'a>(truth: Result<bool, Refusal>) -> CommandAnswer<'a>
    ensures { (d : Directory) → answer_seen d result ≡ truth_answer truth }
{
    match truth {
        Ok(truth) => CommandAnswer::Boolean(truth),
        Err(refusal) => CommandAnswer::Refused(refusal),
    }
}

/// Returns the answer of a command that destroyed an object, or did not.
fn gone<'a>(gone: Result<(), Refusal>) -> CommandAnswer<'a>
    ensures { (d : Directory) → answer_seen d result ≡ gone_answer gone }
{
    match gone {
        Ok(()) => CommandAnswer::Boolean(true),
        Err(refusal) => CommandAnswer::Refused(refusal),
    }
}

/// Returns the answer of a command that is done, or refused.
pub fn done<'a>(done: Result<(), Refusal>) -> CommandAnswer<'a>
    ensures { (d : Directory) → answer_seen d result ≡ done_answer done }
{
    match done {
        Ok(()) => CommandAnswer::Done,
        Err(refusal) => CommandAnswer::Refused(refusal),
    }
}
