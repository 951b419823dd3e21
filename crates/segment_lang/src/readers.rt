//! Readers of commands, one for each form of arguments.

ghost use Rattle.std.specs.Prelude.{◌≡◌, ℕ, Some, None, option_and_then, option_map, if◌then◌else◌};
ghost use Rattle.seg_types.specs.Commands as asked;
ghost use Rattle.seg_types.specs.Keys.{key_seen};
ghost use Rattle.seg_types.specs.Names.{Key as AskedKey};
ghost use Rattle.segment_lang.specs.Reading.{appending, finding, key_of, name_key, new_key, putting, with_key};
ghost use Rattle.segment_lang.specs.Reading.{with_key_literal, with_key_number, with_key_number_literal, with_number};
ghost use Rattle.segment_lang.specs.Tokens.{at_end, only_token};
ghost use Rattle.segment_lang.specs.Arguments.{assigning_at, command_of_one, command_of_three, command_of_two};
ghost use Rattle.segment_lang.specs.Arguments.{handle_of, making_at, making_each_at};
ghost use Rattle.segment_lang.specs.Seen.{operation_of, literal_of};

use crate::blanks::at_end;
use crate::buffer::LineBuffer;
use crate::commands::Operation;
use crate::contents::read_content;
use crate::keys::{handle_of, index_key, index_key_for, key_of, new_key_for};
use crate::kinds::{counted_kind, kind_of_token};
use crate::lists::read_literals;
use crate::literals::{Literal, literal_of, quoted_of};
use crate::numbers::number;
use crate::tokens::{next_token, next_two, only_token, three_tokens, two_tokens};
use crate::values::read_values;
use seg_types::{Key, Kind};

/// Reads a kind with a count, a key and the initial contents: one value, any number of values, or none.
#[tactic(auto, unfolding(crate::specs::Arguments::making_at))]
#[inline(never)]
pub fn read_construct<'a>(bytes: &'a [u8], scratch: &'a mut LineBuffer) -> Option<Operation<'a>>
    ensures { option_map operation_of result ≡ making_at asked.Construct new_key bytes.now }
{
    let (kind, key, rest) = next_two(bytes)?;
    let (kind, count) = counted_kind(kind)?;
    let key = new_key_for(kind, key, scratch)?;
    let content = read_content(kind, count, rest)?;
    Some(Operation::Construct { key, content })
}

/// Reads a kind with a count, an entry of an index and the initial contents.
#[tactic(auto, unfolding(crate::specs::Arguments::making_at))]
#[inline(never)]
pub fn read_find_or_construct<'a>(
    bytes: &'a [u8],
    scratch: &'a mut LineBuffer,
) -> Option<Operation<'a>>
    ensures { option_map operation_of result ≡ making_at asked.FindOrConstruct name_key bytes.now }
{
    let (kind, key, rest) = next_two(bytes)?;
    let (kind, count) = counted_kind(kind)?;
    let key = index_key_for(kind, key, scratch)?;
    let content = read_content(kind, count, rest)?;
    Some(Operation::FindOrConstruct { key, content })
}

/// Returns a kind with a count, a key and as many values.
#[tactic(auto, unfolding(crate::specs::Arguments::making_each_at))]
#[inline(never)]
pub fn read_construct_it<'a>(bytes: &'a [u8], scratch: &'a mut LineBuffer) -> Option<Operation<'a>>
    ensures { option_map operation_of result ≡ making_each_at bytes.now }
{
    let (kind, key, rest) = next_two(bytes)?;
    let (kind, count) = counted_kind(kind)?;
    let key = new_key_for(kind, key, scratch)?;
    let Kind::Scalar(kind) = kind else {
        return None;
    };
    let values = read_values(kind, count, rest)?;
    Some(Operation::ConstructIt { key, count, values })
}

/// Returns a kind and an entry of an index.
#[inline(never)]
pub fn read_find<'a>(bytes: &'a [u8], scratch: &'a mut LineBuffer) -> Option<Operation<'a>>
    ensures { option_map operation_of result ≡ command_of_two finding bytes.now }
{
    let (kind, key) = two_tokens(bytes)?;
    let kind = kind_of_token(kind)?;
    let key = index_key_for(kind, key, scratch)?;
    Some(Operation::Find { kind, key })
}

/// Returns an entry of an index.
#[inline(never)]
pub fn read_destroy<'a>(bytes: &'a [u8], scratch: &'a mut LineBuffer) -> Option<Operation<'a>>
    ensures { option_map operation_of result ≡ command_of_one (with_key asked.Destroy name_key) bytes.now }
{
    let token = only_token(bytes)?;
    Some(Operation::Destroy(index_key(token, scratch)?))
}

/// Returns a handle.
#[inline(never)]
pub fn read_destroy_ptr(bytes: &[u8]) -> Option<Operation<'_>>
    ensures { option_map operation_of result
        ≡ option_map asked.DestroyPtr (option_and_then handle_of (only_token bytes.now)) }
{
    let token = only_token(bytes)?;
    let handle = handle_of(token)?;
    Some(Operation::DestroyPtr(handle))
}

/// Returns a key, whatever it is read for.
#[inline(never)]
pub fn only_key<'a>(bytes: &'a [u8], scratch: &'a mut LineBuffer) -> Option<Key<'a>>
    ensures { (f : AskedKey → asked.Command) → option_map (λ key. f (key_seen key)) result
        ≡ command_of_one (with_key f key_of) bytes.now }
{
    let token = only_token(bytes)?;
    key_of(token, scratch)
}

/// Returns a key and a number, whatever they are read for.
#[inline(never)]
pub fn key_and_number<'a>(bytes: &'a [u8], scratch: &'a mut LineBuffer) -> Option<(Key<'a>, u64)>
    ensures { (f : AskedKey → ℕ → asked.Command) → option_map (λ x. f (key_seen x.0) x.1) result
        ≡ command_of_two (with_key_number f) bytes.now }
{
    let (key, number_token) = two_tokens(bytes)?;
    let key = key_of(key, scratch)?;
    let index = number(number_token)?;
    Some((key, index))
}

/// Returns a key and a value, whatever they are read for.
#[inline(never)]
pub fn key_and_literal<'a>(
    bytes: &'a [u8],
    scratch: &'a mut LineBuffer,
) -> Option<(Key<'a>, Literal<'a>)>
    ensures { (f : AskedKey → asked.Literal → asked.Command) → option_map (λ x. f (key_seen x.0) (literal_of x.1))
        result ≡ command_of_two (with_key_literal f) bytes.now }
{
    let (key, value) = two_tokens(bytes)?;
    let key = key_of(key, scratch)?;
    let value = literal_of(value)?;
    Some((key, value))
}

/// Returns a key, a number and a value, whatever they are read for.
#[inline(never)]
pub fn key_number_literal<'a>(
    bytes: &'a [u8],
    scratch: &'a mut LineBuffer,
) -> Option<(Key<'a>, u64, Literal<'a>)>
    ensures { (f : AskedKey → ℕ → asked.Literal → asked.Command)
        → option_map (λ x. f (key_seen x.0) x.1 (literal_of x.2)) result
        ≡ command_of_three (with_key_number_literal f) bytes.now }
{
    let (key, index, value) = three_tokens(bytes)?;
    let key = key_of(key, scratch)?;
    let index = number(index)?;
    let value = literal_of(value)?;
    Some((key, index, value))
}

/// Returns a key and two values, of a pair that is put in.
#[inline(never)]
pub fn key_and_pair<'a>(
    bytes: &'a [u8],
    scratch: &'a mut LineBuffer,
) -> Option<(Key<'a>, Literal<'a>, Literal<'a>)>
    ensures { option_map (λ x. asked.Put (key_seen x.0) (literal_of x.1) (literal_of x.2)) result
        ≡ command_of_three putting bytes.now }
{
    let (key, at, value) = three_tokens(bytes)?;
    let key = key_of(key, scratch)?;
    let at = literal_of(at)?;
    let value = literal_of(value)?;
    Some((key, at, value))
}

/// Returns a key and any number of values, of all new elements.
#[tactic(auto, unfolding(crate::specs::Arguments::assigning_at))]
#[inline(never)]
pub fn read_assign<'a>(bytes: &'a [u8], scratch: &'a mut LineBuffer) -> Option<Operation<'a>>
    ensures { option_map operation_of result ≡ assigning_at bytes.now }
{
    let (key, rest) = next_token(bytes)?;
    let key = key_of(key, scratch)?;
    let values = read_literals(rest)?;
    Some(Operation::Assign { key, values })
}

/// Returns a key and a text, of new last bytes.
#[inline(never)]
pub fn read_append<'a>(bytes: &'a [u8], scratch: &'a mut LineBuffer) -> Option<Operation<'a>>
    ensures { option_map operation_of result ≡ command_of_two appending bytes.now }
{
    let (key, text) = two_tokens(bytes)?;
    let key = key_of(key, scratch)?;
    let text = quoted_of(text)?;
    Some(Operation::Append { key, text })
}

/// Returns a number, whatever it is read for.
pub fn only_number(bytes: &[u8]) -> Option<u64>
    ensures { (f : ℕ → asked.Command) → option_map f result ≡ command_of_one (with_number f) bytes.now }
{
    let token = only_token(bytes)?;
    number(token)
}

/// Returns the operation, if nothing stands after its word.
pub fn read_alone<'a>(operation: Operation<'a>, bytes: &[u8]) -> Option<Operation<'a>>
    ensures { option_map operation_of result
        ≡ (if at_end bytes.now then Some (operation_of operation.entry) else None) }
{
    at_end(bytes).then_some(operation)
}
