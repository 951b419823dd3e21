//! The command that prints one value of the segment in a file, for scripts of a shell and other programs.
ghost use Rattle.std.specs.Prelude.{◌≡◌, ◌^◌, ◌-◌, ◌<◌, option_map};
ghost use Rattle.raw_region.specs.Device.{Writes};
ghost use Rattle.seg_types.specs.Keys.{key_seen};
ghost use Rattle.segment_lang.specs.Seen.{literal_of as literal_seen};
ghost use Rattle.segment_manager.specs.Answers.{TextElement};
ghost use Rattle.segment_manager.specs.State.{AnswersWith, answer_of, scalar_answer};
ghost use Rattle.segment_manager.specs.containers.Maps.{any_value_answer};
ghost use Rattle.segment_commands.specs.Getting.{RunsGet, element_of, first_value as first_in, got, key_in};
ghost use Rattle.segment_commands.specs.Getting.{literal_in, looked_up, raw_of, value_at as value_there, value_for};
ghost use Rattle.segment_commands.specs.Getting.{value_line, value_of_key};
ghost use Rattle.segment_commands.specs.RawValues.{raw_text};
ghost use Rattle.segment_commands.specs.Telling.{WritesAndFlushes};

use crate::command_faults::{CommandFault, written};
use crate::opening::open_segment;
use image_check::AcceptedVersions;
use raw_region::{DeviceFault, Sink};
use seg_types::{Key, Refusal, ScalarValue};
use segment_disk::{Disk, Output};
use segment_lang::{
    LineBuffer, Literal, Piece, literal_of, number_of, only_key, only_token, put_pieces,
    put_value_line,
};
use segment_manager::{Mode, Segment};
use segment_values::look_up;
use std::alloc::Global;

/// A value as it is printed: without quotes.
#[derive(Clone, Copy)]
pub enum RawValue<'a> {
    /// A scalar, which is printed as a script spells it.
    Scalar(ScalarValue),
    /// A text, whose bytes are printed.
    Text(&'a [u8]),
}

/// Returns the text of a call, if it gave one.
fn as_text(found: Result<&[u8], Refusal>) -> Option<RawValue<'_>>
    ensures { option_map raw_text result ≡ raw_of (answer_of (λ text. TextElement text.now) found.entry) }
{
    match found {
        Ok(text) => Some(RawValue::Text(text)),
        Err(_) => None,
    }
}

/// Returns the scalar of a call, if it gave one.
fn as_scalar<'a>(found: Result<ScalarValue, Refusal>) -> Option<RawValue<'a>>
    ensures { option_map raw_text result ≡ raw_of (scalar_answer found) }
{
    match found {
        Ok(value) => Some(RawValue::Scalar(value)),
        Err(_) => None,
    }
}

/// Returns the value of a call that looked for it, if it gave one.
fn as_found<'a>(found: Result<Option<ScalarValue>, Refusal>) -> Option<RawValue<'a>>
    ensures { option_map raw_text result ≡ raw_of (any_value_answer found) }
{
    match found {
        Ok(Some(value)) => Some(RawValue::Scalar(value)),
        Ok(None) | Err(_) => None,
    }
}

/// Returns the element at an index of the object of a key, if there is one.
fn element<'a>(segment: &'a Segment, key: &Key<'_>, index: Option<u64>) -> Option<RawValue<'a>>
    ensures { AnswersWith segment.now (λ d. got segment.now.mode d (key_seen key.now) index)
        (option_map raw_text result) }
{
    match index {
        Some(index) => element_at(segment, key, index),
        None => None,
    }
}

/// Returns the element at this index of the object of a key, if there is one.
fn element_at<'a>(segment: &'a Segment, key: &Key<'_>, index: u64) -> Option<RawValue<'a>>
    ensures { AnswersWith segment.now (λ d. element_of segment.now.mode d (key_seen key.now) index)
        (option_map raw_text result) }
{
    match as_scalar(segment_values::get(segment, key, index)) {
        Some(value) => Some(value),
        None => as_text(segment.texts_get(key, index)),
    }
}

/// Returns the value that bytes spell.
fn literal_in(bytes: &[u8]) -> Option<Literal<'_>>
    ensures { option_map literal_seen result ≡ literal_in bytes.now }
{
    literal_of(only_token(bytes)?)
}

/// Returns the value of a map at a key that bytes spell, if there is one.
fn pair_at<'a>(segment: &Segment, key: &Key<'_>, at: &[u8]) -> Option<RawValue<'a>>
    ensures { AnswersWith segment.now (λ d. looked_up segment.now.mode d (key_seen key.now) (literal_in at.now))
        (option_map raw_text result) }
{
    match literal_in(at) {
        Some(at) => as_found(look_up(segment, key, &at)),
        None => None,
    }
}

/// Returns the value at an index of the object of a key, or of a map at the key that the index is.
fn value_at<'a>(segment: &'a Segment, key: &Key<'_>, index: &[u8]) -> Option<RawValue<'a>>
    ensures { AnswersWith segment.now (λ d. value_there segment.now.mode d (key_seen key.now) index.now)
        (option_map raw_text result) }
{
    match element(segment, key, number_of(index)) {
        Some(value) => Some(value),
        None => pair_at(segment, key, index),
    }
}

/// Returns the first value of the object of a key, or all of a string.
fn first_value<'a>(segment: &'a Segment, key: &Key<'_>) -> Option<RawValue<'a>>
    ensures { AnswersWith segment.now (λ d. first_in segment.now.mode d (key_seen key.now))
        (option_map raw_text result) }
{
    match segment.string_bytes(key) {
        Ok(text) => Some(RawValue::Text(text)),
        Err(_) => element_at(segment, key, 0),
    }
}

/// Returns the key of an object that bytes spell.
fn key_in<'a>(bytes: &'a [u8], scratch: &'a mut LineBuffer) -> Option<Key<'a>>
    ensures { option_map key_seen result ≡ key_in bytes.now }
{
    only_key(bytes, scratch)
}

/// Returns the value at an index of the object of a key, or its first value.
fn value_of<'a>(segment: &'a Segment, key: &Key<'_>, index: Option<&[u8]>) -> Option<RawValue<'a>>
    ensures { AnswersWith segment.now
        (λ d. value_of_key segment.now.mode d (option_map (λ i. i.now) index.entry) (key_seen key.now))
        (option_map raw_text result) }
{
    match index {
        Some(index) => value_at(segment, key, index),
        None => first_value(segment, key),
    }
}

/// Returns the value of words that say its key, and its index if there is one.
fn value_for<'a>(segment: &'a Segment, key: &[u8], index: Option<&[u8]>) -> Option<RawValue<'a>>
    ensures { AnswersWith segment.now
        (λ d. value_for segment.now.mode d key.now (option_map (λ i. i.now) index.entry)) (option_map raw_text result) }
{
    let mut scratch = LineBuffer::new();
    match key_in(key, &mut scratch) {
        Some(key) => value_of(segment, &key, index),
        None => None,
    }
}

/// Writes a value, and the end of its line.
fn put_raw<W: Sink>(value: RawValue<'_>, out: &mut W) -> Result<(), DeviceFault>
    requires { (W.history out.old).failures < 2 ^ 64 - 1 }
    ensures { Writes (W.history out.old) (W.history out.new) result (value_line (raw_text value.entry)) }
{
    match value {
        RawValue::Scalar(value) => put_value_line(out, value),
        RawValue::Text(text) => put_pieces(out, &[Piece::Bytes(text), Piece::Bytes(b"\n")]),
    }
}

/// Writes a value, and gives out all that was written.
fn tell_raw<O: Output>(value: RawValue<'_>, out: &mut O) -> Result<(), DeviceFault>
    requires { (O.history out.old).failures < 2 ^ 64 - 1 }
    ensures { WritesAndFlushes O.history O.flushes out.old out.new (value_line (raw_text value.entry)) result }
{
    put_raw(value, out)?;
    Output::flush(out)
}

/// Prints one value of the segment in a file, and the end of its line: a scalar as a script spells it, a text without
/// quotes. The key is one of a script. The index counts from 0; of a map it is the key, as a script spells it. Without
/// an index the value is all of a string, and the first element of any other object but a map. The file is opened for
/// reading.
///
/// # Errors
///
/// Those of [`check`](crate::check), and `NoValue` if there is no such value: nothing is printed.
pub fn get<D: Disk, O: Output>(
    alloc: Global,
    disk: &mut D,
    path: &str,
    key: &[u8],
    index: Option<&[u8]>,
    out: &mut O,
) -> Result<(), CommandFault>
    requires { (O.history out.old).failures < 2 ^ 64 - 1 }
    ensures { RunsGet D.step disk.old disk.new path.now O.history O.flushes out.old out.new key.now
        (option_map (λ i. i.now) index.entry) result }
{
    let current = AcceptedVersions::Current;
    let segment = open_segment(alloc, disk, path, current, Mode::ReadOnly, 0)?;
    match value_for(&segment, key, index) {
        Some(value) => written(tell_raw(value, out)),
        None => Err(CommandFault::NoValue),
    }
}
