//! Elements of arrays and vectors of scalars, several read or written by one call.
ghost use Rattle.std.specs.Prelude.{◌≡◌, ◌≤◌, length, map, pos};
ghost use Rattle.seg_types.specs.declared.kinds.ScalarKind.TheVariants.{Bool as BoolKind, I32 as I32Kind};
ghost use Rattle.seg_types.specs.declared.kinds.ScalarKind.TheVariants.{I64 as I64Kind, U8 as U8Kind, U64 as U64Kind};
ghost use Rattle.seg_types.specs.{Keys.key_seen, Kinds.truth_number};
ghost use Rattle.segment_c.specs.Passed.{key_of, key_wrong, or_else, slice_of, slice_wrong, scalar_kind_in};
ghost use Rattle.segment_c.specs.{Codes.answer_for, Handles.ChangesHandle, Reads.IsCoded, Reads.ReadsRange};
ghost use Rattle.segment_manager.specs.{Directory.Directory, State.DenotesCurrent};
ghost use Rattle.segment_manager.specs.{Answers.Done, containers.Ranges.WritesRange};
ghost use Rattle.segment_values.specs.Ranges.{range_at};

use crate::calls::{enter, enter_slice, passed};
use crate::codes::{DONE, code_for, code_of, done};
use crate::keys::CKey;
use crate::slices::{CScalars, on_slice};
use crate::slot::{Slot, put};
use seg_types::{Key, Scalar, ScalarKind};
use segment_manager::{Segment, locate};
use segment_values::read_elements;

/// Copies elements of the array or vector of a key into a row, of a type: as many as the row has, from `first` on.
fn read_range<T: Scalar>(h: &mut Slot, key: &CKey, first: u64, series: &mut [T]) -> u32
    ensures { ReadsRange T.whole T.kind key.now first series.old series.new result h.old h.new }
{
    let (which, segment) = passed!(enter(h, key));
    put(read_at_key(&segment, &which, first, series), h, segment)
}

/// Copies elements of the array or vector of a key in a segment into a row, and returns the code.
fn read_at_key<T: Scalar>(segment: &Segment, key: &Key, first: u64, series: &mut [T]) -> u32
    ensures read { (d : Directory) → DenotesCurrent segment.now.cut.bytes d
        → IsCoded (λ zs. map T.whole series.new ≡ zs) result
        (range_at d (key_seen key.now) T.kind first (length series.old)) }
    ensures unchanged_on_error { 1 ≤ result → series.new ≡ series.old }
{
    match locate(segment, key) {
        Ok(object) => code_for!(read_elements(segment, object, first, series), () => {}),
        Err(why) => code_of(why),
    }
}

/// Copies elements of the array or vector of a key into a row of truths: as many as the row has, from `first` on.
#[unsafe(no_mangle)]
pub extern "C" fn zx_read_bools(h: &mut Slot, key: &CKey, first: u64, series: &mut [bool]) -> u32
    ensures { ReadsRange truth_number BoolKind key.now first series.old series.new result h.old h.new }
{
    read_range::<bool>(h, key, first, series)
}

/// Copies elements of the array or vector of a key into a row of bytes: as many as the row has, from `first` on.
#[unsafe(no_mangle)]
pub extern "C" fn zx_read_u8s(h: &mut Slot, key: &CKey, first: u64, series: &mut [u8]) -> u32
    ensures { ReadsRange pos U8Kind key.now first series.old series.new result h.old h.new }
{
    read_range::<u8>(h, key, first, series)
}

/// Copies elements of the array or vector of a key into a row of numbers of 32 bits: as many as the row has, from
/// `first` on.
#[unsafe(no_mangle)]
pub extern "C" fn zx_read_i32s(h: &mut Slot, key: &CKey, first: u64, series: &mut [i32]) -> u32
    ensures { ReadsRange (λ x. x) I32Kind key.now first series.old series.new result h.old h.new }
{
    read_range::<i32>(h, key, first, series)
}

/// Copies elements of the array or vector of a key into a row of signed numbers of 64 bits: as many as the row has,
/// from `first` on.
#[unsafe(no_mangle)]
pub extern "C" fn zx_read_i64s(h: &mut Slot, key: &CKey, first: u64, series: &mut [i64]) -> u32
    ensures { ReadsRange (λ x. x) I64Kind key.now first series.old series.new result h.old h.new }
{
    read_range::<i64>(h, key, first, series)
}

/// Copies elements of the array or vector of a key into a row of numbers of 64 bits without a sign: as many as the row
/// has, from `first` on.
#[unsafe(no_mangle)]
pub extern "C" fn zx_read_u64s(h: &mut Slot, key: &CKey, first: u64, series: &mut [u64]) -> u32
    ensures { ReadsRange pos U64Kind key.now first series.old series.new result h.old h.new }
{
    read_range::<u64>(h, key, first, series)
}

/// Makes the values elements of the array or vector of a key, of their kind, from `first` on: all of them or none.
#[unsafe(no_mangle)]
pub extern "C" fn zx_write_elements(h: &mut Slot, key: &CKey, first: u64, values: &CScalars) -> u32
    ensures call { ChangesHandle (or_else (key_wrong key.now) (slice_wrong values.now)) result h.old h.new
        (λ s t. WritesRange s t (key_of key.now) (scalar_kind_in values.now.kind) first (slice_of values.now)
        (answer_for result Done)) }
{
    let (which, kind, mut segment) = passed!(enter_slice(h, key, values));
    let answer = on_slice!(values, kind, slice => segment.write_range(&which, first, slice));
    done(answer, h, segment)
}
