//! The codes that C is answered: those of refusals are their numbers in the language.
ghost use Rattle.std.specs.Prelude.{◌≡◌, ◌≤◌, IsTrue, MatchResult};
ghost use Rattle.std.specs.declared.option.Option.TheVariants.{Some as Held};
ghost use Rattle.raw_region.specs.Memory.{whole};
ghost use Rattle.seg_types.specs.Refusals.{refusal_number};
ghost use Rattle.segment_c.specs.Codes.{answer_for, is_answer};
ghost use Rattle.segment_c.specs.{Handles.PutsBack, Marked.raised, Passed.element_in};
ghost use Rattle.segment_manager.specs.Answers.{Answer, Done, Found, Made, Refused, Boolean};
ghost use Rattle.segment_manager.specs.State.{done_answer, handle_answer, scalar_answer, truth_answer};
ghost use Rattle.segment_manager.specs.objects.Found.{found_answer, found_object_answer};
ghost use Rattle.segment_manager.specs.containers.Maps.{any_value_answer};

use crate::slot::{Slot, put, put_changed};
use crate::values::CScalar;
use image_check::MemoryFault;
use raw_region::RawRegion;
use seg_types::{Refusal, ScalarValue};
use segment_manager::Segment;
use std::alloc::Global;

/// Done.
pub const DONE: u32 = 0;
/// The segment is open for reading.
pub const READ_ONLY: u32 = 4;
/// No object has the key.
pub const NOT_FOUND: u32 = 6;
/// The object, or what is passed for it, is of another kind.
pub const WRONG_KIND: u32 = 7;
/// An index past the end.
pub const OUT_OF_RANGE: u32 = 8;
/// Nothing is there.
pub const ABSENT: u32 = 10;
/// The handle has no segment.
pub const CLOSED: u32 = 16;
/// The key's `how` is none, or none that the call takes.
pub const BAD_KEY: u32 = 17;
/// The bytes are no name.
pub const BAD_NAME: u32 = 18;
/// No kind has the code, or the key is for another.
pub const BAD_KIND: u32 = 19;
/// The value's kind is no scalar's, or its number is outside that kind.
pub const BAD_VALUE: u32 = 20;
/// No object of scalars has this count.
pub const BAD_COUNT: u32 = 21;
/// No segment, or no region, has this size.
pub const BAD_SIZE: u32 = 22;
/// The mode is none.
pub const BAD_MODE: u32 = 23;
/// The buffer has too little room.
pub const SHORT_BUFFER: u32 = 24;
/// A slice is null.
pub const NULL_SLICE: u32 = 25;
/// No memory. [`no_memory`] tells it of a request that was refused, and [`boxed_or_region`] of its own.
pub const NO_MEMORY: u32 = 26;
/// The region has too little room.
pub const SHORT_REGION: u32 = 27;
/// No segment grows by this number of bytes.
pub const BAD_GROWTH: u32 = 28;
/// No segment may be this long.
pub const TOO_LARGE: u32 = 29;
/// The log beside a file belongs to another one.
pub const LOG_FOREIGN: u32 = 54;
/// The bytes are no image: to this the number of its class is added.
pub const BAD_IMAGE: u32 = 100;

/// Returns the code of a request for memory that was refused.
pub fn no_memory(_refused: MemoryFault) -> u32
    ensures { result ≡ 26 }
{
    NO_MEMORY
}

/// Returns a segment in a box, or the code of no memory for one, and its region.
pub fn boxed_or_region(alloc: Global, segment: Segment) -> Result<Box<Segment>, (u32, RawRegion)>
    ensures { MatchResult result (λ s. s.value ≡ segment) (λ refused. (refused.0 ≡ 26)
        × (refused.1 ≡ whole segment.cut)) }
{
    match Box::new(alloc, segment) {
        Ok(segment) => Ok(segment),
        Err(refused) => Err((NO_MEMORY, refused.value.into_region())),
    }
}

/// Returns a segment in a box, or the code of no memory for one.
pub fn boxed_or_not(alloc: Global, segment: Segment) -> Result<Box<Segment>, u32>
    ensures { MatchResult result (λ s. s.value ≡ segment) (λ code. code ≡ 26) }
{
    match boxed_or_region(alloc, segment) {
        Ok(segment) => Ok(segment),
        Err((code, _)) => Err(code),
    }
}

/// The code of a result, of which what is there goes out.
macro_rules! code_for {
    ($result:expr, Some($there:pat) => $out:expr) => {
        match $result {
            Ok(Some($there)) => {
                $out;
                DONE
            }
            Ok(None) => ABSENT,
            Err(why) => code_of(why),
        }
    };
    ($result:expr, $there:pat => $out:expr) => {
        match $result {
            Ok($there) => {
                $out;
                DONE
            }
            Err(why) => code_of(why),
        }
    };
}

pub(crate) use code_for;

/// Returns the code of a refusal, which is its number.
pub fn code_of(why: Refusal) -> u32
    ensures outcome { (a : Answer) → answer_for result a ≡ Refused why }
    ensures answer { IsTrue (is_answer result) }
    ensures number { result ≡ refusal_number why }
    ensures refused { 1 ≤ result }
{
    match why {
        Refusal::ReadOnly => 4,
        Refusal::Exists => 5,
        Refusal::NotFound => 6,
        Refusal::WrongKind => 7,
        Refusal::OutOfRange => 8,
        Refusal::NoSpace => 9,
    }
}

/// Returns the code of a command that is done, or refused. This and those below put the segment back into the handle,
/// and those whose command may change it count that.
#[inline(always)]
pub fn done(done: Result<(), Refusal>, h: &mut Slot, segment: Box<Segment>) -> u32
    ensures outcome { answer_for result Done ≡ done_answer done }
    ensures answer { IsTrue (is_answer result) }
    ensures effect { h.new.segment.value ≡ Held segment.value }
    ensures marks { h.new.marks ≡ raised h.old.marks }
{
    let code = code_for!(done, () => {});
    put_changed(code, h, segment)
}

/// Returns the code of a call that makes an object. Its handle goes out.
pub fn made(
    made: Result<u64, Refusal>,
    handle: &mut u64,
    h: &mut Slot,
    segment: Box<Segment>,
) -> u32
    ensures { PutsBack (Made handle.new) (handle_answer made) (handle.new ≡ handle.old) result segment.value h.new
        (raised h.old.marks) }
{
    let code = code_for!(made, at => *handle = at);
    put_changed(code, h, segment)
}

/// Returns the code of a test. Whether it holds goes out.
pub fn truth(
    truth: Result<bool, Refusal>,
    holds: &mut bool,
    h: &mut Slot,
    segment: Box<Segment>,
) -> u32
    ensures { PutsBack (Boolean holds.new) (truth_answer truth) (holds.new ≡ holds.old) result segment.value h.new
        (raised h.old.marks) }
{
    let code = code_for!(truth, it => *holds = it);
    put_changed(code, h, segment)
}

/// Writes the element to the output, and returns the code of the call. It does not put the segment back.
#[inline(always)]
pub fn element_out(element: Result<ScalarValue, Refusal>, value: &mut CScalar) -> u32
    ensures outcome { answer_for result (element_in value.new) ≡ scalar_answer element }
    ensures answer { IsTrue (is_answer result) }
    ensures unchanged_on_error { 1 ≤ result → value.new ≡ value.old }
{
    code_for!(element, it => *value = CScalar::of(it))
}

/// Returns the code of a call that finds or makes an object. Its handle and how many elements it has go out.
pub fn found(
    found: Result<(u64, u32), Refusal>,
    handle: &mut u64,
    count: &mut u32,
    h: &mut Slot,
    segment: Box<Segment>,
) -> u32
    ensures { PutsBack (Found handle.new count.new) (found_object_answer found)
        ((handle.new ≡ handle.old) × (count.new ≡ count.old)) result segment.value h.new (raised h.old.marks) }
{
    let code = code_for!(found, (at, many) => { *handle = at; *count = many; });
    put_changed(code, h, segment)
}

/// Returns the code of a search that may find nothing. If an object was found, its handle and its number of elements go
/// out.
pub fn found_or_absent(
    found: Result<Option<(u64, u32)>, Refusal>,
    handle: &mut u64,
    count: &mut u32,
    h: &mut Slot,
    segment: Box<Segment>,
) -> u32
    ensures { PutsBack (Found handle.new count.new) (found_answer found)
        ((handle.new ≡ handle.old) × (count.new ≡ count.old)) result segment.value h.new h.old.marks }
{
    let code = code_for!(found, Some((at, many)) => { *handle = at; *count = many; });
    put(code, h, segment)
}

/// Returns the code of a look-up. The value goes out if it is there.
pub fn value_found(
    found: Result<Option<ScalarValue>, Refusal>,
    value: &mut CScalar,
    h: &mut Slot,
    segment: Box<Segment>,
) -> u32
    ensures { PutsBack (element_in value.new) (any_value_answer found) (value.new ≡ value.old) result segment.value
        h.new h.old.marks }
{
    let code = code_for!(found, Some(it) => *value = CScalar::of(it));
    put(code, h, segment)
}
