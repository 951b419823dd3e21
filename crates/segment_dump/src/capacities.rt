//! A dump with the capacities of what has one. They stand after its end, each in a note, which a load leaves out.
ghost use Rattle.std.specs.Prelude.{◌≡◌, ◌-◌, ◌^◌, ◌<◌, ◌++◌};
ghost use Rattle.raw_region.specs.Device.{Writes};
ghost use Rattle.seg_types.specs.Names.{ByHandle};
ghost use Rattle.segment_manager.specs.containers.Contents.{sizes_at};
ghost use Rattle.segment_manager.specs.objects.Located.{IsLocated, IsObject};
ghost use Rattle.segment_manager.specs.State.{AnswersWith};
ghost use Rattle.segment_dump.specs.Capacities.{Holds, capacities, capacities_text, capacity_note, index_notes};
ghost use Rattle.segment_dump.specs.Capacities.{measured_slots, slots_at};
ghost use Rattle.segment_dump.specs.Items.{portable};
ghost use Rattle.segment_dump.specs.DumpWrites.{WritesOf};
ghost use Rattle.segment_dump.specs.Texts.{dump_text};

use crate::dumping::dump;
use crate::entries::put_line;
use crate::objects::{ObjectWriter, put_anonymous, put_named, put_unique};
use raw_region::{DeviceFault, Sink, word_in};
use seg_types::{Class, Kind};
use segment_lang::{Piece, put_pieces};
use segment_manager::layout::{NAMED_AT, UNIQUE_AT};
use segment_manager::unchecked::{measure_object, object_here};
use segment_manager::{Instance, Object, Segment};

/// Where an index has its capacity, after its first word.
const CAPACITY: usize = 16;

/// Writes the [`dump`] of a segment, and after its end a note for each capacity: first of the two indexes, and then of
/// the containers in the order of the dump. It needs no memory. [`load`](crate::load) takes it as it takes the dump
/// alone.
///
/// # Errors
///
/// If the sink fails. It has taken a part of the text then, from the first byte on, and not all.
pub fn dump_with_capacities<W: Sink>(segment: &Segment, out: &mut W) -> Result<(), DeviceFault>
    requires { (W.history out.old).failures < 2 ^ 64 - 1 }
    ensures { WritesOf segment.now (W.history out.old) (W.history out.new) result (λ d.
        dump_text d.size (portable d) ++ capacities_text (capacities d)) }
{
    dump(segment, out)?;
    put_capacities(segment, out)
}

/// Tells the capacity of an object, if it has one.
struct Notes;

impl ObjectWriter for Notes {
    ghost use Rattle.segment_dump.specs.Capacities.{object_notes};

    ghost text = { λ _. object_notes };

    fn tell<W: Sink>(
        &self,
        segment: &Segment,
        said: Instance<'_>,
        out: &mut W,
    ) -> Result<(), DeviceFault> {
        let object = object_here(segment, said.handle);
        match slots_of(segment, object) {
            Some(slots) => put_note(said, slots, out),
            None => Ok(()),
        }
    }
}

/// Writes the notes of all capacities.
fn put_capacities<W: Sink>(segment: &Segment, out: &mut W) -> Result<(), DeviceFault>
    requires { (W.history out.old).failures < 2 ^ 64 - 1 }
    ensures { WritesOf segment.now (W.history out.old) (W.history out.new) result (λ d.
        capacities_text (capacities d)) }
{
    put_indexes(segment, out)?;
    put_named(&Notes, segment, out)?;
    put_unique(&Notes, segment, out)?;
    put_anonymous(&Notes, segment, out)
}

/// Writes the notes of the two indexes.
fn put_indexes<W: Sink>(segment: &Segment, out: &mut W) -> Result<(), DeviceFault>
    requires { (W.history out.old).failures < 2 ^ 64 - 1 }
    ensures { WritesOf segment.now (W.history out.old) (W.history out.new) result (λ d.
        index_notes d.named.capacity d.unique.capacity) }
{
    put_pieces(
        out,
        &[
            Piece::Bytes(b"# capacity of names: "),
            Piece::Number(named_capacity(segment)),
            Piece::Bytes(b"\n# capacity of kinds: "),
            Piece::Number(unique_capacity(segment)),
            Piece::Bytes(b"\n"),
        ],
    )
}

/// Returns the number of entries that the index of names has places for.
fn named_capacity(segment: &Segment) -> u64
    ensures { AnswersWith segment.now (λ d. d.named.capacity) result }
{
    word_in(segment.as_bytes(), NAMED_AT as usize + CAPACITY)
}

/// Returns the number of entries that the index of kinds has places for.
fn unique_capacity(segment: &Segment) -> u64
    ensures { AnswersWith segment.now (λ d. d.unique.capacity) result }
{
    word_in(segment.as_bytes(), UNIQUE_AT as usize + CAPACITY)
}

/// Returns the capacity of an object, if its kind has one.
fn slots_of(segment: &Segment, object: Object) -> Option<u64>
    requires { IsLocated segment.now (ByHandle object.handle) object }
    ensures { AnswersWith segment.now (λ d. slots_at d (ByHandle object.handle)) result }
{
    match object.kind {
        Kind::Scalar(_) => None,
        Kind::Map(_, _) => None,
        _ => count_slots(segment, object),
    }
}

/// Returns the capacity of a vector, a string or a vector of strings.
fn count_slots(segment: &Segment, object: Object) -> Option<u64>
    requires { IsObject object segment.now }
    ensures { AnswersWith segment.now (λ d. measured_slots (sizes_at d (ByHandle object.handle))) result }
{
    match measure_object(segment, object) {
        Ok((_, slots)) => Some(slots),
        Err(_) => None,
    }
}

/// Writes the note of an object that said this of itself, and has `slots` places.
fn put_note<W: Sink>(said: Instance<'_>, slots: u64, out: &mut W) -> Result<(), DeviceFault>
    requires { (W.history out.old).failures < 2 ^ 64 - 1 }
    ensures { Writes (W.history out.old) (W.history out.new) result
        (capacity_note (record {
          holder = Holds said.entry.class said.entry.name.now said.entry.kind;
          slots = slots;
        })) }
{
    match said.class {
        Class::Named => put_line(b"# capacity of named ", said, b": ", slots, out),
        Class::Unique => put_line(b"# capacity of unique ", said, b": ", slots, out),
        Class::Anonymous => put_line(b"# capacity of anonymous ", said, b": ", slots, out),
    }
}
