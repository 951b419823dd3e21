//! A vector of a caller's own type, in a heap of its own. Boost: `vector<time, allocator<time, segment_manager>>`.
ghost use Rattle.std.specs.Result.{IfOk};
ghost use Rattle.seg_vector.specs.VectorCalls.{IsSomeVector};

use crate::time::Time;
use anyhow::Result;
use std::alloc::Global;
use zaluxhoni::{Heap, Place, Plain, RawRegion, Refusal, Role, SegVec, Steps, Window};

/// Returns a heap of 1024 bytes with a vector without a value.
fn begun<T: Plain>(alloc: Global) -> Result<(Heap, SegVec<T>)>
    ensures { IfOk result (λ made. IsSomeVector T.SIZE T.is_value T.spelling made.0.bytes made.1.place) }
{
    let mut heap = Heap::fresh(Window::new(RawRegion::new(alloc, 1024)?, 0, 1024));
    let handle = heap.allocate(24, Role::Object, &mut Steps::new())?;
    let vector = SegVec::new(&mut heap, Place { handle, at: 0 });
    Ok((heap, vector))
}

/// Puts a value after the last one. The vector stands after the call, also if it is refused.
fn append_value<T: Plain>(heap: &mut Heap, vector: SegVec<T>, value: T) -> Result<(), Refusal>
    requires { IsSomeVector T.SIZE T.is_value T.spelling heap.old.bytes vector.place }
    ensures { IsSomeVector T.SIZE T.is_value T.spelling heap.new.bytes vector.place }
{
    vector.push(heap, value)
}

/// Notes two departures, and reads the second.
fn record(rt: &HostRuntime, heap: &mut Heap, departures: SegVec<Time>) -> Result<()>
    requires { IsSomeVector ⟦<Time as Plain>⟧.SIZE ⟦<Time as Plain>⟧.is_value ⟦<Time as Plain>⟧.spelling
        heap.old.bytes departures.place }
{
    append_value(heap, departures, Time::at(7, 40))?;
    append_value(heap, departures, Time::at(9, 5))?;
    let count = departures.len(heap);
    let Time { hour, minute } = departures.get(heap, 1)?;
    println!(rt; "a type of one's own: {count} departures, the second at {hour}:{minute:02}")?;
    Ok(())
}

/// Makes a heap with a timetable in it, and records two departures.
pub fn record_departures(rt: &HostRuntime) -> Result<()> {
    let (mut heap, departures) = begun::<Time>(rt.alloc())?;
    record(rt, &mut heap, departures)
}
