//! A vector in a block of a heap of 1024 bytes, of tickets, a caller's own type.
ghost use Rattle.std.specs.Result.{IfOk};
ghost use Rattle.seg_vector.specs.VectorCalls.{IsSomeVector};

use crate::checks::same;
use crate::ticket::Ticket;
use best_fit::Heap;
use block_tags::Role;
use raw_region::{RawRegion, Steps, Window};
use seg_types::{Plain, Refusal};
use seg_vector::{Place, SegVec};
use std::alloc::Global;
use std::test::Fail;

/// Returns a heap with a vector without a value.
fn begun<T: Plain>(alloc: Global) -> Result<(Heap, SegVec<T>), Fail>
    ensures { IfOk result (λ made. IsSomeVector T.SIZE T.is_value T.spelling made.0.bytes made.1.place) }
{
    let mut heap = Heap::fresh(Window::new(RawRegion::new(alloc, 1024)?, 0, 1024));
    let handle = heap.allocate(24, Role::Object, &mut Steps::new())?;
    let vector = SegVec::new(&mut heap, Place { handle, at: 0 });
    Ok((heap, vector))
}

// The vector stands behind each call, also where it is refused.

fn push<T: Plain>(heap: &mut Heap, vector: SegVec<T>, value: T) -> Result<(), Refusal>
    requires { IsSomeVector T.SIZE T.is_value T.spelling heap.old.bytes vector.place }
    ensures { IsSomeVector T.SIZE T.is_value T.spelling heap.new.bytes vector.place }
{
    vector.push(heap, value)
}

fn insert<T: Plain>(heap: &mut Heap, vector: SegVec<T>, index: u64, value: T) -> Result<(), Refusal>
    requires { IsSomeVector T.SIZE T.is_value T.spelling heap.old.bytes vector.place }
    ensures { IsSomeVector T.SIZE T.is_value T.spelling heap.new.bytes vector.place }
{
    vector.insert(heap, index, value)
}

/// Returns the length and the capacity.
fn sizes<T: Plain>(heap: &Heap, vector: SegVec<T>) -> (u64, u64)
    requires { IsSomeVector T.SIZE T.is_value T.spelling heap.now.bytes vector.place }
{
    (vector.len(heap), vector.capacity(heap))
}

#[test]
fn tickets_stand_in_a_vector(rt: HostRuntime) -> Result<(), Fail> {
    let (mut heap, tickets) = begun::<Ticket>(rt.alloc())?;
    same(&rt, push(&mut heap, tickets, Ticket::plain(258)), Ok(()));
    same(&rt, push(&mut heap, tickets, Ticket::urgent(9)), Ok(()));
    let inserted = insert(&mut heap, tickets, 1, Ticket::urgent(0));
    same(&rt, inserted, Ok(()));
    same(&rt, tickets.get(&heap, 0), Ok(Ticket::plain(258)));
    same(&rt, tickets.get(&heap, 1), Ok(Ticket::urgent(0)));
    same(&rt, tickets.get(&heap, 2), Ok(Ticket::urgent(9)));
    same(&rt, sizes(&heap, tickets), (3, 4));
    drop(heap);
    Ok(())
}
