//! A map in a block of a heap of 1024 bytes: from tickets to tickets, a caller's own type.
ghost use Rattle.std.specs.Result.{IfOk};
ghost use Rattle.seg_map.specs.Places.{IsSomeMap};

use crate::checks::same;
use crate::ticket::Ticket;
use best_fit::{Heap, NoSpace};
use block_tags::Role;
use raw_region::{RawRegion, Steps, Window};
use seg_map::{Place, SegMap};
use seg_types::Plain;
use std::alloc::Global;
use std::test::Fail;

/// Returns a heap with a map without a pair. The block of the map has 48 bytes, and the rest of 880 is free.
fn begun<K: Plain, V: Plain>(alloc: Global) -> Result<(Heap, SegMap<K, V>), Fail>
    ensures { IfOk result (λ made. IsSomeMap K.Plain V.Plain made.0.bytes made.1.place.handle made.1.place.at) }
{
    let mut heap = Heap::fresh(Window::new(RawRegion::new(alloc, 1024)?, 0, 1024));
    let handle = heap.allocate(24, Role::Object, &mut Steps::new())?;
    let map = SegMap::new(&mut heap, Place { handle, at: 0 });
    Ok((heap, map))
}

// The map stands behind each call, also where it is refused.

fn put<K: Plain, V: Plain>(
    heap: &mut Heap,
    map: SegMap<K, V>,
    key: K,
    value: V,
) -> Result<bool, NoSpace>
    requires { IsSomeMap K.Plain V.Plain heap.old.bytes map.place.handle map.place.at }
    ensures { IsSomeMap K.Plain V.Plain heap.new.bytes map.place.handle map.place.at }
{
    map.put(heap, key, value, &mut Steps::new())
}

fn get<K: Plain, V: Plain>(heap: &Heap, map: SegMap<K, V>, key: K) -> Option<V>
    requires { IsSomeMap K.Plain V.Plain heap.now.bytes map.place.handle map.place.at }
{
    map.get(heap, key, &mut Steps::new())
}

fn first_from<K: Plain, V: Plain>(heap: &Heap, map: SegMap<K, V>, key: K) -> Option<(K, V)>
    requires { IsSomeMap K.Plain V.Plain heap.now.bytes map.place.handle map.place.at }
{
    map.first_from(heap, key, &mut Steps::new())
}

fn next_after<K: Plain, V: Plain>(heap: &Heap, map: SegMap<K, V>, key: K) -> Option<(K, V)>
    requires { IsSomeMap K.Plain V.Plain heap.now.bytes map.place.handle map.place.at }
{
    map.next_after(heap, key, &mut Steps::new())
}

#[test]
fn tickets_lead_to_tickets(rt: HostRuntime) -> Result<(), Fail> {
    let (mut heap, map) = begun::<Ticket, Ticket>(rt.alloc())?;
    let (one, ten, forty) = (Ticket::plain(1), Ticket::plain(10), Ticket::urgent(40));
    same(&rt, put(&mut heap, map, one, ten), Ok(true));
    same(&rt, get(&heap, map, one), Some(ten));
    same(&rt, put(&mut heap, map, one, forty), Ok(false));
    same(&rt, get(&heap, map, one), Some(forty));
    same(&rt, get(&heap, map, forty), None);
    drop(heap);
    Ok(())
}

// The urgent ones come first, each group by its numbers.
#[test]
fn tickets_rise(rt: HostRuntime) -> Result<(), Fail> {
    let (mut heap, map) = begun::<Ticket, Ticket>(rt.alloc())?;
    let (one, two) = (Ticket::plain(1), Ticket::urgent(2));
    same(&rt, put(&mut heap, map, one, one), Ok(true));
    same(&rt, put(&mut heap, map, two, two), Ok(true));
    let first = first_from(&heap, map, Ticket::urgent(0));
    same(&rt, first, Some((two, two)));
    same(&rt, next_after(&heap, map, two), Some((one, one)));
    same(&rt, next_after(&heap, map, one), None);
    drop(heap);
    Ok(())
}
