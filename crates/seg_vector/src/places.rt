//! The place of a container, and its three words.
ghost use Rattle.std.specs.Prelude.{◌≡◌, ◌+◌, ◌%◌, IsTrue};
ghost use Rattle.raw_region.specs.{Format.current, Memory.bytes_of};
ghost use Rattle.offset_link.specs.Link.{link_at};
ghost use Rattle.best_fit.specs.Heap.{IsHeap, has_room, live_of};
ghost use Rattle.seg_vector.specs.Containers.{capacity_at, len_at, place_at};

use best_fit::{Heap, Place};

/// The distance in bytes from a container's link to its length.
pub const LEN_OFFSET: u64 = 8;

/// The distance in bytes from a container's link to its capacity.
pub const CAPACITY: u64 = 16;

/// The length in bytes of an element of a vector of texts: the link to the text's block, and the text's length.
pub const ELEMENT_LEN: u64 = 16;

/// Returns the target of the link of the container at a place.
pub fn link_of(heap: &Heap, place: Place) -> Option<u64>
    requires aligned { place.at % 8 ≡ 0 }
    requires room { IsTrue (has_room (live_of heap.now.bytes) place.handle (place.at + 24)) }
    ensures { result ≡ link_at (bytes_of heap.now.bytes) (place_at place) }
{
    heap.link(place.handle, place.at)
}

/// Returns the length of the container at a place.
pub fn len_of(heap: &Heap, place: Place) -> u64
    requires heap { IsHeap current heap.now.bytes }
    requires room { IsTrue (has_room (live_of heap.now.bytes) place.handle (place.at + 24)) }
    ensures { result ≡ len_at heap.now.bytes place }
{
    heap.word(place.handle, place.at + LEN_OFFSET)
}

/// Returns the capacity of the container at a place.
pub fn capacity_of(heap: &Heap, place: Place) -> u64
    requires heap { IsHeap current heap.now.bytes }
    requires room { IsTrue (has_room (live_of heap.now.bytes) place.handle (place.at + 24)) }
    ensures { result ≡ capacity_at heap.now.bytes place }
{
    heap.word(place.handle, place.at + CAPACITY)
}
