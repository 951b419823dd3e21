//! The storage of a container at a place: calls that initialise, grow, shrink and free it.
ghost use Rattle.std.specs.Prelude.{◌≡◌, ℕ, ◌+◌, ◌*◌, ◌%◌, ◌<◌, ◌≤◌, IfSome, IsTrue, []};
ghost use Rattle.raw_region.specs.Format.{current};
ghost use Rattle.best_fit.specs.{Heap.ChangesBytes, Heap.IsHeap, Heap.has_room, Heap.live_of, Table.no_backing};
ghost use Rattle.seg_vector.specs.{Elements.ShrinksStorage, Elements.FreesStorage};
ghost use Rattle.seg_vector.specs.{Vector.capacity_for_more as more_capacity};
ghost use Rattle.seg_vector.specs.{Vector.capacity_for_one as one_capacity};
ghost use Rattle.seg_vector.specs.Containers.{ReservesStorage, GrowsForOne, IsStanding, IsContainer, len_at, place_at};
ghost use Rattle.seg_vector.specs.TextParts.{SetsStorage, SetsWords};

use crate::places::{CAPACITY, LEN_OFFSET, capacity_of, len_of, link_of};
use best_fit::{Heap, NoSpace, Place};
use block_tags::MAX_SEGMENT_LEN;
use raw_region::Steps;
use seg_types::Refusal;

/// Writes the three words of a container: the link to its storage, and `count` as both its length and its capacity.
pub fn set_words(heap: &mut Heap, place: Place, storage: Option<u64>, count: u64)
    requires heap { IsHeap current heap.old.bytes }
    requires aligned { place.at % 8 ≡ 0 }
    requires room { IsTrue (has_room (live_of heap.old.bytes) place.handle (place.at + 24)) }
    requires target_aligned { IfSome storage (λ target. target % 16 ≡ 0) }
    ensures { SetsWords heap.old heap.new place storage count }
{
    heap.set_link(place.handle, place.at, storage);
    heap.set_word(place.handle, place.at + LEN_OFFSET, count);
    heap.set_word(place.handle, place.at + CAPACITY, count);
}

/// Initialises the three words at a place as an empty container without storage. Their old value can be anything; it
/// frees no storage.
pub fn init_container(heap: &mut Heap, place: Place)
    requires heap { IsHeap current heap.old.bytes }
    requires aligned { place.at % 8 ≡ 0 }
    requires room { IsTrue (has_room (live_of heap.old.bytes) place.handle (place.at + 24)) }
    ensures changes { ChangesBytes current heap.old heap.new (place_at place) 24 }
    ensures container { (each : ℕ) → IsContainer heap.new.bytes place each 0 no_backing [] }
{
    set_words(heap, place, None, 0);
}

/// Frees the storage of the container at a place. The container is then empty, with capacity 0.
pub fn free_storage(heap: &mut Heap, place: Place, each: u64)
    requires { IsStanding heap.old.bytes place each }
    ensures { FreesStorage heap.old heap.new place each }
{
    let storage = link_of(heap, place);
    init_container(heap, place);
    if let Some(storage) = storage {
        heap.deallocate(storage, &mut Steps::new());
    }
}

/// Shrinks the capacity of the container to its length, as far as its block can be shortened. An empty container's
/// storage is freed.
pub fn shrink_storage(heap: &mut Heap, place: Place, each: u64)
    requires container { IsStanding heap.old.bytes place each }
    requires non_empty { 1 ≤ each }
    ensures { ShrinksStorage heap.old heap.new place each }
{
    let len = len_of(heap, place);
    if len == 0 {
        free_storage(heap, place, each);
        return;
    }
    if let Some(storage) = link_of(heap, place) {
        heap.set_word(place.handle, place.at + CAPACITY, len);
        heap.shrink_in_place(storage, each * len, &mut Steps::new());
    }
}

/// Sets the link and the capacity of the container at a place. Its length stays.
pub fn set_storage(heap: &mut Heap, place: Place, array: u64, n: u64)
    requires heap { IsHeap current heap.old.bytes }
    requires aligned { place.at % 8 ≡ 0 }
    requires room { IsTrue (has_room (live_of heap.old.bytes) place.handle (place.at + 24)) }
    requires target_aligned { array % 16 ≡ 0 }
    ensures { SetsStorage heap.old heap.new place array n }
{
    heap.set_link(place.handle, place.at, Some(array));
    heap.set_word(place.handle, place.at + CAPACITY, n);
}

/// Makes room for `n` elements of `each` bytes, 1 to 4096, in the container at a place. It does nothing if the capacity
/// is `n` or more; otherwise it regrows the storage to hold exactly `n`.
///
/// # Errors
///
/// `NoSpace` if a new block is needed and no gap is long enough. Nothing changes.
#[inline(always)]
pub fn reserve(heap: &mut Heap, place: Place, each: u64, n: u64) -> Result<(), Refusal>
    requires container { IsStanding heap.old.bytes place each }
    requires non_empty { 1 ≤ each }
    requires max_len { each ≤ 4096 }
    ensures { ReservesStorage heap.old heap.new place each n result }
{
    if n > MAX_SEGMENT_LEN {
        return Err(Refusal::NoSpace);
    }
    if n <= capacity_of(heap, place) {
        return Ok(());
    }
    let used = each * len_of(heap, place);
    let storage = link_of(heap, place);
    match heap.regrow(storage, each * n, used) {
        Err(NoSpace) => Err(Refusal::NoSpace),
        Ok(new) => {
            set_storage(heap, place, new, n);
            Ok(())
        }
    }
}

/// Returns the capacity of a container after one element is appended.
pub fn capacity_for_one(len: u64, capacity: u64) -> u64
    requires { 2 * capacity < 18446744073709551616 }
    ensures { result ≡ one_capacity len capacity }
{
    if len < capacity {
        capacity
    } else {
        (2 * capacity).max(4)
    }
}

/// Returns the capacity of a container after `more` elements are appended.
pub fn capacity_for_more(len: u64, more: u64, capacity: u64) -> u64
    requires no_overflow { len + more < 18446744073709551616 }
    requires max_value { 2 * capacity < 18446744073709551616 }
    ensures { result ≡ more_capacity len more capacity }
{
    if len + more <= capacity {
        capacity
    } else {
        (2 * capacity).max(4).max(len + more)
    }
}

/// Makes room for one element of 1 to 4096 bytes after the `len` elements. If the container is full, it doubles the
/// capacity, to at least 4.
///
/// # Errors
///
/// `NoSpace` if the storage cannot be regrown. Nothing changes.
#[inline(always)]
pub fn grow_for_one(heap: &mut Heap, place: Place, each: u64, len: u64) -> Result<(), Refusal>
    requires container { IsStanding heap.old.bytes place each }
    requires non_empty { 1 ≤ each }
    requires max_len { each ≤ 4096 }
    requires len { len ≡ len_at heap.old.bytes place }
    ensures { GrowsForOne heap.old heap.new place each result }
{
    if len < capacity_of(heap, place) {
        return Ok(());
    }
    grow_full(heap, place, each, len)
}

/// Makes room for one element as `grow_for_one` does. It is not inlined, since few calls need it.
#[inline(never)]
fn grow_full(heap: &mut Heap, place: Place, each: u64, len: u64) -> Result<(), Refusal>
    requires container { IsStanding heap.old.bytes place each }
    requires non_empty { 1 ≤ each }
    requires max_len { each ≤ 4096 }
    requires len { len ≡ len_at heap.old.bytes place }
    ensures { GrowsForOne heap.old heap.new place each result }
{
    let capacity = capacity_of(heap, place);
    reserve(heap, place, each, capacity_for_one(len, capacity))
}
