//! The array of a vector of texts. Each element is a link, which stores a distance, and a length, so elements are moved
//! link by link, within the array and to a longer one.
ghost use Rattle.std.specs.Prelude.{◌+◌, ◌*◌, ◌^◌, ◌<◌};
ghost use Rattle.raw_region.specs.{Format.current, Memory.bytes_of};
ghost use Rattle.offset_link.specs.Link.{link_at};
ghost use Rattle.best_fit.specs.Heap.{ChangesBytes};
ghost use Rattle.seg_vector.specs.TextParts.{Adopts, CarriesElements, AsksArray, CanCarryDown, CanCarryUp, GivesUp};
ghost use Rattle.seg_vector.specs.TextParts.{HasArrayRoom, HasElement, HasElementRoom, HasSpareCapacity};
ghost use Rattle.seg_vector.specs.TextParts.{InsertsGrowing};
ghost use Rattle.seg_vector.specs.TextParts.{InsertsWithin, PutsElement, IsFullVector, IsPutAsked, IsArrayReserved};
ghost use Rattle.seg_vector.specs.TextParts.{SameElement};
ghost use Rattle.seg_vector.specs.TextParts.{IsToBeGivenUp, InsertsElement};
ghost use Rattle.seg_vector.specs.TextsCalls.{IsTextsContainer};

use crate::container_capacity::set_storage;
use crate::owning::{place_text, take};
use crate::places::{ELEMENT_LEN, LEN_OFFSET, len_of, link_of};
use best_fit::{Heap, Place};
use raw_region::Steps;
use seg_types::Refusal;

/// Writes the element at an offset of an array: a link to the block of a text, or null, and the text's length.
pub fn put_element(heap: &mut Heap, array: u64, at: u64, text: Option<u64>, len: u64)
    requires { HasElementRoom heap.old.bytes array at text }
    ensures { PutsElement heap.old heap.new (array + at) text len }
{
    heap.set_link(array, at, text);
    heap.set_word(array, at + LEN_OFFSET, len);
}

/// Copies an element from an offset of one array to an offset of another or the same array. The new link has the same
/// target.
pub fn carry_element(heap: &mut Heap, from: u64, from_at: u64, to: u64, to_at: u64)
    requires element { HasElement heap.old.bytes from from_at }
    requires room { HasElementRoom heap.old.bytes to to_at (link_at (bytes_of heap.old.bytes) (from + from_at)) }
    ensures changes { ChangesBytes current heap.old heap.new (to + to_at) 16 }
    ensures carry { SameElement (bytes_of heap.old.bytes) (bytes_of heap.new.bytes) (from + from_at) (to + to_at) }
{
    let text = heap.link(from, from_at);
    let len = heap.word(from, from_at + LEN_OFFSET);
    put_element(heap, to, to_at, text, len);
}

/// Copies the `n` elements from `from_at` on in the block `from` to `to_at` in the block `to`, first element first.
/// Both can be the same block if the elements move down.
pub fn move_elements_down(heap: &mut Heap, from: u64, from_at: u64, to: u64, to_at: u64, n: u64)
    requires { CanCarryDown heap.old.bytes from from_at to to_at n }
    ensures { CarriesElements heap.old heap.new (from + from_at) (to + to_at) n }
{
    for i in 0..n {
        carry_element(
            heap,
            from,
            from_at + ELEMENT_LEN * i,
            to,
            to_at + ELEMENT_LEN * i,
        );
    }
}

/// Moves the `n` elements from `at` on up by one place, last element first.
pub fn move_elements_up(heap: &mut Heap, array: u64, at: u64, n: u64)
    requires { CanCarryUp heap.old.bytes array at n }
    ensures { CarriesElements heap.old heap.new (array + at) (array + at + 16) n }
{
    for i in 0..n {
        let place = at + ELEMENT_LEN * (n - 1 - i);
        carry_element(heap, array, place, array, place + ELEMENT_LEN);
    }
}

/// Reserves an array of `n` places for the vector of texts at a place, whose capacity is less, and returns the array's
/// handle. It is the old array if that is long enough or can be lengthened in place, and otherwise a new block next to
/// the old one. The vector's words stay.
///
/// # Errors
///
/// `NoSpace` if a new block is needed and no gap is long enough. Nothing changes.
pub fn reserve_array(heap: &mut Heap, place: Place, n: u64) -> Result<u64, Refusal>
    requires texts { IsTextsContainer heap.old.bytes place }
    requires max_size { 16 * n < 2 ^ 64 }
    ensures { AsksArray heap.old heap.new place n result }
{
    if let Some(array) = link_of(heap, place) {
        if heap.room(array) >= ELEMENT_LEN * n {
            return Ok(array);
        }
        if heap.try_extend(array, ELEMENT_LEN * n, &mut Steps::new()) {
            return Ok(array);
        }
    }
    take(heap, ELEMENT_LEN * n)
}

/// Installs the reserved array in the vector of texts at `place`, with capacity `n`. If the array is a new block, it
/// moves the elements into it and frees the old block.
pub fn install_array(heap: &mut Heap, place: Place, array: u64, n: u64)
    requires { IsArrayReserved heap.old place array n }
    ensures { Adopts heap.old heap.new place array n }
{
    let len = len_of(heap, place);
    if let Some(old) = link_of(heap, place) {
        if old != array {
            move_elements_down(heap, old, 0, array, 0, len);
            set_storage(heap, place, array, n);
            heap.deallocate(old, &mut Steps::new());
            return;
        }
    }
    set_storage(heap, place, array, n);
}

/// Inserts the element of a text, whose block is already allocated, at `index`. The elements from there on move up. The
/// capacity must suffice.
pub fn insert_element(heap: &mut Heap, place: Place, index: u64, text: Option<u64>, text_len: u64)
    requires { IsPutAsked heap.old place index text text_len }
    ensures { InsertsElement heap.old heap.new place index text text_len }
{
    let len = len_of(heap, place);
    if let Some(array) = link_of(heap, place) {
        move_elements_up(heap, array, ELEMENT_LEN * index, len - index);
        put_element(heap, array, ELEMENT_LEN * index, text, text_len);
        heap.set_word(place.handle, place.at + LEN_OFFSET, len + 1);
    }
}

/// Returns the length of the array's block, in bytes; 0 if the vector of texts has no block.
pub fn array_room(heap: &Heap, place: Place) -> u64
    requires { IsTextsContainer heap.now.bytes place }
    ensures { HasArrayRoom heap.now.bytes place result }
{
    match link_of(heap, place) {
        None => 0,
        Some(array) => heap.room(array),
    }
}

/// Undoes a reservation of an array: shortens the old array to its former length, or frees the new one.
pub fn undo_reserve(heap: &mut Heap, place: Place, array: u64, room: u64)
    requires { IsToBeGivenUp heap.old place array room }
    ensures { GivesUp heap.old heap.new place array room }
{
    if let Some(old) = link_of(heap, place) {
        if old == array {
            heap.shrink_in_place(array, room, &mut Steps::new());
            return;
        }
    }
    heap.deallocate(array, &mut Steps::new());
}

/// Inserts a text at `index`, within the capacity.
///
/// # Errors
///
/// `NoSpace` if no gap is long enough for the text. Nothing changes.
pub fn insert_within(heap: &mut Heap, place: Place, index: u64, text: &[u8]) -> Result<(), Refusal>
    requires { HasSpareCapacity heap.old.bytes place index }
    ensures { InsertsWithin heap.old heap.new place index text.now result }
{
    let block = place_text(heap, text)?;
    insert_element(heap, place, index, block, text.len() as u64);
    Ok(())
}

/// Inserts a text before the one at `index` in a full vector, which gets a new array of `n` places. It allocates the
/// array first, and then the text's block, while the old array is in use.
///
/// # Errors
///
/// `NoSpace` if no gap is long enough for the array or the text. The same blocks are in use, with the same bytes.
pub fn insert_growing(
    heap: &mut Heap,
    place: Place,
    index: u64,
    text: &[u8],
    n: u64,
) -> Result<(), Refusal>
    requires { IsFullVector heap.old.bytes place index n }
    ensures { InsertsGrowing heap.old heap.new place index text.now n result }
{
    let room = array_room(heap, place);
    let array = reserve_array(heap, place, n)?;
    match place_text(heap, text) {
        Err(refusal) => {
            undo_reserve(heap, place, array, room);
            Err(refusal)
        }
        Ok(block) => {
            install_array(heap, place, array, n);
            insert_element(heap, place, index, block, text.len() as u64);
            Ok(())
        }
    }
}
