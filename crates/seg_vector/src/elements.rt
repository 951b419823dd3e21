//! The elements of a container at a place: calls that read, replace and erase them, and insert them within the
//! capacity.
ghost use Rattle.std.specs.{Prelude.◌≡◌, Prelude.◌+◌, Prelude.◌*◌, Prelude.◌<◌, Prelude.◌≤◌, Prelude.IsTrue};
ghost use Rattle.std.specs.{Prelude.flat_map, Prelude.length, Prelude.true, List.list_all};
ghost use Rattle.raw_region.specs.{Format.current, Memory.HasBytesAt, Memory.bytes_of, Memory.patched};
ghost use Rattle.best_fit.specs.Heap.{ChangesBytes, IsHeap, has_room, live_of};
ghost use Rattle.seg_vector.specs.Elements.{ErasesElement, Extends, HasSpot, Overwrites, PutsAt, ReadsAll, ReadsOne};
ghost use Rattle.seg_vector.specs.Elements.{Truncates};
ghost use Rattle.seg_vector.specs.Containers.{IsStanding, capacity_at, len_at};

use crate::places::{LEN_OFFSET, len_of, link_of};
use best_fit::theorems::loans_write_one_block;
use best_fit::{Heap, Place};
use seg_types::{MAX_SPELLING_LEN, Plain, SHORT_SPELLING_LEN};

/// Returns the bytes of all elements, of `each` bytes each.
pub fn elements(heap: &Heap, place: Place, each: u64) -> &[u8]
    requires { IsStanding heap.now.bytes place each }
    ensures { ReadsAll heap.now.bytes place each result.now }
{
    let len = len_of(heap, place);
    match link_of(heap, place) {
        None => &[],
        Some(storage) => &heap.block(storage)[..(each * len) as usize],
    }
}

/// Returns the bytes of the element at `index`.
pub fn element(heap: &Heap, place: Place, each: u64, index: u64) -> &[u8]
    requires container { IsStanding heap.now.bytes place each }
    requires in_bounds { index < len_at heap.now.bytes place }
    ensures { ReadsOne heap.now.bytes place each index result.now }
{
    let all = elements(heap, place, each);
    let from = (each * index) as usize;
    &all[from..from + each as usize]
}

/// Truncates the container to its first `n` elements.
pub fn truncate(heap: &mut Heap, place: Place, each: u64, n: u64)
    requires container { IsStanding heap.old.bytes place each }
    requires max_count { n ≤ len_at heap.old.bytes place }
    ensures { Truncates heap.old heap.new place each n }
{
    heap.set_word(place.handle, place.at + LEN_OFFSET, n);
}

/// Appends `n` elements of `each` bytes within the capacity. It is inlined, as is `put_at`, so that elements of a known
/// length need no copy loop.
#[inline(always)]
pub fn extend(heap: &mut Heap, place: Place, each: u64, n: u64, bytes: &[u8])
    requires container { IsStanding heap.old.bytes place each }
    requires space { len_at heap.old.bytes place + n ≤ capacity_at heap.old.bytes place }
    requires non_empty { 1 ≤ each }
    requires min_len { length bytes.now ≡ each * n }
    ensures { Extends heap.old heap.new place each n bytes.now }
{
    let len = len_of(heap, place);
    if let Some(storage) = link_of(heap, place) {
        heap.write(storage, each * len, bytes);
        heap.set_word(place.handle, place.at + LEN_OFFSET, len + n);
    }
}

/// Removes the element at `index`. The elements after it move down.
pub fn erase_element(heap: &mut Heap, place: Place, each: u64, index: u64)
    requires container { IsStanding heap.old.bytes place each }
    requires in_bounds { index < len_at heap.old.bytes place }
    ensures { ErasesElement heap.old heap.new place each index }
{
    let len = len_of(heap, place);
    if let Some(storage) = link_of(heap, place) {
        let from = each * index;
        let behind = each * (len - index - 1);
        heap.copy(storage, from + each, storage, from, behind);
        heap.set_word(place.handle, place.at + LEN_OFFSET, len - 1);
    }
}

/// The position of an element to write.
#[derive(Clone, Copy)]
pub enum WritePos {
    /// After the last element.
    End,
    /// Over the element at this index.
    Over(u64),
    /// Before the element at this index. The elements from this index on move up.
    Before(u64),
}

/// Writes an element of `each` bytes at a position.
#[inline(always)]
pub fn put_at(heap: &mut Heap, place: Place, each: u64, spot: WritePos, bytes: &[u8])
    requires container { IsStanding heap.old.bytes place each }
    requires spot { HasSpot heap.old.bytes place spot }
    requires non_empty { 1 ≤ each }
    requires min_len { length bytes.now ≡ each }
    ensures { PutsAt heap.old heap.new place each spot bytes.now }
{
    match spot {
        WritePos::End => extend(heap, place, each, 1, bytes),
        WritePos::Over(index) => {
            if let Some(storage) = link_of(heap, place) {
                heap.write(storage, each * index, bytes);
            }
        }
        WritePos::Before(index) => {
            let len = len_of(heap, place);
            if let Some(storage) = link_of(heap, place) {
                let from = each * index;
                let behind = each * (len - index);
                heap.copy(storage, from, storage, from + each, behind);
                heap.write(storage, from, bytes);
                heap.set_word(place.handle, place.at + LEN_OFFSET, len + 1);
            }
        }
    }
}

/// Writes a value at a position.
#[inline(always)]
pub fn put_value<T: Plain>(heap: &mut Heap, place: Place, spot: WritePos, value: T)
    requires container { IsStanding heap.old.bytes place T.SIZE }
    requires spot { HasSpot heap.old.bytes place spot }
    ensures value { T.is_value value ≡ true }
    ensures effect { PutsAt heap.old heap.new place T.SIZE spot (T.spelling value) }
{
    if T::SIZE as usize <= SHORT_SPELLING_LEN {
        put_by::<T, SHORT_SPELLING_LEN>(heap, place, spot, value);
    } else {
        put_by::<T, MAX_SPELLING_LEN>(heap, place, spot, value);
    }
}

/// Writes the value through a buffer of `N` bytes.
#[inline(always)]
fn put_by<T: Plain, const N: usize>(heap: &mut Heap, place: Place, spot: WritePos, value: T)
    requires buffer { T.SIZE ≤ N }
    requires max_len { N ≤ 4096 }
    requires container { IsStanding heap.old.bytes place T.SIZE }
    requires spot { HasSpot heap.old.bytes place spot }
    ensures value { T.is_value value ≡ true }
    ensures effect { PutsAt heap.old heap.new place T.SIZE spot (T.spelling value) }
{
    let mut buffer = [0u8; N];
    let bytes = &mut buffer[..T::SIZE as usize];
    value.write(bytes);
    put_at(heap, place, T::SIZE, spot, bytes);
}

/// Encodes a value into `slice`, at the byte `from`.
fn put_spelling<T: Plain>(slice: &mut [u8], from: usize, value: T)
    requires { from + T.SIZE ≤ length slice.old }
    ensures value { T.is_value value ≡ true }
    ensures slice { slice.new ≡ patched slice.old from (T.spelling value) }
{
    value.write(&mut slice[from..from + T::SIZE as usize]);
}

/// Encodes values into `slice` one after another, from the byte `from` on.
fn put_spellings<T: Plain>(slice: &mut [u8], from: usize, values: &[T])
    requires { from + T.SIZE * length values.now ≤ length slice.old }
    ensures values { IsTrue (list_all T.is_value values.now) }
    ensures slice { slice.new ≡ patched slice.old from (flat_map T.spelling values.now) }
{
    let each = T::SIZE as usize;
    'values: for i in 0..values.len() {
        put_spelling(slice, from + each * i, values[i]);
    }
}

/// Encodes values into a block one after another, from `at` on.
pub fn spell<T: Plain>(heap: &mut Heap, handle: u64, at: u64, values: &[T])
    requires heap { IsHeap current heap.old.bytes }
    requires room { IsTrue (has_room (live_of heap.old.bytes) handle (at + T.SIZE * length values.now)) }
    ensures values { IsTrue (list_all T.is_value values.now) }
    ensures changes { ChangesBytes current heap.old heap.new (handle + at) (T.SIZE * length values.now) }
    ensures content { HasBytesAt (bytes_of heap.new.bytes) (handle + at) (flat_map T.spelling values.now) }
{
    loans_write_one_block();
    put_spellings(heap.block_mut(handle), at as usize, values);
}

/// Replaces the elements from `first` on by these values.
pub fn put_over<T: Plain>(heap: &mut Heap, place: Place, first: u64, values: &[T])
    requires container { IsStanding heap.old.bytes place T.SIZE }
    requires in_bounds { first + length values.now ≤ len_at heap.old.bytes place }
    requires non_empty { 1 ≤ length values.now }
    ensures values { IsTrue (list_all T.is_value values.now) }
    ensures overwrite { Overwrites heap.old heap.new place T.SIZE first (flat_map T.spelling values.now) }
{
    if let Some(storage) = link_of(heap, place) {
        spell(heap, storage, T::SIZE * first, values);
    }
}

/// Appends values, one after another, within the capacity.
pub fn put_behind<T: Plain>(heap: &mut Heap, place: Place, values: &[T])
    requires container { IsStanding heap.old.bytes place T.SIZE }
    requires space { len_at heap.old.bytes place + length values.now ≤ capacity_at heap.old.bytes place }
    ensures values { IsTrue (list_all T.is_value values.now) }
    ensures effect { Extends heap.old heap.new place T.SIZE (length values.now) (flat_map T.spelling values.now) }
{
    let len = len_of(heap, place);
    let more = values.len() as u64;
    if let Some(storage) = link_of(heap, place) {
        spell(heap, storage, T::SIZE * len, values);
        heap.set_word(place.handle, place.at + LEN_OFFSET, len + more);
    }
}
