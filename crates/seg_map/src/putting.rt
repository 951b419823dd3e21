//! Writes pairs.
ghost use Rattle.std.specs.Prelude.{◌≡◌, ◌+◌, ◌<◌, ◌≤◌, IsTrue, is_ok, true};
ghost use Rattle.raw_region.specs.{Format.current, Memory.HasBytesAt, Memory.bytes_of};
ghost use Rattle.best_fit.specs.Heap.{ChangesBytes, has_room, heap_touches, live_of};
ghost use Rattle.seg_map.specs.Changing.{AllocatesNode};

use crate::reading::KEY_OFFSET;
use best_fit::{Heap, NoSpace, RIGHT_LINK};
use block_tags::Role;
use raw_region::Steps;
use seg_types::{MAX_SPELLING_LEN, Plain, SHORT_SPELLING_LEN};

/// Writes a value at `at` in a block.
pub fn write_value<T: Plain>(heap: &mut Heap, handle: u64, at: u64, value: T)
    requires { IsTrue (has_room (live_of heap.old.bytes) handle (at + T.SIZE)) }
    ensures value { T.is_value value ≡ true }
    ensures changes { ChangesBytes current heap.old heap.new (handle + at) T.SIZE }
    ensures content { HasBytesAt (bytes_of heap.new.bytes) (handle + at) (T.spelling value) }
{
    if T::SIZE as usize <= SHORT_SPELLING_LEN {
        write_by::<T, SHORT_SPELLING_LEN>(heap, handle, at, value);
    } else {
        write_by::<T, MAX_SPELLING_LEN>(heap, handle, at, value);
    }
}

/// Writes the value through a buffer of `N` bytes.
fn write_by<T: Plain, const N: usize>(heap: &mut Heap, handle: u64, at: u64, value: T)
    requires buffer { T.SIZE ≤ N }
    requires max_len { N ≤ 4096 }
    requires room { IsTrue (has_room (live_of heap.old.bytes) handle (at + T.SIZE)) }
    ensures value { T.is_value value ≡ true }
    ensures changes { ChangesBytes current heap.old heap.new (handle + at) T.SIZE }
    ensures content { HasBytesAt (bytes_of heap.new.bytes) (handle + at) (T.spelling value) }
{
    let mut buffer = [0u8; N];
    let bytes = &mut buffer[..T::SIZE as usize];
    value.write(bytes);
    heap.write(handle, at, bytes);
}

/// Allocates a block for a pair, with null links, the key and the value, and returns its handle.
///
/// # Errors
///
/// `NoSpace` if no gap is long enough. Nothing changes.
pub fn allocate_node<K: Plain, V: Plain>(
    heap: &mut Heap,
    key: K,
    value: V,
    steps: &mut Steps,
) -> Result<u64, NoSpace>
    ensures creation { AllocatesNode K.Plain V.Plain heap.old heap.new key value result }
    ensures steps_lower { steps.old ≤ steps.new }
    ensures progress { is_ok result ≡ true → steps.old < steps.new }
    ensures steps { steps.new ≤ steps.old + heap_touches (live_of heap.old.bytes) }
{
    let node = heap.allocate(KEY_OFFSET + K::SIZE + V::SIZE, Role::Node, steps)?;
    heap.set_link(node, 0, None);
    heap.set_link(node, RIGHT_LINK, None);
    write_value::<K>(heap, node, KEY_OFFSET, key);
    write_value::<V>(heap, node, KEY_OFFSET + K::SIZE, value);
    Ok(node)
}
