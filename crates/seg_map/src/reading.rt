//! Reads keys and values, and defines the target of a search.
ghost use Rattle.std.specs.Prelude.{◌≡◌, ◌+◌, IsTrue};
ghost use Rattle.raw_region.specs.Memory.{bytes_of, read};
ghost use Rattle.best_fit.specs.Heap.{has_room, live_of};
ghost use Rattle.seg_types.specs.Plain.{value_in};
ghost use Rattle.seg_map.specs.Searches.{item_at};

use best_fit::Heap;
use seg_types::Plain;

/// The offset of the key in a node's block, in bytes.
pub const KEY_OFFSET: u64 = 16;

/// A key as the target of a search. Pairs with lesser keys precede it; if `past` is set, so does the pair with this
/// key.
#[derive(Drop)]
pub struct KeyProbe<K> {
    /// The key.
    pub key: K,
    /// Whether the pair with this key precedes the probe.
    pub past: bool,
}

/// Returns the value that the bytes at `at` in a block encode, or `None` if they encode no value.
pub fn value_at<T: Plain>(heap: &Heap, handle: u64, at: u64) -> Option<T>
    requires { IsTrue (has_room (live_of heap.now.bytes) handle (at + T.SIZE)) }
    ensures { result ≡ value_in T.reading T.is_value T.spelling (read (bytes_of heap.now.bytes) (handle + at) T.SIZE) }
{
    T::read(heap.bytes(handle, at, T::SIZE))
}

/// Returns the pair that the bytes of a node encode, or `None` if they encode none.
pub fn pair_at<K: Plain, V: Plain>(heap: &Heap, node: u64) -> Option<(K, V)>
    requires { IsTrue (has_room (live_of heap.now.bytes) node (16 + K.SIZE + V.SIZE)) }
    ensures { result ≡ item_at K.Plain V.Plain (bytes_of heap.now.bytes) node }
{
    let key = value_at::<K>(heap, node, KEY_OFFSET)?;
    let value = value_at::<V>(heap, node, KEY_OFFSET + K::SIZE)?;
    Some((key, value))
}
