//! The head of an object, at the front of its block: its kind and count, its name and its class.
ghost use Rattle.std.specs.Prelude.{◌≡◌, ◌+◌, ◌<◌, ◌≤◌, ◌^◌, IsTrue, length};
ghost use Rattle.raw_region.specs.{Format.current, Memory.bytes_of};
ghost use Rattle.best_fit.specs.Heap.{ChangesBytes, IsHeap, has_room, live_of};
ghost use Rattle.seg_types.specs.declared.kinds.Class.{Class as ClassOf};
ghost use Rattle.seg_types.specs.{declared.kinds.Kind.Kind as KindOf, Kinds.class_code, Kinds.code_of};
ghost use Rattle.segment_manager.specs.{Directory.Object, Directory.padded, Layout.head_len};
ghost use Rattle.segment_manager.specs.objects.Standing.{HasObject, IsHeadAt, IsHeadOf, IsObjectInBlock};

use crate::layout::{HALF, HEAD_LEN, NAME_CLASS_AT, padded};
use best_fit::Heap;
use seg_types::{Class, Kind};

/// The fields of an object's head.
#[derive(Clone, Copy, Debug, PartialEq, Eq)]
pub(crate) struct Head {
    pub(crate) kind: Kind,
    /// The number of elements of an array of scalars; 1 for any other object.
    pub(crate) count: u32,
    /// The length of the name in bytes.
    pub(crate) name_len: u8,
    pub(crate) class: Class,
}

/// Returns the head of an object.
#[inline(always)]
pub(crate) fn read_head(heap: &Heap, handle: u64) -> Head
    requires { HasObject heap.now.bytes handle }
    ensures { (o : Object) → IsObjectInBlock heap.now.bytes handle o → IsHeadOf o result }
{
    let first = heap.word(handle, 0);
    let second = heap.word(handle, NAME_CLASS_AT);
    let name_len = (second % HALF) as u8;
    Head {
        kind: kind_of_code((first % HALF) as u32),
        count: (first / HALF) as u32,
        name_len,
        class: class_of_code((second / HALF) as u32),
    }
}

/// Returns the name of an object.
pub(crate) fn read_name(heap: &Heap, handle: u64) -> &[u8]
    requires heap { IsHeap current heap.now.bytes }
    requires object { HasObject heap.now.bytes handle }
    ensures { (o : Object) → IsObjectInBlock heap.now.bytes handle o → result.now ≡ o.name }
{
    let len = heap.word(handle, NAME_CLASS_AT) % HALF;
    let payload = heap.block(handle);
    &payload[HEAD_LEN as usize..(HEAD_LEN + len) as usize]
}

/// Writes the head of an object and its name, with zeros up to a multiple of 8 bytes, at the front of a block.
pub(crate) fn write_head(
    heap: &mut Heap,
    handle: u64,
    kind: Kind,
    count: u32,
    class: Class,
    name: &[u8],
)
    requires room { IsTrue (has_room (live_of heap.old.bytes) handle (head_len + padded (length name.now))) }
    requires max_len { length name.now ≤ 255 }
    ensures changes { ChangesBytes current heap.old heap.new handle (head_len + padded (length name.now)) }
    ensures head { IsHeadAt (bytes_of heap.new.bytes) handle kind count class name.now }
{
    let len = name.len() as u64;
    heap.set_word(handle, 0, u64::from(kind.code()) + HALF * u64::from(count));
    let second = len + HALF * u64::from(code_of_class(class));
    heap.set_word(handle, NAME_CLASS_AT, second);
    heap.write(handle, HEAD_LEN, name);
    let zeros = &[0; 8][..(padded(len) - len) as usize];
    heap.write(handle, HEAD_LEN + len, zeros);
}

/// Returns the kind with a code, or `String` if no kind has it.
#[inline(always)]
fn kind_of_code(code: u32) -> Kind
    ensures { (k : KindOf) → code ≡ code_of k → result ≡ k }
{
    Kind::from_code(code).unwrap_or(Kind::String)
}

/// Returns the code of a class in an image.
fn code_of_class(class: Class) -> u32
    ensures { result ≡ class_code class }
{
    match class {
        Class::Anonymous => 0,
        Class::Named => 1,
        Class::Unique => 2,
    }
}

/// Returns the class with a code. Only three codes have a class.
fn class_of_code(code: u32) -> Class
    ensures { (c : ClassOf) → code ≡ class_code c → result ≡ c }
{
    match code {
        0 => Class::Anonymous,
        1 => Class::Named,
        _ => Class::Unique,
    }
}
