//! The only access from an entry to its key. It counts each comparison. The first eight bytes of a name, as one number,
//! distinguish most names in one step.
ghost use Rattle.std.specs.Prelude.{◌≡◌, ◌+◌, ◌*◌, ◌%◌, ◌^◌, ◌<◌, IsTrue};
ghost use Rattle.std.specs.{Cmp.Lexicographic.slice_cmp, Ordering.nat_cmp};
ghost use Rattle.raw_region.specs.{Memory.bytes_of, Format.current};
ghost use Rattle.best_fit.specs.Heap.{IsHeap, has_room, live_of};
ghost use Rattle.seg_index.specs.Beginnings.{prefix as prefix_of_bytes, key_prefix};
ghost use Rattle.seg_index.specs.{Comparing.IsKeyedEntry, Comparing.order_at, Keys.name_at, Keys.name_len_at};

use crate::keys::Entry;
use best_fit::Heap;
use byteorder::{BigEndian, ByteOrder};
use raw_region::bytes_are_octets;
use std::cmp::Ordering;

/// A number in the low half of a word.
const HALF: u64 = 4294967296;

/// The entries of a block, with the number of key comparisons of a search.
#[derive(Drop)]
pub struct ComparisonCounter<'a> {
    heap: &'a Heap,
    key: Entry<'a>,
    /// The first bytes of the key as a number, if the key is a name.
    prefix: u64,
    block: u64,
    count: u64,
}

impl<'a> ComparisonCounter<'a> {
    /// Makes a counter with the value 0.
    pub fn new(heap: &'a Heap, key: Entry<'a>, block: u64) -> ComparisonCounter<'a>
        ensures heap { result.heap.now ≡ heap.now }
        ensures key { result.key ≡ key.entry }
        ensures prefix { result.prefix ≡ key_prefix result.key }
        ensures block { result.block ≡ block }
        ensures count { result.count ≡ 0 }
    {
        ComparisonCounter {
            heap,
            key,
            prefix: prefix_of(key),
            block,
            count: 0,
        }
    }

    /// Returns the number of comparisons.
    pub fn count(&self) -> u64
        ensures { result ≡ self.now.count }
    {
        self.count
    }

    /// Compares the key of the entry at `i` with the wanted key.
    pub fn compare(&mut self, i: u64) -> Ordering
        requires entry { IsKeyedEntry self.old.heap.now self.old.key self.old.block i }
        requires prefix { self.old.prefix ≡ key_prefix self.old.key }
        requires room { self.old.count < 2 ^ 63 }
        ensures order { result ≡ order_at (bytes_of self.old.heap.now.bytes) self.old.key self.old.block i }
        ensures steps_lower { self.new ≡ record self.old { count = self.old.count + 1 } }
    {
        self.count += 1;
        let handle = self.heap.link(self.block, 8 * i).unwrap_or(0);
        match self.key {
            Entry::Name(name) => order_of_name(self.heap, name, self.prefix, handle),
            Entry::Code(code) => (self.heap.word(handle, 0) % HALF).cmp(&u64::from(code)),
        }
    }
}

/// Compares the name of an object with a name whose front is known. Names of equal length up to eight bytes with equal
/// fronts are equal; of other names with equal fronts it compares all bytes.
fn order_of_name(heap: &Heap, name: &[u8], prefix: u64, handle: u64) -> Ordering
    requires heap { IsHeap current heap.now.bytes }
    requires room { IsTrue (has_room (live_of heap.now.bytes) handle
        (16 + name_len_at (bytes_of heap.now.bytes) handle)) }
    requires prefix { prefix ≡ prefix_of_bytes name.now }
    ensures { result ≡ slice_cmp nat_cmp (name_at (bytes_of heap.now.bytes) handle) name.now }
{
    let len = heap.word(handle, 8) % HALF;
    let found = heap.bytes(handle, 16, len);
    bytes_are_octets(found);
    bytes_are_octets(name);
    let begun = prefix_at(heap, handle, len);
    if begun != prefix {
        return begun.cmp(&prefix);
    }
    if found.len() == name.len() && name.len() <= 8 {
        return Ordering::Equal;
    }
    found.cmp(name)
}

/// The number of leading bytes of a name that are compared as one number.
const NAME_PREFIX: usize = 8;

/// Returns the front of the wanted name: its first bytes as a number; 0 for a code.
fn prefix_of(key: Entry<'_>) -> u64
    ensures { result ≡ key_prefix key.entry }
{
    let Entry::Name(name) = key else { return 0 };
    if name.len() >= NAME_PREFIX {
        return BigEndian::read_u64(name);
    }
    let mut bytes = [0; NAME_PREFIX];
    bytes[..name.len()].copy_from_slice(name);
    BigEndian::read_u64(&bytes)
}

/// Returns the front of an object's name of `len` bytes: its first eight bytes as a number. For a shorter name it also
/// reads eight bytes, since at least 16 bytes follow each block; the bytes after the name count as zeros.
fn prefix_at(heap: &Heap, handle: u64, len: u64) -> u64
    requires heap { IsHeap current heap.now.bytes }
    requires room { IsTrue (has_room (live_of heap.now.bytes) handle (16 + len)) }
    requires len { len ≡ name_len_at (bytes_of heap.now.bytes) handle }
    ensures { result ≡ prefix_of_bytes (name_at (bytes_of heap.now.bytes) handle) }
{
    let at = handle as usize + 16;
    let bytes = heap.as_bytes();
    bytes_are_octets(bytes);
    let word = BigEndian::read_u64(&bytes[at..at + NAME_PREFIX]);
    if len >= NAME_PREFIX as u64 {
        return word;
    }
    word - (word & (u64::MAX >> (8 * len)))
}
