//! The offsets and values of the words in a segment's header and in an object's head.
//!
//! All lengths are in bytes. Offsets in the header count from the start of the segment, offsets in an object from its
//! handle. A word has 8 bytes.
ghost use Rattle.std.specs.Prelude.{◌≡◌, ◌+◌, ◌<◌, ◌^◌};
ghost use Rattle.segment_manager.specs.{Directory.padded as padded_of, Layout.head_len};

/// `MSEGFILE`, lowest byte first.
pub const MAGIC: u64 = 0x454C_4946_4745_534D;

/// The number of the current format.
pub const FORMAT: u64 = 2;

/// The offset of the magic number in the header.
pub const MAGIC_AT: u64 = 0;

/// The offset of the format number in the header.
pub const FORMAT_AT: u64 = 8;

/// The offset in the header of the segment's size in bytes.
pub const SIZE_AT: u64 = 16;

/// The offset in the header of the index of names: the link to its block, the number of its entries, and its capacity.
pub const NAMED_AT: u64 = 32;

/// The offset in the header of the index of kinds: the same three words.
pub const UNIQUE_AT: u64 = 56;

/// The offset of the reserved bytes in the header. They are 0, up to the first block or gap.
pub const RESERVED_AT: u64 = 80;

/// The offset of the second word of an object's head: the length of the name, and the class in the upper half. The
/// first word is the code of the kind, and the number of elements in the upper half.
pub const NAME_CLASS_AT: u64 = 8;

/// The length of a head. The name follows, with zeros up to a multiple of 8, and then the value.
pub const HEAD_LEN: u64 = 16;

/// The length of a container in its object: a link to its storage or its root, and two words.
pub const CONTAINER_LEN: u64 = 24;

/// The value of a 1 in the upper half of a word.
pub const HALF: u64 = 0x1_0000_0000;

/// Rounds a length up to a multiple of 8.
pub fn padded(len: u64) -> u64
    requires { len < 2 ^ 32 }
    ensures { result ≡ padded_of len }
{
    (len + 7) / 8 * 8
}

/// Returns the offset of an object's value, after a name of `name_len` bytes.
pub fn value_at(name_len: u64) -> u64
    requires { name_len < 2 ^ 32 }
    ensures { result ≡ head_len + padded_of name_len }
{
    HEAD_LEN + padded(name_len)
}
