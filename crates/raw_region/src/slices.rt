//! Words in a slice of bytes, lowest byte first, and the bound on the bytes of a slice.
ghost use Rattle.std.specs.Prelude.{◌≡◌, ◌+◌, ◌≤◌, IsTrue, length};
ghost use Rattle.raw_region.specs.Memory.{AreBytes, are_bytes, bytes_of, word_at, word_bytes, patched};

use byteorder::{ByteOrder, LittleEndian};

/// Returns the number in the 8 bytes at `at`.
#[tactic(auto, using(crate::proofs::words::Patches::words))]
pub fn word_in(bytes: &[u8], at: usize) -> u64
    requires { at + 8 ≤ length bytes.now }
    ensures { result ≡ word_at (bytes_of bytes.now) at }
{
    LittleEndian::read_u64(&bytes[at..at + 8])
}

/// Writes a number into the 8 bytes at `at`.
#[tactic(auto, using(crate::proofs::words::Patches::words))]
pub fn set_word_in(bytes: &mut [u8], at: usize, value: u64)
    requires { at + 8 ≤ length bytes.old }
    ensures { bytes.new ≡ patched bytes.old at (word_bytes value) }
{
    LittleEndian::write_u64(&mut bytes[at..at + 8], value);
}

/// States that the elements of a slice of type `u8` are below 256. It does nothing: a contract knows the bound only for
/// a parameter, from its type.
#[inline(always)]
pub fn bytes_are_octets(bytes: &[u8])
    ensures each_element { AreBytes bytes.now }
    ensures every { IsTrue (are_bytes bytes.now) }
{}
