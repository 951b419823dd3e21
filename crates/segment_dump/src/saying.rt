//! The size that a dump says.
ghost use Rattle.std.specs.Prelude.{IfSome};
ghost use Rattle.segment_dump.specs.Counting.{BeginsWithSize, SaysSize};
ghost use Rattle.segment_dump.specs.Notes.{without_notes};

use crate::prefix_reading::{behind, next_number};

/// Returns the size of a dump's segment, in bytes, from the second line. Notes after the dump make no difference. For a
/// dump the result is never `None`. Another text has a size too if its first two lines begin as those of a dump.
pub fn declared_size(text: &[u8]) -> Option<u64>
    ensures size { SaysSize (without_notes text.now) result }
    ensures spelled { IfSome result (BeginsWithSize text.now) }
{
    let (size, _rest) = next_number(behind(text, b"segment dump 1\nsize ")?)?;
    Some(size)
}
