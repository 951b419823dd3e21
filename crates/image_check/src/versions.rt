//! The versions of the format that a call accepts.
ghost use Rattle.std.specs.Prelude.{◌≡◌, ◌≤◌, length};
ghost use Rattle.image_check.specs.Formats.{is_taken, version_word};

use byteorder::{ByteOrder, LittleEndian};
use segment_manager::layout::{FORMAT, FORMAT_AT};

/// The versions of the format that a call accepts.
#[derive(Clone, Copy)]
pub enum AcceptedVersions {
    /// The current format.
    Current,
    /// The current format and the two before it.
    All,
}

impl AcceptedVersions {
    /// Returns true if a version is accepted.
    pub fn has(self, version: u64) -> bool
        ensures { result ≡ is_taken self version }
    {
        match self {
            AcceptedVersions::Current => version == FORMAT,
            AcceptedVersions::All => version <= FORMAT,
        }
    }
}

/// Returns the version in the front of an image.
pub fn version_in(front: &[u8]) -> u64
    requires { 12 ≤ length front.now }
    ensures { result ≡ version_word front.now }
{
    let at = FORMAT_AT as usize;
    u64::from(LittleEndian::read_u32(&front[at..at + 4]))
}
