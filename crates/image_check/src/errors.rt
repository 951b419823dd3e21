//! The errors of the calls that open an image.
ghost use Rattle.std.specs.Prelude.{◌≡◌};

use crate::room::NoBlockMemory;
use crate::verdict::Verdict;
use raw_region::{OutOfMemory, RawRegion};
use std::fmt;
use thiserror::Error;

/// The reason why no segment was opened.
#[derive(Clone, Copy, Debug, PartialEq, Eq, Error)]
pub enum OpenError {
    /// The image denotes no directory: the first class that it shows, and the byte that shows it.
    #[error("image refused: {0}")]
    Image(Verdict),
    /// The region ends before base plus the size in the image.
    #[error("region too small")]
    RegionTooSmall,
    /// The allocator refused memory. The check of an image allocates memory for the image's blocks.
    #[error("out of memory")]
    OutOfMemory(MemoryFault),
    /// The reader failed before the bytes read so far decided a class.
    #[error("read fault")]
    ReadFault,
}

/// The refused allocation, if several are possible. Each variant holds an error that only one allocation makes.
#[derive(Clone, Copy, Debug, PartialEq, Eq, Error)]
#[error("out of memory")]
pub enum MemoryFault {
    /// The allocation of the bytes of a region or a text.
    Bytes(OutOfMemory),
    /// The allocation for the blocks of an image in a check.
    BlockMap(NoBlockMemory),
}

/// The error of an opening. It returns the region. The region's bytes are unchanged, except the window at the base with
/// the size in the image's front, if the region has room for it. It is printed as its cause.
#[derive(Drop, Error)]
#[error("{cause}")]
pub struct OpenRefused {
    /// The region from the call.
    pub region: RawRegion,
    /// The reason.
    pub cause: OpenError,
}

impl OpenRefused {
    /// Returns the region from the call, and the reason.
    pub fn into_parts(self) -> (RawRegion, OpenError)
        ensures region { result.0 ≡ self.region }
        ensures cause { result.1 ≡ self.cause }
    {
        (self.region, self.cause)
    }

    /// Returns the region from the call.
    pub fn into_region(self) -> RawRegion
        ensures { result ≡ self.region }
    {
        self.region
    }
}

/// Prints the cause, without the region's bytes.
impl fmt::Debug for OpenRefused {
    fn fmt<W: fmt::Write>(&self, f: &mut fmt::Formatter<W>) -> fmt::Result {
        write!(f, "OpenRefused({:?})", self.cause)
    }
}

impl From<OpenRefused> for OpenError {
    ghost from_gives = { λ refused error. error ≡ refused.cause };

    fn from(refused: OpenRefused) -> OpenError {
        refused.cause
    }
}
