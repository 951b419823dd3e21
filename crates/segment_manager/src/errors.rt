//! The errors of `create` and `relocate`. Each returns the arguments. They are dropped if `?` converts the error to
//! another type.
ghost use Rattle.std.specs.Prelude.{◌≡◌};

use crate::segment::Segment;
use raw_region::RawRegion;
use std::fmt;
use thiserror::Error;

/// The reason why no segment of this size can be created.
#[derive(Clone, Copy, Debug, PartialEq, Eq, Error)]
pub enum CreateError {
    /// The size is neither 144 nor a multiple of 16 from 176 to 1073741824.
    #[error("size refused")]
    BadSize,
    /// The region ends before base plus size.
    #[error("region too small")]
    RegionTooSmall,
}

/// The error of `create`. It returns the region unchanged. It is printed as its cause.
#[derive(Drop, Error)]
#[error("{cause}")]
pub struct CreateRefused {
    /// The region from the call.
    pub region: RawRegion,
    /// The reason.
    pub cause: CreateError,
}

impl CreateRefused {
    /// Returns the region, unchanged, and the reason.
    pub fn into_parts(self) -> (RawRegion, CreateError)
        ensures region { result.0 ≡ self.region }
        ensures cause { result.1 ≡ self.cause }
    {
        (self.region, self.cause)
    }

    /// Returns the region, unchanged.
    pub fn into_region(self) -> RawRegion
        ensures { result ≡ self.region }
    {
        self.region
    }
}

/// Prints the cause, without the region's bytes.
impl fmt::Debug for CreateRefused {
    fn fmt<W: fmt::Write>(&self, f: &mut fmt::Formatter<W>) -> fmt::Result {
        write!(f, "CreateRefused({:?})", self.cause)
    }
}

impl From<CreateRefused> for CreateError {
    ghost from_gives = { λ refused error. error ≡ refused.cause };

    fn from(refused: CreateRefused) -> CreateError {
        refused.cause
    }
}

/// The error of `relocate`: the region ends before base plus the segment's size. It returns the segment and the region
/// unchanged.
#[derive(Drop, Error)]
#[error("region too small")]
pub struct RelocateRefused {
    /// The segment from the call.
    pub segment: Segment,
    /// The region from the call.
    pub region: RawRegion,
}

impl RelocateRefused {
    /// Returns the segment and the region, unchanged.
    pub fn into_parts(self) -> (Segment, RawRegion)
        ensures segment { result.0 ≡ self.segment }
        ensures region { result.1 ≡ self.region }
    {
        (self.segment, self.region)
    }
}

/// Prints only its name, without the bytes of the segment and the region.
impl fmt::Debug for RelocateRefused {
    fn fmt<W: fmt::Write>(&self, f: &mut fmt::Formatter<W>) -> fmt::Result {
        write!(f, "RelocateRefused")
    }
}
