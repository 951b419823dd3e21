//! Why a segment does not grow.

use thiserror::Error;

/// Why a segment does not grow. It is unchanged. The first of these that applies is the answer.
#[derive(Clone, Copy, Debug, PartialEq, Eq, Error)]
pub enum GrowError {
    /// The segment is open for reading.
    #[error("read only")]
    ReadOnly,
    /// The bytes to add are fewer than 32 or no multiple of 16.
    #[error("growth is no multiple of 16 from 32 on")]
    BadGrow,
    /// The size would be above 1073741824.
    #[error("too large")]
    TooLarge,
    /// The region ends before the new size.
    #[error("region too small")]
    RegionTooSmall,
}
