//! The reason why bytes are no image, and the byte that shows it.

use crate::classes::ImageClass;
use thiserror::Error;

/// An offset in an image, in bytes from its start.
pub type Offset = u64;

/// The reason why bytes are not the image of a directory: the first class that they show, and the offset that shows it.
/// It is printed as its class.
#[derive(Clone, Copy, Debug, PartialEq, Eq, Error)]
#[error("{class}")]
pub struct Verdict {
    /// The class.
    pub class: ImageClass,
    /// The offset of the byte that shows the class.
    pub place: Offset,
}
