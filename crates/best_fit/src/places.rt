//! Places in blocks.

/// A place in a block: `at` bytes after its handle.
#[derive(Clone, Copy, Debug)]
pub struct Place {
    /// The block's handle.
    pub handle: u64,
    /// The offset in the block, in bytes.
    pub at: u64,
}
