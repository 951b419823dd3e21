//! The mode in which a segment is open.

/// The mode in which a segment is open.
#[derive(Clone, Copy, Debug, PartialEq, Eq)]
pub enum Mode {
    /// Commands can change the segment, and the changes are saved.
    Write,
    /// Commands that can change the segment fail.
    ReadOnly,
    /// Commands can change the segment, and the changes are not saved.
    CopyOnWrite,
}
