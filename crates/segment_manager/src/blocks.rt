//! Blocks and gaps: their report, and walks over them.
pub(crate) mod tiles;
