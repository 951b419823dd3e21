//! Iterators over the elements of objects that were looked up, and calls that read several elements.
#![tactic(auto)]

mod elements;
mod maps;

pub use elements::{
    ArrayItems, BoundElements, BoundTexts, SliceItems, SliceReads, TextItems, TextSequence,
    VectorItems,
};
pub use maps::{BoundItems, MapItems, MapRanges};
