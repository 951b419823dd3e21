//! Objects that are vectors, strings and maps: their initial contents, their capacity, and their elements' places.
pub(crate) mod element_runs;
pub(crate) mod fillings;
pub(crate) mod storage;
