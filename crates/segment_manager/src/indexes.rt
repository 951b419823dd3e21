//! The two indexes, of names and of kinds: iterators over their objects.
pub(crate) mod iterating;
