//! A segment: typed objects under names in one run of bytes, after Boost.Interprocess's managed memory segments.
//!
//! The contents of a segment are a directory: a finite map from handles to objects, with their values and blocks. Each
//! call is one step of the directory machine, from the old directory to the new one.
//!
//! No method of a [`Segment`] has a condition on the segment's contents: each returns a result or an error. Other
//! conditions stand under `# Conditions`, with a way to meet them or a call without the condition. There are three:
//! - A number is in range: the count of `construct` and `find_or_construct`, the base of `create` and `relocate`.
//! - A key suits the kind of the new object ([`ConstructKey`]).
//! - An iterator can return its next item, and each item of `construct_values` has the kind.
//!
//! The functions of [`unchecked`] have conditions on the segment's contents. So have `at` of [`Bound`] and
//! [`BoundMut`], and [`push_within`]: the object must still exist. No program needs these calls.
#![tactic(auto)]

mod blocks;
mod bound;
mod containers;
mod creating;
mod errors;
mod indexes;
pub mod layout;
mod modes;
mod objects;
mod segment;
pub mod theorems;
pub mod unchecked;

pub use blocks::tiles::{TileInfo, Tiles};
pub use bound::maps::{Map, MapMut, Pairs};
pub use bound::slices::{
    Array, ArrayMut, Fixed, Growable, Slice, SliceStorage, Vector, VectorMut, push_within,
};
pub use bound::texts::{StringBytes, StringMut, StringRef, Strings, StringsMut, Texts};
pub use bound::{Bound, BoundContent, BoundMut};
pub use containers::element_runs::ElementRun;
pub use containers::fillings::{
    NewMap, NewNumbers, NewString, NewTexts, NewVector, ObjectInit, ObjectShape,
};
pub use errors::{CreateError, CreateRefused, RelocateRefused};
pub use indexes::iterating::{Instances, Names};
pub use modes::Mode;
pub use objects::construct_keys::{
    AnonymousInstance, ConstructKey, FindOrConstructKey, UniqueInstance,
};
pub use objects::instance_info::Instance;
pub use objects::object_ref::{Object, ObjectRef, locate};
pub use objects::walking_objects::Objects;
pub use segment::{Segment, is_remembered};
