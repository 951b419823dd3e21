//! The calls with a condition on a segment's contents, for crates that know it to hold. These are the walks of a
//! script's answers, the check of images, and the calls that move a segment's end. No program needs them, and
//! `zaluxhoni` does not export them.
//! Each names, under `# Conditions`, a call that does the same without one.
pub use crate::blocks::tiles::next_tile;
pub use crate::bound::object_of_kind;
pub use crate::containers::element_runs::element_run_of;
pub use crate::containers::storage::{measure_object, reserve_object};
pub use crate::creating::{cut_end, extend_end};
pub use crate::objects::finding::{named_at, unique_at};
pub use crate::objects::instance_info::{instance_here, named_instance, unique_instance};
pub use crate::objects::object_ref::object_here;
pub use crate::segment::{adopt, segment_of};
