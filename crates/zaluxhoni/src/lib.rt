//! The library in one place: what a program needs that keeps typed objects under names in a file.
//!
//! A program opens or makes a [`SegmentFile`] over the files of the system ([`HostDisk`]), constructs and finds objects
//! in its [`Segment`] by their names ([`named`]), and saves it; no other may write the file meanwhile. One that only
//! reads a file gets its segment by [`read`]. `crates/examples` has programs that do so.
//!
//! Every call on a segment takes whatever the segment holds, and returns or refuses. Some calls have a condition, under
//! `# Conditions`:
//!
//! | Call | Condition | Without it |
//! |---|---|---|
//! | `construct`, `find_or_construct` | a count from 1 to 1048576 | `construct_array` |
//! | a [`ConstructKey`] with a kind | the kind of the new object | a [`Name`] |
//! | `create`, `relocate`, [`open`], [`verify`] | a base that is a multiple of 16 | |
//!
//! The condition of `construct` holds for every call that takes a `ScalarValue` and a count; the other call without
//! it is `find_or_construct_array`. [`UniqueInstance`] and [`AnonymousInstance`] are keys without a kind too.
//! [`open_image`], [`open_bytes`] and [`open_any`] also take a base.
//!
//! The layers below a segment ([`Heap`], [`SegVec`], [`Window`], [`RawRegion`]) are for types of your own. They require
//! the caller to manage the layout.
//!
//! `segment_manager` has more calls, which require that the caller knows what the segment holds: calls on an object
//! that was looked up before (the views keep one), and steps through a segment (the iterators make them).
#![tactic(auto)]

mod naming;

pub use best_fit::{Heap, NoSpace};
pub use block_tags::Role;
pub use grow_shrink::{GrowError, grow, shrink_to_fit};
pub use image_check::{
    AcceptedVersions, ImageClass, MemoryFault, NoBlockMemory, OpenError, OpenRefused, Verdict,
    open, open_any, open_bytes, open_image, verify,
};
pub use naming::named;
pub use raw_region::std_io::{StdSink, StdSource};
pub use raw_region::{DeviceFault, OutOfMemory, RawRegion, Sink, Source, Steps, Window};
pub use seg_types::{
    BadName, Class, Handle, IndexKey, Key, Kind, MAX_NAME_LEN, Name, NewKey, Plain, Refusal,
    Scalar, ScalarKind, ScalarValue,
};
pub use seg_vector::{Place, SegVec};
pub use segment_disk::{Disk, HostDisk, HostLock};
pub use segment_file::{CommitFault, FileError, SegmentFile, check, migrate, read};
pub use segment_manager::{
    AnonymousInstance, Array, ArrayMut, ConstructKey, CreateError, CreateRefused,
    FindOrConstructKey, Instance, Instances, Map, MapMut, Mode, Names, ObjectRef, Objects,
    RelocateRefused, Segment, StringMut, StringRef, Strings, StringsMut, TileInfo, Tiles,
    UniqueInstance, Vector, VectorMut,
};
pub use segment_views::{
    ArrayItems, MapItems, MapRanges, SliceReads, TextItems, TextSequence, VectorItems,
};
