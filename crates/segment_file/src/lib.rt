//! Segments in files, on any disk: `SegmentFile`, a segment whose file is locked, and calls that read, check, write and
//! commit images.
#![tactic(auto)]

mod committing;
mod file_errors;
mod opening;
mod reading;
mod reading_on;
mod replay;
mod segment_files;
mod theorems;
mod writing;

pub use committing::{CommitFault, commit_segment};
pub use file_errors::FileError;
pub use opening::open_file;
pub use reading::{check, migrate, read};
pub use segment_files::SegmentFile;
pub use theorems::{
    emptying_tears, replacing_keeps_one_whole, saving_ends_whole, unplaced_leaves_the_old,
};
pub use writing::{write_image, write_new};
