//! Where the files of segments are kept, and where answers go: as the crates above are given them, and those of the
//! system.
#![tactic(auto)]

mod disk;
mod file_problems;
mod found_log;
mod host;
mod host_reader;
mod image_reader;
mod locks;
mod logs;
mod open_log;
mod paths;
mod presence;
mod replacement_file;
mod rights;
mod settling;
mod spare_file;
mod sparse;
mod std_output;

pub use disk::{Disk, OpenedFile, Output};
pub use host::{HostDisk, HostLock};
pub use host_reader::HostReader;
pub use image_reader::ImageReader;
pub use presence::{AlreadyLocked, Comparison, FileProblem, NotOpened, Presence, SaveMode};
pub use std_output::{PassThrough, StdOutput};
