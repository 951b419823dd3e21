//! The rights of a file that is created beside another: `narrowed` computes the mode of a new file that replaces an old
//! file, `log_mode` the mode of a log, and `log_counts` decides whether a log counts. The functions take the numbers
//! that the system returns. They make no system call and allocate nothing.
#![tactic(auto)]

mod access_lists;
mod classes;
mod log_rights;
mod narrowing;
mod rights;
mod theorems;

pub use log_rights::{Ownership, log_counts, log_mode};
pub use narrowing::{AccessList, NewRights, narrowed};
pub use theorems::{
    listed_file_keeps_writers, log_of_owner_counts, narrowed_log_counts, new_mode_is_widest,
};
