//! The order of system calls for a segment's file (FILE) and the log beside it, as machines that make no calls: a
//! machine names the next call, and is told the answer. A driver makes the calls. The theorems hold for any number of
//! sessions and readers, for each order of their calls, for calls that fail, processes that are killed, and power cuts.
//!
//! Files, logs and images are numbers here: a file's number is its identity while it is open, and an image's number
//! stands for its bytes. No driver uses these machines yet: docs/ARCHITECTURE.md says what is missing.
#![tactic(auto)]

mod calls;
mod reader;
mod session;
mod theorems;

pub use calls::{Call, Outcome, Purpose, SessionRequest};
pub use reader::{FileReader, ReadAnswer, ReadCall};
pub use session::Session;
pub use theorems::{
    no_commit_is_lost, nothing_of_others_changes, one_writer, reader_finds_a_commit,
};
