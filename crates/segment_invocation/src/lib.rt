//! The program's command line: what its words ask for, and its help.
#![tactic(auto)]

mod asking;
mod command_line;
mod invocations;
mod nearest;
mod usage;
mod version;

pub use asking::{invocation, request};
pub use invocations::{
    AnswerOptions, FileChange, FileOptions, Invocation, ModeName, Options, Report, Request, Script,
    script_text,
};
pub use nearest::Tip;
pub use segment_disk::SaveMode;
pub use usage::{InvocationFault, UsageError};
pub use version::VERSION;
