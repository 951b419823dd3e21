//! Sessions: an image and a script in, answers and an image out.
#![tactic(auto)]

mod faults;
mod migrations;
mod reports;
mod sessions;

pub use faults::{ProgramFault, SessionFault, Start};
pub use grow_shrink::GrowError;
pub use image_check::{ImageClass, MemoryFault, save};
pub use migrations::migrate;
pub use reports::{put_session_line, report, session_status};
pub use segment_invocation::{
    AnswerOptions, FileChange, FileOptions, Invocation, InvocationFault, ModeName, Options, Report,
    Request, SaveMode, Script, UsageError, invocation, request,
};
pub use segment_scripts::{
    Answered, End, Machine, NoObserver, RunFault, RunObserver, Scratch, Until, run, run_until,
};
pub use sessions::{begin, serve, session};
