//! Scripts: each line is read, executed on a segment or another machine, and answered.
#![tactic(auto)]

mod answered;
mod changing;
mod constructing;
mod ends;
mod faults;
mod language;
mod linting;
mod listing;
mod machine;
mod observers;
mod popping;
mod printing;
mod replies;
mod scalars;
mod scripts;
mod segments;
mod showing;
mod telling;
mod text_buffers;

pub use answered::Answered;
pub use ends::{End, Until};
pub use faults::RunFault;
pub use language::{CommandRow, command_rows, put_language};
pub use linting::Lint;
pub use machine::{Machine, Scratch};
pub use observers::{NoObserver, RunObserver};
pub use scripts::{run, run_followed, run_until};
