//! A part of the tests: row files, which hold worked examples, read, and run in every way by whatever runs sessions.
//!
//! Only safety is proved of this crate: no contract says what its functions answer, and no wrong body attacks them.
//! That is enough, since nothing rests on it but what the program `rows` finds. What must come of a row stands in its
//! text; what comes is compared with it byte by byte, and what differs is printed with its line and makes the status
//! 1. Only of an image that no row names does the first run say what the others must save. A row, a line of a script
//! or a failing device that was left out would show as well: they are counted for each file, and `crates/rows/stdout`
//! holds the counts.
//!
//! What goes wrong is noted, and the next steps are made all the same, from nothing if there is nothing: so only the
//! first note of an item is told.
#![tactic(auto)]

mod cases;
mod cuts;
mod findings;
mod images;
mod lines;
mod parts;
mod read_only;
mod requests;
mod row_file_runs;
mod row_runners;
mod scripts;
mod trials;

pub use cases::{Call, Case, Outcome, Place};
pub use findings::Trouble;
pub use lines::{Line, lines_of};
pub use row_file_runs::RowFileRun;
pub use row_runners::Runner;
