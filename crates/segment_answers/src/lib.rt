//! Outputs for the answers to a script. Before the answers to each line of the script, `next_line` is called.
#![tactic(auto)]

mod line_output;
mod numbered_output;

pub use line_output::LineOutput;
pub use numbered_output::NumberedOutput;
