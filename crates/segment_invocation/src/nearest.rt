//! The nearest of the words that are known.
use std::alloc::Global;
use std::fmt;
use strsim::jaro;

/// The names of the modes.
const MODES: [&str; 5] = [
    "create_only",
    "open_only",
    "open_or_create",
    "open_read_only",
    "open_copy_on_write",
];

/// How alike two words are at the least that are called near, from 0 to 1: as clap has it for commands and options.
const NEAR: f64 = 0.7;

/// What to try in place of a word, if anything. As text it is a line that says so, or nothing.
#[derive(Clone, Copy, Debug)]
pub struct Tip {
    mode: Option<&'static str>,
}

impl fmt::Display for Tip {
    fn fmt<W: fmt::Write>(&self, f: &mut fmt::Formatter<W>) -> fmt::Result {
        match self.mode {
            Some(mode) => write!(f, "  tip: a similar mode exists: '{mode}'\n"),
            None => Ok(()),
        }
    }
}

/// Returns the mode that is most like a word, the first of those that are equally like it. Returns none if no mode is
/// near, or if memory for the comparison was refused.
pub(crate) fn nearest_mode(alloc: Global, argument: &str) -> Tip {
    let mut mode = None;
    let mut most = NEAR;
    for name in MODES {
        let Ok(likeness) = jaro(alloc, argument, name) else {
            return Tip { mode: None };
        };
        if likeness > most {
            most = likeness;
            mode = Some(name);
        }
    }
    Tip { mode }
}
