//! A count of steps for contracts alone.
ghost use Rattle.std.specs.Prelude.{◌≡◌, ◌+◌};

use crate::history::History;
use std::marker::Model;
use std::mem::size_of;

/// The number of steps so far. Contracts read it as a number. At run time it takes no space and no time.
#[derive(Drop)]
pub struct Steps {
    history: History,
}

impl Model for Steps {
    ghost use Rattle.std.specs.Prelude.{ℕ};

    ghost Value = { ℕ };

    ghost view = { λ s. s.history.count };
}

const _: () = prove!(size_of::<Steps>() == 0);

impl Steps {
    /// Makes a counter with the value 0.
    pub fn new() -> Steps
        ensures { result ≡ 0 }
    {
        Steps {
            history: History::new(),
        }
    }

    /// Adds `n` to the counter.
    pub fn add(&mut self, n: u64)
        ensures { self.new ≡ self.old + n }
    {
        self.history.record(&[], n);
    }
}
