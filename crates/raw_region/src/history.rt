//! A record of past bytes for contracts alone. It takes no bytes at run time.
ghost use Rattle.std.specs.Prelude.{◌≡◌, ◌+◌, ℕ, List, [], ◌++◌};
ghost use base.Fml.{ftrue};

use std::marker::Model;

/// The bytes so far, and a count. A `Source` or a `Sink` of your own keeps its past in it.
#[derive(Drop)]
pub struct History {
    ghost bytes: { List ℕ },
    ghost count: { ℕ },
}

impl Model for History {
    ghost also_owns = { λ _. ftrue };
}

impl History {
    /// Makes an empty history with the count 0.
    pub fn new() -> History
        ensures { (result.bytes ≡ []) × (result.count ≡ 0) }
    {
        History {}
    }

    /// Appends bytes to the history and adds to its count.
    pub fn record(&mut self, bytes: &[u8], count: u64)
        ensures { (self.new.bytes ≡ self.old.bytes ++ bytes.now) × (self.new.count ≡ self.old.count + count) }
    {}
}
