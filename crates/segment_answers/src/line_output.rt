//! Outputs that are told where an answer begins.
ghost use Rattle.std.specs.Prelude.{◌≡◌};

use segment_disk::{Output, StdOutput};
use std::io::Write;

/// An output of answers, line by line of a script.
pub trait LineOutput: Output {
    // The effect of `next_line` on the output.
    ghost turns: { Self → Self → Type 0 };

    /// Notes that answers belong to the next line of the script from here on. It writes nothing.
    fn next_line(&mut self)
        ensures unchanged { Self.history self.new ≡ Self.history self.old }
        ensures rotation { turns self.old self.new };
}

impl<W: Write> LineOutput for StdOutput<W> {
    ghost turns = { λ old new. new ≡ old };

    fn next_line(&mut self) {}
}
