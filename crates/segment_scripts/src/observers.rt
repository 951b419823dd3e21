//! Who follows a run of a script, and may let its answers go out while it goes on.
ghost use Rattle.std.specs.Prelude.{◌≡◌};

use raw_region::Sink;

/// Follows a run of a script whose answers go to a writer. It writes nothing there itself.
pub trait RunObserver<W: Sink> {
    // The effect of `before_read` on the observer and the writer: both before the call, and both after it.
    ghost opens: { Self → W → Self → W → Type 0 };

    // The effect of `before_line` on both.
    ghost turns: { Self → W → Self → W → Type 0 };

    /// Called before each read of the script; the observer can flush the output.
    fn before_read(&mut self, out: &mut W)
        ensures history { W.history out.new ≡ W.history out.old }
        ensures opening { opens self.old out.old self.new out.new };

    /// Called before each line of the script is answered, also a comment or an empty line.
    fn before_line(&mut self, out: &mut W)
        ensures history { W.history out.new ≡ W.history out.old }
        ensures turn { turns self.old out.old self.new out.new };
}

/// Follows no run: answers go out when the writer lets them.
#[derive(Drop)]
pub struct NoObserver;

impl<W: Sink> RunObserver<W> for NoObserver {
    ghost opens = { λ old out new out'. out' ≡ out };

    ghost turns = { λ old out new out'. out' ≡ out };

    fn before_read(&mut self, _out: &mut W) {}

    fn before_line(&mut self, _out: &mut W) {}
}
