//! The interface between a script and the machine that answers its lines.
ghost use Rattle.std.specs.Prelude.{◌≡◌, ◌-◌, ◌^◌, ◌<◌, ℕ, Bool, true, List, length, take};
ghost use Rattle.segment_scripts.specs.Refusing.{Tells};
ghost use Rattle.segment_scripts.specs.Writing.{WritesFor};

use crate::answered::Answered;
use crate::scalars::ScalarBuffers;
use crate::text_buffers::TextBuffer;
use raw_region::{DeviceFault, Sink};
use segment_lang::LineBuffer;

/// Buffers for a name with escapes and for the contents of an object. All lines share them, and old contents have no
/// meaning.
#[derive(Drop)]
pub struct Scratch {
    pub(crate) name: LineBuffer,
    pub(crate) lent: ParseBuffers,
}

/// Room for a text that a line escapes, for the values of a vector, and for the texts of a vector of strings.
#[derive(Drop)]
pub struct ParseBuffers {
    /// Room for a text of a line.
    pub text: LineBuffer,
    /// Room for the values of a line.
    pub scalars: ScalarBuffers,
    /// Room for the texts of a line.
    pub texts: TextBuffer,
}

impl ParseBuffers {
    /// Makes room that holds nothing.
    pub fn new() -> ParseBuffers {
        ParseBuffers {
            text: LineBuffer::new(),
            scalars: ScalarBuffers::new(),
            texts: TextBuffer::new(),
        }
    }
}

/// A machine that answers the lines of a script.
pub trait Machine {
    // The states that contracts speak of.
    ghost RunState: { Type 0 };

    // The output of a line, passed without its end, in a state of the machine, and the next state.
    ghost respond: { RunState → List ℕ → List ℕ × RunState };

    // Whether a line, without its end, is refused at a place.
    ghost refuses: { RunState → List ℕ → Bool };

    // Whether a line, without its end, changes nothing at a place.
    ghost is_idle: { RunState → List ℕ → Bool };

    // The places that a machine may stand for.
    ghost stands: { Self → RunState → Type 0 };

    /// Executes the line, which has no line end, writes its answer, and tells whether it was refused. A fault leaves
    /// the line executed, and a proper prefix of its answer written.
    fn answer<W: Sink>(
        &mut self,
        scratch: &mut Scratch,
        line: &[u8],
        out: &mut W,
    ) -> Result<Answered, DeviceFault>
        requires { (W.history out.old).failures < 2 ^ 64 - 1 }
        ensures step { (state : RunState) → stands self.old state
            → stands self.new (respond state line.now).1 }
        ensures output { WritesFor (W.history out.old) (W.history out.new) result (stands self.old)
            (λ state. (respond state line.now).0) }
        ensures report { (state : RunState) → stands self.old state → Tells result (refuses state line.now) }
        ensures noop { (state : RunState) → stands self.old state → is_idle state line.now ≡ true
            → self.new ≡ self.old };

    // Of a line of more than 4097 bytes the first 4098 decide.
    ghost long_lines: { (state : RunState) (line : List ℕ) → 4097 < length line
        → respond state line ≡ respond state (take 4098 line) };

    // Also for whether it is refused.
    ghost long_refusals: { (state : RunState) (line : List ℕ) → 4097 < length line
        → refuses state line ≡ refuses state (take 4098 line) };
}
