//! Where a run of a script ends.
ghost use Rattle.std.specs.Prelude.{◌≡◌};
ghost use Rattle.segment_scripts.specs.Stopping.{is_stop};

use crate::answered::Answered;

/// How far a script is run.
#[derive(Clone, Copy, Debug, PartialEq, Eq)]
pub enum Until {
    /// To its end, whatever its lines are answered.
    End,
    /// To its end, or to the first line that is refused.
    Refusal,
}

impl Until {
    /// Tells whether a run ends after a line of which this became.
    pub(crate) fn is_stop(self, answered: Answered) -> bool
        ensures { result ≡ is_stop self answered }
    {
        match answered {
            Answered::Done => false,
            Answered::Refused => self == Until::Refusal,
        }
    }
}

/// Where a run of a script ended.
#[derive(Clone, Copy, Debug, PartialEq, Eq)]
pub enum End {
    /// All lines were executed.
    Complete,
    /// A line was refused. It was answered, and no line after it was executed.
    Refused,
}
