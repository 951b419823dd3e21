//! What became of a line.
ghost use Rattle.std.specs.Prelude.{◌≡◌};
ghost use Rattle.segment_scripts.specs.Refusing.{once};

use raw_region::DeviceFault;

/// What became of a line that was answered.
#[derive(Clone, Copy, Debug, PartialEq, Eq)]
pub enum Answered {
    /// The line was executed, or there was nothing to do.
    Done,
    /// The line was refused: it is no command, or its command failed.
    Refused,
}

impl Answered {
    /// Returns `self` if the answer was written, otherwise the writer's fault.
    pub(crate) fn once(self, written: Result<(), DeviceFault>) -> Result<Answered, DeviceFault>
        ensures { result ≡ once self written }
    {
        match written {
            Ok(()) => Ok(self),
            Err(fault) => Err(fault),
        }
    }
}
