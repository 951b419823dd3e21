//! Why a run of a script stops.
use thiserror::Error;

/// Why a run of a script stops.
#[derive(Clone, Copy, Debug, PartialEq, Eq, Error)]
pub enum RunFault {
    /// The script's reader failed. All lines that ended before were executed and answered.
    #[error("read fault")]
    ReadFault,
    /// The writer failed in an answer. Its line and all before were executed, the answers before
    /// went out, and of its own a proper prefix.
    #[error("write fault")]
    WriteFault,
    /// The script has more than 16777216 bytes. The lines that ended within these were executed and
    /// answered.
    #[error("script too long")]
    ScriptTooLong,
}
