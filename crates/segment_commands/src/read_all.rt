//! A text that is read whole.
ghost use Rattle.std.specs.Prelude.{◌^◌, ◌-◌, ◌<◌, MatchResult};
ghost use Rattle.raw_region.specs.Device.{read_delta};
ghost use Rattle.segment_scripts.specs.RunOutcome.{MeetsEndOnce};
ghost use Rattle.segment_commands.specs.Loading.{IsReadWhole, IsWhyUnread};

use raw_region::{Source, append};
use segment_cli::SessionFault;
use std::alloc::Global;

/// How many bytes are read at once, at most.
const PIECE: usize = 4096;

/// The most bytes of a dump. That of the largest segment has fewer.
const LONGEST: u64 = 17179869184;

/// Returns all that a reader gives.
///
/// # Errors
///
/// `ReadFault` if it failed, `ScriptTooLong` if it gives more than a dump may have, and `OutOfMemory`.
pub(crate) fn read_text<S: Source>(alloc: Global, reader: &mut S) -> Result<Vec<u8>, SessionFault>
    requires { (S.history reader.old).failures < 2 ^ 64 - 1 }
    ensures text { MatchResult result
        (λ text. IsReadWhole (read_delta (S.history reader.old) (S.history reader.new)) text.items)
        (IsWhyUnread (read_delta (S.history reader.old) (S.history reader.new))) }
    ensures script_end { MeetsEndOnce (S.history reader.old) (S.history reader.new) }
{
    let mut text = Vec::new(alloc);
    let mut piece = [0; PIECE];
    // each read gives a byte at least, so that there are no more
    'pieces: for _ in 0..LONGEST + 1 {
        match reader.read(&mut piece) {
            Err(_) => return Err(SessionFault::ReadFault),
            Ok(0) => return Ok(text),
            Ok(count) => {
                append(&mut text, &piece[..count])?;
                if text.len() as u64 > LONGEST {
                    return Err(SessionFault::ScriptTooLong);
                }
            }
        }
    }
    Err(SessionFault::ScriptTooLong)
}
