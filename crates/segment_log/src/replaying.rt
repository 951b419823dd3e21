//! What a file stands for with its log, and the end of a log.
ghost use Rattle.std.specs.Prelude.{◌≡◌, ◌≤◌, length, Decides, IfOk, MatchResult};
ghost use Rattle.segment_log.specs.Records.{IsAjar, IsEndOfLog, recovered};
ghost use Rattle.segment_log.specs.Edits.{applied_all, TurnsInto, len_after, lens_after, most_len};

use crate::edits::apply_within;
use crate::records::{GATE_LEN, next_record, number_of};
use std::alloc::AllocError;

/// Returns how many bytes an image of `len` bytes has after a payload.
fn len_after(payload: &[u8], len: usize) -> usize
    ensures { result ≡ len_after payload.now len }
{
    if payload.len() < 8 {
        len
    } else {
        number_of(payload) as usize
    }
}

/// Returns the most bytes that an image has while the records of a log are applied to a file of `len` bytes.
pub fn most_len(log: &[u8], len: usize) -> usize
    ensures { result ≡ most_len (recovered log.now) len }
{
    let mut rest = log;
    let mut so_far = len;
    let mut most = len;
    while let Some((payload, behind)) = next_record(rest) {
        so_far = len_after(payload, so_far);
        most = most.max(so_far);
        rest = behind;
    }
    most
}

/// Where a replay ended.
#[derive(Clone, Copy)]
pub(crate) struct Replayed {
    /// How many bytes the image has.
    pub len: usize,
    /// Where the records of the log end.
    pub end: usize,
}

/// Makes of the image at the front of a buffer, of `len` bytes, what all records of a log say, one after the other.
pub(crate) fn replay_within(buffer: &mut [u8], len: usize, log: &[u8]) -> Replayed
    requires room { most_len (recovered log.now) len ≤ length buffer.now }
    ensures image { TurnsInto len (applied_all (recovered log.now)) buffer.old buffer.new }
    ensures len { result.len ≡ lens_after (recovered log.now) len }
    ensures end { IsEndOfLog 4096 log.now result.end }
{
    let mut rest = log;
    let mut so_far = len;
    while let Some((payload, behind)) = next_record(rest) {
        so_far = apply_within(buffer, so_far, payload);
        rest = behind;
    }
    Replayed {
        len: so_far,
        end: log.len() - rest.len(),
    }
}

/// Applies all records of a log to an image, one after the other, and returns where the records end. First makes room
/// for the longest image on the way, by one request at most. After an error the image is as before.
pub(crate) fn replay(image: &mut Vec<u8>, log: &[u8]) -> Result<usize, AllocError>
    ensures image { MatchResult result
        (λ _. image.new.items ≡ applied_all (recovered log.now) image.old.items)
        (λ _. image.new.items ≡ image.old.items) }
    ensures end { IfOk result (λ end. IsEndOfLog 4096 log.now end) }
{
    let len = image.len();
    let most = most_len(log, len);
    image.reserve_exact(most - len)?;
    image.resize(most, 0)?;
    let made = replay_within(image.as_mut_slice(), len, log);
    image.truncate(made.len);
    Ok(made.end)
}

/// Tells whether the gate at the end of a log is open or not whole. It is to be shut before the next commit.
pub fn is_ajar(log: &[u8], end: usize) -> bool
    requires in_bounds { end ≤ length log.now }
    ensures { Decides result (IsAjar 4096 log.now end) }
{
    log.len() - end < GATE_LEN || log[end] == 1
}
