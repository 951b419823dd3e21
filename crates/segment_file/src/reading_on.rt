//! The front of an image, which is read before its region is made, and the rest of one that says more bytes than were
//! told: of a file that another writes, or a pipe.
ghost use Rattle.std.specs.Prelude.{◌≡◌, ◌≤◌, false, length, nat_lt, IfErr, OnOk, MatchResult};
ghost use Rattle.raw_region.specs.Device.{AppendsBytes};
ghost use Rattle.segment_file.specs.ReadingOn.{IsReadUpTo, IsWhole, IsWhyNotUpTo, IsWhyNotWhole};

use image_check::{ImageClass, MemoryFault, OpenError, Verdict};
use raw_region::{Source, append};

/// How many bytes are read at once, at most.
const PIECE: usize = 4096;

/// Reads on until the text has as many bytes as are said, or the reader ends. The text takes no more memory than the
/// reader gives.
pub(crate) fn read_up_to<S: Source>(
    reader: &mut S,
    text: &mut Vec<u8>,
    said: u64,
) -> Result<(), OpenError>
    requires start { IsReadUpTo (S.history reader.old) text.old.items false }
    requires max_count { length text.old.items ≤ said }
    ensures on_ok { OnOk result
        (IsReadUpTo (S.history reader.new) text.new.items (nat_lt (length text.new.items) said)) }
    ensures max_len { OnOk result (length text.new.items ≤ said) }
    ensures on_error { IfErr result (IsWhyNotUpTo said (S.history reader.new)) }
    ensures history { AppendsBytes (S.history reader.old).bytes (S.history reader.new).bytes }
{
    let mut piece = [0; PIECE];
    'pieces: while (text.len() as u64) < said {
        let wanted = (said - text.len() as u64).min(PIECE as u64) as usize;
        match reader.read(&mut piece[..wanted]) {
            Err(_) => return Err(OpenError::ReadFault),
            Ok(0) => return Ok(()),
            Ok(count) => {
                if let Err(refusal) = append(text, &piece[..count]) {
                    return Err(OpenError::OutOfMemory(MemoryFault::Bytes(refusal)));
                }
            }
        }
    }
    Ok(())
}

/// Reads on to the end of an image, which says how many bytes it has.
///
/// # Errors
///
/// `Truncated` if it has fewer and `BadSize` if it has more, with the place. `ReadFault` if the reader failed, and
/// `OutOfMemory`.
pub(crate) fn read_rest<S: Source>(
    reader: &mut S,
    text: &mut Vec<u8>,
    said: u64,
) -> Result<(), OpenError>
    requires start { IsReadUpTo (S.history reader.old) text.old.items false }
    requires max_count { length text.old.items ≤ said }
    ensures reading { MatchResult result (λ done. IsWhole said (S.history reader.new) text.new.items)
        (IsWhyNotWhole said (S.history reader.new)) }
    ensures history { AppendsBytes (S.history reader.old).bytes (S.history reader.new).bytes }
{
    read_up_to(reader, text, said)?;
    let len = text.len() as u64;
    if len < said {
        let class = ImageClass::Truncated;
        return Err(OpenError::Image(Verdict { class, place: len }));
    }
    match reader.read(&mut [0]) {
        Err(_) => Err(OpenError::ReadFault),
        Ok(0) => Ok(()),
        Ok(_) => {
            let class = ImageClass::BadSize;
            Err(OpenError::Image(Verdict { class, place: said }))
        }
    }
}
