//! The bytes of the log beside a file: C makes and reads them by these calls alone.
ghost use Rattle.std.specs.Prelude.{◌≡◌, ◌≤◌, ◌<◌, ◌++◌, ◌^◌, MatchResult, length};
ghost use Rattle.segment_log.specs.{Records.record_body, Records.number_bytes, Records.recovered, Tags.tag_text};
ghost use Rattle.segment_log.specs.Fingerprints.{fingerprint, page_mark};
ghost use Rattle.segment_log.specs.Edits.{Holds, edit_text, most_len};
ghost use Rattle.segment_c.specs.Logs.{OpensWithLog, TellsKindAsCode, WritesOut, gate_of};

use crate::codes::{DONE, LOG_FOREIGN, NO_MEMORY, SHORT_BUFFER, TOO_LARGE};
use crate::images::copy_out;
use segment_log::{
    LogKind, MAX_LOG_LEN, begin_payload, edit_head, fingerprint, log_kind, most_len, open_gate,
    page_mark, record_body, recover_within, shut_gate,
};
use std::alloc::{AllocError, Global};

/// Returns the share of a page in the fingerprint of its image.
#[unsafe(no_mangle)]
pub extern "C" fn zx_log_page_mark(index: u64, page: &[u8]) -> u64
    ensures { result ≡ page_mark index page.now }
{
    page_mark(index, page)
}

/// Returns the fingerprint of an image.
#[unsafe(no_mangle)]
pub extern "C" fn zx_log_fingerprint(image: &[u8]) -> u64
    ensures { result ≡ fingerprint image.now }
{
    fingerprint(image)
}

/// Copies bytes that were made to the front of a buffer, if there was memory for them.
fn write_out(made: Result<Vec<u8>, AllocError>, out: &mut [u8]) -> u32
    ensures { MatchResult made (λ bytes. WritesOut bytes.items out.old out.new result)
        (λ _. (result ≡ 26) × (out.new ≡ out.old)) }
{
    match made {
        Ok(bytes) => copy_out(&bytes, out),
        Err(_) => NO_MEMORY,
    }
}

/// Writes the front of a payload: the length of the new image, and the tag.
#[unsafe(no_mangle)]
pub extern "C" fn zx_log_front(
    alloc: Global,
    len: u64,
    base: u64,
    after: u64,
    out: &mut [u8],
) -> u32
    ensures { WritesOut (number_bytes len ++ tag_text base after) out.old out.new result }
{
    write_out(begin_payload(alloc, len as usize, base, after), out)
}

/// Copies two texts, one behind the other, to the front of a buffer, if it has room for both.
fn copy_both(first: &[u8], second: &[u8], out: &mut [u8]) -> u32
    ensures { WritesOut (first.now ++ second.now) out.old out.new result }
{
    if out.len() < first.len() || out.len() - first.len() < second.len() {
        return SHORT_BUFFER;
    }
    out[..first.len()].copy_from_slice(first);
    copy_out(second, &mut out[first.len()..])
}

/// Writes an edit of a payload: an offset, and the bytes that the image has there. They are copied once, since a commit
/// of many pages writes many edits.
#[unsafe(no_mangle)]
pub extern "C" fn zx_log_edit(at: u64, bytes: &[u8], out: &mut [u8]) -> u32
    ensures { WritesOut (edit_text at bytes.now) out.old out.new result }
{
    copy_both(&edit_head(at, bytes.len() as u64), bytes, out)
}

/// Writes what stands behind the gate of a record: the length of the payload, the payload, and the next gate, shut.
#[unsafe(no_mangle)]
pub extern "C" fn zx_log_body(alloc: Global, payload: &[u8], out: &mut [u8]) -> u32
    ensures output { length payload.now ≤ 2 ^ 40 → WritesOut (record_body payload.now) out.old out.new result }
    ensures size { 2 ^ 40 < length payload.now → (result ≡ 29) × (out.new ≡ out.old) }
{
    if payload.len() > MAX_LOG_LEN {
        return TOO_LARGE;
    }
    write_out(record_body(alloc, payload), out)
}

/// Writes a gate.
#[unsafe(no_mangle)]
pub extern "C" fn zx_log_gate(alloc: Global, is_open: bool, out: &mut [u8]) -> u32
    ensures { WritesOut (gate_of is_open) out.old out.new result }
{
    let gate = if is_open {
        open_gate(alloc)
    } else {
        shut_gate(alloc)
    };
    write_out(gate, out)
}

/// Tells what a file under the name of a log is, by its first 4144 bytes, or all if it has fewer, and by its length: 0
/// for a file of somebody else, 1 for a log without a record, 2 for a log with a record.
#[unsafe(no_mangle)]
pub extern "C" fn zx_log_kind(head: &[u8], len: u64) -> u32
    ensures { TellsKindAsCode head.now len result }
{
    match log_kind(head, len) {
        LogKind::Foreign => 0,
        LogKind::Empty => 1,
        LogKind::Records => 2,
    }
}

/// Returns the most bytes that an image has while the records of a log are applied to a file of `len` bytes.
#[unsafe(no_mangle)]
pub extern "C" fn zx_log_most(len: u64, log: &[u8]) -> u64
    ensures { result ≡ most_len (recovered log.now) len }
{
    most_len(log, len as usize) as u64
}

/// Makes the image that a file stands for with its log, in a buffer that has a copy of the file and zeros behind it.
/// Says the length of the image, where the records of the log end, and the fingerprints of the file and of the image.
/// If the code is not 0, nothing changes.
#[unsafe(no_mangle)]
pub extern "C" fn zx_log_recover(
    file: &[u8],
    log: &[u8],
    image: &mut [u8],
    len: &mut u64,
    end: &mut u64,
    base: &mut u64,
    after: &mut u64,
) -> u32
    ensures size { length image.old < most_len (recovered log.now) (length file.now) → result ≡ 24 }
    ensures opening { most_len (recovered log.now) (length file.now) ≤ length image.old → Holds image.old file.now
        → OpensWithLog file.now log.now image.new result len.new end.new base.new after.new }
    ensures unchanged_on_error { Holds image.old file.now → 1 ≤ result → image.new ≡ image.old }
    ensures refused { 1 ≤ result
        → (len.new ≡ len.old) × (end.new ≡ end.old) × (base.new ≡ base.old) × (after.new ≡ after.old) }
{
    if image.len() < most_len(log, file.len()) {
        return SHORT_BUFFER;
    }
    match recover_within(file, log, image) {
        Ok(found) => {
            *len = found.len as u64;
            *end = found.end as u64;
            *base = found.base;
            *after = found.after;
            DONE
        }
        Err(_) => LOG_FOREIGN,
    }
}
