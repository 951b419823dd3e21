//! Payloads: what changed from one image to the next.
ghost use Rattle.std.specs.Prelude.{◌≡◌, ◌≤◌, ◌+◌, ◌*◌, ◌%◌, ◌++◌, length, IfOk, OnOk, true};
ghost use Rattle.segment_log.specs.Records.{number_bytes, zeros};
ghost use Rattle.segment_log.specs.Edits.{applied, edit_text, filling};
ghost use Rattle.segment_log.specs.Fingerprints.{fingerprint};
ghost use Rattle.segment_log.specs.Tags.{names_base, names_image, tag_text};

use crate::fingerprints::{PAGE_LEN, fingerprint};
use crate::records::{GATE_LEN, number_bytes, zeros};
use std::alloc::{AllocError, Global};

/// Returns what stands in front of the bytes of an edit: their offset, and how many they are.
pub fn edit_head(at: u64, len: u64) -> [u8; 16]
    ensures { result ≡ number_bytes at ++ number_bytes len }
{
    let mut head = [0; 16];
    head[..8].copy_from_slice(&number_bytes(at));
    head[8..].copy_from_slice(&number_bytes(len));
    head
}

/// Appends an edit to a payload: an offset, and the bytes that the image has there.
pub fn push_edit(payload: &mut Vec<u8>, at: usize, bytes: &[u8]) -> Result<(), AllocError>
    ensures { OnOk result (payload.new.items ≡ payload.old.items ++ edit_text at bytes.now) }
{
    payload.extend_from_slice(&edit_head(at as u64, bytes.len() as u64))?;
    payload.extend_from_slice(bytes)
}

/// Begins a payload: the length of the new image, and the tag, which has the fingerprints of the file and of the new
/// image.
pub fn begin_payload(
    alloc: Global,
    len: usize,
    base: u64,
    after: u64,
) -> Result<Vec<u8>, AllocError>
    ensures { IfOk result (λ payload. payload.items ≡ number_bytes len ++ tag_text base after) }
{
    let mut payload = Vec::new(alloc);
    payload.extend_from_slice(&number_bytes(len as u64))?;
    push_edit(&mut payload, usize::MAX, &edit_head(base, after))?;
    Ok(payload)
}

/// Fills a payload up with zeros, which are edits of no bytes, so that the gate behind its record has a block of its
/// own.
pub fn fill(alloc: Global, payload: &mut Vec<u8>) -> Result<(), AllocError>
    ensures { OnOk result
        (payload.new.items ≡ payload.old.items ++ zeros (filling (length payload.old.items))) }
{
    let over = (payload.len() + 8) % GATE_LEN;
    let rest = zeros(alloc, (GATE_LEN - over) % GATE_LEN)?;
    payload.extend_from_slice(&rest)
}

/// Returns the payload that makes the new image of the old one, page by page. It names the file that the log belongs
/// to, by its fingerprint, and the new image. Its record ends where a block of the disk does.
pub fn changes(alloc: Global, base: u64, old: &[u8], new: &[u8]) -> Result<Vec<u8>, AllocError>
    ensures changes { IfOk result (λ payload. applied payload.items old.now ≡ new.now) }
    ensures base { IfOk result (λ payload. names_base base payload.items ≡ true) }
    ensures after { IfOk result (λ payload. names_image (fingerprint new.now) payload.items ≡ true) }
    ensures multiple { IfOk result (λ payload. (8 + length payload.items) % 4096 ≡ 0) }
    ensures max_len { IfOk result (λ payload. length payload.items ≤ 17 * length new.now + 4144) }
{
    let mut payload = begin_payload(alloc, new.len(), base, fingerprint(new))?;
    let mut at = 0;
    'pages: while at < new.len() {
        let end = at + PAGE_LEN.min(new.len() - at);
        if end > old.len() || old[at..end] != new[at..end] {
            push_edit(&mut payload, at, &new[at..end])?;
        }
        at = end;
    }
    fill(alloc, &mut payload)?;
    Ok(payload)
}
