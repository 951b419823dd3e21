//! The image that stands beside a file, under a hidden name, while the file is written in place. If the writer is
//! killed, the next opener takes the image from there.
ghost use Rattle.std.specs.Prelude.{◌≡◌, ◌≢◌, ℕ, List, Decides, MatchOption};
ghost use Rattle.segment_log.specs.PendingImages.{Completes, SavesSurvive, pending_head, pending_tail, pending_text};

use crate::fingerprints::fingerprint;
use crate::payloads::edit_head;

/// The first bytes of a pending image: the name of the format, and its version.
const PENDING_HEAD: [u8; 16] = [
    b'z', b'a', b'l', b'u', b'x', b'h', b'o', b'n', b'i', b' ', b's', b'a', b'v', b'e', 0, 1,
];

/// Returns what stands in front of a pending image.
pub fn pending_head() -> [u8; 16]
    ensures { result ≡ pending_head }
{
    PENDING_HEAD
}

/// Returns what stands behind a pending image of a length and a fingerprint. The file is whole when it has these bytes.
pub fn pending_tail(len: u64, fingerprint: u64) -> [u8; 16]
    ensures { result ≡ pending_tail len fingerprint }
{
    edit_head(len, fingerprint)
}

/// Returns true if two runs of bytes are equal.
fn are_same(first: &[u8], second: &[u8]) -> bool
    ensures { Decides result (first.now ≡ second.now) }
{
    first == second
}

/// Returns the image in a pending file, if the file is whole.
pub fn pending_image(bytes: &[u8]) -> Option<&[u8]>
    ensures { MatchOption result
        ((image : List ℕ) → bytes.now ≢ pending_text image)
        (λ image. bytes.now ≡ pending_text image.now) }
{
    if bytes.len() < 32 || !are_same(&bytes[..16], &PENDING_HEAD) {
        return None;
    }
    let end = bytes.len() - 16;
    let image = &bytes[16..end];
    let tail = pending_tail(image.len() as u64, fingerprint(image));
    if !are_same(&bytes[end..], &tail) {
        return None;
    }
    Some(image)
}

/// Returns the image by which a save in place is to be completed: that of a whole pending file, if the file is shorter
/// than this image and has its first bytes, as an empty file has.
pub fn completes<'a>(pending: &'a [u8], file: &[u8]) -> Option<&'a [u8]>
    ensures { MatchOption result
        ((image : List ℕ) → Completes pending.now file.now image → ⊥)
        (λ image. Completes pending.now file.now image.now) }
{
    let image = pending_image(pending)?;
    if file.len() >= image.len() || !are_same(&image[..file.len()], file) {
        return None;
    }
    Some(image)
}

/// States that a save in place leaves the old image or the new one at each moment.
pub fn saves_survive()
    ensures { SavesSurvive }
{}
