//! Which file a log belongs to.
ghost use Rattle.std.specs.Prelude.{◌≡◌};
ghost use Rattle.segment_log.specs.Records.{recovered};
ghost use Rattle.segment_log.specs.Tags.{belongs, fits, names_after, names_base, names_image, tag_of};

use crate::edits::next_edit;
use crate::records::{next_record, number_of};

/// Returns the tag of a payload, or nothing.
pub(crate) fn tag_of(payload: &[u8]) -> &[u8]
    ensures { result.now ≡ tag_of payload.now }
{
    if payload.len() < 8 {
        return &[];
    }
    match next_edit(&payload[8..]) {
        Some((u64::MAX, tag, _)) => tag,
        _ => &[],
    }
}

/// Tells whether the file that a payload belongs to has this fingerprint.
fn names_base(payload: &[u8], id: u64) -> bool
    ensures { result ≡ names_base id payload.now }
{
    let tag = tag_of(payload);
    tag.len() >= 16 && number_of(tag) == id
}

/// Tells whether the image that a payload makes has this fingerprint.
fn names_image(payload: &[u8], id: u64) -> bool
    ensures { result ≡ names_image id payload.now }
{
    let tag = tag_of(payload);
    tag.len() >= 16 && number_of(&tag[8..]) == id
}

/// Tells whether a log belongs to a file with this fingerprint: it began with that file, or the file has the image
/// that some record made.
pub fn belongs(log: &[u8], id: u64) -> bool
    ensures { result ≡ belongs id (recovered log.now) }
{
    match next_record(log) {
        Some((payload, _)) => names_base(payload, id) || some_image(log, id),
        None => true,
    }
}

/// Tells whether an image with this fingerprint can be the last of a log.
pub fn fits(log: &[u8], id: u64) -> bool
    ensures { result ≡ fits id (recovered log.now) }
{
    match next_record(log) {
        Some(_) => some_image(log, id),
        None => true,
    }
}

/// Tells whether some record of a log made an image with this fingerprint.
fn some_image(log: &[u8], id: u64) -> bool
    ensures { result ≡ names_after id (recovered log.now) }
{
    let mut rest = log;
    while let Some((payload, behind)) = next_record(rest) {
        if names_image(payload, id) {
            return true;
        }
        rest = behind;
    }
    false
}
