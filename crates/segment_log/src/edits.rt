//! What the payload of a record does to an image.
ghost use Rattle.std.specs.Prelude.{◌≡◌, ◌≤◌, length, take, MatchOption, Some, None};
ghost use Rattle.segment_log.specs.Records.{number_of, zeros};
ghost use Rattle.segment_log.specs.Edits.{applied, edited, next_edit, put, resized, TurnsInto, len_after};

use crate::records::number_of;

/// Puts bytes at an offset of an image, if they lie within it.
fn put(image: &mut [u8], at: u64, bytes: &[u8])
    ensures { image.new ≡ put at bytes.now image.old }
{
    if at > image.len() as u64 {
        return;
    }
    let at = at as usize;
    if bytes.len() > image.len() - at {
        return;
    }
    image[at..at + bytes.len()].copy_from_slice(bytes);
}

/// Returns the first edit of a text, as its offset, its bytes, and what stands behind it.
pub(crate) fn next_edit(text: &[u8]) -> Option<(u64, &[u8], &[u8])>
    ensures { MatchOption result
        (next_edit text.now ≡ None)
        (λ e. next_edit text.now ≡ Some (e.0, e.1.now, e.2.now)) }
{
    if text.len() < 16 {
        return None;
    }
    let at = number_of(text);
    let len = number_of(&text[8..]);
    let behind = &text[16..];
    if len > behind.len() as u64 {
        return None;
    }
    let (bytes, rest) = behind.split_at(len as usize);
    Some((at, bytes, rest))
}

/// Makes the edits of a text.
fn edit(image: &mut [u8], text: &[u8])
    ensures { image.new ≡ edited text.now image.old }
{
    let mut rest = text;
    while let Some((at, bytes, behind)) = next_edit(rest) {
        put(image, at, bytes);
        rest = behind;
    }
}

/// Sets bytes to 0.
pub(crate) fn clear(bytes: &mut [u8])
    ensures { bytes.new ≡ zeros (length bytes.old) }
{
    'bytes: for at in 0..bytes.len() {
        bytes[at] = 0;
    }
}

/// Cuts the image at the front of a buffer, or makes it longer: the zeros behind it are part of it then.
fn resize_within(buffer: &mut [u8], from: usize, len: usize)
    requires in_bounds { from ≤ length buffer.now }
    requires room { len ≤ length buffer.now }
    ensures { TurnsInto from (resized len) buffer.old buffer.new }
{
    if len < from {
        clear(&mut buffer[len..from]);
    }
}

/// Makes of the image at the front of a buffer, of `len` bytes, what the payload of a record says, and returns how many
/// bytes it has then.
pub(crate) fn apply_within(buffer: &mut [u8], len: usize, payload: &[u8]) -> usize
    requires in_bounds { len ≤ length buffer.now }
    requires room { len_after payload.now len ≤ length buffer.now }
    ensures image { TurnsInto len (applied payload.now) buffer.old buffer.new }
    ensures len { result ≡ len_after payload.now len }
{
    if payload.len() < 8 {
        return len;
    }
    let made = number_of(payload) as usize;
    resize_within(buffer, len, made);
    edit(&mut buffer[..made], &payload[8..]);
    made
}
