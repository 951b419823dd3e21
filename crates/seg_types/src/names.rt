//! Names of objects.
ghost use Rattle.std.specs.Prelude.{◌≡◌, ◌&&◌, not, true, Some, None, if◌then◌else◌, nat_le, option_map};
ghost use Rattle.std.specs.List.{list_all};
ghost use Rattle.std.specs.Str.{chars};
ghost use Rattle.seg_types.specs.Names.{is_control, is_name, is_printable_name, is_text_name};
ghost use Rattle.seg_types.specs.Texts.{is_bare_name};

use crate::key_texts::is_bare_name;
use thiserror::Error;

/// The greatest length of a name in bytes.
pub const MAX_NAME_LEN: usize = 255;

/// The greatest length of a name in bytes in formats 0 and 1.
const LONGEST_PRINTABLE_NAME: usize = 63;

/// The error of bytes that are no name: empty, more than 255, not UTF-8, or contain a control character.
#[derive(Clone, Copy, Debug, PartialEq, Eq, Hash, Error)]
#[error("a name has 1 to 255 bytes of UTF-8 without control characters")]
pub struct BadName;

/// A name: 1 to 255 bytes of UTF-8 without control characters. It borrows the bytes and can be copied.
#[derive(Clone, Copy, Debug, PartialEq, Eq, Hash)]
pub struct Name<'a> {
    bytes: &'a [u8],
    ghost text: { is_text_name bytes.now ≡ true },
}

impl<'a> Name<'a> {
    ghost use Rattle.seg_types.specs.Keys.{name_seen};

    /// Makes a name of these bytes, or returns `None` if they are no name.
    pub fn new(bytes: &'a [u8]) -> Option<Name<'a>>
        ensures { option_map name_seen result ≡ (if is_text_name bytes.now then Some bytes.now else None) }
    {
        if !is_text_name(bytes) {
            return None;
        }
        Some(Name { bytes })
    }

    /// Makes a name of these bytes if it needs no quotes, and returns `None` otherwise. The bytes are read once.
    #[tactic(auto, using(crate::proofs::names::Texts::bare_is_text, crate::proofs::names::Texts::long_is_no_text))]
    pub fn bare(bytes: &'a [u8]) -> Option<Name<'a>>
        ensures { option_map name_seen result
            ≡ (if is_bare_name bytes.now && is_text_name bytes.now then Some bytes.now else None) }
    {
        if bytes.len() > MAX_NAME_LEN || !is_bare_name(bytes) {
            return None;
        }
        Some(Name { bytes })
    }

    /// Returns the bytes of the name.
    pub fn as_bytes(&self) -> &'a [u8]
        ensures bytes { result.now ≡ name_seen self.now }
        ensures name { is_text_name result.now ≡ true }
    {
        self.bytes
    }

    /// Returns the name as text.
    pub fn as_str(&self) -> &'a str
        ensures { result.now ≡ name_seen self.now }
    {
        str::from_utf8(self.bytes).unwrap()
    }
}

/// Returns true if the bytes are a name of the format. In formats 0 and 1 a name has 1 to 63 bytes from 0x20 to 0x7E;
/// from format 2 on it has 1 to 255 bytes of UTF-8 without control characters.
pub fn is_name(format: u64, bytes: &[u8]) -> bool
    ensures { result ≡ is_name format bytes.now }
{
    match format {
        0 | 1 => is_printable_name(bytes),
        _ => is_text_name(bytes),
    }
}

/// Returns true if the bytes are a name of formats 0 and 1.
fn is_printable_name(bytes: &[u8]) -> bool
    ensures { result ≡ is_printable_name bytes.now }
{
    !bytes.is_empty() && bytes.len() <= LONGEST_PRINTABLE_NAME && are_printable(bytes)
}

/// Returns true if each byte is from 0x20 to 0x7E.
fn are_printable(bytes: &[u8]) -> bool
    ensures { result ≡ list_all (λ c. nat_le 0x20 c && nat_le c 0x7E) bytes.now }
{
    bytes.iter().all(|byte| (0x20..=0x7E).contains(byte))
}

/// Returns true if the bytes are a name from format 2 on.
fn is_text_name(bytes: &[u8]) -> bool
    ensures { result ≡ is_text_name bytes.now }
{
    if bytes.is_empty() || bytes.len() > MAX_NAME_LEN {
        return false;
    }
    if are_printable(bytes) {
        return true;
    }
    match str::from_utf8(bytes) {
        Ok(text) => is_without_control(text),
        Err(_) => false,
    }
}

/// Returns true if the text contains no control character.
fn is_without_control(text: &str) -> bool
    ensures { result ≡ list_all (λ c. not (is_control c)) (chars text.now) }
{
    text.chars().all(|c| !c.is_control())
}
