//! Prints names and keys, in the form of the command language.
ghost use Rattle.std.specs.Prelude.{◌≡◌, Some, None, flat_map, if◌then◌else◌};
ghost use Rattle.std.specs.Fmt.{DisplaysOnOk};
ghost use Rattle.std.specs.List.{list_all};
ghost use Rattle.seg_types.specs.Keys.{index_key_seen, key_seen, name_seen, new_key_seen};
ghost use Rattle.seg_types.specs.Names.{ByKind};
ghost use Rattle.seg_types.specs.Texts.{escape_text, is_bare_name, is_letter, is_name_byte, item_text, key_text};
ghost use Rattle.seg_types.specs.Texts.{name_text, quoted_text};

use crate::keys::{IndexKey, Key, NewKey};
use crate::kinds::Kind;
use crate::names::Name;
use std::fmt;
use std::fmt::Display;

/// Returns true if a name needs no quotes: a letter or `_`, then letters, digits, `_` and `.`.
pub fn is_bare_name(name: &[u8]) -> bool
    ensures { result ≡ is_bare_name name.now }
{
    let [first, rest @ ..] = name else {
        return false;
    };
    (first.is_ascii_alphabetic() || *first == b'_') && are_name_bytes(rest)
}

/// Returns true if each byte can occur in a bare name after its first byte.
fn are_name_bytes(bytes: &[u8]) -> bool
    ensures { result ≡ list_all is_name_byte bytes.now }
{
    bytes.iter().all(|byte| is_name_byte(*byte))
}

/// Returns true if a byte can occur in a bare name after its first byte: a letter, a digit, `_` or `.`.
fn is_name_byte(byte: u8) -> bool
    ensures { result ≡ is_name_byte byte }
{
    byte.is_ascii_alphanumeric() || byte == b'_' || byte == b'.'
}

/// Prints the name bare if possible, otherwise in quotes.
impl fmt::Display for Name<'_> {
    ghost output = { λ n. Some (name_text (name_seen n)) };

    // A bare name is not padded, whatever the format options are.
    ghost styled_output = { λ n spec. if is_bare_name (name_seen n) then Some (name_seen n) else None };

    fn fmt<W: fmt::Write>(&self, f: &mut fmt::Formatter<W>) -> fmt::Result {
        if is_bare_name(self.as_bytes()) {
            return f.write_str(self.as_str());
        }
        write_quoted(self.as_bytes(), f)
    }
}

/// Writes a text in quotes.
fn write_quoted<W: fmt::Write>(text: &[u8], f: &mut fmt::Formatter<W>) -> fmt::Result
    ensures { DisplaysOnOk W.write_str_gives f.old result (Some (quoted_text text.now)) f.new }
{
    f.write_str("\"")?;
    write_items(text, f)?;
    f.write_str("\"")
}

/// Writes the bytes of a text without its quotes.
fn write_items<W: fmt::Write>(text: &[u8], f: &mut fmt::Formatter<W>) -> fmt::Result
    ensures { DisplaysOnOk W.write_str_gives f.old result (Some (flat_map item_text text.now)) f.new }
{
    'items: for byte in text {
        write_item(*byte, f)?;
    }
    Ok(())
}

/// Writes one byte of a text.
fn write_item<W: fmt::Write>(byte: u8, f: &mut fmt::Formatter<W>) -> fmt::Result
    ensures { DisplaysOnOk W.write_str_gives f.old result (Some (item_text byte)) f.new }
{
    match byte {
        b'"' => f.write_str("\\\""),
        b'\\' => f.write_str("\\\\"),
        b' '..=b'~' => f.write_char(char::from(byte)),
        _ => write_escape(byte, f),
    }
}

/// Writes a byte as two hexadecimal digits after `\x`.
#[tactic(auto, using(std::proofs::lemmas::Fmt::hex_byte))]
fn write_escape<W: fmt::Write>(byte: u8, f: &mut fmt::Formatter<W>) -> fmt::Result
    ensures { DisplaysOnOk W.write_str_gives f.old result (Some (escape_text byte)) f.new }
{
    write!(f, "\\x{byte:02x}")
}

/// Writes a kind after `@`.
fn write_unique<W: fmt::Write>(kind: Kind, f: &mut fmt::Formatter<W>) -> fmt::Result
    ensures { DisplaysOnOk W.write_str_gives f.old result (Some (key_text (ByKind kind))) f.new }
{
    write!(f, "@{kind}")
}

/// Prints a name as `Name` does, a kind after `@`, a handle after `#`, and `-` for no key.
impl fmt::Display for Key<'_> {
    ghost output = { λ key. Some (key_text (key_seen key)) };

    fn fmt<W: fmt::Write>(&self, f: &mut fmt::Formatter<W>) -> fmt::Result {
        match self {
            Key::Name(name) => name.fmt(f),
            Key::Unique(kind) => write_unique(*kind, f),
            Key::Handle(handle) => write!(f, "#{handle}"),
            Key::Anonymous => f.write_str("-"),
        }
    }
}

/// Prints the key that finds the new object.
impl fmt::Display for NewKey<'_> {
    ghost output = { λ key. Some (key_text (new_key_seen key)) };

    fn fmt<W: fmt::Write>(&self, f: &mut fmt::Formatter<W>) -> fmt::Result {
        match self {
            NewKey::Name(name) => name.fmt(f),
            NewKey::Unique(kind) => write_unique(*kind, f),
            NewKey::Anonymous => f.write_str("-"),
        }
    }
}

/// Prints the key of the entry's object.
impl fmt::Display for IndexKey<'_> {
    ghost output = { λ key. Some (key_text (index_key_seen key)) };

    fn fmt<W: fmt::Write>(&self, f: &mut fmt::Formatter<W>) -> fmt::Result {
        match self {
            IndexKey::Name(name) => name.fmt(f),
            IndexKey::Unique(kind) => write_unique(*kind, f),
        }
    }
}
