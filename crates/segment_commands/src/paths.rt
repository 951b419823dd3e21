//! Paths as the program prints them. A path that is no UTF-8 opens no file, and has a word that stands for it.
ghost use Rattle.std.specs.Prelude.{◌≡◌, ◌++◌, IfOk, OnOk, string_bytes, true};
ghost use Rattle.segment_lang.specs.Pieces.{piece_text};
ghost use Rattle.segment_lang.specs.Texts.{item_text, quoted_text};
ghost use Rattle.segment_commands.specs.Paths.{path_text, stands_in};

use segment_lang::{Piece, digit_text};
use std::alloc::{AllocError, Global};

/// Returns how a path is printed: as a text of the language, whose bytes end no line and control no terminal.
#[tactic(auto, using(crate::proofs::paths::Told::no_bytes, crate::proofs::paths::Told::marked, crate::proofs::paths::Told::unmarked))]
pub(crate) fn path_piece(path: &str) -> Piece<'_>
    ensures { piece_text result ≡ path_text path.now }
{
    let bytes = path.as_bytes();
    let Some((first, printed)) = bytes.split_first() else {
        return Piece::Text(bytes);
    };
    if *first == 0 {
        Piece::Bytes(printed)
    } else {
        Piece::Text(bytes)
    }
}

/// Returns true for a word that stands for a path that is no UTF-8 ([`stand_in`]).
#[tactic(auto, using(crate::proofs::paths::Told::none_in, crate::proofs::paths::Told::first_in))]
pub fn is_stand_in(token: &str) -> bool
    ensures { result ≡ stands_in token.now }
{
    match token.as_bytes().split_first() {
        Some((first, _)) => *first == 0,
        None => false,
    }
}

/// Appends a byte of a path as a text of the language spells it.
fn push_item(token: &mut String, byte: u8) -> Result<(), AllocError>
    ensures { OnOk result (string_bytes token.new ≡ string_bytes token.old ++ item_text byte) }
{
    if byte == b'"' || byte == b'\\' {
        token.push('\\')?;
        return token.push(char::from(byte));
    }
    if byte >= b' ' && byte <= b'~' {
        return token.push(char::from(byte));
    }
    token.push_str("\\x")?;
    token.push(char::from(digit_text(byte / 16)))?;
    token.push(char::from(digit_text(byte % 16)))
}

/// Returns the word that stands for a path that is no UTF-8: a byte 0, which no path has, and then the path as a text
/// of the language. No file can be opened or made by it, and it is printed as the path is spelled.
///
/// # Errors
///
/// Memory for it was refused.
pub fn stand_in(alloc: Global, path: &[u8]) -> Result<String, AllocError>
    ensures text { IfOk result (λ token. path_text (string_bytes token) ≡ quoted_text path.now) }
    ensures mark { IfOk result (λ token. stands_in (string_bytes token) ≡ true) }
{
    let mut token = String::new(alloc);
    token.push_str("\0\"")?;
    'bytes: for byte in path {
        push_item(&mut token, *byte)?;
    }
    token.push_str("\"")?;
    Ok(token)
}
