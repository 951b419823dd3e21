//! Where words begin and end: the blanks of a line.

ghost use Rattle.std.specs.Prelude.{◌≡◌, ◌≤◌, length};
ghost use Rattle.segment_lang.specs.Lexing.{is_blank};
ghost use Rattle.segment_lang.specs.Reading.{skip_blanks};
ghost use Rattle.segment_lang.specs.Tokens.{at_end};

/// Tells whether a byte parts words: a space or a tab.
pub fn is_blank(byte: u8) -> bool
    ensures { result ≡ is_blank byte }
{
    byte == b' ' || byte == b'\t'
}

/// Returns the bytes without their leading blanks.
pub fn skip_blanks(bytes: &[u8]) -> &[u8]
    ensures value { result.now ≡ skip_blanks bytes.now }
    ensures shrinking { length result.now ≤ length bytes.now }
{
    let mut rest = bytes;
    'blanks: while let [first, tail @ ..] = rest {
        if !is_blank(*first) {
            break;
        }
        rest = tail;
    }
    rest
}

/// Tells whether there are no more words: blanks only, or nothing.
pub fn at_end(bytes: &[u8]) -> bool
    ensures { result ≡ at_end bytes.now }
{
    skip_blanks(bytes).is_empty()
}
