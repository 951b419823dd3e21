//! Notes after a dump: lines that begin with `#`, which a load skips.
ghost use Rattle.std.specs.Prelude.{◌≡◌, ◌<◌, true, false, length};
ghost use Rattle.segment_dump.specs.Notes.{IsLastLine, are_notes, is_line, without_notes};

/// Returns the text without the lines at its end that begin with `#`. A line without an end stays.
pub fn without_notes(text: &[u8]) -> &[u8]
    ensures { result.now ≡ without_notes text.now }
{
    let mut left = text;
    'notes: loop {
        let (prefix, last) = left.split_at(last_line_at(left));
        if !is_note(last) {
            return left;
        }
        left = prefix;
    }
}

/// Returns where the last line of a text starts.
fn last_line_at(text: &[u8]) -> usize
    ensures { IsLastLine text.now result }
{
    let mut at = text.len().saturating_sub(1);
    'bytes: while at > 0 && text[at - 1] != b'\n' {
        at -= 1;
    }
    at
}

/// Tells whether a line begins with `#`, and has an end.
fn is_note(line: &[u8]) -> bool
    requires { is_line line.now ≡ true }
    ensures note { result ≡ true → are_notes true line.now ≡ true }
    ensures non_empty { result ≡ true → 0 < length line.now }
    ensures complete { result ≡ false → 0 < length line.now → are_notes true line.now ≡ false }
{
    if line.is_empty() {
        return false;
    }
    if line[0] != b'#' {
        return false;
    }
    line[line.len() - 1] == b'\n'
}
