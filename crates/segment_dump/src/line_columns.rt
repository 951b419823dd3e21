//! Where a byte of a text stands.
ghost use Rattle.std.specs.Prelude.{◌≡◌, ◌≤◌, ◌<◌, ◌^◌, length, take};
ghost use Rattle.segment_dump.specs.Places.{line_column_behind};

/// Returns the line and the column after the first `at` bytes of a text, each from 1 on. Every byte of a line is a
/// column.
pub fn line_column_at(text: &[u8], at: usize) -> (u64, u64)
    requires { at ≤ length text.now }
    ensures { result ≡ line_column_behind (take at text.now) }
{
    let mut line: u64 = 1;
    let mut column: u64 = 1;
    'bytes: for index in 0..at {
        if text[index] == b'\n' {
            line += 1;
            column = 1;
        } else {
            column += 1;
        }
    }
    (line, column)
}
