//! Where a byte of a segment stands in its picture.
ghost use Rattle.std.specs.Prelude.{◌≡◌, ◌+◌, ◌-◌, ◌≤◌, ◌<◌, ◌^◌};
ghost use Rattle.segment_report.specs.Picture.{bytes_in_row, left_of, right_of, top_of};

/// The number of bytes in a row of a picture.
#[derive(Clone, Copy, Debug)]
pub struct Scale {
    /// The bytes of a row.
    pub row: u64,
    ghost non_empty: { 0 < row },
    ghost max_value: { row ≤ 2 ^ 31 },
}

/// Where the shape of some bytes stands in a picture, in pixels.
#[derive(Clone, Copy, Debug)]
pub struct Corners {
    /// The left edge of the first byte.
    pub left: u64,
    /// The right edge of the last byte.
    pub right: u64,
    /// The top of the first byte's row.
    pub top: u64,
    /// The top of the last byte's row.
    pub last: u64,
}

impl Scale {
    /// Returns the scale for a segment of `size` bytes: its picture has at most 16 rows.
    pub fn of(size: u64) -> Scale
        requires { size ≤ 2 ^ 30 }
        ensures { result.row ≡ bytes_in_row size }
    {
        Scale {
            row: ((size + 255) / 256 * 16).max(64),
        }
    }

    /// Returns the left edge of a byte.
    fn left_of(self, at: u64) -> u64
        ensures { result ≡ left_of self.row at }
    {
        28 + at % self.row * 1024 / self.row
    }

    /// Returns the right edge of a byte.
    fn right_of(self, at: u64) -> u64
        ensures { result ≡ right_of self.row at }
    {
        28 + (at % self.row + 1) * 1024 / self.row
    }

    /// Returns the top of a byte's row.
    fn top_of(self, at: u64) -> u64
        requires { at < 2 ^ 31 }
        ensures top { result ≡ top_of self.row at }
        ensures min_value { result < 2 ^ 40 }
    {
        72 + at / self.row * 32
    }

    /// Returns where the shape of `len` bytes from an offset on stands.
    pub fn corners(self, from: u64, len: u64) -> Corners
        requires non_empty { 0 < len }
        requires in_bounds { from + len ≤ 2 ^ 30 }
        ensures remainder { result.left ≡ left_of self.row from }
        ensures right { result.right ≡ right_of self.row (from + len - 1) }
        ensures top { result.top ≡ top_of self.row from }
        ensures last { result.last ≡ top_of self.row (from + len - 1) }
        ensures max_value { result.top < 2 ^ 40 }
        ensures min_value { result.last < 2 ^ 40 }
    {
        let end = from + len - 1;
        Corners {
            left: self.left_of(from),
            right: self.right_of(end),
            top: self.top_of(from),
            last: self.top_of(end),
        }
    }
}
