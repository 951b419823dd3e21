//! Lines of a script in a segment that is open for reading.

use crate::cases::{Call, Case};
use crate::row_runners::{RowRunner, Runner};
use crate::scripts::{Mark, Script, prefix_of};

/// The commands that may change a segment.
const CHANGING: [&[u8]; 21] = [
    b"construct",
    b"construct_it",
    b"find_or_construct",
    b"destroy",
    b"destroy_ptr",
    b"set",
    b"push",
    b"pop",
    b"insert",
    b"erase",
    b"reserve",
    b"shrink",
    b"clear",
    b"assign",
    b"append",
    b"put",
    b"remove",
    b"reserve_named",
    b"reserve_unique",
    b"shrink_indexes",
    b"zero_free",
];

impl Script {
    /// Tells whether a line may change a segment. One with an error before the fourth is refused whatever the mode is.
    fn is_changing(&self, mark: &Mark) -> bool {
        let first = first_token(self.text_of(mark));
        CHANGING.contains(&first) && !is_misspelled(self.answer_of(mark))
    }
}

impl Script {
    /// Returns how many lines there are up to the last that may change a segment.
    fn changing(&self) -> usize {
        let mut count = 0;
        for (index, mark) in self.marks.iter().enumerate() {
            if self.is_changing(mark) {
                count = index.saturating_add(1);
            }
        }
        count
    }
}

/// Returns the first word of a line, or nothing.
fn first_token(line: &[u8]) -> &[u8] {
    let line = line.trim_ascii_start();
    for (index, byte) in line.iter().enumerate() {
        if b" \t\r".contains(byte) {
            return prefix_of(line, index);
        }
    }
    line
}

/// Tells whether an answer is an error that comes before all others.
fn is_misspelled(answer: &[u8]) -> bool {
    matches!(
        answer.strip_prefix(b"error "),
        Some([b'1'..=b'3', b' ', ..])
    )
}

impl<R: Runner> RowRunner<R> {
    /// Runs each line in mode `ReadOnly` on the image that the lines leave, if its answer there is known. A line that
    /// may change the image is refused. A line after the last of these, or a misspelled one, answers as before.
    pub fn check_read_only<'x>(&self, left: &Case<'x>, script: &'x Script) {
        let behind = script.changing();
        let mut case = left.saving(&[]);
        case.call = Call::ReadOnly;
        for (index, mark) in script.marks.iter().enumerate() {
            if mark.number != case.line {
                case.line = mark.number;
                self.check_line(&case, script, mark, behind <= index);
            }
        }
    }

    fn check_line<'x>(&self, case: &Case<'x>, script: &'x Script, mark: &Mark, is_behind: bool) {
        let (text, answer) = (script.text_of(mark), script.answer_of(mark));
        if script.is_changing(mark) {
            self.check(&case.with_text(text, b"error 4 read only\n"));
        } else if is_behind || is_misspelled(answer) {
            self.check(&case.with_text(text, answer));
        }
    }
}
