//! What may be wrong with a row file, and what may differ from it.

use crate::lines::Line;
use std::alloc::Global;
use std::cell::Cell;

/// Why a row file is not done: the line of the file, and what is wrong there.
#[derive(Clone, Copy)]
pub struct Trouble {
    pub line: usize,
    pub what: &'static str,
}

/// What goes wrong first, and what gives memory.
#[derive(Drop)]
pub struct Findings {
    pub alloc: Global,
    first: Cell<Option<Trouble>>,
}

impl Findings {
    /// Makes notes that say that nothing went wrong so far.
    pub fn new(alloc: Global) -> Findings {
        Findings {
            alloc,
            first: Cell::new(None),
        }
    }

    /// Returns what was noted first since it was asked last.
    pub fn take(&self) -> Option<Trouble> {
        self.first.replace(None)
    }

    /// Notes if something is not so, if nothing was noted before.
    pub fn holds(&self, so: bool, line: usize, what: &'static str) {
        if !so && self.first.get().is_none() {
            self.first.set(Some(Trouble { line, what }));
        }
    }

    /// Notes a failure unless `so`: the line is malformed or misplaced.
    pub fn is_placed(&self, so: bool, line: &Line<'_>) {
        let what = "this is no line of a row file, or misplaced";
        self.holds(so, line.number, what);
    }

    /// Notes if there was no memory.
    pub fn has_memory(&self, so: bool) {
        self.holds(so, 0, "out of memory");
    }

    /// Adds bytes.
    pub fn put(&self, out: &mut Vec<u8>, bytes: &[u8]) {
        self.has_memory(out.extend_from_slice(bytes).is_ok());
    }

    /// Returns a copy of some bytes.
    pub fn copy(&self, bytes: &[u8]) -> Vec<u8> {
        let mut copy = Vec::new(self.alloc);
        self.put(&mut copy, bytes);
        copy
    }

    /// Returns a copy of a text with the end of a line.
    pub fn line_of(&self, text: &str) -> Vec<u8> {
        let mut line = self.copy(text.as_bytes());
        self.put(&mut line, b"\n");
        line
    }

    /// Returns a number that stands in a line.
    pub fn number(&self, line: &Line<'_>, text: &str) -> u64 {
        let number = text.parse::<u64>().ok();
        let what = "a number is missing, wrong, or one too many";
        self.holds(number.is_some(), line.number, what);
        number.unwrap_or(0)
    }

    /// Returns two numbers with something between them.
    pub fn pair(&self, line: &Line<'_>, text: &str, between: char) -> (u64, u64) {
        let (one, other) = text.split_once(between).unwrap_or((text, ""));
        (self.number(line, one), self.number(line, other))
    }

    /// Adds the bytes that the rest of a line spells, and the end of a line. What stands in braces is no text.
    pub fn spell(&self, line: &Line<'_>, out: &mut Vec<u8>) {
        let mut pieces = line.rest.split('{');
        self.put(out, pieces.next().unwrap_or("").as_bytes());
        for piece in pieces {
            let (braced, plain) = piece.split_once('}').unwrap_or(("", piece));
            self.spell_braced(line, braced, out);
            self.put(out, plain.as_bytes());
        }
        self.put(out, b"\n");
    }

    /// Adds what stands in braces: a text in single quotes, or bytes by their digits after an `x`, and perhaps how
    /// often.
    fn spell_braced(&self, line: &Line<'_>, braced: &str, out: &mut Vec<u8>) {
        let (unit, times) = braced.rsplit_once('*').unwrap_or((braced, "1"));
        let bytes = self.unit(line, unit);
        for _ in 0..self.number(line, times) {
            self.put(out, &bytes);
        }
    }

    fn unit(&self, line: &Line<'_>, unit: &str) -> Vec<u8> {
        let mut bytes = Vec::new(self.alloc);
        if let Some(digits) = unit.strip_prefix('x')
            && let Ok(number) = u64::from_str_radix(digits, 16)
        {
            let from = 8usize.saturating_sub(digits.len() / 2);
            let number = number.to_be_bytes();
            self.put(&mut bytes, number.get(from..).unwrap_or(&[]));
        }
        if let [b'\'', text @ .., b'\''] = unit.as_bytes() {
            self.put(&mut bytes, text);
        }
        let what = "what is in braces is wrong, or they are left open";
        self.holds(!bytes.is_empty(), line.number, what);
        bytes
    }
}
