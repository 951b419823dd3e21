//! Scripts of lines, and what they print.
ghost use Rattle.std.specs.Prelude.{◌≡◌, take};

use crate::findings::Findings;
use crate::lines::Line;
use std::alloc::Global;

/// Where a line and its answer begin and end, in the script and in the answers.
#[derive(Clone, Copy)]
pub struct Mark {
    /// The line of the file.
    pub number: usize,
    pub script_begin: usize,
    pub script_end: usize,
    pub answers_begin: usize,
    pub answers_end: usize,
}

/// A script, and what it prints.
#[derive(Drop)]
pub struct Script {
    pub text: Vec<u8>,
    pub answers: Vec<u8>,
    pub marks: Vec<Mark>,
}

impl Script {
    /// Makes a script without a line.
    pub fn new(alloc: Global) -> Script {
        Script {
            text: Vec::new(alloc),
            answers: Vec::new(alloc),
            marks: Vec::new(alloc),
        }
    }

    /// Adds a command and the lines that it prints, so that they stand there so often.
    pub fn add(
        &mut self,
        findings: &Findings,
        command: &Line<'_>,
        answers: &[Line<'_>],
        times: u64,
    ) {
        let mut text = Vec::new(findings.alloc);
        let mut answer = Vec::new(findings.alloc);
        findings.spell(command, &mut text);
        for line in answers {
            findings.is_placed(line.token == "<", line);
            findings.spell(line, &mut answer);
        }
        for _ in 0..times {
            self.add_line(findings, command.number, &text, &answer);
        }
    }

    /// Adds a line of a script, and what it prints.
    pub fn add_line(&mut self, findings: &Findings, number: usize, text: &[u8], answer: &[u8]) {
        let script_begin = self.text.len();
        let answers_begin = self.answers.len();
        findings.put(&mut self.text, text);
        findings.put(&mut self.answers, answer);
        let mark = Mark {
            number,
            script_begin,
            script_end: self.text.len(),
            answers_begin,
            answers_end: self.answers.len(),
        };
        findings.has_memory(self.marks.push(mark).is_ok());
    }

    /// Returns a line without its end.
    pub fn text_of(&self, mark: &Mark) -> &[u8] {
        let text = mark.script_begin..mark.script_end.saturating_sub(1);
        self.text.get(text).unwrap_or(&[])
    }

    /// Returns what a line prints.
    pub fn answer_of(&self, mark: &Mark) -> &[u8] {
        let answer = mark.answers_begin..mark.answers_end;
        self.answers.get(answer).unwrap_or(&[])
    }

    /// Returns what the lines print that end within the first bytes of the script.
    pub fn answers_within(&self, bytes: usize) -> &[u8] {
        let mut end = 0;
        for mark in &self.marks {
            if mark.script_end <= bytes {
                end = mark.answers_end;
            }
        }
        prefix_of(&self.answers, end)
    }

    /// Returns the script with a CR more at the end of each line.
    pub fn with_returns(&self, findings: &Findings) -> Vec<u8> {
        let mut text = Vec::new(findings.alloc);
        for byte in &self.text {
            if *byte == b'\n' {
                findings.put(&mut text, b"\r");
            }
            findings.put(&mut text, &[*byte]);
        }
        text
    }
}

/// Returns the first `len` bytes, or all.
pub fn prefix_of(bytes: &[u8], len: usize) -> &[u8]
    ensures { result.now ≡ take len bytes.now }
{
    bytes.get(..len).unwrap_or(bytes)
}

/// Tells whether some bytes stand one after another among others.
pub fn has_piece(bytes: &[u8], piece: &[u8]) -> bool {
    for it in bytes.windows(piece.len().max(1)) {
        if it == piece {
            return true;
        }
    }
    false
}
