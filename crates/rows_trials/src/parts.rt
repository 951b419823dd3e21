//! The lines of a part of a row.

use crate::findings::Findings;
use crate::lines::Line;
use crate::scripts::Script;

/// What a part of a row does.
#[derive(Clone, Copy)]
pub enum PartKind {
    /// The part runs nothing: it is only what stands before the parts.
    Nothing,
    /// Its lines are a script, in mode `Write`.
    Write,
    /// Its lines are a script, in mode `ReadOnly`.
    Read,
    /// Each of its lines is a script, which is saved as it was.
    Alone,
    /// The image is migrated.
    Migrate,
}

/// What a part of a row says: its script, the name of its fault, the image that it saves, and the name of this image.
/// Each is empty if the part says none.
#[derive(Drop)]
pub struct Part<'a> {
    pub kind: PartKind,
    pub script: Script,
    pub fault: &'a str,
    pub saves: &'a str,
    pub keeps: &'a str,
}

/// What lines say of the whole row, beside changes of its image.
const OF_ROW: [&str; 5] = ["row", "size", "image", "place", "once"];

impl<'a> Part<'a> {
    /// Reads the lines of a part, or those before the parts with the first one, if no line begins it.
    pub fn read(findings: &Findings, lines: &[Line<'a>]) -> Part<'a> {
        let mut part = Part {
            kind: PartKind::Nothing,
            script: Script::new(findings.alloc),
            fault: "",
            saves: "",
            keeps: "",
        };
        for said in lines.chunk_by(|_, line| line.token == "<") {
            if let [line, answers @ ..] = said {
                part.add(findings, line, answers);
            }
        }
        part
    }

    /// Adds a line, and what it prints.
    fn add(&mut self, findings: &Findings, line: &Line<'a>, answers: &[Line<'a>]) {
        if let Some(times) = line.token.strip_suffix('>') {
            let times = if times.is_empty() { "1" } else { times };
            let times = findings.number(line, times);
            self.script.add(findings, line, answers, times);
        } else {
            findings.is_placed(answers.is_empty(), line);
            self.add_said(findings, line);
        }
        if matches!(self.kind, PartKind::Nothing) && !is_of_row(line) {
            self.kind = PartKind::Write;
        }
    }

    /// Adds a line that is none of a script.
    fn add_said(&mut self, findings: &Findings, line: &Line<'a>) {
        match line.token {
            "read" => self.kind = PartKind::Read,
            "alone" => self.kind = PartKind::Alone,
            "migrate" => self.kind = PartKind::Migrate,
            "saves" => self.saves = line.rest,
            "keeps" => self.keeps = line.rest,
            "class" => self.fault = line.rest,
            "fault" => self.fault = line.text,
            token => findings.is_placed(token == "again" || is_of_row(line), line),
        }
    }
}

/// Tells whether a line says something of the whole row.
fn is_of_row(line: &Line<'_>) -> bool {
    line.is_change() || OF_ROW.contains(&line.token)
}
