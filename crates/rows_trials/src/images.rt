//! Images under names, and changes of them.

use crate::findings::Findings;
use crate::lines::Line;
use crate::parts::Part;

/// An image of a file, and its name.
#[derive(Drop)]
struct Named<'a> {
    name: &'a str,
    image: Vec<u8>,
}

/// The images of a file that have names.
#[derive(Drop)]
pub struct Images<'a> {
    named: Vec<Named<'a>>,
}

impl<'a> Images<'a> {
    /// Makes a set of no images.
    pub fn new(findings: &Findings) -> Images<'a> {
        Images {
            named: Vec::new(findings.alloc),
        }
    }

    /// Returns the image of a name, which is said in a line: the last one that got it.
    pub fn get(&self, findings: &Findings, line: &Line<'_>, name: &str) -> &[u8] {
        let mut found: Option<&[u8]> = None;
        for it in &self.named {
            if it.name == name {
                found = Some(&it.image);
            }
        }
        let what = "there is no image of this name";
        findings.holds(found.is_some(), line.number, what);
        found.unwrap_or(&[])
    }

    /// Returns the image that a line names, with the changes that others say.
    pub fn changed(&self, findings: &Findings, line: &Line<'_>, changes: &[Line<'_>]) -> Vec<u8> {
        let mut image = findings.copy(self.get(findings, line, line.rest));
        for change in changes {
            findings.change(change, &mut image);
        }
        image
    }

    fn keep(&mut self, findings: &Findings, name: &'a str, image: Vec<u8>) {
        findings.has_memory(self.named.push(Named { name, image }).is_ok());
    }

    /// Sees that a part of a row saves the image that it names, and keeps what it saves under the name that it gives
    /// it.
    pub fn keep_saved(
        &mut self,
        findings: &Findings,
        row: &Line<'_>,
        part: &Part<'a>,
        saved: &[u8],
    ) {
        if !part.saves.is_empty() {
            let what = "another image is saved than the one that it names";
            let is_same = self.get(findings, row, part.saves) == saved;
            findings.holds(is_same, row.number, what);
        }
        if !part.keeps.is_empty() {
            self.keep(findings, part.keeps, findings.copy(saved));
        }
    }

    /// Makes the image that some lines say: zeros alone, or another image, with changes.
    pub fn make(&mut self, findings: &Findings, first: &Line<'a>, changes: &[Line<'a>]) {
        let (name, made) = first.rest.split_once(' ').unwrap_or((first.rest, ""));
        let mut image = match made.strip_prefix("of ") {
            Some(other) => findings.copy(self.get(findings, first, other)),
            None => findings.zeros(findings.number(first, made)),
        };
        for line in changes {
            findings.is_placed(line.is_change(), line);
            findings.change(line, &mut image);
        }
        self.keep(findings, name, image);
    }
}

impl Findings {
    /// Returns `len` zeros.
    fn zeros(&self, len: u64) -> Vec<u8> {
        let zeros = Vec::from_elem(self.alloc, 0u8, len as usize);
        self.has_memory(zeros.is_ok());
        zeros.unwrap_or(Vec::new(self.alloc))
    }

    /// Makes the change of an image that a line says, if it says one.
    pub fn change(&self, line: &Line<'_>, image: &mut Vec<u8>) {
        match line.token {
            "word" => {
                let (offset, number) = self.pair(line, line.rest, ' ');
                put_number(image, offset, 8, number);
            }
            "at" => self.put_at(line, line.rest, image),
            "first" => image.truncate(self.number(line, line.rest) as usize),
            "more" => self.put(image, &self.zeros(self.number(line, line.rest))),
            _ => {}
        }
    }

    /// Makes the change of an image that a text in a line says: one of its length, or a number of some bytes.
    pub fn damage(&self, line: &Line<'_>, text: &str, image: &mut Vec<u8>) {
        match text.split_once(' ') {
            Some(("first", len)) => image.truncate(self.number(line, len) as usize),
            Some(("more", len)) => self.put(image, &self.zeros(self.number(line, len))),
            _ => self.put_at(line, text, image),
        }
    }

    /// Puts some of the lowest bytes of a number at an offset, as a text says.
    pub fn put_at(&self, line: &Line<'_>, text: &str, image: &mut [u8]) {
        let (offset, rest) = text.split_once(' ').unwrap_or((text, ""));
        let (len, number) = self.pair(line, rest, ' ');
        put_number(image, self.number(line, offset), len, number);
    }
}

/// Puts the lowest bytes of a number. What is to stand after the end is left out.
fn put_number(image: &mut [u8], offset: u64, len: u64, number: u64) {
    let bytes = number.to_le_bytes();
    if let Some(rest) = image.get_mut(offset as usize..) {
        let count = rest.len().min(len as usize).min(8);
        rest[..count].copy_from_slice(&bytes[..count]);
    }
}

/// Returns how many bytes an image says that it has: the number in the 8 bytes from 16 on, or 0 if the image ends
/// before.
pub fn size_said(image: &[u8]) -> u64 {
    match image.as_chunks::<8>() {
        ([_, _, size, ..], _) => u64::from_le_bytes(*size),
        _ => 0,
    }
}
