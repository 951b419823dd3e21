//! Calls over devices in memory, and what must come of them.

use crate::scripts::{Mark, Script};
use memory_devices::EndBehaviour;

/// Where a segment lies: the capacity of its region, and its base. It may be too small for it.
#[derive(Clone, Copy)]
pub struct Place {
    pub capacity: u64,
    pub base: u64,
}

impl Place {
    /// Returns the least capacity of a region for `bytes` bytes, but no more than 16777216.
    pub fn new(bytes: u64, base: u64) -> Place {
        let capacity = bytes.clamp(16, 1 << 24).next_multiple_of(16);
        Place { capacity, base }
    }

    /// Tells whether there may be such a region, and a segment there.
    pub fn is_right(&self) -> bool {
        let is_region = 16 <= self.capacity && self.capacity <= 1 << 40;
        is_region && self.capacity % 16 == 0 && self.base % 16 == 0
    }

    /// Returns places where a segment of `size` bytes lies usually: in a region that it fills, and among other bytes.
    pub fn usual(size: u64) -> [Place; 2] {
        [
            Place::new(size, 0),
            Place::new(size.saturating_add(4096), 160),
        ]
    }
}

/// What is done to a segment: a session in a mode, or a migration.
#[derive(Clone, Copy)]
pub enum Call {
    Write,
    ReadOnly,
    CopyOnWrite,
    Migrate,
}

/// A call: on what, where, and by which devices; and what must come of it.
#[derive(Clone, Copy)]
pub struct Case<'a> {
    /// The line of the file if this is said.
    pub line: usize,
    pub call: Call,
    /// The bytes of the empty segment with which a session begins, or nothing if this is the image.
    pub fresh: Option<u64>,
    pub image: &'a [u8],
    pub script: &'a [u8],
    /// All places if it is to lie, and the one where it lies now.
    pub places: &'a [Place],
    pub place: Place,
    /// How many bytes readers and writers give and take at once.
    pub piece: usize,
    /// What comes after the last byte.
    pub image_last: EndBehaviour,
    pub script_last: EndBehaviour,
    /// How many bytes writers have room for, and what comes if they are full.
    pub answer_capacity: usize,
    pub image_capacity: usize,
    pub writers_last: EndBehaviour,
    /// Where the answer to each line ends.
    pub marks: &'a [Mark],
    /// The name of the fault, or nothing.
    pub fault: &'a str,
    /// What is printed, if that is known.
    pub answers: Option<&'a [u8]>,
    /// What is saved, if that is known.
    pub saved: Option<&'a [u8]>,
}

impl<'a> Case<'a> {
    /// Makes a session in mode `Write` that prints and saves nothing, by devices that do not fail, with room for what
    /// it begins with.
    pub fn new(line: usize, fresh: Option<u64>, image: &'a [u8], places: &'a [Place]) -> Case<'a> {
        let size = fresh.unwrap_or(image.len() as u64);
        Case {
            line,
            call: Call::Write,
            fresh,
            image,
            script: &[],
            places,
            place: *places.first().unwrap_or(&Place::new(size, 0)),
            piece: 4096,
            image_last: EndBehaviour::Ends,
            script_last: EndBehaviour::Ends,
            answer_capacity: 16,
            image_capacity: size.saturating_add(16) as usize,
            writers_last: EndBehaviour::Fails,
            marks: &[],
            fault: "",
            answers: Some(&[]),
            saved: Some(&[]),
        }
    }

    /// Returns the case with another script, which prints this.
    pub fn with_text(&self, script: &'a [u8], answers: &'a [u8]) -> Case<'a> {
        let mut case = *self;
        case.script = script;
        case.answers = Some(answers);
        case.answer_capacity = answers.len().saturating_add(16);
        case
    }

    /// Returns the case with another script, of which nothing is known but that it prints no more than `limit` bytes.
    pub fn unknown(&self, script: &'a [u8], limit: usize) -> Case<'a> {
        let mut case = *self;
        case.script = script;
        case.answers = None;
        case.answer_capacity = limit;
        case.saved = None;
        case
    }

    /// Returns the case with another script.
    pub fn with_script(&self, script: &'a Script) -> Case<'a> {
        let mut case = self.with_text(&script.text, &script.answers);
        case.marks = &script.marks;
        case
    }

    /// Returns the case in which this is saved.
    pub fn saving(&self, saved: &'a [u8]) -> Case<'a> {
        let mut case = *self;
        case.saved = Some(saved);
        case.image_capacity = saved.len().saturating_add(16);
        case
    }

    /// Returns the case on an image.
    pub fn on(&self, image: &'a [u8]) -> Case<'a> {
        let mut case = *self;
        case.fresh = None;
        case.image = image;
        case
    }

    /// Returns a session on an image without a line, which is saved as it is.
    pub fn saved_as_is(&self, image: &'a [u8]) -> Case<'a> {
        let mut case = *self;
        case.fresh = None;
        case.image = image;
        case.script = &[];
        case.answers = Some(&[]);
        case.answer_capacity = 16;
        case.saved = Some(image);
        case.image_capacity = image.len().saturating_add(16);
        case
    }

    /// Returns the case in which this is the fault.
    pub fn failing(&self, fault: &'a str) -> Case<'a> {
        let mut case = *self;
        case.fault = fault;
        case
    }

    /// Returns the line of the file whose answer differs first, if another answer comes.
    pub fn differs_at(&self, wanted: &[u8], got: &[u8]) -> usize {
        let at = alike(wanted, got);
        let mut line = self.line;
        for mark in self.marks {
            if mark.answers_begin <= at {
                line = mark.number;
            }
        }
        line
    }
}

/// Returns how many bytes are the same at the front of both.
fn alike(one: &[u8], other: &[u8]) -> usize {
    let mut count = 0usize;
    for (x, y) in one.iter().zip(other) {
        if x != y {
            break;
        }
        count = count.saturating_add(1);
    }
    count
}

/// What a call answered, printed and saved. Its fault has the name that row files have for it: that of a class of
/// images, or `fault` and a name, or nothing if all is well.
#[derive(Drop)]
pub struct Outcome {
    pub fault: &'static str,
    pub answers: Vec<u8>,
    pub saved: Vec<u8>,
}
