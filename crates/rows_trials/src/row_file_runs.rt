//! The items of a row file, one after another.

use crate::cases::{Case, Place};
use crate::findings::{Findings, Trouble};
use crate::images::{Images, size_said};
use crate::lines::Line;
use crate::parts::Part;
use crate::row_runners::{RowRunner, Runner, count};
use std::alloc::Global;
use std::cell::Cell;

/// The images that have names so far, and what runs the rows and counts them.
#[derive(Drop)]
pub struct RowFileRun<'a, R> {
    pub bench: RowRunner<R>,
    images: Images<'a>,
}

impl<'a, R: Runner> RowFileRun<'a, R> {
    /// Makes a run without images, which counted nothing.
    pub fn new(alloc: Global, runner: R) -> RowFileRun<'a, R> {
        let findings = Findings::new(alloc);
        RowFileRun {
            images: Images::new(&findings),
            bench: RowRunner {
                findings,
                runner,
                rows: Cell::new(0),
                lines: Cell::new(0),
                cuts: Cell::new(0),
            },
        }
    }

    /// Does what the lines of an item say, and tells what went wrong first.
    pub fn check(&mut self, lines: &[Line<'a>]) -> Option<Trouble> {
        if let [first, rest @ ..] = lines {
            self.bench.check_item(&mut self.images, first, rest);
        }
        self.bench.findings.take()
    }
}

// The images are lent to each of these, so that a change of them is one of a small struct.
impl<R: Runner> RowRunner<R> {
    fn check_item<'a>(&self, images: &mut Images<'a>, first: &Line<'a>, rest: &[Line<'a>]) {
        match first.token {
            "image" => images.make(&self.findings, first, rest),
            "row" => self.check_row(images, first, rest),
            "damaged" => self.check_damaged(images, first, rest),
            "places" => self.check_verdicts(images, first, rest),
            "requests" => self.check_requests(rest),
            _ => self.findings.is_placed(false, first),
        }
    }

    /// Runs a row: in fresh segments of some sizes, or on an image with changes.
    fn check_row<'a>(&self, images: &mut Images<'a>, row: &Line<'a>, lines: &[Line<'a>]) {
        let findings = &self.findings;
        let line = beginning_of(row, lines);
        findings.is_placed(line.is_beginning(), row);
        if line.token == "image" {
            let image = images.changed(findings, line, lines);
            return self.check_parts(images, line, lines, None, image);
        }
        for size in line.rest.split_whitespace() {
            let size = Some(findings.number(line, size));
            self.check_parts(images, line, lines, size, Vec::new(findings.alloc));
        }
    }

    /// Runs the parts of a row, from a fresh segment or an image on, each on what the ones before it left.
    fn check_parts<'a>(
        &self,
        images: &mut Images<'a>,
        row: &Line<'a>,
        lines: &[Line<'a>],
        fresh: Option<u64>,
        image: Vec<u8>,
    ) {
        let (mut fresh, mut image) = (fresh, image);
        let places = self.places(lines, fresh.unwrap_or(size_of(&image)));
        let once = is_said(lines, "once");
        for lines in lines.chunk_by(|_, line| !line.begins_part()) {
            let part = Part::read(&self.findings, lines);
            count(&self.lines, part.script.marks.len());
            let case = Case::new(row.number, fresh, &image, &places);
            if let Some(saved) = self.saved_by(&case, &part, once) {
                images.keep_saved(&self.findings, row, &part, &saved);
                fresh = None;
                image = saved;
            }
            drop(part);
        }
        count(&self.rows, 1);
    }

    /// Returns the places that a row says, or the usual ones.
    fn places(&self, lines: &[Line<'_>], size: u64) -> Vec<Place> {
        let mut places = Vec::new(self.findings.alloc);
        for line in lines {
            if line.token == "place" {
                let place = self.place(line);
                self.findings.has_memory(places.push(place).is_ok());
            }
        }
        if places.is_empty() {
            let usual = places.extend_from_slice(&Place::usual(size));
            self.findings.has_memory(usual.is_ok());
        }
        places
    }

    /// Returns the place that a line says.
    fn place(&self, line: &Line<'_>) -> Place {
        let (capacity, base) = self.findings.pair(line, line.rest, ' ');
        let place = Place { capacity, base };
        let what = "there is no such place";
        self.findings.holds(place.is_right(), line.number, what);
        place
    }

    /// Checks that an image is refused with each of the changes that the lines say, by the class before them.
    fn check_damaged(&self, images: &Images<'_>, first: &Line<'_>, lines: &[Line<'_>]) {
        for line in lines {
            let image = self.damaged(images, first, line, line.rest);
            self.refuse_damaged(line, &image);
        }
    }

    /// Checks that an image is refused with each of the changes that the lines say, by the class before them. The
    /// verdict must name one of the places after the class.
    fn check_verdicts(&self, images: &Images<'_>, first: &Line<'_>, lines: &[Line<'_>]) {
        for line in lines {
            let (places, changes) = line.rest.split_once(' ').unwrap_or((line.rest, ""));
            let image = self.damaged(images, first, line, changes);
            self.check_verdict(line, places, &image);
            count(&self.rows, 1);
        }
    }

    fn check_verdict(&self, line: &Line<'_>, places: &str, image: &[u8]) {
        let is_told = match self.runner.verdict(image) {
            Some((class, place)) => class == line.token && self.is_among(line, places, place),
            None => false,
        };
        let what = "another class or place is told, or none";
        self.findings.holds(is_told, line.number, what);
    }

    /// Tells whether a place is one of those that a text says.
    fn is_among(&self, line: &Line<'_>, places: &str, place: u64) -> bool {
        let mut is_found = false;
        for one in places.split('|') {
            is_found = is_found || self.findings.number(line, one) == place;
        }
        is_found
    }

    /// Returns the image that the first line names, with the changes that a line says.
    fn damaged(
        &self,
        images: &Images<'_>,
        first: &Line<'_>,
        line: &Line<'_>,
        changes: &str,
    ) -> Vec<u8> {
        let mut image = self
            .findings
            .copy(images.get(&self.findings, line, first.rest));
        for change in changes.split(',') {
            self.findings.damage(line, change.trim_start(), &mut image);
        }
        image
    }

    /// Checks that an image is refused by the class that a line says.
    fn refuse_damaged(&self, line: &Line<'_>, image: &[u8]) {
        let places = Place::usual((image.len() as u64).max(4096));
        let case = Case::new(line.number, None, image, &places).saving(&[]);
        let case = case.with_text(b"size\n", &[]);
        self.refuse(&case.failing(line.token), false);
        count(&self.rows, 1);
    }
}

/// Returns the line that says what a row begins with, the first of these, or that of the row if there is none.
fn beginning_of<'x, 'a>(row: &'x Line<'a>, lines: &'x [Line<'a>]) -> &'x Line<'a> {
    for line in lines {
        if line.is_beginning() {
            return line;
        }
    }
    row
}

/// Tells whether some line has this word.
fn is_said(lines: &[Line<'_>], token: &str) -> bool {
    for line in lines {
        if line.token == token {
            return true;
        }
    }
    false
}

/// Returns the bytes of the segment of an image: those that it has, or says that it has, if these are more and not too
/// many.
fn size_of(image: &[u8]) -> u64 {
    let said = size_said(image);
    let likely = if said <= 65536 { said } else { 0 };
    likely.max(image.len() as u64)
}
