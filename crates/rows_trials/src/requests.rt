//! Requests that have no fit, and that all is as before if one has none.

use crate::cases::{Case, Outcome, Place};
use crate::findings::Findings;
use crate::lines::Line;
use crate::row_runners::{PIECES, RowRunner, Runner, count};
use crate::scripts::{Script, has_piece};

/// What is asked to see all that is in a segment; and then what lies free is cleared.
const LOOK: &[u8] = b"free\nblocks\nlist\nunique\nnum_named\nnum_unique\nsanity\n\
    show a\nshow b\nshow c\nshow d\nshow e\nshow @bool\nshow @u8\nshow @i32\nshow @i64\n\
    show v\ninfo v\nshow s\ninfo s\nshow m\ninfo m\nshow t\ninfo t\n\
    reserve_named 0\nreserve_unique 0\nzero_free\n";

/// More bytes than a look prints.
const LOOK_CAPACITY: usize = 4112;

/// What a request is refused by that has no fit.
const NO_SPACE: &[u8] = b"error 9 no space\n";

/// The lines before the command, and the command with the answer that it gives if each request has a fit.
#[derive(Drop)]
struct Requests {
    before: Script,
    command: Script,
}

impl Requests {
    /// Adds what a line says, if it says no sizes.
    fn add(&mut self, findings: &Findings, line: &Line<'_>, answers: &[Line<'_>]) {
        let script = match line.token {
            ">" => &mut self.before,
            "?" => &mut self.command,
            token => return findings.is_placed(token == "requests", line),
        };
        script.add(findings, line, answers, 1);
    }
}

/// What a segment must have for requests: the free bytes that the command `free` prints, and a fit for each.
#[derive(Drop)]
struct Fit<'x> {
    free: &'x [u8],
    is_granted: bool,
}

impl<R: Runner> RowRunner<R> {
    /// Makes the requests that the lines say, in each of the sizes. The lines before the command are a script.
    pub fn check_requests(&self, lines: &[Line<'_>]) {
        let mut requests = Requests {
            before: Script::new(self.findings.alloc),
            command: Script::new(self.findings.alloc),
        };
        for said in lines.chunk_by(|_, line| line.token == "<") {
            self.check_said(said, &mut requests);
        }
        drop(requests);
    }

    fn check_said(&self, said: &[Line<'_>], requests: &mut Requests) {
        if let [line, answers @ ..] = said {
            if ["refused", "granted"].contains(&line.token) {
                self.check_fits(line, requests);
            } else {
                requests.add(&self.findings, line, answers);
            }
        }
    }

    /// Makes the requests in sizes of one line, each with the bytes that are free then.
    fn check_fits(&self, line: &Line<'_>, requests: &Requests) {
        for fit in line.rest.split_whitespace() {
            let (size, free) = fit.split_once(':').unwrap_or((fit, ""));
            let free = self.findings.line_of(free);
            self.check_fit(line, self.findings.number(line, size), &free, requests);
            count(&self.rows, 1);
        }
    }

    /// Makes the requests in a segment of `size` bytes, in two places and in pieces; `free` bytes are free then.
    fn check_fit(&self, line: &Line<'_>, size: u64, free: &[u8], requests: &Requests) {
        let places = Place::usual(size);
        let case = Case::new(line.number, Some(size), &[], &places);
        let is_granted = line.token == "granted";
        let fit = Fit { free, is_granted };
        self.request_in_places(
            &case.unknown(&requests.before.text, LOOK_CAPACITY),
            &fit,
            &requests.command,
        );
    }

    fn request_in_places(&self, case: &Case<'_>, fit: &Fit<'_>, command: &Script) {
        let mut case = *case;
        for place in case.places {
            case.place = *place;
            self.request_by_pieces(&case, fit, command);
        }
    }

    fn request_by_pieces(&self, case: &Case<'_>, fit: &Fit<'_>, command: &Script) {
        let mut case = *case;
        for piece in PIECES {
            case.piece = piece;
            self.request(&case, fit, command);
        }
    }

    /// Makes the requests in the segment that the lines before the command leave. None of these is refused.
    fn request(&self, case: &Case<'_>, fit: &Fit<'_>, command: &Script) {
        let made = self.outcome(case);
        let is_sound = !has_piece(&made.answers, b"error");
        let what = "a line before the command is refused";
        self.findings.holds(is_sound, case.line, what);
        let case = *case;
        self.request_on(&case.on(&made.saved), fit, command);
    }

    fn request_on(&self, case: &Case<'_>, fit: &Fit<'_>, command: &Script) {
        if fit.is_granted {
            self.ask(case, fit.free, command);
        } else {
            self.ask_in_vain(case, fit.free, command);
        }
    }

    /// Makes requests of which one has no fit: after it all is as before.
    fn ask_in_vain(&self, case: &Case<'_>, free: &[u8], command: &Script) {
        let stood = self.outcome(&case.unknown(LOOK, LOOK_CAPACITY));
        let what = "before the command another number of bytes is free";
        let is_free = stood.answers.starts_with(free);
        self.findings.holds(is_free, case.line, what);
        self.refuse_command(case, command, &stood);
        drop(stood);
    }

    fn refuse_command(&self, case: &Case<'_>, command: &Script, stood: &Outcome) {
        let mut behind = Script::new(self.findings.alloc);
        behind.add_line(&self.findings, case.line, &command.text, NO_SPACE);
        behind.add_line(&self.findings, case.line, LOOK, &stood.answers);
        let case = *case;
        self.check(&case.with_script(&behind).saving(&stood.saved));
        drop(behind);
    }

    /// Makes requests that have a fit: what they leave is an image, which is read and saved as it is.
    fn ask(&self, case: &Case<'_>, free: &[u8], command: &Script) {
        let mut behind = Script::new(self.findings.alloc);
        let (text, answers) = (&command.text, &command.answers);
        behind.add_line(&self.findings, case.line, text, answers);
        behind.add_line(&self.findings, case.line, b"free\n", free);
        self.check_saved_as_is(case, &behind);
        drop(behind);
    }

    fn check_saved_as_is(&self, case: &Case<'_>, script: &Script) {
        let case = *case;
        let done = self.outcome(&case.with_script(script));
        self.check(&case.saved_as_is(&done.saved));
        drop(done);
    }
}
