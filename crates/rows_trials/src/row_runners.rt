//! What runs calls.

use crate::cases::{Case, Outcome};
use crate::findings::Findings;
use std::cell::Cell;

/// How many bytes readers and writers give and take at once.
pub const PIECES: [usize; 3] = [1, 7, 4096];

/// What runs sessions and migrations.
pub trait Runner: Drop {
    /// Makes a call, and gives what comes of it.
    fn run(&self, case: &Case<'_>) -> Outcome;

    /// Makes the session of a call in a segment among other bytes, and moves the segment into another region. Tells
    /// whether it prints and leaves what is wanted, and keeps the other bytes.
    fn runs_among(&self, case: &Case<'_>) -> bool;

    /// Returns the class for which an image of any format is refused, and the place that is told with it; or nothing if
    /// there is none.
    fn verdict(&self, image: &[u8]) -> Option<(&'static str, u64)>;
}

/// What runs rows; how many there were so far, how many lines of scripts were in them, and how often a device failed;
/// and what went wrong first.
#[derive(Drop)]
pub struct RowRunner<R> {
    pub findings: Findings,
    pub runner: R,
    pub rows: Cell<u64>,
    pub lines: Cell<u64>,
    pub cuts: Cell<u64>,
}

/// Adds `more` to a count.
pub fn count(counted: &Cell<u64>, more: usize) {
    counted.set(counted.get().saturating_add(more as u64));
}

impl<R: Runner> RowRunner<R> {
    /// Makes a call, and gives what comes of it. It is noted if this is not what is wanted.
    pub fn outcome(&self, case: &Case<'_>) -> Outcome {
        let done = self.runner.run(case);
        let findings = &self.findings;
        findings.holds(
            done.fault == case.fault,
            case.line,
            "another fault, or none",
        );
        let wanted = case.answers.unwrap_or(&done.answers);
        if done.answers.as_slice() != wanted {
            findings.holds(
                false,
                case.differs_at(wanted, &done.answers),
                "another answer",
            );
        }
        let wanted = case.saved.unwrap_or(&done.saved);
        findings.holds(
            done.saved.as_slice() == wanted,
            case.line,
            "another image is saved",
        );
        done
    }

    /// Makes a call.
    pub fn check(&self, case: &Case<'_>) {
        drop(self.outcome(case));
    }

    /// Makes a call in all places.
    pub fn check_in_places(&self, case: &Case<'_>) {
        let mut case = *case;
        for place in case.places {
            case.place = *place;
            self.check(&case);
        }
    }

    /// Makes a call in all places, and by all pieces.
    pub fn check_by_pieces(&self, case: &Case<'_>) {
        let mut case = *case;
        for piece in PIECES {
            case.piece = piece;
            self.check_in_places(&case);
        }
    }

    /// Makes a call with a device that fails, and counts it.
    pub fn check_device_fault(&self, case: &Case<'_>) {
        count(&self.cuts, 1);
        self.check(case);
    }
}
