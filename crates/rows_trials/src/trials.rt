//! The parts of a row, each in every way.

use crate::cases::{Call, Case};
use crate::parts::{Part, PartKind};
use crate::row_runners::{RowRunner, Runner};
use crate::scripts::{Script, has_piece, prefix_of};

impl<R: Runner> RowRunner<R> {
    /// Runs a part, perhaps in one way only, and gives the image that it saves, if it saves another: nothing if it ends
    /// with a fault.
    pub fn saved_by<'x>(&self, case: &Case<'x>, part: &'x Part<'x>, once: bool) -> Option<Vec<u8>> {
        let script = &part.script;
        match part.kind {
            PartKind::Nothing => return None,
            PartKind::Read => self.read(case, script),
            PartKind::Alone => self.alone(case, script),
            PartKind::Migrate if part.fault.is_empty() => return Some(self.migrate(case)),
            PartKind::Migrate => self.refuse_to_migrate(case, part.fault),
            PartKind::Write if part.fault.is_empty() => return Some(self.write(case, script, once)),
            PartKind::Write => {
                let case = case.with_script(script).failing(part.fault);
                self.refuse(&case.saving(&[]), once);
            }
        }
        None
    }

    /// Runs a script in mode `Write`, and gives the image that is saved.
    fn write<'x>(&self, case: &Case<'x>, script: &'x Script, once: bool) -> Vec<u8> {
        let mut case = case.with_script(script);
        case.saved = None;
        let saved = self.outcome(&case).saved;
        if !once {
            self.vary(&case.saving(&saved), script);
            let left = Case::new(case.line, None, &saved, case.places);
            self.check_image(&left);
            self.check_read_only(&left, script);
        }
        saved
    }

    /// Runs a script whose image is known: in all places, in pieces, with other line ends, and with devices that fail.
    /// It also runs it among other bytes, and as a copy, which saves nothing.
    fn vary<'x>(&self, case: &Case<'x>, script: &'x Script) {
        self.check_by_pieces(case);
        self.cut_session(case, script);
        let what = "among other bytes it answers or saves something else, or these are written";
        self.findings
            .holds(self.runner.runs_among(case), case.line, what);
        self.vary_ends(case, script);
        let mut case = *case;
        case.call = Call::CopyOnWrite;
        case.saved = Some(&[]);
        self.check_in_places(&case);
    }

    fn vary_ends<'x>(&self, case: &Case<'x>, script: &'x Script) {
        let text = prefix_of(&script.text, script.text.len().saturating_sub(1));
        self.check(&case.with_text(text, &script.answers));
        if !has_piece(&script.text, b"\r\n") {
            let text = script.with_returns(&self.findings);
            let case = *case;
            self.check(&case.with_text(&text, &script.answers));
        }
    }

    /// Makes a call that ends with a fault and saves nothing, in all modes, in all places and in pieces; an image that
    /// is refused is cut in all places.
    pub fn refuse(&self, case: &Case<'_>, once: bool) {
        if once {
            return self.check(case);
        }
        let mut other = *case;
        for call in [Call::ReadOnly, Call::CopyOnWrite, Call::Write] {
            other.call = call;
            self.check_by_pieces(&other);
        }
        if case.fresh.is_none() {
            for place in case.places {
                other.place = *place;
                self.cut_reading(&other, case.fault);
            }
        }
    }

    /// Opens a good image in all places, and in too small a region; saves it again; and cuts it where it is read and
    /// where it is saved.
    fn check_image(&self, left: &Case<'_>) {
        let size = left.image.len();
        let answer = format!(in self.findings.alloc; "{size}\n");
        self.findings.has_memory(answer.is_ok());
        let answer = answer.unwrap_or(String::new(self.findings.alloc));
        let case = left.saving(left.image);
        let case = case.with_text(b"size\n", answer.as_bytes());
        self.check_by_pieces(&case);
        self.cut_image(&case);
    }

    /// Runs a script in mode `ReadOnly` on an image, in all places and in pieces, and with devices that fail.
    fn read<'x>(&self, case: &Case<'x>, script: &'x Script) {
        let mut case = case.with_script(script).saving(&[]);
        case.call = Call::ReadOnly;
        self.check_by_pieces(&case);
        self.cut_session(&case, script);
    }

    /// Runs each line as a script of its own, and all of them. The image is saved as it was each time.
    fn alone<'x>(&self, case: &Case<'x>, script: &'x Script) {
        let mut kept = case.saving(case.image);
        self.check_in_places(&kept.with_text(&script.text, &script.answers));
        for mark in &script.marks {
            kept.line = mark.number;
            let alone = kept.with_text(script.text_of(mark), script.answer_of(mark));
            self.check_in_places(&alone);
        }
        self.check_read_only(case, script);
    }

    /// Migrates an image in all places, in pieces, and with devices that fail; and gives the one that is saved.
    fn migrate(&self, case: &Case<'_>) -> Vec<u8> {
        let mut case = *case;
        case.call = Call::Migrate;
        case.saved = None;
        let saved = self.outcome(&case).saved;
        let known = case.saving(&saved);
        self.check_by_pieces(&known);
        self.cut_image(&known);
        self.check_image(&Case::new(case.line, None, &saved, case.places));
        saved
    }

    /// Sees in every way that an image is not migrated.
    fn refuse_to_migrate<'x>(&self, case: &Case<'x>, fault: &'x str) {
        let mut case = *case;
        case.call = Call::Migrate;
        case.fault = fault;
        self.check_by_pieces(&case);
        self.cut_reading(&case, fault);
    }
}
