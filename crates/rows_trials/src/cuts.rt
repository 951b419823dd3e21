//! Calls whose devices fail at each byte in turn.

use crate::cases::{Case, Place};
use crate::images::size_said;
use crate::row_runners::{RowRunner, Runner};
use crate::scripts::{Script, prefix_of};
use memory_devices::EndBehaviour;

impl<R: Runner> RowRunner<R> {
    /// Runs the session with a reader of the script that fails after each byte: the lines that ended before are
    /// answered, and nothing is saved. Then it runs it with a writer of answers for each number of bytes below all:
    /// these go out, and nothing is saved.
    pub fn cut_session<'x>(&self, case: &Case<'x>, script: &'x Script) {
        let mut case = case.with_script(script);
        case.saved = Some(&[]);
        self.cut_script(&case, script);
        case.fault = "fault WriteFault";
        for step in 0..script.answers.len().saturating_mul(2) {
            let capacity = step / 2;
            case.writers_last = last_of(step);
            case.answer_capacity = capacity;
            case.answers = script.answers.get(..capacity);
            self.check_device_fault(&case);
        }
    }

    fn cut_script<'x>(&self, case: &Case<'x>, script: &'x Script) {
        let mut case = *case;
        case.fault = "fault ReadFault";
        case.script_last = EndBehaviour::Fails;
        for len in 0..script.text.len().saturating_add(1) {
            case.script = prefix_of(&script.text, len);
            case.answers = Some(script.answers_within(len));
            self.check_device_fault(&case);
        }
    }

    /// Runs the session with a writer of the image for each number of bytes below all: all answers and these bytes go
    /// out.
    fn cut_saving(&self, case: &Case<'_>) {
        let saved = case.saved.unwrap_or(&[]);
        let mut case = *case;
        case.fault = "fault WriteFault";
        for step in 0..saved.len().saturating_mul(2) {
            let capacity = step / 2;
            case.writers_last = last_of(step);
            case.image_capacity = capacity;
            case.saved = saved.get(..capacity);
            self.check_device_fault(&case);
        }
    }

    /// Cuts a good image when it is saved and when it is read, and tries it with a byte after it and in too small a
    /// region.
    pub fn cut_image(&self, case: &Case<'_>) {
        self.cut_saving(case);
        let mut longer = self.findings.copy(case.image);
        self.findings.put(&mut longer, &[0]);
        let mut case = *case;
        self.cut_reading(&case.on(&longer), "BadSize");
        case.place = Place::new(case.image.len() as u64, 16);
        self.cut_reading(&case, "fault RegionTooSmall");
    }

    /// Runs the session with a reader of the image that fails or ends after each byte, unless a fault of the image
    /// comes first. Nothing is printed or saved.
    pub fn cut_reading<'x>(&self, case: &Case<'x>, fault: &'x str) {
        let image = case.image;
        let size = size_said(image);
        let from = bytes_of(size, fault);
        let mut case = *case;
        case.answers = Some(&[]);
        case.saved = Some(&[]);
        for len in 0..image.len().saturating_add(1) {
            let is_decided = from <= len as u64;
            case.image = prefix_of(image, len);
            case.fault = if is_decided { fault } else { "Truncated" };
            case.image_last = EndBehaviour::Ends;
            if is_decided || (len as u64) < size.max(144) {
                self.check_device_fault(&case);
            }
            case.fault = if is_decided { fault } else { "fault ReadFault" };
            case.image_last = EndBehaviour::Fails;
            self.check_device_fault(&case);
        }
    }
}

/// Returns what a full writer does at a step: it fails, and takes nothing, by turns.
fn last_of(step: usize) -> EndBehaviour {
    if step % 2 == 0 {
        EndBehaviour::Fails
    } else {
        EndBehaviour::Ends
    }
}

/// Returns how many bytes decide that an image which says that it has `size` is refused, whatever the reader does
/// then. Most classes need all bytes, and that no more follow.
fn bytes_of(size: u64, fault: &str) -> u64 {
    match fault {
        "fault RegionTooSmall" => 24,
        "BadMagic" | "UnsupportedVersion" => 144,
        "BadSize" if is_size(size) => size.saturating_add(1),
        "BadSize" => 144,
        _ => u64::MAX,
    }
}

/// Tells whether a segment may have `size` bytes. If one that says so is of a wrong size, the first byte after it
/// tells.
fn is_size(size: u64) -> bool {
    size % 16 == 0 && (size == 144 || 176 <= size && size <= 1073741824)
}
