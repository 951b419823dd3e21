//! The library, as rows run it.
ghost use Rattle.std.specs.Prelude.{◌≡◌, ◌<◌, ◌-◌, ◌^◌, ◌%◌};

use crate::among::runs_among;
use crate::names::fault_name;
use memory_devices::{MemorySink, MemorySource};
use rows_trials::{Call, Case, Outcome, Place, Runner};
use segment_cli::{Start, migrate, session};
use std::alloc::{AllocError, Global};
use zaluxhoni::{AcceptedVersions, Mode, OpenError, RawRegion, Steps, open_bytes};

/// The library, with what gives it memory.
#[derive(Drop)]
pub struct LibraryRunner {
    pub alloc: Global,
}

impl Runner for LibraryRunner {
    fn run(&self, case: &Case<'_>) -> Outcome {
        match outcome(self.alloc, case) {
            Ok(outcome) => outcome,
            Err(_) => Outcome {
                fault: "out of memory",
                answers: Vec::new(self.alloc),
                saved: Vec::new(self.alloc),
            },
        }
    }

    fn runs_among(&self, case: &Case<'_>) -> bool {
        runs_among(self.alloc, case)
    }

    fn verdict(&self, image: &[u8]) -> Option<(&'static str, u64)> {
        verdict_on(self.alloc, image)
    }
}

/// Returns the class and the place for which an image of any format is refused, in a region that is longer than what it
/// says.
fn verdict_on(alloc: Global, image: &[u8]) -> Option<(&'static str, u64)> {
    let Ok(region) = region_of(alloc, Place::new(65536, 0)) else {
        return None;
    };
    let steps = &mut Steps::new();
    let (versions, mode) = (AcceptedVersions::All, Mode::ReadOnly);
    match open_bytes(alloc, versions, image, region, 0, mode, steps) {
        Ok(_) => None,
        Err(refused) => match refused.cause {
            OpenError::Image(verdict) => Some((verdict.class.name(), verdict.place)),
            _ => None,
        },
    }
}

/// Returns a region of the capacity of a place.
pub fn region_of(alloc: Global, place: Place) -> Result<RawRegion, AllocError> {
    let capacity = place.capacity;
    if capacity < 16 || 1 << 40 < capacity || capacity % 16 != 0 {
        return Err(AllocError);
    }
    match RawRegion::new(alloc, capacity) {
        Ok(region) => Ok(region),
        Err(_) => Err(AllocError),
    }
}

/// Returns the base of a place, which is a multiple of 16.
pub fn base_of(place: Place) -> u64
    ensures { result % 16 ≡ 0 }
{
    place.base / 16 * 16
}

/// Makes a call, and gives what comes of it.
fn outcome(alloc: Global, case: &Case<'_>) -> Result<Outcome, AllocError> {
    let piece = case.piece;
    let mut answers = MemorySink::new(alloc, case.answer_capacity, piece, case.writers_last)?;
    let mut saved = MemorySink::new(alloc, case.image_capacity, piece, case.writers_last)?;
    outcome_by(alloc, case, &mut answers, &mut saved)
}

/// Makes a call with these writers, and gives what comes of it.
fn outcome_by(
    alloc: Global,
    case: &Case<'_>,
    answers: &mut MemorySink,
    saved: &mut MemorySink,
) -> Result<Outcome, AllocError>
    requires outcome { answers.old.failures < 2 ^ 64 - 1 }
    requires saved { saved.old.failures < 2 ^ 64 - 1 }
{
    Ok(Outcome {
        fault: fault(alloc, case, answers, saved)?,
        answers: answers.taken().to_vec(alloc)?,
        saved: saved.taken().to_vec(alloc)?,
    })
}

/// Makes a call, and gives the name of its fault.
fn fault(
    alloc: Global,
    case: &Case<'_>,
    answers: &mut MemorySink,
    saved: &mut MemorySink,
) -> Result<&'static str, AllocError>
    requires outcome { answers.old.failures < 2 ^ 64 - 1 }
    requires saved { saved.old.failures < 2 ^ 64 - 1 }
{
    let piece = case.piece;
    let region = region_of(alloc, case.place)?;
    let base = base_of(case.place);
    let mut image = MemorySource::new(case.image, piece, case.image_last);
    let mut script = MemorySource::new(case.script, piece, case.script_last);
    let result = match mode_of(case.call) {
        Some(mode) => session(
            alloc,
            start_of(case),
            mode,
            &mut image,
            &mut script,
            answers,
            saved,
            region,
            base,
        ),
        None => migrate(alloc, &mut image, saved, region, base),
    };
    match result {
        Ok(()) => Ok(""),
        Err(fault) => Ok(fault_name(fault)),
    }
}

/// Returns what a session begins with.
fn start_of(case: &Case<'_>) -> Start {
    match case.fresh {
        Some(size) => Start::Fresh(size),
        None => Start::Image,
    }
}

/// Returns the mode of a session, or nothing for a migration.
fn mode_of(call: Call) -> Option<Mode> {
    match call {
        Call::Write => Some(Mode::Write),
        Call::ReadOnly => Some(Mode::ReadOnly),
        Call::CopyOnWrite => Some(Mode::CopyOnWrite),
        Call::Migrate => None,
    }
}
