//! A segment among other bytes.
ghost use Rattle.std.specs.Prelude.{◌≡◌, ◌%◌};

use crate::segments::{base_of, region_of};
use memory_devices::{EndBehaviour, MemorySink, MemorySource};
use rows_trials::{Case, Place};
use segment_cli::run;
use std::alloc::Global;
use zaluxhoni::{Mode, RawRegion, Segment, Steps, open};

/// The byte round the segment.
const MARK: u8 = 7;

/// Makes the session of a call in a segment among other bytes, and moves the segment into another region. Tells whether
/// it prints and leaves what is wanted, and keeps the other bytes. It is not so if there is no memory.
pub fn runs_among(alloc: Global, case: &Case<'_>) -> bool {
    let saved = case.saved.unwrap_or(&[]);
    let [_, place] = Place::usual(saved.len() as u64);
    match begun(alloc, case, place) {
        Some(segment) => answers_alike(alloc, segment, case, place),
        None => false,
    }
}

/// Returns the segment that a session begins with, in a place of a region whose other bytes are marked.
fn begun(alloc: Global, case: &Case<'_>, place: Place) -> Option<Segment> {
    let mut region = region_of(alloc, place).ok()?;
    let capacity = region.capacity();
    region.fill(0, capacity, MARK);
    begun_in(alloc, case, region, base_of(place))
}

/// Returns the segment that a session begins with, in a region.
fn begun_in(alloc: Global, case: &Case<'_>, region: RawRegion, base: u64) -> Option<Segment>
    requires { base % 16 ≡ 0 }
{
    if let Some(size) = case.fresh {
        return Segment::create(region, base, size, Mode::Write).ok();
    }
    let mut reader = MemorySource::new(case.image, 4096, EndBehaviour::Ends);
    let mut steps = Steps::new();
    open(alloc, &mut reader, region, base, Mode::Write, &mut steps).ok()
}

/// Runs the script on a segment, and moves it into another region.
fn answers_alike(alloc: Global, segment: Segment, case: &Case<'_>, place: Place) -> bool {
    let mut segment = segment;
    let is_alike = answers(alloc, &mut segment, case);
    let is_moved = moves_alike(alloc, segment, case.saved.unwrap_or(&[]), place);
    is_alike && is_moved
}

/// Runs the script on a segment: whether it prints what is wanted.
fn answers(alloc: Global, segment: &mut Segment, case: &Case<'_>) -> bool {
    let mut reader = MemorySource::new(case.script, 4096, EndBehaviour::Ends);
    let Ok(mut answers) = MemorySink::new(alloc, case.answer_capacity, 4096, EndBehaviour::Fails)
    else {
        return false;
    };
    let is_run = run(segment, &mut reader, &mut answers).is_ok();
    is_run && case.answers == Some(answers.taken())
}

/// Moves a segment into another region: whether it has these bytes there, and the one that it leaves has them in a
/// place among others that are as they were.
fn moves_alike(alloc: Global, segment: Segment, wanted: &[u8], place: Place) -> bool {
    match region_of(alloc, place) {
        Ok(target) => relocates_alike(segment, target, wanted, place),
        Err(_) => false,
    }
}

fn relocates_alike(segment: Segment, target: RawRegion, wanted: &[u8], place: Place) -> bool {
    match segment.relocate(target, 0) {
        Ok((segment, left)) => is_moved(&segment, &left, place, wanted),
        Err(_) => false,
    }
}

fn is_moved(segment: &Segment, left: &RawRegion, place: Place, wanted: &[u8]) -> bool {
    segment.as_bytes() == wanted && stands_among(left, place, wanted)
}

/// Tells whether a region has the bytes of a segment in a place, and all others are marked.
fn stands_among(region: &RawRegion, place: Place, segment: &[u8]) -> bool {
    let bytes = region.bytes(0, region.capacity());
    let base = place.base as usize;
    let end = base.saturating_add(segment.len());
    bytes.get(base..end) == Some(segment)
        && is_marked(bytes.get(..base))
        && is_marked(bytes.get(end..))
}

/// Tells whether all of these bytes are marked.
fn is_marked(bytes: Option<&[u8]>) -> bool {
    for byte in bytes.unwrap_or(&[]) {
        if *byte != MARK {
            return false;
        }
    }
    true
}
