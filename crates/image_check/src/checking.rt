//! Checks a whole image.
ghost use Rattle.std.specs.Prelude.{◌≡◌, ◌≤◌, ℕ, IfErr, IfOk, IsTrue, None, Some, MatchResult, OnErr, OnOk};
ghost use Rattle.std.specs.Prelude.{false, length, true};
ghost use Rattle.image_check.specs.Checking.{IsWhyRefused, OpensWindow, PassesImage};
ghost use Rattle.raw_region.specs.Memory.{are_bytes};
ghost use Rattle.image_check.specs.Owners.{AreCounted};
ghost use Rattle.image_check.specs.EarlyTests.{has_reserved as is_reserved};
ghost use Rattle.image_check.specs.EarlyTests.{has_frame};
ghost use Rattle.image_check.specs.HeaderOffsets.{IsFirstReserved};
ghost use Rattle.image_check.specs.Opening.{CountsOpening, IsImage, IsRaisedFor, is_late};
ghost use Rattle.image_check.specs.Owners.{entries_of, frames};
ghost use Rattle.image_check.specs.Passes.{CountsTiles, ChecksClass, Spends, tiles_in};
ghost use Rattle.image_check.specs.Reading.{HasFront};
ghost use Rattle.image_check.specs.Verdicts.{IsVerdict, AnswersVerdict};
ghost use Rattle.image_check.specs.Visits.{block_rates, frame_rates};
ghost use Rattle.image_check.specs.declared.errors.OpenError.TheVariants.{Image};

mod visit_counter;

use crate::block_collection::collect_blocks;
use crate::classes::ImageClass;
use crate::containers::check_containers;
use crate::counting::Counts;
use crate::errors::{MemoryFault, OpenError, OpenRefused};
use crate::free_tree::check_gaps;
use crate::image_window::ImageWindow;
use crate::indexes::check_indexes;
use crate::object_walk::check_objects;
use crate::orphans::check_orphans;
use crate::owners::Owners;
use crate::shared_blocks::check_sharing;
use crate::verdict::{Offset, Verdict};
use best_fit::FREE_TREE_ROOT;
use block_tags::HEADER_LEN;
use raw_region::Steps;
use segment_manager::layout::{FORMAT_AT, RESERVED_AT};
use segment_manager::{Mode, Segment};
use std::alloc::Global;
use std::mem;
pub(crate) use visit_counter::VisitCounter;

/// Opens the image in its window, whose first words are valid in a format from 0 to 2. A step is a visit: if the result
/// is a segment, or a class from `BadIndex` on, there is at least one visit for each tile.
///
/// # Errors
///
/// The first class that the image shows. `OutOfMemory` only if it shows none of the classes before `BadIndex` and a
/// tile is in use. The error returns the region unchanged.
pub fn open_window(
    alloc: Global,
    window: ImageWindow,
    mode: Mode,
    steps: &mut Steps,
) -> Result<Segment, OpenRefused>
    requires { (format : ℕ) × HasFront format window × (format ≤ 2) }
    ensures opening { (format : ℕ) → HasFront format window → OpensWindow format window mode result }
    ensures steps { IsRaisedFor (length window.bytes) steps.old steps.new }
    ensures visits { CountsOpening window.bytes result steps.old steps.new }
{
    let format = window.version();
    let mut visits = VisitCounter::new(mem::replace(steps, Steps::new()));
    match pass_all(format, alloc, &window, &mut visits) {
        Ok(owners) => {
            let segment = window.into_segment(format, &owners.blocks, mode, &mut visits);
            *steps = visits.into_steps();
            Ok(segment)
        }
        Err(cause) => {
            *steps = visits.into_steps();
            Err(OpenRefused {
                region: window.into_region(),
                cause,
            })
        }
    }
}

/// Returns the owners of the blocks of a window whose first words are valid in a format, if the window is the image of
/// a directory.
///
/// # Errors
///
/// As [`open_window`].
fn pass_all(
    format: u64,
    alloc: Global,
    window: &ImageWindow,
    visits: &mut VisitCounter,
) -> Result<Owners, OpenError>
    requires format { format ≤ 2 }
    requires front { HasFront format window.now }
    ensures outcome { MatchResult result (λ owners.
        IsImage format window.now.bytes) (IsWhyRefused format window.now.bytes) }
    ensures pass { IfOk result (λ owners. PassesImage window.now.bytes owners.blocks.entries visits.old visits.new) }
    ensures visits { IsRaisedFor (length window.now.bytes) visits.old visits.new }
    ensures visits_on_error { IfErr result (λ cause. is_late cause ≡ true
        → CountsTiles window.now.bytes visits.old visits.new) }
{
    let counts = match check_frame(format, window, visits) {
        Ok(counts) => counts,
        Err(verdict) => return Err(OpenError::Image(verdict)),
    };
    let mut owners = match collect_blocks(alloc, window, counts, visits) {
        Ok(owners) => owners,
        Err(refusal) => return Err(OpenError::OutOfMemory(MemoryFault::BlockMap(refusal))),
    };
    if let Err(verdict) = check_blocks(format, window, &mut owners, visits) {
        return Err(OpenError::Image(verdict));
    }
    Ok(owners)
}

/// Checks the reserved bytes, the tags and the free tree of a window whose first words are valid, and returns the
/// numbers of its tiles.
///
/// # Errors
///
/// The first of `BadReserved`, `BadTag` and `BadFreeTree` that the image shows, and the offset that shows it.
fn check_frame(
    format: u64,
    window: &ImageWindow,
    visits: &mut VisitCounter,
) -> Result<Counts, Verdict>
    requires { HasFront format window.now }
    ensures verdict { MatchResult result (λ counts.
        IsTrue (has_frame format window.now.bytes)) (IsVerdict format window.now.bytes) }
    ensures steps_lower { IfOk result (AreCounted (tiles_in window.now.bytes)) }
    ensures bytes { OnOk result (IsTrue (are_bytes window.now.bytes)) }
    ensures visits { OnOk result (Spends frame_rates 51 window.now.bytes visits.old visits.new) }
    ensures visits_on_error { OnErr result (IsRaisedFor (length window.now.bytes) visits.old visits.new) }
    ensures early_stop { IfErr result (λ verdict. is_late (Image verdict) ≡ false) }
{
    window.bytes_are_octets();
    if let Err(place) = check_reserved(window) {
        let class = ImageClass::BadReserved;
        return Err(Verdict { class, place });
    }
    let tags = window.check_counted(format, visits);
    if !tags.are_good {
        return Err(Verdict {
            class: ImageClass::BadTag,
            place: tags.at,
        });
    }
    let Some(counts) = check_gaps(format, window, visits) else {
        return Err(Verdict {
            class: ImageClass::BadFreeTree,
            place: FREE_TREE_ROOT,
        });
    };
    Ok(counts)
}

/// Checks the blocks in use for the classes about blocks, one class after another.
///
/// # Errors
///
/// The first of `BadIndex`, `BadObject`, `SharedBlock`, `BadContainer` and `OrphanBlock` that the image shows, and the
/// offset that shows it.
fn check_blocks(
    format: u64,
    window: &ImageWindow,
    owners: &mut Owners,
    visits: &mut VisitCounter,
) -> Result<(), Verdict>
    requires frame { IsTrue (has_frame format window.now.bytes) }
    requires blocks { owners.old.blocks.entries ≡ entries_of (tiles_in window.now.bytes) }
    requires pending { owners.old.pending ≡ None }
    requires waiting { owners.old.waiting ≡ 0 }
    ensures verdict { AnswersVerdict format window.now.bytes result }
    ensures frame { OnOk result (frames owners.new.blocks.entries ≡ frames (entries_of (tiles_in window.now.bytes))) }
    ensures visits { Spends block_rates 62 window.now.bytes visits.old visits.new }
{
    if let Err(place) = check_indexes(window, owners, visits) {
        let class = ImageClass::BadIndex;
        return Err(Verdict { class, place });
    }
    if let Err(place) = check_objects(format, window, owners, visits) {
        let class = ImageClass::BadObject;
        return Err(Verdict { class, place });
    }
    if let Err(place) = check_sharing(format, window, owners, visits) {
        let class = ImageClass::SharedBlock;
        return Err(Verdict { class, place });
    }
    if let Err(place) = check_containers(format, window, owners, visits) {
        let class = ImageClass::BadContainer;
        return Err(Verdict { class, place });
    }
    if let Err(place) = check_orphans(owners, visits) {
        let class = ImageClass::OrphanBlock;
        return Err(Verdict { class, place });
    }
    Ok(())
}

/// Checks that all reserved bytes of the header are 0: the upper half of the word of the format, and the bytes after
/// the indexes.
///
/// # Errors
///
/// The offset of the first byte that is not 0.
fn check_reserved(window: &ImageWindow) -> Result<(), Offset>
    requires { 128 ≤ length window.now.bytes }
    ensures { ChecksClass (is_reserved window.now.bytes) (IsFirstReserved window.now.bytes) result }
{
    if let Some(place) = window.first_nonzero(FORMAT_AT + 4, FORMAT_AT + 8) {
        return Err(place);
    }
    if let Some(place) = window.first_nonzero(RESERVED_AT, HEADER_LEN) {
        return Err(place);
    }
    Ok(())
}
