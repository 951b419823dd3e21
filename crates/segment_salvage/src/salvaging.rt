//! Makes the objects of an image again in another segment, as far as each is right by itself.
ghost use Rattle.std.specs.Prelude.{◌≤◌, IfOk};
ghost use Rattle.segment_salvage.specs.Standing.{Salvages};
ghost use Rattle.segment_salvage.specs.Work.{ReadsValues, max_work};

use crate::allowance::Allowance;
use crate::candidates::{Candidate, candidates_in, count_of};
use crate::heads::head_at;
use crate::losses::{Loss, LossCause, Unbuilt, lose};
use crate::rebuilding::rebuild;
use segment_manager::Segment;
use std::alloc::{AllocError, Global};

/// Makes in a segment each object of an image that can be reached and is right by itself, whatever the rest of the
/// image is. Appends what it leaves out to the losses. Objects are reached by the entries of the two indexes, and by
/// the tags of the tiles, as far as tags agree.
///
/// Each object of the segment that was not there before stands in the image: its kind, class and name, and its values.
/// Returns how many bytes of values it read. Objects whose values share bytes read the same bytes again, but all
/// objects together read at most four bytes for each byte of the image; an object that wants more is left out.
///
/// # Errors
///
/// If memory is refused. The objects made until then stand in the image too.
#[tactic(auto, using(crate::proofs::Steps::same_salvages, crate::proofs::Steps::then_salvages))]
pub fn salvage(
    alloc: Global,
    image: &[u8],
    segment: &mut Segment,
    losses: &mut Vec<Loss>,
) -> Result<u64, AllocError>
    ensures effect { Salvages image.now segment.old segment.new }
    ensures steps_upper { IfOk result (λ bytes. bytes ≤ max_work image.now) }
{
    let found = candidates_in(alloc, image, losses)?;
    reserve(image, segment, &found);
    let mut allowance = Allowance::of(image);
    let most = allowance.left;
    'objects: for candidate in &found {
        salvage_at(alloc, image, candidate.at, segment, &mut allowance, losses)?;
    }
    Ok(most - allowance.left)
}

/// Reserves entries in the indexes for the objects, so that no index grows while they are made.
#[tactic(auto, using(crate::proofs::Steps::same_salvages, crate::proofs::Steps::then_salvages))]
fn reserve(_image: &[u8], segment: &mut Segment, found: &[Candidate<'_>])
    ensures { Salvages _image.now segment.old segment.new }
{
    let _ = segment.reserve_named(count_of(found, 0));
    let _ = segment.reserve_unique(count_of(found, 1));
}

/// Makes the object at an offset, or appends it to the losses.
#[tactic(auto, using(crate::proofs::Steps::same_salvages, crate::proofs::Steps::then_salvages))]
fn salvage_at(
    alloc: Global,
    image: &[u8],
    at: u64,
    segment: &mut Segment,
    allowance: &mut Allowance,
    losses: &mut Vec<Loss>,
) -> Result<(), AllocError>
    ensures effect { Salvages image.now segment.old segment.new }
    ensures steps_upper { ReadsValues allowance.old allowance.new }
{
    let Some(head) = head_at(image, at) else {
        return lose(losses, at, 0, LossCause::BadHead);
    };
    allowance.is_exceeded = false;
    match rebuild(alloc, image, at, head, segment, allowance) {
        Ok(()) => Ok(()),
        Err(Unbuilt::Lost(_)) if allowance.is_exceeded => {
            lose(losses, at, head.name_len(), LossCause::TooMuch)
        }
        Err(Unbuilt::Lost(cause)) => lose(losses, at, head.name_len(), cause),
        Err(Unbuilt::OutOfMemory(refused)) => Err(refused),
    }
}
