//! The objects of an image that can be right by themselves, in the order in which they are made again.

use crate::heads::{Head, head_at};
use crate::losses::{Loss, LossCause, lose};
use crate::tiles::{Place, offset_of, places_in};
use seg_types::NewKey;
use std::alloc::{AllocError, Global};

/// An object by its class, its name, and the offset of its payload: named objects by their names come first.
#[derive(Clone, Copy, Drop, PartialEq, Eq, PartialOrd, Ord)]
pub(crate) struct Candidate<'a> {
    /// The rank of its class: of named objects, of unique ones, of those without a key.
    pub rank: u8,
    /// The name, or none.
    pub name: &'a [u8],
    /// The offset of its payload.
    pub at: u64,
}

/// Returns the candidate for the object with this head at an offset.
fn ranked<'a>(head: Head<'a>, at: u64) -> Candidate<'a> {
    match head.key {
        NewKey::Name(name) => {
            let name = name.as_bytes();
            Candidate { rank: 0, name, at }
        }
        NewKey::Unique(_) => Candidate {
            rank: 1,
            name: &[],
            at,
        },
        NewKey::Anonymous => Candidate {
            rank: 2,
            name: &[],
            at,
        },
    }
}

/// Returns the objects of the image whose heads are right, by class, name and offset. Notes those whose heads are not.
pub(crate) fn candidates_in<'a>(
    alloc: Global,
    image: &'a [u8],
    losses: &mut Vec<Loss>,
) -> Result<Vec<Candidate<'a>>, AllocError> {
    let places = places_in(alloc, image, losses)?;
    let mut found = Vec::new(alloc);
    'places: for index in 0..places.len() {
        if places[index] == Place::Object {
            take(image, offset_of(index), &mut found, losses)?;
        }
    }
    found.sort()?;
    Ok(found)
}

/// Appends the candidate at an offset, or notes the loss of it.
fn take<'a>(
    image: &'a [u8],
    at: u64,
    found: &mut Vec<Candidate<'a>>,
    losses: &mut Vec<Loss>,
) -> Result<(), AllocError> {
    match head_at(image, at) {
        Some(head) => found.push(ranked(head, at))?,
        None => lose(losses, at, 0, LossCause::BadHead)?,
    }
    Ok(())
}

/// Returns how many candidates have a rank.
pub(crate) fn count_of(found: &[Candidate<'_>], rank: u8) -> u64 {
    let mut count: u64 = 0;
    'found: for candidate in found {
        if candidate.rank == rank {
            count = count.saturating_add(1);
        }
    }
    count
}
