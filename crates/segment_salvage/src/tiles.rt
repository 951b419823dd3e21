//! The places of an image at which an object can stand: those that entries of an index lead to, and those that the tags
//! of tiles lead to, from both ends of the image and from each other place.

use crate::bytes::{link, word};
use crate::losses::{Loss, LossCause, lose};
use segment_manager::layout::{NAMED_AT, UNIQUE_AT};
use std::alloc::{AllocError, Global};

/// The bytes from the place of a payload to that of the next.
const STEP: u64 = 16;

/// The place of the first payload.
const FIRST: u64 = 144;

/// The low bits of the tag of an object.
const OBJECT: u64 = 1;

/// What is known of the payload that begins at a place.
#[derive(Clone, Copy, PartialEq, Eq)]
pub(crate) enum Place {
    /// No more than of any other place.
    Unknown,
    /// A tile begins before it.
    Tile,
    /// An object stands there.
    Object,
}

/// Returns what is known of each place at which a payload can begin: of the offset 16 times its index.
/// Appends the indexes and entries that are not right to the losses.
pub(crate) fn places_in(
    alloc: Global,
    image: &[u8],
    losses: &mut Vec<Loss>,
) -> Result<Vec<Place>, AllocError> {
    let mut places = vec![in alloc; Place::Unknown; image.len() / STEP as usize + 1]?;
    mark_tile(image, FIRST, &mut places);
    mark(&mut places, image.len() as u64, Place::Tile);
    mark_index(image, NAMED_AT, &mut places, losses)?;
    mark_index(image, UNIQUE_AT, &mut places, losses)?;
    mark_before(image, &mut places);
    mark_next(image, &mut places);
    Ok(places)
}

/// Returns the offset of the payload at a place.
pub(crate) fn offset_of(index: usize) -> u64 {
    (index as u64).saturating_mul(STEP)
}

/// Notes what stands at an offset, unless more is known of it.
fn mark(places: &mut [Place], at: u64, what: Place) {
    if at % STEP != 0 {
        return;
    }
    let Ok(index) = usize::try_from(at / STEP) else {
        return;
    };
    if index < places.len() && places[index] != Place::Object {
        places[index] = what;
    }
}

/// Notes the objects that the entries of the index at `at` lead to, and the loss of an index that is not right.
fn mark_index(
    image: &[u8],
    at: u64,
    places: &mut [Place],
    losses: &mut Vec<Loss>,
) -> Result<(), AllocError> {
    let count = word(image, at.saturating_add(8)).unwrap_or(u64::MAX);
    match link(image, at) {
        Some(None) if count == 0 => Ok(()),
        Some(Some(block)) if block >= FIRST && count <= image.len() as u64 / 8 => {
            mark_entries(image, block, count, places, losses)
        }
        _ => lose(losses, at, 0, LossCause::BadIndex),
    }
}

/// Notes the objects that the `count` entries from `block` on lead to, and the loss of each entry that leads to none.
fn mark_entries(
    image: &[u8],
    block: u64,
    count: u64,
    places: &mut [Place],
    losses: &mut Vec<Loss>,
) -> Result<(), AllocError> {
    'entries: for index in 0..count {
        let entry = block.saturating_add(index.saturating_mul(8));
        match link(image, entry) {
            Some(Some(to)) if to >= FIRST && to % STEP == 0 && to < image.len() as u64 => {
                mark(places, to, Place::Object);
            }
            _ => lose(losses, entry, 0, LossCause::BadIndex)?,
        }
    }
    Ok(())
}

/// Notes the tile before each tile, from the end of the image on, if the tags of both agree.
fn mark_before(image: &[u8], places: &mut [Place]) {
    'places: for index in (0..places.len()).rev() {
        if places[index] != Place::Unknown {
            let at = offset_of(index);
            let len = word(image, at.saturating_sub(STEP)).unwrap_or(0);
            if len <= at && len >= 2 * STEP && tile_len(image, at - len) == Some(len) {
                mark_tile(image, at - len, places);
            }
        }
    }
}

/// Notes the tile after each tile, from the front of the image on, if the tags of both agree.
fn mark_next(image: &[u8], places: &mut [Place]) {
    'places: for index in 0..places.len() {
        if places[index] != Place::Unknown {
            let at = offset_of(index);
            let len = tile_len(image, at).unwrap_or(0);
            if len >= 2 * STEP
                && word(image, at.saturating_sub(STEP).saturating_add(len)) == Some(len)
            {
                mark_tile(image, at.saturating_add(len), places);
            }
        }
    }
}

/// Notes the tile whose payload is at an offset, and the object if it is one.
fn mark_tile(image: &[u8], at: u64, places: &mut [Place]) {
    match word(image, at.saturating_sub(8)) {
        Some(tag) if tag % 16 == OBJECT && tag > 16 => mark(places, at, Place::Object),
        _ => mark(places, at, Place::Tile),
    }
}

/// Tells whether the tile of the object at `at` goes on to `end` or farther, by its tag. A tag that is not that of an
/// object says nothing.
pub(crate) fn is_in_tile(image: &[u8], at: u64, end: u64) -> bool {
    match word(image, at.saturating_sub(8)) {
        Some(tag) if tag % 16 == OBJECT => end.saturating_sub(at)
            <= (tag / 16 * 16).saturating_sub(16),
        _ => true,
    }
}

/// Returns the length that the tag before a payload says, if there is one.
fn tile_len(image: &[u8], at: u64) -> Option<u64> {
    let tag = word(image, at.checked_sub(8)?)?;
    Some(tag / 16 * 16)
}
