//! The blocks of the texts of a vector. New blocks are allocated before the blocks that they replace are freed.
ghost use Rattle.std.specs.Prelude.{◌*◌, ◌<◌, IsTrue, List, length, map, option_to_list};
ghost use Rattle.raw_region.specs.Format.{current};
ghost use Rattle.best_fit.specs.Heap.{IsHeap, has_room, live_of};
ghost use Rattle.seg_vector.specs.TextParts.{AreHeldElements, FreesBlocks, IsHeldElement, PlacesText, TakesStorage};
ghost use Rattle.seg_vector.specs.{TextLists.StoresArray, TextLists.LaysTexts, TextsCalls.text_blocks};
ghost use Rattle.seg_vector.specs.{Vector.OwnedText};

use crate::places::ELEMENT_LEN;
use crate::text_arrays::put_element;
use best_fit::Heap;
use block_tags::{MAX_SEGMENT_LEN, Role};
use raw_region::Steps;
use seg_types::Refusal;

/// Allocates a block of storage for `n` bytes and returns its handle.
///
/// # Errors
///
/// `NoSpace` if no gap is long enough. Nothing changes.
pub fn take(heap: &mut Heap, n: u64) -> Result<u64, Refusal>
    requires { IsHeap current heap.old.bytes }
    ensures { TakesStorage heap.old heap.new n result }
{
    let block = heap.allocate(n, Role::Storage, &mut Steps::new());
    block.ok().ok_or(Refusal::NoSpace)
}

/// Allocates a block for the bytes of a text, copies them to it, and returns its handle. An empty text needs no block.
///
/// # Errors
///
/// `NoSpace` if no gap is long enough. Nothing changes.
pub fn place_text(heap: &mut Heap, text: &[u8]) -> Result<Option<u64>, Refusal>
    requires { IsHeap current heap.old.bytes }
    ensures { PlacesText heap.old heap.new text.now result }
{
    let len = text.len() as u64;
    if len == 0 {
        return Ok(None);
    }
    let block = take(heap, len)?;
    heap.write(block, 0, text);
    Ok(Some(block))
}

/// Frees the block of the text whose element is at the offset `at` of an array. An empty text has no block.
pub fn release_text(heap: &mut Heap, array: u64, at: u64)
    requires { (q : OwnedText) × IsHeldElement heap.old.bytes array at q }
    ensures { (q : OwnedText) → IsHeldElement heap.old.bytes array at q
        → FreesBlocks heap.old heap.new (option_to_list q.extent) }
{
    if let Some(text) = heap.link(array, at) {
        heap.deallocate(text, &mut Steps::new());
    }
}

/// Frees the blocks of the first `n` texts of an array.
pub fn release_texts(heap: &mut Heap, array: u64, n: u64)
    requires { (ps : List OwnedText) × AreHeldElements heap.old.bytes array n ps }
    ensures { (ps : List OwnedText) → AreHeldElements heap.old.bytes array n ps
        → FreesBlocks heap.old heap.new (text_blocks ps) }
{
    for i in 0..n {
        release_text(heap, array, ELEMENT_LEN * i);
    }
}

/// Allocates a block for each text that is not empty, in order, and writes the elements to the front of an array. It
/// stops at the first text for which no gap is long enough, and returns the number of texts before it.
pub fn place_texts(heap: &mut Heap, array: u64, texts: &[&[u8]]) -> u64
    requires heap { IsHeap current heap.old.bytes }
    requires room { IsTrue (has_room (live_of heap.old.bytes) array (16 * length texts.now)) }
    ensures { LaysTexts heap.old heap.new array (map (λ text. text.now) texts.now) result }
{
    let n = texts.len() as u64;
    for i in 0..n {
        let text = texts[i as usize];
        match place_text(heap, text) {
            Err(_) => return i,
            Ok(block) => put_element(heap, array, ELEMENT_LEN * i, block, text.len() as u64),
        }
    }
    n
}

/// Allocates an array with one element for each text, and a block for each text that is not empty, and writes the
/// elements and the texts. Returns the array's handle.
///
/// # Errors
///
/// `NoSpace` if no gap is long enough for the array or a text. It frees what it allocated: the same blocks are in use,
/// with the same bytes.
pub fn store_array(heap: &mut Heap, texts: &[&[u8]]) -> Result<u64, Refusal>
    requires heap { IsHeap current heap.old.bytes }
    requires non_empty { 0 < length texts.now }
    ensures { StoresArray heap.old heap.new (map (λ text. text.now) texts.now) result }
{
    let n = texts.len() as u64;
    if n > MAX_SEGMENT_LEN {
        return Err(Refusal::NoSpace);
    }
    let array = take(heap, ELEMENT_LEN * n)?;
    let placed = place_texts(heap, array, texts);
    if placed == n {
        return Ok(array);
    }
    release_texts(heap, array, placed);
    heap.deallocate(array, &mut Steps::new());
    Err(Refusal::NoSpace)
}
