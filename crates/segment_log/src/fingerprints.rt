//! Numbers that tell images apart. That of an image is the sum of its pages' marks, so that whoever knows the pages
//! that changed computes it from these alone.
ghost use Rattle.std.specs.Prelude.{◌≡◌, ◌≤◌, ◌+◌, ◌*◌, ◌/◌, drop, length};
ghost use Rattle.segment_log.specs.Fingerprints.{fingerprint, mark_word, marked_bytes, marked_words, page_mark};
ghost use Rattle.segment_log.specs.Fingerprints.{FingerprintOfAChange, with_page};
ghost use Rattle.segment_log.specs.Records.{number_of};

use crate::records::number_of;

/// How many bytes of an image are compared, marked and written together.
pub const PAGE_LEN: usize = 4096;

/// Adds a word to a mark. Each half has a factor of its own, so that no two flips of a sign cancel.
fn mark_word(mark: u64, word: u64) -> u64
    ensures { result ≡ mark_word mark word }
{
    mark.wrapping_mul(6_364_136_223_846_793_005)
        .wrapping_add((word % 4_294_967_296).wrapping_mul(1_442_695_040_888_963_407))
        .wrapping_add(word / 4_294_967_296)
}

/// Adds two words to a mark. What the words add does not wait for the mark, so that a processor has it ready.
fn mark_pair(mark: u64, first: u64, second: u64) -> u64
    ensures { result ≡ mark_word (mark_word mark first) second }
{
    mark.wrapping_mul(7_520_897_724_310_334_953)
        .wrapping_add(mark_word(mark_word(0, first), second))
}

/// Returns the word at an offset. A slice of exactly its bytes is read at once.
fn word_at(bytes: &[u8], at: usize) -> u64
    requires in_bounds { at + 8 ≤ length bytes.now }
    ensures { result ≡ number_of (drop at bytes.now) }
{
    number_of(&bytes[at..at + 8])
}

/// Adds four words to a mark in the same way.
fn mark_four(mark: u64, first: u64, second: u64, third: u64, fourth: u64) -> u64
    ensures { result ≡ mark_word (mark_word (mark_word (mark_word mark first) second) third) fourth }
{
    mark.wrapping_mul(18_108_194_425_815_612_945)
        .wrapping_add(mark_pair(mark_pair(0, first, second), third, fourth))
}

/// Returns the mark of the first words of a page, four at a time.
fn mark_fours(page: &[u8]) -> u64
    ensures { result ≡ marked_words (4 * (length page.now / 32)) page.now }
{
    let mut mark = page.len() as u64;
    'fours: for index in 0..page.len() / 32 {
        let at = 32 * index;
        let (first, second) = (word_at(page, at), word_at(page, at + 8));
        let (third, fourth) = (word_at(page, at + 16), word_at(page, at + 24));
        mark = mark_four(mark, first, second, third, fourth);
    }
    mark
}

/// Returns the mark of the whole words of a page.
fn mark_words(page: &[u8]) -> u64
    ensures { result ≡ marked_words (length page.now / 8) page.now }
{
    let mut mark = mark_fours(page);
    'words: for at in page.len() / 32 * 4..page.len() / 8 {
        mark = mark_word(mark, word_at(page, 8 * at));
    }
    mark
}

/// Adds bytes to a mark, each as a word.
fn mark_bytes(start: u64, bytes: &[u8]) -> u64
    ensures { result ≡ marked_bytes start bytes.now }
{
    let mut mark = start;
    'bytes: for byte in bytes {
        mark = mark_word(mark, *byte as u64);
    }
    mark
}

/// Returns the share of a page in the fingerprint of its image.
pub fn page_mark(index: u64, page: &[u8]) -> u64
    ensures { result ≡ page_mark index page.now }
{
    let words = mark_words(page);
    let mark = mark_bytes(words, &page[page.len() / 8 * 8..]);
    mark.wrapping_mul(index.wrapping_mul(2).wrapping_add(1))
}

/// Returns the fingerprint of an image after one of its pages has changed, by the fingerprint before.
pub fn with_page(id: u64, index: u64, old: &[u8], new: &[u8]) -> u64
    ensures { result ≡ with_page id index old.now new.now }
{
    id.wrapping_sub(page_mark(index, old))
        .wrapping_add(page_mark(index, new))
}

/// States that the fingerprint of an image with another page is found by that page alone.
pub fn fingerprint_of_a_change()
    ensures { FingerprintOfAChange }
{}

/// Returns the fingerprint of an image.
pub fn fingerprint(image: &[u8]) -> u64
    ensures { result ≡ fingerprint image.now }
{
    let mut sum: u64 = 0;
    'pages: for index in 0..image.len().div_ceil(PAGE_LEN) {
        let at = index * PAGE_LEN;
        let end = at + PAGE_LEN.min(image.len() - at);
        sum = sum.wrapping_add(page_mark(index as u64, &image[at..end]));
    }
    sum
}
