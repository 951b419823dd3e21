//! The texts of a line, stored in place: their bytes one after another, and the length of each.
ghost use Rattle.std.specs.Prelude.{◌≡◌, ◌≤◌, ◌<◌, ◌+◌, ◌++◌, ◌∷◌, [], List, ℕ, MatchResult, Ok, Err, length, map};
ghost use Rattle.std.specs.Prelude.{take};
ghost use Rattle.segment_manager.specs.Step.{texts_of};
ghost use Rattle.segment_scripts.specs.Replies.{bytes_taken, texts_taken};
ghost use Rattle.segment_scripts.specs.TextBuffers.{parts, total};

use arrayvec::ArrayVec;
use seg_types::Refusal;
use segment_lang::{LineBuffer, Literal, Literals, Quoted, TextLiterals};
use std::marker::Model;

/// The most texts that a line can hold: each takes at least one byte, and a byte after it.
const MOST: usize = 4097;

/// The number of texts for which short room does: room is cleared when it is made.
pub const FEW: usize = 32;

/// Texts, as many and as long as a line may have.
#[derive(Drop)]
pub struct TextBuffer {
    bytes: LineBuffer,
    lengths: [usize; 4097],
    len: usize,
}

impl Model for TextBuffer {
    ghost use Rattle.std.specs.Prelude.{◌≡◌, ◌≤◌, List, ℕ, length, take};
    ghost use Rattle.segment_scripts.specs.TextBuffers.{parts, total};

    ghost Value = { List (List ℕ) };

    ghost view = { λ r. parts (take r.len r.lengths) r.bytes };

    ghost invariant = { λ r. (r.len ≤ 4097) × (total (take r.len r.lengths) ≡ length r.bytes) };
}

impl TextBuffer {
    /// Makes rows without texts.
    pub fn new() -> Self
        ensures { result ≡ [] }
    {
        TextBuffer {
            bytes: LineBuffer::new(),
            lengths: [0; MOST],
            len: 0,
        }
    }

    /// Removes all texts, at no cost: their places are never read again.
    pub fn clear(&mut self)
        ensures { self.new ≡ [] }
    {
        self.bytes.clear();
        self.len = 0;
    }

    /// Adds a text at the end.
    pub fn push(&mut self, text: &Quoted<'_>)
        requires { texts_taken self.old + length text.now ≤ 4096 }
        ensures { self.new ≡ self.old ++ text.now ∷ [] }
    {
        let before = self.bytes.len();
        text.append_to(&mut self.bytes);
        self.lengths[self.len] = self.bytes.len() - before;
        self.len += 1;
    }

    /// Returns the number of texts.
    pub fn len(&self) -> usize
        ensures { result ≡ length self.now }
    {
        let lengths = &self.lengths[..self.len];
        lengths.len()
    }

    /// Returns the texts, lent. There are few.
    pub fn few(&self) -> ArrayVec<&[u8], 32>
        requires { length self.now ≤ 32 }
        ensures { map (λ t. t.now) result.items ≡ self.now }
    {
        cut(self.bytes.as_slice(), &self.lengths[..self.len])
    }

    /// Returns the texts, lent.
    pub fn all(&self) -> ArrayVec<&[u8], 4097>
        ensures { map (λ t. t.now) result.items ≡ self.now }
    {
        cut(self.bytes.as_slice(), &self.lengths[..self.len])
    }
}

/// Cuts bytes into parts of these lengths.
fn cut<'a, const N: usize>(bytes: &'a [u8], lengths: &[usize]) -> ArrayVec<&'a [u8], N>
    requires max_count { length lengths.now ≤ N }
    requires aligned { total lengths.now ≡ length bytes.now }
    ensures { map (λ t. t.now) result.items ≡ parts lengths.now bytes.now }
{
    let mut slices = ArrayVec::new();
    let mut rest = bytes;
    'texts: for index in 0..lengths.len() {
        let (text, behind) = rest.split_at(lengths[index]);
        slices.push(text);
        rest = behind;
    }
    slices
}

/// Copies the texts of a line into a row.
pub fn copy_texts(texts: TextLiterals<'_>, buffer: &mut TextBuffer)
    requires { texts_taken texts ≤ 4097 }
    ensures { buffer.new ≡ texts.entry }
{
    buffer.clear();
    'texts: for text in texts {
        buffer.push(&text);
    }
}

/// Copies literals into a row, as texts.
///
/// # Errors
///
/// `WrongKind` if a literal is no text. The row has no meaning then.
pub fn literal_texts(literals: Literals<'_>, buffer: &mut TextBuffer) -> Result<(), Refusal>
    requires { bytes_taken literals ≤ 4097 }
    ensures { MatchResult result (λ u. texts_of literals.entry ≡ Ok buffer.new) (λ why.
        texts_of literals.entry ≡ Err why) }
{
    buffer.clear();
    'literals: for literal in literals {
        let Literal::Quoted(text) = literal else {
            return Err(Refusal::WrongKind);
        };
        buffer.push(&text);
    }
    Ok(())
}
