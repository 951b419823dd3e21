//! Hints about memory: numbers that are stored next to the memory and not in its bytes.
ghost use Rattle.std.specs.Prelude.{◌≡◌, ◌≤◌, ℕ, IfSome, [], length, slice_index, slice_set, vec_capacity};
ghost use Rattle.raw_region.specs.HintTable.{numbers_in};

use std::alloc::Global;
use std::marker::Model;

/// The greatest number of hints about one memory.
const MAX_HINTS: u64 = 4352;

/// The number of hints about all of the memory.
const COMMON_HINTS: u64 = 256;

/// The number of bytes for each other hint.
const NOTED_LEN: u64 = 2048;

/// Hints about memory: 256 numbers about all of it, and one number for each 2048 bytes, at most 4096. Their storage is
/// allocated with the memory; no other call allocates. Without storage there are no hints.
#[derive(Drop)]
pub struct HintTable {
    numbers: Option<Vec<u32>>,
}

impl Model for HintTable {
    ghost use Rattle.std.specs.Prelude.{List, ℕ, ◌≤◌, length};
    ghost use Rattle.raw_region.specs.HintTable.{numbers_in};

    ghost Value = { List ℕ };

    ghost view = { λ n. numbers_in n.numbers };

    ghost invariant = { λ n. length (numbers_in n.numbers) ≤ 4352 };
}

impl HintTable {
    /// Makes a table without storage.
    pub(crate) fn none() -> HintTable
        ensures { result ≡ [] }
    {
        HintTable { numbers: None }
    }

    /// Makes a table with storage for a memory of `capacity` bytes. The table has no storage if the allocator refuses
    /// it, or if `capacity` is below 2048.
    pub(crate) fn about(alloc: Global, capacity: u64) -> HintTable {
        HintTable {
            numbers: numbers_for(alloc, capacity),
        }
    }

    /// Sets each hint to 0 and keeps the storage.
    pub(crate) fn into_zeros(self) -> HintTable
        ensures { (i : ℕ) → slice_index result i ≡ 0 }
    {
        let HintTable { numbers } = self;
        match numbers {
            Some(kept) => HintTable {
                numbers: Some(filled(kept)),
            },
            None => HintTable { numbers: None },
        }
    }

    /// Returns all hints.
    pub fn as_slice(&self) -> &[u32]
        ensures { result.now ≡ self.now }
    {
        match &self.numbers {
            Some(numbers) => numbers.as_slice(),
            None => &[],
        }
    }

    /// Returns the number of hints, at most 4352.
    pub fn len(&self) -> usize
        ensures len { result ≡ length self.now }
        ensures most { result ≤ 4352 }
    {
        // The proof reads the bound from the field's type.
        let _ = &self.numbers;
        self.as_slice().len()
    }

    /// Returns the hint at `at`, or 0 if `at` is past the last hint.
    pub fn get(&self, at: usize) -> u32
        ensures { result ≡ slice_index self.now at }
    {
        number_at(self.as_slice(), at)
    }

    /// Sets the hint at `at`; does nothing if `at` is past the last hint.
    pub fn set(&mut self, at: usize, number: u32)
        ensures { self.new ≡ slice_set self.old at number }
    {
        if let Some(numbers) = &mut self.numbers
            && at < numbers.len()
        {
            numbers[at] = number;
        }
    }
}

/// Allocates storage for the hints about `capacity` bytes; `None` if the allocator refuses, or if `capacity` is below
/// 2048.
fn numbers_for(alloc: Global, capacity: u64) -> Option<Vec<u32>>
    ensures empty { numbers_in result ≡ [] }
    ensures capacity { IfSome result (λ kept. vec_capacity kept ≤ 4352) }
{
    let others = (capacity / NOTED_LEN).min(MAX_HINTS - COMMON_HINTS - 1);
    if others == 0 {
        return None;
    }
    Vec::with_capacity(alloc, (COMMON_HINTS + others) as usize + 1).ok()
}

/// Returns as many zeros as the storage holds, at most 4352. The call allocates nothing.
fn filled(kept: Vec<u32>) -> Vec<u32>
    ensures zeros { (i : ℕ) → slice_index result.items i ≡ 0 }
    ensures most { length result.items ≤ 4352 }
{
    let mut zeros = kept;
    let count = zeros.capacity().min(MAX_HINTS as usize);
    zeros.clear();
    let _ = zeros.resize(count, 0);
    zeros
}

/// Returns the number at `at`, or 0 if `at` is past the end.
fn number_at(numbers: &[u32], at: usize) -> u32
    ensures { result ≡ slice_index numbers.now at }
{
    if at < numbers.len() { numbers[at] } else { 0 }
}
