//! The allocations whose refusal is reported. Each is a function of its own, the only maker of its error.
ghost use Rattle.std.specs.Prelude.{◌≡◌, ◌+◌, ◌≤◌, ◌++◌, IfErr, IfOk, IsOk, if◌then◌else◌, is_ok, length};
ghost use Rattle.std.specs.Prelude.{string_bytes, vec_capacity};
ghost use Rattle.raw_region.specs.Memory.{zeros};
ghost use Rattle.raw_region.specs.Refusals.{out_of_memory_of};
ghost use Rattle.raw_region.specs.Regions.{IsCapacity};

use crate::allocation::Allocation;
use std::alloc::Global;
use thiserror::Error;

/// The error of an allocation for a region or a text. Its private field means that only this module makes it, after a
/// refusal.
#[derive(Clone, Copy, Debug, PartialEq, Eq, Error)]
#[error("out of memory")]
pub struct OutOfMemory {
    /// The number of bytes requested.
    pub bytes: u64,
    _made: (),
}

/// Allocates `capacity` bytes, each 0.
///
/// # Errors
///
/// If the allocator refuses `capacity` bytes.
pub(crate) fn allocated(alloc: Global, capacity: u64) -> Result<Allocation, OutOfMemory>
    requires { IsCapacity capacity }
    ensures zeros { IfOk result (λ r. r ≡ zeros capacity) }
    ensures len { IfOk result (λ r. length r ≡ capacity) }
    ensures refused { IfErr result (λ refusal. refusal ≡ out_of_memory_of capacity) }
{
    match Allocation::new(alloc, capacity) {
        Some(memory) => Ok(memory),
        None => Err(OutOfMemory {
            bytes: capacity,
            _made: (),
        }),
    }
}

/// Returns a copy of a text.
///
/// # Errors
///
/// If the allocator refuses memory for the text's bytes.
pub fn copy_text(alloc: Global, text: &str) -> Result<String, OutOfMemory>
    ensures copy { IfOk result (λ s. string_bytes s ≡ text.now) }
    ensures refused { IfErr result (λ refusal. refusal ≡ out_of_memory_of (length text.now)) }
    // The copy of an empty text needs no memory.
    ensures empty { length text.now ≡ 0 → IsOk result }
{
    let Ok(mut copy) = String::with_capacity(alloc, text.len()) else {
        return Err(OutOfMemory {
            bytes: text.len() as u64,
            _made: (),
        });
    };
    // The copy has room for the text.
    let _ = copy.push_str(text);
    Ok(copy)
}

/// Appends bytes to a text.
///
/// # Errors
///
/// If the text has no room for them and the allocator refuses the longer text. The text is then unchanged.
pub fn append(text: &mut Vec<u8>, more: &[u8]) -> Result<(), OutOfMemory>
    ensures text { text.new.items ≡ (if is_ok result then text.old.items ++ more.now else text.old.items) }
    ensures refused { IfErr result (λ refusal. refusal ≡ out_of_memory_of (length text.old.items + length more.now)) }
    ensures room { length text.old.items + length more.now ≤ vec_capacity text.old → IsOk result }
{
    let bytes = text.len() as u64 + more.len() as u64;
    match text.extend_from_slice(more) {
        Ok(()) => Ok(()),
        Err(_) => Err(OutOfMemory { bytes, _made: () }),
    }
}
