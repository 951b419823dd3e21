//! Lends two ranges of bytes for one call.
ghost use Rattle.std.specs.Prelude.{◌≡◌, ◌+◌, ◌≤◌, ℕ, List, length};
ghost use Rattle.std.specs.List.{refill};
ghost use Rattle.raw_region.specs.Memory.{part, patched};
ghost use Rattle.raw_region.specs.Regions.{AreDisjoint};
ghost use Rattle.best_fit.specs.Pairs.{CallsOnTwo, TakesTwo};

use raw_region::{ByteRange, two_mut};

/// Calls `change` with two ranges of the bytes, the first for reading and the second for writing.
pub fn on_two<F: FnOnce(&[u8], &mut [u8])>(bytes: &mut [u8], a: ByteRange, b: ByteRange, change: F)
    requires first_in_bounds { a.from + a.len ≤ length bytes.old }
    requires second_in_bounds { b.from + b.len ≤ length bytes.old }
    requires disjoint { AreDisjoint a.from a.len b.from b.len }
    requires callable { TakesTwo F.FnOnce change (part bytes.old a.from a.len) (part bytes.old b.from b.len) }
    ensures { (ws : List ℕ) × CallsOnTwo F.FnOnce change (part bytes.old a.from a.len) (part bytes.old b.from b.len) ws
        × (bytes.new ≡ patched bytes.old b.from (refill b.len (part bytes.old b.from b.len) ws)) }
{
    let (read, written) = two_mut(bytes, a, b);
    change(read, written);
}
