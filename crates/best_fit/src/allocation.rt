//! Turns a gap, or the front of one, into a block in use.
ghost use Rattle.std.specs.Prelude.{◌≡◌, ℕ, ◌+◌, ◌*◌, ◌%◌, ◌^◌, ◌<◌, ◌≤◌, List, false, true, is_ok, length, nat_le};
ghost use Rattle.std.specs.Prelude.{Some};
ghost use Rattle.raw_region.specs.Memory.{bytes_of};
ghost use Rattle.block_tags.specs.declared.tile.Tile.{Tile as ATile};
ghost use Rattle.raw_region.specs.Format.{current};
ghost use Rattle.block_tags.specs.Lists.{tile_in};
ghost use Rattle.block_tags.specs.Windows.{HasTileAt, EncodesTiles};
ghost use Rattle.link_tree.specs.Tree.{bits};
ghost use Rattle.best_fit.specs.Fit.{added, share};
ghost use Rattle.best_fit.specs.FreeTree.{is_red};
ghost use Rattle.best_fit.specs.GapNodes.{gaps_in};
ghost use Rattle.best_fit.specs.GapTrees.{IsUnlinkedGap};
ghost use Rattle.best_fit.specs.Heap.{Allocates, IsHeap, KeepsBlocks, EncodesLiveSet, heap_touches, live_of};
ghost use Rattle.best_fit.specs.Tiling.{ChangesTags, cut_at};
ghost use Rattle.best_fit.specs.Touches.{TouchesMore, TouchesUpTo};

use crate::heap::touch_counter::TouchCounter;
use crate::refusal::NoSpace;
use crate::sizes::{MIN_BLOCK_LEN, room};
use block_tags::{MAX_SEGMENT_LEN, Role, TAG_LEN};

/// Allocates a block for `n` bytes and returns its handle; fails if no gap is long enough.
pub fn allocate(touches: &mut TouchCounter, n: u64, role: Role) -> Result<u64, NoSpace>
    requires heap { IsHeap current touches.old.gaps.now.window.bytes }
    requires count { touches.old.count ≡ 0 }
    ensures answer { Allocates current touches.old.gaps.now.window touches.new.gaps.now.window n role result }
    ensures touches { touches.new.count ≤ heap_touches (live_of touches.old.gaps.now.window.bytes) }
    ensures steps_lower { is_ok result ≡ true → touches.old.count < touches.new.count }
    ensures same_borrow { touches.new.gaps.ghost_name ≡ touches.old.gaps.ghost_name }
{
    if n > MAX_SEGMENT_LEN {
        return Err(NoSpace);
    }
    let wanted = room(n);
    let Some(node) = touches.take_best_fit(wanted) else {
        return Err(NoSpace);
    };
    take(touches, node - TAG_LEN, wanted, role);
    Ok(node)
}

/// Allocates `wanted` bytes at the front of a gap that is not in the tree, or the whole gap if less than 32 bytes would
/// remain. The remainder enters the tree.
fn take(touches: &mut TouchCounter, at: u64, wanted: u64, role: Role)
    requires gap { (len : ℕ) × IsUnlinkedGap touches.old.gaps.now.window at len × (wanted ≤ len) }
    requires min_len { MIN_BLOCK_LEN ≤ wanted }
    requires aligned { wanted % 16 ≡ 0 }
    requires no_overflow { touches.old.count < 2 ^ 62 }
    ensures live { (len : ℕ) → IsUnlinkedGap touches.old.gaps.now.window at len → wanted ≤ len
        → EncodesLiveSet current touches.new.gaps.now.window.bytes
        (added (live_of touches.old.gaps.now.window.bytes) (record {
          offset = at;
          len = share len wanted;
          role = role;
        })) }
    ensures black { is_red (bytes_of touches.new.gaps.now.window.bytes) (at + TAG_LEN) ≡ false }
    ensures frame { KeepsBlocks touches.old.gaps.now.window touches.new.gaps.now.window
        (live_of touches.old.gaps.now.window.bytes).extents }
    ensures steps { touches.new.count ≤ touches.old.count + 32 * bits (length (gaps_in touches.old.gaps.now.window))
        + 37 }
    ensures steps_lower { TouchesMore touches.old touches.new }
{
    touches.blacken(at);
    let is_cut = split_tail(touches, at, wanted);
    touches.set_use(at, Some(role));
    if is_cut {
        touches.link_gap(at + wanted + TAG_LEN);
    }
}

/// Cuts the tile at `at` to `len` bytes, frees the remainder and returns true. If the remainder would have less than 32
/// bytes, it changes nothing and returns false.
pub fn split_tail(touches: &mut TouchCounter, at: u64, len: u64) -> bool
    requires tile { HasTileAt touches.old.gaps.now.window at }
    requires min_len { MIN_BLOCK_LEN ≤ len }
    requires aligned { len % 16 ≡ 0 }
    requires max_size { len ≤ 1073741856 }
    requires no_overflow { touches.old.count + 2 < 2 ^ 64 }
    ensures tags { ChangesTags touches.old.gaps.now.window touches.new.gaps.now.window (cut_at at len) }
    ensures cut { (ts : List ATile) (t : ATile) → EncodesTiles touches.old.gaps.now.window ts
        → tile_in ts at ≡ Some t → result ≡ nat_le (len + 32) t.len }
    ensures steps_upper { TouchesUpTo touches.old touches.new 2 }
{
    let tile = touches.tile_at(at);
    if tile.len >= len + MIN_BLOCK_LEN {
        touches.split(at, len);
        true
    } else {
        false
    }
}
