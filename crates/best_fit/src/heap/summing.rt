//! Sums the bytes of all gaps over the tree of the gaps, without a visit of blocks in use.
ghost use Rattle.std.specs.Prelude.{◌≡◌, true};
ghost use Rattle.raw_region.specs.Format.{current};
ghost use Rattle.best_fit.specs.Extents.{free_bytes as free_bytes_of};
ghost use Rattle.best_fit.specs.GapNodes.{gaps_in, is_gap_node, len_in};
ghost use Rattle.best_fit.specs.Heap.{IsHeap, live_of};

use crate::heap::nodes::{FREE_TREE_ROOT, GapTree};
use block_tags::TAG_LEN;
use link_tree::walk;
use offset_link::load;
use raw_region::Window;

/// The offset in a gap's tag of the word with its length. The lowest four bits of the word are the use and the colour.
const LENGTH: u64 = 8;

/// Returns the length of the gap with this payload. The number can be any number.
fn len_before(window: &Window, node: u64) -> u64
    ensures { is_gap_node window.now node ≡ true → result ≡ len_in (gaps_in window.now) node }
{
    if node < TAG_LEN || !window.in_range(node - TAG_LEN, TAG_LEN) {
        return 0;
    }
    window.read_u64(node - TAG_LEN + LENGTH) / 16 * 16
}

/// Returns the number of bytes in all gaps.
pub fn free_bytes(gaps: &GapTree) -> u64
    requires { IsHeap current gaps.now.window.bytes }
    ensures { result ≡ free_bytes_of (live_of gaps.now.window.bytes) }
{
    let root = load(&gaps.window, FREE_TREE_ROOT);
    let mut total = 0u64;
    let mut add = |node: u64| {
        total = total.wrapping_add(len_before(&gaps.window, node));
    };
    walk(gaps, root, &mut add);
    total
}
