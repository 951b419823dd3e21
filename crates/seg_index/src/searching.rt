//! Binary search over the entries of a block. It has a module of its own, so that it cannot read the fields of its
//! counter.
ghost use Rattle.std.specs.Prelude.{◌≡◌, ◌^◌, ◌<◌, ◌≤◌};
ghost use Rattle.raw_region.specs.Memory.{bytes_of};
ghost use Rattle.link_tree.specs.Tree.{bits};
ghost use Rattle.seg_index.specs.{Beginnings.key_prefix, Comparing.comparisons_in, Lookups.AreKeys};
ghost use Rattle.seg_index.specs.{Lookups.FindsPositionIn};

use crate::comparing::ComparisonCounter;
use crate::keys::Lookup;
use std::cmp::Ordering;

/// Returns the position of the key among the first `count` entries.
pub fn search(comparisons: &mut ComparisonCounter<'_>, count: u64) -> Lookup
    requires keys { AreKeys comparisons.old.heap.now comparisons.old.block count comparisons.old.key }
    requires max_count { count < 2 ^ 40 }
    requires prefix { comparisons.old.prefix ≡ key_prefix comparisons.old.key }
    requires fresh { comparisons.old.count ≡ 0 }
    ensures place { FindsPositionIn (bytes_of comparisons.old.heap.now.bytes) comparisons.old.key comparisons.old.block
        count result }
    ensures count { comparisons.new.count ≤ bits count }
    ensures steps_exact { comparisons.new.count
        ≡ comparisons_in (bytes_of comparisons.old.heap.now.bytes) comparisons.old.key comparisons.old.block count }
{
    let mut low = 0;
    let mut high = count;
    'halves: while low < high {
        let middle = low + (high - low) / 2;
        match comparisons.compare(middle) {
            Ordering::Less => low = middle + 1,
            Ordering::Greater => high = middle,
            Ordering::Equal => return Lookup::Found(middle),
        }
    }
    Lookup::Absent(low)
}
