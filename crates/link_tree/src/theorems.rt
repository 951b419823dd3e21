//! Laws of the definitions in the contracts. These functions do nothing: their contracts are the laws.

ghost use Rattle.link_tree.specs.Tree.{BoundsHeight, ReadsOff};

/// States that the height of a red-black tree of n nodes is at most twice the number of binary digits of n + 1.
pub fn law_of_height()
    ensures { BoundsHeight }
{}

/// States three laws of the check. A tree that it reads from links is the tree of the links, and has only valid nodes.
/// It reads each tree of valid nodes within the depth. The test for red-black trees is exact.
pub fn law_of_reading()
    ensures { ReadsOff }
{}
