//! What holds of directories at other sizes. Each function here does nothing: its contract is the law.
ghost use Rattle.grow_shrink.specs.Resized.{GrownIsDirectory, ShrunkIsDirectory, ShrunkIsLeast};

/// States that a directory stays a directory in a larger segment, and in the segment that ends after its last block.
pub fn resized_are_directories()
    ensures growth { GrownIsDirectory }
    ensures shrinking { ShrunkIsDirectory }
{}

/// States that no smaller segment serves the same blocks in place.
pub fn shrunk_is_least()
    ensures { ShrunkIsLeast }
{}
