//! Counts the free tiles of an image and the tiles in use, during the walk that checks the free ones.
ghost use Rattle.std.specs.Prelude.{◌∷◌, ◌++◌, ◌<◌, ◌^◌, [], List};
ghost use Rattle.block_tags.specs.declared.tile.Tile.{Tile};
ghost use Rattle.image_check.specs.Owners.{AreCounted};

use block_tags::Tile;

/// The numbers of tiles that a walk has passed.
#[derive(Clone, Copy)]
pub(crate) struct Counts {
    /// The number of free tiles.
    pub(crate) free: u64,
    /// The number of tiles in use.
    pub(crate) used: usize,
}

impl Counts {
    /// Makes counts of 0 tiles.
    pub(crate) fn new() -> Counts
        ensures { AreCounted [] result }
    {
        Counts { free: 0, used: 0 }
    }

    /// Counts one more tile.
    pub(crate) fn add(&mut self, tile: Tile)
        requires free { self.old.free < 2 ^ 63 }
        requires usage { self.old.used < 2 ^ 63 }
        ensures { (ts : List Tile) → AreCounted ts self.old → AreCounted (ts ++ tile ∷ []) self.new }
    {
        match tile.use_of {
            None => self.free += 1,
            Some(_) => self.used += 1,
        }
    }
}
