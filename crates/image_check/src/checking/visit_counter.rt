//! Counts the visits of the check of an image.
ghost use Rattle.std.specs.Prelude.{◌≡◌, ◌+◌};

use raw_region::Steps;
use std::marker::Model;

/// The number of visits of an image. These are visits:
/// - a read of the tags of a tile, of a free node, of an entry of an index, of an object with its name and padding, of
///   an element, of its link, or of a node of a map;
/// - a look-up, a read or an insertion of a block in the map of owners.
#[derive(Drop)]
pub struct VisitCounter {
    steps: Steps,
}

impl Model for VisitCounter {
    ghost use Rattle.std.specs.Prelude.{ℕ};

    ghost Value = { ℕ };

    ghost view = { λ v. v.steps };
}

impl VisitCounter {
    /// Makes a counter with an initial number of visits. Only the check of an image makes one, so that all visits are
    /// counted here.
    pub(super) fn new(steps: Steps) -> VisitCounter
        ensures { result ≡ steps }
    {
        VisitCounter { steps }
    }

    /// Returns the number of visits.
    pub(super) fn into_steps(self) -> Steps
        ensures { result ≡ self }
    {
        self.steps
    }

    /// Counts one visit.
    pub fn visit(&mut self)
        ensures { self.new ≡ self.old + 1 }
    {
        self.steps.add(1);
    }

    /// Counts `n` visits.
    pub fn add(&mut self, n: u64)
        ensures { self.new ≡ self.old + n }
    {
        self.steps.add(n);
    }
}
