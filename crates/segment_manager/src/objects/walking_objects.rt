//! An iterator over all objects of a segment, anonymous ones among them, by offset.
ghost use Rattle.std.specs.{Prelude.◌≡◌, Prelude.◌-◌, Iterator.at_most};
ghost use Rattle.segment_manager.specs.indexes.Iterating.{GoesOnObjects, GoesOnOwn, own_count};

use crate::blocks::tiles::{TileInfo, Tiles};
use crate::objects::instance_info::{Instance, instance_here};
use crate::segment::Segment;
use block_tags::TAG_LEN;
use std::marker::Model;

/// An iterator over all objects of a segment, anonymous ones among them, by offset. It returns each object's
/// `Instance`. A walk over all of them takes one step for each block and gap.
///
/// In contracts it is the segment, and the number of objects returned so far.
#[derive(Drop)]
pub struct Objects<'a> {
    segment: &'a Segment,
    tiles: Tiles<'a>,
    at: u64,
}

impl<'a> Model for Objects<'a> {
    ghost use Rattle.segment_manager.specs.indexes.Iterating.{HasPassed, ObjectWalk};

    ghost Value = { ObjectWalk };

    ghost view = { λ w. record { segment = w.segment.now; at = w.at } };

    ghost invariant = { λ w. HasPassed w.segment.now w.tiles w.at };
}

impl<'a> Iterator for Objects<'a> {
    type Item = Instance<'a>;

    ghost next_gives = { GoesOnObjects };

    ghost remaining = { λ w. at_most (own_count w.segment.cut.bytes - w.at) };

    fn next(&mut self) -> Option<Instance<'a>> {
        let segment = self.segment;
        let block = next_own(&mut self.tiles)?;
        // The segment's bytes bound the number of its objects, so 64 bits count them.
        let _ = segment.as_bytes();
        self.at += 1;
        Some(instance_here(segment, block.offset + TAG_LEN))
    }
}

/// Returns the next block of an object among the remaining blocks and gaps, or `None` if there is none.
fn next_own(tiles: &mut Tiles<'_>) -> Option<TileInfo>
    ensures { GoesOnOwn tiles.old result tiles.new }
{
    'spans: while let Some(span) = tiles.next() {
        if span.is_object() {
            return Some(span);
        }
    }
    None
}

impl Segment {
    /// Returns an iterator over all objects, anonymous ones among them, by offset.
    ///
    /// Example: `for said in segment.objects()`.
    pub fn objects(&self) -> Objects<'_>
        ensures { result ≡ record { segment = self.now; at = 0 } }
    {
        Objects {
            segment: self,
            tiles: self.tiles(),
            at: 0,
        }
    }
}
