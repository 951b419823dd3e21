//! Iterators over the objects of an index, and over the names: all of them, or those that do not precede a text.
ghost use Rattle.std.specs.Iterator.SizeHint.{IsExactHint, IsWithinCount};
ghost use Rattle.std.specs.{Iterator.UpTo, Iterator.at_most, Prelude.◌-◌, Prelude.◌≡◌, Prelude.IfSome, Prelude.length};
ghost use Rattle.seg_index.specs.Held.{entry_count, index_at};
ghost use Rattle.seg_index.specs.declared.index.Index.TheVariants.{Named, Unique};
ghost use Rattle.segment_manager.specs.indexes.Iterating.{GoesOnNames, YieldsInstance};
ghost use Rattle.segment_manager.specs.{State.AnswersWith, indexes.Indexed.objects_of, indexes.NamesFrom.IsFirstFrom};

use crate::objects::instance_info::Instance;
use crate::segment::Segment;
use raw_region::Steps;
use seg_index::{Entry, Index, Lookup};
use std::marker::Model;

/// An iterator over the objects of one of the two indexes, in its order. It returns each object's `Instance` without a
/// look-up.
///
/// In contracts it is the segment, the index, and the number of objects returned so far.
#[derive(Drop)]
pub struct Instances<'a> {
    pub(crate) segment: &'a Segment,
    pub(crate) index: Index,
    pub(crate) at: u64,
}

impl<'a> Model for Instances<'a> {
    ghost use Rattle.segment_manager.specs.indexes.Iterating.{Walk};

    ghost Value = { Walk };

    ghost view = { λ w. record { segment = w.segment.now; index = w.index; at = w.at } };
}

impl<'a> Iterator for Instances<'a> {
    type Item = Instance<'a>;

    ghost next_gives = { YieldsInstance };

    ghost remaining = { λ w. at_most (entry_count w.segment.cut (index_at w.index) - w.at) };

    fn next(&mut self) -> Option<Instance<'a>> {
        let segment = self.segment;
        if self.at >= segment.count_of(self.index) {
            return None;
        }
        let said = segment.entered(self.index, self.at);
        self.at += 1;
        Some(said)
    }

    fn size_hint(&self) -> (usize, Option<usize>)
        ensures lower { IsWithinCount result.0
            (at_most (entry_count self.now.segment.cut (index_at self.now.index) - self.now.at)) }
        ensures upper { IfSome result.1
            (UpTo (at_most (entry_count self.now.segment.cut (index_at self.now.index) - self.now.at))) }
        ensures exact { IsExactHint result (entry_count self.now.segment.cut (index_at self.now.index) - self.now.at) }
    {
        let left = self.segment.count_of(self.index).saturating_sub(self.at) as usize;
        (left, Some(left))
    }
}

/// An iterator over the names of the named objects, in the order of their bytes. It makes no look-up.
///
/// In contracts it is the segment, and the number of names returned so far.
#[derive(Drop)]
pub struct Names<'a> {
    pub(crate) instances: Instances<'a>,
}

impl<'a> Model for Names<'a> {
    ghost use Rattle.std.specs.Prelude.{◌≡◌};
    ghost use Rattle.seg_index.specs.declared.index.Index.TheVariants.{Named};
    ghost use Rattle.segment_manager.specs.indexes.Iterating.{NameWalk};

    ghost Value = { NameWalk };

    ghost view = { λ w. record { segment = w.instances.segment; at = w.instances.at } };

    ghost invariant = { λ w. w.instances.index ≡ Named };
}

impl<'a> Iterator for Names<'a> {
    type Item = &'a [u8];

    ghost next_gives = { GoesOnNames (λ name. name.now) };

    ghost remaining = { λ w. at_most (entry_count w.segment.cut (index_at Named) - w.at) };

    fn next(&mut self) -> Option<&'a [u8]> {
        let said = self.instances.next()?;
        Some(said.name)
    }

    fn size_hint(&self) -> (usize, Option<usize>)
        ensures lower { IsWithinCount result.0
            (at_most (entry_count self.now.segment.cut (index_at Named) - self.now.at)) }
        ensures upper { IfSome result.1
            (UpTo (at_most (entry_count self.now.segment.cut (index_at Named) - self.now.at))) }
        ensures exact { IsExactHint result (entry_count self.now.segment.cut (index_at Named) - self.now.at) }
    {
        self.instances.size_hint()
    }
}

impl Segment {
    /// Returns an iterator over the names of the named objects, in the order of their bytes. Each item is the bytes of
    /// a name, which `Name::new` accepts.
    ///
    /// Example: `for name in segment.names()`.
    pub fn names(&self) -> Names<'_>
        ensures { result ≡ record { segment = self.now; at = 0 } }
    {
        Names {
            instances: self.named_instances(),
        }
    }

    /// Returns an iterator over the named objects, in the order of the bytes of their names.
    ///
    /// Example: `for said in segment.named_instances()`.
    pub fn named_instances(&self) -> Instances<'_>
        ensures { result ≡ record { segment = self.now; index = Named; at = 0 } }
    {
        self.instances_of(Index::Named, 0)
    }

    /// Returns an iterator over the unique objects, in the order of the codes of their kinds.
    ///
    /// Example: `for said in segment.unique_instances()`.
    pub fn unique_instances(&self) -> Instances<'_>
        ensures { result ≡ record { segment = self.now; index = Unique; at = 0 } }
    {
        self.instances_of(Index::Unique, 0)
    }

    /// Returns the number of names that precede the text, which can be any bytes. This is the place of the first name
    /// that does not. It takes one look-up in the index of names.
    ///
    /// Example: `let at = segment.named_place(b"prices/")`.
    pub fn named_place(&self, text: &[u8]) -> u64
        ensures { IsFirstFrom self.now text.now result }
    {
        match Index::Named.lookup(&self.heap, Entry::Name(text), &mut Steps::new()) {
            Lookup::Found(place) => place,
            Lookup::Absent(place) => place,
        }
    }

    /// Returns an iterator over the named objects whose names do not precede the text, in the order of the bytes of
    /// their names.
    ///
    /// Example: `for said in segment.named_instances_from(b"prices/")`.
    pub fn named_instances_from(&self, text: &[u8]) -> Instances<'_>
        ensures segment { result.segment ≡ self.now }
        ensures index { result.index ≡ Named }
        ensures first { IsFirstFrom self.now text.now result.at }
    {
        self.instances_of(Index::Named, self.named_place(text))
    }

    /// Returns an iterator over the names that do not precede the text, in the order of their bytes.
    ///
    /// Example: `for name in segment.names_from(b"prices/")`.
    pub fn names_from(&self, text: &[u8]) -> Names<'_>
        ensures segment { result.segment ≡ self.now }
        ensures first { IsFirstFrom self.now text.now result.at }
    {
        Names {
            instances: self.named_instances_from(text),
        }
    }

    /// Returns an iterator over the objects of an index, from the one at a place on.
    fn instances_of(&self, index: Index, at: u64) -> Instances<'_>
        ensures { result ≡ record { segment = self.now; index = index; at = at } }
    {
        Instances {
            segment: self,
            index,
            at,
        }
    }

    /// Returns the number of objects in an index.
    fn count_of(&self, index: Index) -> u64
        ensures word { result ≡ entry_count self.now.cut (index_at index) }
        ensures count { AnswersWith self.now (λ d. length (objects_of index d)) result }
    {
        index.len(&self.heap)
    }
}
