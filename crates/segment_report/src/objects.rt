//! The objects of a segment, counted by class and by kind in one walk over them.
ghost use Rattle.std.specs.Prelude.{◌≡◌, ◌^◌, ◌<◌, slice_index, [], ℕ};
ghost use Rattle.segment_manager.specs.State.{AnswersWith};
ghost use Rattle.segment_report.specs.Objects.{CanTally, kind_index, object_counted, object_tally_of, objects_tally};
ghost use Rattle.segment_report.specs.Objects.{scalar_index};

use seg_types::{Class, Kind, ScalarKind};
use segment_manager::Segment;

/// The number of kinds.
const KIND_COUNT: usize = 37;

/// Counts of objects, by class and by kind.
#[derive(Clone, Copy)]
pub struct ObjectTally {
    /// The objects with a name.
    pub named: u64,
    /// The objects that are the only one of their kind.
    pub unique: u64,
    /// The objects that go by their handle alone.
    pub anonymous: u64,
    /// The objects of each kind, at its place.
    pub kinds: [u64; KIND_COUNT],
}

/// Returns the place of a kind among all.
fn index_of(kind: Kind) -> usize
    ensures index { result ≡ kind_index kind }
    ensures in_bounds { result < 37 }
{
    match kind {
        Kind::Scalar(scalar) => scalar_index(scalar),
        Kind::String => 5,
        Kind::Strings => 6,
        Kind::Vector(element) => 7 + scalar_index(element),
        Kind::Map(key, value) => 12 + 5 * scalar_index(key) + scalar_index(value),
    }
}

/// Returns the place of a kind among the scalar ones.
fn scalar_index(kind: ScalarKind) -> usize
    ensures index { result ≡ scalar_index kind }
    ensures in_bounds { result < 5 }
{
    match kind {
        ScalarKind::Bool => 0,
        ScalarKind::U8 => 1,
        ScalarKind::I32 => 2,
        ScalarKind::I64 => 3,
        ScalarKind::U64 => 4,
    }
}

impl ObjectTally {
    /// Returns the counts before the first object: all 0.
    fn new() -> ObjectTally
        ensures { result ≡ objects_tally [] }
    {
        ObjectTally {
            named: 0,
            unique: 0,
            anonymous: 0,
            kinds: [0; KIND_COUNT],
        }
    }

    /// Returns the number of objects of a kind.
    pub fn of_kind(&self, kind: Kind) -> u64
        ensures { result ≡ slice_index self.now.kinds (kind_index kind) }
    {
        self.kinds[index_of(kind)]
    }

    /// Counts one object more.
    fn add(&mut self, class: Class, kind: Kind)
        requires { (i : ℕ) × CanTally self.old i × (i < 2 ^ 63) }
        ensures { self.new ≡ object_counted self.old class kind }
    {
        match class {
            Class::Named => self.named += 1,
            Class::Unique => self.unique += 1,
            Class::Anonymous => self.anonymous += 1,
        }
        self.kinds[index_of(kind)] += 1;
    }
}

/// Counts the objects of a segment by class and by kind.
pub fn tally_objects(segment: &Segment) -> ObjectTally
    ensures { AnswersWith segment.now object_tally_of result }
{
    let mut tally = ObjectTally::new();
    // 64 bits count the objects of a segment, which its bytes say.
    let _ = segment.as_bytes();
    'objects: for said in segment.objects() {
        tally.add(said.class, said.kind);
    }
    tally
}
