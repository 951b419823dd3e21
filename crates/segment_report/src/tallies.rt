//! How the bytes of a segment are used, counted in one walk over its blocks and gaps.
ghost use Rattle.std.specs.Prelude.{◌≡◌, ◌+◌, ◌^◌, ◌<◌, []};
ghost use Rattle.seg_types.specs.Commands.{Size};
ghost use Rattle.segment_manager.specs.{Answers.Number, State.AnswersQuery, State.AnswersWith, State.IsSegment};
ghost use Rattle.segment_report.specs.Counting.{counted, more, tally_in, total_bytes, total_count};
ghost use Rattle.segment_report.specs.Usages.{tally_of};

use block_tags::Role;
use segment_manager::Segment;
use segment_manager::unchecked::next_tile;

/// The number of blocks of one use, and the sum of their bytes.
#[derive(Clone, Copy, Debug, PartialEq, Eq)]
pub struct Usage {
    /// The number of blocks.
    pub count: u64,
    /// Their bytes, with their tags.
    pub bytes: u64,
}

/// How the bytes between the header and the end tag are used.
#[derive(Clone, Copy, Debug, PartialEq, Eq)]
pub struct Tally {
    /// The gaps.
    pub gaps: Usage,
    /// The bytes of the longest gap, 0 if there is none.
    pub longest_gap: u64,
    /// The blocks that hold objects.
    pub objects: Usage,
    /// The blocks of the two indexes.
    pub indexes: Usage,
    /// The blocks that hold elements of vectors and the bytes of strings.
    pub storages: Usage,
    /// The blocks that hold pairs of maps.
    pub nodes: Usage,
    /// The bytes after the last block, by which the segment is longer than it need be.
    pub end_gap: u64,
}

/// Nothing.
const NO_USAGE: Usage = Usage { count: 0, bytes: 0 };

impl Usage {
    /// Counts one block more, and its bytes.
    fn add(&mut self, len: u64)
        requires count { self.old.count + 1 < 2 ^ 64 }
        requires bytes { self.old.bytes + len < 2 ^ 64 }
        ensures { self.new ≡ more self.old len }
    {
        self.count += 1;
        self.bytes += len;
    }
}

impl Tally {
    /// Returns the counts before the first block: all 0.
    fn new() -> Tally
        ensures { result ≡ tally_in [] }
    {
        Tally {
            gaps: NO_USAGE,
            longest_gap: 0,
            objects: NO_USAGE,
            indexes: NO_USAGE,
            storages: NO_USAGE,
            nodes: NO_USAGE,
            end_gap: 0,
        }
    }

    /// Counts one block or gap more, of `len` bytes.
    fn add(&mut self, use_of: Option<Role>, len: u64)
        requires count { total_count self.old + 1 < 2 ^ 64 }
        requires bytes { total_bytes self.old + len < 2 ^ 64 }
        ensures { self.new ≡ counted self.old use_of len }
    {
        self.end_gap = 0;
        match use_of {
            None => {
                self.gaps.add(len);
                self.longest_gap = self.longest_gap.max(len);
                self.end_gap = len;
            }
            Some(Role::Object) => self.objects.add(len),
            Some(Role::Index) => self.indexes.add(len),
            Some(Role::Storage) => self.storages.add(len),
            Some(Role::Node) => self.nodes.add(len),
        }
    }
}

/// Returns how the bytes of a segment are used.
pub fn tally_blocks(segment: &Segment) -> Tally
    ensures { AnswersWith segment.now tally_of result }
{
    let mut tally = Tally::new();
    let mut ahead = segment.first_tile();
    // a segment has fewer blocks and gaps than bytes
    'tiles: for _ in 0..size_of(segment) {
        let Some(tile) = ahead else {
            break;
        };
        tally.add(tile.use_of, tile.len);
        ahead = next_tile(segment, tile);
    }
    tally
}

/// Returns the size of a segment in bytes, which is the size of its directory.
pub fn size_of(segment: &Segment) -> u64
    ensures size { AnswersQuery segment.now Size (Number result) }
    ensures denotation { IsSegment segment.now.cut.bytes }
{
    let _bytes = segment.as_bytes();
    segment.size()
}
