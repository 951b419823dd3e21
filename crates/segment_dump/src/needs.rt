//! The needs of the objects of a dump.
ghost use Rattle.std.specs.Prelude.{◌≡◌, ◌+◌, ◌^◌, ◌<◌, ◌≤◌};
ghost use Rattle.seg_types.specs.Kinds.{size_of};
ghost use Rattle.seg_map.specs.Map.{node_len};
ghost use Rattle.segment_dump.specs.Asked.{AreAtMost};
ghost use Rattle.segment_dump.specs.Need.{block_room, body_len, both, elements_room, prefix_room, object_room};
ghost use Rattle.segment_dump.specs.Need.{only_room};

use seg_types::{Kind, ScalarKind};
use segment_manager::layout::CONTAINER_LEN;

/// The bytes of the header and of the end tag.
const ENDS: u64 = 144;

/// What some objects need.
#[derive(Clone, Copy, Debug, PartialEq, Eq)]
pub struct Needs {
    /// The bytes of a segment, or of some of its blocks.
    pub room: u64,
    /// The length of the longest text of a vector of strings.
    pub longest: u64,
}

impl Needs {
    /// Returns what these and those need together.
    pub fn and(self, other: Needs) -> Needs
        ensures sum { self.room + other.room < 2 ^ 64 → result ≡ both self other }
        ensures most { AreAtMost result (both self other) }
    {
        Needs {
            room: self.room.saturating_add(other.room),
            longest: self.longest.max(other.longest),
        }
    }
}

/// Returns bytes of blocks, and no text.
pub fn only_room(room: u64) -> Needs
    ensures { result ≡ only_room room }
{
    Needs { room, longest: 0 }
}

/// Returns the bytes of a block for `bytes` bytes, and 0 for none.
#[tactic(auto, unfolding(crate::specs::Need::block_room))]
pub fn block_room(bytes: u64) -> u64
    requires { bytes < 2 ^ 40 }
    ensures value { result ≡ block_room bytes }
    ensures max_size { result ≤ bytes + 32 }
{
    if bytes == 0 {
        return 0;
    }
    ((bytes + 31) / 16 * 16).max(32)
}

/// Returns the length of the value of an object of a kind with `count` elements.
fn body_len(kind: Kind, count: u64) -> u64
    requires { count ≤ 1073741824 }
    ensures value { result ≡ body_len kind count }
    ensures max_size { result < 2 ^ 34 }
{
    match kind {
        Kind::Scalar(kind) => kind.size() * count,
        _ => CONTAINER_LEN,
    }
}

/// Returns the bytes of a node of a map.
fn node_room(keys: ScalarKind, values: ScalarKind) -> u64
    ensures value { result ≡ block_room (node_len (size_of keys) (size_of values)) }
    ensures max_size { result ≤ 64 }
{
    block_room(16 + keys.size() + values.size())
}

/// Returns the bytes of the storage or of the nodes of an object of a kind with `count` elements.
fn elements_room(kind: Kind, count: u64) -> u64
    requires { count ≤ 1073741824 }
    ensures value { result ≡ elements_room kind count }
    ensures max_size { result < 2 ^ 37 }
{
    match kind {
        Kind::Scalar(_) => 0,
        Kind::String => 0,
        Kind::Vector(kind) => block_room(kind.size() * count),
        Kind::Map(keys, values) => count * node_room(keys, values),
        Kind::Strings => block_room(16 * count),
    }
}

/// Returns the bytes of the block of an object, and of the storage or the nodes of its elements.
#[tactic(auto, unfolding(crate::specs::Need::object_room))]
pub fn object_room(name_len: u64, kind: Kind, count: u64) -> u64
    requires name { name_len ≤ 1073741824 }
    requires count { count ≤ 1073741824 }
    ensures { result ≡ object_room name_len kind count }
{
    let name = (name_len + 7) / 8 * 8;
    block_room(16 + name + body_len(kind, count)) + elements_room(kind, count)
}

/// Returns the bytes of header and end tag, and of the blocks of both indexes with these numbers of entries.
#[tactic(auto, unfolding(crate::specs::Need::prefix_room))]
pub fn prefix_room(named: u64, unique: u64) -> u64
    requires named { named ≤ 1073741824 }
    requires unique { unique ≤ 1073741824 }
    ensures { result ≡ prefix_room named unique }
{
    ENDS + block_room(8 * named) + block_room(8 * unique)
}
