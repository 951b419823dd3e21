//! The sizes of a segment, its header and a tag, in bytes.
ghost use Rattle.std.specs.Prelude.{◌≡◌};
ghost use Rattle.block_tags.specs.Format.{is_legal_size as is_legal};

/// The length in bytes of the tag before a tile's payload, and of the end tag.
pub const TAG_LEN: u64 = 16;

/// The length of the header in bytes. The first tile begins here, or the end tag if there is no tile.
pub const HEADER_LEN: u64 = 128;

/// The size in bytes of the largest segment. No window is larger, and an allocation of more fails.
pub const MAX_SEGMENT_LEN: u64 = 1073741824;

/// Returns true if a segment can have this size in bytes: 144, for a segment without tiles, or a multiple of 16 from
/// 176 to 1073741824.
pub fn is_legal_size(size: u64) -> bool
    ensures { result ≡ is_legal size }
{
    size == 144 || (size % 16 == 0 && (176..=MAX_SEGMENT_LEN).contains(&size))
}
