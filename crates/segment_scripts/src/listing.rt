//! The listing of the blocks and gaps of a segment: a line for each, as the segment is walked.
ghost use Rattle.std.specs.Prelude.{◌≡◌, ◌-◌, ◌^◌, ◌<◌};
ghost use Rattle.raw_region.specs.Device.{Writes};
ghost use Rattle.best_fit.specs.Extents.{spans};
ghost use Rattle.best_fit.specs.FreeTree.{span};
ghost use Rattle.segment_manager.specs.Answers.{Blocks};
ghost use Rattle.segment_manager.specs.Directory.{live};
ghost use Rattle.segment_manager.specs.State.{DenotesCurrent};
ghost use Rattle.segment_scripts.specs.Answer.{answer_text, block_tokens, line, role_token};
ghost use Rattle.segment_scripts.specs.Writing.{WritesFor};

use block_tags::{Role, Tile};
use raw_region::{DeviceFault, Sink};
use segment_lang::{Piece, put_pieces};
use segment_manager::Segment;
use segment_manager::unchecked::next_tile;

/// Writes a line for each block and gap by offset, and then `end`.
#[inline(never)]
pub fn put_blocks<W: Sink>(segment: &Segment, out: &mut W) -> Result<(), DeviceFault>
    requires { (W.history out.old).failures < 2 ^ 64 - 1 }
    ensures { WritesFor (W.history out.old) (W.history out.new) result (DenotesCurrent segment.now.cut.bytes)
        (λ d. answer_text (Blocks (spans (live d)))) }
{
    let mut ahead = segment.first_tile();
    // a segment has fewer blocks and gaps than bytes
    'tiles: for _ in 0..segment.size() {
        let Some(tile) = ahead else {
            break;
        };
        put_tile(out, tile)?;
        ahead = next_tile(segment, tile);
    }
    put_pieces(out, &[Piece::Bytes(b"end\n")])
}

/// Writes the line of a block or gap: its offset, its length and its use.
fn put_tile<W: Sink>(out: &mut W, tile: Tile) -> Result<(), DeviceFault>
    requires { (W.history out.old).failures < 2 ^ 64 - 1 }
    ensures { Writes (W.history out.old) (W.history out.new) result (line (block_tokens (span tile))) }
{
    put_pieces(
        out,
        &[
            Piece::Number(tile.offset),
            Piece::Bytes(b" "),
            Piece::Number(tile.len),
            Piece::Bytes(b" "),
            Piece::Bytes(role_token(tile.use_of)),
            Piece::Bytes(b"\n"),
        ],
    )
}

/// Returns the word for the use of a block, or for a gap.
fn role_token(use_of: Option<Role>) -> &'static [u8]
    ensures { result.now ≡ role_token use_of }
{
    match use_of {
        None => b"free",
        Some(Role::Object) => b"object",
        Some(Role::Index) => b"index",
        Some(Role::Storage) => b"storage",
        Some(Role::Node) => b"node",
    }
}
