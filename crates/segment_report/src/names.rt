//! The names of a segment that begin with a text.
ghost use Rattle.std.specs.Prelude.{◌≡◌, ◌-◌, ◌^◌, ◌<◌, IfOk};
ghost use Rattle.raw_region.specs.Device.{Writes};
ghost use Rattle.segment_report.specs.Names.{left_after, listed_line, names_text};
ghost use Rattle.segment_report.specs.Telling.{WritesReport};

use raw_region::{DeviceFault, Sink};
use segment_lang::{Piece, put_pieces};
use segment_manager::Segment;

/// Writes the names that begin with a text, in the order of their bytes and a line each, at most `most`. A name stands
/// there as in a script.
///
/// Returns `DeviceFault` if the writer failed: what went out is then a proper prefix of the text.
pub fn put_names<W: Sink>(
    segment: &Segment,
    prefix: &[u8],
    most: u64,
    out: &mut W,
) -> Result<(), DeviceFault>
    requires { (W.history out.old).failures < 2 ^ 64 - 1 }
    ensures { WritesReport segment.now (W.history out.old) (W.history out.new) result (names_text prefix.now most) }
{
    let mut left = most;
    'names: for name in segment.names() {
        left = put_listed(out, name, prefix, left)?;
    }
    Ok(())
}

/// Writes a name that begins with the text, if `left` is not 0. Returns the number of names that can still be written.
fn put_listed<W: Sink>(
    out: &mut W,
    name: &[u8],
    prefix: &[u8],
    left: u64,
) -> Result<u64, DeviceFault>
    requires { (W.history out.old).failures < 2 ^ 64 - 1 }
    ensures remainder { IfOk result (λ n. n ≡ left_after prefix.now left name.now) }
    ensures output { Writes (W.history out.old) (W.history out.new) result (listed_line prefix.now left name.now) }
{
    if left == 0 || !name.starts_with(prefix) {
        return Ok(left);
    }
    put_pieces(out, &[Piece::Name(name), Piece::Bytes(b"\n")])?;
    Ok(left - 1)
}
