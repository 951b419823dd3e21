//! Writes images.
ghost use Rattle.std.specs.Prelude.{◌-◌, ◌^◌, ◌<◌};
ghost use Rattle.raw_region.specs.Device.{Writes};
ghost use Rattle.segment_manager.specs.Directory.{Directory};
ghost use Rattle.segment_manager.specs.State.{DenotesCurrent};
ghost use Rattle.image_check.specs.Saving.{IsSaved};

use raw_region::{DeviceFault, Sink, write_all};
use segment_manager::Segment;

/// Writes the bytes of an image. If they denote a directory, a check of the image accepts it.
fn write_image<W: Sink>(bytes: &[u8], out: &mut W) -> Result<(), DeviceFault>
    requires { (W.history out.old).failures < 2 ^ 64 - 1 }
    ensures output { Writes (W.history out.old) (W.history out.new) result bytes.now }
    ensures acceptance { (d : Directory) → DenotesCurrent bytes.now d → IsSaved bytes.now d }
{
    write_all(out, bytes)
}

/// Writes the image of a segment, which is all its current bytes. A check accepts the image, with the directory of the
/// segment. If the writer fails, a proper prefix of the image is written.
pub fn save<W: Sink>(segment: &Segment, out: &mut W) -> Result<(), DeviceFault>
    requires { (W.history out.old).failures < 2 ^ 64 - 1 }
    ensures output { Writes (W.history out.old) (W.history out.new) result segment.now.cut.bytes }
    ensures acceptance { (d : Directory) → DenotesCurrent segment.now.cut.bytes d → IsSaved segment.now.cut.bytes d }
{
    write_image(segment.as_bytes(), out)
}
