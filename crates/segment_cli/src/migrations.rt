//! The migration of an image of an older format.
ghost use Rattle.std.specs.Prelude.{◌-◌, ◌%◌, ◌^◌, ◌<◌, ◌≡◌, length};
ghost use Rattle.raw_region.specs.Device.{AppendsBytes, read_delta, write_delta};
ghost use Rattle.segment_cli.specs.Migration.{IsMigration};
ghost use Rattle.segment_scripts.specs.RunOutcome.{MeetsEndOnce};

use crate::faults::SessionFault;
use image_check::{open_any, save};
use raw_region::{RawRegion, Sink, Source, Steps};
use segment_manager::Mode;
use std::alloc::Global;

/// Reads an image of any of the three formats into the region, from `base` on, which is a multiple of 16. It writes the
/// image of the same directory by the current format to `image_out`. It has as many bytes; an image of the current
/// format is given back byte for byte. The check of the image alone takes memory.
///
/// # Errors
///
/// A class of the image if it denotes no directory by the format that it says. `RegionTooSmall` wherever the region
/// ends before base plus the size that is said. `ReadFault` and `WriteFault` if the reader or the writer failed.
/// `OutOfMemory` if memory for the check was refused. Nothing is written then, but for a proper prefix of the new image
/// if writing it failed.
pub fn migrate<I: Source, W: Sink>(
    alloc: Global,
    image: &mut I,
    image_out: &mut W,
    region: RawRegion,
    base: u64,
) -> Result<(), SessionFault>
    requires aligned { base % 16 ≡ 0 }
    requires image_reader { (I.history image.old).failures < 2 ^ 64 - 1 }
    requires image_writer { (W.history image_out.old).failures < 2 ^ 64 - 1 }
    ensures migration { IsMigration base (length region)
        (read_delta (I.history image.old) (I.history image.new))
        (write_delta (W.history image_out.old) (W.history image_out.new))
        result }
    ensures image_history { AppendsBytes (I.history image.old).bytes (I.history image.new).bytes }
    ensures image_end { MeetsEndOnce (I.history image.old) (I.history image.new) }
    ensures saved_history { AppendsBytes (W.history image_out.old).bytes (W.history image_out.new).bytes }
{
    let segment = open_any(alloc, image, region, base, Mode::Write, &mut Steps::new())?;
    Ok(save(&segment, image_out)?)
}
