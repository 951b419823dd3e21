//! The command that writes what is right of a damaged image as a dump.
ghost use Rattle.std.specs.Prelude.{◌≡◌, ◌^◌, ◌-◌, ◌<◌, MatchResult, Ok, Err, Some, None, flat_map, true};
ghost use Rattle.raw_region.specs.Device.{Writes};
ghost use Rattle.block_tags.specs.Format.{is_legal_size};
ghost use Rattle.segment_lang.specs.Pieces.{piece_text};
ghost use Rattle.segment_salvage.specs.Standing.{IsSalvaged};
ghost use Rattle.segment_commands.specs.Salvaging.{FindsWhole, IsRefusedImage, LacksMemory, ReadsFile};
ghost use Rattle.segment_commands.specs.Salvaging.{RunsSalvage, SalvagesBytes, cause_message, key_text, loss_line};
ghost use Rattle.segment_commands.specs.Salvaging.{losses_text, name_in, status_of};

use crate::command_faults::CommandFault;
use crate::creating::new_segment;
use crate::read_all::read_text;
use crate::reporting::tell_report;
use grow_shrink::region_for;
use image_check::{AcceptedVersions, OpenError, open_bytes};
use raw_region::{DeviceFault, Sink, Steps};
use segment_cli::SessionFault;
use segment_disk::{Disk, OpenedFile, Output};
use segment_invocation::Report;
use segment_lang::{Piece, put_pieces};
use segment_manager::{Mode, Segment};
use segment_salvage::{Loss, LossCause};
use std::alloc::Global;

/// The most bytes of a segment, in units of 16.
const LARGEST: u64 = 67108864;

/// The length of an object's head without its name.
const HEAD_LEN: u64 = 16;

/// What a fresh segment gets beyond twice the length of the image, in units of 16 bytes.
const SPARE: u64 = 256;

/// Returns how many bytes the segment of the objects of an image of this length has: twice as many, since objects may
/// share bytes in the image.
#[tactic(auto, using(crate::proofs::salvaging::Sizes::units_legal))]
fn roomy_size(len: u64) -> u64
    ensures { is_legal_size result ≡ true }
{
    (len / 16 * 2 + SPARE).min(LARGEST) * 16
}

/// Opens a file for reading, returns its bytes, and closes it.
fn read_file<D: Disk>(alloc: Global, disk: &mut D, path: &str) -> Result<Vec<u8>, SessionFault>
    ensures { MatchResult result (λ image. ReadsFile D.step disk.old disk.new path.now (Ok image.items))
        (λ fault. ReadsFile D.step disk.old disk.new path.now (Err fault)) }
{
    let opened = match disk.open(path) {
        Ok(opened) => opened,
        Err(_) => return Err(SessionFault::ReadFault),
    };
    let OpenedFile { mut reader, len: _ } = opened;
    let text = read_text(alloc, &mut reader);
    disk.close(reader);
    text
}

/// Returns the segment of an image of the current format, or none if the image is refused.
fn whole_segment(alloc: Global, image: &[u8]) -> Result<Option<Segment>, CommandFault>
    ensures { MatchResult result (FindsWhole image.now) LacksMemory }
{
    let region = region_for(alloc, image.len() as u64)?;
    let current = AcceptedVersions::Current;
    let steps = &mut Steps::new();
    match open_bytes(alloc, current, image, region, 0, Mode::ReadOnly, steps) {
        Ok(segment) => Ok(Some(segment)),
        Err(refused) => match refused.cause {
            OpenError::OutOfMemory(refusal) => {
                Err(CommandFault::Session(SessionFault::OutOfMemory(refusal)))
            }
            _ => Ok(None),
        },
    }
}

/// Returns a segment with the objects of an image that are right by themselves, and appends the others to the losses.
fn salvaged_segment(
    alloc: Global,
    image: &[u8],
    losses: &mut Vec<Loss>,
) -> Result<Segment, CommandFault>
    ensures { MatchResult result (IsSalvaged image.now) LacksMemory }
{
    let mut segment = new_segment(alloc, roomy_size(image.len() as u64))?;
    segment_salvage::salvage(alloc, image, &mut segment, losses)?;
    Ok(segment)
}

/// Returns why an object is left out.
fn cause_message(cause: LossCause) -> &'static [u8]
    ensures { result.now ≡ cause_message cause }
{
    match cause {
        LossCause::BadIndex => b"an index leads to no object here",
        LossCause::BadHead => b"its kind, class, count or name is wrong",
        LossCause::BadValue => b"its value is wrong, or lies outside the image",
        LossCause::TooMuch => b"other objects claim its bytes too",
        LossCause::Repeated => b"another object has its name or kind",
        LossCause::NoSpace => b"there is no space for it",
    }
}

/// Returns the name of an object that is left out, which is empty if it has none that is right.
fn name_in(image: &[u8], loss: Loss) -> &[u8]
    ensures { result.now ≡ name_in image.now loss }
{
    let (start, end) = match loss.at.checked_add(HEAD_LEN) {
        Some(start) => (start, start.saturating_add(loss.name_len)),
        None => return &[],
    };
    if end > image.len() as u64 {
        return &[];
    }
    &image[start as usize..end as usize]
}

/// Returns how a name is printed: as a script spells it, and `-` for none.
fn name_piece(name: &[u8]) -> Piece<'_>
    ensures { piece_text result ≡ key_text name.now }
{
    if name.is_empty() {
        Piece::Bytes(b"-")
    } else {
        Piece::Name(name)
    }
}

/// Writes the line of an object that is left out.
fn put_loss<S: Sink>(image: &[u8], loss: Loss, err: &mut S) -> Result<(), DeviceFault>
    requires { (S.history err.old).failures < 2 ^ 64 - 1 }
    ensures { Writes (S.history err.old) (S.history err.new) result (loss_line image.now loss) }
{
    put_pieces(
        err,
        &[
            Piece::Bytes(b"segment: left out: "),
            name_piece(name_in(image, loss)),
            Piece::Bytes(b" at "),
            Piece::Number(loss.at),
            Piece::Bytes(b": "),
            Piece::Bytes(cause_message(loss.cause)),
            Piece::Bytes(b"\n"),
        ],
    )
}

/// Writes the lines of the objects that are left out.
fn put_losses<S: Sink>(image: &[u8], losses: &[Loss], err: &mut S) -> Result<(), DeviceFault>
    requires { (S.history err.old).failures < 2 ^ 64 - 1 }
    ensures { Writes (S.history err.old) (S.history err.new) result (flat_map (loss_line image.now) losses.now) }
{
    'losses: for loss in losses {
        put_loss(image, *loss, err)?;
    }
    Ok(())
}

/// Writes the lines of the objects that are left out, and how many they are.
fn put_all_losses<S: Sink>(image: &[u8], losses: &[Loss], err: &mut S) -> Result<(), DeviceFault>
    requires { (S.history err.old).failures < 2 ^ 64 - 1 }
    ensures { Writes (S.history err.old) (S.history err.new) result (losses_text image.now losses.now) }
{
    put_losses(image, losses, err)?;
    put_pieces(
        err,
        &[
            Piece::Bytes(b"segment: objects left out: "),
            Piece::Number(losses.len() as u64),
            Piece::Bytes(b"\n"),
        ],
    )
}

/// Returns the status of a salvage with these losses.
fn status_of(losses: &[Loss]) -> u8
    ensures { result ≡ status_of losses.now }
{
    if losses.is_empty() { 0 } else { 1 }
}

/// Writes as a dump the objects of an image that are right by themselves, and tells which are left out.
fn salvage_parts<O: Output, E: Sink>(
    alloc: Global,
    image: &[u8],
    out: &mut O,
    err: &mut E,
) -> Result<u8, CommandFault>
    requires image { IsRefusedImage image.now }
    requires out { (O.history out.old).failures < 2 ^ 64 - 1 }
    requires on_error { (E.history err.old).failures < 2 ^ 64 - 1 }
    ensures { SalvagesBytes O.history O.flushes out.old out.new (E.history err.old) (E.history err.new) result
        image.now }
{
    let mut losses = Vec::new(alloc);
    let segment = salvaged_segment(alloc, image, &mut losses)?;
    tell_report(out, &segment, Report::Dump)?;
    let _ = put_all_losses(image, &losses, err);
    Ok(status_of(&losses))
}

/// Writes the dump of an image, or of the objects of a refused image that are right by themselves.
fn salvage_image<O: Output, E: Sink>(
    alloc: Global,
    image: &[u8],
    out: &mut O,
    err: &mut E,
) -> Result<u8, CommandFault>
    requires out { (O.history out.old).failures < 2 ^ 64 - 1 }
    requires on_error { (E.history err.old).failures < 2 ^ 64 - 1 }
    ensures { SalvagesBytes O.history O.flushes out.old out.new (E.history err.old) (E.history err.new) result
        image.now }
{
    match whole_segment(alloc, image)? {
        Some(segment) => {
            tell_report(out, &segment, Report::Dump)?;
            Ok(0)
        }
        None => salvage_parts(alloc, image, out, err),
    }
}

/// Opens a file for reading and writes the dump of its segment. If the image is refused, the dump has the objects that
/// an index or a tag leads to and whose own bytes are right. Then `err` gets a line for each object that is left out,
/// and their number. Returns the status: 0 if no object is left out, otherwise 1.
///
/// Each object of the dump stands in the bytes of the file: its kind, class and name, and its values.
///
/// # Errors
///
/// `ReadFault` if the file can't be read, `ScriptTooLong` if it has more than 17179869184 bytes, and `OutOfMemory`;
/// nothing is written then. `WriteFault` if the output fails: no loss is told then. If `err` fails, no more is written
/// there, and the status is the same.
pub fn salvage<D: Disk, O: Output, E: Sink>(
    alloc: Global,
    disk: &mut D,
    path: &str,
    out: &mut O,
    err: &mut E,
) -> Result<u8, CommandFault>
    requires out { (O.history out.old).failures < 2 ^ 64 - 1 }
    requires on_error { (E.history err.old).failures < 2 ^ 64 - 1 }
    ensures { RunsSalvage D.step disk.old disk.new path.now O.history O.flushes out.old out.new (E.history err.old)
        (E.history err.new) result }
{
    let image = read_file(alloc, disk, path)?;
    salvage_image(alloc, image.as_slice(), out, err)
}
