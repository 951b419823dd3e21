//! What the program says of a fault, and the status that it ends with.
ghost use Rattle.std.specs.Prelude.{◌≡◌, ◌++◌, ◌-◌, ◌^◌, ◌<◌, codes};
ghost use Rattle.raw_region.specs.Device.{Writes};
ghost use Rattle.segment_cli.specs.Reports.{WritesText, fault_text, growth_name, line, session_status, session_message};
ghost use Rattle.segment_cli.specs.{Reports.status_of, declared.faults.SessionFault.TheVariants.Image};

use crate::faults::{ProgramFault, SessionFault};
use grow_shrink::GrowError;
use image_check::ImageClass;
use raw_region::{DeviceFault, Sink, write_all};
use segment_lang::{Piece, put_pieces};

/// Writes the line of an image that is refused.
fn put_class_line<S: Sink>(class: ImageClass, err: &mut S) -> Result<(), DeviceFault>
    requires { (S.history err.old).failures < 2 ^ 64 - 1 }
    ensures { Writes (S.history err.old) (S.history err.new) result (line (session_message (Image class))) }
{
    let name = class.name();
    put_pieces(
        err,
        &[
            Piece::Bytes(b"segment: image refused: "),
            Piece::Number(u64::from(class.number())),
            Piece::Bytes(b" "),
            Piece::Bytes(name.as_bytes()),
            Piece::Bytes(b"\n"),
        ],
    )
}

/// Returns the line of a segment that does not grow.
fn growth_line(error: GrowError) -> &'static [u8]
    ensures { result.now ≡ line (codes "growth refused: " ++ growth_name error) }
{
    match error {
        GrowError::ReadOnly => b"segment: growth refused: ReadOnly\n",
        GrowError::BadGrow => b"segment: growth refused: BadGrow\n",
        GrowError::TooLarge => b"segment: growth refused: TooLarge\n",
        GrowError::RegionTooSmall => b"segment: growth refused: RegionTooSmall\n",
    }
}

/// Writes the line of a session that fails.
///
/// # Errors
///
/// The writer failed. It took a front of the line, and not all of it.
pub fn put_session_line<S: Sink>(fault: SessionFault, err: &mut S) -> Result<(), DeviceFault>
    requires { (S.history err.old).failures < 2 ^ 64 - 1 }
    ensures { Writes (S.history err.old) (S.history err.new) result (line (session_message fault)) }
{
    match fault {
        SessionFault::Image(class) => put_class_line(class, err),
        SessionFault::BadSize | SessionFault::RegionTooSmall => write_all(
            err,
            b"segment: size refused\n",
        ),
        SessionFault::OutOfMemory(_) => write_all(err, b"segment: out of memory\n"),
        SessionFault::ReadFault => write_all(err, b"segment: read fault\n"),
        SessionFault::WriteFault => write_all(err, b"segment: write fault\n"),
        SessionFault::ScriptTooLong => write_all(err, b"segment: script too long\n"),
    }
}

/// Writes the line of a fault; a wrong command line has none.
fn put_fault_line<S: Sink>(fault: ProgramFault, err: &mut S) -> Result<(), DeviceFault>
    requires { (S.history err.old).failures < 2 ^ 64 - 1 }
    ensures { Writes (S.history err.old) (S.history err.new) result (fault_text fault) }
{
    match fault {
        ProgramFault::Usage => Ok(()),
        ProgramFault::Exists => write_all(err, b"segment: file exists\n"),
        ProgramFault::Growth(error) => write_all(err, growth_line(error)),
        ProgramFault::Session(fault) => put_session_line(fault, err),
    }
}

/// Returns the status of a session that fails.
pub fn session_status(fault: SessionFault) -> u8
    ensures { result ≡ session_status fault }
{
    match fault {
        SessionFault::Image(_) | SessionFault::BadSize | SessionFault::RegionTooSmall => 1,
        SessionFault::ReadFault | SessionFault::WriteFault | SessionFault::ScriptTooLong => 3,
        SessionFault::OutOfMemory(_) => 4,
    }
}

/// Returns the status that the program ends with. It is 1 if an image, a size or a growth is refused, and 2 for a wrong
/// command line. It is 3 for a file that exists and for faults, and 4 for want of memory.
fn status_of(fault: ProgramFault) -> u8
    ensures { result ≡ status_of fault }
{
    match fault {
        ProgramFault::Growth(_) => 1,
        ProgramFault::Usage => 2,
        ProgramFault::Exists => 3,
        ProgramFault::Session(fault) => session_status(fault),
    }
}

/// Writes the line of a fault, none for a wrong command line, and returns the status that the program ends with, which
/// is the same if the writer fails.
pub fn report<S: Sink>(fault: ProgramFault, err: &mut S) -> u8
    requires { (S.history err.old).failures < 2 ^ 64 - 1 }
    ensures status { result ≡ status_of fault }
    ensures text { WritesText (S.history err.old) (S.history err.new) (fault_text fault) }
{
    let _ = put_fault_line(fault, err);
    status_of(fault)
}
