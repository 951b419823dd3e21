//! The printing of the errors that a line is answered by: `error`, the number and the words.

ghost use Rattle.std.specs.Prelude.{◌≡◌, ◌-◌, ◌^◌, ◌<◌};
ghost use Rattle.raw_region.specs.Device.{Writes};
ghost use Rattle.segment_lang.specs.Texts.{error_text, line_error_text, refusal_text};

use crate::texts::put_parts;
use itoa::Buffer;
use raw_region::{DeviceFault, Sink};
use seg_types::{LineError, Refusal};

/// Writes an error: `error`, its number and its words.
fn put_error<S: Sink>(out: &mut S, number: u64, message: &str) -> Result<(), DeviceFault>
    requires { (S.history out.old).failures < 2 ^ 64 - 1 }
    ensures { Writes (S.history out.old) (S.history out.new) result (error_text number message.now) }
{
    let mut buffer = Buffer::new();
    let number = buffer.format(number).as_bytes();
    put_parts(out, &[b"error ", number, b" ", message.as_bytes()])
}

/// Writes why a line is no command. It writes all, or answers `DeviceFault` after a part of it.
pub fn put_line_error<S: Sink>(out: &mut S, error: LineError) -> Result<(), DeviceFault>
    requires { (S.history out.old).failures < 2 ^ 64 - 1 }
    ensures { Writes (S.history out.old) (S.history out.new) result (line_error_text error) }
{
    put_error(out, error.number(), error.message())
}

/// Writes why a command is refused. It writes all, or answers `DeviceFault` after a part of it.
pub fn put_refusal<S: Sink>(out: &mut S, refusal: Refusal) -> Result<(), DeviceFault>
    requires { (S.history out.old).failures < 2 ^ 64 - 1 }
    ensures { Writes (S.history out.old) (S.history out.new) result (refusal_text refusal) }
{
    put_error(out, refusal.number(), refusal.message())
}
