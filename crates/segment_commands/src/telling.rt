//! What a command says, and that it went out.
ghost use Rattle.std.specs.Prelude.{◌^◌, ◌-◌, ◌<◌, flat_map};
ghost use Rattle.segment_scripts.specs.CommandRows.{row_text};
ghost use Rattle.segment_commands.specs.{Commands.Prints, Telling.WritesAndFlushes};

use crate::command_faults::CommandFault;
use raw_region::{DeviceFault, write_all};
use segment_disk::Output;
use segment_scripts::{CommandRow, put_language};

/// Writes a text, and gives out all that was written.
pub(crate) fn write_and_flush<O: Output>(out: &mut O, text: &[u8]) -> Result<(), DeviceFault>
    requires { (O.history out.old).failures < 2 ^ 64 - 1 }
    ensures { WritesAndFlushes O.history O.flushes out.old out.new text.now result }
{
    write_all(out, text)?;
    out.flush()
}

/// Prints a text that the program has of itself, as its version or its help on the language.
///
/// # Errors
///
/// `WriteFault` if the output fails.
pub fn print<O: Output>(out: &mut O, text: &str) -> Result<(), CommandFault>
    requires { (O.history out.old).failures < 2 ^ 64 - 1 }
    ensures { Prints O.history O.flushes out.old out.new text.now result }
{
    Ok(write_and_flush(out, text.as_bytes())?)
}

/// Writes the commands of the language, and gives out all that was written.
fn tell_language<O: Output>(out: &mut O, rows: &[CommandRow]) -> Result<(), DeviceFault>
    requires { (O.history out.old).failures < 2 ^ 64 - 1 }
    ensures { WritesAndFlushes O.history O.flushes out.old out.new (flat_map row_text rows.now) result }
{
    put_language(out, rows)?;
    Output::flush(out)
}

/// Prints the commands of the language, which the rows are.
///
/// # Errors
///
/// `WriteFault` if the output fails.
pub fn print_language<O: Output>(out: &mut O, rows: &[CommandRow]) -> Result<(), CommandFault>
    requires { (O.history out.old).failures < 2 ^ 64 - 1 }
    ensures { Prints O.history O.flushes out.old out.new (flat_map row_text rows.now) result }
{
    Ok(tell_language(out, rows)?)
}
