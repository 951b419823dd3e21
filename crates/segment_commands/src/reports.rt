//! What the program says of a fault, and the status that it ends with.
ghost use Rattle.std.specs.Prelude.{◌≡◌, ◌-◌, ◌^◌, ◌<◌, codes};
ghost use Rattle.raw_region.specs.Device.{Writes};
ghost use Rattle.segment_cli.specs.Reports.{WritesText, line};
ghost use Rattle.segment_commands.specs.Reports.{bad_dump_line, command_status, command_text, dump_message};
ghost use Rattle.segment_commands.specs.Reports.{no_space_line, trouble_line, trouble_message};

use crate::command_faults::CommandFault;
use crate::paths::path_piece;
use raw_region::{DeviceFault, Sink, write_all};
use segment_cli::ProgramFault;
use segment_disk::FileProblem;
use segment_dump::{BadDump, DumpFault};
use segment_lang::{Piece, put_pieces};

/// Returns what is wrong with a dump.
fn dump_message(cause: DumpFault) -> &'static [u8]
    ensures { result.now ≡ dump_message cause }
{
    match cause {
        DumpFault::Cut => b"the dump ends too early",
        DumpFault::More => b"more behind the end",
        DumpFault::BadSyntax => b"bad syntax",
        DumpFault::LongLine => b"line too long",
        DumpFault::UnknownKind => b"unknown kind",
        DumpFault::BadName => b"bad name",
        DumpFault::BadCount => b"bad count",
        DumpFault::BadValue => b"no value of the kind",
        DumpFault::Exists => b"already exists",
        DumpFault::Unlike => b"not as a dump has it",
    }
}

/// Writes the message about a refused dump: the line and the column of the fault, and the reason.
fn put_bad_dump<S: Sink>(bad: BadDump, err: &mut S) -> Result<(), DeviceFault>
    requires { (S.history err.old).failures < 2 ^ 64 - 1 }
    ensures { Writes (S.history err.old) (S.history err.new) result (bad_dump_line bad) }
{
    put_pieces(
        err,
        &[
            Piece::Bytes(b"segment: dump refused: line "),
            Piece::Number(bad.line),
            Piece::Bytes(b", column "),
            Piece::Number(bad.column),
            Piece::Bytes(b": "),
            Piece::Bytes(dump_message(bad.cause)),
            Piece::Bytes(b"\n"),
        ],
    )
}

/// Writes the message about a dump whose objects do not fit the size.
fn put_no_space<S: Sink>(needed: u64, err: &mut S) -> Result<(), DeviceFault>
    requires { (S.history err.old).failures < 2 ^ 64 - 1 }
    ensures { Writes (S.history err.old) (S.history err.new) result (no_space_line needed) }
{
    put_pieces(
        err,
        &[
            Piece::Bytes(b"segment: no space: the objects need "),
            Piece::Number(needed),
            Piece::Bytes(b" bytes\n"),
        ],
    )
}

/// Writes a line, and returns the status that the program ends with.
fn put_line<S: Sink>(line: &[u8], status: u8, err: &mut S) -> u8
    requires { (S.history err.old).failures < 2 ^ 64 - 1 }
    ensures status { result ≡ status }
    ensures text { WritesText (S.history err.old) (S.history err.new) line.now }
{
    let _ = write_all(err, line);
    status
}

/// Writes the line of a fault, none for a wrong command line, and returns the status that the program ends with, even
/// if the writer fails. It is 1 if an image, a size, a growth, a script or a dump is refused or a value is missing, and
/// 2 for a wrong command line. It is 3 for a file that exists or is in use and for faults, and 4 for want of memory.
pub fn report<S: Sink>(fault: CommandFault, err: &mut S) -> u8
    requires { (S.history err.old).failures < 2 ^ 64 - 1 }
    ensures status { result ≡ command_status fault }
    ensures text { WritesText (S.history err.old) (S.history err.new) (command_text fault) }
{
    match fault {
        CommandFault::Usage => segment_cli::report(ProgramFault::Usage, err),
        CommandFault::Exists => segment_cli::report(ProgramFault::Exists, err),
        CommandFault::Growth(error) => segment_cli::report(ProgramFault::Growth(error), err),
        CommandFault::Session(fault) => segment_cli::report(ProgramFault::Session(fault), err),
        CommandFault::InUse => put_line(b"segment: file in use\n", 3, err),
        CommandFault::Stopped => {
            put_line(
                b"segment: stopped at an error, and nothing is saved\n",
                1,
                err,
            )
        }
        CommandFault::Misspelled => put_line(b"segment: some lines are no commands\n", 1, err),
        CommandFault::NoValue => put_line(b"segment: no such value\n", 1, err),
        CommandFault::TooManyObjects => {
            put_line(
                b"segment: more than 10000 objects; --all draws them\n",
                1,
                err,
            )
        }
        CommandFault::OutOfMemory => report_no_memory(err),
        CommandFault::NoSpace(needed) => {
            let _ = put_no_space(needed, err);
            1
        }
        CommandFault::BadDump(bad) => {
            let _ = put_bad_dump(bad, err);
            1
        }
    }
}

/// Writes the message that memory for the program itself was refused, and returns the status, which is also that of a
/// session without memory.
pub fn report_no_memory<S: Sink>(err: &mut S) -> u8
    requires { (S.history err.old).failures < 2 ^ 64 - 1 }
    ensures status { result ≡ 4 }
    ensures text { WritesText (S.history err.old) (S.history err.new) (line (codes "out of memory")) }
{
    put_line(b"segment: out of memory\n", 4, err)
}

/// Returns the end of the message about a file, after its path.
fn trouble_message(trouble: FileProblem) -> &'static [u8]
    ensures { result.now ≡ trouble_message trouble }
{
    match trouble {
        FileProblem::Missing => b": no such file\n",
        FileProblem::NoParentFolder => b": no such folder\n",
        FileProblem::Unnamed => b": is no name of a file\n",
        FileProblem::Folder => b": is a folder\n",
        FileProblem::Denied => b": permission denied\n",
        FileProblem::Exists => b": another file is there\n",
        FileProblem::Owner => b": had another owner, who could not be kept\n",
        FileProblem::Writer => b": a writer holds it\n",
        FileProblem::Log => b": was read with the commits of its log\n",
        FileProblem::ForeignLog => b": its log is of another file\n",
        FileProblem::LogTaken =>
            b": the file of this name with -log behind it is not its log; remove or rename it\n",
        FileProblem::EmptyLog =>
            b": the file of this name with -log behind it is empty, and no log; it may be removed\n",
        FileProblem::LogLeft =>
            b": the file of this name with -log behind it has commits of a file that is gone; remove or rename it\n",
        FileProblem::SeveralNames =>
            b": has several names, and a log is found by one alone; copy it, or remove the others\n",
        FileProblem::NotLocked => b": the system can not lock it\n",
        FileProblem::UnsyncedName =>
            b": its folder can not be read, and so its name can not be synced\n",
        FileProblem::Unwritten => b": could not be written whole\n",
    }
}

/// Writes a line with the path and the problem of its file, after the line of the fault. Writes nothing if the problem
/// is unknown. The path is written as a text of the language, so none of its bytes ends the line or controls a
/// terminal.
///
/// # Errors
///
/// The writer failed. It took a front of the line, and not all of it.
pub fn put_trouble<S: Sink>(
    path: &str,
    trouble: Option<FileProblem>,
    err: &mut S,
) -> Result<(), DeviceFault>
    requires { (S.history err.old).failures < 2 ^ 64 - 1 }
    ensures { Writes (S.history err.old) (S.history err.new) result (trouble_line path.now trouble) }
{
    let Some(trouble) = trouble else {
        return Ok(());
    };
    put_pieces(
        err,
        &[
            Piece::Bytes(b"segment: "),
            path_piece(path),
            Piece::Bytes(trouble_message(trouble)),
        ],
    )
}
