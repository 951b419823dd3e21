//! A machine that tells which lines of a script are no commands, and executes none.
ghost use Rattle.std.specs.Prelude.{◌≡◌, ◌≤◌, ◌-◌, ◌^◌, ◌<◌, ◌+◌, false, length};
ghost use Rattle.raw_region.specs.Device.{Writes};
ghost use Rattle.segment_scripts.specs.CommandRows.{usage_of};
ghost use Rattle.segment_scripts.specs.LintLaws.{lint_line-long, misses_line-long};
ghost use Rattle.segment_scripts.specs.Linting.{LintState, behind, column_of, expected, finding_text, first_token};
ghost use Rattle.segment_scripts.specs.Linting.{is_at, lint_line, misses_line, same, start};

use crate::answered::Answered;
use crate::language::CommandRow;
use crate::machine::{Machine, Scratch};
use raw_region::{DeviceFault, Sink};
use segment_lang::{LineError, MAX_LINE_LEN, Piece, line_error, put_pieces, without_return};

/// Reads the lines of a script, and reports each line that is no command: its number, the column, the error, and the
/// expected form.
#[derive(Drop)]
pub struct Lint<'a> {
    rows: &'a [CommandRow],
    line: u64,
    has_found: bool,
}

impl<'a> Lint<'a> {
    /// Makes a `Lint` that has read no line. The rows have the expected form after each command word.
    pub fn new(rows: &'a [CommandRow]) -> Lint<'a>
        ensures { is_at result.line result.has_found result.rows.now (start rows.now) }
    {
        Lint {
            rows,
            line: 0,
            has_found: false,
        }
    }

    /// Tells whether a line was no command.
    pub fn has_found(&self) -> bool
        ensures { result ≡ self.now.has_found }
    {
        self.has_found
    }
}

impl<'a> Machine for Lint<'a> {
    ghost RunState = { LintState };

    ghost respond = { λ at line. lint_line at line };

    ghost refuses = { λ at line. misses_line line };

    ghost is_idle = { λ at line. false };

    ghost stands = { λ lint at. is_at lint.line lint.has_found lint.rows.now at };

    fn answer<W: Sink>(
        &mut self,
        scratch: &mut Scratch,
        line: &[u8],
        out: &mut W,
    ) -> Result<Answered, DeviceFault> {
        self.line = self.line.saturating_add(1);
        match line_error(line, &mut scratch.name) {
            Some(error) => {
                self.has_found = true;
                let told = put_finding(self.rows, self.line, error, without_return(line), out);
                Answered::Refused.once(told)
            }
            None => Ok(Answered::Done),
        }
    }

    ghost long_lines = { lint_line-long };

    ghost long_refusals = { λ at line. misses_line-long line };
}

/// Writes the report about a line.
fn put_finding<W: Sink>(
    rows: &[CommandRow],
    number: u64,
    error: LineError,
    line: &[u8],
    out: &mut W,
) -> Result<(), DeviceFault>
    requires { (W.history out.old).failures < 2 ^ 64 - 1 }
    ensures { Writes (W.history out.old) (W.history out.new) result (finding_text rows.now number error line.now) }
{
    put_pieces(
        out,
        &[
            Piece::Number(number),
            Piece::Bytes(b":"),
            Piece::Number(column_of(error, line)),
            Piece::Bytes(b": "),
            Piece::LineError(error),
            Piece::Bytes(b": expected "),
            Piece::Bytes(expected(rows, error, line)),
            Piece::Bytes(b"\n"),
        ],
    )
}

/// Returns the column where a line goes wrong.
fn column_of(error: LineError, line: &[u8]) -> u64
    ensures { result ≡ column_of error line.now }
{
    let rest = match error {
        LineError::LineTooLong => return MAX_LINE_LEN as u64 + 1,
        LineError::UnknownCommand => behind(true, line),
        LineError::BadSyntax => behind(true, behind(false, behind(true, line))),
    };
    (line.len() - rest.len()) as u64 + 1
}

/// Returns what should stand there.
fn expected<'a>(rows: &'a [CommandRow], error: LineError, line: &[u8]) -> &'a [u8]
    ensures { result.now ≡ expected rows.now error line.now }
{
    match error {
        LineError::UnknownCommand => b"a command",
        LineError::LineTooLong => b"at most 4096 bytes",
        LineError::BadSyntax => usage_of(rows, first_token(line)),
    }
}

/// Returns the first word of a line.
fn first_token(line: &[u8]) -> &[u8]
    ensures { result.now ≡ first_token line.now }
{
    let rest = behind(true, line);
    &rest[..rest.len() - behind(false, rest).len()]
}

/// Skips the leading blanks, or the leading word.
fn behind(blanks: bool, bytes: &[u8]) -> &[u8]
    ensures value { result.now ≡ behind blanks bytes.now }
    ensures shrinking { length result.now ≤ length bytes.now }
{
    let mut rest = bytes;
    'bytes: while let [first, tail @ ..] = rest {
        if (*first == b' ' || *first == b'\t') != blanks {
            break;
        }
        rest = tail;
    }
    rest
}

/// Returns the words of the command that begins with this word, if there is one.
fn usage_of<'a>(rows: &'a [CommandRow], token: &[u8]) -> &'a [u8]
    ensures { result.now ≡ usage_of rows.now token.now }
{
    let mut rest = rows;
    'rows: while let [row, tail @ ..] = rest {
        if row.token.as_bytes() == token {
            return row.usage.as_bytes();
        }
        rest = tail;
    }
    b""
}
