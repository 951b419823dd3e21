//! Lines.

ghost use Rattle.std.specs.Prelude.{◌≡◌, ◌==◌, MatchOption, Some, false, slice_index, if◌then◌else◌};
ghost use Rattle.raw_region.specs.Format.{current};
ghost use Rattle.segment_lang.specs.Language.{whole_language};
ghost use Rattle.seg_types.specs.Commands.{Nothing};
ghost use Rattle.segment_lang.specs.Reading.{command_line, reading, skip_blanks, without_return};
ghost use Rattle.segment_lang.specs.Seen.{is_wrong, reading_led, reading_of, wrong_reading};

use crate::blanks::skip_blanks;
use crate::buffer::LineBuffer;
use crate::commands::{LineStart, Reading};
use crate::forms::{is_command, split_form};
use seg_types::LineError;

/// The longest line without its end, in bytes.
pub const MAX_LINE_LEN: usize = 4096;

/// Returns the line without the carriage return at its end, if there is one.
pub fn without_return(line: &[u8]) -> &[u8]
    ensures { result.now ≡ without_return line.now }
{
    match line {
        [prefix @ .., b'\r'] => prefix,
        _ => line,
    }
}

/// Tells whether a line is a comment: its first byte is `#`.
fn is_comment(line: &[u8]) -> bool
    ensures { result ≡ (slice_index line.now 0 == 0x23) }
{
    match line {
        [first, ..] => *first == b'#',
        [] => false,
    }
}

/// Returns how a line begins that no command word begins: with blanks, or with a word that is none.
#[inline(never)]
fn lead_behind_blanks(line: &[u8]) -> LineStart<'_>
    ensures { reading_led result
        ≡ (if slice_index line.now 0 == 0x23 then Nothing else command_line (whole_language current)
        (skip_blanks line.now)) }
{
    if is_comment(line) {
        return LineStart::Nothing;
    }
    let line = skip_blanks(line);
    if line.is_empty() {
        return LineStart::Nothing;
    }
    match split_form(line) {
        Some((form, rest)) => LineStart::Form(form, rest),
        None => LineStart::Wrong(LineError::UnknownCommand),
    }
}

/// Returns how a line begins. It comes without its end, a line feed; one carriage return at its end is dropped.
#[tactic(auto, unfolding(crate::specs::Reading::reading))]
#[inline(always)]
pub fn line_start(line: &[u8]) -> LineStart<'_>
    ensures { reading_led result ≡ reading (whole_language current) line.now }
{
    let line = without_return(line);
    if line.len() > MAX_LINE_LEN {
        return LineStart::Wrong(LineError::LineTooLong);
    }
    match split_form(line) {
        Some((form, rest)) => LineStart::Form(form, rest),
        None => lead_behind_blanks(line),
    }
}

/// Returns the meaning of a line. A name with escapes is decoded into `scratch`, whose old contents are dropped.
fn read_line<'a>(line: &'a [u8], scratch: &mut LineBuffer) -> Reading<'a>
    ensures { reading_of result ≡ Some (reading (whole_language current) line.now) }
{
    match line_start(line) {
        LineStart::Nothing => Reading::Nothing,
        LineStart::Form(form, rest) => {
            if is_command(form, rest, scratch) {
                Reading::Command(form, rest)
            } else {
                Reading::Wrong(LineError::BadSyntax)
            }
        }
        LineStart::Wrong(error) => Reading::Wrong(error),
    }
}

/// Returns the meaning of a line: nothing, a command, or a syntax error. The line is passed without its line feed; one
/// carriage return at its end is dropped.
pub fn parse_line(line: &[u8]) -> Reading<'_>
    ensures reading { reading_of result ≡ Some (reading (whole_language current) line.now) }
{
    read_line(line, &mut LineBuffer::new())
}

/// Returns why a line is no command, if it has one and it is none. A name that is spelled with escapes is decoded into
/// `scratch`, whatever it held.
pub fn line_error(line: &[u8], scratch: &mut LineBuffer) -> Option<LineError>
    ensures { MatchOption result (is_wrong (reading (whole_language current) line.now) ≡ false)
        (λ error. wrong_reading error ≡ reading (whole_language current) line.now) }
{
    match read_line(line, scratch) {
        Reading::Nothing => None,
        Reading::Command(_, _) => None,
        Reading::Wrong(error) => Some(error),
    }
}
