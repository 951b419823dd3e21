//! A dump that is read: its lines one after another, and the words of a line.
ghost use Rattle.std.specs.Prelude.{◌≡◌, ◌≤◌, ◌<◌, ◌^◌, ◌↔◌, ◌==◌, ℕ, List, [], ◌++◌, Some, length, position, true};
ghost use Rattle.std.specs.Prelude.{IfOk, IsTrue, OnOk};
ghost use Rattle.raw_region.specs.Format.{current};
ghost use Rattle.seg_types.specs.Values.{kind_of_scalar};
ghost use Rattle.segment_lang.specs.Language.{whole_language};
ghost use Rattle.segment_lang.specs.Reading.{kind_of_token, number};
ghost use Rattle.segment_lang.specs.{Lexing.Bare, Seen.bytes_said, Seen.token_of, Tokens.next_token};
ghost use Rattle.segment_dump.specs.Builders.{ReadsElement, ReadsPair};
ghost use Rattle.segment_dump.specs.Lines.{ReadsEnd, ReadsLine, ReadsThis, ReadsToken, any_token, bare_token};
ghost use Rattle.segment_dump.specs.Lines.{BeginsWithNumber, quoted_token};
ghost use Rattle.segment_dump.specs.Lines.{seen_bytes, seen_token, value_token};
ghost use Rattle.segment_dump.specs.Reads.{ended};

use crate::faults::{DumpFault, SyntaxError};
use seg_types::{Kind, ScalarKind, ScalarValue};
use segment_lang::{
    Quoted, Token, kind_of_token, next_token, number_of, scalar_of, wholes_are_decimals,
};
use std::marker::Model;

/// The most bytes of a line.
const LONGEST_LINE: usize = 4096;

/// The rest of a text.
#[derive(Drop)]
pub struct Lines<'a> {
    rest: &'a [u8],
    len: usize,
}

/// The rest of a line.
#[derive(Drop)]
pub struct LineTokens<'a> {
    rest: &'a [u8],
    end: usize,
}

impl<'a> Model for Lines<'a> {
    ghost use Rattle.std.specs.Prelude.{ℕ, List};

    ghost Value = { List ℕ };

    ghost view = { λ lines. lines.rest.now };
}

impl<'a> Model for LineTokens<'a> {
    ghost use Rattle.std.specs.Prelude.{◌≤◌, ℕ, List, length};

    ghost Value = { List ℕ };

    ghost view = { λ tokens. tokens.rest.now };

    ghost invariant = { λ tokens. length tokens.rest.now ≤ 4096 };
}

impl<'a> Lines<'a> {
    /// Makes all lines of a text.
    pub fn new(text: &'a [u8]) -> Lines<'a>
        ensures { result ≡ text.now }
    {
        Lines {
            rest: text,
            len: text.len(),
        }
    }

    /// Returns the number of bytes before the rest.
    pub fn at(&self) -> usize {
        self.len.saturating_sub(self.rest.len())
    }

    /// Returns true if nothing is left.
    pub fn is_empty(&self) -> bool
        ensures { result ≡ true ↔ self.now ≡ [] }
    {
        self.rest.is_empty()
    }

    /// Returns the next line, without the byte that ends it.
    pub fn next_line(&mut self) -> Result<LineTokens<'a>, SyntaxError>
        ensures line { ReadsLine self.old self.new result }
        ensures exact { IfOk result (λ line. self.old ≡ ended line ++ self.new) }
    {
        let at = self.at();
        let rest = self.rest;
        let Some(end) = line_len(rest) else {
            return Err(SyntaxError {
                at: self.len,
                cause: DumpFault::Cut,
            });
        };
        let (line, behind) = rest.split_at(end);
        if line.len() > LONGEST_LINE {
            return Err(SyntaxError {
                at,
                cause: DumpFault::LongLine,
            });
        }
        let (_, behind) = behind.split_at(1);
        self.rest = behind;
        Ok(LineTokens {
            rest: line,
            end: self.at().saturating_sub(1),
        })
    }
}

impl<'a> LineTokens<'a> {
    /// Returns where the next word stands in the text, or the end of the line.
    pub fn at(&self) -> usize {
        let rest = self.rest;
        let from = self.end.saturating_sub(rest.len());
        match rest.iter().position(|byte| *byte != b' ') {
            Some(blanks) => from.saturating_add(blanks),
            None => self.end,
        }
    }

    /// Returns the fault at the current word.
    fn misfit(&self, cause: DumpFault) -> SyntaxError {
        SyntaxError {
            at: self.at(),
            cause,
        }
    }

    /// Tells whether these bytes are all that is left.
    pub fn are(&self, bytes: &[u8]) -> bool
        ensures { IsTrue result ↔ (self.now ≡ bytes.now) }
    {
        is_same(self.rest, bytes)
    }

    /// Checks that there are no more words.
    pub fn finish(&self) -> Result<(), SyntaxError>
        ensures { ReadsEnd self.now result }
    {
        if self.rest.is_empty() {
            Ok(())
        } else {
            Err(self.misfit(DumpFault::BadSyntax))
        }
    }

    /// Returns the next word.
    pub fn next_token(&mut self) -> Result<Token<'a>, SyntaxError>
        ensures max_len { IfOk result (λ token. length (bytes_said token) ≤ 4096) }
        ensures token { ReadsToken any_token self.old self.new (seen_token result) }
        ensures exact { IfOk result (λ token. next_token self.old ≡ Some (token_of token, self.new)) }
    {
        match next_token(self.rest) {
            None => Err(self.misfit(DumpFault::BadSyntax)),
            Some((token, rest)) => {
                self.rest = rest;
                Ok(token)
            }
        }
    }

    /// Returns the next word, a bare one.
    pub fn next_bare(&mut self) -> Result<&'a [u8], SyntaxError>
        ensures token { ReadsToken bare_token self.old self.new (seen_bytes result) }
        ensures exact { IfOk result (λ bytes. next_token self.old ≡ Some (Bare bytes.now, self.new)) }
    {
        let misfit = self.misfit(DumpFault::BadSyntax);
        match self.next_token()? {
            Token::Bare(bytes) => Ok(bytes),
            Token::Text(_) => Err(misfit),
        }
    }

    /// Returns the next word, a text in quotes.
    pub fn next_text(&mut self) -> Result<Quoted<'a>, SyntaxError>
        ensures max_len { IfOk result (λ text. length text ≤ 4096) }
        ensures token { ReadsToken quoted_token self.old self.new result }
    {
        let misfit = self.misfit(DumpFault::BadSyntax);
        match self.next_token()? {
            Token::Bare(_) => Err(misfit),
            Token::Text(text) => Ok(text),
        }
    }

    /// Checks that the next word is this one.
    pub fn expect(&mut self, token: &[u8]) -> Result<(), SyntaxError>
        ensures token { ReadsThis token.now self.old self.new result }
        ensures exact { OnOk result (next_token self.old ≡ Some (Bare token.now, self.new)) }
    {
        let misfit = self.misfit(DumpFault::BadSyntax);
        let bytes = self.next_bare()?;
        if is_same(bytes, token) {
            Ok(())
        } else {
            Err(misfit)
        }
    }

    /// Returns the next word, a number.
    pub fn next_number(&mut self) -> Result<u64, SyntaxError>
        ensures token { ReadsToken number self.old self.new result }
        ensures exact { IfOk result (λ n. BeginsWithNumber n self.old self.new) }
    {
        let misfit = self.misfit(DumpFault::BadCount);
        number_of(self.next_bare()?).ok_or(misfit)
    }

    /// Returns the next word, a kind.
    pub fn next_kind(&mut self) -> Result<Kind, SyntaxError>
        ensures { ReadsToken (kind_of_token (whole_language current)) self.old self.new result }
    {
        let misfit = self.misfit(DumpFault::UnknownKind);
        kind_of_token(self.next_token()?).ok_or(misfit)
    }

    /// Returns the next word, a value of a kind.
    pub fn next_value(&mut self, kind: ScalarKind) -> Result<ScalarValue, SyntaxError>
        ensures value { ReadsToken (value_token kind) self.old self.new result }
        ensures kind { IfOk result (λ value. kind_of_scalar value ≡ kind) }
    {
        let misfit = self.misfit(DumpFault::BadValue);
        scalar_of(kind, self.next_token()?).ok_or(misfit)
    }
}

/// Returns the value that the next line is, alone.
pub fn next_value(lines: &mut Lines<'_>, kind: ScalarKind) -> Result<ScalarValue, SyntaxError>
    ensures value { ReadsElement kind lines.old lines.new result }
    ensures kind { IfOk result (λ value. kind_of_scalar value ≡ kind) }
{
    wholes_are_decimals();
    let mut tokens = lines.next_line()?;
    let value = tokens.next_value(kind)?;
    tokens.finish()?;
    Ok(value)
}

/// Returns the two values that the next line is.
pub fn next_pair(
    lines: &mut Lines<'_>,
    keys: ScalarKind,
    values: ScalarKind,
) -> Result<(ScalarValue, ScalarValue), SyntaxError>
    ensures value { ReadsPair keys values lines.old lines.new result }
    ensures kinds { IfOk result (λ pair. (kind_of_scalar pair.0 ≡ keys) × (kind_of_scalar pair.1 ≡ values)) }
{
    wholes_are_decimals();
    let mut tokens = lines.next_line()?;
    let key = tokens.next_value(keys)?;
    let value = tokens.next_value(values)?;
    tokens.finish()?;
    Ok((key, value))
}

/// Returns the length of the leading line, if the line has an end.
fn line_len(text: &[u8]) -> Option<usize>
    ensures { result ≡ position (λ b. b == 0x0A) text.now }
{
    text.iter().position(|byte| *byte == b'\n')
}

/// Tells whether two slices have the same bytes.
pub fn is_same(some: &[u8], other: &[u8]) -> bool
    ensures { IsTrue result ↔ (some.now ≡ other.now) }
{
    some == other
}
