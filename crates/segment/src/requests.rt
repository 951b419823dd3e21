//! The requests for memory of the program itself, for its command line and its answers: each in a function that alone
//! makes the token of its refusal.
ghost use Rattle.std.specs.Prelude.{IfOk, MatchResult, map, option_map, string_bytes};
ghost use Rattle.segment.specs.Requests.{IsArgumentOf};
ghost use Rattle.segment_invocation.specs.Invocations.{IsRequestedBy, IsWrongBy, request_by};

use segment_commands::stand_in;
use segment_invocation::{InvocationFault, Request, UsageError, request};
use std::alloc::{AllocError, Global};
use std::env::{Env, FillError};
use std::io::{BufWriter, ErrorKind, Write};

/// How many bytes of answers go out at once, at most.
const PIECE: usize = 65536;

/// The most bytes that a word may have in a command line that is not all UTF-8: as many as Linux lets it have.
const LONGEST_ARGUMENT: usize = 131072;

/// The allocator refused memory for the command line or the answers. Its field is private: this module alone makes it,
/// where it asked.
#[derive(Clone, Copy)]
pub struct NoAnswerMemory {
    _made: (),
}

/// What the token of a refusal is.
const REFUSED: NoAnswerMemory = NoAnswerMemory { _made: () };

/// Returns the words of the command line, the program's name first. A stand-in replaces each word that is no UTF-8.
/// Returns none if such a word begins with a hyphen, or if any word is too long to be read.
pub fn command_arguments(rt: &HostRuntime) -> Result<Option<Vec<String>>, NoAnswerMemory> {
    match std::env::args(rt) {
        Ok(words) => match words.collect(rt.alloc()) {
            Ok(words) => Ok(Some(words)),
            Err(_) => Err(REFUSED),
        },
        Err(error) if error.kind() == ErrorKind::OutOfMemory => Err(REFUSED),
        Err(_) => raw_arguments(rt),
    }
}

/// Returns the words of a command line that is not all UTF-8.
fn raw_arguments(rt: &HostRuntime) -> Result<Option<Vec<String>>, NoAnswerMemory> {
    let mut storage = Vec::new(rt.alloc());
    storage.resize(LONGEST_ARGUMENT, 0u8).map_err(|_| REFUSED)?;
    let mut words = Vec::new(rt.alloc());
    for index in 0..usize::MAX {
        let argument = match rt.arg(index, storage.as_mut_slice()) {
            Ok(len) => argument_of(rt.alloc(), storage.get(..len).unwrap_or(&[])),
            Err(FillError::NotPresent) => break,
            Err(FillError::TooLong) => return Ok(None),
        };
        match argument {
            Ok(Some(argument)) => words.push(argument).map_err(|_| REFUSED)?,
            Ok(None) => return Ok(None),
            Err(_) => return Err(REFUSED),
        }
    }
    Ok(Some(words))
}

/// Returns a word as text, or its stand-in, but none for an option that is no UTF-8.
fn argument_of(alloc: Global, bytes: &[u8]) -> Result<Option<String>, AllocError>
    ensures { IfOk result (λ read. IsArgumentOf bytes.now (option_map string_bytes read)) }
{
    match std::str::from_utf8(bytes) {
        Ok(text) => {
            let mut argument = String::new(alloc);
            argument.push_str(text)?;
            Ok(Some(argument))
        }
        Err(_) if bytes.starts_with(b"-") => Ok(None),
        Err(_) => Ok(Some(stand_in(alloc, bytes)?)),
    }
}

/// Returns the words as texts that are lent.
pub fn as_strs<'a>(alloc: Global, words: &'a [String]) -> Result<Vec<&'a str>, NoAnswerMemory> {
    words
        .iter()
        .map(|argument| argument.as_str())
        .collect(alloc)
        .map_err(|_| REFUSED)
}

/// Returns what the words ask for, or what is wrong with them.
pub fn read_request<'a>(
    alloc: Global,
    words: &'a [&'a str],
) -> Result<Result<Request<'a>, UsageError>, NoAnswerMemory>
    ensures { IfOk result (λ read. MatchResult read
        (λ asked. IsRequestedBy (map (λ s. s.now) words.now) (request_by asked))
        (IsWrongBy (map (λ s. s.now) words.now))) }
{
    match request(alloc, words) {
        Ok(asked) => Ok(Ok(asked)),
        Err(InvocationFault::Usage(wrong)) => Ok(Err(wrong)),
        Err(InvocationFault::OutOfMemory) => Err(REFUSED),
    }
}

/// Returns a writer that puts its bytes out in pieces.
pub fn buffered_writer<W: Write + Drop>(
    alloc: Global,
    writer: W,
) -> Result<BufWriter<W>, NoAnswerMemory> {
    match BufWriter::with_capacity(alloc, PIECE, writer) {
        Ok(buffer) => Ok(buffer),
        Err(_) => Err(REFUSED),
    }
}
