//! An output of answers that notes whether one is an error.
ghost use Rattle.std.specs.Prelude.{◌≡◌, ◌≤◌, ◌<◌, ◌-◌, ◌^◌, ◌+◌, ◌++◌, IfOk, OnErr, fold, length, take};
ghost use Rattle.raw_region.specs.Answers.{write_failures_in};
ghost use Rattle.segment_disk.specs.Events.{nothing_taken};
ghost use Rattle.segment_commands.specs.Refusals.{after_byte, awaited, has_refusal, next_spot, seen_in};

use raw_region::{DeviceFault, Sink};
use segment_answers::LineOutput;
use segment_disk::Output;

/// How many bytes stand in front of the number of an error: `error` and a blank.
const LABEL_LEN: u8 = 6;

/// A place of a line that does not begin as an error does.
const ELSEWHERE: u8 = 7;

/// What was seen of the answers so far.
#[derive(Clone, Copy, Debug, PartialEq, Eq)]
pub struct Seen {
    /// How many bytes the line has, if they are the first ones of `error ` in their order; otherwise 7.
    pub spot: u8,
    /// Whether a line began with `error `, and a digit after it.
    pub refusal: bool,
}

/// Returns the byte that an error has at a place before its number.
fn awaited(spot: u8) -> u8
    ensures { result ≡ awaited spot }
{
    match spot {
        0 => b'e',
        3 => b'o',
        5 => b' ',
        _ => b'r',
    }
}

/// Returns the place after this byte.
fn next_spot(spot: u8, byte: u8) -> u8
    ensures { result ≡ next_spot spot byte }
{
    if byte == b'\n' {
        0
    } else if spot < LABEL_LEN && byte == awaited(spot) {
        spot + 1
    } else {
        ELSEWHERE
    }
}

/// Returns what was seen after this byte.
fn after_byte(seen: Seen, byte: u8) -> Seen
    ensures { result ≡ after_byte seen byte }
{
    let is_number = seen.spot == LABEL_LEN && byte >= b'0' && byte <= b'9';
    Seen {
        spot: next_spot(seen.spot, byte),
        refusal: seen.refusal || is_number,
    }
}

/// Returns what was seen after these bytes.
fn after_bytes(seen: Seen, bytes: &[u8]) -> Seen
    ensures { result ≡ fold after_byte seen bytes.now }
{
    let mut last = seen;
    'bytes: for byte in bytes {
        last = after_byte(last, *byte);
    }
    last
}

/// An output of answers that notes whether one is an error: a line that begins with `error `, and a digit after it. No
/// other answer has such a line. It passes on what it takes, and fails only if that output does.
#[derive(Drop)]
pub struct RefusalWatch<O: Output> {
    inner: O,
    seen: Seen,
    ghost text: { seen_in (O.history inner).bytes ≡ seen },
}

impl<O: Output> RefusalWatch<O> {
    /// Makes a `RefusalWatch` that has taken no byte.
    pub fn new(inner: O) -> RefusalWatch<O>
        requires { O.history inner ≡ nothing_taken }
        ensures { O.history result.inner ≡ nothing_taken }
    {
        RefusalWatch {
            inner,
            seen: Seen {
                spot: 0,
                refusal: false,
            },
        }
    }

    /// Passes bytes on, and looks at those that were taken.
    fn pass(&mut self, bytes: &[u8]) -> Result<usize, DeviceFault>
        requires { (O.history self.old.inner).failures < 2 ^ 64 - 1 }
        ensures count { IfOk result (λ n. n ≤ length bytes.now) }
        ensures bytes { IfOk result (λ n. (O.history self.new.inner).bytes
            ≡ (O.history self.old.inner).bytes ++ take n bytes.now) }
        ensures no_bytes { OnErr result ((O.history self.new.inner).bytes ≡ (O.history self.old.inner).bytes) }
        ensures failures { (O.history self.new.inner).failures
            ≡ (O.history self.old.inner).failures + write_failures_in result (length bytes.now) }
    {
        match self.inner.write(bytes) {
            Ok(count) => {
                self.seen = after_bytes(self.seen, &bytes[..count]);
                Ok(count)
            }
            Err(fault) => Err(fault),
        }
    }

    /// Tells whether an answer that went out is an error.
    pub fn has_refusal(&self) -> bool
        ensures { result ≡ has_refusal (O.history self.now.inner).bytes }
    {
        self.seen.refusal
    }
}

impl<O: Output> Sink for RefusalWatch<O> {
    ghost history = { λ s. O.history s.inner };

    fn write(&mut self, bytes: &[u8]) -> Result<usize, DeviceFault> {
        self.pass(bytes)
    }
}

impl<O: Output> Output for RefusalWatch<O> {
    ghost flushes = { λ old ok new. O.flushes old.inner ok new.inner };

    fn flush(&mut self) -> Result<(), DeviceFault> {
        self.inner.flush()
    }
}

impl<O: LineOutput> LineOutput for RefusalWatch<O> {
    ghost turns = { λ old new. O.turns old.inner new.inner };

    fn next_line(&mut self) {
        self.inner.next_line()
    }
}
