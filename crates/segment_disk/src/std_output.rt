//! A writer of std as an `Output`.
ghost use Rattle.std.specs.Prelude.{◌≡◌, ⊤, Ok, is_ok, length};
ghost use Rattle.segment_disk.specs.{Events.nothing_taken, StdOutputs.is_pipe_end};

use crate::disk::Output;
use raw_region::std_io::{StdSink, WriteOnce};
use raw_region::{DeviceFault, Sink};
use std::io::{self, ErrorKind, Write};
use std::marker::Model;

/// Takes all bytes, and does nothing with them: what went to a writer is counted by what came by here.
#[derive(Drop)]
pub struct PassThrough;

impl WriteOnce for PassThrough {
    ghost write_gives = { λ old answer bytes new. answer ≡ Ok (length bytes) };

    fn write_once(&mut self, bytes: &[u8]) -> Result<usize, DeviceFault> {
        Ok(bytes.len())
    }
}

/// A writer of std. Each of its errors is a failure, and so is to take 0 of some bytes.
#[derive(Drop)]
pub struct StdOutput<W> {
    inner: W,
    failures: u64,
    /// Whether it failed last since its reader had ended.
    is_closed_pipe: bool,
    passed: StdSink<PassThrough>,
}

impl<W> Model for StdOutput<W> {
    ghost use Rattle.std.specs.Prelude.{◌≡◌};
    ghost use Rattle.segment_disk.specs.StdOutputs.{StdOutputState};

    ghost Value = { StdOutputState };

    ghost view = { λ o. record {
      history = record { bytes = o.passed.history.bytes; failures = o.failures };
    } };

    ghost invariant = { λ o. o.passed.history.failures ≡ 0 };
}

impl<W> StdOutput<W> {
    /// Makes a writer that took nothing yet.
    pub fn new(inner: W) -> StdOutput<W>
        ensures { result.history ≡ nothing_taken }
    {
        StdOutput {
            inner,
            failures: 0,
            is_closed_pipe: false,
            passed: StdSink::new(PassThrough),
        }
    }

    /// Tells whether it failed last since it is a pipe whose reader had ended.
    pub fn is_closed_pipe(&self) -> bool {
        self.is_closed_pipe
    }

    /// Tells whether it took all that it was given.
    pub(crate) fn is_sound(&self) -> bool {
        self.failures == 0
    }

    /// Returns the writer of std.
    pub(crate) fn inner(&self) -> &W {
        &self.inner
    }

    /// Notes why an answer failed. An error is long: what looks at one is kept out of the way of lines that go out.
    #[inline(never)]
    fn keep_failure<T>(&mut self, answer: &io::Result<T>)
        ensures { self.new ≡ self.old }
    {
        if let Err(error) = answer {
            self.is_closed_pipe = is_pipe_end(error.kind());
        }
    }
}

impl<W: Write> Sink for StdOutput<W> {
    ghost history = { λ o. o.history };

    fn write(&mut self, bytes: &[u8]) -> Result<usize, DeviceFault> {
        let answer = self.inner.write(bytes);
        let Ok(count) = answer else {
            self.keep_failure(&answer);
            self.failures += 1;
            return Err(DeviceFault);
        };
        if count == 0 && !bytes.is_empty() {
            self.failures += 1;
        }
        self.passed.write(&bytes[..count])
    }
}

impl<W: Write> Output for StdOutput<W> {
    ghost flushes = { λ old ok new. ⊤ };

    fn flush(&mut self) -> Result<(), DeviceFault> {
        let answer = self.inner.flush();
        let outcome = outcome_of(&answer);
        if outcome.is_err() {
            self.keep_failure(&answer);
        }
        outcome
    }
}

/// Returns true for the error of a pipe whose reader has ended.
fn is_pipe_end(kind: ErrorKind) -> bool
    ensures { result ≡ is_pipe_end kind }
{
    matches!(kind, ErrorKind::BrokenPipe)
}

/// Returns an error if std returned one.
fn outcome_of(answer: &io::Result<()>) -> Result<(), DeviceFault>
    ensures { is_ok result ≡ is_ok answer.now }
{
    match answer {
        Ok(()) => Ok(()),
        Err(_) => Err(DeviceFault),
    }
}
