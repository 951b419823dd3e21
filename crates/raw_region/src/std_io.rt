//! std's readers and writers as a `Source` and a `Sink`.
ghost use Rattle.std.specs.Prelude.{◌≡◌, ◌+◌, ◌^◌, ◌-◌, ◌<◌, ◌≤◌, ◌++◌, ℕ, List, [], false, Result, IfOk, OnErr};
ghost use Rattle.std.specs.Prelude.{length, take};
ghost use Rattle.std.specs.Io.KnownBytes.{ReadConsumes, WriteAppends};
ghost use Rattle.raw_region.specs.Answers.{answers_end, ends_in, failures_in, write_failures_in};
ghost use Rattle.raw_region.specs.declared.device.DeviceFault.{DeviceFault as Fault};

use crate::device::{DeviceFault, Sink, Source};
use crate::history::History;
use std::io::{Read, Write};
use std::marker::Model;

/// A reader that makes one read a call. Each reader of std is one.
pub trait ReadOnce {
    // The possible results of one read, the contents of the slice after it, and the reader after it.
    ghost read_gives: { Self → Result ℕ Fault → List ℕ → Self → Type 0 };

    /// Makes one read into the front of the slice, and records the result.
    fn read_once(&mut self, into: &mut [u8]) -> Result<usize, DeviceFault>
        ensures count { IfOk result (λ n. n ≤ length into.new) }
        ensures uniqueness { read_gives self.old result into.new self.new };
}

impl<R: Read> ReadOnce for R {
    ghost read_gives = { λ old answer bytes new. ReadConsumes (R.remaining old) (R.remaining new) answer bytes };

    fn read_once(&mut self, into: &mut [u8]) -> Result<usize, DeviceFault> {
        match self.read(into) {
            Ok(given) => Ok(given),
            Err(_) => Err(DeviceFault),
        }
    }
}

/// A writer that makes one write a call. Each writer of std is one.
pub trait WriteOnce {
    // The possible results of one write of these bytes, and the writer after it.
    ghost write_gives: { Self → Result ℕ Fault → List ℕ → Self → Type 0 };

    /// Makes one write of the bytes, and records the result.
    fn write_once(&mut self, bytes: &[u8]) -> Result<usize, DeviceFault>
        ensures count { IfOk result (λ n. n ≤ length bytes.now) }
        ensures uniqueness { write_gives self.old result bytes.now self.new };
}

impl<W: Write> WriteOnce for W {
    ghost write_gives = { λ old answer bytes new. WriteAppends (W.contents old) (W.contents new) answer bytes };

    fn write_once(&mut self, bytes: &[u8]) -> Result<usize, DeviceFault> {
        match self.write(bytes) {
            Ok(taken) => Ok(taken),
            Err(_) => Err(DeviceFault),
        }
    }
}

/// A reader of std. Each error of it is a failure, even one after which std reads again. Its history counts the reads
/// that met the end.
#[derive(Drop)]
pub struct StdSource<R> {
    inner: R,
    ended: bool,
    failures: u64,
    history: History,
}

impl<R> Model for StdSource<R> {
    ghost use Rattle.raw_region.specs.Streams.{GaveFrom, gave_from_code};

    ghost Value = { GaveFrom R };

    ghost coded = { gave_from_code R.code };

    ghost view = { λ r. record {
      inner = r.inner;
      history = record { bytes = r.history.bytes; ended = r.ended; ends = r.history.count; failures = r.failures };
    } };
}

impl<R: ReadOnce> StdSource<R> {
    /// Makes a source over a reader of std, from which nothing was read yet.
    pub fn new(inner: R) -> StdSource<R>
        ensures { result ≡ record {
          inner = inner;
          history = record { bytes = []; ended = false; ends = 0; failures = 0 };
        } }
    {
        StdSource {
            inner,
            ended: false,
            failures: 0,
            history: History::new(),
        }
    }
}

impl<R: ReadOnce> Source for StdSource<R> {
    ghost history = { λ r. r.history };

    /// Makes one read of the inner reader and returns its result.
    fn read(&mut self, into: &mut [u8]) -> Result<usize, DeviceFault>
        requires { self.old.history.failures < 2 ^ 64 - 1 }
        ensures inner { R.read_gives self.old.inner result into.new self.new.inner }
        ensures count { IfOk result (λ n. n ≤ length into.new) }
        ensures bytes { IfOk result (λ n. self.new.history.bytes ≡ self.old.history.bytes ++ take n into.new) }
        ensures no_bytes { OnErr result (self.new.history.bytes ≡ self.old.history.bytes) }
        ensures end { 0 < length into.old → self.new.history.ended ≡ answers_end result }
        ensures same_end { length into.old ≡ 0 → self.new.history.ended ≡ self.old.history.ended }
        ensures ends { self.new.history.ends ≡ self.old.history.ends + ends_in result (length into.old) }
        ensures failures { self.new.history.failures ≡ self.old.history.failures + failures_in result }
    {
        let asked = !into.is_empty();
        let answer = self.inner.read_once(into);
        match answer {
            Ok(count) => {
                let ends = u64::from(asked && count == 0);
                self.history.record(&into[..count], ends);
                if asked {
                    self.ended = count == 0;
                }
            }
            Err(_) => {
                self.failures += 1;
                if asked {
                    self.ended = false;
                }
            }
        }
        answer
    }
}

/// A writer of std.
#[derive(Drop)]
pub struct StdSink<W> {
    inner: W,
    failures: u64,
    history: History,
}

impl<W> Model for StdSink<W> {
    ghost use Rattle.raw_region.specs.Streams.{TookTo, took_to_code};

    ghost Value = { TookTo W };

    ghost coded = { took_to_code W.code };

    ghost view = { λ w. record {
      inner = w.inner;
      history = record { bytes = w.history.bytes; failures = w.failures };
    } };
}

impl<W: WriteOnce> StdSink<W> {
    /// Makes a sink over a writer of std, to which nothing was written yet.
    pub fn new(inner: W) -> StdSink<W>
        ensures { result ≡ record { inner = inner; history = record { bytes = []; failures = 0 } } }
    {
        StdSink {
            inner,
            failures: 0,
            history: History::new(),
        }
    }
}

impl<W: WriteOnce> Sink for StdSink<W> {
    ghost history = { λ w. w.history };

    /// Makes one write to the inner writer and returns its result.
    fn write(&mut self, bytes: &[u8]) -> Result<usize, DeviceFault>
        requires { self.old.history.failures < 2 ^ 64 - 1 }
        ensures inner { W.write_gives self.old.inner result bytes.now self.new.inner }
        ensures count { IfOk result (λ n. n ≤ length bytes.now) }
        ensures bytes { IfOk result (λ n. self.new.history.bytes ≡ self.old.history.bytes ++ take n bytes.now) }
        ensures no_bytes { OnErr result (self.new.history.bytes ≡ self.old.history.bytes) }
        ensures failures { self.new.history.failures
            ≡ self.old.history.failures + write_failures_in result (length bytes.now) }
    {
        let answer = self.inner.write_once(bytes);
        match answer {
            Ok(count) => {
                self.history.record(&bytes[..count], 0);
                if count == 0 && !bytes.is_empty() {
                    self.failures += 1;
                }
            }
            Err(_) => self.failures += 1,
        }
        answer
    }
}
