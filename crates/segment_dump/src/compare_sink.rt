//! A sink that compares: it accepts bytes as long as they are equal to a text, and one byte more.
ghost use Rattle.std.specs.Prelude.{◌≡◌, ◌+◌, ◌-◌, ◌^◌, ◌<◌, ◌≤◌, ◌++◌, ◌↔◌, length, take, drop, true, IsTrue};
ghost use Rattle.std.specs.Prelude.{slice_get, None, Some, OnErr};
ghost use Rattle.std.specs.Bool.{OnTrue};
ghost use Rattle.segment_dump.specs.Comparing.{IsComparing, IsOther, compared, taken};

use crate::tokens::is_same;
use raw_region::{DeviceFault, Sink};
use std::marker::Model;

/// A sink that accepts the bytes of a text from its start on. At the first other byte it fails.
#[derive(Drop)]
pub struct CompareSink<'a> {
    text: &'a [u8],
    at: usize,
    // The byte that is not the next one of the text.
    other: Option<u8>,
    failures: u64,
}

impl<'a> Model for CompareSink<'a> {
    ghost use Rattle.segment_dump.specs.Comparing.{Compared, IsComparing};

    ghost Value = { Compared };

    ghost view = { λ a. record { text = a.text.now; at = a.at; other = a.other; failures = a.failures } };

    ghost invariant = { λ a. IsComparing (record {
      text = a.text.now;
      at = a.at;
      other = a.other;
      failures = a.failures;
    }) };
}

impl<'a> CompareSink<'a> {
    /// Makes a sink that has taken nothing of the text.
    pub fn new(text: &'a [u8]) -> CompareSink<'a>
        ensures { result ≡ record { text = text.now; at = 0; other = None; failures = 0 } }
    {
        CompareSink {
            text,
            at: 0,
            other: None,
            failures: 0,
        }
    }

    /// Returns the number of leading bytes of the text that were written.
    pub fn alike(&self) -> usize
        ensures { IsComparing self.now }
    {
        self.at
    }

    /// Tells whether it has taken all of its text, and nothing else.
    pub fn has_all(&self) -> bool
        ensures every { OnTrue result (taken self.now ≡ self.now.text) }
        ensures known_size { IsComparing self.now }
        ensures totality { taken self.now ≡ self.now.text → result ≡ true }
    {
        self.other.is_none() && self.at == self.text.len()
    }

    /// Takes bytes up to the first that is another.
    fn take_other(&mut self, bytes: &[u8]) -> usize
        requires { self.old.other ≡ None }
        ensures count { result ≤ length bytes.now }
        ensures non_empty { 0 < length bytes.now → 0 < result }
        ensures bytes { compared self.new ≡ record {
          bytes = (compared self.old).bytes ++ take result bytes.now;
          failures = self.old.failures;
        } }
    {
        let (_, behind) = self.text.split_at(self.at);
        let count = common(behind, bytes);
        self.at += count;
        if count == bytes.len() {
            return count;
        }
        self.other = Some(bytes[count]);
        count + 1
    }
}

impl<'a> Sink for CompareSink<'a> {
    ghost use Rattle.segment_dump.specs.Comparing.{compared};

    ghost history = { compared };

    fn write(&mut self, bytes: &[u8]) -> Result<usize, DeviceFault> {
        if self.other.is_some() {
            self.failures += 1;
            return Err(DeviceFault);
        }
        if goes_on(self.text, self.at, bytes) {
            self.at += bytes.len();
            return Ok(bytes.len());
        }
        Ok(self.take_other(bytes))
    }
}

/// Tells whether a text goes on with these bytes after its first `at`.
fn goes_on(text: &[u8], at: usize, bytes: &[u8]) -> bool
    requires { at ≤ length text.now }
    ensures on_true { OnTrue result (take (at + length bytes.now) text.now ≡ take at text.now ++ bytes.now) }
    ensures in_bounds { OnTrue result (at + length bytes.now ≤ length text.now) }
{
    let (_, behind) = text.split_at(at);
    if behind.len() < bytes.len() {
        return false;
    }
    let (prefix, _) = behind.split_at(bytes.len());
    is_same(prefix, bytes)
}

/// Returns the length of the common prefix.
fn common(some: &[u8], other: &[u8]) -> usize
    ensures first_in_bounds { result ≤ length some.now }
    ensures second_in_bounds { result ≤ length other.now }
    ensures prefix { take result some.now ≡ take result other.now }
    ensures difference { IsOther (drop result some.now) (slice_get other.now result) }
{
    'bytes: for index in 0..some.len() {
        if index >= other.len() {
            return index;
        }
        if some[index] != other[index] {
            return index;
        }
    }
    some.len()
}
