//! An output that writes the number of a script's line before each line of the answer to it.
ghost use Rattle.std.specs.Prelude.{◌≡◌, ◌≢◌, ◌≤◌, ◌<◌, ◌-◌, ◌^◌, ◌+◌, ◌++◌, ℕ, true, false, codes, decimal, length};
ghost use Rattle.std.specs.Prelude.{min, take, IfOk, OnOk, OnErr};
ghost use Rattle.raw_region.specs.Answers.{failures_in, write_failures_in};
ghost use Rattle.segment_disk.specs.Events.{nothing_taken};
ghost use Rattle.segment_answers.specs.Numbers.{has_number, next_in_text, is_in_text, number_at, text_part};
ghost use Rattle.segment_answers.specs.declared.numbered_output.LineSpot.TheVariants.{LineStart, Broken as IsBroken};

use crate::line_output::LineOutput;
use raw_region::std_io::StdSink;
use raw_region::{DeviceFault, Sink};
use segment_disk::{Output, PassThrough};
use segment_lang::{Piece, put_pieces};

/// Where the next byte stands.
#[derive(Clone, Copy, Debug, PartialEq, Eq)]
pub enum LineSpot {
    /// The byte begins a line, whose number must be written first.
    LineStart,
    /// The byte begins a line, whose number is written.
    Ahead,
    /// The byte is within a line.
    Inside,
    /// The output failed within the number of a line: nothing more goes out.
    Broken,
}

/// Returns the length of the first line in the bytes, with its end.
fn line_length(bytes: &[u8]) -> usize
    ensures count { result ≤ length bytes.now }
    ensures non_empty { 0 < length bytes.now → 0 < result }
    ensures previous { (k : ℕ) → k < result → is_in_text true (take k bytes.now) ≡ true }
{
    let mut is_inside = true;
    let mut count = 0;
    'bytes: while count < bytes.len() && is_inside {
        is_inside = bytes[count] != b'\n';
        count += 1;
    }
    count
}

/// Returns the spot of the next byte after this byte of a line.
fn spot_behind(byte: u8) -> LineSpot
    ensures text { has_number result ≡ next_in_text true byte }
    ensures contents { result ≢ IsBroken }
{
    if byte == b'\n' {
        LineSpot::LineStart
    } else {
        LineSpot::Inside
    }
}

/// An output that writes `N: ` before each line that it takes. N is the number of calls of `next_line` so far. It fails
/// only if the inner output has failed.
#[derive(Drop)]
pub struct NumberedOutput<O: Output> {
    inner: O,
    number: u64,
    spot: LineSpot,
    failures: u64,
    plain: StdSink<PassThrough>,
    ghost failures_upper: { (O.history inner).failures ≤ failures },
    ghost text: { text_part false (O.history inner).bytes ≡ plain.history.bytes },
    ghost place: { is_in_text false (O.history inner).bytes ≡ has_number spot },
    ghost unbroken: { plain.history.failures ≡ 0 },
    ghost cause: { spot ≡ IsBroken → 0 < (O.history inner).failures },
    ghost failures_lower: { 0 < failures → 0 < (O.history inner).failures },
}

impl<O: Output> NumberedOutput<O> {
    /// Makes a `NumberedOutput` that has taken no byte.
    pub fn new(inner: O) -> NumberedOutput<O>
        requires { O.history inner ≡ nothing_taken }
        ensures transfer { result.plain.history ≡ nothing_taken }
        ensures failures { result.failures ≡ 0 }
        ensures number { result.number ≡ 0 }
    {
        NumberedOutput {
            inner,
            number: 0,
            spot: LineSpot::LineStart,
            failures: 0,
            plain: StdSink::new(PassThrough),
        }
    }

    /// Writes the number of a line if one begins here.
    fn begin(&mut self) -> Result<(), DeviceFault>
        requires { self.old.failures < 2 ^ 64 - 1 }
        ensures on_ok { OnOk result (has_number self.new.spot ≡ true) }
        ensures on_error { OnErr result (self.new.spot ≡ IsBroken) }
        ensures output { OnOk result ((O.history self.new.inner).bytes
            ≡ (O.history self.old.inner).bytes ++ number_at self.old.spot self.old.number) }
        ensures number { self.new.number ≡ self.old.number }
        ensures plain { self.new.plain ≡ self.old.plain }
        ensures failures { self.new.failures ≡ self.old.failures + failures_in result }
    {
        match self.spot {
            LineSpot::Ahead | LineSpot::Inside => Ok(()),
            LineSpot::Broken => {
                self.failures += 1;
                Err(DeviceFault)
            }
            LineSpot::LineStart => self.put_number(),
        }
    }

    /// Writes the number of the line that begins here.
    fn put_number(&mut self) -> Result<(), DeviceFault>
        requires line_start { self.old.spot ≡ LineStart }
        requires no_overflow { self.old.failures < 2 ^ 64 - 1 }
        ensures on_ok { OnOk result (has_number self.new.spot ≡ true) }
        ensures on_error { OnErr result (self.new.spot ≡ IsBroken) }
        ensures output { OnOk result ((O.history self.new.inner).bytes
            ≡ (O.history self.old.inner).bytes ++ (decimal self.old.number ++ codes ": ")) }
        ensures number { self.new.number ≡ self.old.number }
        ensures plain { self.new.plain ≡ self.old.plain }
        ensures failures { self.new.failures ≡ self.old.failures + failures_in result }
    {
        let number = [Piece::Number(self.number), Piece::Bytes(b": ")];
        match put_pieces(&mut self.inner, &number) {
            Ok(()) => {
                self.spot = LineSpot::Ahead;
                Ok(())
            }
            Err(fault) => {
                self.failures += 1;
                self.spot = LineSpot::Broken;
                Err(fault)
            }
        }
    }

    /// Writes bytes of one line, whose number is already written, and returns the number of bytes that were taken.
    fn take(&mut self, line: &[u8]) -> Result<usize, DeviceFault>
        requires no_overflow { self.old.failures < 2 ^ 64 - 1 }
        requires start { has_number self.old.spot ≡ true }
        requires non_empty { 0 < length line.now }
        requires line { (k : ℕ) → k < length line.now → is_in_text true (take k line.now) ≡ true }
        ensures count { IfOk result (λ n. n ≤ length line.now) }
        ensures bytes { IfOk result (λ n. self.new.plain.history.bytes ≡ self.old.plain.history.bytes
            ++ take n line.now) }
        ensures no_bytes { OnErr result (self.new.plain.history.bytes ≡ self.old.plain.history.bytes) }
        ensures output { IfOk result (λ n. (O.history self.new.inner).bytes
            ≡ (O.history self.old.inner).bytes ++ take n line.now) }
        ensures number { self.new.number ≡ self.old.number }
        ensures failures { self.new.failures ≡ self.old.failures + write_failures_in result (length line.now) }
    {
        let Ok(taken) = self.inner.write(line) else {
            self.failures += 1;
            return Err(DeviceFault);
        };
        if taken == 0 {
            self.failures += 1;
            return Ok(0);
        }
        self.spot = spot_behind(line[taken - 1]);
        self.plain.write(&line[..taken])
    }
}

impl<O: Output> Sink for NumberedOutput<O> {
    ghost history = { λ s. record { bytes = s.plain.history.bytes; failures = s.failures } };

    /// Writes the bytes up to the end of their first line. If they begin a new line, writes the line's number before
    /// them.
    fn write(&mut self, bytes: &[u8]) -> Result<usize, DeviceFault>
        requires { self.old.failures < 2 ^ 64 - 1 }
        ensures count { IfOk result (λ n. n ≤ length bytes.now) }
        ensures bytes { IfOk result (λ n. self.new.plain.history.bytes ≡ self.old.plain.history.bytes
            ++ take n bytes.now) }
        ensures no_bytes { OnErr result (self.new.plain.history.bytes ≡ self.old.plain.history.bytes) }
        ensures failures { self.new.failures ≡ self.old.failures + write_failures_in result (length bytes.now) }
        ensures output { 0 < length bytes.now → IfOk result (λ n. (O.history self.new.inner).bytes
            ≡ ((O.history self.old.inner).bytes ++ number_at self.old.spot self.old.number) ++ take n bytes.now) }
        ensures number { self.new.number ≡ self.old.number }
    {
        if bytes.is_empty() {
            return Ok(0);
        }
        self.begin()?;
        let count = line_length(bytes);
        self.take(&bytes[..count])
    }
}

impl<O: Output> Output for NumberedOutput<O> {
    ghost flushes = { λ old ok new. O.flushes old.inner ok new.inner × (new.number ≡ old.number) };

    fn flush(&mut self) -> Result<(), DeviceFault> {
        self.inner.flush()
    }
}

impl<O: Output> LineOutput for NumberedOutput<O> {
    ghost turns = { λ old new. (new.number ≡ min (old.number + 1) (2 ^ 64 - 1)) × (new.inner ≡ old.inner) };

    fn next_line(&mut self) {
        self.number = self.number.saturating_add(1);
    }
}
