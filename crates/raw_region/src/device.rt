//! The readers and writers of the crates above. Contracts see every byte that they return or accept, and count each
//! failure.
ghost use Rattle.std.specs.Prelude.{◌≡◌, ◌+◌, ◌-◌, ◌^◌, ◌<◌, ◌≤◌, ◌++◌, length, take, IfOk, OnErr};
ghost use Rattle.raw_region.specs.Answers.{answers_end, falls_short, ends_in, ends_short, AppendsProperPrefix};
ghost use Rattle.raw_region.specs.Answers.{failures_in, write_failures_in};
ghost use Rattle.raw_region.specs.Device.{ReaderHistory, WriterHistory, Writes};

use thiserror::Error;

/// The error of a reader or a writer. A writer also fails if it accepts none of some bytes.
#[derive(Debug, Drop, Error)]
#[error("the device failed")]
pub struct DeviceFault;

/// A reader.
pub trait Source {
    // Its past: all bytes that it returned, and the number of reads that failed. It also tells whether the last read
    // into a non-empty slice met the end, and how many such reads did.
    ghost history: { Self → ReaderHistory };

    /// Reads into the front of the slice and returns the number of bytes. 0 for a non-empty slice is the end. A failed
    /// read returns no byte.
    fn read(&mut self, into: &mut [u8]) -> Result<usize, DeviceFault>
        requires { (history self.old).failures < 2 ^ 64 - 1 }
        ensures count { IfOk result (λ n. n ≤ length into.new) }
        ensures bytes { IfOk result (λ n. (history self.new).bytes ≡ (history self.old).bytes ++ take n into.new) }
        ensures no_bytes { OnErr result ((history self.new).bytes ≡ (history self.old).bytes) }
        ensures end { 0 < length into.old → (history self.new).ended ≡ answers_end result }
        ensures same_end { length into.old ≡ 0 → (history self.new).ended ≡ (history self.old).ended }
        ensures ends { (history self.new).ends ≡ (history self.old).ends + ends_in result (length into.old) }
        ensures failures { (history self.new).failures ≡ (history self.old).failures + failures_in result };
}

/// A writer.
pub trait Sink {
    // Its past: all bytes that it accepted, and the number of writes that failed.
    ghost history: { Self → WriterHistory };

    /// Writes a front of the slice and returns the number of bytes. It fails if it accepts no byte of a non-empty
    /// slice. A failed write accepts no byte.
    fn write(&mut self, bytes: &[u8]) -> Result<usize, DeviceFault>
        requires { (history self.old).failures < 2 ^ 64 - 1 }
        ensures count { IfOk result (λ n. n ≤ length bytes.now) }
        ensures bytes { IfOk result (λ n. (history self.new).bytes ≡ (history self.old).bytes ++ take n bytes.now) }
        ensures no_bytes { OnErr result ((history self.new).bytes ≡ (history self.old).bytes) }
        ensures failures { (history self.new).failures
            ≡ (history self.old).failures + write_failures_in result (length bytes.now) };
}

/// Writes all the bytes. If the writer fails, a front of the bytes is written.
pub fn write_all<S: Sink>(sink: &mut S, bytes: &[u8]) -> Result<(), DeviceFault>
    requires { (S.history sink.old).failures < 2 ^ 64 - 1 }
    ensures { Writes (S.history sink.old) (S.history sink.new) result bytes.now }
{
    let mut written = 0;
    'pieces: while written < bytes.len() {
        let count = sink.write(&bytes[written..])?;
        if count == 0 {
            return Err(DeviceFault);
        }
        written += count;
    }
    Ok(())
}

/// Reads until the slice is full or the reader is at its end, and returns the number of bytes. It makes no read after
/// the end. If a read fails, it returns the error.
pub fn read_full<S: Source>(source: &mut S, into: &mut [u8]) -> Result<usize, DeviceFault>
    requires { (S.history source.old).failures < 2 ^ 64 - 1 }
    ensures count { IfOk result (λ n. n ≤ length into.new) }
    ensures bytes { IfOk result (λ n. (S.history source.new).bytes ≡ (S.history source.old).bytes ++ take n into.new) }
    ensures on_error { OnErr result
        (AppendsProperPrefix (S.history source.old).bytes (S.history source.new).bytes into.new) }
    ensures end { 0 < length into.old → (S.history source.new).ended ≡ falls_short result (length into.old) }
    ensures same_end { length into.old ≡ 0 → (S.history source.new).ended ≡ (S.history source.old).ended }
    ensures ends { (S.history source.new).ends ≡ (S.history source.old).ends + ends_short result (length into.old) }
    ensures failures { (S.history source.new).failures ≡ (S.history source.old).failures + failures_in result }
{
    let mut filled = 0;
    'pieces: while filled < into.len() {
        let count = source.read(&mut into[filled..])?;
        if count == 0 {
            return Ok(filled);
        }
        filled += count;
    }
    Ok(filled)
}
