//! Readers and writers in memory: they give or take a few bytes at a time, and fail if they are told to.
ghost use Rattle.std.specs.Prelude.{◌≡◌, ◌<◌, [], false, IfOk, vec_len};
ghost use Rattle.raw_region.specs.Device.{ReaderHistory, WriterHistory};

use raw_region::{DeviceFault, History, Sink, Source};
use std::alloc::{AllocError, Global};
use std::marker::Model;

/// What a device does after its last byte.
#[derive(Clone, Copy)]
pub enum EndBehaviour {
    /// A reader ends; a writer takes 0.
    Ends,
    /// Each further call is an error.
    Fails,
}

/// A reader of the given bytes, at most `piece` of them a read. Its history counts the ends that it answered.
#[derive(Drop)]
pub struct MemorySource<'a> {
    rest: &'a [u8],
    piece: usize,
    last: EndBehaviour,
    ended: bool,
    failures: u64,
    history: History,
}

impl<'a> Model for MemorySource<'a> {
    ghost use Rattle.raw_region.specs.Device.{ReaderHistory};

    ghost Value = { ReaderHistory };

    ghost view = { λ r. record {
      bytes = r.history.bytes;
      ended = r.ended;
      ends = r.history.count;
      failures = r.failures;
    } };
}

impl<'a> MemorySource<'a> {
    /// Makes a reader of the bytes, which gives at most `piece` of them a read.
    pub fn new(bytes: &'a [u8], piece: usize, last: EndBehaviour) -> MemorySource<'a>
        ensures { result ≡ record { bytes = []; ended = false; ends = 0; failures = 0 } }
    {
        MemorySource {
            rest: bytes,
            piece,
            last,
            ended: false,
            failures: 0,
            history: History::new(),
        }
    }
}

impl Source for MemorySource<'_> {
    ghost history = { λ r. r };

    fn read(&mut self, into: &mut [u8]) -> Result<usize, DeviceFault> {
        let count = into.len().min(self.rest.len()).min(self.piece);
        let asked = !into.is_empty();
        if asked {
            if count == 0 && matches!(self.last, EndBehaviour::Fails) {
                self.failures += 1;
                self.ended = false;
                return Err(DeviceFault);
            }
            self.ended = count == 0;
        }
        into[..count].copy_from_slice(&self.rest[..count]);
        self.rest = &self.rest[count..];
        self.history
            .record(&into[..count], u64::from(asked && count == 0));
        Ok(count)
    }
}

/// A writer with room for some bytes, which takes at most `piece` of them a write.
#[derive(Drop)]
pub struct MemorySink {
    buffer: Vec<u8>,
    len: usize,
    piece: usize,
    last: EndBehaviour,
    failures: u64,
    history: History,
}

impl Model for MemorySink {
    ghost use Rattle.std.specs.Prelude.{◌≡◌, ◌≤◌, take, vec_len};
    ghost use Rattle.raw_region.specs.Device.{WriterHistory};

    ghost Value = { WriterHistory };

    ghost view = { λ w. record { bytes = w.history.bytes; failures = w.failures } };

    ghost invariant = { λ w. (w.len ≤ vec_len w.buffer) × (w.history.bytes ≡ take w.len w.buffer.items) };
}

impl MemorySink {
    /// Makes a writer with room for `capacity` bytes, which takes at most `piece` of them a write, or `AllocError`.
    pub fn new(
        alloc: Global,
        capacity: usize,
        piece: usize,
        last: EndBehaviour,
    ) -> Result<MemorySink, AllocError>
        ensures { IfOk result (λ w. w ≡ record { bytes = []; failures = 0 }) }
    {
        let buffer = Vec::from_elem(alloc, 0u8, capacity)?;
        Ok(MemorySink {
            buffer,
            len: 0,
            piece,
            last,
            failures: 0,
            history: History::new(),
        })
    }

    /// Returns all that it took so far.
    pub fn taken(&self) -> &[u8]
        ensures { result.now ≡ self.now.bytes }
    {
        &self.buffer.as_slice()[..self.len]
    }
}

impl Sink for MemorySink {
    ghost history = { λ w. w };

    fn write(&mut self, bytes: &[u8]) -> Result<usize, DeviceFault> {
        let capacity = self.buffer.len() - self.len;
        let count = bytes.len().min(capacity).min(self.piece);
        if count == 0 && !bytes.is_empty() {
            self.failures += 1;
            return match self.last {
                EndBehaviour::Ends => Ok(0),
                EndBehaviour::Fails => Err(DeviceFault),
            };
        }
        let end = self.len + count;
        self.buffer.as_mut_slice()[self.len..end].copy_from_slice(&bytes[..count]);
        self.len = end;
        self.history.record(&bytes[..count], 0);
        Ok(count)
    }
}
