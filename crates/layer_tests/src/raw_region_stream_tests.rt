//! Readers and writers of std as sources and sinks.
use crate::checks::{holds, same};
use raw_region::std_io::{StdSink, StdSource};
use raw_region::{Sink, Source, write_all};
use std::io::{self, ErrorKind, Read, Write};

/// Gives two bytes, is interrupted, gives two more and ends. It counts how often it is asked.
#[derive(Drop)]
struct Counting {
    asked: u64,
}

impl Read for Counting {
    fn read(&mut self, into: &mut [u8]) -> io::Result<usize> {
        self.asked = self.asked.wrapping_add(1);
        let bytes = match self.asked {
            1 => b"ab",
            2 => return Err(io::Error::from(ErrorKind::Interrupted)),
            3 => b"cd",
            _ => return Ok(0),
        };
        let count = into.len().min(2);
        into[..count].copy_from_slice(&bytes[..count]);
        Ok(count)
    }
}

/// Takes two bytes a write, but is interrupted the second time and takes none after the third. It keeps
/// what it took, and counts how often it is asked.
#[derive(Drop)]
struct Keeping {
    asked: u64,
    kept: [u8; 4],
}

impl Write for Keeping {
    fn write(&mut self, bytes: &[u8]) -> io::Result<usize> {
        self.asked = self.asked.wrapping_add(1);
        let from = match self.asked {
            1 => 0,
            2 => return Err(io::Error::from(ErrorKind::Interrupted)),
            3 => 2,
            _ => return Ok(0),
        };
        let count = bytes.len().min(2);
        self.kept[from..from + count].copy_from_slice(&bytes[..count]);
        Ok(count)
    }

    fn flush(&mut self) -> io::Result<()> {
        Ok(())
    }
}

#[test]
fn each_read_asks_the_reader_once(rt: HostRuntime) {
    let mut reader = Counting { asked: 0 };
    let mut into = *b"........";
    let mut source = StdSource::new(&mut reader);
    same(&rt, source.read(&mut into[..4]).ok(), Some(2));
    same(&rt, source.read(&mut into[2..]).ok(), None);
    same(&rt, source.read(&mut into[2..]).ok(), Some(2));
    same(&rt, source.read(&mut into[4..]).ok(), Some(0));
    same(&rt, into.as_slice(), b"abcd....".as_slice());
    same(&rt, reader.asked, 4);
}

#[test]
fn each_write_asks_the_writer_once(rt: HostRuntime) {
    let mut writer = Keeping {
        asked: 0,
        kept: [0; 4],
    };
    let mut sink = StdSink::new(&mut writer);
    same(&rt, sink.write(b"abc").ok(), Some(2));
    same(&rt, sink.write(b"cd").ok(), None);
    same(&rt, sink.write(b"cd").ok(), Some(2));
    same(&rt, sink.write(b"e").ok(), Some(0));
    same(&rt, writer.kept.as_slice(), b"abcd".as_slice());
    same(&rt, writer.asked, 4);
}

#[test]
fn what_is_not_taken_is_asked_once(rt: HostRuntime) {
    let mut writer = Keeping {
        asked: 3,
        kept: [0; 4],
    };
    let mut sink = StdSink::new(&mut writer);
    holds(&rt, write_all(&mut sink, b"e").is_err());
    same(&rt, writer.asked, 4);
}
