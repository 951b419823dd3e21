//! What a file of the system gives that is read: its bytes, or those of the image that it stands for with its log.
ghost use Rattle.std.specs.Prelude.{◌≡◌, Some};
ghost use Rattle.segment_disk.specs.HostReaders.{left_of};

use crate::image_reader::ImageReader;
use std::fs::File;
use std::io::{self, Read};

/// A file of the system that was opened for reading.
#[derive(Drop)]
pub enum HostReader {
    /// It has no log.
    Plain(File),
    /// It has one: the image that both stand for.
    Recovered(ImageReader),
}

impl HostReader {
    /// Makes a reader of an image that was recovered.
    pub(crate) fn recovered(image: Vec<u8>) -> HostReader
        ensures { left_of result ≡ Some image.items }
    {
        HostReader::Recovered(ImageReader::new(image))
    }
}

impl Read for HostReader {
    ghost remaining = { left_of };

    fn read(&mut self, into: &mut [u8]) -> io::Result<usize> {
        match self {
            HostReader::Plain(file) => file.read(into),
            HostReader::Recovered(image) => image.read(into),
        }
    }
}
