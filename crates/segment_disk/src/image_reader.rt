//! A reader of an image that lies in memory.
ghost use Rattle.std.specs.Prelude.{◌≡◌, ◌≤◌, Some, drop, length};

use std::io::{self, Read};

/// Gives the bytes of an image that lies in memory, from the first on.
#[derive(Drop)]
pub struct ImageReader {
    image: Vec<u8>,
    /// How many bytes it gave.
    at: usize,
    ghost in_bounds: { at ≤ length image.items },
}

impl Read for ImageReader {
    ghost remaining = { λ r. Some (drop r.at r.image.items) };

    fn read(&mut self, into: &mut [u8]) -> io::Result<usize> {
        let mut rest = &self.image[self.at..];
        let count = rest.read(into)?;
        self.at += count;
        Ok(count)
    }
}

impl ImageReader {
    /// Makes a reader that gave nothing yet.
    pub(crate) fn new(image: Vec<u8>) -> ImageReader
        ensures image { result.image ≡ image }
        ensures start { result.at ≡ 0 }
    {
        ImageReader { image, at: 0 }
    }
}
