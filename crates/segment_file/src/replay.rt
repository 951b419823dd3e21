//! A reader that gives the front of an image again.
ghost use Rattle.std.specs.Prelude.{◌≡◌, ◌≤◌, ◌<◌, false, length};
ghost use Rattle.raw_region.specs.Device.{AppendsBytes};
ghost use Rattle.segment_file.specs.ReadingOn.{IsReadUpTo, replayed};

use image_check::FRONT;
use raw_region::{DeviceFault, Source};

/// A reader of which the first 24 bytes were read. It gives them again, and then the bytes that follow. Its history
/// begins with these bytes.
pub(crate) struct Replay<S: Source> {
    pub(crate) inner: S,
    pub(crate) front: [u8; FRONT],
    /// How many bytes of the front were given again.
    pub(crate) given: usize,
    ghost in_bounds: { given ≤ 24 },
    ghost len: { length front ≡ 24 },
    ghost start: { given < 24 → IsReadUpTo (S.history inner) front false },
    ghost contents: { AppendsBytes front (S.history inner).bytes },
}

impl<S: Source> Replay<S> {
    /// Makes a reader that gives these 24 bytes again, and no more was read of it.
    pub(crate) fn new(inner: S, text: &[u8]) -> Replay<S>
        requires front { length text.now ≡ 24 }
        requires start { IsReadUpTo (S.history inner) text.now false }
        ensures inner { result.inner ≡ inner }
        ensures front { result.front ≡ text.now }
        ensures count { result.given ≡ 0 }
    {
        let mut front = [0; FRONT];
        front.copy_from_slice(text);
        Replay {
            inner,
            front,
            given: 0,
        }
    }

    /// Returns the reader.
    pub(crate) fn into_inner(self) -> S
        ensures { result ≡ self.inner }
    {
        let Replay {
            inner,
            front: _,
            given: _,
        } = self;
        inner
    }
}

impl<S: Source> Source for Replay<S> {
    ghost history = { λ h. record (S.history h.inner) { bytes = replayed h.given h.front (S.history h.inner).bytes } };

    fn read(&mut self, into: &mut [u8]) -> Result<usize, DeviceFault> {
        if self.given == FRONT {
            return self.inner.read(into);
        }
        let count = into.len().min(FRONT - self.given);
        into[..count].copy_from_slice(&self.front[self.given..self.given + count]);
        self.given += count;
        Ok(count)
    }
}
