//! How many bytes of values may be read of an image, so that objects that claim one storage do not multiply the work.
ghost use Rattle.std.specs.Prelude.{◌≡◌, ◌+◌, ◌≤◌, None, IfSome};
ghost use Rattle.segment_salvage.specs.Work.{max_work};

/// How many bytes of values are read for each byte of an image, at most. The values of a sound image share no byte, so
/// they have fewer bytes than the image.
const TIMES: u64 = 4;

/// The bytes of values that may still be read of an image.
#[derive(Drop)]
pub(crate) struct Allowance {
    /// How many bytes are left.
    pub left: u64,
    /// Whether more bytes were wanted than were left, since this was set to false.
    pub is_exceeded: bool,
}

impl Allowance {
    /// Returns the bytes of values that may be read of an image.
    pub(crate) fn of(image: &[u8]) -> Allowance
        ensures { result.left ≤ max_work image.now }
    {
        Allowance {
            left: (image.len() as u64).saturating_mul(TIMES),
            is_exceeded: false,
        }
    }

    /// Takes `bytes` bytes of those that are left, or returns `None` if fewer are left.
    pub(crate) fn take(&mut self, bytes: u64) -> Option<()>
        ensures on_ok { IfSome result (λ _. self.new.left + bytes ≡ self.old.left) }
        ensures refused { result ≡ None → self.new.left ≡ self.old.left }
    {
        if bytes > self.left {
            self.is_exceeded = true;
            return None;
        }
        self.left -= bytes;
        Some(())
    }
}
