//! A caller's own plain type: a time of day in two bytes.
ghost use Rattle.std.specs.Prelude.{◌≡◌, ◌&&◌, nat_lt, refl, Some};
ghost use Rattle.std.proofs.Common.{lit≤};
ghost use Rattle.examples.specs.Times.{are_bytes, time_rank, said_hour, said_minute, time_bytes};
ghost use Rattle.examples.specs.Times as laws;

use zaluxhoni::Plain;

/// A time of day. Earlier ones come first.
#[derive(Clone, Copy, Debug, PartialEq)]
pub struct Time {
    pub hour: u8,
    pub minute: u8,
}

impl Time {
    /// Returns the time of this hour and minute.
    pub fn at(hour: u8, minute: u8) -> Time {
        Time { hour, minute }
    }
}

impl Plain for Time {
    const SIZE: u64 = 2;

    const CODE: u32 = 300;

    ghost SIZE = { 2 };

    ghost CODE = { 300 };

    ghost is_value = { λ t. are_bytes t.hour t.minute };

    ghost spelling = { λ t. time_bytes t.hour t.minute };

    ghost reading = { λ b. Some (record { hour = said_hour b; minute = said_minute b }) };

    ghost order = { λ s t. nat_lt (time_rank s.hour s.minute) (time_rank t.hour t.minute) };

    fn write(self, to: &mut [u8]) {
        to.copy_from_slice(&[self.hour, self.minute]);
    }

    fn read(from: &[u8]) -> Option<Time> {
        Some(Time {
            hour: from[0],
            minute: from[1],
        })
    }

    fn precedes(self, other: Time) -> bool {
        (self.hour, self.minute) < (other.hour, other.minute)
    }

    ghost sizes = { (lit≤ tt, lit≤ tt) };

    ghost spells = { λ t h. refl };

    ghost reads = { λ t h. refl };

    ghost differs = { λ s t h k e. let same = laws.time_differs s.hour t.hour s.minute t.minute e
        in λ j. record { hour = same.0 j; minute = same.1 j } };

    ghost irreflexive = { λ t. laws.time_irreflexive (time_rank t.hour t.minute) };

    ghost transitive = { λ s t u. laws.time_transitive (time_rank s.hour s.minute) (time_rank t.hour t.minute)
        (time_rank u.hour u.minute) };

    ghost total = { λ s t h k e f. let same = laws.time_total s.hour t.hour s.minute t.minute h k e f
        in λ j. record { hour = same.0 j; minute = same.1 j } };
}
