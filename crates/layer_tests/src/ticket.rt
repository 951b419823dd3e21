//! A caller's own plain type, for the tests.
ghost use Rattle.std.specs.Prelude.{◌≡◌, nat_lt, refl, Some};
ghost use Rattle.std.proofs.Common.{lit≤};
ghost use Rattle.layer_tests.specs.Tickets.{rank, ticket_bytes, is_number, said_number, said_urgent};
ghost use Rattle.layer_tests.specs.Tickets as laws;

use seg_types::Plain;

/// A ticket of a queue, in three bytes: whether it is urgent, and its number. Urgent ones come first.
#[derive(Clone, Copy, PartialEq)]
pub struct Ticket {
    pub urgent: bool,
    pub number: u16,
}

impl Ticket {
    /// Returns an urgent ticket.
    pub fn urgent(number: u16) -> Ticket {
        Ticket {
            urgent: true,
            number,
        }
    }

    /// Returns a ticket that is not urgent.
    pub fn plain(number: u16) -> Ticket {
        Ticket {
            urgent: false,
            number,
        }
    }

    /// Returns the urgent ones by their numbers, and then the others.
    fn place(self) -> u32
        ensures { result ≡ rank self.urgent self.number }
    {
        let group = if self.urgent { 0 } else { 65536 };
        group + u32::from(self.number)
    }
}

impl Plain for Ticket {
    const SIZE: u64 = 3;

    const CODE: u32 = 200;

    ghost SIZE = { 3 };

    ghost CODE = { 200 };

    ghost is_value = { λ t. is_number t.number };

    ghost spelling = { λ t. ticket_bytes t.urgent t.number };

    ghost reading = { λ b. Some (record { urgent = said_urgent b; number = said_number b }) };

    ghost order = { λ s t. nat_lt (rank s.urgent s.number) (rank t.urgent t.number) };

    fn write(self, to: &mut [u8]) {
        let [low, high] = self.number.to_le_bytes();
        to.copy_from_slice(&[u8::from(self.urgent), low, high]);
    }

    fn read(from: &[u8]) -> Option<Ticket> {
        let urgent = match from[0] {
            0 => false,
            1 => true,
            _ => return None,
        };
        let number = u16::from_le_bytes([from[1], from[2]]);
        Some(Ticket { urgent, number })
    }

    fn precedes(self, other: Ticket) -> bool {
        self.place() < other.place()
    }

    ghost sizes = { (lit≤ tt, lit≤ tt) };

    ghost spells = { λ t h. refl };

    ghost reads = { λ t h. let same = laws.ticket_reads t.urgent t.number h
        in λ j. Some (record { urgent = same.0 j; number = same.1 j }) };

    ghost differs = { λ s t h k e. let same = laws.ticket_differs s.urgent t.urgent s.number t.number h k e
        in λ j. record { urgent = same.0 j; number = same.1 j } };

    ghost irreflexive = { λ t. laws.ticket_irreflexive (rank t.urgent t.number) };

    ghost transitive = { λ s t u. laws.ticket_transitive (rank s.urgent s.number) (rank t.urgent t.number)
        (rank u.urgent u.number) };

    ghost total = { λ s t h k e f. let same = laws.ticket_total s.urgent t.urgent s.number t.number h k e f
        in λ j. record { urgent = same.0 j; number = same.1 j } };
}
