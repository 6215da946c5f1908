//! The continuity counters of a PID whose packets are partly left out, with others put in.

ghost use Rattle.std.specs.Prelude.{◌≡◌, ◌<◌, ◌+◌, ◌%◌, List, [], ◌∷◌, true, is_some};
ghost use Rattle.ts_packet.specs.Fields.{number, payload};

use crate::packet::Packet;

/// Numbers the packets of one PID on their way out (ISO/IEC 13818-1, 2.4.3.3, continuity_counter).
#[derive(Clone, Copy, Debug, PartialEq, Eq, Drop)]
pub struct Counter {
    /// By how much the counters of the way in are moved up.
    shift: u8,
    /// The counter of a packet put in next.
    upcoming: u8,
    ghost shift_below: { shift < 16 },
    ghost upcoming_below: { upcoming < 16 },
}

impl Counter {
    ghost use Rattle.ts_packet.specs.Numbering.{Step, Kept, Dropped, Inserted, Counts, number_out, last_number, one_past};

    /// The counter of a PID on which nothing happened.
    pub fn new() -> Counter
        ensures { Counts result [] }
    {
        Counter {
            shift: 0,
            upcoming: 0,
        }
    }

    /// The packet goes out: its continuity_counter there. A packet without payload is moved like the others.
    #[inline(always)]
    pub fn kept(&mut self, packet: &Packet) -> u8
        ensures counts { (steps : List Step) → Counts self.old steps → Counts self.new (Kept packet.now ∷ steps) }
        ensures number { (steps : List Step) → Counts self.old steps → result ≡ number_out packet.now steps }
        ensures below { result < 16 }
    {
        let number = self.moved(packet);
        if packet.has_payload() {
            self.upcoming = (number + 1) % 16;
        }
        number
    }

    /// The packet, which has a payload, is left out: the continuity_counter of a packet without payload that goes out in its place,
    /// as one that carries its program clock reference.
    pub fn dropped(&mut self, packet: &Packet) -> u8
        requires { is_some (payload packet.now) ≡ true }
        ensures counts { (steps : List Step) → Counts self.old steps → Counts self.new (Dropped packet.now ∷ steps) }
        ensures number { (steps : List Step) → Counts self.old steps
            → result ≡ number_out packet.now (Dropped packet.now ∷ steps) }
        ensures below { result < 16 }
    {
        self.shift = (self.shift + 15) % 16;
        let replacement = self.moved(packet);
        self.upcoming = (replacement + 1) % 16;
        replacement
    }

    /// The packet's counter, moved up.
    #[inline(always)]
    fn moved(&self, packet: &Packet) -> u8
        ensures { result ≡ (number packet.now + self.now.shift) % 16 }
    {
        (packet.counter() + self.shift) % 16
    }

    /// A payload packet is put in: its continuity_counter, one past that at the last payload packet, or 0 where there was none.
    pub fn fresh(&mut self) -> u8
        ensures counts { (steps : List Step) → Counts self.old steps → Counts self.new (Inserted ∷ steps) }
        ensures number { (steps : List Step) → Counts self.old steps → result ≡ one_past (last_number steps) }
        ensures below { result < 16 }
    {
        let number = self.upcoming;
        self.shift = (self.shift + 1) % 16;
        self.upcoming = (number + 1) % 16;
        number
    }
}
