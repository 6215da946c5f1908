//! Packets and null packets.

ghost use Rattle.std.specs.Prelude.{◌≡◌, [], ◌∷◌};
ghost use Rattle.stream_facts.specs.Counting.{Counts, OfCounted, is_null};

use ts_packet::{Packet, Pid};

/// How many packets there were, and how many null packets among them.
#[derive(Clone, Copy, Debug)]
pub struct PacketCounts {
    pub(crate) packets: u64,
    pub(crate) nulls: u64,
}

impl PacketCounts {
    /// None yet.
    pub(crate) fn new() -> PacketCounts
        ensures { Counts result [] }
    {
        PacketCounts {
            packets: 0,
            nulls: 0,
        }
    }

    /// One more.
    pub(crate) fn add(&mut self, packet: &Packet)
        ensures { OfCounted self.old (λ past. Counts self.new (packet.now ∷ past)) }
    {
        self.packets = self.packets.saturating_add(1);
        if is_null(packet) {
            self.nulls = self.nulls.saturating_add(1);
        }
    }
}

/// Whether a packet is a null packet: its PID is 0x1FFF.
fn is_null(packet: &Packet) -> bool
    ensures { result ≡ is_null packet.now }
{
    packet.is_on(Pid::of_bits(0x1F, 0xFF))
}
