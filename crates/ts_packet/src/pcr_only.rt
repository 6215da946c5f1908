//! What is left of a packet where only its program clock reference is wanted.

ghost use Rattle.std.specs.Prelude.{◌≡◌, ◌<◌, option_map, IfSome};
ghost use Rattle.ts_packet.specs.Fields.{pcr, pid_of};
ghost use Rattle.ts_packet.specs.Clock.{clock_packet, KeepsClock};

use crate::packet::Packet;

/// A packet without payload that has the packet's PID and program clock reference, and this continuity_counter, below 16;
/// `None` where the packet has no program clock reference (ISO/IEC 13818-1, 2.4.3.5, PCR_flag).
pub fn pcr_only(packet: &Packet, counter: u8) -> Option<Packet>
    requires { counter < 16 }
    ensures value { result ≡ option_map (clock_packet (pid_of packet.now) counter) (pcr packet.now) }
    ensures law { IfSome result (λ p. KeepsClock packet.now p counter) }
{
    let clock = packet.pcr()?;
    Some(Packet::of_clock(packet.pid(), counter, clock))
}
