//! The begins of the units of one PID.

ghost use Rattle.std.specs.Prelude.{◌≡◌, ℕ, List, [], ◌∷◌, true};
ghost use Rattle.ts_packet.specs.Fields.{unit_start, payload_on};

use ts_packet::{Follower, Packet, Pid};

/// Tells where the units of one PID begin, one packet at a time. It copies a packet with the start bit alone: no other one is repeated by
/// a packet that could begin a unit.
#[derive(Clone, Copy, Debug)]
pub struct StartReader {
    pid: Pid,
    follower: Follower,
    last: Packet,
}

impl StartReader {
    ghost use Rattle.unit_stream.specs.Starts.{ReadsStarts, OfStarts, IsBegin};

    /// A reader of this PID that has seen no packet.
    pub fn new(pid: Pid) -> StartReader
        ensures { ReadsStarts result pid [] }
    {
        StartReader {
            pid,
            follower: Follower::new(pid),
            last: Packet::null(),
        }
    }

    /// The payload of the first packet of a unit, where the next packet is that; `None` where it begins no unit of the PID.
    #[inline(always)]
    pub fn feed<'a>(&mut self, packet: &'a Packet) -> Option<&'a [u8]>
        ensures reads { OfStarts self.old (λ pid past. ReadsStarts self.new pid (packet.now ∷ past)) }
        ensures begins { OfStarts self.old (λ pid past. IsBegin result pid packet.now past) }
    {
        if !packet.has_payload_on(self.pid) {
            return None;
        }
        self.take(packet)
    }

    /// Takes the next payload packet of the PID as `feed` does, and does not look whether it is one: for callers who know.
    #[inline(always)]
    pub fn take<'a>(&mut self, packet: &'a Packet) -> Option<&'a [u8]>
        ensures reads { OfStarts self.old (λ pid past. payload_on pid packet.now ≡ true
            → ReadsStarts self.new pid (packet.now ∷ past)) }
        ensures begins { OfStarts self.old (λ pid past. payload_on pid packet.now ≡ true
            → IsBegin result pid packet.now past) }
    {
        if packet.unit_start() {
            return self.take_start(packet);
        }
        self.follower = Follower::new(self.pid);
        None
    }

    /// The payload of the first packet of a unit, where the next payload packet of the PID is that; `None` where it begins no unit. It is not
    /// taken, and nothing is copied.
    #[inline(always)]
    pub fn look<'a>(&self, packet: &'a Packet) -> Option<&'a [u8]>
        ensures { OfStarts self.now (λ pid past. payload_on pid packet.now ≡ true → IsBegin result pid packet.now past) }
    {
        if !packet.unit_start() {
            return None;
        }
        let mut follower = self.follower;
        let is_original = follower.take(packet, &self.last);
        if is_original { packet.payload() } else { None }
    }

    /// Takes a payload packet of the PID that has the start bit. It stands by itself, as few packets have that.
    #[inline(never)]
    fn take_start<'a>(&mut self, packet: &'a Packet) -> Option<&'a [u8]>
        requires { unit_start packet.now ≡ true }
        ensures reads { OfStarts self.old (λ pid past. payload_on pid packet.now ≡ true
            → ReadsStarts self.new pid (packet.now ∷ past)) }
        ensures begins { OfStarts self.old (λ pid past. payload_on pid packet.now ≡ true
            → IsBegin result pid packet.now past) }
    {
        let is_original = self.follower.take(packet, &self.last);
        self.last = *packet;
        if is_original { packet.payload() } else { None }
    }
}
