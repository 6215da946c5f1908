//! Which payload packets of a PID are originals, and which are duplicates.

ghost use Rattle.std.specs.Prelude.{◌≡◌, ℕ, ◌<◌, List, [], ◌∷◌, true};

use crate::packet::Packet;
use crate::pid::Pid;

/// A payload packet, and whether it is a duplicate.
#[derive(Clone, Copy, Debug, PartialEq, Eq, Drop)]
pub struct Last {
    /// The packet.
    pub packet: Packet,

    /// It is a duplicate of the payload packet before it.
    pub is_repeat: bool,
}

/// What is remembered of a payload packet beside what it carries.
#[derive(Clone, Copy, Debug, PartialEq, Eq, Drop)]
pub struct Mark {
    counter: u8,
    is_repeat: bool,
    ghost below: { counter < 16 },
}

impl Mark {
    ghost use Rattle.std.specs.Prelude.{◌==◌, ◌&&◌, not};
    ghost use Rattle.ts_packet.specs.Fields.{number, carries_as};

    /// The packet is the duplicate of the one that is remembered, of which `kept` is kept.
    #[inline(always)]
    fn is_repeated(&self, packet: &Packet, kept: &Packet) -> bool
        ensures { result ≡ (((self.now.counter == number packet.now) && carries_as kept.now packet.now)
            && not self.now.is_repeat) }
    {
        self.counter == packet.counter() && kept.carries_as(packet) && !self.is_repeat
    }
}

/// Follows the payload packets of one PID (ISO/IEC 13818-1, 2.4.3.3, continuity_counter: a packet may be sent twice in a row).
///
/// It copies no packet. Its caller keeps the PID's last payload packet where it lies, until the next one has been fed, and may
/// change its continuity_counter.
#[derive(Clone, Copy, Debug, PartialEq, Eq, Drop)]
pub struct Follower {
    pid: Pid,
    last: Option<Mark>,
}

impl Follower {
    ghost use Rattle.ts_packet.specs.Fields.{payload_on};
    ghost use Rattle.ts_packet.specs.Following.{Follows, OfFollowed, kept_after};
    ghost use Rattle.ts_packet.specs.Duplicates.{original, repeats_last, last_of, follows_on, is_gap};

    /// A follower of this PID, which has met no packet.
    pub fn new(pid: Pid) -> Follower
        ensures { (kept : List ℕ) → Follows result kept pid [] }
    {
        Follower { pid, last: None }
    }

    /// Takes the next packet, of whatever PID, and answers whether it is an original: a payload packet of the PID that is no
    /// duplicate. `kept` is the PID's last payload packet, with whatever counter, and any packet where there was none.
    #[inline(always)]
    pub fn feed(&mut self, packet: &Packet, kept: &Packet) -> bool
        ensures follows { OfFollowed self.old kept.now (λ pid past.
            Follows self.new (kept_after pid packet.now packet.now kept.now) pid (packet.now ∷ past)) }
        ensures answer { OfFollowed self.old kept.now (λ pid past. result ≡ original pid packet.now past) }
    {
        packet.has_payload_on(self.pid) && self.take(packet, kept)
    }

    /// Takes the next payload packet of the PID as `feed` does, and does not look whether it is one: for callers who know.
    #[inline(always)]
    pub fn take(&mut self, packet: &Packet, kept: &Packet) -> bool
        ensures follows { OfFollowed self.old kept.now (λ pid past. payload_on pid packet.now ≡ true
            → Follows self.new packet.now pid (packet.now ∷ past)) }
        ensures answer { OfFollowed self.old kept.now (λ pid past. payload_on pid packet.now ≡ true
            → result ≡ original pid packet.now past) }
    {
        let is_repeat = self.is_repeated(packet, kept);
        self.last = Some(Mark {
            counter: packet.counter(),
            is_repeat,
        });
        !is_repeat
    }

    /// Whether packets of the PID are missing before this one, which is to be fed next: it is an original, and its counter is not
    /// one past that of the payload packet before it. `kept` is as for `feed`.
    #[inline(always)]
    pub fn has_gap(&self, packet: &Packet, kept: &Packet) -> bool
        ensures { OfFollowed self.now kept.now (λ pid past. result ≡ is_gap pid packet.now past) }
    {
        if !packet.has_payload_on(self.pid) {
            return false;
        }
        let is_duplicate = self.is_repeated(packet, kept);
        if is_duplicate {
            return false;
        }
        !self.follows_on(packet)
    }

    /// The packet's counter is one past that of the last payload packet.
    #[inline(always)]
    #[tactic(auto, using(crate::proofs::HistoryLemmas::goes_on, crate::proofs::HistoryLemmas::begins))]
    fn follows_on(&self, packet: &Packet) -> bool
        ensures { (kept : List ℕ) → OfFollowed self.now kept
            (λ pid past. result ≡ follows_on packet.now (last_of pid past)) }
    {
        match &self.last {
            Some(mark) => packet.counter() == (mark.counter + 1) % 16,
            None => true,
        }
    }

    /// The last payload packet says that this one is its duplicate.
    #[inline(always)]
    #[tactic(auto, using(crate::proofs::HistoryLemmas::said, crate::proofs::HistoryLemmas::unsaid))]
    fn is_repeated(&self, packet: &Packet, kept: &Packet) -> bool
        ensures { OfFollowed self.now kept.now (λ pid past. result ≡ repeats_last packet.now (last_of pid past)) }
    {
        match &self.last {
            Some(mark) => mark.is_repeated(packet, kept),
            None => false,
        }
    }
}
