//! The units of one PID, piece by piece.

ghost use Rattle.std.specs.Prelude.{◌≡◌, ℕ, List, [], ◌∷◌};

use ts_packet::{Follower, Packet, Pid};

/// What a packet brings to the units of its PID (ISO/IEC 13818-1, 2.4.3.6: a unit is one PES packet).
#[derive(Clone, Copy, Debug)]
pub enum Piece<'a> {
    /// A unit begins, with this payload.
    Start { payload: &'a [u8] },
    /// The unit that has begun last goes on with this payload.
    More { payload: &'a [u8] },
    /// A duplicate of the payload packet before it. It belongs to no unit.
    Duplicate,
    /// A packet without payload, or of another PID.
    NoPayload,
    /// A payload packet before the first unit start. It belongs to no unit.
    Lead,
    /// A packet that is marked in error.
    Error,
}

/// Reads the units of one PID, one packet at a time, and copies none: its caller keeps the PID's last payload packet where it lies,
/// until the next one has been fed, and may change its continuity_counter. [`UnitReader`] keeps a copy of its own.
#[derive(Clone, Copy, Debug)]
pub struct UnitFollower {
    pid: Pid,
    follower: Follower,
    has_begun: bool,
}

impl UnitFollower {
    ghost use Rattle.ts_packet.specs.Following.{kept_after};
    ghost use Rattle.unit_stream.specs.Pieces.{FollowsUnits, OfUnits, Brings, HasPayload};

    /// A follower of this PID that has seen no packet.
    pub fn new(pid: Pid) -> UnitFollower
        ensures { (kept : List ℕ) → FollowsUnits result kept pid [] }
    {
        UnitFollower {
            pid,
            follower: Follower::new(pid),
            has_begun: false,
        }
    }

    /// What the next packet brings. `kept` is the PID's last payload packet, with whatever continuity_counter, and any packet where
    /// there was none.
    #[inline(always)]
    pub fn feed<'a>(&mut self, packet: &'a Packet, kept: &Packet) -> Piece<'a>
        ensures reads { OfUnits self.old kept.now (λ pid past.
            FollowsUnits self.new (kept_after pid packet.now packet.now kept.now) pid (packet.now ∷ past)) }
        ensures brings { OfUnits self.old kept.now (λ pid past. Brings result pid packet.now past) }
        ensures payload { HasPayload result packet.now }
    {
        if packet.error() {
            return Piece::Error;
        }
        if !packet.is_on(self.pid) {
            return Piece::NoPayload;
        }
        let Some(payload) = packet.payload() else {
            return Piece::NoPayload;
        };
        if !self.follower.take(packet, kept) {
            return Piece::Duplicate;
        }
        if packet.unit_start() {
            self.has_begun = true;
            return Piece::Start { payload };
        }
        if self.has_begun {
            Piece::More { payload }
        } else {
            Piece::Lead
        }
    }
}

/// Reads the units of one PID, one packet at a time. The joined payloads of a `Start` and the `More`s that follow it are the unit.
#[derive(Clone, Copy, Debug)]
pub struct UnitReader {
    units: UnitFollower,
    last: Packet,
}

impl UnitReader {
    ghost use Rattle.unit_stream.specs.Pieces.{Reads, OfReader, Brings, HasPayload};

    /// A reader of this PID that has seen no packet.
    pub fn new(pid: Pid) -> UnitReader
        ensures { Reads result pid [] }
    {
        UnitReader {
            units: UnitFollower::new(pid),
            last: Packet::null(),
        }
    }

    /// What the next packet brings.
    #[inline(always)]
    pub fn feed<'a>(&mut self, packet: &'a Packet) -> Piece<'a>
        ensures reads { OfReader self.old (λ pid past. Reads self.new pid (packet.now ∷ past)) }
        ensures brings { OfReader self.old (λ pid past. Brings result pid packet.now past) }
        ensures payload { HasPayload result packet.now }
    {
        let piece = self.units.feed(packet, &self.last);
        match piece {
            Piece::Error | Piece::NoPayload => {}
            _ => self.last = *packet,
        }
        piece
    }
}
