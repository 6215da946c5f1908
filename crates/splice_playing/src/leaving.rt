//! The units that are left out of the switched streams, packet by packet.

ghost use Rattle.std.specs.Prelude.{◌≡◌, ◌≢◌, ◌<◌, ◌∷◌, ℕ, List, true, false, not, slice_index_or};
ghost use Rattle.ts_packet.specs.Fields.{on, payload_on};
ghost use Rattle.ts_packet.specs.Duplicates.{original};
ghost use Rattle.unit_stream.specs.Times.{begins};
ghost use Rattle.splice_playing.specs.Leaving.{HasTaken};

use ts_packet::{Follower, Packet, Pid};

/// Tells the duplicates among the packets of a unit that is left out. It keeps a copy of the last one with payload.
#[derive(Clone, Copy, Debug)]
pub(crate) struct LeavingUnit {
    follower: Follower,
    last: Packet,
}

impl LeavingUnit {
    /// No packet was taken.
    pub(crate) fn new() -> LeavingUnit {
        LeavingUnit {
            follower: Follower::new(Pid::of_bits(0, 0)),
            last: Packet::null(),
        }
    }

    /// Takes the first packet of a unit, and forgets the unit before.
    fn begin(&mut self, packet: &Packet)
        ensures { (pid : ℕ) (past : List (List ℕ)) → begins pid packet.now past ≡ true →
            HasTaken self.new pid (packet.now ∷ past) }
    {
        self.follower = Follower::new(packet.pid());
        self.follower.take(packet, &self.last);
        self.last = *packet;
    }

    /// Takes a later payload packet of the unit, and answers whether it is a duplicate of the one before it.
    fn is_repeat(&mut self, packet: &Packet) -> bool
        ensures takes { (pid : ℕ) (past : List (List ℕ)) → payload_on pid packet.now ≡ true → HasTaken self.old pid past →
            HasTaken self.new pid (packet.now ∷ past) }
        ensures answer { (pid : ℕ) (past : List (List ℕ)) → payload_on pid packet.now ≡ true → HasTaken self.old pid past →
            result ≡ not (original pid packet.now past) }
    {
        let is_original = self.follower.take(packet, &self.last);
        self.last = *packet;
        !is_original
    }
}

/// Takes a packet of the unit that is left out of the stream of this number, and answers whether it is a duplicate. `is_start` says that
/// the unit begins with it.
pub(crate) fn is_repeat_in(
    units: &mut [LeavingUnit; 8],
    number: usize,
    packet: &Packet,
    is_start: bool,
) -> bool
    requires { number < 8 }
    ensures others { (i : ℕ) (u : LeavingUnit) → i ≢ number → slice_index_or units.new i u ≡ slice_index_or units.old i u }
    ensures takes { (u : LeavingUnit) (pid : ℕ) (past : List (List ℕ)) →
        on pid packet.now ≡ true → is_start ≡ begins pid packet.now past →
        (is_start ≡ false → HasTaken (slice_index_or units.old number u) pid past) →
        HasTaken (slice_index_or units.new number u) pid (packet.now ∷ past) }
    ensures answer { (u : LeavingUnit) (pid : ℕ) (past : List (List ℕ)) →
        payload_on pid packet.now ≡ true → is_start ≡ begins pid packet.now past →
        (is_start ≡ false → HasTaken (slice_index_or units.old number u) pid past) →
        result ≡ not (original pid packet.now past) }
{
    if is_start {
        units[number].begin(packet);
        return false;
    }
    if !packet.has_payload() {
        return false;
    }
    units[number].is_repeat(packet)
}
