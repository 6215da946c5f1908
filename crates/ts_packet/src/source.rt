//! What packets are read from.

use crate::packet::Packet;
use crate::reader::ReadFault;

/// What packets are read from, one after another: the bytes of a device, or a text that spells them. After a fault it answers
/// `Failed`, and nothing of it changes any more.
pub trait PacketSource {
    ghost use Rattle.std.specs.Prelude.{◌≡◌, ℕ, ◌+◌, ◌^◌, ◌<◌, ◌≤◌, List, Option, Bool, true, false, Ok, Err, cond, is_err, IfOk, IfErr};
    ghost use Rattle.ts_packet.specs.declared.reader.ReadFault.TheVariants.{Turns, Failed};
    ghost use Rattle.ts_packet.specs.declared.tally.Tally.{Tally};
    ghost use Rattle.ts_packet.specs.Sources.{GivesInto, Refuses, SourceCounts, SourceBlamed};

    /// The bytes of the packets that it will give, with those behind them that are none, where they are known.
    ghost left: { Self → Option (List ℕ) };

    /// What its device counts.
    ghost counts: { Self → Tally };

    /// How many packets it has given.
    ghost given: { Self → ℕ };

    /// It has answered a fault.
    ghost is_broken: { Self → Bool };

    /// Its device has told the end behind the last packet that it gave, and is asked no more.
    ghost has_ended: { Self → Bool };

    /// The second is the first after some reads.
    ghost leads: { Self → Self → Type 0 };

    /// The second is the first after reads of fewer bytes than a packet takes.
    ghost falls_short: { Self → Self → Type 0 };

    /// How many calls of its device the read between these two states takes at most.
    ghost most_calls: { Self → Self → ℕ } = { λ s t. 2 ^ 20 };

    /// It has given the end, and all that it was to count is counted.
    ghost is_spent: { Self → Type 0 } = { λ s. Unit {0} };

    /// Reads the next packet into the slot, where there is one; false at the end. What a fault or the end leaves in the slot is
    /// open.
    fn read_packet(&mut self, packet: &mut Packet) -> Result<bool, ReadFault>
        ensures leads { leads self.old self.new }
        ensures ok { IfOk result (λ more. GivesInto (left self.old) (left self.new) more packet.new) }
        ensures err { IfErr result (λ f. Refuses (is_broken self.old) (left self.old) f) }
        ensures counts { IfOk result (λ more. SourceCounts more (has_ended self.old) (has_ended self.new)
            (counts self.old) (counts self.new)) }
        ensures blamed { IfErr result (λ f. (has_ended self.old ≡ false)
            × SourceBlamed f (given self.old) (counts self.old) (counts self.new)) }
        ensures short { result ≡ Err Turns → falls_short self.old self.new }
        ensures given { IfOk result (λ more. (is_broken self.old ≡ false)
            × (given self.new ≡ given self.old + cond more 1 0)) }
        ensures none { IfErr result (λ _. given self.new ≡ given self.old) }
        ensures counted { IfOk result (λ _. given self.new < 2 ^ 64) }
        ensures few { (counts self.new).calls ≤ (counts self.old).calls + most_calls self.old self.new }
        ensures end { result ≡ Ok false → is_spent self.new }
        ensures broken { is_broken self.new ≡ is_err result }
        ensures spent { is_broken self.old ≡ true → (result ≡ Err Failed) × (self.new ≡ self.old) };

    ghost leads_refl: { (s : Self) → leads s s };

    ghost leads_trans: { (s t u : Self) → leads s t → leads t u → leads s u };
}
