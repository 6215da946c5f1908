//! What takes packets.

use crate::packet::Packet;
use thiserror::Error;

/// Why a packet was not taken whole.
#[derive(Clone, Copy, Debug, PartialEq, Eq, Drop, Error)]
pub enum PutFault {
    /// The device failed in this call.
    #[error("the output failed")]
    Io,
    /// The device took no byte in this call, or a list is full.
    #[error("the output takes no more")]
    Stuck,
    /// 2^20 writes did not take the packet.
    #[error("too many writes for one packet")]
    Turns,
    /// The sink has answered a fault before.
    #[error("the output has failed before")]
    Failed,
}

/// Takes packets, one after another. After a fault it answers `Failed`, and nothing of it changes any more.
pub trait PacketSink {
    ghost use Rattle.std.specs.Prelude.{◌≡◌, ◌∷◌, [], ◌++◌, ℕ, List, Option, Bool, true, Err, OnOk, IfErr, is_err};
    ghost use Rattle.ts_packet.specs.declared.sink.PutFault.{PutFault};
    ghost use Rattle.ts_packet.specs.declared.sink.PutFault.TheVariants.{Failed};
    ghost use Rattle.ts_packet.specs.declared.tally.Tally.{Tally};
    ghost use Rattle.ts_packet.specs.Transfers.{WentWell};
    ghost use Rattle.ts_packet.specs.Sinks.{Later, Blamed};

    /// Behind what was known of its device first, the sink stands for this list of packets.
    ghost holds: { Self → Option (List ℕ) → List (List ℕ) → Type 0 };

    /// It stood for this list, and the put of this packet failed so.
    ghost fails: { Self → Option (List ℕ) → List (List ℕ) → List ℕ → PutFault → Type 0 };

    /// It has answered a fault.
    ghost is_broken: { Self → Bool };

    /// What the device below it counts.
    ghost counts: { Self → Tally };

    /// It takes no packet more.
    ghost is_full: { Self → Bool };

    /// The second is the first after some puts.
    ghost leads: { Self → Self → Type 0 };

    /// Takes the packet behind those before it.
    fn put(&mut self, packet: &Packet) -> Result<(), PutFault>
        ensures leads { leads self.old self.new }
        ensures ok { (start : Option (List ℕ)) (ps : List (List ℕ)) → holds self.old start ps
            → OnOk result (holds self.new start (ps ++ packet.now ∷ [])) }
        ensures err { (start : Option (List ℕ)) (ps : List (List ℕ)) → holds self.old start ps
            → IfErr result (λ f. fails self.new start ps packet.now f) }
        ensures well { OnOk result (WentWell (counts self.old) (counts self.new)) }
        ensures blamed { IfErr result (λ f. Blamed f (counts self.old) (counts self.new) (is_full self.new)) }
        ensures broken { is_broken self.new ≡ is_err result }
        ensures spent { is_broken self.old ≡ true → (result ≡ Err Failed) × (self.new ≡ self.old) };

    ghost leads_refl: { (s : Self) → leads s s };

    ghost leads_trans: { (s t u : Self) → leads s t → leads t u → leads s u };

    ghost leads_later: { (s t : Self) → leads s t → Later (counts s) (counts t) };

    ghost leads_full: { (s t : Self) → leads s t → is_full s ≡ true → is_full t ≡ true };

    ghost leads_spent: { (s t : Self) → leads s t → is_broken s ≡ true → t ≡ s };
}
