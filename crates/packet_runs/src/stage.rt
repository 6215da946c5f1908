//! What is done with each packet on its way from a source to a sink.

use ts_packet::{Packet, PacketSink, PutFault};

/// Why a stage did not pass a packet on.
#[derive(Clone, Copy, Debug, PartialEq, Eq, Drop)]
pub enum StageFault<N> {
    /// What is wrong with the packet, behind those before it: nothing of it was put.
    Packet(N),
    /// The sink failed.
    Sink(PutFault),
}

/// What is done with each packet of a run, and at its end. What it says of itself it says by a state before the run, the first, and a later
/// one, and by the packets that came between them.
pub trait Stage {
    ghost use Rattle.std.specs.Prelude.{◌≡◌, ℕ, List, ◌++◌, Bool, true, Option, OnOk, IfOk, IfErr};
    ghost use Rattle.ts_packet.specs.Sinks.{Blamed};
    ghost use Rattle.ts_packet.specs.Transfers.{WentWell};
    ghost use Rattle.ts_packet.specs.Runs.{Seen};
    ghost use Rattle.packet_runs.specs.Stages.{Went, Ended, StepFails, FinishFails, StepBlamed, kept_by};

    /// What may be wrong with a packet.
    type Refusal: Copy + Drop;

    /// What is told of a run that went through.
    type Report: Drop;

    /// What is wrong with a packet, behind those before it.
    ghost refusal: { Self → Seen → Option Self.Refusal };

    /// Between these states it was given these packets, in order, and sent these; and this is the packet that it keeps.
    ghost sends: { Self → List (List ℕ) → List (List ℕ) → List ℕ → Self → Type 0 };

    /// Between these states it was given these packets, sent these, and then refused this packet.
    ghost refuses: { Self → List (List ℕ) → List (List ℕ) → List ℕ → Self → Type 0 };

    /// Between these states it was given these packets, and then the next one, or the end; it sent these, and then the sink was to take this
    /// packet and failed.
    ghost breaks: { Self → List (List ℕ) → Option (List ℕ) → List (List ℕ) → List ℕ → Self → Type 0 };

    /// Between these states it was given these packets and the end, sent these, and told this.
    ghost ends: { Self → List (List ℕ) → List (List ℕ) → Self.Report → Self → Type 0 };

    /// The second is the first after some packets.
    ghost leads: { Self → Self → Type 0 };

    /// It may put something at the end.
    ghost puts_rest: { Bool };

    /// Takes the next packet, and puts what goes out for it. `kept` is the packet that it asked to keep last, as it left it, and any packet
    /// where it has asked for none: it copies none. Whether this packet is to be kept in its place.
    ///
    /// # Errors
    ///
    /// `Packet` with what is wrong with the packet: nothing was put then. `Sink` where the sink failed: it has a front of what the packet sends.
    fn step<K: PacketSink>(
        &mut self,
        packet: &mut Packet,
        kept: &Packet,
        out: &mut K,
    ) -> Result<bool, StageFault<Self::Refusal>>
        ensures stage { leads self.old self.new }
        ensures leads { K.leads out.old out.new }
        ensures ok { (first : Self) (ps qs : List (List ℕ)) (start : Option (List ℕ)) (before : List (List ℕ))
            → sends first ps qs kept.now self.old → K.holds out.old start (before ++ qs)
            → IfOk result (λ keeps. Went sends refusal first ps packet.old (kept_by keeps packet.new kept.now) self.new
            (λ l. K.holds out.new start (before ++ l))) }
        ensures err { (first : Self) (ps qs : List (List ℕ)) (start : Option (List ℕ)) (before : List (List ℕ))
            → sends first ps qs kept.now self.old → K.holds out.old start (before ++ qs)
            → IfErr result (λ f. StepFails refusal refuses breaks f first ps packet.old self.new
            (λ l. K.holds out.new start (before ++ l)) (λ l. K.fails out.new start (before ++ l))) }
        ensures well { OnOk result (WentWell (K.counts out.old) (K.counts out.new)) }
        ensures blamed { IfErr result (λ f. StepBlamed f (K.counts out.old) (K.counts out.new) (K.is_full out.new)) };

    /// Puts what is left at the end, and reports. No packet is taken any more.
    ///
    /// # Errors
    ///
    /// The sink's: it has a front of what was left.
    fn finish<K: PacketSink>(&mut self, out: &mut K) -> Result<Self::Report, PutFault>
        ensures stage { leads self.old self.new }
        ensures leads { K.leads out.old out.new }
        ensures ok { (first : Self) (ps qs : List (List ℕ)) (kept : List ℕ) (start : Option (List ℕ)) (before : List (List ℕ))
            → sends first ps qs kept self.old → K.holds out.old start (before ++ qs)
            → IfOk result (λ report. Ended ends first ps report self.new (λ l. K.holds out.new start (before ++ l))) }
        ensures err { (first : Self) (ps qs : List (List ℕ)) (kept : List ℕ) (start : Option (List ℕ)) (before : List (List ℕ))
            → sends first ps qs kept self.old → K.holds out.old start (before ++ qs)
            → IfErr result (λ f. FinishFails breaks f first ps self.new (λ l. K.fails out.new start (before ++ l))) }
        ensures well { OnOk result (WentWell (K.counts out.old) (K.counts out.new)) }
        ensures blamed { IfErr result (λ f. Blamed f (K.counts out.old) (K.counts out.new) (K.is_full out.new)) }
        ensures rest { IfErr result (λ _. puts_rest ≡ true) };

    ghost leads_refl: { (s : Self) → leads s s };

    ghost leads_trans: { (s t u : Self) → leads s t → leads t u → leads s u };
}
