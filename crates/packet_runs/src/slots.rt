//! The packet that is passed on, and the one that its stage keeps.

ghost use Rattle.std.specs.Prelude.{◌≡◌, ℕ, ◌<◌, ◌+◌, ◌^◌, cond, List, ◌++◌, Option, OnOk, IfOk, IfErr, Ok, Err, is_err, false};
ghost use Rattle.ts_packet.specs.Sources.{GivesInto, Refuses, SourceCounts, SourceBlamed};
ghost use Rattle.ts_packet.specs.Transfers.{WentWell};
ghost use Rattle.packet_runs.specs.Stages.{Went, StepFails, StepBlamed};

use crate::stage::{Stage, StageFault};
use std::mem;
use ts_packet::{Packet, PacketSink, PacketSource, ReadFault};

/// Two packets: one is read anew and passed on, and the other is kept for the stage. They change places where the one that was passed on is
/// to be kept, so that none is copied.
#[derive(Drop)]
pub(crate) struct Slots<'a> {
    next: &'a mut Packet,
    kept: &'a mut Packet,
}

impl<'a> Slots<'a> {
    /// These two packets, of which none has been read.
    pub(crate) fn new(next: &'a mut Packet, kept: &'a mut Packet) -> Slots<'a>
        ensures next { result.next.now ≡ next.old }
        ensures kept { result.kept.now ≡ kept.old }
    {
        Slots { next, kept }
    }

    /// Reads the next packet, as [`PacketSource::read_packet`] does.
    ///
    /// # Errors
    ///
    /// The source's, which answers `Failed` from then on. The packet that is kept stays as it is.
    #[inline(always)]
    pub(crate) fn read<P: PacketSource>(&mut self, network: &mut P) -> Result<bool, ReadFault>
        ensures kept { self.new.kept.now ≡ self.old.kept.now }
        ensures leads { P.leads network.old network.new }
        ensures ok { IfOk result (λ more. GivesInto (P.left network.old) (P.left network.new) more self.new.next.now) }
        ensures err { IfErr result (λ f. Refuses (P.is_broken network.old) (P.left network.old) f) }
        ensures counts { IfOk result (λ more. SourceCounts more (P.has_ended network.old) (P.has_ended network.new)
            (P.counts network.old) (P.counts network.new)) }
        ensures blamed { IfErr result (λ f. (P.has_ended network.old ≡ false)
            × SourceBlamed f (P.given network.old) (P.counts network.old) (P.counts network.new)) }
        ensures short { result ≡ Err ReadFault.Turns → P.falls_short network.old network.new }
        ensures end { result ≡ Ok false → P.is_spent network.new }
        ensures given { IfOk result (λ more. P.given network.new ≡ P.given network.old + cond more 1 0) }
        ensures counted { IfOk result (λ _. P.given network.new < 2 ^ 64) }
        ensures broken { P.is_broken network.new ≡ is_err result }
    {
        network.read_packet(self.next)
    }

    /// Has the stage pass on the packet that was read, and keeps it where the stage asks for that.
    ///
    /// # Errors
    ///
    /// The stage's. Pass no packet on after that.
    #[inline(always)]
    pub(crate) fn pass<S: Stage, K: PacketSink>(
        &mut self,
        stage: &mut S,
        out: &mut K,
    ) -> Result<(), StageFault<S::Refusal>>
        ensures stage { S.leads stage.old stage.new }
        ensures leads { K.leads out.old out.new }
        ensures ok { (first : S) (ps qs : List (List ℕ)) (start : Option (List ℕ)) (before : List (List ℕ))
            → S.sends first ps qs self.old.kept.now stage.old → K.holds out.old start (before ++ qs)
            → OnOk result (Went S.sends S.refusal first ps self.old.next.now self.new.kept.now stage.new
            (λ l. K.holds out.new start (before ++ l))) }
        ensures err { (first : S) (ps qs : List (List ℕ)) (start : Option (List ℕ)) (before : List (List ℕ))
            → S.sends first ps qs self.old.kept.now stage.old → K.holds out.old start (before ++ qs)
            → IfErr result (λ f. StepFails S.refusal S.refuses S.breaks f first ps self.old.next.now stage.new
            (λ l. K.holds out.new start (before ++ l)) (λ l. K.fails out.new start (before ++ l))) }
        ensures well { OnOk result (WentWell (K.counts out.old) (K.counts out.new)) }
        ensures blamed { IfErr result (λ f. StepBlamed f (K.counts out.old) (K.counts out.new) (K.is_full out.new)) }
    {
        match stage.step(self.next, self.kept, out) {
            Ok(is_kept) => {
                if is_kept {
                    mem::swap(&mut self.next, &mut self.kept);
                }
                Ok(())
            }
            Err(fault) => Err(fault),
        }
    }
}
