//! The stretches of a run on air, packet by packet.

ghost use Rattle.std.specs.Prelude.{◌≡◌, ℕ, List, [], ◌∷◌, ◌++◌, true, false, Option, None, OnOk};
ghost use Rattle.ts_packet.specs.Fields.{marked};
ghost use Rattle.program_follower.specs.declared.purpose.Purpose.{Purpose};
ghost use Rattle.on_air.specs.Stretches.{Entry, as_read, with_next};
ghost use Rattle.on_air.specs.Marking.{Keeps};
ghost use Rattle.on_air.specs.AirRuns.{AirStands, Counted, newest, unjudged_in};
ghost use Rattle.on_air.specs.Plain.{IsPlain, IsToldPlain};
ghost use Rattle.on_air.specs.Tails.{TailOf};
ghost use Rattle.on_air.specs.AirOutputs.{IsOnAir, BeganAnew, sum_of};
ghost use Rattle.chain_engine.specs.Airing.{Aired, judged, unjudged, Stretch, WentOnAir, total};

use crate::marks::{Marks, Verdict};
use crate::report::AirReport;
use crate::tail::MapTail;
use crate::watch::{AirWatch, Begun};
use chain_engine::{AirStage, StretchEnd};
use psi_tables::NetworkFault;
use ts_packet::{Packet, PacketSink, PutFault};

/// What is known of a run on air: of its stretch, and of those before it.
#[derive(Drop)]
pub(crate) struct Air<R> {
    marks: Marks,
    tail: MapTail,
    /// The stretch has no packet yet.
    is_empty: bool,
    /// How many packets have come; the count stops at the greatest u64.
    packets: u64,
    /// What the stretches that ended counted, summed; `None` before the first end.
    ended: Option<R>,
    stretches: u64,
    lost: u64,
    unjudged: u64,
}

impl<R: Copy + Drop> Air<R> {
    /// No packet has come.
    pub(crate) fn new() -> Air<R>
        ensures plain { IsPlain result [] }
        ensures stands { (c : Purpose) → AirStands result c [] }
        ensures none { result.marks.has_any ≡ false }
        ensures tail { (c : Purpose) → TailOf result.tail c [] }
        ensures ended { result.ended ≡ None }
    {
        Air {
            marks: Marks::new(),
            tail: MapTail::new(),
            is_empty: true,
            packets: 0,
            ended: None,
            stretches: 0,
            lost: 0,
            unjudged: 0,
        }
    }

    /// Takes a packet that is judged.
    #[inline(always)]
    pub(crate) fn take<S: AirStage<Report = R>>(&mut self, stage: &S, packet: &Packet)
        ensures plain { (ps : List (List ℕ)) (p : List ℕ) → IsPlain self.old ps → IsPlain self.new (ps ++ p ∷ []) }
        ensures counted { Counted self.old self.new true }
        ensures tail { (c : Purpose) (read : List (List ℕ)) → S.follows stage.now c read → TailOf self.old.tail c read
            → TailOf self.new.tail c (packet.now ∷ read) }
        ensures ended { self.new.ended ≡ self.old.ended }
    {
        if self.is_empty {
            self.is_empty = false;
            self.stretches = self.stretches.saturating_add(1);
        }
        self.packets = self.packets.saturating_add(1);
        self.tail.follow(stage, packet);
    }

    /// Passes the next packet on, whatever is wrong with it.
    pub(crate) fn pass<S: AirStage<Report = R>, K: PacketSink, A: AirWatch>(
        &mut self,
        stage: &mut S,
        packet: &Packet,
        out: &mut K,
        watch: &mut A,
    ) -> Result<(), PutFault>
        ensures stage { S.Stage.leads stage.old stage.new }
        ensures leads { K.leads out.old out.new }
        ensures stands { (c : Purpose) (ss : List (List Entry)) → AirStands self.old c ss → S.follows stage.old c (as_read (newest ss))
            → OnOk result (AirStands self.new c (with_next c packet.now ss)
            × S.follows stage.new c (as_read (newest (with_next c packet.now ss)))) }
        ensures out { (first : S) (c : Purpose) (ss : List (List Entry)) (start : Option (List ℕ)) (before : List (List ℕ))
            → AirStands self.old c ss → S.follows stage.old c (as_read (newest ss))
            → IsOnAir S.summed (S.airs first) self.old stage.old c ss (λ l. K.holds out.old start (before ++ l))
            → OnOk result (IsOnAir S.summed (S.airs first) self.new stage.new c (with_next c packet.now ss)
            (λ l. K.holds out.new start (before ++ l))) }
    {
        match self.marks.judge(stage, packet) {
            Verdict::Judged => self.pass_judged(stage, packet, out),
            Verdict::Unjudged => self.pass_unjudged(stage, packet, out, watch),
            Verdict::BeginsAnew(_) if self.is_empty => self.pass_unjudged(
                stage, packet, out, watch,
            ),
            Verdict::BeginsAnew(fault) => {
                self.begin_anew(stage, packet, fault, out, watch)?;
                if self.marks.judge(stage, packet).is_judged() {
                    self.pass_judged(stage, packet, out)
                } else {
                    self.pass_unjudged(stage, packet, out, watch)
                }
            }
        }
    }

    /// Passes a packet on that is judged.
    #[inline(always)]
    fn pass_judged<S: AirStage<Report = R>, K: PacketSink>(
        &mut self,
        stage: &mut S,
        packet: &Packet,
        out: &mut K,
    ) -> Result<(), PutFault>
        ensures stage { S.Stage.leads stage.old stage.new }
        ensures leads { K.leads out.old out.new }
        ensures counted { Counted self.old self.new true }
        ensures follows { (c : Purpose) (past : List (List ℕ)) → S.follows stage.old c past
            → OnOk result (S.follows stage.new c (packet.now ∷ past)) }
        ensures tail { (c : Purpose) (read : List (List ℕ)) → S.follows stage.old c read → TailOf self.old.tail c read
            → TailOf self.new.tail c (packet.now ∷ read) }
        ensures ended { self.new.ended ≡ self.old.ended }
        ensures airs { (first : S) (ended : List Stretch) (last : List Aired) (told : List R) (qs : List (List ℕ)) (start : Option (List ℕ))
            (before : List (List ℕ)) → S.airs first ended last told qs stage.old → K.holds out.old start (before ++ qs)
            → OnOk result (WentOnAir (S.airs first ended (judged packet.now ∷ last) told) stage.new (λ l. K.holds out.new start (before ++ l))) }
    {
        self.take(stage, packet);
        stage.pass_judged(packet, out)
    }

    /// Passes a packet on that is left unjudged.
    fn pass_unjudged<S: AirStage<Report = R>, K: PacketSink, A: AirWatch>(
        &mut self,
        stage: &mut S,
        packet: &Packet,
        out: &mut K,
        watch: &mut A,
    ) -> Result<(), PutFault>
        ensures stage { S.Stage.leads stage.old stage.new }
        ensures leads { K.leads out.old out.new }
        ensures counted { Counted self.old self.new false }
        ensures follows { (c : Purpose) (past : List (List ℕ)) → S.follows stage.old c past
            → OnOk result (S.follows stage.new c (marked packet.now ∷ past)) }
        ensures tail { (c : Purpose) (read : List (List ℕ)) → TailOf self.old.tail c read
            → TailOf self.new.tail c (marked packet.now ∷ read) }
        ensures ended { self.new.ended ≡ self.old.ended }
        ensures airs { (first : S) (ended : List Stretch) (last : List Aired) (told : List R) (qs : List (List ℕ)) (start : Option (List ℕ))
            (before : List (List ℕ)) → S.airs first ended last told qs stage.old → K.holds out.old start (before ++ qs)
            → OnOk result (WentOnAir (S.airs first ended (unjudged packet.now ∷ last) told) stage.new (λ l. K.holds out.new start (before ++ l))) }
    {
        if self.is_empty {
            self.is_empty = false;
            self.stretches = self.stretches.saturating_add(1);
        }
        watch.unjudged(self.packets);
        self.packets = self.packets.saturating_add(1);
        self.unjudged = self.unjudged.saturating_add(1);
        stage.pass_unjudged(packet, out)
    }

    /// Ends the stretch, and begins one anew before this packet.
    fn begin_anew<S: AirStage<Report = R>, K: PacketSink, A: AirWatch>(
        &mut self,
        stage: &mut S,
        packet: &Packet,
        fault: NetworkFault,
        out: &mut K,
        watch: &mut A,
    ) -> Result<(), PutFault>
        ensures stage { S.Stage.leads stage.old stage.new }
        ensures leads { K.leads out.old out.new }
        ensures marks { (c : Purpose) → Keeps self.new.marks c [] }
        ensures counts { (self.new.is_empty ≡ true) × (self.new.stretches ≡ self.old.stretches) × (self.new.unjudged ≡ self.old.unjudged) }
        ensures follows { (c : Purpose) (past : List (List ℕ)) → S.follows stage.old c past → S.follows stage.new c [] }
        ensures tail { (c : Purpose) → OnOk result (TailOf self.new.tail c []) }
        ensures out { (first : S) (c : Purpose) (read : List (List ℕ)) (ended : List Stretch) (last : List Aired) (told : List R)
            (qs : List (List ℕ)) (start : Option (List ℕ)) (before : List (List ℕ)) → TailOf self.old.tail c read
            → self.old.ended ≡ sum_of S.summed told → S.airs first ended last told qs stage.old → K.holds out.old start (before ++ qs)
            → OnOk result (BeganAnew S.summed (S.airs first) self.new stage.new c read ended last qs
            (λ l. K.holds out.new start (before ++ l))) }
    {
        let StretchEnd { report, lost } = stage.begin_anew();
        let ended = match &self.ended {
            None => report,
            Some(ended) => S::sum(ended, &report),
        };
        self.ended = Some(ended);
        self.lost = self.lost.saturating_add(lost);
        self.marks = Marks::new();
        self.is_empty = true;
        self.tail.put(out)?;
        self.tail = MapTail::new();
        watch.begun(&Begun {
            stretch: self.stretches.saturating_add(1),
            packet: self.packets,
            pid: packet.pid(),
            fault,
        });
        Ok(())
    }

    /// What is told at the end, where the last stretch counted this.
    pub(crate) fn told<S: AirStage<Report = R>>(&self, report: R) -> AirReport<R>
        ensures plain { (ps : List (List ℕ)) → IsPlain self.now ps → IsToldPlain result ps report }
        ensures told { (result.stretches ≡ self.now.stretches) × (result.unjudged ≡ self.now.unjudged) }
        ensures summed { (told : List R) → self.now.ended ≡ sum_of S.summed told → result.report ≡ total S.summed report told }
    {
        AirReport {
            report: match &self.ended {
                None => report,
                Some(ended) => S::sum(ended, &report),
            },
            stretches: self.stretches,
            lost: self.lost,
            unjudged: self.unjudged,
        }
    }
}
