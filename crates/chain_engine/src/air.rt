//! What a run on air needs of its stage: to look at a packet before it is taken, to pass one on unjudged, and to begin anew.

use crate::automation::Automation;
use crate::faults::put_fault;
use crate::inject::InjectorStage;
use crate::report::Report;
use crate::running::ChainStage;
use crate::splice::SwitchStage;
use crate::unjudged::{Restoring, marked, put_unjudged};
use arrayvec::ArrayVec;
use packet_runs::Stage;
use program_follower::UnitStart;
use psi_tables::NetworkFault;
use splice_switch::SwitchReport;
use std::alloc::Allocator;
use ts_packet::{Packet, PacketSink, Pid, PutFault};

/// What is told of a stretch of the network that ended before the last one.
#[derive(Clone, Copy, Debug, PartialEq, Eq, Drop)]
pub struct StretchEnd<R> {
    /// What it counted.
    pub report: R,
    /// The uncancelled events whose end lies past its greatest time.
    pub lost: u64,
}

/// A stage whose packets are those of one program, and that may begin anew behind any of them.
pub trait AirStage: Stage<Refusal = NetworkFault> {
    ghost use Rattle.std.specs.Prelude.{◌≡◌, ◌<◌, ◌&&◌, ℕ, List, [], ◌∷◌, ◌++◌, map, reverse, Option, Some, IfSome, OnOk, IfOk};
    ghost use Rattle.ts_packet.specs.Fields.{marked};
    ghost use Rattle.packet_runs.specs.Stages.{seen_behind};
    ghost use Rattle.program_follower.specs.declared.purpose.Purpose.{Purpose};
    ghost use Rattle.program_follower.specs.Faults.{network_fault, on_cue};
    ghost use Rattle.program_follower.specs.Program.{known_pids, program_of, pids_of, behind_head};
    ghost use Rattle.program_follower.specs.Streaming.{place_in, start_in};
    ghost use Rattle.packet_runs.specs.Stages.{Ended};
    ghost use Rattle.chain_engine.specs.Airing.{Aired, judged, unjudged, Stretch, WentOnAir, EndedOnAir};

    /// It is to follow a program for this purpose.
    ghost begins: { Self → Purpose → Type 0 };

    /// For this purpose it was given these packets since it began, newest first, as they are read: one that is passed on unjudged is read as one
    /// that is marked in error.
    ghost follows: { Self → Purpose → List (List ℕ) → Type 0 };

    /// It tells of a run from this state on what goes out.
    ghost tells_out: { Self → Type 0 };

    /// What two stretches counted, summed.
    ghost summed: { Self.Report → Self.Report → Self.Report };

    /// Between these states these stretches ended, and the last one has these packets, newest first; this was told of those that ended, newest
    /// first; and this was sent for all, with what went out behind those that ended.
    ghost airs: { Self → List Stretch → List Aired → List Self.Report → List (List ℕ) → Self → Type 0 };

    /// So it was, and then the network ended: this was sent in all, and this is told of the last stretch.
    ghost airs_to_end: { Self → List Stretch → List Aired → List Self.Report → List (List ℕ) → Self.Report → Self → Type 0 };

    /// What is wrong with the next packet, behind those since it began. It is not taken, and nothing changes.
    fn look(&self, packet: &Packet) -> Option<NetworkFault>
        ensures sends { (first : Self) (ps qs : List (List ℕ)) (kept : List ℕ) → Self.sends first ps qs kept self.now
            → result ≡ Self.refusal first (seen_behind ps packet.now) }
        ensures follows { (c : Purpose) (past : List (List ℕ)) → follows self.now c past → result ≡ network_fault c packet.now past };

    /// The number of the switched stream that the packet is of, behind the head; `None` where it is of none.
    fn stream_of(&self, packet: &Packet) -> Option<usize>
        ensures below { IfSome result (λ stream. stream < 8) }
        ensures follows { (c : Purpose) (past : List (List ℕ)) → follows self.now c past
            → result ≡ place_in (pids_of (program_of c.program past)) packet.now };

    /// The unit that the next packet, which is of the stream of this number, would begin there, scrambled or not.
    fn start_at(&self, stream: usize, packet: &Packet) -> Option<UnitStart>
        requires { stream < 8 }
        ensures { (c : Purpose) (past : List (List ℕ)) → follows self.now c past
            → Some stream ≡ place_in (pids_of (program_of c.program past)) packet.now
            → result ≡ start_in (pids_of (program_of c.program past)) packet.now (behind_head c.program past) };

    /// The PIDs that are known of the program: that of its map first, once the PAT gave it.
    fn pids(&self) -> ArrayVec<Pid, 9>
        ensures { (c : Purpose) (past : List (List ℕ)) → follows self.now c past → result.items ≡ known_pids c.program past };

    /// The packet is on the PID of the cues that it writes: no packet of the network may be there.
    fn is_cue(&self, packet: &Packet) -> bool
        ensures { (c : Purpose) (past : List (List ℕ)) → follows self.now c past
            → result ≡ (c.writes_cues && on_cue c.cue_pid packet.now) };

    /// Passes the next packet on, of which nothing is wrong, as [`Stage::step`] does.
    ///
    /// # Errors
    ///
    /// The sink's.
    fn pass_judged<K: PacketSink>(&mut self, packet: &Packet, out: &mut K) -> Result<(), PutFault>
        ensures stage { Self.Stage.leads self.old self.new }
        ensures leads { K.leads out.old out.new }
        ensures follows { (c : Purpose) (past : List (List ℕ)) → follows self.old c past
            → OnOk result (follows self.new c (packet.now ∷ past)) }
        ensures airs { (first : Self) (ended : List Stretch) (last : List Aired) (told : List Self.Report) (qs : List (List ℕ))
            (start : Option (List ℕ)) (before : List (List ℕ)) → airs first ended last told qs self.old → K.holds out.old start (before ++ qs)
            → OnOk result (WentOnAir (airs first ended (judged packet.now ∷ last) told) self.new (λ l. K.holds out.new start (before ++ l))) };

    /// Passes the next packet on as it came, but for its continuity_counter: it is read as one that is marked in error, and of no unit.
    ///
    /// # Errors
    ///
    /// The sink's.
    fn pass_unjudged<K: PacketSink>(&mut self, packet: &Packet, out: &mut K) -> Result<(), PutFault>
        ensures stage { Self.Stage.leads self.old self.new }
        ensures leads { K.leads out.old out.new }
        ensures follows { (c : Purpose) (past : List (List ℕ)) → follows self.old c past
            → OnOk result (follows self.new c (marked packet.now ∷ past)) }
        ensures airs { (first : Self) (ended : List Stretch) (last : List Aired) (told : List Self.Report) (qs : List (List ℕ))
            (start : Option (List ℕ)) (before : List (List ℕ)) → airs first ended last told qs self.old → K.holds out.old start (before ++ qs)
            → OnOk result (WentOnAir (airs first ended (unjudged packet.now ∷ last) told) self.new (λ l. K.holds out.new start (before ++ l))) };

    /// Begins anew: nothing more of an advertisement that runs is put. Tells of the packets since it began before.
    fn begin_anew(&mut self) -> StretchEnd<Self::Report>
        ensures stage { Self.Stage.leads self.old self.new }
        ensures follows { (c : Purpose) (past : List (List ℕ)) → follows self.old c past → follows self.new c [] }
        ensures airs { (first : Self) (ended : List Stretch) (last : List Aired) (told : List Self.Report) (qs behind : List (List ℕ))
            → airs first ended last told qs self.old
            → airs first (record { packets = last; behind = behind } ∷ ended) [] (result.report ∷ told) (qs ++ behind) self.new };

    /// Puts what is left at the end of the last stretch, and reports, as [`Stage::finish`] does. No packet is taken any more.
    ///
    /// # Errors
    ///
    /// The sink's.
    fn finish_last<K: PacketSink>(&mut self, out: &mut K) -> Result<Self::Report, PutFault>
        ensures stage { Self.Stage.leads self.old self.new }
        ensures leads { K.leads out.old out.new }
        ensures sends { (first : Self) (ps qs : List (List ℕ)) (kept : List ℕ) (start : Option (List ℕ)) (before : List (List ℕ))
            → Self.Stage.sends first ps qs kept self.old → K.holds out.old start (before ++ qs)
            → IfOk result (λ report. Ended Self.Stage.ends first ps report self.new (λ l. K.holds out.new start (before ++ l))) }
        ensures airs { (first : Self) (ended : List Stretch) (last : List Aired) (told : List Self.Report) (qs : List (List ℕ))
            (start : Option (List ℕ)) (before : List (List ℕ)) → airs first ended last told qs self.old → K.holds out.old start (before ++ qs)
            → IfOk result (λ report. EndedOnAir (airs_to_end first ended last told) self.new report (λ l. K.holds out.new start (before ++ l))) };

    /// What two stretches counted, summed.
    fn sum(one: &Self::Report, other: &Self::Report) -> Self::Report
        ensures { result ≡ summed one.now other.now };

    /// It follows what it was given as a stage.
    ghost sends_follows: { (first : Self) (c : Purpose) (ps qs : List (List ℕ)) (kept : List ℕ) (now : Self)
        → begins first c → Self.Stage.leads first now → Self.Stage.sends first ps qs kept now → follows now c (reverse ps) };

    /// What it sent as a stage is one stretch, whose packets are all judged.
    ghost sends_airs: { (first : Self) (c : Purpose) (ps qs : List (List ℕ)) (kept : List ℕ) (now : Self)
        → tells_out first → begins first c → Self.Stage.leads first now → Self.Stage.sends first ps qs kept now
        → airs first [] (map judged (reverse ps)) [] qs now };
}

impl<M: Allocator, U: Automation> AirStage for ChainStage<'_, M, U> {
    ghost use Rattle.std.proofs.Common.{◌≡◌, length, reverse, ap, sym, subst, ◌∙◌};
    ghost use Rattle.program_follower.specs.Purposes.{writing_cues};
    ghost use Rattle.injector.specs.Injecting.{InjectorStandsFor};
    ghost use Rattle.ad_library.specs.Library.{held};
    ghost use Rattle.chain_engine.specs.Runs.{steps_of, reports_sum, Exchanged};
    ghost use Rattle.chain_engine.specs.Followed.{ChainFollows, run-followed};
    ghost use Rattle.chain_engine.specs.Chained.{ChainAirs, ChainAirsToEnd, chain-airs-first};

    ghost begins = { λ s c. (c ≡ writing_cues s.config.now) × (s.chain.now.service.config ≡ s.config.now) };

    ghost follows = { λ s c past. (c ≡ writing_cues s.config.now) × ChainFollows s.chain.now s.config.now past };

    ghost tells_out = { λ s. Unit {0} };

    ghost summed = { reports_sum };

    ghost airs = { λ first ended last told qs now. (now.config.now ≡ first.chain.now.service.config)
        × (now.library.now ≡ first.library.now)
        × ChainAirs first.chain.now.service.config (held first.library.now) now.chain.now
        (Exchanged U.exchanges U.failures first.automation.now now.automation.now) ended last told qs };

    ghost airs_to_end = { λ first ended last told sent report now. ChainAirsToEnd first.chain.now.service.config (held first.library.now)
        now.chain.now (Exchanged U.exchanges U.failures first.automation.now now.automation.now) ended last told sent report };

    ghost sends_airs = { λ first c ps qs kept now tells b l s. (
      l.1 ∙ sym b.1,
      s.0,
      chain-airs-first first.chain.now.service.config (held first.library.now) now.chain.now
          (Exchanged U.exchanges U.failures first.automation.now now.automation.now) ps qs s.1.run,
    ) };

    ghost sends_follows = { λ first c ps qs kept now b l s.
        let run = s.1.run in
        let same = b.1 ∙ sym l.1 in (
          b.0 ∙ ap writing_cues (sym l.1),
          run-followed now.chain.now now.config.now ps run.ts run.rs run.talks
              (subst (λ d. InjectorStandsFor now.chain.now.service.injector d (steps_of (length run.rs) run.ts (reverse ps))) same run.gone.injector),
        ) };

    #[inline(always)]
    fn look(&self, packet: &Packet) -> Option<NetworkFault> {
        self.chain.service.injector.look(packet)
    }

    fn stream_of(&self, packet: &Packet) -> Option<usize> {
        self.chain.service.injector.stream_of(packet)
    }

    fn start_at(&self, stream: usize, packet: &Packet) -> Option<UnitStart> {
        self.chain.service.injector.start_at(stream, packet)
    }

    fn pids(&self) -> ArrayVec<Pid, 9> {
        self.chain.service.pids()
    }

    fn is_cue(&self, packet: &Packet) -> bool {
        packet.is_on(self.config.cue_pid)
    }

    fn pass_judged<K: PacketSink>(&mut self, packet: &Packet, out: &mut K) -> Result<(), PutFault> {
        self.chain.hear(self.automation);
        match self.chain.service.pass(packet, self.library, out) {
            Ok(()) => Ok(()),
            Err(fault) => Err(put_fault(fault)),
        }
    }

    fn pass_unjudged<K: PacketSink>(
        &mut self,
        packet: &Packet,
        out: &mut K,
    ) -> Result<(), PutFault> {
        self.chain.hear(self.automation);
        self.chain.service.pass_unjudged(packet, self.library, out)
    }

    fn begin_anew(&mut self) -> StretchEnd<Report> {
        let service = &mut self.chain.service;
        let events = service.switch.report(self.library);
        let end = StretchEnd {
            report: Report::of_chain(service.injector.counts(), events),
            lost: service.injector.open_count() as u64,
        };
        service.begin_anew(*self.config);
        end
    }

    fn finish_last<K: PacketSink>(&mut self, out: &mut K) -> Result<Report, PutFault> {
        match self.chain.service.finish(self.library, out) {
            Ok(events) => Ok(Report::of_chain(self.chain.service.counts(), events)),
            Err(fault) => Err(put_fault(fault)),
        }
    }

    fn sum(one: &Report, other: &Report) -> Report {
        one.plus(*other)
    }
}

impl<M: Allocator, U: Automation> AirStage for InjectorStage<'_, M, U> {
    ghost use Rattle.std.proofs.Common.{◌≡◌, length, reverse, ap, sym, subst, ◌∙◌};
    ghost use Rattle.program_follower.specs.Purposes.{writing_cues};
    ghost use Rattle.injector.specs.Injecting.{InjectorStandsFor};
    ghost use Rattle.chain_engine.specs.Runs.{steps_of, reports_sum, Exchanged};
    ghost use Rattle.chain_engine.specs.Followed.{ChainFollows, run-followed};
    ghost use Rattle.chain_engine.specs.Injected.{InjectAirs, InjectAirsToEnd, inject-airs-first};

    ghost begins = { λ s c. (c ≡ writing_cues s.config.now) × (s.chain.now.service.config ≡ s.config.now) };

    ghost follows = { λ s c past. (c ≡ writing_cues s.config.now) × ChainFollows s.chain.now s.config.now past };

    ghost tells_out = { λ s. Unit {0} };

    ghost summed = { reports_sum };

    ghost airs = { λ first ended last told qs now. (now.config.now ≡ first.chain.now.service.config)
        × InjectAirs first.chain.now.service.config now.chain.now
        (Exchanged U.exchanges U.failures first.automation.now now.automation.now) ended last told qs };

    ghost airs_to_end = { λ first ended last told sent report now. InjectAirsToEnd first.chain.now.service.config now.chain.now
        (Exchanged U.exchanges U.failures first.automation.now now.automation.now) ended last told sent report };

    ghost sends_airs = { λ first c ps qs kept now tells b l s. (
      l.1 ∙ sym b.1,
      inject-airs-first first.chain.now.service.config now.chain.now
          (Exchanged U.exchanges U.failures first.automation.now now.automation.now) ps qs s.run,
    ) };

    ghost sends_follows = { λ first c ps qs kept now b l s.
        let run = s.run in
        let same = b.1 ∙ sym l.1 in (
          b.0 ∙ ap writing_cues (sym l.1),
          run-followed now.chain.now now.config.now ps run.ts run.rs run.talks
              (subst (λ d. InjectorStandsFor now.chain.now.service.injector d (steps_of (length run.rs) run.ts (reverse ps))) same run.gone),
        ) };

    #[inline(always)]
    fn look(&self, packet: &Packet) -> Option<NetworkFault> {
        self.chain.service.injector.look(packet)
    }

    fn stream_of(&self, packet: &Packet) -> Option<usize> {
        self.chain.service.injector.stream_of(packet)
    }

    fn start_at(&self, stream: usize, packet: &Packet) -> Option<UnitStart> {
        self.chain.service.injector.start_at(stream, packet)
    }

    fn pids(&self) -> ArrayVec<Pid, 9> {
        self.chain.service.pids()
    }

    fn is_cue(&self, packet: &Packet) -> bool {
        packet.is_on(self.config.cue_pid)
    }

    fn pass_judged<K: PacketSink>(&mut self, packet: &Packet, out: &mut K) -> Result<(), PutFault> {
        self.chain.hear(self.automation);
        match self.chain.service.injector.feed(packet, out) {
            Ok(()) => Ok(()),
            Err(fault) => Err(put_fault(fault)),
        }
    }

    fn pass_unjudged<K: PacketSink>(
        &mut self,
        packet: &Packet,
        out: &mut K,
    ) -> Result<(), PutFault> {
        self.chain.hear(self.automation);
        let mut restoring = Restoring { packet, out };
        match self
            .chain
            .service
            .injector
            .feed(&marked(packet), &mut restoring)
        {
            Ok(()) => Ok(()),
            Err(fault) => Err(put_fault(fault)),
        }
    }

    fn begin_anew(&mut self) -> StretchEnd<Report> {
        let injector = &self.chain.service.injector;
        let end = StretchEnd {
            report: Report::of(injector.counts()),
            lost: injector.open_count() as u64,
        };
        self.chain.service.begin_anew(*self.config);
        end
    }

    /// Nothing is left.
    fn finish_last<K: PacketSink>(&mut self, _out: &mut K) -> Result<Report, PutFault> {
        Ok(Report::of(self.chain.service.injector.counts()))
    }

    fn sum(one: &Report, other: &Report) -> Report {
        one.plus(*other)
    }
}

impl AirStage for SwitchStage<'_> {
    ghost use Rattle.std.proofs.Common.{◌≡◌, reverse, sym, ap, subst, ◌∙◌};
    ghost use Rattle.program_follower.specs.Purposes.{reading_cues};
    ghost use Rattle.ad_library.specs.Library.{held};
    ghost use Rattle.splice_plans.specs.Reporting.{events_sum};
    ghost use Rattle.splice_switch.specs.Standing.{SwitchFollows};
    ghost use Rattle.chain_engine.specs.Switched.{SwitchAirs, SwitchAirsToEnd, switch-airs-first};

    ghost begins = { λ s c. c ≡ reading_cues s.config };

    ghost follows = { λ s c past. (c ≡ reading_cues s.config) × SwitchFollows s.switch c past };

    ghost tells_out = { λ s. Unit {0} };

    ghost summed = { events_sum };

    ghost airs = { λ first ended last told qs now. (now.config ≡ first.config) × (now.library.now ≡ first.library.now)
        × SwitchAirs now.switch first.config (held first.library.now) ended last told qs };

    ghost airs_to_end = { λ first ended last told sent report now.
        SwitchAirsToEnd first.config (held first.library.now) ended last told sent report };

    ghost sends_airs = { λ first c ps qs kept now tells b l s.
        (l, s.0, switch-airs-first now.switch first.config (held first.library.now) ps qs s.1) };

    ghost sends_follows = { λ first c ps qs kept now b l s.
        (b ∙ ap reading_cues (sym l), subst (λ d. SwitchFollows now.switch d (reverse ps)) (sym b) s.1.stands.follower) };

    #[inline(always)]
    fn look(&self, packet: &Packet) -> Option<NetworkFault> {
        self.switch.look(packet)
    }

    fn stream_of(&self, packet: &Packet) -> Option<usize> {
        self.switch.stream_of(packet)
    }

    fn start_at(&self, stream: usize, packet: &Packet) -> Option<UnitStart> {
        self.switch.start_at(stream, packet)
    }

    fn pids(&self) -> ArrayVec<Pid, 9> {
        self.switch.pids()
    }

    fn is_cue(&self, _packet: &Packet) -> bool {
        false
    }

    fn pass_judged<K: PacketSink>(&mut self, packet: &Packet, out: &mut K) -> Result<(), PutFault> {
        match self.switch.feed_with_same(packet, self.library, out) {
            Ok(()) => Ok(()),
            Err(fault) => Err(put_fault(fault)),
        }
    }

    fn pass_unjudged<K: PacketSink>(
        &mut self,
        packet: &Packet,
        out: &mut K,
    ) -> Result<(), PutFault> {
        put_unjudged(&mut self.switch, packet, self.library, out)
    }

    fn begin_anew(&mut self) -> StretchEnd<SwitchReport> {
        let end = StretchEnd {
            report: self.switch.report(self.library),
            lost: self.switch.open_count() as u64,
        };
        self.switch.begin_anew(self.config);
        end
    }

    fn finish_last<K: PacketSink>(&mut self, out: &mut K) -> Result<SwitchReport, PutFault> {
        match self.switch.finish(self.library, out) {
            Ok(report) => Ok(report),
            Err(fault) => Err(put_fault(fault)),
        }
    }

    fn sum(one: &SwitchReport, other: &SwitchReport) -> SwitchReport
        ensures { result ≡ events_sum one.now other.now }
    {
        one.plus(*other)
    }
}
