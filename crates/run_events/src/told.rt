//! A stage that is looked at between its packets.

use crate::cue_tracker::CueTracker;
use crate::occurrence::What;
use crate::stages::{BreakStage, Breaks};
use crate::tracker::{Taken, Tracker};
use crate::watch::{Site, Watch};
use arrayvec::ArrayVec;
use chain_engine::{AirStage, SessionEnd, StretchEnd};
use packet_runs::{Stage, StageFault};
use program_follower::UnitStart;
use psi_tables::NetworkFault;
use ts_packet::{Packet, PacketSink, Pid, PutFault};

/// The most programs of a stage.
const MOST: usize = 8;

/// A stage that does what it does alone, and of which it is told what happens in it. Where nothing is to be told, a packet costs one look
/// more; where something is, it is looked at where a unit begins, and at rest one number is compared there.
#[derive(Drop)]
pub(crate) struct Told<'a, S, W> {
    inner: &'a mut S,
    watch: &'a mut W,
    /// What is known of the whole run.
    sight: &'a mut Sight,
}

/// What is known of a run that is looked at.
#[derive(Drop)]
pub(crate) struct Sight {
    /// Something is to be told.
    is_on: bool,
    /// Each cue is, at its packet.
    is_detailed: bool,
    /// How many packets have come, modulo 2⁶⁴.
    packets: u64,
    /// The stage's count of turns.
    turns: u64,
    /// A program was found in a stretch that is over.
    has_found: bool,
    /// The breaks of each program that a switch plays.
    trackers: ArrayVec<Tracker, MOST>,
    /// Those whose cues go out.
    cues: CueTracker,
}

impl Sight {
    /// Nothing was seen of a stage of so many programs.
    fn new(is_on: bool, is_detailed: bool, programs: usize) -> Sight {
        let mut trackers = ArrayVec::new();
        for _ in 0..programs.min(MOST) {
            let _ = trackers.try_push(Tracker::new(is_detailed));
        }
        Sight {
            is_on,
            is_detailed,
            packets: 0,
            turns: 0,
            has_found: false,
            trackers,
            cues: CueTracker::new(),
        }
    }

    /// Nothing was seen of this stage, of which this one is told.
    pub(crate) fn of<S: BreakStage, W: Watch>(stage: &S, watch: &W) -> Sight {
        Sight::new(watch.is_on(), watch.is_detailed(), stage.count())
    }

    /// Looks at all programs of a stage.
    fn look_at_all<S: BreakStage, W: Watch>(&mut self, stage: &S, taken: Taken<'_>, watch: &mut W) {
        let has_services = stage.has_services();
        for place in 0..self.trackers.len() {
            let Some(breaks) = stage.breaks(place) else {
                continue;
            };
            let service = if has_services {
                stage.program(place)
            } else {
                None
            };
            let site = Site {
                service,
                packet: self.packets,
            };
            match breaks {
                Breaks::Played(switch, library) => {
                    if let Some(tracker) = self.trackers.get_mut(place) {
                        tracker.look(switch, library, taken, site, watch);
                    }
                }
                Breaks::Cued(injector) => {
                    if taken.has_news {
                        self.cues.look(injector, site, watch);
                    }
                }
            }
        }
    }

    /// Looks at a stage behind a packet that it took. Where only what became of breaks is told, it looks at none where nothing has turned.
    #[inline(always)]
    pub(crate) fn look<S: BreakStage, W: Watch>(
        &mut self,
        stage: &S,
        packet: &Packet,
        watch: &mut W,
    ) {
        if self.is_detailed || packet.unit_start() && self.turns != stage.turns() {
            self.look_closely(stage, packet, watch);
        }
        self.packets = self.packets.wrapping_add(1);
    }

    /// Looks at a stage behind a packet behind which something may have changed.
    #[inline(never)]
    fn look_closely<S: BreakStage, W: Watch>(&mut self, stage: &S, packet: &Packet, watch: &mut W) {
        self.turns = stage.turns();
        if !self.is_on {
            return;
        }
        let has_news = self.is_detailed && (watch.takes_news() || stage.is_cue(packet));
        if has_news || packet.unit_start() {
            let packet = Some(packet);
            self.look_at_all(stage, Taken { packet, has_news }, watch);
        }
    }

    /// Looks at a stage behind a packet that it passed on unjudged: cues may have gone out before it.
    pub(crate) fn pass_over<S: BreakStage, W: Watch>(&mut self, stage: &S, watch: &mut W) {
        if self.is_detailed && watch.takes_news() {
            let taken = Taken {
                packet: None,
                has_news: true,
            };
            self.look_at_all(stage, taken, watch);
        }
        self.packets = self.packets.wrapping_add(1);
    }

    /// Tells of the end of a stretch, with which so many breaks were lost.
    pub(crate) fn tell_lost<W: Watch>(&mut self, lost: u64, watch: &mut W) {
        if !self.is_on || lost == 0 {
            return;
        }
        let site = Site {
            service: None,
            packet: self.packets,
        };
        site.tell(watch, What::Lost(lost));
    }

    /// Takes note of whether a program was found in a stretch that is to end.
    pub(crate) fn note_found(&mut self, is_found: bool) {
        self.has_found = self.has_found || is_found;
    }

    /// Looks at a stage before its end, or the end of its stretch.
    pub(crate) fn look_last<S: BreakStage, W: Watch>(&mut self, stage: &S, watch: &mut W) {
        if !self.is_on {
            return;
        }
        let taken = Taken {
            packet: None,
            has_news: true,
        };
        self.look_at_all(stage, taken, watch);
    }

    /// Tells of what was reported of a stage, or of a stretch of it.
    pub(crate) fn settle<S: BreakStage, W: Watch>(
        &mut self,
        stage: &S,
        report: &S::Report,
        watch: &mut W,
    ) {
        if !self.is_on {
            return;
        }
        let has_services = stage.has_services();
        for place in 0..self.trackers.len() {
            let service = if has_services {
                stage.program(place)
            } else {
                None
            };
            let site = Site {
                service,
                packet: self.packets,
            };
            if let Some(tracker) = self.trackers.get_mut(place) {
                tracker.finish(S::events_in(report, place), site, watch);
            }
        }
        self.cues = CueTracker::new();
        self.turns = 0;
    }

    /// Tells what is amiss with the run as a whole.
    pub(crate) fn tell_amiss<S: BreakStage, W: Watch>(&mut self, stage: &S, watch: &mut W) {
        if !self.is_on {
            return;
        }
        let has_services = stage.has_services();
        for place in 0..self.trackers.len() {
            if self.has_found || stage.is_found(place) {
                continue;
            }
            if let Some(program) = stage.program(place) {
                let site = Site {
                    service: has_services.then_some(program),
                    packet: self.packets,
                };
                site.tell(watch, What::NotFound(program));
            }
        }
        let site = Site {
            service: None,
            packet: self.packets,
        };
        if !self.is_detailed
            && let Some(SessionEnd::BadSize) = stage.session_end()
        {
            site.tell(watch, What::Session(SessionEnd::BadSize));
        }
        site.tell(watch, What::End);
    }
}

impl<'a, S: BreakStage, W: Watch> Told<'a, S, W> {
    ghost use Rattle.std.specs.Prelude.{◌≡◌};

    /// This stage, before its first packet, and who is told; nothing was seen of it.
    pub(crate) fn new(inner: &'a mut S, watch: &'a mut W, sight: &'a mut Sight) -> Told<'a, S, W>
        ensures same { result.inner.ghost_name ≡ inner.entry.ghost_name }
        ensures inner { result.inner.now ≡ inner.old }
    {
        Told {
            inner,
            watch,
            sight,
        }
    }
}

impl<S: BreakStage, W: Watch> Stage for Told<'_, S, W> {
    ghost use Rattle.std.specs.Prelude.{◌≡◌};
    ghost use Rattle.std.proofs.Common.{refl, ◌∙◌};

    type Refusal = S::Refusal;

    type Report = S::Report;

    ghost refusal = { λ s seen. S.refusal s.inner.now seen };

    ghost sends = { λ first ps qs kept now. S.sends first.inner.now ps qs kept now.inner.now };

    ghost refuses = { λ first ps qs p now. S.refuses first.inner.now ps qs p now.inner.now };

    ghost breaks = { λ first ps next put q now. S.breaks first.inner.now ps next put q now.inner.now };

    ghost ends = { λ first ps sent report now. S.ends first.inner.now ps sent report now.inner.now };

    ghost leads = { λ s t. (t.inner.ghost_name ≡ s.inner.ghost_name) × S.leads s.inner.now t.inner.now };

    ghost puts_rest = { S.puts_rest };

    ghost leads_refl = { λ s. (refl, S.leads_refl s.inner.now) };

    ghost leads_trans = { λ s t u h k. (k.0 ∙ h.0, S.leads_trans s.inner.now t.inner.now u.inner.now h.1 k.1) };

    #[inline(always)]
    fn step<K: PacketSink>(
        &mut self,
        packet: &mut Packet,
        kept: &Packet,
        out: &mut K,
    ) -> Result<bool, StageFault<S::Refusal>> {
        match self.inner.step(packet, kept, out) {
            Ok(keeps) => {
                self.sight.look(&*self.inner, packet, self.watch);
                Ok(keeps)
            }
            Err(fault) => Err(fault),
        }
    }

    fn finish<K: PacketSink>(&mut self, out: &mut K) -> Result<S::Report, PutFault> {
        self.sight.look_last(&*self.inner, self.watch);
        match self.inner.finish(out) {
            Ok(report) => {
                self.sight.settle(&*self.inner, &report, self.watch);
                self.sight.tell_amiss(&*self.inner, self.watch);
                Ok(report)
            }
            Err(fault) => Err(fault),
        }
    }
}

impl<S: BreakStage + AirStage, W: Watch> AirStage for Told<'_, S, W> {
    ghost begins = { λ s c. S.begins s.inner.now c };

    ghost follows = { λ s c past. S.follows s.inner.now c past };

    ghost tells_out = { λ s. S.tells_out s.inner.now };

    ghost summed = { S.summed };

    ghost airs = { λ first ended last told qs now. S.airs first.inner.now ended last told qs now.inner.now };

    ghost airs_to_end = { λ first ended last told qs report now. S.airs_to_end first.inner.now ended last told qs report now.inner.now };

    ghost sends_follows = { λ first c ps qs kept now b l s. S.sends_follows first.inner.now c ps qs kept now.inner.now b l.1 s };

    ghost sends_airs = { λ first c ps qs kept now tells b l s. S.sends_airs first.inner.now c ps qs kept now.inner.now tells b l.1 s };

    #[inline(always)]
    fn look(&self, packet: &Packet) -> Option<NetworkFault> {
        self.inner.look(packet)
    }

    fn stream_of(&self, packet: &Packet) -> Option<usize> {
        self.inner.stream_of(packet)
    }

    fn start_at(&self, stream: usize, packet: &Packet) -> Option<UnitStart> {
        self.inner.start_at(stream, packet)
    }

    fn pids(&self) -> ArrayVec<Pid, 9> {
        self.inner.pids()
    }

    fn is_cue(&self, packet: &Packet) -> bool {
        AirStage::is_cue(&*self.inner, packet)
    }

    fn pass_judged<K: PacketSink>(&mut self, packet: &Packet, out: &mut K) -> Result<(), PutFault> {
        match self.inner.pass_judged(packet, out) {
            Ok(()) => {
                self.sight.look(&*self.inner, packet, self.watch);
                Ok(())
            }
            Err(fault) => Err(fault),
        }
    }

    fn pass_unjudged<K: PacketSink>(
        &mut self,
        packet: &Packet,
        out: &mut K,
    ) -> Result<(), PutFault> {
        match self.inner.pass_unjudged(packet, out) {
            Ok(()) => {
                self.sight.pass_over(&*self.inner, self.watch);
                Ok(())
            }
            Err(fault) => Err(fault),
        }
    }

    fn begin_anew(&mut self) -> StretchEnd<S::Report> {
        self.sight.look_last(&*self.inner, self.watch);
        self.sight.note_found(self.inner.is_found(0));
        let end = self.inner.begin_anew();
        self.sight.settle(&*self.inner, &end.report, self.watch);
        self.sight.tell_lost(end.lost, self.watch);
        end
    }

    fn finish_last<K: PacketSink>(&mut self, out: &mut K) -> Result<S::Report, PutFault> {
        self.sight.look_last(&*self.inner, self.watch);
        match self.inner.finish_last(out) {
            Ok(report) => {
                self.sight.settle(&*self.inner, &report, self.watch);
                self.sight.tell_amiss(&*self.inner, self.watch);
                Ok(report)
            }
            Err(fault) => Err(fault),
        }
    }

    fn sum(one: &S::Report, other: &S::Report) -> S::Report {
        S::sum(one, other)
    }
}
