//! One service on air, stretch by stretch.

ghost use Rattle.std.specs.Prelude.{◌≡◌, ◌<◌, ℕ, ◌||◌, ◌++◌, if◌then◌else◌, List, [], ◌∷◌, length, Option, true, false, not, OnOk, IfOk, IfSome};
ghost use Rattle.psi_tables.specs.declared.config.Config.{Config};
ghost use Rattle.program_follower.specs.Purposes.{writing_cues};
ghost use Rattle.scte104_codec.specs.Views.{reading_of};
ghost use Rattle.injector.specs.Replies.{reply_to};
ghost use Rattle.injector.specs.Steps.{Step, packets_in, turns_in};
ghost use Rattle.ad_library.specs.Library.{held};
ghost use Rattle.splice_plans.specs.Reporting.{ReportIs};
ghost use Rattle.service_laws.specs.Services.{ServiceTerms};
ghost use Rattle.chain_engine.specs.Stages.{InjectsFor};
ghost use Rattle.psi_section.specs.Assembling.{capped};
ghost use Rattle.chain_engine.specs.Airing.{judged};
ghost use Rattle.chain_engine.specs.Followed.{HasFollowed};
ghost use Rattle.chain_engine.specs.Passing.{GoesOnBy};
ghost use Rattle.on_air.specs.Stretches.{Entry, as_read};
ghost use Rattle.on_air.specs.Marking.{Keeps, Becomes};
ghost use Rattle.on_air.specs.AirRuns.{has_no};
ghost use Rattle.services_on_air.specs.Airing.{Airing, begins, next_of, anew_with, known_of, known_before, owns, behind_first};
ghost use Rattle.services_on_air.specs.Standing.{AirStandsFor, BeginsBehind, IsSettled, IsPassed};
ghost use Rattle.services_on_air.specs.Owners.{IsBeside};
ghost use Rattle.services_on_air.specs.Histories.{Gone, HasGone, TailKept, nothing_gone, gone_asked, gone_on, gone_anew, gone_settled, begins_anew};
ghost use Rattle.services_on_air.specs.Histories.{aired_as, put_anew, put_settled, put_on, put_own, put_last, counts_to_end};

use crate::watch::{ServiceBegun, ServicesWatch, Shown};
use ad_library::AdLibrary;
use arrayvec::ArrayVec;
use chain_engine::{Judge, RunFault, Service, put_fault};
use chain_services::{Nowhere, has_turned};
use on_air::{MapTail, Marks, Standing, Verdict};
use program_follower::StreamPart;
use psi_tables::{Config, FeedFault};
use scte104_codec::{BadMessage, Message, Reply};
use splice_switch::SwitchReport;
use ts_packet::{Packet, PacketSink, Pid, PutFault};

/// What a packet is that passed through a service, or through several.
#[derive(Clone, Copy, Debug, PartialEq, Eq)]
pub(crate) struct Passed {
    /// It is on a PID of a service, and what that sends for it is out.
    pub(crate) is_own: bool,
    /// The service whose it is left it unjudged, or where it is none's some service did.
    pub(crate) is_unjudged: bool,
    /// With it more PIDs may be known of a service.
    pub(crate) learns: bool,
    /// Some service left it unjudged.
    pub(crate) has_left: bool,
    /// With it something has turned in the switch of a service.
    pub(crate) has_turned: bool,
}

impl Passed {
    /// It is of no service, and was judged.
    pub(crate) fn beside() -> Passed
        ensures own { result.is_own ≡ false }
        ensures unjudged { result.is_unjudged ≡ false }
        ensures learns { result.learns ≡ false }
        ensures left { result.has_left ≡ false }
    {
        Passed {
            is_own: false,
            is_unjudged: false,
            learns: false,
            has_left: false,
            has_turned: false,
        }
    }

    /// It is of a service, which judged it, and no PID more is known with it.
    pub(crate) fn alone() -> Passed
        ensures own { result.is_own ≡ true }
        ensures unjudged { result.is_unjudged ≡ false }
        ensures learns { result.learns ≡ false }
        ensures left { result.has_left ≡ false }
    {
        Passed {
            is_own: true,
            is_unjudged: false,
            learns: false,
            has_left: false,
            has_turned: false,
        }
    }

    /// What a packet is that passed through these, and then through those of which the other tells.
    pub(crate) fn joined(self, other: Passed) -> Passed
        ensures own { result.is_own ≡ (self.is_own || other.is_own) }
        ensures unjudged { result.is_unjudged ≡ (if self.is_own then self.is_unjudged
            else (if other.is_own then other.is_unjudged else (self.is_unjudged || other.is_unjudged))) }
        ensures learns { result.learns ≡ (self.learns || other.learns) }
        ensures left { result.has_left ≡ (self.has_left || other.has_left) }
    {
        let is_unjudged = if self.is_own {
            self.is_unjudged
        } else if other.is_own {
            other.is_unjudged
        } else {
            self.is_unjudged || other.is_unjudged
        };
        Passed {
            is_own: self.is_own || other.is_own,
            is_unjudged,
            learns: self.learns || other.learns,
            has_left: self.has_left || other.has_left,
            has_turned: self.has_turned || other.has_turned,
        }
    }
}

/// A packet of the network and its number, from 0.
#[derive(Clone, Copy)]
pub(crate) struct Numbered<'a> {
    pub(crate) packet: &'a Packet,
    pub(crate) number: u64,
}

/// One program's service on air. Where a stretch ends it begins anew, and is given the packets and messages of the next one.
#[derive(Drop)]
pub(crate) struct AirService {
    service: Service,
    marks: Marks,
    tail: MapTail,
    /// No packet has come.
    is_empty: bool,
    /// Its stretch ends with the packet that came last: with that a service before it shares a PID.
    shares: bool,
    /// It leaves the packet unjudged that was settled last.
    is_unjudged: bool,
    /// How many stretches began behind another one; the count stops at the greatest u64.
    begun: u64,
    /// What the stretches that ended counted, summed.
    ended: SwitchReport,
    /// The events that stood at their ends, and whose end had not come.
    lost: u64,
}

impl AirService {
    /// A service that was given no message and no packet.
    pub(crate) fn new(config: Config) -> AirService
        ensures stands { AirStandsFor result (begins config) }
        ensures gone { (t : ServiceTerms) → t.config ≡ config → HasGone result t nothing_gone }
    {
        AirService {
            service: Service::new(config),
            marks: Marks::new(),
            tail: MapTail::new(),
            is_empty: true,
            shares: false,
            is_unjudged: false,
            begun: 0,
            ended: SwitchReport::new(),
            lost: 0,
        }
    }

    /// What it is configured for.
    pub(crate) fn config(&self) -> Config
        ensures { result ≡ self.now.service.config }
    {
        self.service.config()
    }

    /// The events that stood at the ends of its stretches but the last, and whose end had not come.
    pub(crate) fn lost(&self) -> u64
        ensures { result ≡ self.now.lost }
    {
        self.lost
    }

    /// How many of its stretches began behind another one.
    pub(crate) fn begun(&self) -> u64
        ensures { result ≡ self.now.begun }
    {
        self.begun
    }

    /// The PIDs that are known of its program in this stretch: that of its map first.
    pub(crate) fn pids(&self) -> ArrayVec<Pid, 9>
        ensures { (a : Airing) → AirStandsFor self.now a → result.items ≡ known_of a }
    {
        self.service.pids()
    }

    /// Nothing of its program is on the PID, behind its PAT in the stretch that goes on: a packet of that PID changes nothing of it.
    pub(crate) fn overlooks_pid(&self, pid: Pid) -> bool
        ensures { (a : Airing) → AirStandsFor self.now a → result ≡ true → IsBeside pid a }
    {
        if self.is_empty {
            return false;
        }
        if self.shares {
            return false;
        }
        self.service.overlooks_pid(pid)
    }

    /// Judges a message by the packets of its stretch, and answers it.
    pub(crate) fn ask(&mut self, message: Result<Message<'_>, BadMessage>) -> Reply
        ensures stands { (p : List ℕ) (a : Airing) → IsSettled self.old p a → IsSettled self.new p a }
        ensures gone { (t : ServiceTerms) (g : Gone) → HasGone self.old t g
            → (result ≡ reply_to t.config.index (reading_of message.entry) (turns_in t.config.program g.own))
            × HasGone self.new t (gone_asked (reading_of message.entry) g) }
    {
        self.service.ask(message)
    }

    /// What becomes of the next packet in its stretch.
    #[inline(always)]
    fn judge(&mut self, packet: &Packet) -> Verdict
        ensures becomes { (c : Config) (past : List Entry) → self.old.service.config ≡ c → Keeps self.old.marks (writing_cues c) past
            → HasFollowed self.old.service c (as_read past) → Becomes result self.new.marks (writing_cues c) packet.now past }
        ensures service { self.new.service ≡ self.old.service }
        ensures counts { (self.new.is_empty ≡ self.old.is_empty) × (self.new.shares ≡ self.old.shares) × (self.new.begun ≡ self.old.begun) }
        ensures kept { (self.new.tail ≡ self.old.tail) × (self.new.ended ≡ self.old.ended) × (self.new.lost ≡ self.old.lost) }
    {
        let fault = self.service.look(packet);
        if fault.is_none() && !self.marks.has_any() {
            return Verdict::Judged;
        }
        let standing = match self.service.stream_of(packet) {
            Some(stream) => Standing::Streamed(stream, self.service.start_at(stream, packet)),
            None if packet.is_on(self.service.config().cue_pid) => Standing::Cued,
            None => Standing::Beside,
        };
        self.marks.judge_standing(packet, standing, fault)
    }

    /// Settles what becomes of a packet with which a stretch begins: it begins no other.
    fn settle_first(&mut self, packet: &Packet)
        ensures stands { (c : Config) (ss : List (List Entry)) → BeginsBehind self.old c ss
            → IsSettled self.new packet.now (anew_with packet.now c ss) }
        ensures gone { (t : ServiceTerms) (g : Gone) → HasGone self.old t g → HasGone self.new t g }
    {
        let verdict = self.judge(packet);
        self.is_unjudged = !verdict.is_judged();
        self.is_empty = false;
        self.shares = false;
    }

    /// Ends its stretch, and settles what becomes of the next packet, with which another begins: it answers that one does.
    ///
    /// # Errors
    ///
    /// The sink's.
    fn settle_anew<K: PacketSink, A: ServicesWatch>(
        &mut self,
        packet: &Packet,
        library: &AdLibrary,
        out: &mut K,
        watch: &mut A,
    ) -> Result<bool, PutFault>
        ensures leads { K.leads out.old out.new }
        ensures stands { (c : Config) (ss : List (List Entry)) → self.old.service.config ≡ c → self.old.begun ≡ capped (behind_first ss)
            → has_no ss ≡ false → OnOk result (IsSettled self.new packet.now (anew_with packet.now c ss)) }
        ensures out { (t : ServiceTerms) (g : Gone) (start : Option (List ℕ)) (ps : List (List ℕ)) → held library.now ≡ t.filed
            → HasGone self.old t g → K.holds out.old start ps
            → OnOk result (HasGone self.new t (gone_anew t g) × K.holds out.new start (ps ++ put_anew t g)) }
        ensures anew { IfOk result (λ is_anew. is_anew ≡ true) }
    {
        match self.begin_anew(library, out, watch) {
            Ok(()) => {
                self.settle_first(packet);
                Ok(true)
            }
            Err(fault) => Err(fault),
        }
    }

    /// The next packet is judged, and its stretch goes on with it: nothing is wrong with the packet, and nothing is kept of packets that were left
    /// unjudged. So it is of nearly all packets.
    #[inline(always)]
    fn just_judges(&self, packet: &Packet) -> bool
        ensures becomes { (c : Config) (past : List Entry) → self.now.service.config ≡ c → Keeps self.now.marks (writing_cues c) past
            → HasFollowed self.now.service c (as_read past) → result ≡ true → Becomes Verdict.Judged self.now.marks (writing_cues c) packet.now past }
        ensures goes_on { result ≡ true → (self.now.is_empty ≡ false) × (self.now.shares ≡ false) }
    {
        if self.is_empty {
            return false;
        }
        if self.shares {
            return false;
        }
        if self.marks.has_any() {
            return false;
        }
        self.service.look(packet).is_none()
    }

    /// Settles what becomes of the next packet, before the messages that come before it are heard: a stretch that begins anew with it begins
    /// here. Whether one does.
    ///
    /// # Errors
    ///
    /// The sink's.
    #[inline(always)]
    pub(crate) fn settle<K: PacketSink, A: ServicesWatch>(
        &mut self,
        next: Numbered<'_>,
        library: &AdLibrary,
        out: &mut K,
        watch: &mut A,
    ) -> Result<bool, PutFault>
        ensures leads { K.leads out.old out.new }
        ensures stands { (a : Airing) → AirStandsFor self.old a
            → OnOk result (IsSettled self.new next.entry.packet.now (next_of next.entry.packet.now a)) }
        ensures out { (a : Airing) (t : ServiceTerms) (g : Gone) (start : Option (List ℕ)) (ps : List (List ℕ)) → AirStandsFor self.old a
            → held library.now ≡ t.filed → HasGone self.old t g → K.holds out.old start ps
            → OnOk result (HasGone self.new t (gone_settled t (begins_anew next.entry.packet.now a) g)
            × K.holds out.new start (ps ++ put_settled t (begins_anew next.entry.packet.now a) g)) }
        ensures anew { (a : Airing) → AirStandsFor self.old a → IfOk result (λ is_anew. is_anew ≡ begins_anew next.entry.packet.now a) }
    {
        if self.just_judges(next.packet) {
            self.is_unjudged = false;
            return Ok(false);
        }
        self.settle_closely(next, library, out, watch)
    }

    /// What the next packet is to its switched stream, where it goes on alone, is judged, and its stretch goes on with it. So it is of nearly all
    /// packets that are of a stream.
    #[inline(always)]
    fn just_goes_on(&self, packet: &Packet) -> Option<StreamPart>
        ensures becomes { (c : Config) (past : List Entry) → self.now.service.config ≡ c → Keeps self.now.marks (writing_cues c) past
            → HasFollowed self.now.service c (as_read past)
            → IfSome result (λ _. Becomes Verdict.Judged self.now.marks (writing_cues c) packet.now past) }
        ensures goes_on { IfSome result (λ _. (self.now.is_empty ≡ false) × (self.now.shares ≡ false)) }
        ensures below { IfSome result (λ of. of.stream < 8) }
        ensures alone { IfSome result (λ of. (self.now.is_unjudged ≡ false) × GoesOnBy self.now.service of packet.now) }
    {
        if self.is_empty || self.shares || self.is_unjudged || self.marks.has_any() {
            return None;
        }
        match self.service.goes_on(packet) {
            Some(of) => Some(of),
            None => None,
        }
    }

    /// What the next packet is to its switched stream, where it goes on alone and is settled as the service stands; `None` where it is no such packet,
    /// or that is open.
    #[inline(always)]
    pub(crate) fn stays_still(&self, packet: &Packet) -> Option<StreamPart>
        ensures below { IfSome result (λ of. of.stream < 8) }
        ensures alone { IfSome result (λ of. (self.now.is_unjudged ≡ false) × GoesOnBy self.now.service of packet.now) }
        ensures settled { (a : Airing) → AirStandsFor self.now a → IfSome result (λ _. IsSettled self.now packet.now (next_of packet.now a)) }
        ensures anew { (a : Airing) → AirStandsFor self.now a → IfSome result (λ _. begins_anew packet.now a ≡ false) }
    {
        match self.just_goes_on(packet) {
            Some(of) => Some(of),
            None => None,
        }
    }

    /// Does what [`AirService::settle`] does, for any packet.
    ///
    /// # Errors
    ///
    /// The sink's.
    #[cold]
    #[inline(never)]
    fn settle_closely<K: PacketSink, A: ServicesWatch>(
        &mut self,
        next: Numbered<'_>,
        library: &AdLibrary,
        out: &mut K,
        watch: &mut A,
    ) -> Result<bool, PutFault>
        ensures leads { K.leads out.old out.new }
        ensures stands { (a : Airing) → AirStandsFor self.old a
            → OnOk result (IsSettled self.new next.entry.packet.now (next_of next.entry.packet.now a)) }
        ensures out { (a : Airing) (t : ServiceTerms) (g : Gone) (start : Option (List ℕ)) (ps : List (List ℕ)) → AirStandsFor self.old a
            → held library.now ≡ t.filed → HasGone self.old t g → K.holds out.old start ps
            → OnOk result (HasGone self.new t (gone_settled t (begins_anew next.entry.packet.now a) g)
            × K.holds out.new start (ps ++ put_settled t (begins_anew next.entry.packet.now a) g)) }
        ensures anew { (a : Airing) → AirStandsFor self.old a → IfOk result (λ is_anew. is_anew ≡ begins_anew next.entry.packet.now a) }
    {
        let packet = next.packet;
        if self.is_empty {
            self.settle_first(packet);
            return Ok(false);
        }
        if self.shares {
            return self.settle_anew(packet, library, out, watch);
        }
        match self.judge(packet) {
            Verdict::Judged => {
                self.is_unjudged = false;
                Ok(false)
            }
            Verdict::Unjudged => {
                self.is_unjudged = true;
                Ok(false)
            }
            Verdict::BeginsAnew(fault) => {
                self.tell(RunFault::Feed(FeedFault::Network(fault)), next, watch);
                self.settle_anew(packet, library, out, watch)
            }
        }
    }

    /// Tells that its next stretch begins, and why.
    fn tell<A: ServicesWatch>(&self, fault: RunFault, at: Numbered<'_>, watch: &mut A) {
        watch.begun(&ServiceBegun {
            program: self.service.config().program,
            stretch: self.begun.saturating_add(2),
            packet: at.number,
            pid: at.packet.pid(),
            fault,
        });
    }

    /// Ends its stretch with the packet that came last, since with that a service before it shares a PID. It is told once.
    pub(crate) fn part<A: ServicesWatch>(&mut self, last: Numbered<'_>, watch: &mut A)
        ensures stands { (a : Airing) → AirStandsFor self.old a
            → AirStandsFor self.new (record { config = a.config; stretches = a.stretches; shares = true }) }
        ensures gone { (t : ServiceTerms) (g : Gone) → HasGone self.old t g → HasGone self.new t g }
    {
        if !self.shares {
            self.tell(RunFault::SharedPid, last, watch);
        }
        self.shares = true;
    }

    /// Ends its stretch, and begins one anew behind it: the packets that brought a part of a section of its map go out as they came, and nothing
    /// more of an advertisement that runs.
    #[cold]
    #[inline(never)]
    fn begin_anew<K: PacketSink, A: ServicesWatch>(
        &mut self,
        library: &AdLibrary,
        out: &mut K,
        watch: &mut A,
    ) -> Result<(), PutFault>
        ensures leads { K.leads out.old out.new }
        ensures stands { (c : Config) (ss : List (List Entry)) → self.old.service.config ≡ c → self.old.begun ≡ capped (behind_first ss)
            → has_no ss ≡ false → BeginsBehind self.new c ss }
        ensures out { (t : ServiceTerms) (g : Gone) (start : Option (List ℕ)) (ps : List (List ℕ)) → held library.now ≡ t.filed
            → HasGone self.old t g → K.holds out.old start ps
            → OnOk result (HasGone self.new t (gone_anew t g) × K.holds out.new start (ps ++ put_anew t g)) }
    {
        let config = self.service.config();
        let report = self.service.report(library);
        let lost = self.service.open_count() as u64;
        watch.shown(&self.service, library, Shown::Last);
        watch.ended(config.program, &report, lost);
        self.ended = self.ended.plus(report);
        self.lost = self.lost.saturating_add(lost);
        self.begun = self.begun.saturating_add(1);
        self.service.begin_anew(config);
        self.marks = Marks::new();
        let put = self.tail.put(out);
        self.tail = MapTail::new();
        put
    }

    /// Keeps a judged packet that brings a part of a section of its map.
    #[inline(always)]
    fn keep(&mut self, packet: &Packet)
        ensures service { self.new.service ≡ self.old.service }
        ensures others { (self.new.marks ≡ self.old.marks) × (self.new.is_unjudged ≡ self.old.is_unjudged)
            × (self.new.is_empty ≡ self.old.is_empty) × (self.new.shares ≡ self.old.shares) × (self.new.begun ≡ self.old.begun) }
        ensures kept { (self.new.ended ≡ self.old.ended) × (self.new.lost ≡ self.old.lost) }
        ensures tail { (c : Config) (steps : List Step) → InjectsFor c self.old.service steps
            → TailKept self.old.tail (writing_cues c) (packets_in steps)
            → TailKept self.new.tail (writing_cues c) (packet.now ∷ packets_in steps) }
    {
        if self.tail.is_before_pat() {
            if let Some(pid) = self.service.pids().first() {
                self.tail.begin(*pid);
            }
        }
        self.tail.take(packet);
    }

    /// Passes the packet on that was settled. One that is left unjudged goes out as it came, but for its continuity_counter.
    #[inline(always)]
    fn pass_to<K: PacketSink>(
        &mut self,
        packet: &Packet,
        library: &AdLibrary,
        out: &mut K,
    ) -> Result<(), PutFault>
        ensures leads { K.leads out.old out.new }
        ensures stands { (a : Airing) → IsSettled self.old packet.now a → OnOk result (AirStandsFor self.new a) }
        ensures unjudged { self.new.is_unjudged ≡ self.old.is_unjudged }
        ensures out { (t : ServiceTerms) (g : Gone) (start : Option (List ℕ)) (ps : List (List ℕ)) → held library.now ≡ t.filed
            → HasGone self.old t g → K.holds out.old start ps
            → OnOk result (HasGone self.new t (gone_on t (aired_as packet.now self.old.is_unjudged) g)
            × K.holds out.new start (ps ++ put_on t (aired_as packet.now self.old.is_unjudged) g)) }
    {
        if self.is_unjudged {
            return self.service.pass_unjudged(packet, library, out);
        }
        self.keep(packet);
        match self.service.pass_on(packet, library, out) {
            Ok(()) => Ok(()),
            Err(fault) => Err(put_fault(fault)),
        }
    }

    /// Passes the packet on that was settled, and tells what it is: of its own or not, where so many PIDs were known of it before.
    #[inline(always)]
    fn pass_and_tell<K: PacketSink>(
        &mut self,
        is_own: bool,
        known: usize,
        packet: &Packet,
        library: &AdLibrary,
        out: &mut K,
    ) -> Result<Passed, PutFault>
        ensures leads { K.leads out.old out.new }
        ensures stands { (a : Airing) → IsSettled self.old packet.now a → is_own ≡ owns packet.now a → known ≡ length (known_before a)
            → IfOk result (λ passed. AirStandsFor self.new a × IsPassed passed packet.now a) }
        ensures out { (t : ServiceTerms) (g : Gone) (start : Option (List ℕ)) (ps : List (List ℕ)) → held library.now ≡ t.filed
            → HasGone self.old t g → K.holds out.old start ps
            → IfOk result (λ passed. (passed.is_own ≡ is_own)
            × HasGone self.new t (gone_on t (aired_as packet.now self.old.is_unjudged) g)
            × K.holds out.new start (ps ++ put_on t (aired_as packet.now self.old.is_unjudged) g)) }
        ensures left { IfOk result (λ passed. passed.has_left ≡ self.new.is_unjudged) }
    {
        let turns = self.service.switch().turns();
        match self.pass_to(packet, library, out) {
            Ok(()) => Ok(Passed {
                is_own,
                is_unjudged: self.is_unjudged,
                learns: self.service.pid_count() != known,
                has_left: self.is_unjudged,
                has_turned: self.service.switch().turns() != turns,
            }),
            Err(fault) => Err(fault),
        }
    }

    /// Passes the packet on that was settled and is judged, and goes on alone, as this to its stream: it is of its own, brings no part of a section of
    /// its map, and no PID more is known with it.
    ///
    /// # Errors
    ///
    /// The sink's.
    #[inline(always)]
    pub(crate) fn pass_alone<K: PacketSink>(
        &mut self,
        of: StreamPart,
        packet: &Packet,
        library: &AdLibrary,
        out: &mut K,
    ) -> Result<Passed, PutFault>
        requires { of.stream < 8 }
        ensures leads { K.leads out.old out.new }
        ensures stands { (a : Airing) → IsSettled self.old packet.now a → self.old.is_unjudged ≡ false
            → GoesOnBy self.old.service of packet.now → IfOk result (λ passed. AirStandsFor self.new a × IsPassed passed packet.now a) }
        ensures out { (t : ServiceTerms) (g : Gone) (start : Option (List ℕ)) (ps : List (List ℕ)) → held library.now ≡ t.filed
            → HasGone self.old t g → GoesOnBy self.old.service of packet.now → K.holds out.old start ps
            → IfOk result (λ passed. HasGone self.new t (gone_on t (judged packet.now) g)
            × K.holds out.new start (ps ++ put_own passed.is_own t (judged packet.now) g)) }
        ensures left { self.old.is_unjudged ≡ false → IfOk result (λ passed. passed.has_left ≡ self.new.is_unjudged) }
        ensures alone { IfOk result (λ passed. (passed.is_own ≡ true) × (passed.has_left ≡ false)) }
        ensures still { IfOk result (λ passed. (passed.learns ≡ false) × (passed.is_unjudged ≡ false)) }
    {
        let given = &of;
        let turns = self.service.switch().turns();
        match self.service.go_on(*given, packet, library, out) {
            Ok(()) => Ok(Passed {
                has_turned: has_turned(given.part.is_start(), turns, self.service.switch().turns()),
                ..Passed::alone()
            }),
            Err(fault) => Err(put_fault(fault)),
        }
    }

    /// Passes the packet on that was settled, whatever it is there: what it sends goes out where the packet is on one of its PIDs, and is the packet
    /// else. It stands by itself, since few packets go this way.
    ///
    /// # Errors
    ///
    /// The sink's.
    #[inline(never)]
    pub(crate) fn pass<K: PacketSink>(
        &mut self,
        packet: &Packet,
        library: &AdLibrary,
        out: &mut K,
    ) -> Result<Passed, PutFault>
        ensures leads { K.leads out.old out.new }
        ensures stands { (a : Airing) → IsSettled self.old packet.now a
            → IfOk result (λ passed. AirStandsFor self.new a × IsPassed passed packet.now a) }
        ensures out { (t : ServiceTerms) (g : Gone) (start : Option (List ℕ)) (ps : List (List ℕ)) → held library.now ≡ t.filed
            → HasGone self.old t g → K.holds out.old start ps
            → IfOk result (λ passed. HasGone self.new t (gone_on t (aired_as packet.now self.old.is_unjudged) g)
            × K.holds out.new start (ps ++ put_own passed.is_own t (aired_as packet.now self.old.is_unjudged) g)) }
        ensures left { IfOk result (λ passed. passed.has_left ≡ self.new.is_unjudged) }
    {
        let known = self.service.pid_count();
        if self.service.owns(packet) {
            return self.pass_and_tell(true, known, packet, library, out);
        }
        if !self.is_unjudged && self.service.overlooks(packet) {
            return Ok(Passed::beside());
        }
        self.pass_and_tell(false, known, packet, library, &mut Nowhere)
    }

    /// Puts what is left of the advertisements that run, and tells what became of the events of all its stretches.
    ///
    /// # Errors
    ///
    /// The sink's.
    pub(crate) fn finish<K: PacketSink, A: ServicesWatch>(
        &mut self,
        library: &AdLibrary,
        out: &mut K,
        watch: &mut A,
    ) -> Result<SwitchReport, PutFault>
        ensures leads { K.leads out.old out.new }
        ensures puts { (t : ServiceTerms) (g : Gone) (start : Option (List ℕ)) (ps : List (List ℕ)) → held library.now ≡ t.filed
            → HasGone self.old t g → K.holds out.old start ps
            → IfOk result (λ report. K.holds out.new start (ps ++ put_last t g)
            × ReportIs report (counts_to_end t g)) }
    {
        watch.shown(&self.service, library, Shown::Last);
        match self.service.finish(library, out) {
            Ok(last) => {
                watch.ended(self.service.config().program, &last, 0);
                Ok(self.ended.plus(last))
            }
            Err(fault) => Err(put_fault(fault)),
        }
    }

    /// Shows itself behind a packet that has passed.
    pub(crate) fn show<A: ServicesWatch>(
        &self,
        library: &AdLibrary,
        packet: &Packet,
        watch: &mut A,
    ) {
        let shown = if self.is_unjudged {
            Shown::Unjudged
        } else {
            Shown::Judged(packet)
        };
        watch.shown(&self.service, library, shown);
    }
}
