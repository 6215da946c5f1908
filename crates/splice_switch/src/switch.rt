//! The switch.

ghost use Rattle.std.specs.Prelude.{◌≡◌, ◌<◌, ◌++◌, ◌∷◌, [], ℕ, List, slice_index_or, Option, None, Some, Err, OnOk, IfOk, IfErr, IfSome, false, true};
ghost use Rattle.ts_packet.specs.Fields.{in_error, renumbered};
ghost use Rattle.ts_packet.specs.Numbering.{Step as NumberStep, Kept, Counts, moved};
ghost use Rattle.ts_packet.specs.Sinks.{Blamed};
ghost use Rattle.ts_packet.specs.Transfers.{WentWell};
ghost use Rattle.program_follower.specs.Faults.{network_fault};
ghost use Rattle.program_follower.specs.Purposes.{reading_cues};
ghost use Rattle.program_follower.specs.declared.purpose.Purpose.{Purpose as FollowedFor};
ghost use Rattle.outgoing_packets.specs.Faults.{FeedBlamed, KeepsSink, is_err_or};
ghost use Rattle.ad_library.specs.Advertisements.{Advertisement};
ghost use Rattle.ad_library.specs.Library.{held};
ghost use Rattle.splice_plans.specs.declared.stream.SwitchedStream.{SwitchedStream};
ghost use Rattle.splice_plans.specs.Adverts.{setting_of};
ghost use Rattle.splice_plans.specs.Switching.{rest_at};
ghost use Rattle.splice_plans.specs.Reporting.{ReportIs, report_of};
ghost use Rattle.splice_plans.specs.Stepping.{Journey, journey_past, journey_kept, puts_last};
ghost use Rattle.splice_playing.specs.Relations.{IsOnStream};
ghost use Rattle.splice_playing.specs.Courses.{CountsTurns};
ghost use Rattle.splice_playing.specs.Puts.{PutsAll};
ghost use Rattle.splice_switch.specs.Standing.{SwitchStandsAt, SwitchStandsFor, SwitchFollows, switch_unasked, FinishFails};
ghost use Rattle.splice_switch.specs.Takes.{OfGiven, OfJourney, OfNext, OfNextAt, FailsToTake, FailsToTakeAt, ComesFurther};

mod putting;
mod telling;

use ad_library::AdLibrary;
use outgoing_packets::Outgoing;
use program_follower::{Purpose, StartFollower};
use psi_tables::{Config, FeedFault, NetworkFault};
use splice_plans::SwitchReport;
use splice_playing::Playing;
use ts_packet::{Packet, PacketSink, Pid, PutFault};

/// Plays advertisements in the place of the units of a network, in the events that its cues arm. To tell duplicates it keeps a copy of the
/// last packet of each switched stream with which a unit began, of the last payload packet of a unit that is left out of it, and of the last
/// one on each PID of tables or cues. It takes no memory.
#[derive(Drop)]
pub struct Switch {
    cue_pid: Pid,
    follower: StartFollower,
    playing: Playing,
    out: Outgoing,
    is_spent: bool,
}

impl Switch {
    /// A switch that was given no packet.
    pub fn new(config: Config) -> Switch
        ensures { (filed : ℕ → Option Advertisement) → SwitchStandsFor result config filed [] }
    {
        Switch {
            cue_pid: config.cue_pid,
            follower: StartFollower::new(Purpose::reading_cues(&config)),
            playing: Playing::new(),
            out: Outgoing::new(),
            is_spent: false,
        }
    }

    /// Begins anew for this: it was given no packet, as [`Switch::new`] was not, and stays where it lies.
    pub fn begin_anew(&mut self, config: Config)
        ensures { (filed : ℕ → Option Advertisement) → SwitchStandsFor self.new config filed [] }
    {
        self.cue_pid = config.cue_pid;
        self.follower.begin_anew(Purpose::reading_cues(&config));
        self.playing = Playing::new();
        self.out.begin_anew();
        self.is_spent = false;
    }

    /// Forgets that what was due of the advertisements that run is out: it was due by the library of that call, and another may make more due
    /// at the same greatest time.
    pub fn ask_anew(&mut self)
        ensures { self.new ≡ switch_unasked self.old }
    {
        self.playing.ask_anew();
    }

    /// Takes the next packet of the network, and puts the units of advertisements that go out before it, and then the packet, or what goes
    /// out in its place. What is due of the advertisements that run is asked for anew.
    ///
    /// # Errors
    ///
    /// `Network` with what is wrong with the packet behind those before it: nothing was put then. `Sink` where the sink failed: it has a
    /// front of what the packet puts. `Failed` once a fault was answered, or after [`Switch::finish`].
    #[inline(always)]
    pub fn feed<S: PacketSink>(
        &mut self,
        packet: &Packet,
        library: &AdLibrary,
        sink: &mut S,
    ) -> Result<(), FeedFault>
        ensures leads { S.leads sink.old sink.new }
        ensures ok { OfNext (switch_unasked self.old) (held library.now) packet.now S.PacketSink sink.old
            (PutsAll S.PacketSink sink.new result) }
        ensures stands { OfGiven (switch_unasked self.old) (held library.now) (λ c past.
            OnOk result (SwitchStandsFor self.new c (held library.now) (packet.now ∷ past))) }
        ensures sound { OfGiven (switch_unasked self.old) (held library.now) (λ c past.
            OnOk result (network_fault (reading_cues c) packet.now past ≡ None)) }
        ensures turns { OfGiven (switch_unasked self.old) (held library.now) (λ c past.
            OnOk result (CountsTurns self.old.playing self.new.playing)) }
        ensures follows { (c : FollowedFor) (past : List (List ℕ)) → SwitchFollows self.old c past →
            OnOk result (SwitchFollows self.new c (packet.now ∷ past)) }
        ensures err { FailsToTake (switch_unasked self.old) (held library.now) packet.now S.PacketSink sink.old sink.new result }
        ensures puts { OfNextAt (switch_unasked self.old) (held library.now) packet.now S.PacketSink sink.old
            (PutsAll S.PacketSink sink.new result) }
        ensures goes_on { OfJourney (switch_unasked self.old) (held library.now) (ComesFurther self.new (held library.now) packet.now result) }
        ensures stops { FailsToTakeAt (switch_unasked self.old) (held library.now) packet.now S.PacketSink sink.old sink.new result }
        ensures well { OnOk result (WentWell (S.counts sink.old) (S.counts sink.new)) }
        ensures blamed { IfErr result (λ f. FeedBlamed f (S.counts sink.old) (S.counts sink.new) (S.is_full sink.new)) }
        ensures kept { IfErr result (λ f. KeepsSink f sink.old sink.new) }
        ensures failed { self.old.is_spent ≡ true → result ≡ Err FeedFault.Failed }
        ensures spent { self.new.is_spent ≡ is_err_or result self.old.is_spent }
        ensures unchanged { self.old.is_spent ≡ true → self.new ≡ self.old }
    {
        if self.is_spent {
            return Err(FeedFault::Failed);
        }
        self.ask_anew();
        self.feed_with_same(packet, library, sink)
    }

    /// As [`Switch::feed`], where the library is that of the calls before: what is due of the advertisements that run is asked for once for
    /// each greatest time.
    ///
    /// # Errors
    ///
    /// As for [`Switch::feed`].
    #[inline(always)]
    pub fn feed_with_same<S: PacketSink>(
        &mut self,
        packet: &Packet,
        library: &AdLibrary,
        sink: &mut S,
    ) -> Result<(), FeedFault>
        ensures leads { S.leads sink.old sink.new }
        ensures ok { OfNext self.old (held library.now) packet.now S.PacketSink sink.old
            (PutsAll S.PacketSink sink.new result) }
        ensures stands { OfGiven self.old (held library.now) (λ c past.
            OnOk result (SwitchStandsFor self.new c (held library.now) (packet.now ∷ past))) }
        ensures sound { OfGiven self.old (held library.now) (λ c past.
            OnOk result (network_fault (reading_cues c) packet.now past ≡ None)) }
        ensures turns { OfGiven self.old (held library.now) (λ c past.
            OnOk result (CountsTurns self.old.playing self.new.playing)) }
        ensures follows { (c : FollowedFor) (past : List (List ℕ)) → SwitchFollows self.old c past →
            OnOk result (SwitchFollows self.new c (packet.now ∷ past)) }
        ensures err { FailsToTake self.old (held library.now) packet.now S.PacketSink sink.old sink.new result }
        ensures puts { OfNextAt self.old (held library.now) packet.now S.PacketSink sink.old
            (PutsAll S.PacketSink sink.new result) }
        ensures goes_on { OfJourney self.old (held library.now) (ComesFurther self.new (held library.now) packet.now result) }
        ensures stops { FailsToTakeAt self.old (held library.now) packet.now S.PacketSink sink.old sink.new result }
        ensures well { OnOk result (WentWell (S.counts sink.old) (S.counts sink.new)) }
        ensures blamed { IfErr result (λ f. FeedBlamed f (S.counts sink.old) (S.counts sink.new) (S.is_full sink.new)) }
        ensures kept { IfErr result (λ f. KeepsSink f sink.old sink.new) }
        ensures failed { self.old.is_spent ≡ true → result ≡ Err FeedFault.Failed }
        ensures spent { self.new.is_spent ≡ is_err_or result self.old.is_spent }
        ensures unchanged { self.old.is_spent ≡ true → self.new ≡ self.old }
    {
        if self.is_spent {
            return Err(FeedFault::Failed);
        }
        match self.take(packet, library, sink) {
            Ok(()) => Ok(()),
            Err(fault) => {
                self.is_spent = true;
                Err(fault)
            }
        }
    }

    /// It takes no packet any more: it has answered a fault, or was finished.
    #[inline(always)]
    pub fn is_spent(&self) -> bool
        ensures { result ≡ self.now.is_spent }
    {
        self.is_spent
    }

    /// Takes a packet that is marked in error as the next one of the network, and puts nothing for it.
    ///
    /// # Errors
    ///
    /// What is wrong with it behind those before it.
    pub fn follow(&mut self, packet: &Packet) -> Result<(), NetworkFault>
        ensures follows { (c : FollowedFor) (past : List (List ℕ)) → SwitchFollows self.old c past →
            OnOk result (SwitchFollows self.new c (packet.now ∷ past)) }
        ensures stands { (c : Config) (filed : ℕ → Option Advertisement) (x : Journey) → in_error packet.now ≡ true →
            SwitchStandsAt self.old c filed x →
            OnOk result (SwitchStandsAt self.new c filed (journey_past (setting_of c filed) x packet.now)) }
        ensures playing { self.new.playing ≡ self.old.playing }
        ensures spent { self.new.is_spent ≡ self.old.is_spent }
    {
        match self.follower.feed(packet) {
            Ok(_) => Ok(()),
            Err(fault) => Err(fault),
        }
    }

    /// Puts a packet on the PID of the switched stream of this number that is of no unit of it. Its counter goes on as that of a packet that is
    /// kept. The follower does not take it.
    ///
    /// # Errors
    ///
    /// The sink's, at this packet.
    pub fn put_beside<S: PacketSink>(
        &mut self,
        stream: usize,
        packet: &Packet,
        sink: &mut S,
    ) -> Result<(), PutFault>
        requires { stream < 8 }
        ensures leads { S.leads sink.old sink.new }
        ensures ok { (start : Option (List ℕ)) (ps : List (List ℕ)) (d : SwitchedStream) (steps : List NumberStep) →
            S.holds sink.old start ps → Counts (slice_index_or self.old.playing.streams stream d).counter steps →
            OnOk result (S.holds sink.new start (ps ++ renumbered (moved steps) packet.now ∷ [])) }
        ensures counts { (d : SwitchedStream) (steps : List NumberStep) →
            Counts (slice_index_or self.old.playing.streams stream d).counter steps →
            Counts (slice_index_or self.new.playing.streams stream d).counter (Kept packet.now ∷ steps) }
        ensures puts { (start : Option (List ℕ)) (ps : List (List ℕ)) (c : Config) (filed : ℕ → Option Advertisement) (x : Journey)
            (i : IsOnStream (setting_of c filed) stream packet.now x.read) →
            S.holds sink.old start ps → SwitchStandsAt self.old c filed x →
            OnOk result (S.holds sink.new start (ps ++ renumbered (moved (x.counted i.pid)) packet.now ∷ [])) }
        ensures stands { (c : Config) (filed : ℕ → Option Advertisement) (x : Journey) →
            IsOnStream (setting_of c filed) stream packet.now x.read → SwitchStandsAt self.old c filed x →
            SwitchStandsAt self.new c filed (journey_kept x packet.now) }
        ensures turns { CountsTurns self.old.playing self.new.playing }
        ensures err { (start : Option (List ℕ)) (ps : List (List ℕ)) (d : SwitchedStream) (steps : List NumberStep) →
            S.holds sink.old start ps → Counts (slice_index_or self.old.playing.streams stream d).counter steps →
            IfErr result (λ f. S.fails sink.new start ps (renumbered (moved steps) packet.now) f) }
        ensures follower { self.new.follower ≡ self.old.follower }
        ensures well { OnOk result (WentWell (S.counts sink.old) (S.counts sink.new)) }
        ensures blamed { IfErr result (λ f. Blamed f (S.counts sink.old) (S.counts sink.new) (S.is_full sink.new)) }
    {
        self.playing.put_beside(stream, packet, sink)
    }

    /// Puts what is left of the advertisements that run, and reports. No packet is taken any more.
    ///
    /// # Errors
    ///
    /// `Sink` where the sink failed: it has a front of what was left. `Failed` once a fault was answered, or after this call.
    pub fn finish<S: PacketSink>(
        &mut self,
        library: &AdLibrary,
        sink: &mut S,
    ) -> Result<SwitchReport, FeedFault>
        ensures leads { S.leads sink.old sink.new }
        ensures ok { (start : Option (List ℕ)) (ps : List (List ℕ)) (c : Config) (past : List (List ℕ)) →
            S.holds sink.old start ps → SwitchStandsFor self.old c (held library.now) past →
            OnOk result (S.holds sink.new start (ps ++ rest_at (setting_of c (held library.now)) past)) }
        ensures report { (c : Config) (past : List (List ℕ)) → SwitchStandsFor self.old c (held library.now) past →
            IfOk result (λ r. ReportIs r (report_of (setting_of c (held library.now)) past)) }
        ensures puts { (start : Option (List ℕ)) (ps : List (List ℕ)) (c : Config) (x : Journey) →
            S.holds sink.old start ps → SwitchStandsAt self.old c (held library.now) x →
            OnOk result (S.holds sink.new start (ps ++ puts_last (setting_of c (held library.now)) x)) }
        ensures counts { (c : Config) (x : Journey) → SwitchStandsAt self.old c (held library.now) x →
            IfOk result (λ r. ReportIs r (report_of (setting_of c (held library.now)) x.read)) }
        ensures err { (start : Option (List ℕ)) (ps : List (List ℕ)) (c : Config) (past : List (List ℕ)) →
            S.holds sink.old start ps → SwitchStandsFor self.old c (held library.now) past →
            IfErr result (λ f. FinishFails f c (held library.now) past (λ put q x. S.fails sink.new start (ps ++ put) q x)) }
        ensures well { OnOk result (WentWell (S.counts sink.old) (S.counts sink.new)) }
        ensures blamed { IfErr result (λ f. FeedBlamed f (S.counts sink.old) (S.counts sink.new) (S.is_full sink.new)) }
        ensures kept { IfErr result (λ f. KeepsSink f sink.old sink.new) }
        ensures failed { self.old.is_spent ≡ true → result ≡ Err FeedFault.Failed }
        ensures spent { self.new.is_spent ≡ true }
    {
        if self.is_spent {
            return Err(FeedFault::Failed);
        }
        self.is_spent = true;
        let streams = self.follower.streams();
        match self.playing.finish(streams, library, sink) {
            Ok(()) => Ok(self.playing.report(streams, library)),
            Err(fault) => Err(FeedFault::Sink(fault)),
        }
    }
}
