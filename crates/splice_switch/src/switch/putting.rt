//! What goes out for a packet, by what it is of.

ghost use Rattle.std.specs.Prelude.{◌≡◌, ◌<◌, ◌∷◌, ◌++◌, ℕ, List, Option, None, OnOk, IfErr};
ghost use Rattle.ts_packet.specs.Sinks.{Blamed};
ghost use Rattle.ts_packet.specs.Transfers.{WentWell};
ghost use Rattle.program_follower.specs.Faults.{network_fault};
ghost use Rattle.program_follower.specs.Following.{IsPartOf};
ghost use Rattle.program_follower.specs.Purposes.{reading_cues};
ghost use Rattle.program_follower.specs.declared.purpose.Purpose.{Purpose as FollowedFor};
ghost use Rattle.psi_tables.specs.declared.config.Config.{Config};
ghost use Rattle.outgoing_packets.specs.Faults.{FeedBlamed, KeepsSink, is_err_or};
ghost use Rattle.ad_library.specs.Library.{held};
ghost use Rattle.splice_plans.specs.Adverts.{setting_of};
ghost use Rattle.splice_plans.specs.Switching.{switched_at_packet};
ghost use Rattle.splice_plans.specs.Stepping.{Journey, puts_next};
ghost use Rattle.splice_playing.specs.Courses.{CountsTurns};
ghost use Rattle.splice_playing.specs.Puts.{PutsAll, PutsFront};
ghost use Rattle.splice_switch.specs.Standing.{SwitchStandsAt, SwitchStandsFor, SwitchFollows, FeedFails, GoesOnAt, IsFollowedAs, IsStart};
ghost use Rattle.splice_switch.specs.Takes.{OfJourney, OfNextAt, FailsToTakeAt, ComesFurther, AtFollowed, OfFollowedPuts};

use super::Switch;
use ad_library::AdLibrary;
use outgoing_packets::CueEntry;
use pes_time::Time33;
use program_follower::{StartPacket, StartPlace, StreamPart};
use psi_tables::FeedFault;
use ts_packet::{Packet, PacketSink, PutFault};

impl Switch {
    /// Takes a packet.
    #[inline(always)]
    pub(super) fn take<S: PacketSink>(
        &mut self,
        packet: &Packet,
        library: &AdLibrary,
        sink: &mut S,
    ) -> Result<(), FeedFault>
        ensures leads { S.leads sink.old sink.new }
        ensures ok { OfNextAt self.old (held library.now) packet.now S.PacketSink sink.old
            (PutsAll S.PacketSink sink.new result) }
        ensures stands { OfJourney self.old (held library.now) (ComesFurther self.new (held library.now) packet.now result) }
        ensures sound { OfJourney self.old (held library.now) (λ c x.
            OnOk result (network_fault (reading_cues c) packet.now x.read ≡ None)) }
        ensures turns { OfJourney self.old (held library.now) (λ c x. OnOk result (CountsTurns self.old.playing self.new.playing)) }
        ensures follows { (c : FollowedFor) (past : List (List ℕ)) → SwitchFollows self.old c past →
            OnOk result (SwitchFollows self.new c (packet.now ∷ past)) }
        ensures err { FailsToTakeAt self.old (held library.now) packet.now S.PacketSink sink.old sink.new result }
        ensures well { OnOk result (WentWell (S.counts sink.old) (S.counts sink.new)) }
        ensures blamed { IfErr result (λ f. FeedBlamed f (S.counts sink.old) (S.counts sink.new) (S.is_full sink.new)) }
        ensures kept { IfErr result (λ f. KeepsSink f sink.old sink.new) }
        ensures spent { self.new.is_spent ≡ self.old.is_spent }
    {
        if let Some(of) = self.follower.goes_on(packet) {
            return match self.put_part(of, packet, library, sink) {
                Ok(()) => Ok(()),
                Err(fault) => Err(FeedFault::Sink(fault)),
            };
        }
        match self.follower.feed(packet) {
            Ok(place) => match self.put(&place, packet, library, sink) {
                Ok(()) => Ok(()),
                Err(fault) => Err(FeedFault::Sink(fault)),
            },
            Err(fault) => Err(FeedFault::Network(fault)),
        }
    }

    /// Takes the next packet of the network as [`Switch::feed_with_same`] does, which is this to its stream.
    ///
    /// # Errors
    ///
    /// `Sink` where the sink failed: it has a front of what the packet puts.
    #[inline(always)]
    pub fn go_on<S: PacketSink>(
        &mut self,
        of: StreamPart,
        packet: &Packet,
        library: &AdLibrary,
        sink: &mut S,
    ) -> Result<(), FeedFault>
        requires { of.stream < 8 }
        ensures leads { S.leads sink.old sink.new }
        ensures ok { (start : Option (List ℕ)) (ps : List (List ℕ)) (c : Config) (past : List (List ℕ)) → S.holds sink.old start ps →
            SwitchStandsFor self.old c (held library.now) past → IsPartOf (reading_cues c) of packet.now past →
            OnOk result (S.holds sink.new start (ps ++ switched_at_packet (setting_of c (held library.now)) packet.now past)) }
        ensures stands { (c : Config) (past : List (List ℕ)) → SwitchStandsFor self.old c (held library.now) past →
            IsPartOf (reading_cues c) of packet.now past →
            OnOk result (SwitchStandsFor self.new c (held library.now) (packet.now ∷ past)) }
        ensures err { (start : Option (List ℕ)) (ps : List (List ℕ)) (c : Config) (past : List (List ℕ)) → S.holds sink.old start ps →
            SwitchStandsFor self.old c (held library.now) past → IsPartOf (reading_cues c) of packet.now past →
            IfErr result (λ f. FeedFails f c (held library.now) packet.now past (λ put q x. S.fails sink.new start (ps ++ put) q x)) }
        ensures puts { (start : Option (List ℕ)) (ps : List (List ℕ)) (c : Config) (x : Journey) → S.holds sink.old start ps →
            SwitchStandsAt self.old c (held library.now) x → IsPartOf (reading_cues c) of packet.now x.read →
            OnOk result (S.holds sink.new start (ps ++ puts_next (setting_of c (held library.now)) x packet.now)) }
        ensures goes_on { (c : Config) (x : Journey) → SwitchStandsAt self.old c (held library.now) x →
            IsPartOf (reading_cues c) of packet.now x.read →
            ComesFurther self.new (held library.now) packet.now result c x }
        ensures well { OnOk result (WentWell (S.counts sink.old) (S.counts sink.new)) }
        ensures blamed { IfErr result (λ f. FeedBlamed f (S.counts sink.old) (S.counts sink.new) (S.is_full sink.new)) }
        ensures spent { self.new.is_spent ≡ is_err_or result self.old.is_spent }
    {
        match self.put_part(of, packet, library, sink) {
            Ok(()) => Ok(()),
            Err(fault) => {
                self.is_spent = true;
                Err(FeedFault::Sink(fault))
            }
        }
    }

    /// Takes a packet that is this to its stream.
    #[inline(always)]
    pub(super) fn put_part<S: PacketSink>(
        &mut self,
        of: StreamPart,
        packet: &Packet,
        library: &AdLibrary,
        sink: &mut S,
    ) -> Result<(), PutFault>
        requires { of.stream < 8 }
        ensures leads { S.leads sink.old sink.new }
        ensures ok { OfFollowedPuts (GoesOnAt self.old of) (held library.now) packet.now S.PacketSink sink.old
            (PutsAll S.PacketSink sink.new result) }
        ensures stands { AtFollowed (GoesOnAt self.old of) (held library.now) packet.now
            (ComesFurther self.new (held library.now) packet.now result) }
        ensures turns { AtFollowed (GoesOnAt self.old of) (held library.now) packet.now
            (λ c x. OnOk result (CountsTurns self.old.playing self.new.playing)) }
        ensures follows { (c : FollowedFor) (past : List (List ℕ)) → SwitchFollows self.old c past → IsPartOf c of packet.now past →
            OnOk result (SwitchFollows self.new c (packet.now ∷ past)) }
        ensures err { OfFollowedPuts (GoesOnAt self.old of) (held library.now) packet.now S.PacketSink sink.old
            (PutsFront S.PacketSink sink.new result) }
        ensures well { OnOk result (WentWell (S.counts sink.old) (S.counts sink.new)) }
        ensures blamed { IfErr result (λ f. Blamed f (S.counts sink.old) (S.counts sink.new) (S.is_full sink.new)) }
        ensures spent { self.new.is_spent ≡ self.old.is_spent }
    {
        let given = &of;
        self.follower.go_on(*given, packet);
        match self.put_of_stream(given.stream, &given.part, packet, library, sink) {
            Ok(()) => Ok(()),
            Err(fault) => Err(fault),
        }
    }

    /// Puts what goes out for a packet that was followed, and is of this place.
    #[inline(always)]
    fn put<S: PacketSink>(
        &mut self,
        place: &StartPlace,
        packet: &Packet,
        library: &AdLibrary,
        sink: &mut S,
    ) -> Result<(), PutFault>
        ensures leads { S.leads sink.old sink.new }
        ensures ok { OfFollowedPuts (IsFollowedAs self.old place.now) (held library.now) packet.now S.PacketSink sink.old
            (PutsAll S.PacketSink sink.new result) }
        ensures stands { AtFollowed (IsFollowedAs self.old place.now) (held library.now) packet.now
            (ComesFurther self.new (held library.now) packet.now result) }
        ensures turns { AtFollowed (IsFollowedAs self.old place.now) (held library.now) packet.now
            (λ c x. OnOk result (CountsTurns self.old.playing self.new.playing)) }
        ensures err { OfFollowedPuts (IsFollowedAs self.old place.now) (held library.now) packet.now S.PacketSink sink.old
            (PutsFront S.PacketSink sink.new result) }
        ensures well { OnOk result (WentWell (S.counts sink.old) (S.counts sink.new)) }
        ensures blamed { IfErr result (λ f. Blamed f (S.counts sink.old) (S.counts sink.new) (S.is_full sink.new)) }
        ensures spent { self.new.is_spent ≡ self.old.is_spent }
        ensures follower { self.new.follower ≡ self.old.follower }
    {
        match place {
            StartPlace::Other => self.out.pass(packet, sink),
            StartPlace::Cue => {
                self.playing.obey(packet);
                Ok(())
            }
            StartPlace::Map => {
                let change = CueEntry::Stripped(self.cue_pid);
                let tables = self.follower.tables();
                self.out.put_tables(packet.pid(), tables, &change, sink)
            }
            StartPlace::Stream(stream, part) => {
                self.put_of_stream(*stream, part, packet, library, sink)
            }
        }
    }

    /// Puts what goes out for a packet of the switched stream of this number.
    #[inline(always)]
    fn put_of_stream<S: PacketSink>(
        &mut self,
        stream: usize,
        part: &StartPacket,
        packet: &Packet,
        library: &AdLibrary,
        sink: &mut S,
    ) -> Result<(), PutFault>
        ensures leads { S.leads sink.old sink.new }
        ensures ok { OfFollowedPuts (IsFollowedAs self.old (StartPlace.Stream stream part.now)) (held library.now) packet.now S.PacketSink sink.old
            (PutsAll S.PacketSink sink.new result) }
        ensures stands { AtFollowed (IsFollowedAs self.old (StartPlace.Stream stream part.now)) (held library.now) packet.now
            (ComesFurther self.new (held library.now) packet.now result) }
        ensures turns { AtFollowed (IsFollowedAs self.old (StartPlace.Stream stream part.now)) (held library.now) packet.now
            (λ c x. OnOk result (CountsTurns self.old.playing self.new.playing)) }
        ensures err { OfFollowedPuts (IsFollowedAs self.old (StartPlace.Stream stream part.now)) (held library.now) packet.now S.PacketSink sink.old
            (PutsFront S.PacketSink sink.new result) }
        ensures well { OnOk result (WentWell (S.counts sink.old) (S.counts sink.new)) }
        ensures blamed { IfErr result (λ f. Blamed f (S.counts sink.old) (S.counts sink.new) (S.is_full sink.new)) }
        ensures spent { self.new.is_spent ≡ self.old.is_spent }
        ensures follower { self.new.follower ≡ self.old.follower }
    {
        match part {
            StartPacket::Start(begun) => {
                let time = match begun {
                    None => None,
                    Some(begun) => Some(begun.pts),
                };
                self.put_start(stream, &time, packet, library, sink)
            }
            StartPacket::NoStart => self.playing.put_packet(stream, packet, false, sink),
        }
    }

    /// Puts what goes out for a packet that begins a unit in the stream of this number, of this time where it has one. It
    /// stands by itself, as few packets do.
    #[inline(never)]
    fn put_start<S: PacketSink>(
        &mut self,
        stream: usize,
        time: &Option<Time33>,
        packet: &Packet,
        library: &AdLibrary,
        sink: &mut S,
    ) -> Result<(), PutFault>
        ensures leads { S.leads sink.old sink.new }
        ensures ok { OfFollowedPuts (IsStart self.old stream time.now) (held library.now) packet.now S.PacketSink sink.old
            (PutsAll S.PacketSink sink.new result) }
        ensures stands { AtFollowed (IsStart self.old stream time.now) (held library.now) packet.now
            (ComesFurther self.new (held library.now) packet.now result) }
        ensures turns { AtFollowed (IsStart self.old stream time.now) (held library.now) packet.now
            (λ c x. OnOk result (CountsTurns self.old.playing self.new.playing)) }
        ensures err { OfFollowedPuts (IsStart self.old stream time.now) (held library.now) packet.now S.PacketSink sink.old
            (PutsFront S.PacketSink sink.new result) }
        ensures well { OnOk result (WentWell (S.counts sink.old) (S.counts sink.new)) }
        ensures blamed { IfErr result (λ f. Blamed f (S.counts sink.old) (S.counts sink.new) (S.is_full sink.new)) }
        ensures spent { self.new.is_spent ≡ self.old.is_spent }
        ensures follower { self.new.follower ≡ self.old.follower }
    {
        let high = self.follower.high();
        let streams = self.follower.streams();
        if stream >= streams.len() {
            return Ok(());
        }
        match self
            .playing
            .begin_with_same(stream, time, &high, streams, library, sink)
        {
            Ok(()) => {}
            Err(fault) => return Err(fault),
        }
        match self.playing.put_packet(stream, packet, true, sink) {
            Ok(()) => {}
            Err(fault) => return Err(fault),
        }
        self.playing.advance(&high, streams, library);
        Ok(())
    }
}
