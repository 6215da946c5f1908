//! The injector: messages in and answers out, packets in and packets with cues out.

ghost use Rattle.std.specs.Prelude.{◌≡◌, ◌++◌, ◌∷◌, [], ℕ, List, Option, Some, None, option_map, Err, Bool, true};
ghost use Rattle.std.specs.Prelude.{◌<◌, false, length, slice_get, OnOk, IfErr, IfSome};
ghost use Rattle.pes_time.specs.Line.{ring_of};
ghost use Rattle.ts_packet.specs.Fields.{pid_of, on_one};
ghost use Rattle.ts_packet.specs.Runs.{onto};
ghost use Rattle.ts_packet.specs.Sinks.{Blamed};
ghost use Rattle.ts_packet.specs.Transfers.{WentWell};
ghost use Rattle.scte104_codec.specs.Views.{reading_of};
ghost use Rattle.program_follower.specs.Faults.{network_fault};
ghost use Rattle.outgoing_packets.specs.Numbers.{HasPut, FrontFails};
ghost use Rattle.injector.specs.Replies.{reply_to};
ghost use Rattle.injector.specs.Requests.{RequestsStandFor};
ghost use Rattle.injector.specs.Turns.{Turn, greatest_in};
ghost use Rattle.injector.specs.Senders.{IsIdle};
ghost use Rattle.injector.specs.Noting.{NotesStandFor, StaysAtRest};
ghost use Rattle.injector.specs.Steps.{Step, Message as MessageStep, Packet as PacketStep, packets_in, turns_in};
ghost use Rattle.injector.specs.Steps.{body_at, sent_at, has_news};
ghost use Rattle.injector.specs.Injecting.{InjectorStandsFor, JudgesBy, FeedFails, CountsAre, GoesOnAlone, HasGoneOn, network_answer};
ghost use Rattle.injector.specs.Injecting.{IsFollowed, IsStill, IsBodyOf, RestsAt, KeepsRest, KeepsAllButRest};
ghost use Rattle.outgoing_packets.specs.Faults.{FeedBlamed, KeepsSink, is_err_or};
ghost use Rattle.program_follower.specs.Purposes.{writing_cues};
ghost use Rattle.event_table.specs.Events.{open_count_of};
ghost use Rattle.event_table.specs.Tables.{high_time_of, events_of};
ghost use Rattle.program_follower.specs.Streaming.{place_in, start_in};
ghost use Rattle.program_follower.specs.Program.{listed, known_pids, program_of, pids_of, behind_head};
ghost use Rattle.program_follower.specs.Following.{high_of, on_map, IsPartOf, IsStartPlace, IsUnfollowed};

use crate::choice::is_reached;
use crate::counts::{MessageCounts, counted, has_news_behind};
use crate::cues::put_due;
use crate::requests::Requests;
use arrayvec::ArrayVec;
use event_table::Event;
use outgoing_packets::{CueEntry, Outgoing};
use pes_time::Time33;
use program_follower::{Purpose, StartFollower, StartPacket, StartPlace, StreamPart, UnitStart};
use psi_tables::{Config, FeedFault, NetworkFault};
use scte104_codec::{BadMessage, Message, Reply};
use ts_packet::{Packet, PacketSink, Pid, PutFault};

/// Judges the messages of an automation, and puts the cues of the breaks that it asks for into a network. It takes no memory.
#[derive(Drop)]
pub struct Injector {
    cue_pid: Pid,
    requests: Requests,
    follower: StartFollower,
    out: Outgoing,
    counts: MessageCounts,
    /// A request was accepted since the last packet.
    has_news: bool,
    /// The time before which no cue is repeated; `None` where none is, unless a request comes.
    rest: Option<Time33>,
    is_spent: bool,
}

impl Injector {
    /// An injector that was given no message and no packet.
    #[tactic(auto, using(crate::proofs::BoundLemmas::rests_none))]
    pub fn new(config: Config) -> Injector
        ensures { InjectorStandsFor result config [] }
    {
        Injector {
            cue_pid: config.cue_pid,
            requests: Requests::new(config.index),
            follower: StartFollower::new(Purpose::writing_cues(&config)),
            out: Outgoing::new(),
            counts: MessageCounts {
                messages: 0,
                accepted: 0,
                refused: 0,
            },
            has_news: false,
            rest: None,
            is_spent: false,
        }
    }

    /// Begins anew for this: it was given no message and no packet, as [`Injector::new`] was not, and stays where it lies.
    #[tactic(auto, using(crate::proofs::BoundLemmas::rests_none))]
    pub fn begin_anew(&mut self, config: Config)
        ensures { InjectorStandsFor self.new config [] }
    {
        self.cue_pid = config.cue_pid;
        self.requests = Requests::new(config.index);
        self.follower.begin_anew(Purpose::writing_cues(&config));
        self.out.begin_anew();
        self.counts = MessageCounts {
            messages: 0,
            accepted: 0,
            refused: 0,
        };
        self.has_news = false;
        self.rest = None;
        self.is_spent = false;
    }

    /// Judges a message by the packets so far, and answers it; also after a fault of [`Injector::feed`].
    pub fn ask(&mut self, message: Result<Message<'_>, BadMessage>) -> Reply
        ensures answer { (c : Config) (past : List Step) → JudgesBy self.old c past →
            result ≡ reply_to c.index (reading_of message.entry) (turns_in c.program past) }
        ensures judges { (c : Config) (past : List Step) → JudgesBy self.old c past →
            JudgesBy self.new c (MessageStep (reading_of message.entry) ∷ past) }
        ensures stands { (c : Config) (past : List Step) → InjectorStandsFor self.old c past →
            InjectorStandsFor self.new c (MessageStep (reading_of message.entry) ∷ past) }
        ensures spent { self.new.is_spent ≡ self.old.is_spent }
    {
        let reply = self.requests.ask(message);
        self.counts = counted(self.counts, &reply);
        self.has_news = has_news_behind(self.has_news, &reply);
        reply
    }

    /// The event that stands at this place, in order of the starts that were accepted, those that are cancelled among them; `None` behind
    /// the last one.
    pub fn standing_event(&self, place: usize) -> Option<Event>
        ensures { result ≡ slice_get (events_of self.now.requests.table) place }
    {
        self.requests.standing_event(place)
    }

    /// How many messages were judged.
    pub fn counts(&self) -> MessageCounts
        ensures { (c : Config) (past : List Step) → JudgesBy self.now c past →
            CountsAre result c.index (turns_in c.program past) }
    {
        self.counts
    }

    /// The PIDs that are known of its program: that of the map once the PAT gave it, and behind it those of the switched streams in the order
    /// of the map, once that came.
    pub fn pids(&self) -> ArrayVec<Pid, 9>
        ensures { (c : Config) (past : List Step) → InjectorStandsFor self.now c past →
            result.items ≡ known_pids (Some c.program) (packets_in past) }
    {
        self.follower.pids()
    }

    /// How many PIDs are known of its program.
    #[inline(always)]
    pub fn pid_count(&self) -> usize
        ensures { (c : Config) (past : List Step) → InjectorStandsFor self.now c past →
            result ≡ length (known_pids (Some c.program) (packets_in past)) }
    {
        self.follower.pid_count()
    }

    /// The packet is on one of the PIDs that are known of its program, and not marked in error.
    #[inline(always)]
    pub fn owns(&self, packet: &Packet) -> bool
        ensures { (c : Config) (past : List Step) → InjectorStandsFor self.now c past →
            result ≡ on_one (known_pids (Some c.program) (packets_in past)) packet.now }
    {
        self.follower.owns(packet)
    }

    /// Nothing of its program is on the PID, behind its PAT: neither its map nor a switched stream, nor the PAT, nor the cues.
    #[inline(always)]
    pub fn overlooks_pid(&self, pid: Pid) -> bool
        ensures { (c : Config) (past : List Step) → InjectorStandsFor self.now c past → result ≡ true →
            IsUnfollowed (Some c.program) (Some c.cue_pid) pid (packets_in past) }
    {
        self.follower.overlooks(pid)
    }

    /// Nothing of its program is on the packet's PID, behind its PAT, and no request was accepted since the last packet: the packet would go out
    /// alone, and change nothing. One look-up tells most packets.
    #[inline(always)]
    pub fn overlooks(&self, packet: &Packet) -> bool
        ensures quiet { (c : Config) (past : List Step) → InjectorStandsFor self.now c past → result ≡ true →
            has_news c.index (turns_in c.program past) ≡ false }
        ensures unfollowed { (c : Config) (past : List Step) → InjectorStandsFor self.now c past → result ≡ true →
            IsUnfollowed (Some c.program) (Some c.cue_pid) (pid_of packet.now) (packets_in past) }
    {
        !self.has_news && self.overlooks_pid(packet.pid())
    }

    /// What the next packet of the network is to its switched stream, where nothing is wrong with it, no request was accepted since the last packet
    /// and no cue is due before it: it goes out alone, as it came. `None` where it is no such packet, or where it begins a unit and a cue may be
    /// due. It is not taken.
    #[inline(always)]
    pub fn goes_on(&self, packet: &Packet) -> Option<StreamPart>
        ensures below { IfSome result (λ of. of.stream < 8) }
        ensures alone { (c : Config) (past : List Step) → InjectorStandsFor self.now c past →
            IfSome result (λ of. GoesOnAlone c of packet.now past) }
        ensures told { (c : Config) (past : List Step) → InjectorStandsFor self.now c past →
            (of : StreamPart) → of.part ≡ StartPacket.NoStart → GoesOnAlone c of packet.now past → result ≡ Some of }
    {
        if self.is_spent || self.has_news {
            return None;
        }
        let Some(of) = self.follower.goes_on(packet) else {
            return None;
        };
        let given = &of;
        if self.may_be_due_behind(*given) {
            return None;
        }
        Some(*given)
    }

    /// Whether a cue may be due before the next packet, which is this to its stream, where no request was accepted since the last packet: where a
    /// unit begins with it and the greatest time comes to the time that is kept.
    #[inline(always)]
    fn may_be_due_behind(&self, of: StreamPart) -> bool
        ensures idle { (c : Config) (p : List ℕ) (past : List Step) → InjectorStandsFor self.now c past →
            has_news c.index (turns_in c.program past) ≡ false → IsPartOf (writing_cues c) of p (packets_in past) → result ≡ false →
            IsIdle c.index (high_of (Some c.program) (p ∷ packets_in past)) (turns_in c.program past) }
        ensures still { of.part ≡ StartPacket.NoStart → result ≡ false }
    {
        match of.part {
            StartPacket::NoStart => false,
            StartPacket::Start(_) => is_reached(self.rest, self.follower.high_behind(of)),
        }
    }

    /// Takes the next packet of the network, which is this to its stream and goes out alone. It is not put here.
    #[inline(always)]
    pub fn go_on(&mut self, of: StreamPart, packet: &Packet)
        requires { of.stream < 8 }
        ensures stands { (c : Config) (past : List Step) → InjectorStandsFor self.old c past → GoesOnAlone c of packet.now past →
            InjectorStandsFor self.new c (PacketStep packet.now ∷ past) }
        ensures spent { self.new.is_spent ≡ self.old.is_spent }
    {
        let given = &of;
        self.follower.go_on(*given, packet);
        if given.part.is_start() {
            self.rise();
        }
    }

    /// Takes the greatest time behind a packet that was followed and goes out alone.
    #[inline(never)]
    fn rise(&mut self)
        ensures stands { (c : Config) (of : StreamPart) (p : List ℕ) (past : List Step) → HasGoneOn self.old c of p past →
            InjectorStandsFor self.new c (PacketStep p ∷ past) }
        ensures spent { self.new.is_spent ≡ self.old.is_spent }
    {
        let high = self.follower.high();
        let later = &high;
        let is_due = is_reached(self.rest, *later);
        self.requests.rise(*later);
        self.note_rest(is_due);
    }

    /// What is wrong with the next packet of the network, behind those before it. It is not taken, and nothing changes.
    #[inline(always)]
    pub fn look(&self, packet: &Packet) -> Option<NetworkFault>
        ensures { (c : Config) (past : List Step) → InjectorStandsFor self.now c past →
            result ≡ network_fault (writing_cues c) packet.now (packets_in past) }
    {
        self.follower.look(packet)
    }

    /// The number of the switched stream that the packet is of, behind the head, counted from 0 in the order of the map; `None` where it is of
    /// none.
    pub fn stream_of(&self, packet: &Packet) -> Option<usize>
        ensures below { IfSome result (λ place. place < 8) }
        ensures place { (c : Config) (past : List Step) → InjectorStandsFor self.now c past →
            result ≡ place_in (pids_of (program_of (Some c.program) (packets_in past))) packet.now }
    {
        self.follower.stream_of(packet)
    }

    /// The unit that the next packet of the network, which is of the switched stream of this number, would begin there, scrambled or not;
    /// `None` where it begins none. It is not taken.
    pub fn start_at(&self, stream: usize, packet: &Packet) -> Option<UnitStart>
        requires { stream < 8 }
        ensures { (c : Config) (past : List Step) → InjectorStandsFor self.now c past →
            Some stream ≡ place_in (pids_of (program_of (Some c.program) (packets_in past))) packet.now →
            result ≡ start_in (pids_of (program_of (Some c.program) (packets_in past))) packet.now
            (behind_head (Some c.program) (packets_in past)) }
    {
        self.follower.start_at(stream, packet)
    }

    /// How many of the starts that were accepted are not cancelled, and have an end that lies past the greatest time. There is none before the
    /// first time.
    pub fn open_count(&self) -> usize
        ensures { result ≡ open_count_of (high_time_of self.now.requests.table) (events_of self.now.requests.table) }
    {
        self.requests.open_count()
    }

    /// Takes the next packet of the network, and puts the cues that are due before it, and then the packet, or in the place of a packet
    /// on the PID of the program's map the sections that it finishes.
    ///
    /// # Errors
    ///
    /// `Network` with what is wrong with the packet behind those before it: nothing was put then. `Sink` where the sink failed: it has
    /// a front of what the packet sends. `Failed` once a fault was answered.
    #[inline(always)]
    pub fn feed<S: PacketSink>(&mut self, packet: &Packet, sink: &mut S) -> Result<(), FeedFault>
        ensures leads { S.leads sink.old sink.new }
        ensures ok { (start : Option (List ℕ)) (ps : List (List ℕ)) (c : Config) (past : List Step) →
            S.holds sink.old start ps → InjectorStandsFor self.old c past →
            OnOk result (S.holds sink.new start (ps ++ sent_at c packet.now past)) }
        ensures stands { (c : Config) (past : List Step) → InjectorStandsFor self.old c past →
            OnOk result (InjectorStandsFor self.new c (PacketStep packet.now ∷ past)) }
        ensures sound { (c : Config) (past : List Step) → InjectorStandsFor self.old c past →
            OnOk result (network_fault (writing_cues c) packet.now (packets_in past) ≡ None) }
        ensures found { (c : Config) (past : List Step) → InjectorStandsFor self.old c past →
            network_answer result ≡ network_fault (writing_cues c) packet.now (packets_in past) }
        ensures err { (start : Option (List ℕ)) (ps : List (List ℕ)) (c : Config) (past : List Step) →
            S.holds sink.old start ps → InjectorStandsFor self.old c past →
            IfErr result (λ f. FeedFails f c packet.now past (λ put p x. S.fails sink.new start (ps ++ put) p x)) }
        ensures judges { (c : Config) (past : List Step) → JudgesBy self.old c past →
            IfErr result (λ _. JudgesBy self.new c past) }
        ensures well { OnOk result (WentWell (S.counts sink.old) (S.counts sink.new)) }
        ensures blamed { IfErr result (λ f. FeedBlamed f (S.counts sink.old) (S.counts sink.new) (S.is_full sink.new)) }
        ensures kept { IfErr result (λ f. KeepsSink f sink.old sink.new) }
        ensures failed { self.old.is_spent ≡ true → result ≡ Err FeedFault.Failed }
        ensures spent { self.new.is_spent ≡ is_err_or result self.old.is_spent }
    {
        if self.is_spent {
            return Err(FeedFault::Failed);
        }
        match self.take(packet, sink) {
            Ok(()) => Ok(()),
            Err(fault) => {
                self.is_spent = true;
                Err(fault)
            }
        }
    }

    /// Takes a packet.
    #[inline(always)]
    fn take<S: PacketSink>(&mut self, packet: &Packet, sink: &mut S) -> Result<(), FeedFault>
        ensures leads { S.leads sink.old sink.new }
        ensures ok { (start : Option (List ℕ)) (ps : List (List ℕ)) (c : Config) (past : List Step) →
            S.holds sink.old start ps → InjectorStandsFor self.old c past →
            OnOk result (S.holds sink.new start (ps ++ sent_at c packet.now past)) }
        ensures stands { (c : Config) (past : List Step) → InjectorStandsFor self.old c past →
            OnOk result (InjectorStandsFor self.new c (PacketStep packet.now ∷ past)) }
        ensures sound { (c : Config) (past : List Step) → InjectorStandsFor self.old c past →
            OnOk result (network_fault (writing_cues c) packet.now (packets_in past) ≡ None) }
        ensures found { (c : Config) (past : List Step) → InjectorStandsFor self.old c past →
            network_answer result ≡ network_fault (writing_cues c) packet.now (packets_in past) }
        ensures err { (start : Option (List ℕ)) (ps : List (List ℕ)) (c : Config) (past : List Step) →
            S.holds sink.old start ps → InjectorStandsFor self.old c past →
            IfErr result (λ f. FeedFails f c packet.now past (λ put p x. S.fails sink.new start (ps ++ put) p x)) }
        ensures judges { (c : Config) (past : List Step) → JudgesBy self.old c past →
            IfErr result (λ _. JudgesBy self.new c past) }
        ensures well { OnOk result (WentWell (S.counts sink.old) (S.counts sink.new)) }
        ensures blamed { IfErr result (λ f. FeedBlamed f (S.counts sink.old) (S.counts sink.new) (S.is_full sink.new)) }
        ensures kept { IfErr result (λ f. KeepsSink f sink.old sink.new) }
        ensures spent { self.new.is_spent ≡ self.old.is_spent }
    {
        match self.follower.feed(packet) {
            Ok(place) => {
                if self.may_be_due(&place) {
                    return match self.put(place.is_map(), packet, sink) {
                        Ok(()) => Ok(()),
                        Err(fault) => Err(FeedFault::Sink(fault)),
                    };
                }
                match self.put_still(packet, sink) {
                    Ok(()) => Ok(()),
                    Err(fault) => Err(FeedFault::Sink(fault)),
                }
            }
            Err(fault) => Err(FeedFault::Network(fault)),
        }
    }

    /// Whether a cue may be due before a packet of this place, or it goes out as another: where the greatest time stays and no request was
    /// accepted since the last packet, none is.
    #[inline(always)]
    fn may_be_due(&self, place: &StartPlace) -> bool
        ensures quiet { result ≡ false → self.now.has_news ≡ false }
        ensures still { (c : Purpose) (p : List ℕ) (past : List (List ℕ)) → IsStartPlace place.now c p past
            → result ≡ false → high_of c.program (p ∷ past) ≡ high_of c.program past }
        ensures elsewhere { (c : Purpose) (p : List ℕ) (past : List (List ℕ)) → IsStartPlace place.now c p past
            → result ≡ false → on_map (listed c.program past) p ≡ false }
    {
        self.has_news || place.may_rise()
    }

    /// Puts a packet as it came, where no cue can be due before it. Of the events nothing changes.
    #[inline(always)]
    fn put_still<S: PacketSink>(&mut self, packet: &Packet, sink: &mut S) -> Result<(), PutFault>
        ensures leads { S.leads sink.old sink.new }
        ensures ok { (start : Option (List ℕ)) (ps : List (List ℕ)) (c : Config) (past : List Step) →
            S.holds sink.old start ps → IsStill self.old c packet.now past →
            OnOk result (S.holds sink.new start (ps ++ sent_at c packet.now past)) }
        ensures stands { (c : Config) (past : List Step) → IsStill self.old c packet.now past →
            OnOk result (InjectorStandsFor self.new c (PacketStep packet.now ∷ past)) }
        ensures err { (start : Option (List ℕ)) (ps : List (List ℕ)) (c : Config) (past : List Step) →
            S.holds sink.old start ps → IsStill self.old c packet.now past →
            IfErr result (λ f. FrontFails (sent_at c packet.now past)
            (λ put p. S.fails sink.new start (ps ++ put) p f)) }
        ensures judges { (c : Config) (past : List Step) → JudgesBy self.old c past →
            IfErr result (λ _. JudgesBy self.new c past) }
        ensures spent { self.new.is_spent ≡ self.old.is_spent }
        ensures well { OnOk result (WentWell (S.counts sink.old) (S.counts sink.new)) }
        ensures blamed { IfErr result (λ f. Blamed f (S.counts sink.old) (S.counts sink.new) (S.is_full sink.new)) }
    {
        self.put_body(false, packet, sink)
    }

    /// Puts what goes out for a packet that was followed, which is on the PID of the map or not.
    #[inline(always)]
    fn put<S: PacketSink>(
        &mut self,
        is_map: bool,
        packet: &Packet,
        sink: &mut S,
    ) -> Result<(), PutFault>
        ensures leads { S.leads sink.old sink.new }
        ensures ok { (start : Option (List ℕ)) (ps : List (List ℕ)) (c : Config) (past : List Step) →
            S.holds sink.old start ps →
            IsFollowed self.old is_map c packet.now past →
            OnOk result (S.holds sink.new start (ps ++ sent_at c packet.now past)) }
        ensures stands { (c : Config) (past : List Step) → IsFollowed self.old is_map c packet.now past →
            OnOk result (InjectorStandsFor self.new c (PacketStep packet.now ∷ past)) }
        ensures err { (start : Option (List ℕ)) (ps : List (List ℕ)) (c : Config) (past : List Step) →
            S.holds sink.old start ps →
            IsFollowed self.old is_map c packet.now past →
            IfErr result (λ f. FrontFails (sent_at c packet.now past)
            (λ put p. S.fails sink.new start (ps ++ put) p f)) }
        ensures judges { (c : Config) (past : List Step) → JudgesBy self.old c past →
            IfErr result (λ _. JudgesBy self.new c past) }
        ensures spent { self.new.is_spent ≡ self.old.is_spent }
        ensures well { OnOk result (WentWell (S.counts sink.old) (S.counts sink.new)) }
        ensures blamed { IfErr result (λ f. Blamed f (S.counts sink.old) (S.counts sink.new) (S.is_full sink.new)) }
    {
        let later = self.follower.high();
        let pid = self.cue_pid;
        let is_due = self.is_due(&later);
        match put_due(is_due, &mut self.requests, &later, pid, &mut self.out, sink) {
            Ok(()) => {}
            Err(fault) => return Err(fault),
        }
        match self.put_body(is_map, packet, sink) {
            Ok(()) => {}
            Err(fault) => return Err(fault),
        }
        self.requests.rise(later);
        self.note_rest(is_due);
        Ok(())
    }

    /// Whether a cue may be due before a packet that was followed, behind which this is the greatest time: where it has come to the
    /// time that is kept, or a request was accepted since the last packet. It looks at no event.
    #[inline(always)]
    fn is_due(&self, later: &Option<Time33>) -> bool
        ensures stays { (is_map : Bool) (c : Config) (p : List ℕ) (past : List Step) → IsFollowed self.now is_map c p past →
            later.now ≡ option_map ring_of (high_of (Some c.program) (p ∷ packets_in past)) → result ≡ false →
            StaysAtRest self.now.rest c.index (high_of (Some c.program) (p ∷ packets_in past)) (turns_in c.program past) }
        ensures news { result ≡ false → self.now.has_news ≡ false }
    {
        self.has_news || is_reached(self.rest, *later)
    }

    /// Notes behind a packet until when no cue is due: by each event where one may have been due before it, and else what was noted holds.
    #[inline(always)]
    fn note_rest(&mut self, is_due: bool)
        ensures rest { (index : ℕ) (past : List Turn) → RequestsStandFor self.old.requests index past →
            NotesStandFor self.old.requests index past → IsIdle index (greatest_in past) past →
            (is_due ≡ false → RestsAt self.old.rest index past) → RestsAt self.new.rest index past }
        ensures news { (is_due ≡ false → self.old.has_news ≡ false) → self.new.has_news ≡ false }
        ensures kept { KeepsAllButRest self.old self.new }
    {
        if is_due {
            self.rest = self.requests.rest();
            self.has_news = false;
        }
    }

    /// Puts the packet, or the sections that it finishes on the PID of the map.
    #[inline(always)]
    fn put_body<S: PacketSink>(
        &mut self,
        is_map: bool,
        packet: &Packet,
        sink: &mut S,
    ) -> Result<(), PutFault>
        ensures leads { S.leads sink.old sink.new }
        ensures ok { (start : Option (List ℕ)) (ps puts : List (List ℕ)) (c : Config) (past : List (List ℕ)) →
            S.holds sink.old start ps → HasPut self.old.out puts →
            IsBodyOf self.old is_map c packet.now past →
            OnOk result (S.holds sink.new start (ps ++ body_at c packet.now past puts)) }
        ensures numbers { (puts : List (List ℕ)) (c : Config) (past : List (List ℕ)) → HasPut self.old.out puts →
            IsBodyOf self.old is_map c packet.now past →
            OnOk result (HasPut self.new.out (onto puts (body_at c packet.now past puts))) }
        ensures err { (start : Option (List ℕ)) (ps puts : List (List ℕ)) (c : Config) (past : List (List ℕ)) →
            S.holds sink.old start ps → HasPut self.old.out puts →
            IsBodyOf self.old is_map c packet.now past →
            IfErr result (λ f. FrontFails (body_at c packet.now past puts)
            (λ put p. S.fails sink.new start (ps ++ put) p f)) }
        ensures rest { KeepsRest self.old self.new }
        ensures well { OnOk result (WentWell (S.counts sink.old) (S.counts sink.new)) }
        ensures blamed { IfErr result (λ f. Blamed f (S.counts sink.old) (S.counts sink.new) (S.is_full sink.new)) }
    {
        if !is_map {
            return self.out.pass(packet, sink);
        }
        let change = CueEntry::Added(self.cue_pid);
        let tables = self.follower.tables();
        self.out.put_tables(packet.pid(), tables, &change, sink)
    }
}
