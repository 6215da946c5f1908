//! The events in the switched streams: which have begun, which are over, and what has gone out of their slices.

ghost use Rattle.std.specs.Prelude.{◌≡◌, ◌<◌, ◌++◌, ◌∷◌, [], ℕ, List, length, slice_index_or, Option, OnOk, IfErr, true};
ghost use Rattle.ts_packet.specs.Numbering.{Step, Kept, Counts, moved};
ghost use Rattle.ts_packet.specs.Fields.{renumbered};
ghost use Rattle.ts_packet.specs.Sinks.{Blamed};
ghost use Rattle.ts_packet.specs.Transfers.{WentWell};
ghost use Rattle.ad_library.specs.Library.{held};
ghost use Rattle.splice_plans.specs.Counters.{PidSteps};
ghost use Rattle.splice_plans.specs.Switching.{Setting};
ghost use Rattle.splice_plans.specs.Stepping.{counted_next, steps_kept};
ghost use Rattle.splice_playing.specs.Ready.{is_ready};
ghost use Rattle.splice_playing.specs.Resting.{is_rest, is_idle};

mod running;
mod telling;
mod turning;

use crate::forgetting::with_forgotten;
use crate::leaving::{LeavingUnit, is_repeat_in};
use crate::resting::{first_rest, keeps_all};
use ad_library::AdLibrary;
use armed_events::ArmedEvents;
use pes_time::Time33;
use psi_tables::Stream;
use splice_plans::{Plan, SwitchReport, SwitchedStream, runs_any};
use ts_packet::{Packet, PacketSink, PutFault};

/// The events that stand, with their plans, the streams, and what became of the events that are forgotten.
#[derive(Drop)]
pub struct Playing {
    events: ArmedEvents<Plan>,
    streams: [SwitchedStream; 8],
    /// Of each stream the unit that is left out of it, where one is.
    leaving: [LeavingUnit; 8],
    forgotten: SwitchReport,
    /// The time until which all events that stand wait in all streams, or `None` where that is not known.
    rest: Option<Time33>,
    /// Whether an event may run in some stream: where not, none does.
    may_run: bool,
    /// The greatest time at which all that was due of the events that run went out, where no event has changed since; `None` where that is
    /// not known.
    all_out: Option<Time33>,
    /// How often a cue came, an event came further in a stream or was crossed, or events were forgotten. The count stops at the greatest u64.
    turns: u64,
    ghost ready: { is_ready events.assembler ≡ true },
    ghost rested: { is_rest rest events.obeyed.table ≡ true },
    ghost idle: { is_idle may_run events.obeyed.table ≡ true },
}

impl Playing {
    ghost use Rattle.splice_playing.specs.Relations.{PlaysBy, PlaysBefore, PlaysBehind, BeginsIn, unasked};
    ghost use Rattle.splice_playing.specs.Relations.{IsCueOf, IsPacketOf, IsOnStream, EndsWith, Reports};
    ghost use Rattle.splice_playing.specs.Courses.{CountsTurns};
    ghost use Rattle.splice_playing.specs.Puts.{PutsAll, PutsFront, AtUnitStart, OfUnitStart, OfPlace, OfRest};

    /// No event, and nothing is out.
    pub fn new() -> Playing
        ensures { (k : Setting) (steps : PidSteps) → PlaysBy result k [] steps }
    {
        Playing {
            events: ArmedEvents::new(),
            streams: [SwitchedStream::new(); 8],
            leaving: [LeavingUnit::new(); 8],
            forgotten: SwitchReport::new(),
            rest: None,
            may_run: true,
            all_out: None,
            turns: 0,
        }
    }

    /// Obeys the cues that a packet of their PID finishes.
    pub fn obey(&mut self, packet: &Packet)
        ensures plays { (k : Setting) (past : List (List ℕ)) (steps : PidSteps) → IsCueOf k packet.now past → PlaysBy self.old k past steps →
            PlaysBy self.new k (packet.now ∷ past) (counted_next k steps packet.now past) }
        ensures turns { CountsTurns self.old self.new }
    {
        self.events.feed(packet, Plan::new());
        self.rest = first_rest(self.events.table());
        self.all_out = None; // An earlier end may leave out a unit that was not due, behind which one is.
        self.turns = self.turns.saturating_add(1); // An event may be armed, end earlier or be cancelled.
    }

    /// Forgets that what was due of the events that run is out: it was due by the streams and the library of that call, and others may make
    /// more due at the same greatest time.
    pub fn ask_anew(&mut self)
        ensures { self.new ≡ unasked self.old }
    {
        self.all_out = None;
    }

    /// A unit begins in the stream of this number, of this time where it has one, behind which `high` is the greatest time: puts what goes
    /// out before it. What is due of the events that run is asked for anew.
    ///
    /// # Errors
    ///
    /// The sink's. Packets before the one that failed are out; how far the events and the streams have come is open then.
    pub fn begin<S: PacketSink>(
        &mut self,
        stream: usize,
        time: &Option<Time33>,
        high: &Option<Time33>,
        streams: &[Stream],
        library: &AdLibrary,
        sink: &mut S,
    ) -> Result<(), PutFault>
        requires { stream < length streams.now }
        ensures leads { S.leads sink.old sink.new }
        ensures ok { OfUnitStart (unasked self.old) (held library.now) streams.now stream time.now high.now S.PacketSink sink.old
            (PutsAll S.PacketSink sink.new result) }
        ensures plays { AtUnitStart (unasked self.old) (held library.now) streams.now stream time.now high.now
            (λ k p past steps. OnOk result (PlaysBefore self.new k p past steps)) }
        ensures turns { AtUnitStart (unasked self.old) (held library.now) streams.now stream time.now high.now
            (λ k p past steps. OnOk result (CountsTurns self.old self.new)) }
        ensures err { OfUnitStart (unasked self.old) (held library.now) streams.now stream time.now high.now S.PacketSink sink.old
            (PutsFront S.PacketSink sink.new result) }
        ensures well { OnOk result (WentWell (S.counts sink.old) (S.counts sink.new)) }
        ensures blamed { IfErr result (λ f. Blamed f (S.counts sink.old) (S.counts sink.new) (S.is_full sink.new)) }
    {
        self.ask_anew();
        self.begin_with_same(stream, time, high, streams, library, sink)
    }

    /// As [`Playing::begin`], where the streams and the library are those of the calls before: what is due of the events that run is asked for
    /// once for each greatest time.
    ///
    /// # Errors
    ///
    /// The sink's. Packets before the one that failed are out; how far the events and the streams have come is open then.
    pub fn begin_with_same<S: PacketSink>(
        &mut self,
        stream: usize,
        time: &Option<Time33>,
        high: &Option<Time33>,
        streams: &[Stream],
        library: &AdLibrary,
        sink: &mut S,
    ) -> Result<(), PutFault>
        requires { stream < length streams.now }
        ensures leads { S.leads sink.old sink.new }
        ensures ok { OfUnitStart self.old (held library.now) streams.now stream time.now high.now S.PacketSink sink.old
            (PutsAll S.PacketSink sink.new result) }
        ensures plays { AtUnitStart self.old (held library.now) streams.now stream time.now high.now
            (λ k p past steps. OnOk result (PlaysBefore self.new k p past steps)) }
        ensures turns { AtUnitStart self.old (held library.now) streams.now stream time.now high.now
            (λ k p past steps. OnOk result (CountsTurns self.old self.new)) }
        ensures err { OfUnitStart self.old (held library.now) streams.now stream time.now high.now S.PacketSink sink.old
            (PutsFront S.PacketSink sink.new result) }
        ensures well { OnOk result (WentWell (S.counts sink.old) (S.counts sink.new)) }
        ensures blamed { IfErr result (λ f. Blamed f (S.counts sink.old) (S.counts sink.new) (S.is_full sink.new)) }
    {
        match self.turn(stream, time, streams, library, sink) {
            Ok(()) => {}
            Err(fault) => return Err(fault),
        }
        match high {
            None => Ok(()),
            Some(_) => self.put_running_due(high, streams, library, sink),
        }
    }

    /// Puts a packet of the stream of this number, or its clock reference where its unit lies in a played event. `is_start` says that a unit
    /// begins with it.
    ///
    /// # Errors
    ///
    /// The sink's, at the packet that was to go out. How far the stream has come is open then.
    #[inline(always)]
    pub fn put_packet<S: PacketSink>(
        &mut self,
        stream: usize,
        packet: &Packet,
        is_start: bool,
        sink: &mut S,
    ) -> Result<(), PutFault>
        ensures leads { S.leads sink.old sink.new }
        ensures ok { OfPlace self.old stream is_start packet.now S.PacketSink sink.old (PutsAll S.PacketSink sink.new result) }
        ensures plays { (k : Setting) (past : List (List ℕ)) (steps : PidSteps) →
            PlaysBefore self.old k packet.now past steps → IsPacketOf k stream is_start packet.now past →
            OnOk result (PlaysBehind self.new k packet.now past steps) }
        ensures turns { CountsTurns self.old self.new }
        ensures err { OfPlace self.old stream is_start packet.now S.PacketSink sink.old (PutsFront S.PacketSink sink.new result) }
        ensures well { OnOk result (WentWell (S.counts sink.old) (S.counts sink.new)) }
        ensures blamed { IfErr result (λ f. Blamed f (S.counts sink.old) (S.counts sink.new) (S.is_full sink.new)) }
    {
        let of = self.streams[stream % 8];
        if of.is_leaving {
            let is_repeat = is_repeat_in(&mut self.leaving, stream % 8, packet, is_start);
            let mut leaving = of;
            let put = leaving.leave(packet, is_repeat, sink);
            self.streams[stream % 8] = leaving;
            return put;
        }
        let mut kept = of;
        let put = kept.keep(packet, sink);
        self.streams[stream % 8] = kept;
        put
    }

    /// Puts a packet on the PID of the stream of this number that is of no unit of it, in a played event or not. It is counted as one that is
    /// kept.
    ///
    /// # Errors
    ///
    /// The sink's, at this packet, which is counted all the same.
    pub fn put_beside<S: PacketSink>(
        &mut self,
        stream: usize,
        packet: &Packet,
        sink: &mut S,
    ) -> Result<(), PutFault>
        requires { stream < 8 }
        ensures leads { S.leads sink.old sink.new }
        ensures ok { (start : Option (List ℕ)) (ps : List (List ℕ)) (d : SwitchedStream) (steps : List Step) →
            S.holds sink.old start ps → Counts (slice_index_or self.old.streams stream d).counter steps →
            OnOk result (S.holds sink.new start (ps ++ renumbered (moved steps) packet.now ∷ [])) }
        ensures counts { (d : SwitchedStream) (steps : List Step) →
            Counts (slice_index_or self.old.streams stream d).counter steps →
            Counts (slice_index_or self.new.streams stream d).counter (Kept packet.now ∷ steps) }
        ensures plays { (k : Setting) (past : List (List ℕ)) (steps : PidSteps) → PlaysBy self.old k past steps →
            IsOnStream k stream packet.now past → PlaysBy self.new k past (steps_kept packet.now steps) }
        ensures turns { CountsTurns self.old self.new }
        ensures err { (start : Option (List ℕ)) (ps : List (List ℕ)) (d : SwitchedStream) (steps : List Step) →
            S.holds sink.old start ps → Counts (slice_index_or self.old.streams stream d).counter steps →
            IfErr result (λ f. S.fails sink.new start ps (renumbered (moved steps) packet.now) f) }
        ensures well { OnOk result (WentWell (S.counts sink.old) (S.counts sink.new)) }
        ensures blamed { IfErr result (λ f. Blamed f (S.counts sink.old) (S.counts sink.new) (S.is_full sink.new)) }
    {
        let mut kept = self.streams[stream];
        let put = kept.keep(packet, sink);
        self.streams[stream] = kept;
        put
    }

    /// Takes this as the greatest time behind the packet that was put, and counts the events that are forgotten by it.
    pub fn advance(&mut self, high: &Option<Time33>, streams: &[Stream], library: &AdLibrary)
        ensures plays { (k : Setting) (number : ℕ) (time : Option ℕ) (p : List ℕ) (past : List (List ℕ)) (steps : PidSteps) →
            PlaysBehind self.old k p past steps → BeginsIn k (held library.now) streams.now number time high.now p past →
            PlaysBy self.new k (p ∷ past) (counted_next k steps p past) }
        ensures turns { CountsTurns self.old self.new }
    {
        let Some(high) = *high else {
            return;
        };
        if !self.events.table().can_advance(high) {
            return;
        }
        if self.is_at_rest(&Some(high)) {
            let _ticks = high.ticks();
            self.events.advance_keeping_all(high);
            return;
        }
        // An event that stands has begun, or one that is not played should have: the rest comes back once it is forgotten.
        if keeps_all(self.events.table(), high) {
            let _ticks = high.ticks();
            self.events.advance_keeping_all(high);
            self.rest = None;
            return;
        }
        self.forgotten = with_forgotten(
            self.forgotten,
            self.events.table(),
            high,
            streams,
            library,
        );
        self.events.advance(high);
        self.rest = first_rest(self.events.table());
        self.may_run = runs_any(self.events.table());
        self.all_out = None;
        self.turns = self.turns.saturating_add(1); // An event is forgotten.
    }

    /// Puts what is left of the events that run, by stream.
    ///
    /// # Errors
    ///
    /// The sink's. Packets before the one that failed are out; what [`Playing::report`] answers then is open.
    pub fn finish<S: PacketSink>(
        &mut self,
        streams: &[Stream],
        library: &AdLibrary,
        sink: &mut S,
    ) -> Result<(), PutFault>
        ensures leads { S.leads sink.old sink.new }
        ensures ok { OfRest self.old (held library.now) streams.now S.PacketSink sink.old (PutsAll S.PacketSink sink.new result) }
        ensures reports { (k : Setting) (past : List (List ℕ)) (steps : PidSteps) → PlaysBy self.old k past steps →
            EndsWith k (held library.now) streams.now past →
            OnOk result (Reports self.new k past) }
        ensures err { OfRest self.old (held library.now) streams.now S.PacketSink sink.old (PutsFront S.PacketSink sink.new result) }
        ensures well { OnOk result (WentWell (S.counts sink.old) (S.counts sink.new)) }
        ensures blamed { IfErr result (λ f. Blamed f (S.counts sink.old) (S.counts sink.new) (S.is_full sink.new)) }
    {
        self.put_running(&None, streams, library, sink)
    }
}
