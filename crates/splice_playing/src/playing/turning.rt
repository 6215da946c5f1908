//! What the start of a unit turns: how far each event comes in the stream, and what goes out of those that it closes.

ghost use Rattle.std.specs.Prelude.{◌≡◌, ◌<◌, ◌^◌, ℤ, List, length, Option, None, IfSome, OnOk, IfErr, true};
ghost use Rattle.ts_packet.specs.Sinks.{Blamed};
ghost use Rattle.ts_packet.specs.Transfers.{WentWell};
ghost use Rattle.event_table.specs.Standing.{Standing};
ghost use Rattle.ad_library.specs.Library.{held};
ghost use Rattle.splice_plans.specs.Fronts.{IsNearTime};
ghost use Rattle.splice_playing.specs.Resting.{comes_before, all_wait, all_start_behind};

use super::Playing;
use ad_library::AdLibrary;
use event_table::is_before;
use pes_time::Time33;
use psi_tables::Stream;
use splice_plans::{SwitchedStream, all_stay, close_all, is_inside, runs_any, turn_all};
use ts_packet::{PacketSink, PutFault};

impl Playing {
    ghost use Rattle.splice_playing.specs.Going.{plans_in, HasEvents, IsStreamAt, KeepsUnit, HoldsUnit};
    ghost use Rattle.splice_playing.specs.Puts.{PutsAll, PutsFront};
    ghost use Rattle.splice_playing.specs.Turns.{OfClosing, ClosesEvents, TurnsBut, StaysBut};

    /// Lets each event come as far as it does with a unit of this time, and puts the rest of those that it closes, in order of start. No
    /// event is looked at before the time until which all wait, and none is turned where the unit leaves all as they are.
    pub(super) fn turn<S: PacketSink>(
        &mut self,
        stream: usize,
        time: &Option<Time33>,
        streams: &[Stream],
        library: &AdLibrary,
        sink: &mut S,
    ) -> Result<(), PutFault>
        requires { stream < length streams.now }
        ensures leads { S.leads sink.old sink.new }
        ensures ok { OfClosing self.old (held library.now) streams.now stream time.now S.PacketSink sink.old
            (PutsAll S.PacketSink sink.new result) }
        ensures closes { ClosesEvents (held library.now) streams.now stream time.now self.old self.new result }
        ensures frame { TurnsBut stream self.old self.new }
        ensures err { OfClosing self.old (held library.now) streams.now stream time.now S.PacketSink sink.old
            (PutsFront S.PacketSink sink.new result) }
        ensures well { OnOk result (WentWell (S.counts sink.old) (S.counts sink.new)) }
        ensures blamed { IfErr result (λ f. Blamed f (S.counts sink.old) (S.counts sink.new) (S.is_full sink.new)) }
    {
        if self.is_at_rest(time) {
            self.stay(stream, time);
            return Ok(());
        }
        self.rest = None;
        if let Some(time) = *time {
            if all_stay(self.events.table(), stream, time) {
                self.hold(stream, time);
                return Ok(());
            }
        }
        self.turn_each(stream, time, streams, library, sink)
    }

    /// Whether all events that stand wait, and a unit of this time, or of none, comes before all of them. It looks at no event.
    #[inline(always)]
    pub(super) fn is_at_rest(&self, time: &Option<Time33>) -> bool
        ensures value { result ≡ comes_before self.now.rest time.now }
        ensures waits { result ≡ true → all_wait (plans_in self.now) ≡ true }
        ensures ahead { (latest : Option ℤ) (es : List Standing) → HasEvents self.now latest es → IsNearTime latest time.now →
            result ≡ true → all_start_behind latest time.now es ≡ true }
        ensures fits { IfSome self.now.rest (λ rest. rest < 2 ^ 33) }
    {
        let Some(rest) = self.rest else {
            return false;
        };
        let _rest_ticks = rest.ticks();
        let Some(time) = *time else {
            return true;
        };
        let _ticks = time.ticks();
        is_before(time, rest)
    }

    /// A unit of this time, or of none, begins in the stream before all events.
    #[inline(always)]
    fn stay(&mut self, stream: usize, time: &Option<Time33>)
        ensures stays { (s t : SwitchedStream) → IsStreamAt self.old stream s → IsStreamAt self.new stream t →
            KeepsUnit time.now s t }
        ensures frame { StaysBut stream self.old self.new }
    {
        if time.is_some() {
            let mut of = self.streams[stream % 8];
            of.is_leaving = false;
            self.streams[stream % 8] = of;
        }
    }

    /// A unit of this time begins in the stream, which leaves all events as they are.
    fn hold(&mut self, stream: usize, time: Time33)
        ensures holds { (latest : Option ℤ) (es : List Standing) (s t : SwitchedStream) → HasEvents self.old latest es →
            IsStreamAt self.old stream s → IsStreamAt self.new stream t →
            HoldsUnit stream latest time es (plans_in self.old) s t }
        ensures below { time < 2 ^ 33 }
        ensures frame { StaysBut stream self.old self.new }
    {
        let _ticks = time.ticks();
        let is_left = is_inside(self.events.table(), stream, time);
        let mut of = self.streams[stream % 8];
        of.is_leaving = is_left;
        self.streams[stream % 8] = of;
    }

    /// Lets each event come as far as it does with a unit of this time, and puts the rest of those that it closes, in order of start.
    fn turn_each<S: PacketSink>(
        &mut self,
        stream: usize,
        time: &Option<Time33>,
        streams: &[Stream],
        library: &AdLibrary,
        sink: &mut S,
    ) -> Result<(), PutFault>
        requires at { stream < length streams.now }
        requires wakes { self.old.rest ≡ None }
        ensures leads { S.leads sink.old sink.new }
        ensures ok { OfClosing self.old (held library.now) streams.now stream time.now S.PacketSink sink.old
            (PutsAll S.PacketSink sink.new result) }
        ensures closes { ClosesEvents (held library.now) streams.now stream time.now self.old self.new result }
        ensures frame { TurnsBut stream self.old self.new }
        ensures err { OfClosing self.old (held library.now) streams.now stream time.now S.PacketSink sink.old
            (PutsFront S.PacketSink sink.new result) }
        ensures well { OnOk result (WentWell (S.counts sink.old) (S.counts sink.new)) }
        ensures blamed { IfErr result (λ f. Blamed f (S.counts sink.old) (S.counts sink.new) (S.is_full sink.new)) }
    {
        let Some(time) = *time else {
            return Ok(());
        };
        let _ticks = time.ticks();
        self.may_run = true;
        self.all_out = None; // An event may begin in the stream.
        self.turns = self.turns.saturating_add(1); // An event comes further in the stream, or is crossed.
        turn_all(&mut self.events, stream, time, streams, library);
        let mut of = self.streams[stream % 8];
        let mut counter = of.counter;
        match close_all(
            &mut self.events,
            stream,
            streams,
            library,
            &mut counter,
            sink,
        ) {
            Ok(()) => {}
            Err(fault) => return Err(fault),
        }
        of.counter = counter;
        of.is_leaving = is_inside(self.events.table(), stream, time);
        self.streams[stream % 8] = of;
        self.may_run = runs_any(self.events.table());
        Ok(())
    }
}
