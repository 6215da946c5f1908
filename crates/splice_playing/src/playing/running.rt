//! What goes out of the events that run: what is due where this is the greatest time, or all that is left.

ghost use Rattle.std.specs.Prelude.{◌≡◌, ℤ, List, Option, None, OnOk, IfErr, true};
ghost use Rattle.ts_packet.specs.Sinks.{Blamed};
ghost use Rattle.ts_packet.specs.Transfers.{WentWell};
ghost use Rattle.event_table.specs.Standing.{Standing};
ghost use Rattle.ad_library.specs.Library.{held};
ghost use Rattle.splice_plans.specs.Parts.{IsReached};
ghost use Rattle.splice_playing.specs.Dues.{IsAllOut};

use super::Playing;
use ad_library::AdLibrary;
use pes_time::Time33;
use psi_tables::Stream;
use splice_plans::put_running;
use ts_packet::{PacketSink, PutFault};

impl Playing {
    ghost use Rattle.splice_playing.specs.Going.{HasEvents, LeavesNoneDue};
    ghost use Rattle.splice_playing.specs.Puts.{PutsAll, PutsFront};
    ghost use Rattle.splice_playing.specs.Running.{OfRunning, RunsEvents, RunsOn, NothingKnown};

    /// Puts of the events that run what is due where this is the greatest time, by stream. No event is looked at where it is known that
    /// nothing is.
    pub(super) fn put_running_due<S: PacketSink>(
        &mut self,
        high: &Option<Time33>,
        streams: &[Stream],
        library: &AdLibrary,
        sink: &mut S,
    ) -> Result<(), PutFault>
        ensures leads { S.leads sink.old sink.new }
        ensures ok { OfRunning self.old (held library.now) streams.now high.now (LeavesNoneDue self.old (held library.now) streams.now)
            S.PacketSink sink.old (PutsAll S.PacketSink sink.new result) }
        ensures runs { RunsEvents (held library.now) streams.now high.now (LeavesNoneDue self.old (held library.now) streams.now)
            self.old self.new result }
        ensures frame { RunsOn self.old self.new }
        ensures err { OfRunning self.old (held library.now) streams.now high.now NothingKnown S.PacketSink sink.old
            (PutsFront S.PacketSink sink.new result) }
        ensures well { OnOk result (WentWell (S.counts sink.old) (S.counts sink.new)) }
        ensures blamed { IfErr result (λ f. Blamed f (S.counts sink.old) (S.counts sink.new) (S.is_full sink.new)) }
    {
        if self.is_all_out(high) {
            return Ok(());
        }
        match self.put_running(high, streams, library, sink) {
            Ok(()) => {
                self.all_out = *high;
                Ok(())
            }
            Err(fault) => Err(fault),
        }
    }

    /// Puts of the events that run what is due where this is the greatest time, or all that is left, by stream. No
    /// event is looked at where all wait, or where none may run.
    pub(super) fn put_running<S: PacketSink>(
        &mut self,
        high: &Option<Time33>,
        streams: &[Stream],
        library: &AdLibrary,
        sink: &mut S,
    ) -> Result<(), PutFault>
        ensures leads { S.leads sink.old sink.new }
        ensures ok { OfRunning self.old (held library.now) streams.now high.now NothingKnown S.PacketSink sink.old
            (PutsAll S.PacketSink sink.new result) }
        ensures runs { RunsEvents (held library.now) streams.now high.now NothingKnown self.old self.new result }
        ensures frame { RunsOn self.old self.new }
        ensures err { OfRunning self.old (held library.now) streams.now high.now NothingKnown S.PacketSink sink.old
            (PutsFront S.PacketSink sink.new result) }
        ensures well { OnOk result (WentWell (S.counts sink.old) (S.counts sink.new)) }
        ensures blamed { IfErr result (λ f. Blamed f (S.counts sink.old) (S.counts sink.new) (S.is_full sink.new)) }
    {
        match self.rest {
            Some(_) => return Ok(()),
            None => {}
        }
        if !self.may_run {
            return Ok(());
        }
        self.put_each_running(high, streams, library, sink)
    }

    /// Puts of the events that run what is due where this is the greatest time, or all that is left, by stream.
    fn put_each_running<S: PacketSink>(
        &mut self,
        high: &Option<Time33>,
        streams: &[Stream],
        library: &AdLibrary,
        sink: &mut S,
    ) -> Result<(), PutFault>
        requires wakes { self.old.rest ≡ None }
        requires runs { self.old.may_run ≡ true }
        ensures leads { S.leads sink.old sink.new }
        ensures ok { OfRunning self.old (held library.now) streams.now high.now NothingKnown S.PacketSink sink.old
            (PutsAll S.PacketSink sink.new result) }
        ensures runs { RunsEvents (held library.now) streams.now high.now NothingKnown self.old self.new result }
        ensures frame { RunsOn self.old self.new }
        ensures err { OfRunning self.old (held library.now) streams.now high.now NothingKnown S.PacketSink sink.old
            (PutsFront S.PacketSink sink.new result) }
        ensures well { OnOk result (WentWell (S.counts sink.old) (S.counts sink.new)) }
        ensures blamed { IfErr result (λ f. Blamed f (S.counts sink.old) (S.counts sink.new) (S.is_full sink.new)) }
    {
        for stream in 0..streams.len() {
            let mut of = self.streams[stream % 8];
            let mut counter = of.counter;
            match put_running(
                &mut self.events,
                high,
                stream,
                streams,
                library,
                &mut counter,
                sink,
            ) {
                Ok(()) => {}
                Err(fault) => return Err(fault),
            }
            of.counter = counter;
            self.streams[stream % 8] = of;
        }
        Ok(())
    }

    /// Whether it is known that nothing is due of the events that run where this is the greatest time: what was due at it is out, and it is
    /// the greatest time already.
    #[inline(always)]
    fn is_all_out(&self, high: &Option<Time33>) -> bool
        ensures { (latest latest_behind : Option ℤ) (es : List Standing) → HasEvents self.now latest es →
            IsReached latest high.now latest_behind → result ≡ true →
            (latest_behind ≡ latest) × IsAllOut self.now.all_out latest }
    {
        let Some(high) = *high else {
            return false;
        };
        let Some(last) = self.events.table().high() else {
            return false;
        };
        let Some(all_out) = self.all_out else {
            return false;
        };
        all_out.ticks() == high.ticks() && last.ticks() == high.ticks()
    }
}
