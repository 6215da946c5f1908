//! What goes out of the events that are to close in a stream, and of the one that runs there.

ghost use Rattle.std.specs.Prelude.{◌≡◌, ◌<◌, ◌++◌, ℕ, ℤ, List, length, slice_index_or, Option, OnOk, IfErr};
ghost use Rattle.ts_packet.specs.Numbering.{Step, Counts};
ghost use Rattle.ts_packet.specs.Sinks.{Blamed};
ghost use Rattle.ts_packet.specs.Transfers.{WentWell};
ghost use Rattle.unit_stream.specs.UnitPackets.{put_in};
ghost use Rattle.outgoing_packets.specs.Numbers.{FrontFails};
ghost use Rattle.psi_tables.specs.declared.stream.Stream.{Stream};
ghost use Rattle.event_table.specs.Standing.{Standing};
ghost use Rattle.event_table.specs.Tables.{StandsFor, values_of};
ghost use Rattle.ad_library.specs.Library.{held};
ghost use Rattle.splice_plans.specs.Parts.{KeepsEvents, HasStanding, IsStreamOf, IsReached, reached_by};
ghost use Rattle.splice_plans.specs.Parts.{closing_out_of, closed_of, running_out_of, ran_of};

use crate::parts::put_part;
use crate::plan::{Plan, Stage};
use crate::turns::{first_closing, running};
use ad_library::AdLibrary;
use armed_events::ArmedEvents;
use event_table::{Table, is_before};
use pes_time::Time33;
use psi_tables::Stream;
use ts_packet::{Counter, PacketSink, PutFault};

/// Puts the rest of each event that is to close in the stream of this number, in order of start. They are over from then on.
///
/// # Errors
///
/// The sink's. Packets before the one that failed are out; the counter and the values beside the events are open then.
pub fn close_all<S: PacketSink>(
    events: &mut ArmedEvents<Plan>,
    stream: usize,
    streams: &[Stream],
    library: &AdLibrary,
    counter: &mut Counter,
    sink: &mut S,
) -> Result<(), PutFault>
    requires { stream < length streams.now }
    ensures leads { S.leads sink.old sink.new }
    ensures ok { (of : Stream) (latest : Option ℤ) (es : List Standing) (begin : Option (List ℕ)) (ps : List (List ℕ))
        (steps : List Step) → IsStreamOf streams.now stream of → HasStanding events.old latest es →
        S.holds sink.old begin ps → Counts counter.old steps →
        OnOk result (S.holds sink.new begin (ps ++ closing_out_of events.old (held library.now) streams.now stream of steps es)) }
    ensures counted { (of : Stream) (latest : Option ℤ) (es : List Standing) (steps : List Step) →
        IsStreamOf streams.now stream of → HasStanding events.old latest es → Counts counter.old steps →
        OnOk result (Counts counter.new
        (put_in (closing_out_of events.old (held library.now) streams.now stream of steps es) steps)) }
    ensures values { (of : Stream) (latest : Option ℤ) (es : List Standing) →
        IsStreamOf streams.now stream of → HasStanding events.old latest es →
        OnOk result (values_of events.new.obeyed.table ≡ closed_of events.old (held library.now) streams.now stream of es) }
    ensures keeps { KeepsEvents events.old events.new }
    ensures err { (of : Stream) (latest : Option ℤ) (es : List Standing) (begin : Option (List ℕ)) (ps : List (List ℕ))
        (steps : List Step) → IsStreamOf streams.now stream of → HasStanding events.old latest es →
        S.holds sink.old begin ps → Counts counter.old steps →
        IfErr result (λ f. FrontFails (closing_out_of events.old (held library.now) streams.now stream of steps es)
        (λ put p. S.fails sink.new begin (ps ++ put) p f)) }
    ensures well { OnOk result (WentWell (S.counts sink.old) (S.counts sink.new)) }
    ensures blamed { IfErr result (λ f. Blamed f (S.counts sink.old) (S.counts sink.new) (S.is_full sink.new)) }
{
    for _turn in 0..events.table().standing().len() {
        let Some(place) = first_closing(events.table(), stream) else {
            return Ok(());
        };
        match put_part(
            events,
            place,
            streams,
            stream,
            None,
            Stage::Over,
            library,
            counter,
            sink,
        ) {
            Ok(()) => {}
            Err(fault) => return Err(fault),
        }
    }
    Ok(())
}

/// Puts of the event that runs in the stream of this number, if one does, what is due where this is the greatest time, or all.
///
/// # Errors
///
/// As for [`close_all`].
pub fn put_running<S: PacketSink>(
    events: &mut ArmedEvents<Plan>,
    high: &Option<Time33>,
    stream: usize,
    streams: &[Stream],
    library: &AdLibrary,
    counter: &mut Counter,
    sink: &mut S,
) -> Result<(), PutFault>
    requires { stream < length streams.now }
    ensures leads { S.leads sink.old sink.new }
    ensures ok { (of : Stream) (latest latest_behind : Option ℤ) (es : List Standing) (begin : Option (List ℕ)) (ps : List (List ℕ))
        (steps : List Step) → IsStreamOf streams.now stream of → HasStanding events.old latest es →
        IsReached latest high.now latest_behind →
        S.holds sink.old begin ps → Counts counter.old steps →
        OnOk result (S.holds sink.new begin
        (ps ++ running_out_of events.old (held library.now) streams.now stream of latest_behind steps es)) }
    ensures counted { (of : Stream) (latest latest_behind : Option ℤ) (es : List Standing) (steps : List Step) →
        IsStreamOf streams.now stream of → HasStanding events.old latest es → IsReached latest high.now latest_behind →
        Counts counter.old steps →
        OnOk result (Counts counter.new
        (put_in (running_out_of events.old (held library.now) streams.now stream of latest_behind steps es) steps)) }
    ensures values { (of : Stream) (latest latest_behind : Option ℤ) (es : List Standing) →
        IsStreamOf streams.now stream of → HasStanding events.old latest es → IsReached latest high.now latest_behind →
        OnOk result (values_of events.new.obeyed.table
        ≡ ran_of events.old (held library.now) streams.now stream of latest_behind es) }
    ensures keeps { KeepsEvents events.old events.new }
    ensures err { (of : Stream) (latest latest_behind : Option ℤ) (es : List Standing) (begin : Option (List ℕ)) (ps : List (List ℕ))
        (steps : List Step) → IsStreamOf streams.now stream of → HasStanding events.old latest es →
        IsReached latest high.now latest_behind →
        S.holds sink.old begin ps → Counts counter.old steps →
        IfErr result (λ f. FrontFails (running_out_of events.old (held library.now) streams.now stream of latest_behind steps es)
        (λ put p. S.fails sink.new begin (ps ++ put) p f)) }
    ensures well { OnOk result (WentWell (S.counts sink.old) (S.counts sink.new)) }
    ensures blamed { IfErr result (λ f. Blamed f (S.counts sink.old) (S.counts sink.new) (S.is_full sink.new)) }
{
    let Some(place) = running(events.table(), stream) else {
        return Ok(());
    };
    let reached = reached_in(events.table(), place, high);
    put_part(
        events,
        place,
        streams,
        stream,
        reached,
        Stage::Running,
        library,
        counter,
        sink,
    )
}

/// How far the greatest time lies past the start of the event at this place; no limit where no time is given. It lies past the start of
/// each event that runs.
fn reached_in(table: &Table<Plan>, place: usize, high: &Option<Time33>) -> Option<u64>
    requires { place < length table.now.entries.items }
    ensures { (latest latest_behind : Option ℤ) (es : List Standing) (e : Standing) → StandsFor table.now latest es →
        IsReached latest high.now latest_behind → e ≡ slice_index_or es place e → result ≡ reached_by latest_behind e }
{
    match high {
        None => None,
        Some(high) => {
            let start = table.standing()[place].event.start;
            if is_before(*high, start) {
                return Some(0);
            }
            Some(high.signed_from(start).unsigned_abs())
        }
    }
}
