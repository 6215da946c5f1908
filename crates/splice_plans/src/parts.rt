//! What goes out of an event in one stream.

ghost use Rattle.std.specs.Prelude.{◌≡◌, ◌<◌, ◌+◌, ◌++◌, ℕ, List, length, slice_set, Option, OnOk, IfOk, IfErr};
ghost use Rattle.ts_packet.specs.Numbering.{Step, Counts};
ghost use Rattle.ts_packet.specs.Sinks.{Blamed};
ghost use Rattle.ts_packet.specs.Transfers.{WentWell};
ghost use Rattle.unit_stream.specs.UnitPackets.{put_in};
ghost use Rattle.outgoing_packets.specs.Numbers.{FrontFails};
ghost use Rattle.event_table.specs.Tables.{values_of};
ghost use Rattle.event_table.specs.declared.table.Entry.{Entry};
ghost use Rattle.psi_tables.specs.declared.stream.Stream.{Stream};
ghost use Rattle.ad_library.specs.Library.{held};
ghost use Rattle.splice_plans.specs.Turning.{with_part};
ghost use Rattle.splice_plans.specs.Parts.{KeepsEvents, IsStreamOf, IsEntryAt, units_in, packets_in, entry_packets, part_put};

use crate::plan::{Part, Plan, Stage};
use crate::slices::put_units;
use ad_library::{AdLibrary, count_of_kind};
use armed_events::ArmedEvents;
use event_table::Event;
use psi_tables::Stream;
use ts_packet::{Counter, PacketSink, PutFault};

/// Puts the units of an event's slice in the stream of this number behind the first `sent`: those that are due up to the first that is not,
/// or all. Answers how many are out then.
fn put_slice<S: PacketSink>(
    event: &Event,
    streams: &[Stream],
    stream: usize,
    sent: usize,
    reached: Option<u64>,
    library: &AdLibrary,
    counter: &mut Counter,
    sink: &mut S,
) -> Result<usize, PutFault>
    requires { stream < length streams.now }
    ensures leads { S.leads sink.old sink.new }
    ensures ok { (of : Stream) (begin : Option (List ℕ)) (ps : List (List ℕ)) (steps : List Step) →
        IsStreamOf streams.now stream of → S.holds sink.old begin ps → Counts counter.old steps →
        OnOk result (S.holds sink.new begin
        (ps ++ packets_in (held library.now) streams.now stream of event.now sent reached steps)) }
    ensures counted { (of : Stream) (steps : List Step) → IsStreamOf streams.now stream of → Counts counter.old steps →
        OnOk result (Counts counter.new
        (put_in (packets_in (held library.now) streams.now stream of event.now sent reached steps) steps)) }
    ensures count { (of : Stream) → IsStreamOf streams.now stream of →
        IfOk result (λ n. n ≡ sent + length (units_in (held library.now) streams.now stream of event.now sent reached)) }
    ensures err { (of : Stream) (begin : Option (List ℕ)) (ps : List (List ℕ)) (steps : List Step) →
        IsStreamOf streams.now stream of → S.holds sink.old begin ps → Counts counter.old steps →
        IfErr result (λ f. FrontFails (packets_in (held library.now) streams.now stream of event.now sent reached steps)
        (λ put p. S.fails sink.new begin (ps ++ put) p f)) }
    ensures well { OnOk result (WentWell (S.counts sink.old) (S.counts sink.new)) }
    ensures blamed { IfErr result (λ f. Blamed f (S.counts sink.old) (S.counts sink.new) (S.is_full sink.new)) }
{
    let of = streams[stream];
    let (before, _) = streams.split_at(stream);
    let k = count_of_kind(of.kind, before);
    let Some(slice) = library.slice(event.program, of.kind, k, event.length) else {
        return Ok(sent);
    };
    let _most = slice.most();
    let mut rest = slice;
    rest.skip(sent);
    match put_units(rest, event.start, reached, of.pid, counter, sink) {
        Ok(count) => Ok(sent + count),
        Err(fault) => Err(fault),
    }
}

/// Puts the units of the event at this place in the stream of this number that are not out: those that are due up to the first that is not,
/// or all. The event is at this stage there from then on.
pub(crate) fn put_part<S: PacketSink>(
    events: &mut ArmedEvents<Plan>,
    place: usize,
    streams: &[Stream],
    stream: usize,
    reached: Option<u64>,
    stage: Stage,
    library: &AdLibrary,
    counter: &mut Counter,
    sink: &mut S,
) -> Result<(), PutFault>
    requires place { place < length events.old.obeyed.table.entries.items }
    requires stream { stream < length streams.now }
    ensures leads { S.leads sink.old sink.new }
    ensures ok { (entry : Entry Plan) (of : Stream) (begin : Option (List ℕ)) (ps : List (List ℕ)) (steps : List Step) →
        IsEntryAt events.old place entry → IsStreamOf streams.now stream of → S.holds sink.old begin ps →
        Counts counter.old steps →
        OnOk result (S.holds sink.new begin (ps ++ entry_packets (held library.now) streams.now stream of reached steps entry)) }
    ensures counted { (entry : Entry Plan) (of : Stream) (steps : List Step) →
        IsEntryAt events.old place entry → IsStreamOf streams.now stream of → Counts counter.old steps →
        OnOk result (Counts counter.new
        (put_in (entry_packets (held library.now) streams.now stream of reached steps entry) steps)) }
    ensures values { (entry : Entry Plan) (of : Stream) →
        IsEntryAt events.old place entry → IsStreamOf streams.now stream of →
        OnOk result (values_of events.new.obeyed.table ≡ slice_set (values_of events.old.obeyed.table) place
        (part_put (held library.now) streams.now stream of reached stage entry)) }
    ensures keeps { KeepsEvents events.old events.new }
    ensures err { (entry : Entry Plan) (of : Stream) (begin : Option (List ℕ)) (ps : List (List ℕ)) (steps : List Step) →
        IsEntryAt events.old place entry → IsStreamOf streams.now stream of → S.holds sink.old begin ps →
        Counts counter.old steps →
        IfErr result (λ f. FrontFails (entry_packets (held library.now) streams.now stream of reached steps entry)
        (λ put p. S.fails sink.new begin (ps ++ put) p f)) }
    ensures well { OnOk result (WentWell (S.counts sink.old) (S.counts sink.new)) }
    ensures blamed { IfErr result (λ f. Blamed f (S.counts sink.old) (S.counts sink.new) (S.is_full sink.new)) }
{
    let event = events.table().standing()[place].event;
    let part = events.table().standing()[place].value.part(stream);
    match put_slice(
        &event, streams, stream, part.sent, reached, library, counter, sink,
    ) {
        Ok(sent) => {
            set_part(events, place, stream, Part { stage, sent });
            Ok(())
        }
        Err(fault) => Err(fault),
    }
}

/// The event at this place has come so far in the stream of this number. Where it had before, nothing is copied.
fn set_part(events: &mut ArmedEvents<Plan>, place: usize, stream: usize, part: Part)
    requires { place < length events.old.obeyed.table.entries.items }
    ensures values { (entry : Entry Plan) → IsEntryAt events.old place entry →
        values_of events.new.obeyed.table ≡ slice_set (values_of events.old.obeyed.table) place (with_part entry.value stream part) }
    ensures keeps { KeepsEvents events.old events.new }
{
    let old = events.table().standing()[place].value.part(stream);
    if old.stage == part.stage {
        if old.sent == part.sent {
            return;
        }
    }
    let plan = events.table().standing()[place].value;
    events.set_value(place, plan.with_part(stream, part));
}
