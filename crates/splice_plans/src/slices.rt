//! Units of slices, put in.

ghost use Rattle.std.specs.Prelude.{◌≡◌, ◌++◌, ℕ, List, length, Option, OnOk, IfOk, IfErr};
ghost use Rattle.ts_packet.specs.Numbering.{Step, Counts};
ghost use Rattle.ts_packet.specs.Sinks.{Blamed};
ghost use Rattle.ts_packet.specs.Transfers.{WentWell};
ghost use Rattle.unit_stream.specs.UnitPackets.{put_in};
ghost use Rattle.outgoing_packets.specs.Numbers.{FrontFails};
ghost use Rattle.ad_library.specs.Slices.{left};
ghost use Rattle.splice_plans.specs.Slicing.{is_offset_due, is_any_due, due_units, due_packets};

use ad_library::Slice;
use pes_time::Time33;
use ts_packet::{Counter, PacketSink, Pid, PutFault};
use unit_packing::put_moved;

/// Puts the units of a slice that is played from this time on: those whose offset is at most `reached` up to the first that lies past it,
/// or all where that is `None`. Answers how many.
pub(crate) fn put_units<S: PacketSink>(
    slice: Slice<'_>,
    start: Time33,
    reached: Option<u64>,
    pid: Pid,
    counter: &mut Counter,
    sink: &mut S,
) -> Result<usize, PutFault>
    ensures leads { S.leads sink.old sink.new }
    ensures ok { (begin : Option (List ℕ)) (ps : List (List ℕ)) (steps : List Step) → S.holds sink.old begin ps →
        Counts counter.old steps →
        OnOk result (S.holds sink.new begin (ps ++ due_packets pid start reached steps slice.entry)) }
    ensures counted { (steps : List Step) → Counts counter.old steps →
        OnOk result (Counts counter.new (put_in (due_packets pid start reached steps slice.entry) steps)) }
    ensures count { IfOk result (λ n. n ≡ length (due_units reached (left slice.entry))) }
    ensures err { (begin : Option (List ℕ)) (ps : List (List ℕ)) (steps : List Step) → S.holds sink.old begin ps →
        Counts counter.old steps → IfErr result (λ f. FrontFails (due_packets pid start reached steps slice.entry)
        (λ put p. S.fails sink.new begin (ps ++ put) p f)) }
    ensures well { OnOk result (WentWell (S.counts sink.old) (S.counts sink.new)) }
    ensures blamed { IfErr result (λ f. Blamed f (S.counts sink.old) (S.counts sink.new) (S.is_full sink.new)) }
{
    if !is_next_due(&slice, reached) {
        return Ok(0);
    }
    let delta = start.minus(slice.zero().ticks());
    let most = slice.most();
    let mut rest = slice;
    for count in 0..most {
        let Some(unit) = rest.next() else {
            return Ok(count);
        };
        if !is_due(unit.offset, reached) {
            return Ok(count);
        }
        match put_moved(
            unit.bytes,
            &unit.head,
            delta,
            unit.random_access,
            pid,
            counter,
            sink,
        ) {
            Ok(()) => {}
            Err(fault) => return Err(fault),
        }
    }
    Ok(most)
}

/// A unit is left that is due. It is told by its place alone, without a look at its bytes.
fn is_next_due(slice: &Slice<'_>, reached: Option<u64>) -> bool
    ensures { result ≡ is_any_due reached (left slice.now) }
{
    match slice.next_offset() {
        None => false,
        Some(offset) => is_due(offset, reached),
    }
}

/// A unit of this offset goes out.
fn is_due(offset: u64, reached: Option<u64>) -> bool
    ensures { result ≡ is_offset_due reached offset }
{
    match reached {
        None => true,
        Some(reached) => offset <= reached,
    }
}
