//! How far the events that stand come with a unit.

ghost use Rattle.std.specs.Prelude.{◌≡◌, ◌<◌, ◌^◌, length, slice_index_or, ℤ, List, Option, None, IfSome, position, false};
ghost use Rattle.std.specs.List.{list_any, list_all};
ghost use Rattle.pes_time.specs.Line.{place};
ghost use Rattle.event_table.specs.Standing.{Standing, on_ring};
ghost use Rattle.event_table.specs.Tables.{StandsFor, values_of};
ghost use Rattle.ad_library.specs.Library.{held};
ghost use Rattle.splice_plans.specs.Playing.{is_played};
ghost use Rattle.splice_plans.specs.Adverts.{adverts_of};
ghost use Rattle.splice_plans.specs.Turning.{IsNearHigh, part_of};
ghost use Rattle.splice_plans.specs.Parts.{KeepsEvents, HasStanding, IsFirstClosing, all_turned, holds_begun, is_running};
ghost use Rattle.splice_plans.specs.Parts.{starts_first, sooner, closes_in, no_entry};
ghost use Rattle.splice_plans.specs.Waiting.{waits_before, stays_in, runs_in_any};

use crate::plan::{Plan, Stage};
use ad_library::AdLibrary;
use armed_events::ArmedEvents;
use event_table::{Event, Table, is_before};
use pes_time::Time33;
use psi_tables::Stream;

/// The event is played: not cancelled, and its advertisement fits the length first asked for.
pub(crate) fn is_played(event: &Event, streams: &[Stream], library: &AdLibrary) -> bool
    ensures { (e : Standing) → event.now ≡ on_ring e → result ≡ is_played (adverts_of (held library.now) streams.now) e }
{
    !event.cancelled && library.fits(event.program, streams, event.asked)
}

/// A unit of this time begins in the stream of this number: each event that stands comes as far as it does there.
pub fn turn_all(
    events: &mut ArmedEvents<Plan>,
    stream: usize,
    time: Time33,
    streams: &[Stream],
    library: &AdLibrary,
)
    ensures values { (latest : Option ℤ) (es : List Standing) → HasStanding events.old latest es →
        IsNearHigh latest (place latest time) →
        values_of events.new.obeyed.table
        ≡ all_turned (adverts_of (held library.now) streams.now) stream (place latest time) es (values_of events.old.obeyed.table) }
    ensures keeps { KeepsEvents events.old events.new }
{
    for at in 0..events.table().standing().len() {
        if waits_before(events.table(), at, stream, time) {
            continue;
        }
        let entry = events.table().standing()[at];
        let plays = is_played(&entry.event, streams, library);
        events.set_value(at, entry.value.turned(stream, &entry.event, time, plays));
    }
}

/// The event at this place waits in the stream of this number, and the time lies before its start.
fn waits_before(table: &Table<Plan>, at: usize, stream: usize, time: Time33) -> bool
    requires { at < length table.now.entries.items }
    ensures value { result ≡ waits_before stream time (slice_index_or table.now.entries.items at no_entry) }
    ensures below { time < 2 ^ 33 }
{
    let _ticks = time.ticks();
    let standing = table.standing();
    standing[at].value.part(stream).stage == Stage::Waiting
        && is_before(time, standing[at].event.start)
}

/// A unit of this time in the stream of this number leaves all events that stand as they are.
pub fn all_stay(table: &Table<Plan>, stream: usize, time: Time33) -> bool
    ensures value { result ≡ list_all (stays_in stream time) table.now.entries.items }
{
    table
        .standing()
        .iter()
        .all(|entry| entry.value.stays(stream, &entry.event, time))
}

/// An event that stands runs in some stream.
pub fn runs_any(table: &Table<Plan>) -> bool
    ensures { result ≡ list_any (λ entry. runs_in_any entry.value) table.now.entries.items }
{
    table.standing().iter().any(|entry| entry.value.runs())
}

/// A played event that stands holds the time, which is that of the unit that has begun last in the stream of this number.
pub fn is_inside(table: &Table<Plan>, stream: usize, time: Time33) -> bool
    ensures { result ≡ list_any (holds_begun stream time) table.now.entries.items }
{
    table.standing().iter().any(|entry| entry.event.covers(time)
        && entry.value.part(stream).stage != Stage::Waiting)
}

/// Where the event that runs in the stream of this number stands.
pub(crate) fn running(table: &Table<Plan>, stream: usize) -> Option<usize>
    ensures place { result ≡ position (λ entry. is_running (part_of entry.value stream).stage) table.now.entries.items }
    ensures below { IfSome result (λ at. at < length table.now.entries.items) }
{
    table
        .standing()
        .iter()
        .position(|entry| entry.value.part(stream).stage == Stage::Running)
}

/// Where that event stands of which the rest is to go out in the stream of this number, and which starts first of them.
pub(crate) fn first_closing(table: &Table<Plan>, stream: usize) -> Option<usize>
    ensures none { result ≡ None → list_any (closes_in stream) (values_of table.now) ≡ false }
    ensures below { IfSome result (λ at. at < length table.now.entries.items) }
    ensures some { (latest : Option ℤ) (es : List Standing) → StandsFor table.now latest es →
        IfSome result (λ at. IsFirstClosing stream es (values_of table.now) at) }
{
    let mut first: Option<usize> = None;
    for at in 0..table.standing().len() {
        first = sooner(table, stream, at, first);
    }
    first
}

/// Of an event and the one that starts first of those before it, if there is one, that which starts first and is to close.
fn sooner(table: &Table<Plan>, stream: usize, at: usize, first: Option<usize>) -> Option<usize>
    requires at { at < length table.now.entries.items }
    requires first { IfSome first (λ o. o < length table.now.entries.items) }
    ensures { result ≡ sooner table.now.entries.items stream at first }
{
    let closes = table.standing()[at].value.part(stream).stage == Stage::Closing;
    if closes && starts_before(table, at, first) {
        Some(at)
    } else {
        first
    }
}

/// The event at this place starts before that at another one, if there is one.
fn starts_before(table: &Table<Plan>, at: usize, other: Option<usize>) -> bool
    requires at { at < length table.now.entries.items }
    requires other { IfSome other (λ o. o < length table.now.entries.items) }
    ensures { result ≡ starts_first table.now.entries.items at other }
{
    match other {
        None => true,
        Some(other) => {
            let standing = table.standing();
            is_before(standing[at].event.start, standing[other].event.start)
        }
    }
}
