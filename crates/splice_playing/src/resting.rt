//! The time until which all events wait, and whether one of them is forgotten at a greatest time.

ghost use Rattle.std.specs.Prelude.{◌≡◌, ◌<◌, length, slice_index_or};
ghost use Rattle.std.specs.List.{list_all};
ghost use Rattle.splice_plans.specs.Parts.{no_entry};
ghost use Rattle.splice_playing.specs.Resting.{first_rest, waits_ahead, first_start, is_kept_at, keeps_all};

use event_table::{Entry, Table};
use pes_time::Time33;
use splice_plans::Plan;

/// How far past the greatest time the rest lies where no event stands, in ticks of 90 kHz: half of what lies ahead on the ring.
const FAR_AHEAD: u64 = 1 << 31;

/// The first start of the events that stand, where each waits in all streams and starts past the greatest time, or a time far ahead
/// where none stands.
pub(crate) fn first_rest(table: &Table<Plan>) -> Option<Time33>
    ensures { result ≡ first_rest table.now }
{
    let Some(high) = table.high() else {
        return None;
    };
    if table.standing().is_empty() {
        return Some(high.plus(FAR_AHEAD));
    }
    let mut first: Option<Time33> = None;
    for at in 0..table.standing().len() {
        if !waits_ahead(table, at, high) {
            return None;
        }
        first = Some(first_start(high, first, table.standing()[at].event.start));
    }
    first
}

/// Events stand, and none of them is forgotten at this greatest time.
pub(crate) fn keeps_all(table: &Table<Plan>, high: Time33) -> bool
    ensures { result ≡ keeps_all table.now high }
{
    !table.standing().is_empty() && are_kept(table, high)
}

/// No event that stands is forgotten at this greatest time.
fn are_kept(table: &Table<Plan>, high: Time33) -> bool
    ensures { result ≡ list_all (is_kept_at high) table.now.entries.items }
{
    table.standing().iter().all(|entry| is_kept_at(entry, high))
}

/// The event is not forgotten at this greatest time.
fn is_kept_at(entry: &Entry<Plan>, high: Time33) -> bool
    ensures { result ≡ is_kept_at high entry.now }
{
    !entry.event.is_forgotten_at(high)
}

/// The event at this place waits in all streams, and starts past this greatest time.
fn waits_ahead(table: &Table<Plan>, at: usize, high: Time33) -> bool
    requires { at < length table.now.entries.items }
    ensures { result ≡ waits_ahead high (slice_index_or table.now.entries.items at no_entry) }
{
    let standing = table.standing();
    0 < standing[at].event.start.signed_from(high) && standing[at].value.waits()
}

/// Of a start and the first of those before it, if there were any, the earlier one.
fn first_start(high: Time33, first: Option<Time33>, start: Time33) -> Time33
    ensures { result ≡ first_start high first start }
{
    match first {
        None => start,
        Some(first) => {
            if start.signed_from(high) < first.signed_from(high) {
                start
            } else {
                first
            }
        }
    }
}
