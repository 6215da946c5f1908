//! Which cues of an event go out before a packet.

ghost use Rattle.std.specs.Prelude.{◌≡◌, ℕ, Option};
ghost use Rattle.injector.specs.Senders.{is_none};
ghost use Rattle.injector.specs.Noting.{ring_ended, ring_news, ring_current, ring_limit, ring_repeated, ring_chosen};
ghost use Rattle.injector.specs.Noting.{ring_next, ring_earlier, ring_reached};

use crate::notes::{Notes, Told};
use event_table::{Event, is_before};
use pes_time::Time33;

/// Which cues of an event go out before a packet, in this order.
#[derive(Clone, Copy, Debug, PartialEq, Eq)]
pub(crate) struct Choice {
    pub(crate) start: bool,
    pub(crate) end: bool,
    pub(crate) cancel: bool,
}

impl Choice {
    /// Whether no cue goes out.
    pub(crate) fn is_none(&self) -> bool
        ensures { result ≡ is_none self.now }
    {
        !self.start && !self.end && !self.cancel
    }
}

/// The event has got an early end.
fn is_ended(event: &Event) -> bool
    ensures { result ≡ ring_ended event.now }
{
    event.length < event.asked
}

/// What is new of an event: what no cue has told yet. Of an event that was cancelled before its first cue the cancel alone is.
fn news(event: &Event, told: Option<Told>) -> Choice
    ensures { result ≡ ring_news event.now told }
{
    match told {
        None => Choice {
            start: !event.cancelled,
            end: !event.cancelled && is_ended(event),
            cancel: event.cancelled,
        },
        Some(told) => Choice {
            start: false,
            end: event.length < told.length,
            cancel: event.cancelled && !told.cancelled,
        },
    }
}

/// The cue of an event that is repeated.
fn current(event: &Event) -> Choice
    ensures { result ≡ ring_current event.now }
{
    Choice {
        start: !event.cancelled && !is_ended(event),
        end: !event.cancelled && is_ended(event),
        cancel: event.cancelled,
    }
}

/// The time from which on the event's cue is repeated no more: the start, or of an early end this end.
fn limit(event: &Event) -> Time33
    ensures { result ≡ ring_limit event.now }
{
    if !event.cancelled && is_ended(event) {
        event.end()
    } else {
        event.start
    }
}

/// How many ticks of 90 kHz lie between two cues of an event: a second.
const REPEAT: u64 = 90_000;

/// Whether the event's cue is repeated before a packet that lifts the greatest time from `high` to `later`.
fn is_repeated(
    event: &Event,
    last: Option<Time33>,
    high: Option<Time33>,
    later: Option<Time33>,
) -> bool
    ensures { result ≡ ring_repeated event.now last high later }
{
    let Some(last) = last else {
        return false;
    };
    let Some(high) = high else {
        return false;
    };
    let Some(later) = later else {
        return false;
    };
    is_before(high, limit(event)) && !is_before(later, last.plus(REPEAT))
}

/// The time at which the event's cue is repeated next, behind a packet with this greatest time, unless the event changes.
pub(crate) fn next_time(event: &Event, last: Option<Time33>, high: Option<Time33>) -> Option<Time33>
    ensures { result ≡ ring_next event.now last high }
{
    let Some(last) = last else {
        return None;
    };
    let Some(high) = high else {
        return None;
    };
    if is_before(high, limit(event)) {
        return Some(last.plus(REPEAT));
    }
    None
}

/// The earlier of two times.
pub(crate) fn earlier(a: &Option<Time33>, b: &Option<Time33>) -> Option<Time33>
    ensures { result ≡ ring_earlier a.now b.now }
{
    let Some(first) = *a else {
        return *b;
    };
    let Some(second) = *b else {
        return Some(first);
    };
    if is_before(second, first) {
        return Some(second);
    }
    Some(first)
}

/// Whether the greatest time behind a packet has come to this time.
pub(crate) fn is_reached(rest: Option<Time33>, later: Option<Time33>) -> bool
    ensures { result ≡ ring_reached rest later }
{
    let Some(rest) = rest else {
        return false;
    };
    let Some(later) = later else {
        return false;
    };
    !is_before(later, rest)
}

/// The cues of an event that go out before a packet that lifts the greatest time from `high` to `later`: the new ones, else the one that
/// is repeated.
pub(crate) fn chosen(
    event: &Event,
    notes: &Notes,
    high: Option<Time33>,
    later: Option<Time33>,
) -> Choice
    ensures { result ≡ ring_chosen event.now notes.now.told notes.now.last high later }
{
    let news = news(event, notes.told);
    if !news.is_none() {
        return news;
    }
    if is_repeated(event, notes.last, high, later) {
        return current(event);
    }
    Choice {
        start: false,
        end: false,
        cancel: false,
    }
}
