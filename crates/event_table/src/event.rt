//! An event on the ring, and what is asked of one event alone.

ghost use Rattle.std.specs.Prelude.{◌≡◌, ◌↔◌, ◌+◌, ◌%◌, ◌^◌, IsTrue, true, not};
ghost use Rattle.event_table.specs.Rings.{is_before_on_ring, IsAheadOnRing};

use pes_time::Time33;

/// The longest length of an event, in ticks: a little over three hours.
const LONGEST: u64 = 1 << 30;

/// How long past its end an event is kept, in ticks: ten seconds.
pub(crate) const KEPT: u64 = 900_000;

/// The furthest that a start or an early end may lie past the high time, in ticks: a little over an hour and a half.
const FURTHEST: i64 = 1 << 29;

/// One event: the interval from its start, for its length, with what was asked for when it was armed. Times are those of the
/// network, in ticks of 90 kHz.
#[derive(Clone, Copy, Debug, PartialEq, Eq)]
pub struct Event {
    /// The number by which requests and cues name the event.
    pub id: u32,
    /// The time of the first unit inside.
    pub start: Time33,
    /// The ticks from the start to the end that is in force now. The end itself lies outside.
    pub length: u64,
    /// The length first asked for, in ticks, also after an early end.
    pub asked: u64,
    /// The number of the advertisement that is to be played.
    pub program: u16,
    /// Whether the event was cancelled. It then keeps its id and interval until it is forgotten.
    pub cancelled: bool,
}

impl Default for Event {
    ghost use Rattle.event_table.specs.Events.{no_event};

    ghost is_default = { λ event. event ≡ no_event };

    /// What fills an unused place of a table.
    fn default() -> Event {
        Event {
            id: 0,
            start: zero(),
            length: 0,
            asked: 0,
            program: 0,
            cancelled: false,
        }
    }
}

/// The time of no ticks.
fn zero() -> Time33
    ensures { result ≡ 0 }
{
    match Time33::new(0) {
        Some(time) => time,
        None => unreachable!(),
    }
}

/// Whether `a` comes before `b`, by the sign of the way between them on the ring.
pub fn is_before(a: Time33, b: Time33) -> bool
    ensures { result ≡ is_before_on_ring a b }
{
    a.signed_from(b) < 0
}

/// Whether a time lies 1 to 2^29 ticks past the high time.
pub(crate) fn is_ahead(time: Time33, high: Time33) -> bool
    ensures { IsTrue result ↔ IsAheadOnRing high time }
{
    let way = time.signed_from(high);
    0 < way && way <= FURTHEST
}

impl Event {
    ghost use Rattle.event_table.specs.Events.{ring_end, is_open_on_ring, covers_on_ring};
    ghost use Rattle.event_table.specs.Events.{meets_on_ring, repeats_on_ring, ends_early_on_ring};
    ghost use Rattle.event_table.specs.Events.{cancelled_event, ended_on_ring, IsFresh};

    /// The end that is in force now, on the ring: the first time outside.
    pub fn end(&self) -> Time33
        ensures { result ≡ ring_end self.now }
    {
        self.start.plus(self.length)
    }

    /// Whether the event is forgotten where this is the greatest time: its end lies 900,000 ticks or more before it.
    pub fn is_forgotten_at(&self, high: Time33) -> bool
        ensures { result ≡ not (is_before_on_ring high ((ring_end self.now + 900000) % 2 ^ 33)) }
    {
        !is_before(high, self.end().plus(KEPT))
    }

    /// Whether an uncancelled event holds the time.
    pub fn covers(&self, time: Time33) -> bool
        ensures { result ≡ covers_on_ring self.now time }
    {
        let way = time.signed_from(self.start);
        !self.cancelled && 0 <= way && (way as u64) < self.length
    }

    /// Whether an uncancelled event has an end past this time.
    pub(crate) fn is_open_at(&self, high: Time33) -> bool
        ensures { result ≡ is_open_on_ring high self.now }
    {
        !self.cancelled && is_before(high, self.end())
    }

    /// Whether the two intervals have a time in common.
    pub(crate) fn meets(&self, other: &Event) -> bool
        ensures { result ≡ meets_on_ring self.now other.now }
    {
        is_before(self.start, other.end()) && is_before(other.start, self.end())
    }

    /// Whether the two are the same request: in id, start, length first asked and program.
    pub(crate) fn repeats(&self, other: &Event) -> bool
        ensures { result ≡ repeats_on_ring self.now other.now }
    {
        self.id == other.id
            && self.start.ticks() == other.start.ticks()
            && self.asked == other.asked
            && self.program == other.program
    }

    /// Whether the time lies past the start and before the end.
    pub(crate) fn ends_early_at(&self, time: Time33) -> bool
        ensures { result ≡ ends_early_on_ring self.now time }
    {
        0 < time.signed_from(self.start) && is_before(time, self.end())
    }

    /// The event, cancelled.
    pub(crate) fn into_cancelled(self) -> Event
        ensures { result ≡ cancelled_event self }
    {
        let mut event = self;
        event.cancelled = true;
        event
    }

    /// The event with this early end.
    pub(crate) fn ended_at(self, time: Time33) -> Event
        requires { ends_early_on_ring self time ≡ true }
        ensures { result ≡ ended_on_ring time self }
    {
        let mut event = self;
        event.length = time.signed_from(self.start) as u64;
        event
    }

    /// Whether the event is one that was never armed: not cancelled, its length the one asked for, of 1 to 2^30 ticks.
    pub(crate) fn is_fresh(&self) -> bool
        ensures { IsTrue result ↔ IsFresh self.now }
    {
        !self.cancelled && self.length == self.asked && 0 < self.length && self.length <= LONGEST
    }
}
