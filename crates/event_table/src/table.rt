//! The table of standing events, and its answers.

ghost use Rattle.std.specs.Prelude.{◌≡◌, ◌↔◌, ◌^◌, ◌<◌, ◌≤◌, ◌==◌, ℤ, List, [], ◌∷◌, ◌++◌, Option, int_lt};
ghost use Rattle.std.specs.Prelude.{map, filter, position, length, slice_set, slice_index_or, IsTrue, IfSome, OnErr, option_map};
ghost use Rattle.std.specs.List.{list_any};
ghost use Rattle.pes_time.specs.Line.{ring_of, place};

use crate::event::{Event, KEPT, is_ahead, is_before};
use arrayvec::ArrayVec;
use pes_time::Time33;
use thiserror::Error;

/// How far the high time may rise in one step, in ticks: ten seconds.
const STEP: i64 = 900_000;

/// The most events that stand at one time.
const MOST: usize = 32;

/// What an accepted request changed.
#[derive(Clone, Copy, Debug, PartialEq, Eq)]
pub enum Armed {
    /// The event was armed, or its end was changed.
    New,
    /// Nothing: the request is one that was accepted before.
    Same,
}

/// Why an event was not armed. The first that applies is answered.
#[derive(Clone, Copy, Debug, PartialEq, Eq, Error)]
pub enum ArmRefusal {
    /// Another event of this id stands, cancelled or not.
    #[error("an event of this id stands")]
    InUse,
    /// 32 events stand.
    #[error("as many events stand as may")]
    Full,
    /// The interval meets that of an event that stands, cancelled or not.
    #[error("the interval meets that of a standing event")]
    Overlap,
}

/// Why an event was not cancelled.
#[derive(Clone, Copy, Debug, PartialEq, Eq, Error)]
pub enum CancelRefusal {
    /// No event of this id stands.
    #[error("no event of this id stands")]
    NoSuchEvent,
    /// The high time is at or past the start.
    #[error("the event has begun")]
    TooLate,
}

/// Why an event was not given an early end.
#[derive(Clone, Copy, Debug, PartialEq, Eq, Error)]
pub enum ShortenRefusal {
    /// No event of this id stands.
    #[error("no event of this id stands")]
    NoSuchEvent,
    /// The event is cancelled, or the end does not lie 1 to 2^29 ticks of 90 kHz past the high time, or not past the event's start, or it
    /// lies past the present end.
    #[error("the end lies outside the event")]
    BadEnd,
}

/// An event that stands, with the value that the caller keeps beside it.
#[derive(Clone, Copy, Debug, PartialEq, Eq)]
pub struct Entry<T> {
    /// The event.
    pub event: Event,
    /// The caller's own value.
    pub value: T,
}

impl<T: Default> Default for Entry<T> {
    /// What fills an unused place of a table.
    fn default() -> Entry<T> {
        Entry {
            event: Event::default(),
            value: T::default(),
        }
    }
}

/// The events that stand, at most 32, each with a value of the caller's, and the last high time: the greatest time of a unit so far.
///
/// Contracts speak of the list of integer intervals that a table stands for, with an integer high time that the ring's one stands for,
/// and beside it of the list of values. Times wrap on the ring every 26.5 hours; the integers do not.
#[derive(Drop)]
pub struct Table<T = ()> {
    entries: ArrayVec<Entry<T>, MOST>,
    last: Option<Time33>,
}

impl<T: Copy + Default> Table<T> {
    ghost use Rattle.event_table.specs.Rings.{CanAdvance, has_reached_on_ring, IsAheadOf};
    ghost use Rattle.event_table.specs.Events.{open_count_of, CanArm, meets_on_ring, repeats_on_ring, covers_on_ring};
    ghost use Rattle.event_table.specs.Standing.{Standing, on_ring, on_line, covers, repeats};
    ghost use Rattle.event_table.specs.Standing.{has_id, arm_answer, cancel_answer, shorten_answer};
    ghost use Rattle.event_table.specs.Standing.{with_cancelled, with_end, still_standing, forgotten_at, IsTimeAt};
    ghost use Rattle.event_table.specs.Tables.{StandsFor, high_time_of, events_of, values_of};

    /// A table with no event and no high time.
    pub fn new() -> Table<T>
        ensures stands { StandsFor result None [] }
        ensures high { high_time_of result ≡ None }
        ensures values { values_of result ≡ [] }
    {
        Table {
            entries: ArrayVec::new(),
            last: None,
        }
    }

    /// The last high time, or `None` before the first call of [`Table::advance`].
    pub fn high(&self) -> Option<Time33>
        ensures value { result ≡ high_time_of self.now }
        ensures latest { (latest : Option ℤ) (standing : List Standing) → StandsFor self.now latest standing →
            result ≡ option_map ring_of latest }
    {
        self.last
    }

    /// The events that stand, in order of arming, those that are cancelled among them, each with its value.
    pub fn standing(&self) -> &[Entry<T>]
        ensures entries { result.now ≡ self.now.entries.items }
        ensures list { (latest : Option ℤ) (standing : List Standing) → StandsFor self.now latest standing →
            map (λ entry. entry.event) result.now ≡ map on_ring standing }
        ensures values { map (λ entry. entry.value) result.now ≡ values_of self.now }
        ensures most { length result.now ≤ 32 }
    {
        self.entries.as_slice()
    }

    /// Where in [`Table::standing`] the event of this id stands, cancelled or not, or `None`.
    pub fn find(&self, id: u32) -> Option<usize>
        ensures place { (latest : Option ℤ) (standing : List Standing) → StandsFor self.now latest standing →
            result ≡ position (has_id id) standing }
        ensures below { IfSome result (λ place. place < length self.now.entries.items) }
    {
        self.place_of(id)
    }

    /// Whether an event of this id stands, cancelled or not.
    pub fn has_id(&self, id: u32) -> bool
        ensures { (latest : Option ℤ) (standing : List Standing) → StandsFor self.now latest standing →
            result ≡ list_any (has_id id) standing }
    {
        self.has_entry_of(id)
    }

    /// Puts the value beside the event that stands at this place of [`Table::standing`]. All else stays as it is.
    pub fn set_value(&mut self, place: usize, value: T)
        requires { place < length self.old.entries.items }
        ensures values { values_of self.new ≡ slice_set (values_of self.old) place value }
        ensures events { events_of self.new ≡ events_of self.old }
        ensures stands { (latest : Option ℤ) (standing : List Standing) → StandsFor self.old latest standing →
            StandsFor self.new latest standing }
        ensures high { high_time_of self.new ≡ high_time_of self.old }
    {
        let entry = self.entry_at(place);
        let event = entry.event;
        self.put(place, Entry { event, value });
    }

    /// Whether the event may be given to [`Table::arm`]: there is a high time, the start lies 1 to 2^29 ticks past it, the length is the
    /// one asked for, of 1 to 2^30 ticks, and it is not cancelled.
    pub fn can_arm(&self, event: &Event) -> bool
        ensures { IsTrue result ↔ CanArm (high_time_of self.now) event.now }
    {
        match self.high() {
            Some(high) => event.is_fresh() && is_ahead(event.start, high),
            None => false,
        }
    }

    /// Whether the event repeats one that stands, cancelled or not: equal in id, start, length first asked and program. It may lie
    /// anywhere, also before the high time, where `arm` takes none.
    pub fn is_repeat(&self, event: &Event) -> bool
        ensures { (latest : Option ℤ) (standing : List Standing) → StandsFor self.now latest standing →
            result ≡ list_any (repeats (on_line latest event.now)) standing }
    {
        self.has_repeat_of(*event)
    }

    /// Arms an event: it stands from now on, after all others, with the value beside it. A repeat of an event that stands is `Same` and
    /// changes nothing.
    ///
    /// # Errors
    ///
    /// The first of these that applies: `InUse` where another event of this id stands, `Full` where 32 events stand, `Overlap` where the
    /// interval meets that of an event that stands, the cancelled ones counted each time. Then nothing has changed.
    pub fn arm(&mut self, event: Event, value: T) -> Result<Armed, ArmRefusal>
        requires { CanArm (high_time_of self.old) event }
        ensures answer { (latest : Option ℤ) (standing : List Standing) → StandsFor self.old latest standing →
            result ≡ arm_answer standing (on_line latest event) }
        ensures new { result ≡ Ok Armed.New →
            (latest : Option ℤ) (standing : List Standing) → StandsFor self.old latest standing →
            StandsFor self.new latest (standing ++ on_line latest event ∷ []) }
        ensures value { result ≡ Ok Armed.New → values_of self.new ≡ values_of self.old ++ value ∷ [] }
        ensures same { result ≡ Ok Armed.Same → self.new ≡ self.old }
        ensures refused { OnErr result (self.new ≡ self.old) }
        ensures high { high_time_of self.new ≡ high_time_of self.old }
    {
        if self.is_repeat(&event) {
            return Ok(Armed::Same);
        }
        if self.has_id(event.id) {
            return Err(ArmRefusal::InUse);
        }
        if self.entries.is_full() {
            return Err(ArmRefusal::Full);
        }
        if self.meets(&event) {
            return Err(ArmRefusal::Overlap);
        }
        self.entries.push(Entry { event, value });
        Ok(Armed::New)
    }

    /// Cancels the event of this id. It keeps its id, its interval and its value until it is forgotten; a second cancel changes nothing.
    ///
    /// # Errors
    ///
    /// `NoSuchEvent` where no event of this id stands; `TooLate` where the high time is at or past its start. Then nothing has changed.
    pub fn cancel(&mut self, id: u32) -> Result<(), CancelRefusal>
        ensures answer { (latest : Option ℤ) (standing : List Standing) → StandsFor self.old latest standing →
            result ≡ cancel_answer latest standing id }
        ensures cancelled { result ≡ Ok tt →
            (latest : Option ℤ) (standing : List Standing) → StandsFor self.old latest standing →
            StandsFor self.new latest (with_cancelled id standing) }
        ensures values { values_of self.new ≡ values_of self.old }
        ensures refused { OnErr result (self.new ≡ self.old) }
        ensures high { high_time_of self.new ≡ high_time_of self.old }
    {
        let Some(place) = self.place_of(id) else {
            return Err(CancelRefusal::NoSuchEvent);
        };
        let event = self.entry_at(place).event;
        if self.has_reached(event.start) {
            return Err(CancelRefusal::TooLate);
        }
        self.put_event(place, event.into_cancelled());
        Ok(())
    }

    /// Gives the event of this id an early end, 1 to 2^29 ticks of 90 kHz past the high time, above the event's start and below its
    /// present end. Its present end again is `Same`, where it lies as far past the high time.
    ///
    /// # Errors
    ///
    /// `NoSuchEvent` where no event of this id stands; `BadEnd` where the event is cancelled, or where the end lies elsewhere. Then
    /// nothing has changed.
    pub fn shorten(&mut self, id: u32, end: Time33) -> Result<Armed, ShortenRefusal>
        ensures answer { (latest : Option ℤ) (standing : List Standing) → StandsFor self.old latest standing →
            result ≡ shorten_answer latest standing id (place latest end) }
        ensures new { result ≡ Ok Armed.New →
            (latest : Option ℤ) (standing : List Standing) → StandsFor self.old latest standing →
            StandsFor self.new latest (with_end id (place latest end) standing) }
        ensures values { values_of self.new ≡ values_of self.old }
        ensures same { result ≡ Ok Armed.Same → self.new ≡ self.old }
        ensures refused { OnErr result (self.new ≡ self.old) }
        ensures high { high_time_of self.new ≡ high_time_of self.old }
    {
        let Some(place) = self.place_of(id) else {
            return Err(ShortenRefusal::NoSuchEvent);
        };
        let event = self.entry_at(place).event;
        if !self.is_ahead_of_high(end) {
            return Err(ShortenRefusal::BadEnd);
        }
        if event.cancelled {
            return Err(ShortenRefusal::BadEnd);
        }
        if end.ticks() == event.end().ticks() {
            return Ok(Armed::Same);
        }
        if !event.ends_early_at(end) {
            return Err(ShortenRefusal::BadEnd);
        }
        self.put_event(place, event.ended_at(end));
        Ok(Armed::New)
    }

    /// The place in [`Table::standing`] of the uncancelled event that holds this time, or `None`. The time is the one nearest to the high
    /// time among those that the ring shows so.
    pub fn at(&self, time: Time33) -> Option<usize>
        ensures place { (latest : Option ℤ) (standing : List Standing) → StandsFor self.now latest standing →
            result ≡ position (covers (place latest time)) standing }
        ensures below { IfSome result (λ place. place < length self.now.entries.items) }
    {
        self.first_over(time)
    }

    /// Whether the time may be given to [`Table::advance`]: there is no high time yet, or it is not below it and at most 900,000 ticks
    /// past it.
    pub fn can_advance(&self, high: Time33) -> bool
        ensures { IsTrue result ↔ CanAdvance (high_time_of self.now) high }
    {
        match self.high() {
            Some(last) => {
                let way = high.signed_from(last);
                0 <= way && way <= STEP
            }
            None => true,
        }
    }

    /// Takes this time as the high time, and forgets each event whose end lies 900,000 ticks or more before it, with its value.
    pub fn advance(&mut self, high: Time33)
        requires { CanAdvance (high_time_of self.old) high }
        ensures stands { (latest : Option ℤ) (standing : List Standing) (later : ℤ) → StandsFor self.old latest standing →
            IsTimeAt latest high later → StandsFor self.new (Some later) (still_standing later standing) }
        ensures values { (latest : Option ℤ) (standing : List Standing) (later : ℤ) (value : Standing → T) →
            StandsFor self.old latest standing → IsTimeAt latest high later → values_of self.old ≡ map value standing →
            values_of self.new ≡ map value (still_standing later standing) }

        // Each event that still stands keeps its own value, whatever the values are.
        ensures pairs { (latest : Option ℤ) (pairs : List (Standing × T)) (later : ℤ) →
            StandsFor self.old latest (map (λ x. x.0) pairs) → IsTimeAt latest high later →
            values_of self.old ≡ map (λ x. x.1) pairs →
            values_of self.new ≡ map (λ x. x.1) (filter (λ x. int_lt later (forgotten_at x.0)) pairs) }
        ensures high { high_time_of self.new ≡ Some high }
    {
        let Table { entries, last } = self;
        entries.retain(|entry| is_before(high, entry.event.end().plus(KEPT)));
        *last = Some(high);
    }

    /// Takes this time as the high time, where it forgets no event. None is looked at.
    pub fn advance_keeping_all(&mut self, high: Time33)
        requires { CanAdvance (high_time_of self.old) high }
        ensures stands { (latest : Option ℤ) (standing : List Standing) (later : ℤ) → StandsFor self.old latest standing →
            IsTimeAt latest high later → still_standing later standing ≡ standing → StandsFor self.new (Some later) standing }
        ensures entries { self.new.entries ≡ self.old.entries }
        ensures high { high_time_of self.new ≡ Some high }
    {
        let _ticks = high.ticks();
        let Table { last: highest, .. } = self;
        *highest = Some(high);
    }

    /// How many uncancelled events have an end that lies past the high time. There is none before the first high time.
    pub fn open_count(&self) -> usize
        ensures { result ≡ open_count_of (high_time_of self.now) (events_of self.now) }
    {
        let Some(high) = self.high() else {
            return 0;
        };
        let mut count = 0;
        for entry in self.entries.as_slice() {
            if entry.event.is_open_at(high) {
                count += 1;
            }
        }
        count
    }

    /// Where the event of this id stands in the list, or `None`.
    fn place_of(&self, id: u32) -> Option<usize>
        ensures { result ≡ position (λ entry. entry.event.id == id) self.now.entries.items }
    {
        self.entries.iter().position(|entry| entry.event.id == id)
    }

    /// Whether the event repeats one in the list.
    fn has_repeat_of(&self, event: Event) -> bool
        ensures found { result ≡ list_any (λ entry. repeats_on_ring event entry.event) self.now.entries.items }
        ensures start { event.start < 2 ^ 33 }
    {
        self.entries.iter().any(|entry| event.repeats(&entry.event))
    }

    /// Where in the list the first uncancelled event that holds the time stands.
    fn first_over(&self, time: Time33) -> Option<usize>
        ensures { result ≡ position (λ entry. covers_on_ring entry.event time) self.now.entries.items }
    {
        self.entries
            .iter()
            .position(|entry| entry.event.covers(time))
    }

    /// Whether an event of this id is in the list.
    fn has_entry_of(&self, id: u32) -> bool
        ensures { result ≡ list_any (λ entry. entry.event.id == id) self.now.entries.items }
    {
        self.entries.iter().any(|entry| entry.event.id == id)
    }

    /// Whether the interval of the event meets that of one that stands.
    fn meets(&self, event: &Event) -> bool
        ensures { result ≡ list_any (λ entry. meets_on_ring event.now entry.event) self.now.entries.items }
    {
        self.entries.iter().any(|entry| event.meets(&entry.event))
    }

    /// The entry at this place.
    fn entry_at(&self, place: usize) -> Entry<T>
        requires { place < length self.now.entries.items }
        ensures { result ≡ slice_index_or self.now.entries.items place result }
    {
        self.entries[place]
    }

    /// Puts the event in the place of one that stands, with the value of that one.
    fn put_event(&mut self, place: usize, event: Event)
        requires { place < length self.old.entries.items }
        ensures events { events_of self.new ≡ slice_set (events_of self.old) place event }
        ensures values { values_of self.new ≡ values_of self.old }
        ensures high { high_time_of self.new ≡ high_time_of self.old }
    {
        let entry = self.entry_at(place);
        let value = entry.value;
        self.put(place, Entry { event, value });
    }

    /// Puts the entry in the place of one that stands.
    fn put(&mut self, place: usize, entry: Entry<T>)
        requires { place < length self.old.entries.items }
        ensures items { self.new.entries.items ≡ slice_set self.old.entries.items place entry }
        ensures high { high_time_of self.new ≡ high_time_of self.old }
    {
        self.entries[place] = entry;
    }

    /// Whether there is a high time and this time lies 1 to 2^29 ticks past it.
    fn is_ahead_of_high(&self, time: Time33) -> bool
        ensures { IsTrue result ↔ IsAheadOf (high_time_of self.now) time }
    {
        match self.high() {
            Some(high) => is_ahead(time, high),
            None => false,
        }
    }

    /// Whether the high time is at or past this time.
    fn has_reached(&self, time: Time33) -> bool
        ensures { result ≡ has_reached_on_ring (high_time_of self.now) time }
    {
        match self.high() {
            Some(high) => !is_before(high, time),
            None => false,
        }
    }
}
