//! Requests, judged.

ghost use Rattle.std.specs.Prelude.{◌≡◌, ◌↔◌, ◌+◌, ◌*◌, ◌%◌, ◌^◌, ◌<◌, ◌∷◌, [], ℕ, ℤ, List, ◌++◌, Option, Ok, Some};
ghost use Rattle.std.specs.Prelude.{OnErr, IsTrue, length, slice_get, slice_index_or, slice_set, option_map};
ghost use Rattle.scte104_codec.specs.Views.{reading_of};
ghost use Rattle.event_table.specs.Rings.{CanAdvance};
ghost use Rattle.event_table.specs.Standing.{Standing, IsTimeAt, on_ring, has_id, with_cancelled};
ghost use Rattle.event_table.specs.Events.{open_count_of};
ghost use Rattle.event_table.specs.Tables.{StandsFor, high_time_of, events_of, values_of};
ghost use Rattle.pes_time.specs.Line.{ring_of};
ghost use Rattle.injector.specs.Asking.{fields_of, asked_of_multiple, IsStartable};
ghost use Rattle.injector.specs.Verdicts.{start_verdict, end_verdict, cancel_verdict, verdict_of, verdict_by};
ghost use Rattle.injector.specs.Verdicts.{with_start, ended, after, after_by, event_on_ring};
ghost use Rattle.injector.specs.Turns.{Turn, Judged, Passed, greatest_in};
ghost use Rattle.injector.specs.Replies.{reply_to};
ghost use Rattle.injector.specs.Requests.{RequestsStandFor};
ghost use Rattle.injector.specs.Senders.{Sender, events_in, noted_after, standing_senders, IsIdle};
ghost use Rattle.injector.specs.Noting.{AreNoted, NotesStandFor, NotesTold, Rests, Sending, ring_next};
ghost use Rattle.unit_stream.specs.Clocks.{Rises};

use crate::asked::{END_NORMAL, START_NORMAL, ServedRequest, request_in};
use crate::choice::{earlier, next_time};
use crate::notes::Notes;
use crate::refusal::Refusal;
use crate::reply::{SUCCESS, UNSERVED, alive_reply, bad_reply, reply, verdict_reply};
use event_table::{ArmRefusal, Armed, CancelRefusal, Entry, Event, ShortenRefusal, Table};
use pes_time::Time33;
use scte104_codec::operation_ids::{GENERAL_RESPONSE, INIT_RESPONSE};
use scte104_codec::{BadMessage, Message, Multi, Reply, SpliceRequest};

/// Ticks of 90 kHz in a millisecond, the unit of `pre_roll_time`.
const MILLISECOND: u64 = 90;

/// Ticks of 90 kHz in a tenth of a second, the unit of `break_duration`.
const TENTH: u64 = 9_000;

/// The requests of one program: they are judged by the greatest time of the network, of which they are told, and the events that stand.
#[derive(Drop)]
pub struct Requests {
    index: u16,
    table: Table<Notes>,
}

impl Requests {
    /// No request yet, and no time. Messages with another `DPI_PID_index` than this are refused.
    pub fn new(index: u16) -> Requests
        ensures stands { RequestsStandFor result index [] }
        ensures notes { NotesStandFor result index [] }
    {
        Requests {
            index,
            table: Table::new(),
        }
    }

    /// The greatest time that was told, or `None` before the first.
    pub fn high(&self) -> Option<Time33>
        ensures { result ≡ high_time_of self.now.table }
    {
        self.table.high()
    }

    /// Whether the time may be given to [`Requests::advance`].
    pub fn can_advance(&self, high: Time33) -> bool
        ensures { IsTrue result ↔ CanAdvance (high_time_of self.now.table) high }
    {
        self.table.can_advance(high)
    }

    /// Takes this time as the greatest one, which a packet brought.
    pub fn advance(&mut self, time: Time33)
        requires { CanAdvance (high_time_of self.old.table) time }
        ensures stands { (index : ℕ) (past : List Turn) (later : ℤ) → RequestsStandFor self.old index past →
            IsTimeAt (greatest_in past) time later →
            RequestsStandFor self.new index (Passed (Some later) ∷ past) }
        ensures notes { (index : ℕ) (past : List Turn) (later : ℤ) → RequestsStandFor self.old index past →
            NotesTold self.old index past (Some later) →
            IsTimeAt (greatest_in past) time later → NotesStandFor self.new index (Passed (Some later) ∷ past) }
        ensures high { high_time_of self.new.table ≡ Some time }
    {
        self.table.advance(time);
    }

    /// Takes this as the greatest time behind a packet, if it is another one.
    #[inline(always)]
    pub(crate) fn rise(&mut self, later: Option<Time33>)
        ensures stands { (index : ℕ) (past : List Turn) (latest : Option ℤ) → RequestsStandFor self.old index past →
            Rises (greatest_in past) latest →
            later ≡ option_map ring_of latest → RequestsStandFor self.new index (Passed latest ∷ past) }
        ensures notes { (index : ℕ) (past : List Turn) (latest : Option ℤ) → RequestsStandFor self.old index past →
            NotesTold self.old index past latest →
            Rises (greatest_in past) latest → later ≡ option_map ring_of latest →
            NotesStandFor self.new index (Passed latest ∷ past) }
    {
        if later == self.high() {
            return;
        }
        let Some(high) = later else {
            return;
        };
        if self.can_advance(high) {
            self.advance(high);
        }
    }

    /// Judges a message, and answers it. A request that is refused changes nothing; one that is accepted adds one event or changes one.
    pub fn ask(&mut self, message: Result<Message<'_>, BadMessage>) -> Reply
        ensures answer { (index : ℕ) (past : List Turn) → RequestsStandFor self.old index past →
            result ≡ reply_to index (reading_of message.entry) past }
        ensures turn { (index : ℕ) (past : List Turn) → RequestsStandFor self.old index past →
            RequestsStandFor self.new index (Judged (reading_of message.entry) ∷ past) }
        ensures notes { (index : ℕ) (past : List Turn) → RequestsStandFor self.old index past →
            NotesStandFor self.old index past →
            NotesStandFor self.new index (Judged (reading_of message.entry) ∷ past) }
        ensures high { high_time_of self.new.table ≡ high_time_of self.old.table }
    {
        match message {
            Ok(message) => self.answer(message),
            Err(bad) => bad_reply(bad),
        }
    }

    /// Answers a message that was read.
    fn answer(&mut self, message: Message<'_>) -> Reply
        ensures answer { (index : ℕ) (past : List Turn) → RequestsStandFor self.old index past →
            result ≡ reply_to index (reading_of (Ok message.entry)) past }
        ensures turn { (index : ℕ) (past : List Turn) → RequestsStandFor self.old index past →
            RequestsStandFor self.new index (Judged (reading_of (Ok message.entry)) ∷ past) }
        ensures notes { (index : ℕ) (past : List Turn) → RequestsStandFor self.old index past →
            NotesStandFor self.old index past →
            NotesStandFor self.new index (Judged (reading_of (Ok message.entry)) ∷ past) }
        ensures high { high_time_of self.new.table ≡ high_time_of self.old.table }
    {
        match message {
            Message::Init(head) => reply(INIT_RESPONSE, SUCCESS, head, &[]),
            Message::Alive(head, body) => alive_reply(head, body),
            Message::Other(head) => reply(GENERAL_RESPONSE, UNSERVED, head, &[]),
            Message::Multi(multi) => {
                let verdict = self.judge(&multi);
                verdict_reply(multi.head, verdict)
            }
        }
    }

    /// The time until which no cue is due, behind a packet before which those that were due went out.
    pub(crate) fn rest(&self) -> Option<Time33>
        ensures { (index : ℕ) (past : List Turn) → RequestsStandFor self.now index past →
            NotesStandFor self.now index past → IsIdle index (greatest_in past) past →
            Rests result (greatest_in past) (standing_senders index past) }
    {
        let mut rest = None;
        let mut place = 0;
        while place < self.count() {
            let next = self.next_at(place);
            rest = earlier(&rest, &next);
            place += 1;
        }
        rest
    }

    /// The time at which the cue of the event at this place is repeated next.
    fn next_at(&self, place: usize) -> Option<Time33>
        requires { place < length self.now.table.entries.items }
        ensures { (latest : Option ℤ) (done : List Sender) (x : Sender) (left : List Sender) →
            Sending self.now latest latest done (x ∷ left) → place ≡ length done →
            result ≡ ring_next (on_ring x.event) (option_map ring_of x.last) (option_map ring_of latest) }
    {
        let entry = self.entry(place);
        let high = self.high();
        next_time(&entry.event, entry.value.last, high)
    }

    /// How many of the starts that were accepted are not cancelled, and have an end that lies past the greatest time. There is none before the
    /// first time.
    pub fn open_count(&self) -> usize
        ensures { result ≡ open_count_of (high_time_of self.now.table) (events_of self.now.table) }
    {
        self.table.open_count()
    }

    /// The event that stands at this place, in order of arming, those that are cancelled among them; `None` behind the last one.
    pub fn standing_event(&self, place: usize) -> Option<Event>
        ensures { result ≡ slice_get (events_of self.now.table) place }
    {
        self.table.standing().get(place).map(|entry| entry.event)
    }

    /// How many events stand.
    pub(crate) fn count(&self) -> usize
        ensures { result ≡ length self.now.table.entries.items }
    {
        self.table.standing().len()
    }

    /// The event that stands at this place, with its notes, lent.
    pub(crate) fn entry(&self, place: usize) -> &Entry<Notes>
        requires { place < length self.now.table.entries.items }
        ensures event { result.now.event ≡ slice_index_or (events_of self.now.table) place result.now.event }
        ensures value { result.now.value ≡ slice_index_or (values_of self.now.table) place result.now.value }
    {
        &self.table.standing()[place]
    }

    /// Puts these notes beside the event that stands at this place.
    pub(crate) fn note(&mut self, place: usize, notes: Notes)
        requires { place < length self.old.table.entries.items }
        ensures notes { values_of self.new.table ≡ slice_set (values_of self.old.table) place notes }
        ensures stands { (latest : Option ℤ) (standing : List Standing) → StandsFor self.old.table latest standing →
            StandsFor self.new.table latest standing }
        ensures index { self.new.index ≡ self.old.index }
        ensures high { high_time_of self.new.table ≡ high_time_of self.old.table }
        ensures count { length self.new.table.entries.items ≡ length self.old.table.entries.items }
    {
        self.table.set_value(place, notes);
    }

    /// Judges what a message asks for.
    fn judge(&mut self, message: &Multi<'_>) -> Result<(), Refusal>
        ensures answer { (latest : Option ℤ) (standing : List Standing) → StandsFor self.old.table latest standing →
            result ≡ verdict_by latest standing (asked_of_multiple self.old.index (fields_of message.now)) }
        ensures after { (latest : Option ℤ) (standing : List Standing) → StandsFor self.old.table latest standing →
            StandsFor self.new.table latest
            (after_by latest standing (asked_of_multiple self.old.index (fields_of message.now))) }
        ensures notes { (latest : Option ℤ) (xs : List Sender) → StandsFor self.old.table latest (events_in xs) →
            AreNoted self.old latest xs →
            AreNoted self.new latest (noted_after latest xs (asked_of_multiple self.old.index (fields_of message.now))) }
        ensures index { self.new.index ≡ self.old.index }
        ensures high { high_time_of self.new.table ≡ high_time_of self.old.table }
    {
        match request_in(message, self.index) {
            Ok(asked) => self.take(&asked),
            Err(refusal) => Err(refusal),
        }
    }

    /// Judges a request by the events that stand.
    fn take(&mut self, asked: &ServedRequest) -> Result<(), Refusal>
        requires { IsStartable asked.now }
        ensures answer { (latest : Option ℤ) (standing : List Standing) → StandsFor self.old.table latest standing →
            result ≡ verdict_of latest standing asked.now.request }
        ensures after { (latest : Option ℤ) (standing : List Standing) → StandsFor self.old.table latest standing →
            StandsFor self.new.table latest
            (after latest standing asked.now.request (verdict_of latest standing asked.now.request)) }
        ensures notes { (latest : Option ℤ) (xs : List Sender) → StandsFor self.old.table latest (events_in xs) →
            AreNoted self.old latest xs →
            AreNoted self.new latest (noted_after latest xs (Ok asked.now)) }
        ensures index { self.new.index ≡ self.old.index }
        ensures high { high_time_of self.new.table ≡ high_time_of self.old.table }
    {
        let request = asked.request;
        match request.splice_insert_type {
            START_NORMAL => self.start(request, Notes::of(asked)),
            END_NORMAL => self.end(request),
            _ => self.cancel(request),
        }
    }

    /// Takes a start.
    fn start(&mut self, request: SpliceRequest, notes: Notes) -> Result<(), Refusal>
        requires duration { 0 < request.break_duration }
        requires pre_roll { 0 < request.pre_roll_time }
        ensures answer { (latest : Option ℤ) (standing : List Standing) → StandsFor self.old.table latest standing →
            result ≡ start_verdict latest standing request }
        ensures started { result ≡ Ok tt → (latest : Option ℤ) (standing : List Standing) →
            StandsFor self.old.table latest standing →
            StandsFor self.new.table latest (with_start latest standing request) }
        ensures notes { result ≡ Ok tt → values_of self.new.table ≡ values_of self.old.table ++ notes ∷ [] }
        ensures refused { OnErr result (self.new ≡ self.old) }
        ensures index { self.new.index ≡ self.old.index }
        ensures high { high_time_of self.new.table ≡ high_time_of self.old.table }
    {
        let Some(high) = self.table.high() else {
            return Err(Refusal::NoClock);
        };
        match self.table.arm(event_at(high, request), notes) {
            Ok(Armed::New) => Ok(()),
            Ok(Armed::Same) => Err(Refusal::InUse),
            Err(ArmRefusal::InUse) => Err(Refusal::InUse),
            Err(ArmRefusal::Full) => Err(Refusal::Full),
            Err(ArmRefusal::Overlap) => Err(Refusal::Overlap),
        }
    }

    /// Takes an end.
    fn end(&mut self, request: SpliceRequest) -> Result<(), Refusal>
        ensures answer { (latest : Option ℤ) (standing : List Standing) → StandsFor self.old.table latest standing →
            result ≡ end_verdict latest standing request }
        ensures ended { result ≡ Ok tt → (latest : Option ℤ) (standing : List Standing) →
            StandsFor self.old.table latest standing →
            StandsFor self.new.table latest (ended latest (has_id request.splice_event_id) standing request) }
        ensures notes { values_of self.new.table ≡ values_of self.old.table }
        ensures refused { OnErr result (self.new ≡ self.old) }
        ensures index { self.new.index ≡ self.old.index }
        ensures high { high_time_of self.new.table ≡ high_time_of self.old.table }
    {
        let Some(high) = self.table.high() else {
            return Err(Refusal::NoSuchEvent);
        };
        let end = time_of(high, request);
        match self.table.shorten(request.splice_event_id, end) {
            Ok(Armed::New) => Ok(()),
            Ok(Armed::Same) => Err(Refusal::BadEnd),
            Err(ShortenRefusal::BadEnd) => Err(Refusal::BadEnd),
            Err(ShortenRefusal::NoSuchEvent) => Err(Refusal::NoSuchEvent),
        }
    }

    /// Takes a cancel.
    fn cancel(&mut self, request: SpliceRequest) -> Result<(), Refusal>
        ensures answer { (latest : Option ℤ) (standing : List Standing) → StandsFor self.old.table latest standing →
            result ≡ cancel_verdict latest standing request }
        ensures cancelled { result ≡ Ok tt → (latest : Option ℤ) (standing : List Standing) →
            StandsFor self.old.table latest standing →
            StandsFor self.new.table latest (with_cancelled request.splice_event_id standing) }
        ensures notes { values_of self.new.table ≡ values_of self.old.table }
        ensures refused { OnErr result (self.new ≡ self.old) }
        ensures index { self.new.index ≡ self.old.index }
        ensures high { high_time_of self.new.table ≡ high_time_of self.old.table }
    {
        match self.table.cancel(request.splice_event_id) {
            Ok(()) => Ok(()),
            Err(CancelRefusal::NoSuchEvent) => Err(Refusal::NoSuchEvent),
            Err(CancelRefusal::TooLate) => Err(Refusal::TooLate),
        }
    }
}

/// The time that a request names, at this greatest time.
fn time_of(high: Time33, request: SpliceRequest) -> Time33
    ensures { result ≡ (high + 90 * request.pre_roll_time) % 2 ^ 33 }
{
    high.plus(MILLISECOND * u64::from(request.pre_roll_time))
}

/// The event that a start asks for, at this greatest time.
fn event_at(high: Time33, request: SpliceRequest) -> Event
    ensures { result ≡ event_on_ring high request }
{
    let length = TENTH * u64::from(request.break_duration);
    Event {
        id: request.splice_event_id,
        start: time_of(high, request),
        length,
        asked: length,
        program: request.unique_program_id,
        cancelled: false,
    }
}
