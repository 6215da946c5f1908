//! The cues of a PID, obeyed as they come.

ghost use Rattle.std.specs.Prelude.{◌≡◌, ◌<◌, ◌∷◌, [], ℕ, ℤ, List, length, slice_set, Option, Some, None, option_map, false};
ghost use Rattle.std.specs.List.{list_any};
ghost use Rattle.pes_time.specs.Line.{ring_of, place};

use crate::asked::{Asked, asked_of};
use event_table::{Event, Table};
use pes_time::Time33;
use psi_section::{Assembler, Sections};
use scte35_codec::read;
use ts_packet::Packet;

/// The events that stand, each with a value of the caller's, and how many cues were ignored.
#[derive(Drop)]
pub(crate) struct Obeyed<T> {
    table: Table<T>,
    /// The count stops at the greatest.
    ignored: u64,
}

impl<T: Copy + Default> Obeyed<T> {
    ghost use Rattle.event_table.specs.Standing.{Standing, on_line};
    ghost use Rattle.event_table.specs.Tables.{StandsFor, high_time_of, values_of};
    ghost use Rattle.armed_events.specs.Arming.{change, start_change, end_change, cancel_change};
    ghost use Rattle.armed_events.specs.Arming.{standing_at, Heard, with_section, with_sections};
    ghost use Rattle.armed_events.specs.Obeying.{after_change, is_obeyed, ObeyedFor};
    ghost use Rattle.armed_events.specs.Valuing.{values_by, IsFreshAhead, AddsOnly, AreBeside};
    ghost use Rattle.psi_section.specs.SectionsLeft.{sections_left};

    /// Arms the event with this value, where it is no repeat of one that stands. Answers whether the cue is obeyed, as a repeat is.
    fn start(&mut self, event: Event, fresh: T) -> bool
        ensures answer { (latest : Option ℤ) (standing : List Standing) → StandsFor self.old.table latest standing →
            result ≡ is_obeyed (start_change latest standing (on_line latest event)) }
        ensures stands { (latest : Option ℤ) (standing : List Standing) → StandsFor self.old.table latest standing →
            StandsFor self.new.table latest (after_change (start_change latest standing (on_line latest event)) standing) }
        ensures values { (latest : Option ℤ) (standing : List Standing) (value : ℤ → T) →
            StandsFor self.old.table latest standing → IsFreshAhead value latest fresh →
            values_of self.old.table ≡ values_by value standing →
            values_of self.new.table ≡ values_by value (after_change (start_change latest standing (on_line latest event)) standing) }
        ensures added { AddsOnly fresh (values_of self.old.table) (values_of self.new.table) }
        ensures ignored { self.new.ignored ≡ self.old.ignored }
        ensures high { high_time_of self.new.table ≡ high_time_of self.old.table }
    {
        if self.table.is_repeat(&event) {
            return true;
        }
        if !self.table.can_arm(&event) {
            return false;
        }
        self.table.arm(event, fresh).is_ok()
    }

    /// Ends the event of this id early. Answers whether the cue is obeyed.
    fn end(&mut self, id: u32, time: Time33) -> bool
        ensures answer { (latest : Option ℤ) (standing : List Standing) → StandsFor self.old.table latest standing →
            result ≡ is_obeyed (end_change latest standing id (place latest time)) }
        ensures stands { (latest : Option ℤ) (standing : List Standing) → StandsFor self.old.table latest standing →
            StandsFor self.new.table latest (after_change (end_change latest standing id (place latest time)) standing) }
        ensures values { (latest : Option ℤ) (standing : List Standing) (value : ℤ → T) → StandsFor self.old.table latest standing →
            values_of self.old.table ≡ values_by value standing →
            values_of self.new.table ≡ values_by value (after_change (end_change latest standing id (place latest time)) standing) }
        ensures kept { values_of self.new.table ≡ values_of self.old.table }
        ensures ignored { self.new.ignored ≡ self.old.ignored }
        ensures high { high_time_of self.new.table ≡ high_time_of self.old.table }
    {
        self.table.shorten(id, time).is_ok()
    }

    /// Cancels the event of this id. Answers whether the cue is obeyed.
    fn cancel(&mut self, id: u32) -> bool
        ensures answer { (latest : Option ℤ) (standing : List Standing) → StandsFor self.old.table latest standing →
            result ≡ is_obeyed (cancel_change latest standing id) }
        ensures stands { (latest : Option ℤ) (standing : List Standing) → StandsFor self.old.table latest standing →
            StandsFor self.new.table latest (after_change (cancel_change latest standing id) standing) }
        ensures values { (latest : Option ℤ) (standing : List Standing) (value : ℤ → T) → StandsFor self.old.table latest standing →
            values_of self.old.table ≡ values_by value standing →
            values_of self.new.table ≡ values_by value (after_change (cancel_change latest standing id) standing) }
        ensures kept { values_of self.new.table ≡ values_of self.old.table }
        ensures ignored { self.new.ignored ≡ self.old.ignored }
        ensures high { high_time_of self.new.table ≡ high_time_of self.old.table }
    {
        self.table.cancel(id).is_ok()
    }

    /// Does what a cue asks for. Answers whether it is obeyed, as one that asks for nothing is.
    fn obey(&mut self, asked: Asked, fresh: T) -> bool
        ensures answer { (latest : Option ℤ) (standing : List Standing) → StandsFor self.old.table latest standing →
            result ≡ is_obeyed (change latest standing asked) }
        ensures stands { (latest : Option ℤ) (standing : List Standing) → StandsFor self.old.table latest standing →
            StandsFor self.new.table latest (after_change (change latest standing asked) standing) }
        ensures values { (latest : Option ℤ) (standing : List Standing) (value : ℤ → T) →
            StandsFor self.old.table latest standing → IsFreshAhead value latest fresh →
            values_of self.old.table ≡ values_by value standing →
            values_of self.new.table ≡ values_by value (after_change (change latest standing asked) standing) }
        ensures added { AddsOnly fresh (values_of self.old.table) (values_of self.new.table) }
        ensures ignored { self.new.ignored ≡ self.old.ignored }
        ensures high { high_time_of self.new.table ≡ high_time_of self.old.table }
    {
        match asked {
            Asked::Start(event) => self.start(event, fresh),
            Asked::End(id, time) => self.end(id, time),
            Asked::Cancel(id) => self.cancel(id),
            Asked::Unfit => false,
            Asked::Nothing => true,
        }
    }

    /// Takes a section: a cue is obeyed, or counts as ignored.
    fn take(&mut self, section: &[u8], fresh: T)
        ensures obeyed { (latest : Option ℤ) (heard : Heard) → ObeyedFor self.old latest heard →
            ObeyedFor self.new latest (with_section latest section.now heard) }
        ensures values { (latest : Option ℤ) (heard : Heard) (value : ℤ → T) → ObeyedFor self.old latest heard →
            IsFreshAhead value latest fresh →
            AreBeside self.old value latest heard → AreBeside self.new value latest (with_section latest section.now heard) }
        ensures added { AddsOnly fresh (values_of self.old.table) (values_of self.new.table) }
        ensures high { high_time_of self.new.table ≡ high_time_of self.old.table }
    {
        let is_obeyed = self.obey(asked_of(&read(section)), fresh);
        if !is_obeyed {
            self.ignored = self.ignored.saturating_add(1);
        }
    }

    /// Takes sections in order.
    fn take_all(&mut self, sections: Sections<'_>, fresh: T)
        ensures obeyed { (latest : Option ℤ) (heard : Heard) → ObeyedFor self.old latest heard →
            ObeyedFor self.new latest (with_sections latest (sections_left sections.entry) heard) }
        ensures values { (latest : Option ℤ) (heard : Heard) (value : ℤ → T) → ObeyedFor self.old latest heard →
            IsFreshAhead value latest fresh →
            AreBeside self.old value latest heard →
            AreBeside self.new value latest (with_sections latest (sections_left sections.entry) heard) }
        ensures added { AddsOnly fresh (values_of self.old.table) (values_of self.new.table) }
        ensures high { high_time_of self.new.table ≡ high_time_of self.old.table }
    {
        for section in sections {
            self.take(section, fresh);
        }
    }
}

/// The events that the cues on one PID have armed. It takes no memory.
///
/// Every packet of the PID is given to [`ArmedEvents::feed`], and every new high time, the greatest time of a unit so far, to
/// [`ArmedEvents::advance`].
#[derive(Drop)]
pub struct ArmedEvents<T = ()> {
    assembler: Assembler,
    obeyed: Obeyed<T>,
}

impl<T: Copy + Default> ArmedEvents<T> {
    ghost use Rattle.ts_packet.specs.Fields.{on};
    ghost use Rattle.event_table.specs.Rings.{CanAdvance};
    ghost use Rattle.event_table.specs.Standing.{Standing, IsTimeAt, still_standing};
    ghost use Rattle.event_table.specs.Events.{open_count_of};
    ghost use Rattle.event_table.specs.Tables.{StandsFor, high_time_of, events_of, values_of};
    ghost use Rattle.psi_section.specs.Assembling.{IsOf, IsReady, capped};
    ghost use Rattle.armed_events.specs.Arming.{standing, ignored};
    ghost use Rattle.armed_events.specs.Obeying.{Obeys};
    ghost use Rattle.armed_events.specs.Valuing.{values_by, IsFreshAhead, AddsOnly, Keeps};

    /// No event, no high time, and no cue ignored.
    pub fn new() -> ArmedEvents<T>
        ensures obeys { (pid : ℕ) (high : List (List ℕ) → Option ℤ) → high [] ≡ None → Obeys result pid high [] }
        ensures values { (pid : ℕ) (high : List (List ℕ) → Option ℤ) (value : ℤ → T) → high [] ≡ None →
            Keeps result value pid high [] }
        ensures ready { IsReady result.assembler }
        ensures high { high_time_of result.obeyed.table ≡ None }
    {
        ArmedEvents {
            assembler: Assembler::new(),
            obeyed: Obeyed {
                table: Table::new(),
                ignored: 0,
            },
        }
    }

    /// Obeys the cues that the next packet of the PID finishes, in order. A packet marked in error is left out. An event that is armed
    /// has the value `fresh` beside it; the values of those that stood stay.
    pub fn feed(&mut self, packet: &Packet, fresh: T)
        requires { IsReady self.old.assembler }
        ensures obeys { (pid : ℕ) (high : List (List ℕ) → Option ℤ) (past : List (List ℕ)) → IsOf pid packet.now →
            high (packet.now ∷ past) ≡ high past → Obeys self.old pid high past → Obeys self.new pid high (packet.now ∷ past) }
        ensures values { (pid : ℕ) (high : List (List ℕ) → Option ℤ) (past : List (List ℕ)) (value : ℤ → T) →
            IsOf pid packet.now →
            high (packet.now ∷ past) ≡ high past → Obeys self.old pid high past → IsFreshAhead value (high past) fresh →
            Keeps self.old value pid high past → Keeps self.new value pid high (packet.now ∷ past) }
        ensures added { AddsOnly fresh (values_of self.old.obeyed.table) (values_of self.new.obeyed.table) }
        ensures ready { IsReady self.new.assembler }
        ensures high { high_time_of self.new.obeyed.table ≡ high_time_of self.old.obeyed.table }
    {
        self.assembler.feed(packet);
        self.obeyed.take_all(self.assembler.sections(), fresh);
        self.assembler.pass_over();
    }

    /// Takes this time as the high time, where a packet of another PID raises it.
    pub fn advance(&mut self, high: Time33)
        requires { CanAdvance (high_time_of self.old.obeyed.table) high }
        ensures obeys { (pid : ℕ) (high_in : List (List ℕ) → Option ℤ) (p : List ℕ) (past : List (List ℕ)) (later : ℤ) →
            on pid p ≡ false → IsTimeAt (high_in past) high later → high_in (p ∷ past) ≡ Some later →
            Obeys self.old pid high_in past → Obeys self.new pid high_in (p ∷ past) }
        ensures values { (pid : ℕ) (high_in : List (List ℕ) → Option ℤ) (p : List ℕ) (past : List (List ℕ)) (later : ℤ) (value : ℤ → T) →
            on pid p ≡ false → IsTimeAt (high_in past) high later → high_in (p ∷ past) ≡ Some later →
            Obeys self.old pid high_in past →
            Keeps self.old value pid high_in past → Keeps self.new value pid high_in (p ∷ past) }
        ensures assembler { self.new.assembler ≡ self.old.assembler }
        ensures high { high_time_of self.new.obeyed.table ≡ Some high }
    {
        self.obeyed.table.advance(high);
    }

    /// Takes this time as the high time, where a packet of another PID raises it and it forgets no event. None is looked at.
    pub fn advance_keeping_all(&mut self, high: Time33)
        requires { CanAdvance (high_time_of self.old.obeyed.table) high }
        ensures obeys { (pid : ℕ) (high_in : List (List ℕ) → Option ℤ) (p : List ℕ) (past : List (List ℕ)) (later : ℤ) →
            on pid p ≡ false → IsTimeAt (high_in past) high later → high_in (p ∷ past) ≡ Some later →
            still_standing later (standing pid high_in past) ≡ standing pid high_in past →
            Obeys self.old pid high_in past → Obeys self.new pid high_in (p ∷ past) }
        ensures values { (pid : ℕ) (high_in : List (List ℕ) → Option ℤ) (p : List ℕ) (past : List (List ℕ)) (later : ℤ) (value : ℤ → T) →
            on pid p ≡ false → IsTimeAt (high_in past) high later → high_in (p ∷ past) ≡ Some later →
            still_standing later (standing pid high_in past) ≡ standing pid high_in past →
            Obeys self.old pid high_in past →
            Keeps self.old value pid high_in past → Keeps self.new value pid high_in (p ∷ past) }
        ensures entries { self.new.obeyed.table.entries ≡ self.old.obeyed.table.entries }
        ensures assembler { self.new.assembler ≡ self.old.assembler }
        ensures high { high_time_of self.new.obeyed.table ≡ Some high }
    {
        self.obeyed.table.advance_keeping_all(high);
    }

    /// Puts the value beside the event that stands at this place of [`Table::standing`]. All else stays as it is.
    pub fn set_value(&mut self, place: usize, value: T)
        requires { place < length self.old.obeyed.table.entries.items }
        ensures values { values_of self.new.obeyed.table ≡ slice_set (values_of self.old.obeyed.table) place value }
        ensures events { events_of self.new.obeyed.table ≡ events_of self.old.obeyed.table }
        ensures obeys { (pid : ℕ) (high : List (List ℕ) → Option ℤ) (past : List (List ℕ)) → Obeys self.old pid high past →
            Obeys self.new pid high past }
        ensures assembler { self.new.assembler ≡ self.old.assembler }
        ensures high { high_time_of self.new.obeyed.table ≡ high_time_of self.old.obeyed.table }
    {
        self.obeyed.table.set_value(place, value);
    }

    /// The events that stand, each with its value.
    pub fn table(&self) -> &Table<T>
        ensures same { result.now ≡ self.now.obeyed.table }
        ensures stands { (pid : ℕ) (high : List (List ℕ) → Option ℤ) (past : List (List ℕ)) → Obeys self.now pid high past →
            StandsFor result.now (high past) (standing pid high past) }
    {
        &self.obeyed.table
    }

    /// How many uncancelled events have an end that lies past the high time. There is none before the first high time.
    pub fn open_count(&self) -> usize
        ensures { result ≡ open_count_of (high_time_of self.now.obeyed.table) (events_of self.now.obeyed.table) }
    {
        self.obeyed.table.open_count()
    }

    /// How many cues were ignored: those that asked for what was refused. A repeat of an event that stands is not ignored. The count
    /// stops at the greatest.
    pub fn ignored(&self) -> u64
        ensures { (pid : ℕ) (high : List (List ℕ) → Option ℤ) (past : List (List ℕ)) → Obeys self.now pid high past →
            result ≡ capped (ignored pid high past) }
    {
        self.obeyed.ignored
    }
}
