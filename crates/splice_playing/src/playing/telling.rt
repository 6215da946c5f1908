//! What is told of the events: which stand, what is settled, and what became of all.

ghost use Rattle.std.specs.Prelude.{◌≡◌, ◌≤◌, ℕ, List, length, true};
ghost use Rattle.std.specs.Option.{is_some};
ghost use Rattle.event_table.specs.Events.{open_count_of};
ghost use Rattle.event_table.specs.Tables.{high_time_of, events_of};
ghost use Rattle.ad_library.specs.Library.{held};
ghost use Rattle.splice_plans.specs.Counters.{PidSteps};
ghost use Rattle.splice_plans.specs.Switching.{Setting};
ghost use Rattle.splice_plans.specs.Reporting.{ReportIs, report_of};
ghost use Rattle.splice_playing.specs.Resting.{all_wait};

use super::Playing;
use crate::forgetting::with_all;
use ad_library::AdLibrary;
use event_table::Entry;
use psi_tables::Stream;
use splice_plans::{Plan, SwitchReport};

impl Playing {
    ghost use Rattle.splice_playing.specs.Going.{plans_in};
    ghost use Rattle.splice_playing.specs.Relations.{PlaysBy, EndsWith, Reports, settled_of};

    /// How many events are not cancelled, and have an end that lies past the greatest time. There is none before the first time.
    pub fn open_count(&self) -> usize
        ensures { result ≡ open_count_of (high_time_of self.now.events.obeyed.table) (events_of self.now.events.obeyed.table) }
    {
        self.events.open_count()
    }

    /// The events that stand, in order of arming, each with its plan.
    pub fn standing(&self) -> &[Entry<Plan>]
        ensures entries { result.now ≡ self.now.events.obeyed.table.entries.items }
        ensures most { length result.now ≤ 32 }
    {
        self.events.table().standing()
    }

    /// What became of the events that are forgotten, and how many cues were ignored.
    pub fn settled(&self) -> SwitchReport
        ensures { (k : Setting) (past : List (List ℕ)) (steps : PidSteps) → PlaysBy self.now k past steps → ReportIs result (settled_of k past) }
    {
        SwitchReport {
            ignored: self.events.ignored(),
            ..self.forgotten
        }
    }

    /// How often a cue came, an event came further in a stream or was crossed, or events were forgotten: where it is as it was, and below the
    /// greatest u64, at which it stops, so are the events that stand, how far each has come, and what became of those that are forgotten.
    #[inline(always)]
    pub fn turns(&self) -> u64
        ensures { result ≡ self.now.turns }
    {
        self.turns
    }

    /// It is known that all events that stand wait in all streams, or that none stands.
    #[inline(always)]
    pub fn rests(&self) -> bool
        ensures value { result ≡ is_some self.now.rest }
        ensures waits { result ≡ true → all_wait (plans_in self.now) ≡ true }
    {
        self.rest.is_some()
    }

    /// What became of all events.
    pub fn report(&self, streams: &[Stream], library: &AdLibrary) -> SwitchReport
        ensures { (k : Setting) (past : List (List ℕ)) → Reports self.now k past →
            EndsWith k (held library.now) streams.now past → ReportIs result (report_of k past) }
    {
        let mut report = with_all(self.forgotten, self.events.table(), streams, library);
        report.ignored = self.events.ignored();
        report
    }
}
