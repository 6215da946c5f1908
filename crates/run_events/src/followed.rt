//! One break, as it was seen last.

ghost use Rattle.std.specs.Prelude.{◌≡◌, ◌%◌, slice_get, Some, IsTrue, ◌↔◌};
ghost use Rattle.splice_plans.specs.Turning.{part_of};
ghost use Rattle.run_events.specs.Telling.{Tells};
ghost use Rattle.run_events.specs.Settling.{asked_for};

use crate::misfit::Misfit;
use crate::occurrence::{Edge, EdgeFault, EdgePlace, What};
use crate::unit::Unit;
use crate::watch::{Site, Watch};
use event_table::{Event, is_before};
use splice_plans::{Plan, Stage};

/// A break that stands, as it was seen last.
#[derive(Clone, Copy, Debug)]
pub(crate) struct Followed {
    /// The event.
    pub(crate) event: Event,
    /// What keeps its advertisement from fitting.
    pub(crate) misfit: Option<Misfit>,
    /// How far it had come in each stream.
    stages: [Stage; 8],
    /// Whether a unit has crossed its start or its end in some stream.
    pub(crate) is_crossed: bool,
    /// Of each stream, whether it was told that a unit has crossed its start.
    crossed_starts: [bool; 8],
    /// Likewise of its end.
    crossed_ends: [bool; 8],
    /// Of each stream in which it has begun, whether a unit at or past its end has.
    passed_ends: [bool; 8],
}

/// An event as it was asked for: with its length then, and not cancelled.
pub(crate) fn as_asked(event: &Event) -> Event
    ensures { result ≡ asked_for event.now }
{
    Event {
        id: event.id,
        start: event.start,
        length: event.asked,
        asked: event.asked,
        program: event.program,
        cancelled: false,
    }
}

impl Default for Followed {
    /// What fills an unused place of a list.
    fn default() -> Followed {
        Followed::new(Event::default(), None)
    }
}

impl Followed {
    /// A break that waits in all streams.
    pub(crate) fn new(event: Event, misfit: Option<Misfit>) -> Followed
        ensures event { result.event ≡ event }
        ensures misfit { result.misfit ≡ misfit }
    {
        Followed {
            event,
            misfit,
            stages: [Stage::Waiting; 8],
            is_crossed: false,
            crossed_starts: [false; 8],
            crossed_ends: [false; 8],
            passed_ends: [false; 8],
        }
    }

    /// It is the break of this event, which may have changed: a number stands once, and is armed anew at another start.
    pub(crate) fn is_of(&self, event: &Event) -> bool
        ensures { IsTrue result ↔ (self.now.event.id ≡ event.now.id) × (self.now.event.start ≡ event.now.start) }
    {
        self.event.id == event.id && self.event.start == event.start
    }

    /// It waited in the stream of this number, and does so by this plan.
    #[inline(always)]
    pub(crate) fn waits_on(&self, plan: &Plan, stream: usize) -> bool
        ensures { IsTrue result ↔ (slice_get self.now.stages (stream % 8) ≡ Some Stage.Waiting)
            × ((part_of plan.now stream).stage ≡ Stage.Waiting) }
    {
        self.stages[stream % 8] == Stage::Waiting && plan.part(stream).stage == Stage::Waiting
    }

    /// The place of an edge at this unit.
    fn place(&self, edge: Edge, unit: &Unit<'_>) -> EdgePlace {
        EdgePlace {
            event: self.event.id,
            edge,
            pid: unit.pid,
            pts: unit.pts,
        }
    }

    /// Tells of an edge that is not clean, where the unit at it is of pictures and no entry picture. Where it is.
    fn tell_edge<W: Watch>(
        &self,
        edge: Edge,
        unit: &Unit<'_>,
        site: Site,
        watch: &mut W,
    ) -> Option<EdgePlace>
        ensures { Tells W.hears site watch.old 0 0 0 watch.new }
    {
        match unit.fault() {
            None => None,
            Some(fault) => {
                site.tell(watch, What::Edge(self.place(edge, unit), fault));
                Some(self.place(edge, unit))
            }
        }
    }

    /// Tells of a unit below the start, behind one at or past it.
    fn cross_start<W: Watch>(&mut self, unit: &Unit<'_>, site: Site, watch: &mut W)
        ensures { Tells W.hears site watch.old 0 0 0 watch.new }
    {
        let start = self.event.start;
        if !is_before(unit.pts, start) || self.crossed_starts[unit.stream % 8] {
            return;
        }
        self.crossed_starts[unit.stream % 8] = true;
        let back = start.signed_from(unit.pts).unsigned_abs();
        let place = self.place(Edge::Start, unit);
        site.tell(watch, What::Edge(place, EdgeFault::SteppedBack(back)));
    }

    /// Tells of a unit below the end, behind one at or past it.
    fn cross_end<W: Watch>(&mut self, unit: &Unit<'_>, site: Site, watch: &mut W)
        ensures { Tells W.hears site watch.old 0 0 0 watch.new }
    {
        let end = self.event.end();
        let has_passed = self.passed_ends[unit.stream % 8];
        if !has_passed || !is_before(unit.pts, end) || self.crossed_ends[unit.stream % 8] {
            return;
        }
        self.crossed_ends[unit.stream % 8] = true;
        let back = end.signed_from(unit.pts).unsigned_abs();
        let place = self.place(Edge::End, unit);
        site.tell(watch, What::Edge(place, EdgeFault::SteppedBack(back)));
    }

    /// Tells of the first unit at or past the end, where it is not clean.
    fn pass_end<W: Watch>(
        &mut self,
        unit: &Unit<'_>,
        site: Site,
        watch: &mut W,
    ) -> Option<EdgePlace>
        ensures { Tells W.hears site watch.old 0 0 0 watch.new }
    {
        if self.passed_ends[unit.stream % 8] || is_before(unit.pts, self.event.end()) {
            return None;
        }
        self.passed_ends[unit.stream % 8] = true;
        self.tell_edge(Edge::End, unit, site, watch)
    }

    /// Follows it through a unit, behind which this is its plan. The edges at which an entry picture is missed are those that it answers.
    /// A unit below the start ends it in a stream as one past its end does.
    pub(crate) fn turn<W: Watch>(
        &mut self,
        plan: &Plan,
        unit: &Unit<'_>,
        site: Site,
        watch: &mut W,
    ) -> [Option<EdgePlace>; 2]
        ensures { Tells W.hears site watch.old 0 0 0 watch.new }
    {
        let before = self.stages[unit.stream % 8];
        let after = plan.part(unit.stream).stage;
        self.is_crossed = plan.is_crossed;
        let mut missed = [None; 2];
        if before != Stage::Waiting {
            self.cross_start(unit, site, watch);
            self.cross_end(unit, site, watch);
        } else if after != Stage::Waiting {
            site.tell(watch, What::Begun(self.event, unit.pid, unit.pts));
            missed[0] = self.tell_edge(Edge::Start, unit, site, watch);
        }
        if before != Stage::Over && after == Stage::Over {
            site.tell(watch, What::Over(self.event, unit.pid, unit.pts));
        }
        if after != Stage::Waiting {
            missed[1] = self.pass_end(unit, site, watch);
        }
        self.stages[unit.stream % 8] = after;
        missed
    }
}
