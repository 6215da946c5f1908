//! The breaks of one switch, seen packet by packet.

ghost use Rattle.std.specs.Prelude.{◌≡◌, ◌-◌, map, filter, slice_get, is_none};
ghost use Rattle.ad_library.specs.Library.{held, fits_held};
ghost use Rattle.splice_plans.specs.Reporting.{ReportIs, no_counts};
ghost use Rattle.run_events.specs.Telling.{at, Tells};
ghost use Rattle.run_events.specs.Settling.{is_played, is_not_fitted, is_unconditioned, counts_so, told_as, settled_lines};

use crate::followed::{Followed, as_asked};
use crate::misfit::misfit_of;
use crate::occurrence::{Cue, EdgePlace, What};
use crate::unit::Unit;
use crate::watch::{Site, Watch};
use ad_library::AdLibrary;
use arrayvec::ArrayVec;
use event_table::{Entry, Event};
use psi_tables::Stream;
use splice_plans::Plan;
use splice_switch::{Switch, SwitchReport};
use ts_packet::Packet;

/// The most breaks that stand at one time.
const MOST: usize = 32;

/// The breaks of one switch, as they were seen last, and how many were told as settled.
#[derive(Drop)]
pub(crate) struct Tracker {
    followed: ArrayVec<Followed, MOST>,
    /// The switch's count of turns.
    turns: u64,
    /// Entry pictures behind edges are told.
    tells_points: bool,
    /// The edges behind which one is still to come.
    awaited: ArrayVec<Option<EdgePlace>, MOST>,
    /// How many breaks were told as played, as not fitted and as unconditioned.
    settled: SwitchReport,
}

/// What becomes of a break that is settled: it is counted so.
fn counts_as_played(one: &Followed) -> bool
    ensures { result ≡ is_played one.now }
{
    !one.event.cancelled && one.misfit.is_none()
}

/// It is counted as one without an advertisement that fits.
fn counts_as_not_fitted(one: &Followed) -> bool
    ensures { result ≡ is_not_fitted one.now }
{
    !one.event.cancelled && one.misfit.is_some()
}

/// It is counted as unconditioned.
fn counts_as_unconditioned(one: &Followed) -> bool
    ensures { result ≡ is_unconditioned one.now }
{
    counts_as_played(one) && one.is_crossed
}

/// How a break is counted.
#[derive(Clone, Copy, Debug, PartialEq, Eq)]
enum Counted {
    Played,
    NotFitted,
    Unconditioned,
}

impl Counted {
    /// This break is counted so.
    fn counts(self, one: &Followed) -> bool
        ensures { result ≡ counts_so self one.now }
    {
        match self {
            Counted::Played => counts_as_played(one),
            Counted::NotFitted => counts_as_not_fitted(one),
            Counted::Unconditioned => counts_as_unconditioned(one),
        }
    }

    /// What is told of it.
    fn told(self, one: Option<Followed>) -> What
        ensures { result ≡ told_as self one }
    {
        let (event, misfit) = match one {
            Some(one) => (Some(one.event), one.misfit),
            None => (None, None),
        };
        match self {
            Counted::Played => What::Played(event),
            Counted::NotFitted => What::NotFitted(event, misfit),
            Counted::Unconditioned => What::Unconditioned(event),
        }
    }
}

/// The break of this number, from 0, among those of these that are counted so.
fn nth_counted(counted: Counted, number: u64, gone: &[Followed]) -> Option<Followed>
    ensures { result ≡ slice_get (filter (counts_so counted) gone.now) number }
{
    let mut before = number;
    for one in gone.iter() {
        if counted.counts(one) {
            if before == 0 {
                return Some(*one);
            }
            before -= 1;
        }
    }
    None
}

/// Tells so many lines of breaks that are counted so: of these in their order.
fn tell_counted<W: Watch>(
    counted: Counted,
    count: u64,
    gone: &[Followed],
    site: Site,
    watch: &mut W,
)
    ensures { W.hears watch.old (map (at site) (settled_lines counted gone.now count)) watch.new }
{
    for number in 0..count {
        site.tell(watch, counted.told(nth_counted(counted, number, gone)));
    }
}

impl Default for Tracker {
    /// What fills an unused place of a list.
    fn default() -> Tracker {
        Tracker::new(false)
    }
}

/// What a switch has taken, and what is known besides.
#[derive(Clone, Copy)]
pub(crate) struct Taken<'a> {
    /// Where it was judged.
    pub(crate) packet: Option<&'a Packet>,
    /// Cues may have come with it or before it.
    pub(crate) has_news: bool,
}

impl Tracker {
    /// Nothing was seen; entry pictures behind edges are told or not.
    pub(crate) fn new(tells_points: bool) -> Tracker
        ensures { ReportIs result.settled no_counts }
    {
        Tracker {
            followed: ArrayVec::new(),
            turns: 0,
            tells_points,
            awaited: ArrayVec::new(),
            settled: SwitchReport::new(),
        }
    }

    /// Nothing has turned in the switch since it was looked at, and no break is waited for.
    #[inline(always)]
    pub(crate) fn is_up_to_date(&self, switch: &Switch) -> bool {
        let turns = switch.turns();
        self.turns == turns && turns < u64::MAX && self.awaited.is_empty()
    }

    /// Looks at a switch behind a packet that it took. It looks at no event where nothing has turned.
    #[inline(always)]
    pub(crate) fn look<W: Watch>(
        &mut self,
        switch: &Switch,
        library: &AdLibrary,
        taken: Taken<'_>,
        site: Site,
        watch: &mut W,
    )
        ensures { Tells W.hears site watch.old (self.new.settled.played - self.old.settled.played)
            (self.new.settled.not_fitted - self.old.settled.not_fitted)
            (self.new.settled.unconditioned - self.old.settled.unconditioned) watch.new }
    {
        if self.is_up_to_date(switch) && !taken.has_news {
            return;
        }
        self.turns = switch.turns();
        self.look_closely(switch, library, taken, site, watch);
    }

    /// Looks at each break.
    #[inline(never)]
    fn look_closely<W: Watch>(
        &mut self,
        switch: &Switch,
        library: &AdLibrary,
        taken: Taken<'_>,
        site: Site,
        watch: &mut W,
    )
        ensures { Tells W.hears site watch.old (self.new.settled.played - self.old.settled.played)
            (self.new.settled.not_fitted - self.old.settled.not_fitted)
            (self.new.settled.unconditioned - self.old.settled.unconditioned) watch.new }
    {
        let standing = switch.standing();
        if taken.has_news || !self.is_aligned(standing) {
            self.align(
                standing,
                switch.streams(),
                library,
                switch.settled(),
                site,
                watch,
            );
        }
        let Some(packet) = taken.packet else {
            return;
        };
        let Some(unit) = Unit::begun(packet, switch.streams()) else {
            return;
        };
        self.turn_all(standing, &unit, site, watch);
        self.meet_point(&unit, site, watch);
    }

    /// All breaks that stand are known; without news none of them has changed but in a stream.
    fn is_aligned(&self, standing: &[Entry<Plan>]) -> bool {
        if standing.len() != self.followed.len() {
            return false;
        }
        for (one, entry) in self.followed.iter().zip(standing.iter()) {
            if !one.is_of(&entry.event) {
                return false;
            }
        }
        true
    }

    /// Takes the breaks that stand for those that are known: tells of those that are new, have changed or are settled.
    fn align<W: Watch>(
        &mut self,
        standing: &[Entry<Plan>],
        streams: &[Stream],
        library: &AdLibrary,
        settled: SwitchReport,
        site: Site,
        watch: &mut W,
    )
        ensures settled { self.new.settled ≡ settled }
        ensures told { Tells W.hears site watch.old (settled.played - self.old.settled.played)
            (settled.not_fitted - self.old.settled.not_fitted) (settled.unconditioned - self.old.settled.unconditioned) watch.new }
    {
        let mut gone: ArrayVec<Followed, MOST> = ArrayVec::new();
        let mut kept: ArrayVec<Followed, MOST> = ArrayVec::new();
        for one in self.followed.iter() {
            match standing.get(kept.len()) {
                Some(entry) if one.is_of(&entry.event) => {
                    let _ = kept.try_push(changed(*one, &entry.event, site, watch));
                }
                _ => {
                    let _ = gone.try_push(*one);
                }
            }
        }
        for place in kept.len()..standing.len() {
            let _ = kept.try_push(armed(&standing[place].event, streams, library, site, watch));
        }
        self.followed = kept;
        self.settle(gone.as_slice(), settled, site, watch);
    }

    /// Tells of breaks that are settled, these among them, by what the switch has counted.
    fn settle<W: Watch>(&mut self, gone: &[Followed], now: SwitchReport, site: Site, watch: &mut W)
        ensures settled { self.new.settled ≡ now }
        ensures told { Tells W.hears site watch.old (now.played - self.old.settled.played)
            (now.not_fitted - self.old.settled.not_fitted) (now.unconditioned - self.old.settled.unconditioned) watch.new }
    {
        let before = self.settled;
        let played = now.played.saturating_sub(before.played);
        let not_fitted = now.not_fitted.saturating_sub(before.not_fitted);
        let unconditioned = now.unconditioned.saturating_sub(before.unconditioned);
        tell_counted(Counted::Played, played, gone, site, watch);
        tell_counted(Counted::NotFitted, not_fitted, gone, site, watch);
        tell_counted(Counted::Unconditioned, unconditioned, gone, site, watch);
        self.settled = now;
    }

    /// Follows all breaks through a unit.
    fn turn_all<W: Watch>(
        &mut self,
        standing: &[Entry<Plan>],
        unit: &Unit<'_>,
        site: Site,
        watch: &mut W,
    )
        ensures settled { self.new.settled ≡ self.old.settled }
        ensures told { Tells W.hears site watch.old 0 0 0 watch.new }
    {
        for (place, entry) in standing.iter().enumerate() {
            let Some(one) = self.followed.get_mut(place) else {
                return;
            };
            if one.waits_on(&entry.value, unit.stream) {
                continue;
            }
            one.event = entry.event;
            let missed = one.turn(&entry.value, unit, site, watch);
            self.await_point(missed[0]);
            self.await_point(missed[1]);
        }
    }

    /// An entry picture is awaited behind this edge, where there is room to remember it.
    fn await_point(&mut self, place: Option<EdgePlace>)
        ensures { self.new.settled ≡ self.old.settled }
    {
        if self.tells_points && place.is_some() {
            let _ = self.awaited.try_push(place);
        }
    }

    /// Tells of the edges behind which this unit is the first entry picture.
    fn meet_point<W: Watch>(&mut self, unit: &Unit<'_>, site: Site, watch: &mut W)
        ensures settled { self.new.settled ≡ self.old.settled }
        ensures told { Tells W.hears site watch.old 0 0 0 watch.new }
    {
        if self.awaited.is_empty() || !unit.is_entry() {
            return;
        }
        let mut left: ArrayVec<Option<EdgePlace>, MOST> = ArrayVec::new();
        for awaited in self.awaited.iter() {
            match awaited {
                Some(place) if place.pid == unit.pid => {
                    let ticks = unit.pts.signed_from(place.pts).unsigned_abs();
                    site.tell(watch, What::RandomAccess(*place, ticks));
                }
                _ => {
                    let _ = left.try_push(*awaited);
                }
            }
        }
        self.awaited = left;
    }

    /// Tells of the breaks that stand at the end, by what the switch reports, and forgets all.
    pub(crate) fn finish<W: Watch>(&mut self, report: SwitchReport, site: Site, watch: &mut W)
        ensures settled { ReportIs self.new.settled no_counts }
        ensures told { Tells W.hears site watch.old (report.played - self.old.settled.played)
            (report.not_fitted - self.old.settled.not_fitted) (report.unconditioned - self.old.settled.unconditioned) watch.new }
    {
        let mut gone: ArrayVec<Followed, MOST> = ArrayVec::new();
        for one in self.followed.iter() {
            let _ = gone.try_push(*one);
        }
        self.settle(gone.as_slice(), report, site, watch);
        *self = Tracker::new(self.tells_points);
    }
}

/// A break that is armed with a cue: tells of that, and of what came with it.
fn armed<W: Watch>(
    event: &Event,
    streams: &[Stream],
    library: &AdLibrary,
    site: Site,
    watch: &mut W,
) -> Followed
    ensures event { result.event ≡ event.now }
    ensures misfit { is_none result.misfit ≡ fits_held (held library.now event.now.program) streams.now event.now.asked }
    ensures told { Tells W.hears site watch.old 0 0 0 watch.new }
{
    let misfit = misfit_of(library, event.program, streams, event.asked);
    let first = Followed::new(as_asked(event), misfit);
    site.tell(watch, What::Cue(Cue::Start(first.misfit), as_asked(event)));
    changed(first, event, site, watch)
}

/// A break that has become this event: tells of an early end and of a cancel.
fn changed<W: Watch>(one: Followed, event: &Event, site: Site, watch: &mut W) -> Followed
    ensures event { result.event ≡ event.now }
    ensures misfit { result.misfit ≡ one.misfit }
    ensures told { Tells W.hears site watch.old 0 0 0 watch.new }
{
    if event.length != one.event.length {
        site.tell(watch, What::Cue(Cue::End, *event));
        site.tell(watch, What::EndedEarly(*event));
    }
    if event.cancelled && !one.event.cancelled {
        site.tell(watch, What::Cue(Cue::Cancel, *event));
        site.tell(watch, What::Cancelled(*event));
    }
    let mut now = one;
    now.event = *event;
    now
}
