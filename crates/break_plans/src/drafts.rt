//! What a line comes to, before its request is judged.

ghost use Rattle.std.specs.Prelude.{◌≡◌, ◌<◌, ◌^◌, ℕ, MatchOption, None};
ghost use Rattle.break_choices.specs.Placing.{IsPlaced};
ghost use Rattle.break_choices.specs.Endings.{BreakEndsAt};
ghost use Rattle.break_plans.specs.Marks.{first_past};
ghost use Rattle.break_plans.specs.Drafts.{event_of, IsBreak, IsBreakOrNone, IsEarlyEnd, IsEndOrNone, cancelled, IsDraft};

use crate::edges::edge_at;
use crate::fits::fit_of;
use crate::openings::opens_continued;
use crate::planned::{Draft, Outcome};
use crate::requests::{cancel_request, end_request, start_request};
use crate::times::{MILLISECOND, time_of};
use ad_library::AdLibrary;
use break_choices::{Ending, Mark, Picture, Placed, choose_ending, place};
use break_lists::{NumberedLine, Order};
use break_scripts::PlacedRequest;
use psi_tables::Stream;

/// Ticks of a tenth of a second.
const TENTH: u64 = 9_000;

/// What a plan is made for.
#[derive(Clone, Copy)]
pub struct Setting<'a> {
    /// The pictures of the program's video, in the order of the stream.
    pub pictures: &'a [Picture],
    /// Where the greatest time of the program rises.
    pub marks: &'a [Mark],
    /// Its switched streams, in the order of the map.
    pub streams: &'a [Stream],
    /// Its first time.
    pub first: u64,
    /// The advertisements.
    pub library: &'a AdLibrary,
    /// The `DPI_PID_index` of the messages.
    pub index: u16,
}

/// A line that comes to no request.
fn dropped(outcome: Outcome) -> Draft
    ensures { result ≡ record { outcome = outcome; request = None } }
{
    Draft {
        outcome,
        request: None,
    }
}

/// The number of the event of a line: that of its line, where it is given none.
fn event_of(number: u64, event: Option<u32>) -> u32
    ensures { result ≡ event_of number event }
{
    match event {
        Some(event) => event,
        None => (number % (1 << 32)) as u32,
    }
}

/// The first of these marks whose greatest time is not before a time.
fn first_past(marks: &[Mark], time: u64) -> Option<Mark>
    ensures { result ≡ first_past time marks.now }
{
    let mut rest = marks;
    while let Some((mark, behind)) = rest.split_first() {
        if time <= mark.high {
            return Some(*mark);
        }
        rest = behind;
    }
    None
}

impl Setting<'_> {
    /// What a line comes to.
    pub fn draft(&self, line: &NumberedLine) -> Draft
        ensures { IsDraft self.now line.now result }
    {
        let at = time_of(self.first, line.line.at);
        match line.line.order {
            Order::Play {
                length,
                advert,
                event,
            } => self.start(at, event_of(line.number, event), advert, length),
            Order::Cancel(event) => self.cancel(at, event),
            Order::End(event) => self.end(at, event),
        }
    }

    /// A break of this length in milliseconds.
    fn start(&self, at: u64, event: u32, advert: u16, length: u64) -> Draft
        ensures { IsBreakOrNone self.now at event advert length result result.outcome }
    {
        let placed = match place(self.pictures, self.marks, at) {
            Ok(placed) => placed,
            Err(unplaced) => return dropped(Outcome::Unplaced(unplaced)),
        };
        match choose_ending(self.pictures, &placed, length) {
            Some(ending) => self.started(&placed, &ending, event, advert),
            None => dropped(Outcome::Length),
        }
    }

    /// A break with this ending.
    fn started(&self, placed: &Placed, ending: &Ending, event: u32, advert: u16) -> Draft
        requires pre_roll { ending.now.pre_roll < 2 ^ 16 }
        requires tenths { ending.now.tenths < 2 ^ 16 }
        ensures { (at long : ℕ) → IsPlaced self.now.pictures.now self.now.marks.now at placed.now
            → BreakEndsAt self.now.pictures.now placed.now long ending.now → IsBreak self.now at event advert long result }
    {
        let start = placed
            .mark
            .high
            .saturating_add(MILLISECOND * ending.pre_roll);
        let length = TENTH * ending.tenths;
        let end = start.saturating_add(length);
        let request = start_request(event, advert, ending.pre_roll as u16, ending.tenths as u16);
        Draft {
            outcome: Outcome::Starts {
                event,
                advert,
                start,
                picture: placed.picture.time,
                tenths: ending.tenths,
                start_edge: edge_at(self.pictures, placed.picture.time, Some(placed.picture)),
                end_edge: edge_at(self.pictures, end, ending.clean),
                fit: fit_of(self.library, advert, self.streams, length),
                is_continued: opens_continued(self.library, advert, self.streams, length),
            },
            request: Some(PlacedRequest {
                packet: placed.mark.packet,
                request,
            }),
        }
    }

    /// An early end.
    fn end(&self, at: u64, event: u32) -> Draft
        ensures { IsEndOrNone self.now at event result result.outcome }
    {
        match place(self.pictures, self.marks, at) {
            Ok(placed) => self.ended(&placed, event),
            Err(unplaced) => dropped(Outcome::Unplaced(unplaced)),
        }
    }

    /// An early end at this place.
    fn ended(&self, placed: &Placed, event: u32) -> Draft
        requires { placed.now.pre_rolls.most < 2 ^ 16 }
        ensures { (at : ℕ) → IsPlaced self.now.pictures.now self.now.marks.now at placed.now → IsEarlyEnd self.now at event result }
    {
        let pre_roll = placed.pre_rolls.most;
        Draft {
            outcome: Outcome::Ends {
                event,
                end: placed.mark.high.saturating_add(MILLISECOND * pre_roll),
                picture: placed.picture.time,
                edge: edge_at(self.pictures, placed.picture.time, Some(placed.picture)),
            },
            request: Some(PlacedRequest {
                packet: placed.mark.packet,
                request: end_request(event, pre_roll as u16),
            }),
        }
    }

    /// A cancel, before the first packet before which the greatest time is not before this one.
    fn cancel(&self, at: u64, event: u32) -> Draft
        ensures { result ≡ cancelled event (first_past at self.now.marks.now) }
    {
        match first_past(self.marks, at) {
            Some(mark) => Draft {
                outcome: Outcome::Cancels { event },
                request: Some(PlacedRequest {
                    packet: mark.packet,
                    request: cancel_request(event),
                }),
            },
            None => dropped(Outcome::Behind),
        }
    }
}
