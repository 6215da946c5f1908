//! A plan as lines of text.

use crate::fits::Fit;
use crate::planned::{Edge, Outcome, PlannedLine, Verdict};
use crate::times::{MILLISECOND, stamp_of};
use break_choices::{Picture, Unplaced};
use std::fmt;

/// A planned line, told by times from the first one of its program on.
#[derive(Clone, Copy)]
pub struct Told<'a> {
    /// The line.
    pub line: &'a PlannedLine,
    /// How its request is answered, where it has one.
    pub verdict: Option<Verdict>,
    /// The first time.
    pub first: u64,
}

/// Milliseconds as seconds.
#[derive(Clone, Copy)]
struct Seconds(u64);

impl fmt::Display for Seconds {
    fn fmt<W: fmt::Write>(&self, f: &mut fmt::Formatter<W>) -> fmt::Result {
        let (seconds, thousandths) = (self.0 / 1_000, self.0 % 1_000);
        write!(f, "{seconds}.{thousandths:03}")
    }
}

/// A time, in seconds from the first one on, and its time stamp.
#[derive(Clone, Copy)]
struct Moment {
    time: u64,
    first: u64,
}

impl fmt::Display for Moment {
    fn fmt<W: fmt::Write>(&self, f: &mut fmt::Formatter<W>) -> fmt::Result {
        let ticks = stamp_of(self.time).ticks();
        let span = Seconds(self.time.abs_diff(self.first) / MILLISECOND);
        if self.time < self.first {
            write!(f, "-")?;
        }
        write!(f, "{span} (pts {ticks})")
    }
}

impl fmt::Display for Edge {
    fn fmt<W: fmt::Write>(&self, f: &mut fmt::Formatter<W>) -> fmt::Result {
        let Edge::Rough { before, behind } = self else {
            return write!(f, "clean");
        };
        write!(f, "not clean")?;
        if let Some(before) = before {
            let span = Seconds(*before / MILLISECOND);
            write!(f, ", a clean one {span} s before")?;
        }
        if let Some(behind) = behind {
            let span = Seconds(*behind / MILLISECOND);
            write!(f, ", a clean one {span} s behind")?;
        }
        Ok(())
    }
}

impl fmt::Display for Fit {
    fn fmt<W: fmt::Write>(&self, f: &mut fmt::Formatter<W>) -> fmt::Result {
        match self {
            Fit::Fits => write!(f, "fits"),
            Fit::Missing => write!(f, "does not fit: it is not listed"),
            Fit::NoStream(stream) => {
                let (kind, pid) = (stream.kind, stream.pid.get());
                write!(
                    f,
                    "does not fit: it has no stream of type {kind} for PID {pid}"
                )
            }
            Fit::Short(stream) => {
                let pid = stream.pid.get();
                write!(f, "does not fit: it is too short for PID {pid}")
            }
        }
    }
}

impl fmt::Display for Verdict {
    fn fmt<W: fmt::Write>(&self, f: &mut fmt::Formatter<W>) -> fmt::Result {
        match self {
            Verdict::Taken => write!(f, "taken"),
            Verdict::Refused(number) => write!(
                f,
                "refused with {number:04X}, and not in the script"
            ),
            Verdict::Crowded => write!(
                f,
                "not in the script, where 136 requests stand before this packet"
            ),
        }
    }
}

impl Told<'_> {
    /// An entry picture on one side, where there is one.
    fn side<W: fmt::Write>(
        &self,
        f: &mut fmt::Formatter<W>,
        picture: Option<Picture>,
        side: &str,
    ) -> fmt::Result {
        match picture {
            Some(picture) => {
                let moment = self.moment(picture.time);
                write!(f, ", the nearest {side} at {moment}")
            }
            None => write!(f, ", none {side}"),
        }
    }

    fn moment(&self, time: u64) -> Moment {
        Moment {
            time,
            first: self.first,
        }
    }

    /// Why it was not placed.
    fn unplaced<W: fmt::Write>(
        &self,
        f: &mut fmt::Formatter<W>,
        unplaced: &Unplaced,
    ) -> fmt::Result {
        match unplaced {
            Unplaced::NoPicture { before, behind } => {
                write!(f, "not planned: no entry picture within 10 s")?;
                self.side(f, *before, "before")?;
                self.side(f, *behind, "behind")
            }
            Unplaced::NoPacket(picture) => {
                let moment = self.moment(picture.time);
                write!(
                    f,
                    "not planned: no packet comes early enough for the picture at {moment}"
                )
            }
        }
    }

    /// What becomes of it.
    fn outcome<W: fmt::Write>(&self, f: &mut fmt::Formatter<W>) -> fmt::Result {
        match &self.line.draft.outcome {
            Outcome::Starts {
                event,
                advert,
                picture,
                tenths,
                start_edge,
                end_edge,
                fit,
                is_continued,
                ..
            } => {
                let moment = self.moment(*picture);
                let length = Seconds(tenths.saturating_mul(100));
                write!(
                    f,
                    "event {event} plays {advert} at {moment} for {length} s; start {start_edge}; end {end_edge}; advertisement {fit}"
                )?;
                if *is_continued {
                    write!(f, "; its first picture goes on from pictures before it")?;
                }
                Ok(())
            }
            Outcome::Ends {
                event,
                picture,
                edge,
                ..
            } => {
                let moment = self.moment(*picture);
                write!(f, "event {event} ends at {moment}; end {edge}")
            }
            Outcome::Cancels { event } => write!(f, "event {event} is cancelled"),
            Outcome::Unplaced(unplaced) => self.unplaced(f, unplaced),
            Outcome::Behind => write!(f, "not planned: the time lies behind the network"),
            Outcome::Length => { write!(f, "not planned: a break lasts 0.1 to 6553.5 seconds") }
        }
    }
}

impl fmt::Display for Told<'_> {
    fn fmt<W: fmt::Write>(&self, f: &mut fmt::Formatter<W>) -> fmt::Result {
        let number = self.line.number;
        write!(f, "line {number}: ")?;
        self.outcome(f)?;
        if let Some(placed) = self.line.draft.request {
            let (packet, pre_roll) = (placed.packet, placed.request.pre_roll_time);
            write!(f, "; asked before packet {packet}, {pre_roll} ms ahead")?;
        }
        if let Some(verdict) = self.verdict {
            write!(f, "; {verdict}")?;
        }
        Ok(())
    }
}
