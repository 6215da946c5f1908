//! What a plan comes to.

ghost use Rattle.std.specs.Prelude.{◌≡◌};
ghost use Rattle.break_plans.specs.Verdicts.{verdict_at};

use crate::fits::Fit;
use break_choices::Unplaced;
use break_scripts::PlacedRequest;

/// How a cut lies to the entry pictures.
#[derive(Clone, Copy, Debug, PartialEq, Eq)]
pub enum Edge {
    /// It falls just before one, and the pictures do not step back over it.
    Clean,
    /// It does not. How many ticks the nearest picture at which a cut is clean lies before it and behind it, where there are such.
    Rough {
        /// Before it.
        before: Option<u64>,
        /// Behind it.
        behind: Option<u64>,
    },
}

/// How the chain answers the request of a line.
#[derive(Clone, Copy, Debug, PartialEq, Eq)]
pub enum Verdict {
    /// It takes it: the request is in the script.
    Taken,
    /// It refuses it with this number, so that it is not in the script.
    Refused(u16),
    /// So many requests come before its packet that the line of the script has no room for it.
    Crowded,
}

/// What becomes of a line. Times and ways are ticks of 90 kHz.
#[derive(Clone, Copy, Debug, PartialEq, Eq)]
pub enum Outcome {
    /// A break begins.
    Starts {
        /// The number of its event.
        event: u32,
        /// The number of its advertisement.
        advert: u16,
        /// When it starts.
        start: u64,
        /// The time of the picture at which it starts.
        picture: u64,
        /// How long it lasts, in tenths of a second.
        tenths: u64,
        /// How the start lies.
        start_edge: Edge,
        /// How the end lies.
        end_edge: Edge,
        /// Whether the advertisement fits.
        fit: Fit,
        /// Whether its first picture shows that its numbers go on from pictures before it.
        is_continued: bool,
    },
    /// A break ends early.
    Ends {
        /// The number of its event.
        event: u32,
        /// When it ends.
        end: u64,
        /// The time of the picture at which it ends.
        picture: u64,
        /// How the end lies.
        edge: Edge,
    },
    /// A break is cancelled.
    Cancels {
        /// The number of its event.
        event: u32,
    },
    /// It cannot be placed.
    Unplaced(Unplaced),
    /// Its time lies behind the last packet.
    Behind,
    /// No break is so long or so short: it lasts 0.1 to 6,553.5 seconds.
    Length,
}

/// What a line comes to: what becomes of it, and its request, where it has one.
#[derive(Clone, Copy, Debug, PartialEq, Eq)]
pub struct Draft {
    /// What becomes of it.
    pub outcome: Outcome,
    /// The request, and the packet before which it comes.
    pub request: Option<PlacedRequest>,
}

/// A line that was planned.
#[derive(Clone, Copy, Debug, PartialEq, Eq)]
pub struct PlannedLine {
    /// Its number in the list.
    pub number: u64,
    /// What it comes to.
    pub draft: Draft,
}

/// A request that was judged.
#[derive(Clone, Copy, Debug, PartialEq, Eq)]
pub struct Judged {
    /// The place of its line among those that were planned, from 0.
    pub place: usize,
    /// The request.
    pub placed: PlacedRequest,
    /// How it is answered.
    pub verdict: Verdict,
}

/// A plan: its lines in the order of the list, and the requests in the order of the network.
#[derive(Drop)]
pub struct Plan {
    /// The lines that plan something.
    pub lines: Vec<PlannedLine>,
    /// Their requests, judged.
    pub judged: Vec<Judged>,
    /// Those that are taken.
    pub requests: Vec<PlacedRequest>,
}

impl Plan {
    /// How the request of the line at this place is answered; `None` where it has none.
    pub fn verdict(&self, place: usize) -> Option<Verdict>
        ensures { result ≡ verdict_at place self.now.judged.items }
    {
        let mut rest = self.judged.as_slice();
        while let Some((judged, behind)) = rest.split_first() {
            if judged.place == place {
                return Some(judged.verdict);
            }
            rest = behind;
        }
        None
    }
}
