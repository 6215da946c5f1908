//! What a switch reports.

ghost use Rattle.std.specs.Prelude.{◌≡◌};
ghost use Rattle.splice_plans.specs.Reporting.{EventCounts, ReportIs, with_one, no_counts, events_sum};

/// What became of the events that the cues of a network armed. A count stops at the greatest.
#[derive(Clone, Copy, Debug, PartialEq, Eq)]
pub struct SwitchReport {
    /// Events that were not cancelled, and whose advertisement fits, reached or not.
    pub played: u64,
    /// Events that were not cancelled, without an advertisement that fits.
    pub not_fitted: u64,
    /// Played events of which, in some stream, a unit below the start began after one at or past it, or the same of the end.
    pub unconditioned: u64,
    /// Cues that asked for what was refused. A repeat of an event that stands is not among them.
    pub ignored: u64,
}

impl SwitchReport {
    /// Of no events.
    pub fn new() -> SwitchReport
        ensures { ReportIs result no_counts }
    {
        SwitchReport {
            played: 0,
            not_fitted: 0,
            unconditioned: 0,
            ignored: 0,
        }
    }

    /// What two stretches of a run counted, summed.
    pub fn plus(self, other: SwitchReport) -> SwitchReport
        ensures { result ≡ events_sum self other }
    {
        SwitchReport {
            played: self.played.saturating_add(other.played),
            not_fitted: self.not_fitted.saturating_add(other.not_fitted),
            unconditioned: self.unconditioned.saturating_add(other.unconditioned),
            ignored: self.ignored.saturating_add(other.ignored),
        }
    }

    /// The report with one event more: whether it is cancelled, whether its advertisement fits, and whether a stream crossed its start or
    /// its end more than once.
    pub fn with_event(self, cancelled: bool, fits: bool, is_crossed: bool) -> SwitchReport
        ensures { (counts : EventCounts) → ReportIs self counts → ReportIs result (with_one cancelled fits is_crossed counts) }
    {
        let mut report = self;
        if cancelled {
            return report;
        }
        if !fits {
            report.not_fitted = report.not_fitted.saturating_add(1);
            return report;
        }
        report.played = report.played.saturating_add(1);
        if is_crossed {
            report.unconditioned = report.unconditioned.saturating_add(1);
        }
        report
    }
}
