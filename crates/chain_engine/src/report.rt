//! What is counted in a run.

ghost use Rattle.std.specs.Prelude.{◌≡◌, List};
ghost use Rattle.psi_tables.specs.declared.config.Config.{Config};
ghost use Rattle.injector.specs.Injecting.{CountsAre};
ghost use Rattle.injector.specs.Steps.{Step, turns_in};
ghost use Rattle.chain_engine.specs.Runs.{report_of, reports_sum};
ghost use Rattle.chain_engine.specs.ChainRuns.{MessagesAre};

use injector::MessageCounts;
use splice_switch::SwitchReport;

/// What a run counted. Each count stops at the greatest u64.
#[derive(Clone, Copy, Debug, PartialEq, Eq, Drop)]
pub struct Report {
    /// The messages that were judged.
    pub messages: u64,
    /// The multiple operations among them that were accepted.
    pub accepted: u64,
    /// The multiple operations among them that were refused.
    pub refused: u64,
    /// What became of the events that were cued; nothing is counted in a run without a switch.
    pub switch: SwitchReport,
}

impl Report {
    /// The report of a run in which the injector counted so.
    pub(crate) fn of(counts: MessageCounts) -> Report
        ensures { (c : Config) (steps : List Step) → CountsAre counts c.index (turns_in c.program steps)
            → result ≡ report_of c steps }
    {
        Report {
            messages: counts.messages,
            accepted: counts.accepted,
            refused: counts.refused,
            switch: SwitchReport::new(),
        }
    }

    /// What two stretches of a run counted, summed.
    pub fn plus(self, other: Report) -> Report
        ensures { result ≡ reports_sum self other }
    {
        Report {
            messages: self.messages.saturating_add(other.messages),
            accepted: self.accepted.saturating_add(other.accepted),
            refused: self.refused.saturating_add(other.refused),
            switch: self.switch.plus(other.switch),
        }
    }

    /// The report of a run in which the injector counted so, and the switch so.
    pub(crate) fn of_chain(counts: MessageCounts, switch: SwitchReport) -> Report
        ensures messages { (c : Config) (steps : List Step) → CountsAre counts c.index (turns_in c.program steps)
            → MessagesAre result c steps }
        ensures events { result.switch ≡ switch }
    {
        let mut report = Report::of(counts);
        report.switch = switch;
        report
    }
}
