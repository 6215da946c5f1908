//! The lines of reports.

use crate::fields::Number;
use injector::MessageCounts;
use report_texts::AirCounts;
use splice_plans::SwitchReport;
use std::fmt;

/// What a run counted of its messages, where it has some.
#[derive(Clone, Copy)]
struct MessageFields(Option<MessageCounts>);

impl fmt::Display for MessageFields {
    ghost use Rattle.std.specs.Prelude.{Some};
    ghost use Rattle.event_logs.specs.Lines.{message_fields};

    ghost output = { λ t. Some (message_fields t.0) };

    fn fmt<W: fmt::Write>(&self, f: &mut fmt::Formatter<W>) -> fmt::Result {
        let Some(counts) = self.0 else {
            return Ok(());
        };
        let messages = Number("messages", counts.messages);
        let accepted = Number("accepted", counts.accepted);
        let refused = Number("refused", counts.refused);
        write!(f, "{messages}{accepted}{refused}")
    }
}

/// What became of the events of a switch.
#[derive(Clone, Copy)]
struct SwitchFields(SwitchReport);

impl fmt::Display for SwitchFields {
    ghost use Rattle.std.specs.Prelude.{Some};
    ghost use Rattle.event_logs.specs.Lines.{switch_fields};

    ghost output = { λ t. Some (switch_fields t.0) };

    fn fmt<W: fmt::Write>(&self, f: &mut fmt::Formatter<W>) -> fmt::Result {
        let played = Number("played", self.0.played);
        let not_fitted = Number("not_fitted", self.0.not_fitted);
        let unconditioned = Number("unconditioned", self.0.unconditioned);
        let ignored = Number("ignored", self.0.ignored);
        write!(f, "{played}{not_fitted}{unconditioned}{ignored}")
    }
}

/// The same, where a run plays advertisements.
#[derive(Clone, Copy)]
struct EventsFields(Option<SwitchReport>);

impl fmt::Display for EventsFields {
    ghost use Rattle.std.specs.Prelude.{Some};
    ghost use Rattle.event_logs.specs.Lines.{events_fields};

    ghost output = { λ t. Some (events_fields t.0) };

    fn fmt<W: fmt::Write>(&self, f: &mut fmt::Formatter<W>) -> fmt::Result {
        match self.0 {
            None => Ok(()),
            Some(report) => {
                let events = SwitchFields(report);
                write!(f, "{events}")
            }
        }
    }
}

/// What a run on air counted besides.
#[derive(Clone, Copy)]
struct AirFields(Option<AirCounts>);

impl fmt::Display for AirFields {
    ghost use Rattle.std.specs.Prelude.{Some};
    ghost use Rattle.event_logs.specs.Lines.{air_fields};

    ghost output = { λ t. Some (air_fields t.0) };

    fn fmt<W: fmt::Write>(&self, f: &mut fmt::Formatter<W>) -> fmt::Result {
        let Some(counts) = self.0 else {
            return Ok(());
        };
        let stretches = Number("stretches", counts.stretches);
        let lost = Number("lost", counts.lost);
        let unjudged = Number("unjudged", counts.unjudged);
        let mended = Number("mended", counts.mended);
        let skipped = Number("skipped", counts.skipped);
        write!(f, "{stretches}{lost}{unjudged}{mended}{skipped}")
    }
}

/// The line of the report of a run: what there is of it.
#[derive(Clone, Copy)]
pub(crate) struct ReportLine {
    pub(crate) messages: Option<MessageCounts>,
    pub(crate) events: Option<SwitchReport>,
    pub(crate) air: Option<AirCounts>,
}

impl fmt::Display for ReportLine {
    ghost use Rattle.std.specs.Prelude.{Some};
    ghost use Rattle.event_logs.specs.Lines.{report_line};

    ghost output = { λ t. Some (report_line t.messages t.events t.air) };

    fn fmt<W: fmt::Write>(&self, f: &mut fmt::Formatter<W>) -> fmt::Result {
        let messages = MessageFields(self.messages);
        let events = EventsFields(self.events);
        let air = AirFields(self.air);
        write!(f, "{{\"kind\":\"report\"{messages}{events}{air}}}\n")
    }
}

/// The line of the report of one service.
#[derive(Clone, Copy)]
pub(crate) struct ServiceLine {
    pub(crate) program: u16,
    pub(crate) events: SwitchReport,
}

impl fmt::Display for ServiceLine {
    ghost use Rattle.std.specs.Prelude.{Some};
    ghost use Rattle.event_logs.specs.Lines.{service_line};

    ghost output = { λ t. Some (service_line t.program t.events) };

    fn fmt<W: fmt::Write>(&self, f: &mut fmt::Formatter<W>) -> fmt::Result {
        let program = Number("service", u64::from(self.program));
        let events = SwitchFields(self.events);
        write!(f, "{{\"kind\":\"service_report\"{program}{events}}}\n")
    }
}
