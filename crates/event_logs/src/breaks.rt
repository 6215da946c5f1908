//! What lines have of breaks.

use crate::fields::{Null, Number, Word};
use crate::names::{edge_name, misfit_name};
use event_table::Event;
use pes_time::Time33;
use run_events::{Cue, EdgeFault, EdgePlace, Misfit};
use std::fmt;
use ts_packet::Pid;

/// Why an advertisement does not fit, where it does not.
#[derive(Clone, Copy)]
pub(crate) struct MisfitFields(pub(crate) Option<Misfit>);

impl fmt::Display for MisfitFields {
    ghost use Rattle.std.specs.Prelude.{Some};
    ghost use Rattle.event_logs.specs.Lines.{misfit_fields};

    ghost output = { λ t. Some (misfit_fields t.0) };

    fn fmt<W: fmt::Write>(&self, f: &mut fmt::Formatter<W>) -> fmt::Result {
        let Some(misfit) = self.0 else {
            return Ok(());
        };
        let why = Word("why", misfit_name(&misfit));
        match misfit {
            Misfit::NoAdvert => write!(f, "{why}"),
            Misfit::NoStream(pid, kind) => {
                let pid = Number("pid", u64::from(pid.get()));
                let kind = Number("stream_type", u64::from(kind));
                write!(f, "{why}{pid}{kind}")
            }
            Misfit::Short(ticks) => {
                let ticks = Number("too_short_by", ticks);
                write!(f, "{why}{ticks}")
            }
        }
    }
}

/// A start, and the ticks from there.
#[derive(Clone, Copy)]
struct IntervalFields {
    start: Time33,
    length: u64,
}

impl fmt::Display for IntervalFields {
    ghost use Rattle.std.specs.Prelude.{Some};
    ghost use Rattle.event_logs.specs.Lines.{interval_fields};

    ghost output = { λ t. Some (interval_fields t.start t.length) };

    fn fmt<W: fmt::Write>(&self, f: &mut fmt::Formatter<W>) -> fmt::Result {
        let start = Number("pts", self.start.ticks());
        let length = Number("duration", self.length);
        write!(f, "{start}{length}")
    }
}

/// A break: its number, its start, how long it is, and its advertisement.
#[derive(Clone, Copy)]
pub(crate) struct BreakFields(pub(crate) Event);

impl fmt::Display for BreakFields {
    ghost use Rattle.std.specs.Prelude.{Some};
    ghost use Rattle.event_logs.specs.Lines.{break_fields};

    ghost output = { λ t. Some (break_fields t.0) };

    fn fmt<W: fmt::Write>(&self, f: &mut fmt::Formatter<W>) -> fmt::Result {
        let event = self.0;
        let id = Number("event", u64::from(event.id));
        let interval = IntervalFields {
            start: event.start,
            length: event.length,
        };
        let program = Number("program_id", u64::from(event.program));
        write!(f, "{id}{interval}{program}")
    }
}

/// A break that is counted, where it is known.
#[derive(Clone, Copy)]
pub(crate) struct CountedFields(pub(crate) Option<Event>);

impl fmt::Display for CountedFields {
    ghost use Rattle.std.specs.Prelude.{Some};
    ghost use Rattle.event_logs.specs.Lines.{counted_fields};

    ghost output = { λ t. Some (counted_fields t.0) };

    fn fmt<W: fmt::Write>(&self, f: &mut fmt::Formatter<W>) -> fmt::Result {
        match self.0 {
            None => {
                let event = Null("event");
                write!(f, "{event}")
            }
            Some(event) => {
                let event = BreakFields(event);
                write!(f, "{event}")
            }
        }
    }
}

/// A cue of a break.
#[derive(Clone, Copy)]
pub(crate) struct CueFields(pub(crate) Cue, pub(crate) Event);

impl fmt::Display for CueFields {
    ghost use Rattle.std.specs.Prelude.{Some};
    ghost use Rattle.event_logs.specs.Lines.{cue_fields};

    ghost output = { λ t. Some (cue_fields t.0 t.1) };

    fn fmt<W: fmt::Write>(&self, f: &mut fmt::Formatter<W>) -> fmt::Result {
        let event = self.1;
        let id = Number("event", u64::from(event.id));
        match self.0 {
            Cue::Start(misfit) => {
                let cue = Word("cue", "start");
                let event = BreakFields(event);
                let misfit = MisfitFields(misfit);
                write!(f, "{cue}{event}{misfit}")
            }
            Cue::End => {
                let cue = Word("cue", "end");
                let end = Number("pts", event.end().ticks());
                write!(f, "{cue}{id}{end}")
            }
            Cue::Cancel => {
                let cue = Word("cue", "cancel");
                write!(f, "{cue}{id}")
            }
        }
    }
}

/// The unit of a stream at which the break of this number has come so far.
#[derive(Clone, Copy)]
pub(crate) struct UnitFields(pub(crate) u32, pub(crate) Pid, pub(crate) Time33);

impl fmt::Display for UnitFields {
    ghost use Rattle.std.specs.Prelude.{Some};
    ghost use Rattle.event_logs.specs.Lines.{unit_fields};

    ghost output = { λ t. Some (unit_fields t.0 t.1 t.2) };

    fn fmt<W: fmt::Write>(&self, f: &mut fmt::Formatter<W>) -> fmt::Result {
        let event = Number("event", u64::from(self.0));
        let pid = Number("pid", u64::from(self.1.get()));
        let pts = Number("pts", self.2.ticks());
        write!(f, "{event}{pid}{pts}")
    }
}

/// An edge of a break in a stream.
#[derive(Clone, Copy)]
pub(crate) struct PlaceFields(pub(crate) EdgePlace);

impl fmt::Display for PlaceFields {
    ghost use Rattle.std.specs.Prelude.{Some};
    ghost use Rattle.event_logs.specs.Lines.{place_fields};

    ghost output = { λ t. Some (place_fields t.0) };

    fn fmt<W: fmt::Write>(&self, f: &mut fmt::Formatter<W>) -> fmt::Result {
        let place = self.0;
        let event = Number("event", u64::from(place.event));
        let edge = Word("edge", edge_name(place.edge));
        let pid = Number("pid", u64::from(place.pid.get()));
        let pts = Number("pts", place.pts.ticks());
        write!(f, "{event}{edge}{pid}{pts}")
    }
}

/// Why an edge is not clean.
#[derive(Clone, Copy)]
pub(crate) struct EdgeFaultFields(pub(crate) EdgeFault);

impl fmt::Display for EdgeFaultFields {
    ghost use Rattle.std.specs.Prelude.{Some};
    ghost use Rattle.event_logs.specs.Lines.{edge_fault_fields};

    ghost output = { λ t. Some (edge_fault_fields t.0) };

    fn fmt<W: fmt::Write>(&self, f: &mut fmt::Formatter<W>) -> fmt::Result {
        match self.0 {
            EdgeFault::SteppedBack(ticks) => {
                let why = Word("why", "stepped_back");
                let ticks = Number("ticks", ticks);
                write!(f, "{why}{ticks}")
            }
            EdgeFault::NoRandomAccess => {
                let why = Word("why", "no_random_access");
                write!(f, "{why}")
            }
            EdgeFault::NoEntryPicture => {
                let why = Word("why", "no_entry_picture");
                write!(f, "{why}")
            }
        }
    }
}
