//! The lines of what happens.

use crate::breaks::{
    BreakFields, CountedFields, CueFields, EdgeFaultFields, MisfitFields, PlaceFields, UnitFields,
};
use crate::fields::{Number, ServiceField, Word};
use crate::names::{end_name, what_name};
use crate::requests::{AskedFields, VerdictFields};
use run_events::{Occurrence, What};
use std::fmt;
use ts_packet::Pid;

/// What is told of what happened.
#[derive(Clone, Copy)]
struct WhatFields(What);

impl fmt::Display for WhatFields {
    ghost use Rattle.std.specs.Prelude.{Some};
    ghost use Rattle.event_logs.specs.Lines.{what_fields};

    ghost output = { λ t. Some (what_fields t.0) };

    fn fmt<W: fmt::Write>(&self, f: &mut fmt::Formatter<W>) -> fmt::Result {
        match self.0 {
            What::Request(asked, verdict, is_given) => {
                let (asked, verdict) = (AskedFields(asked), VerdictFields(verdict, is_given));
                write!(f, "{asked}{verdict}")
            }
            What::Session(end) => {
                let end = Word("end", end_name(end));
                write!(f, "{end}")
            }
            What::Cue(cue, event) => {
                let cue = CueFields(cue, event);
                write!(f, "{cue}")
            }
            What::Begun(event, pid, pts) | What::Over(event, pid, pts) => {
                let unit = UnitFields(event.id, pid, pts);
                write!(f, "{unit}")
            }
            What::Cancelled(event) | What::EndedEarly(event) => {
                let event = BreakFields(event);
                write!(f, "{event}")
            }
            What::Edge(place, fault) => {
                let (place, fault) = (PlaceFields(place), EdgeFaultFields(fault));
                write!(f, "{place}{fault}")
            }
            What::RandomAccess(place, ticks) => {
                let (place, ticks) = (PlaceFields(place), Number("ticks", ticks));
                write!(f, "{place}{ticks}")
            }
            What::Played(event) | What::Unconditioned(event) => {
                let event = CountedFields(event);
                write!(f, "{event}")
            }
            What::NotFitted(event, misfit) => {
                let (event, misfit) = (CountedFields(event), MisfitFields(misfit));
                write!(f, "{event}{misfit}")
            }
            What::Lost(count) => {
                let count = Number("count", count);
                write!(f, "{count}")
            }
            What::NotFound(program) => {
                let program = Number("program", u64::from(program));
                write!(f, "{program}")
            }
            What::End => Ok(()),
        }
    }
}

/// The line of what happened.
#[derive(Clone, Copy)]
pub(crate) struct OccurrenceLine(pub(crate) Occurrence);

impl fmt::Display for OccurrenceLine {
    ghost use Rattle.std.specs.Prelude.{Some};
    ghost use Rattle.event_logs.specs.Lines.{occurrence_line};

    ghost output = { λ t. Some (occurrence_line t.0) };

    fn fmt<W: fmt::Write>(&self, f: &mut fmt::Formatter<W>) -> fmt::Result {
        let occurrence = self.0;
        let kind = what_name(&occurrence.what);
        let service = ServiceField(occurrence.service);
        let packet = Number("packet", occurrence.packet);
        let what = WhatFields(occurrence.what);
        write!(f, "{{\"kind\":\"{kind}\"{service}{packet}{what}}}\n")
    }
}

/// A stretch: its number, and what is wrong with the packet on this PID.
#[derive(Clone, Copy)]
struct StretchFields<'a> {
    stretch: u64,
    pid: Pid,
    fault: &'a str,
}

impl fmt::Display for StretchFields<'_> {
    ghost use Rattle.std.specs.Prelude.{Some};
    ghost use Rattle.event_logs.specs.Lines.{stretch_fields};

    ghost output = { λ t. Some (stretch_fields t.stretch t.pid t.fault.now) };

    fn fmt<W: fmt::Write>(&self, f: &mut fmt::Formatter<W>) -> fmt::Result {
        let stretch = Number("stretch", self.stretch);
        let pid = Number("pid", u64::from(self.pid.get()));
        let fault = Word("fault", self.fault);
        write!(f, "{stretch}{pid}{fault}")
    }
}

/// The line of a stretch that begins anew with a packet, and of what is wrong with it.
#[derive(Clone, Copy)]
pub(crate) struct StretchLine<'a> {
    pub(crate) service: Option<u16>,
    pub(crate) stretch: u64,
    pub(crate) packet: u64,
    pub(crate) pid: Pid,
    pub(crate) fault: &'a str,
}

impl fmt::Display for StretchLine<'_> {
    ghost use Rattle.std.specs.Prelude.{Some};
    ghost use Rattle.event_logs.specs.Lines.{stretch_line};

    ghost output = { λ t. Some (stretch_line t.service t.stretch t.packet t.pid t.fault.now) };

    fn fmt<W: fmt::Write>(&self, f: &mut fmt::Formatter<W>) -> fmt::Result {
        let service = ServiceField(self.service);
        let packet = Number("packet", self.packet);
        let fields = StretchFields {
            stretch: self.stretch,
            pid: self.pid,
            fault: self.fault,
        };
        write!(f, "{{\"kind\":\"stretch\"{service}{packet}{fields}}}\n")
    }
}

/// The line of a packet that is left unjudged, and of how many before it were not told.
#[derive(Clone, Copy)]
pub(crate) struct UnjudgedLine {
    pub(crate) packet: u64,
    pub(crate) untold: u64,
}

impl fmt::Display for UnjudgedLine {
    ghost use Rattle.std.specs.Prelude.{Some};
    ghost use Rattle.event_logs.specs.Lines.{unjudged_line};

    ghost output = { λ t. Some (unjudged_line t.packet t.untold) };

    fn fmt<W: fmt::Write>(&self, f: &mut fmt::Formatter<W>) -> fmt::Result {
        let packet = Number("packet", self.packet);
        let untold = Number("more_before", self.untold);
        write!(f, "{{\"kind\":\"unjudged\"{packet}{untold}}}\n")
    }
}

/// The line of the fault by which a run stopped.
#[derive(Clone, Copy)]
pub(crate) struct FaultLine<'a>(pub(crate) &'a str);

impl fmt::Display for FaultLine<'_> {
    ghost use Rattle.std.specs.Prelude.{Some};
    ghost use Rattle.event_logs.specs.Lines.{fault_line};

    ghost output = { λ t. Some (fault_line t.0.now) };

    fn fmt<W: fmt::Write>(&self, f: &mut fmt::Formatter<W>) -> fmt::Result {
        let fault = Word("fault", self.0);
        write!(f, "{{\"kind\":\"fault\"{fault}}}\n")
    }
}
