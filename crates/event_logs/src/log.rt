//! The log: a line of JSON for each event of a run.

ghost use Rattle.std.specs.Prelude.{◌≡◌, ◌+◌, ◌<◌, ◌≤◌, IfSome, OnOk, None, min, is_some};
ghost use Rattle.std.specs.Io.KnownBytes.{Appends};
ghost use Rattle.event_logs.specs.Lines.{occurrence_line, stretch_line, unjudged_line, report_line, service_line, fault_line};
ghost use Rattle.event_logs.specs.Logs.{IsPut, is_lost, most};

use crate::lines::{FaultLine, OccurrenceLine, StretchLine, UnjudgedLine};
use crate::reports::{ReportLine, ServiceLine};
use arrayvec::ArrayString;
use injector::MessageCounts;
use report_texts::AirCounts;
use run_events::Occurrence;
use splice_plans::SwitchReport;
use std::fmt::{self, Write as TextWrite};
use std::io::{self, ErrorKind, Write};
use ts_packet::Pid;

/// Within so many packets of the network unjudged ones are told once.
const TOLD_ONCE: u64 = 16_384;

/// How many bytes a line has at most. The longest has some 350.
const ROOM: usize = 512;

/// The lines of a run, each written and flushed as soon as it is known. Where one cannot be written the log ends.
#[derive(Drop)]
pub struct EventLog<W> {
    stream: W,
    /// Why a line could not be written.
    lost: Option<io::Error>,
    /// The first packet that may be told as unjudged.
    next_unjudged: u64,
    /// How many were not told since the last line.
    untold: u64,
}

/// A line as text; `None` where it has more bytes than there is room for.
fn text_of<L: fmt::Display + Drop>(line: L) -> Option<ArrayString<ROOM>>
    ensures { IfSome result (λ text. IfSome (L.output line) (λ bytes. text.bytes ≡ bytes)) }
{
    let mut text = ArrayString::new();
    match write!(text, "{line}") {
        Ok(()) => Some(text),
        Err(_) => None,
    }
}

impl<W> EventLog<W> {
    /// A log with no line.
    pub fn new(stream: W) -> EventLog<W>
        ensures { result ≡ record { stream = stream; lost = None; next_unjudged = 0; untold = 0 } }
    {
        EventLog {
            stream,
            lost: None,
            next_unjudged: 0,
            untold: 0,
        }
    }

    /// A line could not be written.
    pub fn is_lost(&self) -> bool
        ensures { result ≡ is_lost self.now }
    {
        self.lost.is_some()
    }

    /// Why a line could not be written.
    pub fn lost(&self) -> Option<&io::Error>
        ensures { is_some result ≡ is_lost self.now }
    {
        self.lost.as_ref()
    }

    /// What the lines were written to.
    pub fn into_stream(self) -> W
        ensures { result ≡ self.stream }
    {
        let EventLog {
            stream,
            lost: _,
            next_unjudged: _,
            untold: _,
        } = self;
        stream
    }

    /// Why a line could not be written.
    pub fn into_lost(self) -> Option<io::Error>
    where
        W: Drop,
        ensures { result ≡ self.lost }
    {
        let EventLog {
            stream: _,
            lost,
            next_unjudged: _,
            untold: _,
        } = self;
        lost
    }
}

impl<W: Write> EventLog<W> {
    /// Writes bytes at once, and flushes them.
    fn send(&mut self, bytes: &[u8]) -> io::Result<()>
        ensures written { OnOk result (Appends (W.contents self.old.stream) (W.contents self.new.stream) bytes.now) }
        ensures lost { self.new.lost ≡ self.old.lost }
        ensures next { self.new.next_unjudged ≡ self.old.next_unjudged }
        ensures untold { self.new.untold ≡ self.old.untold }
    {
        self.stream.write_all(bytes)?;
        self.stream.flush()
    }

    /// Writes a line, where none was lost before.
    fn put<L: fmt::Display + Drop>(&mut self, line: L)
        ensures { IfSome (L.output line) (λ text. IsPut W.contents text self.old self.new) }
    {
        if self.lost.is_some() {
            return;
        }
        let Some(text) = text_of(line) else {
            self.lost = Some(io::Error::from(ErrorKind::OutOfMemory));
            return;
        };
        if let Err(error) = self.send(text.as_str().as_bytes()) {
            self.lost = Some(error);
        }
    }

    /// Writes the line of what happened.
    pub(crate) fn tell(&mut self, occurrence: &Occurrence)
        ensures { IsPut W.contents (occurrence_line occurrence.now) self.old self.new }
    {
        self.put(OccurrenceLine(*occurrence));
    }

    /// Writes the line of a stretch that begins anew with this packet, since this is wrong with it.
    pub fn begin(&mut self, service: Option<u16>, stretch: u64, packet: u64, pid: Pid, fault: &str)
        ensures { IsPut W.contents (stretch_line service stretch packet pid fault.now) self.old self.new }
    {
        self.put(StretchLine {
            service,
            stretch,
            packet,
            pid,
            fault,
        });
    }

    /// Writes the line of a packet that is left unjudged, or counts it where it follows the last line too closely.
    pub fn leave(&mut self, packet: u64)
        ensures close { packet < self.old.next_unjudged → self.new ≡ record self.old { untold = min (self.old.untold + 1) most } }
        ensures told { self.old.next_unjudged ≤ packet
            → IsPut W.contents (unjudged_line packet self.old.untold) self.old
            (record self.new { next_unjudged = self.old.next_unjudged; untold = self.old.untold }) }
        ensures next { self.old.next_unjudged ≤ packet → self.new.next_unjudged ≡ min (packet + 16384) most }
        ensures untold { self.old.next_unjudged ≤ packet → self.new.untold ≡ 0 }
    {
        if packet < self.next_unjudged {
            self.untold = self.untold.saturating_add(1);
            return;
        }
        self.put(UnjudgedLine {
            packet,
            untold: self.untold,
        });
        self.next_unjudged = packet.saturating_add(TOLD_ONCE);
        self.untold = 0;
    }

    /// Writes the line of the report: what there is of it.
    pub fn report(
        &mut self,
        messages: Option<MessageCounts>,
        events: Option<SwitchReport>,
        air: Option<AirCounts>,
    )
        ensures { IsPut W.contents (report_line messages events air) self.old self.new }
    {
        self.put(ReportLine {
            messages,
            events,
            air,
        });
    }

    /// Writes the line of the report of one service.
    pub fn report_service(&mut self, program: u16, events: &SwitchReport)
        ensures { IsPut W.contents (service_line program events.now) self.old self.new }
    {
        self.put(ServiceLine {
            program,
            events: *events,
        });
    }

    /// Writes the line of the fault by which the run stopped.
    pub fn fault(&mut self, fault: &str)
        ensures { IsPut W.contents (fault_line fault.now) self.old self.new }
    {
        self.put(FaultLine(fault));
    }
}
