//! What `--verbose` tells of a run on air while it goes on.

use crate::fault::{ProgramFault, fault_name};
use crate::recovery_watch::{Recovery, RecoveryWatch};
use crate::tell::BothWays;
use ad_library::AdLibrary;
use chain_engine::{RunFault, Service};
use on_air::{AirWatch, Begun};
use psi_tables::FeedFault;
use services_on_air::{ServiceBegun, ServicesWatch, Shown};
use splice_plans::SwitchReport;
use std::cell::RefCell;
use std::fmt::Display;
use std::io::Write;
use ts_packet::Packet;

/// Within so many packets of the network one kind of damage is told once.
const TOLD_ONCE: u64 = 16_384;

/// The lines of one kind of damage: which packet may be told next, and how many were not told since the last line.
#[derive(Clone, Copy, Debug, Drop)]
struct Lines {
    next: u64,
    untold: u64,
}

impl Lines {
    /// Nothing was told.
    fn new() -> Lines {
        Lines { next: 0, untold: 0 }
    }

    /// Tells of damage at the packet of this number, or counts it where it follows the last line too closely. Where the line cannot be
    /// written nothing is done.
    fn tell<W: Write, T: Display>(&mut self, stream: &mut W, packet: u64, line: &T) {
        if packet < self.next {
            self.untold = self.untold.saturating_add(1);
            return;
        }
        let untold = self.untold;
        let _ = if untold == 0 {
            writeln!(stream, "{line}")
        } else {
            writeln!(stream, "{line} (and {untold} more)")
        };
        let _ = stream.flush();
        self.next = packet.saturating_add(TOLD_ONCE);
        self.untold = 0;
    }
}

/// Tells of a run on air, each line as soon as it is known: one for each stretch that begins anew, and one for an unjudged packet, for one that
/// was marked in error, and for bytes that were left out, but for those that follow within 16,384 packets, which the next line of their kind
/// counts. Where a line cannot be written nothing is done.
#[derive(Drop)]
pub struct AirTeller<W> {
    stream: W,
    /// What is known of the network's bytes.
    recovery: Recovery,
    unjudged: Lines,
    mended: Lines,
    skipped: Lines,
}

impl<W: Write> AirTeller<W> {
    /// Nothing was told on this stream.
    pub fn new(stream: W) -> AirTeller<W> {
        AirTeller {
            stream,
            recovery: Recovery::new(),
            unjudged: Lines::new(),
            mended: Lines::new(),
            skipped: Lines::new(),
        }
    }

    /// Tells of bytes that were left out before the packet of this number.
    fn tell_skipped(&mut self, packet: u64, bytes: u64) {
        let place = packet
            .saturating_mul(188)
            .saturating_add(self.recovery.skipped);
        let line = format_args!("skipped: byte {place}, {bytes} bytes");
        self.skipped.tell(&mut self.stream, packet, &line);
    }
}

impl<W: Write> AirWatch for AirTeller<W> {
    fn begun(&mut self, begun: &Begun) {
        let (stretch, packet, place) = (begun.stretch, begun.packet, self.recovery.place);
        let pid = BothWays { pid: begun.pid };
        let name = fault_name(ProgramFault::Run(RunFault::Feed(FeedFault::Network(begun.fault))));
        let _ = writeln!(
            self.stream,
            "stretch {stretch}: packet {packet}, byte {place}, {pid}: {name}"
        );
        let _ = self.stream.flush();
    }

    fn unjudged(&mut self, packet: u64) {
        let line = format_args!("unjudged: packet {packet}");
        self.unjudged.tell(&mut self.stream, packet, &line);
    }
}

impl<W: Write> RecoveryWatch for AirTeller<W> {
    fn read(&mut self, recovery: &Recovery) {
        if recovery.skipped > self.recovery.skipped {
            let bytes = recovery.skipped - self.recovery.skipped;
            self.tell_skipped(self.recovery.packets, bytes);
        }
        if recovery.mended > self.recovery.mended {
            let packet = recovery.packets.saturating_sub(1);
            let line = format_args!("mended: packet {packet}");
            self.mended.tell(&mut self.stream, packet, &line);
        }
        self.recovery = *recovery;
    }

    fn is_on(&self) -> bool {
        true
    }
}

/// A teller, where there is one, to which the stages of a run and its reader tell in turn. Where there is none, nothing is told: it is one type for
/// both, so that a run is compiled once, not once for each.
#[derive(Drop)]
pub struct TellingInTurn<'a, W> {
    teller: Option<&'a RefCell<AirTeller<W>>>,
}

impl<'a, W> TellingInTurn<'a, W> {
    /// Tells this teller.
    pub fn new(teller: Option<&'a RefCell<AirTeller<W>>>) -> TellingInTurn<'a, W> {
        TellingInTurn { teller }
    }
}

impl<W: Write> AirWatch for TellingInTurn<'_, W> {
    fn begun(&mut self, begun: &Begun) {
        let Some(teller) = self.teller else {
            return;
        };
        if let Ok(mut teller) = teller.try_borrow_mut() {
            AirWatch::begun(&mut *teller, begun);
        }
    }

    fn unjudged(&mut self, packet: u64) {
        let Some(teller) = self.teller else {
            return;
        };
        if let Ok(mut teller) = teller.try_borrow_mut() {
            AirWatch::unjudged(&mut *teller, packet);
        }
    }
}

impl<W: Write> RecoveryWatch for TellingInTurn<'_, W> {
    /// It stands by itself, since most runs are not told of.
    #[cold]
    #[inline(never)]
    fn read(&mut self, recovery: &Recovery) {
        let Some(teller) = self.teller else {
            return;
        };
        if let Ok(mut teller) = teller.try_borrow_mut() {
            teller.read(recovery);
        }
    }

    #[inline(always)]
    fn is_on(&self) -> bool {
        self.teller.is_some()
    }
}

/// A line for a stretch that begins anew names the program of its service, and counts the stretches of that service.
impl<W: Write> ServicesWatch for AirTeller<W> {
    fn begun(&mut self, begun: &ServiceBegun) {
        let (program, stretch) = (begun.program, begun.stretch);
        let (packet, place) = (begun.packet, self.recovery.place);
        let pid = BothWays { pid: begun.pid };
        let name = fault_name(ProgramFault::Run(begun.fault));
        let _ = writeln!(
            self.stream,
            "service {program}: stretch {stretch}: packet {packet}, byte {place}, {pid}: {name}"
        );
        let _ = self.stream.flush();
    }

    fn unjudged(&mut self, packet: u64) {
        AirWatch::unjudged(self, packet);
    }

    fn looks(&mut self, _packet: &Packet, _turns: u64) -> bool {
        false
    }

    fn shown(&mut self, _service: &Service, _library: &AdLibrary, _shown: Shown<'_>) {}

    fn ended(&mut self, _program: u16, _report: &SwitchReport, _lost: u64) {}
}

impl<W: Write> ServicesWatch for TellingInTurn<'_, W> {
    fn begun(&mut self, begun: &ServiceBegun) {
        let Some(teller) = self.teller else {
            return;
        };
        if let Ok(mut teller) = teller.try_borrow_mut() {
            ServicesWatch::begun(&mut *teller, begun);
        }
    }

    fn unjudged(&mut self, packet: u64) {
        AirWatch::unjudged(self, packet);
    }

    fn looks(&mut self, _packet: &Packet, _turns: u64) -> bool {
        false
    }

    fn shown(&mut self, _service: &Service, _library: &AdLibrary, _shown: Shown<'_>) {}

    fn ended(&mut self, _program: u16, _report: &SwitchReport, _lost: u64) {}
}
