//! What may be seen of a stage of a run between two packets.

use ad_library::AdLibrary;
use chain_engine::{Automation, ChainStage, InjectorStage, Report, SessionEnd, SwitchStage};
use chain_services::{ServiceReport, ServicesStage};
use injector::Injector;
use packet_runs::Stage;
use splice_switch::{Switch, SwitchReport};
use std::alloc::Allocator;
use ts_packet::Packet;

/// What stands of breaks for one program.
#[derive(Clone, Copy)]
pub enum Breaks<'a> {
    /// A switch plays them, with the advertisements of this library.
    Played(&'a Switch, &'a AdLibrary),
    /// Their cues go out.
    Cued(&'a Injector),
}

/// A stage of which breaks can be seen.
pub trait BreakStage: Stage {
    /// How many programs it serves: at most eight.
    fn count(&self) -> usize;

    /// The number of this program.
    fn program(&self, place: usize) -> Option<u16>;

    /// There are several services.
    fn has_services(&self) -> bool;

    /// What stands of the breaks of this program.
    fn breaks(&self, place: usize) -> Option<Breaks<'_>>;

    /// A count that is another behind each packet with which what stands of the breaks that switches play turns, over all programs.
    fn turns(&self) -> u64;

    /// The map of this program was found by its PAT.
    fn is_found(&self, place: usize) -> bool;

    /// The packet may bring cues.
    fn is_cue(&self, packet: &Packet) -> bool;

    /// Why the automation is not listened to any more.
    fn session_end(&self) -> Option<SessionEnd>;

    /// What became of the breaks of this program, as a report has it.
    fn events_in(report: &Self::Report, place: usize) -> SwitchReport;
}

impl<M: Allocator, U: Automation> BreakStage for ChainStage<'_, M, U> {
    #[inline(always)]
    fn count(&self) -> usize {
        1
    }

    fn program(&self, _place: usize) -> Option<u16> {
        Some(self.service().config().program)
    }

    fn has_services(&self) -> bool {
        false
    }

    #[inline(always)]
    fn breaks(&self, _place: usize) -> Option<Breaks<'_>> {
        Some(Breaks::Played(self.service().switch(), self.library()))
    }

    #[inline(always)]
    fn turns(&self) -> u64 {
        self.service().switch().turns()
    }

    fn is_found(&self, _place: usize) -> bool {
        self.service().pid_count() > 0
    }

    #[inline(always)]
    fn is_cue(&self, _packet: &Packet) -> bool {
        false
    }

    fn session_end(&self) -> Option<SessionEnd> {
        ChainStage::session_end(self)
    }

    fn events_in(report: &Report, _place: usize) -> SwitchReport {
        report.switch
    }
}

impl<M: Allocator, U: Automation> BreakStage for InjectorStage<'_, M, U> {
    #[inline(always)]
    fn count(&self) -> usize {
        1
    }

    fn program(&self, _place: usize) -> Option<u16> {
        Some(self.service().config().program)
    }

    fn has_services(&self) -> bool {
        false
    }

    #[inline(always)]
    fn breaks(&self, _place: usize) -> Option<Breaks<'_>> {
        Some(Breaks::Cued(self.service().injector()))
    }

    #[inline(always)]
    fn turns(&self) -> u64 {
        0
    }

    fn is_found(&self, _place: usize) -> bool {
        self.service().pid_count() > 0
    }

    #[inline(always)]
    fn is_cue(&self, _packet: &Packet) -> bool {
        false
    }

    fn session_end(&self) -> Option<SessionEnd> {
        InjectorStage::session_end(self)
    }

    fn events_in(report: &Report, _place: usize) -> SwitchReport {
        report.switch
    }
}

impl BreakStage for SwitchStage<'_> {
    #[inline(always)]
    fn count(&self) -> usize {
        1
    }

    fn program(&self, _place: usize) -> Option<u16> {
        Some(self.config().program)
    }

    fn has_services(&self) -> bool {
        false
    }

    #[inline(always)]
    fn breaks(&self, _place: usize) -> Option<Breaks<'_>> {
        Some(Breaks::Played(self.switch(), self.library()))
    }

    #[inline(always)]
    fn turns(&self) -> u64 {
        self.switch().turns()
    }

    fn is_found(&self, _place: usize) -> bool {
        !self.switch().pids().is_empty()
    }

    #[inline(always)]
    fn is_cue(&self, packet: &Packet) -> bool {
        packet.is_on(self.config().cue_pid)
    }

    fn session_end(&self) -> Option<SessionEnd> {
        None
    }

    fn events_in(report: &SwitchReport, _place: usize) -> SwitchReport {
        *report
    }
}

impl<M: Allocator, U: Automation> BreakStage for ServicesStage<'_, M, U> {
    #[inline(always)]
    fn count(&self) -> usize {
        self.services().count()
    }

    fn program(&self, place: usize) -> Option<u16> {
        match self.services().get(place) {
            Some(service) => Some(service.config().program),
            None => None,
        }
    }

    fn has_services(&self) -> bool {
        true
    }

    #[inline(always)]
    fn breaks(&self, place: usize) -> Option<Breaks<'_>> {
        let service = self.services().get(place)?;
        let library = self.libraries().get(place)?;
        Some(Breaks::Played(service.switch(), library))
    }

    #[inline(always)]
    fn turns(&self) -> u64 {
        self.services().turns()
    }

    fn is_found(&self, place: usize) -> bool {
        match self.services().get(place) {
            Some(service) => service.pid_count() > 0,
            None => true,
        }
    }

    #[inline(always)]
    fn is_cue(&self, _packet: &Packet) -> bool {
        false
    }

    fn session_end(&self) -> Option<SessionEnd> {
        self.services().session_end()
    }

    fn events_in(report: &ServiceReport, place: usize) -> SwitchReport {
        match report.services.get(place) {
            Some(events) => events.switch,
            None => SwitchReport::new(),
        }
    }
}
