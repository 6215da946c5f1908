//! What the log has of the stretches of a run on air.

ghost use Rattle.std.specs.Prelude.{◌≡◌};

use crate::fault::{ProgramFault, fault_name};
use ad_library::AdLibrary;
use chain_engine::{RunFault, Service};
use event_logs::Listening;
use on_air::{AirWatch, Begun};
use psi_tables::FeedFault;
use services_on_air::{ServiceBegun, ServicesWatch, Shown};
use splice_plans::SwitchReport;
use std::io::Write;
use ts_packet::Packet;

/// Tells of a run on air, and has the log write its stretches and the packets that are left unjudged.
#[derive(Drop)]
pub struct AirLog<'a, A, W, E> {
    inner: A,
    listening: Listening<'a, W, E>,
}

impl<'a, A, W, E> AirLog<'a, A, W, E> {
    /// Tells this too, and this log.
    pub fn new(inner: A, listening: Listening<'a, W, E>) -> AirLog<'a, A, W, E>
        ensures inner { result.inner ≡ inner }
        ensures listening { result.listening ≡ listening.entry }
    {
        AirLog { inner, listening }
    }
}

impl<A: AirWatch, W: Write, E: Write> AirWatch for AirLog<'_, A, W, E> {
    fn begun(&mut self, begun: &Begun) {
        self.inner.begun(begun);
        let fault = RunFault::Feed(FeedFault::Network(begun.fault));
        let name = fault_name(ProgramFault::Run(fault));
        let (stretch, packet, pid) = (begun.stretch, begun.packet, begun.pid);
        self.listening
            .write(|log| log.begin(None, stretch, packet, pid, name));
    }

    fn unjudged(&mut self, packet: u64) {
        self.inner.unjudged(packet);
        self.listening.write(|log| log.leave(packet));
    }
}

impl<A: ServicesWatch, W: Write, E: Write> ServicesWatch for AirLog<'_, A, W, E> {
    fn begun(&mut self, begun: &ServiceBegun) {
        self.inner.begun(begun);
        let name = fault_name(ProgramFault::Run(begun.fault));
        let service = Some(begun.program);
        let (stretch, packet, pid) = (begun.stretch, begun.packet, begun.pid);
        self.listening
            .write(|log| log.begin(service, stretch, packet, pid, name));
    }

    fn unjudged(&mut self, packet: u64) {
        self.inner.unjudged(packet);
        self.listening.write(|log| log.leave(packet));
    }

    fn looks(&mut self, _packet: &Packet, _turns: u64) -> bool {
        false
    }

    fn shown(&mut self, _service: &Service, _library: &AdLibrary, _shown: Shown<'_>) {}

    fn ended(&mut self, _program: u16, _report: &SwitchReport, _lost: u64) {}
}
