//! What is told of a run of several services on air while it goes on.

use ad_library::AdLibrary;
use chain_engine::{RunFault, Service};
use on_air::Unwatched;
use splice_switch::SwitchReport;
use ts_packet::{Packet, Pid};

/// A stretch of a service that began behind another one.
#[derive(Clone, Copy, Debug, PartialEq, Eq)]
pub struct ServiceBegun {
    /// The number of the service's program.
    pub program: u16,
    /// The number of the stretch among those of the service: the first one has 1.
    pub stretch: u64,
    /// The number of the packet in which the fault stands, among those of the network, from 0. The stretch begins with it; with the next packet
    /// where two services share a PID.
    pub packet: u64,
    /// The PID of that packet.
    pub pid: Pid,
    /// What was wrong: a fault of the network, or that two services share a PID.
    pub fault: RunFault,
}

/// When a service is shown.
#[derive(Clone, Copy)]
pub enum Shown<'a> {
    /// Behind this packet, which has passed and which the service judged.
    Judged(&'a Packet),
    /// Behind a packet that has passed and that the service left unjudged.
    Unjudged,
    /// Before its stretch or the run ends.
    Last,
}

/// Who is told of a run of several services on air while it goes on.
pub trait ServicesWatch {
    /// A stretch of a service begins anew.
    fn begun(&mut self, begun: &ServiceBegun);

    /// The packet of this number among those of the network, from 0, is left unjudged.
    fn unjudged(&mut self, packet: u64);

    /// The services are to be shown behind this packet, which has passed; with so many packets so far something has turned in one of them, modulo
    /// 2⁶⁴. It is asked once for each packet.
    fn looks(&mut self, packet: &Packet, turns: u64) -> bool;

    /// This is a service, at such a moment.
    fn shown(&mut self, service: &Service, library: &AdLibrary, shown: Shown<'_>);

    /// A stretch of the service of this program is over, and counted this; so many events were lost with it. The last stretch loses none.
    fn ended(&mut self, program: u16, report: &SwitchReport, lost: u64);
}

impl ServicesWatch for Unwatched {
    fn begun(&mut self, _begun: &ServiceBegun) {}

    fn unjudged(&mut self, _packet: u64) {}

    #[inline(always)]
    fn looks(&mut self, _packet: &Packet, _turns: u64) -> bool {
        false
    }

    fn shown(&mut self, _service: &Service, _library: &AdLibrary, _shown: Shown<'_>) {}

    fn ended(&mut self, _program: u16, _report: &SwitchReport, _lost: u64) {}
}
