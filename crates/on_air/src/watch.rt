//! What is told of a run on air while it goes on.

use psi_tables::NetworkFault;
use ts_packet::Pid;

/// A stretch that began anew.
#[derive(Clone, Copy, Debug, PartialEq, Eq)]
pub struct Begun {
    /// Its number: the first stretch has 1.
    pub stretch: u64,
    /// The number of its first packet among those of the network, from 0.
    pub packet: u64,
    /// The PID of that packet.
    pub pid: Pid,
    /// What was wrong with that packet in the stretch before.
    pub fault: NetworkFault,
}

/// Who is told of a run on air while it goes on.
pub trait AirWatch {
    /// A stretch begins anew.
    fn begun(&mut self, begun: &Begun);

    /// The packet of this number among those of the network, from 0, is left unjudged.
    fn unjudged(&mut self, packet: u64);
}

/// Nobody is told.
#[derive(Clone, Copy, Debug, Drop)]
pub struct Unwatched;

impl AirWatch for Unwatched {
    fn begun(&mut self, _begun: &Begun) {}

    fn unjudged(&mut self, _packet: u64) {}
}
