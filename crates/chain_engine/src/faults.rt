//! Why a run stopped, and what its stage says of that.

use packet_runs::{StageFault, Stop};
use psi_tables::{FeedFault, NetworkFault};
use ts_packet::{PutFault, ReadFault};

/// Why a run stopped.
#[derive(Clone, Copy, Debug, PartialEq, Eq, Drop)]
pub enum RunFault {
    /// The network could not be read on.
    Read(ReadFault),
    /// A packet was not passed on.
    Feed(FeedFault),
    /// Two services share a PID. No run of one chain answers this.
    SharedPid,
}

impl RunFault {
    ghost use Rattle.std.specs.Prelude.{◌≡◌};
    ghost use Rattle.chain_engine.specs.Stops.{run_fault_of};

    /// What a run answers that was stopped so.
    pub fn of(stop: Stop<NetworkFault>) -> RunFault
        ensures { result ≡ run_fault_of stop }
    {
        match stop {
            Stop::Read(fault) => RunFault::Read(fault),
            Stop::Packet(fault) => RunFault::Feed(FeedFault::Network(fault)),
            Stop::Sink(fault) => RunFault::Feed(FeedFault::Sink(fault)),
        }
    }
}

ghost use Rattle.std.specs.Prelude.{◌≡◌};
ghost use Rattle.chain_engine.specs.Stops.{stage_fault_of, put_fault_of};

/// What a stage answers where what it feeds did not take a packet.
pub(crate) fn stage_fault(fault: FeedFault) -> StageFault<NetworkFault>
    ensures { result ≡ stage_fault_of fault }
{
    match fault {
        FeedFault::Network(fault) => StageFault::Packet(fault),
        FeedFault::Sink(fault) => StageFault::Sink(fault),
        FeedFault::Failed => StageFault::Sink(PutFault::Failed),
    }
}

/// What a sink answers where what it feeds did not take a packet, and a stage where what is left at the end was not taken.
pub fn put_fault(fault: FeedFault) -> PutFault
    ensures { result ≡ put_fault_of fault }
{
    match fault {
        FeedFault::Sink(fault) => fault,
        FeedFault::Network(_) | FeedFault::Failed => PutFault::Failed,
    }
}
