//! What is wrong with a packet for several services.

ghost use Rattle.std.specs.Prelude.{◌≡◌};
ghost use Rattle.chain_engine.specs.Stops.{put_fault_of};
ghost use Rattle.chain_services.specs.Stages.{services_fault_of, stage_fault_of};

use chain_engine::RunFault;
use packet_runs::{StageFault, Stop};
use psi_tables::{FeedFault, NetworkFault};
use ts_packet::PutFault;

/// What is wrong with a packet for several services.
#[derive(Clone, Copy, Debug, PartialEq, Eq, Drop)]
pub enum Refusal {
    /// What is wrong with it for one of them, the first in their order.
    Network(NetworkFault),
    /// With it two of them share a PID. All that the packet sends is out.
    SharedPid,
}

/// What a run answers that was stopped so.
pub fn run_fault_of(stop: Stop<Refusal>) -> RunFault
    ensures { result ≡ services_fault_of stop }
{
    match stop {
        Stop::Read(fault) => RunFault::Read(fault),
        Stop::Packet(Refusal::Network(fault)) => RunFault::Feed(FeedFault::Network(fault)),
        Stop::Packet(Refusal::SharedPid) => RunFault::SharedPid,
        Stop::Sink(fault) => RunFault::Feed(FeedFault::Sink(fault)),
    }
}

/// What the stage answers where a packet was not passed on.
pub(crate) fn stage_fault_of(fault: FeedFault) -> StageFault<Refusal>
    ensures { result ≡ stage_fault_of fault }
{
    match fault {
        FeedFault::Network(fault) => StageFault::Packet(Refusal::Network(fault)),
        FeedFault::Sink(fault) => StageFault::Sink(fault),
        FeedFault::Failed => StageFault::Sink(PutFault::Failed),
    }
}

/// What the stage answers where the end was not put.
pub(crate) fn put_fault_of(fault: FeedFault) -> PutFault
    ensures { result ≡ put_fault_of fault }
{
    match fault {
        FeedFault::Sink(fault) => fault,
        FeedFault::Network(_) | FeedFault::Failed => PutFault::Failed,
    }
}
