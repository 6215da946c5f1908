//! Cutting an interval of one PID out of a network, packet by packet.

ghost use Rattle.std.specs.Prelude.{◌≡◌, OnOk, IfErr, false};
ghost use Rattle.packet_runs.specs.Devices.{OfSink, DevicesDid};
ghost use Rattle.unit_cut.specs.Runs.{CutsAll, Stops, NetworkBlamed, OutputBlamed};

use crate::cutter::Cutter;
use crate::cutting::Cutting;
use packet_runs::{Stop, run_stage};
use pes_time::Time33;
use thiserror::Error;
use ts_packet::{GatheringSink, PausingPackets, Pid, PutFault, ReadFault};
use unit_stream::UnitFault;

/// Why a cut stopped.
#[derive(Clone, Copy, Debug, PartialEq, Eq, Drop, Error)]
pub enum CutFault {
    /// The network could not be read on.
    #[error("reading the network: {0}")]
    Read(ReadFault),
    /// A payload packet of the PID has scrambling bits.
    #[error("a payload packet of the PID is scrambled")]
    Scrambled,
    /// The payload of the first packet of one of the PID's units ends before the unit's time stamps.
    #[error("the first packet of a unit ends before the unit's time stamps")]
    HeaderSplit,
    /// The time of one of the PID's units lies more than 900,000 ticks of 90 kHz (10 seconds) from the greatest before it.
    #[error("a unit lies more than 10 seconds from the greatest time before it")]
    TimeJump,
    /// The output could not be written on.
    #[error("writing the output: {0}")]
    Sink(PutFault),
}

impl CutFault {
    ghost use Rattle.unit_cut.specs.FirstFault.{fault_of_stop};

    /// The fault of a cut whose run stopped so.
    fn of_stop(stop: Stop<UnitFault>) -> CutFault
        ensures { result ≡ fault_of_stop stop }
    {
        match stop {
            Stop::Read(fault) => CutFault::Read(fault),
            Stop::Packet(UnitFault::Scrambled) => CutFault::Scrambled,
            Stop::Packet(UnitFault::HeaderSplit) => CutFault::HeaderSplit,
            Stop::Packet(UnitFault::TimeJump) => CutFault::TimeJump,
            Stop::Sink(fault) => CutFault::Sink(fault),
        }
    }
}

/// Puts the network's packets but for those of the PID's units whose time lies in the interval from `from` on, for `length`
/// ticks of 90 kHz. The network is bytes, by a [`PacketReader`](ts_packet::PacketReader), or any other source of packets, and the
/// output likewise any sink. What the output keeps back is sent before each read that may wait, and at the end it is the caller's to send.
///
/// # Errors
///
/// The first fault of the network, once the cut of all packets before it is out; or the device's fault, at the packet where it came,
/// or before the read that may wait.
pub fn cut<P: PausingPackets, K: GatheringSink>(
    network: &mut P,
    out: &mut K,
    pid: Pid,
    from: Time33,
    length: u32,
) -> Result<(), CutFault>
    requires { P.is_broken network.old ≡ false }
    ensures ok { OfSink K.PacketSink K.fails_to_send out.old out.new
        (λ is_out fails unsent. OnOk result (CutsAll pid from length (P.left network.old) is_out)) }
    ensures err { OfSink K.PacketSink K.fails_to_send out.old out.new
        (λ is_out fails unsent. IfErr result (λ f. Stops f pid from length (P.left network.old) is_out fails unsent)) }
    ensures devices { DevicesDid P.PacketSource K.PacketSink (CutFault.Read ReadFault.Turns) NetworkBlamed OutputBlamed
        network.old network.new out.old out.new result }
{
    let mut cutting = Cutting::new(Cutter::new(pid, from, length));
    match run_stage(&mut cutting, network, out) {
        Ok(()) => Ok(()),
        Err(stop) => Err(CutFault::of_stop(stop)),
    }
}
