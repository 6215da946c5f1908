//! Whole runs of the switch: a network with cues in, the spliced stream out.

ghost use Rattle.ad_library.specs.Advertisements.{Advertisement};
ghost use Rattle.splice_switch.specs.Standing.{SwitchStandsFor};
ghost use Rattle.std.specs.Prelude.{◌≡◌, ℕ, [], Option, false, IfOk, IfErr};
ghost use Rattle.packet_runs.specs.Devices.{OfSink, RanOut, DevicesDid};
ghost use Rattle.program_follower.specs.Purposes.{reading_cues};
ghost use Rattle.ad_library.specs.Library.{held};
ghost use Rattle.chain_engine.specs.Stops.{first_run_fault};
ghost use Rattle.chain_engine.specs.Progress.{Progresses};
ghost use Rattle.chain_engine.specs.Runs.{OutputBlamed};
ghost use Rattle.chain_engine.specs.Splices.{SplicesAll, SpliceStops, NetworkBlamedToEnd};

use crate::faults::{RunFault, put_fault, stage_fault};
use ad_library::AdLibrary;
use packet_runs::{Stage, StageFault, run_stage};
use psi_tables::{Config, NetworkFault};
use splice_switch::{Switch, SwitchReport};
use ts_packet::{GatheringSink, Packet, PacketSink, PausingPackets, PutFault, ReadFault};

/// A switch, the configuration that it was made for, and the library that it plays.
#[derive(Drop)]
pub struct SwitchStage<'a> {
    pub(crate) switch: Switch,
    pub(crate) config: Config,
    pub(crate) library: &'a AdLibrary,
}

impl<'a> SwitchStage<'a> {
    /// A switch of this configuration that was given no packet, and this library.
    pub fn new(config: Config, library: &'a AdLibrary) -> SwitchStage<'a>
        ensures switch { (filed : ℕ → Option Advertisement) → SwitchStandsFor result.switch config filed [] }
        ensures config { result.config ≡ config }
        ensures library { result.library.now ≡ library.now }
    {
        let given = &config;
        SwitchStage {
            switch: Switch::new(*given),
            config: *given,
            library,
        }
    }
}

impl Stage for SwitchStage<'_> {
    ghost use Rattle.std.specs.Prelude.{◌≡◌, true};
    ghost use Rattle.std.proofs.Common.{refl, ◌∙◌};
    ghost use Rattle.program_follower.specs.Faults.{network_fault};
    ghost use Rattle.program_follower.specs.Purposes.{reading_cues};
    ghost use Rattle.ad_library.specs.Library.{held};
    ghost use Rattle.chain_engine.specs.Splices.{switch_sends};
    ghost use Rattle.chain_engine.specs.Stages.{SpliceSends, SpliceBreaks, SpliceEnds};

    type Refusal = NetworkFault;

    type Report = SwitchReport;

    ghost refusal = { λ s seen. network_fault (reading_cues s.config) seen.packet seen.past };

    ghost sends = { λ first ps qs kept now. (now.library.now ≡ first.library.now)
        × SpliceSends now.switch first.config (held first.library.now) ps qs };

    ghost refuses = { λ first ps qs p now. switch_sends first.config (held first.library.now) ps ≡ qs };

    ghost breaks = { λ first ps next put q now. SpliceBreaks first.config (held first.library.now) ps next put q };

    ghost ends = { λ first ps sent report now. SpliceEnds first.config (held first.library.now) ps sent report };

    ghost leads = { λ s t. t.config ≡ s.config };

    ghost puts_rest = { true };

    ghost leads_refl = { λ s. refl };

    ghost leads_trans = { λ s t u h k. k ∙ h };

    #[inline(always)]
    fn step<K: PacketSink>(
        &mut self,
        packet: &mut Packet,
        _kept: &Packet,
        out: &mut K,
    ) -> Result<bool, StageFault<NetworkFault>> {
        match self.switch.feed_with_same(packet, self.library, out) {
            Ok(()) => Ok(false),
            Err(fault) => Err(stage_fault(fault)),
        }
    }

    fn finish<K: PacketSink>(&mut self, out: &mut K) -> Result<SwitchReport, PutFault> {
        match self.switch.finish(self.library, out) {
            Ok(report) => Ok(report),
            Err(fault) => Err(put_fault(fault)),
        }
    }
}

/// Passes a network with cues on, with advertisements in the events that the cues arm: the units of each switched stream that lie in a
/// played event are left out, and those of the advertisement go out in their place, at the network's times. The cues themselves go no
/// further.
///
/// # Errors
///
/// The first fault of the network, once what the packets before it send is out; or the device's fault, at the packet where it came. After
/// a fault nothing more of the advertisements is put.
pub fn run_splice<P: PausingPackets, K: GatheringSink>(
    config: Config,
    network: &mut P,
    library: &AdLibrary,
    out: &mut K,
) -> Result<SwitchReport, RunFault>
    requires { P.is_broken network.old ≡ false }
    ensures ok { OfSink K.PacketSink K.fails_to_send out.old out.new
        (λ is_out fails unsent. IfOk result (SplicesAll config (held library.now) (P.left network.old) is_out)) }
    ensures err { OfSink K.PacketSink K.fails_to_send out.old out.new
        (λ is_out fails unsent. IfErr result (λ f. SpliceStops config (held library.now) f (P.left network.old) is_out fails unsent)) }
    ensures progress { OfSink K.PacketSink K.fails_to_send out.old out.new
        (λ is_out fails unsent. Progresses (first_run_fault (reading_cues config)) (P.left network.old)
        (RanOut P.PacketSource network.old network.new) (P.counts network.old) (P.counts network.new)
        (K.counts out.old) (K.counts out.new) (K.is_full out.new) fails unsent result) }
    ensures devices { DevicesDid P.PacketSource K.PacketSink (RunFault.Read ReadFault.Turns) NetworkBlamedToEnd OutputBlamed
        network.old network.new out.old out.new result }
{
    let given = &config;
    let mut stage = SwitchStage {
        switch: Switch::new(*given),
        config: *given,
        library,
    };
    match run_stage(&mut stage, network, out) {
        Ok(report) => Ok(report),
        Err(stop) => Err(RunFault::of(stop)),
    }
}
