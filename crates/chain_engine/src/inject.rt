//! Whole runs with an injector: a network in, the cued stream out.

ghost use Rattle.std.specs.Prelude.{◌≡◌, false, IfOk, IfErr};
ghost use Rattle.packet_runs.specs.Devices.{RanOut, DevicesDid};
ghost use Rattle.chain_engine.specs.Chains.{OfChain};
ghost use Rattle.chain_engine.specs.Stops.{first_run_fault};
ghost use Rattle.chain_engine.specs.Progress.{Progresses};
ghost use Rattle.chain_engine.specs.Runs.{Exchanged, InjectsAll, InjectStops, NetworkBlamed, OutputBlamed};
ghost use Rattle.program_follower.specs.Purposes.{writing_cues};

use crate::automation::Automation;
use crate::chain::Chain;
use crate::faults::{RunFault, stage_fault};
use crate::report::Report;
use packet_runs::{Stage, StageFault, run_stage};
use psi_tables::{Config, NetworkFault};
use std::alloc::Allocator;
use ts_packet::{GatheringSink, Packet, PacketSink, PausingPackets, PutFault, ReadFault};

/// A chain that passes packets on through its injector alone, and the automation that it hears before each.
#[derive(Drop)]
pub struct InjectorStage<'a, M: Allocator, U> {
    pub(crate) chain: &'a mut Chain<M>,
    pub(crate) automation: &'a mut U,
    /// What the chain is configured for.
    pub(crate) config: &'a Config,
}

impl<'a, M: Allocator, U> InjectorStage<'a, M, U> {
    /// This chain and this automation; the chain is configured for this.
    pub fn new(
        chain: &'a mut Chain<M>,
        automation: &'a mut U,
        config: &'a Config,
    ) -> InjectorStage<'a, M, U>
        ensures chain { result.chain.now ≡ chain.old }
        ensures automation { result.automation.now ≡ automation.old }
        ensures config { result.config.now ≡ config.now }
        ensures same { result.automation.ghost_name ≡ automation.entry.ghost_name }
    {
        InjectorStage {
            chain,
            automation,
            config,
        }
    }
}

impl<M: Allocator, U: Automation> Stage for InjectorStage<'_, M, U> {
    ghost use Rattle.std.specs.Prelude.{◌≡◌, false};
    ghost use Rattle.std.proofs.Common.{refl, ◌∙◌};
    ghost use Rattle.program_follower.specs.Faults.{network_fault};
    ghost use Rattle.program_follower.specs.Purposes.{writing_cues};
    ghost use Rattle.chain_engine.specs.Runs.{Exchanged};
    ghost use Rattle.chain_engine.specs.Stages.{InjectSends, InjectRefuses, InjectBreaks, InjectEnds};

    type Refusal = NetworkFault;

    type Report = Report;

    ghost refusal = { λ s seen. network_fault (writing_cues s.chain.now.service.config) seen.packet seen.past };

    ghost sends = { λ first ps qs kept now. InjectSends first.chain.now now.chain.now
        (Exchanged U.exchanges U.failures first.automation.now now.automation.now) ps qs };

    ghost refuses = { λ first ps qs p now. InjectRefuses first.chain.now.service.config
        (Exchanged U.exchanges U.failures first.automation.now now.automation.now) ps qs p };

    ghost breaks = { λ first ps next put q now. InjectBreaks first.chain.now.service.config
        (Exchanged U.exchanges U.failures first.automation.now now.automation.now) ps next put q };

    ghost ends = { λ first ps sent report now. InjectEnds first.chain.now.service.config
        (Exchanged U.exchanges U.failures first.automation.now now.automation.now) ps sent report };

    ghost leads = { λ s t. (t.automation.ghost_name ≡ s.automation.ghost_name) × (t.config.now ≡ s.config.now) };

    ghost puts_rest = { false };

    ghost leads_refl = { λ s. (refl, refl) };

    ghost leads_trans = { λ s t u h k. (k.0 ∙ h.0, k.1 ∙ h.1) };

    #[inline(always)]
    fn step<K: PacketSink>(
        &mut self,
        packet: &mut Packet,
        _kept: &Packet,
        out: &mut K,
    ) -> Result<bool, StageFault<NetworkFault>> {
        self.chain.hear(self.automation);
        match self.chain.service.injector.feed(packet, out) {
            Ok(()) => Ok(false),
            Err(fault) => Err(stage_fault(fault)),
        }
    }

    /// Nothing is left.
    fn finish<K: PacketSink>(&mut self, _out: &mut K) -> Result<Report, PutFault> {
        Ok(Report::of(self.chain.service.injector.counts()))
    }
}

/// Passes a network on, with the cues of the breaks that the automation asks for. Before each packet the automation is asked for one
/// piece, for as long as its session is open, and each message that becomes whole in it is judged and answered. Where the session ends,
/// by the automation, a failure, a bad size or a reply that it did not get, the network goes on, and the requests that were accepted
/// stand.
///
/// # Errors
///
/// The first fault of the network, once what the packets before it send is out; or the device's fault, at the packet where it came.
pub fn run_inject<M: Allocator, P: PausingPackets, U: Automation, K: GatheringSink>(
    chain: Chain<M>,
    network: &mut P,
    automation: &mut U,
    out: &mut K,
) -> Result<Report, RunFault>
    requires { P.is_broken network.old ≡ false }
    ensures ok { OfChain chain K.PacketSink K.fails_to_send out.old out.new
        (λ c is_out fails unsent. IfOk result (InjectsAll c (P.left network.old) is_out
        (Exchanged U.exchanges U.failures automation.old automation.new))) }
    ensures err { OfChain chain K.PacketSink K.fails_to_send out.old out.new
        (λ c is_out fails unsent. IfErr result (λ f. InjectStops c f (P.left network.old) is_out fails unsent
        (Exchanged U.exchanges U.failures automation.old automation.new))) }
    ensures progress { OfChain chain K.PacketSink K.fails_to_send out.old out.new
        (λ c is_out fails unsent. Progresses (first_run_fault (writing_cues c)) (P.left network.old)
        (RanOut P.PacketSource network.old network.new) (P.counts network.old) (P.counts network.new)
        (K.counts out.old) (K.counts out.new) (K.is_full out.new) fails unsent result) }
    ensures devices { DevicesDid P.PacketSource K.PacketSink (RunFault.Read ReadFault.Turns) NetworkBlamed OutputBlamed
        network.old network.new out.old out.new result }
{
    let mut chain = chain;
    let config = chain.config();
    let mut stage = InjectorStage::new(&mut chain, automation, &config);
    match run_stage(&mut stage, network, out) {
        Ok(report) => Ok(report),
        Err(stop) => Err(RunFault::of(stop)),
    }
}
