//! Whole runs of the chain: the cues that the injector puts in are obeyed by the switch, in one pass over the network.

ghost use Rattle.std.specs.Prelude.{◌≡◌, Err, true, false, OnOk, IfOk, IfErr};
ghost use Rattle.ts_packet.specs.Transfers.{WentWell};
ghost use Rattle.packet_runs.specs.Devices.{RanOut, DevicesDid};
ghost use Rattle.outgoing_packets.specs.Faults.{is_err_or};
ghost use Rattle.ad_library.specs.Library.{held};
ghost use Rattle.chain_engine.specs.Chains.{OfChain};
ghost use Rattle.chain_engine.specs.Stops.{first_run_fault};
ghost use Rattle.chain_engine.specs.Progress.{Progresses};
ghost use Rattle.chain_engine.specs.Runs.{Exchanged, OutputBlamed};
ghost use Rattle.chain_engine.specs.Splices.{NetworkBlamedToEnd};
ghost use Rattle.chain_engine.specs.ChainRuns.{RunsAll, ChainStops, OfSteps, Stepped, StepStops, chain_unasked};
ghost use Rattle.program_follower.specs.Purposes.{writing_cues};

use crate::automation::Automation;
use crate::chain::Chain;
use crate::faults::{RunFault, put_fault, stage_fault};
use crate::report::Report;
use ad_library::AdLibrary;
use packet_runs::{Stage, StageFault, run_stage};
use psi_tables::{Config, FeedFault, NetworkFault};
use std::alloc::Allocator;
use ts_packet::{GatheringSink, Packet, PacketSink, PausingPackets, PutFault, ReadFault};

impl<M: Allocator> Chain<M> {
    /// Takes the next packet of the network: hears the automation first, and puts what goes out. What is due of the
    /// advertisements that run is asked for anew.
    ///
    /// # Errors
    ///
    /// What is wrong with the packet behind those before it: nothing of it was put then; or the fault of the sink: what was put is a front of
    /// what the packet puts. `Failed` once a fault was answered: then nothing is taken, answered or put.
    pub fn step<U: Automation, K: PacketSink>(
        &mut self,
        packet: &Packet,
        automation: &mut U,
        library: &AdLibrary,
        out: &mut K,
    ) -> Result<(), FeedFault>
        ensures leads { K.leads out.old out.new }
        ensures ok { OfSteps (chain_unasked self.old) (held library.now) K.PacketSink out.old out.new (λ is_out fails ts n k steps.
            OnOk result (Stepped U.exchanges automation.old automation.new self.old self.new (held library.now) is_out ts n k
            packet.now steps)) }
        ensures err { OfSteps (chain_unasked self.old) (held library.now) K.PacketSink out.old out.new (λ is_out fails ts n k steps.
            IfErr result (λ f. StepStops U.exchanges automation.old automation.new self.old self.new f (held library.now) is_out fails
            ts n k packet.now steps)) }
        ensures well { OnOk result (WentWell (K.counts out.old) (K.counts out.new)) }
        ensures blamed { IfErr result (λ f. OutputBlamed (RunFault.Feed f)
            (K.counts out.old) (K.counts out.new) (K.is_full out.new)) }
        ensures failed { self.old.is_spent ≡ true → (result ≡ Err FeedFault.Failed) × (self.new ≡ self.old)
            × (automation.new ≡ automation.old) × (out.new ≡ out.old) }
        ensures spent { self.new.is_spent ≡ is_err_or result self.old.is_spent }
    {
        if self.is_spent {
            return Err(FeedFault::Failed);
        }
        self.service.ask_anew();
        self.step_with_same(packet, automation, library, out)
    }

    /// As [`Chain::step`], where the library is that of the calls before: what is due of the advertisements that run is asked for once for each
    /// greatest time.
    ///
    /// # Errors
    ///
    /// As for [`Chain::step`].
    pub fn step_with_same<U: Automation, K: PacketSink>(
        &mut self,
        packet: &Packet,
        automation: &mut U,
        library: &AdLibrary,
        out: &mut K,
    ) -> Result<(), FeedFault>
        ensures leads { K.leads out.old out.new }
        ensures ok { OfSteps self.old (held library.now) K.PacketSink out.old out.new (λ is_out fails ts n k steps.
            OnOk result (Stepped U.exchanges automation.old automation.new self.old self.new (held library.now) is_out ts n k
            packet.now steps)) }
        ensures err { OfSteps self.old (held library.now) K.PacketSink out.old out.new (λ is_out fails ts n k steps.
            IfErr result (λ f. StepStops U.exchanges automation.old automation.new self.old self.new f (held library.now) is_out fails
            ts n k packet.now steps)) }
        ensures well { OnOk result (WentWell (K.counts out.old) (K.counts out.new)) }
        ensures blamed { IfErr result (λ f. OutputBlamed (RunFault.Feed f)
            (K.counts out.old) (K.counts out.new) (K.is_full out.new)) }
        ensures failed { self.old.is_spent ≡ true → (result ≡ Err FeedFault.Failed) × (self.new ≡ self.old)
            × (automation.new ≡ automation.old) × (out.new ≡ out.old) }
        ensures spent { self.new.is_spent ≡ is_err_or result self.old.is_spent }
    {
        if self.is_spent {
            return Err(FeedFault::Failed);
        }
        self.hear(automation);
        match self.service.pass(packet, library, out) {
            Ok(()) => Ok(()),
            Err(fault) => {
                self.is_spent = true;
                Err(fault)
            }
        }
    }
}

/// A chain, the automation that it hears before each packet, and the library that it plays.
#[derive(Drop)]
pub struct ChainStage<'a, M: Allocator, U> {
    pub(crate) chain: &'a mut Chain<M>,
    pub(crate) automation: &'a mut U,
    pub(crate) library: &'a AdLibrary,
    /// What the chain is configured for.
    pub(crate) config: &'a Config,
}

impl<'a, M: Allocator, U> ChainStage<'a, M, U> {
    /// This chain, automation and library; the chain is configured for this.
    pub fn new(
        chain: &'a mut Chain<M>,
        automation: &'a mut U,
        library: &'a AdLibrary,
        config: &'a Config,
    ) -> ChainStage<'a, M, U>
        ensures chain { result.chain.now ≡ chain.old }
        ensures automation { result.automation.now ≡ automation.old }
        ensures library { result.library.now ≡ library.now }
        ensures config { result.config.now ≡ config.now }
        ensures same { result.automation.ghost_name ≡ automation.entry.ghost_name }
    {
        ChainStage {
            chain,
            automation,
            library,
            config,
        }
    }
}

impl<M: Allocator, U: Automation> Stage for ChainStage<'_, M, U> {
    ghost use Rattle.std.specs.Prelude.{◌≡◌, true};
    ghost use Rattle.std.proofs.Common.{refl, ◌∙◌};
    ghost use Rattle.program_follower.specs.Faults.{network_fault};
    ghost use Rattle.program_follower.specs.Purposes.{writing_cues};
    ghost use Rattle.ad_library.specs.Library.{held};
    ghost use Rattle.chain_engine.specs.Runs.{Exchanged};
    ghost use Rattle.chain_engine.specs.Stages.{ChainSends, ChainRefuses, ChainBreaks, ChainEnds};

    type Refusal = NetworkFault;

    type Report = Report;

    ghost refusal = { λ s seen. network_fault (writing_cues s.chain.now.service.config) seen.packet seen.past };

    ghost sends = { λ first ps qs kept now. (now.library.now ≡ first.library.now)
        × ChainSends first.chain.now now.chain.now (held first.library.now)
        (Exchanged U.exchanges U.failures first.automation.now now.automation.now) ps qs };

    ghost refuses = { λ first ps qs p now. ChainRefuses first.chain.now.service.config (held first.library.now)
        (Exchanged U.exchanges U.failures first.automation.now now.automation.now) ps qs p };

    ghost breaks = { λ first ps next put q now. ChainBreaks first.chain.now.service.config (held first.library.now)
        (Exchanged U.exchanges U.failures first.automation.now now.automation.now) ps next put q };

    ghost ends = { λ first ps sent report now. ChainEnds first.chain.now.service.config (held first.library.now)
        (Exchanged U.exchanges U.failures first.automation.now now.automation.now) ps sent report };

    ghost leads = { λ s t. (t.automation.ghost_name ≡ s.automation.ghost_name) × (t.config.now ≡ s.config.now) };

    ghost puts_rest = { true };

    ghost leads_refl = { λ s. (refl, refl) };

    ghost leads_trans = { λ s t u h k. (k.0 ∙ h.0, k.1 ∙ h.1) };

    #[inline(always)]
    fn step<K: PacketSink>(
        &mut self,
        packet: &mut Packet,
        _kept: &Packet,
        out: &mut K,
    ) -> Result<bool, StageFault<NetworkFault>> {
        self.chain.hear(self.automation);
        match self.chain.service.pass(packet, self.library, out) {
            Ok(()) => Ok(false),
            Err(fault) => Err(stage_fault(fault)),
        }
    }

    fn finish<K: PacketSink>(&mut self, out: &mut K) -> Result<Report, PutFault> {
        match self.chain.service.finish(self.library, out) {
            Ok(events) => Ok(Report::of_chain(self.chain.service.counts(), events)),
            Err(fault) => Err(put_fault(fault)),
        }
    }
}

/// Passes a network on, with advertisements in the breaks that the automation asks for. Before each packet the automation is asked for one
/// piece, for as long as its session is open, and each message that becomes whole in it is judged and answered.
///
/// # Errors
///
/// The first fault of the network, once what the packets before it send is out; or the device's fault, at the packet where it came. After
/// a fault nothing more of the advertisements is put.
pub fn run<M: Allocator, P: PausingPackets, U: Automation, K: GatheringSink>(
    chain: Chain<M>,
    network: &mut P,
    automation: &mut U,
    library: &AdLibrary,
    out: &mut K,
) -> Result<Report, RunFault>
    requires { P.is_broken network.old ≡ false }
    ensures ok { OfChain chain K.PacketSink K.fails_to_send out.old out.new
        (λ c is_out fails unsent. IfOk result (RunsAll c (held library.now) (P.left network.old) is_out
        (Exchanged U.exchanges U.failures automation.old automation.new))) }
    ensures err { OfChain chain K.PacketSink K.fails_to_send out.old out.new
        (λ c is_out fails unsent. IfErr result (λ f. ChainStops c (held library.now) f (P.left network.old) is_out fails unsent
        (Exchanged U.exchanges U.failures automation.old automation.new))) }
    ensures progress { OfChain chain K.PacketSink K.fails_to_send out.old out.new
        (λ c is_out fails unsent. Progresses (first_run_fault (writing_cues c)) (P.left network.old)
        (RanOut P.PacketSource network.old network.new) (P.counts network.old) (P.counts network.new)
        (K.counts out.old) (K.counts out.new) (K.is_full out.new) fails unsent result) }
    ensures devices { DevicesDid P.PacketSource K.PacketSink (RunFault.Read ReadFault.Turns) NetworkBlamedToEnd OutputBlamed
        network.old network.new out.old out.new result }
{
    let mut chain = chain;
    let config = chain.config();
    let mut stage = ChainStage::new(&mut chain, automation, library, &config);
    match run_stage(&mut stage, network, out) {
        Ok(report) => Ok(report),
        Err(stop) => Err(RunFault::of(stop)),
    }
}
