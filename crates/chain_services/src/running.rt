//! Whole runs of several services.

ghost use Rattle.std.specs.Prelude.{◌≡◌, ℕ, ◌⊎◌, List, ◌++◌, length, Option, Err, false, OnOk, IfOk, IfErr};
ghost use Rattle.ts_packet.specs.Sources.{SourceCounts, Stalled, Exhausted};
ghost use Rattle.ts_packet.specs.Transfers.{WentWell};
ghost use Rattle.psi_tables.specs.declared.config.Config.{Config};
ghost use Rattle.chain_engine.specs.Progress.{Progresses};
ghost use Rattle.chain_engine.specs.Runs.{Exchanged, OutputBlamed};
ghost use Rattle.chain_engine.specs.Splices.{NetworkBlamedToEnd};
ghost use Rattle.service_laws.specs.Faults.{first_services_fault};
ghost use Rattle.chain_services.specs.Serving.{services_in};
ghost use Rattle.chain_services.specs.Runs.{ServicesStandFor, ServicesRunAll, ServicesStop, terms_by};
ghost use Rattle.chain_services.specs.Isolation.{IsolatesAll};

use crate::refusal::{Refusal, put_fault_of, run_fault_of, stage_fault_of};
use crate::report::ServiceReport;
use crate::services::Services;
use ad_library::AdLibrary;
use chain_engine::{Automation, RunFault};
use packet_runs::{Stage, StageFault, run_stage};
use std::alloc::Allocator;
use ts_packet::{GatheringSink, Packet, PacketSink, PausingPackets, PutFault, ReadFault};

/// The services, the automation that they hear before each packet, and the libraries that they play.
#[derive(Drop)]
pub struct ServicesStage<'a, M: Allocator, U> {
    services: &'a mut Services<M>,
    automation: &'a mut U,
    libraries: &'a [AdLibrary],
}

impl<'a, M: Allocator, U> ServicesStage<'a, M, U> {
    /// These services, this automation and these libraries.
    pub fn new(
        services: &'a mut Services<M>,
        automation: &'a mut U,
        libraries: &'a [AdLibrary],
    ) -> ServicesStage<'a, M, U>
        ensures services { result.services.now ≡ services.old }
        ensures automation { result.automation.now ≡ automation.old }
        ensures libraries { result.libraries.now ≡ libraries.now }
        ensures same { result.automation.ghost_name ≡ automation.entry.ghost_name }
    {
        ServicesStage {
            services,
            automation,
            libraries,
        }
    }
}

impl<M: Allocator, U> ServicesStage<'_, M, U> {
    ghost use Rattle.std.specs.Prelude.{◌≡◌};

    /// The services.
    pub fn services(&self) -> &Services<M>
        ensures { result.now ≡ self.now.services.now }
    {
        &*self.services
    }

    /// The library of each service, in their order.
    pub fn libraries(&self) -> &[AdLibrary]
        ensures { result.now ≡ self.now.libraries.now }
    {
        self.libraries
    }
}

/// Where it refuses a packet a front of what that sends is out, and all of it where two services share a PID.
impl<M: Allocator, U: Automation> Stage for ServicesStage<'_, M, U> {
    ghost use Rattle.std.specs.Prelude.{◌≡◌, true};
    ghost use Rattle.std.proofs.Common.{refl, ◌∙◌};
    ghost use Rattle.chain_engine.specs.Runs.{Exchanged};
    ghost use Rattle.service_laws.specs.Services.{configs_of};
    ghost use Rattle.chain_services.specs.Stages.{ServicesSend, ServicesRefuse, ServicesBreak, ServicesEnd, refusal_by, terms_in};

    type Refusal = Refusal;

    type Report = ServiceReport;

    ghost refusal = { λ s seen. refusal_by (configs_of (terms_in s.services.now.desk s.libraries.now)) seen };

    ghost sends = { λ first ps qs kept now. (now.libraries.now ≡ first.libraries.now)
        × ServicesSend (terms_in first.services.now.desk first.libraries.now) now.services.now.desk now.services.now.talk now.libraries.now
        (Exchanged U.exchanges U.failures first.automation.now now.automation.now) ps qs };

    ghost refuses = { λ first ps qs p now. ServicesRefuse (terms_in first.services.now.desk first.libraries.now)
        (Exchanged U.exchanges U.failures first.automation.now now.automation.now) ps qs p };

    ghost breaks = { λ first ps next put q now. ServicesBreak (terms_in first.services.now.desk first.libraries.now)
        (Exchanged U.exchanges U.failures first.automation.now now.automation.now) ps next put q };

    ghost ends = { λ first ps sent report now. ServicesEnd (terms_in first.services.now.desk first.libraries.now)
        (Exchanged U.exchanges U.failures first.automation.now now.automation.now) ps sent report };

    ghost leads = { λ s t. t.automation.ghost_name ≡ s.automation.ghost_name };

    ghost puts_rest = { true };

    ghost leads_refl = { λ s. refl };

    ghost leads_trans = { λ s t u h k. k ∙ h };

    #[inline(always)]
    fn step<K: PacketSink>(
        &mut self,
        packet: &mut Packet,
        _kept: &Packet,
        out: &mut K,
    ) -> Result<bool, StageFault<Refusal>> {
        self.services.hear(self.automation);
        let learns = match self.services.desk.pass(packet, self.libraries, out) {
            Ok(learns) => learns,
            Err(fault) => return Err(stage_fault_of(fault)),
        };
        if !learns {
            return Ok(false);
        }
        self.services.desk.learn();
        if self.services.desk.share_a_pid() {
            return Err(StageFault::Packet(Refusal::SharedPid));
        }
        Ok(false)
    }

    fn finish<K: PacketSink>(&mut self, out: &mut K) -> Result<ServiceReport, PutFault> {
        let counts = self.services.desk.counts;
        match self.services.desk.finish(self.libraries, out) {
            Ok(services) => Ok(ServiceReport {
                messages: counts.messages,
                accepted: counts.accepted,
                refused: counts.refused,
                services,
            }),
            Err(fault) => Err(put_fault_of(fault)),
        }
    }
}

/// Passes a network of several programmes on, with the advertisements of each in the breaks that are asked for it. Before each packet the
/// automation is asked for one piece, for as long as its session is open; each message that becomes whole in it goes to the service whose
/// `DPI_PID_index` it has, and is judged and answered. A packet on a PID of a service's map or of one of its switched streams goes out as a
/// chain of its own would send it, and every other one as it came.
///
/// # Errors
///
/// The first fault of the network for one of the services, in their order, once what the packets before it send is out; `SharedPid` once what
/// the packet sends is out that makes it known that two services share a PID; or the device's fault, at the packet where it came.
pub fn run_services<M: Allocator, P: PausingPackets, U: Automation, K: GatheringSink>(
    services: Services<M>,
    network: &mut P,
    automation: &mut U,
    libraries: &[AdLibrary],
    out: &mut K,
) -> Result<ServiceReport, RunFault>
    requires unbroken { P.is_broken network.old ≡ false }
    requires libraries { length libraries.now ≡ length (services_in services.desk) }
    ensures ok { (cs : List Config) (start : Option (List ℕ)) (before : List (List ℕ)) → ServicesStandFor services cs
        → K.holds out.old start before → IfOk result (ServicesRunAll (terms_by cs libraries.now) (P.left network.old)
        (λ ps. K.holds out.new start (before ++ ps)) (Exchanged U.exchanges U.failures automation.old automation.new)) }
    ensures isolated { (cs : List Config) (start : Option (List ℕ)) (before : List (List ℕ)) → ServicesStandFor services cs
        → K.holds out.old start before → IfOk result (IsolatesAll (terms_by cs libraries.now) (P.left network.old)
        (λ ps. K.holds out.new start (before ++ ps)) (Exchanged U.exchanges U.failures automation.old automation.new)) }
    ensures err { (cs : List Config) (start : Option (List ℕ)) (before : List (List ℕ)) → ServicesStandFor services cs
        → K.holds out.old start before → IfErr result (λ f. ServicesStop (terms_by cs libraries.now) f (P.left network.old)
        (λ ps. K.holds out.new start (before ++ ps)) (λ ps. K.fails out.new start (before ++ ps))
        (λ ps. K.fails_to_send out.new start (before ++ ps))
        (Exchanged U.exchanges U.failures automation.old automation.new)) }
    ensures progress { (cs : List Config) (start : Option (List ℕ)) (before : List (List ℕ)) → ServicesStandFor services cs
        → K.holds out.old start before
        → Progresses (first_services_fault cs) (P.left network.old)
        (Stalled P.leads P.counts P.falls_short network.old network.new ⊎ Exhausted P.left P.given network.old)
        (P.counts network.old) (P.counts network.new) (K.counts out.old) (K.counts out.new) (K.is_full out.new)
        (λ ps. K.fails out.new start (before ++ ps)) (λ ps. K.fails_to_send out.new start (before ++ ps)) result }
    ensures read { OnOk result (SourceCounts false (P.has_ended network.old) (P.has_ended network.new)
        (P.counts network.old) (P.counts network.new)) }
    ensures wrote { OnOk result (WentWell (K.counts out.old) (K.counts out.new)) }
    ensures reading { IfErr result (λ f. NetworkBlamedToEnd f (P.has_ended network.old) (P.has_ended network.new)
        (P.counts network.old) (P.counts network.new)) }
    ensures writing { IfErr result (λ f. OutputBlamed f (K.counts out.old) (K.counts out.new) (K.is_full out.new)) }
    ensures turns { result ≡ Err (RunFault.Read ReadFault.Turns)
        → Stalled P.leads P.counts P.falls_short network.old network.new ⊎ Exhausted P.left P.given network.old }
    ensures reads { P.leads network.old network.new }
    ensures leads { K.leads out.old out.new }
{
    let mut services = services;
    let mut stage = ServicesStage::new(&mut services, automation, libraries);
    match run_stage(&mut stage, network, out) {
        Ok(report) => Ok(report),
        Err(stop) => Err(run_fault_of(stop)),
    }
}
