//! Whole runs that are looked at between their packets.

ghost use Rattle.std.specs.Prelude.{◌≡◌, ℕ, ◌⊎◌, List, ◌++◌, length, Option, Err, false, OnOk, IfOk, IfErr};
ghost use Rattle.ts_packet.specs.Sources.{SourceCounts, Stalled, Exhausted};
ghost use Rattle.ts_packet.specs.Transfers.{WentWell};
ghost use Rattle.psi_tables.specs.declared.config.Config.{Config};
ghost use Rattle.program_follower.specs.Purposes.{reading_cues, writing_cues};
ghost use Rattle.ad_library.specs.Library.{held};
ghost use Rattle.chain_engine.specs.Chains.{ChainStandsFor};
ghost use Rattle.chain_engine.specs.Stops.{first_run_fault};
ghost use Rattle.chain_engine.specs.Progress.{Progresses};
ghost use Rattle.chain_engine.specs.Runs.{Exchanged, InjectsAll, InjectStops, NetworkBlamed, OutputBlamed};
ghost use Rattle.chain_engine.specs.Splices.{SplicesAll, SpliceStops, NetworkBlamedToEnd};
ghost use Rattle.chain_engine.specs.ChainRuns.{RunsAll, ChainStops};
ghost use Rattle.service_laws.specs.Faults.{first_services_fault};
ghost use Rattle.chain_services.specs.Serving.{services_in};
ghost use Rattle.chain_services.specs.Runs.{ServicesStandFor, ServicesRunAll, ServicesStop, terms_by};
ghost use Rattle.chain_services.specs.Isolation.{IsolatesAll};

use crate::stage_run::run_stage_told;
use crate::watch::Watch;
use ad_library::AdLibrary;
use chain_engine::{Automation, Chain, ChainStage, InjectorStage, Report, RunFault, SwitchStage};
use chain_services::{ServiceReport, Services, ServicesStage, run_fault_of};
use psi_tables::Config;
use splice_switch::SwitchReport;
use std::alloc::Allocator;
use ts_packet::{GatheringSink, PausingPackets, ReadFault};

/// Runs as [`chain_engine::run`] does, and tells of it.
///
/// # Errors
///
/// As for [`chain_engine::run`].
pub fn run_told<M: Allocator, P: PausingPackets, U: Automation, K: GatheringSink, W: Watch + Drop>(
    chain: Chain<M>,
    network: &mut P,
    automation: &mut U,
    library: &AdLibrary,
    out: &mut K,
    watch: W,
) -> Result<Report, RunFault>
    requires { P.is_broken network.old ≡ false }
    ensures ok { (c : Config) (start : Option (List ℕ)) (before : List (List ℕ)) → ChainStandsFor chain c
        → K.holds out.old start before → IfOk result (RunsAll c (held library.now) (P.left network.old)
        (λ ps. K.holds out.new start (before ++ ps)) (Exchanged U.exchanges U.failures automation.old automation.new)) }
    ensures err { (c : Config) (start : Option (List ℕ)) (before : List (List ℕ)) → ChainStandsFor chain c
        → K.holds out.old start before → IfErr result (λ f. ChainStops c (held library.now) f (P.left network.old)
        (λ ps. K.holds out.new start (before ++ ps)) (λ ps. K.fails out.new start (before ++ ps))
        (λ ps. K.fails_to_send out.new start (before ++ ps))
        (Exchanged U.exchanges U.failures automation.old automation.new)) }
    ensures progress { (c : Config) (start : Option (List ℕ)) (before : List (List ℕ)) → ChainStandsFor chain c
        → K.holds out.old start before
        → Progresses (first_run_fault (writing_cues c)) (P.left network.old)
        (Stalled P.leads P.counts P.falls_short network.old network.new ⊎ Exhausted P.left P.given network.old)
        (P.counts network.old) (P.counts network.new) (K.counts out.old) (K.counts out.new) (K.is_full out.new)
        (λ ps. K.fails out.new start (before ++ ps)) (λ ps. K.fails_to_send out.new start (before ++ ps)) result }
    ensures read { OnOk result (SourceCounts false (P.has_ended network.old) (P.has_ended network.new)
        (P.counts network.old) (P.counts network.new)) }
    ensures wrote { OnOk result (WentWell (K.counts out.old) (K.counts out.new)) }
    ensures reading { IfErr result (λ f. NetworkBlamedToEnd f (P.has_ended network.old) (P.has_ended network.new)
        (P.counts network.old) (P.counts network.new)) }
    ensures writing { IfErr result (λ f. OutputBlamed f (K.counts out.old) (K.counts out.new) (K.is_full out.new)) }
    ensures turns { result ≡ Err (RunFault.Read ReadFault.Turns)
        → Stalled P.leads P.counts P.falls_short network.old network.new ⊎ Exhausted P.left P.given network.old }
    ensures reads { P.leads network.old network.new }
    ensures leads { K.leads out.old out.new }
{
    let mut chain = chain;
    let config = chain.config();
    let mut stage = ChainStage::new(&mut chain, automation, library, &config);
    let mut watch = watch;
    match run_stage_told(&mut stage, network, out, &mut watch) {
        Ok(report) => Ok(report),
        Err(stop) => Err(RunFault::of(stop)),
    }
}

/// Runs as [`chain_engine::run_inject`] does, and tells of it.
///
/// # Errors
///
/// As for [`chain_engine::run_inject`].
pub fn inject_told<
    M: Allocator,
    P: PausingPackets,
    U: Automation,
    K: GatheringSink,
    W: Watch + Drop,
>(
    chain: Chain<M>,
    network: &mut P,
    automation: &mut U,
    out: &mut K,
    watch: W,
) -> Result<Report, RunFault>
    requires { P.is_broken network.old ≡ false }
    ensures ok { (c : Config) (start : Option (List ℕ)) (before : List (List ℕ)) → ChainStandsFor chain c
        → K.holds out.old start before → IfOk result (InjectsAll c (P.left network.old)
        (λ ps. K.holds out.new start (before ++ ps)) (Exchanged U.exchanges U.failures automation.old automation.new)) }
    ensures err { (c : Config) (start : Option (List ℕ)) (before : List (List ℕ)) → ChainStandsFor chain c
        → K.holds out.old start before → IfErr result (λ f. InjectStops c f (P.left network.old)
        (λ ps. K.holds out.new start (before ++ ps)) (λ ps. K.fails out.new start (before ++ ps))
        (λ ps. K.fails_to_send out.new start (before ++ ps))
        (Exchanged U.exchanges U.failures automation.old automation.new)) }
    ensures progress { (c : Config) (start : Option (List ℕ)) (before : List (List ℕ)) → ChainStandsFor chain c
        → K.holds out.old start before
        → Progresses (first_run_fault (writing_cues c)) (P.left network.old)
        (Stalled P.leads P.counts P.falls_short network.old network.new ⊎ Exhausted P.left P.given network.old)
        (P.counts network.old) (P.counts network.new) (K.counts out.old) (K.counts out.new) (K.is_full out.new)
        (λ ps. K.fails out.new start (before ++ ps)) (λ ps. K.fails_to_send out.new start (before ++ ps)) result }
    ensures read { OnOk result (SourceCounts false (P.has_ended network.old) (P.has_ended network.new)
        (P.counts network.old) (P.counts network.new)) }
    ensures wrote { OnOk result (WentWell (K.counts out.old) (K.counts out.new)) }
    ensures reading { IfErr result (λ f. NetworkBlamed f (P.has_ended network.old) (P.has_ended network.new)
        (P.counts network.old) (P.counts network.new)) }
    ensures writing { IfErr result (λ f. OutputBlamed f (K.counts out.old) (K.counts out.new) (K.is_full out.new)) }
    ensures turns { result ≡ Err (RunFault.Read ReadFault.Turns)
        → Stalled P.leads P.counts P.falls_short network.old network.new ⊎ Exhausted P.left P.given network.old }
    ensures reads { P.leads network.old network.new }
    ensures leads { K.leads out.old out.new }
{
    let mut chain = chain;
    let config = chain.config();
    let mut stage = InjectorStage::new(&mut chain, automation, &config);
    let mut watch = watch;
    match run_stage_told(&mut stage, network, out, &mut watch) {
        Ok(report) => Ok(report),
        Err(stop) => Err(RunFault::of(stop)),
    }
}

/// Runs as [`chain_engine::run_splice`] does, and tells of it.
///
/// # Errors
///
/// As for [`chain_engine::run_splice`].
pub fn splice_told<P: PausingPackets, K: GatheringSink, W: Watch + Drop>(
    config: Config,
    network: &mut P,
    library: &AdLibrary,
    out: &mut K,
    watch: W,
) -> Result<SwitchReport, RunFault>
    requires { P.is_broken network.old ≡ false }
    ensures ok { (start : Option (List ℕ)) (before : List (List ℕ)) → K.holds out.old start before
        → IfOk result (SplicesAll config (held library.now) (P.left network.old) (λ ps. K.holds out.new start (before ++ ps))) }
    ensures err { (start : Option (List ℕ)) (before : List (List ℕ)) → K.holds out.old start before
        → IfErr result (λ f. SpliceStops config (held library.now) f (P.left network.old)
        (λ ps. K.holds out.new start (before ++ ps)) (λ ps. K.fails out.new start (before ++ ps))
        (λ ps. K.fails_to_send out.new start (before ++ ps))) }
    ensures progress { (start : Option (List ℕ)) (before : List (List ℕ)) → K.holds out.old start before
        → Progresses (first_run_fault (reading_cues config)) (P.left network.old)
        (Stalled P.leads P.counts P.falls_short network.old network.new ⊎ Exhausted P.left P.given network.old)
        (P.counts network.old) (P.counts network.new) (K.counts out.old) (K.counts out.new) (K.is_full out.new)
        (λ ps. K.fails out.new start (before ++ ps)) (λ ps. K.fails_to_send out.new start (before ++ ps)) result }
    ensures read { OnOk result (SourceCounts false (P.has_ended network.old) (P.has_ended network.new)
        (P.counts network.old) (P.counts network.new)) }
    ensures wrote { OnOk result (WentWell (K.counts out.old) (K.counts out.new)) }
    ensures reading { IfErr result (λ f. NetworkBlamedToEnd f (P.has_ended network.old) (P.has_ended network.new)
        (P.counts network.old) (P.counts network.new)) }
    ensures writing { IfErr result (λ f. OutputBlamed f (K.counts out.old) (K.counts out.new) (K.is_full out.new)) }
    ensures turns { result ≡ Err (RunFault.Read ReadFault.Turns)
        → Stalled P.leads P.counts P.falls_short network.old network.new ⊎ Exhausted P.left P.given network.old }
    ensures reads { P.leads network.old network.new }
    ensures leads { K.leads out.old out.new }
{
    let mut stage = SwitchStage::new(config, library);
    let mut watch = watch;
    match run_stage_told(&mut stage, network, out, &mut watch) {
        Ok(report) => Ok(report),
        Err(stop) => Err(RunFault::of(stop)),
    }
}

/// Runs as [`chain_services::run_services`] does, and tells of it.
///
/// # Errors
///
/// As for [`chain_services::run_services`].
pub fn services_told<
    M: Allocator,
    P: PausingPackets,
    U: Automation,
    K: GatheringSink,
    W: Watch + Drop,
>(
    services: Services<M>,
    network: &mut P,
    automation: &mut U,
    libraries: &[AdLibrary],
    out: &mut K,
    watch: W,
) -> Result<ServiceReport, RunFault>
    requires unbroken { P.is_broken network.old ≡ false }
    requires libraries { length libraries.now ≡ length (services_in services.desk) }
    ensures ok { (cs : List Config) (start : Option (List ℕ)) (before : List (List ℕ)) → ServicesStandFor services cs
        → K.holds out.old start before → IfOk result (ServicesRunAll (terms_by cs libraries.now) (P.left network.old)
        (λ ps. K.holds out.new start (before ++ ps)) (Exchanged U.exchanges U.failures automation.old automation.new)) }
    ensures isolated { (cs : List Config) (start : Option (List ℕ)) (before : List (List ℕ)) → ServicesStandFor services cs
        → K.holds out.old start before → IfOk result (IsolatesAll (terms_by cs libraries.now) (P.left network.old)
        (λ ps. K.holds out.new start (before ++ ps)) (Exchanged U.exchanges U.failures automation.old automation.new)) }
    ensures err { (cs : List Config) (start : Option (List ℕ)) (before : List (List ℕ)) → ServicesStandFor services cs
        → K.holds out.old start before → IfErr result (λ f. ServicesStop (terms_by cs libraries.now) f (P.left network.old)
        (λ ps. K.holds out.new start (before ++ ps)) (λ ps. K.fails out.new start (before ++ ps))
        (λ ps. K.fails_to_send out.new start (before ++ ps))
        (Exchanged U.exchanges U.failures automation.old automation.new)) }
    ensures progress { (cs : List Config) (start : Option (List ℕ)) (before : List (List ℕ)) → ServicesStandFor services cs
        → K.holds out.old start before
        → Progresses (first_services_fault cs) (P.left network.old)
        (Stalled P.leads P.counts P.falls_short network.old network.new ⊎ Exhausted P.left P.given network.old)
        (P.counts network.old) (P.counts network.new) (K.counts out.old) (K.counts out.new) (K.is_full out.new)
        (λ ps. K.fails out.new start (before ++ ps)) (λ ps. K.fails_to_send out.new start (before ++ ps)) result }
    ensures read { OnOk result (SourceCounts false (P.has_ended network.old) (P.has_ended network.new)
        (P.counts network.old) (P.counts network.new)) }
    ensures wrote { OnOk result (WentWell (K.counts out.old) (K.counts out.new)) }
    ensures reading { IfErr result (λ f. NetworkBlamedToEnd f (P.has_ended network.old) (P.has_ended network.new)
        (P.counts network.old) (P.counts network.new)) }
    ensures writing { IfErr result (λ f. OutputBlamed f (K.counts out.old) (K.counts out.new) (K.is_full out.new)) }
    ensures turns { result ≡ Err (RunFault.Read ReadFault.Turns)
        → Stalled P.leads P.counts P.falls_short network.old network.new ⊎ Exhausted P.left P.given network.old }
    ensures reads { P.leads network.old network.new }
    ensures leads { K.leads out.old out.new }
{
    let mut services = services;
    let mut stage = ServicesStage::new(&mut services, automation, libraries);
    let mut watch = watch;
    match run_stage_told(&mut stage, network, out, &mut watch) {
        Ok(report) => Ok(report),
        Err(stop) => Err(run_fault_of(stop)),
    }
}
