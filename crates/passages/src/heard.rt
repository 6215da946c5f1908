//! Runs of which is told, and whose automation is listened to besides.

ghost use Rattle.std.specs.Prelude.{◌≡◌, ℕ, ◌⊎◌, List, ◌++◌, length, Option, Err, false, OnOk, IfOk, IfErr};
ghost use Rattle.ts_packet.specs.Sources.{SourceCounts, Stalled, Exhausted};
ghost use Rattle.ts_packet.specs.Transfers.{WentWell};
ghost use Rattle.psi_tables.specs.declared.config.Config.{Config};
ghost use Rattle.ad_library.specs.Library.{held};
ghost use Rattle.chain_engine.specs.Chains.{ChainStandsFor};
ghost use Rattle.chain_engine.specs.Runs.{Exchanged, InjectsAll, InjectStops, NetworkBlamed, OutputBlamed};
ghost use Rattle.chain_engine.specs.Splices.{NetworkBlamedToEnd};
ghost use Rattle.chain_engine.specs.ChainRuns.{RunsAll, ChainStops};
ghost use Rattle.chain_services.specs.Serving.{services_in};
ghost use Rattle.chain_services.specs.Runs.{ServicesStandFor, ServicesRunAll, ServicesStop, terms_by};

use ad_library::AdLibrary;
use automations::Sessions;
use chain_engine::{Automation, Chain, Report, RunFault};
use chain_services::{ServiceReport, Services};
use psi_tables::Config;
use run_events::{HeardAutomation, Hearing, Watch, inject_told, run_told, services_told};
use std::alloc::Allocator;
use ts_packet::{GatheringSink, PausingPackets, ReadFault};

/// Runs [`inject_told`], and listens to the automation besides where each request is told. Where nothing is told, it is
/// looked at all the same, which costs a packet one look.
///
/// # Errors
///
/// As for [`inject_told`].
#[inline(always)]
pub(crate) fn inject_heard<
    M: Allocator,
    P: PausingPackets,
    U: Automation + Sessions,
    K: GatheringSink,
    V: Watch + Copy + Drop,
>(
    chain: Chain<M>,
    network: &mut P,
    automation: &mut U,
    out: &mut K,
    hearing: &mut Hearing<V>,
) -> Result<Report, RunFault>
    requires { P.is_broken network.old ≡ false }
    ensures ok { (c : Config) (start : Option (List ℕ)) (before : List (List ℕ)) → ChainStandsFor chain c
        → K.holds out.old start before → IfOk result (InjectsAll c (P.left network.old)
        (λ ps. K.holds out.new start (before ++ ps)) (Exchanged U.exchanges U.failures automation.old automation.new)) }
    ensures err { (c : Config) (start : Option (List ℕ)) (before : List (List ℕ)) → ChainStandsFor chain c
        → K.holds out.old start before → IfErr result (λ f. InjectStops c f (P.left network.old)
        (λ ps. K.holds out.new start (before ++ ps)) (λ ps. K.fails out.new start (before ++ ps))
        (λ ps. K.fails_to_send out.new start (before ++ ps))
        (Exchanged U.exchanges U.failures automation.old automation.new)) }
    ensures read { OnOk result (SourceCounts false (P.has_ended network.old) (P.has_ended network.new)
        (P.counts network.old) (P.counts network.new)) }
    ensures wrote { OnOk result (WentWell (K.counts out.old) (K.counts out.new)) }
    ensures reading { IfErr result (λ f. NetworkBlamed f (P.has_ended network.old) (P.has_ended network.new)
        (P.counts network.old) (P.counts network.new)) }
    ensures writing { IfErr result (λ f. OutputBlamed f (K.counts out.old) (K.counts out.new) (K.is_full out.new)) }
    ensures turns { result ≡ Err (RunFault.Read ReadFault.Turns)
        → Stalled P.leads P.counts P.falls_short network.old network.new ⊎ Exhausted P.left P.given network.old }
    ensures reads { P.leads network.old network.new }
    ensures leads { K.leads out.old out.new }
{
    let watch = hearing.watch;
    if watch.is_detailed() {
        let mut heard = HeardAutomation::new(automation, hearing);
        return inject_told(chain, network, &mut heard, out, watch);
    }
    inject_told(chain, network, automation, out, watch)
}

/// Runs [`run_told`], and listens to the automation besides where each request is told. Where nothing is told, it is
/// looked at all the same, which costs a packet one look.
///
/// # Errors
///
/// As for [`run_told`].
#[inline(always)]
pub(crate) fn run_heard<
    M: Allocator,
    P: PausingPackets,
    U: Automation + Sessions,
    K: GatheringSink,
    V: Watch + Copy + Drop,
>(
    chain: Chain<M>,
    network: &mut P,
    automation: &mut U,
    library: &AdLibrary,
    out: &mut K,
    hearing: &mut Hearing<V>,
) -> Result<Report, RunFault>
    requires { P.is_broken network.old ≡ false }
    ensures ok { (c : Config) (start : Option (List ℕ)) (before : List (List ℕ)) → ChainStandsFor chain c
        → K.holds out.old start before → IfOk result (RunsAll c (held library.now) (P.left network.old)
        (λ ps. K.holds out.new start (before ++ ps)) (Exchanged U.exchanges U.failures automation.old automation.new)) }
    ensures err { (c : Config) (start : Option (List ℕ)) (before : List (List ℕ)) → ChainStandsFor chain c
        → K.holds out.old start before → IfErr result (λ f. ChainStops c (held library.now) f (P.left network.old)
        (λ ps. K.holds out.new start (before ++ ps)) (λ ps. K.fails out.new start (before ++ ps))
        (λ ps. K.fails_to_send out.new start (before ++ ps))
        (Exchanged U.exchanges U.failures automation.old automation.new)) }
    ensures read { OnOk result (SourceCounts false (P.has_ended network.old) (P.has_ended network.new)
        (P.counts network.old) (P.counts network.new)) }
    ensures wrote { OnOk result (WentWell (K.counts out.old) (K.counts out.new)) }
    ensures reading { IfErr result (λ f. NetworkBlamedToEnd f (P.has_ended network.old) (P.has_ended network.new)
        (P.counts network.old) (P.counts network.new)) }
    ensures writing { IfErr result (λ f. OutputBlamed f (K.counts out.old) (K.counts out.new) (K.is_full out.new)) }
    ensures turns { result ≡ Err (RunFault.Read ReadFault.Turns)
        → Stalled P.leads P.counts P.falls_short network.old network.new ⊎ Exhausted P.left P.given network.old }
    ensures reads { P.leads network.old network.new }
    ensures leads { K.leads out.old out.new }
{
    let watch = hearing.watch;
    if watch.is_detailed() {
        let mut heard = HeardAutomation::new(automation, hearing);
        return run_told(chain, network, &mut heard, library, out, watch);
    }
    run_told(chain, network, automation, library, out, watch)
}

/// Runs [`services_told`], and listens to the automation besides where each request is told. Where nothing is told, it is
/// looked at all the same, which costs a packet one look.
///
/// # Errors
///
/// As for [`services_told`].
#[inline(always)]
pub(crate) fn services_heard<
    M: Allocator,
    P: PausingPackets,
    U: Automation + Sessions,
    K: GatheringSink,
    V: Watch + Copy + Drop,
>(
    services: Services<M>,
    network: &mut P,
    automation: &mut U,
    libraries: &[AdLibrary],
    out: &mut K,
    hearing: &mut Hearing<V>,
) -> Result<ServiceReport, RunFault>
    requires unbroken { P.is_broken network.old ≡ false }
    requires libraries { length libraries.now ≡ length (services_in services.desk) }
    ensures ok { (cs : List Config) (start : Option (List ℕ)) (before : List (List ℕ)) → ServicesStandFor services cs
        → K.holds out.old start before → IfOk result (ServicesRunAll (terms_by cs libraries.now) (P.left network.old)
        (λ ps. K.holds out.new start (before ++ ps)) (Exchanged U.exchanges U.failures automation.old automation.new)) }
    ensures err { (cs : List Config) (start : Option (List ℕ)) (before : List (List ℕ)) → ServicesStandFor services cs
        → K.holds out.old start before → IfErr result (λ f. ServicesStop (terms_by cs libraries.now) f (P.left network.old)
        (λ ps. K.holds out.new start (before ++ ps)) (λ ps. K.fails out.new start (before ++ ps))
        (λ ps. K.fails_to_send out.new start (before ++ ps))
        (Exchanged U.exchanges U.failures automation.old automation.new)) }
    ensures read { OnOk result (SourceCounts false (P.has_ended network.old) (P.has_ended network.new)
        (P.counts network.old) (P.counts network.new)) }
    ensures wrote { OnOk result (WentWell (K.counts out.old) (K.counts out.new)) }
    ensures reading { IfErr result (λ f. NetworkBlamedToEnd f (P.has_ended network.old) (P.has_ended network.new)
        (P.counts network.old) (P.counts network.new)) }
    ensures writing { IfErr result (λ f. OutputBlamed f (K.counts out.old) (K.counts out.new) (K.is_full out.new)) }
    ensures turns { result ≡ Err (RunFault.Read ReadFault.Turns)
        → Stalled P.leads P.counts P.falls_short network.old network.new ⊎ Exhausted P.left P.given network.old }
    ensures reads { P.leads network.old network.new }
    ensures leads { K.leads out.old out.new }
{
    let watch = hearing.watch;
    if watch.is_detailed() {
        let mut heard = HeardAutomation::new(automation, hearing);
        return services_told(services, network, &mut heard, libraries, out, watch);
    }
    services_told(services, network, automation, libraries, out, watch)
}
