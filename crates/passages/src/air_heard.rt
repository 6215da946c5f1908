//! Runs on air of which is told, and whose automation is listened to besides.

ghost use Rattle.std.specs.Prelude.{◌≡◌, ℕ, List, [], length, Option, false, IfOk, IfErr};
ghost use Rattle.psi_tables.specs.declared.config.Config.{Config};
ghost use Rattle.ad_library.specs.Library.{held};
ghost use Rattle.chain_engine.specs.Chains.{ChainStandsFor};
ghost use Rattle.chain_engine.specs.Runs.{Exchanged};
ghost use Rattle.chain_services.specs.Runs.{terms_by};
ghost use Rattle.on_air.specs.Plain.{IsOfDevices};
ghost use Rattle.services_on_air.specs.Standing.{AirServicesStandFor};
ghost use Rattle.services_on_air.specs.Serving.{AirServicesBegin};
ghost use Rattle.passages.specs.Runs.{PassesAll};
ghost use Rattle.passages.specs.AirRuns.{AirSplices, AirCues, AirPlays, AirServes};

use ad_library::AdLibrary;
use automations::Sessions;
use chain_engine::{Automation, Chain, Report, RunFault};
use chain_services::ServiceReport;
use on_air::{AirReport, AirWatch};
use psi_tables::Config;
use run_events::{
    HeardAutomation, Hearing, Watch, inject_told_on_air, run_told_on_air, services_told_on_air,
    splice_told_on_air,
};
use services_on_air::{AirServices, ServicesWatch};
use splice_plans::SwitchReport;
use std::alloc::Allocator;
use ts_packet::{GatheringSink, PausingPackets};

/// Runs [`inject_told_on_air`], and listens to the automation besides where each request is told. Where nothing is told, it is looked
/// at all the same.
///
/// # Errors
///
/// As for [`inject_told_on_air`].
pub(crate) fn inject_heard_on_air<M, P, U, K, A, V>(
    chain: Chain<M>,
    network: &mut P,
    automation: &mut U,
    out: &mut K,
    watch: &mut A,
    hearing: &mut Hearing<V>,
) -> Result<AirReport<Report>, RunFault>
where
    M: Allocator,
    P: PausingPackets,
    U: Automation + Sessions,
    K: GatheringSink,
    A: AirWatch,
    V: Watch + Copy + Drop,
    requires { P.is_broken network.old ≡ false }
    ensures done { (c : Config) (start : Option (List ℕ)) → ChainStandsFor chain c → K.holds out.old start []
        → IfOk result (PassesAll (AirCues c (Exchanged U.exchanges U.failures automation.old automation.new))
        (P.left network.old) (K.holds out.new start)) }
    ensures devices { IfErr result IsOfDevices }
    ensures reads { P.leads network.old network.new }
    ensures leads { K.leads out.old out.new }
{
    let told = hearing.watch;
    if told.is_detailed() {
        let mut heard = HeardAutomation::new(automation, hearing);
        return inject_told_on_air(chain, network, &mut heard, out, watch, told);
    }
    let ended = inject_told_on_air(chain, network, automation, out, watch, told);
    hearing.tell_closed(&*automation);
    ended
}

/// Runs [`run_told_on_air`], and listens to the automation besides where each request is told. Where nothing is told, it is looked
/// at all the same.
///
/// # Errors
///
/// As for [`run_told_on_air`].
pub(crate) fn run_heard_on_air<M, P, U, K, A, V>(
    chain: Chain<M>,
    network: &mut P,
    automation: &mut U,
    library: &AdLibrary,
    out: &mut K,
    watch: &mut A,
    hearing: &mut Hearing<V>,
) -> Result<AirReport<Report>, RunFault>
where
    M: Allocator,
    P: PausingPackets,
    U: Automation + Sessions,
    K: GatheringSink,
    A: AirWatch,
    V: Watch + Copy + Drop,
    requires { P.is_broken network.old ≡ false }
    ensures done { (c : Config) (start : Option (List ℕ)) → ChainStandsFor chain c → K.holds out.old start []
        → IfOk result (PassesAll
        (AirPlays c (held library.now) (Exchanged U.exchanges U.failures automation.old automation.new))
        (P.left network.old) (K.holds out.new start)) }
    ensures devices { IfErr result IsOfDevices }
    ensures reads { P.leads network.old network.new }
    ensures leads { K.leads out.old out.new }
{
    let told = hearing.watch;
    if told.is_detailed() {
        let mut heard = HeardAutomation::new(automation, hearing);
        return run_told_on_air(chain, network, &mut heard, library, out, watch, told);
    }
    let ended = run_told_on_air(chain, network, automation, library, out, watch, told);
    hearing.tell_closed(&*automation);
    ended
}

/// Runs [`services_told_on_air`], and listens to the automation besides where each request is told. Where nothing is told, it is looked
/// at all the same.
///
/// # Errors
///
/// As for [`services_told_on_air`].
pub(crate) fn services_heard_on_air<M, P, U, K, A, V>(
    services: AirServices<M>,
    network: &mut P,
    automation: &mut U,
    libraries: &[AdLibrary],
    out: &mut K,
    watch: &mut A,
    hearing: &mut Hearing<V>,
) -> Result<AirReport<ServiceReport>, RunFault>
where
    M: Allocator,
    P: PausingPackets,
    U: Automation + Sessions,
    K: GatheringSink,
    A: ServicesWatch,
    V: Watch + Copy + Drop,
    requires { P.is_broken network.old ≡ false }
    ensures done { (cs : List Config) (start : Option (List ℕ)) → AirServicesStandFor services cs [] → AirServicesBegin services cs
        → length libraries.now ≡ length cs → K.holds out.old start []
        → IfOk result (PassesAll
        (AirServes (terms_by cs libraries.now) (Exchanged U.exchanges U.failures automation.old automation.new))
        (P.left network.old) (K.holds out.new start)) }
    ensures devices { IfErr result IsOfDevices }
    ensures reads { P.leads network.old network.new }
    ensures leads { K.leads out.old out.new }
{
    let told = hearing.watch;
    if told.is_detailed() {
        let mut heard = HeardAutomation::new(automation, hearing);
        return services_told_on_air(services, network, &mut heard, libraries, out, watch, told);
    }
    let ended = services_told_on_air(services, network, automation, libraries, out, watch, told);
    hearing.tell_closed(&*automation);
    ended
}

/// Runs [`splice_told_on_air`]. Where nothing is told, it is looked at all the same.
///
/// # Errors
///
/// As for [`splice_told_on_air`].
pub(crate) fn splice_heard_on_air<P, K, A, V>(
    config: Config,
    network: &mut P,
    library: &AdLibrary,
    out: &mut K,
    watch: &mut A,
    told: V,
) -> Result<AirReport<SwitchReport>, RunFault>
where
    P: PausingPackets,
    K: GatheringSink,
    A: AirWatch,
    V: Watch + Drop,
    requires { P.is_broken network.old ≡ false }
    ensures done { (start : Option (List ℕ)) → K.holds out.old start []
        → IfOk result (PassesAll (AirSplices config (held library.now)) (P.left network.old) (K.holds out.new start)) }
    ensures devices { IfErr result IsOfDevices }
    ensures reads { P.leads network.old network.new }
    ensures leads { K.leads out.old out.new }
{
    splice_told_on_air(config, network, library, out, watch, told)
}
