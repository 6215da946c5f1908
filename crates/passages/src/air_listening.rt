//! Runs on air whose automations are the clients of a port of this machine, one after another.

ghost use Rattle.std.specs.Prelude.{◌≡◌, ℕ, List, [], length, Option, false, IfOk, IfErr};
ghost use Rattle.psi_tables.specs.declared.config.Config.{Config};
ghost use Rattle.ad_library.specs.Library.{held};
ghost use Rattle.chain_engine.specs.Chains.{ChainStandsFor};
ghost use Rattle.chain_services.specs.Runs.{terms_by};
ghost use Rattle.on_air.specs.Plain.{IsOfDevices};
ghost use Rattle.services_on_air.specs.Standing.{AirServicesStandFor};
ghost use Rattle.services_on_air.specs.Serving.{AirServicesBegin};
ghost use Rattle.passages.specs.Runs.{PassesAll, Untold};
ghost use Rattle.passages.specs.AirRuns.{AirCues, AirPlays, AirServes};

use crate::air_heard::{inject_heard_on_air, run_heard_on_air, services_heard_on_air};
use ad_library::AdLibrary;
use automations::Clients;
use chain_engine::{Chain, Report, RunFault};
use chain_services::ServiceReport;
use on_air::{AirReport, AirWatch};
use run_events::{Hearing, Watch};
use services_on_air::{AirServices, ServicesWatch};
use std::alloc::Allocator;
use std::io::{Read, Write};
use std::net::{OpenListener, OpenStream};
use ts_packet::{GatheringSink, PausingPackets};

/// Runs [`run_events::inject_told_on_air`] with the clients of the listener as the automation. The network waits for none of them.
///
/// # Errors
///
/// As for [`run_events::inject_told_on_air`].
pub fn inject_listening_on_air<M, P, L, K, A, V>(
    chain: Chain<M>,
    network: &mut P,
    listener: &L,
    out: &mut K,
    watch: &mut A,
    hearing: &mut Hearing<V>,
) -> Result<AirReport<Report>, RunFault>
where
    M: Allocator,
    P: PausingPackets,
    L: OpenListener,
    L::Stream: OpenStream + Read + Write + Drop,
    K: GatheringSink,
    A: AirWatch,
    V: Watch + Copy + Drop,
    requires { P.is_broken network.old ≡ false }
    ensures done { (c : Config) (start : Option (List ℕ)) → ChainStandsFor chain c → K.holds out.old start []
        → IfOk result (PassesAll (AirCues c Untold) (P.left network.old)
        (K.holds out.new start)) }
    ensures devices { IfErr result IsOfDevices }
    ensures reads { P.leads network.old network.new }
    ensures leads { K.leads out.old out.new }
{
    let mut clients = Clients::new(listener);
    inject_heard_on_air(chain, network, &mut clients, out, watch, hearing)
}

/// Runs [`run_events::run_told_on_air`] with the clients of the listener as the automation, likewise.
///
/// # Errors
///
/// As for [`run_events::run_told_on_air`].
pub fn run_listening_on_air<M, P, L, K, A, V>(
    chain: Chain<M>,
    network: &mut P,
    listener: &L,
    library: &AdLibrary,
    out: &mut K,
    watch: &mut A,
    hearing: &mut Hearing<V>,
) -> Result<AirReport<Report>, RunFault>
where
    M: Allocator,
    P: PausingPackets,
    L: OpenListener,
    L::Stream: OpenStream + Read + Write + Drop,
    K: GatheringSink,
    A: AirWatch,
    V: Watch + Copy + Drop,
    requires { P.is_broken network.old ≡ false }
    ensures done { (c : Config) (start : Option (List ℕ)) → ChainStandsFor chain c → K.holds out.old start []
        → IfOk result (PassesAll (AirPlays c (held library.now) Untold) (P.left network.old)
        (K.holds out.new start)) }
    ensures devices { IfErr result IsOfDevices }
    ensures reads { P.leads network.old network.new }
    ensures leads { K.leads out.old out.new }
{
    let mut clients = Clients::new(listener);
    run_heard_on_air(chain, network, &mut clients, library, out, watch, hearing)
}

/// Runs [`run_events::services_told_on_air`] with the clients of the listener as the automation, likewise.
///
/// # Errors
///
/// As for [`run_events::services_told_on_air`].
pub fn services_listening_on_air<M, P, L, K, A, V>(
    services: AirServices<M>,
    network: &mut P,
    listener: &L,
    libraries: &[AdLibrary],
    out: &mut K,
    watch: &mut A,
    hearing: &mut Hearing<V>,
) -> Result<AirReport<ServiceReport>, RunFault>
where
    M: Allocator,
    P: PausingPackets,
    L: OpenListener,
    L::Stream: OpenStream + Read + Write + Drop,
    K: GatheringSink,
    A: ServicesWatch,
    V: Watch + Copy + Drop,
    requires { P.is_broken network.old ≡ false }
    ensures done { (cs : List Config) (start : Option (List ℕ)) → AirServicesStandFor services cs [] → AirServicesBegin services cs
        → length libraries.now ≡ length cs → K.holds out.old start []
        → IfOk result (PassesAll (AirServes (terms_by cs libraries.now) Untold)
        (P.left network.old) (K.holds out.new start)) }
    ensures devices { IfErr result IsOfDevices }
    ensures reads { P.leads network.old network.new }
    ensures leads { K.leads out.old out.new }
{
    let mut clients = Clients::new(listener);
    services_heard_on_air(
        services,
        network,
        &mut clients,
        libraries,
        out,
        watch,
        hearing,
    )
}
