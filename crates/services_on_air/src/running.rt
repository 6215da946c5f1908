//! Whole runs of several services on air.

ghost use Rattle.std.specs.Prelude.{◌≡◌, ℕ, List, [], ◌++◌, length, reverse, Option, Some, false, OnOk, IfOk, IfErr};
ghost use Rattle.ts_packet.specs.Packets.{packets_of};
ghost use Rattle.cued_laws.specs.Laws.{ArePacketsOfBytes};
ghost use Rattle.psi_tables.specs.declared.config.Config.{Config};
ghost use Rattle.on_air.specs.Plain.{IsOfDevices};
ghost use Rattle.service_laws.specs.Services.{ServiceTerms, configs_of};
ghost use Rattle.chain_engine.specs.Runs.{Exchanged};
ghost use Rattle.chain_services.specs.Serving.{FiledAs};
ghost use Rattle.services_on_air.specs.Standing.{AirServicesStandFor, TellsServices};
ghost use Rattle.services_on_air.specs.Serving.{AirServicesBegin};
ghost use Rattle.services_on_air.specs.Outputs.{ServicesOnAir};

use crate::services::AirServices;
use crate::watch::ServicesWatch;
use ad_library::AdLibrary;
use chain_engine::{Automation, RunFault};
use chain_services::ServiceReport;
use on_air::{AirReport, of_sink, read_next};
use std::alloc::Allocator;
use ts_packet::{GatheringSink, Packet, PausingPackets};

/// Passes a network of several programmes on, with the advertisements of each in the breaks that are asked for it, as
/// [`chain_services::run_services`] does, and goes on behind its faults. Each service has stretches of its own: a packet that is damaged for one
/// goes out as it came, and with one that is at fault otherwise a stretch of that service alone begins anew. Where two services share a PID, a
/// stretch of the later one begins anew behind the packet that makes it known. There are as many libraries as services.
///
/// # Errors
///
/// The fault of a device alone, at the packet where it came.
pub fn run_services_on_air<M, P, U, K, A>(
    services: AirServices<M>,
    network: &mut P,
    automation: &mut U,
    libraries: &[AdLibrary],
    out: &mut K,
    watch: &mut A,
) -> Result<AirReport<ServiceReport>, RunFault>
where
    M: Allocator,
    P: PausingPackets,
    U: Automation,
    K: GatheringSink,
    A: ServicesWatch,
    requires { P.is_broken network.old ≡ false }
    ensures stretches { (cs : List Config) (bs : List ℕ) → AirServicesStandFor services cs [] → length libraries.now ≡ length cs
        → P.left network.old ≡ Some bs → IfOk result (λ told. TellsServices told cs bs) }
    ensures out { (ts : List ServiceTerms) (start : Option (List ℕ)) (before : List (List ℕ)) (bs : List ℕ)
        → AirServicesStandFor services (configs_of ts) [] → AirServicesBegin services (configs_of ts) → FiledAs libraries.now ts
        → K.holds out.old start before → P.left network.old ≡ Some bs
        → IfOk result (λ told. ServicesOnAir ts bs (λ ps. K.holds out.new start (before ++ ps))
        (Exchanged U.exchanges U.failures automation.old automation.new) told) }
    ensures bytes { (bs : List ℕ) → P.left network.old ≡ Some bs → OnOk result (ArePacketsOfBytes (reverse (packets_of bs))) }
    ensures reads { P.leads network.old network.new }
    ensures leads { K.leads out.old out.new }
    ensures devices { IfErr result IsOfDevices }
{
    let mut services = services;
    let mut next = Packet::null();
    loop {
        match read_next(network, &mut next, out) {
            Ok(true) => {}
            Ok(false) => break,
            Err(fault) => return Err(fault),
        }
        match services.pass(&next, automation, libraries, out, watch) {
            Ok(()) => {}
            Err(fault) => return Err(of_sink(fault)),
        }
    }
    match services.finish(libraries, out, watch) {
        Ok(told) => Ok(told),
        Err(fault) => Err(of_sink(fault)),
    }
}
