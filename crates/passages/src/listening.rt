//! Runs whose automation is a client of a port of this machine.

ghost use Rattle.std.specs.Prelude.{◌≡◌, ℕ, ◌⊎◌, List, ◌++◌, length, Option, Err, false, OnOk, IfOk, IfErr};
ghost use Rattle.ts_packet.specs.Sources.{SourceCounts, Stalled, Exhausted};
ghost use Rattle.ts_packet.specs.Transfers.{WentWell};
ghost use Rattle.psi_tables.specs.declared.config.Config.{Config};
ghost use Rattle.ad_library.specs.Library.{held};
ghost use Rattle.chain_engine.specs.Chains.{ChainStandsFor};
ghost use Rattle.chain_engine.specs.Runs.{NetworkBlamed, OutputBlamed};
ghost use Rattle.chain_engine.specs.Splices.{NetworkBlamedToEnd};
ghost use Rattle.chain_services.specs.Serving.{services_in};
ghost use Rattle.chain_services.specs.Runs.{ServicesStandFor, terms_by};
ghost use Rattle.passages.specs.Runs.{PassesAll, Untold, Cues, CuesStop, Plays, PlaysStop, Serves, ServesStop, IfRan};

use crate::heard::{inject_heard, run_heard, services_heard};
use ad_library::AdLibrary;
use automations::accept;
use chain_engine::{Chain, Report, RunFault};
use chain_services::{ServiceReport, Services};
use run_events::{Hearing, Watch};
use std::alloc::Allocator;
use std::io::{Read, Write};
use std::net::{OpenListener, OpenStream};
use ts_packet::{GatheringSink, PausingPackets, ReadFault};

/// Why a run with a connection stopped.
#[derive(Clone, Copy, Debug, PartialEq, Eq, Drop)]
pub enum ListenFault {
    /// No connection was accepted, or it could not be set not to block, or its handle not be copied.
    Accept,
    /// The run stopped.
    Run(RunFault),
}

/// Waits for one client of the listener, and then runs [`run_events::inject_told`] with it as the automation. A read that finds nothing is an empty
/// piece; a reply that the client does not take at once ends its session.
///
/// # Errors
///
/// `Accept` where no connection was accepted, or it could not be set not to block, or its handle not be copied: the network and the output
/// are as they were then. `Run` as for [`run_events::inject_told`].
pub fn inject_listening<M, P, L, K, V>(
    chain: Chain<M>,
    network: &mut P,
    listener: &L,
    out: &mut K,
    hearing: &mut Hearing<V>,
) -> Result<Report, ListenFault>
where
    M: Allocator,
    P: PausingPackets,
    L: OpenListener,
    L::Stream: OpenStream + Read + Write + Drop,
    K: GatheringSink,
    V: Watch + Copy + Drop,
    requires { P.is_broken network.old ≡ false }
    ensures ok { (c : Config) (start : Option (List ℕ)) (before : List (List ℕ)) → ChainStandsFor chain c
        → K.holds out.old start before
        → IfOk result (PassesAll (Cues c Untold) (P.left network.old) (λ ps. K.holds out.new start (before ++ ps))) }
    ensures err { (c : Config) (start : Option (List ℕ)) (before : List (List ℕ)) → ChainStandsFor chain c
        → K.holds out.old start before
        → IfErr result (λ f. CuesStop c Untold f (P.left network.old) (λ ps. K.holds out.new start (before ++ ps))
        (λ ps. K.fails out.new start (before ++ ps)) (λ ps. K.fails_to_send out.new start (before ++ ps))) }
    ensures read { OnOk result (SourceCounts false (P.has_ended network.old) (P.has_ended network.new)
        (P.counts network.old) (P.counts network.new)) }
    ensures wrote { OnOk result (WentWell (K.counts out.old) (K.counts out.new)) }
    ensures reading { IfRan result (λ r. IfErr r (λ f. NetworkBlamed f
        (P.has_ended network.old) (P.has_ended network.new) (P.counts network.old) (P.counts network.new))) }
    ensures writing { IfRan result (λ r. IfErr r (λ f. OutputBlamed f
        (K.counts out.old) (K.counts out.new) (K.is_full out.new))) }
    ensures turns { result ≡ Err (ListenFault.Run (RunFault.Read ReadFault.Turns))
        → Stalled P.leads P.counts P.falls_short network.old network.new ⊎ Exhausted P.left P.given network.old }
    ensures accept { result ≡ Err ListenFault.Accept → (network.new ≡ network.old) × (out.new ≡ out.old) }
    ensures reads { P.leads network.old network.new }
    ensures leads { K.leads out.old out.new }
{
    let Some(mut client) = accept(listener) else {
        return Err(ListenFault::Accept);
    };
    match inject_heard(chain, network, &mut client, out, hearing) {
        Ok(report) => Ok(report),
        Err(fault) => Err(ListenFault::Run(fault)),
    }
}

/// Waits for one client of the listener, and then runs [`run_events::run_told`] with it as the automation, likewise.
///
/// # Errors
///
/// `Accept` as for [`inject_listening`], and `Run` as for [`run_events::run_told`].
pub fn run_listening<M, P, L, K, V>(
    chain: Chain<M>,
    network: &mut P,
    listener: &L,
    library: &AdLibrary,
    out: &mut K,
    hearing: &mut Hearing<V>,
) -> Result<Report, ListenFault>
where
    M: Allocator,
    P: PausingPackets,
    L: OpenListener,
    L::Stream: OpenStream + Read + Write + Drop,
    K: GatheringSink,
    V: Watch + Copy + Drop,
    requires { P.is_broken network.old ≡ false }
    ensures ok { (c : Config) (start : Option (List ℕ)) (before : List (List ℕ)) → ChainStandsFor chain c
        → K.holds out.old start before → IfOk result (PassesAll (Plays c (held library.now) Untold) (P.left network.old)
        (λ ps. K.holds out.new start (before ++ ps))) }
    ensures err { (c : Config) (start : Option (List ℕ)) (before : List (List ℕ)) → ChainStandsFor chain c
        → K.holds out.old start before → IfErr result (λ f. PlaysStop c (held library.now) Untold f (P.left network.old)
        (λ ps. K.holds out.new start (before ++ ps)) (λ ps. K.fails out.new start (before ++ ps))
        (λ ps. K.fails_to_send out.new start (before ++ ps))) }
    ensures read { OnOk result (SourceCounts false (P.has_ended network.old) (P.has_ended network.new)
        (P.counts network.old) (P.counts network.new)) }
    ensures wrote { OnOk result (WentWell (K.counts out.old) (K.counts out.new)) }
    ensures reading { IfRan result (λ r. IfErr r (λ f. NetworkBlamedToEnd f
        (P.has_ended network.old) (P.has_ended network.new) (P.counts network.old) (P.counts network.new))) }
    ensures writing { IfRan result (λ r. IfErr r (λ f. OutputBlamed f
        (K.counts out.old) (K.counts out.new) (K.is_full out.new))) }
    ensures turns { result ≡ Err (ListenFault.Run (RunFault.Read ReadFault.Turns))
        → Stalled P.leads P.counts P.falls_short network.old network.new ⊎ Exhausted P.left P.given network.old }
    ensures accept { result ≡ Err ListenFault.Accept → (network.new ≡ network.old) × (out.new ≡ out.old) }
    ensures reads { P.leads network.old network.new }
    ensures leads { K.leads out.old out.new }
{
    let Some(mut connection) = accept(listener) else {
        return Err(ListenFault::Accept);
    };
    match run_heard(chain, network, &mut connection, library, out, hearing) {
        Ok(report) => Ok(report),
        Err(fault) => Err(ListenFault::Run(fault)),
    }
}

/// Waits for one client of the listener, and then runs [`run_events::services_told`] with it as the automation, likewise.
///
/// # Errors
///
/// `Accept` as for [`inject_listening`], and `Run` as for [`run_events::services_told`].
pub fn services_listening<M, P, L, K, V>(
    services: Services<M>,
    network: &mut P,
    listener: &L,
    libraries: &[AdLibrary],
    out: &mut K,
    hearing: &mut Hearing<V>,
) -> Result<ServiceReport, ListenFault>
where
    M: Allocator,
    P: PausingPackets,
    L: OpenListener,
    L::Stream: OpenStream + Read + Write + Drop,
    K: GatheringSink,
    V: Watch + Copy + Drop,
    requires unbroken { P.is_broken network.old ≡ false }
    requires libraries { length libraries.now ≡ length (services_in services.desk) }
    ensures ok { (cs : List Config) (start : Option (List ℕ)) (before : List (List ℕ)) → ServicesStandFor services cs
        → K.holds out.old start before → IfOk result (PassesAll (Serves (terms_by cs libraries.now) Untold) (P.left network.old)
        (λ ps. K.holds out.new start (before ++ ps))) }
    ensures err { (cs : List Config) (start : Option (List ℕ)) (before : List (List ℕ)) → ServicesStandFor services cs
        → K.holds out.old start before → IfErr result (λ f. ServesStop (terms_by cs libraries.now) Untold f (P.left network.old)
        (λ ps. K.holds out.new start (before ++ ps)) (λ ps. K.fails out.new start (before ++ ps))
        (λ ps. K.fails_to_send out.new start (before ++ ps))) }
    ensures read { OnOk result (SourceCounts false (P.has_ended network.old) (P.has_ended network.new)
        (P.counts network.old) (P.counts network.new)) }
    ensures wrote { OnOk result (WentWell (K.counts out.old) (K.counts out.new)) }
    ensures reading { IfRan result (λ r. IfErr r (λ f. NetworkBlamedToEnd f
        (P.has_ended network.old) (P.has_ended network.new) (P.counts network.old) (P.counts network.new))) }
    ensures writing { IfRan result (λ r. IfErr r (λ f. OutputBlamed f
        (K.counts out.old) (K.counts out.new) (K.is_full out.new))) }
    ensures turns { result ≡ Err (ListenFault.Run (RunFault.Read ReadFault.Turns))
        → Stalled P.leads P.counts P.falls_short network.old network.new ⊎ Exhausted P.left P.given network.old }
    ensures accept { result ≡ Err ListenFault.Accept → (network.new ≡ network.old) × (out.new ≡ out.old) }
    ensures reads { P.leads network.old network.new }
    ensures leads { K.leads out.old out.new }
{
    let Some(mut automation) = accept(listener) else {
        return Err(ListenFault::Accept);
    };
    match services_heard(services, network, &mut automation, libraries, out, hearing) {
        Ok(report) => Ok(report),
        Err(fault) => Err(ListenFault::Run(fault)),
    }
}
