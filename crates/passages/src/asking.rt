//! Runs with cues whose messages come from a script or from a client of a port, with advertisements or without, on air or not.

ghost use Rattle.std.specs.Prelude.{◌≡◌, ℕ, ◌⊎◌, List, [], length, Option, Err, false, nat_lt, OnOk, IfOk, IfErr};
ghost use Rattle.ts_packet.specs.Sources.{SourceCounts, Stalled, Exhausted};
ghost use Rattle.ts_packet.specs.Transfers.{WentWell};
ghost use Rattle.psi_tables.specs.declared.config.Config.{Config};
ghost use Rattle.ad_library.specs.Library.{held};
ghost use Rattle.chain_engine.specs.Chains.{ChainStandsFor};
ghost use Rattle.chain_engine.specs.Runs.{NetworkBlamed, OutputBlamed};
ghost use Rattle.chain_engine.specs.Splices.{NetworkBlamedToEnd};
ghost use Rattle.chain_services.specs.Serving.{services_in};
ghost use Rattle.chain_services.specs.Runs.{ServicesStandFor, terms_by};
ghost use Rattle.on_air.specs.Plain.{IsOfDevices};
ghost use Rattle.passages.specs.Runs.{PassesAll, AskerTells, CuesStop, Cues, PlaysStop, Plays, ServesStop};
ghost use Rattle.passages.specs.Runs.{Serves, IfRan, IsPort, told_fault, lost_replies};
ghost use Rattle.services_on_air.specs.Standing.{AirServicesStandFor};
ghost use Rattle.services_on_air.specs.Serving.{AirServicesBegin};
ghost use Rattle.passages.specs.AirRuns.{AirCues, AirPlays, AirServes};

use crate::air_heard::{inject_heard_on_air, run_heard_on_air, services_heard_on_air};
use crate::air_listening::{
    inject_listening_on_air, run_listening_on_air, services_listening_on_air,
};
use crate::fault::ProgramFault;
use crate::heard::{inject_heard, run_heard, services_heard};
use crate::listening::{ListenFault, inject_listening, run_listening, services_listening};
use ad_library::AdLibrary;
use automations::{LateLines, Script};
use chain_engine::{Chain, Report, RunFault};
use chain_services::{ServiceReport, Services};
use on_air::{AirReport, AirWatch};
use run_events::{Hearing, Watch};
use services_on_air::{AirServices, ServicesWatch};
use std::io::{Read, Write};
use std::net::{OpenListener, OpenStream};
use ts_packet::{GatheringSink, PausingPackets, ReadFault};

/// Where the messages of a run come from: a script, or the next client of a listener.
#[derive(Drop)]
pub enum Asker<W, L> {
    Script(Script<W>),
    Port(L),
}

impl<W, L> Asker<W, L> {
    /// The lines of a script whose bytes never come in a network of so many packets, where there are any.
    pub fn late_lines(&self, packets: u64) -> Option<LateLines> {
        match self {
            Asker::Script(script) => script.late_lines(packets),
            Asker::Port(_) => None,
        }
    }

    /// Whether a reply could not be printed.
    pub fn has_lost_a_reply(&self) -> bool
        ensures { result ≡ nat_lt 0 (lost_replies self.now) }
    {
        match self {
            Asker::Script(script) => script.has_lost_a_reply(),
            Asker::Port(_) => false,
        }
    }
}

/// Runs with cues by this automation.
///
/// # Errors
///
/// `Accept` where the messages come from a port, and no connection was accepted, or it could not be set not to block, or its handle not be
/// copied: the network and the output are as they were then. `Run` as for [`run_events::inject_told`].
#[inline(always)]
pub fn cue<P, K, W, L, V>(
    chain: Chain,
    network: &mut P,
    asker: &mut Asker<W, L>,
    out: &mut K,
    hearing: &mut Hearing<V>,
) -> Result<Report, ListenFault>
where
    P: PausingPackets,
    K: GatheringSink,
    W: Write,
    L: OpenListener,
    L::Stream: OpenStream + Read + Write + Drop,
    V: Watch + Copy + Drop,
    requires { P.is_broken network.old ≡ false }
    ensures done { (c : Config) (start : Option (List ℕ)) → ChainStandsFor chain c → K.holds out.old start []
        → IfOk result (PassesAll (Cues c (AskerTells W.contents asker.old asker.new)) (P.left network.old) (K.holds out.new start)) }
    ensures stop { (c : Config) (start : Option (List ℕ)) → ChainStandsFor chain c → K.holds out.old start []
        → IfErr result (λ f. CuesStop c (AskerTells W.contents asker.old asker.new) f (P.left network.old)
        (K.holds out.new start) (K.fails out.new start) (K.fails_to_send out.new start)) }
    ensures read { OnOk result (SourceCounts false (P.has_ended network.old) (P.has_ended network.new)
        (P.counts network.old) (P.counts network.new)) }
    ensures wrote { OnOk result (WentWell (K.counts out.old) (K.counts out.new)) }
    ensures reading { IfRan result (λ r. IfErr r (λ f. NetworkBlamed f
        (P.has_ended network.old) (P.has_ended network.new) (P.counts network.old) (P.counts network.new))) }
    ensures writing { IfRan result (λ r. IfErr r (λ f. OutputBlamed f
        (K.counts out.old) (K.counts out.new) (K.is_full out.new))) }
    ensures turns { result ≡ Err (ListenFault.Run (RunFault.Read ReadFault.Turns))
        → Stalled P.leads P.counts P.falls_short network.old network.new ⊎ Exhausted P.left P.given network.old }
    ensures accept { result ≡ Err ListenFault.Accept → (network.new ≡ network.old) × (out.new ≡ out.old) }
    ensures port { result ≡ Err ListenFault.Accept → IsPort asker.old }
    ensures reads { P.leads network.old network.new }
    ensures leads { K.leads out.old out.new }
{
    match asker {
        Asker::Script(script) => {
            match inject_heard(chain, network, script, out, hearing) {
                Ok(report) => Ok(report),
                Err(fault) => Err(ListenFault::Run(fault)),
            }
        }
        Asker::Port(listener) => inject_listening(chain, network, listener, out, hearing),
    }
}

/// Runs with cues by this automation, and with the advertisements of a library.
///
/// # Errors
///
/// `Accept` as for [`cue`], and `Run` as for [`run_events::run_told`].
#[inline(always)]
pub fn play<P, K, W, L, V>(
    chain: Chain,
    network: &mut P,
    asker: &mut Asker<W, L>,
    library: &AdLibrary,
    out: &mut K,
    hearing: &mut Hearing<V>,
) -> Result<Report, ListenFault>
where
    P: PausingPackets,
    K: GatheringSink,
    W: Write,
    L: OpenListener,
    L::Stream: OpenStream + Read + Write + Drop,
    V: Watch + Copy + Drop,
    requires { P.is_broken network.old ≡ false }
    ensures done { (c : Config) (start : Option (List ℕ)) → ChainStandsFor chain c → K.holds out.old start []
        → IfOk result (PassesAll (Plays c (held library.now) (AskerTells W.contents asker.old asker.new))
        (P.left network.old) (K.holds out.new start)) }
    ensures stop { (c : Config) (start : Option (List ℕ)) → ChainStandsFor chain c → K.holds out.old start []
        → IfErr result (λ f. PlaysStop c (held library.now) (AskerTells W.contents asker.old asker.new) f (P.left network.old)
        (K.holds out.new start) (K.fails out.new start) (K.fails_to_send out.new start)) }
    ensures read { OnOk result (SourceCounts false (P.has_ended network.old) (P.has_ended network.new)
        (P.counts network.old) (P.counts network.new)) }
    ensures wrote { OnOk result (WentWell (K.counts out.old) (K.counts out.new)) }
    ensures reading { IfRan result (λ r. IfErr r (λ f. NetworkBlamedToEnd f
        (P.has_ended network.old) (P.has_ended network.new) (P.counts network.old) (P.counts network.new))) }
    ensures writing { IfRan result (λ r. IfErr r (λ f. OutputBlamed f
        (K.counts out.old) (K.counts out.new) (K.is_full out.new))) }
    ensures turns { result ≡ Err (ListenFault.Run (RunFault.Read ReadFault.Turns))
        → Stalled P.leads P.counts P.falls_short network.old network.new ⊎ Exhausted P.left P.given network.old }
    ensures accept { result ≡ Err ListenFault.Accept → (network.new ≡ network.old) × (out.new ≡ out.old) }
    ensures port { result ≡ Err ListenFault.Accept → IsPort asker.old }
    ensures reads { P.leads network.old network.new }
    ensures leads { K.leads out.old out.new }
{
    match asker {
        Asker::Script(script) => {
            match run_heard(chain, network, script, library, out, hearing) {
                Ok(report) => Ok(report),
                Err(fault) => Err(ListenFault::Run(fault)),
            }
        }
        Asker::Port(listener) => { run_listening(chain, network, listener, library, out, hearing) }
    }
}

/// Runs on air with cues by this automation: no fault of the network ends the run, and it waits for no client.
///
/// # Errors
///
/// As for [`run_events::inject_told_on_air`].
pub fn cue_on_air<P, K, W, L, A, V>(
    chain: Chain,
    network: &mut P,
    asker: &mut Asker<W, L>,
    out: &mut K,
    watch: &mut A,
    hearing: &mut Hearing<V>,
) -> Result<AirReport<Report>, RunFault>
where
    P: PausingPackets,
    K: GatheringSink,
    W: Write,
    L: OpenListener,
    L::Stream: OpenStream + Read + Write + Drop,
    A: AirWatch,
    V: Watch + Copy + Drop,
    requires { P.is_broken network.old ≡ false }
    ensures done { (c : Config) (start : Option (List ℕ)) → ChainStandsFor chain c → K.holds out.old start []
        → IfOk result (PassesAll (AirCues c (AskerTells W.contents asker.old asker.new)) (P.left network.old)
        (K.holds out.new start)) }
    ensures devices { IfErr result IsOfDevices }
    ensures reads { P.leads network.old network.new }
    ensures leads { K.leads out.old out.new }
{
    match asker {
        Asker::Script(script) => {
            inject_heard_on_air(chain, network, script, out, watch, hearing)
        }
        Asker::Port(listener) => {
            inject_listening_on_air(chain, network, listener, out, watch, hearing)
        }
    }
}

/// Runs on air with cues by this automation, and with the advertisements of a library, likewise.
///
/// # Errors
///
/// As for [`run_events::run_told_on_air`].
pub fn play_on_air<P, K, W, L, A, V>(
    chain: Chain,
    network: &mut P,
    asker: &mut Asker<W, L>,
    library: &AdLibrary,
    out: &mut K,
    watch: &mut A,
    hearing: &mut Hearing<V>,
) -> Result<AirReport<Report>, RunFault>
where
    P: PausingPackets,
    K: GatheringSink,
    W: Write,
    L: OpenListener,
    L::Stream: OpenStream + Read + Write + Drop,
    A: AirWatch,
    V: Watch + Copy + Drop,
    requires { P.is_broken network.old ≡ false }
    ensures done { (c : Config) (start : Option (List ℕ)) → ChainStandsFor chain c → K.holds out.old start []
        → IfOk result (PassesAll (AirPlays c (held library.now) (AskerTells W.contents asker.old asker.new)) (P.left network.old)
        (K.holds out.new start)) }
    ensures devices { IfErr result IsOfDevices }
    ensures reads { P.leads network.old network.new }
    ensures leads { K.leads out.old out.new }
{
    match asker {
        Asker::Script(script) => {
            run_heard_on_air(chain, network, script, library, out, watch, hearing)
        }
        Asker::Port(listener) => {
            run_listening_on_air(chain, network, listener, library, out, watch, hearing)
        }
    }
}

/// Runs several services by this automation, with the advertisements of a library each.
///
/// # Errors
///
/// `Accept` as for [`cue`], and `Run` as for [`run_events::services_told`].
#[inline(always)]
pub fn serve<P, K, W, L, V>(
    services: Services,
    network: &mut P,
    asker: &mut Asker<W, L>,
    libraries: &[AdLibrary],
    out: &mut K,
    hearing: &mut Hearing<V>,
) -> Result<ServiceReport, ListenFault>
where
    P: PausingPackets,
    K: GatheringSink,
    W: Write,
    L: OpenListener,
    L::Stream: OpenStream + Read + Write + Drop,
    V: Watch + Copy + Drop,
    requires unbroken { P.is_broken network.old ≡ false }
    requires libraries { length libraries.now ≡ length (services_in services.desk) }
    ensures done { (cs : List Config) (start : Option (List ℕ)) → ServicesStandFor services cs → K.holds out.old start []
        → IfOk result (PassesAll (Serves (terms_by cs libraries.now) (AskerTells W.contents asker.old asker.new))
        (P.left network.old) (K.holds out.new start)) }
    ensures stop { (cs : List Config) (start : Option (List ℕ)) → ServicesStandFor services cs → K.holds out.old start []
        → IfErr result (λ f. ServesStop (terms_by cs libraries.now) (AskerTells W.contents asker.old asker.new) f
        (P.left network.old) (K.holds out.new start) (K.fails out.new start) (K.fails_to_send out.new start)) }
    ensures read { OnOk result (SourceCounts false (P.has_ended network.old) (P.has_ended network.new)
        (P.counts network.old) (P.counts network.new)) }
    ensures wrote { OnOk result (WentWell (K.counts out.old) (K.counts out.new)) }
    ensures reading { IfRan result (λ r. IfErr r (λ f. NetworkBlamedToEnd f
        (P.has_ended network.old) (P.has_ended network.new) (P.counts network.old) (P.counts network.new))) }
    ensures writing { IfRan result (λ r. IfErr r (λ f. OutputBlamed f
        (K.counts out.old) (K.counts out.new) (K.is_full out.new))) }
    ensures turns { result ≡ Err (ListenFault.Run (RunFault.Read ReadFault.Turns))
        → Stalled P.leads P.counts P.falls_short network.old network.new ⊎ Exhausted P.left P.given network.old }
    ensures accept { result ≡ Err ListenFault.Accept → (network.new ≡ network.old) × (out.new ≡ out.old) }
    ensures port { result ≡ Err ListenFault.Accept → IsPort asker.old }
    ensures reads { P.leads network.old network.new }
    ensures leads { K.leads out.old out.new }
{
    match asker {
        Asker::Script(script) => {
            match services_heard(services, network, script, libraries, out, hearing) {
                Ok(report) => Ok(report),
                Err(fault) => Err(ListenFault::Run(fault)),
            }
        }
        Asker::Port(listener) => {
            services_listening(services, network, listener, libraries, out, hearing)
        }
    }
}

/// Runs several services on air by this automation: no fault of the network ends the run, and it waits for no client.
///
/// # Errors
///
/// As for [`run_events::services_told_on_air`].
pub fn serve_on_air<P, K, W, L, A, V>(
    services: AirServices,
    network: &mut P,
    asker: &mut Asker<W, L>,
    libraries: &[AdLibrary],
    out: &mut K,
    watch: &mut A,
    hearing: &mut Hearing<V>,
) -> Result<AirReport<ServiceReport>, RunFault>
where
    P: PausingPackets,
    K: GatheringSink,
    W: Write,
    L: OpenListener,
    L::Stream: OpenStream + Read + Write + Drop,
    A: ServicesWatch,
    V: Watch + Copy + Drop,
    requires { P.is_broken network.old ≡ false }
    ensures done { (cs : List Config) (start : Option (List ℕ)) → AirServicesStandFor services cs [] → AirServicesBegin services cs
        → length libraries.now ≡ length cs → K.holds out.old start []
        → IfOk result (PassesAll (AirServes (terms_by cs libraries.now) (AskerTells W.contents asker.old asker.new))
        (P.left network.old) (K.holds out.new start)) }
    ensures devices { IfErr result IsOfDevices }
    ensures reads { P.leads network.old network.new }
    ensures leads { K.leads out.old out.new }
{
    match asker {
        Asker::Script(script) => {
            services_heard_on_air(services, network, script, libraries, out, watch, hearing)
        }
        Asker::Port(listener) => {
            services_listening_on_air(services, network, listener, libraries, out, watch, hearing)
        }
    }
}

/// What the program tells of such a fault.
pub fn told_fault(fault: ListenFault) -> ProgramFault
    ensures { result ≡ told_fault fault }
{
    match fault {
        ListenFault::Accept => ProgramFault::Accept,
        ListenFault::Run(fault) => ProgramFault::Run(fault),
    }
}
