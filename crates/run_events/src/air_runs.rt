//! Whole runs on air that are looked at between their packets.

ghost use Rattle.std.specs.Prelude.{◌≡◌, ℕ, List, ◌++◌, reverse, Option, Some, false, OnOk, IfOk, IfErr};
ghost use Rattle.ts_packet.specs.Packets.{packets_of};
ghost use Rattle.cued_laws.specs.Laws.{ArePacketsOfBytes};
ghost use Rattle.program_follower.specs.Purposes.{reading_cues, writing_cues};
ghost use Rattle.ad_library.specs.Library.{held};
ghost use Rattle.chain_engine.specs.Chains.{ChainStandsFor};
ghost use Rattle.chain_engine.specs.Runs.{Exchanged, Injected};
ghost use Rattle.chain_engine.specs.Splices.{Spliced};
ghost use Rattle.chain_engine.specs.ChainRuns.{Ran};
ghost use Rattle.on_air.specs.Plain.{IsSound, RunsPlainly, IsOfDevices};
ghost use Rattle.on_air.specs.AirRuns.{TellsStretches};
ghost use Rattle.on_air.specs.AirChains.{RanOnAir};
ghost use Rattle.on_air.specs.AirInjects.{InjectedOnAir};
ghost use Rattle.on_air.specs.AirSplices.{SplicedOnAir};

use crate::stage_air::run_air_told;
use crate::watch::Watch;
use ad_library::AdLibrary;
use chain_engine::{Automation, Chain, ChainStage, InjectorStage, Report, RunFault, SwitchStage};
use on_air::{AirReport, AirWatch};
use psi_tables::Config;
use splice_switch::SwitchReport;
use std::alloc::Allocator;
use ts_packet::{GatheringSink, PausingPackets};

/// Runs on air as [`on_air::run_on_air`] does, and tells of it.
///
/// # Errors
///
/// The fault of a device alone.
pub fn run_told_on_air<
    M: Allocator,
    P: PausingPackets,
    U: Automation,
    K: GatheringSink,
    A: AirWatch,
    W: Watch + Drop,
>(
    chain: Chain<M>,
    network: &mut P,
    automation: &mut U,
    library: &AdLibrary,
    out: &mut K,
    watch: &mut A,
    listener: W,
) -> Result<AirReport<Report>, RunFault>
    requires { P.is_broken network.old ≡ false }
    ensures sound { (c : Config) (start : Option (List ℕ)) (before : List (List ℕ)) (bs : List ℕ) → ChainStandsFor chain c
        → K.holds out.old start before → P.left network.old ≡ Some bs → IsSound (writing_cues c) bs
        → IfOk result (λ told. RunsPlainly (Ran c (held library.now) bs (λ ps. K.holds out.new start (before ++ ps))
        (Exchanged U.exchanges U.failures automation.old automation.new)) bs told) }
    ensures stretches { (c : Config) (start : Option (List ℕ)) (before : List (List ℕ)) (bs : List ℕ) → ChainStandsFor chain c
        → K.holds out.old start before → P.left network.old ≡ Some bs
        → IfOk result (λ told. TellsStretches told (writing_cues c) bs) }
    ensures out { (c : Config) (start : Option (List ℕ)) (before : List (List ℕ)) (bs : List ℕ) → ChainStandsFor chain c
        → K.holds out.old start before → P.left network.old ≡ Some bs
        → IfOk result (λ told. RanOnAir c (held library.now) bs (λ ps. K.holds out.new start (before ++ ps))
        (Exchanged U.exchanges U.failures automation.old automation.new) told.report) }
    ensures bytes { (bs : List ℕ) → P.left network.old ≡ Some bs → OnOk result (ArePacketsOfBytes (reverse (packets_of bs))) }
    ensures reads { P.leads network.old network.new }
    ensures leads { K.leads out.old out.new }
    ensures devices { IfErr result IsOfDevices }
{
    let mut chain = chain;
    let config = chain.config();
    let mut stage = ChainStage::new(&mut chain, automation, library, &config);
    run_air_told(&mut stage, network, out, watch, listener)
}

/// Runs on air as [`on_air::inject_on_air`] does, and tells of it.
///
/// # Errors
///
/// The fault of a device alone.
pub fn inject_told_on_air<
    M: Allocator,
    P: PausingPackets,
    U: Automation,
    K: GatheringSink,
    A: AirWatch,
    W: Watch + Drop,
>(
    chain: Chain<M>,
    network: &mut P,
    automation: &mut U,
    out: &mut K,
    watch: &mut A,
    listener: W,
) -> Result<AirReport<Report>, RunFault>
    requires { P.is_broken network.old ≡ false }
    ensures sound { (c : Config) (start : Option (List ℕ)) (before : List (List ℕ)) (bs : List ℕ) → ChainStandsFor chain c
        → K.holds out.old start before → P.left network.old ≡ Some bs → IsSound (writing_cues c) bs
        → IfOk result (λ told. RunsPlainly (Injected c bs (λ ps. K.holds out.new start (before ++ ps))
        (Exchanged U.exchanges U.failures automation.old automation.new)) bs told) }
    ensures stretches { (c : Config) (start : Option (List ℕ)) (before : List (List ℕ)) (bs : List ℕ) → ChainStandsFor chain c
        → K.holds out.old start before → P.left network.old ≡ Some bs
        → IfOk result (λ told. TellsStretches told (writing_cues c) bs) }
    ensures out { (c : Config) (start : Option (List ℕ)) (before : List (List ℕ)) (bs : List ℕ) → ChainStandsFor chain c
        → K.holds out.old start before → P.left network.old ≡ Some bs
        → IfOk result (λ told. InjectedOnAir c bs (λ ps. K.holds out.new start (before ++ ps))
        (Exchanged U.exchanges U.failures automation.old automation.new) told.report) }
    ensures bytes { (bs : List ℕ) → P.left network.old ≡ Some bs → OnOk result (ArePacketsOfBytes (reverse (packets_of bs))) }
    ensures reads { P.leads network.old network.new }
    ensures leads { K.leads out.old out.new }
    ensures devices { IfErr result IsOfDevices }
{
    let mut chain = chain;
    let config = chain.config();
    let mut stage = InjectorStage::new(&mut chain, automation, &config);
    run_air_told(&mut stage, network, out, watch, listener)
}

/// Runs on air as [`on_air::splice_on_air`] does, and tells of it.
///
/// # Errors
///
/// The fault of a device alone.
pub fn splice_told_on_air<P: PausingPackets, K: GatheringSink, A: AirWatch, W: Watch + Drop>(
    config: Config,
    network: &mut P,
    library: &AdLibrary,
    out: &mut K,
    watch: &mut A,
    listener: W,
) -> Result<AirReport<SwitchReport>, RunFault>
    requires { P.is_broken network.old ≡ false }
    ensures sound { (start : Option (List ℕ)) (before : List (List ℕ)) (bs : List ℕ) → K.holds out.old start before
        → P.left network.old ≡ Some bs → IsSound (reading_cues config) bs
        → IfOk result (RunsPlainly (Spliced config (held library.now) bs (λ ps. K.holds out.new start (before ++ ps))) bs) }
    ensures stretches { (start : Option (List ℕ)) (before : List (List ℕ)) (bs : List ℕ) → K.holds out.old start before
        → P.left network.old ≡ Some bs → IfOk result (λ told. TellsStretches told (reading_cues config) bs) }
    ensures out { (start : Option (List ℕ)) (before : List (List ℕ)) (bs : List ℕ) → K.holds out.old start before
        → P.left network.old ≡ Some bs
        → IfOk result (λ told. SplicedOnAir config (held library.now) bs (λ ps. K.holds out.new start (before ++ ps)) told.report) }
    ensures bytes { (bs : List ℕ) → P.left network.old ≡ Some bs → OnOk result (ArePacketsOfBytes (reverse (packets_of bs))) }
    ensures reads { P.leads network.old network.new }
    ensures leads { K.leads out.old out.new }
    ensures devices { IfErr result IsOfDevices }
{
    let mut stage = SwitchStage::new(config, library);
    run_air_told(&mut stage, network, out, watch, listener)
}
