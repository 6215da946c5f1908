//! Whole runs on air: up to the network's first fault as any other, and behind it stretch by stretch.

ghost use Rattle.std.specs.Prelude.{◌≡◌, ◌<◌, ◌^◌, ◌+◌, cond, ℕ, List, [], ◌++◌, reverse, Option, None, Some, false, OnOk, IfOk, IfErr};
ghost use Rattle.ts_packet.specs.Packets.{packets_of};
ghost use Rattle.ts_packet.specs.Sources.{GivesInto};
ghost use Rattle.program_follower.specs.declared.purpose.Purpose.{Purpose};
ghost use Rattle.packet_runs.specs.Stages.{Ended};
ghost use Rattle.ts_packet.specs.FirstFault.{first_fault};
ghost use Rattle.packet_runs.specs.Stops.{refusal_test};
ghost use Rattle.program_follower.specs.Purposes.{reading_cues, writing_cues};
ghost use Rattle.wire_fields.specs.Numbers.{AreBytes};
ghost use Rattle.cued_laws.specs.Laws.{ArePacketsOfBytes};
ghost use Rattle.ad_library.specs.Library.{held};
ghost use Rattle.chain_engine.specs.Chains.{ChainStandsFor};
ghost use Rattle.chain_engine.specs.Runs.{Exchanged, Injected};
ghost use Rattle.chain_engine.specs.Splices.{Spliced};
ghost use Rattle.chain_engine.specs.ChainRuns.{Ran};
ghost use Rattle.on_air.specs.Plain.{IsPlain, IsToldPlain, GoesPlainly, IsSound, RunsPlainly, IsOfDevices};
ghost use Rattle.on_air.specs.Stretches.{Entry, as_read};
ghost use Rattle.on_air.specs.AirRuns.{AirStands, TellsOf, TellsStretches, newest, all_next};
ghost use Rattle.on_air.specs.AirOutputs.{IsOnAir, EndsOnAir, stretches_in};
ghost use Rattle.on_air.specs.AirChains.{RanOnAir};
ghost use Rattle.on_air.specs.AirInjects.{InjectedOnAir};
ghost use Rattle.on_air.specs.AirSplices.{SplicedOnAir};

use crate::air::Air;
use crate::report::AirReport;
use crate::watch::AirWatch;
use ad_library::AdLibrary;
use chain_engine::{
    AirStage, Automation, Chain, ChainStage, InjectorStage, Report, RunFault, SwitchStage, of_bytes,
};
use packet_runs::{Stage, StageFault, Stop};
use psi_tables::{Config, FeedFault};
use splice_plans::SwitchReport;
use std::alloc::Allocator;
use ts_packet::{GatheringSink, Packet, PausingPackets, PutFault};

/// The fault of a run whose sink failed so.
pub fn of_sink(fault: PutFault) -> RunFault
    ensures { result ≡ RunFault.Feed (FeedFault.Sink fault) }
{
    RunFault::Feed(FeedFault::Sink(fault))
}

/// Sends what the sink keeps back, where the read of the next packet may wait, and reads that packet; false at the network's end.
///
/// # Errors
///
/// The fault of the device that failed.
#[inline(always)]
pub fn read_next<P: PausingPackets, K: GatheringSink>(
    network: &mut P,
    next: &mut Packet,
    out: &mut K,
) -> Result<bool, RunFault>
    ensures read { IfOk result (λ more. GivesInto (P.left network.old) (P.left network.new) more next.new) }
    ensures given { IfOk result (λ more. (P.given network.new ≡ P.given network.old + cond more 1 0) × (P.given network.new < 2 ^ 64)) }
    ensures held { (start : Option (List ℕ)) (ps : List (List ℕ)) → K.holds out.old start ps → OnOk result (K.holds out.new start ps) }
    ensures bytes { OnOk result (AreBytes next.new) }
    ensures reads { P.leads network.old network.new }
    ensures leads { K.leads out.old out.new }
    ensures devices { IfErr result IsOfDevices }
{
    if network.next_may_wait() {
        match out.send() {
            Ok(()) => {}
            Err(fault) => return Err(of_sink(fault)),
        }
    }
    match network.read_packet(next) {
        Ok(more) => {
            of_bytes(next);
            Ok(more)
        }
        Err(fault) => Err(RunFault::Read(fault)),
    }
}

/// Puts what is left at the end, and tells of all stretches.
fn finish<S, R, K>(air: &Air<R>, stage: &mut S, out: &mut K) -> Result<AirReport<R>, RunFault>
where
    S: AirStage<Report = R>,
    R: Copy + Drop,
    K: GatheringSink,
    ensures plain { (first : S) (ps qs : List (List ℕ)) (kept : List ℕ) (start : Option (List ℕ)) (before : List (List ℕ))
        → S.sends first ps qs kept stage.old → K.holds out.old start (before ++ qs) → IsPlain air.now ps
        → IfOk result (λ told. (report : R) × IsToldPlain told ps report
        × Ended S.ends first ps report stage.new (λ l. K.holds out.new start (before ++ l))) }
    ensures told { IfOk result (λ told. (told.stretches ≡ air.now.stretches) × (told.unjudged ≡ air.now.unjudged)) }
    ensures out { (first : S) (c : Purpose) (ss : List (List Entry)) (start : Option (List ℕ)) (before : List (List ℕ))
        → IsOnAir S.summed (S.airs first) air.now stage.old c ss (λ l. K.holds out.old start (before ++ l))
        → IfOk result (λ told. EndsOnAir S.summed (S.airs_to_end first) c ss told.report stage.new (λ l. K.holds out.new start (before ++ l))) }
    ensures stage { S.Stage.leads stage.old stage.new }
    ensures leads { K.leads out.old out.new }
    ensures devices { IfErr result IsOfDevices }
{
    match stage.finish_last(out) {
        Ok(report) => Ok(air.told::<S>(report)),
        Err(fault) => Err(of_sink(fault)),
    }
}

/// Passes on the rest of the network, stretch by stretch.
fn go_on<S, R, P, K, A>(
    air: &mut Air<R>,
    stage: &mut S,
    network: &mut P,
    out: &mut K,
    watch: &mut A,
) -> Result<AirReport<R>, RunFault>
where
    S: AirStage<Report = R>,
    R: Copy + Drop,
    P: PausingPackets,
    K: GatheringSink,
    A: AirWatch,
    ensures stretches { (c : Purpose) (ss : List (List Entry)) (bs : List ℕ) → AirStands air.old c ss
        → S.follows stage.old c (as_read (newest ss)) → P.left network.old ≡ Some bs
        → IfOk result (λ told. TellsOf told (all_next c (packets_of bs) ss)) }
    ensures out { (first : S) (c : Purpose) (ss : List (List Entry)) (start : Option (List ℕ)) (before : List (List ℕ)) (bs : List ℕ)
        → AirStands air.old c ss → S.follows stage.old c (as_read (newest ss))
        → IsOnAir S.summed (S.airs first) air.old stage.old c ss (λ l. K.holds out.old start (before ++ l)) → P.left network.old ≡ Some bs
        → IfOk result (λ told. EndsOnAir S.summed (S.airs_to_end first) c (all_next c (packets_of bs) ss) told.report stage.new
        (λ l. K.holds out.new start (before ++ l))) }
    ensures bytes { (bs : List ℕ) → P.left network.old ≡ Some bs → OnOk result (ArePacketsOfBytes (reverse (packets_of bs))) }
    ensures stage { S.Stage.leads stage.old stage.new }
    ensures reads { P.leads network.old network.new }
    ensures leads { K.leads out.old out.new }
    ensures devices { IfErr result IsOfDevices }
{
    let mut next = Packet::null();
    loop {
        match read_next(network, &mut next, out) {
            Ok(true) => {}
            Ok(false) => break,
            Err(fault) => return Err(fault),
        }
        match air.pass(stage, &next, out, watch) {
            Ok(()) => {}
            Err(fault) => return Err(of_sink(fault)),
        }
    }
    finish(air, stage, out)
}

/// Runs a stage on air: passes on the packets up to the first that is at fault, and the rest of the network stretch by stretch.
///
/// # Errors
///
/// The fault of a device alone, at the packet where it came.
pub fn run_air<S, R, P, K, A>(
    stage: &mut S,
    network: &mut P,
    out: &mut K,
    watch: &mut A,
) -> Result<AirReport<R>, RunFault>
where
    S: AirStage<Report = R>,
    R: Copy + Drop,
    P: PausingPackets,
    K: GatheringSink,
    A: AirWatch,
    ensures sound { (start : Option (List ℕ)) (before : List (List ℕ)) (bs : List ℕ)
        → ((kept : List ℕ) → S.sends stage.old [] [] kept stage.old) → K.holds out.old start before → P.left network.old ≡ Some bs
        → first_fault Stop.Read (refusal_test (S.refusal stage.old)) bs ≡ None
        → IfOk result (λ told. GoesPlainly (S.ends stage.old) bs told stage.new (λ l. K.holds out.new start (before ++ l))) }
    ensures stretches { (c : Purpose) (start : Option (List ℕ)) (before : List (List ℕ)) (bs : List ℕ) → S.begins stage.old c
        → ((kept : List ℕ) → S.sends stage.old [] [] kept stage.old) → K.holds out.old start before → P.left network.old ≡ Some bs
        → IfOk result (λ told. TellsStretches told c bs) }
    ensures out { (c : Purpose) (start : Option (List ℕ)) (before : List (List ℕ)) (bs : List ℕ) → S.begins stage.old c → S.tells_out stage.old
        → ((kept : List ℕ) → S.sends stage.old [] [] kept stage.old) → K.holds out.old start before → P.left network.old ≡ Some bs
        → IfOk result (λ told. EndsOnAir S.summed (S.airs_to_end stage.old) c (stretches_in c bs) told.report stage.new
        (λ l. K.holds out.new start (before ++ l))) }
    ensures bytes { (bs : List ℕ) → P.left network.old ≡ Some bs → OnOk result (ArePacketsOfBytes (reverse (packets_of bs))) }
    ensures stage { S.Stage.leads stage.old stage.new }
    ensures reads { P.leads network.old network.new }
    ensures leads { K.leads out.old out.new }
    ensures devices { IfErr result IsOfDevices }
{
    let mut air = Air::new();
    let (mut next, mut kept) = (Packet::null(), Packet::null());
    loop {
        match read_next(network, &mut next, out) {
            Ok(true) => {}
            Ok(false) => break,
            Err(fault) => return Err(fault),
        }
        if stage.look(&next).is_some() {
            match air.pass(stage, &next, out, watch) {
                Ok(()) => return go_on(&mut air, stage, network, out, watch),
                Err(fault) => return Err(of_sink(fault)),
            }
        }
        air.take(stage, &next);
        match stage.step(&mut next, &kept, out) {
            Ok(true) => kept = next,
            Ok(false) => {}
            Err(StageFault::Packet(_)) => return Err(of_sink(PutFault::Failed)),
            Err(StageFault::Sink(fault)) => return Err(of_sink(fault)),
        }
    }
    finish(&air, stage, out)
}

/// Passes a network on, with advertisements in the breaks that the automation asks for, as [`chain_engine::run`] does, and goes on behind its
/// faults: a damaged packet goes out as it came, and behind any other fault a stretch begins anew, as a run of its own.
///
/// # Errors
///
/// The fault of a device alone, at the packet where it came.
pub fn run_on_air<M: Allocator, P: PausingPackets, U: Automation, K: GatheringSink, A: AirWatch>(
    chain: Chain<M>,
    network: &mut P,
    automation: &mut U,
    library: &AdLibrary,
    out: &mut K,
    watch: &mut A,
) -> Result<AirReport<Report>, RunFault>
    requires { P.is_broken network.old ≡ false }
    ensures sound { (c : Config) (start : Option (List ℕ)) (before : List (List ℕ)) (bs : List ℕ) → ChainStandsFor chain c
        → K.holds out.old start before → P.left network.old ≡ Some bs → IsSound (writing_cues c) bs
        → IfOk result (λ told. RunsPlainly (Ran c (held library.now) bs (λ ps. K.holds out.new start (before ++ ps))
        (Exchanged U.exchanges U.failures automation.old automation.new)) bs told) }
    ensures stretches { (c : Config) (start : Option (List ℕ)) (before : List (List ℕ)) (bs : List ℕ) → ChainStandsFor chain c
        → K.holds out.old start before → P.left network.old ≡ Some bs
        → IfOk result (λ told. TellsStretches told (writing_cues c) bs) }
    ensures out { (c : Config) (start : Option (List ℕ)) (before : List (List ℕ)) (bs : List ℕ) → ChainStandsFor chain c
        → K.holds out.old start before → P.left network.old ≡ Some bs
        → IfOk result (λ told. RanOnAir c (held library.now) bs (λ ps. K.holds out.new start (before ++ ps))
        (Exchanged U.exchanges U.failures automation.old automation.new) told.report) }
    ensures bytes { (bs : List ℕ) → P.left network.old ≡ Some bs → OnOk result (ArePacketsOfBytes (reverse (packets_of bs))) }
    ensures reads { P.leads network.old network.new }
    ensures leads { K.leads out.old out.new }
    ensures devices { IfErr result IsOfDevices }
{
    let mut chain = chain;
    let config = chain.config();
    let mut stage = ChainStage::new(&mut chain, automation, library, &config);
    run_air(&mut stage, network, out, watch)
}

/// Passes a network on, with the cues of the breaks that the automation asks for, as [`chain_engine::run_inject`] does, and goes on behind its
/// faults, likewise.
///
/// # Errors
///
/// The fault of a device alone, at the packet where it came.
pub fn inject_on_air<M: Allocator, P: PausingPackets, U: Automation, K: GatheringSink, A: AirWatch>(
    chain: Chain<M>,
    network: &mut P,
    automation: &mut U,
    out: &mut K,
    watch: &mut A,
) -> Result<AirReport<Report>, RunFault>
    requires { P.is_broken network.old ≡ false }
    ensures sound { (c : Config) (start : Option (List ℕ)) (before : List (List ℕ)) (bs : List ℕ) → ChainStandsFor chain c
        → K.holds out.old start before → P.left network.old ≡ Some bs → IsSound (writing_cues c) bs
        → IfOk result (λ told. RunsPlainly (Injected c bs (λ ps. K.holds out.new start (before ++ ps))
        (Exchanged U.exchanges U.failures automation.old automation.new)) bs told) }
    ensures stretches { (c : Config) (start : Option (List ℕ)) (before : List (List ℕ)) (bs : List ℕ) → ChainStandsFor chain c
        → K.holds out.old start before → P.left network.old ≡ Some bs
        → IfOk result (λ told. TellsStretches told (writing_cues c) bs) }
    ensures out { (c : Config) (start : Option (List ℕ)) (before : List (List ℕ)) (bs : List ℕ) → ChainStandsFor chain c
        → K.holds out.old start before → P.left network.old ≡ Some bs
        → IfOk result (λ told. InjectedOnAir c bs (λ ps. K.holds out.new start (before ++ ps))
        (Exchanged U.exchanges U.failures automation.old automation.new) told.report) }
    ensures bytes { (bs : List ℕ) → P.left network.old ≡ Some bs → OnOk result (ArePacketsOfBytes (reverse (packets_of bs))) }
    ensures reads { P.leads network.old network.new }
    ensures leads { K.leads out.old out.new }
    ensures devices { IfErr result IsOfDevices }
{
    let mut chain = chain;
    let config = chain.config();
    let mut stage = InjectorStage::new(&mut chain, automation, &config);
    run_air(&mut stage, network, out, watch)
}

/// Passes a network with cues on, with advertisements in the events that the cues arm, as [`chain_engine::run_splice`] does, and goes on behind
/// its faults, likewise.
///
/// # Errors
///
/// The fault of a device alone, at the packet where it came.
pub fn splice_on_air<P: PausingPackets, K: GatheringSink, A: AirWatch>(
    config: Config,
    network: &mut P,
    library: &AdLibrary,
    out: &mut K,
    watch: &mut A,
) -> Result<AirReport<SwitchReport>, RunFault>
    requires { P.is_broken network.old ≡ false }
    ensures sound { (start : Option (List ℕ)) (before : List (List ℕ)) (bs : List ℕ) → K.holds out.old start before
        → P.left network.old ≡ Some bs → IsSound (reading_cues config) bs
        → IfOk result (RunsPlainly (Spliced config (held library.now) bs (λ ps. K.holds out.new start (before ++ ps))) bs) }
    ensures stretches { (start : Option (List ℕ)) (before : List (List ℕ)) (bs : List ℕ) → K.holds out.old start before
        → P.left network.old ≡ Some bs → IfOk result (λ told. TellsStretches told (reading_cues config) bs) }
    ensures out { (start : Option (List ℕ)) (before : List (List ℕ)) (bs : List ℕ) → K.holds out.old start before
        → P.left network.old ≡ Some bs
        → IfOk result (λ told. SplicedOnAir config (held library.now) bs (λ ps. K.holds out.new start (before ++ ps)) told.report) }
    ensures bytes { (bs : List ℕ) → P.left network.old ≡ Some bs → OnOk result (ArePacketsOfBytes (reverse (packets_of bs))) }
    ensures reads { P.leads network.old network.new }
    ensures leads { K.leads out.old out.new }
    ensures devices { IfErr result IsOfDevices }
{
    let mut stage = SwitchStage::new(config, library);
    run_air(&mut stage, network, out, watch)
}
