//! A run on air of a stage that is looked at between its packets, as a run on air of the stage alone.

ghost use Rattle.std.specs.Prelude.{◌≡◌, ℕ, List, [], ◌++◌, reverse, Option, None, Some, OnOk, IfOk, IfErr};
ghost use Rattle.ts_packet.specs.Packets.{packets_of};
ghost use Rattle.ts_packet.specs.FirstFault.{first_fault};
ghost use Rattle.packet_runs.specs.Stops.{refusal_test};
ghost use Rattle.cued_laws.specs.Laws.{ArePacketsOfBytes};
ghost use Rattle.program_follower.specs.declared.purpose.Purpose.{Purpose};
ghost use Rattle.on_air.specs.Plain.{GoesPlainly, IsOfDevices};
ghost use Rattle.on_air.specs.AirRuns.{TellsStretches};
ghost use Rattle.on_air.specs.AirOutputs.{EndsOnAir, stretches_in};

use crate::stages::BreakStage;
use crate::told::{Sight, Told};
use crate::watch::Watch;
use chain_engine::{AirStage, RunFault};
use on_air::{AirReport, AirWatch, run_air};
use packet_runs::Stop;
use ts_packet::{GatheringSink, PausingPackets};

/// Runs on air as [`run_air`] does, and tells of it.
///
/// # Errors
///
/// The fault of a device alone.
pub(crate) fn run_air_told<S, R, P, K, A, W>(
    stage: &mut S,
    network: &mut P,
    out: &mut K,
    watch: &mut A,
    listener: W,
) -> Result<AirReport<R>, RunFault>
where
    S: BreakStage + AirStage<Report = R>,
    R: Copy + Drop,
    P: PausingPackets,
    K: GatheringSink,
    A: AirWatch,
    W: Watch + Drop,
    ensures sound { (start : Option (List ℕ)) (before : List (List ℕ)) (bs : List ℕ)
        → ((kept : List ℕ) → S.sends stage.old [] [] kept stage.old) → K.holds out.old start before → P.left network.old ≡ Some bs
        → first_fault Stop.Read (refusal_test (S.refusal stage.old)) bs ≡ None
        → IfOk result (λ told. GoesPlainly (S.ends stage.old) bs told stage.new (λ l. K.holds out.new start (before ++ l))) }
    ensures stretches { (c : Purpose) (start : Option (List ℕ)) (before : List (List ℕ)) (bs : List ℕ) → S.begins stage.old c
        → ((kept : List ℕ) → S.sends stage.old [] [] kept stage.old) → K.holds out.old start before → P.left network.old ≡ Some bs
        → IfOk result (λ told. TellsStretches told c bs) }
    ensures out { (c : Purpose) (start : Option (List ℕ)) (before : List (List ℕ)) (bs : List ℕ) → S.begins stage.old c → S.tells_out stage.old
        → ((kept : List ℕ) → S.sends stage.old [] [] kept stage.old) → K.holds out.old start before → P.left network.old ≡ Some bs
        → IfOk result (λ told. EndsOnAir S.summed (S.airs_to_end stage.old) c (stretches_in c bs) told.report stage.new
        (λ l. K.holds out.new start (before ++ l))) }
    ensures bytes { (bs : List ℕ) → P.left network.old ≡ Some bs → OnOk result (ArePacketsOfBytes (reverse (packets_of bs))) }
    ensures stage { S.Stage.leads stage.old stage.new }
    ensures reads { P.leads network.old network.new }
    ensures leads { K.leads out.old out.new }
    ensures devices { IfErr result IsOfDevices }
{
    let mut listener = listener;
    let mut sight = Sight::of(&*stage, &listener);
    let mut told = Told::new(stage, &mut listener, &mut sight);
    run_air(&mut told, network, out, watch)
}
