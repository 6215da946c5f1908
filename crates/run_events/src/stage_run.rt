//! A run of a stage that is looked at between its packets, as a run of the stage alone.

ghost use Rattle.std.specs.Prelude.{◌≡◌, ℕ, ◌⊎◌, List, [], ◌++◌, Option, Err, false, OnOk, IfOk, IfErr};
ghost use Rattle.ts_packet.specs.Sources.{SourceCounts, Stalled, Exhausted};
ghost use Rattle.ts_packet.specs.Transfers.{WentWell};
ghost use Rattle.packet_runs.specs.Stops.{StopsBy, refusal_test, stop_cause};
ghost use Rattle.packet_runs.specs.Runs.{GoesThrough, Leaves, SourceBlamedAt, SinkBlamedAt};

use crate::stages::BreakStage;
use crate::told::{Sight, Told};
use crate::watch::Watch;
use packet_runs::{Stop, run_stage};
use ts_packet::{GatheringSink, PausingPackets, ReadFault};

/// Runs as [`run_stage`] does, and tells of it.
///
/// # Errors
///
/// As for [`run_stage`].
pub(crate) fn run_stage_told<S: BreakStage, P: PausingPackets, K: GatheringSink, W: Watch>(
    stage: &mut S,
    network: &mut P,
    out: &mut K,
    watch: &mut W,
) -> Result<S::Report, Stop<S::Refusal>>
    requires { P.is_broken network.old ≡ false }
    ensures ok { (start : Option (List ℕ)) (before : List (List ℕ)) → ((kept : List ℕ) → S.sends stage.old [] [] kept stage.old)
        → K.holds out.old start before
        → IfOk result (λ report. GoesThrough (S.refusal stage.old) (S.ends stage.old) (P.left network.old) report stage.new
        (λ l. K.holds out.new start (before ++ l))) }
    ensures err { (start : Option (List ℕ)) (before : List (List ℕ)) → ((kept : List ℕ) → S.sends stage.old [] [] kept stage.old)
        → K.holds out.old start before
        → IfErr result (λ f. StopsBy Stop.Read (refusal_test (S.refusal stage.old)) stop_cause f (P.left network.old)
        (Leaves S.sends S.refuses S.breaks S.refusal f stage.old stage.new
        (λ l. K.holds out.new start (before ++ l)) (λ l. K.fails out.new start (before ++ l))
        (λ l. K.fails_to_send out.new start (before ++ l)))) }
    ensures read { OnOk result (SourceCounts false (P.has_ended network.old) (P.has_ended network.new)
        (P.counts network.old) (P.counts network.new)) }
    ensures wrote { OnOk result (WentWell (K.counts out.old) (K.counts out.new)) }
    ensures reading { IfErr result (λ f. SourceBlamedAt S.puts_rest f (P.has_ended network.old) (P.has_ended network.new)
        (P.counts network.old) (P.counts network.new)) }
    ensures writing { IfErr result (λ f. SinkBlamedAt f (K.counts out.old) (K.counts out.new) (K.is_full out.new)) }
    ensures turns { result ≡ Err (Stop.Read ReadFault.Turns)
        → Stalled P.leads P.counts P.falls_short network.old network.new ⊎ Exhausted P.left P.given network.old }
    ensures stage { S.leads stage.old stage.new }
    ensures reads { P.leads network.old network.new }
    ensures leads { K.leads out.old out.new }
{
    let mut sight = Sight::of(&*stage, &*watch);
    let mut told = Told::new(stage, watch, &mut sight);
    run_stage(&mut told, network, out)
}
