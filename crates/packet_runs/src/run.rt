//! Whole runs: the packets of a source through a stage to a sink.

ghost use Rattle.std.specs.Prelude.{◌≡◌, ℕ, ◌⊎◌, List, [], ◌++◌, Option, Ok, Err, true, false, OnOk, IfOk, IfErr};
ghost use Rattle.ts_packet.specs.Sinks.{Blamed};
ghost use Rattle.ts_packet.specs.Sources.{SourceCounts, Stalled, Exhausted};
ghost use Rattle.ts_packet.specs.Transfers.{WentWell};
ghost use Rattle.packet_runs.specs.Stops.{StopsBy, refusal_test, stop_cause};
ghost use Rattle.packet_runs.specs.Runs.{GoesThrough, Leaves, SourceBlamedAt, SinkBlamedAt};

use crate::slots::Slots;
use crate::stage::{Stage, StageFault};
use ts_packet::{GatheringSink, Packet, PausingPackets, PutFault, ReadFault};

/// Why a run stopped.
#[derive(Clone, Copy, Debug, PartialEq, Eq, Drop)]
pub enum Stop<N> {
    /// The source could not be read on.
    Read(ReadFault),
    /// The stage refused a packet.
    Packet(N),
    /// The sink failed.
    Sink(PutFault),
}

impl<N> Stop<N> {
    ghost use Rattle.packet_runs.specs.Stops.{stop_of};

    /// The stop of a run whose stage answered this.
    fn of(fault: StageFault<N>) -> Stop<N>
        ensures { result ≡ stop_of fault }
    {
        match fault {
            StageFault::Packet(refusal) => Stop::Packet(refusal),
            StageFault::Sink(fault) => Stop::Sink(fault),
        }
    }
}

/// Sends what the sink keeps back, where the read of the next packet may wait.
///
/// # Errors
///
/// The sink's: a front of what was put is out.
#[inline(always)]
fn send_before_wait<P: PausingPackets, K: GatheringSink>(
    network: &P,
    out: &mut K,
) -> Result<(), PutFault>
    ensures leads { K.leads out.old out.new }
    ensures all { P.next_may_wait network.now ≡ true → OnOk result (K.has_sent out.new) }
    ensures still { P.next_may_wait network.now ≡ false → (result ≡ Ok tt) × (out.new ≡ out.old) }
    ensures ok { (start : Option (List ℕ)) (ps : List (List ℕ)) → K.holds out.old start ps → OnOk result (K.holds out.new start ps) }
    ensures err { (start : Option (List ℕ)) (ps : List (List ℕ)) → K.holds out.old start ps
        → IfErr result (λ f. K.fails_to_send out.new start ps f) }
    ensures well { OnOk result (WentWell (K.counts out.old) (K.counts out.new)) }
    ensures blamed { IfErr result (λ f. Blamed f (K.counts out.old) (K.counts out.new) (K.is_full out.new)) }
{
    if network.next_may_wait() {
        return out.send();
    }
    Ok(())
}

/// Gives the stage the packets of the source, one after another, and then the end. What the sink keeps back is sent before each read that may
/// wait, so that what came in before a pause is out before it.
///
/// # Errors
///
/// The first fault of the source's packets, or the first refusal of the stage, once what the packets before it send is put; or the device's
/// fault, at the packet where it came, or before the read that may wait. After a fault nothing more is put, and what the sink keeps back is
/// the caller's to send.
pub fn run_stage<S: Stage, P: PausingPackets, K: GatheringSink>(
    stage: &mut S,
    network: &mut P,
    out: &mut K,
) -> Result<S::Report, Stop<S::Refusal>>
    requires { P.is_broken network.old ≡ false }
    ensures ok { (start : Option (List ℕ)) (before : List (List ℕ)) → ((kept : List ℕ) → S.sends stage.old [] [] kept stage.old)
        → K.holds out.old start before
        → IfOk result (λ report. GoesThrough (S.refusal stage.old) (S.ends stage.old) (P.left network.old) report stage.new
        (λ l. K.holds out.new start (before ++ l))) }
    ensures err { (start : Option (List ℕ)) (before : List (List ℕ)) → ((kept : List ℕ) → S.sends stage.old [] [] kept stage.old)
        → K.holds out.old start before
        → IfErr result (λ f. StopsBy Stop.Read (refusal_test (S.refusal stage.old)) stop_cause f (P.left network.old)
        (Leaves S.sends S.refuses S.breaks S.refusal f stage.old stage.new
        (λ l. K.holds out.new start (before ++ l)) (λ l. K.fails out.new start (before ++ l))
        (λ l. K.fails_to_send out.new start (before ++ l)))) }
    ensures read { OnOk result (SourceCounts false (P.has_ended network.old) (P.has_ended network.new)
        (P.counts network.old) (P.counts network.new)) }
    ensures wrote { OnOk result (WentWell (K.counts out.old) (K.counts out.new)) }
    ensures reading { IfErr result (λ f. SourceBlamedAt S.puts_rest f (P.has_ended network.old) (P.has_ended network.new)
        (P.counts network.old) (P.counts network.new)) }
    ensures writing { IfErr result (λ f. SinkBlamedAt f (K.counts out.old) (K.counts out.new) (K.is_full out.new)) }
    ensures turns { result ≡ Err (Stop.Read ReadFault.Turns)
        → Stalled P.leads P.counts P.falls_short network.old network.new ⊎ Exhausted P.left P.given network.old }
    ensures spent { OnOk result (P.is_spent network.new) }
    ensures stage { S.leads stage.old stage.new }
    ensures reads { P.leads network.old network.new }
    ensures leads { K.leads out.old out.new }
{
    let (mut next, mut kept) = (Packet::null(), Packet::null());
    let mut slots = Slots::new(&mut next, &mut kept);
    loop {
        match send_before_wait(network, out) {
            Ok(()) => {}
            Err(fault) => return Err(Stop::Sink(fault)),
        }
        match slots.read(network) {
            Ok(true) => match slots.pass(stage, out) {
                Ok(()) => {}
                Err(fault) => return Err(Stop::of(fault)),
            },
            Ok(false) => break,
            Err(fault) => return Err(Stop::Read(fault)),
        }
    }
    match stage.finish(out) {
        Ok(report) => Ok(report),
        Err(fault) => Err(Stop::Sink(fault)),
    }
}
