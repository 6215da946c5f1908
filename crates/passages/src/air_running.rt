//! Runs on air between a reader and a writer: the network's bytes need not all be packets.

ghost use Rattle.std.specs.Prelude.{◌≡◌, Some, Ok, Err, OnOk, IfOk, IfErr};
ghost use Rattle.ts_packet.specs.Sinks.{Written};
ghost use Rattle.packet_recovery.specs.Reading.{Stays, left_to_give};
ghost use Rattle.passages.specs.Runs.{PassesAll};
ghost use Rattle.passages.specs.AirRuns.{IsOfDevicesOrMemory, CountsBytes};

use crate::fault::ProgramFault;
use crate::recovery_watch::{RecoveringPackets, RecoveryWatch, ToldPackets};
use crate::running::{BUFFER_SIZE, Ended, Passage, Ran, network_of, out_of_memory, run_to};
use crate::tell::Stopped;
use chain_engine::RunFault;
use packet_recovery::RecoveringReader;
use run_ends::Attended;
use std::alloc::Global;
use std::io::{BufReader, Read, Write};
use ts_packet::Pid;

/// What is told of a run on air that went through. Each count stops at the greatest u64.
#[derive(Clone, Copy, Debug, Drop)]
pub struct OnAir<T> {
    /// What the passage tells.
    pub report: T,
    /// How many packets were marked in error for their adaptation field.
    pub mended: u64,
    /// How many bytes were left out, as they are in no packet.
    pub skipped: u64,
}

/// A passage on air: whatever is wrong with the network, it goes on.
pub trait AirPassage<A>: Passage<A> {
    ghost use Rattle.std.specs.Prelude.{ℕ, List, Option};
    ghost use Rattle.passages.specs.declared.fault.ProgramFault.{ProgramFault};
    ghost use Rattle.passages.specs.Stops.{SaysOfInput};
    ghost use Rattle.passages.specs.AirRuns.{IsOfDevicesOrMemory};

    /// Devices and memory alone stop it.
    ghost by_devices: { (passage : Self) (before now : A) (fault : ProgramFault) (input : Option (List ℕ))
        → SaysOfInput (Self.Passage.stops passage before now fault) input → IsOfDevicesOrMemory fault };
}

/// What a run on air tells, with what its network counted in all.
fn counted<T: Drop, P: RecoveringPackets + Drop, V: Drop>(
    ended: Ended<T>,
    packets: ToldPackets<P, V>,
) -> Ended<OnAir<T>>
    ensures report { IfOk result.outcome (λ told. ended.outcome ≡ Ok told.report) }
    ensures mended { (start : P) → P.leads start packets.inner → IfOk result.outcome (λ told. Stays (P.mends start) (Some told.mended)) }
    ensures skipped { (start : P) → P.leads start packets.inner
        → IfOk result.outcome (λ told. Stays (P.skips start) (Some told.skipped)) }
    ensures fault { IfErr ended.outcome (λ fault. result.outcome ≡ Err fault) }
    ensures devices { OnOk ended.outcome (IfErr result.outcome IsOfDevicesOrMemory) }
{
    let Ended {
        outcome,
        reason,
        is_flushed,
        seen,
    } = ended;
    let outcome = match outcome {
        Ok(report) => {
            match packets.counts() {
                Ok((mended, skipped)) => Ok(OnAir {
                    report,
                    mended,
                    skipped,
                }),
                Err(fault) => Err(ProgramFault::Run(RunFault::Read(fault))),
            }
        }
        Err(fault) => Err(fault),
    };
    Ended {
        outcome,
        reason,
        is_flushed,
        seen,
    }
}

/// Runs from a reader to a writer, as [`run_from`](crate::running::run_from) does, but over whatever packets the reader's bytes hold: where
/// sync is lost the bytes up to its next place are left out, and a packet whose adaptation field does not fit is marked in error. `watch` is
/// told of each read.
///
/// # Errors
///
/// As for `run_from`; of the network only the faults of its device.
pub fn run_on_air_from<A, S: AirPassage<A>, V: RecoveryWatch + Drop, R: Read + Drop, O: Write>(
    alloc: Global,
    passage: S,
    asker: &mut A,
    watched: Option<Pid>,
    is_live: bool,
    input: R,
    watch: V,
    output: &mut O,
) -> Result<Ran<OnAir<S::Report>>, Stopped>
    requires { S.is_ready passage }
    ensures done { IfOk result (λ ran. PassesAll (S.passes passage asker.old asker.new) (left_to_give (R.remaining input))
        (Written (O.contents output.new) (O.contents output.old)) ran.report.report) }
    ensures counts { IfOk result (λ ran. CountsBytes (R.remaining input) ran.report.mended ran.report.skipped) }
    ensures devices { IfErr result (λ stopped. IsOfDevicesOrMemory stopped.fault) }
{
    let Ok(reader) = BufReader::with_capacity(alloc, BUFFER_SIZE, Attended::new(input)) else {
        return Err(out_of_memory());
    };
    let mut network = network_of(reader, is_live);
    let mut packets = ToldPackets::new(RecoveringReader::new(&mut network), watch);
    let Ok(ended) = run_to(alloc, passage, asker, watched, &mut packets, output) else {
        return Err(out_of_memory());
    };
    let ended = counted(ended, packets);
    let reading = network.into_inner().into_inner().into_reason();
    ended.told(reading)
}
