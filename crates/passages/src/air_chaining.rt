//! A run of the chain on air between a reader and a writer, by its requests: the headline, on the bytes of the two ends.

ghost use Rattle.std.specs.Prelude.{◌≡◌, IfOk, IfErr, IfSome};
ghost use Rattle.ts_packet.specs.Sinks.{Written};
ghost use Rattle.packet_recovery.specs.Reading.{left_to_give};
ghost use Rattle.ad_library.specs.Library.{held};
ghost use Rattle.air_laws.specs.Headline.{HeadlineOnAir};
ghost use Rattle.passages.specs.Runs.{AskerTells, PassesAll};
ghost use Rattle.passages.specs.AirRuns.{AirPlays, CountsBytes, IsOfDevicesOrMemory};

use crate::air_kinds::ChainingOnAir;
use crate::air_running::{OnAir, run_on_air_from};
use crate::asking::Asker;
use crate::recovery_watch::RecoveryWatch;
use crate::running::Ran;
use crate::tell::Stopped;
use ad_library::AdLibrary;
use chain_engine::Report;
use command_lines::inject_options::InjectOptions;
use on_air::{AirReport, AirWatch};
use run_events::{Hearing, Watch};
use std::alloc::Global;
use std::io::{Read, Write};
use std::net::{OpenListener, OpenStream};
use ts_packet::Pid;

/// Runs as [`run_on_air_from`] does with cues and the advertisements of a library, and says of a run that went through what it is by its
/// requests: where the reader tells its bytes, behind what stood in the writer are the packets that were found in these, stretch by
/// stretch, with the advertisements in the played breaks, and each message is answered by its verdict in its stretch.
///
/// # Errors
///
/// Those of [`run_on_air_from`].
pub fn run_chain_on_air_from<W, L, A, V, H, R, O>(
    alloc: Global,
    options: &InjectOptions<'_>,
    asker: &mut Asker<W, L>,
    library: &AdLibrary,
    watch: &mut A,
    hearing: &mut Hearing<H>,
    watched: Option<Pid>,
    is_live: bool,
    input: R,
    reading: V,
    output: &mut O,
) -> Result<Ran<OnAir<AirReport<Report>>>, Stopped>
where
    W: Write,
    L: OpenListener,
    L::Stream: OpenStream + Read + Write + Drop,
    A: AirWatch,
    V: RecoveryWatch + Drop,
    H: Watch + Copy + Drop,
    R: Read + Drop,
    O: Write,
    ensures headline { IfOk result (λ ran. IfSome (left_to_give (R.remaining input)) (λ bs. HeadlineOnAir options.now.config
        (held library.now) bs (Written (O.contents output.new) (O.contents output.old)) (AskerTells W.contents asker.old asker.new)
        ran.report.report.report)) }
    ensures done { IfOk result (λ ran. PassesAll
        (AirPlays options.now.config (held library.now) (AskerTells W.contents asker.old asker.new)) (left_to_give (R.remaining input))
        (Written (O.contents output.new) (O.contents output.old)) ran.report.report) }
    ensures counts { IfOk result (λ ran. CountsBytes (R.remaining input) ran.report.mended ran.report.skipped) }
    ensures devices { IfErr result (λ stopped. IsOfDevicesOrMemory stopped.fault) }
{
    let passage = ChainingOnAir {
        alloc,
        options,
        library,
        watch,
        hearing,
    };
    run_on_air_from(
        alloc, passage, asker, watched, is_live, input, reading, output,
    )
}
