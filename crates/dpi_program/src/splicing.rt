//! The subcommand `splice`: a run with advertisements between the ends that its options name, and what it tells.

ghost use Rattle.std.specs.Prelude.{◌≡◌, None, Some, IsSome, true, false, IfOk, IfErr};
ghost use Rattle.ts_packet.specs.Sinks.{Written};
ghost use Rattle.ad_library.specs.Library.{held};
ghost use Rattle.ad_lists.specs.Lists.{is_at_line};
ghost use Rattle.passages.specs.Runs.{PassesAll, Splices};
ghost use Rattle.passages.specs.AirRuns.{AirSplices};
ghost use Rattle.passages.specs.Stops.{SplicingStops, StopsAtDevice};
ghost use Rattle.run_ends.specs.Ends.{path_of};
ghost use Rattle.dpi_program.specs.Runs.{known_from, PassesOnAir};
ghost use Rattle.dpi_program.specs.Inputs.{IsLibraryOf, IsLibraryAt, AreSpliceInputs};
ghost use Rattle.dpi_program.specs.Commands.{SplicesBetween, SplicesToFile, SpliceStopsBetween};
ghost use Rattle.dpi_program.specs.Commands.{SplicesOnAirBetween, SplicesOnAirToFile};

use crate::counting::air_counts;
use crate::ends::{LogEnd, Network, Outputs, RunFiles, make_output, open_log, open_network};
use crate::sharing::Sharing;
use crate::telling::{tell_fault, teller_of, telling_of, warnings_of};
use ad_library::AdLibrary;
use ad_lists::{ListFault, Loading, load_into};
use command_lines::splice_options::SpliceOptions;
use event_logs::{Listening, Telling, Warnings};
use on_air::AirWatch;
use passages::air_kinds::SplicingOnAir;
use passages::air_log::AirLog;
use passages::air_running::run_on_air_from;
use passages::air_telling::TellingInTurn;
use passages::fault::ProgramFault;
use passages::kinds::{Splicing, Unasked};
use passages::recovery_watch::RecoveryWatch;
use passages::running::{Ran, run_from, stopped};
use passages::tell::{LineAbout, Side, Stopped};
use passages::watch::Watch;
use report_texts::AirCounts;
use run_ends::{Attended, End};
use splice_plans::SwitchReport;
use std::alloc::Global;
use std::cell::RefCell;
use std::fs::Metadata;
use std::io::{self, Read, Write};
use std::rt::Files;
use ts_packet::Device;

/// What a run with advertisements that went through has done.
#[derive(Clone, Copy, Debug)]
pub struct Spliced {
    /// What it counted.
    pub report: SwitchReport,
    /// What it counted besides, where it was on air.
    pub air: Option<AirCounts>,
    /// What was seen go by, where that was asked for.
    pub seen: Option<(Watch, Watch)>,
    /// What is to be warned of, where that is.
    pub warnings: Option<Warnings>,
}

/// What is known of a list that was not loaded: where a line is at fault its number and its text, and the system's reason where its stream
/// cannot be opened; else the reason for which the list could not be read on.
fn unlisted(
    alloc: Global,
    fault: ListFault,
    loading: Loading<Global>,
    reading: Option<io::Error>,
) -> Stopped
    ensures fault { result.fault ≡ ProgramFault.List fault }
    ensures unflushed { result.is_flushed ≡ false }
    ensures line { is_at_line fault ≡ true → result.line ≡ Some loading.number }
{
    let mut told = stopped(ProgramFault::List(fault), Side::Filing, reading);
    if fault.is_at_line() {
        told.line = Some(loading.line_number());
        if let Ok(line) = Vec::from_slice(alloc, loading.line()) {
            told.about = Some(LineAbout::Entry(line));
        }
        told.reason = loading.into_reason();
    }
    told
}

/// Loads the list that a reader gives, and refuses outputs that are one of its streams.
fn library_from<F: Files, R: Read + Drop>(
    rt: &F,
    alloc: Global,
    reader: R,
    outputs: Outputs<'_>,
) -> Result<AdLibrary, Stopped>
    ensures loaded { IfOk result (λ library. IsLibraryOf library (R.remaining reader)) }
    ensures unflushed { IfErr result (λ stopped. stopped.is_flushed ≡ false) }
{
    let mut list = Device::new(Attended::new(reader));
    let mut loading = Loading::new_in(alloc);
    match load_into(rt, alloc, &mut loading, &mut list) {
        Ok(()) => {
            let (library, streams) = loading.into_parts();
            outputs.spare(rt, streams.as_slice())?;
            Ok(library)
        }
        Err(fault) => {
            let reading = list.into_inner().into_reason();
            Err(unlisted(alloc, fault, loading, reading))
        }
    }
}

/// Loads the list that the options name, and answers where it is a file what the system says of that. An output that is one of the streams of
/// its advertisements is refused here, before any is made.
pub(crate) fn open_library<R, I>(
    rt: &R,
    adverts: End<'_>,
    outputs: Outputs<'_>,
    input: &mut I,
) -> Result<(AdLibrary, Option<Metadata>), Stopped>
where
    R: RunFiles + AllocGlobal,
    I: Read,
    ensures loaded { IfOk result (λ opened. IsLibraryAt R.reads_at R.File.Read.remaining adverts.entry (I.remaining input.old) opened.0
        opened.1) }
    ensures unread { IsSome (path_of adverts.entry) → input.new ≡ input.old }
    ensures unflushed { IfErr result (λ stopped. stopped.is_flushed ≡ false) }
{
    let Some(path) = adverts.path() else {
        return Ok((library_from(rt, rt.alloc(), input, outputs)?, None));
    };
    match rt.open_at(path) {
        Ok((file, about)) => Ok((library_from(rt, rt.alloc(), file, outputs)?, Some(about))),
        Err(reason) => Err(stopped(ProgramFault::File, Side::Filing, Some(reason))),
    }
}

/// Runs on air from a reader.
fn splice_watched<R, A, H, V, O>(
    alloc: Global,
    options: &SpliceOptions<'_>,
    is_live: bool,
    input: R,
    library: &AdLibrary,
    watch: &mut A,
    told: H,
    reading: V,
    output: &mut O,
) -> Result<Spliced, Stopped>
where
    R: Read + Drop,
    A: AirWatch,
    H: run_events::Watch + Drop,
    V: RecoveryWatch + Drop,
    O: Write,
    ensures on_air { IfOk result (λ spliced. PassesOnAir (AirSplices options.now.config (held library.now)) (R.remaining input)
        (Written (O.contents output.new) (O.contents output.old)) spliced.report spliced.air) }
{
    let watched = options.is_verbose.then_some(options.config.cue_pid);
    let passage = SplicingOnAir {
        options,
        library,
        watch,
        told,
    };
    let Ran { report, seen } = run_on_air_from(
        alloc,
        passage,
        &mut Unasked,
        watched,
        is_live,
        input,
        reading,
        output,
    )?;
    Ok(Spliced {
        report: report.report.report,
        air: Some(air_counts(&report)),
        seen,
        warnings: None,
    })
}

/// Runs from a reader. A run on air is told of on the stream, where there is one.
fn splice_from<R, T, W, E, O>(
    alloc: Global,
    options: &SpliceOptions<'_>,
    is_live: bool,
    input: R,
    library: &AdLibrary,
    told: Option<T>,
    listening: Listening<'_, W, E>,
    output: &mut O,
) -> Result<Spliced, Stopped>
where
    R: Read + Drop,
    T: Write + Drop,
    W: Write,
    E: Write,
    O: Write,
    ensures done { options.now.is_on_air ≡ false → IfOk result (λ spliced. PassesAll
        (Splices options.now.config (held library.now)) (R.remaining input) (Written (O.contents output.new) (O.contents output.old))
        spliced.report) }
    ensures on_air { options.now.is_on_air ≡ true → IfOk result (λ spliced. PassesOnAir
        (AirSplices options.now.config (held library.now)) (R.remaining input) (Written (O.contents output.new) (O.contents output.old))
        spliced.report spliced.air) }
    ensures plain { options.now.is_on_air ≡ false → IfOk result (λ spliced. spliced.air ≡ None) }
    ensures stopped { options.now.is_on_air ≡ false → IfErr result (λ stopped. stopped.is_flushed ≡ true
        → StopsAtDevice (SplicingStops options.now.config (held library.now) stopped.fault) (R.remaining input)
        (O.contents output.old) (O.contents output.new)) }
{
    if options.is_on_air {
        let teller = teller_of(told);
        let watch = &mut AirLog::new(TellingInTurn::new(teller.as_ref()), listening);
        let reading = TellingInTurn::new(teller.as_ref());
        return splice_watched(
            alloc, options, is_live, input, library, watch, listening, reading, output,
        );
    }
    let watched = options.is_verbose.then_some(options.config.cue_pid);
    let passage = Splicing {
        options,
        library,
        watch: listening,
    };
    let Ran { report, seen } = run_from(
        alloc,
        passage,
        &mut Unasked,
        watched,
        is_live,
        input,
        output,
    )?;
    Ok(Spliced {
        report,
        air: None,
        seen,
        warnings: None,
    })
}

/// What a run is opened with, but where its packets go.
#[derive(Drop)]
struct SpliceInputs<F> {
    network: Network<F>,
    library: AdLibrary,
    /// What the system says of the list, where that is a file.
    list: Option<Metadata>,
}

/// Opens the network, and then loads the list with all its advertisements; the outputs are none of their streams.
fn open_inputs<R, I>(
    rt: &R,
    options: &SpliceOptions<'_>,
    input: &mut I,
) -> Result<SpliceInputs<R::File>, Stopped>
where
    R: RunFiles + AllocGlobal,
    I: Read,
    ensures opened { IfOk result (λ opened. AreSpliceInputs R.reads_at R.File.Read.remaining options.now (I.remaining input.old)
        (I.remaining input.new) opened) }
    ensures unflushed { IfErr result (λ stopped. stopped.is_flushed ≡ false) }
{
    let network = open_network(rt, options.network)?;
    let outputs = Outputs {
        output: options.output,
        events: options.events,
    };
    let (library, list) = open_library(rt, options.adverts, outputs, input)?;
    Ok(SpliceInputs {
        network,
        library,
        list,
    })
}

/// Runs between opened ends, and tells of the run.
fn run_ends<F, I, T, W, E, O>(
    alloc: Global,
    options: &SpliceOptions<'_>,
    opened: SpliceInputs<F>,
    input: &mut I,
    told: Option<T>,
    telling: RefCell<Telling<W, E>>,
    output: &mut O,
) -> Result<Spliced, Stopped>
where
    F: Read + Drop,
    I: Read,
    T: Write + Drop,
    W: Write + Drop,
    E: Write + Drop,
    O: Write,
    ensures done { options.now.is_on_air ≡ false → IfOk result (λ spliced. PassesAll
        (Splices options.now.config (held opened.library)) (known_from F.remaining opened.network.file (I.remaining input.old))
        (Written (O.contents output.new) (O.contents output.old)) spliced.report) }
    ensures on_air { options.now.is_on_air ≡ true → IfOk result (λ spliced. PassesOnAir
        (AirSplices options.now.config (held opened.library)) (known_from F.remaining opened.network.file (I.remaining input.old))
        (Written (O.contents output.new) (O.contents output.old)) spliced.report spliced.air) }
    ensures plain { options.now.is_on_air ≡ false → IfOk result (λ spliced. spliced.air ≡ None) }
    ensures stopped { options.now.is_on_air ≡ false → IfErr result (λ stopped. stopped.is_flushed ≡ true
        → StopsAtDevice (SplicingStops options.now.config (held opened.library) stopped.fault)
        (known_from F.remaining opened.network.file (I.remaining input.old)) (O.contents output.old) (O.contents output.new)) }
{
    let SpliceInputs {
        network,
        library,
        list: _,
    } = opened;
    let is_live = network.is_live();
    let listening = Listening::new(&telling);
    let bytes = network.into_bytes(input);
    let ran = splice_from(
        alloc, options, is_live, bytes, &library, told, listening, output,
    );
    let mut spliced = tell_fault(&telling, ran)?;
    let (report, air) = (spliced.report, spliced.air);
    listening.write(|log| log.report(None, Some(report), air));
    spliced.warnings = warnings_of(telling, options.is_on_air)?;
    Ok(spliced)
}

/// Opens the ends in their order, and runs to the file that the options name. `printed` is where the log goes, where that is no file, and
/// `faults` is the stream of faults.
fn run_to_file<R, I, W, T>(
    rt: &R,
    options: &SpliceOptions<'_>,
    input: &mut I,
    printed: W,
    faults: T,
) -> Result<Spliced, Stopped>
where
    R: RunFiles + AllocGlobal,
    I: Read,
    W: Write + Drop,
    T: Write + Copy + Drop,
    ensures done { options.now.is_on_air ≡ false → IfOk result (λ spliced. SplicesToFile R.reads_at R.makes_at R.File.Read.remaining
        R.File.Write.contents options.now (I.remaining input.old) spliced.report) }
    ensures on_air { options.now.is_on_air ≡ true → IfOk result (λ spliced. SplicesOnAirToFile R.reads_at R.makes_at R.File.Read.remaining
        R.File.Write.contents options.now (I.remaining input.old) spliced.report spliced.air) }
    ensures plain { options.now.is_on_air ≡ false → IfOk result (λ spliced. spliced.air ≡ None) }
{
    let opened = open_inputs(rt, options, input)?;
    let (about, list) = (opened.network.about.as_ref(), opened.list.as_ref());
    let LogEnd { end, about: logged } = open_log(rt, options.events, printed, &[about, list])?;
    let alarm = options.is_on_air.then_some(faults);
    let telling = telling_of(end, options.is_quiet, alarm);
    let made = make_output(rt, options.output, &[about, list, logged.as_ref()]);
    let mut file = tell_fault(&telling, made)?;
    let told = options.is_verbose.then_some(faults);
    run_ends(rt.alloc(), options, opened, input, told, telling, &mut file)
}

/// Opens the ends in their order, and runs to standard output. `faults` is the stream of faults, where the log goes too, where that is no file.
fn run_to_standard<R, I, O, T>(
    rt: &R,
    options: &SpliceOptions<'_>,
    input: &mut I,
    output: &mut O,
    faults: T,
) -> Result<Spliced, Stopped>
where
    R: RunFiles + AllocGlobal,
    I: Read,
    O: Write,
    T: Write + Copy + Drop,
    ensures done { options.now.is_on_air ≡ false → IfOk result (λ spliced. SplicesBetween R.reads_at R.File.Read.remaining options.now
        (I.remaining input.old) (Written (O.contents output.new) (O.contents output.old)) spliced.report) }
    ensures on_air { options.now.is_on_air ≡ true → IfOk result (λ spliced. SplicesOnAirBetween R.reads_at R.File.Read.remaining options.now
        (I.remaining input.old) (Written (O.contents output.new) (O.contents output.old)) spliced.report spliced.air) }
    ensures plain { options.now.is_on_air ≡ false → IfOk result (λ spliced. spliced.air ≡ None) }
    ensures stopped { options.now.is_on_air ≡ false → IfErr result (λ stopped. stopped.is_flushed ≡ true
        → SpliceStopsBetween R.reads_at R.File.Read.remaining options.now (I.remaining input.old) (O.contents output.old)
        (O.contents output.new) stopped.fault) }
{
    let opened = open_inputs(rt, options, input)?;
    let (about, list) = (opened.network.about.as_ref(), opened.list.as_ref());
    let LogEnd { end, about: _ } = open_log(rt, options.events, faults, &[about, list])?;
    let alarm = options.is_on_air.then_some(faults);
    let telling = telling_of(end, options.is_quiet, alarm);
    let told = options.is_verbose.then_some(faults);
    run_ends(rt.alloc(), options, opened, input, told, telling, output)
}

/// Runs the subcommand `splice`: the network is opened first, then the list is loaded with all its advertisements, then the log and then the
/// output file is opened. With `--verbose` a run on air is told of on `faults` while it goes on.
///
/// # Errors
///
/// `File` where a file could not be opened or made, `List` where the list was not loaded, `OutOfMemory` where the allocator refused
/// memory, `Run` where the run stopped, `Unflushed` where the output could not be flushed at the end, `Log` where off air the log could not be
/// written. What went out before stands.
pub fn run_splice_command<R, I, O, E>(
    rt: &R,
    options: &SpliceOptions<'_>,
    input: &mut I,
    output: &mut O,
    faults: &mut E,
) -> Result<Spliced, Stopped>
where
    R: RunFiles + AllocGlobal,
    I: Read,
    O: Write,
    E: Write,
    ensures to_standard { options.now.is_on_air ≡ false → path_of options.now.output ≡ None → IfOk result (λ spliced. SplicesBetween
        R.reads_at R.File.Read.remaining options.now (I.remaining input.old)
        (Written (O.contents output.new) (O.contents output.old)) spliced.report) }
    ensures to_file { options.now.is_on_air ≡ false → IsSome (path_of options.now.output) → IfOk result (λ spliced. SplicesToFile
        R.reads_at R.makes_at R.File.Read.remaining R.File.Write.contents options.now (I.remaining input.old) spliced.report) }
    ensures airs_to_standard { options.now.is_on_air ≡ true → path_of options.now.output ≡ None → IfOk result (λ spliced.
        SplicesOnAirBetween R.reads_at R.File.Read.remaining options.now (I.remaining input.old)
        (Written (O.contents output.new) (O.contents output.old)) spliced.report spliced.air) }
    ensures airs_to_file { options.now.is_on_air ≡ true → IsSome (path_of options.now.output) → IfOk result (λ spliced. SplicesOnAirToFile
        R.reads_at R.makes_at R.File.Read.remaining R.File.Write.contents options.now (I.remaining input.old) spliced.report
        spliced.air) }
    ensures plain { options.now.is_on_air ≡ false → IfOk result (λ spliced. spliced.air ≡ None) }
    ensures stopped { options.now.is_on_air ≡ false → path_of options.now.output ≡ None → IfErr result (λ stopped.
        stopped.is_flushed ≡ true → SpliceStopsBetween R.reads_at R.File.Read.remaining options.now (I.remaining input.old)
        (O.contents output.old) (O.contents output.new) stopped.fault) }
{
    let stream = RefCell::new(faults);
    let faults = Sharing::new(&stream);
    if options.has_standard_output() {
        return run_to_standard(rt, options, input, output, faults);
    }
    let printed = RefCell::new(output);
    run_to_file(rt, options, input, Sharing::new(&printed), faults)
}
