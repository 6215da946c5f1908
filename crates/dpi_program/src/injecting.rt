//! The subcommands `inject` and `run`: a run with cues, or with cues and advertisements, between the ends that its options name.

ghost use Rattle.std.specs.Prelude.{◌≡◌, None, IfSome, IsSome, is_some, true, false, IfOk, IfErr, OnOk};
ghost use Rattle.ts_packet.specs.Sinks.{Written};
ghost use Rattle.run_ends.specs.Ends.{path_of};
ghost use Rattle.automations.specs.ScriptReading.{IsLoaded};
ghost use Rattle.passages.specs.Runs.{AskerTells, lost_replies};
ghost use Rattle.dpi_program.specs.Runs.{known_from, Injects, InjectsAndPrints, InjectsOnAir, InjectsOnAirAndPrints};
ghost use Rattle.dpi_program.specs.Inputs.{IsAskerAt, AsksElsewhere, IsLibraryIfAsked, AreInjectInputs};
ghost use Rattle.dpi_program.specs.Commands.{InjectsBetween, InjectsToFile, InjectsOnAirBetween, InjectsOnAirToFile};

use crate::counting::air_counts;
use crate::ends::{LogEnd, Network, Outputs, RunFiles, make_output, open_log, open_network};
use crate::sharing::Sharing;
use crate::splicing::open_library;
use crate::telling::{
    hearing_of, overheard_of, tell_fault, teller_of, telling_of, warnings_of, with_late,
};
use ad_library::AdLibrary;
use automations::{Reading, Script, ScriptFault, listen, load_into};
use chain_engine::Report;
use command_lines::inject_options::{Asking, InjectOptions};
use event_logs::{Listening, Telling, Warnings};
use injector::MessageCounts;
use on_air::AirWatch;
use passages::air_chaining::run_chain_on_air_from;
use passages::air_kinds::CueingOnAir;
use passages::air_log::AirLog;
use passages::air_running::run_on_air_from;
use passages::air_telling::TellingInTurn;
use passages::asking::Asker;
use passages::chaining::run_chain_from;
use passages::fault::ProgramFault;
use passages::kinds::Cueing;
use passages::recovery_watch::RecoveryWatch;
use passages::running::{Ran, run_from, stopped, with_replies};
use passages::tell::{CueAccount, LineAbout, Side, Stopped};
use passages::watch::Watch;
use report_texts::AirCounts;
use run_ends::{Attended, End};
use run_events::Hearing;
use std::alloc::Global;
use std::cell::RefCell;
use std::fs::Metadata;
use std::io::{Read, Write};
use std::net::{Net, OpenListener, OpenStream};
use ts_packet::Device;

/// What a run with cues that went through has done.
#[derive(Clone, Copy, Debug)]
pub struct Injected {
    /// Whether advertisements were played.
    pub plays: bool,
    /// What it counted.
    pub report: Report,
    /// What it counted besides, where it was on air.
    pub air: Option<AirCounts>,
    /// What `--verbose` tells, where that was asked for.
    pub account: Option<CueAccount>,
    /// What is to be warned of, where that is.
    pub warnings: Option<Warnings>,
}

/// What a run with these options has done that counted this and saw this go by.
fn injected_with(
    options: &InjectOptions<'_>,
    report: Report,
    air: Option<AirCounts>,
    seen: Option<(Watch, Watch)>,
) -> Injected
    ensures report { result.report ≡ report }
    ensures plays { result.plays ≡ is_some options.now.adverts }
    ensures air { result.air ≡ air }
{
    let plays = options.adverts.is_some();
    let account = match seen {
        Some((read, written)) => Some(CueAccount {
            plays,
            cue_pid: options.config.cue_pid,
            read,
            written,
        }),
        None => None,
    };
    Injected {
        plays,
        report,
        air,
        account,
        warnings: None,
    }
}

/// Runs from a reader, with advertisements where there is a library.
fn run_asked<R, O, W, L, H>(
    alloc: Global,
    options: &InjectOptions<'_>,
    is_live: bool,
    input: R,
    asker: &mut Asker<W, L>,
    library: Option<AdLibrary>,
    hearing: &mut Hearing<H>,
    output: &mut O,
) -> Result<Injected, Stopped>
where
    R: Read + Drop,
    O: Write,
    W: Write + Drop,
    L: OpenListener + Drop,
    L::Stream: OpenStream + Read + Write + Drop,
    H: run_events::Watch + Copy + Drop,
    ensures done { IfOk result (λ injected. Injects options.now.config library (R.remaining input)
        (Written (O.contents output.new) (O.contents output.old)) (AskerTells W.contents asker.old asker.new) injected.report) }
    ensures printed { OnOk result (lost_replies asker.new ≡ 0) }
    ensures plays { IfOk result (λ injected. injected.plays ≡ is_some options.now.adverts) }
    ensures plain { IfOk result (λ injected. injected.air ≡ None) }
{
    let watched = options.is_verbose.then_some(options.config.cue_pid);
    let ran = match &library {
        Some(library) => {
            run_chain_from(
                alloc, options, asker, library, hearing, watched, is_live, input, output,
            )
        }
        None => {
            let passage = Cueing {
                alloc,
                options: &*options,
                hearing,
            };
            run_from(alloc, passage, asker, watched, is_live, input, output)
        }
    };
    let Ran { report, seen } = with_replies(ran, asker.has_lost_a_reply())?;
    Ok(injected_with(options, report, None, seen))
}

/// Runs on air from a reader, with advertisements where there is a library.
fn run_asked_on_air<R, O, W, L, A, H, V>(
    alloc: Global,
    options: &InjectOptions<'_>,
    is_live: bool,
    input: R,
    asker: &mut Asker<W, L>,
    library: Option<AdLibrary>,
    watch: &mut A,
    hearing: &mut Hearing<H>,
    reading: V,
    output: &mut O,
) -> Result<Injected, Stopped>
where
    R: Read + Drop,
    O: Write,
    W: Write + Drop,
    L: OpenListener + Drop,
    L::Stream: OpenStream + Read + Write + Drop,
    A: AirWatch,
    H: run_events::Watch + Copy + Drop,
    V: RecoveryWatch + Drop,
    ensures done { IfOk result (λ injected. InjectsOnAir options.now.config library (R.remaining input)
        (Written (O.contents output.new) (O.contents output.old)) (AskerTells W.contents asker.old asker.new) injected.report injected.air) }
    ensures printed { OnOk result (lost_replies asker.new ≡ 0) }
    ensures plays { IfOk result (λ injected. injected.plays ≡ is_some options.now.adverts) }
{
    let watched = options.is_verbose.then_some(options.config.cue_pid);
    let ran = match &library {
        Some(library) => run_chain_on_air_from(
            alloc, options, asker, library, watch, hearing, watched, is_live, input, reading,
            output,
        ),
        None => {
            let passage = CueingOnAir {
                alloc,
                options: &*options,
                watch,
                hearing,
            };
            run_on_air_from(
                alloc, passage, asker, watched, is_live, input, reading, output,
            )
        }
    };
    let Ran { report, seen } = with_replies(ran, asker.has_lost_a_reply())?;
    let air = Some(air_counts(&report));
    Ok(injected_with(options, report.report.report, air, seen))
}

/// Runs from a reader, on air or not, as the options say. A run on air is told of on the stream, where there is one.
fn inject_from<R, O, W, L, T, X, E>(
    alloc: Global,
    options: &InjectOptions<'_>,
    is_live: bool,
    input: R,
    asker: &mut Asker<W, L>,
    library: Option<AdLibrary>,
    told: Option<T>,
    hearing: &mut Hearing<Listening<'_, X, E>>,
    output: &mut O,
) -> Result<Injected, Stopped>
where
    R: Read + Drop,
    O: Write,
    W: Write + Drop,
    L: OpenListener + Drop,
    L::Stream: OpenStream + Read + Write + Drop,
    T: Write + Drop,
    X: Write,
    E: Write,
    ensures done { options.now.is_on_air ≡ false → IfOk result (λ injected. Injects options.now.config library (R.remaining input)
        (Written (O.contents output.new) (O.contents output.old)) (AskerTells W.contents asker.old asker.new) injected.report) }
    ensures printed { OnOk result (lost_replies asker.new ≡ 0) }
    ensures plays { IfOk result (λ injected. injected.plays ≡ is_some options.now.adverts) }
    ensures on_air { options.now.is_on_air ≡ true → IfOk result (λ injected. InjectsOnAir options.now.config library (R.remaining input)
        (Written (O.contents output.new) (O.contents output.old)) (AskerTells W.contents asker.old asker.new) injected.report injected.air) }
    ensures plain { options.now.is_on_air ≡ false → IfOk result (λ injected. injected.air ≡ None) }
{
    if !options.is_on_air {
        return run_asked(
            alloc, options, is_live, input, asker, library, hearing, output,
        );
    }
    let listening = hearing.watch;
    let teller = teller_of(told);
    let watch = &mut AirLog::new(TellingInTurn::new(teller.as_ref()), listening);
    let reading = TellingInTurn::new(teller.as_ref());
    run_asked_on_air(
        alloc, options, is_live, input, asker, library, watch, hearing, reading, output,
    )
}

/// Loads a script.
fn script_from<R: Read + Drop, W: Drop>(
    alloc: Global,
    reader: R,
    replies: W,
) -> Result<Script<W>, Stopped>
    ensures loaded { IfOk result (λ script. IsLoaded script (R.remaining reader)) }
    ensures unflushed { IfErr result (λ stopped. stopped.is_flushed ≡ false) }
{
    let mut reading = Reading::new_in(alloc);
    let mut reader = Device::new(Attended::new(reader));
    match load_into(&mut reading, &mut reader) {
        Ok(()) => Ok(Script::of(reading, replies)),
        Err(fault) => {
            let reason = reader.into_inner().into_reason();
            let mut told = stopped(ProgramFault::Script(fault), Side::Scripting, reason);
            if fault == ScriptFault::BadScript {
                told.line = Some(reading.line());
                told.about = Some(LineAbout::Script(reading.line_fault()));
            }
            Err(told)
        }
    }
}

/// The automation that an option names, and where it is a file what the system says of that.
pub(crate) fn open_asker<R, I, W>(
    rt: &R,
    asking: Asking<'_>,
    input: &mut I,
    replies: W,
) -> Result<(Asker<W, R::Listener>, Option<Metadata>), Stopped>
where
    R: RunFiles + Net + AllocGlobal,
    I: Read,
    W: Drop,
    ensures loaded { IfOk result (λ opened. IsAskerAt R.reads_at R.File.Read.remaining asking.entry (I.remaining input.old)
        opened.0 opened.1) }
    ensures unread { AsksElsewhere asking.entry → input.new ≡ input.old }
    ensures unflushed { IfErr result (λ stopped. stopped.is_flushed ≡ false) }
{
    let end = match asking {
        Asking::Script(end) => end,
        Asking::Port(port) => match listen(rt, port) {
            Ok(listener) => return Ok((Asker::Port(listener), None)),
            Err(reason) => return Err(stopped(ProgramFault::Accept, Side::Listening, Some(reason))),
        },
    };
    let Some(path) = end.path() else {
        return Ok((
            Asker::Script(script_from(rt.alloc(), input, replies)?),
            None,
        ));
    };
    match rt.open_at(path) {
        Ok((file, about)) => Ok((
            Asker::Script(script_from(rt.alloc(), file, replies)?),
            Some(about),
        )),
        Err(reason) => Err(stopped(ProgramFault::File, Side::Scripting, Some(reason))),
    }
}

/// Loads the list that the options name, where they name one, and answers where it is a file what the system says of that.
fn open_adverts<R, I>(
    rt: &R,
    adverts: Option<End<'_>>,
    outputs: Outputs<'_>,
    input: &mut I,
) -> Result<(Option<AdLibrary>, Option<Metadata>), Stopped>
where
    R: RunFiles + AllocGlobal,
    I: Read,
    ensures loaded { IfOk result (λ opened. IsLibraryIfAsked R.reads_at R.File.Read.remaining adverts.entry (I.remaining input.old)
        opened.0 opened.1) }
    ensures unread { IfSome adverts.entry (λ list. IsSome (path_of list)) → input.new ≡ input.old }
    ensures unflushed { IfErr result (λ stopped. stopped.is_flushed ≡ false) }
{
    let Some(adverts) = adverts else {
        return Ok((None, None));
    };
    match open_library(rt, adverts, outputs, input) {
        Ok((library, list)) => Ok((Some(library), list)),
        Err(stopped) => Err(stopped),
    }
}

/// What a run is opened with, but where its packets go.
#[derive(Drop)]
struct InjectInputs<F, W, L> {
    network: Network<F>,
    asker: Asker<W, L>,
    /// What the system says of the script, where that is a file.
    script: Option<Metadata>,
    library: Option<AdLibrary>,
    /// What the system says of the list, where that is a file.
    list: Option<Metadata>,
}

/// Opens the network, then the script or the port, and then loads the list with all its advertisements; the outputs are none of their streams.
fn open_inputs<R, I, W>(
    rt: &R,
    options: &InjectOptions<'_>,
    input: &mut I,
    replies: W,
) -> Result<InjectInputs<R::File, W, R::Listener>, Stopped>
where
    R: RunFiles + Net + AllocGlobal,
    I: Read,
    W: Drop,
    ensures opened { IfOk result (λ opened. AreInjectInputs R.reads_at R.File.Read.remaining options.now (I.remaining input.old)
        (I.remaining input.new) opened) }
    ensures unflushed { IfErr result (λ stopped. stopped.is_flushed ≡ false) }
{
    let network = open_network(rt, options.network)?;
    let (asker, script) = open_asker(rt, options.asking, input, replies)?;
    let outputs = Outputs {
        output: options.output,
        events: options.events,
    };
    let (library, list) = open_adverts(rt, options.adverts, outputs, input)?;
    Ok(InjectInputs {
        network,
        asker,
        script,
        library,
        list,
    })
}

/// Runs from the network that was opened.
fn inject_network<F, I, O, W, L, T, X, E>(
    alloc: Global,
    options: &InjectOptions<'_>,
    network: Network<F>,
    input: &mut I,
    asker: &mut Asker<W, L>,
    library: Option<AdLibrary>,
    told: Option<T>,
    hearing: &mut Hearing<Listening<'_, X, E>>,
    output: &mut O,
) -> Result<Injected, Stopped>
where
    F: Read + Drop,
    I: Read,
    O: Write,
    W: Write + Drop,
    L: OpenListener + Drop,
    L::Stream: OpenStream + Read + Write + Drop,
    T: Write + Drop,
    X: Write,
    E: Write,
    ensures done { options.now.is_on_air ≡ false → IfOk result (λ injected. Injects options.now.config library
        (known_from F.remaining network.file (I.remaining input.old)) (Written (O.contents output.new) (O.contents output.old))
        (AskerTells W.contents asker.old asker.new) injected.report) }
    ensures printed { OnOk result (lost_replies asker.new ≡ 0) }
    ensures plays { IfOk result (λ injected. injected.plays ≡ is_some options.now.adverts) }
    ensures on_air { options.now.is_on_air ≡ true → IfOk result (λ injected. InjectsOnAir options.now.config library
        (known_from F.remaining network.file (I.remaining input.old)) (Written (O.contents output.new) (O.contents output.old))
        (AskerTells W.contents asker.old asker.new) injected.report injected.air) }
    ensures plain { options.now.is_on_air ≡ false → IfOk result (λ injected. injected.air ≡ None) }
{
    let is_live = network.is_live();
    let bytes = network.into_bytes(input);
    inject_from(
        alloc, options, is_live, bytes, asker, library, told, hearing, output,
    )
}

/// Runs between opened ends, and tells of the run.
fn run_ends<F, I, O, W, L, T, X, E>(
    alloc: Global,
    options: &InjectOptions<'_>,
    opened: InjectInputs<F, W, L>,
    input: &mut I,
    told: Option<T>,
    telling: RefCell<Telling<X, E>>,
    output: &mut O,
) -> Result<Injected, Stopped>
where
    F: Read + Drop,
    I: Read,
    O: Write,
    W: Write + Drop,
    L: OpenListener + Drop,
    L::Stream: OpenStream + Read + Write + Drop,
    T: Write + Drop,
    X: Write + Drop,
    E: Write + Drop,
    ensures done { options.now.is_on_air ≡ false → IfOk result (λ injected. InjectsAndPrints options.now.config opened.library
        (known_from F.remaining opened.network.file (I.remaining input.old)) (Written (O.contents output.new) (O.contents output.old))
        W.contents opened.asker injected.report) }
    ensures plays { IfOk result (λ injected. injected.plays ≡ is_some options.now.adverts) }
    ensures on_air { options.now.is_on_air ≡ true → IfOk result (λ injected. InjectsOnAirAndPrints options.now.config opened.library
        (known_from F.remaining opened.network.file (I.remaining input.old)) (Written (O.contents output.new) (O.contents output.old))
        W.contents opened.asker injected.report injected.air) }
    ensures plain { options.now.is_on_air ≡ false → IfOk result (λ injected. injected.air ≡ None) }
{
    let InjectInputs {
        network,
        mut asker,
        script: _,
        library,
        list: _,
    } = opened;
    let listening = Listening::new(&telling);
    let overheard = tell_fault(&telling, overheard_of(alloc, listening.has_log()))?;
    let ran = {
        let hearing = &mut hearing_of(&telling, overheard);
        inject_network(
            alloc, options, network, input, &mut asker, library, told, hearing, output,
        )
    };
    let mut injected = tell_fault(&telling, ran)?;
    tell_report(listening, &injected);
    injected.warnings = with_late(warnings_of(telling, options.is_on_air)?, &asker);
    Ok(injected)
}

/// Has the log write what was counted.
fn tell_report<X: Write, E: Write>(listening: Listening<'_, X, E>, injected: &Injected) {
    let report = injected.report;
    let messages = MessageCounts {
        messages: report.messages,
        accepted: report.accepted,
        refused: report.refused,
    };
    let events = injected.plays.then_some(report.switch);
    let air = injected.air;
    listening.write(|log| log.report(Some(messages), events, air));
}

/// Opens the ends in their order, and runs to the file that the options name. `replies` is where replies are printed, and the log, where that
/// is no file; `faults` is the stream of faults.
fn run_to_file<R, I, W, T>(
    rt: &R,
    options: &InjectOptions<'_>,
    input: &mut I,
    replies: W,
    faults: T,
) -> Result<Injected, Stopped>
where
    R: RunFiles + Net + AllocGlobal,
    I: Read,
    W: Write + Copy + Drop,
    T: Write + Copy + Drop,
    ensures done { options.now.is_on_air ≡ false → IfOk result (λ injected. InjectsToFile R.Listener R.reads_at R.makes_at
        R.File.Read.remaining R.File.Write.contents W.contents options.now (I.remaining input.old) injected.report) }
    ensures plays { IfOk result (λ injected. injected.plays ≡ is_some options.now.adverts) }
    ensures on_air { options.now.is_on_air ≡ true → IfOk result (λ injected. InjectsOnAirToFile R.Listener R.reads_at R.makes_at
        R.File.Read.remaining R.File.Write.contents W.contents options.now (I.remaining input.old) injected.report injected.air) }
    ensures plain { options.now.is_on_air ≡ false → IfOk result (λ injected. injected.air ≡ None) }
{
    let opened = open_inputs(rt, options, input, replies)?;
    let about = opened.network.about.as_ref();
    let (script, list) = (opened.script.as_ref(), opened.list.as_ref());
    let inputs = [about, script, list];
    let LogEnd { end, about: logged } = open_log(rt, options.events, replies, &inputs)?;
    let alarm = options.is_on_air.then_some(faults);
    let telling = telling_of(end, options.is_quiet, alarm);
    let made = make_output(rt, options.output, &[about, script, list, logged.as_ref()]);
    let mut file = tell_fault(&telling, made)?;
    let told = (options.is_on_air && options.is_verbose).then_some(faults);
    run_ends(rt.alloc(), options, opened, input, told, telling, &mut file)
}

/// Opens the ends in their order, and runs to standard output. `faults` is the stream of faults, where replies are printed too, and the log,
/// where that is no file.
fn run_to_standard<R, I, O, T>(
    rt: &R,
    options: &InjectOptions<'_>,
    input: &mut I,
    output: &mut O,
    faults: T,
) -> Result<Injected, Stopped>
where
    R: RunFiles + Net + AllocGlobal,
    I: Read,
    O: Write,
    T: Write + Copy + Drop,
    ensures done { options.now.is_on_air ≡ false → IfOk result (λ injected. InjectsBetween R.Listener R.reads_at
        R.File.Read.remaining T.contents options.now (I.remaining input.old) (Written (O.contents output.new) (O.contents output.old))
        injected.report) }
    ensures plays { IfOk result (λ injected. injected.plays ≡ is_some options.now.adverts) }
    ensures on_air { options.now.is_on_air ≡ true → IfOk result (λ injected. InjectsOnAirBetween R.Listener R.reads_at
        R.File.Read.remaining T.contents options.now (I.remaining input.old) (Written (O.contents output.new) (O.contents output.old))
        injected.report injected.air) }
    ensures plain { options.now.is_on_air ≡ false → IfOk result (λ injected. injected.air ≡ None) }
{
    let opened = open_inputs(rt, options, input, faults)?;
    let about = opened.network.about.as_ref();
    let inputs = [about, opened.script.as_ref(), opened.list.as_ref()];
    let LogEnd { end, about: _ } = open_log(rt, options.events, faults, &inputs)?;
    let alarm = options.is_on_air.then_some(faults);
    let telling = telling_of(end, options.is_quiet, alarm);
    let told = (options.is_on_air && options.is_verbose).then_some(faults);
    run_ends(rt.alloc(), options, opened, input, told, telling, output)
}

/// Runs the subcommand `inject`, or `run` where the options name advertisements: the network is opened first, then the script or the port,
/// then the list is loaded with all its advertisements, then the log and then the output file is opened. Then the memory of the run is taken, and
/// where there is a port a client is waited for, but on air. Replies to a script are printed as they come, on `faults` where the packets go to
/// standard output. With `--verbose` a run on air is told of on `faults` while it goes on.
///
/// # Errors
///
/// `File` where a file could not be opened or made, `Accept` where no automation system could connect, `Script` or `List` where that was
/// not loaded, `OutOfMemory` where the allocator refused memory. `Run` where the run stopped, else `Unflushed` where the output could not
/// be flushed at the end, else `Print` where a reply could not be printed, else `Log` where off air the log could not be written. What went
/// out before stands.
pub fn run_inject_command<R, I, O, E>(
    rt: &R,
    options: &InjectOptions<'_>,
    input: &mut I,
    output: &mut O,
    faults: &mut E,
) -> Result<Injected, Stopped>
where
    R: RunFiles + Net + AllocGlobal,
    I: Read,
    O: Write,
    E: Write,
    ensures to_standard { options.now.is_on_air ≡ false → path_of options.now.output ≡ None → IfOk result (λ injected. InjectsBetween
        R.Listener R.reads_at R.File.Read.remaining ⟦<Sharing<'static, &'static mut E> as Write>⟧.contents options.now (I.remaining input.old)
        (Written (O.contents output.new) (O.contents output.old)) injected.report) }
    ensures to_file { options.now.is_on_air ≡ false → IsSome (path_of options.now.output) → IfOk result (λ injected. InjectsToFile
        R.Listener R.reads_at R.makes_at R.File.Read.remaining R.File.Write.contents ⟦<Sharing<'static, &'static mut O> as Write>⟧.contents
        options.now (I.remaining input.old) injected.report) }
    ensures airs_to_standard { options.now.is_on_air ≡ true → path_of options.now.output ≡ None → IfOk result (λ injected.
        InjectsOnAirBetween R.Listener R.reads_at R.File.Read.remaining ⟦<Sharing<'static, &'static mut E> as Write>⟧.contents options.now
        (I.remaining input.old) (Written (O.contents output.new) (O.contents output.old)) injected.report injected.air) }
    ensures airs_to_file { options.now.is_on_air ≡ true → IsSome (path_of options.now.output) → IfOk result (λ injected. InjectsOnAirToFile
        R.Listener R.reads_at R.makes_at R.File.Read.remaining R.File.Write.contents ⟦<Sharing<'static, &'static mut O> as Write>⟧.contents
        options.now (I.remaining input.old) injected.report injected.air) }
    ensures plays { IfOk result (λ injected. injected.plays ≡ is_some options.now.adverts) }
    ensures plain { options.now.is_on_air ≡ false → IfOk result (λ injected. injected.air ≡ None) }
{
    let stream = RefCell::new(faults);
    let faults = Sharing::new(&stream);
    if options.has_standard_output() {
        return run_to_standard(rt, options, input, output, faults);
    }
    let printed = RefCell::new(output);
    run_to_file(rt, options, input, Sharing::new(&printed), faults)
}
