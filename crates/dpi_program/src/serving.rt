//! The subcommand `services`: a run of several services between the ends that its options name, and what it tells.

ghost use Rattle.std.specs.Prelude.{◌≡◌, List, [], length, None, IsSome, true, false, IfOk, IfErr, OnOk};
ghost use Rattle.ts_packet.specs.Sinks.{Written};
ghost use Rattle.run_ends.specs.Ends.{path_of};
ghost use Rattle.service_lists.specs.Lists.{AreReady};
ghost use Rattle.chain_services.specs.Runs.{terms_by};
ghost use Rattle.passages.specs.Runs.{PassesAll, Serves, AskerTells, lost_replies};
ghost use Rattle.services_on_air.specs.Standing.{AirServicesStandFor};
ghost use Rattle.services_on_air.specs.Serving.{AirServicesBegin};
ghost use Rattle.passages.specs.AirRuns.{AirServes};
ghost use Rattle.dpi_program.specs.Runs.{known_from, ServesAndPrints, ServesOnAirAndPrints, PassesOnAir, AreOfConfigs};
ghost use Rattle.dpi_program.specs.Inputs.{AreServicesOf, AreServicesAt, AreServiceInputs};
ghost use Rattle.dpi_program.specs.Commands.{ServesBetween, ServesToFile, ServesOnAirBetween, ServesOnAirToFile};

use crate::counting::air_counts;
use crate::ends::{LogEnd, Network, Outputs, RunFiles, make_output, open_log, open_network};
use crate::injecting::open_asker;
use crate::sharing::Sharing;
use crate::telling::{
    hearing_of, overheard_of, tell_fault, teller_of, telling_of, warnings_of, with_late,
};
use ad_library::AdLibrary;
use chain_services::ServiceReport;
use command_lines::services_options::ServicesOptions;
use event_logs::{Listening, Telling, Warnings};
use injector::MessageCounts;
use passages::air_kinds::ServingOnAir;
use passages::air_log::AirLog;
use passages::air_running::run_on_air_from;
use passages::air_telling::TellingInTurn;
use passages::asking::Asker;
use passages::fault::ProgramFault;
use passages::kinds::Serving;
use passages::recovery_watch::RecoveryWatch;
use passages::running::{Ran, out_of_memory, run_from, stopped, with_replies};
use passages::tell::{LineAbout, ServicesAccount, Side, Stopped};
use psi_tables::Config;
use report_texts::AirCounts;
use run_ends::{Attended, End};
use run_events::{Hearing, Watch};
use service_lists::{ServiceList, ServicesFault, Unloaded, load_services};
use services_on_air::{AirServices, ServicesWatch};
use std::alloc::Global;
use std::cell::RefCell;
use std::fs::Metadata;
use std::io::{self, Read, Write};
use std::net::{Net, OpenListener, OpenStream};
use std::rt::Files;
use ts_packet::{Device, Pid};

/// What a run of several services that went through has done.
#[derive(Drop)]
pub struct Served {
    /// What was counted.
    pub report: ServiceReport,
    /// What was counted besides, where it was on air.
    pub air: Option<AirCounts>,
    /// What `--verbose` tells, where that was asked for.
    pub account: Option<ServicesAccount>,
    /// What is to be warned of, where that is.
    pub warnings: Option<Warnings>,
}

/// What is known of a list of services that was not loaded.
fn unserved(unloaded: Unloaded, reading: Option<io::Error>) -> Stopped
    ensures { result.is_flushed ≡ false }
{
    let Unloaded {
        fault,
        line,
        adverts_line,
        has_return,
        reason,
    } = unloaded;
    if fault == ServicesFault::OutOfMemory {
        return out_of_memory();
    }
    Stopped {
        fault: ProgramFault::Services(fault),
        side: Side::Filing,
        reason: if fault == ServicesFault::Io {
            reading
        } else {
            reason
        },
        read: None,
        is_flushed: false,
        line,
        about: match adverts_line {
            Some(line) => Some(LineAbout::Adverts(line)),
            None if has_return => Some(LineAbout::Return),
            None => None,
        },
    }
}

/// Loads the list of services that a reader gives, and refuses outputs that are one of its lists of advertisements, or of their streams.
fn services_from<F: Files, R: Read + Drop>(
    rt: &F,
    alloc: Global,
    reader: R,
    outputs: Outputs<'_>,
) -> Result<ServiceList, Stopped>
    ensures ready { IfOk result AreReady }
    ensures loaded { IfOk result (λ list. AreServicesOf list (R.remaining reader)) }
    ensures unflushed { IfErr result (λ stopped. stopped.is_flushed ≡ false) }
{
    let mut list = Device::new(Attended::new(reader));
    match load_services(rt, alloc, &mut list) {
        Ok(services) => {
            outputs.spare(rt, services.files.as_slice())?;
            Ok(services)
        }
        Err(unloaded) => Err(unserved(unloaded, list.into_inner().into_reason())),
    }
}

/// Loads the list of services that the options name, and answers where it is a file what the system says of that. An output that is one of the
/// files that the list names, or that those do, is refused here, before any is made.
fn open_services<R, I>(
    rt: &R,
    services: End<'_>,
    outputs: Outputs<'_>,
    input: &mut I,
) -> Result<(ServiceList, Option<Metadata>), Stopped>
where
    R: RunFiles + AllocGlobal,
    I: Read,
    ensures ready { IfOk result (λ opened. AreReady opened.0) }
    ensures loaded { IfOk result (λ opened. AreServicesAt R.reads_at R.File.Read.remaining services.entry (I.remaining input.old) opened.0
        opened.1) }
    ensures unread { IsSome (path_of services.entry) → input.new ≡ input.old }
    ensures unflushed { IfErr result (λ stopped. stopped.is_flushed ≡ false) }
{
    let Some(path) = services.path() else {
        return Ok((services_from(rt, rt.alloc(), input, outputs)?, None));
    };
    match rt.open_at(path) {
        Ok((file, about)) => Ok((services_from(rt, rt.alloc(), file, outputs)?, Some(about))),
        Err(reason) => Err(stopped(ProgramFault::File, Side::Filing, Some(reason))),
    }
}

/// Packets alone are told of, so any PID will do.
fn watched_for(is_verbose: bool) -> Option<Pid> {
    if is_verbose { Pid::new(0) } else { None }
}

/// Runs from a reader.
fn run_plainly<R, O, W, L, H>(
    alloc: Global,
    is_verbose: bool,
    is_live: bool,
    input: R,
    asker: &mut Asker<W, L>,
    list: ServiceList,
    hearing: &mut Hearing<H>,
    output: &mut O,
) -> Result<Served, Stopped>
where
    R: Read + Drop,
    O: Write,
    W: Write + Drop,
    L: OpenListener + Drop,
    L::Stream: OpenStream + Read + Write + Drop,
    H: Watch + Copy + Drop,
    requires { AreReady list }
    ensures done { IfOk result (λ served. PassesAll
        (Serves (terms_by list.configs.items list.libraries.items) (AskerTells W.contents asker.old asker.new)) (R.remaining input)
        (Written (O.contents output.new) (O.contents output.old)) served.report) }
    ensures printed { OnOk result (lost_replies asker.new ≡ 0) }
    ensures plain { IfOk result (λ served. served.air ≡ None) }
{
    let ServiceList {
        configs,
        services,
        libraries,
        files: _,
    } = list;
    let watched = watched_for(is_verbose);
    let passage = Serving {
        configs: configs.as_slice(),
        services,
        libraries: libraries.as_slice(),
        hearing,
    };
    let ran = run_from(alloc, passage, asker, watched, is_live, input, output);
    let Ran { report, seen } = with_replies(ran, asker.has_lost_a_reply())?;
    Ok(Served {
        report,
        air: None,
        account: seen.map(|(read, written)| ServicesAccount { read, written }),
        warnings: None,
    })
}

/// Runs on air from a reader.
fn run_on_air<R, O, W, L, A, H, V>(
    alloc: Global,
    is_verbose: bool,
    is_live: bool,
    input: R,
    asker: &mut Asker<W, L>,
    configs: &[Config],
    services: AirServices,
    libraries: &[AdLibrary],
    watch: &mut A,
    hearing: &mut Hearing<H>,
    reading: V,
    output: &mut O,
) -> Result<Served, Stopped>
where
    R: Read + Drop,
    O: Write,
    W: Write + Drop,
    L: OpenListener + Drop,
    L::Stream: OpenStream + Read + Write + Drop,
    A: ServicesWatch,
    H: Watch + Copy + Drop,
    V: RecoveryWatch + Drop,
    requires stands { AirServicesStandFor services configs.now [] }
    requires begins { AirServicesBegin services configs.now }
    requires libraries { length libraries.now ≡ length configs.now }
    ensures done { IfOk result (λ served. PassesOnAir (AirServes (terms_by configs.now libraries.now) (AskerTells W.contents asker.old asker.new))
        (R.remaining input) (Written (O.contents output.new) (O.contents output.old)) served.report served.air) }
    ensures printed { OnOk result (lost_replies asker.new ≡ 0) }
{
    let watched = watched_for(is_verbose);
    let passage = ServingOnAir {
        configs,
        services,
        libraries,
        watch,
        hearing,
    };
    let ran = run_on_air_from(
        alloc, passage, asker, watched, is_live, input, reading, output,
    );
    let Ran { report, seen } = with_replies(ran, asker.has_lost_a_reply())?;
    let air = Some(air_counts(&report));
    Ok(Served {
        report: report.report.report,
        air,
        account: seen.map(|(read, written)| ServicesAccount { read, written }),
        warnings: None,
    })
}

/// Runs from a reader, on air where there are services for that. A run on air is told of on the stream, where there is one.
fn run_services_from<R, O, W, L, T, X, E>(
    alloc: Global,
    is_verbose: bool,
    is_live: bool,
    input: R,
    asker: &mut Asker<W, L>,
    list: ServiceList,
    on_air: Option<AirServices>,
    told: Option<T>,
    hearing: &mut Hearing<Listening<'_, X, E>>,
    output: &mut O,
) -> Result<Served, Stopped>
where
    R: Read + Drop,
    O: Write,
    W: Write + Drop,
    L: OpenListener + Drop,
    L::Stream: OpenStream + Read + Write + Drop,
    T: Write + Drop,
    X: Write,
    E: Write,
    requires ready { AreReady list }
    requires stands { AreOfConfigs on_air list.configs.items }
    ensures done { on_air ≡ None → IfOk result (λ served. PassesAll
        (Serves (terms_by list.configs.items list.libraries.items) (AskerTells W.contents asker.old asker.new)) (R.remaining input)
        (Written (O.contents output.new) (O.contents output.old)) served.report) }
    ensures printed { OnOk result (lost_replies asker.new ≡ 0) }
    ensures on_air { IsSome on_air → IfOk result (λ served. PassesOnAir
        (AirServes (terms_by list.configs.items list.libraries.items) (AskerTells W.contents asker.old asker.new)) (R.remaining input)
        (Written (O.contents output.new) (O.contents output.old)) served.report served.air) }
    ensures plain { on_air ≡ None → IfOk result (λ served. served.air ≡ None) }
{
    let Some(services) = on_air else {
        return run_plainly(
            alloc, is_verbose, is_live, input, asker, list, hearing, output,
        );
    };
    let (configs, libraries) = (list.configs.as_slice(), list.libraries.as_slice());
    let listening = hearing.watch;
    let teller = teller_of(told);
    let watch = &mut AirLog::new(TellingInTurn::new(teller.as_ref()), listening);
    let reading = TellingInTurn::new(teller.as_ref());
    run_on_air(
        alloc, is_verbose, is_live, input, asker, configs, services, libraries, watch, hearing,
        reading, output,
    )
}

/// What a run is opened with, but where its packets go.
#[derive(Drop)]
struct ServiceInputs<F, W, L> {
    network: Network<F>,
    asker: Asker<W, L>,
    /// What the system says of the script, where that is a file.
    script: Option<Metadata>,
    list: ServiceList,
    /// What the system says of the list, where that is a file.
    listed: Option<Metadata>,
}

/// Opens the network, then the script or the port, and then loads the list; the outputs are none of the files that it names.
fn open_inputs<R, I, W>(
    rt: &R,
    options: &ServicesOptions<'_>,
    input: &mut I,
    replies: W,
) -> Result<ServiceInputs<R::File, W, R::Listener>, Stopped>
where
    R: RunFiles + Net + AllocGlobal,
    I: Read,
    W: Drop,
    ensures ready { IfOk result (λ opened. AreReady opened.list) }
    ensures opened { IfOk result (λ opened. AreServiceInputs R.reads_at R.File.Read.remaining options.now (I.remaining input.old)
        (I.remaining input.new) opened) }
    ensures unflushed { IfErr result (λ stopped. stopped.is_flushed ≡ false) }
{
    let network = open_network(rt, options.network)?;
    let (asker, script) = open_asker(rt, options.asking, input, replies)?;
    let outputs = Outputs {
        output: options.output,
        events: options.events,
    };
    let (list, listed) = open_services(rt, options.services, outputs, input)?;
    Ok(ServiceInputs {
        network,
        asker,
        script,
        list,
        listed,
    })
}

/// Has the log write what was counted.
fn tell_report<X: Write, E: Write>(listening: Listening<'_, X, E>, served: &Served) {
    let report = &served.report;
    let messages = MessageCounts {
        messages: report.messages,
        accepted: report.accepted,
        refused: report.refused,
    };
    let air = served.air;
    listening.write(|log| log.report(Some(messages), None, air));
    for events in report.services.iter() {
        listening.write(|log| log.report_service(events.program, &events.switch));
    }
}

/// Runs from the network that was opened.
fn serve_network<F, I, O, W, L, T, X, E>(
    alloc: Global,
    is_verbose: bool,
    network: Network<F>,
    input: &mut I,
    asker: &mut Asker<W, L>,
    list: ServiceList,
    on_air: Option<AirServices>,
    told: Option<T>,
    hearing: &mut Hearing<Listening<'_, X, E>>,
    output: &mut O,
) -> Result<Served, Stopped>
where
    F: Read + Drop,
    I: Read,
    O: Write,
    W: Write + Drop,
    L: OpenListener + Drop,
    L::Stream: OpenStream + Read + Write + Drop,
    T: Write + Drop,
    X: Write,
    E: Write,
    requires ready { AreReady list }
    requires stands { AreOfConfigs on_air list.configs.items }
    ensures done { on_air ≡ None → IfOk result (λ served. PassesAll
        (Serves (terms_by list.configs.items list.libraries.items) (AskerTells W.contents asker.old asker.new))
        (known_from F.remaining network.file (I.remaining input.old)) (Written (O.contents output.new) (O.contents output.old))
        served.report) }
    ensures printed { OnOk result (lost_replies asker.new ≡ 0) }
    ensures on_air { IsSome on_air → IfOk result (λ served. PassesOnAir
        (AirServes (terms_by list.configs.items list.libraries.items) (AskerTells W.contents asker.old asker.new))
        (known_from F.remaining network.file (I.remaining input.old)) (Written (O.contents output.new) (O.contents output.old))
        served.report served.air) }
    ensures plain { on_air ≡ None → IfOk result (λ served. served.air ≡ None) }
{
    let is_live = network.is_live();
    let bytes = network.into_bytes(input);
    run_services_from(
        alloc, is_verbose, is_live, bytes, asker, list, on_air, told, hearing, output,
    )
}

/// Runs between opened ends, on air where there are services for that, and tells of the run.
fn run_ends<F, I, O, W, L, T, X, E>(
    alloc: Global,
    options: &ServicesOptions<'_>,
    opened: ServiceInputs<F, W, L>,
    on_air: Option<AirServices>,
    input: &mut I,
    told: Option<T>,
    telling: RefCell<Telling<X, E>>,
    output: &mut O,
) -> Result<Served, Stopped>
where
    F: Read + Drop,
    I: Read,
    O: Write,
    W: Write + Drop,
    L: OpenListener + Drop,
    L::Stream: OpenStream + Read + Write + Drop,
    T: Write + Drop,
    X: Write + Drop,
    E: Write + Drop,
    requires ready { AreReady opened.list }
    requires stands { AreOfConfigs on_air opened.list.configs.items }
    ensures done { on_air ≡ None → IfOk result (λ served. ServesAndPrints
        (terms_by opened.list.configs.items opened.list.libraries.items) (known_from F.remaining opened.network.file (I.remaining input.old))
        (Written (O.contents output.new) (O.contents output.old)) W.contents opened.asker served.report) }
    ensures on_air { IsSome on_air → IfOk result (λ served. ServesOnAirAndPrints
        (terms_by opened.list.configs.items opened.list.libraries.items) (known_from F.remaining opened.network.file (I.remaining input.old))
        (Written (O.contents output.new) (O.contents output.old)) W.contents opened.asker served.report served.air) }
    ensures plain { on_air ≡ None → IfOk result (λ served. served.air ≡ None) }
{
    let ServiceInputs {
        network,
        mut asker,
        script: _,
        list,
        listed: _,
    } = opened;
    let is_verbose = options.is_verbose;
    let listening = Listening::new(&telling);
    let overheard = tell_fault(&telling, overheard_of(alloc, listening.has_log()))?;
    let ran = {
        let hearing = &mut hearing_of(&telling, overheard);
        serve_network(
            alloc, is_verbose, network, input, &mut asker, list, on_air, told, hearing, output,
        )
    };
    let mut served = tell_fault(&telling, ran)?;
    tell_report(listening, &served);
    served.warnings = with_late(warnings_of(telling, options.is_on_air)?, &asker);
    Ok(served)
}

/// The services of a list that are run on air, where the options say so; their memory is taken here.
fn services_on_air_of(
    alloc: Global,
    options: &ServicesOptions<'_>,
    list: &ServiceList,
) -> Result<Option<AirServices>, Stopped>
    ensures on_air { options.now.is_on_air ≡ true → IfOk result IsSome }
    ensures stands { IfOk result (λ on_air. AreOfConfigs on_air list.now.configs.items) }
    ensures plain { options.now.is_on_air ≡ false → IfOk result (λ on_air. on_air ≡ None) }
    ensures unflushed { IfErr result (λ stopped. stopped.is_flushed ≡ false) }
{
    if !options.is_on_air {
        return Ok(None);
    }
    match AirServices::new(alloc, list.configs.as_slice()) {
        Ok(services) => Ok(Some(services)),
        Err(_) => Err(out_of_memory()),
    }
}

/// Opens the ends in their order, and runs to the file that the options name. `replies` is where replies are printed, and the log, where that
/// is no file; `faults` is the stream of faults.
fn run_to_file<R, I, W, T>(
    rt: &R,
    options: &ServicesOptions<'_>,
    input: &mut I,
    replies: W,
    faults: T,
) -> Result<Served, Stopped>
where
    R: RunFiles + Net + AllocGlobal,
    I: Read,
    W: Write + Copy + Drop,
    T: Write + Copy + Drop,
    ensures done { options.now.is_on_air ≡ false → IfOk result (λ served. ServesToFile R.Listener R.reads_at R.makes_at
        R.File.Read.remaining R.File.Write.contents W.contents options.now (I.remaining input.old) served.report) }
    ensures on_air { options.now.is_on_air ≡ true → IfOk result (λ served. ServesOnAirToFile R.Listener R.reads_at R.makes_at
        R.File.Read.remaining R.File.Write.contents W.contents options.now (I.remaining input.old) served.report served.air) }
    ensures plain { options.now.is_on_air ≡ false → IfOk result (λ served. served.air ≡ None) }
{
    let opened = open_inputs(rt, options, input, replies)?;
    let alloc = rt.alloc();
    let on_air = services_on_air_of(alloc, options, &opened.list)?;
    let about = opened.network.about.as_ref();
    let (script, listed) = (opened.script.as_ref(), opened.listed.as_ref());
    let inputs = [about, script, listed];
    let LogEnd { end, about: logged } = open_log(rt, options.events, replies, &inputs)?;
    let alarm = options.is_on_air.then_some(faults);
    let telling = telling_of(end, options.is_quiet, alarm);
    let made = make_output(
        rt,
        options.output,
        &[about, script, listed, logged.as_ref()],
    );
    let mut file = tell_fault(&telling, made)?;
    let told = (options.is_on_air && options.is_verbose).then_some(faults);
    run_ends(
        alloc, options, opened, on_air, input, told, telling, &mut file,
    )
}

/// Opens the ends in their order, and runs to standard output. `faults` is the stream of faults, where replies are printed too, and the log,
/// where that is no file.
fn run_to_standard<R, I, O, T>(
    rt: &R,
    options: &ServicesOptions<'_>,
    input: &mut I,
    output: &mut O,
    faults: T,
) -> Result<Served, Stopped>
where
    R: RunFiles + Net + AllocGlobal,
    I: Read,
    O: Write,
    T: Write + Copy + Drop,
    ensures done { options.now.is_on_air ≡ false → IfOk result (λ served. ServesBetween R.Listener R.reads_at R.File.Read.remaining
        T.contents options.now (I.remaining input.old) (Written (O.contents output.new) (O.contents output.old)) served.report) }
    ensures on_air { options.now.is_on_air ≡ true → IfOk result (λ served. ServesOnAirBetween R.Listener R.reads_at
        R.File.Read.remaining T.contents options.now (I.remaining input.old) (Written (O.contents output.new) (O.contents output.old))
        served.report served.air) }
    ensures plain { options.now.is_on_air ≡ false → IfOk result (λ served. served.air ≡ None) }
{
    let opened = open_inputs(rt, options, input, faults)?;
    let alloc = rt.alloc();
    let on_air = services_on_air_of(alloc, options, &opened.list)?;
    let about = opened.network.about.as_ref();
    let inputs = [about, opened.script.as_ref(), opened.listed.as_ref()];
    let LogEnd { end, about: _ } = open_log(rt, options.events, faults, &inputs)?;
    let alarm = options.is_on_air.then_some(faults);
    let telling = telling_of(end, options.is_quiet, alarm);
    let told = (options.is_on_air && options.is_verbose).then_some(faults);
    run_ends(alloc, options, opened, on_air, input, told, telling, output)
}

/// Runs the subcommand `services`: the network is opened first, then the script or the port, then the list is loaded line by line, with all
/// advertisements of each, and with the memory of the services, then the log and then the output file is opened. Then, where there is a port, a
/// client is waited for, but on air. Replies to a script are printed as they come, on `faults` where the packets go to standard output. With
/// `--verbose` a run on air is told of on `faults` while it goes on.
///
/// # Errors
///
/// `File` where a file could not be opened or made, `Accept` where no automation system could connect, `Script` or `Services` where that was
/// not loaded, `OutOfMemory` where the allocator refused memory. `Run` where the run stopped, else `Unflushed` where the output could not
/// be flushed at the end, else `Print` where a reply could not be printed, else `Log` where off air the log could not be written. What went
/// out before stands.
pub fn run_services_command<R, I, O, E>(
    rt: &R,
    options: &ServicesOptions<'_>,
    input: &mut I,
    output: &mut O,
    faults: &mut E,
) -> Result<Served, Stopped>
where
    R: RunFiles + Net + AllocGlobal,
    I: Read,
    O: Write,
    E: Write,
    ensures to_standard { options.now.is_on_air ≡ false → path_of options.now.output ≡ None → IfOk result (λ served. ServesBetween
        R.Listener R.reads_at R.File.Read.remaining ⟦<Sharing<'static, &'static mut E> as Write>⟧.contents options.now (I.remaining input.old)
        (Written (O.contents output.new) (O.contents output.old)) served.report) }
    ensures to_file { options.now.is_on_air ≡ false → IsSome (path_of options.now.output) → IfOk result (λ served. ServesToFile
        R.Listener R.reads_at R.makes_at R.File.Read.remaining R.File.Write.contents ⟦<Sharing<'static, &'static mut O> as Write>⟧.contents
        options.now (I.remaining input.old) served.report) }
    ensures airs_to_standard { options.now.is_on_air ≡ true → path_of options.now.output ≡ None → IfOk result (λ served.
        ServesOnAirBetween R.Listener R.reads_at R.File.Read.remaining ⟦<Sharing<'static, &'static mut E> as Write>⟧.contents options.now
        (I.remaining input.old) (Written (O.contents output.new) (O.contents output.old)) served.report served.air) }
    ensures airs_to_file { options.now.is_on_air ≡ true → IsSome (path_of options.now.output) → IfOk result (λ served. ServesOnAirToFile
        R.Listener R.reads_at R.makes_at R.File.Read.remaining R.File.Write.contents ⟦<Sharing<'static, &'static mut O> as Write>⟧.contents
        options.now (I.remaining input.old) served.report served.air) }
    ensures plain { options.now.is_on_air ≡ false → IfOk result (λ served. served.air ≡ None) }
{
    let stream = RefCell::new(faults);
    let faults = Sharing::new(&stream);
    if options.has_standard_output() {
        return run_to_standard(rt, options, input, output, faults);
    }
    let printed = RefCell::new(output);
    run_to_file(rt, options, input, Sharing::new(&printed), faults)
}
