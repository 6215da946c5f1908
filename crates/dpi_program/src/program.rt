//! The program: a command line, standard streams and files in, an exit status out.

ghost use Rattle.std.specs.Prelude.{◌≡◌, ◌≤◌, None, IsSome, true, false, IfOk, IfErr, ◌++◌};
ghost use Rattle.std.specs.Bool.{OnTrue};
ghost use Rattle.std.specs.Io.KnownBytes.{Appends};
ghost use Rattle.run_ends.specs.Ends.{path_of};
ghost use Rattle.dpi_program.specs.Commands.{IsPrinted, spliced_lines, injected_lines, services_lines, served_lines};
ghost use Rattle.dpi_program.specs.Cutting.{CutsBetween, CutsToFile};
ghost use Rattle.dpi_program.specs.Statuses.{SplicesToStandardStream, SplicesToNamedFile, InjectsToStandardStream};
ghost use Rattle.dpi_program.specs.Statuses.{InjectsToNamedFile, ServesToStandardStream, ServesToNamedFile};
ghost use Rattle.dpi_program.specs.Statuses.{SplicesOnAirToStandardStream, SplicesOnAirToNamedFile, InjectsOnAirToStandardStream};
ghost use Rattle.dpi_program.specs.Statuses.{InjectsOnAirToNamedFile, ServesOnAirToStandardStream, ServesOnAirToNamedFile};

use crate::cutting::run_cut;
use crate::ends::RunFiles;
use crate::injecting::{Injected, run_inject_command};
use crate::inspecting::run_inspect_command;
use crate::planning::run_plan_command;
use crate::requesting::run_request_command;
use crate::serving::{Served, run_services_command};
use crate::sharing::Sharing;
use crate::splicing::{Spliced, run_splice_command};
use crate::telling::print_warnings;
use chain_services::ServiceEvents;
use command_lines::command::{CUT_USAGE, CutOptions, command, cut_options};
use command_lines::inject_options::{
    INJECT_USAGE, InjectOptions, RUN_USAGE, inject_options, run_options,
};
use command_lines::inspect_options::{INSPECT_USAGE, InspectOptions, inspect_options};
use command_lines::plan_options::{PLAN_USAGE, plan_options};
use command_lines::refusals::{DONE, USAGE, answer, refuse, report};
use command_lines::services_options::{SERVICES_USAGE, ServicesOptions, services_options};
use command_lines::splice_options::{SPLICE_USAGE, SpliceOptions, splice_options};
use passages::fault::{ProgramFault, fault_name};
use passages::tell::{Account, Side, SpliceAccount, Stopped, Trouble};
use report_texts::{print_air_counts, print_messages, print_report, print_service, print_switched};
use std::io::{Read, Write};
use std::net::Net;
use std::rt::Files;

/// Prints the fault's line, and behind it what is known of it where that is asked for.
fn report_stopped<E: Write>(faults: &mut E, options: &CutOptions<'_>, stopped: &Stopped) -> u8
    ensures { result ≡ 1 }
{
    let status = report(faults, fault_name(stopped.fault));
    if options.is_verbose && stopped.fault != ProgramFault::OutOfMemory {
        let name = match stopped.side {
            Side::Reading => options.input.input_name(),
            _ => options.output.output_name(),
        };
        let trouble = Trouble { stopped, name };
        let _ = write!(faults, "{trouble}");
    }
    status
}

/// Prints the fault's line of a run with cues, and behind it what is known of it where that is asked for.
fn report_inject<E: Write>(faults: &mut E, options: &InjectOptions<'_>, stopped: &Stopped) -> u8
    ensures { result ≡ 1 }
{
    let status = report(faults, fault_name(stopped.fault));
    if options.is_verbose && stopped.fault != ProgramFault::OutOfMemory {
        let name = match stopped.side {
            Side::Reading => options.network.input_name(),
            Side::Writing => options.output.output_name(),
            Side::Scripting => options.asking_name(),
            Side::Listening => options.asking_name(),
            Side::Filing => options.adverts_name(),
            Side::Printing => "the standard stream",
            Side::Telling => options.events.output_name(),
        };
        let trouble = Trouble { stopped, name };
        let _ = write!(faults, "{trouble}");
    }
    status
}

/// Prints the report of a run with cues, and answers whether it is out.
fn print_injected<W: Write>(printed: &mut W, injected: &Injected) -> bool
    ensures { OnTrue result (Appends (W.contents printed.old) (W.contents printed.new) (injected_lines injected.now)) }
{
    if !print_report(printed, &injected.report, injected.plays) {
        return false;
    }
    match &injected.air {
        Some(counts) => print_air_counts(printed, counts),
        None => true,
    }
}

/// Tells what a run with cues came to, and answers the exit status.
fn tell_injected<O: Write, E: Write>(
    options: &InjectOptions<'_>,
    injected: Result<Injected, Stopped>,
    output: &mut O,
    faults: &mut E,
) -> u8
    ensures status { result ≤ 1 }
    ensures stopped { IfErr injected (λ _. result ≡ 1) }
    ensures output { path_of options.now.output ≡ None → output.new ≡ output.old }
    ensures printed { IsSome (path_of options.now.output) → result ≡ 0
        → IfOk injected (λ ran. Appends (O.contents output.old) (O.contents output.new) (injected_lines ran)) }
    ensures told { path_of options.now.output ≡ None → result ≡ 0 → IfOk injected (λ ran. IsPrinted E.contents (injected_lines ran)) }
{
    let injected = match injected {
        Ok(injected) => injected,
        Err(stopped) => return report_inject(faults, options, &stopped),
    };
    let is_out = if options.has_standard_output() {
        print_injected(faults, &injected)
    } else {
        print_injected(output, &injected)
    };
    if !is_out {
        return report(faults, fault_name(ProgramFault::Print));
    }
    let warnings = injected.warnings;
    if let Some(account) = injected.account {
        let _ = write!(faults, "{account}");
    }
    print_warnings(faults, &warnings);
    DONE
}

/// Runs `inject` or `run`, and answers the exit status.
fn inject<R, I, O, E>(
    rt: &R,
    options: &InjectOptions<'_>,
    input: &mut I,
    output: &mut O,
    faults: &mut E,
) -> u8
where
    R: RunFiles + Net + AllocGlobal,
    I: Read,
    O: Write,
    E: Write,
    ensures status { result ≤ 1 }
    ensures to_standard { options.now.is_on_air ≡ false → path_of options.now.output ≡ None → result ≡ 0 → InjectsToStandardStream
        R.Listener R.reads_at R.File.Read.remaining ⟦<Sharing<'static, &'static mut E> as Write>⟧.contents O.contents E.contents options.now
        (I.remaining input.old) output.old output.new }
    ensures to_file { options.now.is_on_air ≡ false → IsSome (path_of options.now.output) → result ≡ 0 → InjectsToNamedFile
        R.Listener R.reads_at R.makes_at R.File.Read.remaining R.File.Write.contents ⟦<Sharing<'static, &'static mut O> as Write>⟧.contents O.contents
        options.now (I.remaining input.old) output.new }
    ensures airs_to_standard { options.now.is_on_air ≡ true → path_of options.now.output ≡ None → result ≡ 0
        → InjectsOnAirToStandardStream R.Listener R.reads_at R.File.Read.remaining ⟦<Sharing<'static, &'static mut E> as Write>⟧.contents O.contents
        E.contents options.now (I.remaining input.old) output.old output.new }
    ensures airs_to_file { options.now.is_on_air ≡ true → IsSome (path_of options.now.output) → result ≡ 0 → InjectsOnAirToNamedFile
        R.Listener R.reads_at R.makes_at R.File.Read.remaining R.File.Write.contents ⟦<Sharing<'static, &'static mut O> as Write>⟧.contents O.contents
        options.now (I.remaining input.old) output.new }
{
    let injected = run_inject_command(rt, options, input, output, faults);
    tell_injected(options, injected, output, faults)
}

/// Prints the fault's line of a run with advertisements, and behind it what is known of it where that is asked for.
fn report_splice<E: Write>(faults: &mut E, options: &SpliceOptions<'_>, stopped: &Stopped) -> u8
    ensures { result ≡ 1 }
{
    let status = report(faults, fault_name(stopped.fault));
    if options.is_verbose && stopped.fault != ProgramFault::OutOfMemory {
        let name = match stopped.side {
            Side::Reading => options.network.input_name(),
            Side::Writing => options.output.output_name(),
            Side::Telling => options.events.output_name(),
            _ => options.adverts.input_name(),
        };
        let trouble = Trouble { stopped, name };
        let _ = write!(faults, "{trouble}");
    }
    status
}

/// Prints the report of a run with advertisements, and answers whether it is out.
fn print_spliced<W: Write>(printed: &mut W, spliced: &Spliced) -> bool
    ensures { OnTrue result (Appends (W.contents printed.old) (W.contents printed.new) (spliced_lines spliced.now)) }
{
    if !print_switched(printed, &spliced.report) {
        return false;
    }
    match &spliced.air {
        Some(counts) => print_air_counts(printed, counts),
        None => true,
    }
}

/// Tells what a run with advertisements came to, and answers the exit status.
fn tell_spliced<O: Write, E: Write>(
    options: &SpliceOptions<'_>,
    spliced: Result<Spliced, Stopped>,
    output: &mut O,
    faults: &mut E,
) -> u8
    ensures status { result ≤ 1 }
    ensures stopped { IfErr spliced (λ _. result ≡ 1) }
    ensures output { path_of options.now.output ≡ None → output.new ≡ output.old }
    ensures printed { IsSome (path_of options.now.output) → result ≡ 0
        → IfOk spliced (λ ran. Appends (O.contents output.old) (O.contents output.new) (spliced_lines ran)) }
    ensures told { path_of options.now.output ≡ None → result ≡ 0 → IfOk spliced (λ ran. IsPrinted E.contents (spliced_lines ran)) }
{
    let spliced = match spliced {
        Ok(spliced) => spliced,
        Err(stopped) => return report_splice(faults, options, &stopped),
    };
    let is_out = if options.has_standard_output() {
        print_spliced(faults, &spliced)
    } else {
        print_spliced(output, &spliced)
    };
    if !is_out {
        return report(faults, fault_name(ProgramFault::Print));
    }
    let warnings = spliced.warnings;
    if let Some((read, written)) = spliced.seen {
        let account = SpliceAccount { read, written };
        let _ = write!(faults, "{account}");
    }
    print_warnings(faults, &warnings);
    DONE
}

/// Runs `splice`, and answers the exit status.
fn splice<R, I, O, E>(
    rt: &R,
    options: &SpliceOptions<'_>,
    input: &mut I,
    output: &mut O,
    faults: &mut E,
) -> u8
where
    R: RunFiles + AllocGlobal,
    I: Read,
    O: Write,
    E: Write,
    ensures status { result ≤ 1 }
    ensures to_standard { options.now.is_on_air ≡ false → path_of options.now.output ≡ None → result ≡ 0 → SplicesToStandardStream
        R.reads_at R.File.Read.remaining O.contents E.contents options.now
        (I.remaining input.old) output.old output.new }
    ensures to_file { options.now.is_on_air ≡ false → IsSome (path_of options.now.output) → result ≡ 0 → SplicesToNamedFile
        R.reads_at R.makes_at R.File.Read.remaining R.File.Write.contents O.contents
        options.now (I.remaining input.old) output.new }
    ensures airs_to_standard { options.now.is_on_air ≡ true → path_of options.now.output ≡ None → result ≡ 0
        → SplicesOnAirToStandardStream R.reads_at R.File.Read.remaining O.contents E.contents options.now
        (I.remaining input.old) output.old output.new }
    ensures airs_to_file { options.now.is_on_air ≡ true → IsSome (path_of options.now.output) → result ≡ 0 → SplicesOnAirToNamedFile
        R.reads_at R.makes_at R.File.Read.remaining R.File.Write.contents O.contents
        options.now (I.remaining input.old) output.new }
{
    let spliced = run_splice_command(rt, options, input, output, faults);
    tell_spliced(options, spliced, output, faults)
}

/// Prints what became of the events of these services, and answers whether the lines are out.
fn print_services<W: Write>(printed: &mut W, services: &[ServiceEvents]) -> bool
    ensures { OnTrue result (Appends (W.contents printed.old) (W.contents printed.new) (services_lines services.now)) }
{
    let mut rest = services;
    while let Some((events, behind)) = rest.split_first() {
        if !print_service(printed, events.program, &events.switch) {
            return false;
        }
        rest = behind;
    }
    true
}

/// Prints the report of a run of several services, and answers whether it is out.
fn print_served<W: Write>(printed: &mut W, served: &Served) -> bool
    ensures { OnTrue result (Appends (W.contents printed.old) (W.contents printed.new) (served_lines served.now)) }
{
    let report = &served.report;
    if !print_messages(printed, report.messages, report.accepted, report.refused) {
        return false;
    }
    if !print_services(printed, report.services.as_slice()) {
        return false;
    }
    match &served.air {
        Some(counts) => print_air_counts(printed, counts),
        None => true,
    }
}

/// Prints the fault's line of a run of several services, and behind it what is known of it where that is asked for.
fn report_services<E: Write>(faults: &mut E, options: &ServicesOptions<'_>, stopped: &Stopped) -> u8
    ensures { result ≡ 1 }
{
    let status = report(faults, fault_name(stopped.fault));
    if options.is_verbose && stopped.fault != ProgramFault::OutOfMemory {
        let name = match stopped.side {
            Side::Reading => options.network.input_name(),
            Side::Writing => options.output.output_name(),
            Side::Scripting => options.asking_name(),
            Side::Listening => options.asking_name(),
            Side::Filing => options.services.input_name(),
            Side::Printing => "the standard stream",
            Side::Telling => options.events.output_name(),
        };
        let trouble = Trouble { stopped, name };
        let _ = write!(faults, "{trouble}");
    }
    status
}

/// Tells what a run of several services came to, and answers the exit status.
fn tell_served<O: Write, E: Write>(
    options: &ServicesOptions<'_>,
    served: Result<Served, Stopped>,
    output: &mut O,
    faults: &mut E,
) -> u8
    ensures status { result ≤ 1 }
    ensures stopped { IfErr served (λ _. result ≡ 1) }
    ensures output { path_of options.now.output ≡ None → output.new ≡ output.old }
    ensures printed { IsSome (path_of options.now.output) → result ≡ 0
        → IfOk served (λ ran. Appends (O.contents output.old) (O.contents output.new) (served_lines ran)) }
    ensures told { path_of options.now.output ≡ None → result ≡ 0 → IfOk served (λ ran. IsPrinted E.contents (served_lines ran)) }
{
    let served = match served {
        Ok(served) => served,
        Err(stopped) => return report_services(faults, options, &stopped),
    };
    let is_out = if options.has_standard_output() {
        print_served(faults, &served)
    } else {
        print_served(output, &served)
    };
    if !is_out {
        return report(faults, fault_name(ProgramFault::Print));
    }
    let warnings = served.warnings;
    if let Some(account) = served.account {
        let _ = write!(faults, "{account}");
    }
    print_warnings(faults, &warnings);
    DONE
}

/// Runs `services`, and answers the exit status.
fn services<R, I, O, E>(
    rt: &R,
    options: &ServicesOptions<'_>,
    input: &mut I,
    output: &mut O,
    faults: &mut E,
) -> u8
where
    R: RunFiles + Net + AllocGlobal,
    I: Read,
    O: Write,
    E: Write,
    ensures status { result ≤ 1 }
    ensures to_standard { options.now.is_on_air ≡ false → path_of options.now.output ≡ None → result ≡ 0 → ServesToStandardStream
        R.Listener R.reads_at R.File.Read.remaining ⟦<Sharing<'static, &'static mut E> as Write>⟧.contents O.contents E.contents options.now
        (I.remaining input.old) output.old output.new }
    ensures to_file { options.now.is_on_air ≡ false → IsSome (path_of options.now.output) → result ≡ 0 → ServesToNamedFile
        R.Listener R.reads_at R.makes_at R.File.Read.remaining R.File.Write.contents ⟦<Sharing<'static, &'static mut O> as Write>⟧.contents O.contents
        options.now (I.remaining input.old) output.new }
    ensures airs_to_standard { options.now.is_on_air ≡ true → path_of options.now.output ≡ None → result ≡ 0
        → ServesOnAirToStandardStream R.Listener R.reads_at R.File.Read.remaining ⟦<Sharing<'static, &'static mut E> as Write>⟧.contents O.contents
        E.contents options.now (I.remaining input.old) output.old output.new }
    ensures airs_to_file { options.now.is_on_air ≡ true → IsSome (path_of options.now.output) → result ≡ 0 → ServesOnAirToNamedFile
        R.Listener R.reads_at R.makes_at R.File.Read.remaining R.File.Write.contents ⟦<Sharing<'static, &'static mut O> as Write>⟧.contents O.contents
        options.now (I.remaining input.old) output.new }
{
    let served = run_services_command(rt, options, input, output, faults);
    tell_served(options, served, output, faults)
}

/// Tells what a cut came to, and answers the exit status.
fn tell_cut<E: Write>(
    options: &CutOptions<'_>,
    account: Result<Option<Account>, Stopped>,
    faults: &mut E,
) -> u8
    ensures status { result ≤ 1 }
    ensures stopped { IfErr account (λ _. result ≡ 1) }
    ensures silent { IfOk account (λ done. done ≡ None → faults.new ≡ faults.old) }
{
    match account {
        Ok(account) => {
            if let Some(account) = account {
                let _ = write!(faults, "{account}");
            }
            DONE
        }
        Err(stopped) => report_stopped(faults, options, &stopped),
    }
}

/// Runs `cut`, and answers the exit status.
fn cut<R, I, O, E>(
    rt: &R,
    options: &CutOptions<'_>,
    input: &mut I,
    output: &mut O,
    faults: &mut E,
) -> u8
where
    R: RunFiles + AllocGlobal,
    I: Read,
    O: Write,
    E: Write,
    ensures status { result ≤ 1 }
    ensures to_standard { path_of options.now.output ≡ None → result ≡ 0 → CutsBetween R.reads_at R.File.Read.remaining options.now
        (I.remaining input.old) (O.contents output.old) (O.contents output.new) }
    ensures to_file { IsSome (path_of options.now.output) → result ≡ 0 → CutsToFile R.reads_at R.makes_at R.File.Read.remaining
        R.File.Write.contents options.now (I.remaining input.old) }
    ensures unread { IsSome (path_of options.now.input) → input.new ≡ input.old }
    ensures unprinted { IsSome (path_of options.now.output) → output.new ≡ output.old }
    ensures silent { options.now.is_verbose ≡ false → result ≡ 0 → faults.new ≡ faults.old }
{
    let account = run_cut(rt, options, input, output);
    tell_cut(options, account, faults)
}

/// Prints the fault's line of an inspection, and behind it what is known of it where that is asked for.
fn report_inspect<E: Write>(faults: &mut E, options: &InspectOptions<'_>, stopped: &Stopped) -> u8
    ensures { result ≡ 1 }
{
    let status = report(faults, fault_name(stopped.fault));
    if options.is_verbose && stopped.fault != ProgramFault::OutOfMemory {
        let name = match stopped.side {
            Side::Printing => "standard output",
            _ => options.input.input_name(),
        };
        let trouble = Trouble { stopped, name };
        let _ = write!(faults, "{trouble}");
    }
    status
}

/// Tells what an inspection came to, and answers the exit status.
fn tell_inspected<E: Write>(
    options: &InspectOptions<'_>,
    inspected: Result<u64, Stopped>,
    faults: &mut E,
) -> u8
    ensures status { result ≤ 1 }
    ensures stopped { IfErr inspected (λ _. result ≡ 1) }
    ensures silent { options.now.is_verbose ≡ false → IfOk inspected (λ _. faults.new ≡ faults.old) }
{
    match inspected {
        Ok(packets) => {
            if options.is_verbose {
                let _ = writeln!(faults, "inspect: {packets} packets read");
            }
            DONE
        }
        Err(stopped) => report_inspect(faults, options, &stopped),
    }
}

/// Runs `inspect`, and answers the exit status.
fn inspect<R, I, O, E>(
    rt: &R,
    options: &InspectOptions<'_>,
    input: &mut I,
    output: &mut O,
    faults: &mut E,
) -> u8
where
    R: Files + AllocGlobal,
    I: Read,
    O: Write,
    E: Write,
    ensures status { result ≤ 1 }
    ensures silent { options.now.is_verbose ≡ false → result ≡ 0 → faults.new ≡ faults.old }
{
    let inspected = run_inspect_command(rt, options, input, output);
    tell_inspected(options, inspected, faults)
}

/// Runs the program with the words after its name, and answers its exit status: 0 where all is done, also where help or the version was asked
/// for, whose text is then on `output`; 1 after a fault, with the one line `fault: NAME` on `faults`; 2 where the command line is not taken,
/// with a text for the user on `faults`. With `--verbose` one more line stands on `faults`, behind the fault's or alone.
pub fn program<R, I, O, E>(
    rt: &R,
    words: &[&str],
    input: &mut I,
    output: &mut O,
    faults: &mut E,
) -> u8
where
    R: RunFiles + Net + AllocGlobal,
    I: Read,
    O: Write,
    E: Write,
    ensures { result ≤ 2 }
{
    let Ok(line) = command(rt.alloc()) else {
        return report(faults, fault_name(ProgramFault::OutOfMemory));
    };
    let matches = match line.try_get_matches_from(words) {
        Ok(matches) => matches,
        Err(error) => return answer(output, faults, &error),
    };
    if let Some(given) = matches.subcommand_matches("cut") {
        return match cut_options(given) {
            Ok(options) => cut(rt, &options, input, output, faults),
            Err(bad) => refuse(faults, &bad, CUT_USAGE),
        };
    }
    if let Some(given) = matches.subcommand_matches("splice") {
        return match splice_options(given) {
            Ok(options) => splice(rt, &options, input, output, faults),
            Err(bad) => refuse(faults, &bad, SPLICE_USAGE),
        };
    }
    if let Some(given) = matches.subcommand_matches("services") {
        return match services_options(given) {
            Ok(options) => services(rt, &options, input, output, faults),
            Err(bad) => refuse(faults, &bad, SERVICES_USAGE),
        };
    }
    if let Some(given) = matches.subcommand_matches("inspect") {
        return match inspect_options(given) {
            Ok(options) => inspect(rt, &options, input, output, faults),
            Err(bad) => refuse(faults, &bad, INSPECT_USAGE),
        };
    }
    if let Some(given) = matches.subcommand_matches("request") {
        return run_request_command(given, output, faults);
    }
    if let Some(given) = matches.subcommand_matches("plan") {
        return match plan_options(given) {
            Ok(options) => run_plan_command(rt, &options, input, output, faults),
            Err(bad) => refuse(faults, &bad, PLAN_USAGE),
        };
    }
    let (asked, usage) = if let Some(given) = matches.subcommand_matches("run") {
        (run_options(given), RUN_USAGE)
    } else if let Some(given) = matches.subcommand_matches("inject") {
        (inject_options(given), INJECT_USAGE)
    } else {
        return USAGE;
    };
    match asked {
        Ok(options) => inject(rt, &options, input, output, faults),
        Err(bad) => refuse(faults, &bad, usage),
    }
}
