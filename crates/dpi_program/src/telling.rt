//! What is told of a run besides its report: the log of events, and warnings.

ghost use Rattle.std.specs.Prelude.{◌≡◌, None, IfErr, IfOk, true, false, is_ok, is_some};

use event_logs::{EventLog, Listening, Telling, Warnings};
use passages::air_telling::AirTeller;
use passages::asking::Asker;
use passages::fault::{ProgramFault, fault_name};
use passages::running::{out_of_memory, stopped};
use passages::tell::{Side, Stopped};
use run_events::{Hearing, Overheard};
use std::alloc::Global;
use std::cell::RefCell;
use std::io::Write;

/// What hears of a run: its log goes there, where there is one, and it is warned of or not. On air the alarm says at once where the log ends.
pub(crate) fn telling_of<W: Write, E: Write>(
    log: Option<W>,
    is_quiet: bool,
    alarm: Option<E>,
) -> RefCell<Telling<W, E>> {
    let warnings = if is_quiet {
        None
    } else {
        Some(Warnings::new())
    };
    RefCell::new(Telling::new(log.map(EventLog::new), warnings, alarm))
}

/// What tells of a run on air on this stream, where there is one.
pub(crate) fn teller_of<T: Write + Drop>(told: Option<T>) -> Option<RefCell<AirTeller<T>>> {
    match told {
        Some(stream) => Some(RefCell::new(AirTeller::new(stream))),
        None => None,
    }
}

/// Memory for the messages of an automation, where each is to be told.
///
/// # Errors
///
/// `OutOfMemory` where the allocator refused it.
pub(crate) fn overheard_of(alloc: Global, has_log: bool) -> Result<Option<Overheard>, Stopped>
    ensures room { IfOk result (λ overheard. is_some overheard ≡ has_log) }
    ensures fault { IfErr result (λ stopped. stopped.fault ≡ ProgramFault.OutOfMemory) }
    ensures unflushed { IfErr result (λ stopped. stopped.is_flushed ≡ false) }
{
    if !has_log {
        return Ok(None);
    }
    match Overheard::new_in(alloc) {
        Ok(overheard) => Ok(Some(overheard)),
        Err(_) => Err(out_of_memory()),
    }
}

/// Who hears of a run.
pub(crate) fn hearing_of<'a, W: Write, E: Write>(
    telling: &'a RefCell<Telling<W, E>>,
    overheard: Option<Overheard>,
) -> Hearing<Listening<'a, W, E>> {
    Hearing {
        watch: Listening::new(telling),
        overheard,
    }
}

/// Has the log write by which fault a run stopped, where it did.
pub(crate) fn tell_fault<T: Drop, W: Write, E: Write>(
    telling: &RefCell<Telling<W, E>>,
    ran: Result<T, Stopped>,
) -> Result<T, Stopped>
    ensures { result ≡ ran }
{
    if let Err(stopped) = &ran {
        let name = fault_name(stopped.fault);
        Listening::new(telling).write(|log| log.fault(name));
    }
    ran
}

/// What is to be warned of, of a run whose log was written whole.
///
/// # Errors
///
/// `Log` off air where a line of the log could not be written.
pub(crate) fn warnings_of<W: Write + Drop, E: Drop>(
    telling: RefCell<Telling<W, E>>,
    is_on_air: bool,
) -> Result<Option<Warnings>, Stopped>
    ensures on_air { is_on_air ≡ true → is_ok result ≡ true }
    ensures fault { IfErr result (λ stopped. stopped.fault ≡ ProgramFault.Log) }
    ensures side { IfErr result (λ stopped. stopped.side ≡ Side.Telling) }
    ensures unflushed { IfErr result (λ stopped. stopped.is_flushed ≡ false) }
{
    let (log, warnings) = telling.into_inner().into_parts();
    let lost = match log {
        Some(log) => log.into_lost(),
        None => None,
    };
    match lost {
        Some(reason) if !is_on_air => {
            Err(stopped(ProgramFault::Log, Side::Telling, Some(reason)))
        }
        _ => Ok(warnings),
    }
}

/// The warnings, with the lines of the script that lie past the network's end.
pub(crate) fn with_late<W, L>(warnings: Option<Warnings>, asker: &Asker<W, L>) -> Option<Warnings>
    ensures { is_some result ≡ is_some warnings }
{
    let Some(mut warnings) = warnings else {
        return None;
    };
    warnings.late(asker.late_lines(warnings.packets()));
    Some(warnings)
}

/// Prints what is to be warned of.
pub(crate) fn print_warnings<E: Write>(faults: &mut E, warnings: &Option<Warnings>)
    ensures { warnings.now ≡ None → faults.new ≡ faults.old }
{
    if let Some(warnings) = warnings {
        warnings.print(faults);
    }
}
