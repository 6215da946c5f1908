//! Why standard input was not answered to its end, and what the program says and ends with there.

ghost use Rattle.std.specs.Prelude.{◌≡◌, IfErr, IfSome, IsOk, OnOk};
ghost use Rattle.std.specs.Io.KnownBytes.{Appends};
ghost use Rattle.conformance.specs.Faults.{exit_status, fault_text};

use crate::program::Stop;
use crate::usage::USAGE;
use std::io::{self, ErrorKind, Write};

/// Why standard input was not answered to its end.
#[derive(Debug, Drop)]
pub enum Fault {
    /// Words stand behind the program's name.
    Words,
    /// A word behind the program's name is not UTF-8 text.
    NotText,
    /// The run stopped.
    Stopped(Stop),
}

impl From<Stop> for Fault {
    ghost use Rattle.std.specs.Prelude.{◌≡◌};
    ghost use Rattle.conformance.specs.declared.fault.Fault.TheVariants.{Stopped};

    ghost from_gives = { λ stop fault. fault ≡ Stopped stop };

    fn from(stop: Stop) -> Fault {
        Fault::Stopped(stop)
    }
}

/// Says what the fault is: behind a word how the program is used, and else its name, with the system's reason where a device failed.
pub fn write_fault<E: Write>(faults: &mut E, fault: &Fault) -> io::Result<()>
    ensures { OnOk result (IfSome (fault_text fault.now)
        (λ text. Appends (E.contents faults.old) (E.contents faults.new) text)) }
{
    match fault {
        Fault::Words => write!(faults, "{USAGE}"),
        Fault::NotText => writeln!(faults, "error: an argument is not UTF-8 text"),
        Fault::Stopped(Stop::TooManyLines) => {
            writeln!(faults, "fault: Io: more lines than can be counted")
        }
        Fault::Stopped(Stop::Io(error)) => match error.kind() {
            ErrorKind::OutOfMemory => writeln!(faults, "fault: OutOfMemory"),
            _ => writeln!(faults, "fault: Io: {error}"),
        },
    }
}

/// The exit status behind a run: 0 where it went through, 2 where the command line is at fault, and else 1.
pub fn status_of(outcome: &Result<(), Fault>) -> u8
    ensures done { IsOk outcome.now → result ≡ 0 }
    ensures fault { IfErr outcome.now (λ fault. result ≡ exit_status fault) }
{
    match outcome {
        Ok(()) => 0,
        Err(Fault::Words | Fault::NotText) => 2,
        Err(Fault::Stopped(_)) => 1,
    }
}
