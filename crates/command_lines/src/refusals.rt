//! What is told where a run came to a fault, or a command line names no run, and the exit status.

ghost use Rattle.std.specs.Prelude.{◌≡◌, ◌≢◌, ◌≤◌};
ghost use Rattle.std.specs.Bool.{OnTrue};
ghost use Rattle.std.specs.Io.KnownBytes.{Appends};
ghost use Rattle.clap.specs.Values.{kind_of};
ghost use Rattle.command_lines.specs.Faults.{fault_line};

use clap::Error;
use clap::error::ErrorKind;
use std::fmt;
use std::io::Write;

/// The exit status where all is done.
pub const DONE: u8 = 0;

/// The exit status after a fault, as where memory was refused.
const FAULT: u8 = 1;

/// The exit status where the command line is not taken.
pub const USAGE: u8 = 2;

/// Prints the line of the fault of this name, and answers whether it is out.
fn print_fault<E: Write>(faults: &mut E, name: &str) -> bool
    ensures { OnTrue result (Appends (E.contents faults.old) (E.contents faults.new) (fault_line name.now)) }
{
    writeln!(faults, "fault: {name}").is_ok()
}

/// Prints the line of the fault of this name, and answers the exit status.
pub fn report<E: Write>(faults: &mut E, name: &str) -> u8
    ensures { result ≡ 1 }
{
    let _ = print_fault(faults, name);
    FAULT
}

/// Answers a command line that names no run. Help or the version that was asked for is printed on `output`, what is wrong with a command line
/// that is not taken on `faults`. The exit status is 0 only where help or the version is out.
pub fn answer<O: Write, E: Write>(output: &mut O, faults: &mut E, error: &Error) -> u8
    ensures memory { kind_of error.now ≡ ErrorKind.OutOfMemory → result ≡ 1 }
    ensures help { kind_of error.now ≡ ErrorKind.DisplayHelp → result ≤ 1 }
    ensures version { kind_of error.now ≡ ErrorKind.DisplayVersion → result ≤ 1 }
    ensures mistake { kind_of error.now ≢ ErrorKind.OutOfMemory → kind_of error.now ≢ ErrorKind.DisplayHelp
        → kind_of error.now ≢ ErrorKind.DisplayVersion → (result ≡ 2) × (output.new ≡ output.old) }
    ensures done { result ≡ 0 → faults.new ≡ faults.old }
{
    match error.kind() {
        ErrorKind::OutOfMemory => report(faults, "OutOfMemory"),
        ErrorKind::DisplayHelp | ErrorKind::DisplayVersion => {
            if write!(output, "{error}").is_err() {
                return report(faults, "Io");
            }
            DONE
        }
        _ => {
            let _ = write!(faults, "{error}");
            USAGE
        }
    }
}

/// Prints why a command line is not taken, and how its subcommand is called.
pub fn refuse<E: Write, B: fmt::Display>(faults: &mut E, bad: &B, usage: &str) -> u8
    ensures { result ≡ 2 }
{
    let _ = write!(
        faults,
        "{bad}\n\nUsage: {usage}\n\nFor more information, try '--help'.\n"
    );
    USAGE
}
