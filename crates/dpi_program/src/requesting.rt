//! The subcommand `request`: one message as a line of digits.

ghost use Rattle.std.specs.Prelude.{◌≡◌, ◌≤◌};
ghost use Rattle.request_texts.specs.Lines.{PrintsRequest};
ghost use Rattle.dpi_program.specs.Requesting.{PrintsAsked};

use clap::ArgMatches;
use command_lines::refusals::{DONE, USAGE, refuse, report};
use command_lines::request_help::REQUEST_USAGE;
use command_lines::request_options::request_options;
use passages::fault::{ProgramFault, fault_name};
use request_texts::{RequestLine, print_request};
use std::io::Write;

/// Prints the line of a message, and answers the exit status, which is 0 only where the line is out.
fn print_line<O: Write, E: Write>(line: &RequestLine, output: &mut O, faults: &mut E) -> u8
    ensures status { result ≤ 1 }
    ensures printed { result ≡ 0 → PrintsRequest line.now (O.contents output.old) (O.contents output.new) }
    ensures silent { result ≡ 0 → faults.new ≡ faults.old }
{
    if print_request(output, line) {
        return DONE;
    }
    report(faults, fault_name(ProgramFault::Print))
}

/// Prints the line that a kind of message of this name and its options ask for, and answers the exit status.
fn request<'a, O: Write, E: Write>(
    name: &'a str,
    matches: &ArgMatches<'a>,
    output: &mut O,
    faults: &mut E,
) -> u8
    ensures status { result ≤ 2 }
    ensures printed { result ≡ 0 → PrintsAsked name.now matches.now (O.contents output.old) (O.contents output.new) }
    ensures silent { result ≡ 0 → faults.new ≡ faults.old }
{
    match request_options(name, matches) {
        Ok(line) => print_line(&line, output, faults),
        Err(bad) => refuse(faults, &bad, REQUEST_USAGE),
    }
}

/// Runs the subcommand `request`, and answers the exit status.
pub fn run_request_command<O: Write, E: Write>(
    matches: &ArgMatches<'_>,
    output: &mut O,
    faults: &mut E,
) -> u8
    ensures { result ≤ 2 }
{
    match matches.subcommand() {
        Some((name, given)) => request(name, given, output, faults),
        None => USAGE,
    }
}
