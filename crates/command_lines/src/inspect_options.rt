//! The command line of the subcommand `inspect`: its options and their ranges.

ghost use Rattle.std.specs.Prelude.{IfOk, IfErr, codes, Some, unwrap_or, option_map};
ghost use Rattle.clap.specs.Words.{found_of, one_text};
ghost use Rattle.run_ends.specs.Ends.{IsNamed};
ghost use Rattle.command_lines.specs.Options.{given, IsFlag};
ghost use Rattle.command_lines.specs.Inspecting.{IsInspectOf, IsNoInspect, IsWanted, IsNotWanted};

use crate::command::{BadNumber, NumberOption};
use crate::given::is_verbose;
use crate::inject_options::NUMBER_LIMIT;
use crate::subcommand::{Subcommand, ValueOption, flag};
use crate::subcommands;
use clap::{ArgMatches, Command};
use decimal_numbers::number_within;
use run_ends::End;
use std::alloc::{AllocError, Global};

const INSPECT_ABOUT: &str = "Tells what is in a transport stream, and whether the chain takes it";

const INSPECT_LONG_ABOUT: &str =
    "Tells what is in a transport stream, whatever its bytes are, and whether the chain takes it.

The page says how many packets there are, and how many bytes are in none; the null packets; the bit rate by the clock references (PCR). For
each program it has its number, its name (SDT), the PIDs of its map (PMT) and of its clock, and a line for each stream: PID, type, language,
whether its units are switched to advertisements, how many units it has, their first and last time stamp, and how many random access points,
and how far apart they are at most. Then come the cues (SCTE 35), three PIDs that are free for cues, and `profile: yes` where the other
subcommands take the stream, or the first thing that is wrong, with its packet, counted from 0, and what to do about it.

Packets of 204 or 192 bytes are recognised. Times are ticks of 90 kHz, as in the stream.";

const INSPECT_EXAMPLE: &str =
    "Example, the program 1 alone, with the times at which it can be entered:
  dpi_chain inspect --in network.ts --program 1 --points

The same in a pipe, for other programs to read:
  dpi_chain inspect --points --json < network.ts

Exit status: 0 where the whole stream was read, whatever is in it; 1 at a fault of the input or the output, which is named on standard
error as `fault: NAME`; 2 where the command line is not taken, or asks for help or the version.";

/// How `inspect` is called.
pub const INSPECT_USAGE: &str =
    "dpi_chain inspect [--in <FILE>] [--program <N>] [--points] [--json] [--verbose]";

const INSPECT_OPTIONS: [ValueOption; 2] = [
    ValueOption {
        id: "in",
        value_name: "FILE",
        help: "The stream to read, a file or a pipe; - is standard input [default: -]",
        is_required: false,
    },
    ValueOption {
        id: "program",
        value_name: "N",
        help: "Tell and judge this program alone, a number from 1 to 65535 [default: tell all, judge the first]",
        is_required: false,
    },
];

pub(crate) const INSPECT: Subcommand = Subcommand {
    name: "inspect",
    about: INSPECT_ABOUT,
    long_about: INSPECT_LONG_ABOUT,
    example: INSPECT_EXAMPLE,
    usage: INSPECT_USAGE,
    options: &INSPECT_OPTIONS,
    verbose: "Tell more on standard error: where a fault stands, or what was read",
};

/// The subcommand as the command line has it.
pub(crate) fn inspect_command<'a>(alloc: Global) -> Result<Command<'a>, AllocError> {
    let points = flag(
        alloc,
        "points",
        "List the random access points of each stream",
    );
    let json = flag(
        alloc,
        "json",
        "Write one JSON object in place of the page (docs/INSPECT.md says its keys)",
    );
    subcommands::inspect()
        .command(alloc)?
        .arg(points)?
        .arg(json)
}

/// What `inspect` is to do.
#[derive(Clone, Copy, Debug, Drop)]
pub struct InspectOptions<'a> {
    /// What is read.
    pub input: End<'a>,
    /// The program that alone is told; all, where there is none.
    pub program: Option<u16>,
    /// Whether random access points are listed.
    pub has_points: bool,
    /// Whether an object is written in place of the page.
    pub is_json: bool,
    /// Whether more is told than the fault's line.
    pub is_verbose: bool,
}

/// Whether the flag of this name was given.
fn has_flag(matches: &ArgMatches<'_>, name: &str) -> bool
    ensures { IsFlag (one_text (found_of matches.now) name.now) result }
{
    matches.get_flag(name)
}

/// What is read: standard input, where no option says it.
fn input_of<'a>(matches: &ArgMatches<'a>) -> End<'a>
    ensures { IsNamed (Some (unwrap_or (given matches.now (codes "in")) (codes "-"))) result }
{
    match matches.get_str("in") {
        Some(text) => End::named(Some(text)),
        None => End::named(Some("-")),
    }
}

/// The program that alone is told, where the option was given.
fn program_of<'a>(text: Option<&'a str>) -> Result<Option<u16>, BadNumber<'a>>
    ensures taken { IfOk result (IsWanted (option_map (λ t. t.now) text.entry)) }
    ensures refused { IfErr result (IsNotWanted (option_map (λ t. t.now) text.entry)) }
{
    let Some(text) = text else {
        return Ok(None);
    };
    match number_within(text, 1, NUMBER_LIMIT) {
        Some(number) => Ok(Some(number as u16)),
        None => Err(BadNumber {
            option: NumberOption::Program,
            text,
        }),
    }
}

/// What the options of `inspect` say.
///
/// # Errors
///
/// Where the program's number is not in its range.
pub fn inspect_options<'a>(matches: &ArgMatches<'a>) -> Result<InspectOptions<'a>, BadNumber<'a>>
    ensures taken { IfOk result (IsInspectOf matches.now) }
    ensures refused { IfErr result (IsNoInspect matches.now) }
{
    let program = program_of(matches.get_str("program"))?;
    Ok(InspectOptions {
        input: input_of(matches),
        program,
        has_points: has_flag(matches, "points"),
        is_json: has_flag(matches, "json"),
        is_verbose: is_verbose(matches),
    })
}
