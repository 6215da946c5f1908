//! The command line of the subcommand `plan`: its options and their ranges.

ghost use Rattle.std.specs.Prelude.{◌≡◌, ◌^◌, ◌⊎◌, not, Some, None, IfOk, IfErr};
ghost use Rattle.decimal_numbers.specs.Numbers.{number_below, number_within};
ghost use Rattle.command_lines.specs.Command.{is_standard, are_two};
ghost use Rattle.command_lines.specs.Plans.{IsPlanOf, IsNoPlan};

use crate::command::{BadNumber, NumberOption};
use crate::given::{end_of, text_of};
use crate::inject_options::{ADVERTS, INDEX, NETWORK, NUMBER_LIMIT, PROGRAM, is_standard};
use crate::subcommand::{Subcommand, ValueOption};
use clap::ArgMatches;
use decimal_numbers::{number_below, number_within};
use run_ends::End;
use std::fmt;

const PLAN_ABOUT: &str =
    "Plans breaks in a program of a transport stream, and writes the script by which `run` makes them";

const PLAN_LONG_ABOUT: &str =
    "Plans breaks in a program of a transport stream, and writes the script by which `run` makes them. The list of breaks has lines that a person
writes:

  12.48 for 30 play 7             a break of 30 seconds with advertisement 7
  00:01:30.000 for 20 play 8 as 4 another one, whose event has the number 4
  pts 1933200 end 4               event 4 ends early
  40 cancel 1                     the event of line 1 is cancelled

A time is in seconds, or hours, minutes and seconds, behind the program's first one, or a time stamp in ticks of 90 kHz. An event that is
given no number has that of its line. What stands behind # is a comment. A break begins at the first entry picture at or behind its time,
within 10 seconds, and ends before such a picture where one lies within half a second of its length. An entry picture is a random access
picture that does not show that its numbers go on from the pictures before it: an IDR picture, or in HEVC a BLA picture. Each line is told on
standard output: what becomes of it, whether its edges are clean, whether the advertisement fits, and whether its first picture goes on from
pictures before it.";

const PLAN_EXAMPLE: &str = "Example:
  dpi_chain plan --network network.ts --program 1 --index 1 --adverts adverts.txt --breaks breaks.txt --script script.txt

The script is for `run --script`, over the same network.";

/// How `plan` is called.
pub const PLAN_USAGE: &str =
    "dpi_chain plan --network <FILE> --program <N> --index <N> --adverts <FILE> --breaks <FILE> --script <FILE>";

const BREAKS: ValueOption = ValueOption {
    id: "breaks",
    value_name: "FILE",
    help: "The list of breaks, lines of a time and what is to happen; - is standard input",
    is_required: true,
};

const SCRIPT_OUT: ValueOption = ValueOption {
    id: "script",
    value_name: "FILE",
    help: "The script to write, whose contents are replaced; it may not be an input",
    is_required: true,
};

const PLAN_OPTIONS: [ValueOption; 6] = [NETWORK, PROGRAM, INDEX, ADVERTS, BREAKS, SCRIPT_OUT];

pub(crate) const PLAN: Subcommand = Subcommand {
    name: "plan",
    about: PLAN_ABOUT,
    long_about: PLAN_LONG_ABOUT,
    example: PLAN_EXAMPLE,
    usage: PLAN_USAGE,
    options: &PLAN_OPTIONS,
    verbose: "",
};

/// What `plan` is to do.
#[derive(Clone, Copy, Debug, Drop)]
pub struct PlanOptions<'a> {
    /// The number of the program, not 0.
    pub program: u16,
    /// The `DPI_PID_index` of its messages.
    pub index: u16,
    /// What is read.
    pub network: End<'a>,
    /// The list of the advertisements.
    pub adverts: End<'a>,
    /// The list of the breaks.
    pub breaks: End<'a>,
    /// What is written.
    pub script: End<'a>,
}

/// Why the options of `plan` are not taken.
#[derive(Clone, Copy, Debug, Drop)]
pub enum BadPlan<'a> {
    /// An option's text is no number in its range.
    Number(BadNumber<'a>),
    /// More than one input is standard input.
    Inputs,
    /// The script is to be standard output.
    Script,
}

impl fmt::Display for BadPlan<'_> {
    fn fmt<W: fmt::Write>(&self, f: &mut fmt::Formatter<W>) -> fmt::Result {
        match self {
            BadPlan::Number(bad) => write!(f, "{bad}"),
            BadPlan::Inputs => write!(
                f,
                "error: only one of '--network <FILE>', '--adverts <FILE>' and '--breaks <FILE>' can be standard input"
            ),
            BadPlan::Script => write!(
                f,
                "error: '--script <FILE>' is a file to write, and not standard output"
            ),
        }
    }
}

/// At most one input is standard input.
fn are_apart(network: End<'_>, adverts: End<'_>, breaks: End<'_>) -> bool
    ensures { result ≡ not (are_two (is_standard network.entry) (is_standard adverts.entry) (is_standard breaks.entry)) }
{
    let is_network = is_standard(network);
    let is_list = is_standard(adverts);
    !(is_network && is_list) && !(is_standard(breaks) && (is_network || is_list))
}

/// The program and the index. The first of them that is not in its range is answered.
fn numbers_of<'a>(program: &'a str, index: &'a str) -> Result<(u16, u16), BadNumber<'a>>
    ensures program { IfOk result (λ x. number_within program.now 1 (2 ^ 16) ≡ Some x.0) }
    ensures index { IfOk result (λ x. number_below index.now (2 ^ 16) ≡ Some x.1) }
    ensures refused { IfErr result (λ bad. ((bad.option ≡ NumberOption.Program) × (bad.text.now ≡ program.now)
        × (number_within program.now 1 (2 ^ 16) ≡ None))
        ⊎ ((bad.option ≡ NumberOption.Index) × (bad.text.now ≡ index.now) × (number_below index.now (2 ^ 16) ≡ None))) }
{
    let Some(number) = number_within(program, 1, NUMBER_LIMIT) else {
        return Err(BadNumber {
            option: NumberOption::Program,
            text: program,
        });
    };
    match number_below(index, NUMBER_LIMIT) {
        Some(index) => Ok((number as u16, index as u16)),
        None => Err(BadNumber {
            option: NumberOption::Index,
            text: index,
        }),
    }
}

/// What the options of `plan` say.
///
/// # Errors
///
/// The first of the numbers that is not in its range; else `Inputs` where more than one input is standard input; else `Script` where the
/// script is to be standard output.
pub fn plan_options<'a>(matches: &ArgMatches<'a>) -> Result<PlanOptions<'a>, BadPlan<'a>>
    ensures taken { IfOk result (IsPlanOf matches.now) }
    ensures refused { IfErr result (IsNoPlan matches.now) }
{
    let (program, index) = match numbers_of(
        text_of(matches, "program"),
        text_of(matches, "index"),
    ) {
        Ok(numbers) => numbers,
        Err(bad) => return Err(BadPlan::Number(bad)),
    };
    let network = end_of(matches, "network");
    let adverts = end_of(matches, "adverts");
    let breaks = end_of(matches, "breaks");
    let script = end_of(matches, "script");
    if !are_apart(network, adverts, breaks) {
        return Err(BadPlan::Inputs);
    }
    if is_standard(script) {
        return Err(BadPlan::Script);
    }
    Ok(PlanOptions {
        program,
        index,
        network,
        adverts,
        breaks,
        script,
    })
}
