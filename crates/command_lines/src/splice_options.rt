//! The command line of the subcommand `splice`: its options and their ranges.

ghost use Rattle.std.specs.Prelude.{◌≡◌, ◌^◌, ◌&&◌, not, is_ok, is_none, IfOk, IfErr, Some, IsSomeAnd, IfSome, []};
ghost use Rattle.run_ends.specs.Ends.{path_of};
ghost use Rattle.decimal_numbers.specs.Numbers.{number_within};
ghost use Rattle.command_lines.specs.Command.{IsRefusedOfSplice, refused_of_splice, refused_text_of_splice, shown_of, is_standard};
ghost use Rattle.command_lines.specs.Options.{IsSpliceOf, IsNoSplice};

use crate::command::{BadNumber, NumberOption};
use crate::given::{end_of, is_on_air, is_quiet, is_verbose, text_of};
use crate::inject_options::{
    ADVERTS, EVENTS, EVENTS_TEXT, LEAST_PID, NETWORK, NULL_PID, NUMBER_LIMIT, OUT, PLAYING_VERBOSE,
    PROGRAM, is_standard, share_output,
};
use crate::subcommand::{Subcommand, ValueOption};
use clap::ArgMatches;
use decimal_numbers::number_within;
use psi_tables::Config;
use run_ends::End;
use std::fmt;
use ts_packet::Pid;

const SPLICE_ABOUT: &str =
    "Plays advertisements in the breaks that the cues (SCTE 35) of a transport stream announce";

const SPLICE_LONG_ABOUT: &str =
    "Plays advertisements in the breaks of one program of a transport stream, as the cues (SCTE 35) on its cue PID announce them.

Where a break was cued before it starts, and the list has an advertisement of its number (unique_program_id) that fills it to half a
second, the units (PES packets) of the program's pictures and sound whose presentation time (PTS) lies in the break are left out, and
those of the advertisement go out in their place, with their time stamps moved to the start of the break. All other units pass with
their own times, and all other PIDs byte for byte. The cues go no further, and the program's map (PMT) lists their PID no more.

The list names one advertisement a line: its number from 0 to 65535, a space, and the path of its transport stream.

At the end standard output has four lines: how many breaks were `played`, how many had no advertisement that fits (`not-fitted`), at
how many played breaks units stepped back over the start or the end (`unconditioned`), and how many cues were
`ignored`. With --out - the packets go to standard output, and these lines to standard error.

With --on-air no fault of the network ends the run, as a channel does not end. Bytes that are in no packet are left out. What cannot
be judged, as a scrambled packet or a unit with a damaged time stamp, goes out unjudged, as it came and at its place, and the rest
of its unit with it. Where the tables or the time base change all begins anew with that packet, in a new stretch: there is no clock
until the next time stamp, and what played is broken off. At the end of the network the status is 0, and five lines more stand
behind these: how many `stretches` there were (1 where none began anew), how many announced breaks were `lost` at the end of one,
how many packets went out `unjudged`, how many were marked in error for an adaptation field that does not fit (`mended`), and how
many bytes were left out (`skipped`). With --verbose each new stretch is told as it begins.

FILE may be a pipe, and - is standard input or output. What came in before a pause of the network goes out before it. The contents
of the output file are replaced; it may not be an input.";

const SPLICE_EXAMPLE: &str =
    "Numbers are decimal digits: PID 496 is what other tools may show as 0x1F0 (0x1F0 is not taken).

Example, with a list whose one line is `7 advert.ts`:
  dpi_chain splice --network cued.ts --program 1 --cue-pid 496 --adverts list.txt --out spliced.ts

The same for a channel in a pipe, which goes on behind its faults:
  dpi_chain splice --network - --program 1 --cue-pid 496 --adverts list.txt --out - --on-air < cued.ts > spliced.ts

Exit status: 0 where the whole stream went through; 1 at a fault, which is named on standard error as `fault: NAME`, and
what went out before it stands (with --on-air only files, pipes, memory and the options have faults); 2 where the command line is not taken, or asks for help or the version.";

/// How `splice` is called.
pub const SPLICE_USAGE: &str =
    "dpi_chain splice --network <FILE> --program <N> --cue-pid <PID> --adverts <FILE> --out <FILE> [--events <FILE>] [--on-air] [--quiet] [--verbose]";

const CUE_PID: ValueOption = ValueOption {
    id: "cue-pid",
    value_name: "PID",
    help: "The PID of the cues, from 16 to 8190, as 496 (0x1F0)",
    is_required: true,
};

const SPLICE_OPTIONS: [ValueOption; 6] = [NETWORK, PROGRAM, CUE_PID, ADVERTS, OUT, EVENTS];

pub(crate) const SPLICE: Subcommand = Subcommand {
    name: "splice",
    about: SPLICE_ABOUT,
    long_about: SPLICE_LONG_ABOUT,
    example: SPLICE_EXAMPLE,
    usage: SPLICE_USAGE,
    options: &SPLICE_OPTIONS,
    verbose: PLAYING_VERBOSE,
};

/// What `splice` is to do.
#[derive(Clone, Copy, Debug, Drop)]
pub struct SpliceOptions<'a> {
    /// The program, and the PID of its cues.
    pub config: Config,
    /// What is read.
    pub network: End<'a>,
    /// The list of the advertisements.
    pub adverts: End<'a>,
    /// What is written.
    pub output: End<'a>,
    /// What is written of what happens; `Lines` where nothing is.
    pub events: End<'a>,
    /// Whether the run goes on behind faults of the network.
    pub is_on_air: bool,
    /// Whether nothing is warned of at the end of a good run.
    pub is_quiet: bool,
    /// Whether more is told than the fault's line.
    pub is_verbose: bool,
}

impl SpliceOptions<'_> {
    /// Whether the packets go to standard output.
    pub fn has_standard_output(&self) -> bool
        ensures { result ≡ is_none (path_of self.now.output) }
    {
        self.output.path().is_none()
    }
}

/// Why the options of `splice` are not taken.
#[derive(Clone, Copy, Debug, Drop)]
pub enum BadSplice<'a> {
    /// An option's text is no number in its range.
    Number(BadNumber<'a>),
    /// The network and the list are both standard input.
    Input,
    /// The packets and what happens go to standard output both.
    Events,
}

impl fmt::Display for BadSplice<'_> {
    fn fmt<W: fmt::Write>(&self, f: &mut fmt::Formatter<W>) -> fmt::Result {
        match self {
            BadSplice::Number(bad) => write!(f, "{bad}"),
            BadSplice::Input => write!(
                f,
                "error: '--network <FILE>' and '--adverts <FILE>' cannot both be standard input"
            ),
            BadSplice::Events => write!(f, "{EVENTS_TEXT}"),
        }
    }
}

/// An option's text that is no number in its range.
fn bad_number<'a>(option: NumberOption, text: &'a str) -> BadSplice<'a>
    ensures option { refused_of_splice result ≡ Some option }
    ensures text { refused_text_of_splice result ≡ Some text.now }
{
    BadSplice::Number(BadNumber { option, text })
}

/// The program and its cue PID. The first of them that is not in its range is answered. No index is asked for; it is 0.
fn config_of<'a>(program: &'a str, cue_pid: &'a str) -> Result<Config, BadSplice<'a>>
    ensures program { IfOk result (λ c. number_within program.now 1 (2 ^ 16) ≡ Some c.program) }
    ensures cue_pid { IfOk result (λ c. number_within cue_pid.now 16 8191 ≡ Some c.cue_pid) }
    ensures index { IfOk result (λ c. c.index ≡ 0) }
    ensures refused { IfErr result (λ bad. IsSomeAnd (refused_of_splice bad)
        (λ option. IsRefusedOfSplice option program.now cue_pid.now)) }
    ensures text { IfErr result (λ bad. IfSome (refused_of_splice bad)
        (λ option. refused_text_of_splice bad ≡ Some (shown_of option program.now cue_pid.now []))) }
{
    let Some(number) = number_within(program, 1, NUMBER_LIMIT) else {
        return Err(bad_number(NumberOption::Program, program));
    };
    let Some(pid) = number_within(cue_pid, LEAST_PID, NULL_PID).and_then(|pid| Pid::new(pid as u16))
    else {
        return Err(bad_number(NumberOption::CuePid, cue_pid));
    };
    match Config::new(number as u16, pid, 0) {
        Ok(config) => Ok(config),
        Err(_) => Err(bad_number(NumberOption::CuePid, cue_pid)),
    }
}

/// The network and the list come from different ends: one of them alone may be standard input.
fn check_inputs<'a>(network: End<'a>, adverts: End<'a>) -> Result<(), BadSplice<'a>>
    ensures one { is_ok result ≡ not (is_standard network.entry && is_standard adverts.entry) }
    ensures which { IfErr result (λ bad. bad ≡ BadSplice.Input) }
{
    if is_standard(network) && is_standard(adverts) {
        return Err(BadSplice::Input);
    }
    Ok(())
}

/// What the options of `splice` say.
///
/// # Errors
///
/// The first of the numbers that is not in its range; `Input` where the network and the list are both standard input; `Events` where the
/// packets and what happens go to standard output both.
pub fn splice_options<'a>(matches: &ArgMatches<'a>) -> Result<SpliceOptions<'a>, BadSplice<'a>>
    ensures taken { IfOk result (IsSpliceOf matches.now) }
    ensures refused { IfErr result (IsNoSplice matches.now) }
{
    let program = text_of(matches, "program");
    let cue_pid = text_of(matches, "cue-pid");
    let config = config_of(program, cue_pid)?;
    let network = end_of(matches, "network");
    let adverts = end_of(matches, "adverts");
    check_inputs(network, adverts)?;
    let output = end_of(matches, "out");
    let events = end_of(matches, "events");
    if share_output(output, events) {
        return Err(BadSplice::Events);
    }
    Ok(SpliceOptions {
        config,
        network,
        adverts,
        output,
        events,
        is_quiet: is_quiet(matches),
        is_on_air: is_on_air(matches),
        is_verbose: is_verbose(matches),
    })
}
