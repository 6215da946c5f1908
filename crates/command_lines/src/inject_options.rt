//! Of the subcommands `inject` and `run` the options and their ranges.

ghost use Rattle.std.specs.Prelude.{◌≡◌, ◌^◌, ◌&&◌, IfOk, IfErr, Some, is_ok, not, is_none, IsSomeAnd, IfSome, codes, option_map, None};
ghost use Rattle.run_ends.specs.Ends.{name_of, path_of};
ghost use Rattle.decimal_numbers.specs.Numbers.{number_below, number_within};
ghost use Rattle.command_lines.specs.Command.{IsRefusedOf, refused_option, is_standard, is_asked_there, is_listed_there, are_two};
ghost use Rattle.command_lines.specs.Command.{AreShared, refused_text, shown_of, asking_name};
ghost use Rattle.command_lines.specs.Options.{IsAsking, IsNotAsking, IsInjectOf, IsRunOf, IsNoInject, IsNoRun};

use crate::command::{BadNumber, NumberOption};
use crate::given::{end_of, is_on_air, is_quiet, is_verbose, text_of};
use crate::subcommand::{Subcommand, ValueOption};
use clap::ArgMatches;
use decimal_numbers::{number_below, number_within};
use psi_tables::Config;
use run_ends::End;
use std::fmt;
use ts_packet::Pid;

/// The first number that two bytes do not hold.
pub(crate) const NUMBER_LIMIT: u64 = 0x1_0000;

/// The first PID that is not reserved.
pub(crate) const LEAST_PID: u64 = 0x10;

/// The PID of null packets.
pub(crate) const NULL_PID: u64 = 0x1FFF;

const INJECT_ABOUT: &str =
    "Puts cues (SCTE 35) into a transport stream, as an automation asks for them (SCTE 104)";

const INJECT_LONG_ABOUT: &str =
    "Puts cues (SCTE 35) into one program of a transport stream, as an automation system asks for them (SCTE 104).

Each message is judged at the packet before which its last byte came, by the greatest presentation time (PTS) of the program's
pictures and sound so far, and is answered at once. A break that was accepted is cued on the cue PID, which the program's map (PMT)
lists from then on: at once, and again every second up to its start. Starts, early ends and cancels are served.

With --script the messages stand in a text file, and the replies are lines `reply HEX` on standard output. With --listen one
automation system may connect to the port of this machine (127.0.0.1). It is waited for, and has the replies; it may close or fail,
and the stream goes on.

At the end standard output has three lines: how many `messages` came, and how many requests were `accepted` and `refused`. With
--out - the packets go to standard output, and the replies and these lines to standard error.

With --on-air no fault of the network ends the run, as a channel does not end. Bytes that are in no packet are left out. What cannot
be judged, as a scrambled packet or a unit with a damaged time stamp, goes out unjudged, as it came and at its place, and the rest
of its unit with it. Where the tables or the time base change all begins anew with that packet, in a new stretch: there is no clock
until the next time stamp, and the breaks that were accepted before are not cued on. With --listen the network waits for no client:
automation systems are served one after another, each until it closes or fails, does not take a reply, or sends a size that no
message has; what one has asked for stands when it goes. At the end of the network the status is 0, and five lines more stand behind these: how many `stretches` there were (1 where none began anew), how many accepted breaks were `lost`
at the end of one, how many packets went out `unjudged`, how many were marked in error for an adaptation field that does not fit
(`mended`), and how many bytes were left out (`skipped`). With --verbose each new stretch is told as it begins, and damage too, at most once in 16,384 packets of each kind.

With --events what happens is written to a file, one JSON object a line, as it happens: each request with its verdict, each cue, each
break. docs/EVENTS.md of the source has the keys. At the end of a good run warnings stand on standard error, unless --quiet is given: of
a program that was not found, a session that was closed by a bad size, lines of the script past the end of the network.

FILE may be a pipe, and - is standard input or output. What came in before a pause of the network goes out before it. The contents
of the output file are replaced; it may not be an input.";

const INJECT_EXAMPLE: &str =
    "Numbers are decimal digits: PID 496 is what other tools may show as 0x1F0 (0x1F0 is not taken).

A line of a script is the number of a packet of the network, from 0, a space, and the bytes of messages that come before that packet,
1 to 4096 of them as upper case digits. The numbers rise from line to line. This line asks, before packet 203, for break 1, which
starts in 4000 ms (0FA0), lasts 300 tenths of a second (012C) and is to play advertisement 7:
  203 FFFF001E00000500010000010101000E010000000100070FA0012C000001
and its reply is `reply 0007000E0064FFFF000005000105`: 0064 is success; from 8001 on it is the number of a refusal.

Example, program 1, whose automation uses DPI_PID_index 1:
  dpi_chain inject --network network.ts --program 1 --cue-pid 496 --index 1 --script breaks.txt --out cued.ts

The same from a pipe, with an automation system on port 5167:
  dpi_chain inject --network - --program 1 --cue-pid 496 --index 1 --listen 5167 --out cued.ts < network.ts

A channel in a pipe, which goes on behind its faults and tells of them:
  dpi_chain inject --network - --program 1 --cue-pid 496 --index 1 --listen 5167 --out - --on-air --verbose < network.ts > cued.ts

Exit status: 0 where the whole stream went through; 1 at a fault, which is named on standard error as `fault: NAME`, and
what went out before it stands (with --on-air only files, pipes, memory and the options have faults); 2 where the command line is not taken, or asks for help or the version.";

const RUN_ABOUT: &str =
    "Plays advertisements in the breaks that an automation asks for (SCTE 104), in one pass";

const RUN_LONG_ABOUT: &str =
    "Plays advertisements in the breaks that an automation system asks for (SCTE 104), in one program of a transport stream. The output is
what `splice` makes of the output of `inject`.

At the end standard output has the three lines of `inject` and the four of `splice`. With --out - the packets go to standard output,
and the replies and these lines to standard error. One of the network, the script and the list may be standard input. The contents of the
output file are replaced; it may not be an input.

With --events what happens is written to a file, one JSON object a line, as it happens: each request with its verdict, each cue, each
break, where it begins and is over, or why its advertisement does not fit, and each edge that is not clean. Warnings at the end of a
good run tell of such edges too, and of advertisements that are not in the list; --quiet turns them off.

With --on-air no fault of the network ends the run, and the report has five lines more; `dpi_chain inject --help` tells of them.";

const RUN_EXAMPLE: &str = "Example, with a list whose one line is `7 advert.ts`:
  dpi_chain run --network network.ts --program 1 --cue-pid 496 --index 1 --script breaks.txt --adverts list.txt --out spliced.ts

The same for a channel in a pipe, which goes on behind its faults and tells of them:
  dpi_chain run --network - --program 1 --cue-pid 496 --index 1 --listen 5167 --adverts list.txt --out - --on-air --verbose < network.ts > spliced.ts

`dpi_chain inject --help` tells of scripts and ports, `dpi_chain splice --help` of lists.";

/// How `run` is called.
pub const RUN_USAGE: &str =
    "dpi_chain run --network <FILE> --program <N> --cue-pid <PID> --index <N> <--script <FILE>|--listen <PORT>> --adverts <FILE> --out <FILE> [--events <FILE>] [--on-air] [--quiet] [--verbose]";

/// How `inject` is called.
pub const INJECT_USAGE: &str =
    "dpi_chain inject --network <FILE> --program <N> --cue-pid <PID> --index <N> <--script <FILE>|--listen <PORT>> --out <FILE> [--events <FILE>] [--on-air] [--quiet] [--verbose]";

pub(crate) const NETWORK: ValueOption = ValueOption {
    id: "network",
    value_name: "FILE",
    help: "The transport stream to read, a file or a pipe of 188-byte packets; - is standard input",
    is_required: true,
};

pub(crate) const PROGRAM: ValueOption = ValueOption {
    id: "program",
    value_name: "N",
    help: "The program's number (program_number), from 1 to 65535",
    is_required: true,
};

const CUE_PID: ValueOption = ValueOption {
    id: "cue-pid",
    value_name: "PID",
    help: "The PID for the cues, from 16 to 8190, which nothing in the network uses, as 496 (0x1F0)",
    is_required: true,
};

pub(crate) const INDEX: ValueOption = ValueOption {
    id: "index",
    value_name: "N",
    help: "The DPI_PID_index of the messages to this program, from 0 to 65535",
    is_required: true,
};

pub(crate) const SCRIPT: ValueOption = ValueOption {
    id: "script",
    value_name: "FILE",
    help: "The messages as lines of text, a packet's number, a space and digits; - is standard input",
    is_required: false,
};

pub(crate) const LISTEN: ValueOption = ValueOption {
    id: "listen",
    value_name: "PORT",
    help: "The port of this machine, from 1 to 65535, to which one automation system may connect",
    is_required: false,
};

pub(crate) const ADVERTS: ValueOption = ValueOption {
    id: "adverts",
    value_name: "FILE",
    help: "The list of the advertisements, lines of a number, a space and a path; - is standard input",
    is_required: true,
};

pub(crate) const OUT: ValueOption = ValueOption {
    id: "out",
    value_name: "FILE",
    help: "The file to write, whose contents are replaced; - is standard output",
    is_required: true,
};

pub(crate) const EVENTS: ValueOption = ValueOption {
    id: "events",
    value_name: "FILE",
    help: "The file to write what happens to, a JSON object a line, whose contents are replaced; - is standard output",
    is_required: false,
};

const INJECT_OPTIONS: [ValueOption; 8] = [
    NETWORK, PROGRAM, CUE_PID, INDEX, SCRIPT, LISTEN, OUT, EVENTS,
];

const RUN_OPTIONS: [ValueOption; 9] = [
    NETWORK, PROGRAM, CUE_PID, INDEX, SCRIPT, LISTEN, ADVERTS, OUT, EVENTS,
];

const INJECT_VERBOSE: &str =
    "Tell more on standard error: where a fault stands, or how many cues and packets went out";

/// What `--verbose` does in `run` and `splice`.
pub(crate) const PLAYING_VERBOSE: &str =
    "Tell more on standard error: where a fault stands, or how many packets were read and written";

pub(crate) const INJECT: Subcommand = Subcommand {
    name: "inject",
    about: INJECT_ABOUT,
    long_about: INJECT_LONG_ABOUT,
    example: INJECT_EXAMPLE,
    usage: INJECT_USAGE,
    options: &INJECT_OPTIONS,
    verbose: INJECT_VERBOSE,
};

pub(crate) const RUN: Subcommand = Subcommand {
    name: "run",
    about: RUN_ABOUT,
    long_about: RUN_LONG_ABOUT,
    example: RUN_EXAMPLE,
    usage: RUN_USAGE,
    options: &RUN_OPTIONS,
    verbose: PLAYING_VERBOSE,
};

/// Where the messages come from.
#[derive(Clone, Copy, Debug, PartialEq, Eq, Drop)]
pub enum Asking<'a> {
    /// A script.
    Script(End<'a>),
    /// The client of a port of this machine.
    Port(u16),
}

impl<'a> Asking<'a> {
    /// What the end is called where the messages come from.
    pub fn name(&self) -> &'a str
        ensures { result.now ≡ asking_name self.now }
    {
        match *self {
            Asking::Script(end) => end.input_name(),
            Asking::Port(_) => "the port",
        }
    }
}

/// What `inject` is to do.
#[derive(Clone, Copy, Debug, Drop)]
pub struct InjectOptions<'a> {
    /// The program, the PID of its cues and the `DPI_PID_index` of its messages.
    pub config: Config,
    /// What is read.
    pub network: End<'a>,
    /// Where the messages come from.
    pub asking: Asking<'a>,
    /// The list of the advertisements, where they are to be played.
    pub adverts: Option<End<'a>>,
    /// What is written.
    pub output: End<'a>,
    /// What is written of what happens; `Lines` where nothing is.
    pub events: End<'a>,
    /// Whether the run goes on behind faults of the network.
    pub is_on_air: bool,
    /// Whether nothing is warned of at the end of a good run.
    pub is_quiet: bool,
    /// Whether more is told than the fault's line.
    pub is_verbose: bool,
}

impl<'a> InjectOptions<'a> {
    /// Whether the packets go to standard output.
    pub fn has_standard_output(&self) -> bool
        ensures { result ≡ is_none (path_of self.now.output) }
    {
        self.output.path().is_none()
    }

    /// What the end is called where the messages come from.
    pub fn asking_name(&self) -> &'a str
        ensures { result.now ≡ asking_name self.now.asking }
    {
        self.asking.name()
    }

    /// What the list is called, where there is one.
    pub fn adverts_name(&self) -> &'a str
        ensures { IfSome self.now.adverts (λ end. result.now ≡ name_of (codes "standard input") end) }
    {
        match self.adverts {
            Some(end) => end.input_name(),
            None => "",
        }
    }
}

/// What is said where the packets and what happens go to standard output both.
pub(crate) const EVENTS_TEXT: &str =
    "error: '--out <FILE>' and '--events <FILE>' cannot both be standard output";

/// Why the options of `inject` or `run` are not taken.
#[derive(Clone, Copy, Debug, Drop)]
pub enum BadInject<'a> {
    /// An option's text is no number in its range.
    Number(BadNumber<'a>),
    /// Neither a script nor a port is given, or both are.
    Asking,
    /// The network and the script are both standard input.
    Input,
    /// Two of the network, the script and the list are standard input.
    ListInput,
    /// The packets and what happens go to standard output both.
    Events,
}

impl fmt::Display for BadInject<'_> {
    fn fmt<W: fmt::Write>(&self, f: &mut fmt::Formatter<W>) -> fmt::Result {
        match self {
            BadInject::Number(bad) => write!(f, "{bad}"),
            BadInject::Asking => write!(
                f,
                "error: exactly one of '--script <FILE>' and '--listen <PORT>' is to be given"
            ),
            BadInject::Input => write!(
                f,
                "error: '--network <FILE>' and '--script <FILE>' cannot both be standard input"
            ),
            BadInject::ListInput => write!(
                f,
                "error: only one of '--network <FILE>', '--script <FILE>' and '--adverts <FILE>' can be standard input"
            ),
            BadInject::Events => write!(f, "{EVENTS_TEXT}"),
        }
    }
}

/// An option's text that is no number in its range.
fn bad_number<'a>(option: NumberOption, text: &'a str) -> BadInject<'a>
    ensures option { refused_option result ≡ Some option }
    ensures text { refused_text result ≡ Some text.now }
{
    BadInject::Number(BadNumber { option, text })
}

/// The program, its cue PID and its index. The first of them that is not in its range is answered.
fn config_of<'a>(
    program: &'a str,
    cue_pid: &'a str,
    index: &'a str,
) -> Result<Config, BadInject<'a>>
    ensures program { IfOk result (λ c. number_within program.now 1 (2 ^ 16) ≡ Some c.program) }
    ensures cue_pid { IfOk result (λ c. number_within cue_pid.now 16 8191 ≡ Some c.cue_pid) }
    ensures index { IfOk result (λ c. number_below index.now (2 ^ 16) ≡ Some c.index) }
    ensures refused { IfErr result (λ bad. IsSomeAnd (refused_option bad)
        (λ option. IsRefusedOf option program.now cue_pid.now index.now)) }
    ensures text { IfErr result (λ bad. IfSome (refused_option bad)
        (λ option. refused_text bad ≡ Some (shown_of option program.now cue_pid.now index.now))) }
{
    let Some(number) = number_within(program, 1, NUMBER_LIMIT) else {
        return Err(bad_number(NumberOption::Program, program));
    };
    let Some(pid) = number_within(cue_pid, LEAST_PID, NULL_PID).and_then(|pid| Pid::new(pid as u16))
    else {
        return Err(bad_number(NumberOption::CuePid, cue_pid));
    };
    let Some(index_number) = number_below(index, NUMBER_LIMIT) else {
        return Err(bad_number(NumberOption::Index, index));
    };
    match Config::new(number as u16, pid, index_number as u16) {
        Ok(config) => Ok(config),
        Err(_) => Err(bad_number(NumberOption::CuePid, cue_pid)),
    }
}

/// Where the messages come from: exactly one option says it.
pub(crate) fn asking_of<'a>(
    script: Option<&'a str>,
    listen: Option<&'a str>,
) -> Result<Asking<'a>, BadInject<'a>>
    ensures asked { IfOk result
        (IsAsking (option_map (λ t. t.now) script.entry) (option_map (λ t. t.now) listen.entry)) }
    ensures refused { IfErr result
        (IsNotAsking (option_map (λ t. t.now) script.entry) (option_map (λ t. t.now) listen.entry)) }
{
    match (script, listen) {
        (Some(script), None) => Ok(Asking::Script(End::named(Some(script)))),
        (None, Some(port)) => match number_within(port, 1, NUMBER_LIMIT) {
            Some(number) => Ok(Asking::Port(number as u16)),
            None => Err(bad_number(NumberOption::Port, port)),
        },
        _ => Err(BadInject::Asking),
    }
}

/// Whether the end is standard input.
pub(crate) fn is_standard(end: End<'_>) -> bool
    ensures { result ≡ is_standard end.entry }
{
    match end {
        End::Standard => true,
        End::Lines | End::File(_) => false,
    }
}

/// Whether the messages come from standard input.
fn is_asked_there(asking: Asking<'_>) -> bool
    ensures { result ≡ is_asked_there asking.entry }
{
    match asking {
        Asking::Script(end) => is_standard(end),
        Asking::Port(_) => false,
    }
}

/// Whether the list does, where there is one.
fn is_listed_there(adverts: Option<End<'_>>) -> bool
    ensures { result ≡ is_listed_there adverts.entry }
{
    match adverts {
        Some(end) => is_standard(end),
        None => false,
    }
}

/// The network, the messages and the list, where there is one, come from different ends: one of them alone may be standard input.
pub(crate) fn check_inputs<'a>(
    network: End<'a>,
    asking: Asking<'a>,
    adverts: Option<End<'a>>,
) -> Result<(), BadInject<'a>>
    ensures one { is_ok result ≡ not (are_two (is_standard network.entry) (is_asked_there asking.entry)
        (is_listed_there adverts.entry)) }
    ensures which { IfErr result (AreShared network.entry asking.entry adverts.entry) }
{
    let is_network = is_standard(network);
    let is_script = is_asked_there(asking);
    let is_list = is_listed_there(adverts);
    if is_network && is_script {
        return Err(BadInject::Input);
    }
    if is_list && (is_network || is_script) {
        return Err(BadInject::ListInput);
    }
    Ok(())
}

/// Whether the packets and what happens go to standard output both.
pub(crate) fn share_output(output: End<'_>, events: End<'_>) -> bool
    ensures { result ≡ (is_standard output.entry && is_standard events.entry) }
{
    is_standard(output) && is_standard(events)
}

/// What the options of `inject` say, and where the subcommand has a list those of `run`.
fn asked_options<'a>(
    matches: &ArgMatches<'a>,
    adverts: Option<End<'a>>,
) -> Result<InjectOptions<'a>, BadInject<'a>>
    ensures taken { IfOk result (IsInjectOf matches.now adverts.entry) }
    ensures refused { IfErr result (IsNoInject matches.now adverts.entry) }
{
    let program = text_of(matches, "program");
    let cue_pid = text_of(matches, "cue-pid");
    let index = text_of(matches, "index");
    let config = config_of(program, cue_pid, index)?;
    let asking = asking_of(matches.get_str("script"), matches.get_str("listen"))?;
    let network = end_of(matches, "network");
    check_inputs(network, asking, adverts)?;
    let output = end_of(matches, "out");
    let events = end_of(matches, "events");
    if share_output(output, events) {
        return Err(BadInject::Events);
    }
    Ok(InjectOptions {
        config,
        network,
        asking,
        adverts,
        output,
        events,
        is_quiet: is_quiet(matches),
        is_on_air: is_on_air(matches),
        is_verbose: is_verbose(matches),
    })
}

/// What the options of `inject` say.
///
/// # Errors
///
/// The first of the numbers that is not in its range; `Asking` where not exactly one of a script and a port is given; `Input` where
/// the network and the script are both standard input; `Events` where the packets and what happens go to standard output both.
pub fn inject_options<'a>(matches: &ArgMatches<'a>) -> Result<InjectOptions<'a>, BadInject<'a>>
    ensures taken { IfOk result (IsInjectOf matches.now None) }
    ensures refused { IfErr result (IsNoInject matches.now None) }
{
    asked_options(matches, None)
}

/// What the options of `run` say.
///
/// # Errors
///
/// As for [`inject_options`]; and `ListInput` where the list and another input are standard input.
pub fn run_options<'a>(matches: &ArgMatches<'a>) -> Result<InjectOptions<'a>, BadInject<'a>>
    ensures taken { IfOk result (IsRunOf matches.now) }
    ensures refused { IfErr result (IsNoRun matches.now) }
{
    asked_options(matches, Some(end_of(matches, "adverts")))
}
