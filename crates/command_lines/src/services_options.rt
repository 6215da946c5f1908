//! The command line of the subcommand `services`: its options and their ranges.

ghost use Rattle.std.specs.Prelude.{◌≡◌, is_none, IfOk, IfErr};
ghost use Rattle.run_ends.specs.Ends.{path_of};
ghost use Rattle.command_lines.specs.Command.{asking_name};
ghost use Rattle.command_lines.specs.Services.{IsServicesOf, IsNoServices};

use crate::given::{end_of, is_on_air, is_quiet, is_verbose};
use crate::inject_options::{
    Asking, BadInject, EVENTS, EVENTS_TEXT, LISTEN, NETWORK, OUT, PLAYING_VERBOSE, SCRIPT,
    asking_of, check_inputs, share_output,
};
use crate::subcommand::{Subcommand, ValueOption};
use clap::ArgMatches;
use run_ends::End;
use std::fmt;

const SERVICES_ABOUT: &str =
    "Plays advertisements in the breaks of up to eight programs of one transport stream, as one automation asks for them (SCTE 104)";

const SERVICES_LONG_ABOUT: &str =
    "Plays advertisements in up to eight programs of one transport stream, in the breaks that one automation system asks for (SCTE 104). Each
program has a service: what `run` does, with its own clock, its own breaks and its own advertisements. A message is for the service whose
DPI_PID_index it has; a break of one program leaves all others as they are.

The list has a line for each service: the program's number, the PID for its cues, its DPI_PID_index and the path of its list of
advertisements, as `run` has it, with one space behind each number. No two of them may have one program, one index or one PID for cues,
and in the network the map, the streams and the cues of each need PIDs of their own.

At the end standard output has the three lines of `inject`, and then for each service, in the order of the list, a line `service` with
the program's number and the four lines of `splice`. With --out - the packets go to standard output, and the replies and these lines to
standard error. One of the network, the script and the list may be standard input. The contents of the output file are replaced; it may
not be an input.

With --on-air no fault of the network ends the run, and the report has five lines more; `dpi_chain inject --help` tells of them. Each
program has stretches of its own: what is wrong with one program, or with a packet of it, leaves the others as they are. Where two
services share a PID, the later one in the list begins anew behind the packet that makes it known. With --verbose the line of a new
stretch begins with `service` and the program's number.";

const SERVICES_EXAMPLE: &str =
    "Example, with a list whose two lines are `1 496 1 news.txt` and `2 497 2 films.txt`, and as lists of advertisements the files news.txt and
films.txt:
  dpi_chain services --network network.ts --services list.txt --script breaks.txt --out spliced.ts

`dpi_chain inject --help` tells of scripts and ports, `dpi_chain splice --help` of lists of advertisements.";

/// How `services` is called.
pub const SERVICES_USAGE: &str =
    "dpi_chain services --network <FILE> --services <FILE> <--script <FILE>|--listen <PORT>> --out <FILE> [--events <FILE>] [--on-air] [--quiet] [--verbose]";

const SERVICES_LIST: ValueOption = ValueOption {
    id: "services",
    value_name: "FILE",
    help: "The list of the services, lines of three numbers and a path: program, cue PID, index, advertisements; - is standard input",
    is_required: true,
};

const SERVICES_OPTIONS: [ValueOption; 6] = [NETWORK, SERVICES_LIST, SCRIPT, LISTEN, OUT, EVENTS];

pub(crate) const SERVICES: Subcommand = Subcommand {
    name: "services",
    about: SERVICES_ABOUT,
    long_about: SERVICES_LONG_ABOUT,
    example: SERVICES_EXAMPLE,
    usage: SERVICES_USAGE,
    options: &SERVICES_OPTIONS,
    verbose: PLAYING_VERBOSE,
};

/// What `services` is to do.
#[derive(Clone, Copy, Debug, Drop)]
pub struct ServicesOptions<'a> {
    /// What is read.
    pub network: End<'a>,
    /// Where the messages come from.
    pub asking: Asking<'a>,
    /// The list of the services.
    pub services: End<'a>,
    /// What is written.
    pub output: End<'a>,
    /// What is written of what happens; `Lines` where nothing is.
    pub events: End<'a>,
    /// Whether the run goes on behind faults of the network.
    pub is_on_air: bool,
    /// Whether nothing is warned of at the end of a good run.
    pub is_quiet: bool,
    /// Whether more is told than the fault's line.
    pub is_verbose: bool,
}

impl<'a> ServicesOptions<'a> {
    /// Whether the packets go to standard output.
    pub fn has_standard_output(&self) -> bool
        ensures { result ≡ is_none (path_of self.now.output) }
    {
        self.output.path().is_none()
    }

    /// What the end is called where the messages come from.
    pub fn asking_name(&self) -> &'a str
        ensures { result.now ≡ asking_name self.now.asking }
    {
        self.asking.name()
    }
}

/// Why the options of `services` are not taken.
#[derive(Clone, Copy, Debug, Drop)]
pub enum BadServices<'a> {
    /// The network and the messages are not taken, as those of `inject` are not.
    Asked(BadInject<'a>),
    /// The list and another input are standard input.
    ListInput,
    /// The packets and what happens go to standard output both.
    Events,
}

impl fmt::Display for BadServices<'_> {
    fn fmt<W: fmt::Write>(&self, f: &mut fmt::Formatter<W>) -> fmt::Result {
        match self {
            BadServices::Asked(bad) => write!(f, "{bad}"),
            BadServices::ListInput => write!(
                f,
                "error: only one of '--network <FILE>', '--script <FILE>' and '--services <FILE>' can be standard input"
            ),
            BadServices::Events => write!(f, "{EVENTS_TEXT}"),
        }
    }
}

/// What the options of `services` say.
///
/// # Errors
///
/// `Asked` where the port is not in its range, where not exactly one of a script and a port is given, or where the network and the script are
/// both standard input; else `ListInput` where the list and another input are; else `Events` where the packets and what happens go to standard
/// output both.
pub fn services_options<'a>(
    matches: &ArgMatches<'a>,
) -> Result<ServicesOptions<'a>, BadServices<'a>>
    ensures taken { IfOk result (IsServicesOf matches.now) }
    ensures refused { IfErr result (IsNoServices matches.now) }
{
    let asking = match asking_of(matches.get_str("script"), matches.get_str("listen")) {
        Ok(asking) => asking,
        Err(bad) => return Err(BadServices::Asked(bad)),
    };
    let network = end_of(matches, "network");
    let services = end_of(matches, "services");
    match check_inputs(network, asking, Some(services)) {
        Ok(()) => {}
        Err(BadInject::ListInput) => return Err(BadServices::ListInput),
        Err(bad) => return Err(BadServices::Asked(bad)),
    }
    let output = end_of(matches, "out");
    let events = end_of(matches, "events");
    if share_output(output, events) {
        return Err(BadServices::Events);
    }
    Ok(ServicesOptions {
        network,
        asking,
        services,
        output,
        events,
        is_quiet: is_quiet(matches),
        is_on_air: is_on_air(matches),
        is_verbose: is_verbose(matches),
    })
}
