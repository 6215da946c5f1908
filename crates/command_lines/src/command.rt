//! The command line, and of the subcommand `cut` its options and their ranges.

ghost use Rattle.std.specs.Prelude.{◌≡◌, ◌^◌, IfOk, IfErr, Some};
ghost use Rattle.decimal_numbers.specs.Numbers.{number_below};
ghost use Rattle.command_lines.specs.Command.{IsRefused, shown};
ghost use Rattle.command_lines.specs.Options.{IsCutOf, IsNoCut};

use crate::given::{end_of, is_verbose, text_of};
use crate::inspect_options::inspect_command;
use crate::request_help::request_command;
use crate::subcommand::{Subcommand, ValueOption};
use crate::subcommands;
use clap::{ArgMatches, Command};
use decimal_numbers::number_below;
use pes_time::Time33;
use run_ends::End;
use std::alloc::{AllocError, Global};
use std::fmt;
use ts_packet::Pid;

/// The first number that is no PID.
const PID_LIMIT: u64 = 0x2000;

/// The first number that is no time stamp, in ticks of 90 kHz.
const TIME_LIMIT: u64 = 1 << 33;

/// The first number that is no length, in ticks of 90 kHz.
const LENGTH_LIMIT: u64 = 1 << 32;

const ABOUT: &str =
    "Plays advertisements in the breaks of MPEG transport streams, puts cues into them, and cuts intervals out of them";

const CUT_ABOUT: &str = "Cuts one interval of one PID out of a transport stream";

const CUT_LONG_ABOUT: &str = "Cuts one interval of one PID out of a transport stream.

The units (PES packets) of the PID whose presentation time (PTS) lies from --from up to, and not including, --from plus
--length are left out, each with all its packets and their duplicates. All other packets pass, in order: those of other PIDs
byte for byte, those of the PID with the continuity counter that closes the gap. The clock may wrap inside the stream; the
start is then taken as the time that lies within 13 hours of the stream's first one.

A packet that is left out goes whole, with the clock reference (PCR) in it, where the PID carries one: cut PIDs that carry none,
or the receiver loses its clock for as long.

FILE may be a pipe, and - is standard input or output in bytes. What came in before a pause of the input goes out before it.
Without --in and --out, packets are lines of 376 upper case hexadecimal digits on standard input and output. The contents of the
output file are replaced once the input file is open: a stream that turns out not to hold packets leaves an empty file. --in and
--out may not be the same file.";

const CUT_EXAMPLE: &str =
    "Numbers are decimal digits: PID 256 is what other tools may show as 0x100 (0x100 is not taken).
Times are ticks of the 90 kHz clock: 90000 are one second, 3600 one picture of 25 a second.

Example, the ten seconds of PID 257 from the time stamp 1800000 (20 seconds) on:
  dpi_chain cut --pid 257 --from 1800000 --length 900000 --in network.ts --out cut.ts

The same in a pipe:
  dpi_chain cut --pid 257 --from 1800000 --length 900000 --in - --out - < network.ts > cut.ts

Exit status: 0 where the whole stream went through; 1 at a fault, which is named on standard error as `fault: NAME`, and
what went out before it stands (a reader that closes the output's pipe is `fault: Io`); 2 where the command line is not taken,
or asks for help or the version.";

/// How `cut` is called.
pub const CUT_USAGE: &str =
    "dpi_chain cut --pid <PID> --from <TICKS> --length <TICKS> [--in <FILE>] [--out <FILE>] [--verbose]";

/// What `cut` is to do.
#[derive(Clone, Copy, Debug, Drop)]
pub struct CutOptions<'a> {
    /// The PID that is cut.
    pub pid: Pid,
    /// The start of the interval.
    pub from: Time33,
    /// The length of the interval, in ticks of 90 kHz.
    pub length: u32,
    /// What is read.
    pub input: End<'a>,
    /// What is written.
    pub output: End<'a>,
    /// Whether more is told than the fault's line.
    pub is_verbose: bool,
}

/// The options that are numbers.
#[derive(Clone, Copy, Debug, PartialEq, Eq, Drop)]
pub enum NumberOption {
    Pid,
    From,
    Length,
    Program,
    CuePid,
    Index,
    Port,
}

/// An option's text that is no number in its range.
#[derive(Clone, Copy, Debug, Drop)]
pub struct BadNumber<'a> {
    pub option: NumberOption,
    pub text: &'a str,
}

impl fmt::Display for NumberOption {
    fn fmt<W: fmt::Write>(&self, f: &mut fmt::Formatter<W>) -> fmt::Result {
        match self {
            NumberOption::Pid => write!(
                f,
                "'--pid <PID>': a PID is a decimal number from 0 to 8191"
            ),
            NumberOption::From => write!(
                f,
                "'--from <TICKS>': a time is a decimal number of 90 kHz ticks from 0 to 8589934591 (2^33 - 1)"
            ),
            NumberOption::Length => write!(
                f,
                "'--length <TICKS>': a length is a decimal number of 90 kHz ticks from 0 to 4294967295 (2^32 - 1)"
            ),
            NumberOption::Program => write!(
                f,
                "'--program <N>': a program's number is a decimal number from 1 to 65535"
            ),
            NumberOption::CuePid => write!(
                f,
                "'--cue-pid <PID>': a PID for cues is a decimal number from 16 to 8190"
            ),
            NumberOption::Index => write!(
                f,
                "'--index <N>': a DPI_PID_index is a decimal number from 0 to 65535"
            ),
            NumberOption::Port => write!(
                f,
                "'--listen <PORT>': a port is a decimal number from 1 to 65535"
            ),
        }
    }
}

impl fmt::Display for BadNumber<'_> {
    fn fmt<W: fmt::Write>(&self, f: &mut fmt::Formatter<W>) -> fmt::Result {
        let option = self.option;
        let text = self.text;
        write!(f, "error: invalid value '{text}' for {option}")?;
        match hexadecimal(text) {
            Some(number) => write!(f, "; {text} is {number}"),
            None => Ok(()),
        }
    }
}

/// The number that a text writes in hexadecimal digits behind `0x`, as other tools show PIDs.
pub(crate) fn hexadecimal(text: &str) -> Option<u64> {
    let digits = text.strip_prefix("0x")?;
    u64::from_str_radix(digits, 16).ok()
}

const CUT_OPTIONS: [ValueOption; 5] = [
    ValueOption {
        id: "pid",
        value_name: "PID",
        help: "The PID to cut in, a decimal number from 0 to 8191, as 256 (0x100)",
        is_required: true,
    },
    ValueOption {
        id: "from",
        value_name: "TICKS",
        help: "Where the interval starts: a PTS in 90 kHz ticks, from 0 to 8589934591 (2^33 - 1)",
        is_required: true,
    },
    ValueOption {
        id: "length",
        value_name: "TICKS",
        help: "How long it lasts, in 90 kHz ticks, from 0 (nothing is cut) to 4294967295 (2^32 - 1), some 13 hours",
        is_required: true,
    },
    ValueOption {
        id: "in",
        value_name: "FILE",
        help: "The transport stream to read, a file or a pipe of 188-byte packets; - is standard input [default: lines of digits on standard input]",
        is_required: false,
    },
    ValueOption {
        id: "out",
        value_name: "FILE",
        help: "The file to write, whose contents are replaced; - is standard output [default: lines of digits on standard output]",
        is_required: false,
    },
];

pub(crate) const CUT: Subcommand = Subcommand {
    name: "cut",
    about: CUT_ABOUT,
    long_about: CUT_LONG_ABOUT,
    example: CUT_EXAMPLE,
    usage: CUT_USAGE,
    options: &CUT_OPTIONS,
    verbose: "Tell more on standard error: where a fault stands, or what was cut",
};

/// The command line of the program, whose words come without the program's name.
///
/// # Errors
///
/// Where the allocator refused memory.
pub fn command<'a>(alloc: Global) -> Result<Command<'a>, AllocError> {
    Command::new(alloc, "dpi_chain")
        .about(ABOUT)
        .version("0.1.0")
        .no_binary_name(true)
        .subcommand_required(true)
        .subcommand(subcommands::cut().command(alloc)?)?
        .subcommand(subcommands::inject().on_air(alloc)?)?
        .subcommand(subcommands::splice().on_air(alloc)?)?
        .subcommand(subcommands::run().on_air(alloc)?)?
        .subcommand(subcommands::services().on_air(alloc)?)?
        .subcommand(inspect_command(alloc)?)?
        .subcommand(request_command(alloc)?)?
        .subcommand(subcommands::plan().silent(alloc)?)
}

/// The numbers of a cut: its PID, its start and its length. The first of them that is not in its range is answered.
fn numbers<'a>(
    pid: &'a str,
    from: &'a str,
    length: &'a str,
) -> Result<(Pid, Time33, u32), BadNumber<'a>>
    ensures pid { IfOk result (λ n. number_below pid.now 8192 ≡ Some n.0) }
    ensures from { IfOk result (λ n. number_below from.now (2 ^ 33) ≡ Some n.1) }
    ensures length { IfOk result (λ n. number_below length.now (2 ^ 32) ≡ Some n.2) }
    ensures refused { IfErr result (λ bad. IsRefused bad.option pid.now from.now length.now) }
    ensures text { IfErr result (λ bad. bad.text.now ≡ shown bad.option pid.now from.now length.now) }
{
    let Some(pid) = number_below(pid, PID_LIMIT).and_then(|number| Pid::new(number as u16)) else {
        return Err(BadNumber {
            option: NumberOption::Pid,
            text: pid,
        });
    };
    let Some(from) = number_below(from, TIME_LIMIT).and_then(Time33::new) else {
        return Err(BadNumber {
            option: NumberOption::From,
            text: from,
        });
    };
    let Some(length) = number_below(length, LENGTH_LIMIT) else {
        return Err(BadNumber {
            option: NumberOption::Length,
            text: length,
        });
    };
    Ok((pid, from, length as u32))
}

/// What the options of `cut` say.
///
/// # Errors
///
/// The first of the numbers that is not in its range.
pub fn cut_options<'a>(matches: &ArgMatches<'a>) -> Result<CutOptions<'a>, BadNumber<'a>>
    ensures taken { IfOk result (IsCutOf matches.now) }
    ensures refused { IfErr result (IsNoCut matches.now) }
{
    let pid = text_of(matches, "pid");
    let from = text_of(matches, "from");
    let length = text_of(matches, "length");
    let (pid, from, length) = numbers(pid, from, length)?;
    Ok(CutOptions {
        pid,
        from,
        length,
        input: end_of(matches, "in"),
        output: end_of(matches, "out"),
        is_verbose: is_verbose(matches),
    })
}
