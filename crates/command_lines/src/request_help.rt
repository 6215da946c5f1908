//! The subcommand `request`, its kinds, and their help.

use crate::subcommand::{Subcommand, ValueOption};
use crate::subcommands;
use clap::Command;
use std::alloc::{AllocError, Global};

const REQUEST_ABOUT: &str = "Prints one message of an automation (SCTE 104) as a line of digits";

const REQUEST_LONG_ABOUT: &str =
    "Prints one message by which an automation system asks (SCTE 104), as upper case hexadecimal digits on one line of standard output.

With --mark the line is a line of a script, as `inject`, `run` and `services` take it with --script: the number of the packet of the
network before which the message comes, a space, and the digits. A file of such lines, their numbers rising, is a script.

Without --mark the digits alone are a message for a port, as --listen of `inject`, `run` and `services` opens it, once they are bytes.";

const REQUEST_EXAMPLE: &str =
    "Example, a script that asks before packet 30 for break 1: it starts in 1872 ms, lasts 10 tenths of a second and plays advertisement 7:
  dpi_chain request start --mark 30 --message 5 --index 1 --event 1 --program-id 7 --pre-roll 1872 --duration 10 > breaks.txt
  30 FFFF001E00000500010000010101000E010000000100070750000A000001

The cancel of that break, sent to a program that listens on port 5167:
  dpi_chain request cancel --message 6 --index 1 --event 1 | xxd -r -p | nc 127.0.0.1 5167

Exit status: 0 where the line is out, as where help was asked for; 1 at a fault, which is named on standard error as `fault: NAME`; 2
where the command line is not taken.";

/// How `request` is called.
pub const REQUEST_USAGE: &str = "dpi_chain request <start|end|cancel|init|alive> [OPTIONS]";

const INDEX: ValueOption = ValueOption {
    id: "index",
    value_name: "N",
    help: "DPI_PID_index: which program is meant, from 0 to 65535",
    is_required: true,
};

const ANY_INDEX: ValueOption = ValueOption {
    id: "index",
    value_name: "N",
    help: "DPI_PID_index, from 0 to 65535, which the reply repeats [default: 0]",
    is_required: false,
};

const AS_INDEX: ValueOption = ValueOption {
    id: "as-index",
    value_name: "N",
    help: "AS_index: which automation system speaks, from 0 to 255 [default: 0]",
    is_required: false,
};

const MESSAGE: ValueOption = ValueOption {
    id: "message",
    value_name: "N",
    help: "message_number, from 0 to 255, which the reply repeats [default: 1]",
    is_required: false,
};

const MARK: ValueOption = ValueOption {
    id: "mark",
    value_name: "N",
    help: "The packet of the network before which a script gives the message, from 0 [default: the digits alone]",
    is_required: false,
};

const EVENT: ValueOption = ValueOption {
    id: "event",
    value_name: "ID",
    help: "splice_event_id: the break's own number, from 0 to 4294967295 (2^32 - 1)",
    is_required: true,
};

const PROGRAM_ID: ValueOption = ValueOption {
    id: "program-id",
    value_name: "N",
    help: "unique_program_id: the number of the advertisement, from 0 to 65535",
    is_required: true,
};

const START_PRE_ROLL: ValueOption = ValueOption {
    id: "pre-roll",
    value_name: "MILLISECONDS",
    help: "pre_roll_time: in how many milliseconds the break starts, to 65535; 0 is refused by the chain",
    is_required: true,
};

const END_PRE_ROLL: ValueOption = ValueOption {
    id: "pre-roll",
    value_name: "MILLISECONDS",
    help: "pre_roll_time: in how many milliseconds the break ends, to 65535; 0 is refused by the chain",
    is_required: true,
};

const DURATION: ValueOption = ValueOption {
    id: "duration",
    value_name: "TENTHS",
    help: "break_duration in tenths of a second, to 65535, as 300 for half a minute; 0 is refused by the chain",
    is_required: true,
};

const AVAIL: ValueOption = ValueOption {
    id: "avail",
    value_name: "N",
    help: "avail_num, from 0 to 255 [default: 0]",
    is_required: false,
};

const AVAILS: ValueOption = ValueOption {
    id: "avails",
    value_name: "N",
    help: "avails_expected, from 0 to 255 [default: 0]",
    is_required: false,
};

const AUTO_RETURN: ValueOption = ValueOption {
    id: "auto-return",
    value_name: "on|off",
    help: "auto_return_flag: whether the break ends by itself; off is refused by the chain [default: on]",
    is_required: false,
};

pub(crate) const START: Subcommand = Subcommand {
    name: "start",
    about: "Asks for a break, in which an advertisement is to play",
    long_about: "Asks for a break, in which an advertisement is to play: a splice_request of splice_insert_type 1 (start normal).",
    example: "Example, break 1 in four seconds, for half a minute, with advertisement 7:
  dpi_chain request start --message 5 --index 1 --event 1 --program-id 7 --pre-roll 4000 --duration 300
  FFFF001E00000500010000010101000E010000000100070FA0012C000001",
    usage: "dpi_chain request start --index <N> --event <ID> --program-id <N> --pre-roll <MILLISECONDS> --duration <TENTHS> [OPTIONS]",
    options: &[
        INDEX,
        EVENT,
        PROGRAM_ID,
        START_PRE_ROLL,
        DURATION,
        AVAIL,
        AVAILS,
        AUTO_RETURN,
        MESSAGE,
        AS_INDEX,
        MARK,
    ],
    verbose: "",
};

pub(crate) const END: Subcommand = Subcommand {
    name: "end",
    about: "Asks for the early end of a break",
    long_about: "Asks for the early end of a break: a splice_request of splice_insert_type 3 (end normal).",
    example: "Example, the end of break 1 in two seconds:
  dpi_chain request end --message 6 --index 1 --event 1 --pre-roll 2000
  FFFF001E00000600010000010101000E0300000001000007D00000000000",
    usage: "dpi_chain request end --index <N> --event <ID> --pre-roll <MILLISECONDS> [OPTIONS]",
    options: &[INDEX, EVENT, END_PRE_ROLL, MESSAGE, AS_INDEX, MARK],
    verbose: "",
};

pub(crate) const CANCEL: Subcommand = Subcommand {
    name: "cancel",
    about: "Cancels a break that has not started",
    long_about: "Cancels a break that has not started: a splice_request of splice_insert_type 5 (cancel).",
    example: "Example, the cancel of break 1:
  dpi_chain request cancel --message 6 --index 1 --event 1
  FFFF001E00000600010000010101000E0500000001000000000000000000",
    usage: "dpi_chain request cancel --index <N> --event <ID> [OPTIONS]",
    options: &[INDEX, EVENT, MESSAGE, AS_INDEX, MARK],
    verbose: "",
};

pub(crate) const INIT: Subcommand = Subcommand {
    name: "init",
    about: "Begins a session: an init_request",
    long_about: "Begins a session: an init_request, which is answered by an init_response.",
    example: "Example:
  dpi_chain request init
  0001000DFFFFFFFF0000010000",
    usage: "dpi_chain request init [OPTIONS]",
    options: &[ANY_INDEX, MESSAGE, AS_INDEX, MARK],
    verbose: "",
};

pub(crate) const ALIVE: Subcommand = Subcommand {
    name: "alive",
    about: "Asks whether the session lives: an alive_request",
    long_about: "Asks whether the session lives: an alive_request without data, which is answered by an alive_response.",
    example: "Example:
  dpi_chain request alive
  0003000DFFFFFFFF0000010000",
    usage: "dpi_chain request alive [OPTIONS]",
    options: &[ANY_INDEX, MESSAGE, AS_INDEX, MARK],
    verbose: "",
};

const REQUEST: Subcommand = Subcommand {
    name: "request",
    about: REQUEST_ABOUT,
    long_about: REQUEST_LONG_ABOUT,
    example: REQUEST_EXAMPLE,
    usage: REQUEST_USAGE,
    options: &[],
    verbose: "",
};

/// The subcommand `request` as the command line has it, with its kinds.
pub(crate) fn request_command<'a>(alloc: Global) -> Result<Command<'a>, AllocError> {
    REQUEST
        .silent(alloc)?
        .subcommand_required(true)
        .subcommand(subcommands::start().silent(alloc)?)?
        .subcommand(subcommands::end().silent(alloc)?)?
        .subcommand(subcommands::cancel().silent(alloc)?)?
        .subcommand(subcommands::init().silent(alloc)?)?
        .subcommand(subcommands::alive().silent(alloc)?)
}
