//! The options of the subcommand `request` and their ranges, by its kinds of messages.

ghost use Rattle.std.specs.Prelude.{◌≡◌, ◌<◌, IfOk, IfErr, Some, codes, true};
ghost use Rattle.decimal_numbers.specs.Numbers.{number_below};
ghost use Rattle.command_lines.specs.Options.{given};
ghost use Rattle.command_lines.specs.Requests.{field_name, field_limit, field_number, asked_number, is_needed, IsRefusedField, IsReturn};
ghost use Rattle.command_lines.specs.Requests.{IsHeadOf, IsStartOf, IsEndOf, IsKindOf, IsMarkOf, IsRequestOf, IsNoRequest};

use crate::command::hexadecimal;
use clap::ArgMatches;
use decimal_numbers::number_below;
use request_texts::{BreakEnd, BreakStart, RequestKind, RequestLine};
use scte104_codec::Head;
use std::fmt;

/// The options of `request` that are numbers.
#[derive(Clone, Copy, Debug, PartialEq, Eq, Drop)]
pub enum FieldOption {
    Index,
    AsIndex,
    Message,
    Mark,
    Event,
    ProgramId,
    PreRoll,
    Duration,
    Avail,
    Avails,
}

impl FieldOption {
    /// What the option is called.
    fn name(self) -> &'static str
        ensures { result.now ≡ field_name self }
    {
        match self {
            FieldOption::Index => "index",
            FieldOption::AsIndex => "as-index",
            FieldOption::Message => "message",
            FieldOption::Mark => "mark",
            FieldOption::Event => "event",
            FieldOption::ProgramId => "program-id",
            FieldOption::PreRoll => "pre-roll",
            FieldOption::Duration => "duration",
            FieldOption::Avail => "avail",
            FieldOption::Avails => "avails",
        }
    }

    /// The first number that its field does not hold; of a mark, the first that is taken for none.
    fn limit(self) -> u64
        ensures { result ≡ field_limit self }
    {
        match self {
            FieldOption::AsIndex
            | FieldOption::Message
            | FieldOption::Avail
            | FieldOption::Avails => 1 << 8,
            FieldOption::Index
            | FieldOption::ProgramId
            | FieldOption::PreRoll
            | FieldOption::Duration => 1 << 16,
            FieldOption::Event => 1 << 32,
            FieldOption::Mark => 1 << 63,
        }
    }
}

impl fmt::Display for FieldOption {
    fn fmt<W: fmt::Write>(&self, f: &mut fmt::Formatter<W>) -> fmt::Result {
        let text = match self {
            FieldOption::Index => {
                "'--index <N>': a DPI_PID_index is a decimal number from 0 to 65535"
            }
            FieldOption::AsIndex => {
                "'--as-index <N>': an AS_index is a decimal number from 0 to 255"
            }
            FieldOption::Message => {
                "'--message <N>': a message_number is a decimal number from 0 to 255"
            }
            FieldOption::Mark => {
                "'--mark <N>': a packet's number is a decimal number from 0 to 9223372036854775807 (2^63 - 1)"
            }
            FieldOption::Event => {
                "'--event <ID>': a splice_event_id is a decimal number from 0 to 4294967295 (2^32 - 1)"
            }
            FieldOption::ProgramId => {
                "'--program-id <N>': a unique_program_id is a decimal number from 0 to 65535"
            }
            FieldOption::PreRoll => {
                "'--pre-roll <MILLISECONDS>': a pre_roll_time is a decimal number of milliseconds from 0 to 65535"
            }
            FieldOption::Duration => {
                "'--duration <TENTHS>': a break_duration is a decimal number of tenths of a second from 0 to 65535"
            }
            FieldOption::Avail => {
                "'--avail <N>': an avail_num is a decimal number from 0 to 255"
            }
            FieldOption::Avails => {
                "'--avails <N>': avails_expected is a decimal number from 0 to 255"
            }
        };
        f.write_str(text)
    }
}

/// The text of an option of `request` that is no number in its range.
#[derive(Clone, Copy, Debug, Drop)]
pub struct BadField<'a> {
    pub option: FieldOption,
    pub text: &'a str,
}

/// Why the options of `request` are not taken.
#[derive(Clone, Copy, Debug, Drop)]
pub enum BadRequest<'a> {
    /// An option's text is no number in its range.
    Number(BadField<'a>),
    /// An option that a break needs is not given.
    Missing(FieldOption),
    /// The text of `--auto-return` is neither `on` nor `off`.
    AutoReturn(&'a str),
    /// There is no kind of this name.
    Kind(&'a str),
}

impl fmt::Display for BadField<'_> {
    fn fmt<W: fmt::Write>(&self, f: &mut fmt::Formatter<W>) -> fmt::Result {
        let option = self.option;
        let text = self.text;
        write!(f, "error: invalid value '{text}' for {option}")?;
        match hexadecimal(text) {
            Some(number) => write!(f, "; {text} is {number}"),
            None => Ok(()),
        }
    }
}

impl fmt::Display for BadRequest<'_> {
    fn fmt<W: fmt::Write>(&self, f: &mut fmt::Formatter<W>) -> fmt::Result {
        match self {
            BadRequest::Number(bad) => write!(f, "{bad}"),
            BadRequest::Missing(option) => write!(f, "error: no value is given for {option}"),
            BadRequest::AutoReturn(text) => write!(
                f,
                "error: invalid value '{text}' for '--auto-return <on|off>': it is on or off"
            ),
            BadRequest::Kind(name) => write!(f, "error: unrecognized subcommand '{name}'"),
        }
    }
}

/// The number that the text of an option writes.
fn checked<'a>(option: FieldOption, text: &'a str) -> Result<u64, BadRequest<'a>>
    ensures taken { IfOk result (λ n. number_below text.now (field_limit option) ≡ Some n) }
    ensures below { IfOk result (λ n. n < field_limit option) }
    ensures refused { IfErr result (IsRefusedField option text.now) }
{
    match number_below(text, option.limit()) {
        Some(number) => Ok(number),
        None => Err(BadRequest::Number(BadField { option, text })),
    }
}

/// The number that was given for an option.
fn number_of<'a>(matches: &ArgMatches<'a>, option: FieldOption) -> Result<u64, BadRequest<'a>>
    requires { is_needed option ≡ true }
    ensures taken { IfOk result (λ n. asked_number matches.now option ≡ Some n) }
    ensures below { IfOk result (λ n. n < field_limit option) }
    ensures refused { IfErr result (IsNoRequest matches.now) }
{
    match matches.get_str(option.name()) {
        Some(text) => checked(option, text),
        None => Err(BadRequest::Missing(option)),
    }
}

/// The number that was given for an option, or this where none was.
fn number_or<'a>(
    matches: &ArgMatches<'a>,
    option: FieldOption,
    otherwise: u64,
) -> Result<u64, BadRequest<'a>>
    requires { otherwise < field_limit option }
    ensures taken { IfOk result (λ n. field_number matches.now option otherwise ≡ Some n) }
    ensures below { IfOk result (λ n. n < field_limit option) }
    ensures refused { IfErr result (IsNoRequest matches.now) }
{
    match matches.get_str(option.name()) {
        Some(text) => checked(option, text),
        None => Ok(otherwise),
    }
}

/// The head of the message.
fn head_of<'a>(matches: &ArgMatches<'a>) -> Result<Head, BadRequest<'a>>
    ensures taken { IfOk result (IsHeadOf matches.now) }
    ensures refused { IfErr result (IsNoRequest matches.now) }
{
    let as_index = number_or(matches, FieldOption::AsIndex, 0)?;
    let number = number_or(matches, FieldOption::Message, 1)?;
    let index = number_or(matches, FieldOption::Index, 0)?;
    Ok(Head {
        as_index: as_index as u8,
        number: number as u8,
        index: index as u16,
    })
}

/// The number of the packet before which a script gives the message, where one was given.
fn mark_of<'a>(matches: &ArgMatches<'a>) -> Result<Option<u64>, BadRequest<'a>>
    ensures taken { IfOk result (IsMarkOf matches.now) }
    ensures refused { IfErr result (IsNoRequest matches.now) }
{
    match matches.get_str(FieldOption::Mark.name()) {
        Some(text) => {
            let mark = checked(FieldOption::Mark, text)?;
            Ok(Some(mark))
        }
        None => Ok(None),
    }
}

/// Whether the break is to end by itself: it is, where the option is not given.
fn auto_return_of<'a>(matches: &ArgMatches<'a>) -> Result<bool, BadRequest<'a>>
    ensures taken { IfOk result (IsReturn (given matches.now (codes "auto-return"))) }
    ensures refused { IfErr result (IsNoRequest matches.now) }
{
    match matches.get_str("auto-return") {
        None | Some("on") => Ok(true),
        Some("off") => Ok(false),
        Some(text) => Err(BadRequest::AutoReturn(text)),
    }
}

/// The fields of a start.
fn start_of<'a>(matches: &ArgMatches<'a>) -> Result<BreakStart, BadRequest<'a>>
    ensures taken { IfOk result (IsStartOf matches.now) }
    ensures refused { IfErr result (IsNoRequest matches.now) }
{
    let event = number_of(matches, FieldOption::Event)?;
    let program_id = number_of(matches, FieldOption::ProgramId)?;
    let pre_roll = number_of(matches, FieldOption::PreRoll)?;
    let duration = number_of(matches, FieldOption::Duration)?;
    let avail = number_or(matches, FieldOption::Avail, 0)?;
    let avails = number_or(matches, FieldOption::Avails, 0)?;
    let auto_return = auto_return_of(matches)?;
    Ok(BreakStart {
        event: event as u32,
        program_id: program_id as u16,
        pre_roll: pre_roll as u16,
        duration: duration as u16,
        avail: avail as u8,
        avails: avails as u8,
        auto_return,
    })
}

/// The fields of an end.
fn end_of_break<'a>(matches: &ArgMatches<'a>) -> Result<BreakEnd, BadRequest<'a>>
    ensures taken { IfOk result (IsEndOf matches.now) }
    ensures refused { IfErr result (IsNoRequest matches.now) }
{
    let event = number_of(matches, FieldOption::Event)?;
    let pre_roll = number_of(matches, FieldOption::PreRoll)?;
    Ok(BreakEnd {
        event: event as u32,
        pre_roll: pre_roll as u16,
    })
}

/// What the message of this kind asks for.
fn kind_of<'a>(name: &'a str, matches: &ArgMatches<'a>) -> Result<RequestKind, BadRequest<'a>>
    ensures taken { IfOk result (IsKindOf name.now matches.now) }
    ensures refused { IfErr result (IsNoRequest matches.now) }
{
    match name {
        "start" => {
            let start = start_of(matches)?;
            Ok(RequestKind::Start(start))
        }
        "end" => {
            let end = end_of_break(matches)?;
            Ok(RequestKind::End(end))
        }
        "cancel" => {
            let event = number_of(matches, FieldOption::Event)?;
            Ok(RequestKind::Cancel(event as u32))
        }
        "init" => Ok(RequestKind::Init),
        "alive" => Ok(RequestKind::Alive),
        _ => Err(BadRequest::Kind(name)),
    }
}

/// What the options of `request` say, behind the name of the kind of message.
///
/// # Errors
///
/// `Number` where an option's text is no number in its range, `Missing` where one that a break needs is not given, `AutoReturn` where that of
/// `--auto-return` is neither `on` nor `off`, `Kind` where there is no kind of this name.
pub fn request_options<'a>(
    name: &'a str,
    matches: &ArgMatches<'a>,
) -> Result<RequestLine, BadRequest<'a>>
    ensures taken { IfOk result (IsRequestOf name.now matches.now) }
    ensures refused { IfErr result (IsNoRequest matches.now) }
{
    let mark = mark_of(matches)?;
    let head = head_of(matches)?;
    let kind = kind_of(name, matches)?;
    Ok(RequestLine { mark, head, kind })
}
