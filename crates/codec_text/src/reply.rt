//! The result that a reply states, as text.

ghost use Rattle.std.specs.Prelude.{◌≡◌, option_map};
ghost use Rattle.codec_text.specs.Names.{result_name};
ghost use Rattle.codec_text.specs.Texts.{stated_result};

use hex_digits::Digits;
use std::fmt;
use wire_fields::number16;

/// The place of `result` in a `single_operation_message`, two bytes (ANSI/SCTE 104).
const RESULT_PLACE: usize = 4;

/// What stands in the place of `result` in a message that states none, as in every request.
const NO_RESULT: u16 = 0xFFFF;

/// From this number on results are this project's own (docs/PROFILE.md, "Requests").
const OWN_RESULTS: u16 = 0x8000;

/// The result that a `single_operation_message` states.
pub(crate) fn stated_result(bytes: &[u8]) -> Option<u16>
    ensures { result ≡ stated_result bytes.now }
{
    if bytes.len() < RESULT_PLACE + 2 {
        return None;
    }
    match number16(bytes, RESULT_PLACE) {
        NO_RESULT => None,
        number => Some(number),
    }
}

/// The name of a result: `Success`, or of a refusal as the injector has it; `None` for any other number.
pub fn result_name(number: u16) -> Option<&'static str>
    ensures { option_map (λ name. name.now) result ≡ result_name number }
{
    match number {
        100 => Some("Success"),
        0x8001 => Some("BadSyntax"),
        0x8002 => Some("WrongVersion"),
        0x8003 => Some("WrongIndex"),
        0x8004 => Some("TimeType"),
        0x8005 => Some("UnknownOp"),
        0x8006 => Some("NoRequest"),
        0x8007 => Some("TwoRequests"),
        0x8008 => Some("BadType"),
        0x8009 => Some("Unsupported"),
        0x800A => Some("TooManyAvails"),
        0x800B => Some("NoDuration"),
        0x800C => Some("NoReturn"),
        0x800D => Some("NoPreRoll"),
        0x800E => Some("NoClock"),
        0x800F => Some("InUse"),
        0x8010 => Some("Full"),
        0x8011 => Some("Overlap"),
        0x8012 => Some("NoSuchEvent"),
        0x8013 => Some("TooLate"),
        0x8014 => Some("BadEnd"),
        _ => None,
    }
}

/// The number of a result: the standard's in decimal digits, and this project's behind `0x` in hexadecimal ones.
#[derive(Clone, Copy)]
struct ResultNumberText(u16);

impl fmt::Display for ResultNumberText {
    ghost use Rattle.std.specs.Prelude.{Some};
    ghost use Rattle.codec_text.specs.Texts.{result_number_text};

    ghost output = { λ t. Some (result_number_text t.0) };

    fn fmt<W: fmt::Write>(&self, f: &mut fmt::Formatter<W>) -> fmt::Result {
        let number = self.0;
        if number < OWN_RESULTS {
            return write!(f, "{number}");
        }
        let bytes = number.to_be_bytes();
        let digits = Digits(&bytes);
        write!(f, "0x{digits}")
    }
}

/// The result of a reply: its number, and behind `/` its name where it has one.
#[derive(Clone, Copy)]
pub struct ResultText(pub u16);

impl fmt::Display for ResultText {
    ghost use Rattle.std.specs.Prelude.{Some};
    ghost use Rattle.codec_text.specs.Texts.{result_text};

    ghost output = { λ t. Some (result_text t.0) };

    fn fmt<W: fmt::Write>(&self, f: &mut fmt::Formatter<W>) -> fmt::Result {
        let number = ResultNumberText(self.0);
        match result_name(self.0) {
            Some(name) => write!(f, "{number}/{name}"),
            None => write!(f, "{number}"),
        }
    }
}

/// The result that a message states, behind a space and its field's name; nothing where it states none.
#[derive(Clone, Copy)]
pub(crate) struct StatedText(pub(crate) Option<u16>);

impl fmt::Display for StatedText {
    ghost use Rattle.std.specs.Prelude.{Some};
    ghost use Rattle.codec_text.specs.Texts.{stated_text};

    ghost output = { λ t. Some (stated_text t.0) };

    fn fmt<W: fmt::Write>(&self, f: &mut fmt::Formatter<W>) -> fmt::Result {
        match self.0 {
            None => Ok(()),
            Some(number) => {
                let result = ResultText(number);
                write!(f, " result={result}")
            }
        }
    }
}
