//! The lines of messages, of a switch, of a service, and of a run on air.

ghost use Rattle.std.specs.Bool.{OnTrue};
ghost use Rattle.std.specs.Io.KnownBytes.{Appends};
ghost use Rattle.report_texts.specs.Lines.{message_lines, switch_lines, service_lines, report_lines, air_lines};

use chain_engine::Report;
use splice_plans::SwitchReport;
use std::fmt;
use std::io::Write;

/// The lines of what became of messages.
#[derive(Clone, Copy)]
struct MessageLines {
    messages: u64,
    accepted: u64,
    refused: u64,
}

impl fmt::Display for MessageLines {
    ghost use Rattle.std.specs.Prelude.{Some};
    ghost use Rattle.report_texts.specs.Lines.{message_lines};

    ghost output = { λ t. Some (message_lines t.messages t.accepted t.refused) };

    fn fmt<W: fmt::Write>(&self, f: &mut fmt::Formatter<W>) -> fmt::Result {
        let (messages, accepted, refused) = (self.messages, self.accepted, self.refused);
        write!(
            f,
            "messages {messages}\naccepted {accepted}\nrefused {refused}\n"
        )
    }
}

/// The line of one number.
#[derive(Clone, Copy)]
struct CountLine<'a> {
    word: &'a str,
    number: u64,
}

impl fmt::Display for CountLine<'_> {
    ghost use Rattle.std.specs.Prelude.{Some};
    ghost use Rattle.report_texts.specs.Lines.{count_line};

    ghost output = { λ t. Some (count_line t.word.now t.number) };

    fn fmt<W: fmt::Write>(&self, f: &mut fmt::Formatter<W>) -> fmt::Result {
        let (word, number) = (self.word, self.number);
        write!(f, "{word} {number}\n")
    }
}

/// The lines of what became of the events of a switch.
#[derive(Clone, Copy)]
struct SwitchLines {
    report: SwitchReport,
}

impl fmt::Display for SwitchLines {
    ghost use Rattle.std.specs.Prelude.{Some};
    ghost use Rattle.report_texts.specs.Lines.{switch_lines};

    ghost output = { λ t. Some (switch_lines t.report) };

    fn fmt<W: fmt::Write>(&self, f: &mut fmt::Formatter<W>) -> fmt::Result {
        let played = CountLine {
            word: "played",
            number: self.report.played,
        };
        let not_fitted = CountLine {
            word: "not-fitted",
            number: self.report.not_fitted,
        };
        let unconditioned = CountLine {
            word: "unconditioned",
            number: self.report.unconditioned,
        };
        let ignored = CountLine {
            word: "ignored",
            number: self.report.ignored,
        };
        write!(f, "{played}{not_fitted}{unconditioned}{ignored}")
    }
}

/// What a run on air counted besides its messages and events. Each count stops at the greatest u64.
#[derive(Clone, Copy, Debug, PartialEq, Eq, Drop)]
pub struct AirCounts {
    /// The stretches: 1 where none began anew, 0 on a network without packets.
    pub stretches: u64,
    /// The events that stood at the end of a stretch that was not the last, and whose end had not come.
    pub lost: u64,
    /// The packets that were left unjudged.
    pub unjudged: u64,
    /// The packets that were marked in error for their adaptation field.
    pub mended: u64,
    /// The bytes that were left out, as they are in no packet.
    pub skipped: u64,
}

/// The lines of what a run on air counted besides.
#[derive(Clone, Copy)]
struct AirLines {
    counts: AirCounts,
}

impl fmt::Display for AirLines {
    ghost use Rattle.std.specs.Prelude.{Some};
    ghost use Rattle.report_texts.specs.Lines.{air_lines};

    ghost output = { λ t. Some (air_lines t.counts) };

    fn fmt<W: fmt::Write>(&self, f: &mut fmt::Formatter<W>) -> fmt::Result {
        let stretches = CountLine {
            word: "stretches",
            number: self.counts.stretches,
        };
        let lost = CountLine {
            word: "lost",
            number: self.counts.lost,
        };
        let unjudged = CountLine {
            word: "unjudged",
            number: self.counts.unjudged,
        };
        let mended = CountLine {
            word: "mended",
            number: self.counts.mended,
        };
        let skipped = CountLine {
            word: "skipped",
            number: self.counts.skipped,
        };
        write!(f, "{stretches}{lost}{unjudged}{mended}{skipped}")
    }
}

/// Prints how many messages were judged, accepted and refused, and answers whether the lines are out.
pub fn print_messages<W: Write>(printed: &mut W, messages: u64, accepted: u64, refused: u64) -> bool
    ensures { OnTrue result (Appends (W.contents printed.old) (W.contents printed.new) (message_lines messages accepted refused)) }
{
    let text = MessageLines {
        messages,
        accepted,
        refused,
    };
    write!(printed, "{text}").is_ok() && printed.flush().is_ok()
}

/// Prints what became of the events of a switch, and answers whether the lines are out.
pub fn print_switched<W: Write>(printed: &mut W, report: &SwitchReport) -> bool
    ensures { OnTrue result (Appends (W.contents printed.old) (W.contents printed.new) (switch_lines report.now)) }
{
    let text = SwitchLines { report: *report };
    write!(printed, "{text}").is_ok() && printed.flush().is_ok()
}

/// Prints the number of a service's program, and behind it what became of its events, and answers whether the lines are out.
pub fn print_service<W: Write>(printed: &mut W, program: u16, report: &SwitchReport) -> bool
    ensures { OnTrue result (Appends (W.contents printed.old) (W.contents printed.new) (service_lines program report.now)) }
{
    let text = SwitchLines { report: *report };
    write!(printed, "service {program}\n{text}").is_ok() && printed.flush().is_ok()
}

/// Prints what a run on air counted besides, and answers whether the lines are out.
pub fn print_air_counts<W: Write>(printed: &mut W, counts: &AirCounts) -> bool
    ensures { OnTrue result (Appends (W.contents printed.old) (W.contents printed.new) (air_lines counts.now)) }
{
    let text = AirLines { counts: *counts };
    write!(printed, "{text}").is_ok() && printed.flush().is_ok()
}

/// Prints the report of a run with cues: of the messages, and where it plays advertisements of their events, too. Answers whether the lines are out.
pub fn print_report<W: Write>(printed: &mut W, report: &Report, plays: bool) -> bool
    ensures { OnTrue result (Appends (W.contents printed.old) (W.contents printed.new) (report_lines plays report.now)) }
{
    let messages = MessageLines {
        messages: report.messages,
        accepted: report.accepted,
        refused: report.refused,
    };
    let switched = SwitchLines {
        report: report.switch,
    };
    let text = if plays {
        write!(printed, "{messages}{switched}")
    } else {
        write!(printed, "{messages}")
    };
    text.is_ok() && printed.flush().is_ok()
}
