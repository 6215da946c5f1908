//! One line of a list.

ghost use Rattle.std.specs.Prelude.{◌≡◌, ◌<◌, ◌^◌, Ok};
ghost use Rattle.break_lists.specs.Lines.{at_of, behind_time, event_number, order_of, play_of, named_of, order_ended, line_plan};

use crate::times::span_of;
use crate::words::{cut_at, cut_word, same_word, whole_number};
use pes_time::Time33;
use thiserror::Error;

/// When something is to happen.
#[derive(Clone, Copy, Debug, PartialEq, Eq)]
pub enum At {
    /// So many milliseconds behind the first time of the program.
    After(u64),
    /// At this time stamp.
    Stamp(Time33),
}

/// What is to happen.
#[derive(Clone, Copy, Debug, PartialEq, Eq)]
pub enum Order {
    /// A break begins.
    Play {
        /// How long it lasts, in milliseconds.
        length: u64,
        /// The number of the advertisement.
        advert: u16,
        /// The number of the event, where the line gives it one.
        event: Option<u32>,
    },
    /// The event of this number is cancelled.
    Cancel(u32),
    /// The event of this number ends early.
    End(u32),
}

/// What a line plans.
#[derive(Clone, Copy, Debug, PartialEq, Eq)]
pub struct BreakLine {
    /// When.
    pub at: At,
    /// What.
    pub order: Order,
}

/// What was expected in a line where something else stands.
#[derive(Clone, Copy, Debug, PartialEq, Eq, Drop, Error)]
pub enum Expected {
    /// A time.
    #[error("a time, as 12.48, 00:01:30.000 or pts 1933200")]
    Time,
    /// The ticks of a time stamp.
    #[error("the ticks of a time stamp behind `pts`, a number below 8589934592")]
    Stamp,
    /// The word that says what is to happen.
    #[error("`for`, `cancel` or `end` behind the time")]
    Verb,
    /// How long a break lasts.
    #[error("a length behind `for`, as 30 or 00:00:30")]
    Length,
    /// The word before the advertisement.
    #[error("`play` behind the length")]
    Play,
    /// The number of an advertisement.
    #[error("the number of an advertisement behind `play`, below 65536")]
    Advert,
    /// The word before the number of an event, or the end of the line.
    #[error("`as` or the end of the line behind the advertisement")]
    As,
    /// The number of an event.
    #[error("the number of an event, below 4294967296")]
    Event,
    /// The end of the line.
    #[error("the end of the line behind the event")]
    End,
}

/// The time at the front of a line.
fn at_of(text: &[u8]) -> Result<At, Expected>
    ensures { result ≡ at_of text.now }
{
    let (word, rest) = cut_word(text);
    if same_word(word, b"pts") {
        let (ticks, _) = cut_word(rest);
        return match whole_number(ticks, 1 << 33) {
            Some(ticks) => stamp_at(ticks),
            None => Err(Expected::Stamp),
        };
    }
    match span_of(word) {
        Some(span) => Ok(At::After(span)),
        None => Err(Expected::Time),
    }
}

/// The time stamp of so many ticks.
fn stamp_at(ticks: u64) -> Result<At, Expected>
    requires { ticks < 2 ^ 33 }
    ensures { result ≡ Ok (At.Stamp ticks) }
{
    match Time33::new(ticks) {
        Some(stamp) => Ok(At::Stamp(stamp)),
        None => unreachable!(),
    }
}

/// What stands behind the time.
fn behind_time(text: &[u8]) -> &[u8]
    ensures { result.now ≡ behind_time text.now }
{
    let (word, rest) = cut_word(text);
    if !same_word(word, b"pts") {
        return rest;
    }
    let (_, rest) = cut_word(rest);
    rest
}

/// The number of an event, which a word gives.
fn event_number(word: &[u8]) -> Result<u32, Expected>
    ensures { result ≡ event_number word.now }
{
    match whole_number(word, 1 << 32) {
        Some(number) => Ok(number as u32),
        None => Err(Expected::Event),
    }
}

/// That nothing but white space is left of a line.
fn order_ended(order: Order, rest: &[u8]) -> Result<Order, Expected>
    ensures { result ≡ order_ended order rest.now }
{
    let (word, _) = cut_word(rest);
    if word.is_empty() {
        Ok(order)
    } else {
        Err(Expected::End)
    }
}

/// What stands behind `play`, of a break of this length.
fn named_of(length: u64, text: &[u8]) -> Result<Order, Expected>
    ensures { result ≡ named_of length text.now }
{
    let (word, rest) = cut_word(text);
    let Some(number) = whole_number(word, 1 << 16) else {
        return Err(Expected::Advert);
    };
    let advert = number as u16;
    let (word, rest) = cut_word(rest);
    if word.is_empty() {
        return Ok(Order::Play {
            length,
            advert,
            event: None,
        });
    }
    if !same_word(word, b"as") {
        return Err(Expected::As);
    }
    let (word, rest) = cut_word(rest);
    match event_number(word) {
        Ok(event) => order_ended(
            Order::Play {
                length,
                advert,
                event: Some(event),
            },
            rest,
        ),
        Err(expected) => Err(expected),
    }
}

/// What stands behind `for`.
fn play_of(text: &[u8]) -> Result<Order, Expected>
    ensures { result ≡ play_of text.now }
{
    let (word, rest) = cut_word(text);
    let Some(length) = span_of(word) else {
        return Err(Expected::Length);
    };
    let (word, rest) = cut_word(rest);
    if !same_word(word, b"play") {
        return Err(Expected::Play);
    }
    named_of(length, rest)
}

/// What stands behind the time.
fn order_of(text: &[u8]) -> Result<Order, Expected>
    ensures { result ≡ order_of text.now }
{
    let (verb, rest) = cut_word(text);
    if same_word(verb, b"for") {
        return play_of(rest);
    }
    let is_cancel = same_word(verb, b"cancel");
    if !is_cancel && !same_word(verb, b"end") {
        return Err(Expected::Verb);
    }
    let (word, rest) = cut_word(rest);
    match event_number(word) {
        Ok(event) if is_cancel => order_ended(Order::Cancel(event), rest),
        Ok(event) => order_ended(Order::End(event), rest),
        Err(expected) => Err(expected),
    }
}

/// What a line plans; nothing where it is blank or a comment.
///
/// # Errors
///
/// What was expected where something else stands, the first from the left.
pub fn line_plan(line: &[u8]) -> Result<Option<BreakLine>, Expected>
    ensures { result ≡ line_plan line.now }
{
    let (text, _) = cut_at(line, b'#');
    let (word, _) = cut_word(text);
    if word.is_empty() {
        return Ok(None);
    }
    let at = match at_of(text) {
        Ok(at) => at,
        Err(expected) => return Err(expected),
    };
    match order_of(behind_time(text)) {
        Ok(order) => Ok(Some(BreakLine { at, order })),
        Err(expected) => Err(expected),
    }
}
