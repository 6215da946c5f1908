//! Spans of time as words.

ghost use Rattle.std.specs.Prelude.{◌≡◌, ◌<◌, ◌≤◌, IfSome};
ghost use Rattle.break_lists.specs.Words.{thousandths, fraction_of, seconds_of, minutes_of, clock_of, span_of};

use crate::words::{behind, cut_at, whole_number};

/// The thousandths that one to three digits behind a point write.
fn thousandths(digits: &[u8]) -> Option<u64>
    ensures value { result ≡ thousandths digits.now }
    ensures below { IfSome result (λ n. n < 1000000) }
{
    if digits.len() > 3 {
        return None;
    }
    let number = whole_number(digits, 1_000)?;
    match digits.len() {
        3 => Some(number),
        2 => Some(number * 10),
        1 => Some(number * 100),
        _ => Some(number * 1_000),
    }
}

/// Those behind the point of a word, where it has one.
fn fraction_of(word: &[u8]) -> Option<u64>
    ensures value { result ≡ fraction_of word.now }
    ensures below { IfSome result (λ n. n < 1000000) }
{
    match cut_at(word, b'.') {
        (_, Some(digits)) => thousandths(digits),
        (_, None) => Some(0),
    }
}

/// Seconds, whole ones below the limit, in milliseconds.
fn seconds_of(word: &[u8], limit: u64) -> Option<u64>
    requires { limit ≤ 3600000 }
    ensures value { result ≡ seconds_of limit word.now }
    ensures below { IfSome result (λ n. n < 3602000000) }
{
    let (digits, _) = cut_at(word, b'.');
    let whole = whole_number(digits, limit)?;
    let fraction = fraction_of(word)?;
    Some(1_000 * whole + fraction)
}

/// Minutes and seconds, in milliseconds.
fn minutes_of(word: &[u8]) -> Option<u64>
    ensures value { result ≡ minutes_of word.now }
    ensures below { IfSome result (λ n. n < 3606000000) }
{
    let (digits, _) = cut_at(word, b':');
    let minutes = whole_number(digits, 60)?;
    let seconds = seconds_of(behind(word, b':'), 60)?;
    Some(60_000 * minutes + seconds)
}

/// Hours, minutes and seconds, in milliseconds.
fn clock_of(word: &[u8]) -> Option<u64>
    ensures value { result ≡ clock_of word.now }
    ensures below { IfSome result (λ n. n < 7210000000) }
{
    let (digits, _) = cut_at(word, b':');
    let hours = whole_number(digits, 1_000)?;
    let minutes = minutes_of(behind(word, b':'))?;
    Some(3_600_000 * hours + minutes)
}

/// A span of time, in milliseconds.
pub(crate) fn span_of(word: &[u8]) -> Option<u64>
    ensures value { result ≡ span_of word.now }
    ensures below { IfSome result (λ n. n < 7210000000) }
{
    match cut_at(word, b':') {
        (_, Some(_)) => clock_of(word),
        (_, None) => seconds_of(word, 3_600_000),
    }
}
