//! Bytes as upper case hexadecimal digits.

ghost use Rattle.std.specs.Prelude.{◌≡◌, ◌+◌, ◌*◌, ◌<◌, ◌≤◌, ◌++◌, length, take, drop, IfOk, IfErr, IfSome, Some, true, None, is_some, option_map};
ghost use Rattle.std.specs.Bool.{OnTrue, OnFalse};
ghost use Rattle.std.specs.List.{list_all};
ghost use Rattle.hex_digits.specs.Digits.{digit_value, digit_of, digits_of, spelled};

use std::alloc::{AllocError, Global};
use std::fmt;

/// The value of an upper case hexadecimal digit, `0` to `9` and `A` to `F`; `None` for any other byte.
pub fn value_of(digit: u8) -> Option<u8>
    ensures value { result ≡ digit_value digit }
    ensures below { IfSome result (λ v. v < 16) }
{
    match digit {
        b'0'..=b'9' => Some(digit - b'0'),
        b'A'..=b'F' => Some(digit - b'A' + 10),
        _ => None,
    }
}

/// The upper case hexadecimal digit of a value below 16.
pub fn digit_of(value: u8) -> u8
    requires { value < 16 }
    ensures { result ≡ digit_of value }
{
    if value < 10 {
        b'0' + value
    } else {
        b'A' - 10 + value
    }
}

/// Spells bytes into a line, as two digits for each, behind those of the `start` bytes before them.
pub fn spell(line: &mut [u8], start: usize, bytes: &[u8])
    requires { 2 * (start + length bytes.now) ≤ length line.old }
    ensures { line.new
        ≡ take (2 * start) line.old ++ digits_of bytes.now ++ drop (2 * (start + length bytes.now)) line.old }
{
    for (index, byte) in bytes.iter().enumerate() {
        let at = 2 * (start + index);
        line[at] = digit_of(*byte / 16);
        line[at + 1] = digit_of(*byte % 16);
    }
}

/// The bytes that this text spells by two digits for each; `None` where it spells none.
///
/// Memory is asked for once, for all the bytes, and not at all where there are none.
///
/// # Errors
///
/// Where the allocator refused memory for bytes that are spelled.
#[tactic(auto, using(crate::proofs::DigitLemmas::none_there, crate::proofs::DigitLemmas::spelled_size))]
pub fn bytes_of(alloc: Global, text: &[u8]) -> Result<Option<Vec<u8>>, AllocError>
    ensures bytes { IfOk result (λ bytes. option_map (λ b. b.items) bytes ≡ spelled text.now) }
    ensures refused { IfErr result (λ e. is_some (spelled text.now) ≡ true) }
{
    if !spells_bytes(text) {
        return Ok(None);
    }
    let mut bytes = vec![in alloc; 0_u8; text.len() / 2]?;
    let is_read = bytes_at_once(text, bytes.as_mut_slice());
    prove!(is_read);
    Ok(Some(bytes))
}

/// Reads the bytes that the text spells, two digits for each, into the slice that they fill; false where it spells none.
#[tactic(auto, using(crate::proofs::DigitLemmas::spelled_not_high, crate::proofs::DigitLemmas::spelled_not_low))]
pub fn bytes_into(text: &[u8], bytes: &mut [u8]) -> bool
    requires { length text.now ≡ 2 * length bytes.old }
    ensures read { OnTrue result (spelled text.now ≡ Some bytes.new) }
    ensures none { OnFalse result (spelled text.now ≡ None) }
    ensures size { length bytes.new ≡ length bytes.old }
{
    let mut rest = text;
    for index in 0..bytes.len() {
        let (Some(high), Some(low)) = (value_of(rest[0]), value_of(rest[1])) else {
            return false;
        };
        bytes[index] = 16 * high + low;
        let (_, after) = rest.split_at(2);
        rest = after;
    }
    true
}

/// Whether a byte is an upper case hexadecimal digit.
fn is_digit(byte: u8) -> bool
    ensures { result ≡ is_some (digit_value byte) }
{
    matches!(byte, b'0'..=b'9' | b'A'..=b'F')
}

/// How many bytes [`are_digits`] judges at once.
const PIECE: usize = 64;

/// Whether each byte of the text is an upper case hexadecimal digit; no more is read than the piece with the first that is none.
fn are_digits(text: &[u8]) -> bool
    ensures { result ≡ list_all (λ byte. is_some (digit_value byte)) text.now }
{
    let mut rest = text;
    while rest.len() > PIECE {
        let (piece, after) = rest.split_at(PIECE);
        if !are_digits_at_once(piece) {
            return false;
        }
        rest = after;
    }
    are_digits_at_once(rest)
}

/// Judges a text as [`are_digits`] does, for one of a piece at most.
///
/// No digit decides what is done next, so that many are judged at once: a text with a byte that is none is read to its end too.
fn are_digits_at_once(text: &[u8]) -> bool
    ensures { result ≡ list_all (λ byte. is_some (digit_value byte)) text.now }
{
    let mut all = true;
    for byte in text {
        all &= is_digit(*byte);
    }
    all
}

/// Whether the text spells bytes, by two digits for each.
#[tactic(auto, using(crate::proofs::DigitLemmas::spelled_odd, crate::proofs::DigitLemmas::spelled_even))]
fn spells_bytes(text: &[u8]) -> bool
    ensures { result ≡ is_some (spelled text.now) }
{
    text.len() % 2 == 0 && are_digits(text)
}

/// The value of an upper case hexadecimal digit; of any other byte some value below 16.
fn half_of(digit: u8) -> u8
    ensures value { IfSome (digit_value digit) (λ v. v ≡ result) }
    ensures below { result < 16 }
{
    if digit < b'A' {
        digit % 16
    } else {
        (digit % 16 + 9) % 16
    }
}

/// Reads the bytes that the text spells as [`bytes_into`] does, for texts of a known small size, as a packet's line, or texts that were judged.
///
/// No digit decides what is done next: a text that spells none is read to its end too. So many digits are read at once.
pub fn bytes_at_once(text: &[u8], bytes: &mut [u8]) -> bool
    requires { length text.now ≡ 2 * length bytes.old }
    ensures read { OnTrue result (spelled text.now ≡ Some bytes.new) }
    ensures none { OnFalse result (spelled text.now ≡ None) }
    ensures size { length bytes.new ≡ length bytes.old }
{
    let mut is_spelled = true;
    let mut rest = text;
    for index in 0..bytes.len() {
        let high = rest[0];
        let low = rest[1];
        is_spelled = is_spelled & is_digit(high) & is_digit(low);
        bytes[index] = 16 * half_of(high) + half_of(low);
        let (_, after) = rest.split_at(2);
        rest = after;
    }
    is_spelled
}

/// Bytes that print as their digits; no bytes print as nothing.
#[derive(Clone, Copy)]
pub struct Digits<'a>(pub &'a [u8]);

impl fmt::Display for Digits<'_> {
    ghost use Rattle.std.specs.Prelude.{Some};
    ghost use Rattle.hex_digits.specs.Digits.{digits_of};

    ghost output = { λ t. Some (digits_of t.0.now) };

    fn fmt<W: fmt::Write>(&self, f: &mut fmt::Formatter<W>) -> fmt::Result {
        for byte in self.0 {
            let byte = *byte;
            write!(f, "{byte:02X}")?;
        }
        Ok(())
    }
}
