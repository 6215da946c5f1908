//! The text of a script.

ghost use Rattle.std.specs.Prelude.{◌≡◌, ◌++◌, IfOk, OnOk};
ghost use Rattle.hex_digits.specs.Digits.{digits_of};
ghost use Rattle.break_scripts.specs.Scripts.{message, goes_on, front, ending, lines_of, script_text};

use crate::request::{PlacedRequest, request_bytes};
use hex_digits::Digits;
use scte104_codec::SpliceRequest;
use std::alloc::{AllocError, Global};
use std::io::Write;

/// Writes the number of a packet and a space behind a text, unless the text is within its line.
fn push_front(text: &mut Vec<u8>, packet: u64, is_within: bool) -> Result<(), AllocError>
    ensures { OnOk result (text.new.items ≡ text.old.items ++ front is_within packet) }
{
    if is_within {
        return Ok(());
    }
    match write!(text, "{packet} ") {
        Ok(()) => Ok(()),
        Err(_) => Err(AllocError),
    }
}

/// Writes the digits of a message behind a text.
fn push_message(
    text: &mut Vec<u8>,
    request: SpliceRequest,
    number: u8,
    index: u16,
) -> Result<(), AllocError>
    ensures { OnOk result (text.new.items ≡ text.old.items ++ digits_of (message number index request)) }
{
    let bytes = request_bytes(request, number, index);
    let digits = Digits(bytes.as_slice());
    match write!(text, "{digits}") {
        Ok(()) => Ok(()),
        Err(_) => Err(AllocError),
    }
}

/// Ends the line of a text, unless the text is still within it.
fn push_end(text: &mut Vec<u8>, is_within: bool) -> Result<(), AllocError>
    ensures { OnOk result (text.new.items ≡ text.old.items ++ ending is_within) }
{
    if is_within {
        return Ok(());
    }
    text.push(b'\n')?;
    Ok(())
}

/// The first of these requests comes before this packet too.
fn goes_on(packet: u64, requests: &[PlacedRequest]) -> bool
    ensures { result ≡ goes_on packet requests.now }
{
    match requests.first() {
        Some(next) => next.packet == packet,
        None => false,
    }
}

/// The text of a script: for each packet before which requests come a line of its number and their messages, numbered from 0 up to 255 and
/// on from 0.
///
/// # Errors
///
/// Where the allocator refused memory.
pub fn script_of(
    alloc: Global,
    requests: &[PlacedRequest],
    index: u16,
) -> Result<Vec<u8>, AllocError>
    ensures { IfOk result (λ v. v.items ≡ script_text (lines_of index 0 requests.now)) }
{
    let mut text = Vec::new(alloc);
    let mut number = 0_u8;
    let mut is_within = false;
    let mut rest = requests;
    while let Some((asked, behind)) = rest.split_first() {
        push_front(&mut text, asked.packet, is_within)?;
        push_message(&mut text, asked.request, number, index)?;
        is_within = goes_on(asked.packet, behind);
        push_end(&mut text, is_within)?;
        number = number.wrapping_add(1);
        rest = behind;
    }
    Ok(text)
}
