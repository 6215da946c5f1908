//! Messages of an automation (ANSI/SCTE 104), and the lines of a script.

use std::alloc::AllocError;

/// splice_insert_type of a start at a time.
pub const START: u8 = 1;

/// splice_insert_type of a start at once, which is not served.
pub const START_AT_ONCE: u8 = 2;

/// splice_insert_type of an end at a time.
pub const END: u8 = 3;

/// splice_insert_type of a cancel.
pub const CANCEL: u8 = 5;

/// A request for a break, or for what becomes of one.
#[derive(Clone, Copy, Debug)]
pub struct Request {
    /// The packet before which it comes.
    pub packet: u64,
    /// splice_insert_type.
    pub kind: u8,
    /// splice_event_id.
    pub event: u32,
    /// The number of the advertisement.
    pub advert: u16,
    /// How many milliseconds ahead the start or the end lies.
    pub pre_roll: u16,
    /// How many tenths of a second the break lasts.
    pub tenths: u16,
}

/// The `DPI_PID_index` of the messages.
pub const INDEX: u16 = 1;

impl Request {
    /// The message that asks for it: a multiple_operation_message with one splice_request_data.
    pub fn message(&self) -> [u8; 30] {
        let [e, f, g, h] = self.event.to_be_bytes();
        let [advert_high, advert_low] = self.advert.to_be_bytes();
        let [roll_high, roll_low] = self.pre_roll.to_be_bytes();
        let [tenths_high, tenths_low] = self.tenths.to_be_bytes();
        let [index_high, index_low] = INDEX.to_be_bytes();
        [
            0xFF,
            0xFF,
            0,
            30,
            0,
            0,
            h,
            index_high,
            index_low,
            0,
            0,
            1,
            1,
            1,
            0,
            14,
            self.kind,
            e,
            f,
            g,
            h,
            advert_high,
            advert_low,
            roll_high,
            roll_low,
            tenths_high,
            tenths_low,
            0,
            0,
            1,
        ]
    }
}

/// The digit of a value below 16.
fn digit(value: u8) -> u8 {
    if value < 10 {
        value.wrapping_add(48)
    } else {
        value.wrapping_add(55)
    }
}

/// Adds the decimal digits of a number.
fn push_number(text: &mut Vec<u8>, number: u64) -> Result<(), AllocError> {
    let mut digits = [48; 20];
    let mut rest = number;
    let mut first = 19_usize;
    for (place, room) in digits.iter_mut().enumerate().rev() {
        let [low, ..] = (rest % 10).to_le_bytes();
        *room = low.wrapping_add(48);
        rest /= 10;
        first = place;
        if rest == 0 {
            break;
        }
    }
    match digits.get(first..) {
        Some(shown) => text.extend_from_slice(shown),
        None => Ok(()),
    }
}

/// Adds bytes as upper case hexadecimal digits.
pub fn push_digits(text: &mut Vec<u8>, bytes: &[u8]) -> Result<(), AllocError> {
    for byte in bytes {
        text.extend_from_slice(&[digit(*byte >> 4), digit(*byte & 15)])?;
    }
    Ok(())
}

/// Adds the line of a message that comes before this packet.
pub fn push_line(text: &mut Vec<u8>, packet: u64, message: &[u8]) -> Result<(), AllocError> {
    push_number(text, packet)?;
    text.push(32)?;
    push_digits(text, message)?;
    text.push(10)?;
    Ok(())
}

/// Adds the lines of requests in order of their packets: those before one packet stand in one line.
pub fn push_requests(text: &mut Vec<u8>, requests: &[Request]) -> Result<(), AllocError> {
    let mut last = None;
    for request in requests {
        if last == Some(request.packet) {
            push_digits(text, &request.message())?;
            continue;
        }
        if last.is_some() {
            text.push(10)?;
        }
        push_number(text, request.packet)?;
        text.push(32)?;
        push_digits(text, &request.message())?;
        last = Some(request.packet);
    }
    if last.is_some() {
        text.push(10)?;
    }
    Ok(())
}
