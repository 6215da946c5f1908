//! Packets and payloads, as the standards spell them.

ghost use Rattle.std.specs.Prelude.{◌≡◌, slice_index};

use psi_section::crc;

/// payload_unit_start_indicator.
pub const START: u8 = 0x40;

/// transport_error_indicator.
pub const MARKED: u8 = 0x80;

/// A packet of this PID with these flags and this counter (ISO/IEC 13818-1, 2.4.3.2). A payload below 184 bytes stands behind an
/// adaptation field of this content and stuffing; without payload the field stands alone.
pub fn packet(pid: u16, flags: u8, counter: u8, field: &[u8], payload: &[u8]) -> [u8; 188]
    ensures { slice_index result 0 ≡ 71 }
{
    let [high, low] = (pid & 0x1FFF).to_be_bytes();
    let mut bytes = [0xFF; 188];
    bytes[1] = flags | high;
    bytes[2] = low;
    let count = payload.len().min(184);
    let control = match count {
        0 => 0x20,
        184 => 0x10,
        _ => 0x30,
    };
    bytes[3] = control | (counter & 15);
    bytes[188 - count..].copy_from_slice(&payload[..count]);
    if count < 184 {
        let length = 183 - count;
        bytes[4] = length as u8;
        if length > 0 {
            bytes[5] = 0;
        }
        let size = field.len().min(length);
        bytes[5..5 + size].copy_from_slice(&field[..size]);
    }
    bytes[0] = 0x47;
    bytes
}

/// The payload of a packet in which this section of at most 179 bytes begins and ends, with its CRC_32.
pub fn section(body: &[u8]) -> [u8; 184] {
    let mut bytes = [0xFF; 184];
    bytes[0] = 0;
    let size = body.len().min(179);
    bytes[1..1 + size].copy_from_slice(&body[..size]);
    bytes[1 + size..5 + size].copy_from_slice(&crc(body).to_be_bytes());
    bytes
}

/// The five bytes of a stamp behind these four bits (ISO/IEC 13818-1, 2.4.3.6).
fn stamp(prefix: u8, ticks: u64) -> [u8; 5] {
    [
        (prefix << 4) | 1 | ((ticks >> 29) & 0x0E) as u8,
        ((ticks >> 22) & 0xFF) as u8,
        1 | ((ticks >> 14) & 0xFE) as u8,
        ((ticks >> 7) & 0xFF) as u8,
        1 | ((ticks << 1) & 0xFE) as u8,
    ]
}

/// A unit of the network with this PTS.
pub fn network_unit(pts: u64) -> [u8; 18] {
    let [a, b, c, d, e] = stamp(2, pts);
    [
        0, 0, 1, 0xE0, 0, 0, 0x80, 0x80, 5, a, b, c, d, e, 0x4E, 0x45, 0x54, 0x57,
    ]
}

/// A unit of an advertisement with this PTS, and with a DTS 3,000 ticks before it.
pub fn advert_unit(pts: u64) -> [u8; 22] {
    let [a, b, c, d, e] = stamp(3, pts);
    let [f, g, h, i, j] = stamp(1, pts.wrapping_sub(3_000));
    [
        0, 0, 1, 0xE0, 0, 0, 0x80, 0xC0, 10, a, b, c, d, e, f, g, h, i, j, 0x41, 0x44, 0x56,
    ]
}

/// A unit without a time.
pub const UNTIMED: [u8; 12] = [0, 0, 1, 0xE0, 0, 0, 0x80, 0, 0, 0x55, 0x4E, 0x54];
