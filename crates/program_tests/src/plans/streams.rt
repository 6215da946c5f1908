//! Streams made by hand: a PAT, a map with one video, and pictures of one packet each.

use std::alloc::{AllocError, Global};

/// Program 1 has its map on PID 32 (ISO/IEC 13818-1, 2.4.4.3).
const PAT: [u8; 16] = [
    0x00, 0xB0, 0x0D, 0x00, 0x01, 0xC1, 0x00, 0x00, 0x00, 0x01, 0xE0, 0x20, 0xA2, 0xC3, 0x29, 0x41,
];

/// Its video is on PID 256, of type 0x1B, ISO/IEC 14496-10, and has the clock (2.4.4.8).
const MAP: [u8; 21] = [
    0x02, 0xB0, 0x12, 0x00, 0x01, 0xC1, 0x00, 0x00, 0xE1, 0x00, 0xF0, 0x00, 0x1B, 0xE1, 0x00, 0xF0,
    0x00, 0x15, 0xBD, 0x4D, 0x56,
];

/// A later one, by which the video is on PID 257.
const CHANGED_MAP: [u8; 21] = [
    0x02, 0xB0, 0x12, 0x00, 0x01, 0xC3, 0x00, 0x00, 0xE1, 0x00, 0xF0, 0x00, 0x1B, 0xE1, 0x01, 0xF0,
    0x00, 0x1B, 0x88, 0x27, 0xDD,
];

/// Ticks from one picture to the next: 25 in a second.
const PICTURE: u64 = 3_600;

/// How many pictures lie from one random access picture to the next: a second.
const GROUP: u64 = 25;

/// The packet of a section on this PID below 256.
fn table(pid: u8, section: &[u8]) -> [u8; 188] {
    let mut packet = [0xFF; 188];
    packet[..5].copy_from_slice(&[0x47, 0x40, pid, 0x10, 0x00]);
    for (place, byte) in section.iter().enumerate() {
        if let Some(room) = packet.get_mut(5 + place) {
            *room = *byte;
        }
    }
    packet
}

/// A presentation time stamp in a PES header (2.4.3.6).
fn stamp(pts: u64) -> [u8; 5] {
    [
        0x21 + 2 * (pts / (1 << 30) % 8) as u8,
        (pts / (1 << 22) % 256) as u8,
        0x01 + 2 * (pts / (1 << 15) % 128) as u8,
        (pts / (1 << 7) % 256) as u8,
        0x01 + 2 * (pts % 128) as u8,
    ]
}

/// The first packet of the picture of this number, with this counter: an adaptation field with random_access_indicator, a PES header, and the
/// begin of a NAL unit with this first byte (ISO/IEC 14496-10, 7.3.1), four bytes.
fn picture(number: u64, counter: u64, pts: u64, nal: u8) -> [u8; 188] {
    let mut packet = [0xFF; 188];
    let counter = (counter % 16) as u8;
    let flags = if number % GROUP == 0 { 0x40 } else { 0x00 };
    packet[..6].copy_from_slice(&[0x47, 0x41, 0x00, 0x30 + counter, 165, flags]);
    packet[170..179].copy_from_slice(&[0x00, 0x00, 0x01, 0xE0, 0x00, 0x00, 0x80, 0x80, 0x05]);
    packet[179..184].copy_from_slice(&stamp(pts));
    packet[184..].copy_from_slice(&[0x00, 0x00, 0x01, nal]);
    packet
}

/// A further packet of a picture, with this counter: the begin of a NAL unit with this first byte, four bytes.
fn further(counter: u64, nal: u8) -> [u8; 188] {
    let mut packet = [0xFF; 188];
    let counter = (counter % 16) as u8;
    packet[..6].copy_from_slice(&[0x47, 0x01, 0x00, 0x30 + counter, 179, 0x00]);
    packet[184..].copy_from_slice(&[0x00, 0x00, 0x01, nal]);
    packet
}

/// The first byte of a slice of an IDR picture, and of another one (table 7-1).
const IDR: u8 = 0x65;

const NO_IDR: u8 = 0x41;

/// That of supplemental enhancement information.
const SEI: u8 = 0x06;

/// The pictures of a stream.
#[derive(Clone, Copy)]
pub(crate) struct Pictures {
    /// How many there are.
    pub(crate) count: u64,
    /// The time stamp of the first.
    pub(crate) first: u64,
    /// How many lie from an IDR picture to the first.
    pub(crate) from_idr: u64,
    /// How many pictures lie from one IDR picture to the next.
    pub(crate) to_idr: u64,
    /// Each has two packets, and its slice begins in the second, behind supplemental enhancement information in the first.
    pub(crate) are_in_two: bool,
}

/// A stream of so many pictures, the first of this time stamp, with an IDR picture at each random access.
pub(crate) fn stream(alloc: Global, count: u64, first: u64) -> Result<Vec<u8>, AllocError> {
    stream_of(
        alloc,
        Pictures {
            count,
            first,
            from_idr: 0,
            to_idr: GROUP,
            are_in_two: false,
        },
    )
}

/// A stream of these pictures: packet 0 is the PAT, packet 1 the map, and packet `2 + k` picture `k`, or packets `2 + 2 k` and `3 + 2 k`.
pub(crate) fn stream_of(alloc: Global, pictures: Pictures) -> Result<Vec<u8>, AllocError> {
    let mut bytes = Vec::new(alloc);
    bytes.extend_from_slice(&table(0, &PAT))?;
    bytes.extend_from_slice(&table(32, &MAP))?;
    let mut pts = pictures.first;
    let mut far = pictures.from_idr;
    for number in 0..pictures.count {
        let nal = if far == 0 { IDR } else { NO_IDR };
        if pictures.are_in_two {
            let counter = number.wrapping_mul(2);
            bytes.extend_from_slice(&picture(number, counter, pts, SEI))?;
            bytes.extend_from_slice(&further(counter.wrapping_add(1), nal))?;
        } else {
            bytes.extend_from_slice(&picture(number, number, pts, nal))?;
        }
        pts = pts.wrapping_add(PICTURE) % (1 << 33);
        far = if far.wrapping_add(1) == pictures.to_idr {
            0
        } else {
            far.wrapping_add(1)
        };
    }
    Ok(bytes)
}

/// Ten pictures, and then another map: packet 12.
pub(crate) fn changed_stream(alloc: Global) -> Result<Vec<u8>, AllocError> {
    let mut bytes = stream(alloc, 10, 0)?;
    bytes.extend_from_slice(&table(32, &CHANGED_MAP))?;
    Ok(bytes)
}
