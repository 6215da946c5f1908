//! Fields of packets, units and tables, written in their places.

use psi_section::crc;
use std::alloc::{AllocError, Global};

/// The last number of the clock of 33 bits.
pub const CLOCK: u64 = 0x1_FFFF_FFFF;

/// Writes these bytes from this place on, as far as there is room.
pub fn put(bytes: &mut [u8], place: usize, part: &[u8]) {
    if let Some(room) = bytes.get_mut(place..) {
        for (to, from) in room.iter_mut().zip(part) {
            *to = *from;
        }
    }
}

/// The five bytes of a time stamp behind these four bits (ISO/IEC 13818-1, 2.4.3.6).
pub fn stamp(prefix: u64, ticks: u64) -> [u8; 5] {
    let high = (ticks >> 30) & 7;
    let middle = (ticks >> 15) & 0x7FFF;
    let low = ticks & 0x7FFF;
    let field = (prefix << 36) | (high << 33) | (1 << 32) | (middle << 17) | (1 << 16) | (low << 1);
    let [_, _, _, a, b, c, d, e] = (field | 1).to_be_bytes();
    [a, b, c, d, e]
}

/// The six bytes of a clock reference without extension (2.4.3.4).
pub fn clock(ticks: u64) -> [u8; 6] {
    let field = ((ticks & CLOCK) << 15) | 0x7E00;
    let [_, _, a, b, c, d, e, f] = field.to_be_bytes();
    [a, b, c, d, e, f]
}

/// The low 16 bits of a number.
pub fn low_bytes(number: usize) -> [u8; 2] {
    let [a, b, _, _, _, _, _, _] = number.to_le_bytes();
    [b, a]
}

/// Ends a section with its CRC_32, behind its size in the second and the third byte.
pub fn close_section(section: &mut Vec<u8>, kind: u8) -> Result<(), AllocError> {
    let [high, low] = low_bytes(section.len().wrapping_add(1));
    put(
        section.as_mut_slice(),
        0,
        &[kind, 0xB0 | (high & 0x0F), low],
    );
    let sum = crc(section.as_slice()).to_be_bytes();
    section.extend_from_slice(&sum)
}

/// A section that begins with this number, and whose version is 0.
pub fn open_section(alloc: Global, number: u16) -> Result<Vec<u8>, AllocError> {
    let [high, low] = number.to_be_bytes();
    Vec::from_slice(alloc, &[0, 0, 0, high, low, 0xC1, 0, 0])
}

/// Adds a PID behind three bits that are reserved.
pub fn push_pid(section: &mut Vec<u8>, pid: u16) -> Result<(), AllocError> {
    let [high, low] = pid.to_be_bytes();
    section.extend_from_slice(&[0xE0 | (high & 0x1F), low])
}
