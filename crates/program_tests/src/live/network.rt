//! Networks of null packets, which each kind of run passes on as they are, and how they come.

use failing_devices::Moment;
use std::alloc::{AllocError, Global};
use std::process::Abort;

/// So many null packets, each with its number in it.
pub(crate) fn null_packets(alloc: Global, count: u32) -> Result<Vec<u8>, AllocError> {
    let mut bytes = Vec::new(alloc);
    for number in 0..count {
        bytes.extend_from_slice(&[0x47, 0x1F, 0xFF, 0x10])?;
        bytes.extend_from_slice(&number.to_be_bytes())?;
        for _ in 8..188 {
            bytes.push(0xA5)?;
        }
    }
    Ok(bytes)
}

/// The sizes of the pieces of ten packets: seven at once, one a byte a read, one and a half, and a half.
pub(crate) fn pauses(alloc: Global) -> Result<Vec<usize>, AllocError> {
    let mut sizes = Vec::new(alloc);
    sizes.push(1_316)?;
    for _ in 0..188 {
        sizes.push(1)?;
    }
    sizes.push(282)?;
    sizes.push(94)?;
    Ok(sizes)
}

/// At each read all pieces of this size that came in whole are out, and since the read before it at most one write was made.
pub(crate) fn expect_prompt<R: Abort>(rt: &R, moments: &[Moment], size: usize) {
    let mut writes: usize = 0;
    for (place, moment) in moments.iter().enumerate() {
        let part = if size == 0 { 0 } else { moment.given % size };
        assert_eq!(rt; moment.written, moment.given - part, "read {place}");
        assert!(rt; moment.writes <= writes.saturating_add(1), "read {place}");
        writes = moment.writes;
    }
}
