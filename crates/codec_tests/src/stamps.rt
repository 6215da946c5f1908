//! Bytes from outside: stamps as the standard spells them, and payloads that end early.

use pes_time::*;
use std::test::*;

/// The front of a PES packet of stream_id 0xE0 with a PTS alone, 90,000, and two bytes behind it.
const PTS_ALONE: [u8; 16] = [
    0, 0, 1, 0xE0, 0, 0, 0x80, 0x80, 5, 0x21, 0x00, 0x05, 0xBF, 0x21, 0xAA, 0xBB,
];

/// The same with a PTS of 2^33 - 1 and a DTS of 90,000.
const BOTH: [u8; 20] = [
    0, 0, 1, 0xE0, 0, 0, 0x80, 0xC0, 10, 0x3F, 0xFF, 0xFF, 0xFF, 0xFF, 0x11, 0x00, 0x05, 0xBF,
    0x21, 0xCC,
];

/// Payloads that tell that there is no stamp.
const UNTIMED: [&[u8]; 13] = [
    &[5],
    &[0, 1],
    &[0, 0, 2],
    &[0, 0, 1, 0xBC],
    &[0, 0, 1, 0xBE],
    &[0, 0, 1, 0xBF, 0, 0, 0x80, 0x80, 5],
    &[0, 0, 1, 0xFF],
    &[0, 0, 1, 0xE0, 0, 0, 0x40],
    &[0, 0, 1, 0xE0, 0, 0, 0x80, 0x00],
    &[0, 0, 1, 0xE0, 0, 0, 0x80, 0x40],
    &[0, 0, 1, 0xE0, 0, 0, 0x80, 0x80, 4],
    &[
        0, 0, 1, 0xE0, 0, 0, 0x80, 0x80, 4, 0x21, 0x00, 0x05, 0xBF, 0x21,
    ],
    &[
        0, 0, 1, 0xE0, 0, 0, 0x80, 0xC0, 5, 0x21, 0x00, 0x05, 0xBF, 0x21,
    ],
];

/// Payloads that end before the answer is known.
const SPLIT: [&[u8]; 8] = [
    &[],
    &[0, 0],
    &[0, 0, 1],
    &[0, 0, 1, 0xE0],
    &[0, 0, 1, 0xE0, 0, 0, 0x80],
    &[0, 0, 1, 0xE0, 0, 0, 0x80, 0x80],
    &[0, 0, 1, 0xE0, 0, 0, 0x80, 0x80, 5, 0x21, 0x00, 0x05, 0xBF],
    &[
        0, 0, 1, 0xE0, 0, 0, 0x80, 0xC0, 10, 0x31, 0x00, 0x05, 0xBF, 0x21, 0x11, 0x00, 0x05, 0xBF,
    ],
];

#[test]
fn ring(rt: HostRuntime) -> Result<(), Fail> {
    let last = Time33::new((1 << 33) - 1).ok_or("a time")?;
    let first = Time33::new(0).ok_or("a time")?;
    expect_eq!(rt; Time33::new(1 << 33), None);
    expect_eq!(rt; last.ticks(), 8_589_934_591);
    expect_eq!(rt; last.plus(1), first);
    expect_eq!(rt; last.plus(u64::MAX).ticks(), 8_589_934_590);
    expect_eq!(rt; first.minus(1), last);
    expect_eq!(rt; first.minus(u64::MAX).ticks(), 1);
    expect_eq!(rt; first.signed_from(last), 1);
    expect_eq!(rt; last.signed_from(first), -1);
    expect_eq!(rt; first.plus(1 << 32).signed_from(first), -(1 << 32));
    expect_eq!(rt; first.plus((1 << 32) - 1).signed_from(first), (1 << 32) - 1);
    laws::ring_order_is_line_order();
    laws::lift_is_the_near_time();
    Ok(())
}

/// The head with these stamps.
fn head_at(pts: Time33, dts: Option<Time33>) -> PesHead {
    PesHead::Timed {
        pts,
        dts,
        pts_at: 9,
        dts_at: if dts.is_some() { Some(14) } else { None },
    }
}

#[test]
fn timed(rt: HostRuntime) -> Result<(), Fail> {
    let second = Time33::new(90_000).ok_or("a time")?;
    let last = Time33::new((1 << 33) - 1).ok_or("a time")?;
    let whole = PesHead::read(&PTS_ALONE);
    expect_eq!(rt; whole, Ok(head_at(second, None)));
    expect_eq!(rt; PesHead::read(&PTS_ALONE[..14]), whole);
    expect_eq!(rt; PesHead::read(&BOTH), Ok(head_at(last, Some(second))));
    laws::more_bytes_read_the_same();
    Ok(())
}

#[test]
fn not_timed(rt: HostRuntime) {
    for payload in &UNTIMED {
        expect_eq!(rt; PesHead::read(payload), Ok(PesHead::Untimed));
    }
    for payload in &SPLIT {
        expect_eq!(rt; PesHead::read(payload), Err(HeaderSplit));
    }
    laws::split_is_undecided();
}

#[test]
fn moved(rt: HostRuntime) -> Result<(), Fail> {
    let mut unit = PTS_ALONE;
    let head = PesHead::read(&unit).ok().ok_or("a head")?;
    restamp(&mut unit, &head, Time33::new(1_170_000).ok_or("a time")?);
    expect_eq!(rt;
        &unit[9..],
        [0x21, 0x00, 0x4D, 0x73, 0xC1, 0xAA, 0xBB].as_slice()
    );
    expect_eq!(rt; &unit[..9], &PTS_ALONE[..9]);
    let mut unit = BOTH;
    let head = PesHead::read(&unit).ok().ok_or("a head")?;
    restamp(&mut unit, &head, Time33::new(1_170_001).ok_or("a time")?);
    expect_eq!(rt; &unit[9..14], [0x31, 0x00, 0x47, 0xB4, 0xA1].as_slice());
    expect_eq!(rt;
        &unit[14..],
        [0x11, 0x00, 0x4D, 0x73, 0xC3, 0xCC].as_slice()
    );
    laws::restamp_moves_stamps_alone();
    Ok(())
}
