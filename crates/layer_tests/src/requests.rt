//! Each refusal by one message, and the life of an event, with numbers from outside.

use injector::*;
use pes_time::Time33;
use scte104_codec::{Frame, frame, read, write_reply};
use std::test::*;

/// A multiple operation with one splice_request: a start of event 1 of 30 seconds, four seconds from now, of program 7.
pub(crate) const START: [u8; 30] = [
    0xFF, 0xFF, 0x00, 0x1E, 0x00, 0x00, 0x05, 0x00, 0x01, 0x00, 0x00, 0x01, 0x01, 0x01, 0x00, 0x0E,
    0x01, 0x00, 0x00, 0x00, 0x01, 0x00, 0x07, 0x0F, 0xA0, 0x01, 0x2C, 0x00, 0x00, 0x01,
];

/// A multiple operation without operation.
const NONE: [u8; 12] = [
    0xFF, 0xFF, 0x00, 0x0C, 0x00, 0x00, 0x05, 0x00, 0x01, 0x00, 0x00, 0x00,
];

/// One with two splice_requests.
const TWO: [u8; 48] = [
    0xFF, 0xFF, 0x00, 0x30, 0x00, 0x00, 0x05, 0x00, 0x01, 0x00, 0x00, 0x02, 0x01, 0x01, 0x00, 0x0E,
    0x01, 0x00, 0x00, 0x00, 0x01, 0x00, 0x07, 0x0F, 0xA0, 0x01, 0x2C, 0x00, 0x00, 0x01, 0x01, 0x01,
    0x00, 0x0E, 0x01, 0x00, 0x00, 0x00, 0x01, 0x00, 0x07, 0x0F, 0xA0, 0x01, 0x2C, 0x00, 0x00, 0x01,
];

/// One with a splice_request and 14 avail ids, which follow, and one with 15.
const AVAILS: [[u8; 35]; 2] = [
    [
        0xFF, 0xFF, 0x00, 0x5B, 0x00, 0x00, 0x05, 0x00, 0x01, 0x00, 0x00, 0x02, 0x01, 0x01, 0x00,
        0x0E, 0x01, 0x00, 0x00, 0x00, 0x01, 0x00, 0x07, 0x0F, 0xA0, 0x01, 0x2C, 0x00, 0x00, 0x01,
        0x01, 0x0A, 0x00, 0x39, 0x0E,
    ],
    [
        0xFF, 0xFF, 0x00, 0x5F, 0x00, 0x00, 0x05, 0x00, 0x01, 0x00, 0x00, 0x02, 0x01, 0x01, 0x00,
        0x0E, 0x01, 0x00, 0x00, 0x00, 0x01, 0x00, 0x07, 0x0F, 0xA0, 0x01, 0x2C, 0x00, 0x00, 0x01,
        0x01, 0x0A, 0x00, 0x3D, 0x0F,
    ],
];

/// The same message with one byte changed, and the number that answers it.
const CHANGES: [(usize, u8, u16); 15] = [
    (11, 2, 0x8001),
    (4, 1, 0x8002),
    (9, 1, 0x8002),
    (8, 2, 0x8003),
    (10, 1, 0x8004),
    (13, 2, 0x8005),
    (16, 6, 0x8008),
    (16, 0, 0x8008),
    (16, 2, 0x8009),
    (16, 4, 0x8009),
    (29, 0, 0x800C),
    (16, 3, 0x8012),
    (16, 5, 0x8012),
    (15, 0x0D, 0x8001),
    (29, 1, 100),
];

/// The time so many ticks past zero.
fn time(ticks: u64) -> Result<Time33, Fail> {
    Ok(Time33::new(ticks).ok_or("a time")?)
}

/// The result of the reply to these bytes.
fn result(requests: &mut Requests, bytes: &[u8]) -> Result<u16, Fail> {
    match frame(bytes) {
        Frame::Whole(size) if size == bytes.len() => Ok(requests.ask(read(bytes)).result),
        _ => Err("a whole message")?,
    }
}

/// The start, with these bytes changed.
pub(crate) fn changed(changes: &[(usize, u8)]) -> [u8; 30] {
    let mut bytes = START;
    for (place, byte) in changes {
        if *place < bytes.len() {
            bytes[*place] = *byte;
        }
    }
    bytes
}

/// Requests at this time.
fn requests_at(ticks: u64) -> Result<Requests, Fail> {
    let mut requests = Requests::new(1);
    let high = time(ticks)?;
    if requests.can_advance(high) {
        requests.advance(high);
    }
    Ok(requests)
}

#[test]
fn each_refusal(rt: HostRuntime) -> Result<(), Fail> {
    for (place, byte, wanted) in CHANGES {
        let mut requests = requests_at(900_000)?;
        let got = result(&mut requests, &changed(&[(place, byte)]))?;
        expect_eq!(rt; (place, byte, got), (place, byte, wanted));
    }
    let mut requests = requests_at(900_000)?;
    expect_eq!(rt;
        result(&mut requests, &changed(&[(25, 0), (26, 0)]))?,
        0x800B
    );
    expect_eq!(rt;
        result(&mut requests, &changed(&[(23, 0), (24, 0)]))?,
        0x800D
    );
    expect_eq!(rt; result(&mut Requests::new(1), &START)?, 0x800E);
    Ok(())
}

#[test]
fn refusals_by_operations(rt: HostRuntime) -> Result<(), Fail> {
    let mut requests = requests_at(900_000)?;
    expect_eq!(rt; result(&mut requests, &NONE)?, 0x8006);
    expect_eq!(rt; result(&mut requests, &TWO)?, 0x8007);
    let mut many = [0; 95];
    many[..35].copy_from_slice(&AVAILS[1]);
    expect_eq!(rt; result(&mut requests, &many)?, 0x800A);
    many[..35].copy_from_slice(&AVAILS[0]);
    expect_eq!(rt; result(&mut requests, &many[..91])?, 100);
    Ok(())
}

/// Breaks of a tenth of a second, each a second behind the other: the 33rd finds 32 standing.
#[test]
fn thirty_three_events(rt: HostRuntime) -> Result<(), Fail> {
    let mut requests = requests_at(900_000)?;
    for id in 1..34u8 {
        let [high, low] = (u16::from(id) * 1_000).to_be_bytes();
        let start = changed(&[(20, id), (23, high), (24, low), (25, 0), (26, 1)]);
        let wanted = if id < 33 { 100 } else { 0x8010 };
        expect_eq!(rt; (id, result(&mut requests, &start)?), (id, wanted));
    }
    Ok(())
}

#[test]
fn life_of_an_event(rt: HostRuntime) -> Result<(), Fail> {
    let mut requests = requests_at(900_000)?;
    expect_eq!(rt; requests.high(), Some(time(900_000)?));
    expect_eq!(rt; result(&mut requests, &START)?, 100);
    expect_eq!(rt; result(&mut requests, &START)?, 0x800F);
    expect_eq!(rt; result(&mut requests, &changed(&[(20, 2)]))?, 0x8011);
    // An end four seconds from now is the start; one of 34 seconds is the present end.
    expect_eq!(rt; result(&mut requests, &changed(&[(16, 3)]))?, 0x8014);
    expect_eq!(rt;
        result(&mut requests, &changed(&[(16, 3), (23, 0x84), (24, 0xD0)]))?,
        0x8014
    );
    expect_eq!(rt;
        result(&mut requests, &changed(&[(16, 3), (23, 0x84), (24, 0xCF)]))?,
        100
    );
    expect_eq!(rt; result(&mut requests, &changed(&[(16, 5)]))?, 100);
    expect_eq!(rt; result(&mut requests, &changed(&[(16, 5)]))?, 100);
    expect_eq!(rt; result(&mut requests, &START)?, 0x800F);
    let high = time(1_260_000)?;
    expect_eq!(rt; requests.can_advance(high), true);
    if requests.can_advance(high) {
        requests.advance(high);
    }
    expect_eq!(rt; result(&mut requests, &changed(&[(16, 5)]))?, 0x8013);
    Ok(())
}

#[test]
fn replies(rt: HostRuntime) -> Result<(), Fail> {
    let mut requests = requests_at(900_000)?;
    let reply = requests.ask(Err(scte104_codec::BadMessage {
        multi: false,
        head: scte104_codec::Head {
            as_index: 0,
            number: 1,
            index: 1,
        },
    }));
    let bytes = write_reply(&reply);
    let wanted: [u8; 13] = [0, 4, 0, 13, 0x80, 1, 0xFF, 0xFF, 0, 0, 1, 0, 1];
    expect_eq!(rt; bytes.as_slice(), wanted.as_slice());
    let Frame::Whole(30) = frame(&START) else {
        return Err("a whole message")?;
    };
    Ok(())
}
