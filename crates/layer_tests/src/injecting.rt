//! The injector over small networks: what goes out, by bytes from outside.

use crate::requests::{START, changed};
use injector::Injector;
use psi_section::crc;
use psi_tables::{Config, FeedFault, NetworkFault};
use scte104_codec::{Frame, frame, read};
use std::alloc::{AllocError, Global};
use std::test::*;
use ts_packet::{Packet, PacketList, Pid, PutFault};

/// A packet with a PAT: the map of program 1 is on PID 0x20.
const PAT: [u8; 21] = [
    0x47, 0x40, 0x00, 0x10, 0x00, 0x00, 0xB0, 0x0D, 0x00, 0x01, 0xC1, 0x00, 0x00, 0x00, 0x01, 0xE0,
    0x20, 0xA2, 0xC3, 0x29, 0x41,
];

/// A packet with the map: video on PID 0x100, with the clock.
const MAP: [u8; 26] = [
    0x47, 0x40, 0x20, 0x10, 0x00, 0x02, 0xB0, 0x12, 0x00, 0x01, 0xC1, 0x00, 0x00, 0xE1, 0x00, 0xF0,
    0x00, 0x1B, 0xE1, 0x00, 0xF0, 0x00, 0x15, 0xBD, 0x4D, 0x56,
];

/// One with a map of three streams: audio on PID 0x101, private data on PID 0x102, which is not switched, and video on PID 0x100.
const THREE: [u8; 36] = [
    0x47, 0x40, 0x20, 0x10, 0x00, 0x02, 0xB0, 0x1C, 0x00, 0x01, 0xC1, 0x00, 0x00, 0xE1, 0x00, 0xF0,
    0x00, 0x0F, 0xE1, 0x01, 0xF0, 0x00, 0x06, 0xE1, 0x02, 0xF0, 0x00, 0x1B, 0xE1, 0x00, 0xF0, 0x00,
    0x3F, 0xEF, 0x68, 0x72,
];

/// The map as it goes out, with its entry for cues on PID 0x1F0.
const MAP_OUT: [u8; 37] = [
    0x47, 0x40, 0x20, 0x10, 0x00, 0x02, 0xB0, 0x1D, 0x00, 0x01, 0xC1, 0x00, 0x00, 0xE1, 0x00, 0xF0,
    0x06, 0x05, 0x04, 0x43, 0x55, 0x45, 0x49, 0x1B, 0xE1, 0x00, 0xF0, 0x00, 0x86, 0xE1, 0xF0, 0xF0,
    0x00, 0x26, 0xD3, 0xF3, 0x7F,
];

/// The cue of a break of 30 seconds at 1,260,000 ticks.
const START_CUE: [u8; 40] = [
    0xFC, 0x30, 0x25, 0x00, 0x00, 0x00, 0x00, 0x00, 0x00, 0xFF, 0xFF, 0xF0, 0x14, 0x05, 0x00, 0x00,
    0x00, 0x01, 0x7F, 0xEF, 0xFE, 0x00, 0x13, 0x39, 0xE0, 0xFE, 0x00, 0x29, 0x32, 0xE0, 0x00, 0x07,
    0x00, 0x00, 0x00, 0x00, 0x5F, 0xBE, 0xD6, 0x4C,
];

/// The cue of its end at 2,400,000 ticks.
const END_CUE: [u8; 35] = [
    0xFC, 0x30, 0x20, 0x00, 0x00, 0x00, 0x00, 0x00, 0x00, 0xFF, 0xFF, 0xF0, 0x0F, 0x05, 0x00, 0x00,
    0x00, 0x01, 0x7F, 0x4F, 0xFE, 0x00, 0x24, 0x9F, 0x00, 0x00, 0x00, 0x00, 0x00, 0x00, 0x00, 0x2D,
    0xC3, 0x78, 0x26,
];

/// The cue that takes it back.
const CANCEL_CUE: [u8; 25] = [
    0xFC, 0x30, 0x16, 0x00, 0x00, 0x00, 0x00, 0x00, 0x00, 0xFF, 0xFF, 0xF0, 0x05, 0x05, 0x00, 0x00,
    0x00, 0x01, 0xFF, 0x00, 0x00, 0x13, 0x66, 0x1B, 0xFA,
];

/// The packet that begins with these bytes; the others are 0xFF.
fn packet(front: &[u8]) -> Packet {
    packet_of(front, &[])
}

/// The packet with these bytes and this payload.
fn packet_of(head: &[u8], payload: &[u8]) -> Packet {
    let mut bytes = [0xFF; 188];
    let front = head.len().min(188);
    bytes[..front].copy_from_slice(&head[..front]);
    let count = payload.len().min(188 - front);
    bytes[front..front + count].copy_from_slice(&payload[..count]);
    Packet::from_bytes(&bytes).unwrap_or(Packet::null())
}

/// The packet in which a unit of the video begins, with this PTS (ISO/IEC 13818-1, 2.4.3.6).
fn unit(counter: u8, pts: u64) -> Packet {
    packet(&[
        0x47,
        0x41,
        0x00,
        0x10 | (counter & 15),
        0x00,
        0x00,
        0x01,
        0xE0,
        0x00,
        0x00,
        0x80,
        0x80,
        0x05,
        0x21 | ((pts >> 29) & 0x0E) as u8,
        ((pts >> 22) & 0xFF) as u8,
        0x01 | ((pts >> 14) & 0xFE) as u8,
        ((pts >> 7) & 0xFF) as u8,
        0x01 | ((pts << 1) & 0xFE) as u8,
    ])
}

/// An injector that puts cues on PID 0x1F0, and has been given nothing.
fn injector() -> Result<Injector, Fail> {
    let config = Config::new(1, Pid::of_bits(0x01, 0xF0), 1);
    Ok(Injector::new(config.ok().ok_or("a configuration")?))
}

/// One that has put the tables, and a unit at 900,000 ticks, into a list with room for so many packets.
fn begun(alloc: Global, room: usize) -> Result<(Injector, PacketList), Fail> {
    let mut injector = injector()?;
    let mut list = PacketList::new(alloc, room)?;
    for front in [packet(&PAT), packet(&MAP), unit(0, 900_000)] {
        injector.feed(&front, &mut list).ok().ok_or("the head")?;
    }
    Ok((injector, list))
}

/// The result of the reply to these bytes.
fn asked(injector: &mut Injector, bytes: &[u8]) -> Result<u16, Fail> {
    match frame(bytes) {
        Frame::Whole(size) if size == bytes.len() => Ok(injector.ask(read(bytes)).result),
        _ => Err("a whole message")?,
    }
}

/// The packet of this place begins with these bytes.
fn begins(list: &PacketList, place: usize, front: &[u8]) -> bool {
    match list.packets().get(place) {
        Some(packet) => packet.as_bytes().starts_with(front),
        None => false,
    }
}

/// The packet of this place has this cue and this counter.
fn is_cue(list: &PacketList, place: usize, counter: u8, cue: &[u8]) -> bool {
    match list.packets().get(place) {
        Some(packet) => {
            let bytes = packet.as_bytes();
            bytes.starts_with(&[0x47, 0x41, 0xF0, 0x10 | (counter & 15), 0])
                && bytes[5..].starts_with(cue)
        }
        None => false,
    }
}

#[test]
fn map_gets_its_entry(rt: HostRuntime) -> Result<(), Fail> {
    let (_, list) = begun(rt.alloc(), 3)?;
    expect_eq!(rt; list.packets().len(), 3);
    expect_eq!(rt; begins(&list, 0, &PAT), true);
    expect_eq!(rt; begins(&list, 1, &MAP_OUT), true);
    expect_eq!(rt; list.packets().get(2), Some(&unit(0, 900_000)));
    Ok(())
}

/// A second lies between two cues, and none goes out from the start on.
#[test]
fn cue_and_its_repeats(rt: HostRuntime) -> Result<(), Fail> {
    let (mut injector, mut list) = begun(rt.alloc(), 16)?;
    expect_eq!(rt; asked(&mut injector, &START)?, 100);
    let times = [900_000, 989_999, 990_000, 1_260_000, 1_350_000];
    for (count, pts) in times.iter().enumerate() {
        let next = unit(1 + (count & 7) as u8, *pts);
        expect_eq!(rt; injector.feed(&next, &mut list), Ok(()));
    }
    expect_eq!(rt; list.packets().len(), 11);
    for (counter, place) in [(0, 3), (1, 6), (2, 8)] {
        let there = is_cue(&list, place, counter, &START_CUE);
        expect_eq!(rt; (place, there), (place, true));
    }
    for place in [4, 5, 7, 9, 10] {
        let there = begins(&list, place, &[0x47, 0x41, 0x00]);
        expect_eq!(rt; (place, there), (place, true));
    }
    Ok(())
}

/// A start that is taken back before its first cue has the cancel alone; an early end has a cue of its own.
#[test]
fn cancel_and_end(rt: HostRuntime) -> Result<(), Fail> {
    let (mut injector, mut list) = begun(rt.alloc(), 5)?;
    expect_eq!(rt; asked(&mut injector, &START)?, 100);
    expect_eq!(rt; asked(&mut injector, &changed(&[(16, 5)]))?, 100);
    expect_eq!(rt; injector.feed(&unit(1, 900_000), &mut list), Ok(()));
    expect_eq!(rt; is_cue(&list, 3, 0, &CANCEL_CUE), true);
    expect_eq!(rt; list.packets().len(), 5);
    let (mut injector, mut list) = begun(rt.alloc(), 7)?;
    expect_eq!(rt; asked(&mut injector, &START)?, 100);
    expect_eq!(rt; injector.feed(&unit(1, 1_500_000), &mut list), Ok(()));
    let end = changed(&[(16, 3), (23, 0x27), (24, 0x10), (25, 0), (26, 0), (29, 0)]);
    expect_eq!(rt; asked(&mut injector, &end)?, 100);
    expect_eq!(rt; injector.feed(&unit(2, 1_500_000), &mut list), Ok(()));
    expect_eq!(rt; is_cue(&list, 3, 0, &START_CUE), true);
    expect_eq!(rt; is_cue(&list, 5, 1, &END_CUE), true);
    expect_eq!(rt; list.packets().len(), 7);
    Ok(())
}

/// Behind a fault nothing is put, and messages are judged.
#[test]
fn faults_end_the_output(rt: HostRuntime) -> Result<(), Fail> {
    let (mut injector, mut list) = begun(rt.alloc(), 16)?;
    let used = Err(FeedFault::Network(NetworkFault::CuePidUsed));
    let foreign = packet(&[0x47, 0x01, 0xF0, 0x10]);
    expect_eq!(rt; injector.feed(&foreign, &mut list), used);
    expect_eq!(rt;
        injector.feed(&unit(1, 900_000), &mut list),
        Err(FeedFault::Failed)
    );
    expect_eq!(rt; list.packets().len(), 3);
    expect_eq!(rt; asked(&mut injector, &START)?, 100);
    let (mut injector, mut list) = begun(rt.alloc(), 4)?;
    expect_eq!(rt; asked(&mut injector, &START)?, 100);
    let full = Err(FeedFault::Sink(PutFault::Stuck));
    expect_eq!(rt; injector.feed(&unit(1, 900_000), &mut list), full);
    expect_eq!(rt;
        injector.feed(&unit(2, 900_000), &mut list),
        Err(FeedFault::Failed)
    );
    expect_eq!(rt; list.packets().len(), 4);
    expect_eq!(rt; asked(&mut injector, &START)?, 0x800F);
    let counts = injector.counts();
    expect_eq!(rt;
        (counts.messages, counts.accepted, counts.refused),
        (2, 1, 1)
    );
    Ok(())
}

/// The payload of packets with a map that has so many empty descriptors.
fn long_map(alloc: Global, descriptors: u16) -> Result<Vec<u8>, AllocError> {
    let size = descriptors.saturating_mul(2);
    let mut section = Vec::new(alloc);
    section.push(0x02)?;
    section.extend_from_slice(&(0xB000 | size.saturating_add(18)).to_be_bytes())?;
    section.extend_from_slice(&[0x00, 0x01, 0xC1, 0x00, 0x00, 0xE1, 0x00])?;
    section.extend_from_slice(&(0xF000 | size).to_be_bytes())?;
    for _ in 0..descriptors {
        section.extend_from_slice(&[0x80, 0x00])?;
    }
    section.extend_from_slice(&[0x1B, 0xE1, 0x00, 0xF0, 0x00])?;
    let sum = crc(section.as_slice());
    section.extend_from_slice(&sum.to_be_bytes())?;
    let mut payload = Vec::new(alloc);
    payload.push(0)?;
    payload.extend_from_slice(section.as_slice())?;
    Ok(payload)
}

/// What is answered to the last packet of such a map behind a PAT, and how many packets are out then.
fn fed_map(alloc: Global, descriptors: u16) -> Result<(Result<(), FeedFault>, usize), Fail> {
    let mut injector = injector()?;
    let mut list = PacketList::new(alloc, 16)?;
    let mut answer = injector.feed(&packet(&PAT), &mut list);
    let payload = long_map(alloc, descriptors)?;
    for (count, part) in payload.as_slice().chunks(184).enumerate() {
        let start = if count == 0 { 0x40 } else { 0x00 };
        let head = [0x47, start, 0x20, 0x10 | (count & 15) as u8];
        answer = injector.feed(&packet_of(&head, part), &mut list);
    }
    Ok((answer, list.packets().len()))
}

/// With its entry a map's section has section_length 1,021 at most.
#[test]
fn map_without_room(rt: HostRuntime) -> Result<(), Fail> {
    expect_eq!(rt; fed_map(rt.alloc(), 496)?, (Ok(()), 7));
    let long = Err(FeedFault::Network(NetworkFault::PmtTooLong));
    expect_eq!(rt; fed_map(rt.alloc(), 497)?, (long, 1));
    Ok(())
}

/// The PIDs that are known are these, and as many as it says.
fn knows(injector: &Injector, pids: &[Pid]) -> bool {
    injector.pids().as_slice() == pids && injector.pid_count() == pids.len()
}

/// It owns a packet with these two bytes behind the first.
fn owns(injector: &Injector, high: u8, low: u8) -> bool {
    injector.owns(&packet(&[0x47, high, low, 0x10]))
}

/// Whether it owns packets on the PIDs of the PAT, the map, the audio, the data and the video.
fn owned(injector: &Injector) -> [bool; 5] {
    [
        owns(injector, 0x00, 0x00),
        owns(injector, 0x00, 0x20),
        owns(injector, 0x01, 0x01),
        owns(injector, 0x01, 0x02),
        owns(injector, 0x01, 0x00),
    ]
}

/// Before the PAT none is known, behind it that of the map, and behind the map those of the switched streams too, in its order. A packet that
/// is marked in error is on none.
#[test]
fn pids_become_known(rt: HostRuntime) -> Result<(), Fail> {
    let mut injector = injector()?;
    let mut list = PacketList::new(rt.alloc(), 2)?;
    let pids = [
        Pid::of_bits(0x00, 0x20),
        Pid::of_bits(0x01, 0x01),
        Pid::of_bits(0x01, 0x00),
    ];
    expect_eq!(rt; knows(&injector, &[]), true);
    expect_eq!(rt; owned(&injector), [false, false, false, false, false]);
    expect_eq!(rt; injector.feed(&packet(&PAT), &mut list), Ok(()));
    expect_eq!(rt; knows(&injector, &pids[..1]), true);
    expect_eq!(rt; owned(&injector), [false, true, false, false, false]);
    expect_eq!(rt; injector.feed(&packet(&THREE), &mut list), Ok(()));
    expect_eq!(rt; knows(&injector, &pids), true);
    expect_eq!(rt; owned(&injector), [false, true, true, false, true]);
    expect_eq!(rt; owns(&injector, 0x80 | 0x01, 0x00), false);
    Ok(())
}
