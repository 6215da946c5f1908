//! Streams made by hand, as the standard spells them.

use ad_library::*;
use linked_list_allocator::LocalHeap;
use psi_section::crc;
use psi_tables::Stream;
use std::alloc::{AllocError, Allocator, Global};
use std::io::{self, Cursor, ErrorKind, Read};
use std::test::*;
use ts_packet::{Device, PacketReader, Pid, ReadFault};

/// Puts a packet with this payload of at most 184 bytes, behind an adaptation field that fills it.
fn put_packet(
    out: &mut Vec<u8>,
    pid: u16,
    counter: u8,
    start: bool,
    payload: &[u8],
) -> Result<(), AllocError> {
    let first = (pid / 256 % 32) as u8 + if start { 0x40 } else { 0 };
    out.extend_from_slice(&[0x47, first, (pid % 256) as u8])?;
    if payload.len() >= 184 {
        out.push(0x10 + counter % 16)?;
        return out.extend_from_slice(&payload[..184]);
    }
    out.push(0x30 + counter % 16)?;
    let size = 183 - payload.len();
    out.push(size as u8)?;
    for place in 0..size {
        out.push(if place == 0 { 0 } else { 0xFF })?;
    }
    out.extend_from_slice(payload)
}

/// Puts a packet with this section, behind which its CRC_32 is put.
fn put_section(
    out: &mut Vec<u8>,
    alloc: Global,
    pid: u16,
    counter: u8,
    section: &[u8],
) -> Result<(), AllocError> {
    let mut payload = Vec::from_slice(alloc, &[0])?;
    payload.extend_from_slice(section)?;
    payload.extend_from_slice(&crc(section).to_be_bytes())?;
    for _ in payload.len()..184 {
        payload.push(0xFF)?;
    }
    put_packet(out, pid, counter, true, payload.as_slice())
}

/// Puts a PAT that lists program 1 with its map on PID 0x0020.
fn put_pat(out: &mut Vec<u8>, alloc: Global, counter: u8) -> Result<(), AllocError> {
    put_section(
        out,
        alloc,
        0,
        counter,
        &[0, 0xB0, 0x0D, 0, 1, 0xC1, 0, 0, 0, 1, 0xE0, 0x20],
    )
}

/// Puts the map of program 1 with a video stream of type 0x1B on PID 0x0100 and an audio stream of type 0x0F on PID 0x0101.
fn put_map(out: &mut Vec<u8>, alloc: Global, counter: u8) -> Result<(), AllocError> {
    put_section(
        out,
        alloc,
        0x20,
        counter,
        &[
            2, 0xB0, 0x17, 0, 1, 0xC1, 0, 0, 0xE1, 0, 0xF0, 0, 0x1B, 0xE1, 0, 0xF0, 0, 0x0F, 0xE1,
            1, 0xF0, 0,
        ],
    )
}

/// The front of a unit with this PTS.
fn timed(pts: u64) -> [u8; 16] {
    [
        0,
        0,
        1,
        0xE0,
        0,
        0,
        0x80,
        0x80,
        5,
        0x21 + (pts >> 30 & 7) as u8 * 2,
        (pts >> 22 & 0xFF) as u8,
        1 + (pts >> 15 & 0x7F) as u8 * 2,
        (pts >> 7 & 0xFF) as u8,
        1 + (pts & 0x7F) as u8 * 2,
        0xA5,
        0x5A,
    ]
}

/// The front of a unit without a PTS.
const UNTIMED: [u8; 11] = [0, 0, 1, 0xE0, 0, 0, 0x80, 0, 0, 0xC3, 0x3C];

/// PAT and map.
fn head(alloc: Global) -> Result<Vec<u8>, AllocError> {
    let mut out = Vec::new(alloc);
    put_pat(&mut out, alloc, 0)?;
    put_map(&mut out, alloc, 0)?;
    Ok(out)
}

/// An advertisement of so many video units of two packets, 3,000 ticks apart, from this time on.
fn video(alloc: Global, first: u32, count: u16) -> Result<Vec<u8>, AllocError> {
    let mut out = head(alloc)?;
    for unit in 0..count {
        let pts = u64::from(first) + 3000 * u64::from(unit);
        let counter = (unit % 8 * 2) as u8;
        put_packet(&mut out, 0x100, counter, true, &timed(pts))?;
        put_packet(&mut out, 0x100, counter + 1, false, &[7; 184])?;
    }
    Ok(out)
}

/// Adds the advertisement of these bytes.
fn add<A: Allocator + Copy>(
    library: &mut AdLibrary<A>,
    id: u16,
    bytes: &[u8],
) -> Result<(), AdFault> {
    let mut device = Device::new(Cursor::new(bytes));
    let mut reader = PacketReader::new(&mut device);
    library.add(id, &mut reader)
}

/// What a new library answers to these bytes.
fn fault_of(alloc: Global, bytes: &[u8]) -> Result<(), AdFault> {
    let mut library = AdLibrary::new(alloc);
    add(&mut library, 7, bytes)
}

/// How many units a slice gives, and the greatest offset of them.
fn told(slice: Option<Slice<'_>>) -> (u64, u64) {
    let Some(mut slice) = slice else {
        return (u64::MAX, 0);
    };
    let mut greatest = 0;
    for count in 0..u64::MAX {
        let Some(unit) = slice.next() else {
            return (count, greatest);
        };
        if greatest < unit.offset {
            greatest = unit.offset;
        }
    }
    (u64::MAX, greatest)
}

/// The offset and the size of the unit of a slice behind so many, and the zero of the slice.
fn unit_of(slice: Option<Slice<'_>>, count: usize) -> (u64, usize, u64) {
    let Some(mut slice) = slice else {
        return (u64::MAX, 0, 0);
    };
    slice.skip(count);
    match slice.next() {
        None => (u64::MAX, 1, 0),
        Some(unit) => (unit.offset, unit.bytes.len(), slice.zero().ticks()),
    }
}

#[test]
fn files_units(rt: HostRuntime) -> Result<(), Fail> {
    let bytes = video(rt.alloc(), 90_000, 900)?;
    let mut library = AdLibrary::new(rt.alloc());
    expect_eq!(rt; add(&mut library, 7, bytes.as_slice()), Ok(()));
    expect_eq!(rt;
        add(&mut library, 7, bytes.as_slice()),
        Err(AdFault::Exists)
    );
    expect_eq!(rt;
        told(library.slice(7, 0x1B, 0, 2_700_000)),
        (900, 2_697_000)
    );
    expect_eq!(rt; told(library.slice(7, 0x1B, 0, 3_000)), (1, 0));
    expect_eq!(rt; told(library.slice(7, 0x1B, 0, 1)), (1, 0));
    expect_eq!(rt; told(library.slice(7, 0x1B, 0, 0)), (0, 0));
    expect_eq!(rt; told(library.slice(7, 0x1B, 1, 3_000)), (u64::MAX, 0));
    expect_eq!(rt; told(library.slice(8, 0x1B, 0, 3_000)), (u64::MAX, 0));
    expect_eq!(rt; told(library.slice(7, 0x0F, 0, 3_000)), (0, 0));
    expect_eq!(rt;
        unit_of(library.slice(7, 0x1B, 0, 9_001), 2),
        (6_000, 200, 90_000)
    );
    expect_eq!(rt;
        unit_of(library.slice(7, 0x1B, 0, 9_001), 4),
        (u64::MAX, 1, 0)
    );
    Ok(())
}

/// A video stream.
fn stream(pid: Pid) -> Stream {
    Stream { kind: 0x1B, pid }
}

#[test]
fn fits_to_the_tick(rt: HostRuntime) -> Result<(), Fail> {
    let pid = Pid::of_bits(3, 0);
    for (last, fits) in [(2_654_999, false), (2_655_000, true)] {
        let mut bytes = head(rt.alloc())?;
        put_packet(&mut bytes, 0x100, 0, true, &timed(90_000))?;
        put_packet(&mut bytes, 0x100, 1, true, &timed(900_000))?;
        put_packet(&mut bytes, 0x100, 2, true, &timed(1_800_000))?;
        put_packet(&mut bytes, 0x100, 3, true, &timed(2_700_000))?;
        put_packet(&mut bytes, 0x100, 4, true, &timed(90_000 + last))?;
        let mut library = AdLibrary::new(rt.alloc());
        expect_eq!(rt; add(&mut library, 7, bytes.as_slice()), Ok(()));
        expect_eq!(rt; library.fits(7, &[stream(pid)], 2_700_000), fits);
        expect_eq!(rt; library.fits(7, &[], 2_700_000), true);
        expect_eq!(rt; library.fits(7, &[stream(pid), stream(pid)], 1), false);
        expect_eq!(rt; library.fits(8, &[], 1), false);
    }
    Ok(())
}

#[test]
fn faults_of_the_stream(rt: HostRuntime) -> Result<(), Fail> {
    let alloc = rt.alloc();
    expect_eq!(rt; fault_of(alloc, &[]), Err(AdFault::NoProgram));
    let mut bytes = head(alloc)?;
    expect_eq!(rt; fault_of(alloc, bytes.as_slice()), Err(AdFault::NoTime));
    put_packet(&mut bytes, 0x100, 0, true, &UNTIMED)?;
    expect_eq!(rt; fault_of(alloc, bytes.as_slice()), Err(AdFault::NoTime));
    put_packet(&mut bytes, 0x100, 1, true, &timed(0))?;
    expect_eq!(rt; fault_of(alloc, bytes.as_slice()), Ok(()));
    put_packet(&mut bytes, 0x102, 9, true, &[7])?;
    put_packet(&mut bytes, 0x102, 5, true, &[7])?;
    expect_eq!(rt; fault_of(alloc, bytes.as_slice()), Ok(()));
    put_packet(&mut bytes, 0x100, 3, true, &timed(3000))?;
    expect_eq!(rt; fault_of(alloc, bytes.as_slice()), Err(AdFault::Loss));
    Ok(())
}

#[test]
fn faults_of_packets(rt: HostRuntime) -> Result<(), Fail> {
    let alloc = rt.alloc();
    let mut bytes = head(alloc)?;
    bytes.push(0x47)?;
    expect_eq!(rt;
        fault_of(alloc, bytes.as_slice()),
        Err(AdFault::Packets(ReadFault::Truncated))
    );
    let mut bytes = head(alloc)?;
    bytes.extend_from_slice(&[0; 188])?;
    expect_eq!(rt;
        fault_of(alloc, bytes.as_slice()),
        Err(AdFault::Packets(ReadFault::SyncLost))
    );
    let mut bytes = head(alloc)?;
    bytes.extend_from_slice(&[0x47, 0x01, 0x00, 0x90])?;
    bytes.extend_from_slice(&[7; 184])?;
    expect_eq!(rt; fault_of(alloc, bytes.as_slice()), Err(AdFault::Scrambled));
    let mut bytes = head(alloc)?;
    put_packet(
        &mut bytes,
        0x100,
        0,
        true,
        &[0, 0, 1, 0xE0, 0, 0, 0x80, 0x80, 5, 0x21],
    )?;
    expect_eq!(rt;
        fault_of(alloc, bytes.as_slice()),
        Err(AdFault::HeaderSplit)
    );
    let mut bytes = head(alloc)?;
    put_packet(&mut bytes, 0x100, 0, true, &timed(0))?;
    put_packet(&mut bytes, 0x101, 0, true, &timed(900_001))?;
    expect_eq!(rt; fault_of(alloc, bytes.as_slice()), Err(AdFault::TimeJump));
    Ok(())
}

#[test]
fn out_of_order_and_round_the_clock(rt: HostRuntime) -> Result<(), Fail> {
    let mut bytes = head(rt.alloc())?;
    let turn: u64 = 1 << 33;
    put_packet(&mut bytes, 0x101, 0, true, &UNTIMED)?;
    put_packet(&mut bytes, 0x100, 0, true, &timed(0))?;
    put_packet(&mut bytes, 0x101, 1, true, &timed(6_000))?;
    put_packet(&mut bytes, 0x100, 1, true, &timed(turn - 3_000))?;
    put_packet(&mut bytes, 0x101, 2, false, &[9; 184])?;
    put_packet(&mut bytes, 0x100, 2, true, &UNTIMED)?;
    put_packet(&mut bytes, 0x100, 3, true, &timed(3_000))?;
    let mut library = AdLibrary::new(rt.alloc());
    expect_eq!(rt; add(&mut library, 1, bytes.as_slice()), Ok(()));
    expect_eq!(rt;
        unit_of(library.slice(1, 0x1B, 0, 3_000), 0),
        (0, 16, turn - 3_000)
    );
    expect_eq!(rt;
        unit_of(library.slice(1, 0x1B, 0, 3_000), 1),
        (0, 11, turn - 3_000)
    );
    expect_eq!(rt;
        unit_of(library.slice(1, 0x1B, 0, 3_000), 2),
        (u64::MAX, 1, 0)
    );
    expect_eq!(rt;
        unit_of(library.slice(1, 0x0F, 0, 10_000), 0),
        (9_000, 200, turn - 3_000)
    );
    Ok(())
}

#[test]
fn files_64(rt: HostRuntime) -> Result<(), Fail> {
    let mut bytes = head(rt.alloc())?;
    put_packet(&mut bytes, 0x100, 0, true, &timed(0))?;
    let mut library = AdLibrary::new(rt.alloc());
    for id in 0..64 {
        expect_eq!(rt; add(&mut library, id, bytes.as_slice()), Ok(()));
    }
    expect_eq!(rt; add(&mut library, 64, bytes.as_slice()), Err(AdFault::Many));
    expect_eq!(rt; add(&mut library, 64, &[]), Err(AdFault::Many));
    expect_eq!(rt;
        add(&mut library, 63, bytes.as_slice()),
        Err(AdFault::Exists)
    );
    expect_eq!(rt; told(library.slice(63, 0x1B, 0, 1)), (1, 0));
    expect_eq!(rt; told(library.slice(64, 0x1B, 0, 1)), (u64::MAX, 0));
    Ok(())
}

/// Gives its bytes, and then fails, or is interrupted for ever.
#[derive(Drop)]
struct Ending<'a> {
    bytes: &'a [u8],
    kind: ErrorKind,
}

impl Read for Ending<'_> {
    fn read(&mut self, buf: &mut [u8]) -> io::Result<usize> {
        let count = buf.len().min(self.bytes.len());
        if count == 0 {
            return Err(io::Error::from(self.kind));
        }
        let (front, rest) = self.bytes.split_at(count);
        buf[..count].copy_from_slice(front);
        self.bytes = rest;
        Ok(count)
    }
}

#[test]
fn faults_of_the_device(rt: HostRuntime) -> Result<(), Fail> {
    let bytes = video(rt.alloc(), 0, 3)?;
    for (kind, fault) in [
        (ErrorKind::ConnectionReset, AdFault::Io),
        (ErrorKind::Interrupted, AdFault::Packets(ReadFault::Turns)),
    ] {
        for size in [0, 188, 500, bytes.len()] {
            let mut library = AdLibrary::new(rt.alloc());
            let mut device = Device::new(Ending {
                bytes: &bytes.as_slice()[..size.min(bytes.len())],
                kind,
            });
            let mut reader = PacketReader::new(&mut device);
            expect_eq!(rt; library.add(7, &mut reader), Err(fault));
            expect_eq!(rt; library.fits(7, &[], 1), false);
        }
    }
    Ok(())
}

#[test]
fn faults_of_the_program(rt: HostRuntime) -> Result<(), Fail> {
    let alloc = rt.alloc();
    let mut bytes = Vec::new(alloc);
    let pat = [0, 0xB0, 0x0D, 0, 1, 0xC1, 0, 1, 0, 1, 0xE0, 0x20];
    put_section(&mut bytes, alloc, 0, 0, &pat)?;
    expect_eq!(rt; fault_of(alloc, bytes.as_slice()), Err(AdFault::Sections));
    let mut bytes = Vec::new(alloc);
    let pat = [0, 0xB0, 0x0D, 0, 1, 0xC1, 0, 0, 0, 1, 0xFF, 0xFF];
    put_section(&mut bytes, alloc, 0, 0, &pat)?;
    expect_eq!(rt; fault_of(alloc, bytes.as_slice()), Err(AdFault::BadPids));
    let mut bytes = head(alloc)?;
    let pat = [0, 0xB0, 0x0D, 0, 1, 0xC3, 0, 0, 0, 1, 0xE0, 0x21];
    put_section(&mut bytes, alloc, 0, 1, &pat)?;
    expect_eq!(rt;
        fault_of(alloc, bytes.as_slice()),
        Err(AdFault::ProgramChanged)
    );
    for (count, fault) in [(8, AdFault::NoTime), (9, AdFault::TooManyStreams)] {
        let mut bytes = Vec::new(alloc);
        put_pat(&mut bytes, alloc, 0)?;
        let size = 13 + 5 * count;
        let mut map = Vec::from_slice(alloc, &[2, 0xB0, size, 0, 1, 0xC1, 0, 0, 0xE1, 0, 0xF0, 0])?;
        for pid in 0..count {
            map.extend_from_slice(&[0x1B, 0xE1, pid, 0xF0, 0])?;
        }
        put_section(&mut bytes, alloc, 0x20, 0, map.as_slice())?;
        expect_eq!(rt; fault_of(alloc, bytes.as_slice()), Err(fault));
    }
    Ok(())
}

#[test]
fn bad_adaptation(rt: HostRuntime) -> Result<(), Fail> {
    let mut bytes = head(rt.alloc())?;
    bytes.extend_from_slice(&[0x47, 0x01, 0x00, 0x30, 184])?;
    bytes.extend_from_slice(&[0; 183])?;
    expect_eq!(rt;
        fault_of(rt.alloc(), bytes.as_slice()),
        Err(AdFault::Packets(ReadFault::BadAdaptation))
    );
    Ok(())
}

#[test]
fn nothing_is_missed_in_the_head(rt: HostRuntime) -> Result<(), Fail> {
    let alloc = rt.alloc();
    for (counter, answer) in [(10, Ok(())), (11, Err(AdFault::Loss))] {
        let mut bytes = Vec::new(alloc);
        put_packet(&mut bytes, 0x100, 5, true, &timed(0))?;
        put_pat(&mut bytes, alloc, 0)?;
        put_packet(&mut bytes, 0x100, 8, true, &timed(0))?;
        put_map(&mut bytes, alloc, 0)?;
        put_packet(&mut bytes, 0x100, 9, true, &timed(0))?;
        put_packet(&mut bytes, 0x100, counter, true, &timed(3_000))?;
        expect_eq!(rt; fault_of(alloc, bytes.as_slice()), answer);
    }
    Ok(())
}

#[test]
fn the_first_of_two_programs(rt: HostRuntime) -> Result<(), Fail> {
    let alloc = rt.alloc();
    let mut bytes = Vec::new(alloc);
    let pat = [
        0, 0xB0, 0x11, 0, 1, 0xC1, 0, 0, 0, 1, 0xE0, 0x20, 0, 2, 0xE0, 0x30,
    ];
    put_section(&mut bytes, alloc, 0, 0, &pat)?;
    let map = [
        2, 0xB0, 0x12, 0, 2, 0xC1, 0, 0, 0xE2, 0, 0xF0, 0, 0x02, 0xE2, 0, 0xF0, 0,
    ];
    put_section(&mut bytes, alloc, 0x30, 0, &map)?;
    put_map(&mut bytes, alloc, 0)?;
    put_packet(&mut bytes, 0x200, 0, true, &timed(0))?;
    put_packet(&mut bytes, 0x100, 0, true, &timed(90_000))?;
    put_packet(&mut bytes, 0x200, 7, true, &timed(5_000_000))?;
    let mut library = AdLibrary::new(alloc);
    expect_eq!(rt; add(&mut library, 1, bytes.as_slice()), Ok(()));
    expect_eq!(rt; unit_of(library.slice(1, 0x1B, 0, 1), 0), (0, 16, 90_000));
    expect_eq!(rt; told(library.slice(1, 0x1B, 0, 9_000_000)), (1, 0));
    expect_eq!(rt; told(library.slice(1, 0x02, 0, 9_000_000)), (u64::MAX, 0));
    Ok(())
}

/// Gives its bytes, and then the same packet so many times.
#[derive(Drop)]
struct Repeating<'a> {
    rest: &'a [u8],
    packet: &'a [u8],
    times: u32,
}

impl Read for Repeating<'_> {
    fn read(&mut self, buf: &mut [u8]) -> io::Result<usize> {
        if self.rest.is_empty() && self.times > 0 {
            self.times -= 1;
            self.rest = self.packet;
        }
        let count = buf.len().min(self.rest.len());
        let (front, rest) = self.rest.split_at(count);
        buf[..count].copy_from_slice(front);
        self.rest = rest;
        Ok(count)
    }
}

#[test]
fn no_longer_than_64_mib(rt: HostRuntime) -> Result<(), Fail> {
    let bytes = video(rt.alloc(), 0, 1)?;
    let mut other = Vec::new(rt.alloc());
    put_packet(&mut other, 0x102, 0, false, &[7; 184])?;
    for (times, answer) in [
        (356_958, Ok(())),
        (356_959, Err(AdFault::Large)),
        (400_000, Err(AdFault::Large)),
    ] {
        let mut library = AdLibrary::new(rt.alloc());
        let mut device = Device::new(Repeating {
            rest: bytes.as_slice(),
            packet: other.as_slice(),
            times,
        });
        let mut reader = PacketReader::new(&mut device);
        expect_eq!(rt; library.add(7, &mut reader), answer);
        expect_eq!(rt; library.fits(7, &[], 1), answer.is_ok());
    }
    Ok(())
}

#[test]
fn offsets_past_a_turn_of_the_clock(rt: HostRuntime) -> Result<(), Fail> {
    let mut bytes = head(rt.alloc())?;
    for unit in 0..9_546 {
        put_packet(
            &mut bytes,
            0x100,
            (unit % 16) as u8,
            true,
            &timed(900_000 * unit),
        )?;
    }
    let mut library = AdLibrary::new(rt.alloc());
    expect_eq!(rt; add(&mut library, 7, bytes.as_slice()), Ok(()));
    for (length, count, greatest) in [
        (1 << 33, 9_545, 8_589_600_000),
        (8_590_500_000, 9_545, 8_589_600_000),
        (8_590_500_001, 9_546, 8_590_500_000),
    ] {
        expect_eq!(rt; told(library.slice(7, 0x1B, 0, length)), (count, greatest));
    }
    for (length, fits) in [(8_590_545_000, true), (8_590_545_001, false)] {
        expect_eq!(rt;
            library.fits(7, &[stream(Pid::of_bits(3, 0))], length),
            fits
        );
    }
    Ok(())
}

/// How many units the slice of 9 seconds of each of two advertisements gives.
fn counts(library: &AdLibrary<&LocalHeap>) -> (u64, u64) {
    let (first, _) = told(library.slice(1, 0x1B, 0, 810_000));
    let (second, _) = told(library.slice(2, 0x1B, 0, 810_000));
    (first, second)
}

/// How many units are there where an advertisement of nine was taken, and `u64::MAX` where memory was refused.
fn count_of(answer: Result<(), AdFault>) -> u64 {
    match answer {
        Ok(()) => 9,
        Err(AdFault::OutOfMemory) => u64::MAX,
        Err(_) => 0,
    }
}

#[test]
fn each_request_refused(rt: HostRuntime) -> Result<(), Fail> {
    let bytes = video(rt.alloc(), 0, 9)?;
    let bytes = bytes.as_slice();
    let heap = LocalHeap::new(rt.alloc(), 40_000)?;
    let mut one_refused: u32 = 0;
    for step in 1..=1_000 {
        let taken: Vec<u8, &LocalHeap> = Vec::with_capacity(&heap, 40_000 - 16 * step)?;
        let mut library = AdLibrary::new_in(&heap);
        let answers = (add(&mut library, 1, bytes), add(&mut library, 2, bytes));
        expect_eq!(rt;
            counts(&library),
            (count_of(answers.0), count_of(answers.1))
        );
        if answers.0.is_ok() && answers.1.is_err() {
            one_refused = one_refused.saturating_add(1);
        }
        if step == 1 || step == 1_000 {
            expect_eq!(rt; answers.0.is_err(), step == 1);
            expect_eq!(rt; answers.1.is_err(), step == 1);
        }
        drop(taken);
        if answers.0.is_err() {
            expect_eq!(rt; add(&mut library, 1, bytes), Ok(()));
        }
        if answers.1.is_err() {
            expect_eq!(rt; add(&mut library, 2, bytes), Ok(()));
        }
        expect_eq!(rt; counts(&library), (9, 9));
        drop(library);
        expect_eq!(rt; heap.used(), 0);
    }
    assert!(rt; one_refused > 100);
    Ok(())
}
