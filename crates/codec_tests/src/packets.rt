//! What no clause says: literal packets, and devices that misbehave in mid-stream.

use crate::literal::packet_bytes;
use std::alloc::{AllocError, Global};
use std::io::{self, BufReader};
use std::test::Fail;
use ts_packet::pcr_only::pcr_only;
use ts_packet::*;

/// What a device does at its odd call.
#[derive(Clone, Copy, Debug, PartialEq, Eq, Drop)]
enum Oddity {
    Fails,
    TakesNothing,
    Interrupts,
    AlwaysInterrupts,
}

/// A reader and writer that moves at most `step` bytes a call, and does something odd at one call.
#[derive(Drop)]
struct Odd<'a> {
    input: &'a [u8],
    output: Vec<u8>,
    step: usize,
    calls: usize,
    odd_call: usize,
    oddity: Oddity,
}

impl<'a> Odd<'a> {
    fn new(
        alloc: Global,
        input: &'a [u8],
        step: usize,
        odd_call: usize,
        oddity: Oddity,
    ) -> Odd<'a> {
        Odd {
            input,
            output: Vec::new(alloc),
            step,
            calls: 0,
            odd_call,
            oddity,
        }
    }

    /// How many bytes this call may move.
    fn turn(&mut self) -> io::Result<usize> {
        let call = self.calls;
        self.calls = self.calls.saturating_add(1);
        if self.oddity == Oddity::AlwaysInterrupts {
            return Err(io::Error::from(io::ErrorKind::Interrupted));
        }
        if call != self.odd_call {
            return Ok(self.step);
        }
        match self.oddity {
            Oddity::Fails => Err(io::Error::from(io::ErrorKind::ConnectionReset)),
            Oddity::TakesNothing => Ok(0),
            _ => Err(io::Error::from(io::ErrorKind::Interrupted)),
        }
    }
}

impl io::Read for Odd<'_> {
    fn read(&mut self, buf: &mut [u8]) -> io::Result<usize> {
        let n = self.turn()?.min(buf.len()).min(self.input.len());
        let (front, rest) = self.input.split_at(n);
        buf[..n].copy_from_slice(front);
        self.input = rest;
        Ok(n)
    }
}

impl io::Write for Odd<'_> {
    fn write(&mut self, buf: &[u8]) -> io::Result<usize> {
        let n = self.turn()?.min(buf.len());
        if self.output.extend_from_slice(&buf[..n]).is_err() {
            return Err(io::Error::from(io::ErrorKind::OutOfMemory));
        }
        Ok(n)
    }

    fn flush(&mut self) -> io::Result<()> {
        Ok(())
    }
}

fn packet(control: u8, counter: u8, fifth: u8) -> Result<Packet, PacketFault> {
    Packet::from_bytes(&packet_bytes(control, counter, fifth))
}

/// The bytes of two payload packets.
fn two(alloc: Global) -> Result<Vec<u8>, AllocError> {
    let mut all = Vec::new(alloc);
    all.extend_from_slice(&packet_bytes(1, 7, 1))?;
    all.extend_from_slice(&packet_bytes(1, 8, 2))?;
    Ok(all)
}

#[test]
fn judges_packets(rt: HostRuntime) {
    for (control, length, fault) in [
        (2, 183, None),
        (2, 182, None),
        (2, 184, Some(PacketFault::BadAdaptation)),
        (3, 182, None),
        (3, 183, Some(PacketFault::BadAdaptation)),
        (1, 255, None),
        (0, 255, None),
    ] {
        expect_eq!(rt; packet(control, 0, length).err(), fault);
    }
}

#[test]
fn lends_payloads(rt: HostRuntime) -> Result<(), Fail> {
    expect_eq!(rt; packet(2, 0, 182)?.payload(), None);
    expect_eq!(rt; packet(0, 0, 0)?.payload(), None);
    let last = packet(3, 0, 182)?;
    expect_eq!(rt; last.payload(), Some([0xA5].as_slice()));
    let null = Packet::null();
    expect_eq!(rt; null.pid().get(), 0x1FFF);
    expect_eq!(rt; null.payload(), Some([0xFF; 184].as_slice()));
    Ok(())
}

#[test]
fn judges_marked_packets(rt: HostRuntime) -> Result<(), Fail> {
    let mut marked = packet_bytes(3, 0, 255);
    marked[1] = 0x81;
    assert!(rt; Packet::from_bytes(&marked)?.error());
    marked[0] = 0x46;
    expect_eq!(rt; Packet::from_bytes(&marked).err(), Some(PacketFault::SyncLost));
    Ok(())
}

/// What a reader over the device answers to four calls.
fn four_answers<S: Source>(device: &mut S) -> [Result<bool, ReadFault>; 4] {
    let mut reader = PacketReader::new(device);
    let mut slot = Packet::null();
    [
        reader.read_into(&mut slot),
        reader.read_into(&mut slot),
        reader.read_into(&mut slot),
        reader.read_into(&mut slot),
    ]
}

/// What it has to answer over two packets, in reads of 60, 60, 60 and 8 bytes each, where one read meets a fault.
fn faulted(odd_call: usize, fault: ReadFault) -> [Result<bool, ReadFault>; 4] {
    failing_behind(odd_call / 4, fault)
}

/// The answers of a reader that reads so many packets and then meets a fault.
fn failing_behind(packets: usize, fault: ReadFault) -> [Result<bool, ReadFault>; 4] {
    let failed = Err(ReadFault::Failed);
    match packets {
        0 => [Err(fault), failed, failed, failed],
        1 => [Ok(true), Err(fault), failed, failed],
        _ => [Ok(true), Ok(true), Err(fault), failed],
    }
}

/// The answers over two packets, and then the end.
const BOTH: [Result<bool, ReadFault>; 4] = [Ok(true), Ok(true), Ok(false), Ok(false)];

#[test]
fn reads_past_no_fault(rt: HostRuntime) -> Result<(), Fail> {
    let all = two(rt.alloc())?;
    for odd_call in 0..9 {
        let mut device = Device::new(Odd::new(rt.alloc(), &all, 60, odd_call, Oddity::Fails));
        expect_eq!(rt; four_answers(&mut device), faulted(odd_call, ReadFault::Io));
        // A broken reader leaves its device alone.
        expect_eq!(rt; device.into_inner().calls, odd_call + 1);
        let mut device = Device::new(Odd::new(rt.alloc(), &all, 60, odd_call, Oddity::Interrupts));
        expect_eq!(rt; four_answers(&mut device), BOTH);
    }
    Ok(())
}

#[test]
fn ends_where_the_source_ends(rt: HostRuntime) -> Result<(), Fail> {
    let all = two(rt.alloc())?;
    for odd_call in 0..9 {
        let mut device = Device::new(Odd::new(
            rt.alloc(),
            &all,
            60,
            odd_call,
            Oddity::TakesNothing,
        ));
        let expected = match odd_call {
            0 => [Ok(false), Ok(true), Ok(true), Ok(false)],
            4 => [Ok(true), Ok(false), Ok(true), Ok(false)],
            8 => BOTH,
            _ => faulted(odd_call, ReadFault::Truncated),
        };
        expect_eq!(rt; four_answers(&mut device), expected);
    }
    Ok(())
}

/// What a reader over the device gives at three calls.
fn three_packets<S: Source>(device: &mut S) -> [Result<Option<Packet>, ReadFault>; 3] {
    let mut reader = PacketReader::new(device);
    [reader.next(), reader.next(), reader.next()]
}

#[test]
fn reads_through_a_buffer(rt: HostRuntime) -> Result<(), Fail> {
    let all = two(rt.alloc())?;
    let expected = [
        Ok(Some(packet(1, 7, 1)?)),
        Ok(Some(packet(1, 8, 2)?)),
        Ok(None),
    ];
    for (capacity, step) in [(1, 60), (188, 60), (250, 400), (376, 400), (400, 1)] {
        let odd = Odd::new(rt.alloc(), &all, step, 10_000, Oddity::Fails);
        let mut device = Buffered::new(BufReader::with_capacity(rt.alloc(), capacity, odd)?);
        expect_eq!(rt; three_packets(&mut device), expected);
    }
    Ok(())
}

#[test]
fn fails_through_a_buffer(rt: HostRuntime) -> Result<(), Fail> {
    let all = two(rt.alloc())?;
    for odd_call in 0..2 {
        let odd = Odd::new(rt.alloc(), &all, 200, odd_call, Oddity::Fails);
        let mut device = Buffered::new(BufReader::with_capacity(rt.alloc(), 400, odd)?);
        expect_eq!(rt; four_answers(&mut device), failing_behind(odd_call, ReadFault::Io));
    }
    Ok(())
}

#[test]
fn gives_up_on_interruptions(rt: HostRuntime) -> Result<(), Fail> {
    let all = two(rt.alloc())?;
    let mut device = Device::new(Odd::new(rt.alloc(), &all, 60, 0, Oddity::AlwaysInterrupts));
    let mut reader = PacketReader::new(&mut device);
    expect_eq!(rt; reader.next(), Err(ReadFault::Turns));
    expect_eq!(rt; reader.next(), Err(ReadFault::Failed));
    let mut writer = PacketWriter::new(&mut device);
    expect_eq!(rt; writer.put(&Packet::null()), Err(PutFault::Turns));
    expect_eq!(rt; writer.put(&Packet::null()), Err(PutFault::Failed));
    expect_eq!(rt; device.into_inner().calls, 0x20_0000);
    Ok(())
}

#[test]
fn writes_a_prefix(rt: HostRuntime) -> Result<(), Fail> {
    let (first, second) = (packet(1, 7, 1)?, packet(1, 8, 2)?);
    let all = two(rt.alloc())?;
    for odd_call in 0..9 {
        for (oddity, fault) in [
            (Oddity::Fails, PutFault::Io),
            (Oddity::TakesNothing, PutFault::Stuck),
        ] {
            let mut device = Device::new(Odd::new(rt.alloc(), &[], 60, odd_call, oddity));
            let mut writer = PacketWriter::new(&mut device);
            let answers = [writer.put(&first), writer.put(&second), writer.put(&first)];
            let expected = match odd_call / 4 {
                0 => [Err(fault), Err(PutFault::Failed), Err(PutFault::Failed)],
                1 => [Ok(()), Err(fault), Err(PutFault::Failed)],
                _ => [Ok(()), Ok(()), Err(fault)],
            };
            expect_eq!(rt; answers, expected);
            let written = device.into_inner().output;
            expect_eq!(rt;
                Some(written.as_slice()),
                all.get(..odd_call / 4 * 188 + odd_call % 4 * 60)
            );
        }
    }
    Ok(())
}

#[test]
fn fills_a_list(rt: HostRuntime) -> Result<(), Fail> {
    let (first, second) = (packet(1, 7, 1)?, packet(1, 8, 2)?);
    let mut list = PacketList::new(rt.alloc(), 2)?;
    expect_eq!(rt; list.put(&first), Ok(()));
    expect_eq!(rt; list.put(&second), Ok(()));
    expect_eq!(rt; list.put(&first), Err(PutFault::Stuck));
    expect_eq!(rt; list.put(&first), Err(PutFault::Failed));
    expect_eq!(rt; list.packets(), [first, second].as_slice());
    Ok(())
}

#[test]
fn follows_duplicates(rt: HostRuntime) -> Result<(), Fail> {
    let pid = Pid::new(0x0100).ok_or("a PID")?;
    let mut follower = Follower::new(pid);
    let other = Packet::null();
    let (first, second) = (packet(1, 7, 1)?, packet(1, 7, 2)?);
    let kept = first.with_counter(3);
    assert!(rt; follower.feed(&first, &other));
    assert!(rt; !follower.feed(&other, &kept));
    assert!(rt; !follower.feed(&packet(2, 7, 10)?, &kept));
    assert!(rt;
        !follower.feed(&first, &kept),
        "whatever counter the packet has that is kept"
    );
    assert!(rt;
        follower.feed(&first, &kept),
        "a duplicate has no duplicate"
    );
    assert!(rt; follower.feed(&second, &kept), "another payload");
    assert!(rt;
        follower.feed(&packet(1, 8, 2)?, &second),
        "another counter"
    );
    Ok(())
}

#[test]
fn counts_on(rt: HostRuntime) -> Result<(), Fail> {
    let mut counter = Counter::new();
    expect_eq!(rt; counter.fresh(), 0);
    expect_eq!(rt; counter.kept(&packet(1, 15, 0)?), 0);
    expect_eq!(rt; counter.kept(&packet(2, 15, 10)?), 0);
    let left_out = packet(1, 0, 0)?;
    assert!(rt; left_out.payload().is_some());
    if left_out.has_payload() {
        expect_eq!(rt; counter.dropped(&left_out), 0);
    }
    expect_eq!(rt; counter.fresh(), 1);
    expect_eq!(rt; counter.fresh(), 2);
    expect_eq!(rt; counter.kept(&packet(1, 1, 0)?), 3);
    expect_eq!(rt; counter.fresh(), 4);
    Ok(())
}

#[test]
fn keeps_the_clock_alone(rt: HostRuntime) -> Result<(), Fail> {
    let mut with_clock = packet_bytes(3, 9, 7);
    with_clock[1] = 0x41;
    with_clock[5] = 0x50;
    for (i, byte) in [0x12, 0x34, 0x56, 0x78, 0x7E, 0x9A].iter().enumerate() {
        with_clock[6 + i] = *byte;
    }
    let alone = pcr_only(&Packet::from_bytes(&with_clock)?, 6).ok_or("a clock")?;
    let mut expected = [0xFF; 188];
    let head = [
        0x47, 0x01, 0x00, 0x26, 0xB7, 0x10, 0x12, 0x34, 0x56, 0x78, 0x7E, 0x9A,
    ];
    expected[..12].copy_from_slice(&head);
    expect_eq!(rt; alone.to_bytes(), expected);
    with_clock[4] = 6;
    expect_eq!(rt; pcr_only(&Packet::from_bytes(&with_clock)?, 6), None);
    Ok(())
}
