//! Streams that lose their place, and what is read of them.

use failing_devices::{Calls, Ending, FailSource};
use packet_recovery::RecoveringReader;
use std::alloc::Global;
use std::io::BufReader;
use std::process::Abort;
use std::test::Fail;
use ts_packet::{Buffered, Device, Packet, Source};

/// Puts a packet of this payload byte behind the others; 0x47 is not one of these bytes.
fn put_packet(stream: &mut Vec<u8>, filler: u8) -> Result<(), Fail> {
    stream.extend_from_slice(&[0x47, 0x01, 0x00, 0x10])?;
    stream.extend_from_slice(&[filler; 184])?;
    Ok(())
}

/// What a reader answers up to its end: of each packet its last byte and its place, a `!` before one that is marked in error; then what was
/// left out and marked, or the fault and what comes behind it.
fn answers<S: Source>(alloc: Global, source: &mut S) -> Result<String, Fail> {
    let mut text = String::new(alloc);
    let mut reader = RecoveringReader::new(source);
    let mut packet = Packet::null();
    for _ in 0..12 {
        match reader.read_into(&mut packet) {
            Ok(true) => {
                let mark = if packet.error() { "!" } else { "" };
                let last = packet.as_bytes()[187];
                let place = reader.place();
                text.push_str(&format!(in alloc; "{mark}{last}@{place} ")?)?;
            }
            Ok(false) => {
                let (skipped, mended) = (reader.skipped(), reader.mended());
                text.push_str(&format!(in alloc; "skipped {skipped} mended {mended}")?)?;
                return Ok(text);
            }
            Err(fault) => text.push_str(&format!(in alloc; "{fault:?} ")?)?,
        }
    }
    Ok(text)
}

/// What a reader answers to these bytes, the same however many a read gives, and out of a buffer.
fn read_so(rt: &impl Abort, alloc: Global, stream: &[u8], expected: &str) -> Result<(), Fail> {
    for step in [1, 57, 188, 1000] {
        let calls = Calls {
            step,
            good: usize::MAX,
            ending: Ending::Fails,
        };
        let mut device = Device::new(FailSource::new(stream, calls));
        assert_eq!(rt; answers(alloc, &mut device)?.as_str(), expected);
        let buffer = BufReader::new(alloc, FailSource::new(stream, calls))?;
        let mut buffered = Buffered::new(buffer);
        assert_eq!(rt; answers(alloc, &mut buffered)?.as_str(), expected);
    }
    Ok(())
}

#[test]
fn flipped_sync_byte_costs_its_packet(rt: HostRuntime) -> Result<(), Fail> {
    let mut stream = Vec::new(rt.alloc());
    put_packet(&mut stream, 1)?;
    stream.push(0x46)?;
    stream.extend_from_slice(&[2; 187])?;
    put_packet(&mut stream, 3)?;
    put_packet(&mut stream, 4)?;
    read_so(
        &rt,
        rt.alloc(),
        &stream,
        "1@0 3@376 4@564 skipped 188 mended 0",
    )
}

#[test]
fn junk_between_packets_is_left_out(rt: HostRuntime) -> Result<(), Fail> {
    let mut stream = Vec::new(rt.alloc());
    put_packet(&mut stream, 1)?;
    put_packet(&mut stream, 2)?;
    stream.extend_from_slice(&[0; 57])?;
    put_packet(&mut stream, 3)?;
    put_packet(&mut stream, 4)?;
    read_so(
        &rt,
        rt.alloc(),
        &stream,
        "1@0 2@188 3@433 4@621 skipped 57 mended 0",
    )
}

#[test]
fn start_and_end_in_mid_packet(rt: HostRuntime) -> Result<(), Fail> {
    let mut stream = Vec::new(rt.alloc());
    stream.extend_from_slice(&[1; 88])?;
    put_packet(&mut stream, 2)?;
    put_packet(&mut stream, 3)?;
    stream.extend_from_slice(&[0x47; 100])?;
    read_so(&rt, rt.alloc(), &stream, "2@88 3@276 skipped 188 mended 0")
}

#[test]
fn false_sync_byte_is_passed(rt: HostRuntime) -> Result<(), Fail> {
    let mut stream = Vec::new(rt.alloc());
    stream.extend_from_slice(&[0, 0, 0, 0, 0, 0x47, 0, 0, 0, 0])?;
    put_packet(&mut stream, 1)?;
    put_packet(&mut stream, 2)?;
    put_packet(&mut stream, 3)?;
    read_so(
        &rt,
        rt.alloc(),
        &stream,
        "1@10 2@198 3@386 skipped 10 mended 0",
    )
}

#[test]
fn last_packet_needs_nothing_behind_it(rt: HostRuntime) -> Result<(), Fail> {
    let mut stream = Vec::new(rt.alloc());
    stream.extend_from_slice(&[0; 3])?;
    put_packet(&mut stream, 1)?;
    read_so(&rt, rt.alloc(), &stream, "1@3 skipped 3 mended 0")
}

#[test]
fn adaptation_field_that_does_not_fit(rt: HostRuntime) -> Result<(), Fail> {
    let mut stream = Vec::new(rt.alloc());
    put_packet(&mut stream, 1)?;
    stream.extend_from_slice(&[0x47, 0x01, 0x00, 0x30, 183])?;
    stream.extend_from_slice(&[2; 183])?;
    put_packet(&mut stream, 3)?;
    read_so(
        &rt,
        rt.alloc(),
        &stream,
        "1@0 !2@188 3@376 skipped 0 mended 1",
    )
}

/// 192 bytes a packet, four of them a time before it: sync is found at the last packet alone, behind which the bytes end.
#[test]
fn packets_with_times_before_them(rt: HostRuntime) -> Result<(), Fail> {
    let mut stream = Vec::new(rt.alloc());
    for filler in [1, 2, 3] {
        stream.extend_from_slice(&[0; 4])?;
        put_packet(&mut stream, filler)?;
    }
    read_so(&rt, rt.alloc(), &stream, "3@388 skipped 388 mended 0")
}

#[test]
fn device_that_fails_at_each_call(rt: HostRuntime) -> Result<(), Fail> {
    let mut stream = Vec::new(rt.alloc());
    put_packet(&mut stream, 1)?;
    stream.extend_from_slice(&[0; 57])?;
    put_packet(&mut stream, 2)?;
    put_packet(&mut stream, 3)?;
    let all = "1@0 2@245 3@433 skipped 57 mended 0";
    // 621 bytes a byte a read, and one read that tells the end: what was given by the last good read.
    for good in 0..623 {
        let calls = Calls {
            step: 1,
            good,
            ending: Ending::Fails,
        };
        let mut device = Device::new(FailSource::new(&stream, calls));
        let text = answers(rt.alloc(), &mut device)?;
        let front = match good {
            0..=187 => "Io Failed Failed ",
            188..=433 => "1@0 Io Failed ",
            434..=620 => "1@0 2@245 Io Failed ",
            621 => "1@0 2@245 3@433 Io Failed ",
            _ => all,
        };
        assert!(rt; text.as_str().starts_with(front));
    }
    Ok(())
}
