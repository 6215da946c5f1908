//! Packets of 204 and of 192 bytes without what stands with each of them.

use std::alloc::{AllocError, Global};
use std::io::Read;
use std::test::Fail;
use stream_facts::{PacketSize, PlainPackets};

/// Puts the packet of this number behind the others; the number is not that of the sync byte.
fn put_packet(stream: &mut Vec<u8>, number: u8, sync: u8) -> Result<(), AllocError> {
    stream.push(sync)?;
    stream.extend_from_slice(&[number; 187])
}

/// Packets with these bytes before and behind each. The one of the number `broken` has no sync byte.
fn stream_of(alloc: Global, front: &[u8], back: &[u8], broken: u8) -> Result<Vec<u8>, AllocError> {
    let mut stream = Vec::new(alloc);
    for number in 0..9 {
        stream.extend_from_slice(front)?;
        put_packet(
            &mut stream,
            number,
            if number == broken { 0x46 } else { 0x47 },
        )?;
        stream.extend_from_slice(back)?;
    }
    Ok(stream)
}

/// What is read of a stream, and the size of its packets.
fn read_plain(alloc: Global, stream: &[u8]) -> Result<(Vec<u8>, PacketSize), Fail> {
    let mut plain = PlainPackets::new(alloc, stream)?;
    let mut bytes = Vec::new(alloc);
    plain.read_to_end(&mut bytes)?;
    let size = plain.size();
    Ok((bytes, size))
}

#[test]
fn what_stands_with_packets_is_left_out(rt: HostRuntime) -> Result<(), Fail> {
    let alloc = rt.alloc();
    let packets = stream_of(alloc, &[], &[], 9)?;
    let (front, back) = ([0x11; 4], [0x12; 16]);
    let coded = stream_of(alloc, &[], &back, 9)?;
    let timed = stream_of(alloc, &front, &[], 9)?;
    assert_eq!(rt; coded.len(), 9 * 204);
    for (stream, size) in [
        (packets.as_slice(), PacketSize::Plain),
        (coded.as_slice(), PacketSize::Coded),
        (timed.as_slice(), PacketSize::Timed),
    ] {
        let (bytes, seen) = read_plain(alloc, stream)?;
        assert_eq!(rt; seen, size);
        assert_eq!(rt; bytes.as_slice(), packets.as_slice());
    }
    Ok(())
}

/// Nine packets, of which that of number 3 has lost its sync byte, with these bytes behind that one alone.
fn with_loose_bytes(alloc: Global, loose: &[u8]) -> Result<Vec<u8>, AllocError> {
    let mut stream = Vec::new(alloc);
    for number in 0..9 {
        put_packet(&mut stream, number, if number == 3 { 0x46 } else { 0x47 })?;
        if number == 3 {
            stream.extend_from_slice(loose)?;
        }
    }
    Ok(stream)
}

/// Where the packet of number 3 has lost its sync byte, all its 204 bytes are given: 188 of each of the other eight, and those.
#[test]
fn lost_packet_stays_to_be_seen(rt: HostRuntime) -> Result<(), Fail> {
    let alloc = rt.alloc();
    let back = [0x12; 16];
    let coded = stream_of(alloc, &[], &back, 3)?;
    let wanted = with_loose_bytes(alloc, &back)?;
    let (bytes, size) = read_plain(alloc, coded.as_slice())?;
    assert_eq!(rt; size, PacketSize::Coded);
    assert_eq!(rt; bytes.len(), 8 * 188 + 204);
    assert_eq!(rt; bytes.as_slice(), wanted.as_slice());
    Ok(())
}
