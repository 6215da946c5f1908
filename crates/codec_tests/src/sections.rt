//! The layouts of ISO/IEC 13818-1, 2.4.4, by example.

ghost use Rattle.std.specs.Prelude.{◌<◌, OnOk};
ghost use Rattle.psi_section.specs.Assembling.{IsReady};

use psi_section::{Assembler, crc, crc_entry};
use std::alloc::{AllocError, Global};
use std::test::Fail;
use ts_packet::Packet;

/// A packet of PID 0x0020 with this payload, filled with 0xFF.
fn packet(is_start: bool, counter: u8, payload: &[u8]) -> Packet
    requires { counter < 16 }
{
    let mut bytes = [0xFF; 188];
    bytes[0] = 0x47;
    bytes[1] = if is_start { 0x40 } else { 0x00 };
    bytes[2] = 0x20;
    bytes[3] = 0x10 + counter;
    let count = payload.len().min(184);
    bytes[4..4 + count].copy_from_slice(&payload[..count]);
    Packet::from_bytes(&bytes).unwrap_or(Packet::null())
}

/// Feeds a packet, and keeps the sections that it finishes.
fn feed(
    alloc: Global,
    assembler: &mut Assembler,
    packet: &Packet,
    sections: &mut Vec<Vec<u8>>,
) -> Result<(), AllocError>
    requires { IsReady assembler.old }
    ensures { OnOk result (IsReady assembler.new) }
{
    assembler.feed(packet);
    for section in assembler.sections() {
        sections.push(Vec::from_slice(alloc, section)?)?;
    }
    assembler.pass_over();
    Ok(())
}

/// The sections of these packets, and the number of those whose CRC_32 failed.
fn sections_in(alloc: Global, packets: &[Packet]) -> Result<(Vec<Vec<u8>>, u64), AllocError> {
    let mut assembler = Assembler::new();
    let mut sections = Vec::new(alloc);
    for packet in packets {
        feed(alloc, &mut assembler, packet, &mut sections)?;
    }
    Ok((sections, assembler.bad()))
}

/// Bytes that count up, behind a pointer_field or a section's first bytes.
fn counting(alloc: Global, front: &[u8], size: usize) -> Result<Vec<u8>, AllocError> {
    let mut bytes = Vec::from_slice(alloc, front)?;
    for i in 0..size {
        bytes.push((i % 251) as u8)?;
    }
    Ok(bytes)
}

#[test]
fn crc_of_known_texts(rt: HostRuntime) {
    expect_eq!(rt; crc(b"123456789"), 0x0376E6E7);
    expect_eq!(rt; crc(b""), 0xFFFFFFFF);
    expect_eq!(rt; crc_entry(1), 0x04C11DB7);
}

#[test]
fn two_sections_end_in_one_packet(rt: HostRuntime) -> Result<(), Fail> {
    let long = counting(rt.alloc(), &[0x40, 0x30, 197], 197)?;
    let first = counting(rt.alloc(), &[0, 0x40, 0x30, 197], 180)?;
    let mut second = Vec::from_slice(rt.alloc(), &[17])?;
    for i in 180u8..197 {
        second.push(i)?;
    }
    for byte in [0x41, 0x30, 2, 7, 8] {
        second.push(byte)?;
    }
    let packets = [packet(true, 5, &first), packet(true, 6, &second)];
    let (sections, bad) = sections_in(rt.alloc(), &packets)?;
    assert_eq!(rt; sections.len(), 2);
    expect_eq!(rt; sections[0].as_slice(), long.as_slice());
    expect_eq!(rt; sections[1].as_slice(), [0x41, 0x30, 2, 7, 8].as_slice());
    expect_eq!(rt; bad, 0);
    Ok(())
}

#[test]
fn section_with_a_gap_is_not_given(rt: HostRuntime) -> Result<(), Fail> {
    let first = counting(rt.alloc(), &[0, 0x40, 0x30, 197], 180)?;
    let packets = [
        packet(true, 5, &first),
        packet(false, 7, &[1, 2, 3]),
        packet(true, 8, &[0, 0x41, 0x30, 1, 9]),
    ];
    let (sections, _) = sections_in(rt.alloc(), &packets)?;
    assert_eq!(rt; sections.len(), 1);
    expect_eq!(rt; sections[0].as_slice(), [0x41, 0x30, 1, 9].as_slice());
    Ok(())
}

#[test]
fn pointer_past_the_payload_discards_the_part(rt: HostRuntime) -> Result<(), Fail> {
    let first = counting(rt.alloc(), &[0, 0x40, 0x30, 197], 180)?;
    let past = [packet(true, 5, &first), packet(true, 6, &[184])];
    let (sections, _) = sections_in(rt.alloc(), &past)?;
    expect_eq!(rt; sections.len(), 0);
    let last = [packet(true, 5, &first), packet(true, 6, &[183])];
    let (sections, _) = sections_in(rt.alloc(), &last)?;
    assert_eq!(rt; sections.len(), 1);
    expect_eq!(rt; sections[0].len(), 200);
    Ok(())
}

#[test]
fn section_over_4096_bytes_is_dropped_up_to_a_start(rt: HostRuntime) -> Result<(), Fail> {
    let packets = [
        packet(true, 0, &[0, 0x40, 0x3F, 0xFE]),
        packet(false, 1, &[0x41, 0x30, 1, 9]),
        packet(true, 2, &[0, 0x42, 0x30, 1, 9]),
    ];
    let (sections, _) = sections_in(rt.alloc(), &packets)?;
    assert_eq!(rt; sections.len(), 1);
    expect_eq!(rt; sections[0].as_slice(), [0x42, 0x30, 1, 9].as_slice());
    Ok(())
}

#[test]
fn header_cut_between_packets(rt: HostRuntime) -> Result<(), Fail> {
    let mut first = counting(rt.alloc(), &[0, 0x40, 0x30, 178], 178)?;
    first.push(0x41)?;
    first.push(0x30)?;
    let packets = [packet(true, 15, &first), packet(false, 0, &[1, 9])];
    let (sections, _) = sections_in(rt.alloc(), &packets)?;
    assert_eq!(rt; sections.len(), 2);
    expect_eq!(rt; sections[0].len(), 181);
    expect_eq!(rt; sections[1].as_slice(), [0x41, 0x30, 1, 9].as_slice());
    Ok(())
}

#[test]
fn duplicate_gives_its_section_once(rt: HostRuntime) -> Result<(), Fail> {
    let one = packet(true, 3, &[0, 0x41, 0x30, 1, 9]);
    let (sections, _) = sections_in(rt.alloc(), &[one, one, one])?;
    assert_eq!(rt; sections.len(), 2);
    Ok(())
}

#[test]
fn section_behind_an_adaptation_field(rt: HostRuntime) -> Result<(), Fail> {
    let mut bytes = [0xFF; 188];
    bytes[..4].copy_from_slice(&[0x47, 0x40, 0x20, 0x30]);
    bytes[4] = 178;
    bytes[5] = 0;
    bytes[183..].copy_from_slice(&[0, 0x41, 0x30, 1, 9]);
    let one = Packet::from_bytes(&bytes).unwrap_or(Packet::null());
    let (sections, _) = sections_in(rt.alloc(), &[one])?;
    assert_eq!(rt; sections.len(), 1);
    expect_eq!(rt; sections[0].as_slice(), [0x41, 0x30, 1, 9].as_slice());
    Ok(())
}
