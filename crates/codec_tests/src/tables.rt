ghost use Rattle.std.specs.Prelude.{◌≤◌};

use psi_tables::*;
use std::test::*;
use ts_packet::Pid;

/// The program map of an example in its two forms, without and with an entry for cues on PID 0x01F0.
#[test]
fn adds_and_strips_the_cue_entry(rt: HostRuntime) -> Result<(), Fail> {
    let cue = Pid::new(0x1F0).ok_or("a PID")?;
    let without = [
        0x02, 0xB0, 0x12, 0, 1, 0xC1, 0, 0, 0xE1, 0, 0xF0, 0, 0x1B, 0xE1, 0, 0xF0, 0, 0x15, 0xBD,
        0x4D, 0x56,
    ];
    let with = [
        0x02, 0xB0, 0x1D, 0, 1, 0xC1, 0, 0, 0xE1, 0, 0xF0, 6, 5, 4, 0x43, 0x55, 0x45, 0x49, 0x1B,
        0xE1, 0, 0xF0, 0, 0x86, 0xE1, 0xF0, 0xF0, 0,
    ];
    let added = add_cue(&Pmt::read(&without)?, cue)?;
    expect_eq!(rt; added.len(), 32);
    assert!(rt; added.as_slice().starts_with(&with));
    expect_eq!(rt; psi_section::crc(added.as_slice()), 0);
    let stripped = strip_cue(&Pmt::read(added.as_slice())?, cue);
    expect_eq!(rt; stripped.as_slice(), without.as_slice());
    Ok(())
}

/// A map of this `section_length`: one private stream with as long descriptors as it takes.
fn map_of_length(size: usize) -> Section
    requires { (18 ≤ size) × (size ≤ 1021) }
{
    let mut map = Section::new();
    let head = [
        2,
        0xB0 + (size / 256) as u8,
        (size % 256) as u8,
        0,
        1,
        0xC1,
        0,
        0,
        0xE1,
        0,
        0xF0,
        0,
    ];
    let _ = map.try_extend_from_slice(&head);
    let info = size - 18;
    let entry = [6, 0xE1, 0, 0xF0 + (info / 256) as u8, (info % 256) as u8];
    let _ = map.try_extend_from_slice(&entry);
    for _ in 0..info + 4 {
        let _ = map.try_push(0xFF);
    }
    map
}

#[test]
fn refuses_an_entry_past_1021(rt: HostRuntime) -> Result<(), Fail> {
    let cue = Pid::new(0x1F0).ok_or("a PID")?;
    let map = map_of_length(1010);
    let added = add_cue(&Pmt::read(map.as_slice())?, cue)?;
    expect_eq!(rt; added.len(), 1024);
    let longer = map_of_length(1011);
    assert!(rt; add_cue(&Pmt::read(longer.as_slice())?, cue).is_err());
    Ok(())
}

#[test]
fn finds_programs_and_streams(rt: HostRuntime) -> Result<(), Fail> {
    let bytes = [
        0, 0xB0, 0x15, 0, 1, 0xC1, 0, 0, 0, 0, 0xE0, 0x10, 0, 2, 0xE0, 0x20, 0, 2, 0xE0, 0x21, 0,
        0, 0, 0,
    ];
    let pat = Pat::read(&bytes)?;
    expect_eq!(rt; pat.program(2), Pid::new(0x20));
    expect_eq!(rt; pat.program(0), Pid::new(0x10));
    expect_eq!(rt; pat.program(3), None);
    let map = [
        2, 0xB0, 0x17, 0, 1, 0xC1, 0, 0, 0xE1, 0, 0xF0, 0, 0x1B, 0xE1, 0, 0xF0, 0, 0x86, 0xE1, 1,
        0xF0, 0, 0, 0, 0, 0,
    ];
    let pmt = Pmt::read(&map)?;
    let video = Pid::new(0x100).ok_or("a PID")?;
    let streams = pmt.switched()?;
    let wanted = [Stream {
        kind: 0x1B,
        pid: video,
    }];
    expect_eq!(rt; streams.as_slice(), wanted.as_slice());
    assert!(rt; pmt.same_streams(&wanted, video));
    assert!(rt; !pmt.same_streams(&[], video));
    Ok(())
}

#[test]
fn takes_a_configuration(rt: HostRuntime) -> Result<(), Fail> {
    let cue = Pid::new(0x1F0).ok_or("a PID")?;
    let null = Pid::new(0x1FFF).ok_or("a PID")?;
    expect_eq!(rt; Config::new(1, cue, 7)?.index, 7);
    assert!(rt; Config::new(0, cue, 7).is_err());
    assert!(rt; Config::new(1, null, 7).is_err());
    Ok(())
}
