//! Bytes from outside: the packets that the standard's fields make of units of these sizes.

use pes_time::{PesHead, Time33};
use std::test::*;
use ts_packet::{Counter, Packet, PacketList, Pid, PutFault};
use unit_packing::*;

/// PID 0x0100.
fn pid() -> Result<Pid, Fail> {
    Ok(Pid::new(0x0100).ok_or("a PID")?)
}

/// The packet begins with these bytes, and its payload ends with those.
fn is_packet(packet: &Packet, front: &[u8], payload: &[u8]) -> bool {
    let bytes = packet.as_bytes();
    bytes.starts_with(front) && bytes.ends_with(payload)
}

#[test]
fn units_of_one_packet(rt: HostRuntime) -> Result<(), Fail> {
    let unit = [0xA5u8; 184];
    let mut list = PacketList::new(rt.alloc(), 3)?;
    put_unit(&unit, false, pid()?, &mut Counter::new(), &mut list)
        .ok()
        .ok_or("184 bytes")?;
    put_unit(&unit[..183], false, pid()?, &mut Counter::new(), &mut list)
        .ok()
        .ok_or("183 bytes")?;
    put_unit(&unit[..182], false, pid()?, &mut Counter::new(), &mut list)
        .ok()
        .ok_or("182 bytes")?;
    assert_eq!(rt; list.packets().len(), 3);
    assert!(rt; is_packet(&list.packets()[0], &[0x47, 0x41, 0x00, 0x10], &unit));
    assert!(rt;
        is_packet(
            &list.packets()[1],
            &[0x47, 0x41, 0x00, 0x30, 0],
            &unit[..183]
        )
    );
    assert!(rt;
        is_packet(
            &list.packets()[2],
            &[0x47, 0x41, 0x00, 0x30, 1, 0],
            &unit[..182]
        )
    );
    Ok(())
}

#[test]
fn random_access_and_stuffing(rt: HostRuntime) -> Result<(), Fail> {
    let unit = [0xA5u8; 183];
    let mut list = PacketList::new(rt.alloc(), 3)?;
    let mut counter = Counter::new();
    put_unit(&unit, true, pid()?, &mut counter, &mut list)
        .ok()
        .ok_or("183 bytes")?;
    let packets = list.packets();
    assert_eq!(rt; packets.len(), 2);
    assert!(rt;
        is_packet(
            &packets[0],
            &[0x47, 0x41, 0x00, 0x30, 1, 0x40],
            &unit[..182]
        )
    );
    assert!(rt;
        is_packet(
            &packets[1],
            &[0x47, 0x01, 0x00, 0x31, 0xB6, 0x00, 0xFF],
            &[0xFF, 0xA5]
        )
    );
    // The list has room for one packet more: the second is not taken, and not counted.
    expect_eq!(rt;
        put_unit(&unit, true, pid()?, &mut counter, &mut list),
        Err(PutFault::Stuck)
    );
    assert_eq!(rt; list.packets().len(), 3);
    expect_eq!(rt; counter.fresh(), 3);
    Ok(())
}

#[test]
fn moved_stamps(rt: HostRuntime) -> Result<(), Fail> {
    let mut unit = [0xA5u8; 200];
    unit[..14].copy_from_slice(&[
        0, 0, 1, 0xE0, 0, 0, 0x80, 0x80, 5, 0x21, 0x00, 0x05, 0xBF, 0x21,
    ]);
    let head = PesHead::read(&unit).ok().ok_or("a head")?;
    let delta = Time33::new(1_170_000).ok_or("a time")?;
    let mut list = PacketList::new(rt.alloc(), 2)?;
    put_moved(
        &unit,
        &head,
        delta,
        false,
        pid()?,
        &mut Counter::new(),
        &mut list,
    )
    .ok()
    .ok_or("200 bytes")?;
    assert_eq!(rt; list.packets().len(), 2);
    let first = list.packets()[0].to_bytes();
    expect_eq!(rt;
        &first[13..19],
        [0x21, 0x00, 0x4D, 0x73, 0xC1, 0xA5].as_slice()
    );
    expect_eq!(rt; &first[4..13], &unit[..9]);
    expect_eq!(rt; &unit[9..14], [0x21, 0x00, 0x05, 0xBF, 0x21].as_slice());
    laws::units_are_packed();
    laws::packed_carry();
    laws::packets_are_plain();
    laws::access_is_marked();
    laws::packed_read_back();
    laws::stamps_in_first();
    Ok(())
}
