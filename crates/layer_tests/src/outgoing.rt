//! Sections out, by bytes from outside.

use outgoing_packets::Outgoing;
use std::test::*;
use ts_packet::{PacketList, Pid};

/// The packet of this place begins with these bytes.
fn begins(list: &PacketList, place: usize, front: &[u8]) -> bool {
    match list.packets().get(place) {
        Some(packet) => packet.as_bytes().starts_with(front),
        None => false,
    }
}

#[test]
fn counters_go_on(rt: HostRuntime) -> Result<(), Fail> {
    let mut out = Outgoing::new();
    let mut list = PacketList::new(rt.alloc(), 3)?;
    let pid = Pid::new(0x01F0).ok_or("a PID")?;
    let other = Pid::new(0x0020).ok_or("a PID")?;
    out.put_section(pid, &[0x4A, 0, 1, 7], &mut list)
        .ok()
        .ok_or("a section")?;
    out.put_section(other, &[0x4A, 0, 1, 8], &mut list)
        .ok()
        .ok_or("a section")?;
    out.put_section(pid, &[0x4A, 0, 1, 9], &mut list)
        .ok()
        .ok_or("a section")?;
    expect_eq!(rt;
        begins(&list, 0, &[0x47, 0x41, 0xF0, 0x10, 0, 0x4A, 0, 1, 7, 0xFF]),
        true
    );
    expect_eq!(rt;
        begins(&list, 1, &[0x47, 0x40, 0x20, 0x10, 0, 0x4A, 0, 1, 8, 0xFF]),
        true
    );
    expect_eq!(rt;
        begins(&list, 2, &[0x47, 0x41, 0xF0, 0x11, 0, 0x4A, 0, 1, 9, 0xFF]),
        true
    );
    Ok(())
}
