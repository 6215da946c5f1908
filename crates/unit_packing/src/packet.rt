//! One packet of a unit.

ghost use Rattle.std.specs.Prelude.{◌≡◌, ℕ, ◌<◌, ◌≤◌, ◌++◌, ◌/◌, ◌%◌, length, slice_index, replicate, None, false, if◌then◌else◌};
ghost use Rattle.ts_packet.specs.Packets.{packet_fault};
ghost use Rattle.unit_packing.specs.Packing.{room, header_front, unit_packet};

use ts_packet::packet::{PACKET_SIZE, SYNC_BYTE};
use ts_packet::{Packet, Pid};

/// How many bytes of a unit fit in a packet: two fewer than 184 where random access is marked, since the mark takes an adaptation field.
pub(crate) fn room(random_access: bool) -> usize
    ensures value { result ≡ room random_access }
    ensures below { result ≤ 184 }
    ensures some { 182 ≤ result }
{
    if random_access { 182 } else { 184 }
}

/// payload_unit_start_indicator and random_access_indicator, each the second bit of its byte.
fn indicator(is_set: bool) -> u8
    ensures value { result ≡ (if is_set then 64 else 0) }
    ensures below { result ≤ 64 }
{
    if is_set { 0x40 } else { 0 }
}

/// Writes what stands before a packet's payload of so many bytes over a packet of 0xFF alone.
fn write_front(
    bytes: &mut [u8; 188],
    pid: Pid,
    counter: u8,
    start: bool,
    random_access: bool,
    size: usize,
)
    requires blank { bytes.old ≡ replicate 188 0xFF }
    requires number { counter < 16 }
    requires some { 0 < size }
    requires fits { size ≤ 184 }
    ensures value { bytes.new ≡ header_front pid counter start random_access size ++ replicate size 0xFF }
    ensures below { pid < 8192 }
{
    let number = pid.get();
    bytes[0] = SYNC_BYTE;
    bytes[1] = (number / 256) as u8 + indicator(start);
    bytes[2] = (number % 256) as u8;
    if size == 184 {
        bytes[3] = 0x10 + counter;
        return;
    }
    bytes[3] = 0x30 + counter;
    bytes[4] = (183 - size) as u8;
    if size == 183 {
        return;
    }
    bytes[5] = indicator(random_access);
}

/// Writes a packet of a unit over a packet of 0xFF alone: its counter, whether the unit begins in it and whether random access is marked,
/// and these bytes of the unit, at its end.
pub(crate) fn write_packet(
    bytes: &mut [u8; 188],
    pid: Pid,
    counter: u8,
    start: bool,
    random_access: bool,
    part: &[u8],
)
    requires blank { bytes.old ≡ replicate 188 0xFF }
    requires number { counter < 16 }
    requires some { 0 < length part.now }
    requires fits { length part.now ≤ 184 }
    ensures value { bytes.new ≡ unit_packet pid counter start random_access part.now }
    ensures below { pid < 8192 }
{
    write_front(bytes, pid, counter, start, random_access, part.len());
    bytes[PACKET_SIZE - part.len()..].copy_from_slice(part);
}

/// The packet in which a unit goes on with these bytes, which fill it. All of it is written over, so that a compiler leaves out the filling, and
/// the two remainders show it that the packet has no fault, so that it leaves out the test and a further copy too.
#[inline(always)]
pub(crate) fn full_packet(pid: Pid, counter: u8, part: &[u8]) -> Packet
    requires number { counter < 16 }
    requires full { length part.now ≡ 184 }
    ensures { result ≡ unit_packet pid counter false false part.now }
{
    let number = pid.get();
    let mut bytes = [0xFF; 188];
    bytes[0] = SYNC_BYTE;
    bytes[1] = (number / 256 % 32) as u8;
    bytes[2] = (number % 256) as u8;
    bytes[3] = 0x10 + counter % 16;
    bytes[4..].copy_from_slice(part);
    packet_of(&bytes)
}

/// The packet of these bytes.
#[inline(always)]
pub(crate) fn packet_of(bytes: &[u8; 188]) -> Packet
    requires { packet_fault bytes.now ≡ None }
    ensures { result ≡ bytes.now }
{
    match Packet::from_bytes(bytes) {
        Ok(packet) => packet,
        Err(_) => unreachable!(),
    }
}
