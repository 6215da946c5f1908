//! Small networks for the tests: tables and units as they come, and what the follower says of their last packet.

use crate::fronts::first_bytes;
use program_follower::{
    FollowFault, Place, ProgramFollower, Purpose, StartFollower, StartPacket, StartPlace,
    StreamPacket,
};
use psi_section::crc;
use psi_tables::NetworkFault;
use std::alloc::{AllocError, Global};
use ts_packet::{Packet, Pid};

/// A section on PID 0 or on that of the map. Where nothing else is said, it applies now and stands alone.
#[derive(Clone, Copy)]
pub(crate) enum Table {
    /// A PAT of these programs with their maps' PIDs.
    Pat(&'static [(u16, u16)]),
    /// A PAT with this byte of version_number and current_next_indicator, and this last_section_number.
    Version(u8, u8, &'static [(u16, u16)]),
    /// The map of program 1 with these streams, whose clock is on PID 0x100.
    Streams(&'static [(u8, u16)]),
    /// With the clock on this PID.
    Clock(u16),
    /// With so many empty descriptors of the program, two bytes each, and its video alone.
    Descriptors(u16),
    /// With this byte of version_number and current_next_indicator, section_number, last_section_number and clock.
    Numbers(u8, u8, u8, u16),
    /// With this table_id, program_number and clock.
    Foreign(u8, u16, u16),
}

/// What stands in a map.
#[derive(Clone, Copy)]
struct Map {
    table_id: u8,
    program: u16,
    numbers: [u8; 3],
    clock: u16,
    descriptors: u16,
    streams: &'static [(u8, u16)],
}

/// What comes next on the network.
#[derive(Clone, Copy)]
pub(crate) enum Came {
    /// A section.
    One(Table),
    /// Sections, one behind the other.
    Together(&'static [Table]),
    /// A section in one packet, whose adaptation field fills the rest.
    Stuffed(Table),
    /// A packet of this PID, with this counter and these scrambling bits, in which a unit with this PTS begins.
    Unit(u16, u8, u64),
    /// A packet of this PID, with this counter and these scrambling bits, in which a payload of these bytes begins, behind an
    /// adaptation field.
    Short(u16, u8, &'static [u8]),
    /// A packet that begins with these bytes; the others are 0xFF.
    Bytes(&'static [u8]),
    /// No packet: the next one with sections has this counter.
    Counter(u8),
}

/// What the follower says of a packet.
#[derive(Clone, Copy, Debug, PartialEq, Eq)]
pub(crate) enum Told {
    Marked,
    Cue,
    OnMap,
    Other,
    Start(usize),
    More(usize),
    Repeat(usize),
    Lead(usize),
    NoPayload(usize),
    Wrong(NetworkFault),
    Failed,
    /// The follower that stands on the begins of units alone says otherwise.
    Apart,
}

use Came::*;
use Table::*;
use Told::*;

/// A network that is followed, and the counter of its next packet with tables.
#[derive(Drop)]
pub(crate) struct Network {
    pub(crate) follower: ProgramFollower,
    pub(crate) starts: StartFollower,
    /// The fault that the follower of begins answered last. It is fed on behind one, where no clause speaks of it.
    pub(crate) fault: Option<NetworkFault>,
    counter: u8,
}

impl Network {
    /// Feeds both followers, and answers what the packet is, where they agree.
    pub(crate) fn feed(&mut self, packet: &Packet) -> Told {
        let told = self.told(packet);
        let answer = self.starts.feed(packet);
        self.fault = fault_of(&answer);
        if told == Failed || is_same(told, answer) && self.starts.high() == self.follower.high() {
            told
        } else {
            Apart
        }
    }

    fn told(&mut self, packet: &Packet) -> Told {
        match self.follower.feed(packet) {
            Ok(Place::Marked) => Marked,
            Ok(Place::Cue) => Cue,
            Ok(Place::Map) => OnMap,
            Ok(Place::Other) => Other,
            Ok(Place::Stream(index, StreamPacket::Start(_))) => Start(index),
            Ok(Place::Stream(index, StreamPacket::More)) => More(index),
            Ok(Place::Stream(index, StreamPacket::Repeat)) => Repeat(index),
            Ok(Place::Stream(index, StreamPacket::Lead)) => Lead(index),
            Ok(Place::Stream(index, StreamPacket::NoPayload)) => NoPayload(index),
            Err(FollowFault::Network(fault)) => Wrong(fault),
            Err(FollowFault::Failed) => Failed,
        }
    }

    /// Feeds the packets of a payload that begins with a pointer_field, and answers what the last one is.
    fn feed_payload(&mut self, pid: u16, payload: &[u8]) -> Told {
        let mut told = Other;
        let mut start = 0x4000;
        for chunk in payload.chunks(184) {
            let head = first_bytes(start | pid, 0x10 | (self.counter & 15));
            told = self.feed(&packet(&head, chunk));
            self.counter = self.counter.wrapping_add(1);
            start = 0;
        }
        told
    }
}

/// A packet that begins with these bytes; the others are 0xFF.
fn packet(head: &[u8], payload: &[u8]) -> Packet {
    let mut bytes = [0xFF; 188];
    let front = head.len().min(188);
    bytes[..front].copy_from_slice(&head[..front]);
    let count = payload.len().min(188 - front);
    bytes[front..front + count].copy_from_slice(&payload[..count]);
    Packet::from_bytes(&bytes).unwrap_or(Packet::null())
}

/// The packet in which a unit with this PTS begins (ISO/IEC 13818-1, 2.4.3.6), with these transport_scrambling_control and
/// continuity_counter.
pub(crate) fn unit(pid: u16, control: u8, pts: u64) -> Packet {
    let head = first_bytes(0x4000 | pid, 0x10 | (control & 0xCF));
    let bytes = [
        0x00,
        0x00,
        0x01,
        0xE0,
        0x00,
        0x00,
        0x80,
        0x80,
        0x05,
        0x21 | ((pts >> 29) & 0x0E) as u8,
        ((pts >> 22) & 0xFF) as u8,
        0x01 | ((pts >> 14) & 0xFE) as u8,
        ((pts >> 7) & 0xFF) as u8,
        0x01 | ((pts << 1) & 0xFE) as u8,
    ];
    packet(&head, &bytes)
}

fn add_number(bytes: &mut Vec<u8>, number: u16) -> Result<(), AllocError> {
    bytes.extend_from_slice(&number.to_be_bytes())
}

/// A section: its table_id, what stands between section_length and CRC_32, and that.
fn section_of(alloc: Global, table_id: u8, body: &[u8]) -> Result<Vec<u8>, AllocError> {
    let mut section = Vec::new(alloc);
    section.push(table_id)?;
    let length = (body.len().saturating_add(4) & 0xFFF) as u16;
    add_number(&mut section, 0xB000 | length)?;
    section.extend_from_slice(body)?;
    let sum = crc(section.as_slice());
    section.extend_from_slice(&sum.to_be_bytes())?;
    Ok(section)
}

fn section_of_pat(
    alloc: Global,
    now: u8,
    last: u8,
    pairs: &[(u16, u16)],
) -> Result<Vec<u8>, AllocError> {
    let mut body = Vec::new(alloc);
    body.extend_from_slice(&[0x00, 0x01, now, 0x00, last])?;
    for (program, pid) in pairs {
        add_number(&mut body, *program)?;
        add_number(&mut body, 0xE000 | *pid)?;
    }
    section_of(alloc, 0, body.as_slice())
}

fn section_of_map(alloc: Global, map: &Map) -> Result<Vec<u8>, AllocError> {
    let mut body = Vec::new(alloc);
    add_number(&mut body, map.program)?;
    body.extend_from_slice(&map.numbers)?;
    add_number(&mut body, 0xE000 | map.clock)?;
    add_number(&mut body, 0xF000 | map.descriptors.saturating_mul(2))?;
    for _ in 0..map.descriptors {
        add_number(&mut body, 0x8000)?;
    }
    for (kind, pid) in map.streams {
        body.push(*kind)?;
        add_number(&mut body, 0xE000 | *pid)?;
        add_number(&mut body, 0xF000)?;
    }
    section_of(alloc, map.table_id, body.as_slice())
}

/// Program 1: video on PID 0x100, with the clock, and sound on 0x101.
pub(crate) const VIDEO: &[(u8, u16)] = &[(0x1B, 0x100)];

pub(crate) const BOTH: &[(u8, u16)] = &[(0x1B, 0x100), (0x0F, 0x101)];

const PROGRAM: Map = Map {
    table_id: 2,
    program: 1,
    numbers: [NOW, 0, 0],
    clock: 0x100,
    descriptors: 0,
    streams: BOTH,
};

fn written(alloc: Global, table: &Table) -> Result<Vec<u8>, AllocError> {
    let mut said = PROGRAM;
    match table {
        Pat(pairs) => return section_of_pat(alloc, NOW, 0, pairs),
        Version(now, last, pairs) => return section_of_pat(alloc, *now, *last, pairs),
        Streams(streams) => said.streams = streams,
        Clock(pid) => said.clock = *pid,
        Descriptors(count) => {
            said.descriptors = *count;
            said.streams = VIDEO;
        }
        Numbers(now, number, last, clock) => {
            said.numbers = [*now, *number, *last];
            said.clock = *clock;
        }
        Foreign(table_id, program, clock) => {
            said.table_id = *table_id;
            said.program = *program;
            said.clock = *clock;
        }
    }
    section_of_map(alloc, &said)
}

/// The PID that a section comes on: the map's is 0x20.
fn pid_of(table: &Table) -> u16 {
    match table {
        Pat(..) => 0,
        Version(..) => 0,
        _ => 0x20,
    }
}

/// The payload of packets with these sections: a pointer_field of 0, and the sections.
fn payload_of(alloc: Global, tables: &[Table]) -> Result<Vec<u8>, AllocError> {
    let mut payload = Vec::new(alloc);
    payload.push(0)?;
    for table in tables {
        let section = written(alloc, table)?;
        payload.extend_from_slice(section.as_slice())?;
    }
    Ok(payload)
}

/// A packet in which this payload begins, behind an adaptation field without flags that fills the rest, with these
/// transport_scrambling_control and continuity_counter.
fn stuffed(alloc: Global, pid: u16, control: u8, payload: &[u8]) -> Result<Packet, AllocError> {
    let mut bytes = Vec::new(alloc);
    bytes.extend_from_slice(&first_bytes(0x4000 | pid, 0x30 | (control & 0xCF)))?;
    let length = 183 - payload.len().min(183);
    bytes.push(length as u8)?;
    if length > 0 {
        bytes.push(0)?;
        for _ in 1..length {
            bytes.push(0xFF)?;
        }
    }
    Ok(packet(bytes.as_slice(), payload))
}

/// Feeds what comes next, and answers what its last packet is.
fn feed(alloc: Global, network: &mut Network, came: &Came) -> Result<Told, AllocError> {
    match came {
        One(table) => {
            let payload = payload_of(alloc, &[*table])?;
            Ok(network.feed_payload(pid_of(table), payload.as_slice()))
        }
        Together(tables) => {
            let pid = tables.first().map_or(0, pid_of);
            let payload = payload_of(alloc, tables)?;
            Ok(network.feed_payload(pid, payload.as_slice()))
        }
        Stuffed(table) => {
            let payload = payload_of(alloc, &[*table])?;
            let stuffed = stuffed(
                alloc,
                pid_of(table),
                network.counter & 15,
                payload.as_slice(),
            )?;
            network.counter = network.counter.wrapping_add(1);
            Ok(network.feed(&stuffed))
        }
        Unit(pid, control, pts) => Ok(network.feed(&unit(*pid, *control, *pts))),
        Short(pid, control, payload) => {
            let short = stuffed(alloc, *pid, *control, payload)?;
            Ok(network.feed(&short))
        }
        Bytes(bytes) => Ok(network.feed(&packet(bytes, &[]))),
        Counter(counter) => {
            network.counter = *counter;
            Ok(Other)
        }
    }
}

fn fault_of(answer: &Result<StartPlace, NetworkFault>) -> Option<NetworkFault> {
    match answer {
        Ok(_) => None,
        Err(fault) => Some(*fault),
    }
}

/// What one follower tells is what the other answers, which tells of the packets of a stream only which begin units.
fn is_same(told: Told, answer: Result<StartPlace, NetworkFault>) -> bool {
    match (told, answer) {
        (Wrong(fault), Err(other)) => fault == other,
        (Wrong(_), Ok(_)) | (_, Err(_)) => false,
        (told, Ok(StartPlace::Map)) => told == OnMap,
        (told, Ok(StartPlace::Cue)) => told == Cue,
        (told, Ok(StartPlace::Other)) => told == Other || told == Marked,
        (told, Ok(StartPlace::Stream(index, StartPacket::Start(_)))) => told == Start(index),
        (told, Ok(StartPlace::Stream(index, StartPacket::NoStart))) => {
            told == More(index)
                || told == Repeat(index)
                || told == Lead(index)
                || told == NoPayload(index)
        }
    }
}

/// To put cues on PID 0x1F0.
pub(crate) fn writer() -> Purpose {
    Purpose {
        program: Some(1),
        cue_pid: Some(Pid::of_bits(0x01, 0xF0)),
        writes_cues: true,
    }
}

/// To read the cues on PID 0x1F0.
pub(crate) fn reader() -> Purpose {
    Purpose {
        program: Some(1),
        cue_pid: Some(Pid::of_bits(0x01, 0xF0)),
        writes_cues: false,
    }
}

/// A network that was followed, and what its last packet was told to be.
pub(crate) fn follow(
    alloc: Global,
    purpose: &Purpose,
    came: &[Came],
) -> Result<(Network, Told), AllocError> {
    let mut network = Network {
        follower: ProgramFollower::new(*purpose),
        starts: StartFollower::new(*purpose),
        fault: None,
        counter: 0,
    };
    let mut told = Other;
    for one in came {
        told = feed(alloc, &mut network, one)?;
    }
    Ok((network, told))
}

/// A network, and what its last packet is to be.
pub(crate) type Case = (&'static [Came], Told);

/// How many cases go as wanted before the first that does not.
pub(crate) fn went(alloc: Global, purpose: &Purpose, cases: &[Case]) -> Result<usize, AllocError> {
    for (k, (came, wanted)) in cases.iter().enumerate() {
        let (_, told) = follow(alloc, purpose, came)?;
        if told != *wanted {
            return Ok(k);
        }
    }
    Ok(cases.len())
}

pub(crate) const NOW: u8 = 0xC1;

pub(crate) const NEXT: u8 = 0xC0;

pub(crate) const LISTED: Came = One(Pat(&[(0, 0x10), (1, 0x20)]));

pub(crate) const MAPPED: Came = One(Streams(BOTH));

pub(crate) const BEGINS: Came = Unit(0x100, 0, 9);
