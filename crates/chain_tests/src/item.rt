//! What stands in a stream, in turn.

use crate::packets::{MARKED, START, UNTIMED, advert_unit, network_unit, packet};
use crate::stream::Stream;
use arrayvec::ArrayVec;
use pes_time::Time33;
use scte35_codec::{CueOut, write};
use std::alloc::{AllocError, Global};

/// The PIDs of a map, of video, of audio, of cues, and of a stream that nobody switches.
const MAP: u16 = 0x20;

const VIDEO: u16 = 0x100;

const AUDIO: u16 = 0x101;

const OTHER: u16 = 0x130;

const CUES: u16 = 0x1F0;

/// What comes next in a stream. Times and lengths are ticks of 90 kHz, and times go round a clock of 33 bits.
#[derive(Clone, Copy)]
pub enum Item {
    /// A PAT that lists program 1.
    Pat,
    /// Its map with video, and an entry for cues.
    CuedMap,
    /// Its map with video alone.
    Map,
    /// Its map with video and audio, and an entry for cues.
    CuedMaps,
    /// Its map with video and audio alone.
    Maps,
    /// A unit of video with this time.
    Video(u64),
    /// A unit of audio with this time.
    Audio(u64),
    /// A unit of video of two packets.
    Long(u64),
    /// A unit of video whose packet stands twice.
    Twice(u64),
    /// A unit of video without a time.
    Untimed,
    /// A unit of video, behind an adaptation field of this content.
    Field(u64, &'static [u8]),
    /// A packet of video without payload, and its adaptation field.
    Alone(&'static [u8]),
    /// A unit of an advertisement's video with this time.
    Ad(u64),
    /// A unit of its audio.
    AdAudio(u64),
    /// A unit of its video at which a decoder can begin.
    AdAccess(u64),
    /// A packet of a stream that nobody switches, with this byte.
    Other(u8),
    /// The cue of a break of program 7: its event, its time and its length.
    Start(u32, u64, u64),
    /// One of another program.
    StartOf(u32, u64, u64, u16),
    /// The cue that ends an event at this time.
    End(u32, u64),
    /// The cue that cancels an event.
    Cancel(u32),
    /// A section on the PID of cues, without its CRC_32.
    Raw(&'static [u8]),
    /// The cue of a break of program 7 whose CRC_32 is wrong.
    Damaged(u32, u64, u64),
    /// One whose section is cut over two packets.
    Cut(u32, u64, u64),
    /// One in a packet that is marked in error.
    Marked(u32, u64, u64),
    /// A start and the cancel of it, in one packet.
    Pair(u32, u64, u64),
    /// The cue of a break of program 7 at 1,500,000 for 900,000 ticks, with these bytes changed at these places, and its CRC_32 anew.
    Changed(&'static [(usize, u8)]),
    /// No packet, but the next cue's counter is one further.
    Lost,
    /// No packet, but the counter of the next payload packet of video.
    Counter(u8),
}

use Item::*;

/// The section of a cue.
fn cue_section(cue: &CueOut) -> ArrayVec<u8, 180> {
    let mut section = ArrayVec::new();
    write(cue, &mut section);
    section
}

/// The time so many ticks past zero.
fn time(ticks: u64) -> Time33 {
    Time33::new(ticks % (1 << 33)).unwrap_or(Time33::new(0).unwrap())
}

/// The section of a start.
fn start(event: u32, ticks: u64, length: u64, program: u16) -> ArrayVec<u8, 180> {
    cue_section(&CueOut::Start {
        event,
        time: time(ticks),
        length: time(length),
        program,
        avail: 0,
        expected: 0,
        avails: ArrayVec::new(),
    })
}

/// The payload of a packet with this section, behind which are 0xFF.
fn payload(section: &[u8]) -> [u8; 184] {
    let mut bytes = [0xFF; 184];
    bytes[0] = 0;
    let size = section.len().min(183);
    bytes[1..1 + size].copy_from_slice(&section[..size]);
    bytes
}

/// The section of a break of program 7 with these bytes changed, without its CRC_32.
fn changed(changes: &[(usize, u8)]) -> [u8; 36] {
    let mut body = [0; 36];
    body.copy_from_slice(&payload(start(1, 1_500_000, 900_000, 7).as_slice())[1..37]);
    for (place, byte) in changes {
        if *place < 36 {
            body[*place] = *byte;
        }
    }
    body
}

impl Stream {
    /// The stream of these items.
    ///
    /// # Errors
    ///
    /// Where memory was refused.
    pub fn of(alloc: Global, items: &[Item]) -> Result<Stream, AllocError> {
        let mut stream = Stream::new(alloc);
        stream.add(items)?;
        Ok(stream)
    }

    /// Puts these items.
    ///
    /// # Errors
    ///
    /// Where memory was refused.
    pub fn add(&mut self, items: &[Item]) -> Result<(), AllocError> {
        for item in items {
            self.put_item(item)?;
        }
        Ok(())
    }

    fn put_item(&mut self, item: &Item) -> Result<(), AllocError> {
        match item {
            Pat => self.put_section(0, &[0, 0xB0, 0x0D, 0, 1, 0xC1, 0, 0, 0, 1, 0xE0, 0x20]),
            CuedMap => self.put_section(MAP, &CUED_MAP),
            Map => self.put_section(MAP, &PLAIN_MAP),
            CuedMaps => self.put_section(MAP, &CUED_MAPS),
            Maps => self.put_section(MAP, &PLAIN_MAPS),
            Video(pts) => self.put_unit(VIDEO, false, &network_unit(*pts)),
            Audio(pts) => self.put_unit(AUDIO, false, &network_unit(*pts)),
            Untimed => self.put_unit(VIDEO, false, &UNTIMED),
            Ad(pts) => self.put_unit(VIDEO, false, &advert_unit(*pts)),
            AdAudio(pts) => self.put_unit(AUDIO, false, &advert_unit(*pts)),
            AdAccess(pts) => self.put_unit(VIDEO, true, &advert_unit(*pts)),
            Twice(pts) => self.put_twice(VIDEO, START, &network_unit(*pts)),
            Field(pts, field) => self.put(VIDEO, START, field, &network_unit(*pts)),
            Alone(field) => self.put(VIDEO, 0, field, &[]),
            Other(byte) => self.put(OTHER, START, &[], &[*byte]),
            Long(pts) => self.put_long(*pts),
            Counter(counter) => {
                self.count_from(VIDEO, *counter);
                Ok(())
            }
            _ => self.put_cue(item),
        }
    }

    /// A unit of 200 bytes.
    fn put_long(&mut self, pts: u64) -> Result<(), AllocError> {
        let mut bytes = [0x4C; 200];
        bytes[..18].copy_from_slice(&network_unit(pts));
        self.put_unit(VIDEO, false, &bytes)
    }

    fn put_cue(&mut self, item: &Item) -> Result<(), AllocError> {
        match item {
            Start(event, at, length) => self.put_whole(start(*event, *at, *length, 7).as_slice()),
            StartOf(event, at, length, program) => {
                self.put_whole(start(*event, *at, *length, *program).as_slice())
            }
            End(event, at) => self.put_whole(cue_section(&CueOut::End {
                event: *event,
                time: time(*at),
            })
            .as_slice()),
            Cancel(event) => {
                self.put_whole(cue_section(&CueOut::Cancel { event: *event }).as_slice())
            }
            Raw(body) => self.put_section(CUES, body),
            Damaged(event, at, length) => {
                let mut bytes = payload(start(*event, *at, *length, 7).as_slice());
                bytes[40] ^= 1;
                self.put(CUES, START, &[], &bytes)
            }
            Cut(event, at, length) => self.put_cut(start(*event, *at, *length, 7).as_slice()),
            Marked(event, at, length) => {
                let bytes = payload(start(*event, *at, *length, 7).as_slice());
                self.put_bytes(&packet(CUES, START | MARKED, 0, &[], &bytes))
            }
            Pair(event, at, length) => self.put_pair(
                start(*event, *at, *length, 7).as_slice(),
                cue_section(&CueOut::Cancel { event: *event }).as_slice(),
            ),
            Changed(changes) => self.put_section(CUES, &changed(changes)),
            Lost => {
                self.count(CUES, true);
                Ok(())
            }
            _ => Ok(()),
        }
    }

    /// Puts two cues in one packet.
    fn put_pair(&mut self, first: &[u8], second: &[u8]) -> Result<(), AllocError> {
        let mut bytes = payload(first);
        let place = 1 + first.len().min(183);
        let size = second.len().min(184 - place);
        bytes[place..place + size].copy_from_slice(&second[..size]);
        self.put(CUES, START, &[], &bytes)
    }

    /// Puts a cue in one packet.
    fn put_whole(&mut self, section: &[u8]) -> Result<(), AllocError> {
        self.put(CUES, START, &[], &payload(section))
    }

    /// Puts a cue whose first two bytes stand in a packet of their own.
    fn put_cut(&mut self, section: &[u8]) -> Result<(), AllocError> {
        let (first, rest) = section.split_at(section.len().min(2));
        let mut bytes = [0; 3];
        bytes[1..1 + first.len()].copy_from_slice(first);
        self.put(CUES, START, &[], &bytes)?;
        self.put(CUES, 0, &[], rest)
    }
}

/// The section of the map with video, without its CRC_32.
const PLAIN_MAP: [u8; 17] = [
    0x02, 0xB0, 0x12, 0x00, 0x01, 0xC1, 0x00, 0x00, 0xE1, 0x00, 0xF0, 0x00, 0x1B, 0xE1, 0x00, 0xF0,
    0x00,
];

/// With its entry for cues.
const CUED_MAP: [u8; 28] = [
    0x02, 0xB0, 0x1D, 0x00, 0x01, 0xC1, 0x00, 0x00, 0xE1, 0x00, 0xF0, 0x06, 0x05, 0x04, 0x43, 0x55,
    0x45, 0x49, 0x1B, 0xE1, 0x00, 0xF0, 0x00, 0x86, 0xE1, 0xF0, 0xF0, 0x00,
];

/// The map with video and audio.
const PLAIN_MAPS: [u8; 22] = [
    0x02, 0xB0, 0x17, 0x00, 0x01, 0xC1, 0x00, 0x00, 0xE1, 0x00, 0xF0, 0x00, 0x1B, 0xE1, 0x00, 0xF0,
    0x00, 0x0F, 0xE1, 0x01, 0xF0, 0x00,
];

/// With its entry for cues.
const CUED_MAPS: [u8; 33] = [
    0x02, 0xB0, 0x22, 0x00, 0x01, 0xC1, 0x00, 0x00, 0xE1, 0x00, 0xF0, 0x06, 0x05, 0x04, 0x43, 0x55,
    0x45, 0x49, 0x1B, 0xE1, 0x00, 0xF0, 0x00, 0x0F, 0xE1, 0x01, 0xF0, 0x00, 0x86, 0xE1, 0xF0, 0xF0,
    0x00,
];
