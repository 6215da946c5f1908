//! Streams of two programs, packet by packet, each packet with a whole payload.

use psi_section::crc;
use std::alloc::{AllocError, Global};

/// H.264 video.
pub(crate) const AVC: u8 = 0x1B;

/// AAC audio.
pub(crate) const AAC: u8 = 0x0F;

/// What comes next in a stream. Times are ticks of 90 kHz below 2^33.
#[derive(Clone, Copy)]
pub(crate) enum Item {
    /// A PAT that lists program 1 with its map on PID 0x20 and program 2 on 0x21.
    Pat,
    /// The map of this program, with these streams: of each the stream_type and the PID.
    Map(u8, &'static [(u8, u16)]),
    /// A unit on this PID, with this time.
    Unit(u16, u64),
    /// A unit on this PID, with this time, that is a random access point (random_access_indicator).
    Point(u16, u64),
    /// A unit on this PID, with this time, that is a random access point, whose picture begins with a slice of no IDR picture (ISO/IEC 14496-10).
    Open(u16, u64),
    /// A scrambled packet on this PID, which would begin a unit (transport_scrambling_control 10).
    Scrambled(u16),
    /// A null packet.
    Null,
}

/// The packets so far of PIDs below 512, each PID with counters that go up by one with each packet.
#[derive(Drop)]
pub(crate) struct Stream {
    bytes: Vec<u8>,
    /// continuity_counter of the next packet, by PID.
    counters: [u8; 512],
}

/// The first bytes of a unit with this PTS (ISO/IEC 13818-1, 2.4.3.6).
fn head(pts: u64) -> [u8; 14] {
    [
        0,
        0,
        1,
        0xE0,
        0,
        0,
        0x80,
        0x80,
        5,
        0x21 | ((pts >> 29) & 0x0E) as u8,
        ((pts >> 22) & 0xFF) as u8,
        1 | ((pts >> 14) & 0xFE) as u8,
        ((pts >> 7) & 0xFF) as u8,
        1 | ((pts << 1) & 0xFE) as u8,
    ]
}

/// The unit with this PTS that fills a packet.
fn unit(pts: u64) -> [u8; 184] {
    let mut bytes = [0x4E; 184];
    bytes[..14].copy_from_slice(&head(pts));
    bytes
}

/// Likewise, behind an adaptation field of two bytes in which random_access_indicator is set.
fn point(pts: u64) -> [u8; 184] {
    let mut bytes = [0x4E; 184];
    bytes[0] = 1;
    bytes[1] = 0x40;
    bytes[2..16].copy_from_slice(&head(pts));
    bytes
}

/// The payload in which this section of at most 179 bytes begins and ends, with its CRC_32.
fn payload(section: &[u8]) -> [u8; 184] {
    let mut bytes = [0xFF; 184];
    bytes[0] = 0;
    let size = section.len().min(179);
    bytes[1..1 + size].copy_from_slice(&section[..size]);
    bytes[1 + size..5 + size].copy_from_slice(&crc(&section[..size]).to_be_bytes());
    bytes
}

impl Stream {
    /// The stream of these items, whose counters begin at 0.
    ///
    /// # Errors
    ///
    /// Where memory was refused.
    pub(crate) fn of(alloc: Global, items: &[Item]) -> Result<Stream, AllocError> {
        let mut stream = Stream {
            bytes: Vec::new(alloc),
            counters: [0; 512],
        };
        for item in items {
            stream.put_item(item)?;
        }
        Ok(stream)
    }

    /// The bytes of the packets.
    pub(crate) fn bytes(&self) -> &[u8] {
        self.bytes.as_slice()
    }

    /// Puts a packet that begins a section or a unit, with these bits of transport_scrambling_control and adaptation_field_control.
    fn put(&mut self, pid: u16, control: u8, rest: &[u8; 184]) -> Result<(), AllocError> {
        let place = usize::from(pid % 512);
        let counter = self.counters[place];
        self.counters[place] = counter.wrapping_add(1);
        let mut bytes = [0x47; 188];
        bytes[1] = 0x40 | ((pid / 256) & 0x1F) as u8;
        bytes[2] = (pid & 0xFF) as u8;
        bytes[3] = control | (counter & 15);
        bytes[4..].copy_from_slice(rest);
        self.bytes.extend_from_slice(&bytes)
    }

    /// Puts a map with at most 20 streams.
    fn put_map(&mut self, program: u8, streams: &[(u8, u16)]) -> Result<(), AllocError> {
        let count = streams.len().min(20);
        let mut section = [0xF0; 112];
        let length = (13 + 5 * count) as u8;
        section[..12].copy_from_slice(&[
            2, 0xB0, length, 0, program, 0xC1, 0, 0, 0xFF, 0xFF, 0xF0, 0,
        ]);
        for place in 0..count {
            let (kind, pid) = streams[place];
            let [high, low] = pid.to_be_bytes();
            let at = 12 + 5 * place;
            section[at..at + 5].copy_from_slice(&[kind, 0xE0 | high, low, 0xF0, 0]);
        }
        let pid = u16::from(program).wrapping_add(0x1F);
        self.put(pid, 0x10, &payload(&section[..12 + 5 * count]))
    }

    fn put_item(&mut self, item: &Item) -> Result<(), AllocError> {
        match *item {
            Item::Pat => {
                let section = [
                    0, 0xB0, 0x11, 0, 1, 0xC1, 0, 0, 0, 1, 0xE0, 0x20, 0, 2, 0xE0, 0x21,
                ];
                self.put(0, 0x10, &payload(&section))
            }
            Item::Map(program, streams) => self.put_map(program, streams),
            Item::Unit(pid, pts) => self.put(pid, 0x10, &unit(pts)),
            Item::Point(pid, pts) => self.put(pid, 0x30, &point(pts)),
            Item::Open(pid, pts) => {
                let mut rest = point(pts);
                rest[16..20].copy_from_slice(&[0, 0, 1, 0x41]);
                self.put(pid, 0x30, &rest)
            }
            Item::Scrambled(pid) => self.put(pid, 0x90, &[0x53; 184]),
            Item::Null => self.put(0x1FFF, 0x10, &[0xFF; 184]),
        }
    }
}
