//! Streams of two programs, packet by packet, each packet with a whole payload.

ghost use Rattle.std.specs.Prelude.{◌≡◌, ◌+◌, vec_len, IfOk, OnOk};
ghost use Rattle.two_program_streams.specs.Sizes.{item_size, size_of};

use psi_section::crc;
use std::alloc::{AllocError, Global};

/// What comes next in a stream. Times are ticks of 90 kHz below 2^33.
#[derive(Clone, Copy)]
pub enum Item {
    /// A PAT that lists program 1 with its map on PID 0x20 and program 2 on 0x21.
    Pat,
    /// A PAT that lists both with their maps on PID 0x20.
    OnePat,
    /// The map of this program, with these streams of video.
    Map(u8, &'static [u16]),
    /// A unit of the network on this PID, with this time.
    Unit(u16, u64),
    /// A scrambled packet of the network on this PID, which would begin a unit (transport_scrambling_control 10).
    Scrambled(u16),
    /// A unit of an advertisement.
    Ad(u16, u64),
    /// Nothing; the counters of this PID begin at 0 again.
    FromZero(u16),
}

/// The packets so far of PIDs below 512, each PID with counters that go up by one with each packet.
#[derive(Drop)]
pub struct Stream {
    bytes: Vec<u8>,
    /// continuity_counter of the next packet, by PID.
    counters: [u8; 512],
}

/// The unit with this PTS that fills a packet, its data being these bytes (ISO/IEC 13818-1, 2.4.3.6).
fn unit(pts: u64, data: u8) -> [u8; 184] {
    let mut bytes = [data; 184];
    bytes[..14].copy_from_slice(&[
        0,
        0,
        1,
        0xE0,
        0,
        0,
        0x80,
        0x80,
        5,
        0x21 | ((pts >> 29) & 0x0E) as u8,
        ((pts >> 22) & 0xFF) as u8,
        1 | ((pts >> 14) & 0xFE) as u8,
        ((pts >> 7) & 0xFF) as u8,
        1 | ((pts << 1) & 0xFE) as u8,
    ]);
    bytes
}

/// The payload in which this section of at most 179 bytes begins and ends, with its CRC_32.
fn payload(section: &[u8]) -> [u8; 184] {
    let mut bytes = [0xFF; 184];
    bytes[0] = 0;
    let size = section.len().min(179);
    bytes[1..1 + size].copy_from_slice(&section[..size]);
    bytes[1 + size..5 + size].copy_from_slice(&crc(&section[..size]).to_be_bytes());
    bytes
}

impl Stream {
    /// The stream of these items, whose counters begin at 0.
    ///
    /// # Errors
    ///
    /// Where memory was refused.
    #[tactic(auto, using(std::proofs::lemmas::List::Sums::sum_by_more))]
    pub fn of(alloc: Global, items: &[Item]) -> Result<Stream, AllocError>
        ensures { IfOk result (λ stream. vec_len stream.bytes ≡ size_of items.now) }
    {
        let mut stream = Stream {
            bytes: Vec::new(alloc),
            counters: [0; 512],
        };
        for item in items {
            stream.put_item(item)?;
        }
        Ok(stream)
    }

    /// The bytes of the packets.
    pub fn bytes(&self) -> &[u8]
        ensures { result.now ≡ self.now.bytes.items }
    {
        self.bytes.as_slice()
    }

    /// Puts a packet that begins a section or a unit, with these bits of transport_scrambling_control.
    fn put(&mut self, pid: u16, scrambling: u8, payload: &[u8; 184]) -> Result<(), AllocError>
        ensures { OnOk result (vec_len self.new.bytes ≡ vec_len self.old.bytes + 188) }
    {
        let place = usize::from(pid % 512);
        let counter = self.counters[place];
        self.counters[place] = counter.wrapping_add(1);
        let mut bytes = [0x47; 188];
        bytes[1] = 0x40 | ((pid / 256) & 0x1F) as u8;
        bytes[2] = (pid & 0xFF) as u8;
        bytes[3] = scrambling | 0x10 | (counter & 15);
        bytes[4..].copy_from_slice(payload);
        self.bytes.extend_from_slice(&bytes)
    }

    /// Puts a map with at most 20 streams of video.
    fn put_map(&mut self, program: u8, videos: &[u16]) -> Result<(), AllocError>
        ensures { OnOk result (vec_len self.new.bytes ≡ vec_len self.old.bytes + 188) }
    {
        let count = videos.len().min(20);
        let mut section = [0xF0; 112];
        let length = (13 + 5 * count) as u8;
        section[..12].copy_from_slice(&[
            2, 0xB0, length, 0, program, 0xC1, 0, 0, 0xFF, 0xFF, 0xF0, 0,
        ]);
        for place in 0..count {
            let [high, low] = videos[place].to_be_bytes();
            let at = 12 + 5 * place;
            section[at..at + 5].copy_from_slice(&[0x1B, 0xE0 | high, low, 0xF0, 0]);
        }
        let pid = u16::from(program).wrapping_add(0x1F);
        self.put(pid, 0, &payload(&section[..12 + 5 * count]))
    }

    /// Puts a PAT that lists program 1 with its map on PID 0x20, and program 2 with its map on this one, of 0x00 to 0xFF.
    fn put_pat(&mut self, second: u8) -> Result<(), AllocError>
        ensures { OnOk result (vec_len self.new.bytes ≡ vec_len self.old.bytes + 188) }
    {
        let section = [
            0, 0xB0, 0x11, 0, 1, 0xC1, 0, 0, 0, 1, 0xE0, 0x20, 0, 2, 0xE0, second,
        ];
        self.put(0, 0, &payload(&section))
    }

    /// Puts what this item says.
    fn put_item(&mut self, item: &Item) -> Result<(), AllocError>
        ensures { OnOk result (vec_len self.new.bytes ≡ vec_len self.old.bytes + item_size item.now) }
    {
        match *item {
            Item::Pat => self.put_pat(0x21),
            Item::OnePat => self.put_pat(0x20),
            Item::Map(program, videos) => self.put_map(program, videos),
            Item::Unit(pid, pts) => self.put(pid, 0, &unit(pts, 0x4E)),
            Item::Scrambled(pid) => self.put(pid, 0x80, &[0x53; 184]),
            Item::Ad(pid, pts) => self.put(pid, 0, &unit(pts, 0x41)),
            Item::FromZero(pid) => {
                self.counters[usize::from(pid % 512)] = 0;
                Ok(())
            }
        }
    }
}
