//! Writers that keep nothing of what they take but digests: one of packets, and one of text.

use std::io::{self, Write};

/// An odd number by which a lane of a digest is multiplied.
const FACTOR: u64 = 0x9E37_79B9_7F4A_7C15;

/// The lane with a word more.
#[inline]
fn fold(lane: u64, word: u64) -> u64 {
    (lane ^ word).wrapping_mul(FACTOR).rotate_left(29)
}

/// A digest of packets, which does not depend on how they are cut into writes.
#[derive(Clone, Copy, Debug)]
pub struct PacketDigest {
    lanes: [u64; 4],
    /// A packet of which the first bytes have come.
    part: [u8; 188],
    /// How many.
    held: usize,
    /// How many bytes have come.
    count: u64,
}

impl PacketDigest {
    /// The digest of nothing.
    pub fn new() -> PacketDigest {
        PacketDigest {
            lanes: [1, 2, 3, 4],
            part: [0; 188],
            held: 0,
            count: 0,
        }
    }

    /// How many bytes have come.
    pub fn count(&self) -> u64 {
        self.count
    }

    /// Folds a packet, as 23 words of eight bytes and one of four, the first of each least significant: the lanes take them by turns.
    #[inline]
    fn fold_packet(&mut self, packet: &[u8; 188]) {
        let [mut a, mut b, mut c, mut d] = self.lanes;
        let (words, tail) = packet.as_slice().as_chunks::<8>();
        let (quads, rest) = words.as_chunks::<4>();
        for [w, x, y, z] in quads {
            a = fold(a, u64::from_le_bytes(*w));
            b = fold(b, u64::from_le_bytes(*x));
            c = fold(c, u64::from_le_bytes(*y));
            d = fold(d, u64::from_le_bytes(*z));
        }
        if let ([x, y, z], [e, f, g, h]) = (rest, tail) {
            a = fold(a, u64::from_le_bytes(*x));
            b = fold(b, u64::from_le_bytes(*y));
            c = fold(c, u64::from_le_bytes(*z));
            d = fold(d, u64::from(u32::from_le_bytes([*e, *f, *g, *h])));
        }
        self.lanes = [a, b, c, d];
    }

    /// Takes the bytes that complete the packet of which a part has come, and answers those behind it.
    fn complete<'a>(&mut self, bytes: &'a [u8]) -> &'a [u8] {
        let count = 188_usize.saturating_sub(self.held).min(bytes.len());
        let (front, rest) = bytes.split_at(count);
        self.hold(front);
        if self.held >= 188 {
            let packet = self.part;
            self.fold_packet(&packet);
            self.held = 0;
        }
        rest
    }

    /// Keeps bytes of a packet that is not complete.
    fn hold(&mut self, bytes: &[u8]) {
        if let Some(room) = self.part.get_mut(self.held..) {
            for (to, from) in room.iter_mut().zip(bytes) {
                *to = *from;
            }
        }
        self.held = self.held.saturating_add(bytes.len());
    }

    /// The digest of all that has come: bytes that are no whole packet are folded one by one.
    pub fn sum(&self) -> u64 {
        let [a, b, c, d] = self.lanes;
        let mut sum = fold(fold(fold(fold(self.count, a), b), c), d);
        for byte in self.part.iter().take(self.held) {
            sum = fold(sum, u64::from(*byte));
        }
        sum
    }
}

impl Write for PacketDigest {
    fn write(&mut self, buf: &[u8]) -> io::Result<usize> {
        self.count = self.count.wrapping_add(buf.len() as u64);
        let rest = if self.held > 0 {
            self.complete(buf)
        } else {
            buf
        };
        let (packets, tail) = rest.as_chunks::<188>();
        for packet in packets {
            self.fold_packet(packet);
        }
        if !tail.is_empty() {
            self.hold(tail);
        }
        Ok(buf.len())
    }

    fn flush(&mut self) -> io::Result<()> {
        Ok(())
    }
}

/// A digest of text, byte by byte.
#[derive(Clone, Copy, Debug)]
pub struct TextDigest {
    sum: u64,
    count: u64,
}

impl TextDigest {
    /// The digest of nothing.
    pub fn new() -> TextDigest {
        TextDigest { sum: 5, count: 0 }
    }

    /// How many bytes have come.
    pub fn count(&self) -> u64 {
        self.count
    }

    /// The digest of all that has come.
    pub fn sum(&self) -> u64 {
        self.sum
    }
}

impl Write for TextDigest {
    fn write(&mut self, buf: &[u8]) -> io::Result<usize> {
        let mut sum = self.sum;
        for byte in buf {
            sum = fold(sum, u64::from(*byte));
        }
        self.sum = sum;
        self.count = self.count.wrapping_add(buf.len() as u64);
        Ok(buf.len())
    }

    fn flush(&mut self) -> io::Result<()> {
        Ok(())
    }
}
