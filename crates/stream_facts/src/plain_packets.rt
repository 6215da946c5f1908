//! The packets of a stream without what stands with each of them.

ghost use Rattle.std.specs.Prelude.{◌≤◌, length};

use crate::packet_size::{PacketSize, is_sync};
use std::alloc::{AllocError, Global};
use std::io::{self, ErrorKind, Read};

/// As many bytes are held: those that the size is known by, and each place behind which sync is looked for.
const HELD: usize = 16_384;

/// What comes next of a stream.
#[derive(Clone, Copy, Debug)]
struct Ahead {
    /// So many bytes are left out.
    out: usize,
    /// Then so many are given.
    given: usize,
    /// And behind them so many are left out.
    behind: usize,
}

impl Ahead {
    /// Nothing is known of it.
    fn nothing() -> Ahead {
        Ahead {
            out: 0,
            given: 0,
            behind: 0,
        }
    }
}

/// Reads a stream of packets of 188, 192 or 204 bytes, and gives the 188 of each. Which they are is seen from the first 16,384 bytes. Where no
/// sync byte stands in the place of the next one, sync is lost: then all bytes are given, up to where two of them stand as far apart as
/// packets are, so that what is in no packet stays to be seen. Packets of 188 bytes are given as they are.
#[derive(Drop)]
pub struct PlainPackets<R> {
    inner: R,
    /// The bytes that were read and are not given yet: from `start` up to `end`.
    held: Vec<u8>,
    start: usize,
    end: usize,
    has_ended: bool,
    size: Option<PacketSize>,
    is_lost: bool,
    ahead: Ahead,
}

impl<R> PlainPackets<R> {
    /// Over this reader, of which nothing was read.
    ///
    /// # Errors
    ///
    /// Where the allocator refused memory.
    pub fn new(alloc: Global, inner: R) -> Result<PlainPackets<R>, AllocError>
    where
        R: Drop,
    {
        let held = vec![in alloc; 0; HELD]?;
        Ok(PlainPackets {
            inner,
            held,
            start: 0,
            end: 0,
            has_ended: false,
            size: None,
            is_lost: true,
            ahead: Ahead::nothing(),
        })
    }

    /// The size of the packets; plain ones before the first read.
    pub fn size(&self) -> PacketSize {
        match self.size {
            Some(size) => size,
            None => PacketSize::Plain,
        }
    }

    /// The reader below.
    pub fn into_inner(self) -> R {
        let PlainPackets { inner, .. } = self;
        inner
    }

    /// The bytes that are held.
    fn window(&self) -> &[u8] {
        self.held.get(self.start..self.end).unwrap_or(&[])
    }

    /// Leaves out so many of the bytes that are held.
    fn pass(&mut self, count: usize) {
        self.start = self.start.saturating_add(count).min(self.end);
    }

    /// Gives as many of the bytes that are held as there is room for, of so many.
    fn give(&mut self, most: usize, buf: &mut [u8]) -> usize
        ensures { result ≤ length buf.old }
    {
        let window = self.window();
        let count = most.min(window.len()).min(buf.len());
        if let Some(from) = window.get(..count)
            && let Some(to) = buf.get_mut(..count)
        {
            to.copy_from_slice(from);
        }
        self.pass(count);
        count
    }

    /// What comes next where a packet is to begin: a packet with what stands with it, or bytes that are none.
    fn look(&mut self, size: PacketSize) {
        let front = size.front();
        let step = size.bytes();
        let window = self.window();
        if !self.is_lost && is_sync(window, front) {
            self.ahead = Ahead {
                out: front,
                given: 188,
                behind: size.back(),
            };
            return;
        }
        let loose = loose_bytes(window, front, step, self.has_ended);
        self.is_lost = loose != 0;
        self.ahead = if loose == 0 {
            Ahead {
                out: front,
                given: 188,
                behind: size.back(),
            }
        } else {
            Ahead {
                out: 0,
                given: loose,
                behind: 0,
            }
        };
    }

    /// Gives bytes of those that are held; none where more are to be read first, or at the end.
    fn give_some(&mut self, size: PacketSize, buf: &mut [u8]) -> usize
        ensures { result ≤ length buf.old }
    {
        if size == PacketSize::Plain {
            return self.give(HELD, buf);
        }
        for _ in 0..HELD {
            if self.ahead.out > 0 {
                let count = self.ahead.out.min(self.window().len());
                self.pass(count);
                self.ahead.out = self.ahead.out.saturating_sub(count);
            } else if self.ahead.given > 0 {
                let count = self.give(self.ahead.given, buf);
                self.ahead.given = self.ahead.given.saturating_sub(count);
                return count;
            } else if self.ahead.behind > 0 {
                self.ahead.out = self.ahead.behind;
                self.ahead.behind = 0;
            } else {
                self.look(size);
            }
            if self.window().is_empty() {
                return 0;
            }
        }
        0
    }
}

/// How many of these bytes are in no packet, where sync is lost: up to the first place behind which two sync bytes stand a packet apart, or
/// one and then the end.
fn loose_bytes(window: &[u8], front: usize, step: usize, has_ended: bool) -> usize {
    let next = step.saturating_add(front);
    let mut rest = window;
    let mut loose = 0;
    while let Some((_, after)) = rest.split_first() {
        if rest.len() <= next && !has_ended {
            return loose;
        }
        if is_sync(rest, front) && (rest.len() <= next || is_sync(rest, next)) {
            return loose;
        }
        rest = after;
        loose += 1;
    }
    loose
}

impl<R: Read> PlainPackets<R> {
    /// Reads until the room is full or the bytes end. The bytes that are held move to the front.
    ///
    /// # Errors
    ///
    /// The reader's. What was read until then stays held.
    fn fill(&mut self) -> io::Result<()> {
        let count = self.window().len();
        if self.start <= self.end && self.end <= self.held.len() {
            self.held.copy_within(self.start..self.end, 0);
        }
        self.start = 0;
        self.end = count;
        for _ in 0..u64::MAX {
            if self.end >= self.held.len() {
                return Ok(());
            }
            let count = self.inner.read(&mut self.held[self.end..])?;
            if count == 0 {
                self.has_ended = true;
                return Ok(());
            }
            self.end = self.end.saturating_add(count);
        }
        Ok(())
    }
}

impl<R: Read> Read for PlainPackets<R> {
    fn read(&mut self, buf: &mut [u8]) -> io::Result<usize> {
        if buf.is_empty() {
            return Ok(0);
        }
        for _ in 0..u64::MAX {
            if !self.has_ended && self.window().len() <= 512 {
                self.fill()?;
            }
            let size = match self.size {
                Some(size) => size,
                None => PacketSize::of_front(self.window()),
            };
            self.size = Some(size);
            let count = self.give_some(size, buf);
            if count > 0 || (self.has_ended && self.window().is_empty()) {
                return Ok(count);
            }
        }
        Err(io::Error::from(ErrorKind::Interrupted))
    }
}
