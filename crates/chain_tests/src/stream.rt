//! A stream as it is made: its packets so far, and the counter of each PID.

use crate::packets::{START, packet, section};
use std::alloc::{AllocError, Global};

/// Packets of PIDs below 512, each PID with counters that go up by one with each payload packet.
#[derive(Drop)]
pub struct Stream {
    bytes: Vec<u8>,
    /// continuity_counter of the next payload packet, by PID.
    counters: [u8; 512],
}

impl Stream {
    ghost use Rattle.std.specs.Prelude.{◌≡◌, ◌+◌, vec_len, OnOk};

    /// No packets. The counters begin at 0.
    pub fn new(alloc: Global) -> Stream
        ensures { vec_len result.bytes ≡ 0 }
    {
        Stream {
            bytes: Vec::new(alloc),
            counters: [0; 512],
        }
    }

    /// The bytes of the packets so far.
    pub fn bytes(&self) -> &[u8] {
        self.bytes.as_slice()
    }

    /// The counter of the next packet of a PID. Where it has no payload it is that of the packet before.
    pub(crate) fn count(&mut self, pid: u16, has_payload: bool) -> u8
        ensures { self.new.bytes ≡ self.old.bytes }
    {
        let place = usize::from(pid % 512);
        let counter = self.counters[place];
        if has_payload {
            self.counters[place] = counter.wrapping_add(1);
            return counter;
        }
        counter.wrapping_sub(1)
    }

    /// The counter of the next payload packet of a PID is this one.
    pub(crate) fn count_from(&mut self, pid: u16, counter: u8) {
        self.counters[usize::from(pid % 512)] = counter;
    }

    /// Puts a packet.
    ///
    /// # Errors
    ///
    /// Where memory was refused.
    pub fn put(
        &mut self,
        pid: u16,
        flags: u8,
        field: &[u8],
        payload: &[u8],
    ) -> Result<(), AllocError>
        ensures { OnOk result (vec_len self.new.bytes ≡ vec_len self.old.bytes + 188) }
    {
        let counter = self.count(pid, !payload.is_empty());
        self.put_bytes(&packet(pid, flags, counter, field, payload))
    }

    /// Puts a packet and its duplicate.
    ///
    /// # Errors
    ///
    /// Where memory was refused.
    pub fn put_twice(&mut self, pid: u16, flags: u8, payload: &[u8]) -> Result<(), AllocError>
        ensures { OnOk result (vec_len self.new.bytes ≡ vec_len self.old.bytes + 376) }
    {
        let counter = self.count(pid, true);
        let bytes = packet(pid, flags, counter, &[], payload);
        self.put_bytes(&bytes)?;
        self.put_bytes(&bytes)
    }

    /// Puts the last packet once more, as its duplicate.
    ///
    /// # Errors
    ///
    /// Where memory was refused.
    pub fn double(&mut self) -> Result<(), AllocError>
        ensures { OnOk result (vec_len self.new.bytes ≡ vec_len self.old.bytes + 188) }
    {
        let mut last = [0; 188];
        let bytes = self.bytes.as_slice();
        if bytes.len() >= 188 {
            last.copy_from_slice(&bytes[bytes.len() - 188..]);
        }
        self.put_bytes(&last)
    }

    /// Puts a packet as it is.
    ///
    /// # Errors
    ///
    /// Where memory was refused.
    pub fn put_bytes(&mut self, bytes: &[u8; 188]) -> Result<(), AllocError>
        ensures { OnOk result (vec_len self.new.bytes ≡ vec_len self.old.bytes + 188) }
    {
        self.bytes.extend_from_slice(bytes)
    }

    /// Puts the packet of a section, with its CRC_32.
    ///
    /// # Errors
    ///
    /// Where memory was refused.
    pub fn put_section(&mut self, pid: u16, body: &[u8]) -> Result<(), AllocError>
        ensures { OnOk result (vec_len self.new.bytes ≡ vec_len self.old.bytes + 188) }
    {
        self.put(pid, START, &[], &section(body))
    }

    /// Puts a unit, whose first packet is marked for random access or not.
    ///
    /// # Errors
    ///
    /// Where memory was refused.
    pub fn put_unit(
        &mut self,
        pid: u16,
        random_access: bool,
        bytes: &[u8],
    ) -> Result<(), AllocError> {
        let (room, flags) = if random_access { (182, 0x40) } else { (184, 0) };
        let (first, rest) = bytes.split_at(bytes.len().min(room));
        self.put(pid, START, &[flags], first)?;
        for part in rest.chunks(184) {
            self.put(pid, 0, &[], part)?;
        }
        Ok(())
    }
}
