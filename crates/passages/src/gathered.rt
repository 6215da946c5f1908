//! A writer that gathers what it takes, in memory that was taken before it had a writer: where there is no memory, no writer is lost.

ghost use Rattle.std.specs.Prelude.{◌≡◌, ◌≤◌, length, take, drop, vec_len};
ghost use Rattle.std.specs.Bool.{OnTrue};
ghost use Rattle.std.specs.Io.KnownBytes.{Appends};

use std::io::{self, ErrorKind, Write};
use ts_packet::transfer::MAX_TURNS;
use ts_packet::{DeviceFault, GatheringTarget, Tally, Target};

/// What a writer's error says of the call that gave it.
fn fault_of(error: &io::Error) -> DeviceFault {
    if error.kind() == ErrorKind::Interrupted {
        DeviceFault::Interrupted
    } else {
        DeviceFault::Failed
    }
}

/// Writes the bytes, and answers how many the writer took, and whether it took them all. An interrupted write is tried again.
fn write_out<W: Write>(writer: &mut W, bytes: &[u8]) -> (usize, bool)
    ensures bound { result.0 ≤ length bytes.now }
    ensures all { OnTrue result.1 (result.0 ≡ length bytes.now) }
    ensures bytes { Appends (W.contents writer.old) (W.contents writer.new) (take result.0 bytes.now) }
{
    let mut at = 0;
    for _turn in 0..MAX_TURNS {
        if at == bytes.len() {
            return (at, true);
        }
        match writer.write(&bytes[at..]) {
            Ok(0) => return (at, false),
            Ok(n) => at += n,
            Err(error) => {
                if fault_of(&error) == DeviceFault::Failed {
                    return (at, false);
                }
            }
        }
    }
    (at, false)
}

/// Drops these many bytes at the front.
fn remove_front(buffer: &mut Vec<u8>, n: usize)
    requires { n ≤ vec_len buffer.old }
    ensures { buffer.new.items ≡ drop n buffer.old.items }
{
    let len = buffer.len();
    buffer.as_mut_slice().copy_within(n..len, 0);
    buffer.truncate(len - n);
}

/// Gathers bytes for a writer, with the counts of its own calls. A write for which there is room copies its bytes, and calls nothing.
#[derive(Drop)]
pub struct Gathered<W> {
    inner: W,
    buffer: Vec<u8>,
    tally: Tally,
}

impl<W> Gathered<W> {
    ghost use Rattle.std.specs.Prelude.{◌≡◌};
    ghost use Rattle.ts_packet.specs.Transfers.{no_tally};

    /// Gathers for this writer, behind what the buffer holds, as far as that reaches.
    pub fn new(buffer: Vec<u8>, inner: W) -> Gathered<W>
        ensures inner { result.inner ≡ inner }
        ensures buffer { result.buffer ≡ buffer }
        ensures tally { result.tally ≡ no_tally }
    {
        Gathered {
            inner,
            buffer,
            tally: Tally::new(),
        }
    }

    /// The writer, and the bytes that it has not got. Nothing is written here.
    pub fn into_parts(self) -> (W, Vec<u8>)
        ensures inner { result.0 ≡ self.inner }
        ensures buffer { result.1 ≡ self.buffer }
    {
        let Gathered {
            inner,
            buffer,
            tally: _,
        } = self;
        (inner, buffer)
    }
}

impl<W: Write> Gathered<W> {
    ghost use Rattle.std.specs.Prelude.{◌≡◌, [], length};
    ghost use Rattle.std.specs.Bool.{OnTrue};
    ghost use Rattle.std.specs.Io.{WritesAtMost};
    ghost use Rattle.std.specs.Io.KnownBytes.{Keeps, WriteAppends, append_known};

    /// Writes what was gathered, and answers whether all of it is out. Else the rest stays.
    fn empty(&mut self) -> bool
        ensures bytes { Keeps (append_known (W.contents self.old.inner) self.old.buffer.items)
            (append_known (W.contents self.new.inner) self.new.buffer.items) }
        ensures all { OnTrue result (self.new.buffer.items ≡ []) }
        ensures tally { self.new.tally ≡ self.old.tally }
    {
        let (count, is_all) = write_out(&mut self.inner, self.buffer.as_slice());
        remove_front(&mut self.buffer, count);
        is_all
    }

    /// Takes the bytes into the buffer, which has room for them.
    #[inline(always)]
    fn gather(&mut self, buf: &[u8]) -> Result<usize, DeviceFault>
        ensures bound { WritesAtMost result buf.now }
        ensures bytes { WriteAppends (append_known (W.contents self.old.inner) self.old.buffer.items)
            (append_known (W.contents self.new.inner) self.new.buffer.items) result buf.now }
        ensures tally { self.new.tally ≡ self.old.tally }
    {
        match self.buffer.extend_from_slice(buf) {
            Ok(()) => Ok(buf.len()),
            Err(_) => Err(DeviceFault::Failed),
        }
    }

    /// Takes bytes for which there is no room.
    #[cold]
    #[inline(never)]
    fn take_apart(&mut self, buf: &[u8]) -> Result<usize, DeviceFault>
        ensures bound { WritesAtMost result buf.now }
        ensures bytes { WriteAppends (append_known (W.contents self.old.inner) self.old.buffer.items)
            (append_known (W.contents self.new.inner) self.new.buffer.items) result buf.now }
        ensures tally { self.new.tally ≡ self.old.tally }
    {
        if !self.empty() {
            return Err(DeviceFault::Failed);
        }
        if buf.len() < self.buffer.capacity() {
            return self.gather(buf);
        }
        match self.inner.write(buf) {
            Ok(n) => Ok(n),
            Err(error) => Err(fault_of(&error)),
        }
    }
}

impl<W: Write> Target for Gathered<W> {
    ghost use Rattle.std.specs.Io.KnownBytes.{append_known};

    ghost contents = { λ g. append_known (W.contents g.inner) g.buffer.items };

    ghost counts = { λ g. g.tally };

    #[inline(always)]
    fn write(&mut self, buf: &[u8]) -> Result<usize, DeviceFault> {
        if buf.len() < self.buffer.capacity() - self.buffer.len() {
            let answer = self.gather(buf);
            self.tally.count(&answer);
            return answer;
        }
        let answer = self.take_apart(buf);
        self.tally.count(&answer);
        answer
    }
}

impl<W: Write> GatheringTarget for Gathered<W> {
    ghost use Rattle.std.proofs.Common.{refl};

    ghost sent = { λ g. W.contents g.inner };

    ghost gathered = { λ g. g.buffer.items };

    ghost parts = { λ g. refl };

    /// Writes what was gathered and flushes the writer below, where anything was. A failure counts as a call that failed, and nothing else
    /// counts.
    fn send(&mut self) -> bool {
        if self.buffer.is_empty() {
            return true;
        }
        if self.empty() && self.inner.flush().is_ok() {
            return true;
        }
        self.tally.count(&Err(DeviceFault::Failed));
        false
    }
}
