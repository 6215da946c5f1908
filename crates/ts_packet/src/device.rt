//! What bytes are read from and written to, with the counts that say what it did.

ghost use Rattle.std.specs.Prelude.{◌≡◌, ◌≢◌, ◌<◌, length, Ok, Err, IfOk, IfErr};
ghost use Rattle.std.specs.Io.{ReadsAtMost, WritesAtMost};
ghost use Rattle.std.specs.Io.KnownBytes.{ReadConsumes, WriteAppends};
ghost use Rattle.std.specs.IoError.{error_kind};
ghost use Rattle.ts_packet.specs.Transfers.{IsCounted, CountsFailure, CountsZero, halts};

use crate::gathering::GatheringTarget;
use crate::pausing::PausingSource;
use crate::tally::Tally;
use std::io::{self, BufRead, BufReader, BufWriter, ErrorKind, Read, Write};
use thiserror::Error;

/// Why a call of a device gave nothing.
#[derive(Clone, Copy, Debug, PartialEq, Eq, Drop, Error)]
pub enum DeviceFault {
    /// The call was interrupted, and may be made again.
    #[error("the call was interrupted")]
    Interrupted,
    /// The device failed.
    #[error("the device failed")]
    Failed,
}

/// What bytes are read from. It is never asked for no bytes, so that a read of none tells the end.
pub trait Source {
    ghost use Rattle.std.specs.Prelude.{◌≡◌, ℕ, ◌<◌, List, Option, length, true, false};
    ghost use Rattle.std.specs.Io.KnownBytes.{Consumes, ReadConsumes};
    ghost use Rattle.std.specs.Io.{ReadsAtMost};
    ghost use Rattle.ts_packet.specs.declared.tally.Tally.{Tally};
    ghost use Rattle.ts_packet.specs.Transfers.{IsCounted, CountsFailure, CountsZero, halts};

    /// The bytes that reads will give from here on, where they are known.
    ghost remaining: { Self → Option (List ℕ) };

    /// What it counts of its reads. A read that moved no byte was at the end.
    ghost counts: { Self → Tally };

    /// Fills `buf`, which is not empty, with bytes that lie ready, and answers whether it did. Where fewer lie ready, nothing has
    /// happened. It is no read, and is not counted.
    fn read_ready(&mut self, buf: &mut [u8]) -> bool
        requires some { 0 < length buf.old }
        ensures bytes { result ≡ true → Consumes (remaining self.old) (remaining self.new) buf.new }
        ensures counts { counts self.new ≡ counts self.old }
        ensures apart { result ≡ false → self.new ≡ self.old };

    /// Reads into the front of the buffer, which is not empty, and answers how many bytes; 0 only at the end.
    fn read(&mut self, buf: &mut [u8]) -> Result<usize, DeviceFault>
        requires some { 0 < length buf.old }
        ensures bound { ReadsAtMost result buf.new }
        ensures bytes { ReadConsumes (remaining self.old) (remaining self.new) result buf.new }
        ensures calls { IsCounted (counts self.old).calls (counts self.new).calls }
        ensures failures { CountsFailure result (counts self.old).failed (counts self.new).failed }
        ensures zeros { CountsZero result (counts self.old).zeros (counts self.new).zeros }
        ensures halted { (counts self.new).halted ≡ halts result };
}

/// What bytes are written to. It is never given none, so that a write of none tells that it is stuck.
pub trait Target {
    ghost use Rattle.std.specs.Prelude.{◌≡◌, ℕ, ◌<◌, List, Option, length};
    ghost use Rattle.std.specs.Io.KnownBytes.{WriteAppends};
    ghost use Rattle.std.specs.Io.{WritesAtMost};
    ghost use Rattle.ts_packet.specs.declared.tally.Tally.{Tally};
    ghost use Rattle.ts_packet.specs.Transfers.{IsCounted, CountsFailure, CountsZero, halts};

    /// The bytes that it holds, where they are known.
    ghost contents: { Self → Option (List ℕ) };

    /// What it counts of its writes.
    ghost counts: { Self → Tally };

    /// Writes a front of the buffer, which is not empty, and answers how many bytes it took.
    fn write(&mut self, buf: &[u8]) -> Result<usize, DeviceFault>
        requires some { 0 < length buf.now }
        ensures bound { WritesAtMost result buf.now }
        ensures bytes { WriteAppends (contents self.old) (contents self.new) result buf.now }
        ensures calls { IsCounted (counts self.old).calls (counts self.new).calls }
        ensures failures { CountsFailure result (counts self.old).failed (counts self.new).failed }
        ensures zeros { CountsZero result (counts self.old).zeros (counts self.new).zeros }
        ensures halted { (counts self.new).halted ≡ halts result };
}

/// A reader or a writer of std, with its counts.
#[derive(Drop)]
pub struct Device<T> {
    inner: T,
    tally: Tally,
}

impl<T> Device<T> {
    ghost use Rattle.std.specs.Prelude.{◌≡◌};
    ghost use Rattle.ts_packet.specs.Transfers.{no_tally};

    /// The device over this reader or writer, with no call made.
    pub fn new(inner: T) -> Device<T>
        ensures inner { result.inner ≡ inner }
        ensures tally { result.tally ≡ no_tally }
    {
        Device {
            inner,
            tally: Tally::new(),
        }
    }

    /// The reader or writer, as the calls left it.
    pub fn into_inner(self) -> T
        ensures { result ≡ self.inner }
    {
        let Device { inner, tally: _ } = self;
        inner
    }
}

/// Why a call gave nothing, by the error of std that it answered.
fn fault_of(error: &io::Error) -> DeviceFault
    ensures interrupted { error_kind error.now ≡ ErrorKind.Interrupted → result ≡ DeviceFault.Interrupted }
    ensures failed { error_kind error.now ≢ ErrorKind.Interrupted → result ≡ DeviceFault.Failed }
{
    if error.kind() == ErrorKind::Interrupted {
        DeviceFault::Interrupted
    } else {
        DeviceFault::Failed
    }
}

/// What a call of std answered, as a device answers it.
#[inline(always)]
fn answer_of(given: &io::Result<usize>) -> Result<usize, DeviceFault>
    ensures moved { IfOk given.now (λ n. result ≡ Ok n) }
    ensures interrupted { IfErr given.now (λ e. error_kind e ≡ ErrorKind.Interrupted →
        result ≡ Err DeviceFault.Interrupted) }
    ensures failed { IfErr given.now (λ e. error_kind e ≢ ErrorKind.Interrupted →
        result ≡ Err DeviceFault.Failed) }
{
    match given {
        Ok(n) => Ok(*n),
        Err(e) => Err(fault_of(e)),
    }
}

impl<R: Read> Source for Device<R> {
    ghost remaining = { λ d. R.remaining d.inner };

    ghost counts = { λ d. d.tally };

    /// Nothing lies ready.
    #[inline(always)]
    fn read_ready(&mut self, _buf: &mut [u8]) -> bool {
        false
    }

    #[inline(always)]
    fn read(&mut self, buf: &mut [u8]) -> Result<usize, DeviceFault> {
        let answer = answer_of(&self.inner.read(buf));
        self.tally.count(&answer);
        answer
    }
}

impl<R: Read> PausingSource for Device<R> {
    ghost use Rattle.std.specs.Prelude.{true, None};

    ghost may_wait = { λ d count. true };

    ghost first_ready = { λ d. None };

    fn may_wait(&self, _count: usize) -> bool {
        true
    }

    /// Nothing lies ready.
    fn first_ready(&self) -> Option<u8> {
        None
    }
}

/// A buffered reader of std, with its counts. The bytes that its buffer holds lie ready.
#[derive(Drop)]
pub struct Buffered<R: Read> {
    device: Device<BufReader<R>>,
    /// The reader never waits for more, as a file does not.
    is_steady: bool,
}

impl<R: Read> Buffered<R> {
    ghost use Rattle.std.specs.Prelude.{◌≡◌, true, false};
    ghost use Rattle.ts_packet.specs.Transfers.{no_tally};

    /// The device over this reader, which may pause, with no call made.
    pub fn new(reader: BufReader<R>) -> Buffered<R>
        ensures inner { result.device.inner ≡ reader }
        ensures tally { result.device.tally ≡ no_tally }
        ensures pauses { result.is_steady ≡ false }
    {
        Buffered {
            device: Device::new(reader),
            is_steady: false,
        }
    }

    /// The device over this reader, which never waits for more, as a file does not, with no call made.
    pub fn steady(reader: BufReader<R>) -> Buffered<R>
        ensures inner { result.device.inner ≡ reader }
        ensures tally { result.device.tally ≡ no_tally }
        ensures steady { result.is_steady ≡ true }
    {
        Buffered {
            device: Device::new(reader),
            is_steady: true,
        }
    }

    /// The buffered reader, as the calls left it.
    pub fn into_inner(self) -> BufReader<R>
        ensures { result ≡ self.device.inner }
    {
        let Buffered {
            device,
            is_steady: _,
        } = self;
        device.into_inner()
    }
}

impl<R: Read> Source for Buffered<R> {
    ghost use Rattle.std.specs.Prelude.{◌≡◌, length, nat_le, true, false};
    ghost use Rattle.std.specs.Io.Buffered.{reader_buffer, reader_remaining};
    ghost use Rattle.std.specs.Io.KnownBytes.{Consumes};

    ghost remaining = { λ b. reader_remaining R.remaining b.device.inner };

    ghost counts = { λ b. b.device.tally };

    /// Copies them out of the buffer of the reader, where that holds so many.
    #[inline(always)]
    fn read_ready(&mut self, buf: &mut [u8]) -> bool
        ensures ready { result ≡ nat_le (length buf.old) (length (reader_buffer self.old.device.inner)) }
        ensures bytes { result ≡ true → Consumes (reader_remaining R.remaining self.old.device.inner)
            (reader_remaining R.remaining self.new.device.inner) buf.new }
        ensures counts { self.new.device.tally ≡ self.old.device.tally }
        ensures apart { result ≡ false → self.new ≡ self.old }
    {
        let count = buf.len();
        if self.device.inner.buffer().len() < count {
            return false;
        }
        buf.copy_from_slice(&self.device.inner.buffer()[..count]);
        self.device.inner.consume(count);
        true
    }

    fn read(&mut self, buf: &mut [u8]) -> Result<usize, DeviceFault> {
        self.device.read(buf)
    }
}

impl<R: Read> PausingSource for Buffered<R> {
    ghost use Rattle.std.specs.Prelude.{length, nat_lt, not, ◌&&◌, slice_get};
    ghost use Rattle.std.specs.Io.Buffered.{reader_buffer};

    ghost may_wait = { λ b count. not b.is_steady && nat_lt (length (reader_buffer b.device.inner)) count };

    ghost first_ready = { λ b. slice_get (reader_buffer b.device.inner) 0 };

    #[inline(always)]
    fn may_wait(&self, count: usize) -> bool {
        !self.is_steady && self.device.inner.buffer().len() < count
    }

    #[inline(always)]
    fn first_ready(&self) -> Option<u8> {
        self.device.inner.buffer().first().copied()
    }
}

impl<W: io::Write> Target for Device<W> {
    ghost contents = { λ d. W.contents d.inner };

    ghost counts = { λ d. d.tally };

    #[inline(always)]
    fn write(&mut self, buf: &[u8]) -> Result<usize, DeviceFault> {
        let answer = answer_of(&self.inner.write(buf));
        self.tally.count(&answer);
        answer
    }
}

impl<W: io::Write> GatheringTarget for Device<W> {
    ghost use Rattle.std.specs.Prelude.{[]};
    ghost use Rattle.ts_packet.specs.Gathering.{appends-none};

    ghost sent = { λ d. W.contents d.inner };

    ghost gathered = { λ d. [] };

    ghost parts = { λ d. appends-none (W.contents d.inner) };

    /// Keeps nothing back.
    fn send(&mut self) -> bool {
        true
    }
}

/// A buffered writer of std, with its counts. A write for which the buffer has room copies its bytes, and calls nothing.
#[derive(Drop)]
pub struct Blocks<W: io::Write + Drop> {
    device: Device<BufWriter<W>>,
}

impl<W: io::Write + Drop> Blocks<W> {
    ghost use Rattle.std.specs.Prelude.{◌≡◌};
    ghost use Rattle.ts_packet.specs.Transfers.{no_tally};

    /// The device over this writer, with no call made.
    pub fn new(writer: BufWriter<W>) -> Blocks<W>
        ensures inner { result.device.inner ≡ writer }
        ensures tally { result.device.tally ≡ no_tally }
    {
        Blocks {
            device: Device::new(writer),
        }
    }

    /// The buffered writer, as the calls left it.
    pub fn into_inner(self) -> BufWriter<W>
        ensures { result ≡ self.device.inner }
    {
        let Blocks { device } = self;
        device.into_inner()
    }
}

impl<W: io::Write + Drop> Target for Blocks<W> {
    ghost use Rattle.std.specs.Io.Buffered.{writer_contents};

    ghost contents = { λ b. writer_contents W.contents b.device.inner };

    ghost counts = { λ b. b.device.tally };

    #[inline(always)]
    fn write(&mut self, buf: &[u8]) -> Result<usize, DeviceFault> {
        let writer = &self.device.inner;
        if buf.len() < writer.capacity() - writer.buffer().len() {
            return self.device.write(buf);
        }
        write_apart(&mut self.device, buf)
    }
}

impl<W: io::Write + Drop> GatheringTarget for Blocks<W> {
    ghost use Rattle.std.specs.Io.Buffered.{writer_buffer};
    ghost use Rattle.std.proofs.Common.{refl};

    ghost sent = { λ b. W.contents b.device.inner.inner };

    ghost gathered = { λ b. writer_buffer b.device.inner };

    ghost parts = { λ b. refl };

    /// Empties the buffer and flushes the writer below it, where the buffer holds something. A failure counts as a call that failed, and
    /// nothing else counts.
    fn send(&mut self) -> bool {
        if self.device.inner.buffer().is_empty() {
            return true;
        }
        if self.device.inner.flush().is_ok() {
            return true;
        }
        self.device.tally.count(&Err(DeviceFault::Failed));
        false
    }
}

/// Writes. It stands by itself, so that a write for which a buffer has room does not pay for the room that this one takes.
#[cold]
#[inline(never)]
fn write_apart<W: Target>(target: &mut W, buf: &[u8]) -> Result<usize, DeviceFault>
    requires some { 0 < length buf.now }
    ensures bound { WritesAtMost result buf.now }
    ensures bytes { WriteAppends (W.contents target.old) (W.contents target.new) result buf.now }
    ensures calls { IsCounted (W.counts target.old).calls (W.counts target.new).calls }
    ensures failures { CountsFailure result (W.counts target.old).failed (W.counts target.new).failed }
    ensures zeros { CountsZero result (W.counts target.old).zeros (W.counts target.new).zeros }
    ensures halted { (W.counts target.new).halted ≡ halts result }
{
    target.write(buf)
}
