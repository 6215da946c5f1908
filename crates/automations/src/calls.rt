//! Calls of the devices of an automation, counted by what became of them: the reads of its requests, and the writes of its replies.

ghost use Rattle.std.specs.Prelude.{◌≡◌};
ghost use Rattle.automations.specs.Calls.{no_reads, no_writes, CountsRead, found_nothing};

use std::io::{self, ErrorKind, Read, Write};

/// What became of reads. Each count stops at the greatest u64.
#[derive(Clone, Copy, Debug, PartialEq, Eq, Drop)]
pub(crate) struct ReadCounts {
    /// All that were made.
    made: u64,
    /// Those that gave no byte: the reader has ended.
    ended: u64,
    /// Those that found nothing, and may be made again.
    idle: u64,
    /// Those that failed for good.
    failed: u64,
}

/// Whether a call that failed so found nothing, and may be made again.
pub(crate) fn is_nothing(kind: ErrorKind) -> bool
    ensures { result ≡ found_nothing kind }
{
    match kind {
        ErrorKind::WouldBlock | ErrorKind::TimedOut | ErrorKind::Interrupted => true,
        _ => false,
    }
}

impl ReadCounts {
    /// Of no reads.
    fn new() -> ReadCounts
        ensures { result ≡ no_reads }
    {
        ReadCounts {
            made: 0,
            ended: 0,
            idle: 0,
            failed: 0,
        }
    }

    /// Counts a read that answered so.
    #[inline(always)]
    fn count(&mut self, answer: &io::Result<usize>)
        ensures { CountsRead answer.now self.old self.new }
    {
        self.made = self.made.saturating_add(1);
        match answer {
            Ok(0) => self.ended = self.ended.saturating_add(1),
            Ok(_) => {}
            Err(error) => {
                if is_nothing(error.kind()) {
                    self.idle = self.idle.saturating_add(1);
                } else {
                    self.failed = self.failed.saturating_add(1);
                }
            }
        }
    }
}

/// What requests are read from, and what became of the reads.
#[derive(Drop)]
pub(crate) struct Requests<R> {
    reader: R,
    counts: ReadCounts,
}

impl<R> Requests<R> {
    /// Requests from this reader, which was not read.
    pub(crate) fn new(reader: R) -> Requests<R>
        ensures reader { result.reader ≡ reader }
        ensures reads { result.counts ≡ no_reads }
    {
        Requests {
            reader,
            counts: ReadCounts::new(),
        }
    }
}

impl<R: Read> Requests<R> {
    ghost use Rattle.std.specs.Io.{ReadsAtMost};
    ghost use Rattle.std.specs.Io.KnownBytes.{ReadConsumes};

    /// Reads into the front of the room, as the reader does.
    #[inline(always)]
    pub(crate) fn read(&mut self, room: &mut [u8]) -> io::Result<usize>
        ensures bound { ReadsAtMost result room.new }
        ensures bytes { ReadConsumes (R.remaining self.old.reader) (R.remaining self.new.reader) result room.new }
        ensures counted { CountsRead result self.old.counts self.new.counts }
    {
        let answer = self.reader.read(room);
        self.counts.count(&answer);
        answer
    }
}

/// What became of the calls that write replies. Each count stops at the greatest u64.
#[derive(Clone, Copy, Debug, PartialEq, Eq, Drop)]
pub(crate) struct WriteCounts {
    /// Writes of a part of a reply.
    writes: u64,
    /// Flushes that went well.
    flushed: u64,
    /// Writes and flushes that failed, but for writes that may be made again, and writes that took no byte.
    failed: u64,
}

impl WriteCounts {
    /// Of no calls.
    fn new() -> WriteCounts
        ensures { result ≡ no_writes }
    {
        WriteCounts {
            writes: 0,
            flushed: 0,
            failed: 0,
        }
    }
}

/// What replies are written to, and what became of the calls.
#[derive(Drop)]
pub(crate) struct Replies<W> {
    writer: W,
    counts: WriteCounts,
}

impl<W> Replies<W> {
    /// Replies to this writer, to which none was written.
    pub(crate) fn new(writer: W) -> Replies<W>
        ensures writer { result.writer ≡ writer }
        ensures writes { result.counts ≡ no_writes }
    {
        Replies {
            writer,
            counts: WriteCounts::new(),
        }
    }
}

impl<W: Write> Write for Replies<W> {
    ghost use Rattle.std.specs.Prelude.{OnOk};
    ghost use Rattle.std.specs.Io.{WritesAtMost};
    ghost use Rattle.std.specs.Io.KnownBytes.{Appends, Keeps, WriteAppends};
    ghost use Rattle.automations.specs.Calls.{CountsWrite, CountsWhole, CountsFlush};

    ghost contents = { λ r. W.contents r.writer };

    fn write(&mut self, buf: &[u8]) -> io::Result<usize>
        ensures bound { WritesAtMost result buf.now }
        ensures bytes { WriteAppends (W.contents self.old.writer) (W.contents self.new.writer) result buf.now }
        ensures counted { CountsWrite result self.old.counts self.new.counts }
    {
        let answer = self.writer.write(buf);
        self.counts.writes = self.counts.writes.saturating_add(1);
        let has_failed = match &answer {
            Ok(count) => *count == 0,
            Err(error) => error.kind() != ErrorKind::Interrupted,
        };
        if has_failed {
            self.counts.failed = self.counts.failed.saturating_add(1);
        }
        answer
    }

    fn write_all(&mut self, buf: &[u8]) -> io::Result<()>
        ensures bytes { OnOk result (Appends (W.contents self.old.writer) (W.contents self.new.writer) buf.now) }
        ensures counted { CountsWhole result self.old.counts self.new.counts }
    {
        let answer = self.writer.write_all(buf);
        if answer.is_err() {
            self.counts.failed = self.counts.failed.saturating_add(1);
        }
        answer
    }

    fn flush(&mut self) -> io::Result<()>
        ensures bytes { Keeps (W.contents self.old.writer) (W.contents self.new.writer) }
        ensures counted { CountsFlush result self.old.counts self.new.counts }
    {
        let answer = self.writer.flush();
        if answer.is_err() {
            self.counts.failed = self.counts.failed.saturating_add(1);
        } else {
            self.counts.flushed = self.counts.flushed.saturating_add(1);
        }
        answer
    }
}
