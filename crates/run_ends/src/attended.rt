//! A reader or a writer that remembers the system's last reason for a failure, counts its reads and flushes and remembers how the last flush
//! went.

use crate::flushes::Flushes;
use crate::reads::Reads;
use std::io::{self, ErrorKind, Read, Write};

/// How what was written to a writer was flushed.
#[derive(Drop)]
pub enum LastFlush {
    /// It was not: no flush came behind the last write.
    Due,
    /// It was, with nothing lost.
    Done,
    /// The flush failed, or the last bytes before it were not taken.
    Failed,
}

/// Reads or writes as what stands below it, and keeps the reason of the last call that failed for good.
#[derive(Drop)]
pub struct Attended<D> {
    inner: D,
    reason: Option<io::Error>,
    last_flush: LastFlush,
    flushes: Flushes,
    reads: Reads,
}

impl<D> Attended<D> {
    ghost use Rattle.std.specs.Prelude.{◌≡◌, ◌≢◌, None, Some};
    ghost use Rattle.std.specs.IoError.{error_kind};
    ghost use Rattle.run_ends.specs.Flushes.{no_flushes, is_done};
    ghost use Rattle.run_ends.specs.Reads.{none_made};

    /// The reader or writer as before its first call.
    fn uncalled(inner: D) -> Attended<D>
        ensures inner { result.inner ≡ inner }
        ensures reason { result.reason ≡ None }
        ensures due { result.last_flush ≡ LastFlush.Due }
        ensures flushes { result.flushes ≡ no_flushes }
        ensures reads { result.reads ≡ none_made }
    {
        Attended {
            inner,
            reason: None,
            last_flush: LastFlush::Due,
            flushes: Flushes::new(),
            reads: Reads::new(),
        }
    }

    /// Attends to this reader or writer.
    pub fn new(inner: D) -> Attended<D>
        ensures inner { result.inner ≡ inner }
        ensures reads { result.reads ≡ none_made }
    {
        Attended::uncalled(inner)
    }

    /// Keeps the reason, where the call may not be made again, and answers one of the same kind.
    fn keep(&mut self, error: io::Error) -> io::Error
        ensures inner { self.new.inner ≡ self.old.inner }
        ensures flush { self.new.last_flush ≡ self.old.last_flush }
        ensures flushes { self.new.flushes ≡ self.old.flushes }
        ensures reads { self.new.reads ≡ self.old.reads }
        ensures kind { error_kind result ≡ error_kind error }
        ensures reason { error_kind error ≢ ErrorKind.Interrupted → self.new.reason ≡ Some error }
        ensures again { error_kind error ≡ ErrorKind.Interrupted → self.new.reason ≡ self.old.reason }
    {
        let kind = error.kind();
        if kind == ErrorKind::Interrupted {
            return error;
        }
        self.reason = Some(error);
        io::Error::from(kind)
    }

    /// Whether all that was written is out: the last flush went well, and nothing was written behind it.
    pub fn is_flushed(&self) -> bool
        ensures { result ≡ is_done self.now.last_flush }
    {
        match self.last_flush {
            LastFlush::Done => true,
            LastFlush::Due | LastFlush::Failed => false,
        }
    }

    /// The reader or writer that is attended to, and the reason of the last call that failed.
    pub fn into_parts(self) -> (D, Option<io::Error>)
        ensures inner { result.0 ≡ self.inner }
        ensures reason { result.1 ≡ self.reason }
    {
        let Attended {
            inner,
            reason,
            last_flush: _,
            flushes: _,
            reads: _,
        } = self;
        (inner, reason)
    }

    /// The reason of the last call that failed.
    pub fn into_reason(self) -> Option<io::Error>
    where
        D: Drop,
        ensures { result ≡ self.reason }
    {
        let Attended {
            inner: _,
            reason,
            last_flush: _,
            flushes: _,
            reads: _,
        } = self;
        reason
    }
}

impl<R: Read> Read for Attended<R> {
    ghost use Rattle.std.specs.Io.{ReadsAtMost};
    ghost use Rattle.std.specs.Io.KnownBytes.{ReadConsumes};
    ghost use Rattle.run_ends.specs.Reads.{CountsCall};

    ghost remaining = { λ a. R.remaining a.inner };

    fn read(&mut self, buf: &mut [u8]) -> io::Result<usize>
        ensures bound { ReadsAtMost result buf.new }
        ensures bytes { ReadConsumes (R.remaining self.old.inner) (R.remaining self.new.inner) result buf.new }
        ensures counted { CountsCall result self.old.reads self.new.reads }
    {
        let answer = self.inner.read(buf);
        self.reads.count(&answer);
        match answer {
            Ok(count) => Ok(count),
            Err(error) => Err(self.keep(error)),
        }
    }
}

impl<W: Write> Attended<W> {
    ghost use Rattle.std.specs.Prelude.{◌≡◌, OnOk};
    ghost use Rattle.std.specs.Io.KnownBytes.{Appends};
    ghost use Rattle.run_ends.specs.Flushes.{flush_told, WasFlushed};

    /// Writes these last bytes and flushes.
    pub(crate) fn flush_behind(&mut self, rest: &[u8]) -> io::Result<()>
        ensures bytes { OnOk result (Appends (W.contents self.old.inner) (W.contents self.new.inner) rest.now) }
        ensures told { self.new.last_flush ≡ flush_told result }
        ensures counted { OnOk result (WasFlushed self.old.flushes self.new.flushes) }
    {
        match self.write_all(rest) {
            Ok(()) => self.flush(),
            Err(error) => {
                self.last_flush = LastFlush::Failed;
                Err(error)
            }
        }
    }
}

impl<W: Write> Write for Attended<W> {
    ghost use Rattle.std.specs.Prelude.{◌≡◌, OnOk};
    ghost use Rattle.std.specs.Io.{WritesAtMost};
    ghost use Rattle.std.specs.Io.KnownBytes.{Appends, Keeps, WriteAppends};
    ghost use Rattle.run_ends.specs.Flushes.{flush_told, CountsFlush};

    ghost contents = { λ a. W.contents a.inner };

    fn write(&mut self, buf: &[u8]) -> io::Result<usize>
        ensures bound { WritesAtMost result buf.now }
        ensures bytes { WriteAppends (W.contents self.old.inner) (W.contents self.new.inner) result buf.now }
        ensures due { self.new.last_flush ≡ LastFlush.Due }
        ensures flushes { self.new.flushes ≡ self.old.flushes }
    {
        self.last_flush = LastFlush::Due;
        match self.inner.write(buf) {
            Ok(count) => Ok(count),
            Err(error) => Err(self.keep(error)),
        }
    }

    fn write_all(&mut self, buf: &[u8]) -> io::Result<()>
        ensures bytes { OnOk result (Appends (W.contents self.old.inner) (W.contents self.new.inner) buf.now) }
        ensures due { self.new.last_flush ≡ LastFlush.Due }
        ensures flushes { self.new.flushes ≡ self.old.flushes }
    {
        self.last_flush = LastFlush::Due;
        match self.inner.write_all(buf) {
            Ok(()) => Ok(()),
            Err(error) => Err(self.keep(error)),
        }
    }

    fn flush(&mut self) -> io::Result<()>
        ensures bytes { Keeps (W.contents self.old.inner) (W.contents self.new.inner) }
        ensures told { self.new.last_flush ≡ flush_told result }
        ensures counted { CountsFlush result self.old.flushes self.new.flushes }
    {
        let answer = self.inner.flush();
        self.flushes.count(&answer);
        match answer {
            Ok(()) => {
                self.last_flush = LastFlush::Done;
                Ok(())
            }
            Err(error) => {
                self.last_flush = LastFlush::Failed;
                Err(self.keep(error))
            }
        }
    }
}
