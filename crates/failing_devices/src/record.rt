//! Two devices of one run that stand in one record: what is read and what is written have one order.

use std::alloc::Global;
use std::cell::Cell;
use std::io::{self, ErrorKind, Read, Write};

/// How far both ends of a run are.
#[derive(Clone, Copy, Debug)]
pub struct Moment {
    /// How many bytes its source gave.
    pub given: usize,
    /// How many bytes its target took.
    pub written: usize,
    /// In how many writes.
    pub writes: usize,
    /// How often the target was flushed.
    pub flushes: usize,
}

/// What both ends of a run did so far.
#[derive(Drop)]
pub struct Record {
    moment: Cell<Moment>,
    has_failed: Cell<bool>,
}

impl Record {
    /// Nothing was done.
    pub fn new() -> Record {
        Record {
            moment: Cell::new(Moment {
                given: 0,
                written: 0,
                writes: 0,
                flushes: 0,
            }),
            has_failed: Cell::new(false),
        }
    }

    /// How far both ends are.
    pub fn moment(&self) -> Moment {
        self.moment.get()
    }
}

/// Gives bytes in pieces of these sizes, one a read, and keeps how far the run was at each read.
#[derive(Drop)]
pub struct RecordedSource<'a> {
    rest: &'a [u8],
    sizes: &'a [usize],
    record: &'a Record,
    moments: Vec<Moment>,
    late_reads: usize,
}

impl<'a> RecordedSource<'a> {
    /// These bytes in pieces of these sizes; behind them a read gives as much as it has room for.
    pub fn new(
        alloc: Global,
        bytes: &'a [u8],
        sizes: &'a [usize],
        record: &'a Record,
    ) -> RecordedSource<'a> {
        RecordedSource {
            rest: bytes,
            sizes,
            record,
            moments: Vec::new(alloc),
            late_reads: 0,
        }
    }

    /// How far the run was at each read, before it.
    pub fn moments(&self) -> &[Moment] {
        self.moments.as_slice()
    }

    /// How many reads were made after the target had failed.
    pub fn late_reads(&self) -> usize {
        self.late_reads
    }
}

impl Read for RecordedSource<'_> {
    fn read(&mut self, buf: &mut [u8]) -> io::Result<usize> {
        let mut moment = self.record.moment();
        self.moments.push(moment)?;
        if self.record.has_failed.get() {
            self.late_reads = self.late_reads.saturating_add(1);
        }
        let mut size = usize::MAX;
        if let Some((first, sizes)) = self.sizes.split_first() {
            size = *first;
            self.sizes = sizes;
        }
        let count = size.min(buf.len()).min(self.rest.len());
        let (front, rest) = self.rest.split_at(count);
        buf[..count].copy_from_slice(front);
        self.rest = rest;
        moment.given = moment.given.saturating_add(count);
        self.record.moment.set(moment);
        Ok(count)
    }
}

/// Which calls of a target fail: those from the first number on, counted from 0, up to the last, which goes well again.
#[derive(Clone, Copy)]
pub struct Failing {
    pub first: usize,
    pub last: usize,
}

impl Failing {
    /// No call fails.
    pub fn never() -> Failing {
        Failing { first: 0, last: 0 }
    }

    /// This call fails, and those behind it go well.
    pub fn once(at: usize) -> Failing {
        Failing {
            first: at,
            last: at.saturating_add(1),
        }
    }

    /// This call fails, and all behind it.
    pub fn from(at: usize) -> Failing {
        Failing {
            first: at,
            last: usize::MAX,
        }
    }

    /// Whether the call with this number fails.
    fn has(&self, number: usize) -> bool {
        self.first <= number && number < self.last
    }
}

/// Takes whatever it is given, but where a call is to fail, and keeps how many bytes were out behind each good call.
#[derive(Drop)]
pub struct RecordedTarget<'a> {
    taken: Vec<u8>,
    record: &'a Record,
    writes: Failing,
    flushes: Failing,
    written: Vec<usize>,
    flushed: Vec<usize>,
}

impl<'a> RecordedTarget<'a> {
    /// A target that has taken no byte, and whose writes and flushes fail so.
    pub fn new(
        alloc: Global,
        record: &'a Record,
        writes: Failing,
        flushes: Failing,
    ) -> RecordedTarget<'a> {
        RecordedTarget {
            taken: Vec::new(alloc),
            record,
            writes,
            flushes,
            written: Vec::new(alloc),
            flushed: Vec::new(alloc),
        }
    }

    /// The bytes that it took, in order.
    pub fn taken(&self) -> &[u8] {
        self.taken.as_slice()
    }

    /// How many bytes were out behind each write that went well.
    pub fn written(&self) -> &[usize] {
        self.written.as_slice()
    }

    /// How many bytes were out at each flush that went well.
    pub fn flushed(&self) -> &[usize] {
        self.flushed.as_slice()
    }

    /// Why a call that is to fail does.
    fn failure(&mut self) -> io::Error {
        self.record.has_failed.set(true);
        io::Error::from(ErrorKind::Other)
    }
}

impl Write for RecordedTarget<'_> {
    fn write(&mut self, buf: &[u8]) -> io::Result<usize> {
        let mut moment = self.record.moment();
        let number = moment.writes;
        moment.writes = number.saturating_add(1);
        self.record.moment.set(moment);
        if self.writes.has(number) {
            return Err(self.failure());
        }
        self.taken.extend_from_slice(buf)?;
        self.written.push(self.taken.len())?;
        moment.written = self.taken.len();
        self.record.moment.set(moment);
        Ok(buf.len())
    }

    fn flush(&mut self) -> io::Result<()> {
        let mut moment = self.record.moment();
        let number = moment.flushes;
        moment.flushes = number.saturating_add(1);
        self.record.moment.set(moment);
        if self.flushes.has(number) {
            return Err(self.failure());
        }
        self.flushed.push(self.taken.len())?;
        Ok(())
    }
}

/// Takes replies, and keeps how far both ends of the run were at each.
#[derive(Drop)]
pub struct RecordedReplies<'a> {
    taken: Vec<u8>,
    record: &'a Record,
    moments: Vec<Moment>,
}

impl<'a> RecordedReplies<'a> {
    /// No reply was taken.
    pub fn new(alloc: Global, record: &'a Record) -> RecordedReplies<'a> {
        RecordedReplies {
            taken: Vec::new(alloc),
            record,
            moments: Vec::new(alloc),
        }
    }

    /// The bytes that it took, in order.
    pub fn taken(&self) -> &[u8] {
        self.taken.as_slice()
    }

    /// How far both ends were at each write, before it.
    pub fn moments(&self) -> &[Moment] {
        self.moments.as_slice()
    }
}

impl Write for RecordedReplies<'_> {
    fn write(&mut self, buf: &[u8]) -> io::Result<usize> {
        self.moments.push(self.record.moment())?;
        self.taken.extend_from_slice(buf)?;
        Ok(buf.len())
    }

    fn flush(&mut self) -> io::Result<()> {
        Ok(())
    }
}
