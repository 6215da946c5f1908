//! A target for tests.

use crate::calls::Calls;
use std::alloc::Global;
use std::io::{self, ErrorKind, Write};

/// Takes bytes. The first call and every second one behind it is interrupted. It may fail to flush.
#[derive(Drop)]
pub struct FailTarget {
    taken: Vec<u8>,
    calls: Calls,
    is_late: bool,
    fails_to_flush: bool,
}

impl FailTarget {
    ghost use Rattle.std.specs.Prelude.{◌≡◌, vec_len, true, false};

    /// A target that has taken no byte, takes bytes by these calls, and flushes well.
    pub fn new(alloc: Global, calls: Calls) -> FailTarget
        ensures empty { vec_len result.taken ≡ 0 }
        ensures flushes { result.fails_to_flush ≡ false }
    {
        FailTarget {
            taken: Vec::new(alloc),
            calls,
            is_late: false,
            fails_to_flush: false,
        }
    }

    /// One whose flush fails.
    pub fn failing_to_flush(alloc: Global, calls: Calls) -> FailTarget
        ensures empty { vec_len result.taken ≡ 0 }
        ensures fails { result.fails_to_flush ≡ true }
    {
        FailTarget {
            fails_to_flush: true,
            ..FailTarget::new(alloc, calls)
        }
    }

    /// The bytes that it took, in order.
    pub fn taken(self) -> Vec<u8>
        ensures { result ≡ self.taken }
    {
        self.taken
    }
}

impl Write for FailTarget {
    fn write(&mut self, buf: &[u8]) -> io::Result<usize> {
        self.is_late = !self.is_late;
        if self.is_late {
            return Err(io::Error::from(ErrorKind::Interrupted));
        }
        let count = self.calls.next()?.min(buf.len());
        self.taken.extend_from_slice(&buf[..count])?;
        Ok(count)
    }

    fn flush(&mut self) -> io::Result<()> {
        if self.fails_to_flush {
            return Err(io::Error::from(ErrorKind::Other));
        }
        Ok(())
    }
}
