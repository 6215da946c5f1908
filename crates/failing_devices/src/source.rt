//! A source for tests.

use crate::calls::Calls;
use std::io::{self, ErrorKind, Read};

/// Gives these bytes. The first call and every second one behind it is interrupted; behind its bytes it ends.
#[derive(Drop)]
pub struct FailSource<'a> {
    rest: &'a [u8],
    calls: Calls,
    is_late: bool,
}

impl<'a> FailSource<'a> {
    ghost use Rattle.std.specs.Prelude.{◌≡◌};

    /// These bytes, by these calls.
    pub fn new(bytes: &'a [u8], calls: Calls) -> FailSource<'a>
        ensures { result.rest.now ≡ bytes.now }
    {
        FailSource {
            rest: bytes,
            calls,
            is_late: false,
        }
    }
}

impl Read for FailSource<'_> {
    fn read(&mut self, buf: &mut [u8]) -> io::Result<usize> {
        self.is_late = !self.is_late;
        if self.is_late {
            return Err(io::Error::from(ErrorKind::Interrupted));
        }
        let count = self.calls.next()?.min(buf.len()).min(self.rest.len());
        let (front, rest) = self.rest.split_at(count);
        buf[..count].copy_from_slice(front);
        self.rest = rest;
        Ok(count)
    }
}
