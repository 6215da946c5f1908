//! A stream of text to which several write in turn.

use std::alloc::AllocError;
use std::cell::RefCell;
use std::io::{self, ErrorKind, Write};

/// One of those who write to a stream.
#[derive(Drop)]
pub(crate) struct Sharing<'a, W> {
    stream: &'a RefCell<W>,
}

impl<W> Clone for Sharing<'_, W> {
    fn clone(&self) -> Result<Self, AllocError> {
        Ok(*self)
    }
}

impl<W> Copy for Sharing<'_, W> {}

impl<'a, W> Sharing<'a, W> {
    /// Writes to this stream.
    pub(crate) fn new(stream: &'a RefCell<W>) -> Sharing<'a, W> {
        Sharing { stream }
    }
}

impl<W: Write> Write for Sharing<'_, W> {
    fn write(&mut self, buf: &[u8]) -> io::Result<usize> {
        match self.stream.try_borrow_mut() {
            Ok(mut stream) => stream.write(buf),
            Err(_) => Err(io::Error::from(ErrorKind::ResourceBusy)),
        }
    }

    fn flush(&mut self) -> io::Result<()> {
        match self.stream.try_borrow_mut() {
            Ok(mut stream) => stream.flush(),
            Err(_) => Err(io::Error::from(ErrorKind::ResourceBusy)),
        }
    }
}
