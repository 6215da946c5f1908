//! A machine that is made up: it tells at which address it listens, and its clients stand in line. A call that would wait is told, and does
//! not wait.

use std::cell::Cell;
use std::io::{self, ErrorKind, Read, Write};
use std::net::{Net, OpenListener, OpenStream, SocketAddr};
use std::os::fd::{AsRawFd, RawFd};

/// What became of the clients in line.
#[derive(Drop)]
pub(crate) struct Line {
    /// How many stand in line.
    clients: usize,
    /// How many were let in.
    accepted: Cell<usize>,
    /// A call that may wait found nothing.
    has_waited: Cell<bool>,
    /// Streams can be set not to block.
    can_be_set: Cell<bool>,
    /// Their handles can be copied.
    can_be_copied: Cell<bool>,
}

impl Line {
    /// So many clients.
    pub(crate) fn new(clients: usize) -> Line {
        Line {
            clients,
            accepted: Cell::new(0),
            has_waited: Cell::new(false),
            can_be_set: Cell::new(true),
            can_be_copied: Cell::new(true),
        }
    }

    /// No stream can be set not to block.
    pub(crate) fn refuse_setting(&self) {
        self.can_be_set.set(false);
    }

    /// No handle can be copied.
    pub(crate) fn refuse_copies(&self) {
        self.can_be_copied.set(false);
    }

    /// How many were let in.
    pub(crate) fn accepted(&self) -> usize {
        self.accepted.get()
    }

    /// Whether a call found nothing that may wait for more.
    pub(crate) fn has_waited(&self) -> bool {
        self.has_waited.get()
    }

    /// A call found nothing, and would wait where it may.
    fn find_nothing(&self, may_wait: bool) -> io::Error {
        if may_wait {
            self.has_waited.set(true);
        }
        io::Error::from(ErrorKind::WouldBlock)
    }
}

/// One of them, who sends one message and nothing more.
#[derive(Drop)]
pub(crate) struct Guest<'a> {
    line: &'a Line,
    /// The place in line, from 0.
    place: u8,
    /// How many bytes of it were read.
    sent: usize,
    may_wait: Cell<bool>,
}

/// The size of an alive_request.
const MESSAGE: usize = 13;

/// The alive_request of a client: its AS_index is one more than its place in line.
pub(crate) fn alive(place: u8) -> [u8; MESSAGE] {
    [
        0,
        3,
        0,
        0x0D,
        0xFF,
        0xFF,
        0xFF,
        0xFF,
        0,
        place.saturating_add(1),
        7,
        0,
        1,
    ]
}

impl Read for Guest<'_> {
    fn read(&mut self, room: &mut [u8]) -> io::Result<usize> {
        let message = alive(self.place);
        let mut rest = &message[self.sent.min(MESSAGE)..];
        if rest.is_empty() {
            return Err(self.line.find_nothing(self.may_wait.get()));
        }
        let count = rest.read(room)?;
        self.sent = self.sent.saturating_add(count);
        Ok(count)
    }
}

impl Write for Guest<'_> {
    fn write(&mut self, bytes: &[u8]) -> io::Result<usize> {
        Ok(bytes.len())
    }

    fn flush(&mut self) -> io::Result<()> {
        Ok(())
    }
}

impl OpenStream for Guest<'_> {
    fn set_nonblocking(&self, nonblocking: bool) -> io::Result<()> {
        if !self.line.can_be_set.get() {
            return Err(io::Error::from(ErrorKind::Unsupported));
        }
        self.may_wait.set(!nonblocking);
        Ok(())
    }

    fn try_clone(&self) -> io::Result<Self> {
        if !self.line.can_be_copied.get() {
            return Err(io::Error::from(ErrorKind::Unsupported));
        }
        Ok(Guest {
            line: self.line,
            place: self.place,
            sent: MESSAGE,
            may_wait: Cell::new(self.may_wait.get()),
        })
    }
}

impl AsRawFd for Guest<'_> {
    fn as_raw_fd(&self) -> RawFd {
        -1
    }
}

/// The port at which they stand.
#[derive(Drop)]
pub(crate) struct Hall<'a> {
    line: &'a Line,
    may_wait: Cell<bool>,
}

impl<'a> Hall<'a> {
    /// The port of this line.
    pub(crate) fn new(line: &'a Line) -> Hall<'a> {
        Hall {
            line,
            may_wait: Cell::new(true),
        }
    }
}

impl<'a> OpenListener for Hall<'a> {
    type Stream = Guest<'a>;

    fn accept(&self) -> io::Result<(Guest<'a>, SocketAddr)> {
        let place = self.line.accepted.get();
        if place >= self.line.clients {
            return Err(self.line.find_nothing(self.may_wait.get()));
        }
        self.line.accepted.set(place.saturating_add(1));
        let guest = Guest {
            line: self.line,
            place: (place % 256) as u8,
            sent: 0,
            may_wait: Cell::new(true),
        };
        Ok((guest, SocketAddr::from(([127, 0, 0, 1], 1))))
    }

    fn set_nonblocking(&self, nonblocking: bool) -> io::Result<()> {
        self.may_wait.set(!nonblocking);
        Ok(())
    }
}

impl AsRawFd for Hall<'_> {
    fn as_raw_fd(&self) -> RawFd {
        -1
    }
}

/// The machine: it has one port.
#[derive(Drop)]
pub(crate) struct Machine<'a> {
    line: &'a Line,
    bound: Cell<Option<SocketAddr>>,
}

impl<'a> Machine<'a> {
    /// The machine to whose port this line comes.
    pub(crate) fn new(line: &'a Line) -> Machine<'a> {
        Machine {
            line,
            bound: Cell::new(None),
        }
    }

    /// The address at which it listens.
    pub(crate) fn bound(&self) -> Option<SocketAddr> {
        self.bound.get()
    }
}

impl<'a> Net for Machine<'a> {
    type Stream = Guest<'a>;

    type Listener = Hall<'a>;

    fn bind(&self, address: SocketAddr) -> io::Result<Hall<'a>> {
        if self.bound.get().is_some() {
            return Err(io::Error::from(ErrorKind::AddrInUse));
        }
        self.bound.set(Some(address));
        Ok(Hall::new(self.line))
    }

    fn connect(&self, _address: SocketAddr) -> io::Result<Guest<'a>> {
        Err(io::Error::from(ErrorKind::Unsupported))
    }
}
