//! A network that goes on by itself, and whose clients act between its packets.

use std::io::{self, ErrorKind, Read, Write};
use std::net::{Net, OpenStream, SocketAddr, TcpStream};

/// How many packets the network has.
pub(crate) const PACKETS: u32 = 400;

/// The start of break 1 in 4 seconds, for 30 seconds.
const START: [u8; 30] = [
    0xFF, 0xFF, 0, 0x1E, 0, 0, 5, 0, 1, 0, 0, 1, 1, 1, 0, 0x0E, 1, 0, 0, 0, 1, 0, 7, 0x0F, 0xA0, 1,
    0x2C, 0, 0, 1,
];

/// The reply to it before the network has a time: an inject_response with the number of NoClock.
const NO_CLOCK: [u8; 14] = [0, 7, 0, 0x0E, 0x80, 0x0E, 0xFF, 0xFF, 0, 0, 5, 0, 1, 5];

/// The first four bytes of a message whose messageSize is 0.
const BAD_SIZE: [u8; 4] = [0xFF, 0xFF, 0, 0];

/// A null packet.
pub(crate) fn null_packet() -> [u8; 188] {
    let mut bytes = [0xFF; 188];
    bytes[0] = 0x47;
    bytes[1] = 0x1F;
    bytes[3] = 0x10;
    bytes
}

/// What a test answers where something did not come as it must.
fn missed() -> io::Error {
    io::Error::from(ErrorKind::Other)
}

/// A client that is there or not.
#[derive(Drop)]
struct Caller<S> {
    stream: Option<S>,
}

impl<S: Read + Write + OpenStream + Drop> Caller<S> {
    /// Sends these bytes.
    fn send(&mut self, bytes: &[u8]) -> io::Result<()> {
        match &mut self.stream {
            Some(stream) => stream.write_all(bytes),
            None => Err(missed()),
        }
    }

    /// Reads what is there: so many bytes, `None` where there is nothing yet.
    fn read(&mut self, room: &mut [u8]) -> io::Result<Option<usize>> {
        let Some(stream) = &mut self.stream else {
            return Err(missed());
        };
        match stream.read(room) {
            Ok(count) => Ok(Some(count)),
            Err(error) if error.kind() == ErrorKind::WouldBlock => Ok(None),
            Err(error) => Err(error),
        }
    }

    /// The reply is there.
    fn expect_reply(&mut self) -> io::Result<()> {
        let mut room = [0; 14];
        match self.read(&mut room)? {
            Some(14) if room == NO_CLOCK => Ok(()),
            _ => Err(missed()),
        }
    }

    /// Nothing is there yet.
    fn expect_nothing(&mut self) -> io::Result<()> {
        match self.read(&mut [0; 14])? {
            None => Ok(()),
            Some(_) => Err(missed()),
        }
    }

    /// The connection was closed.
    fn expect_closed(&mut self) -> io::Result<()> {
        match self.read(&mut [0; 14])? {
            Some(0) => Ok(()),
            _ => Err(missed()),
        }
    }
}

/// Null packets, one a read, and three clients that act before some of them.
#[derive(Drop)]
pub(crate) struct Channel<'a, N: Net> {
    rt: &'a N,
    address: SocketAddr,
    packets: u32,
    one: Caller<N::Stream>,
    two: Caller<N::Stream>,
    three: Caller<N::Stream>,
}

impl<'a, N: Net> Channel<'a, N> {
    /// A network whose clients come to this address.
    pub(crate) fn new(rt: &'a N, address: SocketAddr) -> Channel<'a, N> {
        Channel {
            rt,
            address,
            packets: 0,
            one: Caller { stream: None },
            two: Caller { stream: None },
            three: Caller { stream: None },
        }
    }

    /// A client comes. Its reads do not wait.
    fn connect(&self) -> io::Result<Caller<N::Stream>> {
        let stream = TcpStream::connect(self.rt, self.address)?;
        stream.set_nonblocking(true)?;
        Ok(Caller {
            stream: Some(stream),
        })
    }

    /// A client comes late, is answered and goes. Then two come at once: the second waits until the first has sent a size that no message has.
    fn act_early(&mut self) -> io::Result<()> {
        match self.packets {
            40 => {
                self.one = self.connect()?;
                self.one.send(&START)
            }
            80 => {
                self.one.expect_reply()?;
                self.one = Caller { stream: None };
                Ok(())
            }
            120 => {
                self.one = self.connect()?;
                self.two = self.connect()?;
                self.one.send(&START)?;
                self.two.send(&START)
            }
            160 => {
                self.one.expect_reply()?;
                self.two.expect_nothing()?;
                self.one.send(&BAD_SIZE)
            }
            _ => Ok(()),
        }
    }

    /// The second is answered, and goes within a message. The third's bytes are framed anew, in whatever pieces they come, and two messages that come together
    /// are both answered.
    fn act_late(&mut self) -> io::Result<()> {
        match self.packets {
            200 => {
                self.one.expect_closed()?;
                self.two.expect_reply()?;
                self.two.send(&START[..10])
            }
            240 => {
                self.two = Caller { stream: None };
                Ok(())
            }
            280 => {
                self.three = self.connect()?;
                self.three.send(&START[..10])
            }
            320 => {
                self.three.expect_nothing()?;
                self.three.send(&START[10..])?;
                self.three.send(&START)
            }
            360 => {
                self.three.expect_reply()?;
                self.three.expect_reply()
            }
            _ => Ok(()),
        }
    }
}

impl<N: Net> Read for Channel<'_, N> {
    fn read(&mut self, room: &mut [u8]) -> io::Result<usize> {
        if self.packets == PACKETS {
            return Ok(0);
        }
        self.act_early()?;
        self.act_late()?;
        self.packets = self.packets.saturating_add(1);
        null_packet().as_slice().read(room)
    }
}
