//! An automation on a connection: a client of a port of this machine.

ghost use Rattle.std.specs.Prelude.{◌≡◌, false, IfSome};
ghost use Rattle.std.specs.Bool.{OnTrue};
ghost use Rattle.std.specs.Io.KnownBytes.{Appends};
ghost use Rattle.automations.specs.Calls.{LosesReply};
ghost use Rattle.automations.specs.Connections.{IsLocalPort, IsUnasked};

use crate::calls::{Replies, Requests, is_nothing};
use crate::sessions::Sessions;
use chain_engine::{Automation, Taken};
use std::io::{self, ErrorKind, Read, Write};
use std::net::{Net, OpenListener, OpenStream, SocketAddr, TcpListener};

/// How many takes in a row answer without asking the system, after one that found nothing. A call into the system before each packet
/// would cost more than the packet.
pub(crate) const QUIET: u8 = 15;

/// The most writes of one reply.
const WRITES: u32 = 64;

/// An automation at the other end of a connection that does not block: its requests are read, and the replies written.
#[derive(Drop)]
pub struct Connection<R, W> {
    requests: Requests<R>,
    replies: Replies<W>,
    /// How many takes may still answer without asking the system.
    quiet: u8,
    /// How many takes and answers failed.
    failures: u64,
}

impl<R: Read, W: Write> Automation for Connection<R, W> {
    ghost use Rattle.std.specs.Prelude.{[], ◌∷◌, length};
    ghost use Rattle.chain_engine.specs.Automation.{taken, answered, take_of, answer_of, IsRoomFor, CountsTake, CountsAnswer};
    ghost use Rattle.automations.specs.Connections.{IsTakenFrom, IsTakenBy, AsksInTurn, ConnectionExchanges};
    ghost use Rattle.automations.specs.Connections.{ConnectionExchanges-refl, ConnectionExchanges-trans};

    ghost exchanges = { λ s es t. ConnectionExchanges R.remaining W.contents s es t };

    ghost failures = { λ s. s.failures };

    ghost exchanges_refl = { λ s. ConnectionExchanges-refl R.remaining W.contents s };

    ghost exchanges_trans = { λ s t u xs ys h k. ConnectionExchanges-trans R.remaining W.contents s t u xs ys h k };

    #[inline(always)]
    fn take(&mut self, room: &mut [u8]) -> Taken
        requires room { length room.old ≡ 4096 }
        ensures bound { IsRoomFor (length room.new) result }
        ensures failures { CountsTake result self.old.failures self.new.failures }
        ensures read { IsTakenFrom (R.remaining self.old.requests.reader) (R.remaining self.new.requests.reader) room.new result }
        ensures exchanges { ConnectionExchanges R.remaining W.contents self.old (taken (take_of result room.new) ∷ []) self.new }
        ensures turn { AsksInTurn self.old.quiet self.new.quiet self.old.requests.counts.made self.new.requests.counts.made }
        ensures by { IsTakenBy self.old.quiet self.new.quiet self.old.requests.counts self.new.requests.counts result }
    {
        if self.quiet > 0 {
            self.quiet -= 1;
            return Taken::Nothing;
        }
        match self.requests.read(room) {
            Ok(0) => Taken::Ended,
            Ok(count) => Taken::Bytes(count),
            Err(error) => {
                if is_nothing(error.kind()) {
                    self.quiet = QUIET;
                    return Taken::Nothing;
                }
                self.failures = self.failures.saturating_add(1);
                Taken::Failed
            }
        }
    }

    fn answer(&mut self, reply: &[u8]) -> bool
        ensures failures { CountsAnswer result self.old.failures self.new.failures }
        ensures sent { OnTrue result (Appends (W.contents self.old.replies.writer) (W.contents self.new.replies.writer) reply.now) }
        ensures lost { result ≡ false → LosesReply self.old.replies.counts self.new.replies.counts }
        ensures exchanges { ConnectionExchanges R.remaining W.contents self.old (answered (answer_of reply.now result) ∷ []) self.new }
    {
        if send(&mut self.replies, reply) {
            return true;
        }
        self.failures = self.failures.saturating_add(1);
        false
    }
}

impl<R, W> Sessions for Connection<R, W> {
    ghost closed_so_far = { λ s. 0 };

    #[inline(always)]
    fn closed(&self) -> u64 {
        0
    }
}

/// Writes all of these bytes, and answers whether they were taken.
pub(crate) fn send<W: Write>(stream: &mut Replies<W>, bytes: &[u8]) -> bool
    ensures sent { OnTrue result (Appends (W.contents stream.old.writer) (W.contents stream.new.writer) bytes.now) }
    ensures lost { result ≡ false → LosesReply stream.old.counts stream.new.counts }
{
    let mut rest = bytes;
    for _turn in 0..WRITES {
        if rest.is_empty() {
            return true;
        }
        match stream.write(rest) {
            Ok(0) => return false,
            Ok(count) => rest = &rest[count..],
            Err(error) => {
                if error.kind() != ErrorKind::Interrupted {
                    return false;
                }
            }
        }
    }
    rest.is_empty()
}

/// The address of a port of 127.0.0.1.
fn address_of(port: u16) -> SocketAddr
    ensures { IsLocalPort result port }
{
    SocketAddr::from(([127, 0, 0, 1], port))
}

/// Listens on a port of 127.0.0.1.
///
/// # Errors
///
/// The system's, where the port cannot be bound.
pub fn listen<R: Net>(rt: &R, port: u16) -> io::Result<R::Listener> {
    TcpListener::bind(rt, address_of(port))
}

/// The two ends of a stream that does not block: requests are read from the one, and replies are written to the other. `None` where it could
/// not be set not to block, or its handle could not be copied.
pub(crate) fn ends_of<S: OpenStream + Drop>(stream: S) -> Option<(S, S)> {
    if stream.set_nonblocking(true).is_err() {
        return None;
    }
    let Ok(replies) = stream.try_clone() else {
        return None;
    };
    Some((stream, replies))
}

/// Accepts one connection, which may wait for a client. `None` where none could be accepted, it could not be set not to block, or its
/// handle could not be copied: requests are read from the one, and replies are written to the other.
pub fn accept<L: OpenListener>(listener: &L) -> Option<Connection<L::Stream, L::Stream>>
where
    L::Stream: OpenStream + Drop,
    ensures { IfSome result IsUnasked }
{
    let Ok((stream, _)) = listener.accept() else {
        return None;
    };
    let (reader, replies) = ends_of(stream)?;
    Some(Connection {
        requests: Requests::new(reader),
        replies: Replies::new(replies),
        quiet: 0,
        failures: 0,
    })
}
