//! A session: bytes in any pieces go in, and whole messages come out.

ghost use Rattle.std.specs.Prelude.{◌≡◌, ◌≤◌, IfOk, true, [], length, vec_len};
ghost use Rattle.as_session.specs.Pending.{is_partial};

use crate::gathering::{MESSAGE_ROOM, gather};
use circular_buffer::HeapCircularBuffer;
use scte104_codec::Frame;
use std::alloc::{AllocError, Allocator, Global};

/// What a session gives for a piece.
#[derive(Clone, Copy, Debug, PartialEq, Eq)]
pub enum Got<'a> {
    /// The piece is used up, and no message is whole.
    None,
    /// A whole message of 12 to 65,535 bytes, lent from the session until its next call.
    Message(&'a [u8]),
    /// The session is closed: by a size that no message has, or by `end`.
    Closed,
}

enum Step {
    Nothing,
    Message(usize),
    Closed,
}

/// The session of one automation system: it keeps the bytes of the message that isn't whole yet.
///
/// It takes all its memory when it is made, two times 65,535 bytes, and each byte that it is fed is copied twice: into
/// the ring in which a message gathers, and with the whole message out of it.
#[derive(Drop)]
pub struct Session<A: Allocator = Global> {
    pending: HeapCircularBuffer<u8, A>,
    message: Vec<u8, A>,
    is_closed: bool,
    ghost long: { vec_len message ≡ 65535 },
    ghost roomy: { pending.capacity ≡ 65535 },
    ghost partial: { is_partial pending.items ≡ true },
}

impl Session {
    ghost use Rattle.as_session.specs.Session.{state_of};
    ghost use Rattle.as_session.specs.Feeding.{opened};

    /// An open session with no byte pending.
    ///
    /// # Errors
    ///
    /// Where the allocator refused memory. No contract can say that the error comes only then: a test shows it.
    pub fn new(alloc: Global) -> Result<Session, AllocError>
        ensures { IfOk result (λ session. state_of session ≡ opened []) }
    {
        Session::new_in(alloc)
    }
}

impl<A: Allocator + Copy> Session<A> {
    ghost use Rattle.as_session.specs.Session.{state_of};
    ghost use Rattle.as_session.specs.Feeding.{opened};

    /// An open session with no byte pending, whose memory is this allocator's.
    ///
    /// # Errors
    ///
    /// As for [`Session::new`].
    pub fn new_in(alloc: A) -> Result<Session<A>, AllocError>
        ensures { IfOk result (λ session. state_of session ≡ opened []) }
    {
        Ok(Session {
            pending: HeapCircularBuffer::with_capacity(alloc, MESSAGE_ROOM)?,
            message: vec![in alloc; 0; MESSAGE_ROOM]?,
            is_closed: false,
        })
    }
}

impl<A: Allocator> Session<A> {
    ghost use Rattle.std.specs.Borrow.{sem};
    ghost use Rattle.std.specs.Io.BufRead.{Rests};
    ghost use Rattle.as_session.specs.contracts.session.Session.{the_row};
    ghost use Rattle.as_session.specs.Session.{state_of, step_given, given, IsFed, MessageFits, LendsWhole};
    ghost use Rattle.as_session.specs.Feeding.{feed_of, end_of, shut};

    /// Takes the bytes in, and moves a whole message to the place that it is lent from.
    fn step(&mut self, piece: &[u8]) -> (usize, Step)
        ensures used { result.0 ≡ (feed_of (state_of self.old) piece.now).used }
        ensures given { step_given self.new result.1 ≡ (feed_of (state_of self.old) piece.now).gives }
        ensures after { state_of self.new ≡ (feed_of (state_of self.old) piece.now).after }
        ensures room { MessageFits result.0 result.1 }
    {
        if self.is_closed {
            return (0, Step::Closed);
        }
        let (used, frame) = gather(&mut self.pending, piece);
        match frame {
            Frame::NeedMore(_) => (used, Step::Nothing),
            Frame::Whole(_) => {
                let size = self.pending.read_into(&mut self.message);
                (used, Step::Message(size))
            }
            Frame::BadSize => {
                self.pending.clear();
                self.is_closed = true;
                (used, Step::Closed)
            }
        }
    }

    /// Takes bytes of the next piece, and answers how many it used and what the session gives. It uses the bytes up to the end
    /// of the message at the front, or all where they end before it, or those up to the fourth byte of a bad size, which closes
    /// the session. The bytes that it didn't use are to be fed again. A closed session uses none.
    #[tactic(auto, using(crate::proofs::FeedLemmas::used_within))]
    pub fn feed(&mut self, piece: &[u8]) -> (usize, Got<'_>)
        ensures used { result.0 ≡ (feed_of (state_of self.old) piece.now).used }
        ensures gives { given result.1 ≡ (feed_of (state_of self.old) piece.now).gives }
        ensures within { result.0 ≤ length piece.now }
        ensures whole { LendsWhole result.0 result.1 }
        ensures* after { sem 𝓛 (Rests (the_row A.row A.Allocator) self.entry (IsFed self.old piece.now)) }
    {
        let (used, step) = self.step(piece);
        match step {
            Step::Nothing => (used, Got::None),
            Step::Message(size) => (used, Got::Message(&self.message[..size])),
            Step::Closed => (used, Got::Closed),
        }
    }

    /// Closes the session, and answers how many bytes were pending: 0 where it was closed.
    pub fn end(&mut self) -> usize
        ensures pending { result ≡ end_of (state_of self.old) }
        ensures after { state_of self.new ≡ shut }
    {
        if self.is_closed {
            return 0;
        }
        self.is_closed = true;
        self.pending.len()
    }
}
