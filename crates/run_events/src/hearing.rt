//! An automation that is listened to besides.

ghost use Rattle.std.specs.Prelude.{◌≡◌};
ghost use Rattle.run_events.specs.Telling.{closed_lines};

use crate::occurrence::{Asked, Occurrence, What};
use crate::watch::Watch;
use as_session::{Got, Session};
use automations::Sessions;
use chain_engine::{Automation, SessionEnd, Taken};
use scte104_codec::read;
use std::alloc::{AllocError, Allocator, Global};
use wire_fields::number16;

/// The most bytes of one take.
const ROOM: usize = 4_096;

/// Where the `result` of a reply stands.
const RESULT_PLACE: usize = 4;

/// What is known of the messages that an automation gave, where each is to be told: the pieces go through a session of its own, so that each
/// reply finds its message.
#[derive(Drop)]
pub struct Overheard<M: Allocator = Global> {
    session: Session<M>,
    /// The piece that was taken last.
    piece: [u8; ROOM],
    /// How many bytes it has.
    size: usize,
    /// How many of them the session has.
    used: usize,
    /// What the message asks that is to be answered next.
    asked: Option<Asked>,
    /// The session was closed by a size that no message has.
    is_closed: bool,
}

impl<M: Allocator + Copy> Overheard<M> {
    /// No message has come. It takes two times 65,535 bytes.
    ///
    /// # Errors
    ///
    /// Where the allocator refused memory.
    pub fn new_in(alloc: M) -> Result<Overheard<M>, AllocError> {
        Ok(Overheard {
            session: Session::new_in(alloc)?,
            piece: [0; ROOM],
            size: 0,
            used: 0,
            asked: None,
            is_closed: false,
        })
    }
}

impl<M: Allocator> Overheard<M> {
    /// Goes on to the next message that is whole.
    fn go_on(&mut self) {
        let end = self.size.min(ROOM);
        let begin = self.used.min(end);
        let (came, _) = self.piece.split_at(end);
        let (_, unread) = came.split_at(begin);
        let (used, got) = self.session.feed(unread);
        self.asked = match got {
            Got::Message(message) => Some(Asked::of(&read(message))),
            Got::None => None,
            Got::Closed => {
                self.is_closed = true;
                None
            }
        };
        self.used = begin.saturating_add(used);
    }

    /// Takes the next piece.
    fn take(&mut self, piece: &[u8]) {
        let size = piece.len().min(ROOM);
        let (front, _) = piece.split_at(size);
        self.piece[..size].copy_from_slice(front);
        self.size = size;
        self.used = 0;
        self.go_on();
    }
}

/// Who hears of a run, and what is known of its messages, where each is to be told.
#[derive(Drop)]
pub struct Hearing<W, M: Allocator = Global> {
    pub watch: W,
    pub overheard: Option<Overheard<M>>,
}

impl<W: Watch, M: Allocator> Hearing<W, M> {
    /// Tells, behind a run of which no request was told, whether the automation has ended a session for a size that no message has.
    pub fn tell_closed<U: Sessions>(&mut self, automation: &U)
        ensures told { W.hears self.old.watch (closed_lines (U.closed_so_far automation.now)) self.new.watch }
        ensures overheard { self.new.overheard ≡ self.old.overheard }
    {
        if automation.closed() > 0 {
            self.watch.tell(&Occurrence {
                service: None,
                packet: 0,
                what: What::Session(SessionEnd::BadSize),
            });
        }
    }
}

/// An automation that does what it does alone, and of which each request is told with its verdict, where that is asked for.
#[derive(Drop)]
pub struct HeardAutomation<'a, U, W, M: Allocator = Global> {
    inner: &'a mut U,
    hearing: &'a mut Hearing<W, M>,
    /// What comes of it is told as it comes.
    is_detailed: bool,
    /// How many takes there were, modulo 2⁶⁴: the number of the packet that comes next.
    packet: u64,
    /// How many sessions the automation has ended for a size that no message has, of which was told.
    closed: u64,
}

impl<'a, U, W: Watch, M: Allocator> HeardAutomation<'a, U, W, M> {
    ghost use Rattle.std.specs.Prelude.{◌≡◌};

    /// This automation, before its first take, and who is told; of each request, where its messages are overheard.
    pub fn new(inner: &'a mut U, hearing: &'a mut Hearing<W, M>) -> HeardAutomation<'a, U, W, M>
        ensures same { result.inner.ghost_name ≡ inner.entry.ghost_name }
        ensures inner { result.inner.now ≡ inner.old }
    {
        let is_detailed = hearing.watch.is_detailed();
        HeardAutomation {
            inner,
            hearing,
            is_detailed,
            packet: 0,
            closed: 0,
        }
    }
}

impl<U, W: Watch, M: Allocator> HeardAutomation<'_, U, W, M> {
    ghost use Rattle.std.specs.Prelude.{◌≡◌};

    /// Tells of what came with the take before this packet.
    fn tell(&mut self, what: What)
        ensures { self.new.inner ≡ self.old.inner }
    {
        self.hearing.watch.tell(&Occurrence {
            service: None,
            packet: self.packet.wrapping_sub(1),
            what,
        });
    }

    /// Takes note of a piece.
    fn note(&mut self, piece: &[u8])
        ensures { self.new.inner ≡ self.old.inner }
    {
        if let Some(overheard) = &mut self.hearing.overheard {
            overheard.take(piece);
            if overheard.is_closed {
                self.tell(What::Session(SessionEnd::BadSize));
            }
        }
    }

    /// Takes note of a reply, which the automation has or not.
    fn note_reply(&mut self, reply: &[u8], is_given: bool)
        ensures { self.new.inner ≡ self.old.inner }
    {
        let Some(overheard) = &mut self.hearing.overheard else {
            return;
        };
        let asked = overheard.asked;
        overheard.go_on();
        let is_closed = overheard.is_closed;
        if let Some(asked) = asked
            && reply.len() > RESULT_PLACE + 1
        {
            let result = number16(reply, RESULT_PLACE);
            self.tell(What::Request(asked, result, is_given));
        }
        if !is_given {
            self.tell(What::Session(SessionEnd::AnswerFailed));
        } else if is_closed {
            self.tell(What::Session(SessionEnd::BadSize));
        }
    }
}

impl<U: Automation + Sessions, W: Watch, M: Allocator> Automation for HeardAutomation<'_, U, W, M> {
    ghost use Rattle.std.specs.Prelude.{◌≡◌};
    ghost use Rattle.std.proofs.Common.{refl, ◌∙◌};

    ghost exchanges = { λ s es t. (t.inner.ghost_name ≡ s.inner.ghost_name) × U.exchanges s.inner.now es t.inner.now };

    ghost failures = { λ s. U.failures s.inner.now };

    ghost exchanges_refl = { λ s. (refl, U.exchanges_refl s.inner.now) };

    ghost exchanges_trans = { λ s t u xs ys h k. (k.0 ∙ h.0, U.exchanges_trans s.inner.now t.inner.now u.inner.now xs ys h.1 k.1) };

    #[inline(always)]
    fn take(&mut self, room: &mut [u8]) -> Taken {
        let taken = self.inner.take(room);
        if !self.is_detailed {
            return taken;
        }
        self.packet = self.packet.wrapping_add(1);
        let closed = self.inner.closed();
        if closed > self.closed {
            self.closed = closed;
            self.tell(What::Session(SessionEnd::BadSize));
        }
        match taken {
            Taken::Bytes(count) => {
                if self.hearing.overheard.is_some() {
                    let (piece, _) = room.split_at(count);
                    self.note(piece);
                }
            }
            Taken::Nothing => {}
            Taken::Ended => self.tell(What::Session(SessionEnd::Ended)),
            Taken::Failed => self.tell(What::Session(SessionEnd::TakeFailed)),
        }
        taken
    }

    fn answer(&mut self, reply: &[u8]) -> bool {
        let is_given = self.inner.answer(reply);
        self.note_reply(reply, is_given);
        is_given
    }
}
