//! The clients of a port, one after another, each a session of its own: what they ask comes in whole messages, and the end of a session is
//! not the end of what they ask together.

ghost use Rattle.ts_packet.specs.Transfers.{IsCounted};

use crate::calls::{Replies, Requests};
use crate::connection::{QUIET, ends_of, send};
use crate::letter::{Letter, Progress};
use crate::sessions::Sessions;
use chain_engine::{Automation, Taken};
use std::io::{Read, Write};
use std::net::{OpenListener, OpenStream};

/// A client that is there.
#[derive(Drop)]
struct Client<S> {
    requests: Requests<S>,
    replies: Replies<S>,
}

/// A listener that is asked for its next client without waiting, and how often it was asked. The count stops at the greatest u64.
#[derive(Drop)]
struct Door<'a, L> {
    listener: &'a L,
    /// It was set not to block.
    is_set: bool,
    asked: u64,
}

impl<L: OpenListener> Door<'_, L>
where
    L::Stream: OpenStream + Drop,
{
    /// The next client, where one is there, and it could be set not to block and its handle be copied.
    fn ask(&mut self) -> Option<Client<L::Stream>>
        ensures { IsCounted self.old.asked self.new.asked }
    {
        self.asked = self.asked.saturating_add(1);
        if !self.is_set {
            if self.listener.set_nonblocking(true).is_err() {
                return None;
            }
            self.is_set = true;
        }
        let Ok((stream, _)) = self.listener.accept() else {
            return None;
        };
        let (reader, replies) = ends_of(stream)?;
        Some(Client {
            requests: Requests::new(reader),
            replies: Replies::new(replies),
        })
    }
}

/// The clients of a listener, served one after another in the order in which they connect. No take waits for one. A take gives a whole
/// message, or the next 4,096 bytes of a longer one; what a session leaves behind its last whole message is dropped with it. A session ends
/// where its client ends or fails, states a size that no message has, or does not take a reply: its connection is closed then, and the next
/// client is accepted. Where none is there the listener is asked at one of sixteen takes.
#[derive(Drop)]
pub struct Clients<'a, L: OpenListener> {
    door: Door<'a, L>,
    client: Option<Client<L::Stream>>,
    letter: Letter,
    /// How many clients were sent off for a size that no message has. The count stops at the greatest u64.
    closed: u64,
    /// How many takes may still answer without asking the system.
    quiet: u8,
}

impl<'a, L: OpenListener> Clients<'a, L>
where
    L::Stream: OpenStream + Read + Write + Drop,
{
    ghost use Rattle.std.specs.Prelude.{◌≡◌, ◌≤◌, [], length, true, false};
    ghost use Rattle.automations.specs.Clients.{held, unsent, IsMessage, TakesOf, AsksListener, SendsOff};

    /// The clients of this listener, which is set not to block before it is asked first.
    pub fn new(listener: &'a L) -> Clients<'a, L>
        ensures unsent { unsent result.letter ≡ [] }
        ensures closed { result.closed ≡ 0 }
        ensures quiet { result.quiet ≡ 0 }
        ensures asked { result.door.asked ≡ 0 }
    {
        Clients {
            door: Door {
                listener,
                is_set: false,
                asked: 0,
            },
            client: None,
            letter: Letter::new(),
            closed: 0,
            quiet: 0,
        }
    }

    /// Reads on the next message of the client that is there, or of the next one. Whether it is whole.
    fn gather(&mut self, room: &mut [u8]) -> bool
        requires partial { self.old.letter.is_whole ≡ false }
        requires asks { self.old.quiet ≡ 0 }
        ensures whole { result ≡ self.new.letter.is_whole }
        ensures quiet { self.new.quiet ≤ 15 }
        ensures asked { AsksListener self.old.client self.old.door.asked self.new.door.asked }
        ensures message { result ≡ true → IsMessage (held self.new.letter) }
        ensures closed { SendsOff self.old.closed self.new.closed (held self.old.letter) }
        ensures reads { TakesOf (L.Stream.Read.remaining) self.old.client self.new.client (held self.old.letter) [] (held self.new.letter) }
        ensures room { length room.new ≡ length room.old }
    {
        let client = match self.client.take() {
            Some(client) => Some(client),
            None => self.door.ask(),
        };
        let Some(mut client) = client else {
            self.quiet = QUIET;
            return false;
        };
        let progress = self.letter.gather(&mut client.requests, room);
        if progress == Progress::BadSize {
            self.closed = self.closed.saturating_add(1);
        }
        if progress == Progress::Over || progress == Progress::BadSize {
            self.letter.clear();
            return false;
        }
        self.client = Some(client);
        if progress == Progress::Nothing {
            self.quiet = QUIET;
        }
        progress == Progress::Whole
    }
}

impl<L: OpenListener> Automation for Clients<'_, L>
where
    L::Stream: OpenStream + Read + Write + Drop,
{
    ghost use Rattle.std.specs.Prelude.{◌≡◌, ◌∷◌, [], length, true};
    ghost use Rattle.chain_engine.specs.Automation.{taken, answered, take_of, answer_of, IsRoomFor, CountsTake, CountsAnswer, bytes_in};
    ghost use Rattle.automations.specs.Clients.{held, unsent, TakesOf, TakesTurn, SendsOff, AnswersClient};
    ghost use Rattle.automations.specs.Clients.{ClientsExchange, ClientsExchange-refl, ClientsExchange-trans};

    ghost exchanges = { λ s es t. ClientsExchange (unsent s.letter) es (unsent t.letter) };

    ghost failures = { λ s. 0 };

    ghost exchanges_refl = { λ s. ClientsExchange-refl (unsent s.letter) };

    ghost exchanges_trans = { λ s t u xs ys h k. ClientsExchange-trans (unsent s.letter) (unsent t.letter) (unsent u.letter) xs ys h k };

    #[inline(always)]
    #[tactic(auto, using(crate::proofs::ClientsLemmas::gives_on, crate::proofs::ClientsLemmas::gives_first))]
    fn take(&mut self, room: &mut [u8]) -> Taken
        requires room { length room.old ≡ 4096 }
        ensures bound { IsRoomFor (length room.new) result }
        ensures exchanges { ClientsExchange (unsent self.old.letter) (taken (take_of result room.new) ∷ []) (unsent self.new.letter) }
        ensures failures { CountsTake result 0 0 }
        ensures turn { TakesTurn self.old.quiet self.new.quiet self.old.client self.old.door.asked self.new.door.asked }
        ensures closed { SendsOff self.old.closed self.new.closed (held self.old.letter) }
        ensures reads { TakesOf (L.Stream.Read.remaining) self.old.client self.new.client (held self.old.letter)
            (bytes_in (take_of result room.new)) (held self.new.letter) }
    {
        if self.quiet > 0 {
            self.quiet -= 1;
            return Taken::Nothing;
        }
        if self.letter.is_whole() || self.gather(room) {
            return Taken::Bytes(self.letter.give(room));
        }
        Taken::Nothing
    }

    fn answer(&mut self, reply: &[u8]) -> bool
        ensures taken { result ≡ true }
        ensures failures { CountsAnswer result 0 0 }
        ensures exchanges { ClientsExchange (unsent self.old.letter) (answered (answer_of reply.now result) ∷ []) (unsent self.new.letter) }
        ensures closed { self.new.closed ≡ self.old.closed }
        ensures sent { AnswersClient (L.Stream.Write.contents) self.old.client self.new.client reply.now }
    {
        if let Some(mut client) = self.client.take()
            && send(&mut client.replies, reply)
        {
            self.client = Some(client);
            return true;
        }
        if !self.letter.is_whole() {
            self.letter.clear();
        }
        true
    }
}

impl<L: OpenListener> Sessions for Clients<'_, L>
where
    L::Stream: OpenStream + Read + Write + Drop,
{
    ghost closed_so_far = { λ s. s.closed };

    #[inline(always)]
    fn closed(&self) -> u64 {
        self.closed
    }
}
