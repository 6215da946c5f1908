//! The talk with an automation: a piece before each packet, for as long as its session is open.

ghost use Rattle.wire_fields.specs.Numbers.{AreBytes};

use crate::automation::{Automation, Taken};
use crate::hearing::{SessionEnd, hear};
use crate::judge::Judge;
use as_session::Session;
use std::alloc::{AllocError, Allocator, Global};

/// The most bytes of one take.
const ROOM: usize = 4_096;

/// Says that a room is of bytes, and does nothing.
#[inline(always)]
fn of_bytes(_room: [u8; 4096])
    ensures { AreBytes _room }
{}

/// The session of an automation, and why it is not listened to any more.
#[derive(Drop)]
pub struct Talk<M: Allocator = Global> {
    session: Session<M>,
    end: Option<SessionEnd>,
    room: [u8; 4096],
}

impl<M: Allocator + Copy> Talk<M> {
    ghost use Rattle.std.specs.Prelude.{[], IfOk};
    ghost use Rattle.chain_engine.specs.Talks.{TalkStandsFor};

    /// A talk that has not begun, with memory of this allocator.
    ///
    /// # Errors
    ///
    /// Where the allocator refused memory.
    pub fn new_in(alloc: M) -> Result<Talk<M>, AllocError>
        ensures { IfOk result (λ talk. TalkStandsFor talk [] 0 0) }
    {
        Ok(Talk {
            session: Session::new_in(alloc)?,
            end: None,
            room: [0; ROOM],
        })
    }
}

impl<M: Allocator> Talk<M> {
    /// Why the automation is not listened to any more; `None` while its session is open.
    pub fn end(&self) -> Option<SessionEnd>
        ensures { result ≡ self.now.end }
    {
        self.end
    }

    ghost use Rattle.std.specs.Prelude.{◌≡◌, ℕ, suc, ◌+◌, List, ◌++◌, length, true};
    ghost use Rattle.std.specs.Option.{is_some};
    ghost use Rattle.scte104_codec.specs.declared.reply.Reply.{Reply};
    ghost use Rattle.chain_engine.specs.Automation.{Take, takes_and_answers};
    ghost use Rattle.chain_engine.specs.Hearing.{Replied};
    ghost use Rattle.chain_engine.specs.Talks.{TalkStandsFor, judged_before, loses, CountsEnd};

    /// Takes a piece and hears it, while the session is open.
    #[inline(always)]
    pub fn listen<J: Judge, U: Automation>(&mut self, judge: &mut J, automation: &mut U)
        ensures talk { (ts : List Take) (n k : ℕ) → TalkStandsFor self.old ts n k →
            (more : List Take) × (rs : List Reply)
            × TalkStandsFor self.new (ts ++ more) (n + length rs) (suc k)
            × Replied J.judges judge.old judge.new (judged_before (n + length rs) (ts ++ more) k) rs
            (loses self.old.end self.new.end) (λ xs. U.exchanges automation.old (takes_and_answers more xs) automation.new) }
        ensures closed { is_some self.old.end ≡ true → (self.new ≡ self.old) × (judge.new ≡ judge.old)
            × (automation.new ≡ automation.old) }
        ensures failures { CountsEnd self.old.end self.new.end (U.failures automation.old) (U.failures automation.new) }
    {
        if self.end.is_some() {
            return;
        }
        self.end = match automation.take(&mut self.room) {
            Taken::Bytes(count) => {
                of_bytes(self.room);
                hear(&mut self.session, &self.room[..count], judge, automation)
            }
            Taken::Nothing => None,
            Taken::Ended => Some(SessionEnd::Ended),
            Taken::Failed => Some(SessionEnd::TakeFailed),
        };
    }
}
