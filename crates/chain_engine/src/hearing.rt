//! Pieces of automation bytes, heard: the messages in them are judged and answered.

ghost use Rattle.std.specs.Prelude.{◌≡◌, List, [], ℕ, length, not};
ghost use Rattle.scte104_codec.specs.declared.reply.Reply.{Reply};
ghost use Rattle.as_session.specs.Session.{state_of};
ghost use Rattle.as_session.specs.Feeding.{feed_of, opened};
ghost use Rattle.as_session.specs.Messages.{messages_of};
ghost use Rattle.as_session.specs.Runs.{messages_in};
ghost use Rattle.chain_engine.specs.Automation.{CountsAnswer, takes_and_answers};
ghost use Rattle.chain_engine.specs.Hearing.{HeardAs, is_unanswered, Replied, lost_by, HearsPiece, CanEnd};

use crate::automation::Automation;
use crate::judge::Judge;
use as_session::{Got, Session};
use scte104_codec::{read, write_reply};
use std::alloc::Allocator;

/// Why an automation is not listened to any more.
#[derive(Clone, Copy, Debug, PartialEq, Eq, Drop)]
pub enum SessionEnd {
    /// It has ended.
    Ended,
    /// A take failed.
    TakeFailed,
    /// A message has a size that no message has.
    BadSize,
    /// It did not get a reply.
    AnswerFailed,
}

/// What one call of the session came to.
pub(crate) enum Heard {
    /// No message is whole.
    Nothing,
    /// A message was judged. So many bytes of the piece were used, and the automation has the reply or not.
    Answered(usize, bool),
    /// The session was closed by a bad size.
    Closed,
}

/// Hears the next message of a piece, where one becomes whole.
fn hear_one<M: Allocator, J: Judge, U: Automation>(
    session: &mut Session<M>,
    piece: &[u8],
    judge: &mut J,
    automation: &mut U,
) -> Heard
    ensures after { state_of session.new ≡ (feed_of (state_of session.old) piece.now).after }
    ensures heard { HeardAs (feed_of (state_of session.old) piece.now) (length piece.now) result }
    ensures replied { (rs : List Reply) × Replied J.judges judge.old judge.new
        (messages_in (feed_of (state_of session.old) piece.now).gives) rs (is_unanswered result)
        (λ xs. U.exchanges automation.old (takes_and_answers [] xs) automation.new) }
    ensures failures { CountsAnswer (not (is_unanswered result))
        (U.failures automation.old) (U.failures automation.new) }
{
    let (used, got) = session.feed(piece);
    match got {
        Got::None => Heard::Nothing,
        Got::Message(message) => {
            let reply = judge.ask(read(message));
            let is_given = automation.answer(write_reply(&reply).as_slice());
            Heard::Answered(used, is_given)
        }
        Got::Closed => Heard::Closed,
    }
}

/// Hears a piece of an open session, up to its end, a bad size, or a reply that the automation did not get.
pub(crate) fn hear<M: Allocator, J: Judge, U: Automation>(
    session: &mut Session<M>,
    piece: &[u8],
    judge: &mut J,
    automation: &mut U,
) -> Option<SessionEnd>
    ensures heard { (stream : List ℕ) → state_of session.old ≡ opened (messages_of stream).rest →
        (ms : List (List ℕ)) × (rs : List Reply) × HearsPiece stream piece.now ms (state_of session.new) result
        × Replied J.judges judge.old judge.new ms rs (lost_by result)
        (λ xs. U.exchanges automation.old (takes_and_answers [] xs) automation.new) }
    ensures ends { CanEnd result }
    ensures failures { CountsAnswer (not (lost_by result)) (U.failures automation.old) (U.failures automation.new) }
{
    let mut rest = piece;
    loop {
        match hear_one(session, rest, judge, automation) {
            Heard::Nothing => return None,
            Heard::Answered(used, true) => {
                let (_, behind) = rest.split_at(used);
                rest = behind;
            }
            Heard::Answered(_, false) => return Some(SessionEnd::AnswerFailed),
            Heard::Closed => return Some(SessionEnd::BadSize),
        }
    }
}
