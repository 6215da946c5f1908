//! How many messages were judged.

ghost use Rattle.std.specs.Prelude.{◌≡◌, ℕ, List, ◌∷◌};
ghost use Rattle.scte104_codec.specs.Reading.{MessageReading};
ghost use Rattle.injector.specs.Turns.{Turn, Judged};
ghost use Rattle.injector.specs.Replies.{reply_to};
ghost use Rattle.injector.specs.Steps.{outcome, is_accepted, has_news};
ghost use Rattle.injector.specs.Injecting.{CountsAre};

use crate::reply::SUCCESS;
use scte104_codec::Reply;
use scte104_codec::operation_ids::INJECT_RESPONSE;

/// How many messages were judged. A count stops at the greatest.
#[derive(Clone, Copy, Debug, PartialEq, Eq)]
pub struct MessageCounts {
    /// All messages.
    pub messages: u64,
    /// Multiple operations that were accepted.
    pub accepted: u64,
    /// Multiple operations that were refused.
    pub refused: u64,
}

/// Whether this is the answer to a multiple operation that was accepted.
pub(crate) fn accepts(reply: &Reply) -> bool
    ensures { (index : ℕ) (m : MessageReading) (past : List Turn) → reply.now ≡ reply_to index m past →
        result ≡ is_accepted (outcome index m past) }
{
    reply.op == INJECT_RESPONSE && reply.result == SUCCESS
}

/// Whether a request was accepted since the last packet, behind a message more, which was answered so.
pub(crate) fn has_news_behind(before: bool, reply: &Reply) -> bool
    ensures { (index : ℕ) (m : MessageReading) (past : List Turn) → before ≡ has_news index past →
        reply.now ≡ reply_to index m past → result ≡ has_news index (Judged m ∷ past) }
{
    before || accepts(reply)
}

/// The counts with one message more, which was answered so.
pub(crate) fn counted(before: MessageCounts, reply: &Reply) -> MessageCounts
    ensures { (index : ℕ) (m : MessageReading) (past : List Turn) → CountsAre before index past →
        reply.now ≡ reply_to index m past → CountsAre result index (Judged m ∷ past) }
{
    let mut counts = before;
    counts.messages = counts.messages.saturating_add(1);
    if reply.op == INJECT_RESPONSE {
        if accepts(reply) {
            counts.accepted = counts.accepted.saturating_add(1);
        } else {
            counts.refused = counts.refused.saturating_add(1);
        }
    }
    counts
}
