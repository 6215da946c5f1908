//! The reply to a message.

ghost use Rattle.std.specs.Prelude.{◌≡◌, ◌≤◌, Result, length};
ghost use Rattle.injector.specs.Replies.{reply_with, alive_reply_of, bad_reply_of, verdict_reply_of};

use crate::refusal::Refusal;
use arrayvec::ArrayVec;
use scte104_codec::operation_ids::{ALIVE_RESPONSE, INJECT_RESPONSE};
use scte104_codec::{BadMessage, Head, Reply};

/// The `result` of a reply to a request that is accepted.
pub(crate) const SUCCESS: u16 = 100;

/// The `result` of a reply to a single operation that this profile does not serve.
pub(crate) const UNSERVED: u16 = 0x8005;

/// The `result` of a reply to a message that breaks the syntax.
const BAD_SYNTAX: u16 = 0x8001;

/// The most bytes of data that a reply has.
const MOST: usize = 8;

/// The reply with these fields.
pub(crate) fn reply(op: u16, number: u16, head: Head, body: &[u8]) -> Reply
    requires { length body.now ≤ 8 }
    ensures { result ≡ reply_with op number head body.now }
{
    let mut tail = ArrayVec::new();
    tail.try_extend_from_slice(body).unwrap();
    Reply {
        op,
        result: number,
        head,
        tail,
    }
}

/// The reply to an `alive_request`, with its data.
pub(crate) fn alive_reply(head: Head, body: &[u8]) -> Reply
    ensures { result ≡ alive_reply_of head body.now }
{
    if body.len() > MOST {
        return reply(ALIVE_RESPONSE, BAD_SYNTAX, head, &[]);
    }
    reply(ALIVE_RESPONSE, SUCCESS, head, body)
}

/// The reply to a message that breaks the syntax.
pub(crate) fn bad_reply(bad: BadMessage) -> Reply
    ensures { result ≡ bad_reply_of bad.multi bad.head }
{
    if bad.multi {
        return reply(INJECT_RESPONSE, BAD_SYNTAX, bad.head, &[bad.head.number]);
    }
    reply(ALIVE_RESPONSE, BAD_SYNTAX, bad.head, &[])
}

/// The reply to a request that was judged.
pub(crate) fn verdict_reply(head: Head, verdict: Result<(), Refusal>) -> Reply
    ensures { result ≡ verdict_reply_of head verdict }
{
    let number = match verdict {
        Ok(()) => SUCCESS,
        Err(refusal) => refusal.number(),
    };
    reply(INJECT_RESPONSE, number, head, &[head.number])
}
