//! The fields of a message of either kind.

ghost use Rattle.std.specs.Prelude.{◌≡◌, ◌≤◌, length};
ghost use Rattle.scte104_codec.specs.declared.framing.Frame.TheVariants.{Whole};
ghost use Rattle.scte104_codec.specs.Framing.{frame_of};
ghost use Rattle.scte104_codec.specs.Reading.{MessageReading, message_of, single_operation_of, multiple_operation_of};
ghost use Rattle.scte104_codec.specs.Grammar.{Spells};
ghost use Rattle.scte104_codec.specs.Views.{reading_of};

use crate::head::{Head, head_of};
use crate::multi::Multi;
use crate::operation_ids::{ALIVE_REQUEST, INIT_REQUEST, MULTIPLE_OPERATION};
use crate::operations::Operations;
use thiserror::Error;
use wire_fields::{bytes_from, number16};

/// A message that was read. Its data lie in the bytes that it was read from.
#[derive(Clone, Copy, Debug)]
pub enum Message<'a> {
    /// `init_request`. Its data, if any, are passed over.
    Init(Head),
    /// `alive_request` with its data, at most 8 bytes, which the reply repeats.
    Alive(Head, &'a [u8]),
    /// Any other `single_operation_message`. Its data are passed over.
    Other(Head),
    /// A `multiple_operation_message`.
    Multi(Multi<'a>),
}

/// A message that breaks the syntax: a `multiple_operation_message` without a time whose operations don't fill it exactly, or
/// have data of a wrong size; or an `alive_request` with more than 8 bytes of data.
#[derive(Clone, Copy, Debug, PartialEq, Eq, Error)]
#[error("a message that breaks the syntax")]
pub struct BadMessage {
    /// Whether it is a `multiple_operation_message`, and not an `alive_request`.
    pub multi: bool,
    /// Its head, for the reply.
    pub head: Head,
}

// Behind `opID`, `messageSize`, `result`, `result_extension` and `protocol_version` stands the head, and then the data.
#[tactic(auto, unfolding(crate::specs::Reading::single_operation_of))]
fn single_operation(bytes: &[u8]) -> Result<Message<'_>, BadMessage>
    requires { 13 ≤ length bytes.now }
    ensures { reading_of result ≡ single_operation_of bytes.now }
{
    let head = head_of(bytes, 9);
    let data = bytes_from(bytes, 13);
    match number16(bytes, 0) {
        INIT_REQUEST => Ok(Message::Init(head)),
        ALIVE_REQUEST if data.len() <= 8 => Ok(Message::Alive(head, data)),
        ALIVE_REQUEST => Err(BadMessage { multi: false, head }),
        _ => Ok(Message::Other(head)),
    }
}

// Behind 0xFFFF and `messageSize` stand `protocol_version`, the head, `SCTE35_protocol_version` and `time_type`, and
// without a time `num_ops` and the operations.
#[tactic(auto, unfolding(crate::specs::Reading::multiple_operation_of))]
fn multiple_operation(bytes: &[u8]) -> Result<Message<'_>, BadMessage>
    requires { 12 ≤ length bytes.now }
    ensures { reading_of result ≡ multiple_operation_of bytes.now }
{
    let head = head_of(bytes, 5);
    let time_kind = bytes[10];
    let rest = bytes_from(bytes, 12);
    let operations = if time_kind == 0 {
        Operations::all(bytes[11], rest)
    } else {
        Some(Operations::none(rest))
    };
    let Some(operations) = operations else {
        return Err(BadMessage { multi: true, head });
    };
    Ok(Message::Multi(Multi {
        head,
        version: bytes[4],
        cue_version: bytes[9],
        time_kind,
        operations,
    }))
}

#[tactic(auto, unfolding(crate::specs::Reading::message_of), using(crate::proofs::FrameLemmas::whole_single, crate::proofs::FrameLemmas::whole_multiple, crate::proofs::FrameLemmas::whole_four))]
fn read_whole(bytes: &[u8]) -> Result<Message<'_>, BadMessage>
    requires { frame_of bytes.now ≡ Whole (length bytes.now) }
    ensures { reading_of result ≡ message_of bytes.now }
{
    if number16(bytes, 0) == MULTIPLE_OPERATION {
        multiple_operation(bytes)
    } else {
        single_operation(bytes)
    }
}

/// Reads a whole message, as `frame` cuts it.
///
/// # Errors
///
/// [`BadMessage`] exactly where the message breaks the syntax, with its kind and its head for the reply.
pub fn read(bytes: &[u8]) -> Result<Message<'_>, BadMessage>
    requires { frame_of bytes.now ≡ Whole (length bytes.now) }

    // The message by its fields' places.
    ensures exact { reading_of result ≡ message_of bytes.now }

    // What is read is in the grammar, and nothing else that these bytes spell.
    ensures spelled { Spells (reading_of result) bytes.now }
    ensures only { (other : MessageReading) → Spells other bytes.now → reading_of result ≡ other }
{
    read_whole(bytes)
}
