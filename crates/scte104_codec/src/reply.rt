//! The bytes of a reply.

ghost use Rattle.std.specs.Prelude.{◌≡◌};
ghost use Rattle.scte104_codec.specs.Replies.{reply_bytes};

use crate::head::Head;
use arrayvec::ArrayVec;
use wire_fields::{put, put_number16};

/// A reply, which goes out as a `single_operation_message`.
#[derive(Debug, Drop)]
pub struct Reply {
    /// `opID` of the response.
    pub op: u16,
    /// `result`: 100 for success.
    pub result: u16,
    /// `AS_index`, `message_number` and `DPI_PID_index`, those of the request.
    pub head: Head,
    /// The data, at most 8 bytes.
    pub tail: ArrayVec<u8, 8>,
}

/// The bytes of a reply: a `single_operation_message` with `messageSize` of the whole, `result_extension` 0xFFFF and
/// `protocol_version` 0.
pub fn write_reply(reply: &Reply) -> ArrayVec<u8, 21>
    ensures { result.items ≡ reply_bytes reply.now }
{
    let mut bytes = ArrayVec::new();
    put_number16(&mut bytes, reply.op);
    put_number16(&mut bytes, 13 + reply.tail.len() as u16);
    put_number16(&mut bytes, reply.result);
    put_number16(&mut bytes, 0xFFFF);
    put(&mut bytes, &[0, reply.head.as_index, reply.head.number]);
    put_number16(&mut bytes, reply.head.index);
    put(&mut bytes, reply.tail.as_slice());
    bytes
}
