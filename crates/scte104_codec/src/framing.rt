//! Where a message ends.

ghost use Rattle.std.specs.Prelude.{◌≡◌, ◌<◌, ◌≤◌, length, IfSome};
ghost use Rattle.scte104_codec.specs.Framing.{size_in};

use crate::operation_ids::MULTIPLE_OPERATION;
use wire_fields::number16;

/// How far the message at the front of some bytes has come.
#[derive(Clone, Copy, Debug, PartialEq, Eq)]
pub enum Frame {
    /// The message isn't whole, and lacks at least this many bytes. The size stands in the third and fourth byte: before these are
    /// there, the number is what is missing of the four.
    NeedMore(usize),
    /// The message is whole, and has this size in bytes. Others may stand behind it.
    Whole(usize),
    /// The message states a size that is below the least of its kind.
    BadSize,
}

/// The size of the message at the front in bytes, by its first four: the field `messageSize`, which counts the whole
/// message. `None` where it is under 12 for a `multiple_operation_message`, or under 13 for a
/// `single_operation_message`.
#[tactic(auto, unfolding(crate::specs::Framing::size_in))]
pub fn frame_size(bytes: &[u8]) -> Option<usize>
    requires { 4 ≤ length bytes.now }
    ensures size { result ≡ size_in bytes.now }
    ensures bounds { IfSome result (λ size. (12 ≤ size) × (size < 65536)) }
{
    let size = number16(bytes, 2);
    let least = if number16(bytes, 0) == MULTIPLE_OPERATION {
        12
    } else {
        13
    };
    if size < least {
        None
    } else {
        Some(size as usize)
    }
}
