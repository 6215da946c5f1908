//! The message at the front of some bytes.

ghost use Rattle.std.specs.Prelude.{◌≡◌};
ghost use Rattle.scte104_codec.specs.Framing.{frame_of};

use crate::framing::{Frame, frame_size};

/// Cuts the message at the front of the bytes, by its field `messageSize` alone. Bytes may follow it.
#[tactic(auto, unfolding(crate::specs::Framing::frame_of))]
pub fn frame(bytes: &[u8]) -> Frame
    ensures { result ≡ frame_of bytes.now }
{
    if bytes.len() < 4 {
        return Frame::NeedMore(4 - bytes.len());
    }
    let Some(size) = frame_size(bytes) else {
        return Frame::BadSize;
    };
    if bytes.len() < size {
        return Frame::NeedMore(size - bytes.len());
    }
    Frame::Whole(size)
}
