//! A request, and the packet before which it comes.

ghost use Rattle.std.specs.Prelude.{◌≡◌};
ghost use Rattle.scte104_codec.specs.Requesting.{Asks};
ghost use Rattle.break_scripts.specs.Scripts.{head_of, message};

use arrayvec::ArrayVec;
use scte104_codec::{Head, SpliceRequest, write_request};

/// A request before a packet of a network.
#[derive(Clone, Copy, Debug, PartialEq, Eq)]
pub struct PlacedRequest {
    /// How many packets stand before the one before which it comes.
    pub packet: u64,
    /// What is asked for.
    pub request: SpliceRequest,
}

/// The bytes of its message, with this number, to the program of this `DPI_PID_index`. It is read as just this request.
pub fn request_bytes(request: SpliceRequest, number: u8, index: u16) -> ArrayVec<u8, 30>
    ensures bytes { result.items ≡ message number index request }
    ensures asks { Asks result.items (head_of number index) request }
{
    let head = Head {
        as_index: 0,
        number,
        index,
    };
    write_request(head, request)
}
