//! `AS_index`, `message_number` and `DPI_PID_index`, which stand side by side in the messages of both kinds.

ghost use Rattle.std.specs.Prelude.{◌≡◌, ◌+◌, ◌≤◌, length};
ghost use Rattle.scte104_codec.specs.Head.{head_at};

use wire_fields::number16;

/// What the messages of both kinds have in common.
#[derive(Clone, Copy, Debug, PartialEq, Eq)]
pub struct Head {
    /// `AS_index`: which automation system speaks, one byte.
    pub as_index: u8,
    /// `message_number`, one byte, which the reply repeats.
    pub number: u8,
    /// `DPI_PID_index`: which program's cues are meant, two bytes.
    pub index: u16,
}

#[tactic(auto, unfolding(crate::specs::Head::head_at))]
pub fn head_of(bytes: &[u8], place: usize) -> Head
    requires { place + 4 ≤ length bytes.now }
    ensures { result ≡ head_at bytes.now place }
{
    Head {
        as_index: bytes[place],
        number: bytes[place + 1],
        index: number16(bytes, place + 2),
    }
}
