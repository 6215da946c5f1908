//! How many bytes a packet takes in a stream: 188, or more where something stands with each.

ghost use Rattle.std.specs.Prelude.{◌≡◌, ◌≤◌, length};
ghost use Rattle.stream_facts.specs.Sizes.{stride_of, bytes_before, bytes_behind, is_sync, in_row, is_spaced, packet_size_of};

/// The sync byte (ISO/IEC 13818-1, 2.4.3.3).
const SYNC_BYTE: u8 = 0x47;

/// How a stream's packets stand in its bytes.
#[derive(Clone, Copy, Debug, PartialEq, Eq)]
pub enum PacketSize {
    /// 188 bytes, one behind the other.
    Plain,
    /// 192 bytes: four with the time of arrival before each packet, as recorders write them.
    Timed,
    /// 204 bytes: sixteen of a Reed-Solomon code behind each packet (EN 300 744, 4.3.2), as receivers give them.
    Coded,
}

impl PacketSize {
    /// From the begin of one packet to that of the next, in bytes.
    pub fn bytes(self) -> usize
        ensures { result ≡ stride_of self }
    {
        match self {
            PacketSize::Plain => 188,
            PacketSize::Timed => 192,
            PacketSize::Coded => 204,
        }
    }

    /// Bytes that stand before each packet.
    pub(crate) fn front(self) -> usize
        ensures { result ≡ bytes_before self }
    {
        match self {
            PacketSize::Timed => 4,
            PacketSize::Plain => 0,
            PacketSize::Coded => 0,
        }
    }

    /// Bytes that stand behind each packet.
    pub(crate) fn back(self) -> usize
        ensures { result ≡ bytes_behind self }
    {
        match self {
            PacketSize::Coded => 16,
            PacketSize::Plain => 0,
            PacketSize::Timed => 0,
        }
    }

    /// The size of the packets at the front of a stream: the first of 188, 192 and 204 bytes by which five sync bytes in a row stand apart
    /// somewhere in these bytes; 188 where there is none.
    pub fn of_front(bytes: &[u8]) -> PacketSize
        ensures { result ≡ packet_size_of bytes.now }
    {
        if is_spaced(188, bytes) {
            PacketSize::Plain
        } else if is_spaced(192, bytes) {
            PacketSize::Timed
        } else if is_spaced(204, bytes) {
            PacketSize::Coded
        } else {
            PacketSize::Plain
        }
    }
}

/// Whether a sync byte stands at this place.
pub(crate) fn is_sync(bytes: &[u8], place: usize) -> bool
    ensures { result ≡ is_sync place bytes.now }
{
    place < bytes.len() && bytes[place] == SYNC_BYTE
}

/// Whether bytes begin with five sync bytes in a row that stand so far apart.
fn in_row(step: usize, bytes: &[u8]) -> bool
    requires { step ≤ 204 }
    ensures { result ≡ in_row step bytes.now }
{
    is_sync(bytes, 0)
        && is_sync(bytes, step)
        && is_sync(bytes, 2 * step)
        && is_sync(bytes, 3 * step)
        && is_sync(bytes, 4 * step)
}

/// Whether such a row begins anywhere in the bytes.
#[tactic(auto, unfolding(crate::specs::Sizes::is_spaced))]
fn is_spaced(step: usize, bytes: &[u8]) -> bool
    requires { step ≤ 204 }
    ensures { result ≡ is_spaced step bytes.now }
{
    let mut rest = bytes;
    while let Some((_, after)) = rest.split_first() {
        if in_row(step, rest) {
            return true;
        }
        rest = after;
    }
    false
}
