//! Fields that stand at a place in some bytes.

ghost use Rattle.std.specs.Prelude.{◌≡◌, ◌+◌, ◌%◌, ◌<◌, ◌≤◌, length, drop};
ghost use Rattle.wire_fields.specs.Numbers.{number16_at, number32_at};

use byteorder::{BigEndian, ByteOrder};

/// The number that the two bytes at this place make.
#[tactic(auto, unfolding(crate::specs::Numbers::number16_at))]
pub fn number16(bytes: &[u8], place: usize) -> u16
    requires { place + 2 ≤ length bytes.now }
    ensures { result ≡ number16_at bytes.now place }
{
    BigEndian::read_u16(bytes_from(bytes, place))
}

/// The number that the last 12 bits of the two bytes at this place make.
pub fn number12(bytes: &[u8], place: usize) -> u16
    requires { place + 2 ≤ length bytes.now }
    ensures value { result ≡ number16_at bytes.now place % 4096 }
    ensures below { result < 4096 }
{
    number16(bytes, place) % 4096
}

/// The number that the four bytes at this place make.
#[tactic(auto, unfolding(crate::specs::Numbers::number32_at))]
pub fn number32(bytes: &[u8], place: usize) -> u32
    requires { place + 4 ≤ length bytes.now }
    ensures { result ≡ number32_at bytes.now place }
{
    BigEndian::read_u32(bytes_from(bytes, place))
}

/// The bytes from this place on.
pub fn bytes_from(bytes: &[u8], place: usize) -> &[u8]
    requires { place ≤ length bytes.now }
    ensures { result.now ≡ drop place bytes.now }
{
    let (_, rest) = bytes.split_at(place);
    rest
}
