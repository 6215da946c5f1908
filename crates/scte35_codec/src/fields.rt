// Fields at the front of some bytes, each with the bytes behind it.
ghost use Rattle.std.specs.Prelude.{◌≡◌, ◌<◌, ◌≤◌, ◌%◌, ◌^◌, length, option_map};
ghost use Rattle.wire_fields.specs.Numbers.{number_of};
ghost use Rattle.scte35_codec.specs.Bits.{bit_of};
ghost use Rattle.scte35_codec.specs.Fields.{front, byte_at, number_at, ticks_at};

use byteorder::{BigEndian, ByteOrder};
use pes_time::Time33;

/// Whether this bit of a byte is set. Bit 7 is the one that comes first.
pub fn is_set(byte: u8, bit: u32) -> bool
    requires { bit < 8 }
    ensures { result ≡ bit_of bit byte }
{
    byte >> bit & 1 == 1
}

pub fn byte(bytes: &[u8]) -> Option<(u8, &[u8])>
    ensures { option_map front result ≡ byte_at bytes.now }
{
    match bytes {
        [] => None,
        [first, rest @ ..] => Some((*first, rest)),
    }
}

#[tactic(auto, unfolding(crate::specs::Fields::number_at, wire_fields::specs::Numbers::number_of, wire_fields::specs::Numbers::number16_at))]
pub fn number16(bytes: &[u8]) -> Option<(u16, &[u8])>
    ensures { option_map front result ≡ number_at 2 bytes.now }
{
    if bytes.len() < 2 {
        return None;
    }
    let (_, rest) = bytes.split_at(2);
    Some((wire_fields::number16(bytes, 0), rest))
}

/// The number that the four bytes at the front make.
#[tactic(auto, unfolding(wire_fields::specs::Numbers::number_of, wire_fields::specs::Numbers::number32_at))]
pub fn leading32(bytes: &[u8]) -> u32
    requires { 4 ≤ length bytes.now }
    ensures { result ≡ number_of 4 bytes.now }
{
    wire_fields::number32(bytes, 0)
}

#[tactic(auto, unfolding(crate::specs::Fields::number_at))]
pub fn number32(bytes: &[u8]) -> Option<(u32, &[u8])>
    ensures { option_map front result ≡ number_at 4 bytes.now }
{
    if bytes.len() < 4 {
        return None;
    }
    let (_, rest) = bytes.split_at(4);
    Some((leading32(bytes), rest))
}

/// The lowest 33 bits of the five bytes at the front.
#[tactic(auto, unfolding(wire_fields::specs::Numbers::number_of))]
pub fn low_33_bits(bytes: &[u8]) -> Time33
    requires { 5 ≤ length bytes.now }
    ensures { result ≡ number_of 5 bytes.now % 2 ^ 33 }
{
    Time33::new(BigEndian::read_uint(bytes, 5) % (1 << 33)).unwrap()
}

/// A flag, six reserved bits and 33 bits of ticks.
#[tactic(auto, unfolding(crate::specs::Fields::ticks_at))]
pub fn ticks(bytes: &[u8]) -> Option<(bool, Time33, &[u8])>
    ensures { option_map (λ x. ((x.0, x.1), x.2.now)) result ≡ ticks_at bytes.now }
{
    if bytes.len() < 5 {
        return None;
    }
    let (_, rest) = bytes.split_at(5);
    Some((is_set(bytes[0], 7), low_33_bits(bytes), rest))
}
