//! CRC_32, eight bytes a turn.

ghost use Rattle.std.specs.Prelude.{◌≡◌, ◌<◌, ◌≤◌, ◌+◌, ◌∷◌, [], replicate};
ghost use Rattle.arrayvec.specs.ArrayVec.{array_vec_len};
ghost use Rattle.psi_section.specs.Crc.{crc, crc_remainder, with_crc};

use crate::tables::TABLES;
use arrayvec::ArrayVec;
use wire_fields::put_number32;

/// CRC_32 of the bytes (ISO/IEC 13818-1, Annex A), from the start value all ones; that of a section with its own CRC_32 is 0.
pub fn crc(bytes: &[u8]) -> u32
    ensures { result ≡ crc bytes.now }
{
    let (chunks, rest) = bytes.as_chunks::<8>();
    let mut remainder = u32::MAX;
    for chunk in chunks {
        remainder = with_chunk(remainder, chunk);
    }
    with_bytes(remainder, rest)
}

/// Puts the bytes' CRC_32 behind them, so that the CRC_32 of the whole is 0.
pub fn seal<const N: usize>(section: &mut ArrayVec<u8, N>)
    requires { array_vec_len section.old + 4 ≤ N }
    ensures value { section.new.items ≡ with_crc section.old.items }
    ensures checked { crc section.new.items ≡ 0 }
{
    let remainder = crc(section.as_slice());
    put_number32(section, remainder);
}

/// The remainder with these bytes behind.
fn with_bytes(mut remainder: u32, bytes: &[u8]) -> u32
    ensures { result ≡ crc_remainder remainder bytes.now }
{
    for byte in bytes {
        remainder = with_byte(remainder, *byte);
    }
    remainder
}

/// The remainder with this byte behind.
#[inline]
#[tactic(auto, using(crate::proofs::CrcLemmas::byte_step_crc))]
fn with_byte(remainder: u32, byte: u8) -> u32
    ensures { result ≡ crc_remainder remainder (byte ∷ []) }
{
    crc_entry((remainder >> 24) as u8 ^ byte) ^ (remainder << 8)
}

/// The remainder with these eight bytes behind. The division is linear, so each byte is divided on its own, with zeros in place of
/// those behind it. The last four, which the remainder does not touch, come first, since their words can be fetched before it is
/// known.
#[inline]
#[tactic(auto, using(crate::proofs::ChunkLemmas::chunk_behind))]
fn with_chunk(remainder: u32, chunk: &[u8; 8]) -> u32
    ensures { result ≡ crc_remainder remainder chunk.now }
{
    let [first, second, third, fourth] = remainder.to_be_bytes();
    table_word(0, chunk[7])
        ^ table_word(1, chunk[6])
        ^ table_word(2, chunk[5])
        ^ table_word(3, chunk[4])
        ^ table_word(4, fourth ^ chunk[3])
        ^ table_word(5, third ^ chunk[2])
        ^ table_word(6, second ^ chunk[1])
        ^ table_word(7, first ^ chunk[0])
}

/// CRC_32's remainder of this byte alone, from the start value 0.
#[inline]
pub fn crc_entry(byte: u8) -> u32
    ensures { result ≡ crc_remainder 0 (byte ∷ []) }
{
    table_word(0, byte)
}

/// The remainder of this byte with so many zero bytes behind it, from the start value 0.
#[inline]
#[tactic(auto, using(crate::proofs::TableLemmas::word_is))]
fn table_word(zeros: usize, byte: u8) -> u32
    requires { zeros < 8 }
    ensures { result ≡ crc_remainder 0 (byte ∷ replicate zeros 0) }
{
    TABLES[zeros][byte as usize]
}
