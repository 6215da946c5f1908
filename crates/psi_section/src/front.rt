//! How bytes begin, and whether a section is whole.

ghost use Rattle.std.specs.Prelude.{◌≡◌, ◌≤◌, Some, length};
ghost use Rattle.psi_section.specs.Sections.{section_length, front_of, front_by, has_crc, is_bad};

use crate::checksum::crc;
use crate::store::SECTION_SIZE;

/// How the bytes begin in which the next section may stand.
#[derive(Clone, Copy, Debug, PartialEq, Eq, Drop)]
pub enum Front {
    /// With no section: there are no bytes, or stuffing, or a section over 4,096 bytes.
    Nothing,
    /// With a section of so many bytes.
    Whole(usize),
    /// With a section that goes on behind them.
    Part,
}

/// How the bytes begin.
pub(crate) fn front_of(bytes: &[u8]) -> Front
    ensures { result ≡ front_of bytes.now }
{
    match bytes {
        [] | [0xFF, ..] => Front::Nothing,
        [_, _, _, ..] => front_by(section_length(bytes) + 3, bytes.len()),
        _ => Front::Part,
    }
}

/// section_length: how many bytes of a section stand behind its third.
pub fn section_length(section: &[u8]) -> usize
    requires { 3 ≤ length section.now }
    ensures { result ≡ section_length section.now }
{
    (section[1] % 16) as usize * 256 + section[2] as usize
}

/// How so many bytes begin, where the section that begins them has this size.
fn front_by(size: usize, have: usize) -> Front
    ensures { result ≡ front_by (Some size) have }
{
    if size > SECTION_SIZE {
        Front::Nothing
    } else if size <= have {
        Front::Whole(size)
    } else {
        Front::Part
    }
}

/// Whether the section's CRC_32 fails. That of a section without CRC_32 does not.
pub(crate) fn is_bad(section: &[u8]) -> bool
    requires { 3 ≤ length section.now }
    ensures { result ≡ is_bad section.now }
{
    has_crc(section) && crc(section) != 0
}

/// Whether the section ends with CRC_32.
fn has_crc(section: &[u8]) -> bool
    requires { 3 ≤ length section.now }
    ensures { result ≡ has_crc section.now }
{
    section[1] / 128 % 2 == 1 || section[0] == 0xFC
}
