//! What the sections of all tables have in common.

ghost use Rattle.std.specs.Prelude.{◌≡◌, ◌+◌, ◌%◌, ◌≤◌, length};
ghost use Rattle.wire_fields.specs.Numbers.{number16_at};
ghost use Rattle.psi_tables.specs.Sections.{is_table, has_size, before_crc};

use psi_section::section_length;
use ts_packet::Pid;

/// The PID in the last 13 bits of the two bytes at this place.
#[tactic(auto, unfolding(wire_fields::specs::Numbers::number16_at))]
pub fn pid_at(bytes: &[u8], place: usize) -> Pid
    requires { place + 2 ≤ length bytes.now }
    ensures { result ≡ number16_at bytes.now place % 8192 }
{
    Pid::of_bits(bytes[place], bytes[place + 1])
}

/// The bytes before `CRC_32`.
pub fn up_to_crc(bytes: &[u8]) -> &[u8]
    requires { 4 ≤ length bytes.now }
    ensures { result.now ≡ before_crc bytes.now }
{
    let (front, _) = bytes.split_at(bytes.len() - 4);
    front
}

/// Whether the first bytes say that this is a section of the table.
pub fn is_of_table(id: u8, bytes: &[u8]) -> bool
    requires { 3 ≤ length bytes.now }
    ensures { result ≡ is_table id bytes.now }
{
    bytes[0] == id && bytes[1] / 128 % 2 == 1
}

/// Whether `section_length` is 1021 at most and that of the bytes, and these are at least so many.
pub fn fits_its_size(least: usize, bytes: &[u8]) -> bool
    requires { 3 ≤ length bytes.now }
    ensures { result ≡ has_size least bytes.now }
{
    let size = section_length(bytes);
    size <= 1021 && size + 3 == bytes.len() && least <= bytes.len()
}
