//! Sections that are written.

ghost use Rattle.std.specs.Prelude.{◌≡◌, ◌+◌, ◌<◌, ◌≤◌, ◌++◌, length};
ghost use Rattle.psi_tables.specs.ProgramMap.{map_of, map_length, body_with};
ghost use Rattle.psi_section.specs.Crc.{with_crc};

use arrayvec::ArrayVec;
use psi_section::seal;
use wire_fields::{number16, put, put_number16};

/// A section that was written, at most 1,024 bytes.
pub type Section = ArrayVec<u8, 1024>;

/// The bytes before `CRC_32` of a map's section with these descriptors and entries in place of its own.
fn body_of(map: &[u8], info: &[u8], entries: &[u8]) -> Section
    requires long { 16 ≤ length map.now }
    requires size { map_length info.now entries.now ≤ 1021 }
    ensures value { result.items ≡ body_with (map_of map.now) info.now entries.now }
    ensures short { length result.items ≤ 1020 }
{
    let mut out = ArrayVec::new();
    put(&mut out, &[2]);
    put_number16(
        &mut out,
        number16(map, 1) / 4096 * 4096 + (13 + info.len() + entries.len()) as u16,
    );
    put_number16(&mut out, number16(map, 3));
    put(&mut out, &[map[5], map[6], map[7]]);
    put_number16(&mut out, number16(map, 8));
    put_number16(
        &mut out,
        number16(map, 10) / 4096 * 4096 + info.len() as u16,
    );
    put(&mut out, info);
    put(&mut out, entries);
    out
}

/// A map's section with these descriptors and entries in place of its own, and its `CRC_32` computed again.
pub fn map_with(map: &[u8], info: &[u8], entries: &[u8]) -> Section
    requires long { 16 ≤ length map.now }
    requires size { map_length info.now entries.now ≤ 1021 }
    ensures { result.items ≡ with_crc (body_with (map_of map.now) info.now entries.now) }
{
    let mut out = body_of(map, info, entries);
    seal(&mut out);
    out
}
