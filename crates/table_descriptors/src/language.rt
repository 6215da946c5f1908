//! The language of a stream.

ghost use Rattle.std.specs.Prelude.{◌≡◌, option_map, length};
ghost use Rattle.psi_tables.specs.Streams.{entry_at};
ghost use Rattle.psi_tables.specs.Runs.{things_of};
ghost use Rattle.psi_tables.specs.ProgramMap.{map_of, entries_in};
ghost use Rattle.table_descriptors.specs.Finding.{language_on, language_told, info_on, taken_entry, shown_entry};

use crate::finding::find_descriptor;
use psi_tables::Pmt;
use ts_packet::Pid;
use wire_fields::{bytes_from, number12};

/// The tag of an ISO_639_language_descriptor.
const LANGUAGE: u8 = 10;

/// The first ISO_639_language_code of the stream that a map lists on this PID; `None` where the map lists none there, or its entry has
/// no such descriptor.
#[tactic(auto, unfolding(psi_tables::specs::ProgramMap::map_of))]
pub fn language_of(map: &Pmt<'_>, pid: Pid) -> Option<[u8; 3]>
    ensures { result ≡ language_on pid (map_of map.now.bytes.now) }
{
    match find_info(entries(map), pid) {
        None => None,
        Some(info) => language_told(info),
    }
}

/// The language that descriptors tell.
fn language_told(info: &[u8]) -> Option<[u8; 3]>
    ensures { result ≡ language_told info.now }
{
    match find_descriptor(info, LANGUAGE) {
        Some(body) if body.len() >= 4 => Some([body[0], body[1], body[2]]),
        _ => None,
    }
}

/// The bytes of a map's entries.
#[tactic(auto, using(psi_tables::proofs::MapLemmas::map_long, psi_tables::proofs::MapLemmas::map_sixteen))]
pub(crate) fn entries<'a>(map: &Pmt<'a>) -> &'a [u8]
    ensures { result.now ≡ entries_in map.now.bytes.now }
{
    let bytes = map.bytes;
    let size = number12(bytes, 10) as usize;
    let (front, _) = bytes.split_at(bytes.len() - 4);
    bytes_from(bytes_from(front, 12), size)
}

/// The PID of the first entry, its descriptors and the bytes behind it; `None` where the bytes end before it does.
#[tactic(auto, unfolding(psi_tables::specs::Streams::entry_at, wire_fields::specs::Numbers::number16_at))]
fn first_entry(bytes: &[u8]) -> Option<(Pid, &[u8], &[u8])>
    ensures { option_map taken_entry result ≡ option_map shown_entry (entry_at bytes.now) }
{
    if bytes.len() < 5 {
        return None;
    }
    let size = number12(bytes, 3) as usize;
    if bytes.len() < 5 + size {
        return None;
    }
    let pid = Pid::of_bits(bytes[1], bytes[2]);
    Some((pid, &bytes[5..5 + size], &bytes[5 + size..]))
}

/// The descriptors of the first of the entries that lists this PID.
#[tactic(auto, using(crate::proofs::FindingLemmas::info_here, crate::proofs::FindingLemmas::info_later, crate::proofs::FindingLemmas::info_never, crate::proofs::FindingLemmas::entry_shorter))]
pub(crate) fn find_info(entries: &[u8], pid: Pid) -> Option<&[u8]>
    ensures { option_map (λ b. b.now) result ≡ info_on pid (things_of entry_at entries.now) }
{
    let mut rest = entries;
    while let Some((found, info, after)) = first_entry(rest) {
        if found == pid {
            return Some(info);
        }
        rest = after;
    }
    None
}
