//! The entry by which a program map lists a stream of cues (SCTE 35).

ghost use Rattle.std.specs.Prelude.{◌≡◌, ◌+◌, ◌++◌, ◌∷◌, [], ◌<◌, ◌≤◌, length, is_none, true, IfOk};
ghost use Rattle.psi_tables.specs.Descriptors.{cue_registration, descriptor_bytes};
ghost use Rattle.psi_tables.specs.Streams.{entry_bytes};
ghost use Rattle.psi_tables.specs.ProgramMap.{pmt_fault, map_of, pmt_section};
ghost use Rattle.psi_tables.specs.Cue.{ReadsAs, cue_entry, with_cue_entry, without_cue_entry, section_or_too_long, seen_section};

use crate::descriptors::{CUE_REGISTRATION, before_registration};
use crate::pmt::{Pmt, loops};
use crate::stream::entries_without;
use crate::writing::{Section, map_with};
use arrayvec::ArrayVec;
use thiserror::Error;
use ts_packet::Pid;
use wire_fields::put;

/// A program map has no room for the entry: `section_length` would be over 1021.
#[derive(Clone, Copy, Debug, PartialEq, Eq, Drop, Error)]
#[error("a program map without room for a cue entry")]
pub struct TooLong;

/// An entry of `stream_type` 0x86 without descriptors; its reserved bits are ones.
fn entry_of(pid: Pid) -> [u8; 5]
    ensures value { result ≡ entry_bytes (cue_entry pid) }
    ensures below { pid < 8192 }
{
    let number = pid.get();
    [
        0x86,
        (0xE0 + number / 256) as u8,
        (number % 256) as u8,
        0xF0,
        0,
    ]
}

fn joined(front: &[u8], behind: &[u8]) -> Section
    requires { length front.now + length behind.now ≤ 1024 }
    ensures { result.items ≡ front.now ++ behind.now }
{
    let mut both = ArrayVec::new();
    put(&mut both, front);
    put(&mut both, behind);
    both
}

#[tactic(auto, using(crate::proofs::MapLemmas::map_sixteen, crate::proofs::MapLemmas::map_long, crate::proofs::MapLemmas::info_short, crate::proofs::MapLemmas::entries_short))]
fn with_entry(map: &[u8], pid: Pid) -> Result<Section, TooLong>
    requires { is_none (pmt_fault map.now) ≡ true }
    ensures exact { seen_section result ≡ section_or_too_long (with_cue_entry pid (map_of map.now)) }
    ensures reads { IfOk result (λ section. ReadsAs (with_cue_entry pid (map_of map.now)) section.items) }
{
    let (info, entries) = loops(map);
    let info = joined(info, &CUE_REGISTRATION);
    let entries = joined(entries, &entry_of(pid));
    if 13 + info.len() + entries.len() > 1021 {
        return Err(TooLong);
    }
    Ok(map_with(map, info.as_slice(), entries.as_slice()))
}

/// The map with an entry for cues on this PID as its last, and the registration descriptor as the last of the program's
/// descriptors. `CRC_32` is computed again, and the version stays.
///
/// # Errors
///
/// [`TooLong`] exactly where `section_length`, which grows by 11, would be over 1021.
pub fn add_cue(pmt: &Pmt<'_>, pid: Pid) -> Result<Section, TooLong>
    ensures exact { seen_section result ≡ section_or_too_long (with_cue_entry pid (map_of pmt.now.bytes.now)) }

    // What is written is read as that map, and an assembler can give it.
    ensures reads { IfOk result (λ section. ReadsAs (with_cue_entry pid (map_of pmt.now.bytes.now)) section.items) }
{
    with_entry(pmt.bytes, pid)
}

#[tactic(auto, using(crate::proofs::MapLemmas::map_sixteen, crate::proofs::MapLemmas::map_long, crate::proofs::MapLemmas::loops_short, crate::proofs::MapLemmas::info_short, crate::proofs::MapLemmas::entries_short, crate::proofs::MapLemmas::map_described, crate::proofs::MapLemmas::map_listed))]
fn without_entry(map: &[u8], pid: Pid) -> Section
    requires { is_none (pmt_fault map.now) ≡ true }
    ensures exact { result.items ≡ pmt_section (without_cue_entry pid (map_of map.now)) }
    ensures reads { ReadsAs (without_cue_entry pid (map_of map.now)) result.items }
{
    let (info, entries) = loops(map);
    let (entries, is_listed) = entries_without(entries, pid);
    if !is_listed {
        return map_with(map, info, entries.as_slice());
    }
    let info = before_registration(info);
    map_with(map, info.as_slice(), entries.as_slice())
}

/// The map without its entries for this PID. Where it had one, and the program's last descriptor is the registration descriptor,
/// that goes too. `CRC_32` is computed again, and the version stays.
pub fn strip_cue(pmt: &Pmt<'_>, pid: Pid) -> Section
    ensures exact { result.items ≡ pmt_section (without_cue_entry pid (map_of pmt.now.bytes.now)) }
    ensures reads { ReadsAs (without_cue_entry pid (map_of pmt.now.bytes.now)) result.items }
{
    without_entry(pmt.bytes, pid)
}
