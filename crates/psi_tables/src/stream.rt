//! The entries of a program map.

ghost use Rattle.std.specs.Prelude.{◌≡◌, ◌≤◌, is_some, option_map, length, true};
ghost use Rattle.std.specs.List.{list_any};
ghost use Rattle.psi_tables.specs.Runs.{run_of, things_of};
ghost use Rattle.psi_tables.specs.Streams.{entry_at, taken_entry, shown_entry, is_switched};
ghost use Rattle.psi_tables.specs.ProgramMap.{entries_bytes};
ghost use Rattle.psi_tables.specs.Cue.{lists_pid, without_pid};

use crate::section::pid_at;
use crate::writing::Section;
use arrayvec::ArrayVec;
use ts_packet::Pid;
use wire_fields::{number12, put};

/// A stream that a program map lists.
#[derive(Clone, Copy, Debug, PartialEq, Eq)]
pub struct Stream {
    /// `stream_type`, one byte.
    pub kind: u8,
    /// `elementary_PID`.
    pub pid: Pid,
}

impl Default for Stream {
    /// `stream_type` 0, which is reserved, on PID 0.
    fn default() -> Stream
        ensures { result ≡ record { kind = 0; pid = 0 } }
    {
        Stream {
            kind: 0,
            pid: Pid::of_bits(0, 0),
        }
    }
}

/// The stream of the first entry, the entry's own bytes and those behind it.
#[tactic(auto, unfolding(crate::specs::Streams::entry_at))]
pub fn first_entry(bytes: &[u8]) -> Option<(Stream, &[u8], &[u8])>
    ensures { option_map taken_entry result ≡ option_map (shown_entry bytes.now) (entry_at bytes.now) }
{
    if bytes.len() < 5 {
        return None;
    }
    let size = 5 + number12(bytes, 3) as usize;
    if bytes.len() < size {
        return None;
    }
    let stream = Stream {
        kind: bytes[0],
        pid: pid_at(bytes, 1),
    };
    let (front, after) = bytes.split_at(size);
    Some((stream, front, after))
}

/// Whether entries fill the bytes exactly.
#[tactic(auto, using(crate::proofs::EntryLemmas::entry_shorter, crate::proofs::EntryLemmas::entries_fill_more, crate::proofs::EntryLemmas::entries_fill_ends, crate::proofs::EntryLemmas::entries_fill_done))]
pub fn entries_fill(bytes: &[u8]) -> bool
    ensures { result ≡ is_some (run_of entry_at bytes.now) }
{
    let mut rest = bytes;
    while !rest.is_empty() {
        let Some((_, _, after)) = first_entry(rest) else {
            return false;
        };
        rest = after;
    }
    true
}

/// Whether streams of this type are switched.
pub fn is_switched_kind(kind: u8) -> bool
    ensures { result ≡ is_switched kind }
{
    matches!(
        kind,
        0x01 | 0x02 | 0x03 | 0x04 | 0x0F | 0x11 | 0x1B | 0x24 | 0x81
    )
}

/// The entries without those of the PID, and whether there was one.
#[tactic(auto, using(crate::proofs::EntryLemmas::entry_shorter, crate::proofs::EntryLemmas::entry_kept, crate::proofs::EntryLemmas::entry_dropped, crate::proofs::EntryLemmas::without_done, crate::proofs::EntryLemmas::front_room))]
pub fn entries_without(bytes: &[u8], pid: Pid) -> (Section, bool)
    requires sound { is_some (run_of entry_at bytes.now) ≡ true }
    requires size { length bytes.now ≤ 1021 }
    ensures kept { result.0.items ≡ entries_bytes (without_pid pid (things_of entry_at bytes.now)) }
    ensures listed { result.1 ≡ list_any (lists_pid pid) (things_of entry_at bytes.now) }
    ensures shorter { length result.0.items ≤ length bytes.now }
{
    let mut kept = ArrayVec::new();
    let mut is_listed = false;
    let mut rest = bytes;
    while let Some((stream, front, after)) = first_entry(rest) {
        if stream.pid == pid {
            is_listed = true;
        } else {
            put(&mut kept, front);
        }
        rest = after;
    }
    (kept, is_listed)
}
