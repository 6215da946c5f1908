//! The program map section.

ghost use Rattle.std.specs.Prelude.{◌≡◌, ◌≤◌, ◌+◌, ◌%◌, length, option_map, IfOk, Ok, slice_index, is_none, true, is_some, IsTrue, ◌↔◌};
ghost use Rattle.psi_tables.specs.Runs.{run_of, things_of};
ghost use Rattle.psi_tables.specs.Sections.{is_current, seen_by};
ghost use Rattle.psi_tables.specs.Streams.{entry_at, pid_in, few_switched, seen_switched};
ghost use Rattle.psi_tables.specs.Descriptors.{descriptor_at};
ghost use Rattle.psi_tables.specs.StreamsLeft.{streams_left};
ghost use Rattle.psi_tables.specs.ProgramMap.{ProgramMap, IsProgramMap, pmt, pmt_fault, pmt_fills, map_of, pmt_section};
ghost use Rattle.psi_tables.specs.ProgramMap.{info_length, info_in, entries_in, streams_of};

use crate::descriptors::descriptors_fill;
use crate::entries::Entries;
use crate::fault::{TableFault, TooManyStreams};
use crate::section::{fits_its_size, is_of_table, pid_at, up_to_crc};
use crate::stream::{Stream, entries_fill, is_switched_kind};
use arrayvec::ArrayVec;
use ts_packet::Pid;
use wire_fields::{bytes_from, number12, number16};

/// A program map section (ISO/IEC 13818-1, 2.4.4.8): which streams make up a program.
#[derive(Clone, Copy, Debug)]
pub struct Pmt<'a> {
    /// The section, from `table_id` to `CRC_32`.
    pub bytes: &'a [u8],
    pub ghost sound: { is_none (pmt_fault bytes.now) ≡ true },
}

#[tactic(auto, unfolding(crate::specs::ProgramMap::map_of, crate::specs::ProgramMap::pmt), using(crate::proofs::MapLemmas::map_long, crate::proofs::MapLemmas::map_sixteen, crate::proofs::MapLemmas::map_faultless))]
impl<'a> Pmt<'a> {
    /// Reads a whole section. Its `CRC_32` and its reserved bits are not looked at.
    ///
    /// # Errors
    ///
    /// The first of `WrongTable` and `BadLength` that applies, as [`TableFault`] says; fewer than three bytes are always `BadLength`.
    pub fn read(bytes: &'a [u8]) -> Result<Pmt<'a>, TableFault>
        ensures bytes { IfOk result (λ p. p.bytes.now ≡ bytes.now) }

        // The map by the places of its fields, or the first fault.
        ensures exact { seen_by (λ p. map_of p.bytes.now) result ≡ pmt bytes.now }

        // What is read is spelled so, and what is spelled so is read.
        ensures spelled { IfOk result (λ p. IsProgramMap (map_of p.bytes.now)
            × (bytes.now ≡ pmt_section (map_of p.bytes.now))) }
        ensures only { (m : ProgramMap) → IsProgramMap m → bytes.now ≡ pmt_section m → pmt bytes.now ≡ Ok m }
    {
        match fault_of(bytes) {
            None => Ok(Pmt { bytes }),
            Some(fault) => Err(fault),
        }
    }

    /// `program_number`: the program that the map is of.
    pub fn program(&self) -> u16
        ensures { result ≡ (map_of self.now.bytes.now).program }
    {
        number16(self.bytes, 3)
    }

    /// `current_next_indicator`: the map applies now.
    pub fn current(&self) -> bool
        ensures { result ≡ is_current (map_of self.now.bytes.now).version }
    {
        self.bytes[5] % 2 == 1
    }

    /// `section_number` and `last_section_number`.
    pub fn numbers(&self) -> (u8, u8)
        ensures { result ≡ (
          (map_of self.now.bytes.now).section_number,
          (map_of self.now.bytes.now).last_section_number,
        ) }
    {
        (self.bytes[6], self.bytes[7])
    }

    /// `PCR_PID`: where the program's clock references are.
    pub fn pcr_pid(&self) -> Pid
        ensures { result ≡ pid_in (map_of self.now.bytes.now).pcr_field }
    {
        pid_at(self.bytes, 8)
    }

    /// The streams that the map lists, in order.
    pub fn entries(&self) -> Entries<'a>
        ensures { streams_left result ≡ streams_of (map_of self.now.bytes.now) }
    {
        let (_, entries) = loops(self.bytes);
        Entries::of(entries)
    }

    /// The switched streams in order: those of the stream types 0x01, 0x02, 0x03, 0x04, 0x0F, 0x11, 0x1B, 0x24 and 0x81.
    ///
    /// # Errors
    ///
    /// [`TooManyStreams`] exactly where there are more than eight.
    #[tactic(auto, using(crate::proofs::SwitchedLemmas::switching_more, crate::proofs::SwitchedLemmas::switching_past, crate::proofs::SwitchedLemmas::switching_done, crate::proofs::SwitchedLemmas::switching_full))]
    pub fn switched(&self) -> Result<ArrayVec<Stream, 8>, TooManyStreams>
        ensures { seen_switched result ≡ few_switched (streams_of (map_of self.now.bytes.now)) }
    {
        let mut streams = ArrayVec::new();
        for stream in self.entries() {
            if is_switched_kind(stream.kind) {
                if streams.is_full() {
                    return Err(TooManyStreams);
                }
                streams.push(stream);
            }
        }
        Ok(streams)
    }

    /// Whether the switched streams are these in this order, eight at most, and the PCR PID is this one.
    pub fn same_streams(&self, streams: &[Stream], pcr: Pid) -> bool
        ensures { IsTrue result ↔ (few_switched (streams_of (map_of self.now.bytes.now)) ≡ Ok streams.now)
            × (pid_in (map_of self.now.bytes.now).pcr_field ≡ pcr) }
    {
        self.pcr_pid() == pcr && self.switches(streams)
    }

    fn switches(&self, streams: &[Stream]) -> bool
        ensures { IsTrue result ↔ (few_switched (streams_of (map_of self.now.bytes.now)) ≡ Ok streams.now) }
    {
        match self.switched() {
            Ok(switched) => switched.as_slice() == streams,
            Err(TooManyStreams) => false,
        }
    }
}

#[tactic(auto, unfolding(crate::specs::ProgramMap::pmt_fault))]
fn fault_of(bytes: &[u8]) -> Option<TableFault>
    ensures { result ≡ pmt_fault bytes.now }
{
    if bytes.len() < 3 {
        return Some(TableFault::BadLength);
    }
    if !is_of_table(2, bytes) {
        return Some(TableFault::WrongTable);
    }
    if !fills(bytes) {
        return Some(TableFault::BadLength);
    }
    None
}

/// The program's descriptors and the entries.
pub fn loops(bytes: &[u8]) -> (&[u8], &[u8])
    requires { 16 + info_length bytes.now ≤ length bytes.now }
    ensures info { result.0.now ≡ info_in bytes.now }
    ensures entries { result.1.now ≡ entries_in bytes.now }
{
    let size = number12(bytes, 10) as usize;
    bytes_from(up_to_crc(bytes), 12).split_at(size)
}

#[tactic(auto, unfolding(crate::specs::ProgramMap::pmt_fills))]
fn fills(bytes: &[u8]) -> bool
    requires { 3 ≤ length bytes.now }
    ensures { result ≡ pmt_fills bytes.now }
{
    if !fits_its_size(16, bytes) || bytes.len() < 16 + number12(bytes, 10) as usize {
        return false;
    }
    let (info, entries) = loops(bytes);
    descriptors_fill(info) && entries_fill(entries)
}
