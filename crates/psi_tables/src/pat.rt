//! The program association section.

ghost use Rattle.std.specs.Prelude.{◌≡◌, ◌≤◌, ◌+◌, ◌%◌, length, option_map, IfOk, Ok, slice_index, is_none, true, is_some};
ghost use Rattle.psi_tables.specs.Runs.{run_of, things_of};
ghost use Rattle.psi_tables.specs.Sections.{is_current, seen_by};
ghost use Rattle.psi_tables.specs.Association.{Association, IsAssociation, Pair, pair_at, taken_pair, shown_pair, pairs_in};
ghost use Rattle.psi_tables.specs.Association.{pat, pat_fault, pat_fills, association_of, pat_section, pid_of_program, first_program_of};

use crate::fault::TableFault;
use crate::section::{fits_its_size, is_of_table, pid_at, up_to_crc};
use ts_packet::Pid;
use wire_fields::{bytes_from, number16};

/// A program association section (ISO/IEC 13818-1, 2.4.4.3): which PID carries the map of each program.
#[derive(Clone, Copy, Debug)]
pub struct Pat<'a> {
    /// The section, from `table_id` to `CRC_32`.
    pub bytes: &'a [u8],
    pub ghost sound: { is_none (pat_fault bytes.now) ≡ true },
}

#[tactic(auto, unfolding(crate::specs::Association::association_of, crate::specs::Association::pat), using(crate::proofs::AssociationLemmas::association_long, crate::proofs::AssociationLemmas::pairs_there, crate::proofs::AssociationLemmas::association_faultless))]
impl<'a> Pat<'a> {
    /// Reads a whole section. Its `CRC_32` and its reserved bits are not looked at.
    ///
    /// # Errors
    ///
    /// The first of `WrongTable`, `BadLength` and `Sections` that applies, as [`TableFault`] says; fewer than three bytes are always
    /// `BadLength`.
    pub fn read(bytes: &'a [u8]) -> Result<Pat<'a>, TableFault>
        ensures bytes { IfOk result (λ p. p.bytes.now ≡ bytes.now) }

        // The table by the places of its fields, or the first fault.
        ensures exact { seen_by (λ p. association_of p.bytes.now) result ≡ pat bytes.now }

        // What is read is spelled so, and what is spelled so is read.
        ensures spelled { IfOk result (λ p. IsAssociation (association_of p.bytes.now)
            × (bytes.now ≡ pat_section (association_of p.bytes.now))) }
        ensures only { (a : Association) → IsAssociation a → bytes.now ≡ pat_section a → pat bytes.now ≡ Ok a }
    {
        match fault_of(bytes) {
            None => Ok(Pat { bytes }),
            Some(fault) => Err(fault),
        }
    }

    /// `current_next_indicator`: the table applies now.
    pub fn current(&self) -> bool
        ensures { result ≡ is_current (association_of self.now.bytes.now).version }
    {
        self.bytes[5] % 2 == 1
    }

    /// The PID beside this `program_number`, where it first stands: that of the program's map, or for number 0 that of the
    /// network information. `None` where the number is not listed.
    pub fn program(&self, number: u16) -> Option<Pid>
        ensures { result ≡ pid_of_program number (association_of self.now.bytes.now).pairs }
    {
        pid_beside(number, self.pairs())
    }

    /// The number of the first program, and the PID of its map. Number 0 is that of no program.
    pub fn first_program(&self) -> Option<(u16, Pid)>
        ensures { result ≡ first_program_of (association_of self.now.bytes.now).pairs }
    {
        first_numbered(self.pairs())
    }

    fn pairs(&self) -> &[u8]
        ensures { result.now ≡ pairs_in self.now.bytes.now }
    {
        bytes_from(up_to_crc(self.bytes), 8)
    }
}

/// The first number, the PID beside it and the bytes behind them.
#[tactic(auto, unfolding(crate::specs::Association::pair_at))]
fn first_pair(bytes: &[u8]) -> Option<(u16, Pid, &[u8])>
    ensures { option_map taken_pair result ≡ option_map shown_pair (pair_at bytes.now) }
{
    if bytes.len() < 4 {
        return None;
    }
    let (_, after) = bytes.split_at(4);
    Some((number16(bytes, 0), pid_at(bytes, 2), after))
}

#[tactic(auto, using(crate::proofs::PairLemmas::program_here, crate::proofs::PairLemmas::program_later, crate::proofs::PairLemmas::program_never, crate::proofs::PairLemmas::pair_shorter))]
fn pid_beside(number: u16, pairs: &[u8]) -> Option<Pid>
    ensures { result ≡ pid_of_program number (things_of pair_at pairs.now) }
{
    let mut rest = pairs;
    while let Some((found, pid, after)) = first_pair(rest) {
        if found == number {
            return Some(pid);
        }
        rest = after;
    }
    None
}

#[tactic(auto, using(crate::proofs::PairLemmas::first_here, crate::proofs::PairLemmas::first_later, crate::proofs::PairLemmas::first_never, crate::proofs::PairLemmas::pair_shorter))]
fn first_numbered(pairs: &[u8]) -> Option<(u16, Pid)>
    ensures { result ≡ first_program_of (things_of pair_at pairs.now) }
{
    let mut rest = pairs;
    while let Some((number, pid, after)) = first_pair(rest) {
        if number != 0 {
            return Some((number, pid));
        }
        rest = after;
    }
    None
}

#[tactic(auto, unfolding(crate::specs::Association::pat_fault), using(crate::proofs::AssociationLemmas::filled_long))]
fn fault_of(bytes: &[u8]) -> Option<TableFault>
    ensures { result ≡ pat_fault bytes.now }
{
    if bytes.len() < 3 {
        return Some(TableFault::BadLength);
    }
    if !is_of_table(0, bytes) {
        return Some(TableFault::WrongTable);
    }
    if !fills(bytes) {
        return Some(TableFault::BadLength);
    }
    if bytes[5] % 2 == 1 && bytes[7] != 0 {
        return Some(TableFault::Sections);
    }
    None
}

#[tactic(auto, unfolding(crate::specs::Association::pat_fills), using(crate::proofs::AssociationLemmas::pairs_fill_section))]
fn fills(bytes: &[u8]) -> bool
    requires { 3 ≤ length bytes.now }
    ensures { result ≡ pat_fills bytes.now }
{
    fits_its_size(12, bytes) && bytes.len() % 4 == 0
}
