//! The tables of a network: which program it has, and what is wrong with them.

ghost use Rattle.std.specs.Prelude.{◌≡◌, ◌∷◌, [], ℕ, List, Option, Some, option_map, is_some, false, OnOk, IfOk, IfErr, IfSome};
ghost use Rattle.program_follower.specs.Program.{listed, pmt_pid_of, tables, program_of};
ghost use Rattle.program_follower.specs.Faults.{network_fault, unit_fault_at, on_cue};
ghost use Rattle.program_follower.specs.Standing.{TablesRead, TablesShow, OfTables, tables_left, lent_program, or_zero};
ghost use Rattle.program_follower.specs.Following.{IsOnTables, IsElsewhere, on_map};

use crate::known::KnownProgram;
use crate::map_reader::MapReader;
use crate::pat_reader::PatReader;
use crate::purpose::{Listed, Purpose};
use crate::tables::Tables;
use psi_tables::NetworkFault;
use ts_packet::{Packet, Pid};

/// On which of the PIDs of a program's map and cues a packet is.
#[derive(Clone, Copy, Debug, PartialEq, Eq)]
pub enum OnTables {
    /// It is on the PID of the map, behind the PAT.
    Map,
    /// It is on the PID of the cues, and not on that of the map.
    Cue,
    /// It is on neither.
    Neither,
}

/// Reads the PATs of a network and the maps of one program.
#[derive(Drop)]
pub struct TableReader {
    purpose: Purpose,
    pats: PatReader,
    maps: MapReader,
    /// The PID of the cues, and that of the map behind the PAT; 0, that of the PAT, where there is none.
    cue_pid: Pid,
    map_pid: Pid,
}

impl TableReader {
    /// A reader that was fed no packet.
    pub fn new(purpose: Purpose) -> TableReader
        ensures reads { TablesRead result purpose [] }
        ensures shows { TablesShow result purpose [] }
    {
        TableReader {
            purpose,
            pats: PatReader::new(),
            maps: MapReader::new(),
            cue_pid: or_zero(purpose.cue_pid),
            map_pid: Pid::of_bits(0, 0),
        }
    }

    /// Takes the next packet of the network, of whatever PID, and answers whether it is on the PID of the map or on that of the cues. The
    /// unit that it is of is not judged.
    ///
    /// # Errors
    ///
    /// What is wrong with it, where that is no fault of a unit.
    #[inline(always)]
    pub fn feed(&mut self, packet: &Packet) -> Result<OnTables, NetworkFault>
        ensures reads { OfTables self.old (λ c past. OnOk result (TablesRead self.new c (packet.now ∷ past))) }
        ensures shows { OfTables self.old (λ c past. OnOk result (TablesShow self.new c (packet.now ∷ past))) }
        ensures ok { OfTables self.old (λ c past.
            OnOk result (network_fault c packet.now past ≡ unit_fault_at c packet.now past)) }
        ensures err { OfTables self.old (λ c past. IfErr result (λ f. network_fault c packet.now past ≡ Some f)) }
        ensures on { OfTables self.old (λ c past. IfOk result (λ x. IsOnTables x c packet.now past)) }
    {
        if self.is_watched(packet) {
            return self.take(packet);
        }
        self.pass();
        Ok(OnTables::Neither)
    }

    /// Passes a packet that is on no PID of the tables, nor on that of the cues.
    #[inline(always)]
    pub(crate) fn pass(&mut self)
        ensures reads { (c : Purpose) (p : List ℕ) (past : List (List ℕ)) → IsElsewhere c p past
            → TablesRead self.old c past → TablesRead self.new c (p ∷ past) }
        ensures shows { (c : Purpose) (p : List ℕ) (past : List (List ℕ)) → IsElsewhere c p past
            → TablesShow self.new c (p ∷ past) }
    {
        self.maps.pass();
    }

    /// The PID of the map behind the PAT, and 0 before it.
    pub(crate) fn map_pid(&self) -> Pid
        ensures { OfTables self.now (λ c past. result ≡ or_zero (pmt_pid_of c.program past)) }
    {
        self.map_pid
    }

    /// The PAT has come that lists the program.
    #[inline(always)]
    pub(crate) fn is_behind_pat(&self) -> bool
        ensures { OfTables self.now (λ c past. result ≡ is_some (listed c.program past)) }
    {
        self.pats.listed().is_some()
    }

    /// The packet may be on a PID of the tables or of the cues: a packet of another PID tells nothing of them.
    #[inline(always)]
    fn is_watched(&self, packet: &Packet) -> bool
        ensures { OfTables self.now (λ c past. result ≡ false → IsElsewhere c packet.now past) }
    {
        let number = packet.pid().get();
        number == 0 || number == self.map_pid.get() || number == self.cue_pid.get()
    }

    /// Takes a packet of one of those PIDs. It stands by itself so that no other packet pays for the room that it takes.
    #[cold]
    #[inline(never)]
    fn take(&mut self, packet: &Packet) -> Result<OnTables, NetworkFault>
        ensures reads { OfTables self.old (λ c past. OnOk result (TablesRead self.new c (packet.now ∷ past))) }
        ensures shows { OfTables self.old (λ c past. OnOk result (TablesShow self.new c (packet.now ∷ past))) }
        ensures ok { OfTables self.old (λ c past.
            OnOk result (network_fault c packet.now past ≡ unit_fault_at c packet.now past)) }
        ensures err { OfTables self.old (λ c past. IfErr result (λ f. network_fault c packet.now past ≡ Some f)) }
        ensures on { OfTables self.old (λ c past. IfOk result (λ x. IsOnTables x c packet.now past)) }
    {
        let is_cue = is_on_pid(self.purpose.cue_pid, packet);
        if self.purpose.writes_cues && is_cue {
            return Err(NetworkFault::CuePidUsed);
        }
        let listed = self.pats.listed();
        match self.pats.feed(&self.purpose, packet) {
            Ok(()) => {}
            Err(fault) => return Err(fault),
        }
        self.map_pid = map_pid(self.pats.listed());
        match self.maps.feed(&self.purpose, listed, packet) {
            Ok(is_map) => Ok(on_tables(is_map, is_cue)),
            Err(fault) => Err(fault),
        }
    }

    /// What is wrong with the next packet of the network, of whatever PID, where that is no fault of a unit. It is not taken: a copy of what reads
    /// the sections of its PID takes it.
    pub(crate) fn look(&self, packet: &Packet) -> Option<NetworkFault>
        ensures none { OfTables self.now (λ c past. result ≡ None → network_fault c packet.now past ≡ unit_fault_at c packet.now past) }
        ensures some { OfTables self.now (λ c past. IfSome result (λ f. network_fault c packet.now past ≡ Some f)) }
    {
        if self.purpose.writes_cues && is_on_pid(self.purpose.cue_pid, packet) {
            return Some(NetworkFault::CuePidUsed);
        }
        match self.pats.look(&self.purpose, packet) {
            Some(fault) => Some(fault),
            None => self.maps.look(&self.purpose, self.pats.listed(), packet),
        }
    }

    /// The sections that the last packet finished on the PID of the map, behind the PAT, in order; none where it was of another PID.
    pub fn tables(&self) -> Tables<'_>
        ensures { (c : Purpose) (p : List ℕ) (past : List (List ℕ)) → TablesRead self.now c (p ∷ past)
            → TablesShow self.now c (p ∷ past) → tables_left result ≡ tables c.program p past }
    {
        match self.pats.listed() {
            Some(listed) => self.maps.tables(listed.program),
            None => self.maps.tables(0),
        }
    }

    /// What is known of the program; `None` in the head.
    #[inline(always)]
    pub fn known(&self) -> Option<&KnownProgram>
        ensures { OfTables self.now (λ c past. lent_program result ≡ program_of c.program past) }
    {
        self.maps.known()
    }

    /// The program and the PID of its map; `None` before the PAT.
    pub fn listed(&self) -> Option<Listed>
        ensures { OfTables self.now (λ c past. result ≡ listed c.program past) }
    {
        self.pats.listed()
    }
}

/// On which of the two PIDs a packet is, by whether it is on each.
fn on_tables(is_map: bool, is_cue: bool) -> OnTables
    ensures { (c : Purpose) (p : List ℕ) (past : List (List ℕ)) → is_map ≡ on_map (listed c.program past) p
        → is_cue ≡ on_cue c.cue_pid p → IsOnTables result c p past }
{
    if is_map {
        OnTables::Map
    } else if is_cue {
        OnTables::Cue
    } else {
        OnTables::Neither
    }
}

/// The PID, and 0 where there is none.
pub(crate) fn or_zero(pid: Option<Pid>) -> Pid
    ensures { result ≡ or_zero pid }
{
    match pid {
        None => Pid::of_bits(0, 0),
        Some(pid) => pid,
    }
}

/// The PID of the map, and 0 before the PAT.
fn map_pid(listed: Option<Listed>) -> Pid
    ensures { result ≡ or_zero (option_map (λ l. l.pid) listed) }
{
    match listed {
        None => Pid::of_bits(0, 0),
        Some(listed) => listed.pid,
    }
}

/// The packet is on this PID, where there is one.
#[inline(always)]
fn is_on_pid(pid: Option<Pid>, packet: &Packet) -> bool
    ensures { result ≡ on_cue pid packet.now }
{
    match pid {
        None => false,
        Some(pid) => packet.is_on(pid),
    }
}
