//! The maps of the program: which streams it has (ISO/IEC 13818-1, 2.4.4.8).

ghost use Rattle.std.specs.Prelude.{◌≡◌, ℕ, List, [], ◌∷◌, map, Option, None, Some, option_map, OnOk, IfOk, IfErr, true};
ghost use Rattle.ts_packet.specs.Fields.{on};
ghost use Rattle.psi_section.specs.SectionsLeft.{sections_left};
ghost use Rattle.psi_tables.specs.ProgramMap.{ProgramMap};
ghost use Rattle.program_follower.specs.Program.{listed, table_of, program_in, program_of};
ghost use Rattle.program_follower.specs.Faults.{maps_fault_at};
ghost use Rattle.program_follower.specs.Judging.{fault_of_section, known_behind, fault_of_sections, known_behind_all};
ghost use Rattle.program_follower.specs.Known.{known_seen, IsFaultless};

use crate::faultless_map::FaultlessMap;
use crate::judging::judge_map;
use crate::known::KnownProgram;
use crate::purpose::{Listed, Purpose};
use crate::tables::{Tables, map_of_program};
use psi_section::{Assembler, Sections};
use psi_tables::NetworkFault;
use ts_packet::Packet;

/// Reads the sections on the PID of the map, behind the PAT.
#[derive(Drop)]
pub struct MapReader {
    assembler: Assembler,
    known: Option<KnownProgram>,
    /// The map that is not judged anew where it comes again.
    faultless: FaultlessMap,
    /// The last packet was on that PID.
    is_on_map: bool,
    ghost judged: { IsFaultless faultless (known_seen known) },
}

impl MapReader {
    ghost use Rattle.program_follower.specs.Standing.{MapsRead, MapsShow, shown, tables_left, lent_program};
    ghost use Rattle.program_follower.specs.Following.{on_map, IsElsewhere};

    /// A reader that was fed no packet.
    pub fn new() -> MapReader
        ensures reads { (wanted : Option ℕ) → MapsRead result wanted [] }
        ensures shows { (wanted : Option ℕ) → MapsShow result wanted [] }
    {
        MapReader {
            assembler: Assembler::new(),
            known: None,
            faultless: FaultlessMap::new(),
            is_on_map: false,
        }
    }

    /// A reader that was fed the same.
    pub(crate) fn copied(&self) -> MapReader
        ensures { (wanted : Option ℕ) (past : List (List ℕ)) → MapsRead self.now wanted past → MapsRead result wanted past }
    {
        let known = match &self.known {
            None => None,
            Some(known) => Some(known.copied()),
        };
        MapReader {
            assembler: self.assembler.copied(),
            known,
            faultless: self.faultless.copied(),
            is_on_map: self.is_on_map,
        }
    }

    /// What is known of the program; `None` in the head.
    pub fn known(&self) -> Option<&KnownProgram>
        ensures { (wanted : Option ℕ) (past : List (List ℕ)) → MapsRead self.now wanted past
            → lent_program result ≡ program_of wanted past }
    {
        self.known.as_ref()
    }

    /// The sections that the last packet finished on the PID of the map, as tables of a program.
    pub fn tables(&self, program: u16) -> Tables<'_>
        ensures { tables_left result ≡ map (table_of program) (shown self.now) }
    {
        if self.is_on_map {
            Tables::of(self.assembler.sections(), program)
        } else {
            Tables::of(Sections::none(), program)
        }
    }

    /// Takes the next packet of the network, of whatever PID, and answers whether it is on the PID of the map. `at` is what the PAT lists
    /// before it.
    ///
    /// # Errors
    ///
    /// The first fault of the maps that the packet finishes.
    #[inline(always)]
    pub fn feed(
        &mut self,
        purpose: &Purpose,
        at: Option<Listed>,
        packet: &Packet,
    ) -> Result<bool, NetworkFault>
        ensures reads { (past : List (List ℕ)) → at ≡ listed purpose.now.program past
            → MapsRead self.old purpose.now.program past
            → OnOk result (MapsRead self.new purpose.now.program (packet.now ∷ past)) }
        ensures shows { (past : List (List ℕ)) → at ≡ listed purpose.now.program past
            → MapsRead self.old purpose.now.program past
            → OnOk result (MapsShow self.new purpose.now.program (packet.now ∷ past)) }
        ensures ok { (past : List (List ℕ)) → at ≡ listed purpose.now.program past
            → MapsRead self.old purpose.now.program past
            → OnOk result (maps_fault_at purpose.now packet.now past ≡ None) }
        ensures err { (past : List (List ℕ)) → at ≡ listed purpose.now.program past
            → MapsRead self.old purpose.now.program past
            → IfErr result (λ f. maps_fault_at purpose.now packet.now past ≡ Some f) }
        ensures on { IfOk result (λ is_map. is_map ≡ on_map at packet.now) }
    {
        let Some(listed) = at else {
            self.is_on_map = false;
            return Ok(false);
        };
        if !packet.is_on(listed.pid) {
            self.is_on_map = false;
            return Ok(false);
        }
        match self.take(purpose, listed, packet) {
            Ok(()) => Ok(true),
            Err(fault) => Err(fault),
        }
    }

    /// What is wrong with the maps that the next packet of the network, of whatever PID, finishes. It is not taken: a copy takes one of the PID of
    /// the map. `at` is what the PAT lists before it.
    pub(crate) fn look(
        &self,
        purpose: &Purpose,
        at: Option<Listed>,
        packet: &Packet,
    ) -> Option<NetworkFault>
        ensures { (past : List (List ℕ)) → at ≡ listed purpose.now.program past → MapsRead self.now purpose.now.program past
            → result ≡ maps_fault_at purpose.now packet.now past }
    {
        let Some(here) = at else {
            return None;
        };
        if !packet.is_on(here.pid) {
            return None;
        }
        let mut reader = self.copied();
        match reader.take(purpose, here, packet) {
            Ok(()) => None,
            Err(fault) => Some(fault),
        }
    }

    /// Passes a packet that is on no PID of the tables: it shows nothing.
    #[inline(always)]
    pub fn pass(&mut self)
        ensures reads { (c : Purpose) (p : List ℕ) (past : List (List ℕ)) → IsElsewhere c p past
            → MapsRead self.old c.program past → MapsRead self.new c.program (p ∷ past) }
        ensures shows { (c : Purpose) (p : List ℕ) (past : List (List ℕ)) → IsElsewhere c p past
            → MapsShow self.new c.program (p ∷ past) }
    {
        self.is_on_map = false;
    }

    /// Takes a packet of the PID of the map. It stands by itself so that no other packet pays for the room that it takes.
    #[cold]
    #[inline(never)]
    fn take(&mut self, purpose: &Purpose, at: Listed, packet: &Packet) -> Result<(), NetworkFault>
        requires { on at.pid packet.now ≡ true }
        ensures reads { (past : List (List ℕ)) → Some at ≡ listed purpose.now.program past
            → MapsRead self.old purpose.now.program past
            → OnOk result (MapsRead self.new purpose.now.program (packet.now ∷ past)) }
        ensures shows { (past : List (List ℕ)) → Some at ≡ listed purpose.now.program past
            → MapsRead self.old purpose.now.program past
            → OnOk result (MapsShow self.new purpose.now.program (packet.now ∷ past)) }
        ensures ok { (past : List (List ℕ)) → Some at ≡ listed purpose.now.program past
            → MapsRead self.old purpose.now.program past
            → OnOk result (maps_fault_at purpose.now packet.now past ≡ None) }
        ensures err { (past : List (List ℕ)) → Some at ≡ listed purpose.now.program past
            → MapsRead self.old purpose.now.program past
            → IfErr result (λ f. maps_fault_at purpose.now packet.now past ≡ Some f) }
        ensures on { OnOk result (self.new.is_on_map ≡ true) }
    {
        self.is_on_map = true;
        self.assembler.pass_over();
        self.assembler.feed(packet);
        let sections = self.assembler.sections();
        match judge_sections(&mut self.known, &mut self.faultless, purpose, &at, sections) {
            Ok(()) => Ok(()),
            Err(fault) => Err(fault),
        }
    }
}

/// Judges sections on the PID of the map, and takes the program of the first map where none is known.
fn judge_sections(
    known: &mut Option<KnownProgram>,
    faultless: &mut FaultlessMap,
    purpose: &Purpose,
    listed: &Listed,
    sections: Sections<'_>,
) -> Result<(), NetworkFault>
    requires { IsFaultless faultless.old (known_seen known.old) }
    ensures ok { (first : Option ProgramMap) → known_seen known.old ≡ option_map program_in first
        → OnOk result ((fault_of_sections purpose.now listed.now first (sections_left sections.entry) ≡ None)
        × (known_seen known.new ≡ known_behind_all listed.now first (sections_left sections.entry))) }
    ensures err { (first : Option ProgramMap) → known_seen known.old ≡ option_map program_in first
        → IfErr result (λ f. fault_of_sections purpose.now listed.now first (sections_left sections.entry) ≡ Some f) }
    ensures faultless { IsFaultless faultless.new (known_seen known.new) }
{
    for section in sections {
        match judge_section(known, faultless, purpose, listed, section) {
            Ok(()) => {}
            Err(fault) => return Err(fault),
        }
    }
    Ok(())
}

/// Judges a section on the PID of the map. The map that was found without a fault last is not judged anew.
fn judge_section(
    known: &mut Option<KnownProgram>,
    faultless: &mut FaultlessMap,
    purpose: &Purpose,
    listed: &Listed,
    section: &[u8],
) -> Result<(), NetworkFault>
    requires { IsFaultless faultless.old (known_seen known.old) }
    ensures ok { OnOk result ((fault_of_section purpose.now listed.now (known_seen known.old) section.now ≡ None)
        × (known_seen known.new ≡ known_behind listed.now (known_seen known.old) section.now)) }
    ensures err { IfErr result (λ f. fault_of_section purpose.now listed.now (known_seen known.old) section.now
        ≡ Some f) }
    ensures faultless { IsFaultless faultless.new (known_seen known.new) }
{
    if faultless.comes_again(purpose, listed, section) {
        return Ok(());
    }
    let Some(pmt) = map_of_program(listed.program, section) else {
        return Ok(());
    };
    let was_known = known.is_some();
    match judge_map(known, purpose, listed.pid, &pmt) {
        Ok(()) => {}
        Err(fault) => return Err(fault),
    }
    if was_known {
        faultless.keep(purpose, listed, section);
    }
    Ok(())
}
