//! The PATs of a network: which PID carries the map of the program (ISO/IEC 13818-1, 2.4.4.3).

ghost use Rattle.std.specs.Option.{option_or};
ghost use Rattle.std.specs.Prelude.{◌≡◌, ℕ, List, [], ◌∷◌, Option, Some, None, true, not, OnOk, IfOk, IfErr};
ghost use Rattle.ts_packet.specs.Fields.{on};
ghost use Rattle.psi_section.specs.Assembling.{left};
ghost use Rattle.psi_tables.specs.Association.{pat, pid_of_program};
ghost use Rattle.program_follower.specs.Program.{listed, lists, pairs_in, listed_in, first_listed};
ghost use Rattle.program_follower.specs.Faults.{differs, is_pid, if_bad, pmt_pid_fault, pairs_fault, pat_fault, pats_fault, pats_fault_at};

use crate::purpose::{Listed, Purpose};
use psi_section::Assembler;
use psi_tables::{NetworkFault, Pat, TableFault};
use ts_packet::{Packet, Pid};

/// Reads the sections on PID 0.
#[derive(Clone, Copy)]
pub struct PatReader {
    assembler: Assembler,
    listed: Option<Listed>,
}

impl PatReader {
    ghost use Rattle.program_follower.specs.Standing.{PatsRead};

    /// A reader that was fed no packet.
    pub fn new() -> PatReader
        ensures { (wanted : Option ℕ) → PatsRead result wanted [] }
    {
        PatReader {
            assembler: Assembler::new(),
            listed: None,
        }
    }

    /// The program and the PID of its map; `None` before the PAT, the first that lists the program.
    pub fn listed(&self) -> Option<Listed>
        ensures { (wanted : Option ℕ) (past : List (List ℕ)) → PatsRead self.now wanted past
            → result ≡ listed wanted past }
    {
        self.listed
    }

    /// Takes the next packet of the network, of whatever PID.
    ///
    /// # Errors
    ///
    /// The first fault of the PATs that the packet finishes.
    #[inline(always)]
    pub fn feed(&mut self, purpose: &Purpose, packet: &Packet) -> Result<(), NetworkFault>
        ensures reads { (past : List (List ℕ)) → PatsRead self.old purpose.now.program past
            → OnOk result (PatsRead self.new purpose.now.program (packet.now ∷ past)) }
        ensures ok { (past : List (List ℕ)) → PatsRead self.old purpose.now.program past
            → OnOk result (pats_fault_at purpose.now packet.now past ≡ None) }
        ensures err { (past : List (List ℕ)) → PatsRead self.old purpose.now.program past
            → IfErr result (λ f. pats_fault_at purpose.now packet.now past ≡ Some f) }
    {
        if !packet.is_on(Pid::of_bits(0, 0)) {
            return Ok(());
        }
        self.take(purpose, packet)
    }

    /// What is wrong with the PATs that the next packet of the network, of whatever PID, finishes. It is not taken: a copy takes one of PID 0.
    pub(crate) fn look(&self, purpose: &Purpose, packet: &Packet) -> Option<NetworkFault>
        ensures { (past : List (List ℕ)) → PatsRead self.now purpose.now.program past
            → result ≡ pats_fault_at purpose.now packet.now past }
    {
        if !packet.is_on(Pid::of_bits(0, 0)) {
            return None;
        }
        let mut reader = *self;
        match reader.take(purpose, packet) {
            Ok(()) => None,
            Err(fault) => Some(fault),
        }
    }

    /// Takes a packet of PID 0. It stands by itself so that no other packet pays for the room that it takes.
    #[cold]
    #[inline(never)]
    fn take(&mut self, purpose: &Purpose, packet: &Packet) -> Result<(), NetworkFault>
        requires { on 0 packet.now ≡ true }
        ensures reads { (past : List (List ℕ)) → PatsRead self.old purpose.now.program past
            → OnOk result (PatsRead self.new purpose.now.program (packet.now ∷ past)) }
        ensures ok { (past : List (List ℕ)) → PatsRead self.old purpose.now.program past
            → OnOk result (pats_fault_at purpose.now packet.now past ≡ None) }
        ensures err { (past : List (List ℕ)) → PatsRead self.old purpose.now.program past
            → IfErr result (λ f. pats_fault_at purpose.now packet.now past ≡ Some f) }
    {
        self.assembler.pass_over();
        self.assembler.feed(packet);
        match self.judged(purpose) {
            Ok(listed) => {
                self.listed = listed;
                Ok(())
            }
            Err(fault) => Err(fault),
        }
    }

    /// What is listed behind the sections that the assembler gives, or the first fault in them.
    #[tactic(auto, using(crate::proofs::PatLemmas::pats_more, crate::proofs::PatLemmas::pats_done, crate::proofs::PatLemmas::pats_fail))]
    fn judged(&self, purpose: &Purpose) -> Result<Option<Listed>, NetworkFault>
        ensures ok { IfOk result (λ l. (pats_fault purpose.now self.now.listed (left self.now.assembler) ≡ None)
            × (l ≡ option_or self.now.listed (first_listed purpose.now.program (left self.now.assembler)))) }
        ensures err { IfErr result (λ f. pats_fault purpose.now self.now.listed (left self.now.assembler) ≡ Some f) }
    {
        let mut listed = self.listed;
        for section in self.assembler.sections() {
            listed = behind_section(purpose, listed, section)?;
        }
        Ok(listed)
    }
}

/// What is listed behind a section on PID 0.
fn behind_section(
    purpose: &Purpose,
    known: Option<Listed>,
    section: &[u8],
) -> Result<Option<Listed>, NetworkFault>
    ensures ok { IfOk result (λ l. (pat_fault purpose.now known (pat section.now) ≡ None)
        × (l ≡ option_or known (lists purpose.now.program section.now))) }
    ensures err { IfErr result (λ f. pat_fault purpose.now known (pat section.now) ≡ Some f) }
{
    match Pat::read(section) {
        Ok(pat) => {
            if pat.current() {
                behind_pat(purpose, known, &pat)
            } else {
                Ok(known)
            }
        }
        Err(TableFault::Sections) => Err(NetworkFault::Sections),
        Err(TableFault::WrongTable) => Ok(known),
        Err(TableFault::BadLength) => Ok(known),
    }
}

/// What is listed behind a PAT that applies now.
fn behind_pat(
    purpose: &Purpose,
    known: Option<Listed>,
    pat: &Pat<'_>,
) -> Result<Option<Listed>, NetworkFault>
    ensures ok { IfOk result (λ l. (pairs_fault purpose.now known (pairs_in pat.now.bytes.now) ≡ None)
        × (l ≡ option_or known (listed_in purpose.now.program (pairs_in pat.now.bytes.now)))) }
    ensures err { IfErr result (λ f. pairs_fault purpose.now known (pairs_in pat.now.bytes.now) ≡ Some f) }
{
    let Some(listed) = known else {
        return first_listed(purpose, pat);
    };
    if is_listed(&listed, pat) {
        Ok(Some(listed))
    } else {
        Err(NetworkFault::ProgramChanged)
    }
}

/// What the first PAT that lists the program lists.
fn first_listed(purpose: &Purpose, pat: &Pat<'_>) -> Result<Option<Listed>, NetworkFault>
    ensures ok { IfOk result (λ l. (pairs_fault purpose.now None (pairs_in pat.now.bytes.now) ≡ None)
        × (l ≡ listed_in purpose.now.program (pairs_in pat.now.bytes.now))) }
    ensures err { IfErr result (λ f. pairs_fault purpose.now None (pairs_in pat.now.bytes.now) ≡ Some f) }
{
    let Some(listed) = listed_by(purpose, pat) else {
        return Ok(None);
    };
    match pmt_pid_fault(purpose, &listed) {
        None => Ok(Some(listed)),
        Some(fault) => Err(fault),
    }
}

/// A PAT lists the program with the same PID.
fn is_listed(listed: &Listed, pat: &Pat<'_>) -> bool
    ensures { differs listed.now.pid (pid_of_program listed.now.program (pairs_in pat.now.bytes.now)) ≡ not result }
{
    match pat.program(listed.program) {
        None => false,
        Some(pid) => pid.get() == listed.pid.get(),
    }
}

/// What a PAT lists of the program.
fn listed_by(purpose: &Purpose, pat: &Pat<'_>) -> Option<Listed>
    ensures { result ≡ listed_in purpose.now.program (pairs_in pat.now.bytes.now) }
{
    match purpose.program {
        None => {
            let (program, pid) = pat.first_program()?;
            Some(Listed { program, pid })
        }
        Some(program) => {
            let pid = pat.program(program)?;
            Some(Listed { program, pid })
        }
    }
}

/// What is wrong with the PID of the map.
fn pmt_pid_fault(purpose: &Purpose, listed: &Listed) -> Option<NetworkFault>
    ensures { result ≡ pmt_pid_fault purpose.now (Some listed.now) }
{
    let number = listed.pid.get();
    if number == 0 || number == 0x1FFF {
        return Some(NetworkFault::BadPids);
    }
    if is_cue_pid(purpose, number) {
        return Some(NetworkFault::CuePidUsed);
    }
    None
}

/// The PID is that of the cues.
fn is_cue_pid(purpose: &Purpose, number: u16) -> bool
    ensures { result ≡ is_pid purpose.now.cue_pid number }
{
    match purpose.cue_pid {
        None => false,
        Some(cue) => number == cue.get(),
    }
}
