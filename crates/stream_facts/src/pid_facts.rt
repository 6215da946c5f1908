//! What is known of each PID.

ghost use Rattle.std.specs.Prelude.{◌≡◌, ◌∷◌, [], ◌<◌, ℕ, List, length, reverse, true, false, OnOk, IfOk};
ghost use Rattle.ts_packet.specs.Fields.{on};
ghost use Rattle.random_access.specs.Points.{Keeps, ReadsPoints, begins_of};
ghost use Rattle.stream_facts.specs.Pids.{is_used, KnowsPids, OfPidsKnown, IsPidKnown, IsPidShown};

use crate::bit_rate::{ClockRun, ticks_of};
use random_access::{PointReader, UnitBegins};
use std::alloc::{AllocError, Global};
use ts_packet::{Packet, Pid};

/// As many PIDs there are.
const PIDS: usize = 8192;

/// What is known of a PID that has a packet.
#[derive(Debug, Drop)]
pub(crate) struct PidFacts {
    points: PointReader,
    clock: ClockRun,
}

impl PidFacts {
    /// Those of a PID before its first packet.
    fn new(alloc: Global, pid: Pid) -> PidFacts
        ensures { ReadsPoints result.points pid [] }
    {
        PidFacts {
            points: PointReader::new(alloc, pid),
            clock: ClockRun::new(),
        }
    }

    /// Takes a packet of the PID, before which so many stand.
    ///
    /// # Errors
    ///
    /// Where the allocator refused memory.
    fn feed(&mut self, packet: &Packet, before: u64) -> Result<(), AllocError>
        ensures { (pid : ℕ) (past : List (List ℕ)) → ReadsPoints self.old.points pid past → before ≡ length past
            → OnOk result (ReadsPoints self.new.points pid (packet.now ∷ past)) }
    {
        if let Some(pcr) = packet.pcr() {
            self.clock.add(ticks_of(&pcr), before);
        }
        self.points.feed(packet, before)
    }

    /// The units that have begun on it.
    pub(crate) fn begins(&self) -> &UnitBegins
        ensures { (pid : ℕ) (ps : List (List ℕ)) → ReadsPoints self.now.points pid (reverse ps)
            → Keeps result.now (begins_of pid ps) }
    {
        self.points.begins()
    }

    /// Its clock references.
    pub(crate) fn clock(&self) -> ClockRun
        ensures { result ≡ self.now.clock }
    {
        self.clock
    }
}

/// What is known of all PIDs.
#[derive(Debug, Drop)]
pub(crate) struct PidTable {
    /// For each PID what is known of it; nothing where it has no packet.
    slots: Vec<Option<PidFacts>>,
}

impl PidTable {
    /// Nothing yet.
    ///
    /// # Errors
    ///
    /// Where the allocator refused memory.
    pub(crate) fn new(alloc: Global) -> Result<PidTable, AllocError>
        ensures { IfOk result (λ table. KnowsPids table []) }
    {
        let mut slots = Vec::new(alloc);
        let mut made = 0;
        while made < PIDS {
            slots.push(None)?;
            made += 1;
        }
        Ok(PidTable { slots })
    }

    /// What is known of a PID; `None` where it has no packet that is not marked in error.
    pub(crate) fn get(&self, pid: Pid) -> Option<&PidFacts>
        ensures { OfPidsKnown self.now (λ past. IsPidShown result pid past) }
    {
        match self.slots.get(pid.get() as usize) {
            Some(Some(facts)) => Some(facts),
            Some(None) => None,
            None => None,
        }
    }

    /// Takes the next packet, before which so many stand.
    ///
    /// # Errors
    ///
    /// Where the allocator refused memory. What is known then is open.
    pub(crate) fn feed(
        &mut self,
        alloc: Global,
        packet: &Packet,
        before: u64,
    ) -> Result<(), AllocError>
        ensures { OfPidsKnown self.old (λ past. before ≡ length past → OnOk result (KnowsPids self.new (packet.now ∷ past))) }
    {
        if packet.error() {
            return Ok(());
        }
        let pid = packet.pid();
        match self.slots.get_mut(pid.get() as usize) {
            Some(slot) => take(slot, alloc, pid, packet, before),
            None => Ok(()),
        }
    }
}

/// Takes a packet of this PID, before which so many stand.
fn take(
    slot: &mut Option<PidFacts>,
    alloc: Global,
    pid: Pid,
    packet: &Packet,
    before: u64,
) -> Result<(), AllocError>
    requires { on pid packet.now ≡ true }
    ensures { (past : List (List ℕ)) → IsPidKnown slot.old pid past → before ≡ length past
        → OnOk result (IsPidKnown slot.new pid (packet.now ∷ past)) }
{
    match slot {
        Some(facts) => facts.feed(packet, before),
        None => {
            *slot = Some(first(alloc, pid, packet, before)?);
            Ok(())
        }
    }
}

/// What is known of a PID behind its first packet.
fn first(alloc: Global, pid: Pid, packet: &Packet, before: u64) -> Result<PidFacts, AllocError>
    ensures { (past : List (List ℕ)) → is_used pid past ≡ false → before ≡ length past
        → IfOk result (λ facts. ReadsPoints facts.points pid (packet.now ∷ past)) }
{
    let mut facts = PidFacts::new(alloc, pid);
    facts.feed(packet, before)?;
    Ok(facts)
}
