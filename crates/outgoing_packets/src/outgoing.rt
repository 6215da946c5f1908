//! Packets and sections, put behind others.

ghost use Rattle.std.specs.Prelude.{◌≡◌, ◌<◌, ◌++◌, ◌∷◌, [], ℕ, List, Option, ◌≢◌, length, map, slice_index_or, All, Ok, OnOk};
ghost use Rattle.std.specs.Prelude.{IfErr};
ghost use Rattle.ts_packet.specs.Runs.{onto};
ghost use Rattle.ts_packet.specs.Sinks.{Blamed};
ghost use Rattle.ts_packet.specs.Transfers.{WentWell};
ghost use Rattle.program_laws.specs.Writing.{section_out, packets_out};
ghost use Rattle.program_follower.specs.Standing.{tables_left, table_seen};
ghost use Rattle.outgoing_packets.specs.Entries.{change_of, tables_out, table_out, TableFails, GoesOut, AllGoOut, bytes_or};
ghost use Rattle.outgoing_packets.specs.Entries.{section_going, sections_going, HasBytes};
ghost use Rattle.outgoing_packets.specs.Numbers.{upcoming_on, FrontFails};

use crate::entry::CueEntry;
use program_follower::{LentTable, Tables};
use psi_section::Packetiser;
use psi_tables::{Section, add_cue, strip_cue};
use ts_packet::{Packet, PacketSink, Pid, PutFault};

/// The next continuity_counter of each PID, by what has gone out so far. It takes no memory.
#[derive(Drop)]
pub struct Outgoing {
    upcoming: [u8; 8192],
}

impl Outgoing {
    ghost use Rattle.outgoing_packets.specs.Numbers.{HasPut};

    /// Nothing has gone out yet: the first packet of each PID has counter 0.
    pub fn new() -> Outgoing
        ensures { HasPut result [] }
    {
        Outgoing {
            upcoming: [0; 8192],
        }
    }

    /// Begins anew: nothing has gone out, as of [`Outgoing::new`].
    pub fn begin_anew(&mut self)
        ensures { HasPut self.new [] }
    {
        self.upcoming = [0; 8192];
    }

    /// Puts the packet as it is.
    ///
    /// # Errors
    ///
    /// The sink's, at this packet. Then the counters are as they were.
    #[inline(always)]
    pub fn pass<S: PacketSink>(&mut self, packet: &Packet, sink: &mut S) -> Result<(), PutFault>
        ensures leads { S.leads sink.old sink.new }
        ensures ok { (start : Option (List ℕ)) (ps : List (List ℕ)) → S.holds sink.old start ps →
            OnOk result (S.holds sink.new start (ps ++ packet.now ∷ [])) }
        ensures numbers { (out : List (List ℕ)) → HasPut self.old out →
            OnOk result (HasPut self.new (packet.now ∷ out)) }
        ensures refused { IfErr result (λ _. self.new ≡ self.old) }
        ensures err { (start : Option (List ℕ)) (ps : List (List ℕ)) → S.holds sink.old start ps →
            IfErr result (λ f. S.fails sink.new start ps packet.now f) }
        ensures well { OnOk result (WentWell (S.counts sink.old) (S.counts sink.new)) }
        ensures blamed { IfErr result (λ f. Blamed f (S.counts sink.old) (S.counts sink.new) (S.is_full sink.new)) }
    {
        match sink.put(packet) {
            Ok(()) => {}
            Err(fault) => return Err(fault),
        }
        if !packet.error() {
            self.set_upcoming(packet.pid(), (packet.counter() + 1) % 16);
        }
        Ok(())
    }

    /// Puts the section in packets of this PID. An empty one, which is none, puts nothing.
    ///
    /// # Errors
    ///
    /// The sink's. Packets before the one that failed are out, and the counters are as they were, whatever of the section was put.
    pub fn put_section<S: PacketSink>(
        &mut self,
        pid: Pid,
        section: &[u8],
        sink: &mut S,
    ) -> Result<(), PutFault>
        ensures leads { S.leads sink.old sink.new }
        ensures ok { (start : Option (List ℕ)) (ps out : List (List ℕ)) → S.holds sink.old start ps →
            HasPut self.old out → 0 < length section.now →
            OnOk result (S.holds sink.new start (ps ++ packets_out pid out (section.now ∷ []))) }
        ensures numbers { (out : List (List ℕ)) → HasPut self.old out → 0 < length section.now →
            OnOk result (HasPut self.new (onto out (packets_out pid out (section.now ∷ [])))) }
        ensures err { (start : Option (List ℕ)) (ps out : List (List ℕ)) → S.holds sink.old start ps →
            HasPut self.old out → 0 < length section.now →
            IfErr result (λ f. FrontFails (packets_out pid out (section.now ∷ []))
            (λ put p. S.fails sink.new start (ps ++ put) p f)) }
        ensures none { section.now ≡ [] → (result ≡ Ok tt) × (sink.new ≡ sink.old) × (self.new ≡ self.old) }
        ensures refused { IfErr result (λ _. self.new ≡ self.old) }
        ensures well { OnOk result (WentWell (S.counts sink.old) (S.counts sink.new)) }
        ensures blamed { IfErr result (λ f. Blamed f (S.counts sink.old) (S.counts sink.new) (S.is_full sink.new)) }
        ensures pid { pid < 8192 }
    {
        let mut packetiser = Packetiser::new(pid, self.upcoming(pid));
        if section.is_empty() {
            return Ok(());
        }
        match packetiser.put(section, sink) {
            Ok(()) => {}
            Err(fault) => return Err(fault),
        }
        self.set_upcoming(pid, packetiser.upcoming());
        Ok(())
    }

    /// Puts the sections of a map's PID in packets of that PID, the maps of the program with their entry for cues changed. A map without
    /// room for the entry goes out as it came.
    ///
    /// # Errors
    ///
    /// The sink's. Packets before the one that failed are out, and the counters are those behind the sections that were put whole.
    #[inline(never)]
    pub fn put_tables<S: PacketSink>(
        &mut self,
        pid: Pid,
        tables: Tables<'_>,
        change: &CueEntry,
        sink: &mut S,
    ) -> Result<(), PutFault>
        ensures leads { S.leads sink.old sink.new }
        ensures ok { (start : Option (List ℕ)) (ps out : List (List ℕ)) → S.holds sink.old start ps →
            HasPut self.old out → AllGoOut change.now (tables_left tables.entry) →
            OnOk result (S.holds sink.new start (ps ++ tables_out change.now pid out (tables_left tables.entry))) }
        ensures numbers { (out : List (List ℕ)) → HasPut self.old out → AllGoOut change.now (tables_left tables.entry) →
            OnOk result (HasPut self.new (onto out (tables_out change.now pid out (tables_left tables.entry)))) }
        ensures err { (start : Option (List ℕ)) (ps out : List (List ℕ)) → S.holds sink.old start ps →
            HasPut self.old out → AllGoOut change.now (tables_left tables.entry) →
            IfErr result (λ f. FrontFails (tables_out change.now pid out (tables_left tables.entry))
            (λ put p. S.fails sink.new start (ps ++ put) p f)) }

        // The same, whether the maps have room for the entry or not.
        ensures sent { (start : Option (List ℕ)) (ps out : List (List ℕ)) → S.holds sink.old start ps →
            HasPut self.old out → All HasBytes (tables_left tables.entry) →
            OnOk result (S.holds sink.new start (ps ++ sections_going change.now pid out (tables_left tables.entry))) }
        ensures sent_numbers { (out : List (List ℕ)) → HasPut self.old out → All HasBytes (tables_left tables.entry) →
            OnOk result (HasPut self.new (onto out (sections_going change.now pid out (tables_left tables.entry)))) }
        ensures refused { (start : Option (List ℕ)) (ps out : List (List ℕ)) → S.holds sink.old start ps →
            HasPut self.old out → All HasBytes (tables_left tables.entry) →
            IfErr result (λ f. TableFails change.now pid out (tables_left tables.entry) self.new
            (λ put p. S.fails sink.new start (ps ++ put) p f)) }

        ensures well { OnOk result (WentWell (S.counts sink.old) (S.counts sink.new)) }
        ensures blamed { IfErr result (λ f. Blamed f (S.counts sink.old) (S.counts sink.new) (S.is_full sink.new)) }
    {
        for table in tables {
            match self.put_table(pid, table, change, sink) {
                Ok(()) => {}
                Err(fault) => return Err(fault),
            }
        }
        Ok(())
    }

    /// Puts one of the sections.
    fn put_table<S: PacketSink>(
        &mut self,
        pid: Pid,
        table: LentTable<'_>,
        change: &CueEntry,
        sink: &mut S,
    ) -> Result<(), PutFault>
        ensures leads { S.leads sink.old sink.new }
        ensures ok { (start : Option (List ℕ)) (ps out : List (List ℕ)) → S.holds sink.old start ps →
            HasPut self.old out → GoesOut change.now (table_seen table.entry) →
            OnOk result (S.holds sink.new start (ps ++ table_out change.now pid out (table_seen table.entry))) }
        ensures numbers { (out : List (List ℕ)) → HasPut self.old out → GoesOut change.now (table_seen table.entry) →
            OnOk result (HasPut self.new (onto out (table_out change.now pid out (table_seen table.entry)))) }
        ensures err { (start : Option (List ℕ)) (ps out : List (List ℕ)) → S.holds sink.old start ps →
            HasPut self.old out → GoesOut change.now (table_seen table.entry) →
            IfErr result (λ f. FrontFails (table_out change.now pid out (table_seen table.entry))
            (λ put p. S.fails sink.new start (ps ++ put) p f)) }
        ensures refused { IfErr result (λ _. self.new ≡ self.old) }
        ensures sent { (start : Option (List ℕ)) (ps out : List (List ℕ)) → S.holds sink.old start ps →
            HasPut self.old out → HasBytes (table_seen table.entry) →
            OnOk result (S.holds sink.new start (ps ++ sections_going change.now pid out (table_seen table.entry ∷ []))) }
        ensures sent_numbers { (out : List (List ℕ)) → HasPut self.old out → HasBytes (table_seen table.entry) →
            OnOk result (HasPut self.new (onto out (sections_going change.now pid out (table_seen table.entry ∷ [])))) }
        ensures sent_err { (start : Option (List ℕ)) (ps out : List (List ℕ)) → S.holds sink.old start ps →
            HasPut self.old out → HasBytes (table_seen table.entry) →
            IfErr result (λ f. FrontFails (sections_going change.now pid out (table_seen table.entry ∷ []))
            (λ put p. S.fails sink.new start (ps ++ put) p f)) }
        ensures well { OnOk result (WentWell (S.counts sink.old) (S.counts sink.new)) }
        ensures blamed { IfErr result (λ f. Blamed f (S.counts sink.old) (S.counts sink.new) (S.is_full sink.new)) }
        ensures pid { pid < 8192 }
    {
        match changed_section(&table, change) {
            Some(section) => self.put_section(pid, section.as_slice(), sink),
            None => self.put_section(pid, table.section, sink),
        }
    }

    /// The continuity_counter of the PID's next packet.
    fn upcoming(&self, pid: Pid) -> u8
        ensures number { (out : List (List ℕ)) → HasPut self.now out → result ≡ upcoming_on pid out }
        ensures below { result < 16 }
        ensures pid { pid < 8192 }
    {
        self.upcoming[pid.get() as usize] % 16
    }

    /// Takes this as the continuity_counter of the PID's next packet.
    #[inline(always)]
    fn set_upcoming(&mut self, pid: Pid, counter: u8)
        ensures here { slice_index_or self.new.upcoming pid 0 ≡ counter }
        ensures others { (other : ℕ) → other ≢ pid →
            slice_index_or self.new.upcoming other 0 ≡ slice_index_or self.old.upcoming other 0 }
        ensures pid { pid < 8192 }
    {
        self.upcoming[pid.get() as usize] = counter;
    }
}

/// The section as it goes out, where it is a map that is changed. One without room for the entry is not, and goes out as it came.
fn changed_section(table: &LentTable<'_>, change: &CueEntry) -> Option<Section>
    ensures value { GoesOut change.now (table_seen table.now) →
        bytes_or result table.now.section.now ≡ section_out (change_of change.now) (table_seen table.now) }
    ensures some { GoesOut change.now (table_seen table.now) → 0 < length (bytes_or result table.now.section.now) }
    ensures sent { bytes_or result table.now.section.now ≡ section_going change.now (table_seen table.now) }
    ensures bytes { HasBytes (table_seen table.now) → 0 < length (bytes_or result table.now.section.now) }
{
    let Some(map) = &table.map else {
        return None;
    };
    match change {
        CueEntry::Added(pid) => match add_cue(map, *pid) {
            Ok(section) => Some(section),
            Err(_) => None,
        },
        CueEntry::Stripped(pid) => Some(strip_cue(map, *pid)),
    }
}
