//! An inspection: packets in, facts out.

ghost use Rattle.std.specs.Prelude.{◌≡◌, ◌∷◌, ◌<◌, ◌-◌, ◌^◌, [], ℕ, List, All, length, OnOk, IfOk};
ghost use Rattle.stream_facts.specs.Judging.{wish_of, fed_of, packets_in};
ghost use Rattle.stream_facts.specs.Facts.{Inspects, OfInspected, Tells, is_told_by};

use crate::bit_rate::rate_of;
use crate::counts::PacketCounts;
use crate::cues::CueList;
use crate::facts::{Damage, Facts};
use crate::free_pids::free_pids;
use crate::judge::Judge;
use crate::packet_size::PacketSize;
use crate::pid_facts::PidTable;
use crate::programs::{of_number, programs};
use crate::tables::TableSet;
use std::alloc::{AllocError, Global};
use ts_packet::Packet;

/// A transport stream that is looked at packet by packet.
#[derive(Drop)]
pub struct Inspection {
    alloc: Global,
    /// The one program that is told, or all.
    wanted: Option<u16>,
    counts: PacketCounts,
    tables: TableSet,
    cues: CueList,
    judge: Judge,
    pids: PidTable,
}

impl Inspection {
    /// An inspection that has seen no packet. The program of this number alone is told and judged; where there is no number, all are told and
    /// the first is judged.
    ///
    /// # Errors
    ///
    /// Where the allocator refused memory.
    pub fn new(alloc: Global, wanted: Option<u16>) -> Result<Inspection, AllocError>
        ensures { IfOk result (λ i. Inspects i (wish_of wanted) []) }
    {
        Ok(Inspection {
            alloc,
            wanted,
            counts: PacketCounts::new(),
            tables: TableSet::new(alloc),
            cues: CueList::new(alloc),
            judge: Judge::new(wanted),
            pids: PidTable::new(alloc)?,
        })
    }

    /// Takes the next packet. Before it stand so many bytes that are in none, and it and those before it have so many adaptation fields that do
    /// not fit.
    ///
    /// # Errors
    ///
    /// Where the allocator refused memory. What is known then is open.
    pub fn feed(&mut self, packet: &Packet, damage: Damage) -> Result<(), AllocError>
        ensures { OfInspected self.old (λ c past. length past < 2 ^ 64 - 1
            → OnOk result (Inspects self.new c (fed_of packet.now damage ∷ past))) }
    {
        let before = self.counts.packets;
        self.counts.add(packet);
        self.judge.feed(packet, before, damage);
        self.cues.feed(self.alloc, packet, before)?;
        if self.tables.feed(self.alloc, packet)? {
            follow_cues(&mut self.cues, &self.tables, self.wanted)?;
        }
        self.pids.feed(self.alloc, packet, before)
    }

    /// The facts, where the packets have this size, and so much of the whole stream is no packet, or none that can be read.
    ///
    /// # Errors
    ///
    /// Where the allocator refused memory.
    pub fn finish(self, size: PacketSize, damage: Damage) -> Result<Facts, AllocError>
        ensures { OfInspected self (λ c past. length past < 2 ^ 64 → IfOk result (λ facts. Tells facts c size damage past)) }
    {
        let alloc = self.alloc;
        let all = programs(alloc, &self.tables, &self.pids)?;
        let free_pids = free_pids(alloc, &self.pids, all.as_slice())?;
        let packets = self.counts.packets;
        let (bit_rate, file_bit_rate) = bit_rates(
            &self.tables,
            &self.pids,
            self.wanted,
            bytes_of(packets, damage),
        );
        let profile = self.judge.verdict(packets, damage, size);
        let null_packets = self.counts.nulls;
        let programs = of_number(all, self.wanted);
        let Inspection { cues, .. } = self;
        Ok(Facts {
            packet_size: size,
            packets,
            damage,
            null_packets,
            bit_rate,
            file_bit_rate,
            programs,
            cues: cues.into_cues(),
            free_pids,
            profile,
        })
    }
}

/// Whether the program of this number is one that is told.
pub(crate) fn is_told(number: u16, wanted: Option<u16>) -> bool
    ensures { result ≡ is_told_by wanted number }
{
    match wanted {
        None => true,
        Some(wanted) => number == wanted,
    }
}

/// Reads on the PIDs on which the maps list cues.
fn follow_cues(
    cues: &mut CueList,
    tables: &TableSet,
    wanted: Option<u16>,
) -> Result<(), AllocError> {
    for listing in tables.listings() {
        if is_told(listing.number, wanted)
            && let Some(map) = listing.map()
        {
            cues.follow(&map)?;
        }
    }
    Ok(())
}

/// The bytes of so many packets, and of what is in none.
fn bytes_of(packets: u64, damage: Damage) -> u64 {
    packets.saturating_mul(188).saturating_add(damage.skipped)
}

/// Bits a second by the clock of the first program that is told and has one: of its packets, and of so many bytes.
fn bit_rates(
    tables: &TableSet,
    pids: &PidTable,
    wanted: Option<u16>,
    bytes: u64,
) -> (Option<u64>, Option<u64>) {
    for listing in tables.listings() {
        if is_told(listing.number, wanted)
            && let Some(map) = listing.map()
            && let Some(known) = pids.get(map.pcr_pid())
            && let Some(rate) = known.clock().bit_rate()
        {
            return (Some(rate), rate_of(bytes, known.clock().ticks()));
        }
    }
    (None, None)
}
