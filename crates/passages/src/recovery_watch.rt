//! Networks whose bytes need not all be packets, told of while they are read.

use packet_recovery::RecoveringReader;
use ts_packet::{Packet, PacketSource, PausingPackets, PausingSource, ReadFault};

/// What is known of the bytes of a network that were read. Each number stops at the greatest u64.
#[derive(Clone, Copy, Debug, PartialEq, Eq, Drop)]
pub struct Recovery {
    /// How many packets were read.
    pub packets: u64,
    /// How many bytes stood before the last of them.
    pub place: u64,
    /// How many of them were marked in error for their adaptation field.
    pub mended: u64,
    /// How many bytes were left out, as they are in no packet.
    pub skipped: u64,
}

impl Recovery {
    /// Nothing was read.
    pub fn new() -> Recovery {
        Recovery {
            packets: 0,
            place: 0,
            mended: 0,
            skipped: 0,
        }
    }
}

/// Who is told of a network while it is read.
pub trait RecoveryWatch {
    /// The next packet was read, or the end.
    fn read(&mut self, recovery: &Recovery);

    /// Reads are to be told.
    fn is_on(&self) -> bool;
}

/// A source of packets among bytes that need not all be packets.
pub trait RecoveringPackets: PausingPackets {
    ghost use Rattle.std.specs.Prelude.{◌≡◌, ℕ, Option, Some, false};
    ghost use Rattle.packet_recovery.specs.Reading.{Stays};

    /// How many packets will have been marked in error at the end, where that is known.
    ghost mends: { Self → Option ℕ };

    /// How many bytes will have been left out at the end, where that is known.
    ghost skips: { Self → Option ℕ };

    /// How many bytes stood before the packet that was given last.
    fn place(&self) -> u64;

    /// How many packets were marked in error so far.
    fn mended(&self) -> u64
        ensures { Self.PacketSource.is_spent self.now → Stays (mends self.now) (Some result) };

    /// How many bytes were left out so far.
    fn skipped(&self) -> u64
        ensures { Self.PacketSource.is_spent self.now → Stays (skips self.now) (Some result) };

    /// Both come to the same behind some reads, unless one has failed.
    ghost counts_stay: { (s t : Self) → Self.PacketSource.leads s t → Self.PacketSource.is_broken t ≡ false
        → Stays (mends s) (mends t) × Stays (skips s) (skips t) };
}

impl<S: PausingSource> RecoveringPackets for RecoveringReader<'_, S> {
    ghost use Rattle.packet_recovery.specs.Reading.{rest_of, mended_by, skipped_by};

    ghost mends = { λ r. mended_by r.mended (rest_of r.has_ended r.is_ahead (S.remaining r.source.now)) };

    ghost skips = { λ r. skipped_by r.skipped (rest_of r.has_ended r.is_ahead (S.remaining r.source.now)) };

    ghost counts_stay = { λ s t h e. let stay = h.1 e in (stay.2, stay.1) };

    fn place(&self) -> u64 {
        RecoveringReader::place(self)
    }

    fn mended(&self) -> u64 {
        RecoveringReader::mended(self)
    }

    fn skipped(&self) -> u64 {
        RecoveringReader::skipped(self)
    }
}

/// A source of its own that tells of each read.
#[derive(Drop)]
pub struct ToldPackets<P, V> {
    inner: P,
    watch: V,
    packets: u64,
}

impl<P, V> ToldPackets<P, V> {
    ghost use Rattle.std.specs.Prelude.{◌≡◌};

    /// Tells this watch of the reads.
    pub fn new(inner: P, watch: V) -> ToldPackets<P, V>
        ensures { result.inner ≡ inner }
    {
        ToldPackets {
            inner,
            watch,
            packets: 0,
        }
    }
}

impl<P: RecoveringPackets + Drop, V: Drop> ToldPackets<P, V> {
    ghost use Rattle.std.specs.Prelude.{◌≡◌, ◌+◌, ◌^◌, ◌<◌, Ok, Some, cond, true, false, IfOk, OnOk};
    ghost use Rattle.packet_recovery.specs.Reading.{Stays};

    /// Reads one packet more, and tells of none; false at the end.
    ///
    /// # Errors
    ///
    /// The fault of the source.
    fn pass_over(&mut self, packet: &mut Packet) -> Result<bool, ReadFault>
        ensures given { IfOk result (λ more. P.given self.new.inner ≡ P.given self.old.inner + cond more 1 0) }
        ensures counted { OnOk result (P.given self.new.inner < 2 ^ 64) }
        ensures whole { OnOk result (P.is_broken self.new.inner ≡ false) }
        ensures end { result ≡ Ok false → P.is_spent self.new.inner }
        ensures leads { P.leads self.old.inner self.new.inner }
    {
        self.inner.read_packet(packet)
    }

    /// Reads what a run has left, which is nothing where it went through.
    ///
    /// # Errors
    ///
    /// The fault of the source.
    fn pass_over_rest(&mut self) -> Result<(), ReadFault>
        ensures whole { OnOk result (P.is_broken self.new.inner ≡ false) }
        ensures end { OnOk result (P.is_spent self.new.inner) }
        ensures leads { P.leads self.old.inner self.new.inner }
    {
        let mut packet = Packet::null();
        loop {
            match self.pass_over(&mut packet) {
                Ok(true) => {}
                Ok(false) => return Ok(()),
                Err(fault) => return Err(fault),
            }
        }
    }

    /// How many packets were marked in error in all, and how many bytes were left out. What a run has left is read first.
    ///
    /// # Errors
    ///
    /// The fault of the source.
    pub fn counts(self) -> Result<(u64, u64), ReadFault>
        ensures mended { (start : P) → P.leads start self.inner → IfOk result (λ counts. Stays (P.mends start) (Some counts.0)) }
        ensures skipped { (start : P) → P.leads start self.inner → IfOk result (λ counts. Stays (P.skips start) (Some counts.1)) }
    {
        let mut packets = self;
        match packets.pass_over_rest() {
            Ok(()) => Ok((packets.inner.mended(), packets.inner.skipped())),
            Err(fault) => Err(fault),
        }
    }
}

impl<P: RecoveringPackets, V: RecoveryWatch> ToldPackets<P, V> {
    ghost use Rattle.std.specs.Prelude.{◌≡◌};

    /// Tells of what was read, where that is to be told.
    #[inline(always)]
    fn tell(&mut self)
        ensures { self.new.inner ≡ self.old.inner }
    {
        if !self.watch.is_on() {
            return;
        }
        let recovery = Recovery {
            packets: self.packets,
            place: self.inner.place(),
            mended: self.inner.mended(),
            skipped: self.inner.skipped(),
        };
        self.watch.read(&recovery);
    }
}

impl<P: RecoveringPackets, V: RecoveryWatch> PacketSource for ToldPackets<P, V> {
    ghost left = { λ w. P.left w.inner };

    ghost counts = { λ w. P.counts w.inner };

    ghost given = { λ w. P.given w.inner };

    ghost is_broken = { λ w. P.is_broken w.inner };

    ghost has_ended = { λ w. P.has_ended w.inner };

    ghost leads = { λ v w. P.leads v.inner w.inner };

    ghost falls_short = { λ v w. P.falls_short v.inner w.inner };

    ghost most_calls = { λ v w. P.most_calls v.inner w.inner };

    ghost is_spent = { λ w. P.is_spent w.inner };

    ghost leads_refl = { λ s. P.leads_refl s.inner };

    ghost leads_trans = { λ s t u. P.leads_trans s.inner t.inner u.inner };

    #[inline(always)]
    fn read_packet(&mut self, packet: &mut Packet) -> Result<bool, ReadFault> {
        match self.inner.read_packet(packet) {
            Ok(more) => {
                if more {
                    self.packets = self.packets.saturating_add(1);
                }
                self.tell();
                Ok(more)
            }
            Err(fault) => Err(fault),
        }
    }
}

impl<P: RecoveringPackets, V: RecoveryWatch> PausingPackets for ToldPackets<P, V> {
    ghost next_may_wait = { λ w. P.next_may_wait w.inner };

    #[inline(always)]
    fn next_may_wait(&self) -> bool {
        self.inner.next_may_wait()
    }
}
