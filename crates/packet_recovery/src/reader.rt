//! Packets from a device whose bytes are not all packets.

ghost use Rattle.std.specs.Prelude.{◌≡◌, ℕ, ◌+◌, ◌-◌, ◌*◌, ◌^◌, ◌<◌, ◌≤◌, ◌∷◌, [], List, Option, cond, false, true, IfOk, IfErr};
ghost use Rattle.ts_packet.specs.Sources.{SourceCounts, SourceBlamed};
ghost use Rattle.packet_recovery.specs.Mending.{mend, mends, is_plain};
ghost use Rattle.packet_recovery.specs.Reading.{capped, rest_of, is_ahead_by, has_ended_by, is_packet_by};
ghost use Rattle.packet_recovery.specs.Reading.{Recovers, Missed, StartsAt, IsOfDevice, read_fault_of, most_calls_of, last_place};

use crate::search::Regained;
use crate::sight::look;
use ts_packet::packet::SYNC_BYTE;
use ts_packet::transfer::FillFault;
use ts_packet::{
    Packet, PacketFault, PacketSource, PausingPackets, PausingSource, ReadFault, Source,
};

/// Reads packets, and finds its place again where they do not follow one another. Where a packet does not begin with the sync byte, the
/// bytes up to the next place where such a byte stands 188 bytes before another one, or before the end, are left out; a part of a packet at
/// the end is, too. A packet whose adaptation field does not fit is marked in error. Only its device's faults are answered; after one it
/// answers `Failed`, and leaves its device alone, as it does once the device has told the end.
///
/// A packet is given as soon as its bytes are there. Only where sync was lost is the byte behind it read before it is given. Between two
/// calls no more than one byte is held, and within one no more than a packet and the byte behind it.
#[derive(Drop)]
pub struct RecoveringReader<'a, S: Source> {
    source: &'a mut S,
    given: u64,
    skipped: u64,
    mended: u64,
    /// How many bytes were left out before the packet that was given last.
    skipped_before: u64,
    /// The next packet is read in its place, of which nothing was read: what is below is false.
    is_in_place: bool,
    /// The sync byte of the next packet was read.
    is_ahead: bool,
    has_ended: bool,
    is_broken: bool,
    ghost ended: { has_ended ≡ true → is_broken ≡ false },
    ghost counted: { given < 2 ^ 64 },
    ghost placed: { is_in_place ≡ true → (is_broken ≡ false) × (has_ended ≡ false) × (is_ahead ≡ false) },
    ghost stays: { is_broken ≡ false → has_ended ≡ false → skipped_before ≡ skipped },
}

/// Whether the sync byte behind the packet is read.
#[inline(always)]
fn is_followed(sight: Option<Regained>) -> bool
    ensures { result ≡ is_ahead_by sight }
{
    match sight {
        Some(Regained::Followed) => true,
        Some(Regained::Last) => false,
        Some(Regained::Nowhere) => false,
        None => false,
    }
}

/// Whether the end was told.
#[inline(always)]
fn is_last(sight: Option<Regained>) -> bool
    ensures { result ≡ has_ended_by sight }
{
    match sight {
        Some(Regained::Followed) => false,
        Some(Regained::Last) => true,
        Some(Regained::Nowhere) => true,
        None => false,
    }
}

/// Whether a packet was found.
#[inline(always)]
fn is_packet(sight: Option<Regained>) -> bool
    ensures { result ≡ is_packet_by sight }
{
    match sight {
        Some(Regained::Followed) => true,
        Some(Regained::Last) => true,
        Some(Regained::Nowhere) => false,
        None => true,
    }
}

/// Whether a packet is seen at once to have no fault: sync is there, and an adaptation field is not, or leaves a byte behind it. A packet of
/// which this is not seen may have none either.
#[inline(always)]
fn is_plain(packet: &Packet) -> bool
    ensures { result ≡ is_plain packet.now }
{
    let bytes = packet.as_bytes();
    bytes[0] == SYNC_BYTE && (bytes[3] / 32 % 2 == 0 || bytes[4] <= 182)
}

/// Marks a packet in error whose adaptation field does not fit, and answers how many were marked so with it.
fn mend_packet(packet: &mut Packet, mended: u64) -> u64
    ensures passed { packet.new ≡ mend packet.old }
    ensures count { result ≡ capped (mended + mends (packet.old ∷ [])) }
{
    match packet.fault() {
        Some(PacketFault::BadAdaptation) => {
            packet.mark_in_error();
            mended.saturating_add(1)
        }
        Some(PacketFault::SyncLost) => mended,
        None => mended,
    }
}

/// How many bytes stand before the last of so many packets, before which so many bytes are left out; 0 where there is none.
fn last_place(given: u64, skipped_before: u64) -> u64
    ensures { result ≡ last_place given skipped_before }
{
    if given == 0 {
        return 0;
    }
    skipped_before.saturating_add((given - 1).saturating_mul(188))
}

/// The reader's fault, by that of its device.
fn fault_of(fault: FillFault) -> ReadFault
    ensures { result ≡ read_fault_of fault }
{
    match fault {
        FillFault::Io => ReadFault::Io,
        FillFault::Turns => ReadFault::Turns,
    }
}

impl<'a, S: Source> RecoveringReader<'a, S> {
    /// A reader over this device, which has given no packet.
    pub fn new(source: &'a mut S) -> RecoveringReader<'a, S>
        ensures same { result.source.ghost_name ≡ source.entry.ghost_name }
        ensures source { result.source.now ≡ source.old }
        ensures given { result.given ≡ 0 }
        ensures skipped { result.skipped ≡ 0 }
        ensures mended { result.mended ≡ 0 }
        ensures begins { result.is_ahead ≡ false }
        ensures on { result.has_ended ≡ false }
        ensures whole { result.is_broken ≡ false }
    {
        RecoveringReader {
            source,
            given: 0,
            skipped: 0,
            mended: 0,
            skipped_before: 0,
            is_in_place: true,
            is_ahead: false,
            has_ended: false,
            is_broken: false,
        }
    }

    /// How many bytes were left out so far, up to the greatest u64.
    pub fn skipped(&self) -> u64
        ensures { result ≡ self.now.skipped }
    {
        self.skipped
    }

    /// How many packets were marked in error so far, up to the greatest u64.
    pub fn mended(&self) -> u64
        ensures { result ≡ self.now.mended }
    {
        self.mended
    }

    /// How many bytes stood before the packet that was given last, up to the greatest u64; 0 before the first.
    pub fn place(&self) -> u64
        ensures { result ≡ last_place self.now.given self.now.skipped_before }
    {
        last_place(self.given, self.skipped_before)
    }

    /// A packet is read next in its place, of which nothing was read.
    #[inline(always)]
    fn is_in_place(&self) -> bool
        ensures { result ≡ true → (self.now.is_broken ≡ false) × (self.now.has_ended ≡ false) × (self.now.is_ahead ≡ false)
            × (self.now.given < 2 ^ 64 - 1) }
    {
        self.is_in_place && self.given != u64::MAX
    }

    /// Reads the next packet into the slot, where there is one; false at the end of the bytes. What a fault or the end leaves in the slot is
    /// open.
    ///
    /// # Errors
    ///
    /// `Io` where a read failed; `Turns` where 2^20 reads gave fewer than 188 bytes, whether of a packet or of what is left out, or 2^64 - 1
    /// packets were given before. `Failed` once a fault was answered: then nothing is read.
    #[inline(always)]
    pub fn read_into(&mut self, packet: &mut Packet) -> Result<bool, ReadFault>
        ensures same { self.new.source.ghost_name ≡ self.old.source.ghost_name }
        ensures ok { IfOk result (λ more. Recovers more
            (rest_of self.old.has_ended self.old.is_ahead (S.remaining self.old.source.now))
            (rest_of self.new.has_ended self.new.is_ahead (S.remaining self.new.source.now)) packet.new self.old.given
            self.old.skipped self.new.skipped self.old.mended self.new.mended
            (last_place self.old.given self.old.skipped_before) (last_place self.new.given self.new.skipped_before)) }
        ensures err { IfErr result (λ f. IsOfDevice self.old.is_broken f) }
        ensures missed { IfErr result (λ f. Missed
            (rest_of self.old.has_ended self.old.is_ahead (S.remaining self.old.source.now))
            (S.remaining self.new.source.now) self.old.skipped self.new.skipped) }
        ensures counts { IfOk result (λ more. SourceCounts more self.old.has_ended self.new.has_ended
            (S.counts self.old.source.now) (S.counts self.new.source.now)) }
        ensures blamed { IfErr result (λ f. (self.old.has_ended ≡ false) × SourceBlamed f self.old.given
            (S.counts self.old.source.now) (S.counts self.new.source.now)) }
        ensures few { (S.counts self.new.source.now).calls ≤ (S.counts self.old.source.now).calls
            + most_calls_of self.old.skipped self.new.skipped }
        ensures given { IfOk result (λ more. (self.old.is_broken ≡ false) × (self.new.is_broken ≡ false)
            × (self.new.given ≡ self.old.given + cond more 1 0)) }
        ensures none { IfErr result (λ _. self.new.given ≡ self.old.given) }
        ensures broken { IfErr result (λ _. self.new.is_broken ≡ true) }
        ensures failed { self.old.is_broken ≡ true → (result ≡ Err ReadFault.Failed) × (self.new ≡ self.old) }
    {
        if !self.is_in_place() {
            return self.read_apart(packet, false);
        }
        if !packet.fill_ready(self.source) {
            return self.read_apart(packet, false);
        }
        if !is_plain(packet) {
            return self.read_apart(packet, true);
        }
        self.given += 1;
        Ok(true)
    }

    /// Does what `read_into` does, where the next packet is not a plain one that lies ready in its place. The 188 bytes that come next may
    /// have been read into the slot.
    #[cold]
    #[inline(never)]
    fn read_apart(&mut self, packet: &mut Packet, is_filled: bool) -> Result<bool, ReadFault>
        requires { is_filled ≡ true → (self.old.is_broken ≡ false) × (self.old.has_ended ≡ false) × (self.old.is_ahead ≡ false)
            × (self.old.given < 2 ^ 64 - 1) }
        ensures same { self.new.source.ghost_name ≡ self.old.source.ghost_name }
        ensures ok { (start : Option (List ℕ)) → StartsAt is_filled start
            (rest_of self.old.has_ended self.old.is_ahead (S.remaining self.old.source.now)) packet.old
            → IfOk result (λ more. Recovers more start
            (rest_of self.new.has_ended self.new.is_ahead (S.remaining self.new.source.now)) packet.new self.old.given
            self.old.skipped self.new.skipped self.old.mended self.new.mended
            (last_place self.old.given self.old.skipped_before) (last_place self.new.given self.new.skipped_before)) }
        ensures err { IfErr result (λ f. IsOfDevice self.old.is_broken f) }
        ensures missed { (start : Option (List ℕ)) → StartsAt is_filled start
            (rest_of self.old.has_ended self.old.is_ahead (S.remaining self.old.source.now)) packet.old
            → IfErr result (λ f. Missed start (S.remaining self.new.source.now) self.old.skipped self.new.skipped) }
        ensures counts { IfOk result (λ more. SourceCounts more self.old.has_ended self.new.has_ended
            (S.counts self.old.source.now) (S.counts self.new.source.now)) }
        ensures blamed { IfErr result (λ f. (self.old.has_ended ≡ false) × SourceBlamed f self.old.given
            (S.counts self.old.source.now) (S.counts self.new.source.now)) }
        ensures few { (S.counts self.new.source.now).calls ≤ (S.counts self.old.source.now).calls
            + most_calls_of self.old.skipped self.new.skipped }
        ensures given { IfOk result (λ more. (self.old.is_broken ≡ false) × (self.new.is_broken ≡ false)
            × (self.new.given ≡ self.old.given + cond more 1 0)) }
        ensures none { IfErr result (λ _. self.new.given ≡ self.old.given) }
        ensures broken { IfErr result (λ _. self.new.is_broken ≡ true) }
        ensures failed { self.old.is_broken ≡ true → (result ≡ Err ReadFault.Failed) × (self.new ≡ self.old) }
    {
        if self.is_broken {
            return Err(ReadFault::Failed);
        }
        if self.has_ended {
            return Ok(false);
        }
        self.is_in_place = false;
        if self.given == u64::MAX {
            self.is_broken = true;
            return Err(ReadFault::Turns);
        }
        let mut skipped = self.skipped;
        match look(self.source, packet, is_filled, self.is_ahead, &mut skipped) {
            Ok(sight) => {
                self.skipped = skipped;
                self.is_ahead = is_followed(sight);
                self.has_ended = is_last(sight);
                if !is_packet(sight) {
                    return Ok(false);
                }
                self.is_in_place = !self.is_ahead && !self.has_ended;
                self.mended = mend_packet(packet, self.mended);
                self.skipped_before = skipped;
                self.given += 1;
                Ok(true)
            }
            Err(fault) => {
                self.skipped = skipped;
                self.is_broken = true;
                Err(fault_of(fault))
            }
        }
    }
}

impl<S: Source> PacketSource for RecoveringReader<'_, S> {
    ghost use Rattle.std.specs.Prelude.{◌≡◌, false};
    ghost use Rattle.std.specs.Io.KnownBytes.{IsAtEnd};
    ghost use Rattle.packet_recovery.specs.Reading.{rest_of, left_to_give, skipped_by, mended_by, Stays};
    ghost use Rattle.packet_recovery.specs.Reading.{Stays-refl, Stays-trans, Missed, most_calls_of};
    ghost use Rattle.std.proofs.Common.{refl, ◌∙◌};

    ghost left = { λ r. left_to_give (rest_of r.has_ended r.is_ahead (S.remaining r.source.now)) };

    ghost counts = { λ r. S.counts r.source.now };

    ghost given = { λ r. r.given };

    ghost is_broken = { λ r. r.is_broken };

    ghost has_ended = { λ r. r.has_ended };

    /// Unless it has failed since: what is left out and marked up to the end comes to the same.
    ghost leads = { λ r s. (s.source.ghost_name ≡ r.source.ghost_name) × (s.is_broken ≡ false → (r.is_broken ≡ false)
        × Stays (skipped_by r.skipped (rest_of r.has_ended r.is_ahead (S.remaining r.source.now)))
        (skipped_by s.skipped (rest_of s.has_ended s.is_ahead (S.remaining s.source.now)))
        × Stays (mended_by r.mended (rest_of r.has_ended r.is_ahead (S.remaining r.source.now)))
        (mended_by s.mended (rest_of s.has_ended s.is_ahead (S.remaining s.source.now)))) };

    ghost falls_short = { λ r s. Missed (rest_of r.has_ended r.is_ahead (S.remaining r.source.now)) (S.remaining s.source.now) r.skipped s.skipped };

    ghost most_calls = { λ r s. most_calls_of r.skipped s.skipped };

    ghost is_spent = { λ r. IsAtEnd (rest_of r.has_ended r.is_ahead (S.remaining r.source.now)) };

    ghost leads_refl = { λ s. (
      refl,
      λ e. (
        e,
        Stays-refl (skipped_by s.skipped (rest_of s.has_ended s.is_ahead (S.remaining s.source.now))),
        Stays-refl (mended_by s.mended (rest_of s.has_ended s.is_ahead (S.remaining s.source.now))),
      ),
    ) };

    ghost leads_trans = { λ s t u h k. (
      k.0 ∙ h.0,
      λ e. let b = k.1 e in let a = h.1 b.0 in (
        a.0,
        Stays-trans (skipped_by s.skipped (rest_of s.has_ended s.is_ahead (S.remaining s.source.now)))
            (skipped_by t.skipped (rest_of t.has_ended t.is_ahead (S.remaining t.source.now)))
            (skipped_by u.skipped (rest_of u.has_ended u.is_ahead (S.remaining u.source.now))) a.1 b.1,
        Stays-trans (mended_by s.mended (rest_of s.has_ended s.is_ahead (S.remaining s.source.now)))
            (mended_by t.mended (rest_of t.has_ended t.is_ahead (S.remaining t.source.now)))
            (mended_by u.mended (rest_of u.has_ended u.is_ahead (S.remaining u.source.now))) a.2 b.2,
      ),
    ) };

    #[inline(always)]
    fn read_packet(&mut self, packet: &mut Packet) -> Result<bool, ReadFault> {
        self.read_into(packet)
    }
}

impl<S: PausingSource> PausingPackets for RecoveringReader<'_, S> {
    ghost use Rattle.std.specs.Prelude.{true, false, not, ◌&&◌, ◌||◌, if◌then◌else◌};
    ghost use Rattle.std.below.core.specs.declared.int.usize.TheConstants.{MAX};
    ghost use Rattle.packet_recovery.specs.Reading.{is_other};

    /// In its place a packet waits for its own bytes alone; where sync is lost, for any.
    ghost next_may_wait = { λ r. not r.has_ended && (if r.is_ahead then S.may_wait r.source.now 187
        else (S.may_wait r.source.now 188 || (is_other (S.first_ready r.source.now) && S.may_wait r.source.now MAX))) };

    #[inline(always)]
    fn next_may_wait(&self) -> bool {
        if !self.is_in_place {
            if self.has_ended {
                return false;
            }
            if self.is_ahead {
                return self.source.may_wait(187);
            }
        }
        if self.source.may_wait(188) {
            return true;
        }
        // Asked first, as a reader that never waits knows the answer at once.
        self.source.may_wait(usize::MAX) && self.source.first_ready() != Some(SYNC_BYTE)
    }
}
