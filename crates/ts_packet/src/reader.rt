//! Packets from a device.

ghost use Rattle.std.specs.Prelude.{◌≡◌, ℕ, ◌+◌, ◌^◌, ◌<◌, ◌≤◌, cond, length, is_some, IfOk, IfErr, IfSome, false, true, option_to_list};
ghost use Rattle.ts_packet.specs.Sources.{GivesInto, Gives, Refuses, ReadCounts, ReadBlamed, Spends, ReadAnswers};
ghost use Rattle.ts_packet.specs.Sinks.{Later};

use crate::device::Source;
use crate::packet::{Packet, PacketFault};
use crate::pausing::{PausingPackets, PausingSource};
use crate::source::PacketSource;
use crate::transfer::FillFault;
use thiserror::Error;

/// Why a reader gave no packet.
#[derive(Clone, Copy, Debug, PartialEq, Eq, Drop, Error)]
pub enum ReadFault {
    /// The bytes end with 1 to 187 that are no whole packet.
    #[error("the input ends in the middle of a packet")]
    Truncated,
    /// The next packet's first byte is not 0x47 (ISO/IEC 13818-1, 2.4.3.3, sync_byte).
    #[error("a packet that does not begin with the sync byte")]
    SyncLost,
    /// The next packet's adaptation field does not fit into it (ISO/IEC 13818-1, 2.4.3.5).
    #[error("an adaptation field that does not fit its packet")]
    BadAdaptation,
    /// The device failed in this call.
    #[error("the input failed")]
    Io,
    /// 2^20 reads gave no whole packet, or 2^64 - 1 packets were given.
    #[error("too many reads for one packet")]
    Turns,
    /// The reader has answered a fault before.
    #[error("the input has failed before")]
    Failed,
}

/// Reads packets. After a fault it answers `Failed`, and leaves its device alone. A call that finds the end of the bytes reads no
/// more behind it; the next call asks again.
#[derive(Drop)]
pub struct PacketReader<'a, S: Source> {
    source: &'a mut S,
    given: u64,
    is_broken: bool,
}

impl<'a, S: Source> PacketReader<'a, S> {
    /// A reader over this device, which has given no packet.
    pub fn new(source: &'a mut S) -> PacketReader<'a, S>
        ensures same { result.source.ghost_name ≡ source.entry.ghost_name }
        ensures source { result.source.now ≡ source.old }
        ensures given { result.given ≡ 0 }
        ensures whole { result.is_broken ≡ false }
    {
        PacketReader {
            source,
            given: 0,
            is_broken: false,
        }
    }

    /// Reads the next packet into the slot, where there is one; false at the end of the bytes. What a fault or the end leaves in
    /// the slot is open.
    ///
    /// # Errors
    ///
    /// `Truncated`, `SyncLost` or `BadAdaptation` by the bytes that come next, as [`ReadFault`] says; `Io` where a read failed; `Turns`
    /// where 2^20 reads gave no whole packet, or 2^64 - 1 packets were given before. `Failed` once a fault was answered: then nothing
    /// is read.
    #[inline(always)]
    pub fn read_into(&mut self, packet: &mut Packet) -> Result<bool, ReadFault>
        ensures exact { self.old.is_broken ≡ false → IfSome (S.remaining self.old.source.now)
            (λ bs. ReadAnswers bs result) }
        ensures same { self.new.source.ghost_name ≡ self.old.source.ghost_name }
        ensures ok { IfOk result (λ more. GivesInto (S.remaining self.old.source.now)
            (S.remaining self.new.source.now) more packet.new) }
        ensures err { IfErr result (λ f. Refuses self.old.is_broken (S.remaining self.old.source.now) f) }
        ensures spends { IfErr result (λ f. Spends f (S.remaining self.old.source.now)
            (S.remaining self.new.source.now)) }
        ensures counts { IfOk result (λ more. ReadCounts more (S.counts self.old.source.now)
            (S.counts self.new.source.now)) }
        ensures blamed { IfErr result (λ f. ReadBlamed f self.old.given (S.counts self.old.source.now)
            (S.counts self.new.source.now)) }
        ensures few { (S.counts self.new.source.now).calls ≤ (S.counts self.old.source.now).calls + 2 ^ 20 }
        ensures later { Later (S.counts self.old.source.now) (S.counts self.new.source.now) }
        ensures given { IfOk result (λ more. (self.old.is_broken ≡ false) × (self.new.is_broken ≡ false)
            × (self.new.given ≡ self.old.given + cond more 1 0)) }
        ensures none { IfErr result (λ _. self.new.given ≡ self.old.given) }
        ensures counted { IfOk result (λ _. self.new.given < 2 ^ 64) }
        ensures broken { IfErr result (λ _. self.new.is_broken ≡ true) }
        ensures failed { self.old.is_broken ≡ true → (result ≡ Err ReadFault.Failed) × (self.new ≡ self.old) }
    {
        if self.is_broken {
            return Err(ReadFault::Failed);
        }
        if self.given == u64::MAX {
            self.is_broken = true;
            return Err(ReadFault::Turns);
        }
        match packet.fill_from(self.source) {
            Ok(0) => Ok(false),
            Ok(188) => match packet.fault() {
                None => {
                    self.given += 1;
                    Ok(true)
                }
                Some(PacketFault::SyncLost) => {
                    self.is_broken = true;
                    Err(ReadFault::SyncLost)
                }
                Some(PacketFault::BadAdaptation) => {
                    self.is_broken = true;
                    Err(ReadFault::BadAdaptation)
                }
            },
            Ok(_) => {
                self.is_broken = true;
                Err(ReadFault::Truncated)
            }
            Err(FillFault::Io) => {
                self.is_broken = true;
                Err(ReadFault::Io)
            }
            Err(FillFault::Turns) => {
                self.is_broken = true;
                Err(ReadFault::Turns)
            }
        }
    }

    /// The next packet; `None` at the end of the bytes. `read_into` copies less.
    ///
    /// # Errors
    ///
    /// As for [`PacketReader::read_into`].
    pub fn next(&mut self) -> Result<Option<Packet>, ReadFault>
        ensures same { self.new.source.ghost_name ≡ self.old.source.ghost_name }
        ensures ok { IfOk result (λ o. Gives (S.remaining self.old.source.now) (S.remaining self.new.source.now) o) }
        ensures err { IfErr result (λ f. Refuses self.old.is_broken (S.remaining self.old.source.now) f) }
        ensures spends { IfErr result (λ f. Spends f (S.remaining self.old.source.now)
            (S.remaining self.new.source.now)) }
        ensures counts { IfOk result (λ o. ReadCounts (is_some o) (S.counts self.old.source.now)
            (S.counts self.new.source.now)) }
        ensures blamed { IfErr result (λ f. ReadBlamed f self.old.given (S.counts self.old.source.now)
            (S.counts self.new.source.now)) }
        ensures few { (S.counts self.new.source.now).calls ≤ (S.counts self.old.source.now).calls + 2 ^ 20 }
        ensures later { Later (S.counts self.old.source.now) (S.counts self.new.source.now) }
        ensures given { IfOk result (λ o. (self.old.is_broken ≡ false) × (self.new.is_broken ≡ false)
            × (self.new.given ≡ self.old.given + length (option_to_list o))) }
        ensures none { IfErr result (λ _. self.new.given ≡ self.old.given) }
        ensures counted { IfOk result (λ _. self.new.given < 2 ^ 64) }
        ensures broken { IfErr result (λ _. self.new.is_broken ≡ true) }
        ensures failed { self.old.is_broken ≡ true → (result ≡ Err ReadFault.Failed) × (self.new ≡ self.old) }
    {
        let mut packet = Packet::null();
        match self.read_into(&mut packet) {
            Ok(true) => Ok(Some(packet)),
            Ok(false) => Ok(None),
            Err(fault) => Err(fault),
        }
    }
}

impl<S: Source> PacketSource for PacketReader<'_, S> {
    ghost use Rattle.std.specs.Prelude.{◌≡◌, false};
    ghost use Rattle.ts_packet.specs.Transfers.{FallsShort};
    ghost use Rattle.std.proofs.Common.{refl, ◌∙◌};

    ghost left = { λ r. S.remaining r.source.now };

    ghost counts = { λ r. S.counts r.source.now };

    ghost given = { λ r. r.given };

    ghost is_broken = { λ r. r.is_broken };

    ghost has_ended = { λ r. false };

    ghost leads = { λ r s. s.source.ghost_name ≡ r.source.ghost_name };

    ghost falls_short = { λ r s. FallsShort 188 (S.remaining r.source.now) (S.remaining s.source.now) };

    ghost leads_refl = { λ s. refl };

    ghost leads_trans = { λ s t u h k. k ∙ h };

    #[inline(always)]
    #[tactic(auto, using(crate::proofs::CountLemmas::source_counts, crate::proofs::CountLemmas::source_blamed))]
    fn read_packet(&mut self, packet: &mut Packet) -> Result<bool, ReadFault> {
        self.read_into(packet)
    }
}

impl<S: PausingSource> PausingPackets for PacketReader<'_, S> {
    ghost next_may_wait = { λ r. S.may_wait r.source.now 188 };

    #[inline(always)]
    fn next_may_wait(&self) -> bool {
        self.source.may_wait(188)
    }
}
