//! A packet that is settled for each service as it stands.

ghost use Rattle.std.specs.Prelude.{◌≡◌, ◌++◌, ℕ, List, ◌∷◌, true, false, Option, ◌<◌, ◌≤◌};
ghost use Rattle.std.specs.Prelude.{length, slice_index_or, OnOk, IfOk, IfSome};
ghost use Rattle.ts_packet.specs.Fields.{pid_of};
ghost use Rattle.scte104_codec.specs.declared.reply.Reply.{Reply};
ghost use Rattle.service_laws.specs.Services.{ServiceTerms, configs_of};
ghost use Rattle.chain_engine.specs.Automation.{Take};
ghost use Rattle.chain_engine.specs.Runs.{steps_of, steps_before};
ghost use Rattle.chain_services.specs.Serving.{FiledAs};
ghost use Rattle.psi_tables.specs.declared.config.Config.{Config};
ghost use Rattle.services_on_air.specs.Standing.{AirServicesStandFor, AreSettled, StillTold, StillGoesOn, IsStill, TakerIsStill, HavePassed};
ghost use Rattle.services_on_air.specs.Owners.{TakerGoesOn};
ghost use Rattle.services_on_air.specs.declared.service.Passed.{Passed};
ghost use Rattle.services_on_air.specs.Serving.{ServicesGone, ServicesSettled, ServicesHeard, air_behind, air_ahead};

use super::{AirServices, show_each};
use crate::passing::{Still, go_on_first};
use crate::service::Passed;
use crate::watch::ServicesWatch;
use ad_library::AdLibrary;
use chain_engine::of_bytes;
use chain_services::{Alone, shift_of};
use std::alloc::Allocator;
use ts_packet::{Packet, PacketSink, PutFault};

impl<M: Allocator> AirServices<M> {
    /// Does what [`AirServices::pass_settled`] does, where the packet goes on alone for the service that alone takes it, and no message was judged
    /// since.
    ///
    /// # Errors
    ///
    /// The sink's.
    #[inline(always)]
    pub(super) fn go_on<K: PacketSink>(
        &mut self,
        takers: u8,
        alone: Alone,
        packet: &Packet,
        libraries: &[AdLibrary],
        out: &mut K,
    ) -> Result<Passed, PutFault>
        requires below { alone.of.stream < 8 }
        requires quiet { self.old.desk.asks_all ≡ false }
        ensures leads { K.leads out.old out.new }
        ensures stands { (cs : List Config) (past : List (List ℕ)) → AreSettled self.old cs packet.now past → length libraries.now ≡ length cs
            → StillTold self.old.desk takers packet.now → StillGoesOn self.old.desk takers alone packet.now
            → IfOk result (HavePassed self.new cs packet.now past) }
        ensures out { (ts : List ServiceTerms) (past before : List (List ℕ)) (takes : List Take) (rs : List Reply) (start : Option (List ℕ))
            → AreSettled self.old (configs_of ts) packet.now past → FiledAs libraries.now ts
            → ServicesHeard self.old ts packet.now past takes rs
            → StillTold self.old.desk takers packet.now → StillGoesOn self.old.desk takers alone packet.now
            → K.holds out.old start (before ++ air_ahead ts packet.now past (steps_before (length rs) takes past))
            → OnOk result (ServicesGone self.new ts (packet.now ∷ past) takes rs
            × K.holds out.new start (before ++ air_behind ts (packet.now ∷ past) takes rs)) }
        ensures still { IfOk result (λ passed. (passed.learns ≡ false) × (passed.is_unjudged ≡ false)) }
        ensures talk { self.new.talk ≡ self.old.talk }
    {
        of_bytes(packet);
        let services = self.desk.services.as_mut_slice();
        if alone.count > services.len().min(libraries.len()) {
            return Err(PutFault::Failed);
        }
        let (_, services) = services.split_at_mut(alone.count);
        let (_, libraries) = libraries.split_at(alone.count);
        let passed = match go_on_first(alone.of, services, libraries, packet, out) {
            Ok(passed) => passed,
            Err(fault) => return Err(fault),
        };
        self.desk.turns = self.desk.turns.wrapping_add(u64::from(passed.has_turned));
        Ok(passed)
    }

    /// Shows and counts the packet that has passed as it was settled for each service: it was judged, and no PID more is known with it.
    #[inline(always)]
    pub(super) fn passed_still<A: ServicesWatch>(
        &mut self,
        packet: &Packet,
        libraries: &[AdLibrary],
        watch: &mut A,
    )
        ensures stands { (cs : List Config) (past : List (List ℕ)) (told : Passed) → HavePassed self.old cs packet.now past told
            → told.learns ≡ false → told.is_unjudged ≡ false → AirServicesStandFor self.new cs (packet.now ∷ past) }
        ensures gone { (ts : List ServiceTerms) (past : List (List ℕ)) (takes : List Take) (rs : List Reply) → ServicesGone self.old ts past takes rs
            → ServicesGone self.new ts past takes rs }
        ensures talk { self.new.talk ≡ self.old.talk }
    {
        let desk = &self.desk;
        show_each(
            desk.services.as_slice(),
            desk.turns,
            libraries,
            packet,
            watch,
        );
        self.packets = self.packets.saturating_add(1);
    }

    /// The next packet, which no service takes, is settled for each of them as it stands.
    #[inline(always)]
    pub(super) fn settle_none(&self, takers: u8, packet: &Packet)
        requires pid { pid_of packet.now < 8192 }
        requires takers { takers ≡ slice_index_or self.now.desk.owners (pid_of packet.now) 0 }
        requires none { takers ≡ 0 }
        requires quiet { self.now.desk.asks_all ≡ false }
        ensures stands { (cs : List Config) (past : List (List ℕ)) → AirServicesStandFor self.now cs past → AreSettled self.now cs packet.now past }
        ensures gone { (ts : List ServiceTerms) (past : List (List ℕ)) (takes : List Take) (rs : List Reply)
            → AirServicesStandFor self.now (configs_of ts) past → ServicesGone self.now ts past takes rs
            → ServicesSettled self.now ts packet.now past takes rs
            × (air_behind ts past takes rs ≡ air_ahead ts packet.now past (steps_of (length rs) takes past)) }
    {}

    /// Which service alone takes the next packet, where the packet goes on alone for that one and is settled for each as it stands. `None` where it
    /// is no such packet, or that is open.
    #[inline(always)]
    fn settle_taken(&self, takers: u8, packet: &Packet) -> Option<Alone>
        requires pid { pid_of packet.now < 8192 }
        requires takers { takers ≡ slice_index_or self.now.desk.owners (pid_of packet.now) 0 }
        requires quiet { self.now.desk.asks_all ≡ false }
        ensures below { IfSome result (λ alone. alone.of.stream < 8) }
        ensures alone { IfSome result (λ alone. TakerGoesOn takers alone self.now.desk.services.items packet.now) }
        ensures stands { (cs : List Config) (past : List (List ℕ)) → AirServicesStandFor self.now cs past
            → IfSome result (λ _. AreSettled self.now cs packet.now past) }
        ensures gone { (ts : List ServiceTerms) (past : List (List ℕ)) (takes : List Take) (rs : List Reply)
            → AirServicesStandFor self.now (configs_of ts) past → ServicesGone self.now ts past takes rs
            → IfSome result (λ _. ServicesSettled self.now ts packet.now past takes rs
            × (air_behind ts past takes rs ≡ air_ahead ts packet.now past (steps_of (length rs) takes past))) }
    {
        let services = self.desk.services.as_slice();
        let shift = shift_of(takers, services.len());
        if shift.takers != 1 {
            return None;
        }
        let (_front, behind) = services.split_at(shift.count);
        let Some((service, _others)) = behind.split_first() else {
            return None;
        };
        match service.stays_still(packet) {
            Some(of) => Some(Alone {
                count: shift.count,
                of,
            }),
            None => None,
        }
    }

    /// How the next packet passes, where it is settled for each service as it stands. `None` where it is no such packet, or that is open.
    #[inline(always)]
    pub(super) fn settle_still(&self, takers: u8, packet: &Packet) -> Option<Still>
        requires pid { pid_of packet.now < 8192 }
        requires takers { takers ≡ slice_index_or self.now.desk.owners (pid_of packet.now) 0 }
        requires quiet { self.now.desk.asks_all ≡ false }
        ensures still { IfSome result (λ still. IsStill still takers) }
        ensures taker { IfSome result (λ still. TakerIsStill self.now.desk still takers packet.now) }
        ensures stands { (cs : List Config) (past : List (List ℕ)) → AirServicesStandFor self.now cs past
            → IfSome result (λ _. AreSettled self.now cs packet.now past) }
        ensures gone { (ts : List ServiceTerms) (past : List (List ℕ)) (takes : List Take) (rs : List Reply)
            → AirServicesStandFor self.now (configs_of ts) past → ServicesGone self.now ts past takes rs
            → IfSome result (λ _. ServicesSettled self.now ts packet.now past takes rs
            × (air_behind ts past takes rs ≡ air_ahead ts packet.now past (steps_of (length rs) takes past))) }
    {
        if takers == 0 {
            self.settle_none(takers, packet);
            return Some(Still::Beside);
        }
        match self.settle_taken(takers, packet) {
            Some(alone) => Some(Still::Taken(alone)),
            None => None,
        }
    }

    /// Puts the packet that is settled and that no service takes, where no message was judged since.
    ///
    /// # Errors
    ///
    /// The sink's.
    #[inline(always)]
    fn put_beside<K: PacketSink>(
        &self,
        takers: u8,
        packet: &Packet,
        out: &mut K,
    ) -> Result<Passed, PutFault>
        requires none { takers ≡ 0 }
        requires quiet { self.now.desk.asks_all ≡ false }
        ensures leads { K.leads out.old out.new }
        ensures stands { (cs : List Config) (past : List (List ℕ)) → AreSettled self.now cs packet.now past
            → StillTold self.now.desk takers packet.now → IfOk result (HavePassed self.now cs packet.now past) }
        ensures out { (ts : List ServiceTerms) (past before : List (List ℕ)) (takes : List Take) (rs : List Reply) (start : Option (List ℕ))
            → AreSettled self.now (configs_of ts) packet.now past → ServicesHeard self.now ts packet.now past takes rs
            → StillTold self.now.desk takers packet.now
            → K.holds out.old start (before ++ air_ahead ts packet.now past (steps_before (length rs) takes past))
            → OnOk result (ServicesGone self.now ts (packet.now ∷ past) takes rs
            × K.holds out.new start (before ++ air_behind ts (packet.now ∷ past) takes rs)) }
        ensures still { IfOk result (λ passed. (passed.learns ≡ false) × (passed.is_unjudged ≡ false)) }
    {
        of_bytes(packet);
        match out.put(packet) {
            Ok(()) => Ok(Passed::beside()),
            Err(fault) => Err(fault),
        }
    }

    /// Passes the packet on that was settled for each service as it stands, where no message was judged since.
    ///
    /// # Errors
    ///
    /// The sink's.
    #[inline(always)]
    pub(super) fn put_still<K: PacketSink>(
        &mut self,
        still: Still,
        takers: u8,
        packet: &Packet,
        libraries: &[AdLibrary],
        out: &mut K,
    ) -> Result<Passed, PutFault>
        requires still { IsStill still takers }
        requires quiet { self.old.desk.asks_all ≡ false }
        ensures leads { K.leads out.old out.new }
        ensures stands { (cs : List Config) (past : List (List ℕ)) → AreSettled self.old cs packet.now past → length libraries.now ≡ length cs
            → StillTold self.old.desk takers packet.now → TakerIsStill self.old.desk still takers packet.now
            → IfOk result (HavePassed self.new cs packet.now past) }
        ensures out { (ts : List ServiceTerms) (past before : List (List ℕ)) (takes : List Take) (rs : List Reply) (start : Option (List ℕ))
            → AreSettled self.old (configs_of ts) packet.now past → FiledAs libraries.now ts
            → ServicesHeard self.old ts packet.now past takes rs → StillTold self.old.desk takers packet.now
            → TakerIsStill self.old.desk still takers packet.now
            → K.holds out.old start (before ++ air_ahead ts packet.now past (steps_before (length rs) takes past))
            → OnOk result (ServicesGone self.new ts (packet.now ∷ past) takes rs
            × K.holds out.new start (before ++ air_behind ts (packet.now ∷ past) takes rs)) }
        ensures still { IfOk result (λ passed. (passed.learns ≡ false) × (passed.is_unjudged ≡ false)) }
        ensures talk { self.new.talk ≡ self.old.talk }
    {
        match still {
            Still::Beside => self.put_beside(takers, packet, out),
            Still::Taken(alone) => self.go_on(takers, alone, packet, libraries, out),
        }
    }
}
