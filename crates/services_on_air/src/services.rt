//! The services of a run on air, packet by packet.

ghost use Rattle.std.specs.Prelude.{◌≡◌, ◌++◌, ◌+◌, ℕ, if◌then◌else◌, List, ◌∷◌, [], true, false, Option, None, ◌<◌, ◌≤◌};
ghost use Rattle.std.specs.Prelude.{map, length, slice_index_or, OnOk, IfOk, IfErr, IfSome};
ghost use Rattle.ts_packet.specs.Fields.{pid_of};
ghost use Rattle.ad_library.specs.Library.{held};
ghost use Rattle.scte104_codec.specs.declared.reply.Reply.{Reply};
ghost use Rattle.service_laws.specs.Messages.{share_an_index};
ghost use Rattle.service_laws.specs.Services.{ServiceTerms, configs_of};
ghost use Rattle.chain_engine.specs.Automation.{Take};
ghost use Rattle.chain_engine.specs.Runs.{Exchanged, steps_of, steps_before};
ghost use Rattle.chain_services.specs.Serving.{FiledAs};
ghost use Rattle.psi_section.specs.Assembling.{capped};
ghost use Rattle.psi_tables.specs.declared.config.Config.{Config};
ghost use Rattle.chain_services.specs.Refused.{services_refused, IsRefused};
ghost use Rattle.services_on_air.specs.Airing.{Airing, begins, parted, begun_in};
ghost use Rattle.services_on_air.specs.Standing.{AirStandsFor, IsSettled, IsPassed, AllStand, AllSettled, ArePassed};
ghost use Rattle.services_on_air.specs.Standing.{DeskJudged, AirServicesStandFor, AreSettled, StillTold, StillGoesOn, IsStill, TakerIsStill};
ghost use Rattle.services_on_air.specs.Standing.{HavePassed, TellsOfAll};
ghost use Rattle.services_on_air.specs.Owners.{HasOwnersOnAir, AllJudged, IsLeftOut, AreLeftOut, FirstGoesOnAir, TakerGoesOn};
ghost use Rattle.services_on_air.specs.Histories.{Gone, HasGone, gone_on, put_own, aired_as};
ghost use Rattle.services_on_air.specs.Outputs.{lost_among};
ghost use Rattle.services_on_air.specs.declared.service.Passed.{Passed};
ghost use Rattle.services_on_air.specs.Serving.{AllGone, DeskGone, nothings_gone, gones_on, puts_on, puts_last};
ghost use Rattle.services_on_air.specs.Serving.{AddsOnAir, AirServicesBegin, ServicesGone, ServicesSettled, ServicesHeard, ServicesEnded};
ghost use Rattle.services_on_air.specs.Serving.{HearsAll, RunsSoFar, air_behind, air_ahead, air_to_end};

mod still;

use crate::desk::AirDesk;
use crate::passing::pass_some;
use crate::service::{AirService, Numbered, Passed};
use crate::settling::settle_some;
use crate::sharing::part_each;
use crate::watch::ServicesWatch;
use ad_library::AdLibrary;
use arrayvec::ArrayVec;
use chain_engine::{Automation, OutOfMemory, Talk};
use chain_services::{Owners, ServiceEvents, ServiceFault, ServiceReport, Services, takes_all};
use injector::{MessageCounts, Requests};
use on_air::AirReport;
use psi_tables::Config;
use std::alloc::{Allocator, Global};
use ts_packet::{Packet, PacketSink, PutFault};

/// What turns a network of several programmes, whatever is wrong with it, and an automation's requests for each of them into the spliced stream.
/// It takes all its memory when it is made: two times 65,535 bytes for the automation's messages, 8,192 for a table of PIDs, and some 100,000 for each
/// service.
#[derive(Drop)]
pub struct AirServices<M: Allocator = Global> {
    talk: Talk<M>,
    desk: AirDesk<M>,
    /// How many packets have come; the count stops at the greatest u64.
    packets: u64,
    /// How many of them were left unjudged.
    unjudged: u64,
}

/// Adds services of these, which were given nothing.
fn add_services<M: Allocator>(
    services: &mut Vec<AirService, M>,
    configs: &[Config],
) -> Result<(), OutOfMemory>
    ensures stands { (xs : List Airing) → AllStand services.old.items xs
        → OnOk result (AllStand services.new.items (xs ++ map begins configs.now)) }
    ensures gone { (before ts : List ServiceTerms) (gs : List Gone) → configs_of ts ≡ configs.now → AllGone services.old.items before gs
        → OnOk result (AllGone services.new.items (before ++ ts) (gs ++ nothings_gone ts)) }
{
    let Some((config, others)) = configs.split_first() else {
        return Ok(());
    };
    match services.push(AirService::new(*config)) {
        Ok(()) => add_services(services, others),
        Err(_) => Err(OutOfMemory),
    }
}

/// Puts what is left of the advertisements of these services, each with its library, and adds what became of their events.
///
/// # Errors
///
/// The sink's; `Failed` where there is no room for more events.
fn finish_each<K: PacketSink, A: ServicesWatch>(
    services: &mut [AirService],
    libraries: &[AdLibrary],
    events: &mut ArrayVec<ServiceEvents, 8>,
    out: &mut K,
    watch: &mut A,
) -> Result<(), PutFault>
    ensures leads { K.leads out.old out.new }
    ensures puts { (ts : List ServiceTerms) (gs : List Gone) (start : Option (List ℕ)) (ps : List (List ℕ)) → FiledAs libraries.now ts
        → AllGone services.old ts gs → K.holds out.old start ps
        → OnOk result (AddsOnAir events.old.items events.new.items ts gs × K.holds out.new start (ps ++ puts_last ts gs)) }
{
    let Some((service, others)) = services.split_first_mut() else {
        return Ok(());
    };
    let Some((library, libraries)) = libraries.split_first() else {
        return Ok(());
    };
    let config = service.config();
    let switch = match service.finish(library, out, watch) {
        Ok(switch) => switch,
        Err(fault) => return Err(fault),
    };
    let one = ServiceEvents {
        index: config.index,
        program: config.program,
        switch,
    };
    match events.try_push(one) {
        Ok(()) => finish_each(others, libraries, events, out, watch),
        Err(_) => Err(PutFault::Failed),
    }
}

/// Shows each of these services behind a packet that has passed, where that is asked for. With so many packets something has turned in one.
#[inline(always)]
fn show_each<A: ServicesWatch>(
    services: &[AirService],
    turns: u64,
    libraries: &[AdLibrary],
    packet: &Packet,
    watch: &mut A,
) {
    if watch.looks(packet, turns) {
        show_all(services, libraries, packet, watch);
    }
}

/// Shows each of these services. It stands by itself, since few packets are looked at.
#[inline(never)]
fn show_all<A: ServicesWatch>(
    services: &[AirService],
    libraries: &[AdLibrary],
    packet: &Packet,
    watch: &mut A,
) {
    for (service, library) in services.iter().zip(libraries.iter()) {
        service.show(library, packet, watch);
    }
}

/// How many stretches of these services began behind another one.
fn begun_of(services: &[AirService]) -> u64
    ensures { (xs : List Airing) → AllStand services.now xs → result ≡ capped (begun_in xs) }
{
    match services.split_first() {
        None => 0,
        Some((service, others)) => {
            let behind = begun_of(others);
            service.begun().saturating_add(behind)
        }
    }
}

/// The events of these services that stood at the ends of their stretches but the last, and whose end had not come.
fn lost_of(services: &[AirService]) -> u64
    ensures { (ts : List ServiceTerms) (gs : List Gone) → AllGone services.now ts gs → result ≡ capped (lost_among gs) }
{
    match services.split_first() {
        None => 0,
        Some((service, others)) => service.lost().saturating_add(lost_of(others)),
    }
}

impl AirServices {
    /// Services of these configurations, in this order, that were given nothing.
    ///
    /// # Errors
    ///
    /// As for [`Services::new`].
    pub fn new(alloc: Global, configs: &[Config]) -> Result<AirServices, ServiceFault>
        ensures ok { IfOk result (λ services. AirServicesStandFor services configs.now []) }
        ensures begins { IfOk result (λ services. AirServicesBegin services configs.now) }
        ensures sound { OnOk result (services_refused configs.now ≡ None) }
        ensures err { IfErr result (IsRefused configs.now) }
    {
        AirServices::new_in(alloc, configs)
    }
}

impl<M: Allocator + Copy> AirServices<M> {
    /// The same, whose memory is this allocator's.
    ///
    /// # Errors
    ///
    /// As for [`Services::new`].
    pub fn new_in(alloc: M, configs: &[Config]) -> Result<AirServices<M>, ServiceFault>
        ensures ok { IfOk result (λ services. AirServicesStandFor services configs.now []) }
        ensures begins { IfOk result (λ services. AirServicesBegin services configs.now) }
        ensures sound { OnOk result (services_refused configs.now ≡ None) }
        ensures err { IfErr result (IsRefused configs.now) }
    {
        // What is refused off air is refused on air.
        match Services::new_in(alloc, configs) {
            Ok(_) => {}
            Err(fault) => return Err(fault),
        }
        let Some(first) = configs.first() else {
            return Err(ServiceFault::NoService);
        };
        let Ok(talk) = Talk::new_in(alloc) else {
            return Err(ServiceFault::OutOfMemory);
        };
        let Ok(mut services) = Vec::with_capacity(alloc, configs.len()) else {
            return Err(ServiceFault::OutOfMemory);
        };
        let Ok(()) = add_services(&mut services, configs) else {
            return Err(ServiceFault::OutOfMemory);
        };
        let desk = AirDesk {
            services,
            none: Requests::new(first.index),
            counts: MessageCounts {
                messages: 0,
                accepted: 0,
                refused: 0,
            },
            owners: Owners::new(),
            asks_all: true,
            turns: 0,
        };
        Ok(AirServices {
            talk,
            desk,
            packets: 0,
            unjudged: 0,
        })
    }
}

impl<M: Allocator> AirServices<M> {
    /// Settles for each service what becomes of the next packet, which these take.
    ///
    /// # Errors
    ///
    /// The sink's.
    #[inline(always)]
    fn settle<K: PacketSink, A: ServicesWatch>(
        &mut self,
        takers: u8,
        next: Numbered<'_>,
        libraries: &[AdLibrary],
        out: &mut K,
        watch: &mut A,
    ) -> Result<(), PutFault>
        requires pid { pid_of next.packet.now < 8192 }
        requires takers { takers ≡ slice_index_or self.old.desk.owners (pid_of next.packet.now) 0 }
        ensures leads { K.leads out.old out.new }
        ensures told { OnOk result (StillTold self.new.desk takers next.entry.packet.now) }
        ensures stands { (cs : List Config) (past : List (List ℕ)) → AirServicesStandFor self.old cs past → length libraries.now ≡ length cs
            → OnOk result (AreSettled self.new cs next.entry.packet.now past) }
        ensures out { (ts : List ServiceTerms) (past before : List (List ℕ)) (takes : List Take) (rs : List Reply) (start : Option (List ℕ))
            → AirServicesStandFor self.old (configs_of ts) past → FiledAs libraries.now ts → ServicesGone self.old ts past takes rs
            → K.holds out.old start (before ++ air_behind ts past takes rs)
            → OnOk result (ServicesSettled self.new ts next.entry.packet.now past takes rs
            × K.holds out.new start (before ++ air_ahead ts next.entry.packet.now past (steps_of (length rs) takes past))) }
        ensures talk { self.new.talk ≡ self.old.talk }
    {
        let all = takes_all(self.desk.asks_all, takers);
        let services = self.desk.services.as_mut_slice();
        match settle_some(all, takers, services, libraries, next, out, watch) {
            Ok(is_anew) => {
                self.desk.settled(is_anew);
                Ok(())
            }
            Err(fault) => Err(fault),
        }
    }

    /// Hears the automation before the packet that is settled.
    #[inline(always)]
    fn hear<U: Automation>(&mut self, automation: &mut U)
        ensures stands { (cs : List Config) (p : List ℕ) (past : List (List ℕ)) → AreSettled self.old cs p past
            → AreSettled self.new cs p past }
        ensures heard { (ts : List ServiceTerms) (p : List ℕ) (past : List (List ℕ)) (takes : List Take) (rs : List Reply) (first : U)
            → share_an_index (configs_of ts) ≡ false → ServicesSettled self.old ts p past takes rs
            → Exchanged U.exchanges U.failures first automation.old self.old.talk.end takes rs
            → HearsAll self.new ts p past (air_ahead ts p past (steps_of (length rs) takes past))
            (Exchanged U.exchanges U.failures first automation.new) }
        ensures quiet { (cs : List Config) (p : List ℕ) (past : List (List ℕ)) → AreSettled self.old cs p past
            → self.new.desk.asks_all ≡ false → self.new.desk ≡ self.old.desk }
    {
        self.talk.listen(&mut self.desk, automation);
    }

    /// Passes the packet on that is settled, through each service; where it is of none it goes out. These take it, unless
    /// all are to be shown it.
    ///
    /// # Errors
    ///
    /// The sink's.
    #[inline(always)]
    fn pass_settled<K: PacketSink>(
        &mut self,
        takers: u8,
        packet: &Packet,
        libraries: &[AdLibrary],
        out: &mut K,
    ) -> Result<Passed, PutFault>
        ensures leads { K.leads out.old out.new }
        ensures stands { (cs : List Config) (past : List (List ℕ)) → AreSettled self.old cs packet.now past → length libraries.now ≡ length cs
            → StillTold self.old.desk takers packet.now
            → IfOk result (HavePassed self.new cs packet.now past) }
        ensures out { (ts : List ServiceTerms) (past before : List (List ℕ)) (takes : List Take) (rs : List Reply) (start : Option (List ℕ))
            → AreSettled self.old (configs_of ts) packet.now past → FiledAs libraries.now ts
            → ServicesHeard self.old ts packet.now past takes rs
            → StillTold self.old.desk takers packet.now
            → K.holds out.old start (before ++ air_ahead ts packet.now past (steps_before (length rs) takes past))
            → OnOk result (ServicesGone self.new ts (packet.now ∷ past) takes rs
            × K.holds out.new start (before ++ air_behind ts (packet.now ∷ past) takes rs)) }
        ensures talk { self.new.talk ≡ self.old.talk }
    {
        let all = takes_all(self.desk.asks_all, takers);
        let services = self.desk.services.as_mut_slice();
        let passed = match pass_some(all, takers, services, libraries, packet, out) {
            Ok(passed) => passed,
            Err(fault) => return Err(fault),
        };
        self.desk.asks_all = passed.has_left;
        self.desk.turns = self.desk.turns.wrapping_add(u64::from(passed.has_turned));
        if passed.is_own {
            return Ok(passed);
        }
        match out.put(packet) {
            Ok(()) => Ok(passed),
            Err(fault) => Err(fault),
        }
    }

    /// Where with the packet that came last more PIDs are known, ends the stretches of services that share one, and forgets which services take the
    /// packets of each PID. Where none are, looks that up for its PID, if it was told of that that all take its packets.
    #[inline(always)]
    fn part<A: ServicesWatch>(
        &mut self,
        learns: bool,
        takers: u8,
        last: Numbered<'_>,
        watch: &mut A,
    )
        ensures all { (xs : List Airing) → AllStand self.old.desk.services.items xs
            → AllStand self.new.desk.services.items (if learns then parted xs else xs) }
        ensures others { (self.new.talk ≡ self.old.talk) × (self.new.packets ≡ self.old.packets) × (self.new.unjudged ≡ self.old.unjudged) }
        ensures gone { (ts : List ServiceTerms) (gs : List Gone) → DeskGone self.old.desk ts gs → DeskGone self.new.desk ts gs }
        ensures counts { self.new.desk.counts ≡ self.old.desk.counts }
        ensures owners { (xs : List Airing) → AllStand self.old.desk.services.items xs → (learns ≡ false → HasOwnersOnAir self.old.desk.owners xs)
            → HasOwnersOnAir self.new.desk.owners (if learns then parted xs else xs) }
        ensures judged { DeskJudged self.old.desk → DeskJudged self.new.desk }
    {
        if learns {
            part_each(self.desk.services.as_mut_slice(), last, watch);
            self.desk.forget();
            return;
        }
        self.desk.look_up(takers, last.packet);
    }

    /// Counts the packet that came last.
    #[inline(always)]
    fn count<A: ServicesWatch>(&mut self, is_unjudged: bool, watch: &mut A)
        ensures packets { self.new.packets ≡ capped (self.old.packets + 1) }
        ensures unjudged { self.new.unjudged ≡ (if is_unjudged then capped (self.old.unjudged + 1) else self.old.unjudged) }
        ensures others { (self.new.talk ≡ self.old.talk) × (self.new.desk ≡ self.old.desk) }
    {
        if is_unjudged {
            watch.unjudged(self.packets);
            self.unjudged = self.unjudged.saturating_add(1);
        }
        self.packets = self.packets.saturating_add(1);
    }

    /// Shows and counts the packet that has passed, and takes up what was learned with it.
    #[inline(always)]
    fn passed<A: ServicesWatch>(
        &mut self,
        passed: Passed,
        takers: u8,
        last: Numbered<'_>,
        libraries: &[AdLibrary],
        watch: &mut A,
    )
        ensures stands { (cs : List Config) (past : List (List ℕ)) → HavePassed self.old cs last.entry.packet.now past passed
            → AirServicesStandFor self.new cs (last.entry.packet.now ∷ past) }
        ensures gone { (ts : List ServiceTerms) (past : List (List ℕ)) (takes : List Take) (rs : List Reply) → ServicesGone self.old ts past takes rs
            → ServicesGone self.new ts past takes rs }
        ensures talk { self.new.talk ≡ self.old.talk }
    {
        let desk = &self.desk;
        show_each(
            desk.services.as_slice(),
            desk.turns,
            libraries,
            last.packet,
            watch,
        );
        self.count(passed.is_unjudged, watch);
        self.part(passed.learns, takers, last, watch);
    }

    /// Passes the packet on that is settled, before which the automation was heard.
    ///
    /// # Errors
    ///
    /// The sink's.
    #[inline(never)]
    fn pass_heard<K: PacketSink, A: ServicesWatch>(
        &mut self,
        takers: u8,
        next: Numbered<'_>,
        libraries: &[AdLibrary],
        out: &mut K,
        watch: &mut A,
    ) -> Result<(), PutFault>
        ensures leads { K.leads out.old out.new }
        ensures stands { (cs : List Config) (past : List (List ℕ)) → AreSettled self.old cs next.entry.packet.now past
            → length libraries.now ≡ length cs → StillTold self.old.desk takers next.entry.packet.now
            → OnOk result (AirServicesStandFor self.new cs (next.entry.packet.now ∷ past)) }
        ensures out { (ts : List ServiceTerms) (past before : List (List ℕ)) (takes : List Take) (rs : List Reply) (start : Option (List ℕ))
            → AreSettled self.old (configs_of ts) next.entry.packet.now past → FiledAs libraries.now ts
            → ServicesHeard self.old ts next.entry.packet.now past takes rs
            → StillTold self.old.desk takers next.entry.packet.now
            → K.holds out.old start (before ++ air_ahead ts next.entry.packet.now past (steps_before (length rs) takes past))
            → OnOk result (ServicesGone self.new ts (next.entry.packet.now ∷ past) takes rs
            × K.holds out.new start (before ++ air_behind ts (next.entry.packet.now ∷ past) takes rs)) }
        ensures talk { self.new.talk ≡ self.old.talk }
    {
        match self.pass_settled(takers, next.packet, libraries, out) {
            Ok(passed) => {
                self.passed(passed, takers, next, libraries, watch);
                Ok(())
            }
            Err(fault) => Err(fault),
        }
    }

    /// Does what [`AirServices::pass`] does, for any packet; these take it. It stands by itself, so that a packet that is settled for each service
    /// as it stands does not pay for its room.
    ///
    /// # Errors
    ///
    /// The sink's.
    #[cold]
    #[inline(never)]
    fn pass_taken<U: Automation, K: PacketSink, A: ServicesWatch>(
        &mut self,
        takers: u8,
        next: Numbered<'_>,
        automation: &mut U,
        libraries: &[AdLibrary],
        out: &mut K,
        watch: &mut A,
    ) -> Result<(), PutFault>
        requires pid { pid_of next.packet.now < 8192 }
        requires takers { takers ≡ slice_index_or self.old.desk.owners (pid_of next.packet.now) 0 }
        ensures leads { K.leads out.old out.new }
        ensures stands { (cs : List Config) (past : List (List ℕ)) → AirServicesStandFor self.old cs past → length libraries.now ≡ length cs
            → OnOk result (AirServicesStandFor self.new cs (next.entry.packet.now ∷ past)) }
        ensures out { (ts : List ServiceTerms) (past before : List (List ℕ)) (start : Option (List ℕ)) (first : U)
            → share_an_index (configs_of ts) ≡ false → AirServicesStandFor self.old (configs_of ts) past → FiledAs libraries.now ts
            → RunsSoFar self.old ts past (λ l. K.holds out.old start (before ++ l)) (Exchanged U.exchanges U.failures first automation.old)
            → OnOk result (RunsSoFar self.new ts (next.entry.packet.now ∷ past) (λ l. K.holds out.new start (before ++ l))
            (Exchanged U.exchanges U.failures first automation.new)) }
    {
        match self.settle(takers, next, libraries, out, watch) {
            Ok(()) => {}
            Err(fault) => return Err(fault),
        }
        self.hear(automation);
        match self.pass_heard(takers, next, libraries, out, watch) {
            Ok(()) => Ok(()),
            Err(fault) => Err(fault),
        }
    }

    /// Does what [`AirServices::pass`] does, the same way for each packet.
    ///
    /// # Errors
    ///
    /// The sink's.
    #[inline(always)]
    fn pass_next<U: Automation, K: PacketSink, A: ServicesWatch>(
        &mut self,
        packet: &Packet,
        automation: &mut U,
        libraries: &[AdLibrary],
        out: &mut K,
        watch: &mut A,
    ) -> Result<(), PutFault>
        ensures leads { K.leads out.old out.new }
        ensures stands { (cs : List Config) (past : List (List ℕ)) → AirServicesStandFor self.old cs past → length libraries.now ≡ length cs
            → OnOk result (AirServicesStandFor self.new cs (packet.now ∷ past)) }
        ensures out { (ts : List ServiceTerms) (past before : List (List ℕ)) (start : Option (List ℕ)) (first : U)
            → share_an_index (configs_of ts) ≡ false → AirServicesStandFor self.old (configs_of ts) past → FiledAs libraries.now ts
            → RunsSoFar self.old ts past (λ l. K.holds out.old start (before ++ l)) (Exchanged U.exchanges U.failures first automation.old)
            → OnOk result (RunsSoFar self.new ts (packet.now ∷ past) (λ l. K.holds out.new start (before ++ l))
            (Exchanged U.exchanges U.failures first automation.new)) }
    {
        let next = Numbered {
            packet,
            number: self.packets,
        };
        let takers = self.desk.owners.takers(packet);
        if self.desk.asks_all {
            return self.pass_taken(takers, next, automation, libraries, out, watch);
        }
        let Some(still) = self.settle_still(takers, packet) else {
            return self.pass_taken(takers, next, automation, libraries, out, watch);
        };
        self.hear(automation);
        if !self.desk.asks_all {
            return match self.put_still(still, takers, packet, libraries, out) {
                Ok(_passed) => {
                    self.passed_still(packet, libraries, watch);
                    Ok(())
                }
                Err(fault) => Err(fault),
            };
        }
        self.pass_heard(takers, next, libraries, out, watch)
    }

    /// Does what [`AirServices::pass`] does, for a packet with the start bit. It stands by itself, so that the others are known to begin no unit.
    ///
    /// # Errors
    ///
    /// The sink's.
    #[inline(never)]
    fn pass_start<U: Automation, K: PacketSink, A: ServicesWatch>(
        &mut self,
        packet: &Packet,
        automation: &mut U,
        libraries: &[AdLibrary],
        out: &mut K,
        watch: &mut A,
    ) -> Result<(), PutFault>
        ensures leads { K.leads out.old out.new }
        ensures stands { (cs : List Config) (past : List (List ℕ)) → AirServicesStandFor self.old cs past → length libraries.now ≡ length cs
            → OnOk result (AirServicesStandFor self.new cs (packet.now ∷ past)) }
        ensures out { (ts : List ServiceTerms) (past before : List (List ℕ)) (start : Option (List ℕ)) (first : U)
            → share_an_index (configs_of ts) ≡ false → AirServicesStandFor self.old (configs_of ts) past → FiledAs libraries.now ts
            → RunsSoFar self.old ts past (λ l. K.holds out.old start (before ++ l)) (Exchanged U.exchanges U.failures first automation.old)
            → OnOk result (RunsSoFar self.new ts (packet.now ∷ past) (λ l. K.holds out.new start (before ++ l))
            (Exchanged U.exchanges U.failures first automation.new)) }
    {
        self.pass_next(packet, automation, libraries, out, watch)
    }

    /// Hears the automation, and passes the next packet on, whatever is wrong with it.
    ///
    /// # Errors
    ///
    /// The sink's.
    #[inline(always)]
    pub(crate) fn pass<U: Automation, K: PacketSink, A: ServicesWatch>(
        &mut self,
        packet: &Packet,
        automation: &mut U,
        libraries: &[AdLibrary],
        out: &mut K,
        watch: &mut A,
    ) -> Result<(), PutFault>
        ensures leads { K.leads out.old out.new }
        ensures stands { (cs : List Config) (past : List (List ℕ)) → AirServicesStandFor self.old cs past → length libraries.now ≡ length cs
            → OnOk result (AirServicesStandFor self.new cs (packet.now ∷ past)) }
        ensures out { (ts : List ServiceTerms) (past before : List (List ℕ)) (start : Option (List ℕ)) (first : U)
            → share_an_index (configs_of ts) ≡ false → AirServicesStandFor self.old (configs_of ts) past → FiledAs libraries.now ts
            → RunsSoFar self.old ts past (λ l. K.holds out.old start (before ++ l)) (Exchanged U.exchanges U.failures first automation.old)
            → OnOk result (RunsSoFar self.new ts (packet.now ∷ past) (λ l. K.holds out.new start (before ++ l))
            (Exchanged U.exchanges U.failures first automation.new)) }
    {
        if packet.unit_start() {
            return self.pass_start(packet, automation, libraries, out, watch);
        }
        self.pass_next(packet, automation, libraries, out, watch)
    }

    /// Puts what is left of all advertisements, service by service, and tells what was counted.
    ///
    /// # Errors
    ///
    /// The sink's; `Failed` where there are more than eight services.
    pub(crate) fn finish<K: PacketSink, A: ServicesWatch>(
        &mut self,
        libraries: &[AdLibrary],
        out: &mut K,
        watch: &mut A,
    ) -> Result<AirReport<ServiceReport>, PutFault>
        ensures leads { K.leads out.old out.new }
        ensures stands { (cs : List Config) (past : List (List ℕ)) → AirServicesStandFor self.old cs past
            → IfOk result (λ told. TellsOfAll told cs past) }
        ensures out { (ts : List ServiceTerms) (past before : List (List ℕ)) (takes : List Take) (rs : List Reply) (start : Option (List ℕ))
            → FiledAs libraries.now ts → ServicesGone self.old ts past takes rs → K.holds out.old start (before ++ air_behind ts past takes rs)
            → IfOk result (λ told. ServicesEnded told ts past takes rs × K.holds out.new start (before ++ air_to_end ts past takes rs)) }
    {
        let begun = begun_of(self.desk.services.as_slice());
        let lost = lost_of(self.desk.services.as_slice());
        let mut events = ArrayVec::new();
        let counts = self.desk.counts;
        let services = self.desk.services.as_mut_slice();
        match finish_each(services, libraries, &mut events, out, watch) {
            Ok(()) => Ok(AirReport {
                report: ServiceReport {
                    messages: counts.messages,
                    accepted: counts.accepted,
                    refused: counts.refused,
                    services: events,
                },
                stretches: begun.saturating_add(self.packets.min(1)),
                lost,
                unjudged: self.unjudged,
            }),
            Err(fault) => Err(fault),
        }
    }
}
