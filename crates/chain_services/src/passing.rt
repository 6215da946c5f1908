//! One packet through all services.

ghost use Rattle.std.specs.Prelude.{◌≡◌, ◌<◌, ◌≤◌, ◌||◌, ◌&&◌, ◌==◌, not, ◌++◌, ◌∷◌, ℕ, List, length, Option, OnOk, IfOk, IfErr, IfSome, true, false};
ghost use Rattle.ts_packet.specs.Transfers.{WentWell};
ghost use Rattle.injector.specs.Steps.{Step, Packet as PacketStep, packets_in};
ghost use Rattle.ad_library.specs.Library.{held};
ghost use Rattle.chain_engine.specs.Runs.{OutputBlamed};
ghost use Rattle.chain_engine.specs.Passing.{GoesOnBy};
ghost use Rattle.service_laws.specs.Services.{ServiceTerms, configs_of, given_at};
ghost use Rattle.service_laws.specs.Faults.{share_a_pid};
ghost use Rattle.chain_services.specs.Owners.{IsSkipped, AreSkipped};
ghost use Rattle.chain_services.specs.Serving.{ServesAs, AllServe, DeskStandsFor, FiledAs, services_in};
ghost use Rattle.chain_services.specs.Parts.{PassedOn, FailedOn, PassedOne, FailedOne, PassedEach, FailedEach, AllKnowSame, parts_of};
ghost use Rattle.chain_services.specs.Parts.{FirstGoesOn, GoesOnBehind};

use crate::desk::Desk;
use crate::nowhere::Nowhere;
use crate::owners::{Alone, leaves_out, leaves_out_all, shift_of, takes_all};
use ad_library::AdLibrary;
use chain_engine::{RunFault, Service, of_bytes};
use program_follower::StreamPart;
use psi_tables::FeedFault;
use std::alloc::Allocator;
use ts_packet::{Packet, PacketSink};

/// What a packet is that passed.
#[derive(Clone, Copy, Debug, PartialEq, Eq)]
pub(crate) struct Passed {
    /// It is on a PID of a service.
    pub(crate) is_own: bool,
    /// With it more PIDs may be known of a service.
    pub(crate) learns: bool,
    /// With it something has turned in the switch of a service.
    pub(crate) has_turned: bool,
}

/// What a packet is that passed through one service and then through others.
#[inline(always)]
fn joined(one: Passed, others: Passed) -> Passed
    ensures own { result.is_own ≡ (one.is_own || others.is_own) }
    ensures learns { result.learns ≡ (one.learns || others.learns) }
{
    Passed {
        is_own: one.is_own || others.is_own,
        learns: one.learns || others.learns,
        has_turned: one.has_turned || others.has_turned,
    }
}

/// Passes a packet on through a service. Whether more PIDs may be known of it then.
///
/// # Errors
///
/// As for [`Service::pass_on`].
#[inline(always)]
fn pass_and_learn<K: PacketSink>(
    service: &mut Service,
    library: &AdLibrary,
    packet: &Packet,
    out: &mut K,
) -> Result<bool, FeedFault>
    ensures leads { K.leads out.old out.new }
    ensures ok { (t : ServiceTerms) (steps : List Step) (start : Option (List ℕ)) (ps : List (List ℕ))
        → held library.now ≡ t.filed → ServesAs service.old t steps → K.holds out.old start ps
        → IfOk result (λ learns. PassedOn learns service.new t packet.now steps (λ l. K.holds out.new start (ps ++ l))) }
    ensures err { (t : ServiceTerms) (steps : List Step) (start : Option (List ℕ)) (ps : List (List ℕ))
        → held library.now ≡ t.filed → ServesAs service.old t steps → K.holds out.old start ps
        → IfErr result (λ f. FailedOn f t packet.now steps (λ l. K.holds out.new start (ps ++ l))
        (λ put q x. K.fails out.new start (ps ++ put) q x)) }
    ensures well { OnOk result (WentWell (K.counts out.old) (K.counts out.new)) }
    ensures blamed { IfErr result (λ f. OutputBlamed (RunFault.Feed f)
        (K.counts out.old) (K.counts out.new) (K.is_full out.new)) }
{
    let known = service.pid_count();
    match service.pass_on(packet, library, out) {
        Ok(()) => Ok(service.pid_count() != known),
        Err(fault) => Err(fault),
    }
}

/// Whether something has turned in a switch that counted so many turns before a packet and so many behind it. Nothing turns where no unit begins,
/// so that the counts of most packets need not be looked at.
#[inline(always)]
pub fn has_turned(is_start: bool, before: u64, behind: u64) -> bool
    ensures { result ≡ (is_start && not (before == behind)) }
{
    is_start && before != behind
}

/// Passes a packet on through a service, which is this to its stream and goes on alone: it is of its own, and no PID more is known with it.
/// Whether something has turned in its switch.
///
/// # Errors
///
/// As for [`Service::go_on`].
#[inline(always)]
fn pass_alone<K: PacketSink>(
    of: StreamPart,
    service: &mut Service,
    library: &AdLibrary,
    packet: &Packet,
    out: &mut K,
) -> Result<bool, FeedFault>
    requires { of.stream < 8 }
    ensures leads { K.leads out.old out.new }
    ensures ok { (t : ServiceTerms) (steps : List Step) (start : Option (List ℕ)) (ps : List (List ℕ))
        → held library.now ≡ t.filed → ServesAs service.old t steps → GoesOnBy service.old of packet.now
        → K.holds out.old start ps → OnOk result (PassedOne true false service.new t packet.now steps (λ l. K.holds out.new start (ps ++ l))) }
    ensures err { (t : ServiceTerms) (steps : List Step) (start : Option (List ℕ)) (ps : List (List ℕ))
        → held library.now ≡ t.filed → ServesAs service.old t steps → GoesOnBy service.old of packet.now
        → K.holds out.old start ps → IfErr result (λ f. FailedOne f t packet.now steps (λ l. K.holds out.new start (ps ++ l))
        (λ put q x. K.fails out.new start (ps ++ put) q x)) }
    ensures well { OnOk result (WentWell (K.counts out.old) (K.counts out.new)) }
    ensures blamed { IfErr result (λ f. OutputBlamed (RunFault.Feed f)
        (K.counts out.old) (K.counts out.new) (K.is_full out.new)) }
{
    let given = &of;
    let turns = service.switch().turns();
    match service.go_on(*given, packet, library, out) {
        Ok(()) => Ok(has_turned(given.part.is_start(), turns, service.switch().turns())),
        Err(fault) => Err(fault),
    }
}

/// Passes a packet on through a service, whatever it is there: what it sends goes out where the packet is on one of its PIDs, and is the packet else.
/// It stands by itself, since few packets go this way.
///
/// # Errors
///
/// As for [`Service::pass_on`].
#[inline(never)]
fn pass_closely<K: PacketSink>(
    service: &mut Service,
    library: &AdLibrary,
    packet: &Packet,
    out: &mut K,
) -> Result<Passed, FeedFault>
    ensures leads { K.leads out.old out.new }
    ensures ok { (t : ServiceTerms) (steps : List Step) (start : Option (List ℕ)) (ps : List (List ℕ))
        → held library.now ≡ t.filed → ServesAs service.old t steps → K.holds out.old start ps
        → IfOk result (λ passed. PassedOne passed.is_own passed.learns service.new t packet.now steps
        (λ l. K.holds out.new start (ps ++ l))) }
    ensures err { (t : ServiceTerms) (steps : List Step) (start : Option (List ℕ)) (ps : List (List ℕ))
        → held library.now ≡ t.filed → ServesAs service.old t steps → K.holds out.old start ps
        → IfErr result (λ f. FailedOne f t packet.now steps (λ l. K.holds out.new start (ps ++ l))
        (λ put q x. K.fails out.new start (ps ++ put) q x)) }
    ensures well { OnOk result (WentWell (K.counts out.old) (K.counts out.new)) }
    ensures blamed { IfErr result (λ f. OutputBlamed (RunFault.Feed f)
        (K.counts out.old) (K.counts out.new) (K.is_full out.new)) }
{
    let turns = service.switch().turns();
    if service.owns(packet) {
        return match pass_and_learn(service, library, packet, out) {
            Ok(learns) => Ok(Passed {
                is_own: true,
                learns,
                has_turned: service.switch().turns() != turns,
            }),
            Err(fault) => Err(fault),
        };
    }
    if service.overlooks(packet) {
        return Ok(Passed {
            is_own: false,
            learns: false,
            has_turned: false,
        });
    }
    let mut nowhere = Nowhere;
    match pass_and_learn(service, library, packet, &mut nowhere) {
        Ok(learns) => Ok(Passed {
            is_own: false,
            learns,
            has_turned: service.switch().turns() != turns,
        }),
        Err(fault) => Err(fault),
    }
}

/// Passes a packet on through a service: what it sends goes out where the packet is on one of its PIDs, and is the packet else. One that is
/// kept from the service is not passed on, nor one that changes nothing of it: a packet on one of its PIDs may change it, so that one look-up
/// is enough for that.
///
/// # Errors
///
/// As for [`Service::pass_on`].
#[inline(always)]
fn pass_one<K: PacketSink>(
    is_left_out: bool,
    service: &mut Service,
    library: &AdLibrary,
    packet: &Packet,
    out: &mut K,
) -> Result<Passed, FeedFault>
    ensures leads { K.leads out.old out.new }
    ensures ok { (t : ServiceTerms) (steps : List Step) (start : Option (List ℕ)) (ps : List (List ℕ))
        → held library.now ≡ t.filed → ServesAs service.old t steps
        → (is_left_out ≡ true → IsSkipped t packet.now steps) → K.holds out.old start ps
        → IfOk result (λ passed. PassedOne passed.is_own passed.learns service.new t packet.now steps
        (λ l. K.holds out.new start (ps ++ l))) }
    ensures err { (t : ServiceTerms) (steps : List Step) (start : Option (List ℕ)) (ps : List (List ℕ))
        → held library.now ≡ t.filed → ServesAs service.old t steps → K.holds out.old start ps
        → IfErr result (λ f. FailedOne f t packet.now steps (λ l. K.holds out.new start (ps ++ l))
        (λ put q x. K.fails out.new start (ps ++ put) q x)) }
    ensures well { OnOk result (WentWell (K.counts out.old) (K.counts out.new)) }
    ensures blamed { IfErr result (λ f. OutputBlamed (RunFault.Feed f)
        (K.counts out.old) (K.counts out.new) (K.is_full out.new)) }
{
    if is_left_out {
        of_bytes(packet);
        return Ok(Passed {
            is_own: false,
            learns: false,
            has_turned: false,
        });
    }
    pass_closely(service, library, packet, out)
}

/// Passes a packet on through those of these services that take it, each with its library: all, or those whose bits are set.
///
/// # Errors
///
/// The first fault of one of them, in their order: a front of what they send is out then.
fn pass_each<K: PacketSink>(
    all: bool,
    takers: u8,
    services: &mut [Service],
    libraries: &[AdLibrary],
    packet: &Packet,
    out: &mut K,
) -> Result<Passed, FeedFault>
    ensures leads { K.leads out.old out.new }
    ensures ok { (ts : List ServiceTerms) (steps : List Step) (start : Option (List ℕ)) (ps : List (List ℕ))
        → FiledAs libraries.now ts → AllServe services.old ts steps
        → (all ≡ false → AreSkipped takers ts packet.now steps) → K.holds out.old start ps
        → IfOk result (λ passed. PassedEach passed.is_own passed.learns services.new ts packet.now steps
        (λ l. K.holds out.new start (ps ++ l))) }
    ensures err { (ts : List ServiceTerms) (steps : List Step) (start : Option (List ℕ)) (ps : List (List ℕ))
        → FiledAs libraries.now ts → AllServe services.old ts steps
        → (all ≡ false → AreSkipped takers ts packet.now steps) → K.holds out.old start ps
        → IfErr result (λ f. FailedEach f ts packet.now steps (parts_of ts packet.now steps)
        (λ l. K.holds out.new start (ps ++ l)) (λ put q x. K.fails out.new start (ps ++ put) q x)) }
    ensures well { OnOk result (WentWell (K.counts out.old) (K.counts out.new)) }
    ensures blamed { IfErr result (λ f. OutputBlamed (RunFault.Feed f)
        (K.counts out.old) (K.counts out.new) (K.is_full out.new)) }
{
    let none = Passed {
        is_own: false,
        learns: false,
        has_turned: false,
    };
    if leaves_out_all(all, takers) {
        of_bytes(packet);
        return Ok(none);
    }
    let Some((service, others)) = services.split_first_mut() else {
        return Ok(none);
    };
    let Some((library, libraries)) = libraries.split_first() else {
        return Ok(none);
    };
    let one = match pass_one(leaves_out(all, takers), service, library, packet, out) {
        Ok(one) => one,
        Err(fault) => return Err(fault),
    };
    match pass_each(all, takers / 2, others, libraries, packet, out) {
        Ok(others) => Ok(joined(one, others)),
        Err(fault) => Err(fault),
    }
}

/// Passes a packet on through the first of these services, which alone takes it. It looks at no other one, and so calls itself not.
///
/// # Errors
///
/// As for [`pass_each`].
#[inline(always)]
fn pass_first<K: PacketSink>(
    services: &mut [Service],
    libraries: &[AdLibrary],
    packet: &Packet,
    out: &mut K,
) -> Result<Passed, FeedFault>
    ensures leads { K.leads out.old out.new }
    ensures ok { (ts : List ServiceTerms) (steps : List Step) (start : Option (List ℕ)) (ps : List (List ℕ))
        → FiledAs libraries.now ts → AllServe services.old ts steps → AreSkipped 1 ts packet.now steps → K.holds out.old start ps
        → IfOk result (λ passed. PassedEach passed.is_own passed.learns services.new ts packet.now steps
        (λ l. K.holds out.new start (ps ++ l))) }
    ensures err { (ts : List ServiceTerms) (steps : List Step) (start : Option (List ℕ)) (ps : List (List ℕ))
        → FiledAs libraries.now ts → AllServe services.old ts steps → AreSkipped 1 ts packet.now steps → K.holds out.old start ps
        → IfErr result (λ f. FailedEach f ts packet.now steps (parts_of ts packet.now steps)
        (λ l. K.holds out.new start (ps ++ l)) (λ put q x. K.fails out.new start (ps ++ put) q x)) }
    ensures well { OnOk result (WentWell (K.counts out.old) (K.counts out.new)) }
    ensures blamed { IfErr result (λ f. OutputBlamed (RunFault.Feed f)
        (K.counts out.old) (K.counts out.new) (K.is_full out.new)) }
{
    of_bytes(packet);
    let Some((service, _others)) = services.split_first_mut() else {
        return Ok(Passed {
            is_own: false,
            learns: false,
            has_turned: false,
        });
    };
    let Some((library, _behind)) = libraries.split_first() else {
        return Ok(Passed {
            is_own: false,
            learns: false,
            has_turned: false,
        });
    };
    pass_one(false, service, library, packet, out)
}

/// Passes a packet on through the first of these services, which alone takes it, and for which it goes on alone, as this to its stream.
/// Whether something has turned in the switch of that one.
///
/// # Errors
///
/// As for [`pass_each`].
#[inline(always)]
fn go_on_first<K: PacketSink>(
    of: StreamPart,
    services: &mut [Service],
    libraries: &[AdLibrary],
    packet: &Packet,
    out: &mut K,
) -> Result<bool, FeedFault>
    requires { of.stream < 8 }
    ensures leads { K.leads out.old out.new }
    ensures ok { (ts : List ServiceTerms) (steps : List Step) (start : Option (List ℕ)) (ps : List (List ℕ))
        → FiledAs libraries.now ts → AllServe services.old ts steps → AreSkipped 1 ts packet.now steps
        → FirstGoesOn services.old of packet.now → K.holds out.old start ps
        → OnOk result (PassedEach true false services.new ts packet.now steps (λ l. K.holds out.new start (ps ++ l))) }
    ensures err { (ts : List ServiceTerms) (steps : List Step) (start : Option (List ℕ)) (ps : List (List ℕ))
        → FiledAs libraries.now ts → AllServe services.old ts steps → FirstGoesOn services.old of packet.now → K.holds out.old start ps
        → IfErr result (λ f. FailedEach f ts packet.now steps (parts_of ts packet.now steps)
        (λ l. K.holds out.new start (ps ++ l)) (λ put q x. K.fails out.new start (ps ++ put) q x)) }
    ensures well { OnOk result (WentWell (K.counts out.old) (K.counts out.new)) }
    ensures blamed { IfErr result (λ f. OutputBlamed (RunFault.Feed f)
        (K.counts out.old) (K.counts out.new) (K.is_full out.new)) }
{
    of_bytes(packet);
    let Some((service, _others)) = services.split_first_mut() else {
        return Err(FeedFault::Failed);
    };
    let Some((library, _behind)) = libraries.split_first() else {
        return Err(FeedFault::Failed);
    };
    match pass_alone(of, service, library, packet, out) {
        Ok(has_turned) => Ok(has_turned),
        Err(fault) => Err(fault),
    }
}

/// Does what [`pass_each`] does, and begins with the first of these services that takes the packet. It stands by itself, so that a packet
/// that goes on does not pay for its room.
///
/// # Errors
///
/// As for [`pass_each`].
#[cold]
#[inline(never)]
fn pass_some<K: PacketSink>(
    all: bool,
    takers: u8,
    services: &mut [Service],
    libraries: &[AdLibrary],
    packet: &Packet,
    out: &mut K,
) -> Result<Passed, FeedFault>
    ensures leads { K.leads out.old out.new }
    ensures ok { (ts : List ServiceTerms) (steps : List Step) (start : Option (List ℕ)) (ps : List (List ℕ))
        → FiledAs libraries.now ts → AllServe services.old ts steps
        → (all ≡ false → AreSkipped takers ts packet.now steps) → K.holds out.old start ps
        → IfOk result (λ passed. PassedEach passed.is_own passed.learns services.new ts packet.now steps
        (λ l. K.holds out.new start (ps ++ l))) }
    ensures err { (ts : List ServiceTerms) (steps : List Step) (start : Option (List ℕ)) (ps : List (List ℕ))
        → FiledAs libraries.now ts → AllServe services.old ts steps
        → (all ≡ false → AreSkipped takers ts packet.now steps) → K.holds out.old start ps
        → IfErr result (λ f. FailedEach f ts packet.now steps (parts_of ts packet.now steps)
        (λ l. K.holds out.new start (ps ++ l)) (λ put q x. K.fails out.new start (ps ++ put) q x)) }
    ensures well { OnOk result (WentWell (K.counts out.old) (K.counts out.new)) }
    ensures blamed { IfErr result (λ f. OutputBlamed (RunFault.Feed f)
        (K.counts out.old) (K.counts out.new) (K.is_full out.new)) }
{
    of_bytes(packet);
    if leaves_out_all(all, takers) {
        return Ok(Passed {
            is_own: false,
            learns: false,
            has_turned: false,
        });
    }
    if all {
        return pass_each(all, takers, services, libraries, packet, out);
    }
    let shift = shift_of(takers, services.len().min(libraries.len()));
    let (_, services) = services.split_at_mut(shift.count);
    let (_, libraries) = libraries.split_at(shift.count);
    if shift.takers == 1 {
        return pass_first(services, libraries, packet, out);
    }
    pass_each(false, shift.takers, services, libraries, packet, out)
}

impl<M: Allocator> Desk<M> {
    /// Which service alone takes the packet, where these take it and it goes on alone for that one. `None` where it is no such packet. It is not
    /// taken.
    #[inline(always)]
    fn goes_on(&self, takers: u8, libraries: &[AdLibrary], packet: &Packet) -> Option<Alone>
        ensures below { IfSome result (λ alone. alone.of.stream < 8) }
        ensures services { IfSome result (λ alone. alone.count ≤ self.now.services.len) }
        ensures libraries { IfSome result (λ alone. alone.count ≤ length libraries.now) }
        ensures goes_on { IfSome result (λ alone. GoesOnBehind takers alone (services_in self.now) packet.now) }
    {
        let services = self.services.as_slice();
        let shift = shift_of(takers, services.len().min(libraries.len()));
        if shift.takers != 1 {
            return None;
        }
        let (_, services) = services.split_at(shift.count);
        let Some((service, _)) = services.split_first() else {
            return None;
        };
        match service.goes_on(packet) {
            Some(of) => Some(Alone {
                count: shift.count,
                of,
            }),
            None => None,
        }
    }

    /// Passes a packet on through the service that alone takes it, and for which it goes on alone. Whether something has turned in its switch.
    ///
    /// # Errors
    ///
    /// As for [`pass_each`].
    #[inline(always)]
    fn go_on<K: PacketSink>(
        &mut self,
        alone: Alone,
        packet: &Packet,
        libraries: &[AdLibrary],
        out: &mut K,
    ) -> Result<bool, FeedFault>
        requires below { alone.of.stream < 8 }
        requires services { alone.count ≤ self.old.services.len }
        requires libraries { alone.count ≤ length libraries.now }
        ensures leads { K.leads out.old out.new }
        ensures ok { (ts : List ServiceTerms) (steps : List Step) (takers : ℕ) (start : Option (List ℕ)) (ps : List (List ℕ))
            → FiledAs libraries.now ts → AllServe (services_in self.old) ts steps → AreSkipped takers ts packet.now steps
            → GoesOnBehind takers alone (services_in self.old) packet.now → K.holds out.old start ps
            → OnOk result (PassedEach true false (services_in self.new) ts packet.now steps (λ l. K.holds out.new start (ps ++ l))) }
        ensures err { (ts : List ServiceTerms) (steps : List Step) (takers : ℕ) (start : Option (List ℕ)) (ps : List (List ℕ))
            → FiledAs libraries.now ts → AllServe (services_in self.old) ts steps → AreSkipped takers ts packet.now steps
            → GoesOnBehind takers alone (services_in self.old) packet.now → K.holds out.old start ps
            → IfErr result (λ f. FailedEach f ts packet.now steps (parts_of ts packet.now steps)
            (λ l. K.holds out.new start (ps ++ l)) (λ put q x. K.fails out.new start (ps ++ put) q x)) }
        ensures well { OnOk result (WentWell (K.counts out.old) (K.counts out.new)) }
        ensures blamed { IfErr result (λ f. OutputBlamed (RunFault.Feed f)
            (K.counts out.old) (K.counts out.new) (K.is_full out.new)) }
        ensures none { self.new.none ≡ self.old.none }
        ensures counts { self.new.counts ≡ self.old.counts }
        ensures owners { self.new.owners ≡ self.old.owners }
    {
        of_bytes(packet);
        let (_, libraries) = libraries.split_at(alone.count);
        let (_, services) = self.services.as_mut_slice().split_at_mut(alone.count);
        match go_on_first(alone.of, services, libraries, packet, out) {
            Ok(has_turned) => Ok(has_turned),
            Err(fault) => Err(fault),
        }
    }

    /// Passes a packet on through the services that take it: all, or those whose bits are set.
    ///
    /// # Errors
    ///
    /// As for [`pass_each`].
    #[inline(always)]
    fn pass_through<K: PacketSink>(
        &mut self,
        all: bool,
        takers: u8,
        packet: &Packet,
        libraries: &[AdLibrary],
        out: &mut K,
    ) -> Result<Passed, FeedFault>
        ensures leads { K.leads out.old out.new }
        ensures ok { (ts : List ServiceTerms) (steps : List Step) (start : Option (List ℕ)) (ps : List (List ℕ))
            → FiledAs libraries.now ts → AllServe (services_in self.old) ts steps
            → (all ≡ false → AreSkipped takers ts packet.now steps) → K.holds out.old start ps
            → IfOk result (λ passed. PassedEach passed.is_own passed.learns (services_in self.new) ts packet.now steps
            (λ l. K.holds out.new start (ps ++ l))) }
        ensures err { (ts : List ServiceTerms) (steps : List Step) (start : Option (List ℕ)) (ps : List (List ℕ))
            → FiledAs libraries.now ts → AllServe (services_in self.old) ts steps
            → (all ≡ false → AreSkipped takers ts packet.now steps) → K.holds out.old start ps
            → IfErr result (λ f. FailedEach f ts packet.now steps (parts_of ts packet.now steps)
            (λ l. K.holds out.new start (ps ++ l)) (λ put q x. K.fails out.new start (ps ++ put) q x)) }
        ensures well { OnOk result (WentWell (K.counts out.old) (K.counts out.new)) }
        ensures blamed { IfErr result (λ f. OutputBlamed (RunFault.Feed f)
            (K.counts out.old) (K.counts out.new) (K.is_full out.new)) }
        ensures none { self.new.none ≡ self.old.none }
        ensures counts { self.new.counts ≡ self.old.counts }
        ensures owners { self.new.owners ≡ self.old.owners }
    {
        of_bytes(packet);
        if leaves_out_all(all, takers) {
            return Ok(Passed {
                is_own: false,
                learns: false,
                has_turned: false,
            });
        }
        if !all {
            if let Some(alone) = self.goes_on(takers, libraries, packet) {
                return match self.go_on(alone, packet, libraries, out) {
                    Ok(has_turned) => Ok(Passed {
                        is_own: true,
                        learns: false,
                        has_turned,
                    }),
                    Err(fault) => Err(fault),
                };
            }
        }
        let services = self.services.as_mut_slice();
        match pass_some(all, takers, services, libraries, packet, out) {
            Ok(passed) => Ok(passed),
            Err(fault) => Err(fault),
        }
    }

    /// Passes a packet on as [`Desk::pass`] does, through the services that take it: all, or those whose bits are set.
    ///
    /// # Errors
    ///
    /// As for [`Desk::pass`].
    #[inline(always)]
    fn pass_next<K: PacketSink>(
        &mut self,
        all: bool,
        takers: u8,
        packet: &Packet,
        libraries: &[AdLibrary],
        out: &mut K,
    ) -> Result<bool, FeedFault>
        ensures leads { K.leads out.old out.new }
        ensures ok { (ts : List ServiceTerms) (steps : List Step) (start : Option (List ℕ)) (ps : List (List ℕ))
            → FiledAs libraries.now ts → share_a_pid (configs_of ts) (packets_in steps) ≡ false
            → AllServe (services_in self.old) ts steps → (all ≡ false → AreSkipped takers ts packet.now steps) → K.holds out.old start ps
            → IfOk result (λ learns. AllServe (services_in self.new) ts (PacketStep packet.now ∷ steps)
            × K.holds out.new start (ps ++ given_at ts packet.now steps)
            × (learns ≡ false → AllKnowSame ts packet.now (packets_in steps))) }
        ensures err { (ts : List ServiceTerms) (steps : List Step) (start : Option (List ℕ)) (ps : List (List ℕ))
            → FiledAs libraries.now ts → share_a_pid (configs_of ts) (packets_in steps) ≡ false
            → AllServe (services_in self.old) ts steps → (all ≡ false → AreSkipped takers ts packet.now steps) → K.holds out.old start ps
            → IfErr result (λ f. FailedEach f ts packet.now steps (given_at ts packet.now steps)
            (λ l. K.holds out.new start (ps ++ l)) (λ put q x. K.fails out.new start (ps ++ put) q x)) }
        ensures well { OnOk result (WentWell (K.counts out.old) (K.counts out.new)) }
        ensures blamed { IfErr result (λ f. OutputBlamed (RunFault.Feed f)
            (K.counts out.old) (K.counts out.new) (K.is_full out.new)) }
        ensures none { self.new.none ≡ self.old.none }
        ensures counts { self.new.counts ≡ self.old.counts }
        ensures owners { self.new.owners ≡ self.old.owners }
    {
        let passed = match self.pass_through(all, takers, packet, libraries, out) {
            Ok(passed) => passed,
            Err(fault) => return Err(fault),
        };
        self.turns = self.turns.wrapping_add(u64::from(passed.has_turned));
        if !passed.is_own {
            match out.put(packet) {
                Ok(()) => {}
                Err(fault) => return Err(FeedFault::Sink(fault)),
            }
        }
        Ok(passed.learns)
    }

    /// Does what [`Desk::pass_next`] does, for a packet with the start bit. It stands by itself, so that the others are known to begin no unit.
    ///
    /// # Errors
    ///
    /// As for [`Desk::pass`].
    #[inline(never)]
    fn pass_start<K: PacketSink>(
        &mut self,
        all: bool,
        takers: u8,
        packet: &Packet,
        libraries: &[AdLibrary],
        out: &mut K,
    ) -> Result<bool, FeedFault>
        ensures leads { K.leads out.old out.new }
        ensures ok { (ts : List ServiceTerms) (steps : List Step) (start : Option (List ℕ)) (ps : List (List ℕ))
            → FiledAs libraries.now ts → share_a_pid (configs_of ts) (packets_in steps) ≡ false
            → AllServe (services_in self.old) ts steps → (all ≡ false → AreSkipped takers ts packet.now steps) → K.holds out.old start ps
            → IfOk result (λ learns. AllServe (services_in self.new) ts (PacketStep packet.now ∷ steps)
            × K.holds out.new start (ps ++ given_at ts packet.now steps)
            × (learns ≡ false → AllKnowSame ts packet.now (packets_in steps))) }
        ensures err { (ts : List ServiceTerms) (steps : List Step) (start : Option (List ℕ)) (ps : List (List ℕ))
            → FiledAs libraries.now ts → share_a_pid (configs_of ts) (packets_in steps) ≡ false
            → AllServe (services_in self.old) ts steps → (all ≡ false → AreSkipped takers ts packet.now steps) → K.holds out.old start ps
            → IfErr result (λ f. FailedEach f ts packet.now steps (given_at ts packet.now steps)
            (λ l. K.holds out.new start (ps ++ l)) (λ put q x. K.fails out.new start (ps ++ put) q x)) }
        ensures well { OnOk result (WentWell (K.counts out.old) (K.counts out.new)) }
        ensures blamed { IfErr result (λ f. OutputBlamed (RunFault.Feed f)
            (K.counts out.old) (K.counts out.new) (K.is_full out.new)) }
        ensures none { self.new.none ≡ self.old.none }
        ensures counts { self.new.counts ≡ self.old.counts }
        ensures owners { self.new.owners ≡ self.old.owners }
    {
        self.pass_next(all, takers, packet, libraries, out)
    }

    /// Passes a packet on: what the service sends on whose PIDs it is, or the packet alone. Whether more PIDs may be known of a service.
    ///
    /// # Errors
    ///
    /// `Network` with what is wrong with the packet for the first service for which something is. `Sink` where the sink failed. A front of
    /// what the packet sends is out.
    #[inline(always)]
    pub(crate) fn pass<K: PacketSink>(
        &mut self,
        packet: &Packet,
        libraries: &[AdLibrary],
        out: &mut K,
    ) -> Result<bool, FeedFault>
        ensures leads { K.leads out.old out.new }
        ensures ok { (ts : List ServiceTerms) (steps : List Step) (start : Option (List ℕ)) (ps : List (List ℕ))
            → FiledAs libraries.now ts → share_a_pid (configs_of ts) (packets_in steps) ≡ false
            → DeskStandsFor self.old ts steps → K.holds out.old start ps
            → IfOk result (λ learns. AllServe (services_in self.new) ts (PacketStep packet.now ∷ steps)
            × K.holds out.new start (ps ++ given_at ts packet.now steps)
            × (learns ≡ false → AllKnowSame ts packet.now (packets_in steps))) }
        ensures err { (ts : List ServiceTerms) (steps : List Step) (start : Option (List ℕ)) (ps : List (List ℕ))
            → FiledAs libraries.now ts → share_a_pid (configs_of ts) (packets_in steps) ≡ false
            → DeskStandsFor self.old ts steps → K.holds out.old start ps
            → IfErr result (λ f. FailedEach f ts packet.now steps (given_at ts packet.now steps)
            (λ l. K.holds out.new start (ps ++ l)) (λ put q x. K.fails out.new start (ps ++ put) q x)) }
        ensures well { OnOk result (WentWell (K.counts out.old) (K.counts out.new)) }
        ensures blamed { IfErr result (λ f. OutputBlamed (RunFault.Feed f)
            (K.counts out.old) (K.counts out.new) (K.is_full out.new)) }
        ensures none { self.new.none ≡ self.old.none }
        ensures counts { self.new.counts ≡ self.old.counts }
        ensures owners { self.new.owners ≡ self.old.owners }
    {
        let takers = self.owners.takers(packet);
        let all = takes_all(self.has_heard, takers);
        self.has_heard = false;
        if packet.unit_start() {
            return self.pass_start(all, takers, packet, libraries, out);
        }
        self.pass_next(all, takers, packet, libraries, out)
    }
}
