//! One packet through several services on air.

ghost use Rattle.std.specs.Prelude.{◌≡◌, ◌++◌, ◌<◌, ℕ, List, length, true, false, Option, OnOk, IfOk};
ghost use Rattle.ts_packet.specs.Fields.{pid_of};
ghost use Rattle.ad_library.specs.Library.{held};
ghost use Rattle.service_laws.specs.Services.{ServiceTerms};
ghost use Rattle.chain_services.specs.Serving.{FiledAs};
ghost use Rattle.services_on_air.specs.Airing.{Airing};
ghost use Rattle.services_on_air.specs.Standing.{AirStandsFor, IsSettled, IsPassed, AllStand, AllSettled, ArePassed};
ghost use Rattle.services_on_air.specs.Owners.{AllJudged, IsLeftOut, AreLeftOut, FirstGoesOnAir};
ghost use Rattle.services_on_air.specs.Histories.{Gone, HasGone, gone_on, put_own, aired_as};
ghost use Rattle.services_on_air.specs.Serving.{AllGone, gones_on, puts_on};

use crate::service::{AirService, Passed};
use ad_library::AdLibrary;
use chain_engine::of_bytes;
use chain_services::{Alone, leaves_out, leaves_out_all, shift_of};
use program_follower::StreamPart;
use ts_packet::{Packet, PacketSink, PutFault};

/// How a packet passes that is settled for each service as it stands.
#[derive(Clone, Copy, Debug, PartialEq, Eq)]
pub(crate) enum Still {
    /// No service takes it.
    Beside,
    /// One service alone takes it, and it goes on alone for that one.
    Taken(Alone),
}

/// Passes a packet on through a service, unless it is left out: it changes nothing of the service then.
///
/// # Errors
///
/// The sink's.
#[inline(always)]
fn pass_one<K: PacketSink>(
    is_left_out: bool,
    service: &mut AirService,
    library: &AdLibrary,
    packet: &Packet,
    out: &mut K,
) -> Result<Passed, PutFault>
    ensures leads { K.leads out.old out.new }
    ensures stands { (a : Airing) → IsSettled service.old packet.now a
        → (is_left_out ≡ true → IsLeftOut service.old (pid_of packet.now) a)
        → IfOk result (λ passed. AirStandsFor service.new a × IsPassed passed packet.now a) }
    ensures left { (a : Airing) → (is_left_out ≡ true → IsLeftOut service.old (pid_of packet.now) a)
        → IfOk result (λ passed. passed.has_left ≡ service.new.is_unjudged) }
    ensures out { (a : Airing) (t : ServiceTerms) (g : Gone) (start : Option (List ℕ)) (ps : List (List ℕ))
        → IsSettled service.old packet.now a → (is_left_out ≡ true → IsLeftOut service.old (pid_of packet.now) a)
        → held library.now ≡ t.filed → HasGone service.old t g → K.holds out.old start ps
        → IfOk result (λ passed. HasGone service.new t (gone_on t (aired_as packet.now service.old.is_unjudged) g)
        × K.holds out.new start (ps ++ put_own passed.is_own t (aired_as packet.now service.old.is_unjudged) g)) }
{
    if is_left_out {
        of_bytes(packet);
        return Ok(Passed::beside());
    }
    service.pass(packet, library, out)
}

/// Passes a packet on through these services, each with its library: through all, or through those that take it, whose bits are set.
///
/// # Errors
///
/// The sink's.
fn pass_each<K: PacketSink>(
    all: bool,
    takers: u8,
    services: &mut [AirService],
    libraries: &[AdLibrary],
    packet: &Packet,
    out: &mut K,
) -> Result<Passed, PutFault>
    ensures leads { K.leads out.old out.new }
    ensures stands { (xs : List Airing) → AllSettled services.old packet.now xs → length libraries.now ≡ length xs
        → (all ≡ false → AreLeftOut takers services.old (pid_of packet.now) xs)
        → IfOk result (λ passed. AllStand services.new xs × ArePassed passed packet.now xs) }
    ensures judged { (xs : List Airing) → AllSettled services.old packet.now xs → length libraries.now ≡ length xs
        → (all ≡ false → AreLeftOut takers services.old (pid_of packet.now) xs)
        → IfOk result (λ passed. passed.has_left ≡ false → AllJudged services.new) }
    ensures out { (ys : List Airing) (ts : List ServiceTerms) (gs : List Gone) (start : Option (List ℕ)) (ps : List (List ℕ))
        → AllSettled services.old packet.now ys → (all ≡ false → AreLeftOut takers services.old (pid_of packet.now) ys)
        → FiledAs libraries.now ts → AllGone services.old ts gs → K.holds out.old start ps
        → OnOk result (AllGone services.new ts (gones_on ts packet.now ys gs)
        × K.holds out.new start (ps ++ puts_on ts packet.now ys gs)) }
{
    if leaves_out_all(all, takers) {
        of_bytes(packet);
        return Ok(Passed::beside());
    }
    let Some((service, others)) = services.split_first_mut() else {
        return Ok(Passed::beside());
    };
    let Some((library, libraries)) = libraries.split_first() else {
        return Ok(Passed::beside());
    };
    let one = match pass_one(leaves_out(all, takers), service, library, packet, out) {
        Ok(one) => one,
        Err(fault) => return Err(fault),
    };
    match pass_each(all, takers / 2, others, libraries, packet, out) {
        Ok(others) => Ok(one.joined(others)),
        Err(fault) => Err(fault),
    }
}

/// Passes a packet on through the first of these services, which alone takes it. It looks at no other one, and so calls itself not.
///
/// # Errors
///
/// The sink's.
#[inline(always)]
fn pass_first<K: PacketSink>(
    services: &mut [AirService],
    libraries: &[AdLibrary],
    packet: &Packet,
    out: &mut K,
) -> Result<Passed, PutFault>
    ensures leads { K.leads out.old out.new }
    ensures stands { (xs : List Airing) → AllSettled services.old packet.now xs → length libraries.now ≡ length xs
        → AreLeftOut 1 services.old (pid_of packet.now) xs
        → IfOk result (λ passed. AllStand services.new xs × ArePassed passed packet.now xs) }
    ensures judged { (xs : List Airing) → AllSettled services.old packet.now xs → length libraries.now ≡ length xs
        → AreLeftOut 1 services.old (pid_of packet.now) xs
        → IfOk result (λ passed. passed.has_left ≡ false → AllJudged services.new) }
    ensures out { (ys : List Airing) (ts : List ServiceTerms) (gs : List Gone) (start : Option (List ℕ)) (ps : List (List ℕ))
        → AllSettled services.old packet.now ys → AreLeftOut 1 services.old (pid_of packet.now) ys
        → FiledAs libraries.now ts → AllGone services.old ts gs → K.holds out.old start ps
        → OnOk result (AllGone services.new ts (gones_on ts packet.now ys gs)
        × K.holds out.new start (ps ++ puts_on ts packet.now ys gs)) }
{
    of_bytes(packet);
    let Some((service, _others)) = services.split_first_mut() else {
        return Ok(Passed::beside());
    };
    let Some((library, _behind)) = libraries.split_first() else {
        return Ok(Passed::beside());
    };
    service.pass(packet, library, out)
}

/// Does what [`pass_first`] does, where the packet goes on alone for that service, as this to its stream.
///
/// # Errors
///
/// The sink's.
#[inline(always)]
pub(crate) fn go_on_first<K: PacketSink>(
    of: StreamPart,
    services: &mut [AirService],
    libraries: &[AdLibrary],
    packet: &Packet,
    out: &mut K,
) -> Result<Passed, PutFault>
    requires { of.stream < 8 }
    ensures leads { K.leads out.old out.new }
    ensures stands { (xs : List Airing) → AllSettled services.old packet.now xs → length libraries.now ≡ length xs
        → AreLeftOut 1 services.old (pid_of packet.now) xs
        → FirstGoesOnAir services.old of packet.now
        → IfOk result (λ passed. AllStand services.new xs × ArePassed passed packet.now xs) }
    ensures judged { (xs : List Airing) → AllSettled services.old packet.now xs → length libraries.now ≡ length xs
        → AreLeftOut 1 services.old (pid_of packet.now) xs
        → FirstGoesOnAir services.old of packet.now
        → IfOk result (λ passed. passed.has_left ≡ false → AllJudged services.new) }
    ensures out { (ys : List Airing) (ts : List ServiceTerms) (gs : List Gone) (start : Option (List ℕ)) (ps : List (List ℕ))
        → AllSettled services.old packet.now ys → AreLeftOut 1 services.old (pid_of packet.now) ys
        → FirstGoesOnAir services.old of packet.now
        → FiledAs libraries.now ts → AllGone services.old ts gs → K.holds out.old start ps
        → OnOk result (AllGone services.new ts (gones_on ts packet.now ys gs)
        × K.holds out.new start (ps ++ puts_on ts packet.now ys gs)) }
    ensures alone { IfOk result (λ passed. (passed.is_own ≡ true) × (passed.has_left ≡ false)) }
    ensures still { IfOk result (λ passed. (passed.learns ≡ false) × (passed.is_unjudged ≡ false)) }
{
    of_bytes(packet);
    let Some((service, _others)) = services.split_first_mut() else {
        return Ok(Passed::alone());
    };
    let Some((library, _behind)) = libraries.split_first() else {
        return Ok(Passed::alone());
    };
    service.pass_alone(of, packet, library, out)
}

/// Does what [`pass_each`] does, and begins with the first of these services that takes the packet.
///
/// # Errors
///
/// The sink's.
#[inline(always)]
pub(crate) fn pass_some<K: PacketSink>(
    all: bool,
    takers: u8,
    services: &mut [AirService],
    libraries: &[AdLibrary],
    packet: &Packet,
    out: &mut K,
) -> Result<Passed, PutFault>
    ensures leads { K.leads out.old out.new }
    ensures stands { (xs : List Airing) → AllSettled services.old packet.now xs → length libraries.now ≡ length xs
        → (all ≡ false → AreLeftOut takers services.old (pid_of packet.now) xs)
        → IfOk result (λ passed. AllStand services.new xs × ArePassed passed packet.now xs) }
    ensures judged { (xs : List Airing) → AllSettled services.old packet.now xs → length libraries.now ≡ length xs
        → (all ≡ false → AreLeftOut takers services.old (pid_of packet.now) xs)
        → IfOk result (λ passed. passed.has_left ≡ false → AllJudged services.new) }
    ensures out { (ys : List Airing) (ts : List ServiceTerms) (gs : List Gone) (start : Option (List ℕ)) (ps : List (List ℕ))
        → AllSettled services.old packet.now ys → (all ≡ false → AreLeftOut takers services.old (pid_of packet.now) ys)
        → FiledAs libraries.now ts → AllGone services.old ts gs → K.holds out.old start ps
        → OnOk result (AllGone services.new ts (gones_on ts packet.now ys gs)
        × K.holds out.new start (ps ++ puts_on ts packet.now ys gs)) }
{
    of_bytes(packet);
    if leaves_out_all(all, takers) {
        return Ok(Passed::beside());
    }
    if all {
        return pass_each(all, takers, services, libraries, packet, out);
    }
    let shift = shift_of(takers, services.len().min(libraries.len()));
    let (_, services) = services.split_at_mut(shift.count);
    let (_, libraries) = libraries.split_at(shift.count);
    if shift.takers == 1 {
        return pass_first(services, libraries, packet, out);
    }
    pass_each(false, shift.takers, services, libraries, packet, out)
}
