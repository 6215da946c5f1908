//! What becomes of a packet in several services on air.

ghost use Rattle.std.specs.Prelude.{◌≡◌, ◌||◌, ◌++◌, ℕ, List, length, true, false, Option, OnOk, IfOk};
ghost use Rattle.std.specs.List.{list_any};
ghost use Rattle.ts_packet.specs.Fields.{pid_of};
ghost use Rattle.ad_library.specs.Library.{held};
ghost use Rattle.service_laws.specs.Services.{ServiceTerms};
ghost use Rattle.chain_services.specs.Serving.{FiledAs};
ghost use Rattle.services_on_air.specs.Airing.{Airing, next_of, nexts};
ghost use Rattle.services_on_air.specs.Standing.{AirStandsFor, IsSettled, AllStand, AllSettled};
ghost use Rattle.services_on_air.specs.Owners.{MayStay, MayAllStay, IsLeftOut, AreLeftOut};
ghost use Rattle.services_on_air.specs.Histories.{Gone, HasGone, gone_settled, begins_anew, put_settled};
ghost use Rattle.services_on_air.specs.Serving.{AllGone, gones_settled, puts_settled};

use crate::service::{AirService, Numbered};
use crate::watch::ServicesWatch;
use ad_library::AdLibrary;
use chain_services::{leaves_out, leaves_out_all, shift_of};
use ts_packet::{PacketSink, PutFault};

/// Settles for a service what becomes of the next packet, unless that may stay: it is judged then, and no stretch begins with it. Whether one
/// does.
///
/// # Errors
///
/// The sink's.
#[inline(always)]
fn settle_one<K: PacketSink, A: ServicesWatch>(
    is_left_out: bool,
    service: &mut AirService,
    library: &AdLibrary,
    next: Numbered<'_>,
    out: &mut K,
    watch: &mut A,
) -> Result<bool, PutFault>
    ensures leads { K.leads out.old out.new }
    ensures stands { (a : Airing) → AirStandsFor service.old a
        → (is_left_out ≡ true → MayStay service.old (pid_of next.entry.packet.now) a)
        → OnOk result (IsSettled service.new next.entry.packet.now (next_of next.entry.packet.now a)) }
    ensures anew { (a : Airing) → AirStandsFor service.old a
        → (is_left_out ≡ true → MayStay service.old (pid_of next.entry.packet.now) a)
        → IfOk result (λ is_anew. is_anew ≡ begins_anew next.entry.packet.now a) }
    ensures left { (a : Airing) → AirStandsFor service.old a
        → (is_left_out ≡ true → MayStay service.old (pid_of next.entry.packet.now) a) → is_left_out ≡ true
        → IsLeftOut service.new (pid_of next.entry.packet.now) (next_of next.entry.packet.now a) }
    ensures out { (a : Airing) (t : ServiceTerms) (g : Gone) (start : Option (List ℕ)) (ps : List (List ℕ)) → AirStandsFor service.old a
        → (is_left_out ≡ true → MayStay service.old (pid_of next.entry.packet.now) a)
        → held library.now ≡ t.filed → HasGone service.old t g → K.holds out.old start ps
        → OnOk result (HasGone service.new t (gone_settled t (begins_anew next.entry.packet.now a) g)
        × K.holds out.new start (ps ++ put_settled t (begins_anew next.entry.packet.now a) g)) }
{
    if is_left_out {
        return Ok(false);
    }
    service.settle(next, library, out, watch)
}

/// One of them is so.
#[inline(always)]
fn either(one: bool, other: bool) -> bool
    ensures { result ≡ (one || other) }
{
    one || other
}

/// Settles for each of these services what becomes of the next packet, before the messages that come before it are heard: for all, or for those
/// that take it, whose bits are set. Whether a stretch of one begins with it.
///
/// # Errors
///
/// The sink's.
fn settle_each<K: PacketSink, A: ServicesWatch>(
    all: bool,
    takers: u8,
    services: &mut [AirService],
    libraries: &[AdLibrary],
    next: Numbered<'_>,
    out: &mut K,
    watch: &mut A,
) -> Result<bool, PutFault>
    ensures leads { K.leads out.old out.new }
    ensures stands { (xs : List Airing) → AllStand services.old xs → length libraries.now ≡ length xs
        → (all ≡ false → MayAllStay takers services.old (pid_of next.entry.packet.now) xs)
        → OnOk result (AllSettled services.new next.entry.packet.now (nexts next.entry.packet.now xs)) }
    ensures anew { (xs : List Airing) → AllStand services.old xs → length libraries.now ≡ length xs
        → (all ≡ false → MayAllStay takers services.old (pid_of next.entry.packet.now) xs)
        → IfOk result (λ is_anew. is_anew ≡ list_any (begins_anew next.entry.packet.now) xs) }
    ensures left { (xs : List Airing) → AllStand services.old xs → length libraries.now ≡ length xs
        → (all ≡ false → MayAllStay takers services.old (pid_of next.entry.packet.now) xs) → all ≡ false
        → OnOk result (AreLeftOut takers services.new (pid_of next.entry.packet.now) (nexts next.entry.packet.now xs)) }
    ensures out { (xs : List Airing) (ts : List ServiceTerms) (gs : List Gone) (start : Option (List ℕ)) (ps : List (List ℕ))
        → AllStand services.old xs → (all ≡ false → MayAllStay takers services.old (pid_of next.entry.packet.now) xs)
        → FiledAs libraries.now ts → AllGone services.old ts gs → K.holds out.old start ps
        → OnOk result (AllGone services.new ts (gones_settled ts next.entry.packet.now xs gs)
        × K.holds out.new start (ps ++ puts_settled ts next.entry.packet.now xs gs)) }
{
    if leaves_out_all(all, takers) {
        return Ok(false);
    }
    let Some((service, others)) = services.split_first_mut() else {
        return Ok(false);
    };
    let Some((library, libraries)) = libraries.split_first() else {
        return Ok(false);
    };
    let one = match settle_one(leaves_out(all, takers), service, library, next, out, watch) {
        Ok(one) => one,
        Err(fault) => return Err(fault),
    };
    match settle_each(all, takers / 2, others, libraries, next, out, watch) {
        Ok(more) => Ok(either(one, more)),
        Err(fault) => Err(fault),
    }
}

/// Settles for the first of these services, which alone takes it, what becomes of the next packet. It looks at no other one, and so calls itself
/// not.
///
/// # Errors
///
/// The sink's.
#[inline(always)]
fn settle_first<K: PacketSink, A: ServicesWatch>(
    services: &mut [AirService],
    libraries: &[AdLibrary],
    next: Numbered<'_>,
    out: &mut K,
    watch: &mut A,
) -> Result<bool, PutFault>
    ensures leads { K.leads out.old out.new }
    ensures stands { (xs : List Airing) → AllStand services.old xs → length libraries.now ≡ length xs
        → MayAllStay 1 services.old (pid_of next.entry.packet.now) xs
        → OnOk result (AllSettled services.new next.entry.packet.now (nexts next.entry.packet.now xs)) }
    ensures anew { (xs : List Airing) → AllStand services.old xs → length libraries.now ≡ length xs
        → MayAllStay 1 services.old (pid_of next.entry.packet.now) xs
        → IfOk result (λ is_anew. is_anew ≡ list_any (begins_anew next.entry.packet.now) xs) }
    ensures left { (xs : List Airing) → AllStand services.old xs → length libraries.now ≡ length xs
        → MayAllStay 1 services.old (pid_of next.entry.packet.now) xs
        → OnOk result (AreLeftOut 1 services.new (pid_of next.entry.packet.now) (nexts next.entry.packet.now xs)) }
    ensures out { (xs : List Airing) (ts : List ServiceTerms) (gs : List Gone) (start : Option (List ℕ)) (ps : List (List ℕ))
        → AllStand services.old xs → MayAllStay 1 services.old (pid_of next.entry.packet.now) xs
        → FiledAs libraries.now ts → AllGone services.old ts gs → K.holds out.old start ps
        → OnOk result (AllGone services.new ts (gones_settled ts next.entry.packet.now xs gs)
        × K.holds out.new start (ps ++ puts_settled ts next.entry.packet.now xs gs)) }
{
    let Some((service, _others)) = services.split_first_mut() else {
        return Ok(false);
    };
    let Some((library, _behind)) = libraries.split_first() else {
        return Ok(false);
    };
    service.settle(next, library, out, watch)
}

/// Does what [`settle_each`] does, and begins with the first of these services that takes the packet.
///
/// # Errors
///
/// The sink's.
#[inline(always)]
pub(crate) fn settle_some<K: PacketSink, A: ServicesWatch>(
    all: bool,
    takers: u8,
    services: &mut [AirService],
    libraries: &[AdLibrary],
    next: Numbered<'_>,
    out: &mut K,
    watch: &mut A,
) -> Result<bool, PutFault>
    ensures leads { K.leads out.old out.new }
    ensures stands { (xs : List Airing) → AllStand services.old xs → length libraries.now ≡ length xs
        → (all ≡ false → MayAllStay takers services.old (pid_of next.entry.packet.now) xs)
        → OnOk result (AllSettled services.new next.entry.packet.now (nexts next.entry.packet.now xs)) }
    ensures anew { (xs : List Airing) → AllStand services.old xs → length libraries.now ≡ length xs
        → (all ≡ false → MayAllStay takers services.old (pid_of next.entry.packet.now) xs)
        → IfOk result (λ is_anew. is_anew ≡ list_any (begins_anew next.entry.packet.now) xs) }
    ensures left { (xs : List Airing) → AllStand services.old xs → length libraries.now ≡ length xs
        → (all ≡ false → MayAllStay takers services.old (pid_of next.entry.packet.now) xs) → all ≡ false
        → OnOk result (AreLeftOut takers services.new (pid_of next.entry.packet.now) (nexts next.entry.packet.now xs)) }
    ensures out { (xs : List Airing) (ts : List ServiceTerms) (gs : List Gone) (start : Option (List ℕ)) (ps : List (List ℕ))
        → AllStand services.old xs → (all ≡ false → MayAllStay takers services.old (pid_of next.entry.packet.now) xs)
        → FiledAs libraries.now ts → AllGone services.old ts gs → K.holds out.old start ps
        → OnOk result (AllGone services.new ts (gones_settled ts next.entry.packet.now xs gs)
        × K.holds out.new start (ps ++ puts_settled ts next.entry.packet.now xs gs)) }
{
    if leaves_out_all(all, takers) {
        return Ok(false);
    }
    if all {
        return settle_each(all, takers, services, libraries, next, out, watch);
    }
    let shift = shift_of(takers, services.len().min(libraries.len()));
    let (_, services) = services.split_at_mut(shift.count);
    let (_, libraries) = libraries.split_at(shift.count);
    if shift.takers == 1 {
        return settle_first(services, libraries, next, out, watch);
    }
    settle_each(false, shift.takers, services, libraries, next, out, watch)
}
