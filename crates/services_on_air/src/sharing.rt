//! PIDs of two services.

ghost use Rattle.std.specs.Prelude.{◌≡◌, List, map};
ghost use Rattle.services_on_air.specs.Airing.{Airing, meets, share_one, parted_from, parted};
ghost use Rattle.services_on_air.specs.Standing.{AirStandsFor, AllStand};
ghost use Rattle.service_laws.specs.Services.{ServiceTerms};
ghost use Rattle.services_on_air.specs.Histories.{Gone, HasGone};
ghost use Rattle.services_on_air.specs.Serving.{AllGone};

use crate::service::{AirService, Numbered};
use crate::watch::ServicesWatch;
use chain_services::one_is_among;

/// A PID that is known of the one is known of the other, or the PID of its cues.
fn meets(one: &AirService, other: &AirService) -> bool
    ensures { (a b : Airing) → AirStandsFor one.now a → AirStandsFor other.now b → result ≡ meets a b }
{
    let (ours, theirs) = (one.pids(), other.pids());
    one_is_among(ours.as_slice(), other.config().cue_pid, theirs.as_slice())
}

/// These two share a PID.
fn share_one(one: &AirService, other: &AirService) -> bool
    ensures { (a b : Airing) → AirStandsFor one.now a → AirStandsFor other.now b → result ≡ share_one a b }
{
    if meets(one, other) {
        return true;
    }
    meets(other, one)
}

/// Ends the stretch of a service that shares a PID with one before it.
fn part_one<A: ServicesWatch>(
    one: &AirService,
    other: &mut AirService,
    last: Numbered<'_>,
    watch: &mut A,
)
    ensures stands { (a b : Airing) → AirStandsFor one.now a → AirStandsFor other.old b → AirStandsFor other.new (parted_from a b) }
    ensures gone { (t : ServiceTerms) (g : Gone) → HasGone other.old t g → HasGone other.new t g }
{
    if share_one(one, other) {
        other.part(last, watch);
        return;
    }
}

/// Ends the stretch of each of these services that shares a PID with the one before them.
fn part_from<A: ServicesWatch>(
    one: &AirService,
    others: &mut [AirService],
    last: Numbered<'_>,
    watch: &mut A,
)
    ensures stands { (a : Airing) (bs : List Airing) → AirStandsFor one.now a → AllStand others.old bs
        → AllStand others.new (map (parted_from a) bs) }
    ensures gone { (ts : List ServiceTerms) (gs : List Gone) → AllGone others.old ts gs → AllGone others.new ts gs }
{
    let Some((other, others)) = others.split_first_mut() else {
        return;
    };
    part_one(one, other, last, watch);
    part_from(one, others, last, watch);
}

/// Where two of these services share a PID, ends the stretch of the later one with the packet that came last.
pub(crate) fn part_each<A: ServicesWatch>(
    services: &mut [AirService],
    last: Numbered<'_>,
    watch: &mut A,
)
    ensures stands { (xs : List Airing) → AllStand services.old xs → AllStand services.new (parted xs) }
    ensures gone { (ts : List ServiceTerms) (gs : List Gone) → AllGone services.old ts gs → AllGone services.new ts gs }
{
    let Some((one, others)) = services.split_first_mut() else {
        return;
    };
    part_each(others, last, watch);
    part_from(one, others, last, watch);
}
