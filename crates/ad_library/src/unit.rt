//! One unit lent from the bytes of its stream.

ghost use Rattle.std.specs.Prelude.{◌≡◌, ◌≤◌, ◌<◌, ℕ, List, drop, length, Ok, true, false};
ghost use Rattle.pes_time.specs.Stamps.{is_split, head_of};
ghost use Rattle.ad_library.specs.Advertisements.{slice_of};
ghost use Rattle.ad_library.specs.Placing.{unit_at, units_at, is_placed, are_placed, tops_rise, start_or, begins_below};
ghost use Rattle.ad_library.specs.Lending.{unit_seen, HasHead};

use crate::store::UnitPlace;
use pes_time::PesHead;

/// A unit of an advertisement, lent from the library.
#[derive(Clone, Copy, Debug, PartialEq, Eq)]
pub struct AdUnit<'a> {
    /// The unit, from its packet_start_code_prefix on.
    pub bytes: &'a [u8],
    /// Its time stamps, as they stand in these bytes.
    pub head: PesHead,
    /// The random_access_indicator of the first packet in which it came.
    pub random_access: bool,
    /// How many ticks of 90 kHz its time lies past the least time of the advertisement.
    pub offset: u64,
}

/// Lends the unit at a place, up to where it stops.
#[tactic(auto, using(crate::proofs::PlacingLemmas::starts, crate::proofs::PlacingLemmas::stops, crate::proofs::PlacingLemmas::past, crate::proofs::PlacingLemmas::reads, crate::proofs::PlacingLemmas::fills))]
pub(crate) fn lend<'a>(least: u64, place: &UnitPlace, stop: usize, bytes: &'a [u8]) -> AdUnit<'a>
    requires { is_placed least place.now stop bytes.now ≡ true }
    ensures unit { unit_seen result ≡ unit_at least place.now stop bytes.now }
    ensures head { HasHead result }
    ensures some { 0 < length result.bytes.now }
{
    let unit = &bytes[place.start..stop];
    AdUnit {
        bytes: unit,
        head: read_head(unit),
        random_access: place.random_access,
        offset: place.time - least,
    }
}

/// Where the first of these units starts, or else the bytes end.
pub(crate) fn start_or(places: &[UnitPlace], end: usize) -> usize
    ensures { result ≡ start_or places.now end }
{
    match places.split_first() {
        None => end,
        Some((place, _)) => place.start,
    }
}

/// The places from the first unit of lower offset than the limit on.
pub(crate) fn next_below(places: &[UnitPlace], least: u64, limit: u64) -> &[UnitPlace]
    ensures kept { (bs : List ℕ)
        → slice_of limit (units_at least result.now bs) ≡ slice_of limit (units_at least places.now bs) }
    ensures placed { (bs : List ℕ) → are_placed least places.now bs ≡ true → are_placed least result.now bs ≡ true }
    ensures rising { tops_rise places.now ≡ true → tops_rise result.now ≡ true }
    ensures first { begins_below least limit result.now ≡ true }
{
    let mut ahead = places;
    while let Some((place, behind)) = ahead.split_first() {
        if place.time.saturating_sub(least) < limit {
            return ahead;
        }
        ahead = behind;
    }
    ahead
}

/// That many units are there, and each of them is of lower offset than the limit.
pub(crate) fn are_below(places: &[UnitPlace], count: usize, least: u64, limit: u64) -> bool
    requires { tops_rise places.now ≡ true }
    ensures within { result ≡ true → count ≤ length places.now }
    ensures front { result ≡ true → (bs : List ℕ) →
        drop count (slice_of limit (units_at least places.now bs)) ≡ slice_of limit (units_at least (drop count places.now) bs) }
{
    if count == 0 {
        return true;
    }
    match places.get(count - 1) {
        None => false,
        Some(place) => place.top.saturating_sub(least) < limit,
    }
}

/// The time stamps of a unit.
fn read_head(bytes: &[u8]) -> PesHead
    requires { is_split bytes.now ≡ false }
    ensures { head_of bytes.now ≡ Ok result }
{
    match PesHead::read(bytes) {
        Ok(head) => head,
        Err(_) => unreachable!(),
    }
}
