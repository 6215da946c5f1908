//! What was gathered, filed: each unit by how far it lies past the least time of all.

ghost use Rattle.std.specs.List.{list_all};
ghost use Rattle.std.specs.Prelude.{◌≡◌, ℕ, List, Option, Some, None, OnOk, IfOk, IfErr, reverse, map, option_map, true};
ghost use Rattle.ad_library.specs.Storing.{StoredUnit, Stores, on_line};
ghost use Rattle.ad_library.specs.Advertisements.{KeptStream, stream_from, lower, lower_of, zero_of, advertisement};
ghost use Rattle.ad_library.specs.Library.{stream_seen, advert_seen};
ghost use Rattle.ad_library.specs.Faults.{end_fault, IsWhatIsWrong};
ghost use Rattle.ad_library.specs.Gathering.{Gathers};
ghost use Rattle.ad_library.specs.Filing.{least_of_places, kept_of, ArePast, AllStored, AreOf};
ghost use Rattle.ad_library.specs.Zeros.{has_zero};

use crate::ad_stream::AdStream;
use crate::advert::Advert;
use crate::fault::AdFault;
use crate::gathered::Gathered;
use crate::gathering::Gathering;
use crate::store::UnitPlace;
use std::alloc::{AllocError, Allocator};

impl<A: Allocator + Copy> Gathering<A> {
    /// The advertisement of what was read.
    ///
    /// # Errors
    ///
    /// `NoProgram`, `NoTime`; `OutOfMemory` only where neither is wrong.
    pub(crate) fn finish(self) -> Result<Advert<A>, AdFault>
        requires { (past : List (List ℕ)) × Gathers self past }
        ensures ok { (past : List (List ℕ)) → Gathers self past
            → IfOk result (λ ad. Some (advert_seen ad) ≡ advertisement (reverse past)) }
        ensures sound { (past : List (List ℕ)) → Gathers self past → OnOk result (end_fault (reverse past) ≡ None) }
        ensures err { (past : List (List ℕ)) → Gathers self past
            → IfErr result (IsWhatIsWrong (end_fault (reverse past))) }
    {
        let alloc = self.alloc;
        match self.streams {
            None => Err(AdFault::NoProgram),
            Some(gathered) => match advert_of(gathered, alloc) {
                Ok(advert) => Ok(advert),
                Err(fault) => Err(fault),
            },
        }
    }
}

/// The advertisement of the streams of a program.
fn advert_of<A: Allocator + Copy>(
    gathered: Vec<Gathered<A>, A>,
    alloc: A,
) -> Result<Advert<A>, AdFault>
    requires { (past : List (List ℕ)) × AreOf gathered.items past }
    ensures ok { (past : List (List ℕ)) → AreOf gathered.items past
        → IfOk result (λ ad. Some (advert_seen ad) ≡ advertisement (reverse past)) }
    ensures sound { (past : List (List ℕ)) → AreOf gathered.items past → OnOk result (end_fault (reverse past) ≡ None) }
    ensures err { (past : List (List ℕ)) → AreOf gathered.items past
        → IfErr result (IsWhatIsWrong (end_fault (reverse past))) }
{
    match zero_of(gathered.as_slice()) {
        None => Err(AdFault::NoTime),
        Some(zero) => match file_all(gathered, zero, alloc) {
            Ok(streams) => Ok(Advert { zero, streams }),
            Err(_) => Err(AdFault::OutOfMemory),
        },
    }
}

/// The streams, by how far each unit lies past the zero.
fn file_all<A: Allocator + Copy>(
    gathered: Vec<Gathered<A>, A>,
    zero: u64,
    alloc: A,
) -> Result<Vec<AdStream<A>, A>, AllocError>
    requires { (ks : List KeptStream) × AllStored gathered.items ks × (zero_of ks ≡ Some (on_line zero)) }
    ensures same { IfOk result (λ v. list_all (has_zero zero) v.items ≡ true) }
    ensures streams { (ks : List KeptStream) → AllStored gathered.items ks → zero_of ks ≡ Some (on_line zero)
        → IfOk result (λ v. map stream_seen v.items ≡ map (stream_from (on_line zero)) ks) }
{
    let mut streams = Vec::new(alloc);
    for stream in gathered {
        streams.push(file(stream, zero))?;
    }
    Ok(streams)
}

/// One stream, by how far each unit lies past the zero.
fn file<A: Allocator>(stream: Gathered<A>, zero: u64) -> AdStream<A>
    requires { (us : List StoredUnit) × Stores stream.store us × ArePast zero us }
    ensures zero { result.zero ≡ zero }
    ensures units { (us : List StoredUnit) → Stores stream.store us → ArePast zero us
        → stream_seen result ≡ stream_from (on_line zero) (record { kind = stream.kind; units = kept_of us }) }
{
    AdStream {
        kind: stream.kind,
        zero,
        bytes: stream.store.bytes,
        places: stream.store.places,
    }
}

/// The least time of all streams.
fn zero_of<A: Allocator>(streams: &[Gathered<A>]) -> Option<u64>
    ensures { (ks : List KeptStream) → AllStored streams.now ks → option_map on_line result ≡ zero_of ks }
{
    let mut least = None;
    let mut rest = streams;
    while let Some((stream, behind)) = rest.split_first() {
        least = lower_of(least, stream.store.places.as_slice());
        rest = behind;
    }
    least
}

/// The least of these units' times and of one more.
fn lower_of(before: Option<u64>, places: &[UnitPlace]) -> Option<u64>
    ensures { option_map on_line result ≡ lower_of (option_map on_line before) (least_of_places places.now) }
{
    let mut least = before;
    let mut rest = places;
    while let Some((place, behind)) = rest.split_first() {
        least = Some(lower(least, place.time));
        rest = behind;
    }
    least
}

/// The lower of two times.
fn lower(before: Option<u64>, time: u64) -> u64
    ensures { Some (on_line result) ≡ lower (option_map on_line before) (on_line time) }
{
    match before {
        None => time,
        Some(before) => { if time < before { time } else { before } }
    }
}
