//! A filed advertisement.

ghost use Rattle.std.specs.Prelude.{◌≡◌, ◌≤◌, ◌<◌, List, length, drop, map, slice_get};
ghost use Rattle.std.specs.Prelude.{option_map, IfSome, OnSome, Option, Some, None, true};
ghost use Rattle.ad_library.specs.Advertisements.{AdvertStream, stream_at, slice, reaches, reaches_end};
ghost use Rattle.ad_library.specs.Advertisements.{fits, fits_behind, one_of_kind, count_of_kind};
ghost use Rattle.std.specs.List.{list_all};
ghost use Rattle.ad_library.specs.Zeros.{has_zero};

use crate::ad_stream::AdStream;
use crate::slice::Slice;
use psi_tables::Stream;
use std::alloc::Allocator;

/// The switched streams of an advertisement, in the order of its map.
#[derive(Drop)]
pub(crate) struct Advert<A: Allocator> {
    /// The least time of all streams, 2^48 above the line.
    pub(crate) zero: u64,
    pub(crate) streams: Vec<AdStream<A>, A>,
    ghost same: { list_all (has_zero zero) streams.items ≡ true },
}

impl<A: Allocator> Advert<A> {
    ghost use Rattle.ad_library.specs.Slices.{left};
    ghost use Rattle.ad_library.specs.Library.{stream_seen, advert_seen};

    /// The stream at this place among those of the type, counted from 0.
    fn stream(&self, kind: u8, k: usize) -> Option<&AdStream<A>>
        ensures stream { option_map (λ s. stream_seen s.now) result ≡ stream_at (advert_seen self.now) kind k }
        ensures zero { IfSome result (λ s. s.now.zero ≡ self.now.zero) }
    {
        let mut before = k;
        let mut rest = self.streams.as_slice();
        while let Some((stream, behind)) = rest.split_first() {
            let one = one_of_kind(stream.kind, kind);
            if before < one {
                return Some(stream);
            }
            before -= one;
            rest = behind;
        }
        None
    }

    /// There is such a stream, and it reaches the end.
    fn reaches(&self, kind: u8, k: usize, limit: u64) -> bool
        ensures { result ≡ reaches limit (stream_at (advert_seen self.now) kind k) }
    {
        match self.stream(kind, k) {
            None => false,
            Some(stream) => stream.reaches(limit),
        }
    }

    /// The units of that stream of offset below the length.
    pub(crate) fn slice(&self, kind: u8, k: usize, limit: u64) -> Option<Slice<'_>>
        ensures units { option_map left result ≡ slice (advert_seen self.now) kind k limit }
        ensures zero { IfSome result (λ s. s.zero ≡ self.now.zero) }
    {
        let stream = self.stream(kind, k)?;
        Some(stream.slice(limit))
    }

    /// Each of these streams has its stream here, which reaches the end.
    pub(crate) fn fits(&self, streams: &[Stream], limit: u64) -> bool
        ensures { result ≡ fits (advert_seen self.now) streams.now limit }
    {
        let mut passed = 0;
        let mut rest = streams;
        while let Some((stream, behind)) = rest.split_first() {
            let (before, _) = streams.split_at(passed);
            if !self.reaches(stream.kind, count_of_kind(stream.kind, before), limit) {
                return false;
            }
            passed += 1;
            rest = behind;
        }
        true
    }
}

/// One, where the types are the same.
fn one_of_kind(kind: u8, other: u8) -> usize
    ensures value { result ≡ one_of_kind kind other }
    ensures small { result ≤ 1 }
{
    if kind == other { 1 } else { 0 }
}

/// How many streams are of this type.
pub fn count_of_kind(kind: u8, streams: &[Stream]) -> usize
    ensures { result ≡ count_of_kind kind streams.now }
{
    let mut count = 0;
    let mut rest = streams;
    while let Some((stream, behind)) = rest.split_first() {
        count += one_of_kind(stream.kind, kind);
        rest = behind;
    }
    count
}
