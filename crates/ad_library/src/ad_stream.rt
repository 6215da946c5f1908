//! One stream of a filed advertisement.

ghost use Rattle.std.specs.Prelude.{◌≡◌, Some, true};
ghost use Rattle.ad_library.specs.Advertisements.{reaches};
ghost use Rattle.ad_library.specs.Placing.{are_placed, tops_are};

use crate::slice::Slice;
use crate::store::UnitPlace;
use std::alloc::Allocator;

/// How far before the end of a break, in ticks of 90 kHz, the last unit of a stream that fits may begin: half a second.
const MARGIN: u64 = 45_000;

/// One stream of an advertisement.
#[derive(Drop)]
pub(crate) struct AdStream<A: Allocator> {
    /// `stream_type`.
    pub(crate) kind: u8,
    /// The least time of the advertisement, 2^48 above the line.
    pub(crate) zero: u64,
    pub(crate) bytes: Vec<u8, A>,
    pub(crate) places: Vec<UnitPlace, A>,
    ghost placed: { are_placed zero places.items bytes.items ≡ true },
    ghost tops: { tops_are 0 places.items ≡ true },
}

impl<A: Allocator> AdStream<A> {
    ghost use Rattle.ad_library.specs.Advertisements.{slice_of};
    ghost use Rattle.ad_library.specs.Slices.{left};
    ghost use Rattle.ad_library.specs.Library.{stream_seen};

    /// The units of offset below the length.
    pub(crate) fn slice(&self, limit: u64) -> Slice<'_>
        ensures units { left result ≡ slice_of limit (stream_seen self.now).units }
        ensures zero { result.zero ≡ self.now.zero }
    {
        Slice {
            places: self.places.as_slice(),
            bytes: self.bytes.as_slice(),
            zero: self.zero,
            length: limit,
        }
    }

    /// A unit begins at most half a second before the end of this length.
    pub(crate) fn reaches(&self, limit: u64) -> bool
        ensures { result ≡ reaches limit (Some (stream_seen self.now)) }
    {
        match self.places.last() {
            None => false,
            Some(place) => limit.saturating_sub(MARGIN) <= place.top.saturating_sub(self.zero),
        }
    }
}
