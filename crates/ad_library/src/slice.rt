//! Units lent from an advertisement.

ghost use Rattle.std.specs.Prelude.{◌≡◌, ◌<◌, ◌≤◌, slice_get, drop, length, option_map, IfSome, true, pos};
ghost use Rattle.pes_time.specs.Line.{ring_of};
ghost use Rattle.ad_library.specs.Storing.{on_line};
ghost use Rattle.ad_library.specs.Lending.{unit_seen, HasHead};
ghost use Rattle.ad_library.specs.Placing.{are_placed, tops_rise};

use crate::store::UnitPlace;
use crate::unit::{AdUnit, are_below, lend, next_below, start_or};
use pes_time::Time33;

/// The units of one stream of an advertisement whose offset lies below a length, one after another in the order of the stream.
#[derive(Clone, Copy, Debug)]
pub struct Slice<'a> {
    /// The places of the units from the next one on, of whatever offset.
    pub(crate) places: &'a [UnitPlace],
    pub(crate) bytes: &'a [u8],
    pub(crate) zero: u64,
    pub(crate) length: u64,
    ghost placed: { are_placed zero places.now bytes.now ≡ true },
    ghost rising: { tops_rise places.now ≡ true },
}

impl<'a> Slice<'a> {
    ghost use Rattle.ad_library.specs.Slices.{left};

    /// The next unit, or `None` behind the last.
    pub fn next(&mut self) -> Option<AdUnit<'a>>
        ensures unit { option_map unit_seen result ≡ slice_get (left self.old) 0 }
        ensures head { IfSome result HasHead }
        ensures some { IfSome result (λ u. 0 < length u.bytes.now) }
        ensures left { left self.new ≡ drop 1 (left self.old) }
        ensures zero { self.new.zero ≡ self.old.zero }
    {
        let ahead = next_below(self.places, self.zero, self.length);
        let Some((place, behind)) = ahead.split_first() else {
            self.places = ahead;
            return None;
        };
        self.places = behind;
        let stop = start_or(behind, self.bytes.len());
        Some(lend(self.zero, place, stop, self.bytes))
    }

    /// Passes over this many units, or all where fewer are left, as so many calls of [`Slice::next`] would. It takes the same time for any
    /// number of them, where none of an offset at or past the length lies before the one that is to be next.
    pub fn skip(&mut self, count: usize)
        ensures left { left self.new ≡ drop count (left self.old) }
        ensures zero { self.new.zero ≡ self.old.zero }
    {
        if are_below(self.places, count, self.zero, self.length) {
            let (_, behind) = self.places.split_at(count);
            self.places = behind;
            return;
        }
        for _turn in 0..count {
            if self.next().is_none() {
                return;
            }
        }
    }

    /// How many ticks of 90 kHz the time of the next unit lies past the least time of the advertisement, or `None` behind the last. Nothing
    /// of the unit's bytes is read.
    pub fn next_offset(&self) -> Option<u64>
        ensures { option_map pos result ≡ option_map (λ u. u.offset) (slice_get (left self.now) 0) }
    {
        match next_below(self.places, self.zero, self.length).split_first() {
            None => None,
            Some((place, _)) => Some(place.time.saturating_sub(self.zero)),
        }
    }

    /// As many units are left at most.
    pub fn most(&self) -> usize
        ensures { length (left self.now) ≤ result }
    {
        self.places.len()
    }

    /// The least time of the advertisement, from which the offsets count, on the ring of 33-bit stamps.
    pub fn zero(&self) -> Time33
        ensures { result ≡ ring_of (on_line self.now.zero) }
    {
        match Time33::new(self.zero % (1 << 33)) {
            Some(zero) => zero,
            None => unreachable!(),
        }
    }
}
