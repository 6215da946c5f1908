//! Whether the running unit goes.

ghost use Rattle.std.specs.Prelude.{◌≡◌, ℕ, ℤ, Option, Some, None, OnOk, IfErr};
ghost use Rattle.pes_time.specs.Stamps.{stamp_of};
ghost use Rattle.unit_stream.specs.Faults.{payload_fault};

use crate::distance::Distance;
use pes_time::Time33;
use unit_stream::{Clock, UnitFault};

/// The cut, and where the run stands to it.
#[derive(Clone, Copy, Debug, PartialEq, Eq)]
pub struct Timing {
    from: Time33,
    length: u32,
    clock: Clock,
    distance: Option<Distance>,
    is_going: bool,
}

impl Timing {
    ghost use Rattle.std.specs.Prelude.{◌<◌, ◌^◌, ◌+ℤ◌, negsuc, pos, ◌≤ℤ◌};
    ghost use Rattle.unit_cut.specs.Standing.{TimingFor, DistanceFor, IsDistance, BeginsWith, Cut, goes_by, high_or};
    ghost use Rattle.unit_stream.specs.Clocks.{way_from};
    ghost use Rattle.pes_time.specs.Line.{place, raise};
    ghost use Rattle.unit_stream.specs.Times.{timed, raised};

    /// The timing before any unit.
    pub fn new(from: Time33, length: u32) -> Timing
        ensures { (k : Cut) → k.from ≡ from → k.length ≡ length → TimingFor result k None None }
    {
        Timing {
            from,
            length,
            clock: Clock::new(),
            distance: None,
            is_going: false,
        }
    }

    /// Whether the unit that has begun last goes.
    pub fn is_going(&self) -> bool
        ensures { result ≡ self.now.is_going }
    {
        self.is_going
    }

    /// Passes the payload of a packet that begins a unit. A unit without a PTS goes or stays as the one before it in its stream.
    ///
    /// # Errors
    ///
    /// `HeaderSplit`, then `TimeJump`. Then nothing has changed.
    pub fn begin(&mut self, payload: &[u8]) -> Result<(), UnitFault>
        ensures ok { (k : Cut) (high before : Option ℤ) → BeginsWith k high (stamp_of payload.now)
            → TimingFor self.old k high before
            → OnOk result (TimingFor self.new k (raised high (stamp_of payload.now))
            (timed high (stamp_of payload.now) before)) }
        ensures sound { (k : Cut) (high before : Option ℤ) → TimingFor self.old k high before →
            OnOk result (payload_fault high payload.now ≡ None) }
        ensures err { (k : Cut) (high before : Option ℤ) → TimingFor self.old k high before →
            IfErr result (λ f. payload_fault high payload.now ≡ Some f) }
        ensures unchanged { IfErr result (λ _. self.new ≡ self.old) }
    {
        match self.clock.begin(payload) {
            Ok(Some(begun)) => {
                self.advance(begun.pts, begun.way);
                Ok(())
            }
            Ok(None) => Ok(()),
            Err(fault) => Err(fault),
        }
    }

    /// The distance before a stamp; the first stamp starts it.
    fn distance_at(&self, pts: Time33) -> Distance
        ensures { (k : Cut) (high : Option ℤ) → BeginsWith k high (Some pts) → k.from ≡ self.now.from
            → DistanceFor self.now.distance k.begin high → IsDistance result.ticks k.begin (high_or high pts) }
    {
        match self.distance {
            Some(distance) => distance,
            None => Distance::start(pts, self.from),
        }
    }

    /// Goes on to a unit with this PTS, whose time lies so far past the greatest before it, or before that one.
    fn advance(&mut self, pts: Time33, way: i64)
        requires low { negsuc 899999 ≤ℤ way }
        requires top { way ≤ℤ pos 900000 }
        ensures from { self.new.from ≡ self.old.from }
        ensures length { self.new.length ≡ self.old.length }
        ensures clock { self.new.clock ≡ self.old.clock }
        ensures distance { (k : Cut) (high : Option ℤ) → BeginsWith k high (Some pts) → k.from ≡ self.old.from
            → DistanceFor self.old.distance k.begin high → way ≡ way_from high pts
            → DistanceFor self.new.distance k.begin (raise high (place high pts)) }
        ensures going { (k : Cut) (high : Option ℤ) → BeginsWith k high (Some pts) → k.from ≡ self.old.from
            → k.length ≡ self.old.length → DistanceFor self.old.distance k.begin high → way ≡ way_from high pts
            → self.new.is_going ≡ goes_by k (Some (place high pts)) }
    {
        let mut distance = self.distance_at(pts);
        self.is_going = distance.advance(way, self.length);
        self.distance = Some(distance);
    }
}
