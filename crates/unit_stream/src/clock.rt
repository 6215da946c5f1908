//! The greatest time of the units that have begun, on the ring of 33-bit stamps.

ghost use Rattle.std.specs.Prelude.{◌≡◌, ℕ, ℤ, pos, negsuc, ◌≤ℤ◌, Option, Some, None, true, false, IfOk, OnOk, IfErr};
ghost use Rattle.pes_time.specs.Stamps.{stamp_of};
ghost use Rattle.unit_stream.specs.Faults.{payload_fault, jumps, is_far};
ghost use Rattle.unit_stream.specs.Times.{raised};

use crate::fault::UnitFault;
use pes_time::{PesHead, Time33};

/// How far a unit may lie from the greatest time so far, before or after it, in ticks of 90 kHz: 10 seconds.
const MAX_JUMP: i64 = 900_000;

/// The time at which a unit begins, as a [`Clock`] met it.
#[derive(Clone, Copy, Debug, PartialEq, Eq)]
pub struct Begun {
    /// The unit's PTS.
    pub pts: Time33,
    /// How many ticks of 90 kHz its time lies past the greatest one before it, -900,000 to 900,000: below 0 it lies before that one.
    /// 0 where no time was before it.
    pub way: i64,
}

/// The greatest time of the units that have begun on any number of PIDs, on the ring. It holds for a run of any length, also where the
/// ring has wrapped.
#[derive(Clone, Copy, Debug, PartialEq, Eq)]
pub struct Clock {
    high: Option<Time33>,
}

impl Clock {
    ghost use Rattle.std.specs.Prelude.{option_map};
    ghost use Rattle.pes_time.specs.Line.{ring_of};
    ghost use Rattle.unit_stream.specs.Clocks.{ClockAt, Tells, IsNear};

    /// The clock before any unit.
    pub fn new() -> Clock
        ensures { ClockAt result None }
    {
        Clock { high: None }
    }

    /// The greatest time so far, or `None` where no unit with a PTS has begun.
    pub fn high(&self) -> Option<Time33>
        ensures { (high : Option ℤ) → ClockAt self.now high → result ≡ option_map ring_of high }
    {
        self.high
    }

    /// Passes the begin of a unit of one of the PIDs: the payload of its first packet. It takes the unit's time for the greatest, where it
    /// is past that, and answers when it begins: `None` where it has no PTS, so that its time is that of the unit before it in its stream.
    ///
    /// # Errors
    ///
    /// `HeaderSplit`, then `TimeJump` where the time lies more than 900,000 ticks from the greatest one, before or after it. Then the clock
    /// is as it was.
    pub fn begin(&mut self, payload: &[u8]) -> Result<Option<Begun>, UnitFault>
        ensures ok { (high : Option ℤ) → ClockAt self.old high
            → OnOk result (ClockAt self.new (raised high (stamp_of payload.now))) }
        ensures sound { (high : Option ℤ) → ClockAt self.old high
            → OnOk result (payload_fault high payload.now ≡ None) }
        ensures tells { (high : Option ℤ) → ClockAt self.old high
            → IfOk result (λ begun. Tells begun high (stamp_of payload.now)) }
        ensures near { IfOk result IsNear }
        ensures err { (high : Option ℤ) → ClockAt self.old high
            → IfErr result (λ f. payload_fault high payload.now ≡ Some f) }
        ensures unchanged { IfErr result (λ _. self.new ≡ self.old) }
    {
        match PesHead::read(payload) {
            Err(_) => Err(UnitFault::HeaderSplit),
            Ok(head) => match head.pts() {
                None => Ok(None),
                Some(pts) => self.advance(pts),
            },
        }
    }

    /// What [`Clock::begin`] would answer to this payload. The clock stays as it is.
    ///
    /// # Errors
    ///
    /// As for [`Clock::begin`].
    pub fn look(&self, payload: &[u8]) -> Result<Option<Begun>, UnitFault>
        ensures sound { (high : Option ℤ) → ClockAt self.now high
            → OnOk result (payload_fault high payload.now ≡ None) }
        ensures tells { (high : Option ℤ) → ClockAt self.now high
            → IfOk result (λ begun. Tells begun high (stamp_of payload.now)) }
        ensures err { (high : Option ℤ) → ClockAt self.now high
            → IfErr result (λ f. payload_fault high payload.now ≡ Some f) }
    {
        let mut clock = *self;
        clock.begin(payload)
    }

    /// Passes the begin of a unit of which it has told this.
    #[inline(always)]
    pub fn pass(&mut self, begun: Option<Begun>)
        ensures { (high : Option ℤ) (stamp : Option ℕ) → ClockAt self.old high → Tells begun high stamp
            → ClockAt self.new (raised high stamp) }
    {
        let Some(begun) = begun else {
            return;
        };
        if begun.way > 0 || self.high.is_none() {
            self.high = Some(begun.pts);
        }
    }

    /// Goes on to the time of a unit.
    fn advance(&mut self, pts: Time33) -> Result<Option<Begun>, UnitFault>
        ensures ok { (high : Option ℤ) → ClockAt self.old high
            → OnOk result (ClockAt self.new (raised high (Some pts))) }
        ensures sound { (high : Option ℤ) → ClockAt self.old high → OnOk result (jumps high (Some pts) ≡ false) }
        ensures tells { (high : Option ℤ) → ClockAt self.old high → IfOk result (λ begun. Tells begun high (Some pts)) }
        ensures near { IfOk result IsNear }
        ensures err { (high : Option ℤ) → ClockAt self.old high
            → IfErr result (λ f. (f ≡ UnitFault.TimeJump) × (jumps high (Some pts) ≡ true)) }
        ensures unchanged { IfErr result (λ _. self.new ≡ self.old) }
    {
        let way = match self.high {
            Some(high) => pts.signed_from(high),
            None => 0,
        };
        if is_far(way) {
            return Err(UnitFault::TimeJump);
        }
        if way > 0 || self.high.is_none() {
            self.high = Some(pts);
        }
        Ok(Some(Begun { pts, way }))
    }
}

/// Whether a distance is too far, either way.
fn is_far(way: i64) -> bool
    ensures { result ≡ is_far way }
{
    way > MAX_JUMP || way < -MAX_JUMP
}
